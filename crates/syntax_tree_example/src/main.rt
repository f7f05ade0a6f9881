//! Lists the functions of a file with their ranges: `syntax_tree_example FILE`.
#![tactic(auto)]

use ra_ap_parser::TopEntryPoint::SourceFile;
use ra_ap_parser::{Edition, SyntaxKind};
use std::{env, fs};
use syntax_tree::Tree;

fn main(rt: HostRuntime) -> anyhow::Result<()> {
    let file = env::args(&rt)?.nth(1).unwrap_or(String::new(rt.alloc()));
    let text = fs::read_to_string(&rt, file.as_str())?;
    let tree = Tree::of_text(rt.alloc(), Edition::LATEST, SourceFile, text.as_str())?;
    for node in tree.root().descendants(rt.alloc())? {
        if node.kind() == SyntaxKind::FN {
            println!(rt; "fn at {:?}", node.range())?;
        }
    }
    Ok(())
}
