//! A tree for each of many files: half of them under 5 KB, a few over 100 KB, nearly all without a message.

use crate::digest::{Digest, number};
use crate::failure::Failure;
use crate::texts::Maker;
use flat_tree::FlatTree;
use ra_ap_parser::{Edition, TopEntryPoint};
use std::alloc::Global;

/// Adds all nodes and leaves, and the messages.
pub fn add_tree(digest: &mut Digest, tree: &FlatTree<'_>) {
    digest.count(tree.elements().len());
    for element in tree.elements() {
        let place = element.start() as u64 ^ ((element.end() as u64) << 32);
        let links = element.after() as u64 ^ ((element.parent() as u64) << 32);
        digest.add_two(place ^ (number(element.kind()) << 54), links);
    }
    digest.count(tree.messages().len());
    for message in tree.messages() {
        digest.add_range(message.position() as u64, message.range());
        digest.add_bytes(message.text().as_bytes());
    }
}

/// Makes and parses so many files.
pub fn run(
    alloc: Global,
    maker: &mut Maker<'_>,
    count: u64,
    digest: &mut Digest,
) -> Result<(), Failure> {
    let mut text = String::new(alloc);
    for _ in 0..count {
        text.clear();
        let size = maker.size();
        maker.push_file(&mut text, size)?;
        digest.add_text(text.len());
        let tree = FlatTree::of_text(
            alloc,
            Edition::CURRENT,
            TopEntryPoint::SourceFile,
            text.as_str(),
        )?;
        add_tree(digest, &tree);
    }
    Ok(())
}
