//! A node in braces that is parsed again after a key.

use crate::digest::Digest;
use crate::failure::Failure;
use crate::small::{add_errors, add_output};
use ra_ap_parser::{Edition, LexedStr, Reparser, SyntaxKind};
use std::alloc::Global;

/// Parses a node's new text, and asks whether it ends with the node's own brace.
pub fn parse_again(
    alloc: Global,
    node: SyntaxKind,
    text: &str,
    digest: &mut Digest,
) -> Result<(), Failure> {
    let Some(reparser) = Reparser::for_node(node, Some(SyntaxKind::L_CURLY), Some(SyntaxKind::IMPL))
    else {
        return Ok(());
    };
    let lexed = LexedStr::new(alloc, Edition::CURRENT, text)?;
    let input = lexed.to_input(alloc, Edition::CURRENT)?;
    if reparser.can_parse(&input) {
        let output = reparser.parse(alloc, &input)?;
        digest.add(reparser.is_closed(&lexed, &output) as u64);
        add_output(digest, &output);
    }
    add_errors(digest, &lexed);
    Ok(())
}
