//! Large texts, of 4 MB each: tables, strings, escapes, long comments, macros. They are lexed, as a highlighter does, and
//! parsed, and the steps of the tree go to a sink.

use crate::digest::{Digest, number};
use crate::failure::Failure;
use crate::shapes::Shapes;
use crate::small::add_errors;
use crate::texts::Maker;
use ra_ap_parser::{Edition, LexedStr, TopEntryPoint, parse_text};
use std::alloc::Global;

const BYTES: u64 = 4_000_000;

/// Adds the tokens of a text and the lexer's messages.
fn add_tokens(digest: &mut Digest, lexed: &LexedStr<'_>) {
    digest.count(lexed.len());
    for i in 0..lexed.len() {
        digest.add_range(number(lexed.kind(i)), lexed.text_range(i));
    }
    add_errors(digest, lexed);
}

/// Makes so many texts; every other one is only lexed, and the rest are parsed.
pub fn run<'s>(
    alloc: Global,
    maker: &mut Maker<'s>,
    count: u64,
    digest: &mut Digest,
) -> Result<(), Failure> {
    let shapes: &'s Shapes<'s> = maker.shapes;
    let mut text = String::new(alloc);
    for i in 0..count {
        text.clear();
        maker.push_shapes(&mut text, shapes.data.as_slice(), BYTES)?;
        digest.add_text(text.len());
        if i % 2 == 0 {
            let lexed = LexedStr::new(alloc, Edition::CURRENT, text.as_str())?;
            add_tokens(digest, &lexed);
        } else {
            let parsed = parse_text(
                alloc,
                Edition::CURRENT,
                TopEntryPoint::SourceFile,
                text.as_str(),
                digest,
            )?;
            digest.add(parsed.lexed.len() as u64);
        }
    }
    Ok(())
}
