//! Texts that are being written, or are no Rust: cut off, a bracket or a quote short or too many, with the marks of a
//! merge, other languages, brackets some thousands deep, and operators by the thousand.

use crate::digest::Digest;
use crate::failure::Failure;
use crate::files::add_tree;
use crate::shapes::Shapes;
use crate::texts::Maker;
use flat_tree::FlatTree;
use ra_ap_parser::{Edition, TopEntryPoint};
use std::alloc::{AllocError, Global};

/// What comes into a text at a place.
const INTRUDERS: [&str; 12] = [
    "{", "}", "\"", "(", ")", "'", "<", "/*", "#[", "->", "fn ", "---",
];

/// What stands many times in a row.
const REPEATED: [&str; 16] = [
    "(", "[", "{", "([{", "a+", "a.", "&", "!", "|", "..", "=>", ",", "'", "<", "#[", "a::<",
];

/// The front of a text up to a place, or past it to the next character.
fn front(text: &str, place: u64) -> &str {
    for more in 0..4u64 {
        let end = place.saturating_add(more) as usize;
        if text.is_char_boundary(end)
            && let Some(front) = text.get(..end)
        {
            return front;
        }
    }
    text
}

/// Adds a file with a fault or three: something comes in, or something is gone.
fn push_edited(
    alloc: Global,
    maker: &mut Maker<'_>,
    text: &mut String,
    bytes: u64,
) -> Result<(), AllocError> {
    let mut whole = String::new(alloc);
    maker.push_file(&mut whole, bytes)?;
    let mut rest = whole.as_str();
    for _ in 0..3 {
        let place = maker.random.below((rest.len() as u64).saturating_add(1));
        let before = front(rest, place);
        text.push_str(before)?;
        let index = maker.random.below(16);
        match INTRUDERS.get(index as usize) {
            Some(intruder) => text.push_str(intruder)?,
            None => {
                let shapes = maker.shapes;
                let shape = maker.pick(shapes.odd.as_slice());
                maker.push_shape(text, shape)?;
            }
        }
        let gone = maker.random.below(4);
        let after = rest.get(before.len()..).unwrap_or("");
        rest = after.get(front(after, gone).len()..).unwrap_or("");
    }
    text.push_str(rest)?;
    Ok(())
}

/// Adds the same many times.
fn push_repeated(maker: &mut Maker<'_>, text: &mut String) -> Result<(), AllocError> {
    let index = maker.random.below(16);
    let piece = REPEATED.get(index as usize).copied().unwrap_or("(");
    let copies = maker.random.below(1_000).saturating_add(2_000);
    text.push_str("fn f() { x = ")?;
    for _ in 0..copies {
        text.push_str(piece)?;
    }
    Ok(())
}

/// Adds a text of one of these sorts.
fn push_text<'s>(
    alloc: Global,
    maker: &mut Maker<'s>,
    text: &mut String,
) -> Result<(), AllocError> {
    let shapes: &'s Shapes<'s> = maker.shapes;
    let size = maker.size();
    match maker.random.below(16) {
        0..=8 => push_edited(alloc, maker, text, size),
        9 | 10 => {
            let mut whole = String::new(alloc);
            maker.push_file(&mut whole, size)?;
            let place = maker.random.below(whole.len() as u64 + 1);
            text.push_str(front(whole.as_str(), place))?;
            Ok(())
        }
        11 | 12 => maker.push_shapes(text, shapes.odd.as_slice(), size / 4),
        13 => {
            text.push_str("const X: u64 = 0")?;
            for _ in 0..2_000u64 {
                text.push_str(" + ")?;
                let shape = maker.pick(shapes.expressions.as_slice());
                maker.push_shape(text, shape)?;
            }
            text.push_str(";")?;
            Ok(())
        }
        _ => push_repeated(maker, text),
    }
}

/// Makes and parses so many texts.
pub fn run(
    alloc: Global,
    maker: &mut Maker<'_>,
    count: u64,
    digest: &mut Digest,
) -> Result<(), Failure> {
    let mut text = String::new(alloc);
    for _ in 0..count {
        text.clear();
        push_text(alloc, maker, &mut text)?;
        digest.add_text(text.len());
        let tree = FlatTree::of_text(
            alloc,
            Edition::CURRENT,
            TopEntryPoint::SourceFile,
            text.as_str(),
        )?;
        add_tree(digest, &tree);
    }
    Ok(())
}
