//! Tokens with their places: each leaf that has a class, a token for each of its lines.
ghost use Rattle.std.specs.Prelude.{◌≡◌, ◌+◌, ◌++◌, ◌≤◌, IfOk, OnOk, length, min, option_copied, string_bytes};
ghost use Rattle.std.specs.List.{slice_get};
ghost use Rattle.rast_document.specs.Lines.{line_end};
ghost use Rattle.rast_answers.specs.Tokens.{colored_at, is_asked, piece, place_of, tokens_of, tokens_of_leaf, tokens_of_option};

use crate::places::place_of;
use crate::token_kind::{Class, TokenKind, class_of};
use flat_tree::Element;
use rast_document::{Document, Part};
use std::alloc::{AllocError, Global};

/// A token on one line: the line, the place in it and the length in the document's units.
#[derive(Clone, Copy, Debug, PartialEq, Eq)]
pub struct Token {
    /// The line.
    pub line: usize,
    /// The units of the line before the token.
    pub start: usize,
    /// The length.
    pub length: usize,
    /// The kind.
    pub kind: TokenKind,
    /// The sum of the bits of the modifiers.
    pub modifiers: u32,
}

/// A leaf with its class.
#[derive(Clone, Copy, Debug, PartialEq, Eq)]
struct Colored {
    start: u32,
    end: u32,
    class: Class,
}

/// The part of a range that is on the line of its start, from there on; past the end of the text there is nothing of it.
#[tactic(auto, using(crate::proofs::PieceLaws::line_past, crate::proofs::PieceLaws::end_within, crate::proofs::PieceLaws::place_within))]
fn part_of(document: &Document, start: usize, end: usize) -> Part
    requires { start ≤ end }
    ensures position { result.position ≡ place_of document.now.encoding (string_bytes document.now.text) start }
    ensures end { result.end ≡ min end (line_end (string_bytes document.now.text) start) }
    ensures units { result.position.character + result.units
        ≡ (place_of document.now.encoding (string_bytes document.now.text) result.end).character }
{
    if start <= document.text().len() {
        return document.part(start, end);
    }
    Part {
        position: place_of(document, start),
        end: start,
        units: 0,
    }
}

/// Adds the token of the part of a range that is on the line of its start, if it is not empty: where that part ends.
fn push_piece(
    tokens: &mut Vec<Token>,
    document: &Document,
    start: usize,
    end: usize,
    class: Class,
) -> Result<usize, AllocError>
    requires { start ≤ end }
    ensures end { IfOk result (λ to. to ≡ min end (line_end (string_bytes document.now.text) start)) }
    ensures tokens { OnOk result (tokens.new.items ≡ tokens.old.items
        ++ piece document.now.encoding (string_bytes document.now.text) class start (min end (line_end (string_bytes document.now.text) start))) }
{
    let part = part_of(document, start, end);
    if start < part.end {
        tokens.push(Token {
            line: part.position.line,
            start: part.position.character,
            length: part.units,
            kind: class.kind,
            modifiers: class.modifiers,
        })?;
    }
    Ok(part.end)
}

/// Adds the tokens of a leaf: one for each line of it that is not empty.
fn push_pieces(
    tokens: &mut Vec<Token>,
    document: &Document,
    leaf: Colored,
) -> Result<(), AllocError>
    ensures { OnOk result (tokens.new.items
        ≡ tokens.old.items ++ tokens_of_leaf document.now.encoding (string_bytes document.now.text) leaf) }
{
    let start = leaf.start as usize;
    let end = leaf.end as usize;
    let mut at = start;
    'lines: for _step in start..end {
        if end <= at {
            return Ok(());
        }
        let to = push_piece(tokens, document, at, end, leaf.class)?;
        at = to + 1;
    }
    Ok(())
}

/// The element with this index, if one has it.
fn element_at(elements: &[Element], index: usize) -> Option<&Element>
    ensures { option_copied result ≡ slice_get elements.now index }
{
    elements.get(index)
}

/// Whether an element is a leaf that is in a range or touches it.
fn is_asked(element: &Element, from: usize, to: usize) -> bool
    ensures { result ≡ is_asked from to element.now }
{
    element.is_leaf() && element.start() as usize <= to && from <= element.end() as usize
}

/// The element with this index, if it is a leaf that has a class, and is in a range or touches it.
fn colored_at(elements: &[Element], index: usize, from: usize, to: usize) -> Option<Colored>
    ensures { result ≡ colored_at from to elements.now index }
{
    let element = element_at(elements, index)?;
    if !is_asked(element, from, to) {
        return None;
    }
    let class = class_of(elements, index)?;
    Some(Colored {
        start: element.start(),
        end: element.end(),
        class,
    })
}

/// Adds the tokens of a leaf, if there is one.
fn push_tokens(
    tokens: &mut Vec<Token>,
    document: &Document,
    leaf: Option<Colored>,
) -> Result<(), AllocError>
    ensures { OnOk result (tokens.new.items
        ≡ tokens.old.items ++ tokens_of_option document.now.encoding (string_bytes document.now.text) leaf) }
{
    match leaf {
        Some(leaf) => push_pieces(tokens, document, leaf),
        None => Ok(()),
    }
}

/// The tokens of the leaves that have a class and are in a range, or touch it, in the order of the text. The error means
/// out of memory.
#[tactic(auto, using(crate::proofs::RowLaws::flat_map_next))]
pub(crate) fn tokens(
    alloc: Global,
    document: &Document,
    elements: &[Element],
    from: usize,
    to: usize,
) -> Result<Vec<Token>, AllocError>
    ensures { IfOk result (λ list. list.items
        ≡ tokens_of document.now.encoding (string_bytes document.now.text) from to elements.now) }
{
    let mut list = Vec::new(alloc);
    for index in 0..elements.len() {
        push_tokens(&mut list, document, colored_at(elements, index, from, to))?;
    }
    Ok(list)
}
