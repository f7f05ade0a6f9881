//! Tokens as numbers, each relative to the one before.
ghost use Rattle.std.specs.Prelude.{◌≡◌, IfOk};
ghost use Rattle.rast_answers.specs.Deltas.{AreInOrder, decoded, deltas_from, seen_from};

use crate::token_kind::TokenKind;
use crate::tokens::Token;
use std::alloc::{AllocError, Global};

/// A token as five numbers of the protocol: the lines from the one before, the units from it on the same line, else from
/// the line's start; its length in units; the place of its kind in the legend, and the sum of the bits of its modifiers.
#[derive(Clone, Copy, Debug, PartialEq, Eq)]
pub struct Delta {
    /// The lines from the token before.
    pub line: usize,
    /// The units from the start of the token before, if that is on the same line, else from the start of the line.
    pub start: usize,
    /// The length, in units.
    pub length: usize,
    /// The kind.
    pub kind: TokenKind,
    /// The sum of the bits of the modifiers.
    pub modifiers: u32,
}

/// A token as seen from a line and a place in it.
fn seen_from(line: usize, start: usize, token: &Token) -> Delta
    ensures { result ≡ seen_from line start token.now }
{
    let from = if token.line == line { start } else { 0 };
    Delta {
        line: token.line.saturating_sub(line),
        start: token.start.saturating_sub(from),
        length: token.length,
        kind: token.kind,
        modifiers: token.modifiers,
    }
}

/// Tokens, each as seen from the one before, the first one from the start of the text. The error means out of memory.
pub(crate) fn deltas(alloc: Global, tokens: &[Token]) -> Result<Vec<Delta>, AllocError>
    ensures value { IfOk result (λ list. list.items ≡ deltas_from 0 0 tokens.now) }
    ensures decoded { IfOk result (λ list. AreInOrder 0 0 tokens.now → decoded 0 0 list.items ≡ tokens.now) }
{
    let mut list = Vec::with_capacity(alloc, tokens.len())?;
    let mut line = 0;
    let mut start = 0;
    'tokens: for token in tokens {
        list.push(seen_from(line, start, token))?;
        line = token.line;
        start = token.start;
    }
    Ok(list)
}
