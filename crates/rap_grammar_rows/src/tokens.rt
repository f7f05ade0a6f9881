//! Tokens against the pieces of a row.
ghost use Rattle.std.specs.Prelude.{◌≡◌, ◌+◌, true, slice_range, IfSome, IsTrue};
ghost use Rattle.rap_grammar_rows.specs.Claims.{IsPiece};
ghost use Rattle.rap_grammar_rows.specs.Code.{sets};
ghost use Rattle.rap_grammar_rows.specs.Decode.{set_in, words_in};
ghost use Rattle.rap_grammar_rows.specs.declared.shape.Shape.TheVariants.{Any};
ghost use Rattle.rap_grammar_table.specs.Known.{among, within};
ghost use Rattle.rap_grammar_table.specs.Table.{tok, word, comp};

use crate::lists::{member_starts, members};
use rap_base::syntax_kind::SyntaxKind;
use rap_events::input::Input;
use rap_events::parser::{Parser, width_of};
use std::alloc::Global;

/// The numbers of a list from one place to before another, as far as the list goes.
pub fn between(numbers: &'static [u16], start: usize, end: usize) -> &'static [u16]
    ensures { result.now ≡ slice_range numbers.now start end }
{
    let end = end.min(numbers.len());
    if start >= end {
        return &[];
    }
    &numbers[start..end]
}

/// Returns the set with this number. Past the last one it is empty.
#[tactic(auto, using(crate::proofs::Sets::set_is, crate::proofs::Sets::set_past))]
fn set(number: usize) -> &'static [u16]
    ensures { result.now ≡ set_in number sets }
{
    if number >= 106 {
        return &[];
    }
    let starts = member_starts();
    let start = usize::from(starts[number]);
    between(members(), start, usize::from(starts[number + 1]))
}

/// Whether a value is in the set with this number.
pub fn contains(number: usize, value: u16) -> bool
    ensures { IsTrue result → among (set_in number sets) value ≡ true }
{
    let members = set(number);
    for member in members {
        if *member == value {
            return true;
        }
    }
    false
}

/// Whether a word is one of those that a token may be read as.
pub fn has_word(words: usize, value: u16) -> bool
    ensures { IsTrue result → within (words_in words sets) value ≡ true }
{
    words == 0 || contains(words - 1, value)
}

/// Whether the token at a place has one of the kinds of a set, and is read as one of the words of another.
pub fn is_token(input: &Input, at: usize, kinds: usize, words: usize) -> bool
    ensures { IsTrue result → IsPiece input.now (tok (set_in kinds sets) (words_in words sets)) at (at + 1) Any }
{
    if at >= input.len() {
        return false;
    }
    let kind = u16::from(input.kind(at));
    let word = u16::from(input.contextual_kind(at));
    if !contains(kinds, kind) {
        return false;
    }
    has_word(words, word)
}

/// Whether the token at a place is an identifier that may be taken as this word.
pub fn is_word(input: &Input, at: usize, kind: u16) -> bool
    ensures { IsTrue result → IsPiece input.now (word kind) at (at + 1) Any }
{
    if at >= input.len() || input.kind(at) != SyntaxKind::IDENT {
        return false;
    }
    u16::from(input.contextual_kind(at)) == kind
}

/// Returns where the operator that stands at a place ends.
pub fn operator_end(alloc: Global, input: &Input, at: usize, kind: u16) -> Option<usize>
    ensures { IfSome result (λ end. IsPiece input.now (comp kind) at end Any) }
{
    if kind > u16::from(SyntaxKind::PATH_META) {
        return None;
    }
    let operator = SyntaxKind::from_u16(kind);
    let width = width_of(operator);
    if width < 2 || !Parser::new(alloc, input).nth_at(at, operator) {
        return None;
    }
    if at > usize::MAX - usize::from(width) {
        return None;
    }
    Some(at + usize::from(width))
}
