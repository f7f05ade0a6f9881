// Written by crates/rap_base/kinds from kinds.txt beside it: an edit here is lost.
//! The kinds of words. The lexer looks each word up, so that takes one comparison.
ghost use Rattle.std.specs.Prelude.{◌≡◌, ◌≤◌, length};
ghost use Rattle.rap_base.specs.Word.{known_kind, place};

use super::SyntaxKind;
use super::word_table::word_table;

/// The kind of a word that the latest edition reserves, or that is contextual in every edition.
#[inline(always)]
pub(super) fn known_word(text: &str) -> Option<SyntaxKind>
    ensures { result ≡ known_kind text.now }
{
    let len = text.len();
    if len < 2 || 15 < len {
        return None;
    }
    let (word, number) = word_table()[place(text.as_bytes())];
    if word == text {
        Some(SyntaxKind { number })
    } else {
        None
    }
}

/// Where the word stands in the table, if it is there. No two words have the same place.
#[inline(always)]
fn place(text: &[u8]) -> usize
    requires some { 2 ≤ length text.now }
    requires few { length text.now ≤ 15 }
    ensures { result ≡ place text.now }
{
    let len = text.len();
    let first = usize::from(text[0]);
    let middle = usize::from(text[len / 2]);
    (192 * len + 31 * first + middle) % 512
}
