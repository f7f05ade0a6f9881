//! Which of the trivia right before a node stand inside it.
ghost use Rattle.std.specs.Prelude.{◌≡◌, ◌+◌, ◌-◌, ◌<◌, ◌≤◌, ◌&&◌, true, not, nat_eq, length, take, drop, reverse, codes};
ghost use Rattle.std.specs.List.{starts_with};
ghost use Rattle.rap_lexed.specs.Attached.{takes_tail, holds_blank_line, looks_like_doc, doc_is_first, item_tail_len};
ghost use Rattle.rap_lexed.specs.LexedStr.{token_at};
ghost use Rattle.rap_lexed.specs.Trivia.{is_trivial, trivia_at, past_trivia};

use crate::lexed_str::{LexedStr, holds_pair};
use rap_base::syntax_kind::SyntaxKind;

/// Whether a node of this kind takes an attached tail: an item's, a field's, a variant's or a macro call's.
#[inline(always)]
pub(super) fn takes_tail(kind: SyntaxKind) -> bool
    ensures { result ≡ takes_tail kind }
{
    matches!(
        kind,
        SyntaxKind::CONST
            | SyntaxKind::ENUM
            | SyntaxKind::FN
            | SyntaxKind::IMPL
            | SyntaxKind::MACRO_CALL
            | SyntaxKind::MACRO_DEF
            | SyntaxKind::MACRO_RULES
            | SyntaxKind::MODULE
            | SyntaxKind::RECORD_FIELD
            | SyntaxKind::STATIC
            | SyntaxKind::STRUCT
            | SyntaxKind::TRAIT
            | SyntaxKind::TUPLE_FIELD
            | SyntaxKind::TYPE_ALIAS
            | SyntaxKind::UNION
            | SyntaxKind::USE
            | SyntaxKind::VARIANT
            | SyntaxKind::EXTERN_CRATE
    )
}

/// Where the attached tail of an item begins whose trivia begin at a place; without a tail, where they end.
///
/// The trivia are gone through once, from the first on: a tail begins at a comment where none has begun, and a blank
/// line ends it.
pub(super) fn tail_begin(lexed: &LexedStr<'_>, start: usize) -> usize
    requires { start ≤ length lexed.now.tokens }
    ensures { result + item_tail_len (trivia_at lexed.now.tokens start) ≡ past_trivia lexed.now.tokens start }
{
    let mut first = start;
    for i in start..lexed.len() {
        if !lexed.kind(i).is_trivia() {
            return first;
        }
        first = begin_after(lexed, start, first, i);
    }
    first
}

/// Where the tail begins with one trivia more; without a tail, after it.
fn begin_after(lexed: &LexedStr<'_>, start: usize, begin: usize, i: usize) -> usize
    requires first { start ≤ i }
    requires inside { i < length lexed.now.tokens }
    requires trivia { is_trivial (token_at lexed.now.tokens i) ≡ true }
    requires begun { begin + item_tail_len (take (i - start) (drop start lexed.now.tokens)) ≡ i }
    ensures { result + item_tail_len (take (i + 1 - start) (drop start lexed.now.tokens)) ≡ i + 1 }
{
    if lexed.kind(i) == SyntaxKind::COMMENT {
        return begin;
    }
    // For the proof: it fits its type.
    let _count = lexed.len();
    if begin == i || ends_tail(lexed, start, i) {
        i + 1
    } else {
        begin
    }
}

/// Whether a tail ends before this token: it is white space with a blank line, and not right after a `/**/`.
fn ends_tail(lexed: &LexedStr<'_>, start: usize, i: usize) -> bool
    requires first { start ≤ i }
    requires inside { i < length lexed.now.tokens }
    ensures { result ≡ (holds_blank_line (token_at lexed.now.tokens i) && not (doc_is_first (reverse (take (i - start) (drop start lexed.now.tokens))))) }
{
    holds_blank_line(lexed, i) && !follows_doc(lexed, start, i)
}

/// Whether a `/**/` stands right before the token.
fn follows_doc(lexed: &LexedStr<'_>, start: usize, i: usize) -> bool
    requires first { start ≤ i }
    requires inside { i < length lexed.now.tokens }
    ensures { result ≡ doc_is_first (reverse (take (i - start) (drop start lexed.now.tokens))) }
{
    start < i && looks_like_doc(lexed, i - 1)
}

/// Whether the token is white space that holds two line feeds in a row.
fn holds_blank_line(lexed: &LexedStr<'_>, i: usize) -> bool
    requires { i < length lexed.now.tokens }
    ensures { result ≡ holds_blank_line (token_at lexed.now.tokens i) }
{
    lexed.kind(i) == SyntaxKind::WHITESPACE && holds_pair(b'\n', b'\n', lexed.text(i).as_bytes())
}

/// Whether the token is a plain comment that begins as a doc comment.
fn looks_like_doc(lexed: &LexedStr<'_>, i: usize) -> bool
    requires { i < length lexed.now.tokens }
    ensures { result ≡ looks_like_doc (token_at lexed.now.tokens i) }
{
    lexed.kind(i) == SyntaxKind::COMMENT && begins_as_doc(lexed.text(i))
}

/// Whether a text begins as an outer doc comment in stars does.
fn begins_as_doc(text: &str) -> bool
    ensures { result ≡ (starts_with nat_eq text.now (codes "/**") && not (starts_with nat_eq text.now (codes "/***"))) }
{
    text.starts_with("/**") && !text.starts_with("/***")
}
