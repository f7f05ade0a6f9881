//! Identifiers, keywords, and the literals that begin with letters.
ghost use Rattle.std.specs.Prelude.{◌≡◌, ◌∷◌, ◌++◌, ℕ, List, chars, encode_utf8_all};
ghost use Rattle.std.specs.Str.{byte};
ghost use Rattle.rap_lexer.specs.Common.{is_contextual};
ghost use Rattle.rap_lexer.specs.Word.{word_kind, prefix_remark, ends_prefix, starts_raw, starts_raw_ident, starts_prefixed_raw, IsInvalidWord, IsWordBefore, IsWord, IsPastR, IsPastB, IsPastC, IsWordLike};

use crate::escape::Mode;
use crate::lexer::cursor::Cursor;
use crate::lexer::lexeme::{Lexeme, Remark};
use crate::lexer::quoted::{character, string};
use crate::lexer::raw_string::raw_string;
use crate::lexer::run::{Class, eat_run, is_next_in};
use rap_base::edition::Edition;
use rap_base::syntax_kind::SyntaxKind;

/// Takes what begins with the start of an identifier, `first`, which is taken. `text` begins there.
pub fn word_like(edition: Edition, cursor: &mut Cursor<'_>, first: char, text: &str) -> Lexeme
    requires { chars text.now ≡ first ∷ cursor.old }
    ensures { IsWordLike edition first cursor.old result cursor.new }
{
    match first {
        'r' => past_r(edition, cursor, text),
        'b' => past_b(edition, cursor, text),
        'c' => past_c(edition, cursor, text),
        _ => word(edition, cursor, first, text),
    }
}

/// Takes what begins with an `r`.
fn past_r(edition: Edition, cursor: &mut Cursor<'_>, text: &str) -> Lexeme
    requires { chars text.now ≡ byte "r" ∷ cursor.old }
    ensures { IsPastR edition cursor.old result cursor.new }
{
    if starts_raw_ident(cursor) {
        cursor.skip();
        cursor.skip();
        eat_run(cursor, Class::IdentContinue);
        Lexeme::plain(SyntaxKind::IDENT)
    } else if starts_raw(cursor) {
        raw_string(cursor, SyntaxKind::STRING)
    } else {
        word(edition, cursor, 'r', text)
    }
}

/// Takes what begins with a `b`.
fn past_b(edition: Edition, cursor: &mut Cursor<'_>, text: &str) -> Lexeme
    requires { chars text.now ≡ byte "b" ∷ cursor.old }
    ensures { IsPastB edition cursor.old result cursor.new }
{
    if cursor.is_next('\'') {
        cursor.skip();
        character(cursor, SyntaxKind::BYTE, Mode::Byte)
    } else if cursor.is_next('"') {
        cursor.skip();
        string(cursor, SyntaxKind::BYTE_STRING, Mode::ByteStr)
    } else if starts_prefixed_raw(cursor) {
        cursor.skip();
        raw_string(cursor, SyntaxKind::BYTE_STRING)
    } else {
        word(edition, cursor, 'b', text)
    }
}

/// Takes what begins with a `c`.
fn past_c(edition: Edition, cursor: &mut Cursor<'_>, text: &str) -> Lexeme
    requires { chars text.now ≡ byte "c" ∷ cursor.old }
    ensures { IsPastC edition cursor.old result cursor.new }
{
    if cursor.is_next('"') {
        cursor.skip();
        string(cursor, SyntaxKind::C_STRING, Mode::CStr)
    } else if starts_prefixed_raw(cursor) {
        cursor.skip();
        raw_string(cursor, SyntaxKind::C_STRING)
    } else {
        word(edition, cursor, 'c', text)
    }
}

/// Whether a raw identifier stands next, past its `r`.
fn starts_raw_ident(cursor: &Cursor<'_>) -> bool
    ensures { result ≡ starts_raw_ident cursor.now }
{
    cursor.is_next('#') && is_next_in(&cursor.ahead(), Class::IdentStart)
}

/// Whether a raw string stands next, past its `r`.
fn starts_raw(cursor: &Cursor<'_>) -> bool
    ensures { result ≡ starts_raw cursor.now }
{
    cursor.is_next('"') || cursor.is_next('#')
}

/// Whether a raw string stands next, with its `r`.
fn starts_prefixed_raw(cursor: &Cursor<'_>) -> bool
    ensures { result ≡ starts_prefixed_raw cursor.now }
{
    cursor.is_next('r') && starts_raw(&cursor.ahead())
}

/// Takes an identifier whose first character is taken.
fn word(edition: Edition, cursor: &mut Cursor<'_>, first: char, text: &str) -> Lexeme
    requires { chars text.now ≡ first ∷ cursor.old }
    ensures { IsWord edition first cursor.old result cursor.new }
{
    eat_run(cursor, Class::IdentContinue);
    let text = taken(text, cursor);
    word_before(edition, text, cursor)
}

/// The identifier with this text, by what follows it.
fn word_before(edition: Edition, text: &str, cursor: &mut Cursor<'_>) -> Lexeme
    ensures { IsWordBefore edition text.now cursor.old result cursor.new }
{
    if ends_prefix(cursor) {
        Lexeme {
            kind: SyntaxKind::IDENT,
            remark: prefix_remark(text),
        }
    } else if is_next_in(cursor, Class::Emoji) {
        invalid_word(cursor)
    } else {
        Lexeme::plain(word_kind(edition, text))
    }
}

/// Takes the rest of an identifier that has an emoji in it.
pub fn invalid_word(cursor: &mut Cursor<'_>) -> Lexeme
    ensures { IsInvalidWord cursor.old result cursor.new }
{
    eat_run(cursor, Class::InvalidContinue);
    Lexeme {
        kind: SyntaxKind::IDENT,
        remark: Remark::InvalidIdent,
    }
}

/// Whether an identifier before the cursor is a prefix.
fn ends_prefix(cursor: &Cursor<'_>) -> bool
    ensures { result ≡ ends_prefix cursor.now }
{
    cursor.is_next('#') || cursor.is_next('"') || cursor.is_next('\'')
}

/// What is to be reported about a prefix.
fn prefix_remark(text: &str) -> Remark
    ensures { result ≡ prefix_remark text.now }
{
    if text == "builtin" {
        Remark::Nothing
    } else {
        Remark::UnknownPrefix
    }
}

/// The kind of an identifier with this text.
pub fn word_kind(edition: Edition, text: &str) -> SyntaxKind
    ensures { result ≡ word_kind edition text.now }
{
    if text == "_" {
        SyntaxKind::UNDERSCORE
    } else {
        SyntaxKind::from_keyword(text, edition).unwrap_or(SyntaxKind::IDENT)
    }
}

/// The kind of a word with this text, and whether it is an identifier that is a contextual keyword of some edition.
#[inline(always)]
pub fn common_word(edition: Edition, text: &str) -> (SyntaxKind, bool)
    ensures kind { result.0 ≡ word_kind edition text.now }
    ensures contextual { result.1 ≡ is_contextual result.0 text.now }
{
    if text.len() == 1 && text.as_bytes()[0] == b'_' {
        (SyntaxKind::UNDERSCORE, false)
    } else {
        SyntaxKind::of_word(text, edition)
    }
}

/// What stands before the cursor in the text that it came from.
fn taken<'a>(text: &'a str, cursor: &Cursor<'_>) -> &'a str
    requires { (initial : List ℕ) × (chars text.now ≡ initial ++ cursor.now) }
    ensures { (initial : List ℕ) → chars text.now ≡ initial ++ cursor.now → result.now ≡ encode_utf8_all initial }
{
    let rest = cursor.as_str();
    &text[..text.len() - rest.len()]
}
