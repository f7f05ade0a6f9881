//! The lexer: the first token of a text, by the lexical rules of the Rust Reference ("Lexical structure") and, where a
//! token is malformed, those of rustc's own lexer.
ghost use Rattle.std.specs.Prelude.{◌≡◌, ◌<◌, length, chars, drop, IsCharBoundary};
ghost use Rattle.rap_base.specs.TokenTests.{IsTokenKind};
ghost use Rattle.rap_lexer.specs.First.{single_kind, is_reserved_hash, IsSlash, IsHash, IsSign, First};
ghost use Rattle.rap_lexer.specs.OneToken.{IsOnlyToken};

use crate::escape::Mode;
use crate::lexer::comment::{block_comment, line_comment};
use crate::lexer::cursor::Cursor;
use crate::lexer::number::number;
use crate::lexer::quoted::{string, tick};
use crate::lexer::run::{Class, eat_run, is_in};
use crate::lexer::word::{invalid_word, word_like};
pub use common::{CommonToken, common_token};
pub use lexeme::{Lexeme, Remark};
pub use literal::{StringToken, plain_character, string_token};
pub use plain::quick_token;
use rap_base::edition::Edition;
use rap_base::syntax_kind::SyntaxKind;

mod comment;
mod common;
pub(crate) mod cursor;
mod lanes;
mod lexeme;
pub(crate) mod literal;
mod number;
mod plain;
mod quoted;
mod raw_string;
mod run;
mod word;

/// Returns the first token of `text`, which must not be empty, and its length in bytes.
pub fn first_token(edition: Edition, text: &str) -> (Lexeme, usize)
    requires { 0 < length text.now }
    ensures token { First edition (chars text.now) result.0 (chars (drop result.1 text.now)) }
    ensures only { IsOnlyToken edition text.now result.0 result.1 }
    ensures kind { IsTokenKind result.0.kind }
    ensures positive { 0 < result.1 }
    ensures border { IsCharBoundary text.now result.1 }
{
    let mut cursor = Cursor::new(text);
    let token = take_token(edition, &mut cursor);
    (token, text.len() - cursor.as_str().len())
}

/// Takes the first token: comments, lifetimes, characters and numbers are told by their first byte, before the tests for
/// white space and words.
fn take_token(edition: Edition, cursor: &mut Cursor<'_>) -> Lexeme
    requires { 0 < length cursor.old }
    ensures { First edition cursor.old result cursor.new }
{
    let text = cursor.as_str();
    match cursor.bump() {
        None => unreachable!(),
        Some(c) => {
            if c == '/' {
                slash(cursor)
            } else if c == '\'' {
                tick(cursor)
            } else if is_in(Class::Digit, c) {
                number(cursor, c)
            } else if is_in(Class::White, c) {
                eat_run(cursor, Class::White);
                Lexeme::plain(SyntaxKind::WHITESPACE)
            } else if is_in(Class::IdentStart, c) {
                word_like(edition, cursor, c, text)
            } else {
                sign(edition, cursor, c)
            }
        }
    }
}

/// Takes a token that begins with neither white space nor an identifier nor a digit.
fn sign(edition: Edition, cursor: &mut Cursor<'_>, first: char) -> Lexeme
    ensures { IsSign edition first cursor.old result cursor.new }
{
    match first {
        '/' => slash(cursor),
        '\'' => tick(cursor),
        '"' => string(cursor, SyntaxKind::STRING, Mode::Str),
        '#' => hash(edition, cursor),
        _ if is_in(Class::Emoji, first) => invalid_word(cursor),
        _ => Lexeme::plain(single_kind(first)),
    }
}

/// Takes a token that begins with `/`.
fn slash(cursor: &mut Cursor<'_>) -> Lexeme
    ensures { IsSlash cursor.old result cursor.new }
{
    if cursor.is_next('/') {
        cursor.skip();
        line_comment(cursor)
    } else if cursor.is_next('*') {
        cursor.skip();
        block_comment(cursor)
    } else {
        Lexeme::plain(SyntaxKind::SLASH)
    }
}

/// Takes a token that begins with `#`.
fn hash(edition: Edition, cursor: &mut Cursor<'_>) -> Lexeme
    ensures { IsHash edition cursor.old result cursor.new }
{
    if is_reserved_hash(edition, cursor) {
        cursor.skip();
        Lexeme {
            kind: SyntaxKind::ERROR,
            remark: Remark::ReservedString,
        }
    } else {
        Lexeme::plain(SyntaxKind::POUND)
    }
}

/// Whether a `#` before the cursor begins a reserved guarded string.
fn is_reserved_hash(edition: Edition, cursor: &Cursor<'_>) -> bool
    ensures { result ≡ is_reserved_hash edition cursor.now }
{
    edition.at_least_2024() && (cursor.is_next('"') || cursor.is_next('#'))
}

/// The kind of a character that is a token of its own.
fn single_kind(c: char) -> SyntaxKind
    ensures { result ≡ single_kind c }
{
    match c {
        ';' => SyntaxKind::SEMICOLON,
        ',' => SyntaxKind::COMMA,
        '(' => SyntaxKind::L_PAREN,
        ')' => SyntaxKind::R_PAREN,
        '{' => SyntaxKind::L_CURLY,
        '}' => SyntaxKind::R_CURLY,
        '[' => SyntaxKind::L_BRACK,
        ']' => SyntaxKind::R_BRACK,
        '<' => SyntaxKind::L_ANGLE,
        '>' => SyntaxKind::R_ANGLE,
        '@' => SyntaxKind::AT,
        '#' => SyntaxKind::POUND,
        '~' => SyntaxKind::TILDE,
        '?' => SyntaxKind::QUESTION,
        '$' => SyntaxKind::DOLLAR,
        '&' => SyntaxKind::AMP,
        '|' => SyntaxKind::PIPE,
        '+' => SyntaxKind::PLUS,
        '*' => SyntaxKind::STAR,
        '/' => SyntaxKind::SLASH,
        '^' => SyntaxKind::CARET,
        '%' => SyntaxKind::PERCENT,
        '.' => SyntaxKind::DOT,
        ':' => SyntaxKind::COLON,
        '=' => SyntaxKind::EQ,
        '!' => SyntaxKind::BANG,
        '-' => SyntaxKind::MINUS,
        _ => SyntaxKind::ERROR,
    }
}
