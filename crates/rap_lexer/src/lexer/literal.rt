//! Literals in their plainest form, about which there is nothing to report, and other strings.
ghost use Rattle.std.specs.Prelude.{◌≡◌, ◌≢◌, ◌<◌, ◌≤◌, ◌==◌, IfSome, IsTrue, MatchOption, false, true, length, chars, drop, IsCharBoundary};
ghost use Rattle.std.specs.Str.{byte};
ghost use Rattle.rap_base.specs.TokenKind.{CHAR, STRING};
ghost use Rattle.rap_base.specs.TokenTests.{IsTokenKind};
ghost use Rattle.rap_base.specs.declared.edition.Edition.{Edition};
ghost use Rattle.rap_lexer.specs.Common.{next_fits};
ghost use Rattle.rap_lexer.specs.First.{First};
ghost use Rattle.rap_lexer.specs.Lexeme.{literal};
ghost use Rattle.rap_lexer.specs.Plain.{begins_suffix};
ghost use Rattle.rap_lexer.specs.PlainLiteral.{is_simple, is_bare, is_plain_string, is_bare_character, is_escaped_character, is_plain_character, IsPlainLiteral};
ghost use Rattle.rap_lexer.specs.Quoted.{IsLiteral, StringRun};
ghost use Rattle.rap_lexer.specs.Run.{next_is};
ghost use Rattle.rap_lexer.specs.declared.escape.Mode.TheVariants.{Char, Str};

use crate::escape::Mode;
use crate::escape::character::simple_escape;
use crate::lexer::cursor::Cursor;
use crate::lexer::lanes::string_run;
use crate::lexer::lexeme::Lexeme;
use crate::lexer::plain::begins_suffix;
use crate::lexer::quoted::string;
use rap_base::syntax_kind::SyntaxKind;

/// A string that a text begins with.
#[derive(Clone, Copy)]
pub struct StringToken {
    pub token: Lexeme,
    /// Its length in bytes.
    pub len: usize,
    /// Whether it is plain: then there is nothing to report about it.
    pub is_plain: bool,
}

/// Returns the first token of `text`, which must begin with a double quote, as
/// [`first_token`](crate::lexer::first_token) has it, and whether it is a plain string.
///
/// Plain is a closed string in which a backslash stands only before one of `n`, `r`, `t`, `\`, `'`, `"` and `0`, unless an
/// ASCII character that begins an identifier or a character past ASCII follows it. There is nothing to report about one.
#[inline(always)]
pub fn string_token(text: &str) -> StringToken
    requires { next_is (byte "\"") text.now ≡ true }
    ensures token { (edition : Edition) → First edition (chars text.now) result.token (chars (drop result.len text.now)) }
    ensures kind { IsTokenKind result.token.kind }
    ensures positive { 0 < result.len }
    ensures border { IsCharBoundary text.now result.len }
    ensures test { result.is_plain ≡ is_plain_string text.now }
    ensures literal { IsTrue result.is_plain → result.token ≡ literal STRING Str true }
    ensures plain { IsTrue result.is_plain → IsPlainLiteral text.now STRING Str result.len }
{
    let bytes = text.as_bytes();
    let mut end = 1usize;
    'body: loop {
        end += string_run(&bytes[end..]);
        if end == bytes.len() {
            return string_from(text, end);
        }
        if bytes[end] == b'"' {
            let Some(len) = plain_end(bytes, end + 1) else {
                return string_from(text, end);
            };
            return StringToken {
                token: Lexeme::literal(SyntaxKind::STRING, Mode::Str, true),
                len,
                is_plain: true,
            };
        }
        if end + 1 == bytes.len() || !is_simple(bytes[end + 1]) {
            return string_from(text, end);
        }
        end += 2;
    }
}

/// The string of which `at` bytes are taken, by the rules for what follows them.
#[inline(never)]
fn string_from(text: &str, at: usize) -> StringToken
    requires { IsCharBoundary text.now at }
    ensures token { IsLiteral StringRun STRING Str (chars (drop at text.now)) result.token (chars (drop result.len text.now)) }
    ensures further { at ≤ result.len }
    ensures border { IsCharBoundary text.now result.len }
    ensures test { result.is_plain ≡ false }
{
    let mut cursor = Cursor::new(&text[at..]);
    let token = string(&mut cursor, SyntaxKind::STRING, Mode::Str);
    StringToken {
        token,
        len: text.len() - cursor.as_str().len(),
        is_plain: false,
    }
}

/// The end of a literal, if nothing follows that may begin a suffix.
#[inline(always)]
fn plain_end(bytes: &[u8], end: usize) -> Option<usize>
    ensures { MatchOption result (next_fits begins_suffix (drop end bytes.now) ≡ true) (λ n. (n ≡ end) × (next_fits begins_suffix (drop end bytes.now) ≡ false)) }
{
    if end < bytes.len() && begins_suffix(bytes[end]) {
        None
    } else {
        Some(end)
    }
}

/// Returns the length in bytes of the first token of `text`, which must not be empty, if it is a plain character, and
/// otherwise `None`: [`first_token`](crate::lexer::first_token) takes any.
///
/// Plain is a character in quotes that is printing ASCII but no `'` and no backslash, or a backslash and one of `n`, `r`,
/// `t`, `\`, `'`, `"` and `0`; unless an ASCII character that begins an identifier or a character past ASCII follows. There
/// is nothing to report about one.
#[inline(always)]
pub fn plain_character(text: &str) -> Option<usize>
    requires { 0 < length text.now }
    ensures literal { MatchOption result (is_plain_character text.now ≡ false) (λ n. IsPlainLiteral text.now CHAR Char n) }
    ensures plain { IfSome result (λ _. is_plain_character text.now ≡ true) }
{
    let bytes = text.as_bytes();
    if bytes[0] != b'\'' {
        return None;
    }
    if 1 < bytes.len() && bytes[1] == b'\\' {
        escaped_character(text)
    } else {
        bare_character(text)
    }
}

/// How long the bare character in quotes is that the text begins with.
#[inline(always)]
fn bare_character(text: &str) -> Option<usize>
    ensures literal { MatchOption result (is_bare_character text.now ≡ false) (λ n. IsPlainLiteral text.now CHAR Char n) }
    ensures plain { IfSome result (λ _. is_bare_character text.now ≡ true) }
{
    let bytes = text.as_bytes();
    if bytes.len() < 3 {
        return None;
    }
    if bytes[0] != b'\'' {
        return None;
    }
    if bytes[2] != b'\'' {
        return None;
    }
    if !is_bare(bytes[1]) {
        return None;
    }
    plain_end(bytes, 3)
}

/// How long the escape of one character in quotes is that the text begins with.
#[inline(always)]
fn escaped_character(text: &str) -> Option<usize>
    ensures literal { MatchOption result (is_escaped_character text.now ≡ false) (λ n. IsPlainLiteral text.now CHAR Char n) }
    ensures plain { IfSome result (λ _. is_escaped_character text.now ≡ true) }
{
    let bytes = text.as_bytes();
    if bytes.len() < 4 {
        return None;
    }
    if bytes[0] != b'\'' {
        return None;
    }
    if bytes[1] != b'\\' {
        return None;
    }
    if bytes[3] != b'\'' {
        return None;
    }
    if !is_simple(bytes[2]) {
        return None;
    }
    plain_end(bytes, 4)
}

/// Whether a backslash and this character are an escape.
#[inline(always)]
fn is_simple(b: u8) -> bool
    ensures { result ≡ is_simple b }
{
    simple_escape(b as char).is_some()
}

/// Whether the character is printing ASCII that is neither a quote of a character nor a backslash.
#[inline(always)]
pub fn is_bare(b: u8) -> bool
    ensures { result ≡ is_bare b }
{
    32 <= b && b <= 126 && b != b'\'' && b != b'\\'
}
