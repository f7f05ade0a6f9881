//! One character of a literal's body, by the lexer's rules.
ghost use Rattle.std.specs.Prelude.{◌≡◌, ℕ, ◌<◌, ◌∷◌, List, length, min};
ghost use Rattle.std.specs.Char.{digit_value};
ghost use Rattle.std.specs.Str.{byte};
ghost use Rattle.std.specs.Str.Parse.{digits_value};
ghost use Rattle.rap_lexer.specs.Escape.{is_byte, is_single, hex_limit, unicode_escape, plain_character, simple_escape, Escape, Character};

use crate::cursor::Cursor;
use rap_lexer::escape::{Fault, Mode};

/// Bytes and byte strings.
fn is_byte(mode: Mode) -> bool
    ensures { result ≡ is_byte mode }
{
    matches!(mode, Mode::Byte | Mode::ByteStr)
}

/// Characters and bytes.
fn is_single(mode: Mode) -> bool
    ensures { result ≡ is_single mode }
{
    matches!(mode, Mode::Char | Mode::Byte)
}

/// The greatest value of a `\x`.
fn hex_limit(mode: Mode) -> u32
    ensures value { result ≡ hex_limit mode }
    ensures byte { result < 256 }
{
    match mode {
        Mode::Char | Mode::Str => 0x7F,
        Mode::Byte | Mode::ByteStr | Mode::CStr => 0xFF,
    }
}

/// Reads one character of a body, of which `c` is already taken: its value or its fault.
pub fn character(mode: Mode, c: char, rest: &mut Cursor<'_>) -> Result<char, Fault>
    ensures { Character mode (c ∷ rest.old) result rest.new }
{
    if c == '\\' {
        escape(mode, rest)
    } else {
        plain_character(mode, c)
    }
}

/// A character without a backslash.
fn plain_character(mode: Mode, c: char) -> Result<char, Fault>
    ensures { result ≡ plain_character mode c }
{
    if is_single(mode) && matches!(c, '\n' | '\t' | '\'') {
        Err(Fault::EscapeOnlyChar)
    } else if is_byte(mode) && !c.is_ascii() {
        Err(Fault::NonAsciiCharInByte)
    } else {
        Ok(c)
    }
}

/// Reads an escape after its backslash.
fn escape(mode: Mode, rest: &mut Cursor<'_>) -> Result<char, Fault>
    ensures { Escape mode rest.old result rest.new }
{
    match rest.bump() {
        None => Ok('\\'),
        Some('x') => hex_escape(mode, rest),
        Some('u') => unicode_escape(mode, rest),
        Some(c) => simple_escape(c).ok_or(Fault::InvalidEscape),
    }
}

/// What an escape of one character stands for.
fn simple_escape(c: char) -> Option<char>
    ensures { result ≡ simple_escape c }
{
    match c {
        'n' => Some('\n'),
        'r' => Some('\r'),
        't' => Some('\t'),
        '\\' | '\'' | '"' => Some(c),
        '0' => Some('\0'),
        _ => None,
    }
}

/// Reads a `\x` after its `x`.
fn hex_escape(mode: Mode, rest: &mut Cursor<'_>) -> Result<char, Fault>
    ensures { Escape mode (byte "x" ∷ rest.old) result rest.new }
{
    let Some(high) = rest.bump() else {
        return Err(Fault::TooShortHexEscape);
    };
    let Some(high) = high.to_digit(16) else {
        return Err(Fault::InvalidCharInHexEscape);
    };
    let Some(low) = rest.bump() else {
        return Err(Fault::TooShortHexEscape);
    };
    let Some(low) = low.to_digit(16) else {
        return Err(Fault::InvalidCharInHexEscape);
    };
    let value = high * 16 + low;
    if value <= hex_limit(mode) {
        Ok(value as u8 as char)
    } else {
        Err(Fault::OutOfRangeHexEscape)
    }
}

/// Reads a `\u{..}` after its `u`.
fn unicode_escape(mode: Mode, rest: &mut Cursor<'_>) -> Result<char, Fault>
    ensures { Escape mode (byte "u" ∷ rest.old) result rest.new }
{
    if rest.bump() != Some('{') {
        return Err(Fault::NoBraceInUnicodeEscape);
    }
    match rest.bump() {
        None => Err(Fault::UnclosedUnicodeEscape),
        Some('_') => Err(Fault::LeadingUnderscoreUnicodeEscape),
        Some('}') => Err(Fault::EmptyUnicodeEscape),
        Some(c) => match c.to_digit(16) {
            None => Err(Fault::InvalidCharInUnicodeEscape),
            Some(digit) => unicode_digits(mode, digit, rest),
        },
    }
}

/// Reads a `\u{..}` after its first digit.
fn unicode_digits(mode: Mode, first: u32, rest: &mut Cursor<'_>) -> Result<char, Fault>
    requires { first < 16 }
    ensures { (c : ℕ) → digit_value c ≡ first → Escape mode (byte "u" ∷ byte "{" ∷ c ∷ rest.old) result rest.new }
{
    let mut digits = 1;
    let mut value = first;
    'digits: loop {
        match rest.bump() {
            None => return Err(Fault::UnclosedUnicodeEscape),
            Some('}') => return close_unicode(mode, digits, value),
            Some('_') => {}
            Some(c) => {
                let Some(digit) = c.to_digit(16) else {
                    return Err(Fault::InvalidCharInUnicodeEscape);
                };
                digits = (digits + 1).min(7);
                value = (value * 16 + digit).min(0x11_0000);
            }
        }
    }
}

/// What a closed `\u{..}` is: `digits` stops at 7, and `value` at the first number past the characters.
fn close_unicode(mode: Mode, digits: u32, value: u32) -> Result<char, Fault>
    ensures { (cs : List ℕ) → digits ≡ min 7 (length cs) → value ≡ min 0x110000 (digits_value 16 cs) → result ≡ unicode_escape mode cs }
{
    if digits > 6 {
        Err(Fault::OverlongUnicodeEscape)
    } else if is_byte(mode) {
        Err(Fault::UnicodeEscapeInByte)
    } else {
        char::from_u32(value).ok_or(Fault::InvalidUnicodeEscape)
    }
}
