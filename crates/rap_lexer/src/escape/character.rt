//! One character of a literal's body, written with or without a backslash.
ghost use Rattle.std.specs.Prelude.{◌≡◌, ℕ, ◌<◌, ◌∷◌, List, length, min};
ghost use Rattle.std.specs.Str.{byte};
ghost use Rattle.std.specs.Char.{digit_value};
ghost use Rattle.std.specs.Str.Parse.{digits_value};
ghost use Rattle.rap_lexer.specs.Escape.{unicode_escape, plain_character, simple_escape, Escape, Character};

use crate::escape::{Fault, Mode};
use crate::lexer::cursor::Cursor;

/// Reads one character of a body, of which `c` is already taken, and returns its value or its fault.
///
/// A faulty escape takes the characters up to the one at which the fault is found.
pub fn character(mode: Mode, c: char, rest: &mut Cursor<'_>) -> Result<u32, Fault>
    ensures { Character mode (c ∷ rest.old) result rest.new }
{
    if c == '\\' {
        escape(mode, rest)
    } else {
        plain_character(mode, c)
    }
}

fn plain_character(mode: Mode, c: char) -> Result<u32, Fault>
    ensures { result ≡ plain_character mode c }
{
    if mode.is_single() && matches!(c, '\n' | '\t' | '\'') {
        Err(Fault::EscapeOnlyChar)
    } else if mode.is_byte() && !c.is_ascii() {
        Err(Fault::NonAsciiCharInByte)
    } else {
        Ok(c as u32)
    }
}

// An escape after its backslash.
fn escape(mode: Mode, rest: &mut Cursor<'_>) -> Result<u32, Fault>
    ensures { Escape mode rest.old result rest.new }
{
    match rest.bump() {
        None => Ok('\\' as u32),
        Some('x') => hex_escape(mode, rest),
        Some('u') => unicode_escape(mode, rest),
        Some(c) => simple_escape(c).ok_or(Fault::InvalidEscape),
    }
}

/// What an escape of one character stands for.
pub fn simple_escape(c: char) -> Option<u32>
    ensures { result ≡ simple_escape c }
{
    match c {
        'n' => Some('\n' as u32),
        'r' => Some('\r' as u32),
        't' => Some('\t' as u32),
        '\\' | '\'' | '"' => Some(c as u32),
        '0' => Some(0),
        _ => None,
    }
}

// A `\x` after its `x`.
fn hex_escape(mode: Mode, rest: &mut Cursor<'_>) -> Result<u32, Fault>
    ensures { Escape mode (byte "x" ∷ rest.old) result rest.new }
{
    let Some(high) = rest.bump() else {
        return Err(Fault::TooShortHexEscape);
    };
    let Some(high) = high.to_digit(16) else {
        return Err(Fault::InvalidCharInHexEscape);
    };
    let Some(low) = rest.bump() else {
        return Err(Fault::TooShortHexEscape);
    };
    let Some(low) = low.to_digit(16) else {
        return Err(Fault::InvalidCharInHexEscape);
    };
    let value = high * 16 + low;
    if value <= mode.hex_limit() {
        Ok(value)
    } else {
        Err(Fault::OutOfRangeHexEscape)
    }
}

// A `\u{..}` after its `u`.
fn unicode_escape(mode: Mode, rest: &mut Cursor<'_>) -> Result<u32, Fault>
    ensures { Escape mode (byte "u" ∷ rest.old) result rest.new }
{
    if rest.bump() != Some('{') {
        return Err(Fault::NoBraceInUnicodeEscape);
    }
    match rest.bump() {
        None => Err(Fault::UnclosedUnicodeEscape),
        Some('_') => Err(Fault::LeadingUnderscoreUnicodeEscape),
        Some('}') => Err(Fault::EmptyUnicodeEscape),
        Some(c) => match c.to_digit(16) {
            None => Err(Fault::InvalidCharInUnicodeEscape),
            Some(digit) => unicode_digits(mode, digit, rest),
        },
    }
}

// A `\u{..}` after its first digit.
fn unicode_digits(mode: Mode, first: u32, rest: &mut Cursor<'_>) -> Result<u32, Fault>
    requires { first < 16 }
    ensures { (c : ℕ) → digit_value c ≡ first → Escape mode (byte "u" ∷ byte "{" ∷ c ∷ rest.old) result rest.new }
{
    let mut digits = 1;
    let mut value = first;
    'digits: loop {
        match rest.bump() {
            None => return Err(Fault::UnclosedUnicodeEscape),
            Some('}') => return close_unicode(mode, digits, value),
            Some('_') => {}
            Some(c) => {
                let Some(digit) = c.to_digit(16) else {
                    return Err(Fault::InvalidCharInUnicodeEscape);
                };
                digits = (digits + 1).min(7);
                value = (value * 16 + digit).min(0x11_0000);
            }
        }
    }
}

// What a closed `\u{..}` is: `digits` stops at 7, and `value` at the first number past the characters.
fn close_unicode(mode: Mode, digits: u32, value: u32) -> Result<u32, Fault>
    ensures { (cs : List ℕ) → digits ≡ min 7 (length cs) → value ≡ min 0x110000 (digits_value 16 cs) → result ≡ unicode_escape mode cs }
{
    if digits > 6 {
        Err(Fault::OverlongUnicodeEscape)
    } else if mode.is_byte() {
        Err(Fault::UnicodeEscapeInByte)
    } else if char::from_u32(value).is_none() {
        Err(Fault::InvalidUnicodeEscape)
    } else {
        Ok(value)
    }
}
