//! JSON that is written piece by piece, so that deeply nested answers take no stack.
ghost use Rattle.std.specs.Prelude.{◌≡◌, ◌+◌, ◌/◌, ◌%◌, ◌<◌, ◌≤◌, ◌∷◌, ◌++◌, [], IfNone, IfSome, OnOk, false, true, codes, if◌then◌else◌, length, min, string_bytes};
ghost use Rattle.std.specs.Char.{digit_char};
ghost use Rattle.std.specs.Fmt.{decimal};
ghost use Rattle.json.specs.Print.{escape, escape_byte};
ghost use Rattle.rast_document.specs.Places.{position};
ghost use Rattle.rast_messages.specs.Places.{position_text, range_text};
ghost use Rattle.rast_messages.specs.Replies.{string_text};

use rast_document::{Document, Position};
use std::alloc::AllocError;
use std::fmt::Write as _;

/// How many bytes a byte takes between the quotes of a JSON string: a quote, a backslash and the control characters that
/// have a letter two, any other control character six.
#[tactic(auto, unfolding(json::specs::Print::escape_byte))]
fn width(byte: u8) -> usize
    ensures value { result ≡ length (escape_byte byte) }
    ensures some { 1 ≤ result }
{
    match byte {
        b'"' | b'\\' | 8 | 9 | 10 | 12 | 13 => 2,
        0..=31 => 6,
        _ => 1,
    }
}

/// Whether a byte is not itself between the quotes of a JSON string.
#[tactic(auto, using(crate::proofs::Escapes::plain_byte))]
fn is_escaped(byte: u8) -> bool
    ensures plain { result ≡ false → escape_byte byte ≡ byte ∷ [] }
    ensures ascii { result ≡ true → byte < 128 }
{
    byte < 32 || byte == b'"' || byte == b'\\'
}

/// What is left of so many bytes after those that a text takes between the quotes of a JSON string. `None` if it takes
/// more.
pub fn left_by_text(bytes: usize, text: &str) -> Option<usize>
    ensures some { IfSome result (λ left. left + length (escape text.now) ≡ bytes) }
    ensures none { IfNone result (bytes < length (escape text.now)) }
{
    if bytes < text.len() {
        return None;
    }
    let mut left = bytes - text.len();
    for byte in text.as_bytes() {
        if is_escaped(*byte) {
            let more = width(*byte) - 1;
            if left < more {
                return None;
            }
            left -= more;
        }
    }
    Some(left)
}

/// A hexadecimal digit.
fn hex_digit(digit: u8) -> u8
    requires { digit < 16 }
    ensures { result ≡ digit_char digit }
{
    if digit < 10 {
        b'0' + digit
    } else {
        b'a' - 10 + digit
    }
}

/// Adds a control character that has no letter.
fn push_control(json: &mut String, byte: u8) -> Result<(), AllocError>
    requires { byte < 32 }
    ensures { OnOk result (string_bytes json.new ≡ string_bytes json.old ++ (codes "\\u00" ++ (digit_char (byte / 16) ∷ digit_char (byte % 16) ∷ []))) }
{
    json.push_str("\\u00")?;
    json.push(char::from(hex_digit(byte / 16)))?;
    json.push(char::from(hex_digit(byte % 16)))
}

/// Adds a byte that is not itself between the quotes of a JSON string.
#[tactic(auto, unfolding(json::specs::Print::escape_byte))]
fn push_escape(json: &mut String, byte: u8) -> Result<(), AllocError>
    requires { byte < 128 }
    ensures { OnOk result (string_bytes json.new ≡ string_bytes json.old ++ escape_byte byte) }
{
    match byte {
        b'"' => json.push_str("\\\""),
        b'\\' => json.push_str("\\\\"),
        8 => json.push_str("\\b"),
        9 => json.push_str("\\t"),
        10 => json.push_str("\\n"),
        12 => json.push_str("\\f"),
        13 => json.push_str("\\r"),
        0..=31 => push_control(json, byte),
        _ => json.push(char::from(byte)),
    }
}

/// Adds a text as it stands between the quotes of a JSON string.
pub fn push_escaped(json: &mut String, text: &str) -> Result<(), AllocError>
    ensures { OnOk result (string_bytes json.new ≡ string_bytes json.old ++ escape text.now) }
{
    let mut from = 0;
    for (at, byte) in text.as_bytes().iter().enumerate() {
        if is_escaped(*byte) {
            json.push_str(&text[from..at])?;
            push_escape(json, *byte)?;
            from = at + 1;
        }
    }
    json.push_str(&text[from..])?;
    Ok(())
}

/// Adds a text as a JSON string.
pub fn push_string(json: &mut String, text: &str) -> Result<(), AllocError>
    ensures { OnOk result (string_bytes json.new ≡ string_bytes json.old ++ string_text text.now) }
{
    json.push_str("\"")?;
    push_escaped(json, text)?;
    json.push_str("\"")?;
    Ok(())
}

/// Adds a comma, unless the item is the first of its list, after which others follow.
pub fn push_comma(json: &mut String, is_first: &mut bool) -> Result<(), AllocError>
    ensures first { OnOk result (is_first.new ≡ false) }
    ensures comma { OnOk result (string_bytes json.new ≡ string_bytes json.old ++ (if is_first.old then [] else codes ",")) }
{
    if *is_first {
        *is_first = false;
    } else {
        json.push(',')?;
    }
    Ok(())
}

/// Adds a digit.
fn push_digit(json: &mut String, digit: u8) -> Result<(), AllocError>
    requires { digit < 10 }
    ensures { OnOk result (string_bytes json.new ≡ string_bytes json.old ++ (48 + digit) ∷ []) }
{
    json.push(char::from(b'0' + digit))
}

/// Adds a number below 100.
#[tactic(auto, using(std::proofs::lemmas::Fmt::decimal_digit, crate::proofs::Numbers::two_digits))]
fn push_tens(json: &mut String, number: u8) -> Result<(), AllocError>
    requires { number < 100 }
    ensures { OnOk result (string_bytes json.new ≡ string_bytes json.old ++ decimal number) }
{
    if number < 10 {
        return push_digit(json, number);
    }
    push_digit(json, number / 10)?;
    push_digit(json, number % 10)
}

/// Adds a number below 10000.
#[tactic(auto, using(crate::proofs::Numbers::four_digits))]
fn push_hundreds(json: &mut String, number: u16) -> Result<(), AllocError>
    requires { number < 10000 }
    ensures { OnOk result (string_bytes json.new ≡ string_bytes json.old ++ decimal number) }
{
    if number < 100 {
        return push_tens(json, number as u8);
    }
    let last = (number % 100) as u8;
    push_tens(json, (number / 100) as u8)?;
    push_digit(json, last / 10)?;
    push_digit(json, last % 10)
}

/// Adds a number below 100000000.
#[tactic(auto, using(crate::proofs::Numbers::eight_digits))]
fn push_myriads(json: &mut String, number: u32) -> Result<(), AllocError>
    requires { number < 100000000 }
    ensures { OnOk result (string_bytes json.new ≡ string_bytes json.old ++ decimal number) }
{
    if number < 10000 {
        return push_hundreds(json, number as u16);
    }
    let last = (number % 10000) as u16;
    push_hundreds(json, (number / 10000) as u16)?;
    push_digit(json, (last / 1000) as u8)?;
    push_digit(json, (last / 100 % 10) as u8)?;
    push_digit(json, (last / 10 % 10) as u8)?;
    push_digit(json, (last % 10) as u8)
}

/// Adds a number in decimal digits.
pub fn push_number(json: &mut String, number: usize) -> Result<(), AllocError>
    ensures { OnOk result (string_bytes json.new ≡ string_bytes json.old ++ decimal number) }
{
    if number < 100_000_000 {
        return push_myriads(json, number as u32);
    }
    write!(json, "{number}")?;
    Ok(())
}

/// Adds a position.
#[tactic(auto, unfolding(crate::specs::Places::position_text))]
fn push_position(json: &mut String, position: Position) -> Result<(), AllocError>
    ensures { OnOk result (string_bytes json.new ≡ string_bytes json.old ++ position_text position) }
{
    json.push_str("{\"line\":")?;
    push_number(json, position.line)?;
    json.push_str(",\"character\":")?;
    push_number(json, position.character)?;
    json.push_str("}")?;
    Ok(())
}

/// Adds the range between two positions.
#[tactic(auto, unfolding(crate::specs::Places::range_text))]
fn push_span(json: &mut String, start: Position, end: Position) -> Result<(), AllocError>
    ensures { OnOk result (string_bytes json.new ≡ string_bytes json.old ++ range_text start end) }
{
    json.push_str("{\"start\":")?;
    push_position(json, start)?;
    json.push_str(",\"end\":")?;
    push_position(json, end)?;
    json.push_str("}")?;
    Ok(())
}

/// Adds the range of a document between two offsets.
pub fn push_range(
    json: &mut String,
    document: &Document,
    start: usize,
    end: usize,
) -> Result<(), AllocError>
    ensures { OnOk result (string_bytes json.new ≡ string_bytes json.old ++ range_text
        (position document.now.encoding (string_bytes document.now.text) (min start (length (string_bytes document.now.text))))
        (position document.now.encoding (string_bytes document.now.text) (min end (length (string_bytes document.now.text))))) }
{
    push_span(
        json,
        position_of(document, start),
        position_of(document, end),
    )
}

/// The position of an offset; past the end of the text, that of its end.
pub fn position_of(document: &Document, offset: usize) -> Position
    ensures { result ≡ position document.now.encoding (string_bytes document.now.text) (min offset (length (string_bytes document.now.text))) }
{
    document.position(offset.min(document.text().len()))
}
