//! The header of a message.
ghost use Rattle.std.specs.Prelude.{◌≡◌, ◌<◌, ◌≤◌, ◌↔◌, ◌^◌, Err, IfErr, IfOk, IsTrue, MatchOption, length};
ghost use Rattle.rast_frames.specs.Header.{BeginsLine, HasNoEnd, HasNoField, IsFirstEnd, IsFirstField, IsLength, IsLengthField, IsLineEnd, IsLengthOf, IsValue, Says, ends_header};

use std::error::Error;
use std::fmt;

/// The longest header, its empty line left out, in bytes.
pub const MAX_HEADER: usize = 4096;

/// The first number of bytes that a header may not say.
pub const MAX_STATED: usize = 281_474_976_710_656;

/// The name of the field that says the length of the content, with its colon, in lower case.
const NAME: &[u8; 15] = b"content-length:";

/// Why a header is none.
#[derive(Clone, Copy, Debug, PartialEq, Eq)]
pub enum HeaderFault {
    /// No field says the length of the content.
    NoLength,
    /// More than one field says it.
    TwoLengths,
    /// What the field says is no decimal number below [`MAX_STATED`].
    WrongLength,
}

impl fmt::Display for HeaderFault {
    fn fmt<W: fmt::Write>(&self, f: &mut fmt::Formatter<W>) -> fmt::Result {
        f.write_str(match self {
            HeaderFault::NoLength => "no Content-Length in the header",
            HeaderFault::TwoLengths => "more than one Content-Length in the header",
            HeaderFault::WrongLength => "the Content-Length is no number of bytes",
        })
    }
}

impl Error for HeaderFault {}

/// Whether the line end and the empty line that end a header begin at an index: `\r\n\r\n`.
fn ends_header(bytes: &[u8], index: usize) -> bool
    requires { index < length bytes.now }
    ensures { result ≡ ends_header bytes.now index }
{
    bytes[index] == b'\r'
        && bytes.len() - index >= 4
        && bytes[index + 1] == b'\n'
        && bytes[index + 2] == b'\r'
        && bytes[index + 3] == b'\n'
}

/// Where the header at the front of the bytes ends. `None` exactly if it does not end within [`MAX_HEADER`] bytes.
pub(crate) fn header_end(bytes: &[u8]) -> Option<usize>
    ensures { MatchOption result (HasNoEnd bytes.now) (IsFirstEnd bytes.now) }
{
    let last = bytes.len().min(MAX_HEADER + 1);
    'bytes: for index in 0..last {
        if ends_header(bytes, index) {
            return Some(index);
        }
    }
    None
}

/// Whether a line begins at an index.
fn begins_line(header: &[u8], index: usize) -> bool
    requires { index < length header.now }
    ensures { IsTrue result ↔ BeginsLine header.now index }
{
    index == 0 || (index >= 2 && header[index - 2] == b'\r' && header[index - 1] == b'\n')
}

/// Whether a field that says a length begins at an index, its name in upper or lower case.
fn is_length_field(header: &[u8], index: usize) -> bool
    requires { index < length header.now }
    ensures { IsTrue result ↔ IsLengthField header.now index }
{
    begins_line(header, index)
        && header.len() - index >= 15
        && header[index..index + 15].eq_ignore_ascii_case(NAME)
}

/// The first field that says a length and begins at an index or after it.
fn length_field(header: &[u8], from: usize) -> Option<usize>
    ensures { MatchOption result (HasNoField header.now from) (IsFirstField header.now from) }
{
    'bytes: for index in from..header.len() {
        if is_length_field(header, index) {
            return Some(index);
        }
    }
    None
}

/// Where the line that goes on at an index ends: before its `\r\n`, or with the header.
fn line_end(header: &[u8], from: usize) -> usize
    requires { from ≤ length header.now }
    ensures { IsLineEnd header.now from result }
{
    'bytes: for index in from..header.len() {
        if header[index] == b'\r' && header.len() - index >= 2 && header[index + 1] == b'\n' {
            return index;
        }
    }
    header.len()
}

/// The number that these bytes say, if they are decimal digits and it is below [`MAX_STATED`].
fn number(digits: &[u8]) -> Option<usize>
    ensures { MatchOption result (¬ IsLength digits.now) (IsLengthOf digits.now) }
{
    if digits.is_empty() {
        return None;
    }
    let mut number = 0;
    'digits: for byte in digits {
        if !byte.is_ascii_digit() {
            return None;
        }
        number = number * 10 + (*byte - b'0') as usize;
        if number >= MAX_STATED {
            return None;
        }
    }
    Some(number)
}

/// The value of the only field that says a length, without the white space around it.
fn length_value(header: &[u8]) -> Result<&[u8], HeaderFault>
    ensures value { IfOk result (λ value. IsValue header.now value.now) }
    ensures fault { IfErr result (λ fault. Says header.now (Err fault)) }
{
    let Some(field) = length_field(header, 0) else {
        return Err(HeaderFault::NoLength);
    };
    let None = length_field(header, field + 1) else {
        return Err(HeaderFault::TwoLengths);
    };
    let start = field + 15;
    let end = line_end(header, start);
    Ok(header[start..end].trim_ascii())
}

/// The length of the content that a header says.
pub(crate) fn content_length(header: &[u8]) -> Result<usize, HeaderFault>
    ensures { Says header.now result }
{
    let value = length_value(header)?;
    match number(value) {
        Some(length) => Ok(length),
        None => Err(HeaderFault::WrongLength),
    }
}
