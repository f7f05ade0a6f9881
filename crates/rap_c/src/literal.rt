//! The values of literals.
ghost use Rattle.std.specs.Prelude.{◌≡◌, ℕ, List, IfOk, MatchOption};
ghost use Rattle.rap_lexer.specs.declared.escape.Mode.TheVariants.{Byte, Char};
ghost use Rattle.rap_c.specs.Literal.{IsFloatAnswer, IsIntegerAnswer, IsIntegerGiven, IsNumberAnswer, IsSingleAnswer, IsStringAnswer, IsSuffixStart, StandsFor, no_float, no_number};

use crate::filler::put_bytes;
use crate::reading::text_of;
use rap_literals::{
    Integer, byte_string_value, byte_value, c_string_value, char_value, float_parts, integer_parts,
    quoted_suffix, string_value,
};
use std::alloc::{AllocError, Global};

/// There is a value.
const OK: u32 = 0;

/// The bytes are no UTF-8.
const NOT_UTF8: u32 = 4;

/// Out of memory.
const NO_MEMORY: u32 = 7;

/// The text is no literal of the kind, or the lexer reports something about it.
const NO_LITERAL: u32 = 13;

/// The literal is a number without a value: a digit is none of its radix, or it is 2^128 or more.
const NO_NUMBER: u32 = 14;

/// The numbers of the kinds of literals.
const INT_NUMBER: u32 = 141;

const FLOAT_NUMBER: u32 = 142;

const CHAR: u32 = 143;

const BYTE: u32 = 144;

const STRING: u32 = 145;

const BYTE_STRING: u32 = 146;

const C_STRING: u32 = 147;

/// How many numbers a half of 128 bits has.
const HALF: u128 = 18_446_744_073_709_551_616;

/// What is returned of a string: a status, and how many bytes it stands for.
#[repr(C)]
#[derive(Clone, Copy, Debug, PartialEq, Eq)]
pub struct RapString {
    pub status: u32,
    pub bytes: usize,
}

/// What is returned of any other literal: a status; the radix of an integer; the value of an integer, a character or a byte,
/// in two halves; the value of a float; and the byte of the text at which the suffix begins.
#[repr(C)]
#[derive(Clone, Copy, Debug)]
pub struct RapNumber {
    pub status: u32,
    pub radix: u32,
    pub low: u64,
    pub high: u64,
    pub real: f64,
    pub suffix: usize,
}

/// The bytes that a string of this kind stands for.
fn bytes_of(alloc: Global, kind: u32, text: &str) -> Result<Option<Vec<u8>>, AllocError>
    ensures { IfOk result (λ value. MatchOption value ((bytes : List ℕ) → ¬ StandsFor kind text.now bytes) (λ v. StandsFor kind text.now v.items)) }
{
    if kind == STRING {
        match string_value(alloc, text)? {
            None => Ok(None),
            Some(value) => Ok(Some(value.into_bytes())),
        }
    } else if kind == BYTE_STRING {
        byte_string_value(alloc, text)
    } else if kind == C_STRING {
        c_string_value(alloc, text)
    } else {
        Ok(None)
    }
}

/// Fills the slice with the bytes that a string stands for, as far as it reaches. `kind` is that of a string, a byte string
/// or a C string.
#[unsafe(no_mangle)]
pub extern "C" fn rap_string_value(
    alloc: Global,
    text: &[u8],
    kind: u32,
    value: &mut [u8],
) -> RapString
    ensures { IsStringAnswer kind text.now value.old value.new result }
{
    let Ok(text) = text_of(text) else {
        return RapString {
            status: NOT_UTF8,
            bytes: 0,
        };
    };
    match bytes_of(alloc, kind, text) {
        Err(_) => RapString {
            status: NO_MEMORY,
            bytes: 0,
        },
        Ok(None) => RapString {
            status: NO_LITERAL,
            bytes: 0,
        },
        Ok(Some(bytes)) => {
            let given = bytes.as_slice();
            put_bytes(value, 0, given);
            RapString {
                status: OK,
                bytes: given.len(),
            }
        }
    }
}

/// What is returned of what has no value.
fn no_number(status: u32) -> RapNumber
    ensures { result ≡ no_number status }
{
    RapNumber {
        status,
        radix: 0,
        low: 0,
        high: 0,
        real: 0.0,
        suffix: 0,
    }
}

/// What is returned of an integer.
fn integer_of(text: &str, parts: Integer<'_>) -> RapNumber
    ensures { IsIntegerGiven text.now parts.entry.radix parts.entry.digits.now parts.entry.suffix.now result }
{
    let radix = parts.radix.number();
    let suffix = text.len().saturating_sub(parts.suffix.len());
    match parts.value() {
        None => RapNumber {
            status: NO_NUMBER,
            radix,
            low: 0,
            high: 0,
            real: 0.0,
            suffix,
        },
        Some(value) => RapNumber {
            status: OK,
            radix,
            low: (value % HALF) as u64,
            high: (value / HALF) as u64,
            real: 0.0,
            suffix,
        },
    }
}

/// The value of an integer.
fn integer(text: &str) -> RapNumber
    ensures { IsIntegerAnswer text.now result }
{
    match integer_parts(text) {
        None => no_number(NO_LITERAL),
        Some(parts) => integer_of(text, parts),
    }
}

/// The value of a float.
fn float(alloc: Global, text: &str) -> RapNumber
    ensures { IsFloatAnswer text.now result }
{
    match float_parts(text) {
        None => no_number(NO_LITERAL),
        Some(parts) => {
            let suffix = text.len().saturating_sub(parts.suffix.len());
            match parts.value(alloc) {
                Err(_) => no_number(NO_MEMORY),
                Ok(None) => no_number(NO_NUMBER),
                Ok(Some(real)) => RapNumber {
                    status: OK,
                    radix: 10,
                    low: 0,
                    high: 0,
                    real,
                    suffix,
                },
            }
        }
    }
}

/// The byte at which the suffix of a literal in quotes begins; of what is none, where it ends.
fn suffix_of(text: &str) -> usize
    ensures { IsSuffixStart text.now result }
{
    match quoted_suffix(text) {
        None => text.len(),
        Some(suffix) => text.len().saturating_sub(suffix.len()),
    }
}

/// What is returned of a character or a byte.
fn single_of(text: &str, value: u64) -> RapNumber
    ensures suffix { IsSuffixStart text.now result.suffix }
    ensures value { result ≡ record { status = 0; radix = 0; low = value; high = 0; real = no_float; suffix = result.suffix } }
{
    RapNumber {
        status: OK,
        radix: 0,
        low: value,
        high: 0,
        real: 0.0,
        suffix: suffix_of(text),
    }
}

/// The value of a character.
fn character(text: &str) -> RapNumber
    ensures { IsSingleAnswer Char text.now result }
{
    match char_value(text) {
        None => no_number(NO_LITERAL),
        Some(value) => single_of(text, u64::from(value as u32)),
    }
}

/// The value of a byte.
fn byte(text: &str) -> RapNumber
    ensures { IsSingleAnswer Byte text.now result }
{
    match byte_value(text) {
        None => no_number(NO_LITERAL),
        Some(value) => single_of(text, u64::from(value)),
    }
}

/// Returns the value of an integer, a float, a character or a byte, by the kind.
#[unsafe(no_mangle)]
pub extern "C" fn rap_number_value(alloc: Global, text: &[u8], kind: u32) -> RapNumber
    ensures { IsNumberAnswer kind text.now result }
{
    let Ok(text) = text_of(text) else {
        return no_number(NOT_UTF8);
    };
    if kind == INT_NUMBER {
        integer(text)
    } else if kind == FLOAT_NUMBER {
        float(alloc, text)
    } else if kind == CHAR {
        character(text)
    } else if kind == BYTE {
        byte(text)
    } else {
        no_number(NO_LITERAL)
    }
}
