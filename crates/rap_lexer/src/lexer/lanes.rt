//! Scans of sixteen bytes at a time.
ghost use Rattle.std.specs.Prelude.{◌≡◌, ◌≢◌, ◌<◌, ◌≤◌, ◌==◌, ℕ, not, map, length};
ghost use Rattle.std.specs.Int.{bit_at};
ghost use Rattle.std.specs.Simd.Lanes.{mask_l};
ghost use Rattle.rap_lexer.specs.Class.{is_in, is_ascii_in};
ghost use Rattle.rap_lexer.specs.Run.{run_of};
ghost use Rattle.rap_lexer.specs.declared.lexer.run.Class.TheVariants.{White, InString, IdentContinue};

use crate::lexer::run::{Class, any_run, byte_run};
use std::simd::prelude::*;

/// A bit for each byte that is no ASCII white space, the lowest for the first byte. Of long indentation by spaces one
/// comparison tells it.
#[inline(always)]
pub fn not_white(bytes: u8x16) -> u64
    ensures { result ≡ mask_l (map (λ b. not (is_ascii_in White b)) bytes) }
{
    if not_space(bytes) == 0 {
        0
    } else {
        not_any_white(bytes)
    }
}

/// A bit for each byte that is no space, the lowest for the first byte.
#[inline(always)]
fn not_space(bytes: u8x16) -> u64
    ensures { result ≡ mask_l (map (λ b. not (b == 32)) bytes) }
{
    bytes.simd_ne(u8x16::splat(b' ')).to_bitmask()
}

/// A bit for each byte that is no ASCII white space, the lowest for the first byte.
#[inline(always)]
fn not_any_white(bytes: u8x16) -> u64
    ensures { result ≡ mask_l (map (λ b. not (is_ascii_in White b)) bytes) }
{
    let others = (bytes - u8x16::splat(9)).simd_ge(u8x16::splat(5));
    let spaces = bytes.simd_ne(u8x16::splat(b' '));
    (others & spaces).to_bitmask()
}

/// A bit for each byte that is no ASCII character of an identifier, the lowest for the first byte.
#[inline(always)]
pub fn not_word(bytes: u8x16) -> u64
    ensures { result ≡ mask_l (map (λ b. not (is_ascii_in IdentContinue b)) bytes) }
{
    let small = (bytes - u8x16::splat(b'a')).simd_ge(u8x16::splat(26));
    let large = (bytes - u8x16::splat(b'A')).simd_ge(u8x16::splat(26));
    let digits = (bytes - u8x16::splat(b'0')).simd_ge(u8x16::splat(10));
    let lines = bytes.simd_ne(u8x16::splat(b'_'));
    (small & large & digits & lines).to_bitmask()
}

/// How many bytes of ASCII white space stand first.
#[inline(always)]
pub fn white_run(bytes: &[u8]) -> usize
    ensures { result ≡ length (run_of (is_ascii_in White) bytes.now) }
{
    let mut n = 0usize;
    'lanes: while 16 <= bytes.len() - n {
        let others = not_white(u8x16::from_slice(&bytes[n..]));
        if others != 0 {
            return n + lowest(others);
        }
        n += 16;
    }
    n + byte_run(&bytes[n..], Class::White)
}

/// How many ASCII bytes of an identifier stand first.
#[inline(always)]
pub fn word_run(bytes: &[u8]) -> usize
    ensures { result ≡ length (run_of (is_ascii_in IdentContinue) bytes.now) }
{
    let mut n = 0usize;
    'lanes: while 16 <= bytes.len() - n {
        let others = not_word(u8x16::from_slice(&bytes[n..]));
        if others != 0 {
            return n + lowest(others);
        }
        n += 16;
    }
    n + byte_run(&bytes[n..], Class::IdentContinue)
}

/// A bit for each byte that is a double quote or a backslash, the lowest for the first byte.
#[inline(always)]
pub fn not_string(bytes: u8x16) -> u64
    ensures { result ≡ mask_l (map (λ b. not (is_in InString b)) bytes) }
{
    let quotes = bytes.simd_eq(u8x16::splat(b'"'));
    let backslashes = bytes.simd_eq(u8x16::splat(b'\\'));
    (quotes | backslashes).to_bitmask()
}

/// How many bytes stand before the first double quote or backslash.
#[inline(always)]
pub fn string_run(bytes: &[u8]) -> usize
    ensures run { result ≡ length (run_of (is_in InString) bytes.now) }
    ensures within { result ≤ length bytes.now }
{
    let mut n = 0usize;
    'lanes: while 16 <= bytes.len() - n {
        let others = not_string(u8x16::from_slice(&bytes[n..]));
        if others != 0 {
            return n + lowest(others);
        }
        n += 16;
    }
    n + any_run(&bytes[n..], Class::InString)
}

/// The place of the lowest bit that is set.
#[inline(always)]
fn lowest(bits: u64) -> usize
    requires { bits ≢ 0 }
    ensures bound { result < 64 }
    ensures set { bit_at bits result ≡ 1 }
    ensures below { (k : ℕ) → k < result → bit_at bits k ≡ 0 }
{
    bits.trailing_zeros() as usize
}
