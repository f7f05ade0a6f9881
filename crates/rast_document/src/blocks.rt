//! Blocks of 64 bytes of a text, whose bytes are looked at together.
ghost use Rattle.std.specs.Prelude.{◌≡◌, ◌+◌, ◌<◌, ◌≤◌, length, map, take};
ghost use Rattle.std.specs.List.{count_by};
ghost use Rattle.std.specs.Simd.Lanes.{chunk, mask_l};
ghost use Rattle.rast_document.specs.Indexed.{is_byte, is_from};
ghost use Rattle.rast_document.specs.Lines.{is_line_break};
ghost use Rattle.rast_document.specs.Units.{units};
ghost use Rattle.rast_document.specs.declared.encoding.Encoding.TheVariants.{Utf16, Utf32};

use crate::encoding::Encoding;
use std::simd::prelude::*;

/// How many bytes a block has.
pub(crate) const BLOCK: usize = 64;

/// A bit for each byte of the block at an offset, the lowest for the first one: whether it is a `\n` or a `\r`.
pub(crate) fn breaks_of(text: &[u8], at: usize) -> u64
    requires { at + 64 ≤ length text.now }
    ensures { result ≡ mask_l (map is_line_break (chunk at 64 text.now)) }
{
    let block = u8x64::from_slice(&text[at..]);
    (block.simd_eq(u8x64::splat(b'\n')) | block.simd_eq(u8x64::splat(b'\r'))).to_bitmask()
}

/// How many bytes of the block at an offset are this one.
pub(crate) fn count_of(text: &[u8], at: usize, byte: u8) -> usize
    requires { at + 64 ≤ length text.now }
    ensures { result ≡ count_by (is_byte byte) (chunk at 64 text.now) }
{
    let block = u8x64::from_slice(&text[at..]);
    let same = block.simd_eq(u8x64::splat(byte)).to_bitmask();
    same.count_ones() as usize
}

/// A bit for each byte of the block at an offset, the lowest for the first one: whether it is `least` or more.
fn bits_from(text: &[u8], at: usize, least: u8) -> u64
    requires { at + 64 ≤ length text.now }
    ensures { result ≡ mask_l (map (is_from least) (chunk at 64 text.now)) }
{
    let block = u8x64::from_slice(&text[at..]);
    block.simd_ge(u8x64::splat(least)).to_bitmask()
}

/// How many bytes of the block at an offset are `least` or more.
fn count_from(text: &[u8], at: usize, least: u8) -> usize
    requires { at + 64 ≤ length text.now }
    ensures { result ≡ count_by (is_from least) (chunk at 64 text.now) }
{
    bits_from(text, at, least).count_ones() as usize
}

/// The same of the first bytes of the block, fewer than all.
fn count_from_of_first(text: &[u8], at: usize, least: u8, count: usize) -> usize
    requires within { at + 64 ≤ length text.now }
    requires few { count < 64 }
    ensures { result ≡ count_by (is_from least) (take count (chunk at 64 text.now)) }
{
    let first = bits_from(text, at, least) & ((1 << count) - 1);
    first.count_ones() as usize
}

/// The code units of UTF-16 in the block at an offset. One of ASCII alone has one for each byte.
fn code_units_of_block(text: &[u8], at: usize) -> usize
    requires { at + 64 ≤ length text.now }
    ensures { result ≡ units Utf16 (chunk at 64 text.now) }
{
    let long = count_from(text, at, 0x80);
    if long == 0 {
        return BLOCK;
    }
    let first = count_from(text, at, 0xc0);
    let pairs = count_from(text, at, 0xf0);
    BLOCK - long + first + pairs
}

/// How many characters begin in the block at an offset.
fn characters_of_block(text: &[u8], at: usize) -> usize
    requires { at + 64 ≤ length text.now }
    ensures { result ≡ units Utf32 (chunk at 64 text.now) }
{
    let long = count_from(text, at, 0x80);
    let first = count_from(text, at, 0xc0);
    BLOCK - long + first
}

/// The units of the block at an offset.
pub(crate) fn units_of_block(encoding: Encoding, text: &[u8], at: usize) -> usize
    requires { at + 64 ≤ length text.now }
    ensures { result ≡ units encoding (chunk at 64 text.now) }
{
    match encoding {
        Encoding::Utf8 => BLOCK,
        Encoding::Utf16 => code_units_of_block(text, at),
        Encoding::Utf32 => characters_of_block(text, at),
    }
}

/// The code units of UTF-16 in the first bytes of the block at an offset, fewer than all.
fn code_units_of_first(text: &[u8], at: usize, count: usize) -> usize
    requires within { at + 64 ≤ length text.now }
    requires few { count < 64 }
    ensures { result ≡ units Utf16 (take count (chunk at 64 text.now)) }
{
    let long = count_from_of_first(text, at, 0x80, count);
    if long == 0 {
        return count;
    }
    let first = count_from_of_first(text, at, 0xc0, count);
    let pairs = count_from_of_first(text, at, 0xf0, count);
    count - long + first + pairs
}

/// How many characters begin in the first bytes of the block at an offset, fewer than all.
fn characters_of_first(text: &[u8], at: usize, count: usize) -> usize
    requires within { at + 64 ≤ length text.now }
    requires few { count < 64 }
    ensures { result ≡ units Utf32 (take count (chunk at 64 text.now)) }
{
    let long = count_from_of_first(text, at, 0x80, count);
    let first = count_from_of_first(text, at, 0xc0, count);
    count - long + first
}

/// The units of the first bytes of the block at an offset, fewer than all.
pub(crate) fn units_of_first(encoding: Encoding, text: &[u8], at: usize, count: usize) -> usize
    requires within { at + 64 ≤ length text.now }
    requires few { count < 64 }
    ensures { result ≡ units encoding (take count (chunk at 64 text.now)) }
{
    match encoding {
        Encoding::Utf8 => count,
        Encoding::Utf16 => code_units_of_first(text, at, count),
        Encoding::Utf32 => characters_of_first(text, at, count),
    }
}
