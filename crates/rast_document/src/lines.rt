//! The lines of a text.
ghost use Rattle.std.specs.Prelude.{◌≡◌, ◌+◌, ◌/◌, ◌<◌, ◌≤◌, ◌↔◌, IfNone, IfOk, IfSome, IsTrue, OnOk, length, slice_index};
ghost use Rattle.rast_document.specs.Lines.{ends_line, line_end, line_start, line_starts, starts_to};
ghost use Rattle.rast_document.specs.Indexed.{AreRows, IsLastStart, IsNextStart, IsPair, IsStart};

use crate::blocks::{BLOCK, breaks_of, count_of};
use crate::marks::STEP;
use std::alloc::{AllocError, Global};

/// Whether a line end is complete with the byte at this index.
fn ends_line(text: &[u8], index: usize) -> bool
    requires { index < length text.now }
    ensures { result ≡ ends_line text.now index }
{
    match text[index] {
        b'\n' => true,
        b'\r' => index + 1 == text.len() || text[index + 1] != b'\n',
        _ => false,
    }
}

/// Adds the starts of lines after the line ends of the block at an offset. The error means out of memory.
fn push_starts(starts: &mut Vec<usize>, text: &[u8], at: usize) -> Result<(), AllocError>
    requires within { at + 64 ≤ length text.now }
    requires before { starts.old.items ≡ starts_to text.now at }
    ensures { OnOk result (starts.new.items ≡ starts_to text.now (at + 64)) }
{
    let mut left = breaks_of(text, at);
    let mut from = at;
    'breaks: while left != 0 {
        let skipped = left.trailing_zeros();
        let index = from + skipped as usize;
        if ends_line(text, index) {
            starts.push(index + 1)?;
        }
        left = (left >> skipped) >> 1;
        from = index + 1;
    }
    Ok(())
}

/// The offsets at which the lines of a text begin. The error means out of memory.
pub(crate) fn line_starts(alloc: Global, text: &[u8]) -> Result<Vec<usize>, AllocError>
    ensures { IfOk result (λ starts. starts.items ≡ line_starts text.now) }
{
    let mut starts = Vec::new(alloc);
    starts.push(0)?;
    let mut at = 0;
    'whole: while text.len() - at >= BLOCK {
        push_starts(&mut starts, text, at)?;
        at += BLOCK;
    }
    for index in at..text.len() {
        if ends_line(text, index) {
            starts.push(index + 1)?;
        }
    }
    Ok(starts)
}

/// How many line ends are complete in the block at an offset, whatever line breaks are in it.
fn ends_by_breaks(text: &[u8], at: usize) -> usize
    requires { at + 64 ≤ length text.now }
    ensures { length (starts_to text.now (at + 64)) ≡ length (starts_to text.now at) + result }
{
    let mut bits = breaks_of(text, at);
    let mut place = at;
    let mut ends = 0;
    'breaks: while bits != 0 {
        let skipped = bits.trailing_zeros();
        let index = place + skipped as usize;
        if ends_line(text, index) {
            ends += 1;
        }
        bits = (bits >> skipped) >> 1;
        place = index + 1;
    }
    ends
}

/// How many line ends are complete in the block at an offset: its `\n`, if it has no `\r`.
fn ends_of_block(text: &[u8], at: usize) -> usize
    requires { at + 64 ≤ length text.now }
    ensures { length (starts_to text.now (at + 64)) ≡ length (starts_to text.now at) + result }
{
    if count_of(text, at, b'\r') == 0 {
        count_of(text, at, b'\n')
    } else {
        ends_by_breaks(text, at)
    }
}

/// Where a line begins, looked for from the start of a line that is not after it; `None` if there is no such line.
pub(crate) fn start_of_line(
    text: &[u8],
    known: usize,
    known_start: usize,
    line: usize,
) -> Option<usize>
    requires known { known < length (line_starts text.now) }
    requires start { known_start ≡ line_start text.now known }
    requires rising { known ≤ line }
    ensures found { IfSome result (λ start. IsStart text.now line start) }
    ensures none { IfNone result (length (line_starts text.now) ≤ line) }
{
    let mut left = line - known;
    if left == 0 {
        return Some(known_start);
    }
    let mut at = known_start;
    'whole: while text.len() - at >= BLOCK {
        let ends = ends_of_block(text, at);
        if ends >= left {
            break;
        }
        left -= ends;
        at += BLOCK;
    }
    for index in at..text.len() {
        if ends_line(text, index) {
            left -= 1;
            if left == 0 {
                return Some(index + 1);
            }
        }
    }
    None
}

/// Where the line that begins at an offset ends.
pub(crate) fn end_of_line(text: &[u8], start: usize) -> usize
    requires { start ≤ length text.now }
    ensures { result ≡ line_end text.now start }
{
    let mut at = start;
    'whole: while text.len() - at >= BLOCK {
        let breaks = breaks_of(text, at);
        if breaks != 0 {
            return at + breaks.trailing_zeros() as usize;
        }
        at += BLOCK;
    }
    for index in at..text.len() {
        if text[index] == b'\n' || text[index] == b'\r' {
            return index;
        }
    }
    text.len()
}

/// Whether the line end whose last byte is at `last` is a `\r\n` that begins at `start` or after it.
fn is_pair(text: &[u8], start: usize, last: usize) -> bool
    requires { last < length text.now }
    ensures { IsTrue result ↔ IsPair text.now start last }
{
    last > start && text[last] == b'\n' && text[last - 1] == b'\r'
}

/// Where a line that is not the last ends, before its line end: it begins at `start`, and the next line at `next`.
pub(crate) fn end_before(text: &[u8], start: usize, next: usize) -> usize
    requires { IsNextStart text.now start next }
    ensures { result ≡ line_end text.now start }
{
    let last = next - 1;
    let pair = is_pair(text, start, last);
    if pair { last - 1 } else { last }
}

/// Where the last line ends, which begins at `start`: at the end of the text.
pub(crate) fn end_of_last(text: &[u8], start: usize) -> usize
    requires { IsLastStart text.now start }
    ensures { result ≡ line_end text.now start }
{
    text.len()
}

/// The lines that each 256th byte of a text of this size is on, if `starts` are where its lines begin. The error means
/// out of memory.
pub(crate) fn rows_of(
    alloc: Global,
    starts: &[usize],
    size: usize,
) -> Result<Vec<usize>, AllocError>
    requires some { 0 < length starts.now }
    requires first { slice_index starts.now 0 ≡ 0 }
    ensures { IfOk result (λ rows. AreRows starts.now rows.items (size / 256 + 1)) }
{
    let count = size / STEP + 1;
    let mut rows = Vec::with_capacity(alloc, count)?;
    let mut line = 0;
    for step in 0..count {
        line = line_reached(starts, line, step * STEP);
        rows.push(line)?;
    }
    Ok(rows)
}

/// The line that an offset is on, looked for from a line that is not after it.
fn line_reached(starts: &[usize], from: usize, offset: usize) -> usize
    requires some { from < length starts.now }
    requires begins { slice_index starts.now from ≤ offset }
    ensures rising { from ≤ result }
    ensures bound { result < length starts.now }
    ensures begins { slice_index starts.now result ≤ offset }
    ensures next { result + 1 < length starts.now → offset < slice_index starts.now (result + 1) }
{
    let mut line = from;
    'lines: while line + 1 < starts.len() && starts[line + 1] <= offset {
        line += 1;
    }
    line
}

/// The line that an offset is on, if `starts` are where the lines begin, and `rows` the lines of each 256th byte: by
/// bisection of the lines around it.
pub(crate) fn line_of(starts: &[usize], rows: &[usize], offset: usize) -> usize
    requires rows { AreRows starts.now rows.now (length rows.now) }
    requires within { offset / 256 < length rows.now }
    ensures bound { result < length starts.now }
    ensures begins { slice_index starts.now result ≤ offset }
    ensures next { result + 1 < length starts.now → offset < slice_index starts.now (result + 1) }
{
    let step = offset / STEP;
    let mut low = rows[step];
    let mut high = if step + 1 < rows.len() {
        rows[step + 1] + 1
    } else {
        starts.len()
    };
    'halves: while high - low > 1 {
        let middle = low + (high - low) / 2;
        if starts[middle] <= offset {
            low = middle;
        } else {
            high = middle;
        }
    }
    low
}
