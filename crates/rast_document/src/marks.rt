//! Units of a text counted ahead, so that a count to any offset looks at few bytes.
ghost use Rattle.std.specs.Prelude.{◌≡◌, ◌+◌, ◌<◌, ◌≤◌, ◌^◌, IfOk, length, take};
ghost use Rattle.rast_document.specs.Indexed.{AreMarks, IsReached};
ghost use Rattle.rast_document.specs.Units.{units};

use crate::blocks::{BLOCK, units_of_block, units_of_first};
use crate::encoding::Encoding;
use std::alloc::{AllocError, Global};

/// How many bytes are between two marks.
pub(crate) const STEP: usize = 256;

/// The units of a text before each 256th byte. The error means out of memory.
pub(crate) fn marks_of(
    alloc: Global,
    encoding: Encoding,
    text: &[u8],
) -> Result<Vec<usize>, AllocError>
    requires { length text.now < 2 ^ 63 }
    ensures { IfOk result (λ marks. AreMarks encoding text.now (length text.now) marks.items) }
{
    let mut marks = Vec::with_capacity(alloc, text.len() / STEP + 1)?;
    marks.push(0)?;
    let mut total = 0;
    for step in 0..text.len() / STEP {
        let from = step * STEP;
        total += units_between(encoding, text, from, from + STEP);
        marks.push(total)?;
    }
    Ok(marks)
}

/// The units from an offset on to a later one that is less than a block further.
fn units_within(encoding: Encoding, text: &[u8], from: usize, to: usize) -> usize
    requires rising { from ≤ to }
    requires few { to < from + 64 }
    requires within { to ≤ length text.now }
    requires room { length text.now < 2 ^ 63 }
    ensures { units encoding (take from text.now) + result ≡ units encoding (take to text.now) }
{
    if text.len() - from >= BLOCK {
        return units_of_first(encoding, text, from, to - from);
    }
    let mut total = 0;
    for index in from..to {
        total += encoding.units_of_byte(text[index]);
    }
    total
}

/// The units from an offset on to a later one, counted block by block.
pub(crate) fn units_between(encoding: Encoding, text: &[u8], from: usize, to: usize) -> usize
    requires rising { from ≤ to }
    requires within { to ≤ length text.now }
    requires room { length text.now < 2 ^ 63 }
    ensures { units encoding (take from text.now) + result ≡ units encoding (take to text.now) }
{
    let mut total = 0;
    let mut at = from;
    'whole: while to - at >= BLOCK {
        total += units_of_block(encoding, text, at);
        at += BLOCK;
    }
    total + units_within(encoding, text, at, to)
}

/// The units of a text before an offset, which is in it or at its end.
pub(crate) fn units_to(encoding: Encoding, text: &[u8], marks: &[usize], offset: usize) -> usize
    requires marks { AreMarks encoding text.now (length text.now) marks.now }
    requires offset { offset ≤ length text.now }
    requires room { length text.now < 2 ^ 63 }
    ensures { result ≡ units encoding (take offset text.now) }
{
    let mark = offset / STEP;
    marks[mark] + units_between(encoding, text, mark * STEP, offset)
}

/// The last offset that so many units of a line reach.
#[derive(Clone, Copy)]
pub(crate) struct Reached {
    /// The offset.
    pub(crate) offset: usize,
    /// How many units of the line are before it.
    pub(crate) units: usize,
}

/// The last offset from `start` to `end` up to which at most so many units stand, counted from `start`: block by block.
pub(crate) fn reached_from(
    encoding: Encoding,
    text: &[u8],
    start: usize,
    end: usize,
    count: usize,
) -> Reached
    requires rising { start ≤ end }
    requires within { end ≤ length text.now }
    ensures offset { IsReached encoding text.now start end count result.offset }
    ensures units { units encoding (take start text.now) + result.units ≡ units encoding (take result.offset text.now) }
{
    let mut units = 0;
    let mut at = start;
    'whole: while end - at >= BLOCK {
        let more = units_of_block(encoding, text, at);
        if more > count - units {
            break;
        }
        units += more;
        at += BLOCK;
    }
    for index in at..end {
        let more = encoding.units_of_byte(text[index]);
        if more > count - units {
            return Reached {
                offset: index,
                units,
            };
        }
        units += more;
    }
    Reached { offset: end, units }
}
