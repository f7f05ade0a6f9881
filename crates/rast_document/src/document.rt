//! A text with its lines, and the positions in it.
ghost use Rattle.std.specs.Prelude.{◌≡◌, ℕ, ◌+◌, ◌/◌, ◌<◌, ◌≤◌, ◌⊎◌, IfNone, IfOk, IfSome, IsCharBoundary, length, min, string_bytes, take};
ghost use Rattle.rast_document.specs.Indexed.{AgreeTo, AreMarks, AreRows, IsOnLine, IsRange, IsReached};
ghost use Rattle.rast_document.specs.Lines.{line_at, line_end, line_start, line_starts};
ghost use Rattle.rast_document.specs.Places.{IsAt, IsInLineEnd, position, within_line};
ghost use Rattle.rast_document.specs.Units.{units};

use crate::encoding::Encoding;
use crate::lines::{end_before, end_of_last, line_of, line_starts, rows_of};
use crate::marks::{Reached, marks_of, reached_from, units_between, units_to};
use crate::places::{meant, range_of};
use crate::position::{Part, Position, Span};
use std::alloc::{AllocError, Global};

// Up to how many bytes are counted with no look at the marks.
const NEAR: usize = 256;

/// A text with what leads from its offsets to positions and back, in the units of one encoding. An offset is a number of
/// bytes of the text. Lines end with `\n`, `\r\n` or `\r`.
#[derive(Drop)]
pub struct Document {
    encoding: Encoding,
    text: String,
    starts: Vec<usize>,
    rows: Vec<usize>,
    marks: Vec<usize>,
    ghost lines: { starts.items ≡ line_starts (string_bytes text) },
    ghost placed: { AreRows starts.items rows.items (length (string_bytes text) / 256 + 1) },
    ghost counted: { AreMarks encoding (string_bytes text) (length (string_bytes text)) marks.items },
}

impl Document {
    /// The document of a text. The error means out of memory.
    pub fn new(alloc: Global, encoding: Encoding, text: String) -> Result<Document, AllocError>
        ensures encoding { IfOk result (λ document. document.encoding ≡ encoding) }
        ensures text { IfOk result (λ document. string_bytes document.text ≡ string_bytes text) }
    {
        let starts = line_starts(alloc, text.as_bytes())?;
        let rows = rows_of(alloc, starts.as_slice(), text.len())?;
        let marks = marks_of(alloc, encoding, text.as_bytes())?;
        Ok(Document {
            encoding,
            text,
            starts,
            rows,
            marks,
        })
    }

    /// The text.
    pub fn text(&self) -> &str
        ensures { result.now ≡ string_bytes self.now.text }
    {
        self.text.as_str()
    }

    /// The encoding in whose units positions are counted.
    pub fn encoding(&self) -> Encoding
        ensures { result ≡ self.now.encoding }
    {
        self.encoding
    }

    /// The position of an offset, which is in the text or at its end. It means that offset, if the offset is on a
    /// character boundary; one between the `\r` and the `\n` of a line end has the position of the line's end.
    pub fn position(&self, offset: usize) -> Position
        requires { offset ≤ length (string_bytes self.now.text) }
        ensures value { result ≡ position self.now.encoding (string_bytes self.now.text) offset }
        ensures means { IsCharBoundary (string_bytes self.now.text) offset → ¬ IsInLineEnd (string_bytes self.now.text) offset
            → IsAt self.now.encoding (string_bytes self.now.text) result offset }
    {
        let line = self.line_of(offset);
        let start = self.starts[line];
        let end = self.line_end(line);
        let character = self.units_between(start, offset.min(end));
        Position { line, character }
    }

    /// The part of a range that is on the line of its start, from there on: up to the end of the line or of the range.
    pub fn part(&self, start: usize, end: usize) -> Part
        requires rising { start ≤ end }
        requires within { start ≤ length (string_bytes self.now.text) }
        ensures position { result.position ≡ position self.now.encoding (string_bytes self.now.text) start }
        ensures end { result.end ≡ min end (line_end (string_bytes self.now.text) start) }
        ensures units { result.position.character + result.units
            ≡ (position self.now.encoding (string_bytes self.now.text) result.end).character }
    {
        let line = self.line_of(start);
        let begin = self.starts[line];
        let stop = self.line_end(line);
        let character = self.units_between(begin, start.min(stop));
        let to = end.min(stop.max(start));
        let units = self.units_between(start, to);
        Part {
            position: Position { line, character },
            end: to,
            units,
        }
    }

    /// The line of an offset, which is in the text or at its end: that of its position, with no count of units.
    pub fn line(&self, offset: usize) -> usize
        requires { offset ≤ length (string_bytes self.now.text) }
        ensures { result ≡ line_at (string_bytes self.now.text) offset }
    {
        self.line_of(offset)
    }

    /// The offset that a position means: past the end of its line the line's end. `None` exactly if no offset is meant:
    /// the line is past the last, or the position is inside a character.
    pub fn offset(&self, place: Position) -> Option<usize>
        ensures found { IfSome result (λ offset. IsAt self.now.encoding (string_bytes self.now.text) place offset) }
        ensures only { IfSome result (λ offset. (other : ℕ) → IsAt self.now.encoding (string_bytes self.now.text) place other → other ≡ offset) }
        ensures back { IfSome result (λ offset. position self.now.encoding (string_bytes self.now.text) offset
            ≡ within_line self.now.encoding (string_bytes self.now.text) place) }
        ensures none { IfNone result ((offset : ℕ) → ¬ IsAt self.now.encoding (string_bytes self.now.text) place offset) }
    {
        if place.line >= self.starts.len() {
            return None;
        }
        let start = self.starts[place.line];
        let end = self.line_end(place.line);
        let reached = self.reached(start, end, place.character);
        meant(self.encoding, self.text(), place, start, end, reached)
    }

    // The offsets that the ends of a range mean in another text, which is this one up to an offset: its lines up to there
    // are known.
    pub(crate) fn range_in(&self, text: &str, same: usize, span: Span) -> Option<(usize, usize)>
        requires { AgreeTo (string_bytes self.now.text) text.now same }
        ensures found { IfSome result (λ range. IsRange self.now.encoding text.now span range.0 range.1) }
        ensures none { IfNone result ((from to : ℕ) → ¬ IsRange self.now.encoding text.now span from to) }
    {
        let known = self.line_before(same, span.start.line);
        range_of(self.encoding, text, known, self.starts[known], span)
    }

    // The last line up to the one given that begins before an offset, or the first one.
    fn line_before(&self, offset: usize, line: usize) -> usize
        requires { offset ≤ length (string_bytes self.now.text) }
        ensures some { result < length (line_starts (string_bytes self.now.text)) }
        ensures order { result ≤ line }
        ensures before { (result ≡ 0) ⊎ (line_start (string_bytes self.now.text) result < offset) }
    {
        if offset == 0 {
            return 0;
        }
        self.line_of(offset - 1).min(line)
    }

    // The units of the text before an offset.
    fn units_to(&self, offset: usize) -> usize
        requires { offset ≤ length (string_bytes self.now.text) }
        ensures { result ≡ units self.now.encoding (take offset (string_bytes self.now.text)) }
    {
        units_to(
            self.encoding,
            self.text.as_bytes(),
            self.marks.as_slice(),
            offset,
        )
    }

    // The units from an offset on to a later one: counted where it is near, and else by what was counted ahead.
    fn units_between(&self, from: usize, to: usize) -> usize
        requires rising { from ≤ to }
        requires within { to ≤ length (string_bytes self.now.text) }
        ensures { units self.now.encoding (take from (string_bytes self.now.text)) + result
            ≡ units self.now.encoding (take to (string_bytes self.now.text)) }
    {
        if to - from <= NEAR {
            units_between(self.encoding, self.text.as_bytes(), from, to)
        } else {
            self.units_to(to) - self.units_to(from)
        }
    }

    // The line that an offset is on.
    fn line_of(&self, offset: usize) -> usize
        requires { offset ≤ length (string_bytes self.now.text) }
        ensures { IsOnLine (string_bytes self.now.text) offset result }
    {
        line_of(self.starts.as_slice(), self.rows.as_slice(), offset)
    }

    // Where a line ends.
    fn line_end(&self, line: usize) -> usize
        requires { line < length (line_starts (string_bytes self.now.text)) }
        ensures { result ≡ line_end (string_bytes self.now.text) (line_start (string_bytes self.now.text) line) }
    {
        let start = self.starts[line];
        if line + 1 < self.starts.len() {
            end_before(self.text.as_bytes(), start, self.starts[line + 1])
        } else {
            end_of_last(self.text.as_bytes(), start)
        }
    }

    // The last offset from `start` to `end` up to which at most so many units stand, counted from `start`: block by block
    // where the end is near, and else by bisection.
    fn reached(&self, start: usize, end: usize, count: usize) -> Reached
        requires rising { start ≤ end }
        requires within { end ≤ length (string_bytes self.now.text) }
        ensures offset { IsReached self.now.encoding (string_bytes self.now.text) start end count result.offset }
        ensures units { units self.now.encoding (take start (string_bytes self.now.text)) + result.units
            ≡ units self.now.encoding (take result.offset (string_bytes self.now.text)) }
    {
        if end - start <= NEAR {
            return reached_from(self.encoding, self.text.as_bytes(), start, end, count);
        }
        let offset = self.reached_far(start, end, count);
        let units = self.units_between(start, offset);
        Reached { offset, units }
    }

    // The same offset by bisection.
    fn reached_far(&self, start: usize, end: usize, count: usize) -> usize
        requires rising { start ≤ end }
        requires within { end ≤ length (string_bytes self.now.text) }
        ensures { IsReached self.now.encoding (string_bytes self.now.text) start end count result }
    {
        let before = self.units_to(start);
        let mut low = start;
        let mut high = end;
        'halves: while low < high {
            let middle = high - (high - low) / 2;
            if self.units_to(middle) - before <= count {
                low = middle;
            } else {
                high = middle - 1;
            }
        }
        low
    }
}
