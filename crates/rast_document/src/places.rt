//! The offset that a position of a text means.
ghost use Rattle.std.specs.Prelude.{◌≡◌, ℕ, ◌+◌, ◌≤◌, IfNone, IfSome, take};
ghost use Rattle.rast_document.specs.Indexed.{IsRange, IsReached, IsStart};
ghost use Rattle.rast_document.specs.Lines.{line_end};
ghost use Rattle.rast_document.specs.Places.{IsAt, position, within_line};
ghost use Rattle.rast_document.specs.Units.{units};

use crate::change::is_in_order;
use crate::encoding::Encoding;
use crate::lines::{end_of_line, start_of_line};
use crate::marks::{Reached, reached_from};
use crate::position::{Position, Span};

/// What a position means, by the last offset that its units reach on its line, which begins at `start` and ends at `end`.
pub(crate) fn meant(
    encoding: Encoding,
    text: &str,
    place: Position,
    start: usize,
    end: usize,
    reached: Reached,
) -> Option<usize>
    requires start { IsStart text.now place.line start }
    requires end { end ≡ line_end text.now start }
    requires reached { IsReached encoding text.now start end place.character reached.offset }
    requires units { units encoding (take start text.now) + reached.units ≡ units encoding (take reached.offset text.now) }
    ensures found { IfSome result (λ offset. IsAt encoding text.now place offset) }
    ensures only { IfSome result (λ offset. (other : ℕ) → IsAt encoding text.now place other → other ≡ offset) }
    ensures back { IfSome result (λ offset. position encoding text.now offset ≡ within_line encoding text.now place) }
    ensures none { IfNone result ((offset : ℕ) → ¬ IsAt encoding text.now place offset) }
{
    if reached.offset < end && reached.units < place.character {
        return None;
    }
    if text.is_char_boundary(reached.offset) {
        Some(reached.offset)
    } else {
        None
    }
}

/// The offset that a position means in a text of which nothing is counted ahead, if its line begins at `start`.
fn offset_on(encoding: Encoding, text: &str, place: Position, start: usize) -> Option<usize>
    requires start { IsStart text.now place.line start }
    ensures found { IfSome result (λ offset. IsAt encoding text.now place offset) }
    ensures none { IfNone result ((offset : ℕ) → ¬ IsAt encoding text.now place offset) }
{
    let end = end_of_line(text.as_bytes(), start);
    let reached = reached_from(encoding, text.as_bytes(), start, end, place.character);
    meant(encoding, text, place, start, end, reached)
}

/// The offsets that the ends of a range mean in a text of which nothing is counted ahead: looked for from the start of a
/// line that is not after them.
pub(crate) fn range_of(
    encoding: Encoding,
    text: &str,
    known: usize,
    known_start: usize,
    span: Span,
) -> Option<(usize, usize)>
    requires known { IsStart text.now known known_start }
    requires before { known ≤ span.start.line }
    ensures found { IfSome result (λ range. IsRange encoding text.now span range.0 range.1) }
    ensures none { IfNone result ((from to : ℕ) → ¬ IsRange encoding text.now span from to) }
{
    if !is_in_order(span.start, span.end) {
        return None;
    }
    let first = start_of_line(text.as_bytes(), known, known_start, span.start.line)?;
    let from = offset_on(encoding, text, span.start, first)?;
    let last = start_of_line(text.as_bytes(), span.start.line, first, span.end.line)?;
    let to = offset_on(encoding, text, span.end, last)?;
    Some((from, to))
}
