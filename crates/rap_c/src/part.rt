//! A part of a script source, in numbers.
ghost use Rattle.std.specs.Prelude.{◌≡◌, map};
ghost use Rattle.rap_c.specs.Filling.{overwritten};
ghost use Rattle.rap_c.specs.Script.{part_at, part_of};

use ra_ap_parser::frontmatter::Span;

/// A part of a text: 1 where it is there, and its bytes; else 0 in all three.
#[repr(C)]
#[derive(Clone, Copy, Debug, PartialEq, Eq)]
pub struct RapPart {
    pub there: usize,
    pub start: usize,
    pub end: usize,
}

/// The part at a span.
pub fn part_at(span: &Span) -> RapPart
    ensures { result ≡ part_at span.now }
{
    RapPart {
        there: 1,
        start: span.start,
        end: span.end,
    }
}

/// The part at a span, if there is one.
pub fn part_of(span: &Option<Span>) -> RapPart
    ensures { result ≡ part_of span.now }
{
    match span {
        None => RapPart {
            there: 0,
            start: 0,
            end: 0,
        },
        Some(span) => part_at(span),
    }
}

/// Writes the parts into the room, as far as it reaches.
pub fn put_parts(room: &mut [RapPart], parts: &[RapPart])
    ensures { room.new ≡ overwritten room.old parts.now }
{
    let count = parts.len().min(room.len());
    room[..count].copy_from_slice(&parts[..count]);
}
