//! Where a frontmatter closes.
ghost use Rattle.std.specs.Prelude.{◌<◌};
ghost use Rattle.rap_frontmatter.specs.ScriptPlaces.{IsFoundFence, IsFoundClose};

use crate::frontmatter::line::{count_dashes, find_line_feed, first_line};

/// The result of a search for a line that begins with at least a given number of dashes. Places are byte offsets of
/// the dashes.
#[derive(Clone, Copy)]
pub(super) enum FoundFence {
    /// The first such line.
    Full { place: usize },
    /// No such line. `len` is the greatest number of dashes at the beginning of a line, `place` the first line with
    /// that many.
    Shorter { place: usize, len: usize },
    /// No line begins with a dash.
    Missing,
}

/// Finds the first line after the first line of the text that begins with `n` dashes or more.
pub(super) fn find_fence(text: &[u8], n: usize) -> FoundFence
    requires { 0 < n }
    ensures { IsFoundFence n text.now result }
{
    let mut at = 0;
    let mut place = 0;
    let mut most = 0;
    'lines: while let Some(skip) = find_line_feed(&text[at..]) {
        let start = at + skip + 1;
        let len = count_dashes(&text[start..]);
        if len >= n {
            return FoundFence::Full { place: start };
        }
        if len > most {
            place = start;
            most = len;
        }
        at = start + len;
    }
    if most == 0 {
        FoundFence::Missing
    } else {
        FoundFence::Shorter { place, len: most }
    }
}

/// The parts of a frontmatter, in bytes from the end of the opening dashes: the length of the info line, the beginning
/// of the frontmatter, and the beginning of the closing dashes.
#[derive(Clone, Copy)]
pub(super) struct Closing {
    pub(super) line: usize,
    pub(super) matter: usize,
    pub(super) close: usize,
}

/// What follows the opening dashes.
#[derive(Clone, Copy)]
pub(super) enum FoundClose {
    At(Closing),
    /// No line begins with as many dashes. The greatest number is `len`, first at `place`.
    TooShort { place: usize, len: usize },
    /// No line begins with a dash.
    NoFence,
    /// No line feed follows.
    NoLine,
}

/// Finds where a frontmatter that `n` dashes opened closes.
pub(super) fn find_close(text: &[u8], n: usize) -> FoundClose
    requires { 0 < n }
    ensures { IsFoundClose n text.now result }
{
    let first = first_line(text);
    if first.len == first.next {
        return FoundClose::NoLine;
    }
    match find_fence(text, n) {
        FoundFence::Full { place } => FoundClose::At(Closing {
            line: first.len,
            matter: first.next,
            close: place,
        }),
        FoundFence::Shorter { place, len } => FoundClose::TooShort { place, len },
        FoundFence::Missing => FoundClose::NoFence,
    }
}
