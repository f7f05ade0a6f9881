//! Where a frontmatter opens.
ghost use Rattle.std.specs.Prelude.{◌≡◌, ◌+◌, ◌<◌, ◌^◌};
ghost use Rattle.rap_frontmatter.specs.Script.{span};
ghost use Rattle.rap_frontmatter.specs.ScriptPlaces.{HasDashes, HasOpening};

use crate::frontmatter::error::Span;
use crate::frontmatter::line::count_dashes;
use crate::frontmatter::strip::{strip_shebang, strip_ws_lines};

/// Dashes at the beginning of a text or after blank lines: their offset in bytes, and their number.
#[derive(Clone, Copy)]
pub(super) struct Dashes {
    pub(super) start: usize,
    pub(super) len: usize,
}

impl Dashes {
    /// Returns the offset of the end of the dashes, in bytes.
    pub(super) fn end(&self) -> usize
        requires { self.now.start + self.now.len < 2 ^ 64 }
        ensures { result ≡ self.now.start + self.now.len }
    {
        self.start + self.len
    }

    pub(super) fn span(&self) -> Span
        requires { self.now.start + self.now.len < 2 ^ 64 }
        ensures { result ≡ span self.now.start self.now.len }
    {
        self.start..self.end()
    }
}

/// Finds the dashes after the blank lines at the beginning of the text. Their number may be 0.
pub(super) fn find_dashes(text: &str) -> Dashes
    ensures { HasDashes text.now result.start result.len }
{
    let start = strip_ws_lines(text).unwrap_or(0);
    let len = count_dashes(&text.as_bytes()[start..]);
    Dashes { start, len }
}

/// The end of the shebang in bytes, if there is one, and the dashes after it.
#[derive(Clone, Copy)]
pub(super) struct Opening {
    pub(super) shebang: Option<usize>,
    pub(super) dashes: Dashes,
}

/// Finds the shebang of the text, and the dashes after it and after blank lines.
pub(super) fn find_opening(text: &str) -> Opening
    ensures { HasOpening text.now result.shebang result.dashes.start result.dashes.len }
{
    let shebang = strip_shebang(text);
    let below = shebang.unwrap_or(0);
    let dashes = find_dashes(&text[below..]);
    Opening {
        shebang,
        dashes: Dashes {
            start: below + dashes.start,
            len: dashes.len,
        },
    }
}
