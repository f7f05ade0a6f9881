//! Messages about a text.
ghost use Rattle.std.specs.Prelude.{◌≡◌, string_bytes};

use std::marker::Model;
use std::ops::Range;

/// A message about a text: its own text, its position in bytes, and the range of the token there.
#[derive(Debug, Drop)]
pub struct Message {
    text: String,
    at: usize,
    start: usize,
    end: usize,
}

impl Model for Message {
    ghost use Rattle.std.specs.Prelude.{string_bytes};
    ghost use Rattle.rap_ranged.specs.RangedMessages.{RangedMessage};

    ghost Value = { RangedMessage };

    ghost view = { λ m. record { text = string_bytes m.text; at = m.at; start = m.start; end = m.end } };
}

impl Message {
    /// A message of this text at this byte, with this place.
    pub fn new(text: String, at: usize, range: Range<usize>) -> Message
        ensures { result ≡ record { text = string_bytes text; at = at; start = range.start; end = range.end } }
    {
        Message {
            text,
            at,
            start: range.start,
            end: range.end,
        }
    }

    /// The text of the message.
    pub fn text(&self) -> &str
        ensures { result.now ≡ self.now.text }
    {
        self.text.as_str()
    }

    /// Its position in the text, in bytes.
    pub fn position(&self) -> usize
        ensures { result ≡ self.now.at }
    {
        self.at
    }

    /// The range of the token at its position, in bytes. At the end of the text it is empty.
    pub fn range(&self) -> Range<usize>
        ensures start { result.start ≡ self.now.start }
        ensures end { result.end ≡ self.now.end }
    {
        self.start..self.end
    }
}
