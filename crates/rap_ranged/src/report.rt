//! Messages whose place is not known yet.
ghost use Rattle.std.specs.Prelude.{◌≡◌, string_bytes};

use crate::message::Message;
use std::marker::Model;
use std::ops::Range;

/// A message: its text, and its position in bytes.
#[derive(Drop)]
pub struct Report {
    text: String,
    at: usize,
}

impl Model for Report {
    ghost use Rattle.std.specs.Prelude.{string_bytes};
    ghost use Rattle.rap_ranged.specs.Reports.{ReportValue};

    ghost Value = { ReportValue };

    ghost view = { λ r. record { text = string_bytes r.text; at = r.at } };
}

impl Report {
    /// A message of this text at this byte.
    pub fn new(text: String, at: usize) -> Report
        ensures { result ≡ record { text = string_bytes text; at = at } }
    {
        Report { text, at }
    }

    /// Its position, in bytes.
    pub fn position(&self) -> usize
        ensures { result ≡ self.now.at }
    {
        self.at
    }

    /// The message with this place.
    pub fn placed(self, range: Range<usize>) -> Message
        ensures { result ≡ record { text = self.text; at = self.at; start = range.start; end = range.end } }
    {
        Message::new(self.text, self.at, range)
    }
}
