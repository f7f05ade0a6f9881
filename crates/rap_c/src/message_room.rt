//! The caller's room for messages and their bytes.
ghost use Rattle.std.specs.Prelude.{◌≡◌, ℕ, ◌-◌, List, length, min};
ghost use Rattle.rap_c.specs.Lays.{EndsRanges, PutsNote, ends_at, message_room};

use crate::element::RapMessage;
use crate::filler::put_bytes;

/// How many messages and bytes of messages there have been, and how many of the first messages have their range.
/// Numbers saturate at 2^64 - 1.
#[derive(Clone, Copy)]
pub struct MessageCounts {
    pub count: usize,
    pub said: usize,
    pub ranged: usize,
}

/// Ends the messages from one place to another at this byte, as far as the room reaches.
fn end_messages(messages: &mut [RapMessage], first: usize, last: usize, end: usize)
    ensures { messages.new ≡ ends_at first (min last (length messages.old) - first) end messages.old }
{
    let limit = last.min(messages.len());
    'messages: for i in first..limit {
        let message = messages[i];
        messages[i] = RapMessage {
            at: message.at,
            start: message.start,
            end,
            text_start: message.text_start,
            text_end: message.text_end,
        };
    }
}

impl MessageCounts {
    /// Nothing is written yet.
    pub fn new() -> MessageCounts
        ensures { result ≡ record { count = 0; said = 0; ranged = 0 } }
    {
        MessageCounts {
            count: 0,
            said: 0,
            ranged: 0,
        }
    }

    /// Adds a message at this byte, with a range.
    #[inline(never)]
    pub fn add(
        &mut self,
        messages: &mut [RapMessage],
        bytes: &mut [u8],
        text: &str,
        at: usize,
        start: usize,
        end: usize,
    )
        ensures { PutsNote text.now at start end (message_room messages.old bytes.old self.old) (message_room messages.new bytes.new self.new) }
    {
        let text_start = self.said;
        let text_end = text_start.saturating_add(text.len());
        put_bytes(bytes, text_start, text.as_bytes());
        if self.count < messages.len() {
            messages[self.count] = RapMessage {
                at,
                start,
                end,
                text_start,
                text_end,
            };
        }
        self.count = self.count.saturating_add(1);
        self.said = text_end;
    }

    /// Ends the range of each message that has none yet at this byte. Most often there is none.
    #[inline(always)]
    pub fn end_ranges(&mut self, messages: &mut [RapMessage], end: u32)
        ensures { (bytes : List ℕ) → EndsRanges end (message_room messages.old bytes self.old) (message_room messages.new bytes self.new) }
    {
        if self.ranged == self.count {
            return;
        }
        self.end_last_ranges(messages, end as usize);
    }

    /// The same in a call of its own, which takes no register from the walk.
    #[inline(never)]
    fn end_last_ranges(&mut self, messages: &mut [RapMessage], end: usize)
        ensures { (bytes : List ℕ) → EndsRanges end (message_room messages.old bytes self.old) (message_room messages.new bytes self.new) }
    {
        end_messages(messages, self.ranged, self.count, end);
        self.ranged = self.count;
    }
}
