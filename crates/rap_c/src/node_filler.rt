//! What fills the caller's rooms with a tree in one list.
ghost use Rattle.std.specs.Prelude.{◌≡◌, ◌+◌, ◌<◌, ◌^◌, [], length};
ghost use Rattle.rap_lexed.specs.StrStep.{str_token};

use crate::element::{RapElement, RapMessage};
use crate::element_room::{ElementCounts, narrow};
use crate::filler::kind_number;
use crate::message_room::MessageCounts;
use crate::waiting::Waiting;
use ra_ap_parser::{StrSink, StrStep};
use std::convert::Infallible;

/// The caller's room for elements, for messages and for the bytes of messages, and how many of each there have been; the
/// lexer's messages, and how many of these have been added; and the byte of the text at which the last leaf ended.
///
/// A message of the parser is added before the leaf at its place comes, and one of the lexer when the leaf at its place
/// has come: so all of them are in order, and no memory is allocated.
#[derive(Drop)]
pub struct NodeFiller<'a, 'm, 'w> {
    pub elements: &'a mut [RapElement],
    pub messages: &'a mut [RapMessage],
    pub bytes: &'a mut [u8],
    pub element_counts: ElementCounts,
    pub message_counts: MessageCounts,
    pub waiting: &'m [Waiting<'w>],
    pub next: usize,
    pub at: u32,
}

impl<'a, 'm, 'w> NodeFiller<'a, 'm, 'w> {
    ghost use Rattle.rap_c.specs.Lays.{AddsWaiting, HoldsNodes, LaysStep};
    ghost use Rattle.rap_c.specs.Listed.{rooms_of};

    /// Nothing is written yet.
    pub fn new(
        elements: &'a mut [RapElement],
        messages: &'a mut [RapMessage],
        bytes: &'a mut [u8],
        waiting: &'m [Waiting<'w>],
    ) -> NodeFiller<'a, 'm, 'w>
        ensures start { HoldsNodes (rooms_of elements.old messages.old bytes.old) (record { elements = []; opened = []; at = 0 }) (record { notes = []; ranged = 0; waiting = waiting.now }) result }
        ensures elements { result.elements.ghost_name ≡ elements.entry.ghost_name }
        ensures messages { result.messages.ghost_name ≡ messages.entry.ghost_name }
        ensures bytes { result.bytes.ghost_name ≡ bytes.entry.ghost_name }
    {
        // For the proof: it fits its type.
        let _message_room = messages.len();
        let _byte_room = bytes.len();
        NodeFiller {
            elements,
            messages,
            bytes,
            element_counts: ElementCounts::new(),
            message_counts: MessageCounts::new(),
            waiting,
            next: 0,
            at: 0,
        }
    }

    /// A leaf of so many bytes comes. The messages that have no range get that of this leaf, and the lexer's messages at
    /// it are added.
    #[inline(always)]
    fn token(&mut self, kind: u32, text: &str)
        ensures { LaysStep self.old (str_token kind text.now) self.new }
    {
        let start = self.at;
        let end = narrow(start as usize + text.len());
        self.element_counts.leaf(self.elements, kind, start, end);
        self.at = end;
        if text.is_empty() {
            return;
        }
        self.message_counts.end_ranges(self.messages, end);
        self.add_waiting(start, end);
    }

    /// Adds the lexer's messages before the end of a leaf, with its range. Most often none waits.
    #[inline(always)]
    fn add_waiting(&mut self, start: u32, end: u32)
        ensures { AddsWaiting start end self.old self.new }
    {
        if self.next >= self.waiting.len() {
            return;
        }
        self.add_next_waiting(start as usize, end as usize);
    }

    /// The same in a call of its own, which takes no register from the walk.
    #[inline(never)]
    fn add_next_waiting(&mut self, start: usize, end: usize)
        ensures { AddsWaiting start end self.old self.new }
    {
        'waiting: while self.next < self.waiting.len() {
            let message = &self.waiting[self.next];
            if message.at() >= end {
                return;
            }
            self.message_counts.add(
                self.messages,
                self.bytes,
                message.text(),
                message.at(),
                start,
                end,
            );
            self.message_counts.ranged = self.message_counts.count;
            self.next += 1;
        }
    }
}

impl StrSink for NodeFiller<'_, '_, '_> {
    ghost use Rattle.rap_c.specs.Lays.{LaysStep};

    // No step is refused.
    type Refusal = Infallible;

    ghost takes = { LaysStep };

    ghost refuses = { λ _ _ _ _. ⊥ };

    #[inline(always)]
    fn step(&mut self, step: StrStep<'_>) -> Result<(), Infallible> {
        match step {
            StrStep::Enter { kind } => {
                self.element_counts
                    .enter(self.elements, kind_number(kind), self.at);
            }
            StrStep::Exit => self.element_counts.exit(self.elements, self.at),
            StrStep::Token { kind, text } => self.token(kind_number(kind), text),
            StrStep::Error { msg, pos } => {
                self.message_counts
                    .add(self.messages, self.bytes, msg, pos, pos, pos);
            }
        }
        Ok(())
    }
}
