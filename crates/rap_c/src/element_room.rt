//! The caller's room for the nodes and leaves of a tree.
ghost use Rattle.std.specs.Prelude.{◌≡◌, ℕ, ◌+◌, List, length};
ghost use Rattle.rap_lexed.specs.StrStep.{str_enter, str_exit, str_token};
ghost use Rattle.rap_ranged.specs.Listed.{no_parent};
ghost use Rattle.rap_c.specs.Lays.{LaysElements, element_room};
ghost use Rattle.rap_c.specs.Words.{as_word};

use crate::element::{NO_PARENT, RapElement};

/// How many elements there have been, the index of the newest open node that has a place in the caller's room, and how
/// many nodes have been opened after it and have not ended: none of these has a place. Each open node with a place has
/// there the index of the one around it.
#[derive(Clone, Copy)]
pub struct ElementCounts {
    pub count: usize,
    pub newest: u32,
    pub beyond: usize,
}

/// The number in 32 bits. It saturates.
#[inline(always)]
pub fn narrow(number: usize) -> u32
    ensures { result ≡ as_word number }
{
    number.min(0xFFFF_FFFF) as u32
}

impl ElementCounts {
    /// Nothing is written yet.
    pub fn new() -> ElementCounts
        ensures { result ≡ record { count = 0; newest = no_parent; beyond = 0 } }
    {
        ElementCounts {
            count: 0,
            newest: NO_PARENT,
            beyond: 0,
        }
    }

    /// A node begins at this byte.
    #[inline(always)]
    pub fn enter(&mut self, elements: &mut [RapElement], kind: u32, at: u32)
        ensures { LaysElements at (str_enter kind) (element_room elements.old self.old) (element_room elements.new self.new) }
    {
        let index = self.count;
        let room = elements.len().min(NO_PARENT as usize);
        if index < room {
            elements[index] = RapElement {
                kind,
                start: at,
                end: at,
                after: 0,
                parent: self.newest,
            };
            self.newest = index as u32;
            self.count = index + 1;
        } else {
            self.beyond = self.beyond.saturating_add(1);
            self.count = index.saturating_add(1);
        }
    }

    /// The newest open node ends at this byte, if there is one.
    #[inline(always)]
    pub fn exit(&mut self, elements: &mut [RapElement], at: u32)
        ensures { LaysElements at str_exit (element_room elements.old self.old) (element_room elements.new self.new) }
    {
        if self.beyond > 0 {
            self.beyond -= 1;
        } else {
            self.close(elements, at);
        }
    }

    /// The newest open node that has a place ends at this byte, if there is one.
    #[inline(always)]
    fn close(&mut self, elements: &mut [RapElement], at: u32)
        ensures { self.old.beyond ≡ 0 → LaysElements at str_exit (element_room elements.old self.old) (element_room elements.new self.new) }
    {
        let index = self.newest as usize;
        let room = elements.len().min(NO_PARENT as usize);
        if index < room {
            let element = elements[index];
            elements[index] = RapElement {
                kind: element.kind,
                start: element.start,
                end: at,
                after: narrow(self.count),
                parent: element.parent,
            };
            self.newest = element.parent;
        }
    }

    /// A leaf comes, from this byte to the byte `end`.
    #[inline(always)]
    pub fn leaf(&mut self, elements: &mut [RapElement], kind: u32, at: u32, end: u32)
        ensures { (text : List ℕ) → end ≡ at + length text → LaysElements at (str_token kind text) (element_room elements.old self.old) (element_room elements.new self.new) }
    {
        let index = self.count;
        let room = elements.len().min(NO_PARENT as usize);
        if index < room {
            elements[index] = RapElement {
                kind,
                start: at,
                end,
                after: narrow(index + 1),
                parent: self.newest,
            };
            self.count = index + 1;
        } else {
            self.count = index.saturating_add(1);
        }
    }
}
