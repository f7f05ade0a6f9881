//! The sink that makes the list of a tree.
ghost use Rattle.std.specs.Prelude.{◌≡◌, ◌+◌, ◌<◌, ◌≤◌, ◌^◌, [], IfOk, OnOk, length, vec_capacity, vec_len, IsUtf8};
ghost use Rattle.rap_lexed.specs.StrStep.{str_enter, str_exit, str_token};

use crate::element::{Element, NO_PARENT};
use rap_base::no_memory::NoMemory;
use rap_base::syntax_kind::SyntaxKind;
use rap_lexed::shortcuts::{StrSink, StrStep};
use std::alloc::Global;

/// The list of a tree as far as its steps have come, the index of the newest open node, and the end of the last leaf.
/// Each open node has the index of the one around it.
///
/// Up to `room` elements the list takes another one without asking for memory, and each of these has an index in 32
/// bits: so one comparison tells both before an element is added.
#[derive(Drop)]
pub(crate) struct Builder {
    elements: Vec<Element>,
    room: u32,
    newest: u32,
    at: u32,
    ghost few: { vec_len elements ≤ room },
    ghost fits: { room ≤ vec_capacity elements },
}

/// Where a text ends that begins at a place. A place past 32 bits is refused; no lexed text is so long.
#[inline(always)]
fn end_of(at: u32, text: &str) -> Result<u32, NoMemory>
    ensures { IfOk result (λ end. end ≡ at + length text.now) }
{
    let left = u32::MAX - at;
    if text.len() > left as usize {
        return Err(NoMemory);
    }
    Ok(at + text.len() as u32)
}

/// For how many elements there is room: as many as the list takes without asking for memory, but no more than have an
/// index in 32 bits.
fn room_of(elements: &Vec<Element>) -> u32
    ensures fits { result ≤ vec_capacity elements.now }
    ensures few { vec_len elements.now < 2 ^ 32 → vec_len elements.now ≤ result }
    ensures more { vec_len elements.now + 1 < 2 ^ 32 → vec_len elements.now < vec_capacity elements.now → vec_len elements.now < result }
{
    if elements.capacity() > u32::MAX as usize {
        return u32::MAX;
    }
    elements.capacity() as u32
}

impl Builder {
    ghost use Rattle.flat_tree.specs.Building.{after, building};

    /// Nothing yet. Room for so many elements is made if there is memory for it; else the list grows as it is filled.
    pub(crate) fn with_hint(alloc: Global, room: usize) -> Builder
        ensures { building result ≡ record { elements = []; newest = NO_PARENT; at = 0 } }
    {
        let mut elements = Vec::new(alloc);
        let _ = elements.reserve(room);
        let room = room_of(&elements);
        Builder {
            elements,
            room,
            newest: NO_PARENT,
            at: 0,
        }
    }

    /// Nothing yet, with room for so many elements.
    pub(crate) fn with_room(alloc: Global, room: usize) -> Result<Builder, NoMemory>
        ensures { IfOk result (λ builder. building builder ≡ record { elements = []; newest = NO_PARENT; at = 0 }) }
    {
        let elements = Vec::with_capacity(alloc, room)?;
        let room = room_of(&elements);
        Ok(Builder {
            elements,
            room,
            newest: NO_PARENT,
            at: 0,
        })
    }

    /// The list.
    pub(crate) fn into_elements(self) -> Vec<Element>
        ensures { result.items ≡ (building self).elements }
    {
        let Builder {
            elements,
            room: _,
            newest: _,
            at: _,
        } = self;
        elements
    }

    /// Makes room for one more element. A list of so many that one has no index in 32 bits is refused: it would take 80
    /// GiB. What was built stays, also if this is out of memory.
    #[cold]
    #[inline(never)]
    fn grow(&mut self) -> Result<(), NoMemory>
        ensures same { building self.new ≡ building self.old }
        ensures room { OnOk result (vec_len self.new.elements < self.new.room) }
    {
        if self.room == u32::MAX {
            return Err(NoMemory);
        }
        self.elements.reserve(1)?;
        self.room = room_of(&self.elements);
        Ok(())
    }

    /// How many elements there are.
    #[inline(always)]
    fn count(&self) -> u32
        ensures count { result ≡ length self.now.elements.items }
        ensures below { vec_len self.now.elements < self.now.room → result + 1 < 2 ^ 32 }
    {
        // For the proof: it fits its type.
        let _room = self.room;
        self.elements.len() as u32
    }

    /// Makes room for one more element, if there is none. What was built stays.
    #[inline(always)]
    fn make_room(&mut self) -> Result<(), NoMemory>
        ensures same { building self.new ≡ building self.old }
        ensures room { OnOk result (vec_len self.new.elements < self.new.room) }
    {
        if self.elements.len() < self.room as usize {
            return Ok(());
        }
        self.grow()
    }

    /// A node begins.
    #[inline(always)]
    pub(crate) fn enter(&mut self, kind: SyntaxKind) -> Result<(), NoMemory>
        ensures { OnOk result (building self.new ≡ after (building self.old) (str_enter kind)) }
    {
        self.make_room()?;
        let index = self.count();
        self.elements
            .push_reserved(Element::opened(kind, self.at, self.newest));
        self.newest = index;
        Ok(())
    }

    /// The newest open node ends, if there is one.
    #[inline(always)]
    pub(crate) fn exit(&mut self) -> Result<(), NoMemory>
        ensures { OnOk result (building self.new ≡ after (building self.old) str_exit) }
    {
        let after = self.count();
        let index = self.newest as usize;
        if index < self.elements.len() {
            let node = &mut self.elements[index];
            self.newest = node.close(self.at, after);
        }
        Ok(())
    }

    /// A leaf comes.
    #[inline(always)]
    pub(crate) fn token(&mut self, kind: SyntaxKind, text: &str) -> Result<(), NoMemory>
        ensures built { OnOk result (building self.new ≡ after (building self.old) (str_token kind text.now)) }
        ensures text { IsUtf8 text.now }
    {
        let end = end_of(self.at, text)?;
        self.make_room()?;
        let after = self.count() + 1;
        self.elements
            .push_reserved(Element::leaf(kind, self.at, end, after, self.newest));
        self.at = end;
        Ok(())
    }
}

impl StrSink for Builder {
    ghost use Rattle.flat_tree.specs.Building.{Builds};

    type Refusal = NoMemory;

    ghost takes = { Builds };

    // After a call that was out of memory, nothing is specified about what was built.
    ghost refuses = { λ _ _ _ _. Unit {0} };

    #[inline(always)]
    fn step(&mut self, step: StrStep<'_>) -> Result<(), NoMemory> {
        match step {
            StrStep::Token { kind, text } => self.token(kind, text),
            StrStep::Enter { kind } => self.enter(kind),
            StrStep::Exit => self.exit(),
            StrStep::Error { .. } => Ok(()),
        }
    }
}
