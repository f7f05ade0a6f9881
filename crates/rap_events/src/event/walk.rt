//! Reading events backwards and writing the steps in their place.
ghost use Rattle.std.specs.Prelude.{◌≡◌, ◌≤◌, ◌<◌, ◌+◌, OnOk, length, take, reverse, true, [], ◌∷◌};
ghost use Rattle.rap_events.specs.Forest.{flat, splits_placed, used};
ghost use Rattle.rap_events.specs.Reading.{forest_of};
ghost use Rattle.rap_events.specs.Interval.{without_exit};
ghost use Rattle.rap_events.specs.Pending.{inners, slot, pasts};

use super::Event;
use crate::list::push;
use crate::output::Output;
use crate::word::Word;
use rap_base::no_memory::NoMemory;
use rap_base::syntax_kind::SyntaxKind;
use std::alloc::Global;

// What is still to begin. The nodes that begin at one place stand together, the outermost first, and after them
// stands how many older markers are between that place and the newest open marker.
#[derive(Clone, Copy)]
enum Pending {
    // The outermost of the nodes that begin at one place.
    Outermost { kind: SyntaxKind },
    // The next one of them.
    Inner { kind: SyntaxKind },
    // No node begins at a marker.
    Nothing,
    // What stands before begins one marker further back.
    Past,
}

// Puts so many markers between the newest open one and what begins next.
#[inline(always)]
#[tactic(auto, using(crate::proofs::Places::inners_append))]
fn push_past(pending: &mut Vec<Pending>, markers: usize) -> Result<(), NoMemory>
    ensures inners { inners pending.new.items ≡ inners pending.old.items }
    ensures past { OnOk result (reverse pending.new.items ≡ pasts markers (reverse pending.old.items)) }
{
    for _ in 0..markers {
        push(pending, Pending::Past)?;
    }
    Ok(())
}

// What is known on the way back.
#[derive(Drop)]
pub(super) struct Walk {
    // The first `left` of them are events that were not yet read, and from `first` on they are steps.
    events: Vec<Word>,
    pub(super) left: usize,
    first: usize,
    messages: Vec<String>,
    pending: Vec<Pending>,
    // Whether the last nodes of the list are around the node that ends next.
    is_around: bool,
    // Past how many open markers the node that ends next begins.
    skips: usize,
    ghost within: { first ≤ length events.items },
    ghost room: { left + (inners pending.items + slot is_around) ≤ first },
    ghost few: { skips + left ≤ length events.items },
}

impl Walk {
    ghost use Rattle.rap_events.specs.History as call;
    ghost use Rattle.rap_events.specs.declared.event.Event.TheVariants as event;
    ghost use Rattle.rap_events.specs.Unwind.{texts, walk_with, walk_of, nothing_yet, entered, HasRoom, Started, Kept, Written, Taken, Backed, EventBacked, EnteredLast, Same};

    pub(super) fn new(alloc: Global, events: Vec<Word>, messages: Vec<String>) -> Walk
        ensures { Started events.items messages.items result }
    {
        Walk {
            left: events.len(),
            first: events.len(),
            events,
            messages,
            pending: Vec::new(alloc),
            is_around: false,
            skips: 0,
        }
    }

    // Writes a step before the others, in the place of an event that was read.
    #[inline(always)]
    fn write(&mut self, step: Word)
        requires room { HasRoom self.old }
        ensures { Written step self.old self.new }
    {
        self.first -= 1;
        self.events[self.first] = step;
    }

    // The node is in those around it, if there are any, and else the outermost at its place.
    #[inline(always)]
    #[tactic(auto, using(crate::proofs::Places::inners_append))]
    fn finish(&mut self, kind: SyntaxKind) -> Result<(), NoMemory>
        requires room { HasRoom self.old }
        ensures { OnOk result (Backed (call.finish kind) self.old self.new) }
    {
        let node = if self.is_around {
            Pending::Inner { kind }
        } else {
            Pending::Outermost { kind }
        };
        push(&mut self.pending, node)?;
        self.is_around = false;
        push_past(&mut self.pending, self.skips)?;
        self.skips = 0;
        self.write(Word::of_event(Event::Exit));
        Ok(())
    }

    #[inline(always)]
    #[tactic(auto, using(crate::proofs::Places::inners_append))]
    fn abandon(&mut self) -> Result<(), NoMemory>
        ensures { OnOk result (Backed call.abandon self.old self.new) }
    {
        self.is_around = false;
        push(&mut self.pending, Pending::Nothing)?;
        Ok(())
    }

    // The nodes that begin at the newest open marker are those around the node that ends next.
    #[inline(always)]
    #[tactic(auto, using(crate::proofs::Places::inners_append))]
    fn precede(&mut self)
        requires room { HasRoom self.old }
        ensures { Backed call.precede self.old self.new }
    {
        self.is_around = match self.pending.last() {
            Some(Pending::Outermost { .. } | Pending::Inner { .. }) => true,
            Some(Pending::Nothing | Pending::Past) | None => false,
        };
        if !self.is_around {
            self.pending.pop();
        }
    }

    // Takes the last one from the list and begins it, if it is a node. Returns whether it is in another one that begins
    // there.
    #[inline(always)]
    #[tactic(auto, using(crate::proofs::Places::inners_append))]
    fn enter_last(&mut self) -> bool
        requires room { HasRoom self.old }
        ensures { EnteredLast result self.old self.new }
    {
        let Some(last) = self.pending.pop() else {
            return false;
        };
        match last {
            Pending::Inner { kind } => {
                self.write(Word::of_event(Event::Enter { kind }));
                true
            }
            Pending::Outermost { kind } => {
                self.write(Word::of_event(Event::Enter { kind }));
                false
            }
            Pending::Nothing | Pending::Past => false,
        }
    }

    #[inline(always)]
    fn start(&mut self)
        requires room { HasRoom self.old }
        ensures { Backed call.start self.old self.new }
    {
        self.is_around = false;
        let mut is_more = self.enter_last();
        while is_more {
            is_more = self.enter_last();
        }
    }

    // Takes the first step away, if it ends a node.
    #[inline(always)]
    fn drop_exit(&mut self)
        ensures kept { Kept self.old self.new }
        ensures room { self.old.first ≤ self.new.first }
        ensures walk { walk_of self.new ≡ record (walk_of self.old) { steps = without_exit (walk_of self.old).steps } }
        ensures pending { self.new.pending.items ≡ self.old.pending.items }
    {
        if self.first < self.events.len() {
            let word = self.events[self.first];
            if let Event::Exit = word.event() {
                self.first += 1;
            }
        }
    }

    // The float stands for the ends of the nodes that it ends.
    #[inline(always)]
    fn float_split(&mut self, word: Word, ends_in_dot: bool)
        requires room { HasRoom self.old }
        requires split { word ≡ event.FloatSplit ends_in_dot }
        ensures { Backed (call.float_split ends_in_dot) self.old self.new }
    {
        self.drop_exit();
        if !ends_in_dot {
            self.drop_exit();
        }
        self.write(word);
    }

    // The last event that was not yet read.
    #[inline(always)]
    fn take_event(&mut self) -> Word
        requires { 0 < self.old.left }
        ensures { Taken result self.old self.new }
    {
        self.left -= 1;
        self.events[self.left]
    }

    // A token, a message and a float are steps as they are.
    #[inline(always)]
    fn read(&mut self, word: Word) -> Result<(), NoMemory>
        requires room { HasRoom self.old }
        requires few { self.old.skips + self.old.left < length self.old.events.items }
        ensures { OnOk result (EventBacked word self.old self.new) }
    {
        match word.call() {
            Event::Start | Event::Enter { .. } | Event::Exit => self.start(),
            Event::Precede => self.precede(),
            Event::Finish { kind } => self.finish(kind)?,
            Event::Extend => self.skips += 1,
            Event::Abandon => self.abandon()?,
            Event::Token { .. } | Event::Error { .. } => self.write(word),
            Event::FloatSplit { ends_in_dot } => self.float_split(word, ends_in_dot),
        }
        Ok(())
    }

    /// Takes the last event back that was not yet read.
    #[inline(always)]
    pub(super) fn back(&mut self) -> Result<(), NoMemory>
        requires left { 0 < self.old.left }
        ensures { OnOk result (Same self.old self.new) }
    {
        let word = self.take_event();
        self.read(word)?;
        Ok(())
    }

    /// The output that the steps, which stand for so many tokens, and all messages make.
    pub(super) fn output(self, tokens: usize) -> Output
        requires steps { flat (forest_of (walk_with (texts self) self).steps) ≡ (walk_with (texts self) self).steps }
        requires splits { splits_placed (forest_of (walk_with (texts self) self).steps) ≡ true }
        requires tokens { tokens ≡ used (forest_of (walk_with (texts self) self).steps) }
        ensures { result ≡ forest_of (walk_with (texts self) self).steps }
    {
        Output::of_steps(self.events, self.first, self.messages, tokens)
    }
}
