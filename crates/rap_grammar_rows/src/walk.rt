//! A walk along a row.
ghost use Rattle.std.specs.Prelude.{◌≡◌, ℕ, List, ◌∷◌, [], reverse, true, All, IfOk, IfSome, IsTrue, MatchOption, OnOk};
ghost use Rattle.rap_events.specs.Record.{Record};
ghost use Rattle.rap_grammar_rows.specs.Claims.{Leads, From, StepIs, Holds, IsTurns, IsFold, IsPiece, point, row_point};
ghost use Rattle.rap_grammar_rows.specs.Code.{sets};
ghost use Rattle.rap_grammar_rows.specs.Decode.{category_of, set_in, words_in};
ghost use Rattle.rap_grammar_rows.specs.Guards.{guards, guard_at};
ghost use Rattle.rap_grammar_rows.specs.Meaning.{at_place, meaning};
ghost use Rattle.rap_grammar_rows.specs.declared.shape.Shape.TheVariants.{Any, Empty};
ghost use Rattle.rap_grammar_table.specs.Table.{nil, begin, close, piece, tok, word, comp, cat, choice, repeat, group, folds, unless};

use crate::fact::{Fact, Goal};
use crate::guard::is_refused;
use crate::part::{Part, part_at};
use crate::shape::{Frame, Outcome, Shape};
use crate::tokens::{is_token, is_word, operator_end};
use rap_base::no_memory::NoMemory;
use rap_events::input::Input;
use std::alloc::Global;
use std::mem::replace;

/// The choices that walks make, in their order, and room for what a walk comes back to, which one walk leaves to the next.
#[derive(Drop)]
pub struct Moves<'m> {
    moves: &'m [usize],
    next: usize,
    room: Vec<Frame>,
}

impl<'m> Moves<'m> {
    /// The choices from the first on.
    pub fn new(alloc: Global, moves: &'m [usize]) -> Moves<'m> {
        Moves {
            moves,
            next: 0,
            room: Vec::new(alloc),
        }
    }

    /// Takes the next choice; past the last one it is 0.
    pub fn take(&mut self) -> usize {
        if self.next >= self.moves.len() {
            return 0;
        }
        let choice = self.moves[self.next];
        self.next += 1;
        choice
    }

    /// Takes the room for what a walk comes back to, with nothing in it.
    pub fn take_room(&mut self, alloc: Global) -> Vec<Frame>
        ensures { result.items ≡ [] }
    {
        let mut room = replace(&mut self.room, Vec::new(alloc));
        room.clear();
        room
    }

    /// Leaves room to the next walk.
    pub fn keep_room(&mut self, room: Vec<Frame>) {
        self.room = room;
    }
}

/// Where a walk is: the place in the rows, the shape of the forest so far, the token that comes next, and what the walk
/// comes back to, the newest last.
#[derive(Drop)]
pub struct Walk {
    pub place: usize,
    pub shape: Shape,
    pub at: usize,
    pub frames: Vec<Frame>,
}

/// Takes the newest frame.
fn take_newest(frames: &mut Vec<Frame>) -> Option<Frame>
    ensures { MatchOption result (reverse frames.old.items ≡ []) (λ frame. reverse frames.old.items ≡ frame ∷ reverse frames.new.items) }
{
    frames.pop()
}

/// Puts a frame on the others.
fn put(frames: &mut Vec<Frame>, frame: Frame) -> Result<(), NoMemory>
    ensures { OnOk result (reverse frames.new.items ≡ frame ∷ reverse frames.old.items) }
{
    frames.push(frame)?;
    Ok(())
}

/// Returns the fact with this number.
pub fn fact_at(input: &Input, facts: &[Fact], number: usize) -> Option<Fact>
    requires { All (Holds input.now) facts.now }
    ensures { IfSome result (λ fact. Holds input.now fact) }
{
    if number < facts.len() {
        Some(facts[number])
    } else {
        None
    }
}

impl Walk {
    /// Begins a node.
    fn start(&mut self, next: usize) -> Result<(), NoMemory>
        requires { at_place self.old.place ≡ begin (at_place next) }
        ensures { OnOk result ((tokens : List Record) (end : ℕ) → Leads tokens end (point self.old.place self.old.shape self.old.frames.items self.old.at) (point self.new.place self.new.shape self.new.frames.items self.new.at)) }
    {
        put(&mut self.frames, Frame::Opened(self.shape))?;
        self.place = next;
        self.shape = Shape::Empty;
        Ok(())
    }

    /// Ends the newest node, if one is open.
    fn close(&mut self, input: &Input, end: usize, kind: u16, next: usize) -> Outcome
        requires { at_place self.old.place ≡ close kind (at_place next) }
        ensures { StepIs input.now end (point self.old.place self.old.shape self.old.frames.items self.old.at) (point self.new.place self.new.shape self.new.frames.items self.new.at) result }
    {
        // For the proof: each fits its type.
        let _tokens = (input.len(), end, kind);
        let Some(Frame::Opened(outer)) = take_newest(&mut self.frames) else {
            return Outcome::Stuck;
        };
        self.place = next;
        self.shape = outer.closed();
        Outcome::On
    }

    /// Takes one of two ways.
    fn choose(
        &mut self,
        first: usize,
        second: usize,
        next: usize,
        way: usize,
    ) -> Result<(), NoMemory>
        requires { at_place self.old.place ≡ choice (at_place first) (at_place second) (at_place next) }
        ensures { OnOk result ((tokens : List Record) (end : ℕ) → Leads tokens end (point self.old.place self.old.shape self.old.frames.items self.old.at) (point self.new.place self.new.shape self.new.frames.items self.new.at)) }
    {
        put(&mut self.frames, Frame::Then(next))?;
        if way == 0 {
            self.place = first;
        } else {
            self.place = second;
        }
        Ok(())
    }

    /// Ends a row, or the way that was taken.
    fn end(&mut self, input: &Input, end: usize) -> Outcome
        requires { at_place self.old.place ≡ nil }
        ensures { StepIs input.now end (point self.old.place self.old.shape self.old.frames.items self.old.at) (point self.new.place self.new.shape self.new.frames.items self.new.at) result }
    {
        // For the proof: it fits its type.
        let _tokens = input.len();
        match take_newest(&mut self.frames) {
            Some(Frame::Then(next)) => {
                self.place = next;
                Outcome::On
            }
            Some(Frame::Opened(_)) => Outcome::Stuck,
            None => {
                if self.at == end {
                    Outcome::Done
                } else {
                    Outcome::Stuck
                }
            }
        }
    }

    /// Goes on at a place and a token, behind a tree of this shape.
    fn go_on(&mut self, next: usize, at: usize, shape: Shape)
        ensures place { self.new.place ≡ next }
        ensures at { self.new.at ≡ at }
        ensures shape { self.new.shape ≡ shape }
        ensures frames { self.new.frames ≡ self.old.frames }
    {
        self.place = next;
        self.at = at;
        self.shape = shape;
    }

    /// Takes a token of one of these kinds, which is read as one of these words.
    fn token(
        &mut self,
        input: &Input,
        end: usize,
        kinds: usize,
        words: usize,
        next: usize,
    ) -> Outcome
        requires { at_place self.old.place ≡ piece (tok (set_in kinds sets) (words_in words sets)) (at_place next) }
        ensures { StepIs input.now end (point self.old.place self.old.shape self.old.frames.items self.old.at) (point self.new.place self.new.shape self.new.frames.items self.new.at) result }
    {
        // For the proof: it fits its type.
        let _end = end;
        if self.at >= input.len() || !is_token(input, self.at, kinds, words) {
            return Outcome::Stuck;
        }
        self.go_on(next, self.at + 1, Shape::Any);
        Outcome::On
    }

    /// Takes an identifier as this word.
    fn word(&mut self, input: &Input, end: usize, kind: u16, next: usize) -> Outcome
        requires { at_place self.old.place ≡ piece (word kind) (at_place next) }
        ensures { StepIs input.now end (point self.old.place self.old.shape self.old.frames.items self.old.at) (point self.new.place self.new.shape self.new.frames.items self.new.at) result }
    {
        // For the proof: it fits its type.
        let _end = end;
        if self.at >= input.len() || !is_word(input, self.at, kind) {
            return Outcome::Stuck;
        }
        self.go_on(next, self.at + 1, Shape::Any);
        Outcome::On
    }

    /// Takes the tokens of an operator.
    fn operator(
        &mut self,
        alloc: Global,
        input: &Input,
        end: usize,
        kind: u16,
        next: usize,
    ) -> Outcome
        requires { at_place self.old.place ≡ piece (comp kind) (at_place next) }
        ensures { StepIs input.now end (point self.old.place self.old.shape self.old.frames.items self.old.at) (point self.new.place self.new.shape self.new.frames.items self.new.at) result }
    {
        // For the proof: it fits its type.
        let _end = end;
        let Some(to) = operator_end(alloc, input, self.at, kind) else {
            return Outcome::Stuck;
        };
        self.go_on(next, to, Shape::Any);
        Outcome::On
    }

    /// Goes past the tokens of a category, by this fact.
    fn category(
        &mut self,
        input: &Input,
        end: usize,
        fact: Fact,
        number: u16,
        next: usize,
    ) -> Outcome
        requires here { at_place self.old.place ≡ piece (cat (category_of number)) (at_place next) }
        requires holds { Holds input.now fact }
        ensures { StepIs input.now end (point self.old.place self.old.shape self.old.frames.items self.old.at) (point self.new.place self.new.shape self.new.frames.items self.new.at) result }
    {
        // For the proof: each fits its type.
        let _tokens = (input.len(), end);
        let Goal::Category(category, shape) = fact.goal else {
            return Outcome::Stuck;
        };
        if category != number || fact.start != self.at {
            return Outcome::Stuck;
        }
        self.go_on(next, fact.end, self.shape.joined(shape));
        Outcome::On
    }

    /// Goes past a part that stands alone, by this fact.
    fn group(&mut self, input: &Input, end: usize, fact: Fact, part: usize, next: usize) -> Outcome
        requires here { at_place self.old.place ≡ group (at_place part) (at_place next) }
        requires holds { Holds input.now fact }
        ensures { StepIs input.now end (point self.old.place self.old.shape self.old.frames.items self.old.at) (point self.new.place self.new.shape self.new.frames.items self.new.at) result }
    {
        // For the proof: each fits its type.
        let _tokens = (input.len(), end);
        let Goal::Row(place, shape) = fact.goal else {
            return Outcome::Stuck;
        };
        if place != part || fact.start != self.at {
            return Outcome::Stuck;
        }
        self.go_on(next, fact.end, self.shape.joined(shape));
        Outcome::On
    }

    /// Goes past turns and what stands last, by this fact.
    fn repeat(
        &mut self,
        input: &Input,
        end: usize,
        fact: Fact,
        parts: (usize, usize),
        next: usize,
    ) -> Outcome
        requires here { at_place self.old.place ≡ repeat (at_place parts.0) (at_place parts.1) (at_place next) }
        requires holds { Holds input.now fact }
        ensures { StepIs input.now end (point self.old.place self.old.shape self.old.frames.items self.old.at) (point self.new.place self.new.shape self.new.frames.items self.new.at) result }
    {
        // For the proof: each fits its type.
        let _tokens = (input.len(), end);
        let Goal::Turns(turn, last) = fact.goal else {
            return Outcome::Stuck;
        };
        if turn != parts.0 || last != parts.1 || fact.start != self.at {
            return Outcome::Stuck;
        }
        self.go_on(next, fact.end, Shape::Any);
        Outcome::On
    }

    /// Goes past what puts nodes around the last one, by this fact.
    fn fold(
        &mut self,
        input: &Input,
        end: usize,
        fact: Fact,
        turns: (u16, usize),
        next: usize,
    ) -> Outcome
        requires here { at_place self.old.place ≡ folds turns.0 (at_place turns.1) (at_place next) }
        requires holds { Holds input.now fact }
        ensures { StepIs input.now end (point self.old.place self.old.shape self.old.frames.items self.old.at) (point self.new.place self.new.shape self.new.frames.items self.new.at) result }
    {
        // For the proof: each fits its type.
        let _tokens = (input.len(), end);
        let Goal::Fold(place, number) = fact.goal else {
            return Outcome::Stuck;
        };
        if place != turns.1
            || number != turns.0
            || fact.start != self.at
            || !self.shape.ends_in_node()
        {
            return Outcome::Stuck;
        }
        self.go_on(next, fact.end, self.shape);
        Outcome::On
    }

    /// Goes past a test that does not hold.
    fn guard(&mut self, input: &Input, end: usize, guard: usize, next: usize) -> Outcome
        requires { at_place self.old.place ≡ unless (guard_at guard guards).0 (guard_at guard guards).1 (at_place next) }
        ensures { StepIs input.now end (point self.old.place self.old.shape self.old.frames.items self.old.at) (point self.new.place self.new.shape self.new.frames.items self.new.at) result }
    {
        if !is_refused(input, self.at, end, guard) {
            return Outcome::Stuck;
        }
        self.place = next;
        Outcome::On
    }

    /// Goes past what a fact says.
    fn by_fact(&mut self, input: &Input, end: usize, fact: Fact, part: Part) -> Outcome
        requires here { at_place self.old.place ≡ meaning part }
        requires holds { Holds input.now fact }
        ensures { StepIs input.now end (point self.old.place self.old.shape self.old.frames.items self.old.at) (point self.new.place self.new.shape self.new.frames.items self.new.at) result }
    {
        // For the proof: it fits its type.
        let _tokens = input.len();
        match part {
            Part::Category(number, next) => self.category(input, end, fact, number, next),
            Part::Group(part, next) => self.group(input, end, fact, part, next),
            Part::Repeat(turn, last, next) => self.repeat(input, end, fact, (turn, last), next),
            Part::Folds(number, turns, next) => self.fold(input, end, fact, (number, turns), next),
            _ => Outcome::Stuck,
        }
    }

    /// Goes one part further.
    #[inline(always)]
    pub fn step(
        &mut self,
        alloc: Global,
        input: &Input,
        facts: &[Fact],
        end: usize,
        moves: &mut Moves<'_>,
    ) -> Result<Outcome, NoMemory>
        requires { All (Holds input.now) facts.now }
        ensures { IfOk result (λ outcome. StepIs input.now end (point self.old.place self.old.shape self.old.frames.items self.old.at) (point self.new.place self.new.shape self.new.frames.items self.new.at) outcome) }
    {
        // For the proof: it fits its type.
        let _tokens = input.len();
        let Some(part) = part_at(self.place) else {
            return Ok(Outcome::Stuck);
        };
        match part {
            Part::End => Ok(self.end(input, end)),
            Part::Start(next) => {
                self.start(next)?;
                Ok(Outcome::On)
            }
            Part::Close(kind, next) => Ok(self.close(input, end, kind, next)),
            Part::Choice(first, second, next) => {
                self.choose(first, second, next, moves.take())?;
                Ok(Outcome::On)
            }
            Part::Token(kinds, words, next) => Ok(self.token(input, end, kinds, words, next)),
            Part::Word(kind, next) => Ok(self.word(input, end, kind, next)),
            Part::Operator(kind, next) => Ok(self.operator(alloc, input, end, kind, next)),
            Part::Guard(guard, next) => Ok(self.guard(input, end, guard, next)),
            _ => {
                let Some(fact) = fact_at(input, facts, moves.take()) else {
                    return Ok(Outcome::Stuck);
                };
                Ok(self.by_fact(input, end, fact, part))
            }
        }
    }
}
