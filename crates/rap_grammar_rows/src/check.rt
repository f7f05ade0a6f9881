//! A derivation, claim by claim.
ghost use Rattle.std.specs.Prelude.{◌≡◌, ℕ, List, length, All, IfOk, IfSome, IsTrue, Some};
ghost use Rattle.rap_events.specs.Forest.{Forest};
ghost use Rattle.rap_grammar_rows.specs.Claims.{From, Holds, point};
ghost use Rattle.rap_grammar_rows.specs.Code.{row_places, sets, turns};
ghost use Rattle.rap_grammar_rows.specs.Decode.{category_of, set_in, turn_in};
ghost use Rattle.rap_grammar_rows.specs.Meaning.{at_place};
ghost use Rattle.rap_grammar_table.specs.Rows.{grammar};
ghost use Rattle.rap_grammar_table.specs.Table.{HasWay, Items, row_at};
ghost use Rattle.rap_grammar_table.specs.Tops.{MakesRow, file_row};

use crate::fact::{Claim, Fact, Goal};
use crate::lists::{place_starts, places, turns};
use crate::part::{Part, part_at};
use crate::shape::{Frame, Outcome, Shape};
use crate::tokens::{between, contains};
use crate::walk::{Moves, Walk, fact_at};
use rap_base::no_memory::NoMemory;
use rap_events::input::Input;
use std::alloc::Global;

/// Walks along a row up to a token. Returns the walk at its end, which tells the shape of the row's trees, or nothing
/// where the walk is stuck.
fn walked(
    alloc: Global,
    input: &Input,
    facts: &[Fact],
    start: Walk,
    end: usize,
    moves: &mut Moves<'_>,
) -> Result<Option<Walk>, NoMemory>
    requires { All (Holds input.now) facts.now }
    ensures { IfOk result (λ r. IfSome r (λ walk. From input.now end walk.shape (point start.place start.shape start.frames.items start.at))) }
{
    // For the proof: it fits its type.
    let _tokens = input.len();
    let mut walk = start;
    'parts: for _ in 0..u64::MAX {
        match walk.step(alloc, input, facts, end, moves)? {
            Outcome::Stuck => return Ok(None),
            Outcome::Done => return Ok(Some(walk)),
            Outcome::On => {}
        }
    }
    Ok(None)
}

/// Where the rows of a category begin, by its number. Past the last category there are none.
#[tactic(auto, using(crate::proofs::Sets::places_is, crate::proofs::Sets::places_past))]
fn row_starts(number: usize) -> &'static [u16]
    ensures { result.now ≡ set_in number row_places }
{
    if number >= 134 {
        return &[];
    }
    let starts = place_starts();
    let start = usize::from(starts[number]);
    between(places(), start, usize::from(starts[number + 1]))
}

/// Where a row of a category begins, by their numbers.
pub fn row_place(category: u16, row: usize) -> Option<usize>
    ensures { IfSome result (λ place. row_at row (grammar (category_of category)) ≡ Some (at_place place)) }
{
    let places = row_starts(usize::from(category));
    if row >= places.len() {
        return None;
    }
    Some(usize::from(places[row]))
}

/// The turns that stand so many behind the first one.
fn turn_place(first: usize, skips: usize) -> Option<usize>
    ensures { IfSome result (λ place. (js : List ℕ) (a : Items) (m : ℕ) → HasWay (at_place place) js a m → HasWay (at_place first) js a m) }
{
    let mut place = first;
    'skips: for _ in 0..skips {
        let Some(Part::Turn(_, _, next)) = part_at(place) else {
            return None;
        };
        place = next;
    }
    Some(place)
}

/// A turn that puts a node around another one.
#[derive(Clone, Copy)]
struct Turn {
    /// The turn's numbers.
    number: usize,
    /// Where its row begins.
    row: usize,
}

/// Returns a turn of those from a place on.
fn turn_at(first: usize, skips: usize) -> Option<Turn>
    ensures { IfSome result (λ turn. HasWay (at_place first) (set_in (turn_in turn.number turns).0 sets) (at_place turn.row) (turn_in turn.number turns).1) }
{
    let place = turn_place(first, skips)?;
    let Some(Part::Turn(number, row, _)) = part_at(place) else {
        return None;
    };
    Some(Turn { number, row })
}

/// The set of the numbers for which a turn is there, and the next number.
pub fn turn_numbers(number: usize) -> Option<(usize, u16)>
    ensures { IfSome result (λ r. (r.0 ≡ (turn_in number turns).0) × (r.1 ≡ (turn_in number turns).1)) }
{
    if number >= 31 {
        return None;
    }
    let (set, next) = turns()[number];
    Some((usize::from(set), u16::from(next)))
}

/// Checks a row from a place on.
fn row(
    alloc: Global,
    input: &Input,
    facts: &[Fact],
    place: usize,
    tokens: (usize, usize),
    moves: &mut Moves<'_>,
) -> Result<Option<Fact>, NoMemory>
    requires { All (Holds input.now) facts.now }
    ensures { IfOk result (λ r. IfSome r (λ fact. Holds input.now fact)) }
{
    // For the proof: it fits its type.
    let _tokens = input.len();
    let (start, end) = tokens;
    let walk = Walk {
        place,
        shape: Shape::Empty,
        at: start,
        frames: moves.take_room(alloc),
    };
    let Some(Walk { shape, frames, .. }) = walked(alloc, input, facts, walk, end, moves)? else {
        return Ok(None);
    };
    moves.keep_room(frames);
    Ok(Some(Fact {
        goal: Goal::Row(place, shape),
        start,
        end,
    }))
}

/// Checks a row that ends a node around the one before it.
fn turn_row(
    alloc: Global,
    input: &Input,
    facts: &[Fact],
    place: usize,
    tokens: (usize, usize),
    moves: &mut Moves<'_>,
) -> Result<Option<Fact>, NoMemory>
    requires { All (Holds input.now) facts.now }
    ensures { IfOk result (λ r. IfSome r (λ fact. Holds input.now fact)) }
{
    // For the proof: it fits its type.
    let _tokens = input.len();
    let (start, end) = tokens;
    let mut frames = moves.take_room(alloc);
    frames.push(Frame::Opened(Shape::Empty))?;
    let walk = Walk {
        place,
        shape: Shape::OneNode,
        at: start,
        frames,
    };
    let Some(Walk { shape, frames, .. }) = walked(alloc, input, facts, walk, end, moves)? else {
        return Ok(None);
    };
    let Shape::OneNode = shape else {
        return Ok(None);
    };
    moves.keep_room(frames);
    Ok(Some(Fact {
        goal: Goal::Turn(place),
        start,
        end,
    }))
}

/// Checks a row of a category.
fn category(
    alloc: Global,
    input: &Input,
    facts: &[Fact],
    numbers: (u16, usize),
    tokens: (usize, usize),
    moves: &mut Moves<'_>,
) -> Result<Option<Fact>, NoMemory>
    requires { All (Holds input.now) facts.now }
    ensures { IfOk result (λ r. IfSome r (λ fact. Holds input.now fact)) }
{
    // For the proof: it fits its type.
    let _tokens = input.len();
    let (start, end) = tokens;
    let (number, row) = numbers;
    let Some(place) = row_place(number, row) else {
        return Ok(None);
    };
    let walk = Walk {
        place,
        shape: Shape::Empty,
        at: start,
        frames: moves.take_room(alloc),
    };
    let Some(Walk { shape, frames, .. }) = walked(alloc, input, facts, walk, end, moves)? else {
        return Ok(None);
    };
    moves.keep_room(frames);
    Ok(Some(Fact {
        goal: Goal::Category(number, shape),
        start,
        end,
    }))
}

/// What stands last of turns by the row from this place on.
fn last_turn(input: &Input, turn: usize, last: Fact) -> Option<Fact>
    requires { Holds input.now last }
    ensures { IfSome result (λ fact. Holds input.now fact) }
{
    // For the proof: it fits its type.
    let _tokens = input.len();
    let Goal::Row(place, _) = last.goal else {
        return None;
    };
    Some(Fact {
        goal: Goal::Turns(turn, place),
        start: last.start,
        end: last.end,
    })
}

/// One turn before others.
fn one_turn(input: &Input, turn: Fact, more: Fact) -> Option<Fact>
    requires turn { Holds input.now turn }
    requires more { Holds input.now more }
    ensures { IfSome result (λ fact. Holds input.now fact) }
{
    // For the proof: it fits its type.
    let _tokens = input.len();
    let Goal::Row(place, _) = turn.goal else {
        return None;
    };
    let Goal::Turns(row, last) = more.goal else {
        return None;
    };
    if place != row || turn.end != more.start {
        return None;
    }
    Some(Fact {
        goal: Goal::Turns(row, last),
        start: turn.start,
        end: more.end,
    })
}

/// No node around the one before.
fn no_fold(input: &Input, place: usize, number: u16, at: usize) -> Fact
    ensures { Holds input.now result }
{
    // For the proof: it fits its type.
    let _tokens = input.len();
    Fact {
        goal: Goal::Fold(place, number),
        start: at,
        end: at,
    }
}

/// One node around the one before, and then others.
fn one_fold(input: &Input, number: u16, skips: usize, turn: Fact, more: Fact) -> Option<Fact>
    requires turn { Holds input.now turn }
    requires more { Holds input.now more }
    ensures { IfSome result (λ fact. Holds input.now fact) }
{
    // For the proof: it fits its type.
    let _tokens = input.len();
    let Goal::Turn(row) = turn.goal else {
        return None;
    };
    let Goal::Fold(place, then) = more.goal else {
        return None;
    };
    let there = turn_at(place, skips)?;
    let (set, next) = turn_numbers(there.number)?;
    if there.row != row || next != then || turn.end != more.start || !contains(set, number) {
        return None;
    }
    Some(Fact {
        goal: Goal::Fold(place, number),
        start: turn.start,
        end: more.end,
    })
}

/// Checks a claim, by the facts so far.
fn checked(
    alloc: Global,
    input: &Input,
    facts: &[Fact],
    claim: Claim,
    moves: &mut Moves<'_>,
) -> Result<Option<Fact>, NoMemory>
    requires { All (Holds input.now) facts.now }
    ensures { IfOk result (λ r. IfSome r (λ fact. Holds input.now fact)) }
{
    // For the proof: it fits its type.
    let _tokens = input.len();
    match claim {
        Claim::Row(place, start, end) => row(alloc, input, facts, place, (start, end), moves),
        Claim::Turn(place, start, end) => turn_row(alloc, input, facts, place, (start, end), moves),
        Claim::Category(number, row, start, end) => {
            category(alloc, input, facts, (number, row), (start, end), moves)
        }
        _ => Ok(joined(input, facts, claim)),
    }
}

/// Checks a claim that joins two facts, or names one.
fn joined(input: &Input, facts: &[Fact], claim: Claim) -> Option<Fact>
    requires { All (Holds input.now) facts.now }
    ensures { IfSome result (λ fact. Holds input.now fact) }
{
    // For the proof: it fits its type.
    let _tokens = input.len();
    match claim {
        Claim::LastTurn(turn, last) => last_turn(input, turn, fact_at(input, facts, last)?),
        Claim::OneTurn(turn, more) => {
            one_turn(
                input,
                fact_at(input, facts, turn)?,
                fact_at(input, facts, more)?,
            )
        }
        Claim::NoFold(place, number, at) => Some(no_fold(input, place, number, at)),
        Claim::OneFold(number, skips, turn, more) => one_fold(
            input,
            number,
            skips,
            fact_at(input, facts, turn)?,
            fact_at(input, facts, more)?,
        ),
        _ => None,
    }
}

/// Checks claims in their order. Returns what they say, or nothing where one does not follow from those before it.
fn all_checked(
    alloc: Global,
    input: &Input,
    claims: &[Claim],
    moves: &[usize],
) -> Result<Option<Vec<Fact>>, NoMemory>
    ensures { IfOk result (λ r. IfSome r (λ facts. All (Holds input.now) facts.items)) }
{
    // For the proof: it fits its type.
    let _tokens = input.len();
    let mut moves = Moves::new(alloc, moves);
    let mut facts = Vec::with_capacity(alloc, claims.len())?;
    'claims: for claim in claims {
        let Some(fact) = checked(alloc, input, &facts, *claim, &mut moves)? else {
            return Ok(None);
        };
        facts.push(fact)?;
    }
    Ok(Some(facts))
}

/// Whether claims show that the core grammar derives the whole input as a file. Each claim follows from those before it,
/// by the choices that its walk makes, which stand one behind another in the order of the claims. The last claim is the
/// row of a file over the whole input.
///
/// The error means out of memory.
pub fn derives_file(
    alloc: Global,
    input: &Input,
    claims: &[Claim],
    moves: &[usize],
) -> Result<bool, NoMemory>
    ensures { IfOk result (λ b. IsTrue b → (forest : Forest) × MakesRow file_row input.now forest) }
{
    let len = input.len();
    let Some(facts) = all_checked(alloc, input, claims, moves)? else {
        return Ok(false);
    };
    if facts.is_empty() {
        return Ok(false);
    }
    let Some(last) = fact_at(input, &facts, facts.len() - 1) else {
        return Ok(false);
    };
    Ok(is_file(input, last, len))
}

/// Whether a fact says that the core grammar derives the whole input as a file.
fn is_file(input: &Input, fact: Fact, len: usize) -> bool
    requires holds { Holds input.now fact }
    requires len { len ≡ length input.now }
    ensures { IsTrue result → (forest : Forest) × MakesRow file_row input.now forest }
{
    // For the proof: it fits its type.
    let _tokens = input.len();
    let Goal::Row(place, _) = fact.goal else {
        return false;
    };
    if place != 0 || fact.start != 0 {
        return false;
    }
    fact.end == len
}
