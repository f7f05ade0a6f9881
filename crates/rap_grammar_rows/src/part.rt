//! A part of a row, as its numbers say.
ghost use Rattle.std.specs.Prelude.{◌≡◌, ◌+◌, ◌<◌, IfSome};
ghost use Rattle.rap_grammar_rows.specs.Meaning.{at_place, meaning};
ghost use Rattle.rap_grammar_rows.specs.Decode.{AreAt};

use crate::numbers::{firsts, forms, nexts, seconds};

/// A part of a row, with the places of those that stand in it and of the one behind it.
#[derive(Clone, Copy)]
pub enum Part {
    /// The row ends.
    End,
    /// A node begins.
    Start(usize),
    /// A node of this kind ends.
    Close(u16, usize),
    /// A token of one of the kinds of a set, which is read as one of the words of another, if that is not 0.
    Token(usize, usize, usize),
    /// An identifier that is taken as this word.
    Word(u16, usize),
    /// The tokens of an operator.
    Operator(u16, usize),
    /// A category.
    Category(u16, usize),
    /// One of two ways.
    Choice(usize, usize, usize),
    /// Any number of turns, and what stands last.
    Repeat(usize, usize, usize),
    /// A part that a script reads alone.
    Group(usize, usize),
    /// Nodes around the last one, by turns, from this number on.
    Folds(u16, usize, usize),
    /// A turn that puts a node around the last one.
    Turn(usize, usize, usize),
    /// A test that must not hold.
    Guard(usize, usize),
}

/// The numbers of a part: its form, two that belong to it, and how many parts further the next one stands.
#[derive(Clone, Copy)]
struct Numbers {
    form: u8,
    first: u16,
    second: u16,
    next: u16,
}

/// Returns the numbers of the part at a place, or nothing past the last part.
fn numbers_at(place: usize) -> Option<Numbers>
    ensures { IfSome result (λ r. AreAt place r.form r.first r.second r.next) }
{
    if place >= 3356 {
        return None;
    }
    Some(Numbers {
        form: forms()[place],
        first: firsts()[place],
        second: seconds()[place],
        next: nexts()[place],
    })
}

/// The place so many parts further.
fn behind(place: usize, further: u16) -> usize
    requires { place < 3356 }
    ensures { result ≡ place + 1 + further }
{
    place + 1 + usize::from(further)
}

/// Returns the place of the part behind the one at a place, or nothing where a row ends and past the last part.
pub fn following(place: usize) -> Option<usize>
    ensures { IfSome result (λ next. place < next) }
{
    let numbers = numbers_at(place)?;
    if numbers.form == 0 {
        return None;
    }
    Some(behind(place, numbers.next))
}

/// Returns the part at a place, or nothing past the last part.
pub fn part_at(place: usize) -> Option<Part>
    ensures { IfSome result (λ part. at_place place ≡ meaning part) }
{
    let numbers = numbers_at(place)?;
    let first = usize::from(numbers.first);
    let second = usize::from(numbers.second);
    let next = behind(place, numbers.next);
    let part = match numbers.form {
        0 => Part::End,
        1 => Part::Start(next),
        2 => Part::Close(numbers.first, next),
        3 => Part::Token(first, second, next),
        4 => Part::Word(numbers.first, next),
        5 => Part::Operator(numbers.first, next),
        6 => Part::Category(numbers.first, next),
        7 => Part::Choice(
            behind(place, numbers.first),
            behind(place, numbers.second),
            next,
        ),
        8 => Part::Repeat(
            behind(place, numbers.first),
            behind(place, numbers.second),
            next,
        ),
        9 => Part::Group(behind(place, numbers.first), next),
        10 => Part::Folds(numbers.second, behind(place, numbers.first), next),
        11 => Part::Turn(second, behind(place, numbers.first), next),
        12 => Part::Guard(first, next),
        _ => return None,
    };
    Some(part)
}
