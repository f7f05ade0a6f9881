//! Sites: the places of rows, as a search goes along them, and what may come at each.
//!
//! A site is a place with the places behind the ways in which it stands, so that the end of a way is none. What may come
//! is told by the kind of the next node or leaf, or that there is none. Nothing of this is believed.

use crate::search::lists::{
    AT_END, BITS, WORDS, begun, kind_sets, root_starts, roots, row_firsts, row_numbers, row_owners,
    row_starts,
};
use crate::search::numbers::site_numbers;
use crate::tokens::between;

/// What is to come at a site, with the site behind it. Sets of kinds go by their numbers.
#[derive(Clone, Copy)]
pub enum Site {
    /// The row ends.
    End,
    /// A node of this kind begins.
    Start(u16, u16),
    /// The same, where nodes may stand around it.
    StartAround(u16, u16),
    /// Nodes of the kinds of this set may stand around what comes next.
    Inside(u16, u16),
    /// A node ends.
    Close(u16),
    /// The same, where nodes may stand around it.
    CloseAround(u16),
    /// A token of one of the kinds of a set, which is read as one of the words of another, if that is not 0.
    Token(u16, u16, u16),
    /// An identifier that is taken as this word.
    Word(u16, u16),
    /// The tokens of an operator.
    Operator(u16, u16),
    /// A category.
    Category(u16, u16),
    /// One of two ways.
    Choice(Way, Way),
    /// Any number of turns, and what stands last.
    Repeat(Way, Way, u16),
    /// A part that a script reads alone.
    Group(Way, u16),
    /// Nodes around the last one, from this number on, by these turns.
    Folds(u16, u16, u16),
    /// A turn with these numbers that puts a node of a kind of this set around the last one.
    Turn(u16, u16, Way, u16),
    /// A test that must not hold.
    Guard(u16, u16),
}

/// Where sites begin, and the set of the kinds that may come there.
#[derive(Clone, Copy)]
pub struct Way {
    pub site: u16,
    pub kinds: u16,
}

/// Returns the site with this number. Past the last one a row ends.
#[inline(always)]
pub fn site_at(number: u16) -> Site {
    let numbers = site_numbers();
    let start = usize::from(number) * 6;
    if start + 6 > numbers.len() {
        return Site::End;
    }
    let (first, second) = (numbers[start + 1], numbers[start + 2]);
    let next = numbers[start + 3];
    let (kinds, others) = (numbers[start + 4], numbers[start + 5]);
    let way = Way { site: first, kinds };
    let other = Way {
        site: second,
        kinds: others,
    };
    match numbers[start] {
        1 => Site::Start(first, next),
        2 => Site::StartAround(first, next),
        3 => Site::Inside(kinds, next),
        4 => Site::Close(next),
        5 => Site::CloseAround(next),
        6 => Site::Token(kinds, second, next),
        7 => Site::Word(first, next),
        8 => Site::Operator(first, next),
        9 => Site::Category(first, next),
        10 => Site::Choice(way, other),
        11 => Site::Repeat(way, other, next),
        12 => Site::Group(way, next),
        13 => Site::Folds(second, first, next),
        14 => Site::Turn(first, kinds, other, next),
        15 => Site::Guard(first, next),
        _ => Site::End,
    }
}

/// Whether a kind is in the set with this number.
#[inline(always)]
pub fn has_kind(set: u16, kind: u16) -> bool {
    let sets = kind_sets();
    let word = usize::from(set) * WORDS + usize::from(kind / BITS);
    word < sets.len() && (sets[word] >> (kind % BITS)) & 1 == 1
}

/// A row of a category: its number and where it begins, and whether another one may be tried next.
#[derive(Clone, Copy)]
pub struct Row {
    pub number: u16,
    pub site: u16,
    pub has_next: bool,
}

/// Where those rows of a category stand that may begin with an element of this kind; nothing if there are none.
#[inline(always)]
pub fn first_row(category: u16, kind: u16) -> Option<usize> {
    let (starts, owners, firsts) = (row_starts(), row_owners(), row_firsts());
    let number = usize::from(category);
    if number >= starts.len() || kind > AT_END {
        return None;
    }
    let place = usize::from(starts[number]) + usize::from(kind);
    if place < owners.len() && usize::from(owners[place]) == number + 1 {
        Some(usize::from(firsts[place]))
    } else {
        None
    }
}

/// Returns the row at a place; past the last one it is an empty one.
pub fn row_at(place: usize) -> Row {
    let numbers = row_numbers();
    let rows = numbers.len() / 3;
    if place >= rows {
        return Row {
            number: 0,
            site: u16::MAX,
            has_next: false,
        };
    }
    Row {
        number: numbers[place * 3],
        site: numbers[place * 3 + 1],
        has_next: numbers[place * 3 + 2] == 1,
    }
}

/// Returns the categories that may be a node of this kind. A node that some category derives is derived by one of these.
pub fn roots_of(kind: u16) -> &'static [u16] {
    let starts = root_starts();
    let kind = usize::from(kind);
    if kind + 1 >= starts.len() {
        return &[];
    }
    between(
        roots(),
        usize::from(starts[kind]),
        usize::from(starts[kind + 1]),
    )
}

/// Whether some row begins a node of this kind, and not only puts it around another one.
pub fn is_begun(kind: u16) -> bool {
    let kinds = begun();
    let kind = usize::from(kind);
    kind < kinds.len() && kinds[kind] == 1
}
