//! What was found to be derived.

use crate::shape::Shape;

/// What is derived of some tokens.
#[derive(Clone, Copy)]
pub enum Goal {
    /// The row from this place on; its trees are of this shape.
    Row(usize, Shape),
    /// The row from this place on, which ends a node around the one before it.
    Turn(usize),
    /// A category; its tree is of this shape.
    Category(u16, Shape),
    /// Turns by the row from one place on, and last the row from another place on.
    Turns(usize, usize),
    /// Nodes around the one before, by the turns from this place on, the first one for this number.
    Fold(usize, u16),
}

/// What is derived of the tokens from one on up to another.
#[derive(Clone, Copy)]
pub struct Fact {
    pub goal: Goal,
    pub start: usize,
    pub end: usize,
}

/// A step of a derivation. Facts go by their numbers, which count the claims from the first on.
#[derive(Clone, Copy)]
pub enum Claim {
    /// The row from this place on derives the tokens from one on up to another.
    Row(usize, usize, usize),
    /// The same for a row that ends a node around the one before it.
    Turn(usize, usize, usize),
    /// A category, by the row of this number, derives the tokens from one on up to another.
    Category(u16, usize, usize, usize),
    /// Turns by the row from this place on end with this fact.
    LastTurn(usize, usize),
    /// One turn, and then more.
    OneTurn(usize, usize),
    /// By the turns from this place on, none for this number, before this token.
    NoFold(usize, u16, usize),
    /// For this number, the turn that stands so many behind the first one, by one fact, and then more, by another.
    OneFold(u16, usize, usize, usize),
}
