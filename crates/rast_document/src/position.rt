//! Positions and ranges of a document.

/// A position: a line and a place in it, both counted from 0, the place in units of an encoding.
#[derive(Clone, Copy, Debug, PartialEq, Eq)]
pub struct Position {
    /// The line.
    pub line: usize,
    /// How many units of the line are before the position.
    pub character: usize,
}

/// A range: from a position up to another.
#[derive(Clone, Copy, Debug, PartialEq, Eq)]
pub struct Span {
    /// The position at which it begins.
    pub start: Position,
    /// The position at which it ends.
    pub end: Position,
}

/// A part of a line.
#[derive(Clone, Copy, Debug, PartialEq, Eq)]
pub struct Part {
    /// The position of its start.
    pub position: Position,
    /// The offset of its end.
    pub end: usize,
    /// The units of it.
    pub units: usize,
}
