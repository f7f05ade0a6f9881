//! What is known of the trees that are made so far.

/// What is known of a forest.
#[derive(Clone, Copy, PartialEq, Eq)]
pub enum Shape {
    /// It is empty.
    Empty,
    /// It is one node.
    OneNode,
    /// Its last tree is a node.
    EndsInNode,
    /// Nothing.
    Any,
}

/// What a walk along a row comes back to.
#[derive(Clone, Copy)]
pub enum Frame {
    /// The parts from this place on stand behind the way that was taken.
    Then(usize),
    /// A node is open, in a forest of this shape.
    Opened(Shape),
}

/// What a step of a walk tells.
#[derive(Clone, Copy)]
pub enum Outcome {
    /// The walk does not go on.
    Stuck,
    /// It is at its end.
    Done,
    /// It goes on.
    On,
}

impl Shape {
    ghost use Rattle.std.specs.Prelude.{◌≡◌};
    ghost use Rattle.rap_grammar_rows.specs.Claims.{joined, closed, ends_in_node};

    /// Returns the shape of a forest of this shape with another one behind it.
    pub fn joined(self, other: Shape) -> Shape
        ensures { result ≡ joined self other }
    {
        match other {
            Shape::Empty => self,
            Shape::Any => Shape::Any,
            Shape::OneNode => match self {
                Shape::Empty => Shape::OneNode,
                _ => Shape::EndsInNode,
            },
            Shape::EndsInNode => Shape::EndsInNode,
        }
    }

    /// Returns the shape of a forest of this shape with a node behind it.
    pub fn closed(self) -> Shape
        ensures { result ≡ closed self }
    {
        match self {
            Shape::Empty => Shape::OneNode,
            _ => Shape::EndsInNode,
        }
    }

    /// Whether the last tree of a forest of this shape is a node.
    pub fn ends_in_node(self) -> bool
        ensures { result ≡ ends_in_node self }
    {
        match self {
            Shape::OneNode | Shape::EndsInNode => true,
            Shape::Empty | Shape::Any => false,
        }
    }
}
