//! Leaves.
ghost use Rattle.std.specs.Prelude.{◌≡◌};

use rap_base::syntax_kind::SyntaxKind;
use std::marker::Model;
use std::ops::Range;

/// A leaf of a tree: its kind, and its place in the text in bytes.
#[derive(Drop)]
pub struct Leaf {
    kind: SyntaxKind,
    start: usize,
    end: usize,
}

impl Model for Leaf {
    ghost use Rattle.syntax_tree.specs.Leaves.{RangedLeaf};

    ghost Value = { RangedLeaf };

    ghost view = { λ l. record { kind = l.kind; start = l.start; end = l.end } };
}

impl Leaf {
    /// A leaf of this kind at this place.
    pub(crate) fn new(kind: SyntaxKind, start: usize, end: usize) -> Leaf
        ensures { result ≡ record { kind = kind; start = start; end = end } }
    {
        Leaf { kind, start, end }
    }

    /// The leaf's kind.
    pub fn kind(&self) -> SyntaxKind
        ensures { result ≡ self.now.kind }
    {
        self.kind
    }

    /// The leaf's place in the text, in bytes.
    pub fn range(&self) -> Range<usize>
        ensures start { result.start ≡ self.now.start }
        ensures end { result.end ≡ self.now.end }
    {
        self.start..self.end
    }
}
