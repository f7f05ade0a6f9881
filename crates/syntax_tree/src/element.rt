//! A node or a leaf.
ghost use Rattle.std.specs.Prelude.{◌≡◌};
ghost use Rattle.syntax_tree.specs.Covering.{element_kind, element_start, element_end};
ghost use Rattle.syntax_tree.specs.Shown.{shown};

use crate::leaf::Leaf;
use crate::node::Node;
use rap_base::syntax_kind::SyntaxKind;
use std::ops::Range;

/// A node or a leaf of a tree.
#[derive(Drop)]
pub enum Element<'a> {
    /// A node.
    Node(&'a Node),
    /// A leaf.
    Leaf(Leaf),
}

impl Element<'_> {
    /// Its kind.
    pub fn kind(&self) -> SyntaxKind
        ensures { result ≡ element_kind (shown self.now) }
    {
        match self {
            Element::Node(node) => node.kind(),
            Element::Leaf(leaf) => leaf.kind(),
        }
    }

    /// Its place in the text, in bytes.
    pub fn range(&self) -> Range<usize>
        ensures start { result.start ≡ element_start (shown self.now) }
        ensures end { result.end ≡ element_end (shown self.now) }
    {
        match self {
            Element::Node(node) => node.range(),
            Element::Leaf(leaf) => leaf.range(),
        }
    }
}
