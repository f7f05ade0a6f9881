//! The next node and the next leaf of a walk.
ghost use Rattle.std.specs.Prelude.{◌≡◌, [], ◌∷◌, MatchOption};
ghost use Rattle.syntax_tree.specs.Walking.{leaves_in, nodes_in};

use crate::leaf::Leaf;
use crate::node::{Child, Node};
use crate::walk::Walk;

/// The next node, past the leaves before it.
pub(crate) fn next_node<'a>(walk: &mut Walk<'a>) -> Option<&'a Node>
    ensures { MatchOption result ((nodes_in walk.old ≡ []) × (nodes_in walk.new ≡ [])) (λ node. nodes_in walk.old ≡ node.now ∷ nodes_in walk.new) }
{
    'leaves: loop {
        if let Child::Node(node) = walk.next()? {
            return Some(node);
        }
    }
}

/// The next leaf, past the nodes before it.
pub(crate) fn next_leaf(walk: &mut Walk<'_>) -> Option<Leaf>
    ensures { MatchOption result ((leaves_in walk.old ≡ []) × (leaves_in walk.new ≡ [])) (λ leaf. leaves_in walk.old ≡ leaf ∷ leaves_in walk.new) }
{
    'nodes: loop {
        if let Child::Leaf { kind, range } = walk.next()? {
            return Some(Leaf::new(*kind, range.start, range.end));
        }
    }
}
