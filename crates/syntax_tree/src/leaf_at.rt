//! The leaf that holds a byte.
ghost use Rattle.std.specs.Prelude.{◌≡◌, ◌≤◌, ◌↔◌, None, find, option_copied};
ghost use Rattle.std.specs.List.Sorted.{IsNonDecreasingBy};
ghost use Rattle.rap_lexed.specs.StrForest.{StrForest};
ghost use Rattle.syntax_tree.specs.ChildEnds.{child_end, ends_after};
ghost use Rattle.syntax_tree.specs.InRow.{InRow};
ghost use Rattle.syntax_tree.specs.Leaves.{leaf_of_byte};
ghost use Rattle.syntax_tree.specs.Ranged.{Ranged};

use crate::leaf::Leaf;
use crate::node::{Child, Node};
use crate::tree::Tree;

impl Tree<'_> {
    /// The leaf that holds the byte at this offset in the text: the one that begins there or before, and ends after it.
    /// `None` exactly at the end of the text and after it. The tree must have the places of a text, as [`Tree::build`]
    /// and [`Tree::of_text`] return it. On each level it searches the
    /// children of one node by bisection, and it allocates no memory.
    pub fn leaf_at(&self, offset: usize) -> Option<Leaf>
        requires { (forest : StrForest) × Ranged forest self.now.root }
        ensures leaf { result ≡ leaf_of_byte offset self.now.root.children }
        ensures none { (result ≡ None) ↔ (self.now.root.end ≤ offset) }
    {
        leaf_below(self.root(), offset)
    }
}

/// Where a child ends.
pub(crate) fn end_of(child: &Child) -> usize
    ensures { result ≡ child_end child.now }
{
    match child {
        Child::Node(node) => node.range().end,
        Child::Leaf { range, .. } => range.end,
    }
}

/// The first child that ends after a byte.
pub(crate) fn child_after(children: &[Child], offset: usize) -> Option<&Child>
    requires { IsNonDecreasingBy child_end children.now }
    ensures { option_copied result ≡ find (ends_after offset) children.now }
{
    let at = children.partition_point(|child| end_of(child) <= offset);
    if at < children.len() {
        Some(&children[at])
    } else {
        None
    }
}

/// The leaf below a node that holds a byte.
pub(crate) fn leaf_below(root: &Node, offset: usize) -> Option<Leaf>
    requires row { InRow root.now.start root.now.children root.now.end }
    requires begins { root.now.start ≤ offset }
    ensures { result ≡ leaf_of_byte offset root.now.children }
{
    let mut node = root;
    'down: loop {
        match child_after(node.children(), offset) {
            Some(Child::Node(inner)) => node = inner,
            Some(Child::Leaf { kind, range }) => return Some(Leaf::new(
                *kind,
                range.start,
                range.end,
            )),
            None => return None,
        }
    }
}
