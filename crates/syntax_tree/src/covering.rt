//! The smallest node or leaf that holds a range.
ghost use Rattle.std.specs.Prelude.{◌≡◌, ◌<◌, ◌≤◌, ◌↔◌, None, Some, option_copied};
ghost use Rattle.std.specs.List.Sorted.{IsNonDecreasingBy};
ghost use Rattle.std.specs.Option.{option_map, option_or};
ghost use Rattle.rap_lexed.specs.StrForest.{StrForest};
ghost use Rattle.syntax_tree.specs.ChildEnds.{child_end, reaching};
ghost use Rattle.syntax_tree.specs.Covering.{smallest_holding};
ghost use Rattle.syntax_tree.specs.Shown.{shown};
ghost use Rattle.syntax_tree.specs.Elements.{node_element};
ghost use Rattle.syntax_tree.specs.InRow.{InRow};
ghost use Rattle.syntax_tree.specs.Ranged.{Ranged};
ghost use Rattle.syntax_tree.specs.RangedForest.{alone};

use crate::element::Element;
use crate::leaf::Leaf;
use crate::leaf_at::{child_after, end_of};
use crate::node::{Child, Node};
use crate::tree::Tree;
use std::ops::Range;

impl Tree<'_> {
    /// The smallest node or leaf that holds a range of bytes: of those that begin where it begins or before, and end where
    /// it ends or after, the last one in preorder. None of the others is inside it. Of two leaves between which an
    /// empty range is, it is the second one. `None` exactly if the range ends after the text. The tree must have
    /// the places of a text, as [`Tree::build`] and [`Tree::of_text`] return it. On each level it searches the children
    /// of one node by bisection, and it allocates no memory.
    pub fn covering(&self, range: Range<usize>) -> Option<Element<'_>>
        requires { (forest : StrForest) × Ranged forest self.now.root }
        ensures element { option_map shown result ≡ smallest_holding range.start range.end (alone self.now.root) }
        ensures none { (result ≡ None) ↔ (self.now.root.end < range.end) }
    {
        let root = self.root();
        if root.range().end < range.end {
            return None;
        }
        Some(covering_below(root, range.start, range.end))
    }
}

/// The first child that ends after a byte, or the last one if none does.
fn child_reaching(children: &[Child], offset: usize) -> Option<&Child>
    requires { IsNonDecreasingBy child_end children.now }
    ensures { option_copied result ≡ reaching offset children.now }
{
    let found = child_after(children, offset);
    if found.is_some() {
        found
    } else {
        children.last()
    }
}

/// The smallest node or leaf that holds a range which the node holds: inside the node, or the node itself.
fn covering_below(root: &Node, start: usize, end: usize) -> Element<'_>
    requires row { InRow root.now.start root.now.children root.now.end }
    requires begins { root.now.start ≤ start }
    requires ends { end ≤ root.now.end }
    ensures { Some (shown result) ≡ option_or (smallest_holding start end root.now.children) (Some (node_element root.now)) }
{
    let mut node = root;
    'down: loop {
        let Some(child) = child_reaching(node.children(), start) else {
            return Element::Node(node);
        };
        if end_of(child) < end {
            return Element::Node(node);
        }
        match child {
            Child::Node(inner) => node = inner,
            Child::Leaf { kind, range } => return Element::Leaf(Leaf::new(
                *kind,
                range.start,
                range.end,
            )),
        }
    }
}
