//! What stands right in a node.
ghost use Rattle.std.specs.Prelude.{◌≡◌, []};
ghost use Rattle.rap_ranged.specs.RangedForest.{RangedNode};
ghost use Rattle.flat_tree.specs.FlatTree.{elements_of_tree};
ghost use Rattle.flat_tree.specs.Navigation.{child_indices};
ghost use Rattle.flat_tree.specs.Order.{PassesForward};

use crate::element::Element;
use crate::tree::FlatTree;
use std::marker::Model;

impl FlatTree<'_> {
    /// The indices of the nodes and leaves that stand right in it, in order. There are none in a leaf, and none for an
    /// index that no element has. No memory is allocated.
    pub fn children(&self, index: u32) -> Children<'_>
        ensures { (root : RangedNode) → self.now.elements.items ≡ elements_of_tree root → result ≡ child_indices root index }
    {
        let elements = self.elements();
        match self.element(index) {
            Some(element) => {
                let end = element.after();
                Children {
                    elements,
                    next: index + 1,
                    end,
                }
            }
            None => Children {
                elements,
                next: 0,
                end: 0,
            },
        }
    }
}

/// The nodes and leaves that stand right in a node and are still to come. Contracts see the list of their indices.
#[derive(Drop)]
pub struct Children<'a> {
    elements: &'a [Element],
    next: u32,
    end: u32,
}

impl<'a> Children<'a> {
    /// No children.
    pub(crate) fn none(elements: &'a [Element]) -> Children<'a>
        requires { PassesForward elements.now }
        ensures { result ≡ [] }
    {
        Children {
            elements,
            next: 0,
            end: 0,
        }
    }
}

impl<'a> Model for Children<'a> {
    ghost use Rattle.std.specs.Prelude.{ℕ, ◌-◌, ◌≤◌, List, length};
    ghost use Rattle.flat_tree.specs.Order.{PassesForward, passing};

    ghost Value = { List ℕ };

    ghost view = { λ c. passing c.elements.now (c.end - c.next) c.next c.end };

    ghost invariant = { λ c. PassesForward c.elements.now × (c.end ≤ length c.elements.now) };
}

impl<'a> Iterator for Children<'a> {
    ghost use Rattle.std.specs.Iterator.{YieldsFirst, item_count};

    type Item = u32;

    ghost next_gives = { YieldsFirst (λ indices. indices) };

    ghost remaining = { item_count (λ indices. indices) };

    fn next(&mut self) -> Option<u32> {
        if self.next >= self.end {
            return None;
        }
        let index = self.next;
        self.next = self.elements[index as usize].after();
        Some(index)
    }
}
