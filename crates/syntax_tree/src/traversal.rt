//! The nodes and the leaves below a node, in order.
ghost use Rattle.std.specs.Prelude.{◌≡◌, ◌∷◌, IfOk};
ghost use Rattle.syntax_tree.specs.Elements.{descendants_of};
ghost use Rattle.syntax_tree.specs.Leaves.{leaves_of};

use crate::leaf::Leaf;
use crate::next::{next_leaf, next_node};
use crate::node::Node;
use crate::walk::Walk;
use rap_base::no_memory::NoMemory;
use std::alloc::Global;
use std::marker::Model;

impl Node {
    /// The node and all nodes inside it, each before those inside it, from left to right. The memory for the depth
    /// of the node is allocated here, and a step allocates none. The error means out of memory.
    pub fn descendants(&self, alloc: Global) -> Result<Descendants<'_>, NoMemory>
        ensures { IfOk result (λ nodes. nodes ≡ self.now ∷ descendants_of self.now.children) }
    {
        Ok(Descendants {
            first: Some(self),
            walk: Walk::new(alloc, self)?,
        })
    }

    /// The leaves of the node and of all nodes inside it, from left to right. Memory is allocated as by
    /// [`Node::descendants`].
    pub fn leaves(&self, alloc: Global) -> Result<Leaves<'_>, NoMemory>
        ensures { IfOk result (λ leaves. leaves ≡ leaves_of self.now.children) }
    {
        Ok(Leaves {
            walk: Walk::new(alloc, self)?,
        })
    }
}

/// The nodes that are still to come. Contracts see their list.
#[derive(Drop)]
pub struct Descendants<'a> {
    first: Option<&'a Node>,
    walk: Walk<'a>,
}

impl<'a> Model for Descendants<'a> {
    ghost use Rattle.std.specs.Prelude.{List, ◌++◌};
    ghost use Rattle.syntax_tree.specs.RangedForest.{RangedNode};
    ghost use Rattle.syntax_tree.specs.Stored.{nodes_code};
    ghost use Rattle.syntax_tree.specs.Walking.{first_node, nodes_in};

    ghost Value = { List RangedNode };

    ghost coded = { nodes_code };

    ghost view = { λ d. first_node d.first ++ nodes_in d.walk };
}

impl<'a> Iterator for Descendants<'a> {
    ghost use Rattle.std.specs.Iterator.{YieldsFirstRef, item_count};

    type Item = &'a Node;

    ghost next_gives = { YieldsFirstRef (λ nodes. nodes) };

    ghost remaining = { item_count (λ nodes. nodes) };

    fn next(&mut self) -> Option<&'a Node> {
        if let Some(node) = self.first.take() {
            return Some(node);
        }
        next_node(&mut self.walk)
    }
}

/// The leaves that are still to come. Contracts see their list.
#[derive(Drop)]
pub struct Leaves<'a> {
    walk: Walk<'a>,
}

impl<'a> Model for Leaves<'a> {
    ghost use Rattle.std.specs.Prelude.{List};
    ghost use Rattle.syntax_tree.specs.Leaves.{RangedLeaf};
    ghost use Rattle.syntax_tree.specs.Walking.{leaves_in};

    ghost Value = { List RangedLeaf };

    ghost view = { λ l. leaves_in l.walk };
}

impl<'a> Iterator for Leaves<'a> {
    ghost use Rattle.std.specs.Iterator.{YieldsFirst, item_count};

    type Item = Leaf;

    ghost next_gives = { YieldsFirst (λ leaves. leaves) };

    ghost remaining = { item_count (λ leaves. leaves) };

    fn next(&mut self) -> Option<Leaf> {
        next_leaf(&mut self.walk)
    }
}
