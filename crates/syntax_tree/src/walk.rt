//! The walk through the nodes and leaves inside a node, each before those inside it.
ghost use Rattle.std.specs.Prelude.{◌≡◌, ◌+◌, ◌≤◌, [], ◌∷◌, IfOk, MatchOption, vec_capacity};
ghost use Rattle.syntax_tree.specs.Children.{children_of};
ghost use Rattle.syntax_tree.specs.Elements.{elements_of};
ghost use Rattle.syntax_tree.specs.Walking.{element_of, levels};

use crate::node::{Child, DEEP, Node};
use rap_base::no_memory::NoMemory;
use std::alloc::Global;
use std::marker::Model;

/// What is left of a walk. It holds the rest of each list of children that it is in, the innermost last, and has
/// capacity for as many as it ever holds.
#[derive(Drop)]
pub(crate) struct Walk<'a> {
    stack: Vec<&'a [Child]>,
}

impl<'a> Model for Walk<'a> {
    ghost use Rattle.std.specs.Prelude.{List, ◌≤◌, vec_capacity};
    ghost use Rattle.syntax_tree.specs.Elements.{RangedElement};
    ghost use Rattle.syntax_tree.specs.Stored.{elements_code};
    ghost use Rattle.syntax_tree.specs.Walking.{ahead, room};

    ghost Value = { List RangedElement };

    ghost coded = { elements_code };

    ghost view = { λ w. ahead w.stack.items };

    ghost invariant = { λ w. room 0 w.stack.items ≤ vec_capacity w.stack };
}

impl<'a> Walk<'a> {
    /// The walk through all that stands in this node.
    pub(crate) fn new(alloc: Global, node: &'a Node) -> Result<Walk<'a>, NoMemory>
        ensures { IfOk result (λ walk. walk ≡ elements_of node.now.children) }
    {
        let mut stack = room_for(alloc, node)?;
        stack.push_reserved(node.children());
        Ok(Walk { stack })
    }

    /// The next node or leaf.
    pub(crate) fn next(&mut self) -> Option<&'a Child>
        ensures { MatchOption result ((self.old ≡ []) × (self.new ≡ [])) (λ child. self.old ≡ element_of child.now ∷ self.new) }
    {
        'lists: loop {
            match self.stack.pop()? {
                [child, rest @ ..] => {
                    self.stack.push_reserved(rest);
                    match child {
                        Child::Node(node) => self.stack.push_reserved(node.children()),
                        Child::Leaf { .. } => {}
                    }
                    return Some(child);
                }
                [] => {}
            }
        }
    }
}

/// An empty list with capacity for as many lists of children as the walk through all that stands in this node ever holds.
fn room_for<'a>(alloc: Global, node: &'a Node) -> Result<Vec<&'a [Child]>, NoMemory>
    ensures items { IfOk result (λ stack. stack.items ≡ []) }
    ensures room { IfOk result (λ stack. 1 + levels node.now.children ≤ vec_capacity stack) }
{
    let depth = node.depth();
    if depth < DEEP {
        let stack = Vec::with_capacity(alloc, depth as usize + 1)?;
        return Ok(stack);
    }
    with_room(alloc, node.children())
}

/// An empty list with capacity for as many lists of children as the walk through these ever holds: it makes the walk.
fn with_room<'a>(alloc: Global, children: &'a [Child]) -> Result<Vec<&'a [Child]>, NoMemory>
    ensures items { IfOk result (λ stack. stack.items ≡ []) }
    ensures room { IfOk result (λ stack. 1 + levels (children_of children.now) ≤ vec_capacity stack) }
{
    let mut stack = Vec::new(alloc);
    stack.push(children)?;
    'lists: while let Some(list) = stack.pop() {
        if let [child, rest @ ..] = list {
            stack.push(rest)?;
            match child {
                Child::Node(node) => stack.push(node.children())?,
                Child::Leaf { .. } => {}
            }
        }
    }
    Ok(stack)
}
