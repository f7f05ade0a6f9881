//! Nodes, and what stands in them.
ghost use Rattle.std.specs.Prelude.{◌≡◌, ◌+◌, ◌<◌, ◌≤◌};
ghost use Rattle.syntax_tree.specs.Children.{children_of};
ghost use Rattle.syntax_tree.specs.Walking.{levels};

use rap_base::syntax_kind::SyntaxKind;
use std::marker::Model;
use std::ops::Range;

/// What stands for a depth that is not known, or is larger.
pub(crate) const DEEP: u32 = u32::MAX;

/// A node of a tree: its kind, its place in the text in bytes, and its children. It knows how deep they are.
#[cycle(tree)]
pub struct Node {
    kind: SyntaxKind,
    start: u32,
    end: u32,
    depth: u32,
    children: Vec<Child>,
}

/// A node or a leaf that stands in a node.
#[cycle(tree)]
#[derive(Drop)]
pub enum Child {
    /// A node inside the node.
    Node(Node),
    /// A leaf: its kind, and its place in the text in bytes.
    Leaf {
        kind: SyntaxKind,
        range: Range<usize>,
    },
}

impl Model for Node {
    ghost use Rattle.syntax_tree.specs.RangedForest.{RangedNode, node_size};
    ghost use Rattle.syntax_tree.specs.Stored.{node_code};

    ghost Value = { RangedNode };

    ghost coded = { node_code };

    ghost use Rattle.syntax_tree.specs.Children.{children_of};

    ghost view = { λ a. record { kind = a.kind; start = a.start; end = a.end; children = children_of a.children.items } };

    ghost use Rattle.std.specs.Prelude.{◌<◌, ◌≤◌};
    ghost use Rattle.syntax_tree.specs.Walking.{levels};

    ghost invariant = { λ a. a.depth < 4294967295 → levels (children_of a.children.items) ≤ a.depth };

    ghost size = { node_size };

    ghost use Rattle.std.proofs.Common.{arith};
    ghost use Rattle.syntax_tree.specs.ChildSizes.{depth_le-size};
    ghost use Rattle.syntax_tree.specs.RangedForest.{ranged_none};

    ghost size_decreases = { λ a h. omega (arith, depth_le-size a.children.items ranged_none) };
}

impl Node {
    /// A node over these children.
    #[inline(always)]
    pub(crate) fn new(kind: SyntaxKind, start: u32, end: u32, children: Vec<Child>) -> Node
        ensures { result ≡ record { kind = kind; start = start; end = end; children = children_of children.items } }
    {
        Node {
            kind,
            start,
            end,
            depth: depth_of(children.as_slice()),
            children,
        }
    }

    /// A node that only holds these children, with no kind and no place.
    #[inline(always)]
    fn holding(children: Vec<Child>) -> Node
        ensures { result.children ≡ children_of children.items }
    {
        Node {
            kind: SyntaxKind::TOMBSTONE,
            start: 0,
            end: 0,
            depth: DEEP,
            children,
        }
    }

    /// The depth of the lists of children below it, if it is known.
    #[inline(always)]
    pub(crate) fn depth(&self) -> u32
        ensures { result < DEEP → levels self.now.children ≤ result }
    {
        self.depth
    }

    /// The node's children, without the node.
    fn into_children(self) -> Vec<Child>
        ensures { children_of result.items ≡ self.children }
    {
        let Node {
            kind: _,
            start: _,
            end: _,
            depth: _,
            children,
        } = self;
        children
    }

    /// The node's kind.
    pub fn kind(&self) -> SyntaxKind
        ensures { result ≡ self.now.kind }
    {
        self.kind
    }

    /// The node's place in the text, in bytes. A node without a leaf is empty.
    pub fn range(&self) -> Range<usize>
        ensures start { result.start ≡ self.now.start }
        ensures end { result.end ≡ self.now.end }
    {
        self.start as usize..self.end as usize
    }

    /// The nodes and leaves that stand right in the node, in order.
    pub fn children(&self) -> &[Child]
        ensures { children_of result.now ≡ self.now.children }
    {
        self.children.as_slice()
    }
}

/// The depth of the lists of children below these, if it is known.
#[inline(always)]
fn depth_of(children: &[Child]) -> u32
    ensures { result < DEEP → levels (children_of children.now) ≤ result }
{
    let mut most = 0u32;
    'children: for child in children {
        match child {
            Child::Node(node) => most = most.max(node.depth().saturating_add(1)),
            Child::Leaf { .. } => {}
        }
    }
    most
}

/// A loop: a tree may be deeper than the stack.
impl Drop for Node {
    fn drop(self) {
        discard(self.into_children());
    }
}

/// Drops nodes and leaves with all that stands below them. No memory is allocated, and a deeper tree takes no more
/// stack.
///
/// The list at which it is holds, as its last node's children, the list that it came from; room for that was made by
/// the node that it went into.
fn discard(children: Vec<Child>) {
    let mut outer = Vec::new(*children.allocator());
    let mut list = children;
    loop {
        match list.pop() {
            Some(Child::Leaf { .. }) => {}
            Some(Child::Node(node)) => {
                let inner = node.into_children();
                list.push_reserved(Child::Node(Node::holding(outer)));
                outer = list;
                list = inner;
            }
            None => match outer.pop() {
                Some(Child::Leaf { .. }) => {}
                Some(Child::Node(node)) => {
                    list.destroy_empty();
                    list = outer;
                    outer = node.into_children();
                }
                None => break,
            },
        }
    }
    list.destroy_empty();
    outer.destroy_empty();
}
