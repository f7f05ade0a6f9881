//! Laws of trees. Each is a function that does nothing, whose contract is the law.
ghost use Rattle.syntax_tree.specs.InRange.{HasLeavesInRange};
ghost use Rattle.syntax_tree.specs.NodePlaces.{NodesHavePlaces};

/// In a tree with the places of a text, the leaves of a node are those leaves of the tree that lie in its range. Empty
/// leaves are left out on both sides; no leaf of a lexed text is empty.
pub fn leaves_lie_in_range()
    ensures { HasLeavesInRange }
{}

/// Of a tree in which each range is on character boundaries, as `Tree::build` and `Tree::of_text` return it, each node
/// may be passed to `Tree::text_of`, and to `Node::text_without_trivia` with the tree.
pub fn nodes_have_places()
    ensures { NodesHavePlaces }
{}
