//! Laws of trees. Each is a function that does nothing, whose contract is the law.
ghost use Rattle.flat_tree.specs.Laws.{ChildrenFollow, LeavesFollow, MergesInOrder, SubtreesNest};
ghost use Rattle.flat_tree.specs.NodeShapes.{BuiltNodesAreShaped, NodesAreShaped};

/// The children of an element begin at the index after its own, and each further one at the index past the one before
/// it, up to the index past the element. The parent of each is the element.
pub fn children_follow_one_another()
    ensures { ChildrenFollow }
{}

/// Of two elements the one with the larger index is inside the other, with all that is inside it, or it begins past the
/// other, by index and in the text.
pub fn subtrees_nest()
    ensures { SubtreesNest }
{}

/// The ranges of the leaves follow one another in the text, from 0 to the end of the root, which of the tree of a text
/// is the end of the text.
pub fn leaves_follow_one_another()
    ensures { LeavesFollow }
{}

/// Messages of two lists that are in the order of their positions are so when they are merged. About each byte stand
/// those of the first list, and then those of the second, each in its order.
pub fn messages_merge_in_order()
    ensures { MergesInOrder }
{}

/// The children of a node are those that the shape of its kind spells (docs/NODES.md), in order, white space and comments
/// apart, where nothing is wrong right in it: no message stands right in it, nor at the end of a node right in it, and no
/// `ERROR` does. Which these are is seen of the list: a message whose byte is in the node's place, its ends among it, is
/// inside one of its children if the byte is between the ends of that child, and else counts for the node. So of a text
/// without messages and without an `ERROR` all nodes are so. It holds of [`crate::tree::FlatTree::of_text`], and of what
/// [`crate::tree::FlatTree::build`] makes of any output whose nodes have the shapes of their kinds, which each entry
/// promises of its own.
pub fn nodes_are_shaped()
    ensures texts { NodesAreShaped }
    ensures built { BuiltNodesAreShaped }
{}
