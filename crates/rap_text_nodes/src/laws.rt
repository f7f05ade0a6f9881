//! The law of the nodes of a text's tree: a function that does nothing, whose contract is the law.
ghost use Rattle.rap_text_nodes.specs.TextNodes.{TextNodesAreShaped};

/// Each node of a text's tree with nothing wrong right under it, no message and no `ERROR`, nor at the end of a node there,
/// is a node of the output, and its children are that node's, of the shape of its kind, with white space and comments
/// between them and floats taken apart.
pub fn text_nodes_are_shaped()
    ensures { TextNodesAreShaped }
{}
