//! Laws of the children of nodes in the table's trees. Each is a function that does nothing and whose contract is the
//! law.
ghost use Rattle.rap_base.specs.NodeKind.{BIN_EXPR, FN};
ghost use Rattle.rap_grammar_table.specs.Shaped.{ChildrenAre, EndsInBody, HaveCounts, HaveOneName, HaveShapes, IsBinary, fn_shape};
ghost use Rattle.rap_grammar_table.specs.Shapes.{Spells};

/// The children of each node, wherever it stands in the tree of something that the table derives, are in order those of
/// its kind's shape, which is computed from the rows; and of each kind of nodes as many are among them as the shape has.
pub fn children_have_shapes()
    ensures shapes { HaveShapes }
    ensures counts { HaveCounts }
{}

/// What this says of some kinds: a node that is called by a name has one; a function has its parts in this order, and
/// ends in its body or a semicolon; a binary expression is an expression, an operator and an expression.
pub fn children_are_parts()
    ensures names { HaveOneName }
    ensures functions { ChildrenAre FN (Spells fn_shape) }
    ensures bodies { ChildrenAre FN EndsInBody }
    ensures binaries { ChildrenAre BIN_EXPR IsBinary }
{}
