//! The law of the fields of nodes: a function that does nothing, whose contract is the law.
ghost use Rattle.rap_fields.specs.Filled.{FieldsAreFilled, NodesAreFound, PlacedFieldsAreFilled};
ghost use Rattle.rap_fields.specs.Finds.{FieldRulesFind, PlacedRulesFind};

/// Of each field that is found by kinds alone as many children are there, in a node with no message and no `ERROR`
/// right under it, as the field says: exactly one, at most one, or any number. Of a field that is found by its place
/// too as many stand in that part of the children: before a mark or behind it, as an operand stands before the
/// operator. So the first child of these kinds there is the one, or the last, where the field says so. And each child
/// that is a node is found by a field of its kind; in `impl` and `extern` blocks the items that do not belong there are
/// left out.
///
/// The rule of each field, which `Field::rule` gives, is for exactly these children: of any node, right or wrong, whose
/// children are named by growing numbers, its last step is for the nodes of the field's kinds in the field's part of the
/// children, and the rule finds the first or the last of them, as the field says.
pub fn fields_are_filled()
    ensures filled { FieldsAreFilled }
    ensures placed { PlacedFieldsAreFilled }
    ensures found { NodesAreFound }
    ensures rules { FieldRulesFind }
    ensures placed_rules { PlacedRulesFind }
{}
