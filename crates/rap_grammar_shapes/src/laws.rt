//! Laws of the children of nodes. Each is a function that does nothing and whose contract is the law.
ghost use Rattle.rap_grammar_shapes.specs.HaveShapes.{AloneHaveShapes, RootsHaveShapes, RowsFit, RulesKeepShapes};
ghost use Rattle.rap_grammar_shapes.specs.Parts.{ShapesCount, ShapesHaveParts, ShapesName};

/// Whatever a recursive rule reads, and with whatever messages: each node that it adds, and that has no message and no
/// `ERROR` right under it, has children that the shape of its kind spells, in order. It adds no `ERROR` without a message.
pub fn every_rule_keeps_shapes()
    ensures shapes { RulesKeepShapes }
{}

/// So has what the entries make over a whole input, with the entry's own node; and what is read alone, by an entry, at the
/// front of an input, or where a node is parsed again.
pub fn entries_have_shapes()
    ensures roots { RootsHaveShapes }
    ensures alone { AloneHaveShapes }
{}

/// What the table's rows give a node of a kind is of the kind's shape: of the trees that the core grammar derives the
/// shapes from the rows say more, and nothing else.
pub fn rows_fit()
    ensures { RowsFit }
{}

/// What shapes say: how many nodes of a kind are among the children, at least and at most; which kinds have exactly one
/// name; that a function ends in its body or a semicolon; that a binary expression is an expression, an operator and an
/// expression.
pub fn shapes_say()
    ensures counts { ShapesCount }
    ensures names { ShapesName }
    ensures parts { ShapesHaveParts }
{}
