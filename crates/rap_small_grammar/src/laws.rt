//! Laws of the small grammar. Each is a function that does nothing and whose contract is the law.
ghost use Rattle.rap_small_grammar.specs.Inclusion.{HoldsBlock, HoldsBrackets, HoldsCall, HoldsContents, HoldsExpression, HoldsFieldList, HoldsFile, HoldsItem, HoldsItemList, HoldsItems, HoldsStatements, HoldsType};
ghost use Rattle.rap_small_grammar.specs.Laws.{HoldsPlain};

/// What the small grammar derives is derived by the table too, with the same tree: a file, any number of items, an
/// item, items and the fields of a struct in braces, a block, its statements in their braces, what stands there, an
/// expression, and a type. Of an input's tokens balanced ones in brackets are a token tree of the table, and a macro
/// call is one of its items.
pub fn holds_in_table()
    ensures file { HoldsFile }
    ensures items { HoldsItems }
    ensures item { HoldsItem }
    ensures item_list { HoldsItemList }
    ensures field_list { HoldsFieldList }
    ensures block { HoldsBlock }
    ensures statements { HoldsStatements }
    ensures contents { HoldsContents }
    ensures expression { HoldsExpression }
    ensures type_ { HoldsType }
    ensures brackets { HoldsBrackets }
    ensures call { HoldsCall }
{}

/// What is derived where no block is an expression is derived with the same tree where blocks are expressions.
pub fn holds_plain()
    ensures { HoldsPlain }
{}
