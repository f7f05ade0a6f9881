// Written by crates/rap_grammar_rows/rows from the table of the core grammar: an edit here is lost.
//! Where rows and parts of them stand among the numbers of the core grammar.

/// The end of a row.
pub const END: usize = 3355;

/// An attribute of a file.
pub const INNER_ATTRIBUTE: usize = 2463;

/// An item of a file.
pub const ITEM: usize = 1997;

/// The number of the category of items.
pub const ITEMS: u16 = 28;

/// The number of a module's row among those of items.
pub const MODULE: usize = 3;

/// An attribute of a module.
pub const ATTRIBUTE: usize = 2787;

/// What may stand before the word `mod`.
pub const VISIBILITY: usize = 2072;
