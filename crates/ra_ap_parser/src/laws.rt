//! Laws of the core grammar. Each is a function that does nothing and whose contract is the law.
ghost use Rattle.ra_ap_parser.specs.Calls.{CallsAreCore};

pub use rap_grammar_ends::laws::dots_stand_in_nodes;
pub use rap_small_grammar::laws::{holds_in_table, holds_plain};

/// A macro call, of a name, `!` and any tokens whose brackets are balanced, in braces, that is the whole input of
/// `SourceFile` or `MacroItems` is in the core grammar: by the clause `core` of
/// [`TopEntryPoint::parse`](crate::TopEntryPoint::parse) the output is the entry's node over one `MACRO_CALL`, whose
/// `TOKEN_TREE` nests as the brackets do, without a message.
pub fn calls_are_core()
    ensures { CallsAreCore }
{}
