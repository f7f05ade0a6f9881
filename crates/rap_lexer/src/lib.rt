//! The lexer's rules: the first token of a text, and the faults of the escapes in a literal.
#![tactic(auto)]

pub mod escape;
pub mod lexer;
