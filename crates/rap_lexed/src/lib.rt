//! A text divided into tokens, the parser's input made of it, and the steps of the tree over the text: the part of the
//! public interface that needs no grammar.
#![tactic(auto)]

pub mod lexed_str;
pub mod shortcuts;
pub mod used;
