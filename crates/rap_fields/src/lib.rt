//! The fields of nodes, as typed views have them: their names, the rules by which their children are found, and a law on
//! how many children are there.
//!
//! A [`Field`] is named as rust-analyzer names it. [`Field::rule`] gives its [`Step`]s in a node of a kind; whoever has
//! the children of a node takes one step after another. The names and the rules are written from
//! `crates/rap_base/fields.txt` and the shapes of nodes, as those of the packages for other languages are.
#![tactic(auto)]

pub mod field;
pub mod laws;
pub mod rule;
mod rules;
