//! The scripts of the grammar's rules, as data, and the words that they are written in.
#![tactic(auto)]

pub mod arguments;
pub mod rule;
