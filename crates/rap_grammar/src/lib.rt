//! Rust's grammar over the parser's markers, with recovery.
//!
//! The modules and functions have the names of rust-analyzer's parser. The contract of a rule holds for all tokens: the
//! open markers are as before, at most 256 events are recorded for each token taken, and the rule follows its script,
//! which determines the output for every input.
#![tactic(auto)]

pub mod entry;
mod knot;
mod statements;
