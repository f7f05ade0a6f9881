//! Blocks, and the `let` statements in them.
#![tactic(auto)]

pub mod blocks;
