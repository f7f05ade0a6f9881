//! Inline assembly, and what else stands after `builtin #`.
#![tactic(auto)]

pub mod asm;
pub mod builtin;
