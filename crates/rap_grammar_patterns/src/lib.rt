//! Patterns.
#![tactic(auto)]

pub mod patterns;
