//! Expressions.
#![tactic(auto)]

pub mod expressions;
