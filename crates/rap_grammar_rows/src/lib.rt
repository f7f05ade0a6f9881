//! The rows of the core grammar as numbers, a check that a derivation along them is one, and a search for one.
#![tactic(auto)]

pub mod check;
pub mod fact;
mod guard;
mod lists;
mod numbers;
mod part;
pub mod search;
pub mod shape;
mod tokens;
mod walk;
