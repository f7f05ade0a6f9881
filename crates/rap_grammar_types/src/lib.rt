//! Types and generic arguments.
#![tactic(auto)]

pub mod generic_args;
pub mod types;
