//! Attributes.
#![tactic(auto)]

pub mod attributes;
