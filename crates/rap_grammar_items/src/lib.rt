//! Items: which kind comes next, and what stands where none does.
#![tactic(auto)]

pub mod items;
