//! Checks of steps that a caller passes: whether they are those of one tree, and whether its leaves match an input.
#![tactic(auto)]

mod cover;
mod shape;

pub use cover::covered;
pub use shape::is_tree;
