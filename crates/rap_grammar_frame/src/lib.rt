//! The frame of the grammar: the trait by which recursive rules call one another, and the small rules that many share.
#![tactic(auto)]

pub mod first;
pub mod item_names;
pub mod knot;
pub mod lists;
pub mod literals;
pub mod names;
pub mod recovery;
pub mod through_knot;
pub mod token_tree;
