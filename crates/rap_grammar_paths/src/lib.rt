//! Paths with the lists of their arguments, and visibilities.
#![tactic(auto)]

pub mod generic_arg_list;
pub mod paths;
pub mod visibility;
