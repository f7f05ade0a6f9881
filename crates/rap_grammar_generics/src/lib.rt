//! Generic parameters, bounds and `where`, with what they share with types: constants as arguments, and paths as types.
#![tactic(auto)]

pub mod const_args;
pub mod generic_params;
pub mod path_type;
