//! Parameters of functions, of closures and of function types.
#![tactic(auto)]

pub mod params;
