//! What stands under the nodes of a text's tree. The only code is a function that does nothing, whose contract is a law.
#![tactic(auto)]

pub mod laws;
