//! Which children the nodes of every output have. The only code is functions that do nothing, whose contracts are laws.
#![tactic(auto)]

pub mod laws;
