//! What is computed of the scripts of rules: with how many open nodes and by which outcomes they end, and where the node
//! of a float that ends in a dot may stand. And that items among tokens that begin none keep their trees. The only code
//! is a function that does nothing, whose contract is a law.
#![tactic(auto)]

pub mod laws;
