//! Ranged trees: what the steps of a tree over a text say, with the bytes at which each node and each leaf begins and
//! ends. The definitions stand in `specs/`, and what follows of the places in `proofs/`. The code is that of messages,
//! which have a place as a leaf has.
#![tactic(auto)]

pub mod message;
pub mod report;
