//! Structs, unions and enums.
#![tactic(auto)]

pub mod adt;
