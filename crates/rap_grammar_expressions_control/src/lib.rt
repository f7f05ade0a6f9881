//! Expressions that begin with a keyword of control flow, closures, and blocks with an effect.
#![tactic(auto)]

pub mod closures;
pub mod control;
pub mod effect_blocks;
pub mod jumps;
pub mod matches;
