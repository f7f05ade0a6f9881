//! What the programs share: quoted texts, messages, indented texts, words, how a program over a file starts, how it shows
//! a page, and how it reports a fault.
#![tactic(auto)]

mod block;
pub mod fault;
pub mod indented;
pub mod message;
pub mod program;
pub mod quote;
pub mod show;
mod start;
pub mod words;
