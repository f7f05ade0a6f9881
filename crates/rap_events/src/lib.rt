//! The parser's input, the events that it records, and its output.
#![tactic(auto)]

pub mod event;
pub mod input;
mod list;
pub mod output;
pub mod parser;
mod word;
