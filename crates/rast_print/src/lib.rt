//! A text's tree and messages, and its steps, as the programs print them.
#![tactic(auto)]

pub mod asked;
pub mod entry;
pub mod listing;
pub mod print_text;
pub mod printer;
pub mod request;
mod room;
