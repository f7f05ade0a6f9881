//! What every layer of the parser uses: editions, kinds of tokens and nodes, sets of token kinds, white space, and the room
//! of lists.
#![tactic(auto)]

pub mod edition;
pub mod no_memory;
pub mod room;
pub mod syntax_kind;
pub mod token_kind;
pub mod token_set;
pub mod whitespace;
