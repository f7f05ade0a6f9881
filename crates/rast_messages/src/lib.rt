//! Messages of JSON-RPC 2.0 as the Language Server Protocol has them: what a message is and what its parameters say, and
//! the replies and notifications that a server sends, written piece by piece, so that deeply nested ones take no stack.
#![tactic(auto)]

mod message;
mod params;
mod pieces;
mod reply;

pub use message::{Message, classify};
pub use params::{changes_in, encoding_of, position_in, positions_in, span_in, uri_of, version_of};
pub use pieces::{
    left_by_text, position_of, push_comma, push_escaped, push_number, push_range, push_string,
};
pub use reply::{
    Code, Fault, NO_MEMORY, OUT_OF_MEMORY, begin_notification, error, log, notification, success,
};
