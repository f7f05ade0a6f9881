//! The parser for C, and for whatever calls C: functions on numbers, slices and plain structs.
//!
//! `include/rap.h` declares them, with their units and their statuses. Each call is given a text and the caller's room
//! for steps and for the bytes of messages. It fills the room as far as it reaches, and returns how much there is.
#![tactic(auto)]

mod answer;
mod derived;
mod element;
mod element_room;
mod filler;
mod given;
mod kind_name;
mod literal;
mod message_room;
mod node_filler;
mod nodes;
mod numbers;
mod packer;
mod parse;
mod parse_node;
mod parse_prefix;
mod part;
mod prefix;
mod prefix_nodes;
mod reading;
mod record;
mod records;
mod reparse;
mod reparse_nodes;
mod script;
mod status_text;
mod step;
mod tokens;
mod tree;
mod tree_words;
mod version;
mod waiting;
mod weave;

pub use answer::RapAnswer;
pub use derived::{RapCoreAnswer, RapPlace, rap_core};
pub use element::{RapElement, RapMessage, RapNodesAnswer};
pub use kind_name::{rap_kind_name, rap_kind_of_name};
pub use literal::{RapNumber, RapString, rap_number_value, rap_string_value};
pub use nodes::rap_nodes;
pub use parse::rap_parse;
pub use parse_node::rap_parse_node;
pub use parse_prefix::rap_parse_prefix;
pub use part::RapPart;
pub use prefix::rap_prefix;
pub use prefix_nodes::rap_prefix_nodes;
pub use record::RapRecord;
pub use records::rap_records;
pub use reparse::rap_reparse;
pub use reparse_nodes::rap_reparse_nodes;
pub use script::{rap_blank_lines, rap_script, rap_shebang};
pub use status_text::rap_status_text;
pub use step::RapStep;
pub use tokens::rap_tokens;
pub use tree::rap_tree;
pub use tree_words::rap_tree_words;
pub use version::rap_version;
pub use weave::rap_weave;
