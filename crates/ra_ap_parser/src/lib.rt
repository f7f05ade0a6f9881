//! A parser of Rust: a text is lexed and parsed, and the result is the steps of one tree over all its bytes.
//!
//! [`LexedStr::new`] divides a text into tokens, [`LexedStr::to_input`] leaves the trivia out,
//! [`TopEntryPoint::parse`] parses what is left, and [`LexedStr::intersperse_trivia`] passes the tree, with the
//! texts and the trivia put back, to a [`StrSink`]. [`parse_text`] is all of that in one call, and [`parse_tokens`] all
//! but the last. [`frontmatter`] divides a script source into its parts. [`table_laws`], [`shape_laws`] and [`laws`] have
//! the laws of the core grammar, for which the tree is proved: of its table of rows, of the children of each node, and of
//! the small grammar and macro calls, which are parts of it.
#![tactic(auto)]

mod closed;
mod entry_point;
pub mod laws;
mod reparser;
mod whole_text;

pub use entry_point::{MAX_TOKENS, ParseFault, PrefixEntryPoint, TopEntryPoint};
pub use rap_base::edition::{Edition, InvalidEdition};
pub use rap_base::no_memory::NoMemory;
pub use rap_base::syntax_kind::SyntaxKind;
pub use rap_base::whitespace::is_rust_whitespace;
pub use rap_events::input::Input;
pub use rap_events::output::{Output, Step, Steps};
pub use rap_frontmatter::frontmatter;
pub use rap_grammar::entry::is_one_tree;
pub use rap_grammar_table::{shape_laws, table_laws};
pub use rap_lexed::lexed_str::{Errors, LexFault, LexedStr, MAX_TEXT};
pub use rap_lexed::shortcuts::{StrSink, StrStep};
pub use reparser::Reparser;
pub use whole_text::{ParsedText, ParsedTokens, TextFault, parse_text, parse_tokens};
