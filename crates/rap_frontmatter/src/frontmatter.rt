//! Script source: a shebang and a frontmatter before Rust code, as in Cargo scripts (RFC 3502 and RFC 3503).

mod close;
mod error;
mod line;
mod open;
mod parse;
mod report;
mod script_source;
mod strip;

pub use error::{FrontmatterError, ScriptFault, Span};
pub use script_source::ScriptSource;
pub use strip::{strip_shebang, strip_ws_lines};
