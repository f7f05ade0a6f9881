//! Documents of an editor: a text with its lines, positions in it counted in units of UTF-8, UTF-16 or UTF-32, and
//! changes of it, as the Language Server Protocol 3.17 has them.
//!
//! [`Document::new`] indexes a text, [`Document::position`] and [`Document::offset`] lead from byte offsets to
//! positions and back, and [`Document::change`] replaces ranges.
#![tactic(auto)]

mod blocks;
mod change;
mod document;
mod encoding;
mod lines;
mod marks;
mod places;
mod position;

pub use change::{Change, ChangeFault};
pub use document::Document;
pub use encoding::Encoding;
pub use position::{Part, Position, Span};
