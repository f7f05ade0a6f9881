//! Messages in a stream of bytes, as the base protocol of language servers has them: a header of fields, each on a line
//! that `\r\n` ends, one of them `Content-Length`; an empty line; and as many bytes of content as that field says.
//!
//! [`front_of`] says what stands at the front of bytes. [`Frames`] keeps the bytes of a stream as they come, in pieces
//! of any length, and [`write_frame`] writes a message with its header.
#![tactic(auto)]

mod frames;
mod front;
mod header;
mod laws;
mod write;

pub use frames::Frames;
pub use front::{Front, front_of};
pub use header::{HeaderFault, MAX_HEADER, MAX_STATED};
pub use laws::{any_cut, one_front, reads_written, stays_read};
pub use write::write_frame;
