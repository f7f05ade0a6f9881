//! What stands at the front of a stream.
ghost use Rattle.rast_frames.specs.Fronts.{Fronts};

use crate::header::{HeaderFault, MAX_HEADER, content_length, header_end};

/// What stands at the front of the bytes of a stream. Places are counted in bytes from the front.
#[derive(Clone, Copy, Debug, PartialEq, Eq)]
pub enum Front {
    /// The beginning of a message, or nothing.
    Part,
    /// A message.
    Message {
        /// Where its content begins.
        start: usize,
        /// Where its content ends.
        end: usize,
    },
    /// The header of a message whose content is longer than the limit.
    TooLong {
        /// Where its content begins.
        start: usize,
        /// How long its content is.
        length: usize,
    },
    /// A header that does not say the length of a content.
    Wrong {
        /// Why.
        fault: HeaderFault,
        /// Where the bytes after its empty line begin.
        end: usize,
    },
    /// More bytes than a header may have, and no end of one. No later message can be found.
    Lost,
}

/// What stands at the front of these bytes, where a content is at most as long as the limit.
pub fn front_of(bytes: &[u8], limit: usize) -> Front
    ensures { Fronts limit bytes.now result }
{
    let Some(end) = header_end(bytes) else {
        return if bytes.len() < MAX_HEADER + 4 {
            Front::Part
        } else {
            Front::Lost
        };
    };
    let start = end + 4;
    match content_length(&bytes[..end]) {
        Err(fault) => Front::Wrong { fault, end: start },
        Ok(length) => {
            if length > limit {
                Front::TooLong { start, length }
            } else if bytes.len() - start < length {
                Front::Part
            } else {
                Front::Message {
                    start,
                    end: start + length,
                }
            }
        }
    }
}
