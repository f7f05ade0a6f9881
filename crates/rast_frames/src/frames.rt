//! The bytes of a stream, as they come.
ghost use Rattle.std.specs.Prelude.{◌≡◌, ℕ, ◌<◌, ◌≤◌, ◌↔◌, [], IsTrue, OnErr, OnOk, length, slice_range, vec_len};

use crate::front::{Front, front_of};
use std::alloc::{AllocError, Global};

/// The bytes of a stream that have come and are not read yet.
#[derive(Drop)]
pub struct Frames {
    bytes: Vec<u8>,
    from: usize,
    skip: usize,
    ghost within: { from ≤ vec_len bytes },
    ghost skipping: { 0 < skip → from ≡ vec_len bytes },
}

impl Frames {
    ghost use Rattle.rast_frames.specs.Stream.{waiting};
    ghost use Rattle.rast_frames.specs.Reading.{come, passed, taken};
    ghost use Rattle.rast_frames.specs.Fronts.{Fronts};

    /// Nothing has come.
    pub fn new(alloc: Global) -> Frames
        ensures { waiting result ≡ record { bytes = []; skip = 0 } }
    {
        Frames {
            bytes: Vec::new(alloc),
            from: 0,
            skip: 0,
        }
    }

    /// Whether nothing waits to be read, so that the stream may end here.
    pub fn is_empty(&self) -> bool
        ensures { IsTrue result ↔ (waiting self.now ≡ record { bytes = []; skip = 0 }) }
    {
        self.from == self.bytes.len() && self.skip == 0
    }

    // Gives the room of what was read back.
    fn compact(&mut self)
        ensures waiting { waiting self.new ≡ waiting self.old }
        ensures from { self.new.from ≡ 0 }
    {
        if self.from > 0 {
            self.bytes.drain(..self.from);
            self.from = 0;
        }
    }

    /// A piece of the stream has come. The error means out of memory; then the piece has not come.
    pub fn push(&mut self, piece: &[u8]) -> Result<(), AllocError>
        ensures come { OnOk result (waiting self.new ≡ come (waiting self.old) piece.now) }
        ensures err { OnErr result (waiting self.new ≡ waiting self.old) }
    {
        self.compact();
        let skipped = self.skip.min(piece.len());
        self.bytes.extend_from_slice(&piece[skipped..])?;
        self.skip -= skipped;
        Ok(())
    }

    /// What stands at the front of what waits, where a content is at most as long as the limit.
    pub fn front(&self, limit: usize) -> Front
        ensures { Fronts limit (waiting self.now).bytes result }
    {
        front_of(&self.bytes[self.from..], limit)
    }

    /// The bytes from a place to a later one, counted from the front.
    pub fn content(&self, start: usize, end: usize) -> &[u8]
        requires rising { start ≤ end }
        requires within { end ≤ length (waiting self.now).bytes }
        ensures { result.now ≡ slice_range (waiting self.now).bytes start end }
    {
        &self.bytes[self.from + start..self.from + end]
    }

    /// Takes a front off that is one within some limit. Of a content that is left out, what has not come is left out as it comes.
    pub fn pass(&mut self, front: Front)
        requires { (limit : ℕ) × Fronts limit (waiting self.old).bytes front }
        ensures { waiting self.new ≡ passed (waiting self.old) (taken front) }
    {
        match front {
            Front::Part | Front::Lost => (),
            Front::Message { end, .. } | Front::Wrong { end, .. } => self.from += end,
            Front::TooLong { start, length } => {
                let count = start + length;
                let have = self.bytes.len() - self.from;
                if count <= have {
                    self.from += count;
                } else {
                    self.from = self.bytes.len();
                    self.skip = count - have;
                }
            }
        }
    }
}
