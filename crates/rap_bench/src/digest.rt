//! A number that stands for all results.

use ra_ap_parser::{NoMemory, StrSink, StrStep, SyntaxKind};
use std::ops::Range;

/// The results so far: how many bytes of text, how many things were found, and a number that each of them changes.
#[derive(Clone, Copy, Debug)]
pub struct Digest {
    pub bytes: u64,
    pub things: u64,
    pub value: u64,
}

/// A kind as a number.
#[inline(always)]
pub fn number(kind: SyntaxKind) -> u64 {
    u16::from(kind) as u64
}

impl Digest {
    /// The digest of nothing.
    pub fn new() -> Digest {
        Digest {
            bytes: 0,
            things: 0,
            value: 0,
        }
    }

    /// Counts a text.
    pub fn add_text(&mut self, bytes: usize) {
        self.bytes = self.bytes.wrapping_add(bytes as u64);
    }

    /// Adds a number.
    #[inline(always)]
    pub fn add(&mut self, number: u64) {
        self.value = (self.value ^ number)
            .wrapping_mul(0x9e37_79b9_7f4a_7c15)
            .rotate_left(29);
    }

    /// Adds two numbers.
    #[inline(always)]
    pub fn add_two(&mut self, first: u64, second: u64) {
        self.add(first ^ second.rotate_left(23));
    }

    /// Counts things.
    pub fn count(&mut self, things: usize) {
        self.things = self.things.wrapping_add(things as u64);
    }

    /// Adds where a thing begins and ends.
    #[inline(always)]
    pub fn add_range(&mut self, kind: u64, range: Range<usize>) {
        self.add_two(kind ^ ((range.start as u64) << 10), range.end as u64);
    }

    /// Adds bytes, eight at a time.
    pub fn add_bytes(&mut self, bytes: &[u8]) {
        self.add(bytes.len() as u64);
        for chunk in bytes.chunks(8) {
            if let [a, b, c, d, e, f, g, h] = chunk {
                self.add(u64::from_le_bytes([*a, *b, *c, *d, *e, *f, *g, *h]));
            } else {
                for byte in chunk {
                    self.add(*byte as u64);
                }
            }
        }
    }
}

impl StrSink for Digest {
    type Refusal = NoMemory;

    ghost takes = { λ _ _ _. Unit {0} };

    ghost refuses = { λ _ _ _ _. Unit {0} };

    fn step(&mut self, step: StrStep<'_>) -> Result<(), NoMemory> {
        match step {
            StrStep::Token { kind, text } => self.add(number(kind) ^ ((text.len() as u64) << 10)),
            StrStep::Enter { kind } => self.add(number(kind) ^ (1 << 60)),
            StrStep::Exit => self.add(2 << 60),
            StrStep::Error { msg, pos } => {
                self.add((3 << 60) ^ pos as u64);
                self.add_bytes(msg.as_bytes());
            }
        }
        Ok(())
    }
}
