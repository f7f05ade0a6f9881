//! Makes texts of shapes.

use crate::random::Random;
use crate::shapes::{Shape, Shapes};
use std::alloc::AllocError;

/// Makes texts, each another one.
#[derive(Drop)]
pub struct Maker<'s> {
    pub shapes: &'s Shapes<'s>,
    pub random: Random,
}

/// How long files are in bytes: half of them are under 5 KB, nine in ten under 35 KB.
const SIZES: [u32; 20] = [
    300, 700, 1_100, 1_500, 2_000, 2_500, 3_000, 3_600, 4_300, 5_000, 6_000, 7_500, 9_000, 11_000,
    14_000, 18_000, 24_000, 33_000, 60_000, 130_000,
];

/// The index that a number stands for in a list.
fn index_of(number: u64, len: usize) -> usize {
    ((number & 0xffff_ffff).wrapping_mul(len as u64) >> 32) as usize
}

/// The word of a list that a number stands for.
fn word_at<'t>(list: &[&'t str], number: u64) -> &'t str {
    list.get(index_of(number, list.len()))
        .copied()
        .unwrap_or("x")
}

impl<'s> Maker<'s> {
    /// Makes the texts of a number.
    pub fn new(shapes: &'s Shapes<'s>, seed: u64) -> Maker<'s> {
        Maker {
            shapes,
            random: Random::new(seed),
        }
    }

    /// A shape of a list: an empty one of no shapes.
    pub fn pick(&mut self, list: &[Shape]) -> Shape {
        let index = index_of(self.random.draw(), list.len());
        list.get(index)
            .copied()
            .unwrap_or(Shape { first: 0, end: 0 })
    }

    /// The length of a file.
    pub fn size(&mut self) -> u64 {
        let index = self.random.below(20);
        let most = SIZES.get(index as usize).copied().unwrap_or(1_000);
        most as u64 - self.random.below(most as u64 / 4 + 1).min(most as u64)
    }

    // Adds a name, a word or a number. The same character means the same name in one shape.
    fn push_hole(&mut self, text: &mut String, code: char, base: u64) -> Result<(), AllocError> {
        let number = base.wrapping_mul((code as u64).wrapping_mul(2).wrapping_add(1));
        match code {
            'a'..='h' | 'm' => {
                text.push_str(word_at(self.shapes.names.as_slice(), number))?;
                if number & 3 == 0 {
                    text.push_str("_")?;
                    text.push_str(word_at(self.shapes.names.as_slice(), number >> 32))?;
                }
            }
            'A'..='H' => {
                text.push_str(word_at(self.shapes.type_names.as_slice(), number))?;
                text.push_str(word_at(self.shapes.type_names.as_slice(), number >> 32))?;
            }
            'S'..='U' => {
                text.push_str("MAX_")?;
                text.push_str(word_at(self.shapes.type_names.as_slice(), number))?;
            }
            '0'..='3' => {
                let drawn = self.random.draw();
                text.push_str(word_at(self.shapes.numbers.as_slice(), drawn))?;
            }
            'w' => {
                let drawn = self.random.draw();
                text.push_str(word_at(self.shapes.words.as_slice(), drawn))?;
            }
            _ => text.push_str("z")?,
        }
        Ok(())
    }

    /// Adds a shape with its holes filled.
    pub fn push_shape(&mut self, text: &mut String, shape: Shape) -> Result<(), AllocError> {
        let base = self.random.draw();
        let shapes: &'s Shapes<'s> = self.shapes;
        for piece in shapes.pieces(shape) {
            if piece.hole != ' ' {
                self.push_hole(text, piece.hole, base)?;
            }
            text.push_str(piece.text)?;
        }
        Ok(())
    }

    /// Adds shapes of a list until a text has this many bytes.
    pub fn push_shapes(
        &mut self,
        text: &mut String,
        list: &[Shape],
        bytes: u64,
    ) -> Result<(), AllocError> {
        for _ in 0..bytes {
            if text.len() as u64 >= bytes {
                break;
            }
            let shape = self.pick(list);
            self.push_shape(text, shape)?;
            text.push_str("\n\n")?;
        }
        Ok(())
    }

    /// Adds the items of a file of about this many bytes.
    pub fn push_file(&mut self, text: &mut String, bytes: u64) -> Result<(), AllocError> {
        let shapes: &'s Shapes<'s> = self.shapes;
        self.push_shapes(text, shapes.items.as_slice(), bytes)
    }
}
