//! What texts are made of.

use std::alloc::{AllocError, Global};

/// A hole, and the text up to the next one.
#[derive(Clone, Copy, Debug)]
pub struct Piece<'t> {
    /// The character that says what goes into the hole; a space where there is none.
    pub hole: char,
    pub text: &'t str,
}

/// A text with holes: which of the pieces it is.
#[derive(Clone, Copy, Debug)]
pub struct Shape {
    pub first: usize,
    pub end: usize,
}

/// Texts with holes, by what they are, and what goes into the holes.
#[derive(Drop)]
pub struct Shapes<'t> {
    pieces: Vec<Piece<'t>>,
    pub items: Vec<Shape>,
    pub statements: Vec<Shape>,
    pub macro_items: Vec<Shape>,
    pub expressions: Vec<Shape>,
    pub types: Vec<Shape>,
    pub patterns: Vec<Shape>,
    pub metas: Vec<Shape>,
    pub blocks: Vec<Shape>,
    pub fields: Vec<Shape>,
    pub arms: Vec<Shape>,
    pub tokens: Vec<Shape>,
    pub uses: Vec<Shape>,
    pub assocs: Vec<Shape>,
    pub data: Vec<Shape>,
    pub odd: Vec<Shape>,
    pub singles: Vec<Shape>,
    pub names: Vec<&'t str>,
    pub type_names: Vec<&'t str>,
    pub words: Vec<&'t str>,
    pub numbers: Vec<&'t str>,
}

impl<'t> Shapes<'t> {
    fn new(alloc: Global) -> Shapes<'t> {
        Shapes {
            pieces: Vec::new(alloc),
            items: Vec::new(alloc),
            statements: Vec::new(alloc),
            macro_items: Vec::new(alloc),
            expressions: Vec::new(alloc),
            types: Vec::new(alloc),
            patterns: Vec::new(alloc),
            metas: Vec::new(alloc),
            blocks: Vec::new(alloc),
            fields: Vec::new(alloc),
            arms: Vec::new(alloc),
            tokens: Vec::new(alloc),
            uses: Vec::new(alloc),
            assocs: Vec::new(alloc),
            data: Vec::new(alloc),
            odd: Vec::new(alloc),
            singles: Vec::new(alloc),
            names: Vec::new(alloc),
            type_names: Vec::new(alloc),
            words: Vec::new(alloc),
            numbers: Vec::new(alloc),
        }
    }

    /// The shapes of a file: each begins with a line `%% KIND`, and a hole in it is a `~` and a character. Words stand
    /// there in lists.
    pub fn read(alloc: Global, text: &'t str) -> Result<Shapes<'t>, AllocError> {
        let mut shapes = Shapes::new(alloc);
        for section in text.split("%% ") {
            if let Some((kind, shape)) = section.split_once('\n') {
                shapes.add(kind, shape.trim_end())?;
            }
        }
        Ok(shapes)
    }

    /// The pieces of a shape.
    pub fn pieces(&self, shape: Shape) -> &[Piece<'t>] {
        let end = shape.end.min(self.pieces.len());
        &self.pieces.as_slice()[shape.first.min(end)..end]
    }

    // Adds the pieces of a shape.
    fn divided(&mut self, shape: &'t str) -> Result<Shape, AllocError> {
        let first = self.pieces.len();
        let mut is_first = true;
        for piece in shape.split('~') {
            let mut rest = piece.chars();
            let hole = if is_first { None } else { rest.next() };
            self.pieces.push(Piece {
                hole: hole.unwrap_or(' '),
                text: rest.as_str(),
            })?;
            is_first = false;
        }
        let end = self.pieces.len();
        Ok(Shape { first, end })
    }

    // Adds what a section of the file holds.
    fn add(&mut self, kind: &str, text: &'t str) -> Result<(), AllocError> {
        match kind {
            "names" => add_words(&mut self.names, text),
            "types" => add_words(&mut self.type_names, text),
            "words" => add_words(&mut self.words, text),
            "numbers" => add_words(&mut self.numbers, text),
            _ => self.add_shape(kind, text),
        }
    }

    // Adds a shape to the list of its kind.
    fn add_shape(&mut self, kind: &str, text: &'t str) -> Result<(), AllocError> {
        let shape = self.divided(text)?;
        match kind {
            "item" => self.items.push(shape)?,
            "stmts" => self.statements.push(shape)?,
            "items" => self.macro_items.push(shape)?,
            "expr" => self.expressions.push(shape)?,
            "type" => self.types.push(shape)?,
            "pat" => self.patterns.push(shape)?,
            "meta" => self.metas.push(shape)?,
            "block" => self.blocks.push(shape)?,
            "fields" => self.fields.push(shape)?,
            "arms" => self.arms.push(shape)?,
            "tokens" => self.tokens.push(shape)?,
            "uses" => self.uses.push(shape)?,
            "assoc" => self.assocs.push(shape)?,
            "data" => self.data.push(shape)?,
            "odd" => self.odd.push(shape)?,
            "single" => self.singles.push(shape)?,
            _ => {}
        }
        Ok(())
    }
}

/// Adds each word.
fn add_words<'t>(list: &mut Vec<&'t str>, words: &'t str) -> Result<(), AllocError> {
    for word in words.split_whitespace() {
        list.push(word)?;
    }
    Ok(())
}
