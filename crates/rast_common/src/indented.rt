//! Texts of indented lines.
ghost use Rattle.std.specs.Prelude.{◌≡◌, ◌++◌, [], IfSome, IsSome, OnErr, OnOk, chars, string_bytes};
ghost use Rattle.std.specs.Io.KnownBytes.{Appends};
ghost use Rattle.rast_common.specs.Indented.{indent};
ghost use Rattle.rast_common.specs.Quote.{quoted};

use crate::block::{Block, put, put_line};
use crate::quote::push_quoted;
use std::alloc::{AllocError, Global};
use std::fmt::Display;
use std::io;
use std::marker::Model;

/// The byte of a text before which the spaces of an indentation are, and the number of its levels.
#[derive(Clone, Copy, Debug)]
pub struct Indent {
    pub at: usize,
    pub levels: usize,
}

/// A text whose indentations are kept as numbers, so that its lines take as much memory however deep they are. Contracts
/// see its bytes, with two spaces for each level of an indentation.
#[derive(Drop)]
pub struct IndentedText {
    text: String,
    indents: Vec<Indent>,
}

impl Model for IndentedText {
    ghost use Rattle.std.specs.Prelude.{ℕ, List, length, string_bytes};

    ghost Value = { List ℕ };

    ghost use Rattle.rast_common.specs.Spelled.{AreInOrder, spelled};

    ghost view = { λ t. spelled 0 t.indents.items (string_bytes t.text) };

    ghost invariant = { λ t. AreInOrder 0 t.indents.items (length (string_bytes t.text)) };
}

impl IndentedText {
    /// An empty text.
    pub fn new(alloc: Global) -> IndentedText
        ensures { result ≡ [] }
    {
        IndentedText {
            text: String::new(alloc),
            indents: Vec::new(alloc),
        }
    }

    /// An empty text. Room for about so many bytes and indentations is made if there is memory for it.
    pub fn with_hint(alloc: Global, bytes: usize, indents: usize) -> IndentedText
        ensures { result ≡ [] }
    {
        let mut text = String::new(alloc);
        let _ = text.reserve(bytes);
        let mut list = Vec::new(alloc);
        let _ = list.reserve(indents);
        IndentedText {
            text,
            indents: list,
        }
    }

    /// A text without indentations.
    pub fn unindented(alloc: Global, text: String) -> IndentedText
        ensures { result ≡ string_bytes text }
    {
        IndentedText {
            text,
            indents: Vec::new(alloc),
        }
    }

    /// Adds the spaces of an indentation. The error means out of memory, and the text is as before.
    pub fn indent(&mut self, levels: usize) -> Result<(), AllocError>
        ensures ok { OnOk result (self.new ≡ self.old ++ indent levels) }
        ensures err { OnErr result (self.new ≡ self.old) }
    {
        let at = self.text.len();
        self.indents.push(Indent { at, levels })?;
        Ok(())
    }

    /// Adds a text. The error means out of memory, and the text is as before.
    pub fn push_str(&mut self, text: &str) -> Result<(), AllocError>
        ensures ok { OnOk result (self.new ≡ self.old ++ text.now) }
        ensures err { OnErr result (self.new ≡ self.old) }
    {
        self.text.push_str(text)?;
        Ok(())
    }

    /// Adds a text in quotes. The error means out of memory; then nothing is specified about the text.
    pub fn push_quoted(&mut self, text: &str) -> Result<(), AllocError>
        ensures { OnOk result (self.new ≡ self.old ++ quoted (chars text.now)) }
    {
        let Ok(()) = push_quoted(&mut self.text, text) else {
            self.indents.clear();
            return Err(AllocError);
        };
        Ok(())
    }

    /// Adds what is displayed, whose bytes must be known; `write!` calls it. The error means out of memory; then
    /// nothing is specified about the text.
    pub fn write_fmt<D: Display + Drop>(&mut self, value: D) -> Result<(), AllocError>
        requires { IsSome (D.output value) }
        ensures { OnOk result (IfSome (D.output value) (λ bytes. self.new ≡ self.old ++ bytes)) }
    {
        let Ok(()) = self.text.write_fmt(value) else {
            self.indents.clear();
            return Err(AllocError);
        };
        Ok(())
    }

    /// Writes the text, in blocks. It allocates no memory. The error is that of a write; then a prefix of the text
    /// may have been written.
    pub fn write_to<W: io::Write>(&self, out: &mut W) -> io::Result<()>
        ensures { OnOk result (Appends (W.contents out.old) (W.contents out.new) self.now) }
    {
        let text = self.text.as_bytes();
        let mut block = Block::new();
        let mut from = 0;
        'indents: for indent in self.indents.as_slice() {
            put_line(&mut block, text, from, indent.at, indent.levels, out)?;
            from = indent.at;
        }
        put(&mut block, &text[from..], out)?;
        out.write_all(block.as_slice())
    }
}
