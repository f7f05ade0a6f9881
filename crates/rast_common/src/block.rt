//! Bytes that are written together.
ghost use Rattle.std.specs.Prelude.{◌≡◌, ◌+◌, ◌≤◌, [], ◌++◌, OnOk, length, slice_range, take};
ghost use Rattle.std.specs.Io.KnownBytes.{Appends, append_known};
ghost use Rattle.rast_common.specs.Indented.{indent};

use std::io;
use std::marker::Model;

/// How many bytes are written together.
const BLOCK: usize = 8192;

/// How many bytes are copied at once where so many are there, and fewer are wanted.
const SPAN: usize = 64;

/// Bytes that are not written yet. They are stored in the value itself, so that none of its calls allocates memory.
/// Contracts see their list.
#[derive(Drop)]
pub(crate) struct Block {
    bytes: [u8; BLOCK],
    count: usize,
}

impl Model for Block {
    ghost use Rattle.std.specs.Prelude.{ℕ, ◌≤◌, List, take};

    ghost Value = { List ℕ };

    ghost view = { λ b. take b.count b.bytes };

    ghost invariant = { λ b. b.count ≤ 8192 };
}

/// The spaces of [`LEVELS`] levels of indentation.
const SPACES: &str = "                                                                ";

/// How many levels of indentation are added at a time.
const LEVELS: usize = 32;

impl Block {
    /// No bytes.
    pub(crate) fn new() -> Block
        ensures { result ≡ [] }
    {
        Block {
            bytes: [0; BLOCK],
            count: 0,
        }
    }

    /// How many bytes there are.
    fn len(&self) -> usize
        ensures value { result ≡ length self.now }
        ensures fits { result ≤ 8192 }
    {
        self.count
    }

    /// The bytes.
    pub(crate) fn as_slice(&self) -> &[u8]
        ensures { result.now ≡ self.now }
    {
        &self.bytes[..self.count]
    }

    /// There are no bytes any more.
    fn clear(&mut self)
        ensures { self.new ≡ [] }
    {
        self.count = 0;
    }

    /// Adds bytes for which there is room.
    #[inline(always)]
    pub(crate) fn add(&mut self, bytes: &[u8])
        requires { length self.old + length bytes.now ≤ 8192 }
        ensures { self.new ≡ self.old ++ bytes.now }
    {
        let end = self.count + bytes.len();
        self.bytes[self.count..end].copy_from_slice(bytes);
        self.count = end;
    }

    /// Adds the first of these bytes, where there is room for all: a copy of so many as there always are takes no call.
    #[inline(always)]
    fn add_front(&mut self, bytes: &[u8], count: usize)
        requires all { length bytes.now ≡ 64 }
        requires room { length self.old + 64 ≤ 8192 }
        requires few { count ≤ 64 }
        ensures { self.new ≡ self.old ++ take count bytes.now }
    {
        let from = self.count;
        self.bytes[from..from + SPAN].copy_from_slice(bytes);
        self.count = from + count;
    }
}

/// Adds the bytes after those of the block. If they do not fit, the block is written first.
pub(crate) fn put<W: io::Write>(block: &mut Block, bytes: &[u8], out: &mut W) -> io::Result<()>
    ensures { OnOk result (Appends (append_known (W.contents out.old) block.old)
        (append_known (W.contents out.new) block.new) bytes.now) }
{
    if bytes.len() > BLOCK - block.len() {
        out.write_all(block.as_slice())?;
        block.clear();
    }
    if bytes.len() > BLOCK {
        out.write_all(bytes)?;
    } else {
        block.add(bytes);
    }
    Ok(())
}

/// Adds the spaces of an indentation.
pub(crate) fn put_indent<W: io::Write>(
    block: &mut Block,
    levels: usize,
    out: &mut W,
) -> io::Result<()>
    ensures { OnOk result (Appends (append_known (W.contents out.old) block.old)
        (append_known (W.contents out.new) block.new) (indent levels)) }
{
    let mut left = levels;
    'levels: while left > 0 {
        let next = left.min(LEVELS);
        put(block, &SPACES.as_bytes()[..2 * next], out)?;
        left -= next;
    }
    Ok(())
}

/// Adds a part of a text, and the spaces of an indentation.
#[inline(always)]
pub(crate) fn put_line<W: io::Write>(
    block: &mut Block,
    text: &[u8],
    from: usize,
    at: usize,
    levels: usize,
    out: &mut W,
) -> io::Result<()>
    requires start { from ≤ at }
    requires end { at ≤ length text.now }
    ensures { OnOk result (Appends (append_known (W.contents out.old) block.old)
        (append_known (W.contents out.new) block.new) (slice_range text.now from at ++ indent levels)) }
{
    if at - from <= SPAN
        && levels <= LEVELS
        && text.len() - from >= SPAN
        && block.len() <= BLOCK - 2 * SPAN
    {
        block.add_front(&text[from..from + SPAN], at - from);
        block.add_front(SPACES.as_bytes(), 2 * levels);
        return Ok(());
    }
    put(block, &text[from..at], out)?;
    put_indent(block, levels, out)
}
