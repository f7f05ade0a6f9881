//! A message with its header.
ghost use Rattle.std.specs.Prelude.{OnOk};
ghost use Rattle.std.specs.Io.KnownBytes.{Appends};
ghost use Rattle.rast_frames.specs.Reading.{frame, header};

use std::io;

/// Writes the header of a content of so many bytes.
#[tactic(auto, unfolding(crate::specs::Reading::header))]
fn write_header<W: io::Write>(out: &mut W, length: usize) -> io::Result<()>
    ensures { OnOk result (Appends (W.contents out.old) (W.contents out.new) (header length)) }
{
    write!(out, "Content-Length: {length}\r\n\r\n")
}

/// Writes a message with its header, and flushes. It allocates no memory. The error is that of the stream; a front of
/// the bytes may then have been written.
pub fn write_frame<W: io::Write>(out: &mut W, message: &[u8]) -> io::Result<()>
    ensures { OnOk result (Appends (W.contents out.old) (W.contents out.new) (frame message.now)) }
{
    write_header(out, message.len())?;
    out.write_all(message)?;
    out.flush()
}
