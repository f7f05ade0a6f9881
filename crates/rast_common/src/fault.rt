//! How a program reports a fault.
ghost use Rattle.std.specs.Prelude.{◌≡◌, ◌≤◌, IfOk, MatchResult, OnErr, OnOk, length};
ghost use Rattle.std.specs.Io.KnownBytes.{Appends};
ghost use Rattle.std.specs.Process.{exit_status};
ghost use Rattle.rast_common.specs.Fault.{fault_line, fault_text};
ghost use Rattle.rast_common.specs.Written.{AppendsFront};

use crate::block::Block;
use std::io;
use std::process::ExitCode;

/// Why a program does not show what it was asked for.
#[derive(Clone, Copy, Debug)]
pub enum Fault {
    /// The text is longer than the lexer takes.
    TextTooLong,
    /// There are more tokens than the parser takes.
    TooManyTokens,
    /// The node must begin with a `{`, and the text does not.
    NoBrace,
    /// The node must begin with a `{`, and the parser's input does not.
    NoBraceInInput,
    /// The kind is not a token's, or it is the end's.
    NoToken,
    /// Out of memory: the allocator refused a request.
    NoMemory,
    /// The output refused a write.
    CannotWrite,
}

/// What the line about a fault says behind the program's name.
fn text_of(fault: Fault) -> &'static str
    ensures text { result.now ≡ fault_text fault }
    ensures short { length result.now ≤ 64 }
{
    match fault {
        Fault::TextTooLong => ": text too long\n",
        Fault::TooManyTokens => ": too many tokens\n",
        Fault::NoBrace => ": the text does not begin with `{`\n",
        Fault::NoBraceInInput => ": the input does not begin with `{`\n",
        Fault::NoToken => ": not a token's kind\n",
        Fault::NoMemory => ": no memory\n",
        Fault::CannotWrite => ": cannot write\n",
    }
}

/// The line about a fault, behind the program's name.
fn line_of(name: &str, fault: Fault) -> Block
    requires { length name.now ≤ 64 }
    ensures { result ≡ fault_line name.now fault }
{
    let mut line = Block::new();
    line.add(name.as_bytes());
    line.add(text_of(fault).as_bytes());
    line
}

/// The status of a fault.
const FAULT: u8 = 2;

/// Writes the bytes, all of them or a front of them; a write that was interrupted is tried again. The error is that of
/// the stream, or that it takes no more bytes.
fn write_out<V: io::Write>(out: &mut V, bytes: &[u8]) -> io::Result<()>
    ensures written { OnOk result (Appends (V.contents out.old) (V.contents out.new) bytes.now) }
    ensures broken { OnErr result (AppendsFront (V.contents out.old) (V.contents out.new) bytes.now) }
{
    if bytes.is_empty() {
        return Ok(());
    }
    let mut written = 0;
    'writes: for _ in 0..u64::MAX {
        match out.write(&bytes[written..]) {
            Ok(0) => return Err(io::Error::from(io::ErrorKind::WriteZero)),
            Ok(count) => {
                written += count;
                if written == bytes.len() {
                    return Ok(());
                }
            }
            Err(error) => {
                if error.kind() != io::ErrorKind::Interrupted {
                    return Err(error);
                }
            }
        }
    }
    Err(io::Error::from(io::ErrorKind::Interrupted))
}

/// Writes the message to the error stream, and returns the status of a fault. The error is that of the stream; then a
/// front of the message has been written, which may be empty, and not all of it.
pub fn report<V: io::Write>(err: &mut V, message: &str) -> io::Result<u8>
    ensures status { IfOk result (λ status. status ≡ 2) }
    ensures reported { IfOk result (λ _. Appends (V.contents err.old) (V.contents err.new) message.now) }
    ensures broken { OnErr result (AppendsFront (V.contents err.old) (V.contents err.new) message.now) }
{
    write_out(err, message.as_bytes())?;
    Ok(FAULT)
}

/// Reports a fault in one line behind the program's name, and returns the status of a fault. It allocates no memory.
/// The error is that of the stream; then a front of the line has been written, which may be empty, and not all of it.
#[inline(never)]
pub(crate) fn report_fault<V: io::Write>(name: &str, fault: Fault, err: &mut V) -> io::Result<u8>
    requires { length name.now ≤ 64 }
    ensures status { IfOk result (λ status. status ≡ 2) }
    ensures reported { OnOk result (Appends (V.contents err.old) (V.contents err.new) (fault_line name.now fault)) }
    ensures broken { OnErr result (AppendsFront (V.contents err.old) (V.contents err.new) (fault_line name.now fault)) }
{
    let line = line_of(name, fault);
    write_out(err, line.as_slice())?;
    Ok(FAULT)
}

/// The exit code of a program that returned this status, or whose error stream refused a report.
pub fn exit_code(status: io::Result<u8>) -> ExitCode
    ensures { MatchResult status (λ n. exit_status result ≡ n) (λ _. exit_status result ≡ 2) }
{
    ExitCode::from(status.unwrap_or(FAULT))
}
