//! All that the program does: it reads a message, answers it, and reads the next.
ghost use Rattle.std.specs.Prelude.{◌≡◌, ◌++◌, ◌<◌, ◌≤◌, ℕ, List, Option, IfOk, OnErr, length, take};
ghost use Rattle.std.specs.Io.KnownBytes.{Consumes, IsAtEnd};
ghost use Rattle.rast_frames.specs.Fronts.{Fronts};
ghost use Rattle.rast_frames.specs.Stream.{waiting};
ghost use Rattle.rast_messages.specs.declared.reply.Code.TheVariants.{InvalidRequest, ParseError};
ghost use Rattle.rast_server.specs.Ran.{FrontAnswers, FrontLeaves, GoesOn, IsReported, IsRun, IsServed, Sends};
ghost use Rattle.rast_server.specs.declared.limit.TheConstants.{LIMIT};
ghost use Rattle.rast_server.specs.declared.server.Server.{Server};

use crate::limit::LIMIT;
use crate::server::{Outcome, Server};
use rast_common::fault::report;
use rast_frames::{Frames, Front, HeaderFault, write_frame};
use rast_messages::{Code, Fault, OUT_OF_MEMORY, error};
use std::alloc::{AllocError, Global};
use std::io;

/// How many bytes are read at a time.
const PIECE: usize = 65_536;

/// Why the program ends, or that it goes on.
#[derive(Clone, Copy, Debug, PartialEq, Eq)]
enum Next {
    /// It goes on.
    Read,
    /// It ends with this status.
    Exit(u8),
    /// The output refuses a write.
    CannotWrite,
    /// No later message can be found in the input.
    Lost,
}

/// What is said of a header that is none.
fn header_fault(fault: HeaderFault) -> Fault
    ensures { result.code ≡ ParseError }
{
    Fault {
        code: Code::ParseError,
        text: match fault {
            HeaderFault::NoLength => "no Content-Length in the header",
            HeaderFault::TwoLengths => "more than one Content-Length in the header",
            HeaderFault::WrongLength => "the Content-Length is no number of bytes",
        },
    }
}

/// What is said of a message that is longer than the limit.
fn too_long() -> Fault
    ensures { result.code ≡ InvalidRequest }
{
    Fault {
        code: Code::InvalidRequest,
        text: "the message is too long",
    }
}

/// What is said of a header that is longer than any may be.
fn long_header() -> Fault
    ensures { result.code ≡ ParseError }
{
    Fault {
        code: Code::ParseError,
        text: "the header is too long",
    }
}

/// What is sent for the front of the input.
fn answer(
    alloc: Global,
    server: &mut Server,
    frames: &Frames,
    front: Front,
) -> Result<Outcome, AllocError>
    requires { Fronts LIMIT (waiting frames.now).bytes front }
    ensures answers { IfOk result (λ outcome. FrontAnswers server.old (waiting frames.now).bytes front outcome server.new) }
    ensures leaves { OnErr result (FrontLeaves server.old (waiting frames.now).bytes front server.new) }
{
    match front {
        Front::Part => Ok(Outcome::Nothing),
        Front::Message { start, end } => server.answer(alloc, frames.content(start, end)),
        Front::TooLong { .. } => Ok(Outcome::Reply(error(alloc, None, too_long())?)),
        Front::Wrong { fault, .. } => Ok(Outcome::Reply(error(alloc, None, header_fault(fault))?)),
        Front::Lost => Ok(Outcome::Reply(error(alloc, None, long_header())?)),
    }
}

/// Sends what is to be sent.
fn send<W: io::Write>(outcome: Result<Outcome, AllocError>, out: &mut W) -> Next
    ensures { Sends outcome (W.contents out.old) (W.contents out.new) result }
{
    let sent = match outcome {
        Ok(Outcome::Nothing) => Ok(()),
        Ok(Outcome::Reply(text)) | Ok(Outcome::Note(text)) => write_frame(out, text.as_bytes()),
        Ok(Outcome::Exit(status)) => return Next::Exit(status),
        Err(_) => write_frame(out, OUT_OF_MEMORY.as_bytes()),
    };
    if sent.is_ok() {
        Next::Read
    } else {
        Next::CannotWrite
    }
}

/// Answers the front of what waits, and takes it off.
fn answer_front<W: io::Write>(
    alloc: Global,
    server: &mut Server,
    frames: &mut Frames,
    front: Front,
    out: &mut W,
) -> Next
    requires { Fronts LIMIT (waiting frames.old).bytes front }
    ensures { (start : Option (List ℕ)) (input : List ℕ) → IsServed start (W.contents out.old) input server.old (waiting frames.old)
        → GoesOn result start (W.contents out.new) input server.new (waiting frames.new) }
{
    let outcome = answer(alloc, server, frames, front);
    match send(outcome, out) {
        Next::Read => {
            frames.pass(front);
            if front == Front::Lost {
                return Next::Lost;
            }
            Next::Read
        }
        next => next,
    }
}

/// Answers the messages that are whole.
fn answer_whole<W: io::Write>(
    alloc: Global,
    server: &mut Server,
    frames: &mut Frames,
    out: &mut W,
) -> Next
    ensures { (start : Option (List ℕ)) (input : List ℕ) → IsServed start (W.contents out.old) input server.old (waiting frames.old)
        → GoesOn result start (W.contents out.new) input server.new (waiting frames.new) }
{
    'fronts: for _ in 0..u64::MAX {
        let front = frames.front(LIMIT);
        if front == Front::Part {
            return Next::Read;
        }
        match answer_front(alloc, server, frames, front, out) {
            Next::Read => (),
            next => return next,
        }
    }
    Next::Read
}

/// Keeps a piece of the input, without the message that is being read, for which there is no memory. The editor is told.
fn leave_out<W: io::Write>(
    frames: &mut Frames,
    piece: &[u8],
    out: &mut W,
) -> Result<Next, AllocError>
    ensures { IfOk result (λ next. (start : Option (List ℕ)) (input : List ℕ) (server : Server)
        → IsServed start (W.contents out.old) input server (waiting frames.old)
        → GoesOn next start (W.contents out.new) (input ++ piece.now) server (waiting frames.new)) }
{
    let begun = frames.front(0);
    frames.pass(begun);
    frames.push(piece)?;
    Ok(send(Err(AllocError), out))
}

/// Keeps a piece of the input. If memory runs out, the message that is being read is left out.
fn keep<W: io::Write>(frames: &mut Frames, piece: &[u8], out: &mut W) -> Result<Next, AllocError>
    ensures { IfOk result (λ next. (start : Option (List ℕ)) (input : List ℕ) (server : Server)
        → IsServed start (W.contents out.old) input server (waiting frames.old)
        → GoesOn next start (W.contents out.new) (input ++ piece.now) server (waiting frames.new)) }
{
    match frames.push(piece) {
        Ok(()) => Ok(Next::Read),
        Err(_) => leave_out(frames, piece, out),
    }
}

/// Keeps a piece of the input, and answers the messages that are whole.
fn serve<W: io::Write>(
    alloc: Global,
    server: &mut Server,
    frames: &mut Frames,
    piece: &[u8],
    out: &mut W,
) -> Result<Next, AllocError>
    ensures { IfOk result (λ next. (start : Option (List ℕ)) (input : List ℕ)
        → IsServed start (W.contents out.old) input server.old (waiting frames.old)
        → GoesOn next start (W.contents out.new) (input ++ piece.now) server.new (waiting frames.new)) }
{
    let kept = keep(frames, piece, out)?;
    match kept {
        Next::Read => Ok(answer_whole(alloc, server, frames, out)),
        next => Ok(next),
    }
}

/// Reads a piece of the input, again after an interruption. Returns how many bytes it has, 0 at the end of the input.
fn read_piece<R: io::Read>(input: &mut R, piece: &mut [u8]) -> io::Result<usize>
    ensures within { IfOk result (λ count. count ≤ length piece.new) }
    ensures read { IfOk result (λ count. Consumes (R.remaining input.old) (R.remaining input.new) (take count piece.new)) }
    ensures end { IfOk result (λ count. count ≡ 0 → 0 < length piece.new → IsAtEnd (R.remaining input.new)) }
{
    'reads: for _ in 0..u64::MAX {
        match input.read(piece) {
            Ok(count) => return Ok(count),
            Err(error) => {
                if error.kind() != io::ErrorKind::Interrupted {
                    return Err(error);
                }
            }
        }
    }
    Err(io::Error::from(io::ErrorKind::Interrupted))
}

/// Reports a line, and returns the status of a fault.
fn fail<V: io::Write>(err: &mut V, line: &str) -> io::Result<u8>
    requires { 0 < length line.now }
    ensures status { IfOk result (λ status. status ≡ 2) }
    ensures reported { IfOk result (λ status. status ≡ 2 → IsReported (V.contents err.old) (V.contents err.new)) }
{
    report(err, line)
}

/// Answers all messages of the input, up to `exit` or the end of the input.
///
/// Returns the program's status: 0 if `shutdown` came before the end, 1 if not, and 2 after a fault, which is reported on
/// `err`: the input cannot be read, it ends inside a message, no message can be found in it any more, the output refuses
/// a write, or out of memory. The error is that of `err`, where it refused the report.
pub fn run<R: io::Read, W: io::Write, V: io::Write>(
    alloc: Global,
    input: &mut R,
    out: &mut W,
    err: &mut V,
) -> io::Result<u8>
    ensures status { IfOk result (λ status. status ≤ 2) }
    ensures run { IfOk result (λ status. status ≤ 1
        → IsRun (W.contents out.old) (W.contents out.new) (R.remaining input.old) (R.remaining input.new) status) }
    ensures silent { IfOk result (λ status. status ≤ 1 → err.new ≡ err.old) }
    ensures reported { IfOk result (λ status. status ≡ 2 → IsReported (V.contents err.old) (V.contents err.new)) }
{
    let mut server = Server::new(alloc);
    let mut frames = Frames::new(alloc);
    let mut piece = [0u8; PIECE];
    'pieces: for _ in 0..u64::MAX {
        let Ok(count) = read_piece(input, &mut piece) else {
            return fail(err, "rast_server: cannot read\n");
        };
        if count == 0 {
            if frames.is_empty() {
                return Ok(server.status());
            }
            return fail(err, "rast_server: the input ends inside a message\n");
        }
        let Ok(next) = serve(alloc, &mut server, &mut frames, &piece[..count], out) else {
            return fail(err, "rast_server: no memory\n");
        };
        match next {
            Next::Read => (),
            Next::Exit(status) => return Ok(status),
            Next::CannotWrite => return fail(err, "rast_server: cannot write\n"),
            Next::Lost => return fail(err, "rast_server: the header is too long\n"),
        }
    }
    fail(err, "rast_server: the input has no end\n")
}
