//! The work of the program once its arguments and its file are read.
ghost use Rattle.std.specs.Prelude.{◌≡◌, codes};
ghost use Rattle.rast_common.specs.Ran.{Ran};
ghost use Rattle.rast_calls.specs.Page.{Makes, fault_of, shown_of};

use crate::asked::Asked;
use crate::listing::list;
use crate::pushed::CallFault;
use rast_common::fault::Fault;
use rast_common::show::finish;
use std::alloc::Global;
use std::io;

/// What is reported about a fault.
fn fault_of(fault: CallFault) -> Fault
    ensures { result ≡ fault_of fault }
{
    match fault {
        CallFault::TextTooLong => Fault::TextTooLong,
        CallFault::TooManyTokens => Fault::TooManyTokens,
        CallFault::NoBrace => Fault::NoBraceInInput,
        CallFault::NoToken => Fault::NoToken,
        CallFault::NoMemory => Fault::NoMemory,
    }
}

/// Makes the calls, and lists what they return; an error is what is reported.
fn make(alloc: Global, asked: &Asked, text: &str) -> Result<String, Fault>
    ensures { Makes text.now asked.now result }
{
    match list(alloc, asked, text) {
        Ok(lines) => Ok(lines),
        Err(fault) => Err(fault_of(fault)),
    }
}

/// Makes the calls that the arguments name, and writes their results.
///
/// Returns the program's status: 0 if it is written, and 2 at a fault, which is reported on `err`. At a fault nothing
/// is written to `out`, unless `out` itself refused a write. The error is that of `err`, where it refused the report.
pub fn run<W: io::Write, V: io::Write>(
    alloc: Global,
    asked: &Asked,
    text: &str,
    out: &mut W,
    err: &mut V,
) -> io::Result<u8>
    ensures { Ran (codes "rast_calls") shown_of (Makes text.now asked.now)
        W.contents out.old out.new V.contents err.old err.new result }
{
    let made = make(alloc, asked, text);
    finish("rast_calls", made, out, err)
}
