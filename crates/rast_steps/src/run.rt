//! All that the program does once its file is read.
ghost use Rattle.std.specs.Prelude.{◌≡◌, codes};
ghost use Rattle.rast_common.specs.Ran.{Ran};
ghost use Rattle.rast_common.specs.Shown.{plain};
ghost use Rattle.rast_steps.specs.Page.{Makes, fault_of};

use ra_ap_parser::Edition;
use rast_common::fault::Fault;
use rast_common::indented::IndentedText;
use rast_common::show::finish;
use rast_print::asked::Asked;
use rast_print::listing::{ListFault, list};
use std::alloc::Global;
use std::io;

/// What is reported about a fault.
fn fault_of(fault: ListFault) -> Fault
    ensures { result ≡ fault_of fault }
{
    match fault {
        ListFault::TextTooLong => Fault::TextTooLong,
        ListFault::TooManyTokens => Fault::TooManyTokens,
        ListFault::NoBrace => Fault::NoBrace,
        ListFault::NoMemory => Fault::NoMemory,
    }
}

/// Lists what the arguments name; an error is what is reported.
fn make(alloc: Global, edition: Edition, asked: Asked, text: &str) -> Result<IndentedText, Fault>
    ensures { Makes text.now edition asked result }
{
    match list(alloc, edition, asked, text) {
        Ok(lines) => Ok(lines),
        Err(fault) => Err(fault_of(fault)),
    }
}

/// Lists what the arguments name.
///
/// Returns the program's status: 0 where it is listed, and 2 at a fault, which is reported on `err`. At a fault nothing
/// is written to `out`, unless `out` itself refused a write. The error is that of `err`, where it refused the report.
pub fn run<W: io::Write, V: io::Write>(
    alloc: Global,
    edition: Edition,
    asked: Asked,
    text: &str,
    out: &mut W,
    err: &mut V,
) -> io::Result<u8>
    ensures { Ran (codes "rast_steps") plain (Makes text.now edition asked)
        W.contents out.old out.new V.contents err.old err.new result }
{
    let made = make(alloc, edition, asked, text);
    finish("rast_steps", made, out, err)
}
