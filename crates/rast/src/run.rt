//! All that the program does once its file is read.
ghost use Rattle.std.specs.Prelude.{IfErr, IfOk, codes};
ghost use Rattle.rast_common.specs.Ran.{Ran};
ghost use Rattle.rast_print.specs.Shown.{Comes, shown_of};
ghost use Rattle.rast.specs.Ran.{ArePrinted, Makes};

use crate::ranges::print_ranges;
use ra_ap_parser::{Edition, NoMemory, TextFault, TopEntryPoint};
use rast_common::fault::Fault;
use rast_common::show::finish;
use rast_print::print_text::{fault_of, print_text};
use rast_print::printer::Printer;
use std::alloc::Global;
use std::io;

/// The lines of the text's tree, with the places of its nodes and leaves if requested, and of its messages.
fn print(
    alloc: Global,
    edition: Edition,
    entry: TopEntryPoint,
    text: &str,
    ranges: bool,
) -> Result<Printer, TextFault<NoMemory>>
    ensures printed { IfOk result (ArePrinted ranges text.now edition entry) }
    ensures fault { IfErr result (Comes text.now edition) }
{
    if ranges {
        print_ranges(alloc, edition, entry, text)
    } else {
        print_text(alloc, edition, entry, text)
    }
}

/// The same; an error is what is reported.
fn make(
    alloc: Global,
    edition: Edition,
    entry: TopEntryPoint,
    text: &str,
    ranges: bool,
) -> Result<Printer, Fault>
    ensures { Makes ranges text.now edition entry result }
{
    match print(alloc, edition, entry, text, ranges) {
        Ok(printer) => Ok(printer),
        Err(fault) => Err(fault_of(&fault)),
    }
}

/// Parses the text and prints its tree, with the place of each node and leaf where `ranges` says so, and its messages,
/// the tree's before the lexer's.
///
/// Returns the program's status: 0 where there is no message, 1 where there is one, and 2 at a fault, which
/// is reported on `err`. At a fault nothing is written to `out`, unless `out` itself refused a write. The error is that
/// of `err`, where it refused the report.
pub fn run<W: io::Write, V: io::Write>(
    alloc: Global,
    edition: Edition,
    entry: TopEntryPoint,
    text: &str,
    ranges: bool,
    out: &mut W,
    err: &mut V,
) -> io::Result<u8>
    ensures { Ran (codes "rast") shown_of (Makes ranges text.now edition entry)
        W.contents out.old out.new V.contents err.old err.new result }
{
    let made = make(alloc, edition, entry, text, ranges);
    finish("rast", made, out, err)
}
