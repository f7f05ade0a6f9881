//! All that the program does once a file is read.
ghost use Rattle.std.specs.Prelude.{◌≡◌, ◌⊎◌, IfOk, MatchOption, OnErr, OnOk, codes, string_bytes};
ghost use Rattle.std.specs.Io.KnownBytes.{Appends};
ghost use Rattle.rap_core.specs.Derived.{IsDerived};
ghost use Rattle.rast_common.specs.Ran.{Ran};
ghost use Rattle.rast_common.specs.Written.{AppendsFront};
ghost use Rattle.rast_core.specs.Among.{RanAmong, Reports, ShowsAmong, fault_line};
ghost use Rattle.rast_core.specs.Page.{Accepts, Makes, shown_of};

use crate::page::{Lines, lines_outside};
use ra_ap_parser::{Edition, NoMemory, TextFault};
use rast_common::fault::{Fault, report};
use rast_common::quote::push_quoted;
use rast_common::show::finish;
use rast_print::print_text::fault_of;
use std::alloc::{AllocError, Global};
use std::fmt::Write as _;
use std::io;

/// The status of a fault.
pub const FAULT: u8 = 2;

/// The lines of what is outside; an error is what is reported. `None` if the text is in the core grammar.
fn make(alloc: Global, edition: Edition, text: &str) -> Option<Result<Lines, Fault>>
    ensures { MatchOption result (IsDerived text.now edition) (Makes text.now edition) }
{
    match lines_outside(alloc, edition, None, text) {
        Ok(None) => None,
        Ok(Some(lines)) => Some(Ok(lines)),
        Err(fault) => Some(Err(fault_of(&fault))),
    }
}

/// Tells whether a text is in the core grammar.
///
/// Returns the program's status: 0 only where it is, and then nothing is written; 1 where no derivation is found, or the
/// lexer has a message, and then the lines of what is outside are written; and 2 at a fault, which is reported on `err`.
/// At a fault nothing is written to `out`, unless `out` itself refused a write. The error is that of `err`, where it
/// refused the report.
pub fn run<W: io::Write, V: io::Write>(
    alloc: Global,
    edition: Edition,
    text: &str,
    out: &mut W,
    err: &mut V,
) -> io::Result<u8>
    ensures { Accepts text.now edition out.old out.new err.old err.new result
        ⊎ Ran (codes "rast_core") shown_of (Makes text.now edition)
        W.contents out.old out.new V.contents err.old err.new result }
{
    match make(alloc, edition, text) {
        None => Ok(0),
        Some(made) => finish("rast_core", made, out, err),
    }
}

/// The line about a fault of a file among others.
fn line_of(alloc: Global, file: &str, fault: &TextFault<NoMemory>) -> Result<String, AllocError>
    ensures { IfOk result (λ line. string_bytes line ≡ fault_line file.now fault.now) }
{
    let mut line = String::new(alloc);
    line.push_str("rast_core: cannot read ")?;
    push_quoted(&mut line, file)?;
    write!(line, ": {fault}\n")?;
    Ok(line)
}

/// Reports the fault of a file among others, or that memory ran out for the line. Returns the status 2.
fn report_among<V: io::Write>(
    alloc: Global,
    file: &str,
    fault: &TextFault<NoMemory>,
    err: &mut V,
) -> io::Result<u8>
    ensures status { IfOk result (λ status. status ≡ 2) }
    ensures reported { OnOk result (Reports file.now fault.now (Appends (V.contents err.old) (V.contents err.new))) }
    ensures broken { OnErr result (Reports file.now fault.now (AppendsFront (V.contents err.old) (V.contents err.new))) }
{
    match line_of(alloc, file, fault) {
        Ok(line) => report(err, line.as_str()),
        Err(_) => report(err, "rast_core: no memory\n"),
    }
}

/// Writes the lines of a file among others. `None` if the output refused a write, which is reported.
fn show_among<W: io::Write, V: io::Write>(
    lines: Lines,
    out: &mut W,
    err: &mut V,
) -> io::Result<Option<u8>>
    ensures { ShowsAmong (string_bytes lines.text) W.contents out.old out.new V.contents err.old err.new result }
{
    let status = finish("rast_core", Ok(lines), out, err)?;
    if status == FAULT {
        return Ok(None);
    }
    Ok(Some(status))
}

/// Tells whether the text of one of several files is in the core grammar. Each line that is written begins with the file
/// and a colon.
///
/// Returns the status of the file: 0 and 1 as [`run`] does, and 2 at a fault of the file alone, which is reported on
/// `err` with the file; then nothing is written to `out`. `None` if `out` refused a write, which is reported on `err`.
/// The error is that of `err`, where it refused the report.
pub fn run_among<W: io::Write, V: io::Write>(
    alloc: Global,
    edition: Edition,
    file: &str,
    text: &str,
    out: &mut W,
    err: &mut V,
) -> io::Result<Option<u8>>
    ensures { RanAmong file.now text.now edition W.contents out.old out.new V.contents err.old err.new result }
{
    let told = match lines_outside(alloc, edition, Some(file), text) {
        Ok(told) => told,
        Err(fault) => {
            let reported = report_among(alloc, file, &fault, err)?;
            return Ok(Some(reported));
        }
    };
    match told {
        None => Ok(Some(0)),
        Some(lines) => show_among(lines, out, err),
    }
}
