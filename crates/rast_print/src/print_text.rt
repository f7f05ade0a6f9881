//! A whole text, from its bytes to the lines of its tree.
ghost use Rattle.std.specs.Prelude.{◌≡◌, IfErr, IfOk};
ghost use Rattle.rast_print.specs.Shown.{Comes, IsPrinted, fault_of};

use crate::printer::Printer;
use crate::room::roomy_lines;
use ra_ap_parser::{Edition, NoMemory, ParsedTokens, TextFault, TopEntryPoint, parse_tokens};
use rast_common::fault::Fault;
use std::alloc::Global;

/// The lines of the text's tree and of its messages, the tree's messages before the lexer's. Room for most of the tree's
/// lines is made when the text is parsed, if there is memory for it.
pub fn print_text(
    alloc: Global,
    edition: Edition,
    entry: TopEntryPoint,
    text: &str,
) -> Result<Printer, TextFault<NoMemory>>
    ensures printed { IfOk result (IsPrinted text.now edition entry) }
    ensures fault { IfErr result (Comes text.now edition) }
{
    let parsed = parse_tokens(alloc, edition, entry, text)?;
    let ParsedTokens { lexed, output } = parsed;
    let lines = roomy_lines(alloc, &lexed, &output);
    let mut printer = Printer::after(alloc, lines);
    let Ok(_whole) = lexed.intersperse_trivia(&output, &mut printer) else {
        return Err(TextFault::Refused(NoMemory));
    };
    drop(output);
    let Ok(()) = lexed.report_errors(&mut printer) else {
        return Err(TextFault::NoMemory);
    };
    Ok(printer)
}

/// What is reported about a fault; a program's own sink refuses a step only when out of memory.
pub fn fault_of<R>(fault: &TextFault<R>) -> Fault
    ensures { result ≡ fault_of fault.now }
{
    match fault {
        TextFault::TextTooLong => Fault::TextTooLong,
        TextFault::TooManyTokens => Fault::TooManyTokens,
        TextFault::NoMemory | TextFault::Refused(_) => Fault::NoMemory,
    }
}
