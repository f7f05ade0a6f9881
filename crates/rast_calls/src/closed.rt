//! Whether a node that is made of a text again is closed.
ghost use Rattle.std.specs.Prelude.{◌≡◌, IfErr, IfOk, string_bytes};
ghost use Rattle.rast_calls.specs.Closed.{ComesOfClosed, IsListedClosed};

use crate::pushed::CallFault;
use ra_ap_parser::{Edition, LexedStr, Reparser};
use std::alloc::Global;

/// Lists whether the node that is made of the text ends with its own closing brace.
pub fn list_closed(
    alloc: Global,
    reparser: Reparser,
    edition: Edition,
    text: &str,
) -> Result<String, CallFault>
    ensures closed { IfOk result (λ lines. IsListedClosed text.now edition reparser (string_bytes lines)) }
    ensures fault { IfErr result (ComesOfClosed text.now edition reparser) }
{
    let lexed = LexedStr::new(alloc, edition, text)?;
    let input = lexed.to_input(alloc, edition)?;
    if !reparser.can_parse(&input) {
        return Err(CallFault::NoBrace);
    }
    let output = reparser.parse(alloc, &input)?;
    let line = if reparser.is_closed(&lexed, &output) {
        "closed\n"
    } else {
        "open\n"
    };
    Ok(String::from_str(alloc, line)?)
}
