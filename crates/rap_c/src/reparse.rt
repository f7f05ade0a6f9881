//! A node in braces that is parsed again from its own text.
ghost use Rattle.std.specs.Prelude.{◌≡◌, ◌≤◌, ◌<◌, IfErr, IfOk, MatchResult, Some, None};
ghost use Rattle.rap_grammar.specs.Part.{part_kind};
ghost use Rattle.rap_c.specs.Reparse.{ComesOfNode, ComesOfReparse, IsFilledNode, IsReparsed, asked_kind};
ghost use Rattle.rap_c.specs.Given.{IsRefusal, IsUntouched};

use crate::answer::{Fault, RapAnswer, settle};
use crate::numbers::{edition_of, kind_of};
use crate::prefix::fill_output;
use crate::reading::{read, text_of};
use crate::step::RapStep;
use ra_ap_parser::{Edition, ParseFault, Reparser};
use std::alloc::Global;

/// How the node is parsed again, by its kind's number, that of its first child and that of its parent.
pub fn reparser_of(node: u32, first_child: u32, parent: u32) -> Result<Reparser, Fault>
    ensures { MatchResult result (λ part. asked_kind node first_child parent ≡ Some (part_kind part)) (λ fault. (fault ≡ Fault.NoNode) × (asked_kind node first_child parent ≡ None)) }
{
    let Some(node) = kind_of(node) else {
        return Err(Fault::NoNode);
    };
    match Reparser::for_node(node, kind_of(first_child), kind_of(parent)) {
        Some(reparser) => Ok(reparser),
        None => Err(Fault::NoNode),
    }
}

/// Parses the node again, and fills the room with it.
fn fill_node(
    alloc: Global,
    edition: Edition,
    reparser: Reparser,
    text: &str,
    steps: &mut [RapStep],
    messages: &mut [u8],
) -> Result<RapAnswer, Fault>
    ensures filled { IfOk result (IsFilledNode text.now edition reparser steps.old steps.new messages.old messages.new) }
    ensures fault { IfErr result (ComesOfNode text.now edition reparser) }
    ensures untouched { IfErr result (λ _. IsUntouched steps.old steps.new messages.old messages.new) }
{
    let reading = read(alloc, edition, text)?;
    if !reparser.can_parse(&reading.input) {
        return Err(Fault::NoBrace);
    }
    match reparser.parse(alloc, &reading.input) {
        Ok(output) => Ok(fill_output(&reading.lexed, &output, steps, messages)),
        Err(ParseFault::TooManyTokens) => Err(Fault::TooManyTokens),
        Err(ParseFault::NoMemory) => Err(Fault::NoMemory),
    }
}

/// Reads the numbers and the bytes, and fills the room.
fn reparse(
    alloc: Global,
    text: &[u8],
    edition: u32,
    node: u32,
    first_child: u32,
    parent: u32,
    steps: &mut [RapStep],
    messages: &mut [u8],
) -> Result<RapAnswer, Fault>
    ensures filled { IfOk result (IsReparsed text.now edition (asked_kind node first_child parent) steps.old steps.new messages.old messages.new) }
    ensures fault { IfErr result (ComesOfReparse text.now edition (asked_kind node first_child parent)) }
    ensures untouched { IfErr result (λ _. IsUntouched steps.old steps.new messages.old messages.new) }
{
    let edition = edition_of(edition)?;
    let reparser = reparser_of(node, first_child, parent)?;
    let text = text_of(text)?;
    fill_node(alloc, edition, reparser, text, steps, messages)
}

/// Parses a node again from its own text, by the kinds' numbers of the node, of the first thing in it and of the node
/// around it, and fills the slices with the steps of its tree, trivia put back, and with the bytes of its messages. A
/// number past the last kind's says that there is none. Where it is not one tree the status is 1, and the steps are
/// those of the output, which count tokens. Returns how many of each there are, and where the node ends.
#[unsafe(no_mangle)]
pub extern "C" fn rap_reparse(
    alloc: Global,
    text: &[u8],
    edition: u32,
    node: u32,
    first_child: u32,
    parent: u32,
    steps: &mut [RapStep],
    messages: &mut [u8],
) -> RapAnswer
    ensures reparsed { result.status ≤ 1 → IsReparsed text.now edition (asked_kind node first_child parent) steps.old steps.new messages.old messages.new result }
    ensures refused { 1 < result.status → IsRefusal (ComesOfReparse text.now edition (asked_kind node first_child parent)) result × IsUntouched steps.old steps.new messages.old messages.new }
{
    settle(reparse(
        alloc,
        text,
        edition,
        node,
        first_child,
        parent,
        steps,
        messages,
    ))
}
