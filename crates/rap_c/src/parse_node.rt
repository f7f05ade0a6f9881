//! A node in braces that is parsed again from its own records.
ghost use Rattle.std.specs.Prelude.{◌≡◌, ◌≤◌, ◌<◌, IfErr, IfOk};
ghost use Rattle.rap_c.specs.Given.{IsRefusal, IsUntouched};
ghost use Rattle.rap_c.specs.Parsed.{ComesOfNodeRows, ComesOfParseNode, IsFilledParse, IsNodeOutputOf, IsParseNode};
ghost use Rattle.rap_c.specs.Reparse.{asked_kind};

use crate::answer::{Fault, RapAnswer, settle};
use crate::parse::fill_raw;
use crate::record::{RapRecord, input_of};
use crate::reparse::reparser_of;
use crate::step::RapStep;
use ra_ap_parser::{ParseFault, Reparser};
use std::alloc::Global;

/// Parses the node again, and fills the room with the output.
fn fill_again(
    alloc: Global,
    reparser: Reparser,
    rows: &[RapRecord],
    steps: &mut [RapStep],
    messages: &mut [u8],
) -> Result<RapAnswer, Fault>
    ensures filled { IfOk result (IsFilledParse (IsNodeOutputOf reparser) rows.now steps.old steps.new messages.old messages.new) }
    ensures fault { IfErr result (ComesOfNodeRows rows.now reparser) }
    ensures untouched { IfErr result (λ _. IsUntouched steps.old steps.new messages.old messages.new) }
{
    let input = input_of(alloc, rows)?;
    if !reparser.can_parse(&input) {
        return Err(Fault::NoBrace);
    }
    match reparser.parse(alloc, &input) {
        Ok(output) => Ok(fill_raw(&output, steps, messages)),
        Err(ParseFault::TooManyTokens) => Err(Fault::TooManyTokens),
        Err(ParseFault::NoMemory) => Err(Fault::NoMemory),
    }
}

/// Reads the numbers, and fills the room.
fn parse_node(
    alloc: Global,
    rows: &[RapRecord],
    node: u32,
    first_child: u32,
    parent: u32,
    steps: &mut [RapStep],
    messages: &mut [u8],
) -> Result<RapAnswer, Fault>
    ensures filled { IfOk result (IsParseNode rows.now (asked_kind node first_child parent) steps.old steps.new messages.old messages.new) }
    ensures fault { IfErr result (ComesOfParseNode rows.now (asked_kind node first_child parent)) }
    ensures untouched { IfErr result (λ _. IsUntouched steps.old steps.new messages.old messages.new) }
{
    let reparser = reparser_of(node, first_child, parent)?;
    fill_again(alloc, reparser, rows, steps, messages)
}

/// Parses a node again from its own records, by the kinds' numbers of the node, of the first thing in it and of the
/// node around it, and fills the slices with the steps of the output, which count records, and with the bytes of its
/// messages. A number past the last kind's says that there is none. Where the output is not one tree the status is 1.
/// The answer says how many of each there are, and how many records were taken.
#[unsafe(no_mangle)]
pub extern "C" fn rap_parse_node(
    alloc: Global,
    rows: &[RapRecord],
    node: u32,
    first_child: u32,
    parent: u32,
    steps: &mut [RapStep],
    messages: &mut [u8],
) -> RapAnswer
    ensures parsed { result.status ≤ 1 → IsParseNode rows.now (asked_kind node first_child parent) steps.old steps.new messages.old messages.new result }
    ensures refused { 1 < result.status → IsRefusal (ComesOfParseNode rows.now (asked_kind node first_child parent)) result × IsUntouched steps.old steps.new messages.old messages.new }
{
    settle(parse_node(alloc, rows, node, first_child, parent, steps, messages))
}
