//! Parsing a prefix of records.
ghost use Rattle.std.specs.Prelude.{◌≡◌, ◌≤◌, ◌<◌, IfErr, IfOk};
ghost use Rattle.rap_c.specs.Given.{IsRefusal, IsUntouched};
ghost use Rattle.rap_c.specs.Parsed.{ComesOfParsePrefix, ComesOfRows, IsFilledParse, IsFrontOf, IsParsePrefix};

use crate::answer::{Fault, RapAnswer, settle};
use crate::numbers::prefix_entry_of;
use crate::parse::fill_raw;
use crate::record::{RapRecord, input_of};
use crate::step::RapStep;
use ra_ap_parser::{ParseFault, PrefixEntryPoint};
use std::alloc::Global;

/// Parses a prefix of the records, and fills the room with the output.
fn fill_front(
    alloc: Global,
    entry: PrefixEntryPoint,
    rows: &[RapRecord],
    steps: &mut [RapStep],
    messages: &mut [u8],
) -> Result<RapAnswer, Fault>
    ensures filled { IfOk result (IsFilledParse (IsFrontOf entry) rows.now steps.old steps.new messages.old messages.new) }
    ensures fault { IfErr result (ComesOfRows rows.now) }
    ensures untouched { IfErr result (λ _. IsUntouched steps.old steps.new messages.old messages.new) }
{
    let input = input_of(alloc, rows)?;
    match entry.parse(alloc, &input) {
        Ok(output) => Ok(fill_raw(&output, steps, messages)),
        Err(ParseFault::TooManyTokens) => Err(Fault::TooManyTokens),
        Err(ParseFault::NoMemory) => Err(Fault::NoMemory),
    }
}

/// Reads the number, and fills the room.
fn parse_prefix(
    alloc: Global,
    rows: &[RapRecord],
    entry: u32,
    steps: &mut [RapStep],
    messages: &mut [u8],
) -> Result<RapAnswer, Fault>
    ensures filled { IfOk result (IsParsePrefix rows.now entry steps.old steps.new messages.old messages.new) }
    ensures fault { IfErr result (ComesOfParsePrefix rows.now entry) }
    ensures untouched { IfErr result (λ _. IsUntouched steps.old steps.new messages.old messages.new) }
{
    let entry = prefix_entry_of(entry)?;
    fill_front(alloc, entry, rows, steps, messages)
}

/// Parses a prefix of the records from the prefix entry with this number, and fills the slices with the steps of the
/// output, which count records, and with the bytes of its messages. Where it is not one tree the status is 1. The
/// answer says how many of each there are, and how many records were taken.
#[unsafe(no_mangle)]
pub extern "C" fn rap_parse_prefix(
    alloc: Global,
    rows: &[RapRecord],
    entry: u32,
    steps: &mut [RapStep],
    messages: &mut [u8],
) -> RapAnswer
    ensures parsed { result.status ≤ 1 → IsParsePrefix rows.now entry steps.old steps.new messages.old messages.new result }
    ensures refused { 1 < result.status → IsRefusal (ComesOfParsePrefix rows.now entry) result × IsUntouched steps.old steps.new messages.old messages.new }
{
    settle(parse_prefix(alloc, rows, entry, steps, messages))
}
