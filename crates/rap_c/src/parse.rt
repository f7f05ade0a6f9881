//! Records parsed as a whole.
ghost use Rattle.std.specs.Prelude.{◌≡◌, ◌≢◌, ◌≤◌, ◌<◌, IfErr, IfOk};
ghost use Rattle.rap_events.specs.Forest.{used};
ghost use Rattle.rap_c.specs.Given.{IsRefusal, IsUntouched};
ghost use Rattle.rap_c.specs.Parsed.{ComesOfParse, ComesOfRows, IsFilledParse, IsParse, IsRawOutput, IsTopTreeOf, status_of};
ghost use Rattle.rap_base.specs.Limits.{max_tokens};

use crate::answer::{Fault, NO_TREE, OK, RapAnswer, settle};
use crate::filler::Filler;
use crate::numbers::top_entry_of;
use crate::record::{RapRecord, input_of};
use crate::step::RapStep;
use ra_ap_parser::{Output, ParseFault, TopEntryPoint, is_one_tree};
use rap_lexed::used::used_tokens;
use std::alloc::Global;

/// The status of an output: whether it is one tree.
fn status_of(output: &Output) -> u32
    ensures { result ≡ status_of output.now }
{
    if is_one_tree(output) { OK } else { NO_TREE }
}

/// Fills the room with the output's own steps.
pub fn fill_raw(output: &Output, steps: &mut [RapStep], messages: &mut [u8]) -> RapAnswer
    requires few { used output.now ≤ max_tokens }
    ensures { IsRawOutput output.now steps.old steps.new messages.old messages.new result }
{
    let used = used_tokens(output);
    let status = status_of(output);
    let mut filler = Filler::new(steps, messages);
    filler.add_output(output);
    filler.answer(status, used)
}

/// Parses the records from the entry, and fills the room with the output.
fn fill_parse(
    alloc: Global,
    entry: TopEntryPoint,
    rows: &[RapRecord],
    steps: &mut [RapStep],
    messages: &mut [u8],
) -> Result<RapAnswer, Fault>
    ensures filled { IfOk result (IsFilledParse (IsTopTreeOf entry) rows.now steps.old steps.new messages.old messages.new) }
    ensures fault { IfErr result (ComesOfRows rows.now) }
    ensures untouched { IfErr result (λ _. IsUntouched steps.old steps.new messages.old messages.new) }
{
    let input = input_of(alloc, rows)?;
    match entry.parse(alloc, &input) {
        Ok(output) => Ok(fill_raw(&output, steps, messages)),
        Err(ParseFault::TooManyTokens) => Err(Fault::TooManyTokens),
        Err(ParseFault::NoMemory) => Err(Fault::NoMemory),
    }
}

/// Reads the number, and fills the room.
fn parse(
    alloc: Global,
    rows: &[RapRecord],
    entry: u32,
    steps: &mut [RapStep],
    messages: &mut [u8],
) -> Result<RapAnswer, Fault>
    ensures filled { IfOk result (IsParse rows.now entry steps.old steps.new messages.old messages.new) }
    ensures fault { IfErr result (ComesOfParse rows.now entry) }
    ensures untouched { IfErr result (λ _. IsUntouched steps.old steps.new messages.old messages.new) }
{
    let entry = top_entry_of(entry)?;
    fill_parse(alloc, entry, rows, steps, messages)
}

/// Parses the records as a whole from the top entry with the number, and fills the slices with the steps of the output,
/// which count records, and with the bytes of its messages. Returns how many of each there are. The output is one tree
/// over all records, so the status is never 1.
#[unsafe(no_mangle)]
pub extern "C" fn rap_parse(
    alloc: Global,
    rows: &[RapRecord],
    entry: u32,
    steps: &mut [RapStep],
    messages: &mut [u8],
) -> RapAnswer
    ensures parsed { result.status ≡ 0 → IsParse rows.now entry steps.old steps.new messages.old messages.new result }
    ensures refused { result.status ≢ 0 → IsRefusal (ComesOfParse rows.now entry) result × IsUntouched steps.old steps.new messages.old messages.new }
{
    settle(parse(alloc, rows, entry, steps, messages))
}
