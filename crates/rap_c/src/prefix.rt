//! Parsing a prefix of a text.
ghost use Rattle.std.specs.Prelude.{◌≡◌, ◌≤◌, ◌<◌, IfErr, IfOk, true};
ghost use Rattle.rap_events.specs.Cover.{covers};
ghost use Rattle.rap_events.specs.Forest.{used};
ghost use Rattle.rap_lexed.specs.Input.{records};
ghost use Rattle.rap_c.specs.Output.{IsOutput};
ghost use Rattle.rap_c.specs.Prefix.{ComesOfFront, ComesOfPrefix, IsFilledPrefix, IsPrefix};
ghost use Rattle.rap_c.specs.Given.{IsRefusal, IsUntouched};
ghost use Rattle.rap_base.specs.Limits.{max_tokens};

use crate::answer::{Fault, NO_TREE, OK, RapAnswer, settle};
use crate::filler::Filler;
use crate::numbers::{edition_of, prefix_entry_of};
use crate::reading::{read, text_of};
use crate::step::RapStep;
use ra_ap_parser::{Edition, LexedStr, Output, ParseFault, PrefixEntryPoint, is_one_tree};
use rap_lexed::used::used_bytes;
use std::alloc::Global;

/// Fills the room with the steps of the tree that the output is, trivia put back, or with the output's own steps where
/// it is no tree.
pub fn fill_output(
    lexed: &LexedStr<'_>,
    output: &Output,
    steps: &mut [RapStep],
    messages: &mut [u8],
) -> RapAnswer
    requires prefix { (edition : Edition) × (covers (records lexed.now.tokens edition) output.now ≡ true) }
    requires few { used output.now ≤ max_tokens }
    ensures { IsOutput lexed.now.tokens output.now steps.old steps.new messages.old messages.new result }
{
    let used = used_bytes(lexed, output);
    let mut filler = Filler::new(steps, messages);
    if is_one_tree(output) {
        match lexed.intersperse_trivia(output, &mut filler) {
            Ok(_whole) => filler.answer(OK, used),
            Err(never) => match never {},
        }
    } else {
        filler.add_output(output);
        filler.answer(NO_TREE, used)
    }
}

/// Parses a prefix of the text, and fills the room with it.
fn fill_prefix(
    alloc: Global,
    edition: Edition,
    entry: PrefixEntryPoint,
    text: &str,
    steps: &mut [RapStep],
    messages: &mut [u8],
) -> Result<RapAnswer, Fault>
    ensures filled { IfOk result (IsFilledPrefix text.now edition entry steps.old steps.new messages.old messages.new) }
    ensures fault { IfErr result (ComesOfFront text.now edition) }
    ensures untouched { IfErr result (λ _. IsUntouched steps.old steps.new messages.old messages.new) }
{
    let reading = read(alloc, edition, text)?;
    match entry.parse(alloc, &reading.input) {
        Ok(output) => Ok(fill_output(&reading.lexed, &output, steps, messages)),
        Err(ParseFault::TooManyTokens) => Err(Fault::TooManyTokens),
        Err(ParseFault::NoMemory) => Err(Fault::NoMemory),
    }
}

/// Reads the numbers and the bytes, and fills the room.
fn prefix(
    alloc: Global,
    text: &[u8],
    edition: u32,
    entry: u32,
    steps: &mut [RapStep],
    messages: &mut [u8],
) -> Result<RapAnswer, Fault>
    ensures filled { IfOk result (IsPrefix text.now edition entry steps.old steps.new messages.old messages.new) }
    ensures fault { IfErr result (ComesOfPrefix text.now edition entry) }
    ensures untouched { IfErr result (λ _. IsUntouched steps.old steps.new messages.old messages.new) }
{
    let edition = edition_of(edition)?;
    let entry = prefix_entry_of(entry)?;
    let text = text_of(text)?;
    fill_prefix(alloc, edition, entry, text, steps, messages)
}

/// Parses a prefix of the text from the prefix entry with this number, and fills the slices with the steps of
/// its tree, trivia put back, and with the bytes of its messages. Where it is not one tree the status is 1, and the
/// steps are those of the output, which count tokens. Returns how many of each there are, and where what was
/// read ends.
#[unsafe(no_mangle)]
pub extern "C" fn rap_prefix(
    alloc: Global,
    text: &[u8],
    edition: u32,
    entry: u32,
    steps: &mut [RapStep],
    messages: &mut [u8],
) -> RapAnswer
    ensures prefix { result.status ≤ 1 → IsPrefix text.now edition entry steps.old steps.new messages.old messages.new result }
    ensures refused { 1 < result.status → IsRefusal (ComesOfPrefix text.now edition entry) result × IsUntouched steps.old steps.new messages.old messages.new }
{
    settle(prefix(alloc, text, edition, entry, steps, messages))
}
