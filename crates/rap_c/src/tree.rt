//! A text's tree.
ghost use Rattle.std.specs.Prelude.{◌≡◌, ◌≢◌, IfErr, IfOk};
ghost use Rattle.rap_c.specs.Tree.{ComesOfTree, ComesOfText, IsFilledTree, IsTree};
ghost use Rattle.rap_c.specs.Given.{IsRefusal, IsUntouched};

use crate::answer::{Fault, OK, RapAnswer, settle};
use crate::filler::Filler;
use crate::numbers::{edition_of, top_entry_of};
use crate::reading::text_of;
use crate::step::RapStep;
use ra_ap_parser::{Edition, TextFault, TopEntryPoint, parse_text};
use std::alloc::Global;

/// Fills the room with the steps of the text's tree, and with the lexer's messages after them.
fn fill_tree(
    alloc: Global,
    edition: Edition,
    entry: TopEntryPoint,
    text: &str,
    steps: &mut [RapStep],
    messages: &mut [u8],
) -> Result<RapAnswer, Fault>
    ensures filled { IfOk result (IsFilledTree text.now edition entry steps.old steps.new messages.old messages.new) }
    ensures fault { IfErr result (ComesOfText text.now edition) }
    ensures untouched { IfErr result (λ _. IsUntouched steps.old steps.new messages.old messages.new) }
{
    let mut filler = Filler::new(steps, messages);
    match parse_text(alloc, edition, entry, text, &mut filler) {
        Ok(parsed) => {
            // For the proof: it fits its type.
            let _count = parsed.lexed.len();
            filler.add_errors_of(&parsed.lexed);
            Ok(filler.answer(OK, text.len()))
        }
        Err(TextFault::TextTooLong) => Err(Fault::TextTooLong),
        Err(TextFault::TooManyTokens) => Err(Fault::TooManyTokens),
        Err(TextFault::NoMemory) => Err(Fault::NoMemory),
        Err(TextFault::Refused(never)) => match never {},
    }
}

/// Reads the numbers and the bytes, and fills the room.
fn tree(
    alloc: Global,
    text: &[u8],
    edition: u32,
    entry: u32,
    steps: &mut [RapStep],
    messages: &mut [u8],
) -> Result<RapAnswer, Fault>
    ensures filled { IfOk result (IsTree text.now edition entry steps.old steps.new messages.old messages.new) }
    ensures fault { IfErr result (ComesOfTree text.now edition entry) }
    ensures untouched { IfErr result (λ _. IsUntouched steps.old steps.new messages.old messages.new) }
{
    let edition = edition_of(edition)?;
    let entry = top_entry_of(entry)?;
    let text = text_of(text)?;
    fill_tree(alloc, edition, entry, text, steps, messages)
}

/// Parses the text from the top entry with the number, and fills the slices with the steps of its tree, after which
/// the lexer's messages stand, and with the bytes of all messages. Returns how many of each there are.
#[unsafe(no_mangle)]
pub extern "C" fn rap_tree(
    alloc: Global,
    text: &[u8],
    edition: u32,
    entry: u32,
    steps: &mut [RapStep],
    messages: &mut [u8],
) -> RapAnswer
    ensures tree { result.status ≡ 0 → IsTree text.now edition entry steps.old steps.new messages.old messages.new result }
    ensures refused { result.status ≢ 0 → IsRefusal (ComesOfTree text.now edition entry) result × IsUntouched steps.old steps.new messages.old messages.new }
{
    settle(tree(alloc, text, edition, entry, steps, messages))
}
