//! Trivia put back into a tree that is given.
ghost use Rattle.std.specs.Prelude.{◌≡◌, ◌≢◌, ◌≤◌, ◌<◌, IfErr, IfOk, map, true};
ghost use Rattle.rap_base.specs.declared.edition.Edition.{Edition};
ghost use Rattle.rap_events.specs.Cover.{covers};
ghost use Rattle.rap_events.specs.Forest.{used};
ghost use Rattle.rap_events.specs.Reading.{forest_of};
ghost use Rattle.rap_events.specs.Step.{step_value};
ghost use Rattle.rap_lexed.specs.Input.{records};
ghost use Rattle.rap_steps.specs.Steps.{IsTreeSteps};
ghost use Rattle.rap_c.specs.Given.{IsRefusal, IsUntouched};
ghost use Rattle.rap_c.specs.Output.{IsOutput};
ghost use Rattle.rap_c.specs.Woven.{ComesOfWeave, ComesOfWeaving, IsFilledWeave, IsWeave};

use crate::answer::{Fault, OK, RapAnswer, settle};
use crate::filler::Filler;
use crate::given::steps_of;
use crate::numbers::edition_of;
use crate::reading::{read, text_of};
use crate::step::RapStep;
use ra_ap_parser::{Edition, LexedStr, Step};
use rap_lexed::used::end_after;
use rap_steps::{covered, is_tree};
use std::alloc::Global;

/// Fills the room with the tree of these steps, trivia put back. Its leaves stand for so many tokens.
fn fill_tree_steps(
    lexed: &LexedStr<'_>,
    tree: &[Step<'_>],
    count: usize,
    steps: &mut [RapStep],
    messages: &mut [u8],
) -> RapAnswer
    requires tree { IsTreeSteps (map step_value tree.now) }
    requires prefix { (edition : Edition) × (covers (records lexed.now.tokens edition) (forest_of (map step_value tree.now)) ≡ true) }
    requires count { count ≡ used (forest_of (map step_value tree.now)) }
    ensures { IsOutput lexed.now.tokens (forest_of (map step_value tree.now)) steps.old steps.new messages.old messages.new result }
{
    let used = end_after(lexed, count);
    let mut filler = Filler::new(steps, messages);
    match lexed.intersperse_steps(tree, &mut filler) {
        Ok(_whole) => filler.answer(OK, used),
        Err(never) => match never {},
    }
}

/// Tests the steps that were given, and fills the room with their tree, trivia put back.
fn fill_weave(
    alloc: Global,
    edition: Edition,
    text: &str,
    given: &[RapStep],
    given_messages: &[u8],
    steps: &mut [RapStep],
    messages: &mut [u8],
) -> Result<RapAnswer, Fault>
    ensures filled { IfOk result (IsFilledWeave text.now edition given.now given_messages.now steps.old steps.new messages.old messages.new) }
    ensures fault { IfErr result (ComesOfWeaving text.now edition given.now given_messages.now) }
    ensures untouched { IfErr result (λ _. IsUntouched steps.old steps.new messages.old messages.new) }
{
    let reading = read(alloc, edition, text)?;
    let tree = steps_of(alloc, given, given_messages)?;
    let Ok(is_one) = is_tree(alloc, tree.as_slice()) else {
        return Err(Fault::NoMemory);
    };
    if !is_one {
        return Err(Fault::NoSteps);
    }
    let Some(count) = covered(alloc, tree.as_slice(), &reading.input) else {
        return Err(Fault::NoSteps);
    };
    Ok(fill_tree_steps(&reading.lexed, tree.as_slice(), count, steps, messages))
}

/// Reads the number and the bytes, and fills the room.
fn weave(
    alloc: Global,
    text: &[u8],
    edition: u32,
    tree: &[RapStep],
    tree_messages: &[u8],
    steps: &mut [RapStep],
    messages: &mut [u8],
) -> Result<RapAnswer, Fault>
    ensures filled { IfOk result (IsWeave text.now edition tree.now tree_messages.now steps.old steps.new messages.old messages.new) }
    ensures fault { IfErr result (ComesOfWeave text.now edition tree.now tree_messages.now) }
    ensures untouched { IfErr result (λ _. IsUntouched steps.old steps.new messages.old messages.new) }
{
    let edition = edition_of(edition)?;
    let text = text_of(text)?;
    fill_weave(alloc, edition, text, tree, tree_messages, steps, messages)
}

/// Puts the trivia of the text back into a tree over its tokens, whose steps and whose messages' bytes are given, and
/// fills the slices with its steps and with the bytes of its messages. Returns how many of each there are, and where
/// the last token of the tree ends.
#[unsafe(no_mangle)]
pub extern "C" fn rap_weave(
    alloc: Global,
    text: &[u8],
    edition: u32,
    tree: &[RapStep],
    tree_messages: &[u8],
    steps: &mut [RapStep],
    messages: &mut [u8],
) -> RapAnswer
    ensures woven { result.status ≡ 0 → IsWeave text.now edition tree.now tree_messages.now steps.old steps.new messages.old messages.new result }
    ensures refused { result.status ≢ 0 → IsRefusal (ComesOfWeave text.now edition tree.now tree_messages.now) result × IsUntouched steps.old steps.new messages.old messages.new }
{
    settle(weave(alloc, text, edition, tree, tree_messages, steps, messages))
}
