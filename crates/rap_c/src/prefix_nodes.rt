//! A prefix of a text, in one list.
ghost use Rattle.std.specs.Prelude.{◌≡◌, ◌≤◌, ◌<◌, ◌+◌, ◌*◌, IfErr, IfOk, length, true};
ghost use Rattle.rap_base.specs.declared.edition.Edition.{Edition};
ghost use Rattle.rap_base.specs.Limits.{max_tokens};
ghost use Rattle.rap_events.specs.Cover.{covers};
ghost use Rattle.rap_events.specs.Forest.{flat, used};
ghost use Rattle.rap_lexed.specs.Input.{records};
ghost use Rattle.rap_c.specs.FrontNodes.{IsFilledFront, IsFrontNodes, IsOutputList};
ghost use Rattle.rap_c.specs.Listed.{rooms_of};
ghost use Rattle.rap_c.specs.Nodes.{AreNodesUntouched, IsNodesRefusal};
ghost use Rattle.rap_c.specs.Prefix.{ComesOfFront, ComesOfPrefix};

use crate::answer::{Fault, NO_TREE};
use crate::element::{RapElement, RapMessage, RapNodesAnswer, settle_nodes};
use crate::nodes::fill_list;
use crate::numbers::{edition_of, prefix_entry_of};
use crate::reading::{read, text_of};
use ra_ap_parser::{Edition, LexedStr, Output, ParseFault, PrefixEntryPoint, is_one_tree};
use rap_lexed::used::used_bytes;
use std::alloc::Global;

/// Fills the rooms with the tree that the output is, trivia put back, and with the parser's messages; where it is no
/// tree, with nothing.
pub fn fill_one_tree(
    lexed: &LexedStr<'_>,
    output: &Output,
    elements: &mut [RapElement],
    messages: &mut [RapMessage],
    bytes: &mut [u8],
) -> RapNodesAnswer
    requires prefix { (edition : Edition) × (covers (records lexed.now.tokens edition) output.now ≡ true) }
    requires few { length (flat output.now) ≤ 256 * (max_tokens + 1) }
    requires used { used output.now ≤ max_tokens }
    ensures { IsOutputList lexed.now.tokens output.now (rooms_of elements.old messages.old bytes.old) (rooms_of elements.new messages.new bytes.new) result }
{
    let used = used_bytes(lexed, output);
    if is_one_tree(output) {
        fill_list(lexed, output, &[], used, elements, messages, bytes)
    } else {
        RapNodesAnswer {
            status: NO_TREE,
            elements: 0,
            messages: 0,
            message_bytes: 0,
            used,
        }
    }
}

/// Parses a prefix of the text, and fills the rooms with it.
fn fill_front(
    alloc: Global,
    edition: Edition,
    entry: PrefixEntryPoint,
    text: &str,
    elements: &mut [RapElement],
    messages: &mut [RapMessage],
    bytes: &mut [u8],
) -> Result<RapNodesAnswer, Fault>
    ensures filled { IfOk result (IsFilledFront text.now edition entry (rooms_of elements.old messages.old bytes.old) (rooms_of elements.new messages.new bytes.new)) }
    ensures fault { IfErr result (ComesOfFront text.now edition) }
    ensures untouched { IfErr result (λ _. AreNodesUntouched (rooms_of elements.old messages.old bytes.old) (rooms_of elements.new messages.new bytes.new)) }
{
    let reading = read(alloc, edition, text)?;
    match entry.parse(alloc, &reading.input) {
        Ok(output) => Ok(fill_one_tree(&reading.lexed, &output, elements, messages, bytes)),
        Err(ParseFault::TooManyTokens) => Err(Fault::TooManyTokens),
        Err(ParseFault::NoMemory) => Err(Fault::NoMemory),
    }
}

/// Reads the numbers and the bytes, and fills the rooms.
fn prefix_nodes(
    alloc: Global,
    text: &[u8],
    edition: u32,
    entry: u32,
    elements: &mut [RapElement],
    messages: &mut [RapMessage],
    bytes: &mut [u8],
) -> Result<RapNodesAnswer, Fault>
    ensures filled { IfOk result (IsFrontNodes text.now edition entry (rooms_of elements.old messages.old bytes.old) (rooms_of elements.new messages.new bytes.new)) }
    ensures fault { IfErr result (ComesOfPrefix text.now edition entry) }
    ensures untouched { IfErr result (λ _. AreNodesUntouched (rooms_of elements.old messages.old bytes.old) (rooms_of elements.new messages.new bytes.new)) }
{
    let edition = edition_of(edition)?;
    let entry = prefix_entry_of(entry)?;
    let text = text_of(text)?;
    fill_front(alloc, edition, entry, text, elements, messages, bytes)
}

/// Parses a prefix of the text from the prefix entry with this number, and fills the slices with the nodes and leaves of
/// its tree in preorder, trivia put back, with its messages, and with their bytes. Where it is not one tree the status
/// is 1, and nothing is written. Returns how many of each there are, and where what was read ends.
#[unsafe(no_mangle)]
pub extern "C" fn rap_prefix_nodes(
    alloc: Global,
    text: &[u8],
    edition: u32,
    entry: u32,
    elements: &mut [RapElement],
    messages: &mut [RapMessage],
    bytes: &mut [u8],
) -> RapNodesAnswer
    ensures prefix { result.status ≤ 1 → IsFrontNodes text.now edition entry (rooms_of elements.old messages.old bytes.old) (rooms_of elements.new messages.new bytes.new) result }
    ensures refused { 1 < result.status → IsNodesRefusal (ComesOfPrefix text.now edition entry) result × AreNodesUntouched (rooms_of elements.old messages.old bytes.old) (rooms_of elements.new messages.new bytes.new) }
{
    settle_nodes(prefix_nodes(alloc, text, edition, entry, elements, messages, bytes))
}
