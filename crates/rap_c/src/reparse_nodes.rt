//! A node in braces that is parsed again from its own text, in one list.
ghost use Rattle.std.specs.Prelude.{◌≡◌, ◌≤◌, ◌<◌, IfErr, IfOk};
ghost use Rattle.rap_c.specs.FrontNodes.{IsAgainNodes, IsFilledAgain};
ghost use Rattle.rap_c.specs.Listed.{rooms_of};
ghost use Rattle.rap_c.specs.Nodes.{AreNodesUntouched, IsNodesRefusal};
ghost use Rattle.rap_c.specs.Reparse.{ComesOfNode, ComesOfReparse, asked_kind};

use crate::answer::Fault;
use crate::element::{RapElement, RapMessage, RapNodesAnswer, settle_nodes};
use crate::numbers::edition_of;
use crate::prefix_nodes::fill_one_tree;
use crate::reading::{read, text_of};
use crate::reparse::reparser_of;
use ra_ap_parser::{Edition, ParseFault, Reparser};
use std::alloc::Global;

/// Parses the node again, and fills the rooms with it.
fn fill_again(
    alloc: Global,
    edition: Edition,
    reparser: Reparser,
    text: &str,
    elements: &mut [RapElement],
    messages: &mut [RapMessage],
    bytes: &mut [u8],
) -> Result<RapNodesAnswer, Fault>
    ensures filled { IfOk result (IsFilledAgain text.now edition reparser (rooms_of elements.old messages.old bytes.old) (rooms_of elements.new messages.new bytes.new)) }
    ensures fault { IfErr result (ComesOfNode text.now edition reparser) }
    ensures untouched { IfErr result (λ _. AreNodesUntouched (rooms_of elements.old messages.old bytes.old) (rooms_of elements.new messages.new bytes.new)) }
{
    let reading = read(alloc, edition, text)?;
    if !reparser.can_parse(&reading.input) {
        return Err(Fault::NoBrace);
    }
    match reparser.parse(alloc, &reading.input) {
        Ok(output) => Ok(fill_one_tree(&reading.lexed, &output, elements, messages, bytes)),
        Err(ParseFault::TooManyTokens) => Err(Fault::TooManyTokens),
        Err(ParseFault::NoMemory) => Err(Fault::NoMemory),
    }
}

/// Reads the numbers and the bytes, and fills the rooms.
fn reparse_nodes(
    alloc: Global,
    text: &[u8],
    edition: u32,
    node: u32,
    first_child: u32,
    parent: u32,
    elements: &mut [RapElement],
    messages: &mut [RapMessage],
    bytes: &mut [u8],
) -> Result<RapNodesAnswer, Fault>
    ensures filled { IfOk result (IsAgainNodes text.now edition (asked_kind node first_child parent) (rooms_of elements.old messages.old bytes.old) (rooms_of elements.new messages.new bytes.new)) }
    ensures fault { IfErr result (ComesOfReparse text.now edition (asked_kind node first_child parent)) }
    ensures untouched { IfErr result (λ _. AreNodesUntouched (rooms_of elements.old messages.old bytes.old) (rooms_of elements.new messages.new bytes.new)) }
{
    let edition = edition_of(edition)?;
    let reparser = reparser_of(node, first_child, parent)?;
    let text = text_of(text)?;
    fill_again(alloc, edition, reparser, text, elements, messages, bytes)
}

/// Parses a node again from its own text, by the kinds' numbers of the node, of the first thing in it and of the node
/// around it, and fills the slices with the nodes and leaves of its tree in preorder, trivia put back, with its
/// messages, and with their bytes. A number past the last kind's says that there is none. Where it is not one tree the
/// status is 1, and nothing is written. Returns how many of each there are, and where the node ends.
#[unsafe(no_mangle)]
pub extern "C" fn rap_reparse_nodes(
    alloc: Global,
    text: &[u8],
    edition: u32,
    node: u32,
    first_child: u32,
    parent: u32,
    elements: &mut [RapElement],
    messages: &mut [RapMessage],
    bytes: &mut [u8],
) -> RapNodesAnswer
    ensures reparsed { result.status ≤ 1 → IsAgainNodes text.now edition (asked_kind node first_child parent) (rooms_of elements.old messages.old bytes.old) (rooms_of elements.new messages.new bytes.new) result }
    ensures refused { 1 < result.status → IsNodesRefusal (ComesOfReparse text.now edition (asked_kind node first_child parent)) result × AreNodesUntouched (rooms_of elements.old messages.old bytes.old) (rooms_of elements.new messages.new bytes.new) }
{
    settle_nodes(reparse_nodes(
        alloc,
        text,
        edition,
        node,
        first_child,
        parent,
        elements,
        messages,
        bytes,
    ))
}
