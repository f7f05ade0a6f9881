//! A text's tree, in one list.
ghost use Rattle.std.specs.Prelude.{◌≡◌, ◌≢◌, ◌≤◌, ◌+◌, ◌*◌, IfErr, IfOk, length, true};
ghost use Rattle.ra_ap_parser.specs.Headline.{IsParsed};
ghost use Rattle.rap_base.specs.declared.edition.Edition.{Edition};
ghost use Rattle.rap_base.specs.Limits.{max_tokens};
ghost use Rattle.rap_events.specs.Cover.{covers};
ghost use Rattle.rap_events.specs.Forest.{flat, one_tree, splits_placed, used};
ghost use Rattle.rap_lexed.specs.Input.{records};
ghost use Rattle.rap_lexed.specs.LexedStr.{AreTokens, joined};
ghost use Rattle.rap_lexed.specs.StrForest.{str_flat, str_joined, str_one_tree};
ghost use Rattle.rap_lexed.specs.StrSink.{Takes};
ghost use Rattle.rap_lexed.specs.Trivia.{TreeTouches, front_of, with_trivia};
ghost use Rattle.rap_ranged.specs.Listing.{Rising};
ghost use Rattle.rap_c.specs.Lays.{LaysStep};
ghost use Rattle.rap_c.specs.Listed.{IsListGiven, rooms_of};
ghost use Rattle.rap_c.specs.Nodes.{AreNodesUntouched, IsFilledNodes, IsNodes, IsNodesRefusal};
ghost use Rattle.rap_c.specs.Tree.{ComesOfText, ComesOfTree};

use crate::answer::{Fault, OK};
use crate::element::{RapElement, RapMessage, RapNodesAnswer, settle_nodes};
use crate::node_filler::NodeFiller;
use crate::numbers::{edition_of, top_entry_of};
use crate::reading::text_of;
use crate::waiting::{Waiting, waiting_of};
use ra_ap_parser::{
    Edition, LexFault, LexedStr, MAX_TEXT, MAX_TOKENS, Output, ParseFault, TopEntryPoint,
};
use rap_lexed::lexed_str::significant_tokens;
use std::alloc::Global;

/// The fault of a text whose tokens are out of memory.
fn without_memory(alloc: Global, edition: Edition, text: &str) -> Fault
    requires { length text.now ≤ MAX_TEXT }
    ensures { ComesOfText text.now edition result }
{
    if significant_tokens(alloc, edition, text) > MAX_TOKENS {
        Fault::TooManyTokens
    } else {
        Fault::NoMemory
    }
}

/// A text's tokens, and the output of their parse.
#[derive(Drop)]
struct Whole<'t> {
    lexed: LexedStr<'t>,
    output: Output,
}

/// Divides the text into tokens, and parses them from the entry.
fn whole_of<'t>(
    alloc: Global,
    edition: Edition,
    entry: TopEntryPoint,
    text: &'t str,
) -> Result<Whole<'t>, Fault>
    ensures parsed { IfOk result (λ whole. IsParsed text.now edition entry whole.lexed whole.output) }
    ensures joined { IfOk result (λ whole. str_joined (with_trivia whole.lexed.tokens whole.output) ≡ text.now) }
    ensures few { IfOk result (λ _. ComesOfText text.now edition Fault.NoMemory) }
    ensures fault { IfErr result (ComesOfText text.now edition) }
{
    let lexed = match LexedStr::new(alloc, edition, text) {
        Ok(lexed) => lexed,
        Err(LexFault::TextTooLong) => return Err(Fault::TextTooLong),
        Err(LexFault::NoMemory) => return Err(without_memory(alloc, edition, text)),
    };
    // For the proof: it fits its type.
    let _count = lexed.len();
    let Ok(input) = lexed.to_input(alloc, edition) else {
        return Err(without_memory(alloc, edition, text));
    };
    match entry.parse(alloc, &input) {
        Ok(output) => {
            // For the proof: what holds of every output.
            let _steps = output.iter();
            Ok(Whole { lexed, output })
        }
        Err(ParseFault::TooManyTokens) => Err(Fault::TooManyTokens),
        Err(ParseFault::NoMemory) => Err(Fault::NoMemory),
    }
}

/// Passes the tree of an output over a text to a filler.
fn walk(lexed: &LexedStr<'_>, output: &Output, filler: &mut NodeFiller<'_, '_, '_>)
    requires tree { one_tree output.now ≡ true }
    requires prefix { (edition : Edition) × (covers (records lexed.now.tokens edition) output.now ≡ true) }
    ensures taken { Takes LaysStep filler.old (str_flat (with_trivia lexed.now.tokens output.now)) filler.new }
    ensures one { str_one_tree (with_trivia lexed.now.tokens output.now) ≡ true }
    ensures touching { TreeTouches lexed.now.tokens output.now }
    ensures front { str_joined (with_trivia lexed.now.tokens output.now) ≡ joined (front_of (used output.now) lexed.now.tokens) }
    ensures few { length (str_flat (with_trivia lexed.now.tokens output.now)) ≤ length (flat output.now) + (9 * used output.now + length lexed.now.tokens) }
    ensures splits { splits_placed output.now ≡ true }
    ensures tokens { AreTokens lexed.now.tokens }
{
    // For the proof: what holds of every output, and that the number of tokens fits its type.
    let _steps = output.iter();
    let _count = lexed.len();
    match lexed.intersperse_trivia(output, filler) {
        Ok(_whole) => {}
        Err(never) => match never {},
    }
}

/// Fills the rooms with the tree of an output over a text, and with these messages of the lexer among its own.
pub fn fill_list(
    lexed: &LexedStr<'_>,
    output: &Output,
    waiting: &[Waiting<'_>],
    end: usize,
    elements: &mut [RapElement],
    messages: &mut [RapMessage],
    bytes: &mut [u8],
) -> RapNodesAnswer
    requires tree { one_tree output.now ≡ true }
    requires prefix { (edition : Edition) × (covers (records lexed.now.tokens edition) output.now ≡ true) }
    requires few { length (flat output.now) ≤ 256 * (max_tokens + 1) }
    requires used { used output.now ≤ max_tokens }
    requires waits { Rising 0 waiting.now (length (str_joined (with_trivia lexed.now.tokens output.now))) }
    ensures { IsListGiven lexed.now.tokens output.now waiting.now end (rooms_of elements.old messages.old bytes.old) (rooms_of elements.new messages.new bytes.new) result }
{
    let mut filler = NodeFiller::new(elements, messages, bytes, waiting);
    walk(lexed, output, &mut filler);
    RapNodesAnswer {
        status: OK,
        elements: filler.element_counts.count,
        messages: filler.message_counts.count,
        message_bytes: filler.message_counts.said,
        used: end,
    }
}

/// Fills the rooms with the text's tree, and with the messages of the parser and of the lexer.
fn fill_nodes(
    alloc: Global,
    edition: Edition,
    entry: TopEntryPoint,
    text: &str,
    elements: &mut [RapElement],
    messages: &mut [RapMessage],
    bytes: &mut [u8],
) -> Result<RapNodesAnswer, Fault>
    ensures filled { IfOk result (IsFilledNodes text.now edition entry (rooms_of elements.old messages.old bytes.old) (rooms_of elements.new messages.new bytes.new)) }
    ensures fault { IfErr result (ComesOfText text.now edition) }
    ensures untouched { IfErr result (λ _. AreNodesUntouched (rooms_of elements.old messages.old bytes.old) (rooms_of elements.new messages.new bytes.new)) }
{
    let whole = whole_of(alloc, edition, entry, text)?;
    // For the proof: it fits its type.
    let _count = whole.lexed.len();
    let Ok(waiting) = waiting_of(alloc, &whole.lexed) else {
        return Err(Fault::NoMemory);
    };
    Ok(fill_list(
        &whole.lexed,
        &whole.output,
        waiting.as_slice(),
        text.len(),
        elements,
        messages,
        bytes,
    ))
}

/// Reads the numbers and the bytes, and fills the rooms.
fn nodes(
    alloc: Global,
    text: &[u8],
    edition: u32,
    entry: u32,
    elements: &mut [RapElement],
    messages: &mut [RapMessage],
    bytes: &mut [u8],
) -> Result<RapNodesAnswer, Fault>
    ensures filled { IfOk result (IsNodes text.now edition entry (rooms_of elements.old messages.old bytes.old) (rooms_of elements.new messages.new bytes.new)) }
    ensures fault { IfErr result (ComesOfTree text.now edition entry) }
    ensures untouched { IfErr result (λ _. AreNodesUntouched (rooms_of elements.old messages.old bytes.old) (rooms_of elements.new messages.new bytes.new)) }
{
    let edition = edition_of(edition)?;
    let entry = top_entry_of(entry)?;
    let text = text_of(text)?;
    fill_nodes(alloc, edition, entry, text, elements, messages, bytes)
}

/// Parses the text from the top entry with the number, and fills the slices with the nodes and leaves of its tree in
/// preorder, with its messages and the lexer's in the order of the text, and with the bytes of all messages. Returns how
/// many of each there are.
#[unsafe(no_mangle)]
pub extern "C" fn rap_nodes(
    alloc: Global,
    text: &[u8],
    edition: u32,
    entry: u32,
    elements: &mut [RapElement],
    messages: &mut [RapMessage],
    bytes: &mut [u8],
) -> RapNodesAnswer
    ensures nodes { result.status ≡ 0 → IsNodes text.now edition entry (rooms_of elements.old messages.old bytes.old) (rooms_of elements.new messages.new bytes.new) result }
    ensures refused { result.status ≢ 0 → IsNodesRefusal (ComesOfTree text.now edition entry) result × AreNodesUntouched (rooms_of elements.old messages.old bytes.old) (rooms_of elements.new messages.new bytes.new) }
{
    settle_nodes(nodes(alloc, text, edition, entry, elements, messages, bytes))
}
