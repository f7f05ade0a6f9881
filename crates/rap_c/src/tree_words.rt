//! A text's tree, in words.
ghost use Rattle.std.specs.Prelude.{◌≡◌, ◌≢◌, IfErr, IfOk};
ghost use Rattle.rap_c.specs.Given.{IsRefusal};
ghost use Rattle.rap_c.specs.Tree.{ComesOfText, ComesOfTree};
ghost use Rattle.rap_c.specs.TreeWords.{AreWordsUntouched, IsFilledTreeWords, IsTreeWords};

use crate::answer::{Fault, RapAnswer, settle};
use crate::numbers::{edition_of, top_entry_of};
use crate::packer::Packer;
use crate::reading::text_of;
use ra_ap_parser::{Edition, TextFault, TopEntryPoint, parse_text};
use std::alloc::Global;

/// Fills the room with the words of the text's tree, and with those of the lexer's messages behind them.
fn fill_tree_words(
    alloc: Global,
    edition: Edition,
    entry: TopEntryPoint,
    text: &str,
    words: &mut [u32],
    messages: &mut [u8],
) -> Result<RapAnswer, Fault>
    ensures filled { IfOk result (IsFilledTreeWords text.now edition entry words.old words.new messages.old messages.new) }
    ensures fault { IfErr result (ComesOfText text.now edition) }
    ensures untouched { IfErr result (λ _. AreWordsUntouched words.old words.new messages.old messages.new) }
{
    let mut packer = Packer::new(words, messages);
    match parse_text(alloc, edition, entry, text, &mut packer) {
        Ok(parsed) => {
            // For the proof: it fits its type.
            let _count = parsed.lexed.len();
            let tree = packer.count;
            packer.add_errors_of(&parsed.lexed);
            Ok(packer.answer(tree))
        }
        Err(TextFault::TextTooLong) => Err(Fault::TextTooLong),
        Err(TextFault::TooManyTokens) => Err(Fault::TooManyTokens),
        Err(TextFault::NoMemory) => Err(Fault::NoMemory),
        Err(TextFault::Refused(never)) => match never {},
    }
}

/// Reads the numbers and the bytes, and fills the room.
fn tree_words(
    alloc: Global,
    text: &[u8],
    edition: u32,
    entry: u32,
    words: &mut [u32],
    messages: &mut [u8],
) -> Result<RapAnswer, Fault>
    ensures filled { IfOk result (IsTreeWords text.now edition entry words.old words.new messages.old messages.new) }
    ensures fault { IfErr result (ComesOfTree text.now edition entry) }
    ensures untouched { IfErr result (λ _. AreWordsUntouched words.old words.new messages.old messages.new) }
{
    let edition = edition_of(edition)?;
    let entry = top_entry_of(entry)?;
    let text = text_of(text)?;
    fill_tree_words(alloc, edition, entry, text, words, messages)
}

/// Parses the text from the top entry with the number, and fills the slices with the words of its tree, behind which
/// those of the lexer's messages stand, and with the bytes of all messages. The result says how many of each there are,
/// and how many of the words are the tree's.
#[unsafe(no_mangle)]
pub extern "C" fn rap_tree_words(
    alloc: Global,
    text: &[u8],
    edition: u32,
    entry: u32,
    words: &mut [u32],
    messages: &mut [u8],
) -> RapAnswer
    ensures tree { result.status ≡ 0 → IsTreeWords text.now edition entry words.old words.new messages.old messages.new result }
    ensures refused { result.status ≢ 0 → IsRefusal (ComesOfTree text.now edition entry) result × AreWordsUntouched words.old words.new messages.old messages.new }
{
    settle(tree_words(alloc, text, edition, entry, words, messages))
}
