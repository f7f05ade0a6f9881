//! A text's tokens.
ghost use Rattle.std.specs.Prelude.{◌≡◌, ◌≢◌, IfErr, IfOk};
ghost use Rattle.rap_c.specs.Tokens.{ComesOfLexing, ComesOfTokens, IsFilledTokens, IsTokens};
ghost use Rattle.rap_c.specs.Given.{IsRefusal, IsUntouched};

use crate::answer::{Fault, OK, RapAnswer, settle};
use crate::filler::Filler;
use crate::numbers::edition_of;
use crate::reading::{lex, text_of};
use crate::step::RapStep;
use ra_ap_parser::Edition;
use std::alloc::Global;

/// Fills the room with the text's tokens, and with the lexer's messages after them.
fn fill_tokens(
    alloc: Global,
    edition: Edition,
    text: &str,
    steps: &mut [RapStep],
    messages: &mut [u8],
) -> Result<RapAnswer, Fault>
    ensures filled { IfOk result (IsFilledTokens text.now edition steps.old steps.new messages.old messages.new) }
    ensures fault { IfErr result (ComesOfLexing text.now) }
    ensures untouched { IfErr result (λ _. IsUntouched steps.old steps.new messages.old messages.new) }
{
    let lexed = lex(alloc, edition, text)?;
    let mut filler = Filler::new(steps, messages);
    filler.add_tokens(&lexed);
    filler.add_errors_of(&lexed);
    Ok(filler.answer(OK, text.len()))
}

/// Reads the number and the bytes, and fills the room.
fn tokens(
    alloc: Global,
    text: &[u8],
    edition: u32,
    steps: &mut [RapStep],
    messages: &mut [u8],
) -> Result<RapAnswer, Fault>
    ensures filled { IfOk result (IsTokens text.now edition steps.old steps.new messages.old messages.new) }
    ensures fault { IfErr result (ComesOfTokens text.now edition) }
    ensures untouched { IfErr result (λ _. IsUntouched steps.old steps.new messages.old messages.new) }
{
    let edition = edition_of(edition)?;
    let text = text_of(text)?;
    fill_tokens(alloc, edition, text, steps, messages)
}

/// Divides the text into tokens, and fills the slices with a step for each, after which the lexer's messages stand, and
/// with the bytes of the messages. Returns how many of each there are.
#[unsafe(no_mangle)]
pub extern "C" fn rap_tokens(
    alloc: Global,
    text: &[u8],
    edition: u32,
    steps: &mut [RapStep],
    messages: &mut [u8],
) -> RapAnswer
    ensures tokens { result.status ≡ 0 → IsTokens text.now edition steps.old steps.new messages.old messages.new result }
    ensures refused { result.status ≢ 0 → IsRefusal (ComesOfTokens text.now edition) result × IsUntouched steps.old steps.new messages.old messages.new }
{
    settle(tokens(alloc, text, edition, steps, messages))
}
