//! The parser's input of a text.
ghost use Rattle.std.specs.Prelude.{◌≡◌, ◌≢◌, IfErr, IfOk};
ghost use Rattle.rap_c.specs.Given.{IsRefusal};
ghost use Rattle.rap_c.specs.Records.{IsFilledRecords, IsRecords};
ghost use Rattle.rap_c.specs.Tokens.{ComesOfLexing, ComesOfTokens};

use crate::answer::{Fault, OK, RapAnswer, settle};
use crate::numbers::edition_of;
use crate::reading::{read, text_of};
use crate::record::{RapRecord, put_records};
use ra_ap_parser::Edition;
use std::alloc::Global;

/// Fills the room with the records of the text's tokens that are no trivia.
fn fill_records(
    alloc: Global,
    edition: Edition,
    text: &str,
    room: &mut [RapRecord],
) -> Result<RapAnswer, Fault>
    ensures filled { IfOk result (IsFilledRecords text.now edition room.old room.new) }
    ensures fault { IfErr result (ComesOfLexing text.now) }
    ensures untouched { IfErr result (λ _. room.new ≡ room.old) }
{
    let reading = read(alloc, edition, text)?;
    put_records(room, &reading.input);
    Ok(RapAnswer {
        status: OK,
        steps: reading.input.len(),
        message_bytes: 0,
        used: text.len(),
    })
}

/// Reads the number and the bytes, and fills the room.
fn records(
    alloc: Global,
    text: &[u8],
    edition: u32,
    room: &mut [RapRecord],
) -> Result<RapAnswer, Fault>
    ensures filled { IfOk result (IsRecords text.now edition room.old room.new) }
    ensures fault { IfErr result (ComesOfTokens text.now edition) }
    ensures untouched { IfErr result (λ _. room.new ≡ room.old) }
{
    let edition = edition_of(edition)?;
    let text = text_of(text)?;
    fill_records(alloc, edition, text, room)
}

/// Fills the slice with the parser's input of the text: a record for each token that is no trivia. The answer says how
/// many there are.
#[unsafe(no_mangle)]
pub extern "C" fn rap_records(
    alloc: Global,
    text: &[u8],
    edition: u32,
    room: &mut [RapRecord],
) -> RapAnswer
    ensures records { result.status ≡ 0 → IsRecords text.now edition room.old room.new result }
    ensures refused { result.status ≢ 0 → IsRefusal (ComesOfTokens text.now edition) result × (room.new ≡ room.old) }
{
    settle(records(alloc, text, edition, room))
}
