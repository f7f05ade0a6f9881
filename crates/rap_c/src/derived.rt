//! Whether a text is in the core grammar, and the places of what is outside of it.
ghost use Rattle.std.specs.Prelude.{◌≡◌, ◌≢◌, ◌++◌, IfErr, IfOk, MatchResult, OnOk, length, map};
ghost use Rattle.rap_c.specs.Derived.{ComesOfCore, IsCoreAnswer, IsCoreRefusal, IsToldTo, core_refusal, place_row, place_rows};
ghost use Rattle.rap_c.specs.Filling.{overwritten};
ghost use Rattle.rap_c.specs.Tree.{ComesOfText};

use crate::answer::{Fault, OK};
use crate::filler::kind_number;
use crate::numbers::edition_of;
use crate::reading::text_of;
use ra_ap_parser::{Edition, TextFault};
use rap_core::{Place, Places, outside_core};
use std::alloc::{AllocError, Global};

/// A token or a node of a text: the number of its kind, 1 for a token and 0 for a node, and the bytes of the text at which
/// it begins and ends.
#[repr(C)]
#[derive(Clone, Copy, Debug, PartialEq, Eq)]
pub struct RapPlace {
    pub kind: u32,
    pub is_token: u32,
    pub start: usize,
    pub end: usize,
}

/// What a call returns: its status, 1 where the core grammar derives the text and else 0, how many places there are, and
/// how many bytes of the text they are about.
///
/// Where the status is a fault's, the other numbers are 0.
#[repr(C)]
#[derive(Clone, Copy, Debug, PartialEq, Eq)]
pub struct RapCoreAnswer {
    pub status: u32,
    pub derived: u32,
    pub places: usize,
    pub used: usize,
}

/// The result of a call that may have met a fault.
fn settle_core(outcome: Result<RapCoreAnswer, Fault>) -> RapCoreAnswer
    ensures { MatchResult outcome (λ answer. result ≡ answer) (λ fault. result ≡ core_refusal fault) }
{
    match outcome {
        Ok(answer) => answer,
        Err(fault) => RapCoreAnswer {
            status: fault.number(),
            derived: 0,
            places: 0,
            used: 0,
        },
    }
}

/// Adds places of tokens or of nodes in numbers.
fn push_rows(rows: &mut Vec<RapPlace>, is_token: u32, places: &[Place]) -> Result<(), AllocError>
    ensures { OnOk result (rows.new.items ≡ rows.old.items ++ map (place_row is_token) places.now) }
{
    'places: for place in places {
        rows.push(RapPlace {
            kind: kind_number(place.kind),
            is_token,
            start: place.start,
            end: place.end,
        })?;
    }
    Ok(())
}

/// The places in numbers: those of tokens, and after them those of nodes.
fn rows_of(alloc: Global, places: &Places) -> Result<Vec<RapPlace>, AllocError>
    ensures { IfOk result (λ rows. rows.items ≡ place_rows places.now) }
{
    let mut rows = Vec::new(alloc);
    push_rows(&mut rows, 1, places.tokens.as_slice())?;
    push_rows(&mut rows, 0, places.nodes.as_slice())?;
    Ok(rows)
}

/// Writes places into the room, as far as it reaches.
fn put_places(room: &mut [RapPlace], rows: &[RapPlace])
    ensures { room.new ≡ overwritten room.old rows.now }
{
    let count = rows.len().min(room.len());
    room[..count].copy_from_slice(&rows[..count]);
}

/// Fills the room with the places of what is outside.
fn fill_outside(alloc: Global, places: &Places, room: &mut [RapPlace]) -> Result<usize, Fault>
    ensures filled { IfOk result (λ count. room.new ≡ overwritten room.old (place_rows places.now)) }
    ensures count { IfOk result (λ count. count ≡ length (place_rows places.now)) }
    ensures fault { IfErr result (λ fault. fault ≡ Fault.NoMemory) }
    ensures untouched { IfErr result (λ _. room.new ≡ room.old) }
{
    let Ok(rows) = rows_of(alloc, places) else {
        return Err(Fault::NoMemory);
    };
    put_places(room, rows.as_slice());
    Ok(rows.len())
}

/// Tells whether the text is derived, and fills the room with the places of what is outside.
fn fill_core(
    alloc: Global,
    edition: Edition,
    text: &str,
    room: &mut [RapPlace],
) -> Result<RapCoreAnswer, Fault>
    ensures told { IfOk result (IsToldTo text.now edition room.old room.new) }
    ensures fault { IfErr result (ComesOfText text.now edition) }
    ensures untouched { IfErr result (λ _. room.new ≡ room.old) }
{
    let told = match outside_core(alloc, edition, text) {
        Ok(told) => told,
        Err(TextFault::TextTooLong) => return Err(Fault::TextTooLong),
        Err(TextFault::TooManyTokens) => return Err(Fault::TooManyTokens),
        Err(TextFault::NoMemory | TextFault::Refused(_)) => return Err(Fault::NoMemory),
    };
    let Some(outside) = told else {
        return Ok(RapCoreAnswer {
            status: OK,
            derived: 1,
            places: 0,
            used: text.len(),
        });
    };
    let places = fill_outside(alloc, &outside, room)?;
    Ok(RapCoreAnswer {
        status: OK,
        derived: 0,
        places,
        used: text.len(),
    })
}

/// Reads the number and the bytes, and fills the room.
fn derived(
    alloc: Global,
    text: &[u8],
    edition: u32,
    room: &mut [RapPlace],
) -> Result<RapCoreAnswer, Fault>
    ensures told { IfOk result (IsCoreAnswer text.now edition room.old room.new) }
    ensures fault { IfErr result (ComesOfCore text.now edition) }
    ensures untouched { IfErr result (λ _. room.new ≡ room.old) }
{
    let edition = edition_of(edition)?;
    let text = text_of(text)?;
    fill_core(alloc, edition, text, room)
}

/// Tells whether the core grammar derives the text as a file, and fills the slice with the places of what is outside of
/// it: tokens, and after them nodes. The answer says how many there are.
#[unsafe(no_mangle)]
pub extern "C" fn rap_core(
    alloc: Global,
    text: &[u8],
    edition: u32,
    room: &mut [RapPlace],
) -> RapCoreAnswer
    ensures told { result.status ≡ 0 → IsCoreAnswer text.now edition room.old room.new result }
    ensures refused { result.status ≢ 0 → IsCoreRefusal (ComesOfCore text.now edition) result × (room.new ≡ room.old) }
{
    settle_core(derived(alloc, text, edition, room))
}
