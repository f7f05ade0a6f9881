//! What may be selected around positions, as JSON that is not longer than the limit.
ghost use Rattle.std.specs.Prelude.{◌≡◌, ◌⊎◌, ◌<◌, ◌≤◌, ◌+◌, ◌++◌, IfErr, IfOk, OnOk, [], codes, false, if◌then◌else◌, length, string_bytes};
ghost use Rattle.rast_messages.specs.declared.reply.Code.TheVariants.{InternalError};
ghost use Rattle.rast_server.specs.Limited.{IsOfPlaces, SaysTooLong};
ghost use Rattle.rast_server.specs.SelectionText.{IsLongerAt, IsPart, IsSelectionText, MaySelect, closing, nested_from};
ghost use Rattle.rast_server.specs.declared.limit.TheConstants.{LIMIT};

use crate::limit::{LIMIT, TOO_LONG, make_room};
use crate::server::NO_PLACE;
use rast_answers::{Extent, Listing};
use rast_document::{Document, Position};
use rast_messages::{Fault, push_comma, push_range};
use std::alloc::{AllocError, Global};

/// Adds ranges, each in the one after it, with no bracket closed.
fn push_open(json: &mut String, document: &Document, extents: &[Extent]) -> Result<(), AllocError>
    ensures { OnOk result (string_bytes json.new ++ closing (length extents.now)
        ≡ string_bytes json.old ++ nested_from document.now (codes "{\"range\":") extents.now) }
{
    let mut before = "{\"range\":";
    for extent in extents {
        json.push_str(before)?;
        push_range(json, document, extent.start, extent.end)?;
        before = ",\"parent\":{\"range\":";
    }
    Ok(())
}

/// Closes so many brackets.
#[tactic(auto, using(crate::proofs::Nested::closing_more))]
fn push_closing(json: &mut String, count: usize) -> Result<(), AllocError>
    ensures { OnOk result (string_bytes json.new ≡ string_bytes json.old ++ closing count) }
{
    'brackets: for _bracket in 0..count {
        json.push_str("}")?;
    }
    Ok(())
}

/// Adds ranges, each in the one after it.
fn push_nested(json: &mut String, document: &Document, extents: &[Extent]) -> Result<(), AllocError>
    ensures { OnOk result (string_bytes json.new ≡ string_bytes json.old ++ nested_from document.now (codes "{\"range\":") extents.now) }
{
    push_open(json, document, extents)?;
    push_closing(json, extents.len())
}

/// Adds a part of a list, after which a bracket closes it.
fn push_within(json: &mut String, part: &str) -> Result<(), Fault>
    requires { length (string_bytes json.old) + 1 ≤ LIMIT }
    ensures added { OnOk result (string_bytes json.new ≡ string_bytes json.old ++ part.now) }
    ensures within { OnOk result (length (string_bytes json.new) + 1 ≤ LIMIT) }
    ensures why { IfErr result (λ fault. (fault.code ≡ InternalError) ⊎ (SaysTooLong fault × (LIMIT < length (string_bytes json.old ++ part.now) + 1))) }
{
    if LIMIT - json.len() <= part.len() {
        return Err(TOO_LONG);
    }
    make_room(json, part.len() + 1)?;
    json.push_str(part)?;
    Ok(())
}

/// What may be selected around an offset. The error means out of memory.
#[tactic(auto, using(crate::proofs::Positions::may_select))]
fn extents_at(
    alloc: Global,
    listing: &Listing<'_>,
    offset: usize,
) -> Result<Vec<Extent>, AllocError>
    ensures { IfOk result (λ list. MaySelect listing.now.elements.now offset list.items) }
{
    listing.selection(alloc, offset)
}

/// Writes what may be selected around a position, after a comma if it is not the first. The errors: the position is none
/// of the document, or out of memory.
fn write_part(
    alloc: Global,
    part: &mut String,
    listing: &Listing<'_>,
    place: Position,
    is_first: &mut bool,
) -> Result<(), Fault>
    ensures part { OnOk result (IsPart listing.now.document.now listing.now.elements.now place (if is_first.old then [] else codes ",") (string_bytes part.new)) }
    ensures first { OnOk result (is_first.new ≡ false) }
    ensures why { IfErr result (λ fault. IsOfPlaces fault.code) }
{
    let offset = listing.document().offset(place).ok_or(NO_PLACE)?;
    let extents = extents_at(alloc, listing, offset)?;
    part.clear();
    push_comma(part, is_first)?;
    push_nested(part, listing.document(), extents.as_slice())?;
    Ok(())
}

/// What may be selected around each position. The errors: a position is none of the document, the answer would be longer
/// than the limit, or out of memory. The answer is written as far as it is within the limit, and has no more room than
/// that. Beside it memory is asked for the ranges around one position, and for their text: it is written whole before it
/// is known to fit.
pub fn selections(
    alloc: Global,
    listing: &Listing<'_>,
    positions: &[Position],
) -> Result<String, Fault>
    ensures text { IfOk result (λ json. IsSelectionText listing.now.document.now listing.now.elements.now positions.now (string_bytes json)) }
    ensures within { IfOk result (λ json. length (string_bytes json) ≤ LIMIT) }
    ensures why { IfErr result (λ fault. IsOfPlaces fault.code
        ⊎ (SaysTooLong fault × IsLongerAt listing.now.document.now listing.now.elements.now positions.now)) }
{
    let mut json = String::from_str(alloc, "[")?;
    let mut part = String::new(alloc);
    let mut is_first = true;
    for place in positions {
        write_part(alloc, &mut part, listing, *place, &mut is_first)?;
        push_within(&mut json, part.as_str())?;
    }
    json.push_str("]")?;
    Ok(json)
}
