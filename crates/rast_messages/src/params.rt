//! What the parameters of a message say.
ghost use Rattle.std.specs.Prelude.{◌≡◌, IfOk, map, option_and_then, option_map};
ghost use Rattle.serde_json.specs.Find.{as_number, as_u64};
ghost use Rattle.serde_json.specs.View.{view};
ghost use Rattle.rast_messages.specs.Params.{change_in, changes_in, positions_in, said, uri_in, version_in};
ghost use Rattle.rast_messages.specs.Places.{position_in, span_in};

use rast_document::{Change, Encoding, Position, Span};
use serde_json::Value;
use std::alloc::{AllocError, Global};

/// The encoding of positions: UTF-8 if the editor offers it, else UTF-16, unless of the two that are left it offers
/// UTF-32 alone.
pub fn encoding_of(params: &Value) -> Encoding {
    let offered = params.pointer("/capabilities/general/positionEncodings");
    if offers(offered, "utf-8") {
        Encoding::Utf8
    } else if offers(offered, "utf-32") && !offers(offered, "utf-16") {
        Encoding::Utf32
    } else {
        Encoding::Utf16
    }
}

/// Whether a list of names has this one.
fn offers(list: Option<&Value>, name: &str) -> bool {
    let Some(list) = list.and_then(Value::as_array) else {
        return false;
    };
    for value in list.as_slice() {
        if value.as_str() == Some(name) {
            return true;
        }
    }
    false
}

/// The name of the document that a message is about.
pub fn uri_of(params: &Value) -> Option<&str>
    ensures { option_map (λ uri. uri.now) result ≡ uri_in (view params.now) }
{
    params.pointer("/textDocument/uri").and_then(Value::as_str)
}

/// The version of the document that a message is about.
pub fn version_of(params: &Value) -> Option<i64>
    ensures { result ≡ version_in (view params.now) }
{
    params.pointer("/textDocument/version")?.as_i64()
}

/// A number of lines or units.
fn count_of(value: &Value) -> Option<usize>
    ensures { result ≡ option_and_then as_u64 (as_number (view value.now)) }
{
    let count = value.as_u64()?;
    Some(count as usize)
}

/// A position.
pub fn position_in(value: &Value) -> Option<Position>
    ensures { result ≡ position_in (view value.now) }
{
    let line = count_of(value.get("line")?)?;
    let character = count_of(value.get("character")?)?;
    Some(Position { line, character })
}

/// A range.
pub fn span_in(value: &Value) -> Option<Span>
    ensures { result ≡ span_in (view value.now) }
{
    let start = position_in(value.get("start")?)?;
    let end = position_in(value.get("end")?)?;
    Some(Span { start, end })
}

/// A change: of a range, or of the whole text if there is none.
fn change_in(value: &Value) -> Option<Change<'_>>
    ensures { option_map said result ≡ change_in (view value.now) }
{
    let text = value.get("text").and_then(Value::as_str)?;
    let span = match value.get("range") {
        None => None,
        Some(range) => Some(span_in(range)?),
    };
    Some(Change { span, text })
}

/// The changes of a `didChange`. `None` if they are none. The error means out of memory.
pub fn changes_in(alloc: Global, params: &Value) -> Result<Option<Vec<Change<'_>>>, AllocError>
    ensures { IfOk result (λ found. option_map (λ changes. map said changes.items) found ≡ changes_in (view params.now)) }
{
    let Some(list) = params.get("contentChanges").and_then(Value::as_array) else {
        return Ok(None);
    };
    let mut changes = Vec::new(alloc);
    for value in list.as_slice() {
        let Some(change) = change_in(value) else {
            return Ok(None);
        };
        changes.push(change)?;
    }
    Ok(Some(changes))
}

/// The positions of a `selectionRange`. `None` if they are none. The error means out of memory.
pub fn positions_in(alloc: Global, params: &Value) -> Result<Option<Vec<Position>>, AllocError>
    ensures { IfOk result (λ found. option_map (λ positions. positions.items) found ≡ positions_in (view params.now)) }
{
    let Some(list) = params.get("positions").and_then(Value::as_array) else {
        return Ok(None);
    };
    let mut positions = Vec::new(alloc);
    for value in list.as_slice() {
        let Some(position) = position_in(value) else {
            return Ok(None);
        };
        positions.push(position)?;
    }
    Ok(Some(positions))
}
