//! The symbols of a document as JSON that is not longer than the limit.
ghost use Rattle.std.specs.Prelude.{◌≡◌, ◌⊎◌, ◌+◌, ◌*◌, ◌<◌, ◌≤◌, ◌++◌, IfErr, IfOk, OnOk, length, slice_range, string_bytes, vec_len};
ghost use Rattle.json.specs.Print.{escape};
ghost use Rattle.rast_messages.specs.declared.reply.Code.TheVariants.{InternalError};
ghost use Rattle.rast_server.specs.Limited.{SaysTooLong};
ghost use Rattle.rast_server.specs.SymbolLengths.{opened_text, symbol_len, symbols_len};
ghost use Rattle.rast_server.specs.declared.limit.TheConstants.{LIMIT};

use crate::limit::{LIMIT, TOO_LONG, make_room};
use rast_answers::{Extent, Listing, Symbol};
use rast_document::Document;
use rast_messages::{Fault, push_comma, push_number, push_range, push_string};
use std::alloc::{AllocError, Global};

/// The text of a range; none if the range is none of the document.
fn text_at(document: &Document, extent: Extent) -> &str
    ensures { length (escape result.now) ≤ length (escape (slice_range (string_bytes document.now.text) extent.start extent.end)) }
{
    let text = document.text().get(extent.start..extent.end);
    text.unwrap_or("")
}

/// Adds a symbol up to the symbols inside it, whose list stays open.
#[tactic(auto, unfolding(crate::specs::SymbolLengths::opened_text))]
fn open_symbol(
    json: &mut String,
    document: &Document,
    symbol: &Symbol,
    name: &str,
) -> Result<(), AllocError>
    ensures { OnOk result (string_bytes json.new ≡ string_bytes json.old ++ opened_text document.now symbol.now name.now) }
{
    json.push_str("{\"name\":")?;
    push_string(json, name)?;
    let kind = symbol.kind.number();
    json.push_str(",\"kind\":")?;
    push_number(json, kind as usize)?;
    json.push_str(",\"range\":")?;
    push_range(json, document, symbol.extent.start, symbol.extent.end)?;
    json.push_str(",\"selectionRange\":")?;
    push_range(json, document, symbol.name.start, symbol.name.end)?;
    json.push_str(",\"children\":[")?;
    Ok(())
}

/// Writes a symbol up to the symbols inside it, whose list stays open, after a comma if it is not the first of its list.
fn write_part(
    part: &mut String,
    document: &Document,
    symbol: &Symbol,
    is_first: &mut bool,
) -> Result<(), AllocError>
    ensures { OnOk result (length (string_bytes part.new) + 2 ≤ symbol_len document.now symbol.now) }
{
    part.clear();
    push_comma(part, is_first)?;
    open_symbol(part, document, symbol, text_at(document, symbol.name))
}

/// Adds a part that opens a symbol, with room for what closes it and so many that are open. Returns what is left of the
/// limit.
fn push_within(json: &mut String, part: &str, count: usize, left: usize) -> Result<usize, Fault>
    requires { length (string_bytes json.old) + 2 * count + left + 1 ≡ LIMIT }
    ensures added { IfOk result (λ rest. length (string_bytes json.new) + 2 * (count + 1) + rest + 1 ≡ LIMIT) }
    ensures left { IfOk result (λ rest. rest + (length part.now + 2) ≡ left) }
    ensures why { IfErr result (λ fault. (fault.code ≡ InternalError) ⊎ (SaysTooLong fault × (left < length part.now + 2))) }
{
    if left < part.len() + 2 {
        return Err(TOO_LONG);
    }
    make_room(json, part.len() + 2 * count + 3)?;
    json.push_str(part)?;
    Ok(left - part.len() - 2)
}

/// Closes the symbols that end at an index or before it.
fn close_symbols(
    json: &mut String,
    ends: &mut Vec<usize>,
    index: usize,
    is_first: &mut bool,
) -> Result<(), AllocError>
    ensures { OnOk result (length (string_bytes json.new) + 2 * vec_len ends.new ≡ length (string_bytes json.old) + 2 * vec_len ends.old) }
{
    'open: for _step in 0..ends.len() {
        match ends.last() {
            Some(end) if *end <= index => {
                let _ = ends.pop();
                json.push_str("]}")?;
                *is_first = false;
            }
            _ => break,
        }
    }
    Ok(())
}

/// The symbols of a document, each in the one around it. The errors: they would be longer than the limit, or out of memory.
/// They are written as far as they are within the limit, and have no more room than that. Beside them memory is asked for
/// the list of all symbols, for what is open, and for the text of one symbol: it is written whole before it is known to
/// fit.
pub fn symbols(alloc: Global, listing: &Listing<'_>) -> Result<String, Fault>
    ensures within { IfOk result (λ text. length (string_bytes text) ≤ LIMIT) }
    ensures why { IfErr result (λ fault. (fault.code ≡ InternalError)
        ⊎ (SaysTooLong fault × (LIMIT < symbols_len listing.now.document.now listing.now.elements.now))) }
{
    let list = listing.symbols(alloc)?;
    let mut json = String::from_str(alloc, "[")?;
    let mut part = String::new(alloc);
    let mut ends: Vec<usize> = Vec::new(alloc);
    let mut is_first = true;
    let mut left = LIMIT - 2;
    for symbol in list.as_slice() {
        close_symbols(&mut json, &mut ends, symbol.index, &mut is_first)?;
        write_part(&mut part, listing.document(), symbol, &mut is_first)?;
        left = push_within(&mut json, part.as_str(), ends.len(), left)?;
        ends.push(symbol.after).map_err(AllocError::from)?;
        is_first = true;
    }
    close_symbols(&mut json, &mut ends, usize::MAX, &mut is_first)?;
    json.push_str("]")?;
    Ok(json)
}
