//! Rows: a text with the hash of what is printed of it, a line each.
//!
//! `EDITION WAY HASH TEXT`: the year, how the text is read, the hash in sixteen hexadecimal digits, and the text in
//! quotes.
ghost use Rattle.std.specs.Prelude.{◌≡◌, IfOk, IfSome, string_bytes};
ghost use Rattle.rast_replay.specs.Hash.{fnv1a_of};
ghost use Rattle.rast_replay.specs.Row.{IsRow, row_line};
ghost use Rattle.rast_replay.specs.Way.{IsHash, name_of_way};

use crate::hash::{BASIS, fnv1a};
use crate::unquote::unquoted;
use crate::way::{Way, push_way, read_way};
use ra_ap_parser::{Edition, NoMemory, TextFault, TopEntryPoint};
use rast_common::indented::IndentedText;
use rast_common::quote::push_quoted;
use rast_print::asked::Asked;
use rast_print::listing::{ListFault, list};
use rast_print::print_text::print_text;
use std::alloc::{AllocError, Global};
use std::fmt::Write as _;

/// The hash of lines. They are written to memory for it: a row's text is short.
fn lines_hash(alloc: Global, lines: &IndentedText) -> Result<u64, AllocError>
    ensures { IfOk result (λ hash. hash ≡ fnv1a_of lines.now) }
{
    let mut bytes = Vec::new(alloc);
    let Ok(()) = lines.write_to(&mut bytes) else {
        return Err(AllocError);
    };
    Ok(fnv1a(BASIS, bytes.as_slice()))
}

/// The hash of the lines of the text's tree and messages.
#[tactic(auto, using(crate::proofs::Hashes::tree_hashed))]
fn tree_hash(
    alloc: Global,
    edition: Edition,
    entry: TopEntryPoint,
    text: &str,
) -> Result<u64, TextFault<NoMemory>>
    ensures { IfOk result (IsHash text.now edition (Way.Tree entry)) }
{
    let printer = print_text(alloc, edition, entry, text)?;
    let Ok(tree) = lines_hash(alloc, &printer.tree) else {
        return Err(TextFault::NoMemory);
    };
    Ok(fnv1a(tree, printer.messages.as_bytes()))
}

/// The hash of what is listed of the text. `None` if nothing is listed, since a brace is missing.
fn list_hash(
    alloc: Global,
    edition: Edition,
    asked: Asked,
    text: &str,
) -> Result<Option<u64>, TextFault<NoMemory>>
    ensures { IfOk result (λ o. IfSome o (IsHash text.now edition (Way.List asked))) }
{
    let lines = match list(alloc, edition, asked, text) {
        Ok(lines) => lines,
        Err(ListFault::NoBrace) => return Ok(None),
        Err(ListFault::TextTooLong) => return Err(TextFault::TextTooLong),
        Err(ListFault::TooManyTokens) => return Err(TextFault::TooManyTokens),
        Err(ListFault::NoMemory) => return Err(TextFault::NoMemory),
    };
    match lines_hash(alloc, &lines) {
        Ok(hash) => Ok(Some(hash)),
        Err(_) => Err(TextFault::NoMemory),
    }
}

/// The hash of what is printed of the text that is read so. `None` if nothing is printed.
fn hash_of(
    alloc: Global,
    edition: Edition,
    way: Way,
    text: &str,
) -> Result<Option<u64>, TextFault<NoMemory>>
    ensures { IfOk result (λ o. IfSome o (IsHash text.now edition way)) }
{
    match way {
        Way::Tree(entry) => {
            let hash = tree_hash(alloc, edition, entry, text)?;
            Ok(Some(hash))
        }
        Way::List(asked) => list_hash(alloc, edition, asked, text),
    }
}

/// The row of the line's text as this library reads it. `None` if the line is no row.
pub fn row_of(alloc: Global, line: &str) -> Result<Option<String>, TextFault<NoMemory>>
    ensures { IfOk result (λ o. IfSome o (λ row. IsRow (string_bytes row))) }
{
    let Some((year, rest)) = line.split_once(' ') else {
        return Ok(None);
    };
    let Some((name, rest)) = rest.split_once(' ') else {
        return Ok(None);
    };
    let Some((_hash, quoted)) = rest.split_once(' ') else {
        return Ok(None);
    };
    let Ok(edition) = year.parse::<Edition>() else {
        return Ok(None);
    };
    let Some(way) = read_way(name) else {
        return Ok(None);
    };
    let Ok(text) = unquoted(alloc, quoted) else {
        return Err(TextFault::NoMemory);
    };
    let Some(text) = text else {
        return Ok(None);
    };
    let hash = hash_of(alloc, edition, way, text.as_str())?;
    let Some(hash) = hash else {
        return Ok(None);
    };
    match written(alloc, year, &way, hash, text.as_str()) {
        Ok(row) => Ok(Some(row)),
        Err(_) => Err(TextFault::NoMemory),
    }
}

/// The row as a line.
fn written(
    alloc: Global,
    year: &str,
    way: &Way,
    hash: u64,
    text: &str,
) -> Result<String, AllocError>
    ensures { IfOk result (λ row. string_bytes row ≡ row_line year.now (name_of_way way.now) hash text.now) }
{
    let mut row = String::new(alloc);
    write!(row, "{year} ")?;
    push_way(&mut row, way)?;
    write!(row, " {hash:016x} ")?;
    push_quoted(&mut row, text)?;
    Ok(row)
}
