//! A record of a parser's input, in numbers.
ghost use Rattle.std.specs.Prelude.{◌≡◌, ◌≢◌, ◌<◌, ◌+◌, ◌⊎◌, List, [], ◌∷◌, ◌++◌, length, map, drop, true, false, IfErr, IfOk, MatchOption, OnOk};
ghost use Rattle.rap_base.specs.Edition.{year};
ghost use Rattle.rap_base.specs.TokenTests.{is_token};
ghost use Rattle.rap_events.specs.Record.{Record, IsTokenRecord};
ghost use Rattle.rap_c.specs.Filling.{overwritten};
ghost use Rattle.rap_c.specs.Record.{IsInputOf, IsNoInput, row_of};
ghost use Rattle.rap_c.specs.Token.{record_in};

use crate::answer::Fault;
use crate::filler::kind_number;
use crate::numbers::edition_of;
use ra_ap_parser::{Edition, Input, NoMemory, SyntaxKind};
use std::alloc::Global;

/// A token of a parser's input: the number of its kind, that of the kind that an identifier may be read as instead, the
/// year of its edition, and 1 where it touches the next token, and else 0.
#[repr(C)]
#[derive(Clone, Copy, Debug, PartialEq, Eq)]
pub struct RapRecord {
    pub kind: u32,
    pub contextual_kind: u32,
    pub edition: u32,
    pub joint: u32,
}

/// The number of the last token's kind.
const LAST_TOKEN: u32 = 156;

/// What a record's numbers stand for.
#[derive(Clone, Copy)]
struct Token {
    kind: SyntaxKind,
    contextual_kind: SyntaxKind,
    edition: Edition,
    joint: bool,
}

/// The token's kind with the number, if it is one.
fn token_kind(number: u32) -> Option<SyntaxKind>
    ensures { MatchOption result (is_token number ≡ false) (λ kind. (kind ≡ number) × (is_token kind ≡ true)) }
{
    if number <= LAST_TOKEN {
        Some(SyntaxKind::from_u16(number as u16))
    } else {
        None
    }
}

/// What the record's numbers stand for, if it is a token's.
fn token_of(row: &RapRecord) -> Option<Token>
    ensures { MatchOption result ((r : Record) → IsTokenRecord r → row.now ≢ row_of r) (λ token. (row.now ≡ row_of (record_in token)) × IsTokenRecord (record_in token)) }
{
    if row.kind == 0 || row.joint > 1 {
        return None;
    }
    let kind = token_kind(row.kind)?;
    let contextual_kind = token_kind(row.contextual_kind)?;
    if contextual_kind != SyntaxKind::EOF && kind != SyntaxKind::IDENT {
        return None;
    }
    let Ok(edition) = edition_of(row.edition) else {
        return None;
    };
    Some(Token {
        kind,
        contextual_kind,
        edition,
        joint: row.joint == 1,
    })
}

/// Appends the token.
fn push_token(input: &mut Input, token: Token) -> Result<(), NoMemory>
    requires { IsTokenRecord (record_in token) }
    ensures { OnOk result (input.new ≡ input.old ++ record_in token ∷ []) }
{
    if token.kind != SyntaxKind::IDENT {
        return input.push_joint(token.kind, token.edition, token.joint);
    }
    input.push_ident(token.contextual_kind, token.edition)?;
    if token.joint {
        input.was_joint();
    }
    Ok(())
}

/// The input of these records.
pub fn input_of(alloc: Global, rows: &[RapRecord]) -> Result<Input, Fault>
    ensures input { IfOk result (IsInputOf rows.now) }
    ensures fault { IfErr result (λ fault. ((fault ≡ Fault.NoRecord) × IsNoInput rows.now) ⊎ (fault ≡ Fault.NoMemory)) }
{
    let Ok(mut input) = Input::with_capacity(alloc, rows.len()) else {
        return Err(Fault::NoMemory);
    };
    'rows: for row in rows {
        let Some(token) = token_of(row) else {
            return Err(Fault::NoRecord);
        };
        let Ok(()) = push_token(&mut input, token) else {
            return Err(Fault::NoMemory);
        };
    }
    Ok(input)
}

/// The year of the edition.
fn year_of(edition: Edition) -> u32
    ensures { result ≡ year edition }
{
    match edition {
        Edition::Edition2015 => 2015,
        Edition::Edition2018 => 2018,
        Edition::Edition2021 => 2021,
        Edition::Edition2024 => 2024,
    }
}

/// The record of the input at a place, in numbers.
fn row_at(input: &Input, i: usize) -> RapRecord
    requires { i < length input.now }
    ensures { map row_of (drop i input.now) ≡ result ∷ map row_of (drop (i + 1) input.now) }
{
    RapRecord {
        kind: kind_number(input.kind(i)),
        contextual_kind: kind_number(input.contextual_kind(i)),
        edition: year_of(input.edition(i)),
        joint: u32::from(input.is_joint(i)),
    }
}

/// Writes the records of the input, as far as there is room.
pub fn put_records(rows: &mut [RapRecord], input: &Input)
    ensures { rows.new ≡ overwritten rows.old (map row_of input.now) }
{
    let count = input.len().min(rows.len());
    'rows: for i in 0..count {
        rows[i] = row_at(input, i);
    }
}
