//! What the body of a literal in quotes stands for.
ghost use Rattle.std.specs.Prelude.{◌≡◌, ◌<◌, ◌≤◌, ℕ, ◌∷◌, ◌++◌, [], if◌then◌else◌, true, length, encode_utf8, IfOk, OnOk, MatchOption, IfSome};
ghost use Rattle.std.specs.Str.{chars};
ghost use Rattle.std.specs.String.{string_bytes};
ghost use Rattle.rap_lexer.specs.Escape.{hex_limit, is_gap, is_single, reported};
ghost use Rattle.rap_lexer.specs.Run.{after_run};
ghost use Rattle.rap_lexer.specs.declared.escape.Fault.TheVariants.{NulInCStr};
ghost use Rattle.rap_lexer.specs.declared.escape.Mode.{Mode};
ghost use Rattle.rap_lexer.specs.declared.escape.Mode.TheVariants.{Str};
ghost use Rattle.rap_literals.specs.Piece.{begins_gap, bytes_in, IsWithin, Continues, HasFault};
ghost use Rattle.rap_literals.specs.Value.{begins_hex, StringValue, CharacterValue};

use crate::cursor::Cursor;
use crate::escape::character;
use rap_lexer::escape::Mode;
use std::alloc::{AllocError, Global};

/// A piece of a string's body.
#[derive(Clone, Copy)]
pub enum Piece {
    /// A backslash at the end of a line and what it skips.
    Gap,
    /// A byte that a `\x` names.
    Byte(u8),
    /// Any other character.
    Character(char),
}

/// What a backslash at the end of a line skips.
fn is_gap(c: char) -> bool
    ensures { result ≡ is_gap c }
{
    matches!(c, ' ' | '\t' | '\n' | '\r')
}

/// Passes over what a backslash at the end of a line skips.
fn skip_gap(rest: &mut Cursor<'_>)
    ensures { rest.new ≡ after_run is_gap rest.old }
{
    'gap: while let Some(c) = rest.first() {
        if !is_gap(c) {
            break;
        }
        let _ = rest.bump();
    }
}

/// Whether the character, which was taken, is a backslash at the end of a line.
fn begins_gap(first: char, rest: &Cursor<'_>) -> bool
    ensures { result ≡ begins_gap (first ∷ rest.now) }
{
    match rest.first() {
        Some(c) => first == '\\' && c == '\n',
        None => false,
    }
}

/// Whether the character, which was taken, begins a `\x`.
fn begins_hex(first: char, rest: &Cursor<'_>) -> bool
    ensures { result ≡ begins_hex (first ∷ rest.now) }
{
    match rest.first() {
        Some(c) => first == '\\' && c == 'x',
        None => false,
    }
}

/// Whether the character is a NUL in a C string.
fn is_nul(mode: Mode, c: char) -> bool
    ensures { reported mode (Ok c) ≡ (if result then NulInCStr ∷ [] else []) }
{
    mode == Mode::CStr && c == '\0'
}

/// The piece that a character is.
fn piece_of(c: char, is_hex: bool) -> Piece
    requires { is_hex ≡ true → c < 256 }
    ensures bytes { bytes_in result ≡ (if is_hex then c ∷ [] else encode_utf8 c) }
    ensures within { (mode : Mode) → (is_hex ≡ true → c ≤ hex_limit mode) → IsWithin mode result }
{
    if is_hex {
        Piece::Byte(c as u32 as u8)
    } else {
        Piece::Character(c)
    }
}

/// Reads the next piece of a string's body, of which the first character is already taken; `None` if it has a fault.
fn next_piece(mode: Mode, first: char, rest: &mut Cursor<'_>) -> Option<Piece>
    ensures reads { MatchOption result (HasFault mode (first ∷ rest.old)) (λ p. Continues mode (first ∷ rest.old) (bytes_in p) rest.new) }
    ensures within { IfSome result (IsWithin mode) }
    ensures shorter { length rest.new ≤ length rest.old }
{
    if begins_gap(first, rest) {
        skip_gap(rest);
        return Some(Piece::Gap);
    }
    let is_hex = begins_hex(first, rest);
    match character(mode, first, rest) {
        Err(_) => None,
        Ok(c) => {
            if is_nul(mode, c) {
                None
            } else {
                Some(piece_of(c, is_hex))
            }
        }
    }
}

/// Writes a piece at the end of a text.
fn push_text(text: &mut String, piece: Piece) -> Result<(), AllocError>
    requires { IsWithin Str piece }
    ensures { OnOk result (string_bytes text.new ≡ string_bytes text.old ++ bytes_in piece) }
{
    match piece {
        Piece::Gap => Ok(()),
        Piece::Byte(b) => text.push(b as char),
        Piece::Character(c) => text.push(c),
    }
}

/// Writes a piece at the end of bytes.
fn push_bytes(bytes: &mut Vec<u8>, piece: Piece) -> Result<(), AllocError>
    ensures { OnOk result (bytes.new.items ≡ bytes.old.items ++ bytes_in piece) }
{
    match piece {
        Piece::Gap => Ok(()),
        Piece::Byte(b) => bytes.extend_from_slice(&[b]),
        Piece::Character(c) => {
            let mut buffer = [0u8; 4];
            bytes.extend_from_slice(c.encode_utf8(&mut buffer).as_bytes())
        }
    }
}

/// The text that the body of a string stands for; `None` if the body has a fault.
pub fn text_of(alloc: Global, body: &str) -> Result<Option<String>, AllocError>
    ensures { IfOk result (λ value. MatchOption value (HasFault Str (chars body.now)) (λ s. StringValue Str (chars body.now) (string_bytes s))) }
{
    let mut rest = Cursor::new(body);
    let mut text = String::with_capacity(alloc, body.len())?;
    'body: while let Some(first) = rest.bump() {
        match next_piece(Mode::Str, first, &mut rest) {
            None => return Ok(None),
            Some(piece) => push_text(&mut text, piece)?,
        }
    }
    Ok(Some(text))
}

/// The bytes that the body of a string of this kind stands for; `None` if the body has a fault.
pub fn bytes_of(alloc: Global, mode: Mode, body: &str) -> Result<Option<Vec<u8>>, AllocError>
    ensures { IfOk result (λ value. MatchOption value (HasFault mode (chars body.now)) (λ v. StringValue mode (chars body.now) v.items)) }
{
    let mut rest = Cursor::new(body);
    let mut bytes = Vec::with_capacity(alloc, body.len())?;
    'body: while let Some(first) = rest.bump() {
        match next_piece(mode, first, &mut rest) {
            None => return Ok(None),
            Some(piece) => push_bytes(&mut bytes, piece)?,
        }
    }
    Ok(Some(bytes))
}

/// The character that the body of a character or byte stands for; `None` if it stands for none.
pub fn character_of(mode: Mode, body: &str) -> Option<char>
    requires { is_single mode ≡ true }
    ensures { MatchOption result ((value : ℕ) → ¬ CharacterValue mode (chars body.now) value) (CharacterValue mode (chars body.now)) }
{
    let mut rest = Cursor::new(body);
    match rest.bump() {
        None => None,
        Some('\r') => None,
        Some(first) => match character(mode, first, &mut rest) {
            Err(_) => None,
            Ok(c) => {
                if rest.first().is_some() {
                    None
                } else {
                    Some(c)
                }
            }
        },
    }
}
