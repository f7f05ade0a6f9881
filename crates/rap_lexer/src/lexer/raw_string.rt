//! Raw strings, from what follows their `r`.
ghost use Rattle.std.specs.Prelude.{◌≡◌, ◌≢◌, ◌<◌, ◌^◌, ℕ, List, ◌∷◌, ◌++◌, MatchBool, if◌then◌else◌, length, replicate};
ghost use Rattle.std.specs.Str.{byte};
ghost use Rattle.rap_lexer.specs.Class.{is_in};
ghost use Rattle.rap_lexer.specs.Quoted.{IsRawString, RawRun};
ghost use Rattle.rap_lexer.specs.Lexeme.{with_remark};
ghost use Rattle.rap_lexer.specs.Run.{run_of, after_run, after_suffix};
ghost use Rattle.rap_lexer.specs.declared.lexer.run.Class.TheVariants.{Hash};

use crate::lexer::cursor::Cursor;
use crate::lexer::lexeme::{Lexeme, Remark};
use crate::lexer::run::{Class, eat_suffix, eat_text};
use rap_base::syntax_kind::SyntaxKind;

/// Takes a raw string whose `r` is taken.
pub fn raw_string(cursor: &mut Cursor<'_>, kind: SyntaxKind) -> Lexeme
    ensures { IsRawString kind cursor.old result cursor.new }
{
    let hashes = count_hashes(cursor);
    let starts = cursor.is_next('"');
    cursor.skip();
    if !starts {
        return Lexeme {
            kind,
            remark: Remark::InvalidRawString,
        };
    }
    let closed = eat_raw(cursor, hashes);
    ended(cursor, kind, closed && hashes <= 255)
}

/// The raw string that was taken, with its suffix if it is well formed.
fn ended(cursor: &mut Cursor<'_>, kind: SyntaxKind, well_formed: bool) -> Lexeme
    ensures token { result ≡ with_remark kind (if well_formed then Remark.Nothing else Remark.InvalidRawString) }
    ensures rest { cursor.new ≡ (if well_formed then after_suffix cursor.old else cursor.old) }
{
    if well_formed {
        eat_suffix(cursor);
        Lexeme::plain(kind)
    } else {
        Lexeme {
            kind,
            remark: Remark::InvalidRawString,
        }
    }
}

/// Takes the `#` that stand next, and counts them.
fn count_hashes(cursor: &mut Cursor<'_>) -> usize
    ensures count { result ≡ length (run_of (is_in Hash) cursor.old) }
    ensures rest { cursor.new ≡ after_run (is_in Hash) cursor.old }
{
    // For the proof: it fits its type.
    let _len = cursor.len();
    let mut count = 0usize;
    'hashes: while cursor.is_next('#') {
        cursor.skip();
        count += 1;
    }
    count
}

/// Takes a raw string up to and with its closing quote and as many `#`, and says whether they are there.
fn eat_raw(cursor: &mut Cursor<'_>, hashes: usize) -> bool
    ensures { RawRun hashes cursor.old result cursor.new }
{
    'body: loop {
        eat_text(cursor, Class::InRawString);
        let Some(c) = cursor.bump() else {
            return false;
        };
        if closes(c, cursor, hashes) {
            return true;
        }
    }
}

/// Takes so many `#`, if they stand next after a quote.
fn closes(c: char, cursor: &mut Cursor<'_>, hashes: usize) -> bool
    ensures { MatchBool result (c ∷ cursor.old ≡ byte "\"" ∷ (replicate hashes (byte "#") ++ cursor.new)) ((cursor.new ≡ cursor.old) × ((end : List ℕ) → c ∷ cursor.old ≢ byte "\"" ∷ (replicate hashes (byte "#") ++ end))) }
{
    if c == '"' {
        eat_hashes(cursor, hashes)
    } else {
        false
    }
}

/// Takes so many `#`, if they stand next.
fn eat_hashes(cursor: &mut Cursor<'_>, hashes: usize) -> bool
    ensures { MatchBool result (cursor.old ≡ replicate hashes (byte "#") ++ cursor.new) ((cursor.new ≡ cursor.old) × ((end : List ℕ) → cursor.old ≢ replicate hashes (byte "#") ++ end)) }
{
    let mut ahead = Cursor::new(cursor.as_str());
    for _ in 0..hashes {
        if !ahead.is_next('#') {
            return false;
        }
        ahead.skip();
    }
    *cursor = ahead;
    true
}
