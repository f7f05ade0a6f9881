//! Literals in quotes and lifetimes, from what follows their opening quote.
ghost use Rattle.std.specs.Prelude.{◌≡◌, if◌then◌else◌};
ghost use Rattle.rap_lexer.specs.Lexeme.{literal};
ghost use Rattle.rap_lexer.specs.Quoted.{takes_next, stops_at, is_one_character, starts_lifetime, is_raw_lifetime, StringRun, CharacterRun, CharacterEnds, IsLiteral, IsCommonLifetime, IsLifetime, IsTick};
ghost use Rattle.rap_lexer.specs.Run.{after_suffix};

use crate::escape::Mode;
use crate::lexer::cursor::Cursor;
use crate::lexer::lexeme::{Lexeme, Remark};
use crate::lexer::run::{Class, eat_run, eat_suffix, eat_text, is_next_in};
use rap_base::syntax_kind::SyntaxKind;

/// Takes a string whose opening quote is taken.
pub fn string(cursor: &mut Cursor<'_>, kind: SyntaxKind, mode: Mode) -> Lexeme
    ensures { IsLiteral StringRun kind mode cursor.old result cursor.new }
{
    let closed = eat_string(cursor);
    ended(cursor, kind, mode, closed)
}

/// Takes a character or byte whose opening quote is taken.
pub fn character(cursor: &mut Cursor<'_>, kind: SyntaxKind, mode: Mode) -> Lexeme
    ensures { IsLiteral CharacterEnds kind mode cursor.old result cursor.new }
{
    let closed = eat_character(cursor);
    ended(cursor, kind, mode, closed)
}

/// The literal that was taken, with its suffix if it is closed.
fn ended(cursor: &mut Cursor<'_>, kind: SyntaxKind, mode: Mode, closed: bool) -> Lexeme
    ensures token { result ≡ literal kind mode closed }
    ensures rest { cursor.new ≡ (if closed then after_suffix cursor.old else cursor.old) }
{
    if closed {
        eat_suffix(cursor);
    }
    Lexeme::literal(kind, mode, closed)
}

/// Takes a string up to and with its closing quote, and says whether there is one.
fn eat_string(cursor: &mut Cursor<'_>) -> bool
    ensures { StringRun cursor.old result cursor.new }
{
    'body: loop {
        eat_text(cursor, Class::InString);
        let Some(c) = cursor.bump() else {
            return false;
        };
        if c == '"' {
            return true;
        }
        if takes_next(c, cursor) {
            cursor.skip();
        }
    }
}

/// Whether the character takes the next one of a string along.
fn takes_next(c: char, cursor: &Cursor<'_>) -> bool
    ensures { result ≡ takes_next c cursor.now }
{
    c == '\\' && (cursor.is_next('\\') || cursor.is_next('"'))
}

/// Takes a character up to and with its closing quote, and says whether there is one.
fn eat_character(cursor: &mut Cursor<'_>) -> bool
    ensures { CharacterEnds cursor.old result cursor.new }
{
    if is_one_character(cursor) {
        cursor.skip();
        cursor.skip();
        return true;
    }
    eat_character_run(cursor)
}

/// Whether one character and a quote stand next.
fn is_one_character(cursor: &Cursor<'_>) -> bool
    ensures { result ≡ is_one_character cursor.now }
{
    cursor.ahead().is_next('\'') && !cursor.is_next('\\')
}

fn eat_character_run(cursor: &mut Cursor<'_>) -> bool
    ensures { CharacterRun cursor.old result cursor.new }
{
    'body: while let Some(c) = cursor.first() {
        if stops_at(c, &cursor.ahead()) {
            return false;
        }
        cursor.skip();
        if c == '\'' {
            return true;
        }
        if c == '\\' {
            cursor.skip();
        }
    }
    false
}

/// Whether an unclosed character stops before `c`, which stands before the cursor.
fn stops_at(c: char, cursor: &Cursor<'_>) -> bool
    ensures { result ≡ stops_at c cursor.now }
{
    c == '/' || c == '\n' && !cursor.is_next('\'')
}

/// Takes what follows a quote: a lifetime or a character.
pub fn tick(cursor: &mut Cursor<'_>) -> Lexeme
    ensures { IsTick cursor.old result cursor.new }
{
    if starts_lifetime(cursor) {
        lifetime(cursor)
    } else {
        character(cursor, SyntaxKind::CHAR, Mode::Char)
    }
}

fn starts_lifetime(cursor: &Cursor<'_>) -> bool
    ensures { result ≡ starts_lifetime cursor.now }
{
    !cursor.ahead().is_next('\'')
        && (is_next_in(cursor, Class::IdentStart) || is_next_in(cursor, Class::Digit))
}

fn is_raw_lifetime(cursor: &Cursor<'_>) -> bool
    ensures { result ≡ is_raw_lifetime cursor.now }
{
    let second = cursor.ahead();
    cursor.is_next('r') && second.is_next('#') && is_next_in(&second.ahead(), Class::IdentStart)
}

/// Takes a lifetime whose quote is taken.
fn lifetime(cursor: &mut Cursor<'_>) -> Lexeme
    ensures { IsLifetime cursor.old result cursor.new }
{
    if is_raw_lifetime(cursor) {
        cursor.skip();
        cursor.skip();
        cursor.skip();
        eat_run(cursor, Class::IdentContinue);
        Lexeme::plain(SyntaxKind::LIFETIME_IDENT)
    } else {
        common_lifetime(cursor)
    }
}

/// Takes a lifetime that is not raw; with a quote after it, it is a character.
fn common_lifetime(cursor: &mut Cursor<'_>) -> Lexeme
    ensures { IsCommonLifetime cursor.old result cursor.new }
{
    let starts_with_number = is_next_in(cursor, Class::Digit);
    cursor.skip();
    eat_run(cursor, Class::IdentContinue);
    if cursor.is_next('\'') {
        cursor.skip();
        return Lexeme::literal(SyntaxKind::CHAR, Mode::Char, true);
    }
    let remark = if starts_with_number {
        Remark::LifetimeStartsWithNumber
    } else if cursor.is_next('#') {
        Remark::UnknownLifetimePrefix
    } else {
        Remark::Nothing
    };
    Lexeme {
        kind: SyntaxKind::LIFETIME_IDENT,
        remark,
    }
}
