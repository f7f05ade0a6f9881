//! Numbers, from what follows their first digit.
ghost use Rattle.std.specs.Prelude.{◌≡◌};
ghost use Rattle.rap_lexer.specs.Class.{is_in};
ghost use Rattle.rap_lexer.specs.Number.{has_digit, starts_exponent, after_sign, takes_dot, IsExponent, IsFraction, IsPastDigits, IsBased, IsNumber, base_of};
ghost use Rattle.rap_lexer.specs.Run.{after_run};

use crate::lexer::cursor::Cursor;
use crate::lexer::lexeme::{Lexeme, Remark};
use crate::lexer::run::{Class, eat_run, eat_suffix, is_next_in};
use rap_base::syntax_kind::SyntaxKind;

/// Takes a number whose first digit is taken.
pub fn number(cursor: &mut Cursor<'_>, first: char) -> Lexeme
    ensures { IsNumber first cursor.old result cursor.new }
{
    if let Some(class) = base(cursor, first) {
        cursor.skip();
        return based(cursor, class);
    }
    eat_run(cursor, Class::DigitOrUnderscore);
    past_digits(cursor)
}

/// The digits that a base prefix asks for, if the first digit begins one.
fn base(cursor: &Cursor<'_>, first: char) -> Option<Class>
    ensures { result ≡ base_of first cursor.now }
{
    if first != '0' {
        None
    } else if cursor.is_next('b') || cursor.is_next('o') {
        Some(Class::DigitOrUnderscore)
    } else if cursor.is_next('x') {
        Some(Class::HexOrUnderscore)
    } else {
        None
    }
}

/// Takes a number whose base prefix is taken.
fn based(cursor: &mut Cursor<'_>, class: Class) -> Lexeme
    ensures { IsBased class cursor.old result cursor.new }
{
    let has_digit = has_digit(cursor, class);
    eat_run(cursor, class);
    if has_digit {
        return past_digits(cursor);
    }
    eat_suffix(cursor);
    Lexeme {
        kind: SyntaxKind::INT_NUMBER,
        remark: Remark::NoDigits,
    }
}

/// Takes a number whose first digits are taken.
fn past_digits(cursor: &mut Cursor<'_>) -> Lexeme
    ensures { IsPastDigits cursor.old result cursor.new }
{
    if takes_dot(cursor) {
        cursor.skip();
        return fraction(cursor);
    }
    if starts_exponent(cursor) {
        cursor.skip();
        return exponent(cursor);
    }
    eat_suffix(cursor);
    Lexeme::plain(SyntaxKind::INT_NUMBER)
}

/// Takes a float whose dot is taken.
fn fraction(cursor: &mut Cursor<'_>) -> Lexeme
    ensures { IsFraction cursor.old result cursor.new }
{
    if is_next_in(cursor, Class::Digit) {
        eat_run(cursor, Class::DigitOrUnderscore);
        if starts_exponent(cursor) {
            cursor.skip();
            return exponent(cursor);
        }
    }
    eat_suffix(cursor);
    Lexeme::plain(SyntaxKind::FLOAT_NUMBER)
}

/// Takes an exponent whose letter is taken.
fn exponent(cursor: &mut Cursor<'_>) -> Lexeme
    ensures { IsExponent cursor.old result cursor.new }
{
    eat_sign(cursor);
    let remark = if has_digit(cursor, Class::DigitOrUnderscore) {
        Remark::Nothing
    } else {
        Remark::NoExponentDigits
    };
    eat_run(cursor, Class::DigitOrUnderscore);
    eat_suffix(cursor);
    Lexeme {
        kind: SyntaxKind::FLOAT_NUMBER,
        remark,
    }
}

/// Whether there is a digit among the digits and `_` that stand next.
fn has_digit(cursor: &Cursor<'_>, class: Class) -> bool
    ensures { result ≡ has_digit class cursor.now }
{
    let mut ahead = Cursor::new(cursor.as_str());
    eat_run(&mut ahead, Class::Underscore);
    is_next_in(&ahead, class)
}

fn starts_exponent(cursor: &Cursor<'_>) -> bool
    ensures { result ≡ starts_exponent cursor.now }
{
    cursor.is_next('e') || cursor.is_next('E')
}

fn takes_dot(cursor: &Cursor<'_>) -> bool
    ensures { result ≡ takes_dot cursor.now }
{
    if !cursor.is_next('.') {
        return false;
    }
    let ahead = cursor.ahead();
    !ahead.is_next('.') && !is_next_in(&ahead, Class::IdentStart)
}

fn eat_sign(cursor: &mut Cursor<'_>)
    ensures { cursor.new ≡ after_sign cursor.old }
{
    if cursor.is_next('+') || cursor.is_next('-') {
        cursor.skip();
    }
}
