//! Integers.
ghost use Rattle.std.specs.Prelude.{◌≡◌, ◌<◌, ◌^◌, MatchOption};
ghost use Rattle.std.specs.Option.{SomeIff};
ghost use Rattle.rap_base.specs.TokenKind.{INT_NUMBER};
ghost use Rattle.rap_literals.specs.Cut.{IsPlain};
ghost use Rattle.rap_literals.specs.Number.{number_of, AreOf, value_of, IntegerLiteral};
ghost use Rattle.rap_literals.specs.Reading.{with_digit};

use crate::cut::is_plain;
use crate::digits::{Radix, after_digits, after_prefix, before};
use rap_base::syntax_kind::SyntaxKind;

/// The parts of an integer literal.
#[derive(Clone, Copy, PartialEq, Eq, Debug)]
pub struct Integer<'a> {
    /// The radix that its prefix names.
    pub radix: Radix,
    /// The digits as they stand, with `_`, without the prefix and the suffix. The lexer takes all digits to 9 for those of
    /// a binary or an octal number.
    pub digits: &'a str,
    /// What follows the digits: by the lexer's rules an identifier, or nothing.
    pub suffix: &'a str,
}

/// Returns the parts of an integer literal, as `1_000` or `0xFF_u8`.
///
/// `text` is the literal with its prefix and suffix. The result is `None` exactly if the whole text is no integer literal,
/// or if the lexer reports that it has no digits. What follows the digits is the suffix, whatever identifier it is:
/// `1f32` is an integer literal with the suffix `f32`.
///
/// The rules are those of <https://doc.rust-lang.org/reference/tokens.html#integer-literals>.
pub fn integer_parts(text: &str) -> Option<Integer<'_>>
    ensures { MatchOption result (¬ IsPlain INT_NUMBER text.now) (λ i. IntegerLiteral text.now i.radix i.digits.now i.suffix.now) }
{
    if !is_plain(SyntaxKind::INT_NUMBER, text) {
        return None;
    }
    let (radix, rest) = after_prefix(text);
    let suffix = after_digits(radix, rest);
    Some(Integer {
        radix,
        digits: before(rest, suffix),
        suffix,
    })
}

/// The number that one more digit makes of a number; `_` changes nothing.
fn with_digit(value: u128, radix: Radix, digit: u8) -> Option<u128>
    ensures { result ≡ with_digit (number_of radix) value digit }
{
    if digit == b'_' {
        return Some(value);
    }
    let number = radix.number();
    match (digit as char).to_digit(number) {
        None => None,
        Some(digit) => match value.checked_mul(number as u128) {
            None => None,
            Some(product) => product.checked_add(digit as u128),
        },
    }
}

impl Integer<'_> {
    /// Returns the value. It is `None` exactly if it is 2^128 or more, or if a digit is none of the radix, as in `0b12`.
    pub fn value(&self) -> Option<u128>
        ensures { SomeIff result (AreOf self.now.radix self.now.digits.now × (value_of self.now.radix self.now.digits.now < 2 ^ 128)) (value_of self.now.radix self.now.digits.now) }
    {
        let radix = self.radix;
        let digits = self.digits.as_bytes();
        let mut value = 0u128;
        for &digit in digits {
            match with_digit(value, radix, digit) {
                None => return None,
                Some(next) => value = next,
            }
        }
        Some(value)
    }
}
