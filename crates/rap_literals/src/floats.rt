//! Floating-point numbers.
ghost use Rattle.std.specs.Prelude.{◌≡◌, ℕ, List, [], ◌∷◌, ◌++◌, IfOk, OnOk, MatchOption, encode_utf8_all};
ghost use Rattle.std.specs.String.{string_bytes};
ghost use Rattle.std.specs.Float.{binary64};
ghost use Rattle.std.specs.Float.Parse.{parse_float};
ghost use Rattle.rap_lexer.specs.Escape.{without_underscores};
ghost use Rattle.rap_literals.specs.Number.{bare, FloatLiteral};

use crate::cursor::Cursor;
use crate::cut::is_plain;
use crate::digits::{Radix, after_digits, after_exponent, after_fraction, after_prefix, before};
use rap_base::syntax_kind::SyntaxKind;
use std::alloc::{AllocError, Global};

/// The parts of a floating-point literal.
#[derive(Clone, Copy, PartialEq, Eq, Debug)]
pub struct Float<'a> {
    /// The digits as they stand, with `_`, the dot and the exponent.
    pub digits: &'a str,
    /// What follows the digits: by the lexer's rules an identifier, or nothing.
    pub suffix: &'a str,
}

/// Returns the parts of a floating-point literal, as `1.5e3_f32` or `2.`.
///
/// `text` is the literal with its suffix. The result is `None` exactly if the whole text is no floating-point literal, if
/// the lexer reports that its exponent has no digits, or if it begins with `0b`, `0o` or `0x`, which the Reference
/// reserves.
///
/// The rules are those of <https://doc.rust-lang.org/reference/tokens.html#floating-point-literals>.
pub fn float_parts(text: &str) -> Option<Float<'_>>
    ensures { MatchOption result ((digits suffix : List ℕ) → ¬ FloatLiteral text.now digits suffix) (λ f. FloatLiteral text.now f.digits.now f.suffix.now) }
{
    if !is_plain(SyntaxKind::FLOAT_NUMBER, text) {
        return None;
    }
    match after_prefix(text).0 {
        Radix::Decimal => {
            let suffix = after_exponent(after_fraction(after_digits(Radix::Decimal, text)));
            Some(Float {
                digits: before(text, suffix),
                suffix,
            })
        }
        _ => None,
    }
}

/// Writes a character at the end of a text, if it is no `_`.
fn push_bare(text: &mut String, c: char) -> Result<(), AllocError>
    ensures { OnOk result (string_bytes text.new ≡ string_bytes text.old ++ encode_utf8_all (without_underscores (c ∷ []))) }
{
    if c == '_' { Ok(()) } else { text.push(c) }
}

/// The text without its `_`.
fn bare(alloc: Global, text: &str) -> Result<String, AllocError>
    ensures { IfOk result (λ s. string_bytes s ≡ bare text.now) }
{
    let mut rest = Cursor::new(text);
    let mut bare = String::with_capacity(alloc, text.len())?;
    'rest: while let Some(c) = rest.bump() {
        push_bare(&mut bare, c)?;
    }
    Ok(bare)
}

impl Float<'_> {
    /// Returns the value of the digits, rounded once to an `f64` as `str::parse` does; `None` exactly where that reads no
    /// number. The error is that there is no memory for the digits without `_`.
    pub fn value(&self, alloc: Global) -> Result<Option<f64>, AllocError>
        ensures { IfOk result (λ value. value ≡ parse_float binary64 (bare self.now.digits.now)) }
    {
        let digits = bare(alloc, self.digits)?;
        Ok(digits.as_str().parse::<f64>().ok())
    }
}
