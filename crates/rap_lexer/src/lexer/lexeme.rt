//! A token without its place.
ghost use Rattle.std.specs.Prelude.{◌≡◌};
ghost use Rattle.rap_lexer.specs.Lexeme.{plain, literal};

use crate::escape::Mode;
use rap_base::syntax_kind::SyntaxKind;

/// A token: its kind, and what is to be reported about it.
#[derive(Clone, Copy, PartialEq, Eq, Debug)]
pub struct Lexeme {
    pub kind: SyntaxKind,
    pub remark: Remark,
}

/// What is to be reported about a token.
#[derive(Clone, Copy, PartialEq, Eq, Debug)]
pub enum Remark {
    /// Nothing.
    Nothing,
    /// A block comment has no end.
    OpenComment,
    /// A raw string has a bad start, no end, or more than 255 `#`.
    InvalidRawString,
    /// An identifier stands directly before `#` or a quote.
    UnknownPrefix,
    /// A number has no digit after the prefix of its base.
    NoDigits,
    /// A float has no digit in its exponent.
    NoExponentDigits,
    /// `#"` or `##`, which are reserved from 2024 on.
    ReservedString,
    /// An identifier has an emoji in it.
    InvalidIdent,
    /// A `#` stands directly after a lifetime.
    UnknownLifetimePrefix,
    /// A lifetime begins with a digit.
    LifetimeStartsWithNumber,
    /// A literal of this kind has no closing quote.
    Unterminated(Mode),
    /// The escapes between the quotes of a literal of this kind are to be checked.
    Escapes(Mode),
}

impl Lexeme {
    /// A token of this kind, with nothing to report.
    pub fn plain(kind: SyntaxKind) -> Lexeme
        ensures { result ≡ plain kind }
    {
        Lexeme {
            kind,
            remark: Remark::Nothing,
        }
    }

    /// A literal in quotes, closed or not.
    pub fn literal(kind: SyntaxKind, mode: Mode, closed: bool) -> Lexeme
        ensures { result ≡ literal kind mode closed }
    {
        let remark = if closed {
            Remark::Escapes(mode)
        } else {
            Remark::Unterminated(mode)
        };
        Lexeme { kind, remark }
    }
}
