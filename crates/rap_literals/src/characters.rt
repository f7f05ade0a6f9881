//! The values of characters and bytes.
ghost use Rattle.std.specs.Prelude.{ℕ, MatchOption};
ghost use Rattle.rap_lexer.specs.declared.escape.Mode.TheVariants.{Char, Byte};
ghost use Rattle.rap_literals.specs.Literal.{CharacterLiteral};

use crate::body::character_of;
use crate::cut::{Form, quoted};
use rap_lexer::escape::Mode;

/// Returns the character that a character literal stands for, as `'a'` or `'\''`.
///
/// `text` is the literal with its quotes and suffix. The result is `None` exactly if the whole text is no character
/// literal, if the lexer reports a fault of its body, or if its body begins with a carriage return without a backslash,
/// which the Reference does not allow there and the lexer leaves open.
///
/// The rules are those of <https://doc.rust-lang.org/reference/tokens.html#character-literals>.
pub fn char_value(text: &str) -> Option<char>
    ensures { MatchOption result ((value : ℕ) → ¬ CharacterLiteral Char text.now value) (CharacterLiteral Char text.now) }
{
    match quoted(Mode::Char, text) {
        None => None,
        Some(literal) => match literal.form {
            Form::Raw => None,
            Form::Escaped => character_of(Mode::Char, literal.body),
        },
    }
}

/// Returns the byte that a byte literal stands for, as `b'a'` or `b'\xff'`.
///
/// `text` is the literal with its prefix, quotes and suffix. The result is `None` exactly if the whole text is no byte
/// literal, if the lexer reports a fault of its body, or if its body begins with a carriage return without a backslash,
/// which the Reference does not allow there and the lexer leaves open.
///
/// The rules are those of <https://doc.rust-lang.org/reference/tokens.html#byte-literals>.
pub fn byte_value(text: &str) -> Option<u8>
    ensures { MatchOption result ((value : ℕ) → ¬ CharacterLiteral Byte text.now value) (CharacterLiteral Byte text.now) }
{
    match quoted(Mode::Byte, text) {
        None => None,
        Some(literal) => match literal.form {
            Form::Raw => None,
            Form::Escaped => match character_of(Mode::Byte, literal.body) {
                None => None,
                Some(c) => Some(c as u32 as u8),
            },
        },
    }
}
