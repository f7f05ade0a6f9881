//! The values of strings, byte strings and C strings.
ghost use Rattle.std.specs.Prelude.{◌≡◌, ℕ, List, false, IfOk, MatchOption};
ghost use Rattle.std.specs.String.{string_bytes};
ghost use Rattle.rap_lexer.specs.Escape.{is_single};
ghost use Rattle.rap_lexer.specs.declared.escape.Mode.TheVariants.{Str, ByteStr, CStr};
ghost use Rattle.rap_literals.specs.Literal.{StringLiteral};

use crate::body::{bytes_of, text_of};
use crate::cut::{Form, quoted};
use rap_lexer::escape::Mode;
use std::alloc::{AllocError, Global};

/// Returns the text that a string literal stands for, as `"a\n"` or `r#"a"#`.
///
/// `text` is the literal with its prefix, quotes, hashes and suffix. The result is `None` exactly if the whole text is no
/// string literal, or if the lexer reports a fault of its body. A raw string stands for its body as it is. The error is
/// that there is no memory.
///
/// A carriage return stands for itself. The Reference makes a line feed of each `\r\n` before it divides a text into
/// tokens (<https://doc.rust-lang.org/reference/input-format.html#crlf-normalization>), which a caller does as well.
///
/// The rules are those of <https://doc.rust-lang.org/reference/tokens.html#string-literals>.
pub fn string_value(alloc: Global, text: &str) -> Result<Option<String>, AllocError>
    ensures { IfOk result (λ value. MatchOption value ((bytes : List ℕ) → ¬ StringLiteral Str text.now bytes) (λ s. StringLiteral Str text.now (string_bytes s))) }
{
    match quoted(Mode::Str, text) {
        None => Ok(None),
        Some(literal) => match literal.form {
            Form::Raw => match String::from_str(alloc, literal.body) {
                Ok(value) => Ok(Some(value)),
                Err(error) => Err(error),
            },
            Form::Escaped => text_of(alloc, literal.body),
        },
    }
}

/// Returns the bytes that a byte string literal stands for, as `b"\xff"` or `br"a"`.
///
/// `text` is the literal with its prefix, quotes, hashes and suffix. The result is `None` exactly if the whole text is no
/// byte string literal, or if the lexer reports a fault of its body. A raw one stands for its body as it is, in UTF-8: the
/// lexer reports nothing about the characters in it. A carriage return stands for itself, as in [`string_value`]. The
/// error is that there is no memory.
///
/// The rules are those of <https://doc.rust-lang.org/reference/tokens.html#byte-string-literals>.
pub fn byte_string_value(alloc: Global, text: &str) -> Result<Option<Vec<u8>>, AllocError>
    ensures { IfOk result (λ value. MatchOption value ((bytes : List ℕ) → ¬ StringLiteral ByteStr text.now bytes) (λ v. StringLiteral ByteStr text.now v.items)) }
{
    bytes_value(alloc, Mode::ByteStr, text)
}

/// Returns the bytes that a C string literal stands for, as `c"\xff"` or `cr"a"`, without the NUL at its end.
///
/// `text` is the literal with its prefix, quotes, hashes and suffix, in an edition that has C strings, which is 2021 or a
/// later one. A `\x` is a byte, and any other character is written in UTF-8. The result is `None` exactly if the whole
/// text is no C string literal, or if the lexer reports a fault of its body, as a NUL. A raw one stands for its body as it
/// is, in UTF-8: the lexer reports nothing about the characters in it. A carriage return stands for itself, as in
/// [`string_value`]. The error is that there is no memory.
///
/// The rules are those of <https://doc.rust-lang.org/reference/tokens.html#c-string-literals>.
pub fn c_string_value(alloc: Global, text: &str) -> Result<Option<Vec<u8>>, AllocError>
    ensures { IfOk result (λ value. MatchOption value ((bytes : List ℕ) → ¬ StringLiteral CStr text.now bytes) (λ v. StringLiteral CStr text.now v.items)) }
{
    bytes_value(alloc, Mode::CStr, text)
}

/// The bytes that a string literal of this mode stands for.
fn bytes_value(alloc: Global, mode: Mode, text: &str) -> Result<Option<Vec<u8>>, AllocError>
    requires { is_single mode ≡ false }
    ensures { IfOk result (λ value. MatchOption value ((bytes : List ℕ) → ¬ StringLiteral mode text.now bytes) (λ v. StringLiteral mode text.now v.items)) }
{
    match quoted(mode, text) {
        None => Ok(None),
        Some(literal) => match literal.form {
            Form::Raw => match Vec::from_slice(alloc, literal.body.as_bytes()) {
                Ok(value) => Ok(Some(value)),
                Err(error) => Err(error),
            },
            Form::Escaped => bytes_of(alloc, mode, literal.body),
        },
    }
}
