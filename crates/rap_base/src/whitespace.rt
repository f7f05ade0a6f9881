//! Rust's white space.
ghost use Rattle.std.specs.Prelude.{◌≡◌};
ghost use Rattle.rap_base.specs.Char.{is_rust_whitespace};

/// Returns whether the character is white space in Rust: U+0009 to U+000D, U+0020, U+0085, U+200E, U+200F, U+2028 or
/// U+2029. These are the characters with the property Pattern_White_Space (the Rust Reference, "Whitespace").
pub fn is_rust_whitespace(c: char) -> bool
    ensures { result ≡ is_rust_whitespace c }
{
    matches!(
        c,
        '\u{9}'..='\u{d}' | ' ' | '\u{85}' | '\u{200e}' | '\u{200f}' | '\u{2028}' | '\u{2029}'
    )
}
