//! The values of literals: strings, byte strings, C strings, characters, bytes, integers and floating-point numbers.
//!
//! Each call is given the text of one token, as the lexer of `rap_lexer` cuts it in the edition 2024, and says `None` of
//! any other text, white space around the literal included. So `string_value` of the text `"a\n"`, with its quotes, is a
//! text of two characters. What an escape is, and which bodies have faults, are the lexer's own rules; that a body has a
//! value just where the lexer reports nothing about it is a law ([`bodies_without_faults`]).
//!
//! The rules are those of the Rust Reference, <https://doc.rust-lang.org/reference/tokens.html#literals>.
#![tactic(auto)]

mod body;
mod characters;
mod cursor;
mod cut;
mod digits;
mod escape;
mod floats;
mod integers;
mod laws;
mod strings;
mod suffixes;

pub use characters::{byte_value, char_value};
pub use digits::Radix;
pub use floats::{Float, float_parts};
pub use integers::{Integer, integer_parts};
pub use laws::{
    bodies_without_faults, characters_without_faults, literals_have_bodies, one_character,
    one_float, one_integer, one_string, one_suffix, single_bodies_without_faults,
    strings_without_faults,
};
pub use strings::{byte_string_value, c_string_value, string_value};
pub use suffixes::quoted_suffix;
