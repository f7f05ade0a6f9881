//! Reads quoted texts.
use std::alloc::{AllocError, Global};

/// What a character of a quoted text follows.
#[derive(Clone, Copy)]
enum Place {
    Plain,
    Backslash,
    /// `\u`
    Letter,
    /// `\u{` and digits of this value
    Code(u32),
}

/// Reads a character at its place. Returns the place after it, and the character that ends here.
fn step(place: Place, c: char) -> Option<(Place, Option<char>)> {
    match (place, c) {
        (Place::Plain, '\\') => Some((Place::Backslash, None)),
        (Place::Plain, _) => Some((Place::Plain, Some(c))),
        (Place::Backslash, '"' | '\\') => Some((Place::Plain, Some(c))),
        (Place::Backslash, 'n') => Some((Place::Plain, Some('\n'))),
        (Place::Backslash, 'r') => Some((Place::Plain, Some('\r'))),
        (Place::Backslash, 't') => Some((Place::Plain, Some('\t'))),
        (Place::Backslash, '0') => Some((Place::Plain, Some('\0'))),
        (Place::Backslash, 'u') => Some((Place::Letter, None)),
        (Place::Backslash, _) => None,
        (Place::Letter, '{') => Some((Place::Code(0), None)),
        (Place::Letter, _) => None,
        (Place::Code(code), '}') => Some((Place::Plain, Some(char::from_u32(code)?))),
        (Place::Code(code), _) => {
            let code = code.checked_mul(16)?.checked_add(c.to_digit(16)?)?;
            Some((Place::Code(code), None))
        }
    }
}

/// The text in these quotes. `None` if they are no quoted text.
///
/// Nothing is specified about it: a caller quotes the text again, and compares.
pub fn unquoted(alloc: Global, quoted: &str) -> Result<Option<String>, AllocError> {
    let mut text = String::new(alloc);
    let Some(body) = quoted.strip_prefix('"') else {
        return Ok(None);
    };
    let Some(body) = body.strip_suffix('"') else {
        return Ok(None);
    };
    let mut place = Place::Plain;
    for c in body.chars() {
        let Some((next, whole)) = step(place, c) else {
            return Ok(None);
        };
        place = next;
        if let Some(whole) = whole {
            text.push(whole)?;
        }
    }
    Ok(Some(text))
}
