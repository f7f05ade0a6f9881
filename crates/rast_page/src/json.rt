//! Texts as JSON, in a form that no page reads as anything but text.
ghost use Rattle.std.specs.Prelude.{◌≡◌, ◌<◌, ◌++◌, OnOk, string_bytes, chars, codes};
ghost use Rattle.rast_common.specs.Quote.{hex_digit};
ghost use Rattle.rast_page.specs.Json.{number_escape, json_escaped, json_text};

use rast_common::quote::hex_digit;
use std::alloc::AllocError;

/// Adds the character's number as JSON's escape.
fn push_number_escape(out: &mut String, n: u8) -> Result<(), AllocError>
    ensures { OnOk result (string_bytes out.new ≡ string_bytes out.old ++ number_escape n) }
{
    out.push_str("\\u00")?;
    out.push(hex_digit(n / 16))?;
    out.push(hex_digit(n % 16))?;
    Ok(())
}

/// Adds the character as it is written in a JSON string.
fn push_json_escaped(out: &mut String, c: char) -> Result<(), AllocError>
    ensures { OnOk result (string_bytes out.new ≡ string_bytes out.old ++ json_escaped c) }
{
    match c {
        '"' => out.push_str("\\\"")?,
        '\\' => out.push_str("\\\\")?,
        '\n' => out.push_str("\\n")?,
        '\r' => out.push_str("\\r")?,
        '\t' => out.push_str("\\t")?,
        '\0'..='\u{1f}' | '\u{7f}' | '<' | '>' | '&' => push_number_escape(out, c as u8)?,
        '\u{2028}' => out.push_str("\\u2028")?,
        '\u{2029}' => out.push_str("\\u2029")?,
        _ => out.push(c)?,
    }
    Ok(())
}

/// Adds the text as a JSON string.
///
/// A quote and a backslash are written after a backslash; a line feed, a carriage return and a tab are letters after a
/// backslash; any other ASCII control character, `<`, `>`, `&` and the separators of lines and paragraphs (U+2028,
/// U+2029) are `\uhhhh`; anything else is unchanged. The string's grammar is that of RFC 8259, section 7. Without `<` it
/// ends no `script` element and opens no comment (the HTML standard, "Restrictions for contents of script elements").
pub fn push_json(out: &mut String, text: &str) -> Result<(), AllocError>
    ensures { OnOk result (string_bytes out.new ≡ string_bytes out.old ++ json_text (chars text.now)) }
{
    out.push_str("\"")?;
    for c in text.chars() {
        push_json_escaped(out, c)?;
    }
    out.push_str("\"")?;
    Ok(())
}
