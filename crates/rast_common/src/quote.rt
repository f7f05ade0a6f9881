//! Texts as the programs print them.
ghost use Rattle.std.specs.Prelude.{◌≡◌, ◌<◌, ◌++◌, OnOk, string_bytes, chars};
ghost use Rattle.rast_common.specs.Quote.{hex_digit, hex_digits, escaped, quoted};

use std::alloc::AllocError;

/// A hexadecimal digit, in lower case.
pub fn hex_digit(n: u8) -> char
    requires { n < 16 }
    ensures { result ≡ hex_digit n }
{
    if n < 10 {
        (b'0' + n) as char
    } else {
        (b'a' + (n - 10)) as char
    }
}

/// Adds the number's hexadecimal digits.
fn push_hex(out: &mut String, n: u8) -> Result<(), AllocError>
    ensures { OnOk result (string_bytes out.new ≡ string_bytes out.old ++ hex_digits n) }
{
    if n >= 16 {
        out.push(hex_digit(n / 16))?;
    }
    out.push(hex_digit(n % 16))?;
    Ok(())
}

/// Adds the character as it is written between quotes.
fn push_escaped(out: &mut String, c: char) -> Result<(), AllocError>
    ensures { OnOk result (string_bytes out.new ≡ string_bytes out.old ++ escaped c) }
{
    match c {
        '"' => out.push_str("\\\"")?,
        '\\' => out.push_str("\\\\")?,
        '\n' => out.push_str("\\n")?,
        '\r' => out.push_str("\\r")?,
        '\t' => out.push_str("\\t")?,
        '\0' => out.push_str("\\0")?,
        '\u{1}'..='\u{1f}' | '\u{7f}' => {
            out.push_str("\\u{")?;
            push_hex(out, c as u8)?;
            out.push_str("}")?;
        }
        _ => out.push(c)?,
    }
    Ok(())
}

/// Adds the text in quotes.
///
/// A quote and a backslash are written after a backslash; a line feed, a carriage return, a tab and a zero are
/// letters after a backslash; any other ASCII control character is `\u{h}`; anything else is unchanged.
pub fn push_quoted(out: &mut String, text: &str) -> Result<(), AllocError>
    ensures { OnOk result (string_bytes out.new ≡ string_bytes out.old ++ quoted (chars text.now)) }
{
    out.push_str("\"")?;
    for c in text.chars() {
        push_escaped(out, c)?;
    }
    out.push_str("\"")?;
    Ok(())
}
