//! A status in words.
ghost use Rattle.std.specs.Prelude.{◌≡◌, length};
ghost use Rattle.rap_c.specs.Filling.{overwritten};
ghost use Rattle.rap_c.specs.StatusText.{status_text};

use crate::filler::put_bytes;

/// The text of a status, or no text where the number is no status.
fn text_of_status(status: u32) -> &'static str
    ensures { result.now ≡ status_text status }
{
    match status {
        0 => "ok",
        1 => "no tree, or several",
        2 => "no edition",
        3 => "no entry",
        4 => "no UTF-8",
        5 => "text too long",
        6 => "too many tokens",
        7 => "out of memory",
        8 => "no node that is parsed again alone",
        9 => "no brace at the beginning",
        10 => "no token's record",
        11 => "no steps of one tree over the text",
        12 => "no script source",
        13 => "no literal of the kind",
        14 => "no number of the radix, or too large",
        _ => "",
    }
}

/// Writes the text of the status into the slice, as far as it reaches, and returns how many bytes the text has. It has
/// none where the number is no status.
#[unsafe(no_mangle)]
pub extern "C" fn rap_status_text(status: u32, text: &mut [u8]) -> usize
    ensures count { result ≡ length (status_text status) }
    ensures written { text.new ≡ overwritten text.old (status_text status) }
{
    let bytes = text_of_status(status).as_bytes();
    put_bytes(text, 0, bytes);
    bytes.len()
}
