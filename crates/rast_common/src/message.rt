//! Messages as the programs print them.
ghost use Rattle.std.specs.Prelude.{◌≡◌, ◌++◌, OnOk, string_bytes};
ghost use Rattle.rast_common.specs.Message.{message_line};

use std::alloc::AllocError;
use std::fmt::Write as _;

/// Adds a message's line: `error`, the number of what it is about, a colon and the message.
pub fn push_message(lines: &mut String, number: usize, message: &str) -> Result<(), AllocError>
    ensures { OnOk result (string_bytes lines.new ≡ string_bytes lines.old ++ message_line number message.now) }
{
    writeln!(lines, "error {number}: {message}")?;
    Ok(())
}
