//! How a program shows what it made of a text, or reports the fault that came in its place.
ghost use Rattle.std.specs.Prelude.{◌≡◌, ◌<◌, ◌≤◌, OnOk, length, string_bytes};
ghost use Rattle.std.specs.Io.KnownBytes.{Appends};
ghost use Rattle.rast_common.specs.Ran.{Ends};
ghost use Rattle.rast_common.specs.Shown.{Shown, plain};

use crate::fault::{Fault, report_fault};
use crate::indented::IndentedText;
use std::io;

/// A page: what is made of a text, and can be written. Each type of pages says in `shown` which bytes are written, and
/// which status the program has then.
pub trait Show {
    ghost shown: { Self → Shown };

    /// Writes the page. The error is that of a write; then a prefix may have been written.
    fn write<W: io::Write>(&self, out: &mut W) -> io::Result<()>
        ensures { OnOk result (Appends (W.contents out.old) (W.contents out.new) (shown self.now).bytes) };

    /// The status of a program that has written the page.
    fn status(&self) -> u8
        ensures own { result ≡ (shown self.now).status }
        ensures no_fault { result < 2 };
}

/// A text without a message: its status is 0.
impl Show for String {
    ghost shown = { λ text. plain (string_bytes text) };

    fn write<W: io::Write>(&self, out: &mut W) -> io::Result<()> {
        out.write_all(self.as_bytes())
    }

    fn status(&self) -> u8 {
        0
    }
}

/// A text without a message: its status is 0.
impl Show for IndentedText {
    ghost shown = { plain };

    fn write<W: io::Write>(&self, out: &mut W) -> io::Result<()> {
        self.write_to(out)
    }

    fn status(&self) -> u8 {
        0
    }
}

/// Writes the page, and flushes the output.
fn write_whole<P: Show, W: io::Write>(page: &P, out: &mut W) -> io::Result<()>
    ensures { OnOk result (Appends (W.contents out.old) (W.contents out.new) (P.shown page.now).bytes) }
{
    page.write(out)?;
    out.flush()
}

/// Ends the program of this name, whose name has at most 64 bytes: writes the page that it made, or reports the fault
/// that came in its place.
///
/// Returns the program's status: that of the page where it was written, and 2 at a fault, which is reported on `err` in
/// one line. At a fault nothing is written to `out`, unless `out` itself refused a write, which is reported too. The
/// error is that of `err`, where it refused the report. No memory is allocated, unless the page's own write does.
pub fn finish<P: Show + Drop, W: io::Write, V: io::Write>(
    name: &str,
    made: Result<P, Fault>,
    out: &mut W,
    err: &mut V,
) -> io::Result<u8>
    requires { length name.now ≤ 64 }
    ensures { Ends name.now P.shown made W.contents out.old out.new V.contents err.old err.new result }
{
    let page = match made {
        Ok(page) => page,
        Err(fault) => return report_fault(name, fault, err),
    };
    let Ok(()) = write_whole(&page, out) else {
        return report_fault(name, Fault::CannotWrite, err);
    };
    Ok(page.status())
}
