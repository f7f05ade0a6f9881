//! All that the program does once its file is read.
ghost use Rattle.std.specs.Prelude.{◌≡◌, ◌≤◌, ◌⊎◌, IfOk, IsTrue};
ghost use Rattle.std.specs.Io.KnownBytes.{Appends};
ghost use Rattle.std.specs.List.{All};
ghost use Rattle.std.specs.Str.Lines.{lines};
ghost use Rattle.rast_replay.specs.Row.{IsRow};
ghost use Rattle.rast_replay.specs.Words.{cannot_write, no_memory};

use crate::row::row_of;
use ra_ap_parser::NoMemory;
use rast_common::fault::report;
use std::alloc::Global;
use std::fmt::Write as _;
use std::io;

/// What is printed of rows, and how many of them are not as this library reads their texts.
#[derive(Drop)]
struct Replayed {
    page: String,
    different: usize,
}

/// Whether the line is as this library reads its text. If it is not, it is added after `- `, and then what it
/// should be after `+ `, unless it is no row.
fn is_same(alloc: Global, line: &str, page: &mut String) -> Result<bool, NoMemory>
    ensures { IfOk result (λ same. IsTrue same → IsRow line.now) }
{
    let Ok(row) = row_of(alloc, line) else {
        return Err(NoMemory);
    };
    if let Some(row) = &row
        && row.as_str() == line
    {
        return Ok(true);
    }
    writeln!(page, "- {line}")?;
    if let Some(row) = &row {
        writeln!(page, "+ {row}")?;
    }
    Ok(false)
}

/// Replays each row.
fn replay(alloc: Global, rows: &str) -> Result<Replayed, NoMemory>
    ensures { IfOk result (λ replayed. replayed.different ≡ 0 → All IsRow (lines rows.now)) }
{
    let mut same = 0usize;
    let mut replayed = Replayed {
        page: String::new(alloc),
        different: 0,
    };
    'rows: for line in rows.lines() {
        if is_same(alloc, line, &mut replayed.page)? {
            same = same.saturating_add(1);
        } else {
            replayed.different = replayed.different.saturating_add(1);
        }
    }
    writeln!(
        replayed.page,
        "{same} same, {} different",
        replayed.different
    )?;
    Ok(replayed)
}

/// Writes what is printed.
fn write_page<W: io::Write>(out: &mut W, page: &str) -> io::Result<()> {
    out.write_all(page.as_bytes())?;
    out.flush()
}

/// Replays each row, prints those that this library reads differently, and then how many were the same and how many
/// were not.
///
/// Returns the program's status: 0 if none was different, 1 if one was, and 2 at a fault, which is reported on
/// `err`. At a fault nothing is written to `out`, unless `out` itself refused a write. The error is that of `err`, where
/// it refused the report.
pub fn run<W: io::Write, V: io::Write>(
    alloc: Global,
    rows: &str,
    out: &mut W,
    err: &mut V,
) -> io::Result<u8>
    ensures status { IfOk result (λ status. status ≤ 2) }
    ensures same { IfOk result (λ status. status ≡ 0 → All IsRow (lines rows.now)) }
    ensures reported { IfOk result (λ status. status ≡ 2
        → ((out.new ≡ out.old) × Appends (V.contents err.old) (V.contents err.new) no_memory)
        ⊎ Appends (V.contents err.old) (V.contents err.new) cannot_write) }
{
    let Ok(replayed) = replay(alloc, rows) else {
        return report(err, "rast_replay: no memory\n");
    };
    let Ok(()) = write_page(out, replayed.page.as_str()) else {
        return report(err, "rast_replay: cannot write\n");
    };
    if replayed.different == 0 {
        Ok(0)
    } else {
        Ok(1)
    }
}
