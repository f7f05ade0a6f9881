//! All that the program does once its files are read.
ghost use Rattle.std.specs.Prelude.{◌≡◌, ◌≤◌, ◌⊎◌, IfOk, codes};
ghost use Rattle.std.specs.Io.KnownBytes.{Appends};

use crate::notation::Notation;
use crate::table::{Row, read_head, read_row};
use ra_ap_parser::{Edition, TopEntryPoint, parse_text};
use rast_common::fault::report;
use std::alloc::{AllocError, Global};
use std::fmt::Write as _;
use std::io;

/// Why the rows were not all compared.
#[derive(Drop)]
enum Fault {
    /// A section does not say how its texts are read, or a text has no end.
    Table,
    /// Out of memory: a text was not read.
    NoMemory,
}

impl From<AllocError> for Fault {
    fn from(_: AllocError) -> Fault {
        Fault::NoMemory
    }
}

/// What is printed of texts, how many of them were read as their rows say, and how many were not.
#[derive(Drop)]
struct Compared {
    page: String,
    same: usize,
    different: usize,
}

/// Whether the text is read as its row says. If it is not, the text is added after `- `, with the expected tree and
/// messages, and then, after `+`, the tree and the messages that were returned.
fn is_same(
    alloc: Global,
    (edition, entry): (Edition, TopEntryPoint),
    row: &Row,
    page: &mut String,
) -> Result<bool, Fault> {
    let mut sink = Notation::new(alloc);
    let Ok(parsed) = parse_text(alloc, edition, entry, row.text.as_str(), &mut sink) else {
        return Err(Fault::NoMemory);
    };
    if parsed.whole && sink.tree == row.tree && sink.messages == row.messages {
        return Ok(true);
    }
    writeln!(page, "- {}\n{}\n{}", row.text, row.tree, row.messages)?;
    writeln!(page, "+\n{}\n{}", sink.tree, sink.messages)?;
    Ok(false)
}

/// Compares each text of a table.
fn compare_table(
    alloc: Global,
    read: (Edition, TopEntryPoint),
    table: &str,
    compared: &mut Compared,
) -> Result<(), Fault> {
    for row in table.split('«').skip(1) {
        let Some(row) = read_row(alloc, row)? else {
            return Err(Fault::Table);
        };
        if is_same(alloc, read, &row, &mut compared.page)? {
            compared.same = compared.same.saturating_add(1);
        } else {
            compared.different = compared.different.saturating_add(1);
        }
    }
    Ok(())
}

/// Compares each text of all tables.
fn compare(alloc: Global, tables: &str) -> Result<Compared, Fault> {
    let mut compared = Compared {
        page: String::new(alloc),
        same: 0,
        different: 0,
    };
    for section in tables.split("\n@ ").skip(1) {
        let Some((edition, entry, table)) = read_head(section) else {
            return Err(Fault::Table);
        };
        compare_table(alloc, (edition, entry), table, &mut compared)?;
    }
    let (same, different) = (compared.same, compared.different);
    writeln!(compared.page, "{same} same, {different} different")?;
    Ok(compared)
}

/// Writes what is printed.
fn write_page<W: io::Write>(out: &mut W, page: &str) -> io::Result<()> {
    out.write_all(page.as_bytes())?;
    out.flush()
}

/// Compares each text with its row, prints those that are read differently, and then how many were the same and how many
/// were not.
///
/// Returns the program's status: 0 if none was different, 1 if one was, and 2 at a fault, which is reported on
/// `err`. At a fault nothing is written to `out`, unless `out` itself refused a write. The error is that of `err`, where
/// it refused the report.
pub fn run<W: io::Write, V: io::Write>(
    alloc: Global,
    tables: &str,
    out: &mut W,
    err: &mut V,
) -> io::Result<u8>
    ensures status { IfOk result (λ status. status ≤ 2) }
    ensures untouched { IfOk result (λ status. status ≡ 2
        → (out.new ≡ out.old) ⊎ Appends (V.contents err.old) (V.contents err.new) (codes "rast_rows: cannot write\n")) }
{
    let compared = match compare(alloc, tables) {
        Ok(compared) => compared,
        Err(Fault::Table) => return report(err, "rast_rows: a row without its parts\n"),
        Err(Fault::NoMemory) => return report(err, "rast_rows: no memory\n"),
    };
    let Ok(()) = write_page(out, compared.page.as_str()) else {
        return report(err, "rast_rows: cannot write\n");
    };
    if compared.different == 0 {
        Ok(0)
    } else {
        Ok(1)
    }
}
