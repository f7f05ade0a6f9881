//! All that the program does once its file is read.
ghost use Rattle.std.specs.Prelude.{◌≡◌, ◌++◌, IfErr, IfOk, OnOk, chars, codes, string_bytes};
ghost use Rattle.std.specs.Io.KnownBytes.{Appends};
ghost use Rattle.rast_common.specs.Ran.{Ran};
ghost use Rattle.rast_print.specs.Shown.{Comes};
ghost use Rattle.rast_page.specs.Json.{json_text};
ghost use Rattle.rast_page.specs.Page.{data_of, shown_of};
ghost use Rattle.rast_page.specs.Ran.{IsPage, Makes};

use crate::json::push_json;
use crate::rows::Rows;
use ra_ap_parser::{Edition, NoMemory, TextFault, TopEntryPoint, parse_text};
use rast_common::fault::Fault;
use rast_common::show::{Show, finish};
use rast_print::print_text::fault_of;
use std::alloc::{AllocError, Global};
use std::io;

/// The parts of a page that are the same for all files: the part before the data, and the part after it.
#[derive(Clone, Copy, Debug)]
pub struct Frame {
    pub head: &'static str,
    pub tail: &'static str,
}

/// A page: what is the same for all files, and of a file its name as a JSON string, and its rows.
#[derive(Drop)]
struct Page {
    frame: Frame,
    name: String,
    rows: Rows,
}

/// The file's name as a JSON string.
fn name_of_file(alloc: Global, file: &str) -> Result<String, AllocError>
    ensures { IfOk result (λ name. string_bytes name ≡ json_text (chars file.now)) }
{
    let mut name = String::new(alloc);
    push_json(&mut name, file)?;
    Ok(name)
}

/// The page of the file: its name, and the rows of the text's tree and of its messages, the tree's messages before the
/// lexer's.
fn page_of(
    alloc: Global,
    edition: Edition,
    entry: TopEntryPoint,
    frame: &Frame,
    file: &str,
    text: &str,
) -> Result<Page, TextFault<NoMemory>>
    ensures page { IfOk result (IsPage frame.now file.now text.now edition entry) }
    ensures fault { IfErr result (Comes text.now edition) }
{
    let mut rows = Rows::new(alloc);
    let parsed = parse_text(alloc, edition, entry, text, &mut rows)?;
    let Ok(()) = parsed.lexed.report_errors(&mut rows) else {
        return Err(TextFault::NoMemory);
    };
    let Ok(name) = name_of_file(alloc, file) else {
        return Err(TextFault::NoMemory);
    };
    Ok(Page {
        frame: *frame,
        name,
        rows,
    })
}

/// The same; an error is what is reported.
fn make(
    alloc: Global,
    edition: Edition,
    entry: TopEntryPoint,
    frame: &Frame,
    file: &str,
    text: &str,
) -> Result<Page, Fault>
    ensures { Makes frame.now file.now text.now edition entry result }
{
    match page_of(alloc, edition, entry, frame, file, text) {
        Ok(page) => Ok(page),
        Err(fault) => Err(fault_of(&fault)),
    }
}

/// Writes two texts, one after the other.
fn write_both<W: io::Write>(out: &mut W, first: &str, second: &str) -> io::Result<()>
    ensures { OnOk result (Appends (W.contents out.old) (W.contents out.new) (first.now ++ second.now)) }
{
    out.write_all(first.as_bytes())?;
    out.write_all(second.as_bytes())
}

/// Writes the page's data.
fn write_data<W: io::Write>(out: &mut W, page: &Page) -> io::Result<()>
    ensures { OnOk result (Appends (W.contents out.old) (W.contents out.new) (data_of page.now)) }
{
    write_both(out, "{\"file\":", page.name.as_str())?;
    write_both(out, ",\"steps\":[0", page.rows.steps.as_str())?;
    write_both(out, "],\"messages\":[0", page.rows.messages.as_str())?;
    out.write_all(b"]}")?;
    Ok(())
}

/// The status is 0 where there is no message, and 1 where there is one.
impl Show for Page {
    ghost shown = { shown_of };

    fn write<W: io::Write>(&self, out: &mut W) -> io::Result<()> {
        out.write_all(self.frame.head.as_bytes())?;
        write_data(out, self)?;
        out.write_all(self.frame.tail.as_bytes())
    }

    fn status(&self) -> u8 {
        if self.rows.messages.is_empty() { 0 } else { 1 }
    }
}

/// Parses the text, and writes the page that shows it: the frame's head, the file's name, the tree's steps and the
/// messages as one JSON object, and the frame's tail.
///
/// Returns the program's status: 0 where there is no message, 1 where there is one, and 2 at a fault, which
/// is reported on `err`. At a fault nothing is written to `out`, unless `out` itself refused a write. The error is that
/// of `err`, where it refused the report.
pub fn run<W: io::Write, V: io::Write>(
    alloc: Global,
    edition: Edition,
    entry: TopEntryPoint,
    frame: &Frame,
    file: &str,
    text: &str,
    out: &mut W,
    err: &mut V,
) -> io::Result<u8>
    ensures { Ran (codes "rast_page") shown_of (Makes frame.now file.now text.now edition entry)
        W.contents out.old out.new V.contents err.old err.new result }
{
    let made = make(alloc, edition, entry, frame, file, text);
    finish("rast_page", made, out, err)
}
