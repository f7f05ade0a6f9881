//! What is told of a text: nothing if it is in the core grammar, and else the lines of what is outside.
ghost use Rattle.std.specs.Prelude.{◌≡◌, ◌++◌, IfErr, IfOk, MatchOption, OnOk, string_bytes};
ghost use Rattle.rap_core.specs.Derived.{IsDerived};
ghost use Rattle.rast_print.specs.Shown.{Comes};
ghost use Rattle.rast_core.specs.Listed.{all_lines, front_of, place_line, place_lines};
ghost use Rattle.rast_core.specs.Page.{AreLines, shown_of};

use ra_ap_parser::{Edition, NoMemory, TextFault};
use rap_core::{Place, Places, outside_core};
use rast_common::show::Show;
use std::alloc::{AllocError, Global};
use std::fmt::Write as _;
use std::io;

/// The lines of what is outside of the core grammar.
#[derive(Drop)]
pub struct Lines {
    pub text: String,
}

/// The status of a text of which something is outside.
const OUTSIDE: u8 = 1;

/// The lines are written, and the status is 1.
impl Show for Lines {
    ghost shown = { shown_of };

    fn write<W: io::Write>(&self, out: &mut W) -> io::Result<()> {
        out.write_all(self.text.as_bytes())
    }

    fn status(&self) -> u8 {
        OUTSIDE
    }
}

/// Adds the line of a place, which begins with the front.
fn push_line(lines: &mut String, front: &str, place: &Place) -> Result<(), AllocError>
    ensures { OnOk result (string_bytes lines.new ≡ string_bytes lines.old ++ place_line front.now place.now) }
{
    let (start, end) = (place.start, place.end);
    lines.push_str(front)?;
    lines.push_str(place.kind.name())?;
    write!(lines, "@{start}..{end}\n")?;
    Ok(())
}

/// Adds the lines of places.
fn push_lines(lines: &mut String, front: &str, places: &[Place]) -> Result<(), AllocError>
    ensures { OnOk result (string_bytes lines.new ≡ string_bytes lines.old ++ place_lines front.now places.now) }
{
    'places: for place in places {
        push_line(lines, front, place)?;
    }
    Ok(())
}

/// What each line begins with: the file and a colon, where the file is told.
fn front_of(alloc: Global, file: Option<&str>) -> Result<String, AllocError>
    ensures { IfOk result (λ front. string_bytes front ≡ front_of file.entry) }
{
    let mut front = String::new(alloc);
    if let Some(file) = file {
        front.push_str(file)?;
        front.push_str(":")?;
    }
    Ok(front)
}

/// The lines of tokens, and after them those of nodes.
fn lines_of(alloc: Global, file: Option<&str>, places: &Places) -> Result<Lines, NoMemory>
    ensures { IfOk result (λ lines. string_bytes lines.text ≡ all_lines (front_of file.entry) places.now) }
{
    let front = front_of(alloc, file)?;
    let mut text = String::new(alloc);
    push_lines(&mut text, front.as_str(), places.tokens.as_slice())?;
    push_lines(&mut text, front.as_str(), places.nodes.as_slice())?;
    Ok(Lines { text })
}

/// The lines of what is outside, each with the file where that is told. `None` if the text is in the core grammar.
pub fn lines_outside(
    alloc: Global,
    edition: Edition,
    file: Option<&str>,
    text: &str,
) -> Result<Option<Lines>, TextFault<NoMemory>>
    ensures told { IfOk result (λ told. MatchOption told (IsDerived text.now edition) (AreLines (front_of file.entry) text.now edition)) }
    ensures fault { IfErr result (Comes text.now edition) }
{
    let Some(places) = outside_core(alloc, edition, text)? else {
        return Ok(None);
    };
    match lines_of(alloc, file, &places) {
        Ok(lines) => Ok(Some(lines)),
        Err(NoMemory) => Err(TextFault::NoMemory),
    }
}
