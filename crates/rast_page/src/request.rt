//! The words of a command line.
ghost use Rattle.rast_common.specs.Words.{texts};
ghost use Rattle.rast_page.specs.Words.{IsRead};

use ra_ap_parser::{Edition, TopEntryPoint};
use rast_common::words::{WrongWords, read_edition};
use rast_print::entry::read_entry;

/// A file, and how it is to be read.
#[derive(Clone, Copy, Debug)]
pub struct Request<'a> {
    pub edition: Edition,
    pub entry: TopEntryPoint,
    pub file: &'a str,
}

/// Reads the words `EDITION ENTRY FILE`. The error is the first of these that holds: there are too few or too many, the
/// edition is none, the entry is none.
pub fn read_request(words: &[String]) -> Result<Request<'_>, WrongWords<'_>>
    ensures { IsRead (texts words.now) result }
{
    let [edition, entry, file] = words else {
        return Err(WrongWords::Number);
    };
    let edition = read_edition(edition.as_str())?;
    let entry = read_entry(entry.as_str())?;
    Ok(Request {
        edition,
        entry,
        file: file.as_str(),
    })
}
