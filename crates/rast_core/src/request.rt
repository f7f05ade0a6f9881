//! The words of a command line.
ghost use Rattle.rast_common.specs.Words.{texts};
ghost use Rattle.rast_core.specs.Words.{IsRead};

use ra_ap_parser::Edition;
use rast_common::words::{WrongWords, read_edition};

/// Files, folders or the standard input, and their edition.
#[derive(Clone, Copy, Debug)]
pub struct Request<'a> {
    pub edition: Edition,
    /// At least one.
    pub files: &'a [String],
}

/// Reads the words `EDITION FILE..`. The error is the first of these that holds: there are too few, the edition is none.
pub fn read_request(words: &[String]) -> Result<Request<'_>, WrongWords<'_>>
    ensures { IsRead (texts words.now) result }
{
    if words.len() < 2 {
        return Err(WrongWords::Number);
    }
    Ok(Request {
        edition: read_edition(words[0].as_str())?,
        files: &words[1..],
    })
}
