//! The words of a command line.
ghost use Rattle.rast_common.specs.Words.{texts};
ghost use Rattle.rast_lex.specs.Words.{IsListing, IsRead};

use crate::run::Listing;
use rap_base::edition::Edition;
use rast_common::words::{WrongWords, read_edition};

/// A file, and what is to be listed of it.
#[derive(Clone, Copy, Debug)]
pub struct Request<'a> {
    pub edition: Edition,
    pub file: &'a str,
    pub listing: Listing,
}

/// What the place of a listing takes.
const LISTING: &str = "listing (input, single or script)";

/// Reads the word of a listing.
fn read_listing(word: &str) -> Result<Listing, WrongWords<'_>>
    ensures { IsListing word.now result }
{
    match word.parse::<Listing>() {
        Ok(listing) => Ok(listing),
        Err(_) => Err(WrongWords::Word {
            word,
            place: LISTING,
        }),
    }
}

/// Reads the words `EDITION FILE [input|single|script]`. The error is the first of these that holds: there are too few
/// or too many, the edition is none, the listing is none.
pub fn read_request(words: &[String]) -> Result<Request<'_>, WrongWords<'_>>
    ensures { IsRead (texts words.now) result }
{
    match words {
        [edition, file] => Ok(Request {
            edition: read_edition(edition.as_str())?,
            file: file.as_str(),
            listing: Listing::Tokens,
        }),
        [edition, file, listing] => Ok(Request {
            edition: read_edition(edition.as_str())?,
            file: file.as_str(),
            listing: read_listing(listing.as_str())?,
        }),
        _ => Err(WrongWords::Number),
    }
}
