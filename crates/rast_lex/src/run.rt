//! All that the program does once its file is read.
ghost use Rattle.std.specs.Prelude.{◌≡◌, IfErr, IfOk, codes};
ghost use Rattle.rast_common.specs.Ran.{Ran};
ghost use Rattle.rast_lex.specs.Page.{Comes, Lists, Makes, fault_of, shown_of};
ghost use Rattle.rast_lex.specs.Words.{IsAsked};

use crate::listing::{Page, list_input, list_script, list_single, list_tokens};
use rap_base::edition::Edition;
use rap_lexed::lexed_str::LexFault;
use rast_common::fault::Fault;
use rast_common::show::finish;
use std::alloc::Global;
use std::io;
use std::str::FromStr;

/// What is to be listed.
#[derive(Clone, Copy, Debug)]
pub enum Listing {
    /// The tokens and the lexer's messages.
    Tokens,
    /// The parser's input.
    Input,
    /// The text as a single token.
    Single,
    /// The parts of a script.
    Script,
}

/// The word is not the name of a listing.
#[derive(Clone, Copy, PartialEq, Eq, Debug)]
pub struct InvalidListing;

/// Reads what is to be listed from its word.
impl FromStr for Listing {
    type Err = InvalidListing;

    ghost from_str_gives = { IsAsked };

    fn from_str(s: &str) -> Result<Listing, InvalidListing> {
        match s {
            "input" => Ok(Listing::Input),
            "single" => Ok(Listing::Single),
            "script" => Ok(Listing::Script),
            _ => Err(InvalidListing),
        }
    }
}

/// Lists what the arguments name.
fn list(alloc: Global, edition: Edition, listing: Listing, text: &str) -> Result<Page, LexFault>
    ensures lists { IfOk result (Lists text.now edition listing) }
    ensures fault { IfErr result (Comes text.now listing) }
{
    match listing {
        Listing::Tokens => list_tokens(alloc, edition, text),
        Listing::Input => list_input(alloc, edition, text),
        Listing::Single => list_single(alloc, edition, text),
        Listing::Script => list_script(alloc, text),
    }
}

/// What is reported about a fault.
fn fault_of(fault: LexFault) -> Fault
    ensures { result ≡ fault_of fault }
{
    match fault {
        LexFault::TextTooLong => Fault::TextTooLong,
        LexFault::NoMemory => Fault::NoMemory,
    }
}

/// Lists what the arguments name; an error is what is reported.
fn make(alloc: Global, edition: Edition, listing: Listing, text: &str) -> Result<Page, Fault>
    ensures { Makes text.now edition listing result }
{
    match list(alloc, edition, listing, text) {
        Ok(page) => Ok(page),
        Err(fault) => Err(fault_of(fault)),
    }
}

/// Lists what the arguments name.
///
/// Returns the program's status: 0 where no message is listed, 1 where there is one, and 2 at a fault, which is
/// reported on `err`. At a fault nothing is written to `out`, unless `out` itself refused a write. The error is that of
/// `err`, where it refused the report.
pub fn run<W: io::Write, V: io::Write>(
    alloc: Global,
    edition: Edition,
    listing: Listing,
    text: &str,
    out: &mut W,
    err: &mut V,
) -> io::Result<u8>
    ensures { Ran (codes "rast_lex") shown_of (Makes text.now edition listing)
        W.contents out.old out.new V.contents err.old err.new result }
{
    let made = make(alloc, edition, listing, text);
    finish("rast_lex", made, out, err)
}
