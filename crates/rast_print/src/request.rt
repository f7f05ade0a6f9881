//! The arguments of a command line.

use crate::entry::Entry;
use ra_ap_parser::{Edition, TopEntryPoint};
use std::env;
use std::rt::Env;

/// A file, and how it is to be read.
#[derive(Drop)]
pub struct Request {
    pub edition: Edition,
    pub entry: TopEntryPoint,
    pub file: String,
}

/// Reads the program's arguments `EDITION ENTRY FILE [LAST]`, and whether the word `LAST` is there. `None` for any other
/// words.
pub fn read_tree_request<R: Env + AllocGlobal>(rt: &R, last: &str) -> Option<(Request, bool)> {
    let mut args = env::args(rt).ok()?;
    let _program = args.next();
    let (Some(edition), Some(entry), Some(file)) = (args.next(), args.next(), args.next()) else {
        return None;
    };
    let has_last = match args.next() {
        Some(word) => {
            if word.as_str() != last {
                return None;
            }
            true
        }
        None => false,
    };
    if args.next().is_some() {
        return None;
    }
    let request = request_of(edition.as_str(), entry.as_str(), file)?;
    Some((request, has_last))
}

/// Reads the words of an edition and of an entry point.
fn request_of(edition: &str, entry: &str, file: String) -> Option<Request> {
    let edition = edition.parse::<Edition>().ok()?;
    let Entry(entry) = entry.parse::<Entry>().ok()?;
    Some(Request {
        edition,
        entry,
        file,
    })
}
