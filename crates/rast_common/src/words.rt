//! The words of a command line.
ghost use Rattle.rast_common.specs.Words.{IsCommon, IsEdition, texts};

use rap_base::edition::Edition;
use std::rt::Env;
use std::{env, io};

/// What every program tells of itself.
#[derive(Clone, Copy, Debug)]
pub enum Common {
    /// Which words it takes.
    Help,
    /// Its version.
    Version,
}

/// Why words are refused.
#[derive(Clone, Copy, Debug)]
pub enum WrongWords<'a> {
    /// There are too few or too many.
    Number,
    /// A word is none of those that its place takes.
    Word { word: &'a str, place: &'static str },
}

/// What the place of an edition takes.
pub const EDITION: &str = "EDITION (2015, 2018, 2021 or 2024)";

/// The words of the command line without the program's name. The error is out of memory, or that a word is no UTF-8.
pub fn read_words<R: Env + AllocGlobal>(rt: &R) -> io::Result<Vec<String>> {
    let mut args = env::args(rt)?;
    let _program = args.next();
    let mut words = Vec::new(rt.alloc());
    for word in args {
        words.push(word)?;
    }
    Ok(words)
}

/// What a single `--help` or `--version` asks for. `None` for any other words.
pub fn read_common(words: &[String]) -> Option<Common>
    ensures { IsCommon (texts words.now) result }
{
    let [word] = words else {
        return None;
    };
    match word.as_str() {
        "--help" => Some(Common::Help),
        "--version" => Some(Common::Version),
        _ => None,
    }
}

/// Reads the word of an edition.
pub fn read_edition(word: &str) -> Result<Edition, WrongWords<'_>>
    ensures { IsEdition word.now result }
{
    match word.parse::<Edition>() {
        Ok(edition) => Ok(edition),
        Err(_) => Err(WrongWords::Word {
            word,
            place: EDITION,
        }),
    }
}
