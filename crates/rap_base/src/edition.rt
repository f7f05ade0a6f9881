//! Editions of the language.
ghost use Rattle.std.specs.Prelude.{◌≡◌, Some, codes};
ghost use Rattle.rap_base.specs.Edition.{at_least_2018, at_least_2024, year, IsRead};

use std::error::Error;
use std::fmt;
use std::str::FromStr;

/// An edition of Rust. Editions are ordered by year.
#[derive(Clone, Copy, PartialEq, Eq, PartialOrd, Ord, Hash, Debug)]
pub enum Edition {
    Edition2015,
    Edition2018,
    Edition2021,
    Edition2024,
}

impl Edition {
    /// The edition that new packages use by default.
    pub const CURRENT: Edition = Edition::Edition2024;

    /// The latest edition.
    pub const LATEST: Edition = Edition::Edition2024;

    /// Whether this is the edition 2018 or a later one.
    pub fn at_least_2018(self) -> bool
        ensures { result ≡ at_least_2018 self }
    {
        self >= Edition::Edition2018
    }

    /// Whether this is the edition 2024 or a later one, as [`Edition::CURRENT`] and [`Edition::LATEST`] are.
    pub fn at_least_2024(self) -> bool
        ensures test { result ≡ at_least_2024 self }
        ensures current { year Edition.CURRENT ≡ 2024 }
        ensures latest { year Edition.LATEST ≡ 2024 }
    {
        self >= Edition::Edition2024
    }
}

/// Reads an edition from the four digits of its year. Any other text is an error.
impl FromStr for Edition {
    type Err = InvalidEdition;

    ghost from_str_gives = { IsRead };

    fn from_str(text: &str) -> Result<Edition, InvalidEdition> {
        match text {
            "2015" => Ok(Edition::Edition2015),
            "2018" => Ok(Edition::Edition2018),
            "2021" => Ok(Edition::Edition2021),
            "2024" => Ok(Edition::Edition2024),
            _ => Err(InvalidEdition),
        }
    }
}

/// The error of a text that is not the year of an edition.
#[derive(Clone, Copy, PartialEq, Eq, Debug)]
pub struct InvalidEdition;

impl fmt::Display for InvalidEdition {
    ghost output = { λ _. Some (codes "invalid edition") };

    fn fmt<W: fmt::Write>(&self, f: &mut fmt::Formatter<W>) -> fmt::Result {
        f.write_str("invalid edition")
    }
}

impl Error for InvalidEdition {}
