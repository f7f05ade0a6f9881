//! Entry points by their names.
ghost use Rattle.std.specs.Prelude.{◌≡◌};
ghost use Rattle.rast_print.specs.EntryName.{IsEntry, IsNamed, name_of_entry};

use ra_ap_parser::TopEntryPoint;
use rast_common::words::WrongWords;
use std::str::FromStr;

/// An entry point as a command line and a record name it.
#[derive(Clone, Copy, Debug)]
pub struct Entry(pub TopEntryPoint);

/// The word is not the name of an entry point.
#[derive(Clone, Copy, PartialEq, Eq, Debug)]
pub struct InvalidEntry;

/// Reads an entry point from its name.
impl FromStr for Entry {
    type Err = InvalidEntry;

    ghost from_str_gives = { IsNamed };

    fn from_str(s: &str) -> Result<Entry, InvalidEntry> {
        match s {
            "SourceFile" => Ok(Entry(TopEntryPoint::SourceFile)),
            "MacroStmts" => Ok(Entry(TopEntryPoint::MacroStmts)),
            "MacroItems" => Ok(Entry(TopEntryPoint::MacroItems)),
            "Pattern" => Ok(Entry(TopEntryPoint::Pattern)),
            "Type" => Ok(Entry(TopEntryPoint::Ty)),
            "Expr" => Ok(Entry(TopEntryPoint::Expr)),
            "MetaItem" => Ok(Entry(TopEntryPoint::MetaItem)),
            _ => Err(InvalidEntry),
        }
    }
}

/// What the place of an entry point takes.
const ENTRY: &str = "ENTRY (SourceFile, MacroItems, MacroStmts, Pattern, Type, Expr or MetaItem)";

/// Reads the word of an entry point.
pub fn read_entry(word: &str) -> Result<TopEntryPoint, WrongWords<'_>>
    ensures { IsEntry word.now result }
{
    match word.parse::<Entry>() {
        Ok(Entry(entry)) => Ok(entry),
        Err(_) => Err(WrongWords::Word { word, place: ENTRY }),
    }
}

/// An entry point's name.
pub fn entry_name(entry: TopEntryPoint) -> &'static str
    ensures { result.now ≡ name_of_entry entry }
{
    match entry {
        TopEntryPoint::SourceFile => "SourceFile",
        TopEntryPoint::MacroStmts => "MacroStmts",
        TopEntryPoint::MacroItems => "MacroItems",
        TopEntryPoint::Pattern => "Pattern",
        TopEntryPoint::Ty => "Type",
        TopEntryPoint::Expr => "Expr",
        TopEntryPoint::MetaItem => "MetaItem",
    }
}
