//! How the text of a row is read, and the row's name for it.
//!
//! `Expr` and the other top entry points: the lines of the text's tree and messages. `steps/Expr`: the steps of the
//! whole text. `prefix/Expr` and the other prefix entry points: a prefix. `reparse/NODE/FIRST/PARENT`: a node that is
//! parsed again, by its kind, that of its first child and that of its parent, with a dash for none.
ghost use Rattle.std.specs.Prelude.{◌≡◌, ◌++◌, OnOk, string_bytes};
ghost use Rattle.rast_replay.specs.Way.{name_of_way, name_of_asked};

use ra_ap_parser::TopEntryPoint;
use rast_print::asked::{Asked, Prefix, kind_name, prefix_name, read_kind};
use rast_print::entry::{Entry, entry_name};
use std::alloc::AllocError;
use std::fmt::Write as _;

/// How the text of a row is read.
#[derive(Clone, Copy, Debug)]
pub enum Way {
    /// As a tree, with its messages.
    Tree(TopEntryPoint),
    /// As a listing.
    List(Asked),
}

/// Reads `NODE/FIRST/PARENT`. `None` for any other words.
fn read_node(words: &str) -> Option<Asked> {
    let (node, rest) = words.split_once('/')?;
    let (first, parent) = rest.split_once('/')?;
    Some(Asked::Reparse {
        node: read_kind(node)??,
        first_child: read_kind(first)?,
        parent: read_kind(parent)?,
    })
}

/// Reads what is listed of a text. `None` for any other words.
fn read_asked(word: &str, rest: &str) -> Option<Asked> {
    match word {
        "steps" => {
            let Entry(entry) = rest.parse::<Entry>().ok()?;
            Some(Asked::Steps(entry))
        }
        "prefix" => {
            let Prefix(entry) = rest.parse::<Prefix>().ok()?;
            Some(Asked::Prefix(entry))
        }
        "reparse" => read_node(rest),
        _ => None,
    }
}

/// Reads how a text is read. `None` if the word names no way.
///
/// The contract says nothing about the result: the caller prints the way's name and compares it with the word it read.
pub fn read_way(name: &str) -> Option<Way> {
    let Some((word, rest)) = name.split_once('/') else {
        let Entry(entry) = name.parse::<Entry>().ok()?;
        return Some(Way::Tree(entry));
    };
    let asked = read_asked(word, rest)?;
    Some(Way::List(asked))
}

/// Adds the name of what is listed.
fn push_asked(row: &mut String, asked: Asked) -> Result<(), AllocError>
    ensures { OnOk result (string_bytes row.new ≡ string_bytes row.old ++ name_of_asked asked) }
{
    match asked {
        Asked::Steps(entry) => write!(row, "steps/{}", entry_name(entry))?,
        Asked::Prefix(entry) => write!(row, "prefix/{}", prefix_name(entry))?,
        Asked::Reparse {
            node,
            first_child,
            parent,
        } => {
            let first_child = kind_name(first_child);
            let parent = kind_name(parent);
            write!(row, "reparse/{}/{first_child}/{parent}", node.name())?
        }
    }
    Ok(())
}

/// Adds the name of a way.
pub fn push_way(row: &mut String, way: &Way) -> Result<(), AllocError>
    ensures { OnOk result (string_bytes row.new ≡ string_bytes row.old ++ name_of_way way.now) }
{
    match way {
        Way::Tree(entry) => row.push_str(entry_name(*entry))?,
        Way::List(asked) => push_asked(row, *asked)?,
    }
    Ok(())
}
