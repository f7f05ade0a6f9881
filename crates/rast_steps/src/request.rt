//! The words of a command line.
ghost use Rattle.std.specs.Prelude.{◌∷◌, [], codes};
ghost use Rattle.rast_common.specs.Words.{texts};
ghost use Rattle.rast_steps.specs.Request.{IsKindOrDash, IsPrefix, IsRead, IsWay};

use ra_ap_parser::{Edition, PrefixEntryPoint, SyntaxKind};
use rast_common::words::{WrongWords, read_edition};
use rast_print::asked::{Asked, Prefix, kind_named, read_kind};
use rast_print::entry::read_entry;

/// A file, and what is to be listed of it.
#[derive(Clone, Copy, Debug)]
pub struct Request<'a> {
    pub asked: Asked,
    pub edition: Edition,
    pub file: &'a str,
}

/// What the first word asks for.
#[derive(Clone, Copy, Debug)]
enum Way {
    Steps,
    Prefix,
    Reparse,
}

const WAY: &str = "first word (--steps, --prefix or --reparse)";

const PREFIX: &str = "PREFIX (Vis, Block, Stmt, Pat, PatTop, Ty, Expr, Path, Item or MetaItem)";

const NODE: &str = "NODE (a kind of nodes, as BLOCK_EXPR)";

const FIRST: &str = "FIRST (a kind, as LET_STMT, or -)";

const PARENT: &str = "PARENT (a kind of nodes, as FN, or -)";

/// Reads the first word.
fn read_way(word: &str) -> Result<Way, WrongWords<'_>>
    ensures { IsWay word.now result }
{
    match word {
        "--steps" => Ok(Way::Steps),
        "--prefix" => Ok(Way::Prefix),
        "--reparse" => Ok(Way::Reparse),
        _ => Err(WrongWords::Word { word, place: WAY }),
    }
}

/// Reads the word of a prefix entry point.
fn read_prefix(word: &str) -> Result<PrefixEntryPoint, WrongWords<'_>>
    ensures { IsPrefix word.now result }
{
    match word.parse::<Prefix>() {
        Ok(Prefix(entry)) => Ok(entry),
        Err(_) => Err(WrongWords::Word {
            word,
            place: PREFIX,
        }),
    }
}

/// The kind with this name, or no kind for a dash. `None` if the word is neither.
fn read_kind_or_dash(word: &str) -> Option<Option<SyntaxKind>>
    ensures { IsKindOrDash word.now result }
{
    match read_kind(word) {
        Some(Some(kind)) => Some(Some(kind)),
        Some(None) => Some(None),
        None => None,
    }
}

/// Reads the words after `--steps`.
fn read_steps<'a>(
    entry: &'a str,
    edition: &'a str,
    file: &'a str,
) -> Result<Request<'a>, WrongWords<'a>>
    ensures { IsRead (codes "--steps" ∷ entry.now ∷ edition.now ∷ file.now ∷ []) result }
{
    let asked = Asked::Steps(read_entry(entry)?);
    let edition = read_edition(edition)?;
    Ok(Request {
        asked,
        edition,
        file,
    })
}

/// Reads the words after `--prefix`.
fn read_front<'a>(
    entry: &'a str,
    edition: &'a str,
    file: &'a str,
) -> Result<Request<'a>, WrongWords<'a>>
    ensures { IsRead (codes "--prefix" ∷ entry.now ∷ edition.now ∷ file.now ∷ []) result }
{
    let asked = Asked::Prefix(read_prefix(entry)?);
    let edition = read_edition(edition)?;
    Ok(Request {
        asked,
        edition,
        file,
    })
}

/// Reads the words after `--reparse`.
fn read_again<'a>(
    node: &'a str,
    first: &'a str,
    parent: &'a str,
    edition: &'a str,
    file: &'a str,
) -> Result<Request<'a>, WrongWords<'a>>
    ensures { IsRead (codes "--reparse" ∷ node.now ∷ first.now ∷ parent.now ∷ edition.now ∷ file.now ∷ []) result }
{
    let Some(node_kind) = kind_named(node) else {
        return Err(WrongWords::Word {
            word: node,
            place: NODE,
        });
    };
    let Some(first_child) = read_kind_or_dash(first) else {
        return Err(WrongWords::Word {
            word: first,
            place: FIRST,
        });
    };
    let Some(parent_kind) = read_kind_or_dash(parent) else {
        return Err(WrongWords::Word {
            word: parent,
            place: PARENT,
        });
    };
    let asked = Asked::Reparse {
        node: node_kind,
        first_child,
        parent: parent_kind,
    };
    let edition = read_edition(edition)?;
    Ok(Request {
        asked,
        edition,
        file,
    })
}

/// Reads the words `--steps ENTRY EDITION FILE`, `--prefix PREFIX EDITION FILE` or
/// `--reparse NODE FIRST PARENT EDITION FILE`. The error is the first of these that holds: there is no word, the first
/// is none of the three, it has too few or too many words after it, one of these is none of what its place takes.
pub fn read_request(words: &[String]) -> Result<Request<'_>, WrongWords<'_>>
    ensures { IsRead (texts words.now) result }
{
    let Some(way) = words.first() else {
        return Err(WrongWords::Number);
    };
    match (read_way(way.as_str())?, words) {
        (Way::Steps, [_, entry, edition, file]) => {
            read_steps(entry.as_str(), edition.as_str(), file.as_str())
        }
        (Way::Prefix, [_, entry, edition, file]) => {
            read_front(entry.as_str(), edition.as_str(), file.as_str())
        }
        (Way::Reparse, [_, node, first, parent, edition, file]) => read_again(
            node.as_str(),
            first.as_str(),
            parent.as_str(),
            edition.as_str(),
            file.as_str(),
        ),
        _ => Err(WrongWords::Number),
    }
}
