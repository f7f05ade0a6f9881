//! The lists of a text besides its tree, by their names.
ghost use Rattle.std.specs.Prelude.{◌≡◌};
ghost use Rattle.rast_print.specs.AskedName.{IsKindOf, IsReadAs, IsNamed, name_of_prefix, name_of_kind};

use ra_ap_parser::{PrefixEntryPoint, SyntaxKind, TopEntryPoint};
use std::str::FromStr;

/// How many kinds there are.
const KINDS: u16 = 330;

/// What is to be listed of a text.
#[derive(Clone, Copy, Debug)]
pub enum Asked {
    /// The steps of a whole input.
    Steps(TopEntryPoint),
    /// The steps of a prefix, and where it ends.
    Prefix(PrefixEntryPoint),
    /// A node that is parsed again, by its kind, that of its first child and that of its parent.
    Reparse {
        node: SyntaxKind,
        first_child: Option<SyntaxKind>,
        parent: Option<SyntaxKind>,
    },
}

/// A prefix entry point as a command line names it.
#[derive(Clone, Copy, Debug)]
pub struct Prefix(pub PrefixEntryPoint);

/// The word is not the name of a prefix entry point.
#[derive(Clone, Copy, PartialEq, Eq, Debug)]
pub struct InvalidPrefix;

/// Reads a prefix entry point from its name.
impl FromStr for Prefix {
    type Err = InvalidPrefix;

    ghost from_str_gives = { IsNamed };

    fn from_str(s: &str) -> Result<Prefix, InvalidPrefix> {
        match s {
            "Vis" => Ok(Prefix(PrefixEntryPoint::Vis)),
            "Block" => Ok(Prefix(PrefixEntryPoint::Block)),
            "Stmt" => Ok(Prefix(PrefixEntryPoint::Stmt)),
            "Pat" => Ok(Prefix(PrefixEntryPoint::Pat)),
            "PatTop" => Ok(Prefix(PrefixEntryPoint::PatTop)),
            "Ty" => Ok(Prefix(PrefixEntryPoint::Ty)),
            "Expr" => Ok(Prefix(PrefixEntryPoint::Expr)),
            "Path" => Ok(Prefix(PrefixEntryPoint::Path)),
            "Item" => Ok(Prefix(PrefixEntryPoint::Item)),
            "MetaItem" => Ok(Prefix(PrefixEntryPoint::MetaItem)),
            _ => Err(InvalidPrefix),
        }
    }
}

/// A prefix entry point's name.
pub fn prefix_name(entry: PrefixEntryPoint) -> &'static str
    ensures { result.now ≡ name_of_prefix entry }
{
    match entry {
        PrefixEntryPoint::Vis => "Vis",
        PrefixEntryPoint::Block => "Block",
        PrefixEntryPoint::Stmt => "Stmt",
        PrefixEntryPoint::Pat => "Pat",
        PrefixEntryPoint::PatTop => "PatTop",
        PrefixEntryPoint::Ty => "Ty",
        PrefixEntryPoint::Expr => "Expr",
        PrefixEntryPoint::Path => "Path",
        PrefixEntryPoint::Item => "Item",
        PrefixEntryPoint::MetaItem => "MetaItem",
    }
}

/// The kind with this name.
pub fn kind_named(name: &str) -> Option<SyntaxKind>
    ensures { IsKindOf name.now result }
{
    'kinds: for number in 0..KINDS {
        let kind = SyntaxKind::from_u16(number);
        if kind.name() == name {
            return Some(kind);
        }
    }
    None
}

/// The kind with this name, or no kind for a dash. `None` if the word is no kind's name.
pub fn read_kind(word: &str) -> Option<Option<SyntaxKind>>
    ensures { IsReadAs word.now result }
{
    if word == "-" {
        return Some(None);
    }
    match kind_named(word) {
        Some(kind) => Some(Some(kind)),
        None => None,
    }
}

/// A kind's name, or a dash where there is none.
pub fn kind_name(kind: Option<SyntaxKind>) -> &'static str
    ensures { result.now ≡ name_of_kind kind }
{
    match kind {
        Some(kind) => kind.name(),
        None => "-",
    }
}
