//! Kinds of tokens and nodes.
ghost use Rattle.std.specs.Prelude.{◌≡◌, ℕ, ◌≤◌, Some};
ghost use Rattle.rap_base.specs.Names.{name_of};
ghost use Rattle.rap_base.specs.NodeKind.{PATH_META};

use std::fmt;
use std::marker::Model;

mod constants;
mod keywords;
mod names;
mod table;
mod token_tests;
mod word_table;
mod words;

/// The kind of a token or a node, as its number in the table of kinds. Contracts see that number.
///
/// The tokens come first, from `EOF` to `SHEBANG`, then the nodes from `TOMBSTONE` on. `ERROR` is both a
/// token and a node.
#[derive(Clone, Copy, PartialEq, Eq, PartialOrd, Ord, Hash)]
pub struct SyntaxKind {
    number: u16,
}

impl Model for SyntaxKind {
    ghost Value = { ℕ };

    ghost view = { λ k. k.number };

    ghost invariant = { λ k. k.number ≤ PATH_META };

    ghost inverse = { λ n. record { number = n } };
}

/// Prints the kind's name.
impl fmt::Debug for SyntaxKind {
    ghost debug_output = { λ kind. Some (name_of kind) };

    fn fmt<W: fmt::Write>(&self, f: &mut fmt::Formatter<W>) -> fmt::Result {
        f.write_str(self.name())
    }
}

/// The number of a kind.
impl From<SyntaxKind> for u16 {
    ghost from_gives = { λ k r. (r ≡ k) × (r ≤ PATH_META) };

    fn from(kind: SyntaxKind) -> u16 {
        kind.number
    }
}

impl SyntaxKind {
    /// Returns the kind with the number `d`: the inverse of `u16::from`. The last kind is `PATH_META`.
    pub fn from_u16(d: u16) -> SyntaxKind
        requires { d ≤ PATH_META }
        ensures { result ≡ d }
    {
        SyntaxKind { number: d }
    }
}
