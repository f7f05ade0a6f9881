//! The arguments of rules.
ghost use Rattle.std.specs.Prelude.{◌≡◌, ◌≢◌, ◌<◌, ◌≤◌, ◌+◌, ◌⊎◌};
ghost use Rattle.rap_base.specs.TokenKind.{EOF};
ghost use Rattle.rap_grammar_scripts.specs.Params as params_script;

use rap_base::T;
use rap_base::syntax_kind::SyntaxKind;

/// Whether an expression reads like a block: as a statement it needs no semicolon, and no operator may follow it.
#[derive(Clone, Copy, PartialEq, Eq)]
pub enum BlockLike {
    Block,
    NotBlock,
}

impl BlockLike {
    ghost use Rattle.rap_grammar_scripts.specs.Words.{of_like, is_block};

    pub fn is_block(self) -> bool
        ensures { result ≡ is_block (of_like self) }
    {
        matches!(self, BlockLike::Block)
    }
}

/// Restrictions of an expression: no record literal may be in it, as before the block of an `if`; as a statement it
/// ends after a block.
#[derive(Clone, Copy)]
pub struct Restrictions {
    pub forbid_structs: bool,
    pub prefer_stmt: bool,
}

/// Whether a statement ends with a semicolon. It may be missing from the last statement of a macro; a statement that is
/// parsed alone takes none.
#[derive(Clone, Copy, PartialEq, Eq)]
pub enum Semicolon {
    Required,
    Optional,
    Forbidden,
}

/// The kind of a list of parameters: those of a function, a function pointer or a closure.
#[derive(Clone, Copy, PartialEq, Eq)]
pub enum Flavor {
    FnDef,
    FnPointer,
    Closure,
}

impl Flavor {
    /// The token before the list.
    pub fn bra(self) -> SyntaxKind
        ensures kind { result ≡ params_script.bra self }
        ensures some { result ≢ EOF }
    {
        match self {
            Flavor::FnDef | Flavor::FnPointer => T!['('],
            Flavor::Closure => T![|],
        }
    }

    /// The token after the list.
    pub fn ket(self) -> SyntaxKind
        ensures kind { result ≡ params_script.ket self }
        ensures some { result ≢ EOF }
    {
        match self {
            Flavor::FnDef | Flavor::FnPointer => T![')'],
            Flavor::Closure => T![|],
        }
    }
}

/// The place of a path: it determines which arguments its names may have, and before which tokens the search for a name
/// stops.
#[derive(Clone, Copy)]
pub enum Mode {
    Use,
    Attr,
    Type,
    Expr,
    Vis,
}
