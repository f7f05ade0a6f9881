// Written by crates/rap_grammar_scripts/rules from rules.txt beside it: an edit here is lost.
//! The recursive rules, as the scripts and the functions name them.
use crate::arguments::{Restrictions, Semicolon};

/// A recursive rule with its arguments.
#[derive(Clone, Copy)]
pub enum Rule {
    /// An expression of at least the power `bp`, after its attributes.
    ExprBp {
        r: Restrictions,
        bp: u8,
    },
    /// A type, with bounds after it where they are allowed.
    TypeWithBoundsCond {
        allow_bounds: bool,
    },
    /// A path as a type, and bounds after it.
    PathTypeBounds,
    /// A generic argument.
    GenericArg,
    /// Generic parameters in angle brackets.
    GenericParamList,
    /// The bounds of a type, without the colon before them.
    BoundsWithoutColon,
    /// A `where` clause.
    WhereClause,
    /// A pattern, with its alternatives.
    Pattern,
    /// A pattern without alternatives.
    PatternSingle,
    /// The pattern of an arm of a `match`.
    ArmPattern,
    /// A statement.
    Stmt {
        semicolon: Semicolon,
    },
    /// An `if`, as it stands after an `else`.
    IfExpr,
    /// An item, or a macro call in its place: whether a closing brace ends the items, and whether they stand in an
    /// `extern` block.
    ItemOrMacro {
        stop_on_r_curly: bool,
        is_in_extern: bool,
    },
    /// A tree of names in the braces of a `use`.
    UseTree,
    /// The contents of an attribute's brackets.
    Meta,
    /// A condition in `cfg`.
    CfgPredicate,
    /// Tokens in brackets, with such lists among them.
    TokenTree,
}
