//! First sets: the tokens with which each kind of phrase may begin.
ghost use Rattle.std.specs.Prelude.{◌≡◌, ◌≢◌, ◌∷◌, ◌<◌, ◌≤◌, IsTrue, ◌⊎◌, true};
ghost use Rattle.rap_base.specs.TokenKind.{EOF};
ghost use Rattle.rap_events.specs.State.{state, next};
ghost use Rattle.rap_grammar_scripts.specs.First.{is_outer_attr_first, is_expr_first, is_const_arg_first, is_type_first, is_generic_arg_first, is_path_name, is_path_first, is_path_start, is_use_path_start, is_pattern_first, is_pat_top_first, is_fn_ptr_first, is_literal_first, is_atom_expr_first};
ghost use Rattle.rap_grammar_scripts.specs.Test.{holds};

use crate::names::is_path_name;
use rap_base::T;
use rap_base::syntax_kind::SyntaxKind;
use rap_events::parser::Parser;

/// Whether an outer attribute begins with a token of this kind.
pub fn is_outer_attr_first(kind: SyntaxKind) -> bool
    ensures { result ≡ is_outer_attr_first kind }
{
    matches!(kind, T![#] | SyntaxKind::OUTER_DOC_COMMENT)
}

/// Whether an expression may begin with a token of this kind: a `.` may be the first of `..`, and a `#` that of an
/// attribute.
#[inline(always)]
pub fn is_expr_first(kind: SyntaxKind) -> bool
    ensures first { result ≡ is_expr_first kind }
    ensures more { IsTrue result → kind ≢ EOF }
{
    is_atom_expr_first(kind)
        || matches!(kind, T![&] | T![*] | T![!] | T![.] | T![-] | T![_] | T![#])
}

/// Whether a constant as an argument begins with a token of this kind, if it is no name.
pub fn is_const_arg_first(kind: SyntaxKind) -> bool
    ensures { result ≡ is_const_arg_first kind }
{
    is_literal_first(kind) || matches!(kind, T!['{'] | T![-])
}

/// Whether an argument may begin with a token of this kind.
pub fn is_generic_arg_first(kind: SyntaxKind) -> bool
    ensures { result ≡ is_generic_arg_first kind }
{
    is_type_first(kind) || is_const_arg_first(kind)
}

/// Whether a path may begin with a token of this kind: a `:` may be the first of `::`.
#[inline(always)]
pub fn is_path_first(kind: SyntaxKind) -> bool
    ensures { result ≡ is_path_first kind }
{
    is_path_name(kind) || matches!(kind, T![:] | T![<])
}

/// Whether a path comes next.
pub fn is_path_start(p: &Parser<'_>) -> bool
    ensures { result ≡ holds is_path_start (state p.now).rest }
{
    is_path_name(p.current()) || p.at(T![::]) || p.at(T![<])
}

/// Whether a path comes next that begins with a name or `::`, and with no `Self`.
pub fn is_use_path_start(p: &Parser<'_>) -> bool
    ensures { result ≡ holds is_use_path_start (state p.now).rest }
{
    matches!(p.current(), T![ident] | T![self] | T![super] | T![crate]) || p.at(T![::])
}

/// Whether a pattern without alternatives may begin with a token of this kind.
pub fn is_pattern_first(kind: SyntaxKind) -> bool
    ensures { result ≡ is_pattern_first kind }
{
    is_literal_first(kind)
        || is_path_first(kind)
        || matches!(
            kind,
            T![box]
                | T![ref]
                | T![mut]
                | T![const]
                | T!['(']
                | T!['[']
                | T![&]
                | T![_]
                | T![-]
                | T![.]
                | T![!]
        )
}

/// Whether a pattern may begin with a token of this kind.
pub fn is_pat_top_first(kind: SyntaxKind) -> bool
    ensures { result ≡ is_pat_top_first kind }
{
    is_pattern_first(kind) || kind == T![|]
}

/// Whether a type may begin with a token of this kind: a `:` may be the first of `::`.
pub fn is_type_first(kind: SyntaxKind) -> bool
    ensures { result ≡ is_type_first kind }
{
    is_path_first(kind)
        || matches!(
            kind,
            T!['(']
                | T!['[']
                | T![!]
                | T![*]
                | T![&]
                | T![_]
                | T![fn]
                | T![unsafe]
                | T![extern]
                | T![for]
                | T![impl]
                | T![dyn]
                | T![lifetime_ident]
        )
}

/// Whether a function pointer begins with a token of this kind.
pub fn is_fn_ptr_first(kind: SyntaxKind) -> bool
    ensures { result ≡ is_fn_ptr_first kind }
{
    matches!(kind, T![fn] | T![unsafe] | T![extern])
}

/// Whether a kind is a literal.
#[inline(always)]
pub fn is_literal_first(kind: SyntaxKind) -> bool
    ensures { result ≡ is_literal_first kind }
{
    matches!(
        kind,
        T![true]
            | T![false]
            | T![int_number]
            | SyntaxKind::FLOAT_NUMBER
            | SyntaxKind::BYTE
            | SyntaxKind::CHAR
            | T![string]
            | SyntaxKind::BYTE_STRING
            | SyntaxKind::C_STRING
    )
}

/// Whether an expression without an operator before it may begin with a token of this kind.
#[inline(always)]
fn is_atom_expr_first(kind: SyntaxKind) -> bool
    ensures { result ≡ is_atom_expr_first kind }
{
    is_literal_first(kind)
        || is_path_first(kind)
        || matches!(
            kind,
            T!['(']
                | T!['{']
                | T!['[']
                | T![|]
                | T![async]
                | T![break]
                | T![const]
                | T![continue]
                | T![do]
                | T![gen]
                | T![for]
                | T![if]
                | T![let]
                | T![loop]
                | T![match]
                | T![move]
                | T![return]
                | T![become]
                | T![static]
                | T![try]
                | T![unsafe]
                | T![while]
                | T![yield]
                | T![lifetime_ident]
        )
}
