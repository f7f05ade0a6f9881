//! Tests that must not hold.
ghost use Rattle.std.specs.Prelude.{◌≡◌, ◌≤◌, List, length, [], ◌∷◌, IsTrue};
ghost use Rattle.rap_base.specs.TokenKind.{BANG, CONST_KW, FOR_KW, IMPL_KW, LIFETIME_IDENT, L_ANGLE, L_PAREN};
ghost use Rattle.rap_events.specs.Record.{Record, kind_at, joint_at};
ghost use Rattle.rap_grammar_rows.specs.Claims.{IsRefused, Segment};
ghost use Rattle.rap_grammar_rows.specs.Excluders.{coming, colons_behind, is_excluded, no_ident_pat, no_named_param, no_restriction, none_of, not_twice, params_begin, path_or_pointer};

use rap_base::syntax_kind::SyntaxKind;
use rap_events::input::Input;

/// What is known of the tokens up to an end: the kinds of the first three, and whether the first two touch the next
/// one. Past the end a kind is `EOF`, and nothing touches.
#[derive(Clone, Copy)]
pub struct Ahead {
    pub first: SyntaxKind,
    pub first_joint: bool,
    pub second: SyntaxKind,
    pub second_joint: bool,
    pub third: SyntaxKind,
}

/// The kind of the token so many places further, before an end.
fn kind_before(input: &Input, at: usize, end: usize, further: usize) -> SyntaxKind
    requires start { at ≤ end }
    requires end { end ≤ length input.now }
    ensures { (ks : List Record) → Segment input.now at end ks → result ≡ kind_at ks further }
{
    if further < end - at {
        input.kind(at + further)
    } else {
        SyntaxKind::EOF
    }
}

/// Whether the token so many places further, before an end, touches the next one.
fn joint_before(input: &Input, at: usize, end: usize, further: usize) -> bool
    requires start { at ≤ end }
    requires end { end ≤ length input.now }
    ensures { (ks : List Record) → Segment input.now at end ks → result ≡ joint_at ks further }
{
    if further < end - at {
        input.is_joint(at + further)
    } else {
        false
    }
}

/// What is known of the tokens from one on up to an end.
fn coming(input: &Input, at: usize, end: usize) -> Ahead
    requires start { at ≤ end }
    requires end { end ≤ length input.now }
    ensures { (ks : List Record) → Segment input.now at end ks → result ≡ coming ks }
{
    Ahead {
        first: kind_before(input, at, end, 0),
        first_joint: joint_before(input, at, end, 0),
        second: kind_before(input, at, end, 1),
        second_joint: joint_before(input, at, end, 1),
        third: kind_before(input, at, end, 2),
    }
}

/// Whether a token of this kind begins neither the predicate of a lifetime nor a type that none is of.
fn begins_no_predicate(kind: SyntaxKind) -> bool
    ensures { result ≡ none_of (LIFETIME_IDENT ∷ IMPL_KW ∷ FOR_KW ∷ []) kind }
{
    match kind {
        SyntaxKind::LIFETIME_IDENT | SyntaxKind::IMPL_KW | SyntaxKind::FOR_KW => false,
        _ => true,
    }
}

/// Whether a token of this kind may begin the type behind an `impl`.
fn may_follow_impl(kind: SyntaxKind) -> bool
    ensures { result ≡ none_of (L_ANGLE ∷ L_PAREN ∷ BANG ∷ IMPL_KW ∷ CONST_KW ∷ []) kind }
{
    match kind {
        SyntaxKind::L_ANGLE
        | SyntaxKind::L_PAREN
        | SyntaxKind::BANG
        | SyntaxKind::IMPL_KW
        | SyntaxKind::CONST_KW => false,
        _ => true,
    }
}

/// Whether a mark does not come twice in a row.
fn not_twice(mark: SyntaxKind, coming: Ahead) -> bool
    ensures { result ≡ not_twice mark coming }
{
    coming.first != mark
        || !coming.first_joint
        || (coming.second != SyntaxKind::EOF && coming.second != mark)
}

/// Whether `::` comes behind the first token.
fn colons_behind(coming: Ahead) -> bool
    ensures { result ≡ colons_behind coming }
{
    coming.second == SyntaxKind::COLON && coming.second_joint && coming.third == SyntaxKind::COLON
}

/// Whether a function pointer or a path comes.
fn path_or_pointer(coming: Ahead) -> bool
    ensures { result ≡ path_or_pointer coming }
{
    match coming.first {
        SyntaxKind::FN_KW
        | SyntaxKind::UNSAFE_KW
        | SyntaxKind::EXTERN_KW
        | SyntaxKind::IDENT
        | SyntaxKind::SELF_KW
        | SyntaxKind::SUPER_KW
        | SyntaxKind::CRATE_KW => true,
        SyntaxKind::COLON => coming.first_joint && coming.second == SyntaxKind::COLON,
        _ => false,
    }
}

/// Whether no name with a `:` comes.
fn no_named_param(coming: Ahead) -> bool
    ensures { result ≡ no_named_param coming }
{
    match coming.first {
        SyntaxKind::IDENT | SyntaxKind::UNDERSCORE => match coming.second {
            SyntaxKind::EOF => false,
            SyntaxKind::COLON => colons_behind(coming),
            _ => true,
        },
        _ => true,
    }
}

/// Whether no restriction of a visibility comes.
fn no_restriction(coming: Ahead) -> bool
    ensures { result ≡ no_restriction coming }
{
    if coming.first != SyntaxKind::L_PAREN {
        return true;
    }
    match coming.second {
        SyntaxKind::IN_KW => false,
        SyntaxKind::EOF | SyntaxKind::CRATE_KW | SyntaxKind::SELF_KW | SyntaxKind::SUPER_KW =>
            coming.third == SyntaxKind::COLON,
        _ => true,
    }
}

/// Whether generic parameters come.
fn params_begin(coming: Ahead) -> bool
    ensures { result ≡ params_begin coming }
{
    if coming.first != SyntaxKind::L_ANGLE {
        return false;
    }
    match coming.second {
        SyntaxKind::POUND | SyntaxKind::R_ANGLE | SyntaxKind::CONST_KW => true,
        SyntaxKind::LIFETIME_IDENT | SyntaxKind::IDENT => match coming.third {
            SyntaxKind::R_ANGLE | SyntaxKind::COMMA | SyntaxKind::COLON | SyntaxKind::EQ => true,
            _ => false,
        },
        _ => false,
    }
}

/// Whether no name comes that is a pattern.
fn no_ident_pat(coming: Ahead) -> bool
    ensures { result ≡ no_ident_pat coming }
{
    if coming.first != SyntaxKind::IDENT {
        return true;
    }
    match coming.second {
        SyntaxKind::L_PAREN | SyntaxKind::L_CURLY | SyntaxKind::BANG => true,
        SyntaxKind::COLON => colons_behind(coming),
        _ => false,
    }
}

/// Whether a test does not hold before these tokens, whatever stands behind them.
fn is_excluded(guard: usize, coming: Ahead) -> bool
    ensures { result ≡ is_excluded guard coming }
{
    match guard {
        0 => path_or_pointer(coming),
        1 => coming.first != SyntaxKind::COLON,
        2 => begins_no_predicate(coming.first),
        3 => not_twice(SyntaxKind::COLON, coming),
        4 => no_named_param(coming),
        5 => no_named_param(coming),
        6 => not_twice(SyntaxKind::L_ANGLE, coming),
        7 => not_twice(SyntaxKind::PIPE, coming),
        8 => not_twice(SyntaxKind::AMP, coming),
        9 => coming.first != SyntaxKind::L_ANGLE,
        10 => no_restriction(coming),
        11 => may_follow_impl(coming.first),
        12 => params_begin(coming),
        13 => coming.first != SyntaxKind::IMPL_KW,
        14 => coming.first != SyntaxKind::MUT_KW,
        15 => no_ident_pat(coming),
        16 => coming.first != SyntaxKind::LIFETIME_IDENT,
        17 => coming.first != SyntaxKind::L_CURLY,
        18 => coming.first != SyntaxKind::COLON,
        _ => false,
    }
}

/// Whether a test does not hold of the tokens up to an end, whatever may follow them by the rows.
pub fn is_refused(input: &Input, at: usize, end: usize, guard: usize) -> bool
    ensures { IsTrue result → IsRefused guard input.now at end }
{
    // What follows bounds is no `:`, and it comes next where a colon has none behind it.
    if guard == 18 && end == at {
        return true;
    }
    if at >= end || end > input.len() {
        return false;
    }
    // A `)` follows the row: behind one token it is the next one, and no `:`.
    if guard == 4 && end - at == 1 {
        return true;
    }
    is_excluded(guard, coming(input, at, end))
}
