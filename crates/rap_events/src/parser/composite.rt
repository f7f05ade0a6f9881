//! Operators that are written with two or three tokens.
ghost use Rattle.std.specs.Prelude.{◌≡◌, ◌≢◌, ◌+◌, ◌≤◌, ◌^◌, ◌<◌, List, [], ◌∷◌, drop, length, true, IsTrue};
ghost use Rattle.rap_base.specs.TokenKind.{EOF};
ghost use Rattle.rap_events.specs.Record.{kind_at};
ghost use Rattle.rap_events.specs.Composite.{begins_with, touches_next, is_at, width};

use crate::input::Input;
use rap_base::syntax_kind::SyntaxKind;

/// Returns how many tokens a token of this kind is written with: two or three for an operator of so many, and else one.
pub fn width_of(kind: SyntaxKind) -> u8
    ensures { result ≡ width kind }
{
    match kind {
        SyntaxKind::DOT3 | SyntaxKind::DOT2EQ | SyntaxKind::SHLEQ | SyntaxKind::SHREQ => 3,
        SyntaxKind::DOT2
        | SyntaxKind::COLON2
        | SyntaxKind::EQ2
        | SyntaxKind::FAT_ARROW
        | SyntaxKind::NEQ
        | SyntaxKind::THIN_ARROW
        | SyntaxKind::LTEQ
        | SyntaxKind::GTEQ
        | SyntaxKind::PLUSEQ
        | SyntaxKind::MINUSEQ
        | SyntaxKind::PIPEEQ
        | SyntaxKind::AMPEQ
        | SyntaxKind::CARETEQ
        | SyntaxKind::SLASHEQ
        | SyntaxKind::STAREQ
        | SyntaxKind::PERCENTEQ
        | SyntaxKind::AMP2
        | SyntaxKind::PIPE2
        | SyntaxKind::SHL
        | SyntaxKind::SHR => 2,
        _ => 1,
    }
}

// Whether a token of this kind stands at a place and touches the one after it. `here` is the kind of the token there.
fn touching(input: &Input, place: usize, here: SyntaxKind, kind: SyntaxKind) -> bool
    requires { here ≡ kind_at input.now place }
    ensures touches { result ≡ touches_next (drop place input.now) kind }
    ensures fits { IsTrue result → place + 1 < 2 ^ 64 }
{
    if here != kind {
        return false;
    }
    if place >= input.len() {
        return false;
    }
    input.is_joint(place)
}

// Whether tokens of these two kinds stand at a place, the first touching the second.
fn at_two(
    input: &Input,
    place: usize,
    here: SyntaxKind,
    first: SyntaxKind,
    second: SyntaxKind,
) -> bool
    requires here { here ≡ kind_at input.now place }
    requires second { second ≢ EOF }
    ensures { result ≡ begins_with (first ∷ second ∷ []) (drop place input.now) }
{
    if !touching(input, place, here, first) {
        return false;
    }
    input.kind(place + 1) == second
}

// Whether tokens of these three kinds stand at a place, each but the last touching the one after it.
fn at_three(
    input: &Input,
    place: usize,
    here: SyntaxKind,
    first: SyntaxKind,
    second: SyntaxKind,
    third: SyntaxKind,
) -> bool
    requires here { here ≡ kind_at input.now place }
    requires third { third ≢ EOF }
    ensures { result ≡ begins_with (first ∷ second ∷ third ∷ []) (drop place input.now) }
{
    if !touching(input, place, here, first) {
        return false;
    }
    at_two(input, place + 1, input.kind(place + 1), second, third)
}

/// Whether a token of this kind stands at a place of the input. `here` is the kind of the token there.
pub(super) fn at_place(input: &Input, place: usize, here: SyntaxKind, kind: SyntaxKind) -> bool
    requires { here ≡ kind_at input.now place }
    ensures { result ≡ is_at kind (drop place input.now) }
{
    match kind {
        SyntaxKind::DOT2 => at_two(input, place, here, SyntaxKind::DOT, SyntaxKind::DOT),
        SyntaxKind::COLON2 => at_two(input, place, here, SyntaxKind::COLON, SyntaxKind::COLON),
        SyntaxKind::EQ2 => at_two(input, place, here, SyntaxKind::EQ, SyntaxKind::EQ),
        SyntaxKind::FAT_ARROW => at_two(input, place, here, SyntaxKind::EQ, SyntaxKind::R_ANGLE),
        SyntaxKind::NEQ => at_two(input, place, here, SyntaxKind::BANG, SyntaxKind::EQ),
        SyntaxKind::THIN_ARROW => at_two(
            input,
            place,
            here,
            SyntaxKind::MINUS,
            SyntaxKind::R_ANGLE,
        ),
        SyntaxKind::LTEQ => at_two(input, place, here, SyntaxKind::L_ANGLE, SyntaxKind::EQ),
        SyntaxKind::GTEQ => at_two(input, place, here, SyntaxKind::R_ANGLE, SyntaxKind::EQ),
        SyntaxKind::PLUSEQ => at_two(input, place, here, SyntaxKind::PLUS, SyntaxKind::EQ),
        SyntaxKind::MINUSEQ => at_two(input, place, here, SyntaxKind::MINUS, SyntaxKind::EQ),
        SyntaxKind::PIPEEQ => at_two(input, place, here, SyntaxKind::PIPE, SyntaxKind::EQ),
        SyntaxKind::AMPEQ => at_two(input, place, here, SyntaxKind::AMP, SyntaxKind::EQ),
        SyntaxKind::CARETEQ => at_two(input, place, here, SyntaxKind::CARET, SyntaxKind::EQ),
        SyntaxKind::SLASHEQ => at_two(input, place, here, SyntaxKind::SLASH, SyntaxKind::EQ),
        SyntaxKind::STAREQ => at_two(input, place, here, SyntaxKind::STAR, SyntaxKind::EQ),
        SyntaxKind::PERCENTEQ => at_two(input, place, here, SyntaxKind::PERCENT, SyntaxKind::EQ),
        SyntaxKind::AMP2 => at_two(input, place, here, SyntaxKind::AMP, SyntaxKind::AMP),
        SyntaxKind::PIPE2 => at_two(input, place, here, SyntaxKind::PIPE, SyntaxKind::PIPE),
        SyntaxKind::SHL => at_two(input, place, here, SyntaxKind::L_ANGLE, SyntaxKind::L_ANGLE),
        SyntaxKind::SHR => at_two(input, place, here, SyntaxKind::R_ANGLE, SyntaxKind::R_ANGLE),
        SyntaxKind::DOT3 => at_three(
            input,
            place,
            here,
            SyntaxKind::DOT,
            SyntaxKind::DOT,
            SyntaxKind::DOT,
        ),
        SyntaxKind::DOT2EQ => at_three(
            input,
            place,
            here,
            SyntaxKind::DOT,
            SyntaxKind::DOT,
            SyntaxKind::EQ,
        ),
        SyntaxKind::SHLEQ => at_three(
            input,
            place,
            here,
            SyntaxKind::L_ANGLE,
            SyntaxKind::L_ANGLE,
            SyntaxKind::EQ,
        ),
        SyntaxKind::SHREQ => at_three(
            input,
            place,
            here,
            SyntaxKind::R_ANGLE,
            SyntaxKind::R_ANGLE,
            SyntaxKind::EQ,
        ),
        _ => here == kind,
    }
}
