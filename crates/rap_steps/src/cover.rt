//! Whether the leaves of a tree match an input.
ghost use Rattle.std.specs.Prelude.{◌≡◌, ◌+◌, ◌≤◌, length, map, drop, true, false, MatchOption, not, ◌||◌, ◌&&◌, ◌==◌, if◌then◌else◌};
ghost use Rattle.rap_base.specs.Keyword.{is_keyword};
ghost use Rattle.rap_base.specs.TokenKind.{FLOAT_NUMBER, IDENT};
ghost use Rattle.rap_base.specs.declared.edition.Edition.TheVariants.{Edition2024};
ghost use Rattle.rap_events.specs.Cover.{covers, first_may_bear, first_splits, of_tokens, stand, stands, widths};
ghost use Rattle.rap_events.specs.Forest.{flat, used};
ghost use Rattle.rap_events.specs.Reading.{forest_of};
ghost use Rattle.rap_events.specs.Step.{step_value};
ghost use Rattle.rap_steps.specs.Walk.{step_leaves};

use rap_base::edition::Edition;
use rap_base::syntax_kind::SyntaxKind;
use rap_events::input::Input;
use rap_events::output::Step;
use rap_events::parser::{Parser, width_of};
use std::alloc::Global;

/// Returns the number of input tokens in the leaves of a forest; `None` if they do not match the first tokens of
/// the input. The steps must be those of the forest. No memory is allocated.
pub fn covered(alloc: Global, steps: &[Step<'_>], input: &Input) -> Option<usize>
    requires { flat (forest_of (map step_value steps.now)) ≡ map step_value steps.now }
    ensures { MatchOption result (covers input.now (forest_of (map step_value steps.now)) ≡ false) (λ count. (covers input.now (forest_of (map step_value steps.now)) ≡ true) × (count ≡ used (forest_of (map step_value steps.now)))) }
{
    // For the proof: it fits its type.
    let _count = input.len();
    let mut place = 0usize;
    'steps: for step in steps {
        let Some(width) = width_at(alloc, step, input, place) else {
            return None;
        };
        place += width;
    }
    Some(place)
}

/// The number of input tokens of the step, if it matches at the place.
fn width_at(alloc: Global, step: &Step<'_>, input: &Input, place: usize) -> Option<usize>
    requires { place ≤ length input.now }
    ensures stands { MatchOption result (stand (step_leaves (step_value step.now)) (drop place input.now) ≡ false) (λ width. (stand (step_leaves (step_value step.now)) (drop place input.now) ≡ true) × (width ≡ widths (step_leaves (step_value step.now)))) }
    ensures within { MatchOption result (0 ≤ 0) (λ width. place + width ≤ length input.now) }
{
    match step {
        Step::Token {
            kind,
            n_input_tokens,
        } => {
            if token_matches(alloc, *kind, *n_input_tokens, input, place) {
                Some(usize::from(*n_input_tokens))
            } else {
                None
            }
        }
        Step::FloatSplit { ends_in_dot } => {
            if float_matches(*ends_in_dot, input, place) {
                Some(1)
            } else {
                None
            }
        }
        Step::Enter { .. } | Step::Exit | Step::Error { .. } => Some(0),
    }
}

/// Whether the next `n_input_tokens` tokens at the place make a leaf of this kind.
fn token_matches(
    alloc: Global,
    kind: SyntaxKind,
    n_input_tokens: u8,
    input: &Input,
    place: usize,
) -> bool
    ensures { result ≡ stands (of_tokens kind n_input_tokens) (drop place input.now) }
{
    if n_input_tokens == 1 {
        return may_bear(kind, input, place);
    }
    if n_input_tokens == 0 {
        return false;
    }
    if n_input_tokens != width_of(kind) {
        return false;
    }
    Parser::new(alloc, input).nth_at(place, kind)
}

/// Whether the token at the place may have the kind.
fn may_bear(kind: SyntaxKind, input: &Input, place: usize) -> bool
    ensures { result ≡ first_may_bear (drop place input.now) kind }
{
    if place >= input.len() {
        return false;
    }
    bears(input.kind(place), input.contextual_kind(place), kind)
}

/// Whether a token of a kind, which may be read as another one if it is an identifier, may have this kind.
fn bears(own: SyntaxKind, contextual: SyntaxKind, kind: SyntaxKind) -> bool
    ensures { result ≡ ((own == kind) || (((own == IDENT) && (contextual == kind)) || ((kind == IDENT) && is_keyword own Edition2024))) }
{
    own == kind
        || (own == SyntaxKind::IDENT && contextual == kind)
        || (kind == SyntaxKind::IDENT && own.is_keyword(Edition::Edition2024))
}

/// Whether the token at the place is a float that ends in a dot, or one that does not.
fn float_matches(ends_in_dot: bool, input: &Input, place: usize) -> bool
    ensures { result ≡ first_splits (drop place input.now) ends_in_dot }
{
    if place >= input.len() {
        return false;
    }
    is_split(input.kind(place), input.is_joint(place), ends_in_dot)
}

/// Whether a token of this kind is a float that ends in a dot, or one that does not. A joint float does not.
fn is_split(kind: SyntaxKind, joint: bool, ends_in_dot: bool) -> bool
    ensures { result ≡ ((kind == FLOAT_NUMBER) && (if joint then not ends_in_dot else ends_in_dot)) }
{
    kind == SyntaxKind::FLOAT_NUMBER && joint != ends_in_dot
}
