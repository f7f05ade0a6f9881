//! Steps that a caller gives.
ghost use Rattle.std.specs.Prelude.{◌≡◌, ◌⊎◌, ℕ, IfErr, IfOk, List, MatchOption, map};
ghost use Rattle.rap_events.specs.Step.{step_value};
ghost use Rattle.rap_events.specs.StepValue.{StepValue};
ghost use Rattle.rap_c.specs.Shown.{AreStepsOf, IsMessageAt, IsStepOf};

use crate::answer::Fault;
use crate::numbers::kind_of;
use crate::step::{ENTER, EXIT, MESSAGE, RapStep, SPLIT, TOKEN};
use ra_ap_parser::Step;
use std::alloc::Global;
use std::str;

/// The message that stands at these bytes, if one does.
fn message_at(messages: &[u8], start: usize, end: usize) -> Option<&str>
    ensures { MatchOption result ((bytes : List ℕ) → ¬ IsMessageAt messages.now start end bytes) (λ text. IsMessageAt messages.now start end text.now) }
{
    if start > end || end > messages.len() {
        return None;
    }
    match str::from_utf8(&messages[start..end]) {
        Ok(text) => Some(text),
        Err(_) => None,
    }
}

/// A token's step, if its numbers are those of one.
fn token_step<'m>(step: &RapStep) -> Option<Step<'m>>
    requires { step.now.what ≡ 2 }
    ensures { MatchOption result ((messages : List ℕ) (value : StepValue) → ¬ IsStepOf messages step.now value) (λ token. (messages : List ℕ) → IsStepOf messages step.now (step_value token)) }
{
    let kind = kind_of(step.kind)?;
    if step.start > step.end || step.end - step.start > 255 {
        return None;
    }
    let n_input_tokens = (step.end - step.start) as u8;
    Some(Step::Token {
        kind,
        n_input_tokens,
    })
}

/// A float's step, if its numbers are those of one.
fn split_step<'m>(step: &RapStep) -> Option<Step<'m>>
    requires { step.now.what ≡ 4 }
    ensures { MatchOption result ((messages : List ℕ) (value : StepValue) → ¬ IsStepOf messages step.now value) (λ split. (messages : List ℕ) → IsStepOf messages step.now (step_value split)) }
{
    match step.kind {
        0 => Some(Step::FloatSplit { ends_in_dot: false }),
        1 => Some(Step::FloatSplit { ends_in_dot: true }),
        _ => None,
    }
}

/// The step that the numbers show, if they show one.
fn step_of<'m>(step: &RapStep, messages: &'m [u8]) -> Option<Step<'m>>
    ensures { MatchOption result ((value : StepValue) → ¬ IsStepOf messages.now step.now value) (λ given. IsStepOf messages.now step.now (step_value given)) }
{
    match step.what {
        ENTER => {
            let kind = kind_of(step.kind)?;
            Some(Step::Enter { kind })
        }
        EXIT => Some(Step::Exit),
        TOKEN => token_step(step),
        MESSAGE => {
            let msg = message_at(messages, step.start, step.end)?;
            Some(Step::Error { msg })
        }
        SPLIT => split_step(step),
        _ => None,
    }
}

/// The steps that the numbers show.
pub fn steps_of<'m>(
    alloc: Global,
    steps: &[RapStep],
    messages: &'m [u8],
) -> Result<Vec<Step<'m>>, Fault>
    ensures steps { IfOk result (λ given. AreStepsOf messages.now steps.now (map step_value given.items)) }
    ensures fault { IfErr result (λ fault. ((fault ≡ Fault.NoSteps) × ((values : List StepValue) → ¬ AreStepsOf messages.now steps.now values)) ⊎ (fault ≡ Fault.NoMemory)) }
{
    let Ok(mut given) = Vec::with_capacity(alloc, steps.len()) else {
        return Err(Fault::NoMemory);
    };
    'steps: for step in steps {
        let Some(next) = step_of(step, messages) else {
            return Err(Fault::NoSteps);
        };
        let Ok(()) = given.push(next) else {
            return Err(Fault::NoMemory);
        };
    }
    Ok(given)
}
