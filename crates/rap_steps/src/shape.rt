//! Whether steps are those of one tree.
ghost use Rattle.std.specs.Prelude.{◌≡◌, ◌≤◌, ◌↔◌, List, [], ◌∷◌, map, length, reverse, Some, None, IfOk, IsTrue, MatchOption, if◌then◌else◌};
ghost use Rattle.rap_events.specs.Step.{step_value};
ghost use Rattle.rap_steps.specs.Steps.{IsTreeSteps};
ghost use Rattle.rap_steps.specs.Walk.{after_split, after_step, closes};

use rap_base::no_memory::NoMemory;
use rap_base::syntax_kind::SyntaxKind;
use rap_events::output::Step;
use std::alloc::Global;

/// Returns whether the steps are those of one tree and nothing else, in which each split float is the last child of as
/// many `FIELD_EXPR` nodes as it ends, with another node around them if it ends in a dot.
///
/// The error means out of memory.
pub fn is_tree(alloc: Global, steps: &[Step<'_>]) -> Result<bool, NoMemory>
    ensures { IfOk result (λ b. IsTrue b ↔ IsTreeSteps (map step_value steps.now)) }
{
    let Some((first, rest)) = steps.split_first() else {
        return Ok(false);
    };
    let Step::Enter { kind } = first else {
        return Ok(false);
    };
    let mut begun = Vec::new(alloc);
    begun.push(*kind)?;
    closes(rest, begun)
}

/// Whether the steps end all these open nodes, of which the last one is the newest, the oldest with the last step.
fn closes(steps: &[Step<'_>], mut begun: Vec<SyntaxKind>) -> Result<bool, NoMemory>
    ensures { IfOk result (λ b. b ≡ closes (map step_value steps.now) (reverse begun.items)) }
{
    'steps: for step in steps {
        if !goes_on(step, &mut begun)? {
            return Ok(false);
        }
    }
    Ok(begun.is_empty())
}

/// Whether the step is valid inside these open nodes, which it changes to those that are open after it.
fn goes_on(step: &Step<'_>, begun: &mut Vec<SyntaxKind>) -> Result<bool, NoMemory>
    ensures { IfOk result (λ b. after_step (step_value step.now) (reverse begun.old.items) ≡ (if b then Some (reverse begun.new.items) else None)) }
{
    if begun.is_empty() {
        return Ok(false);
    }
    match step {
        Step::Enter { kind } => {
            begun.push(*kind)?;
            Ok(true)
        }
        Step::Exit => Ok(take_newest(begun).is_some()),
        Step::Token { .. } | Step::Error { .. } => Ok(true),
        Step::FloatSplit { ends_in_dot } => Ok(goes_past_float(*ends_in_dot, begun)),
    }
}

/// The same for a split float.
fn goes_past_float(ends_in_dot: bool, begun: &mut Vec<SyntaxKind>) -> bool
    ensures { after_split ends_in_dot (reverse begun.old.items) ≡ (if result then Some (reverse begun.new.items) else None) }
{
    if begun.len() < 2 {
        return false;
    }
    let Some(newest) = take_newest(begun) else {
        return false;
    };
    if newest != SyntaxKind::FIELD_EXPR {
        return false;
    }
    if ends_in_dot {
        return true;
    }
    let Some(outer) = take_newest(begun) else {
        return false;
    };
    outer == SyntaxKind::FIELD_EXPR
}

/// Removes the newest open node.
fn take_newest(begun: &mut Vec<SyntaxKind>) -> Option<SyntaxKind>
    ensures { MatchOption result (reverse begun.old.items ≡ []) (λ kind. reverse begun.old.items ≡ kind ∷ reverse begun.new.items) }
{
    begun.pop()
}
