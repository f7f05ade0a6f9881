//! Which of the nodes that a search claims are nodes of the tree. Nothing of the search is believed.
ghost use Rattle.std.specs.Prelude.{◌≡◌, ◌+◌, ◌<◌, ◌^◌, List, ◌∷◌, All, IfOk, OnOk};
ghost use Rattle.rap_events.specs.Forest.{Forest};
ghost use Rattle.rap_events.specs.Reading.{with_ends};
ghost use Rattle.rap_events.specs.Step.{step_value};
ghost use Rattle.rap_events.specs.StepValue.{StepValue, enter, exit, float_split};
ghost use Rattle.rap_core.specs.Nodes.{IsNode};
ghost use Rattle.rap_core.specs.Walked.{IsAt, width_of};

use ra_ap_parser::{NoMemory, Output, Step, SyntaxKind};
use rap_grammar_rows::search::outside::Outside;
use std::alloc::Global;

/// A node that has begun, with the number of the tokens before it.
#[derive(Clone, Copy)]
struct OpenNode {
    kind: SyntaxKind,
    start: usize,
}

/// How far the steps of a tree are followed.
#[derive(Drop)]
struct Walk {
    /// The nodes that have begun and not ended; the newest is the last one.
    begun: Vec<OpenNode>,
    /// The number of the tokens before the next step.
    tokens: usize,
    /// The nodes that are still looked for; the next one is the last one.
    wanted: Vec<Outside>,
    /// Those that were found.
    found: Vec<Outside>,
}

impl Walk {
    /// Begins a node.
    fn begin(&mut self, kind: SyntaxKind) -> Result<(), NoMemory>
        ensures { OnOk result ((tree : Forest) (steps : List StepValue) → IsAt tree (enter kind ∷ steps) self.old → IsAt tree steps self.new) }
    {
        let start = self.tokens;
        self.begun.push(OpenNode { kind, start })?;
        Ok(())
    }

    /// Takes so many tokens.
    fn take(&mut self, tokens: usize)
        requires { self.old.tokens + tokens < 2 ^ 64 }
        ensures { self.new ≡ record self.old { tokens = self.old.tokens + tokens } }
    {
        self.tokens += tokens;
    }

    /// Whether a node is the next one that is looked for.
    fn is_wanted(&self, node: &Outside) -> bool {
        match self.wanted.as_slice().last() {
            Some(next) => next.kind == node.kind
                && next.start == node.start
                && next.end == node.end,
            None => false,
        }
    }

    /// Keeps a node of the tree if it is the next one that is looked for.
    fn keep(&mut self, node: &Outside) -> Result<(), NoMemory>
        ensures begun { OnOk result (self.new.begun ≡ self.old.begun) }
        ensures tokens { OnOk result (self.new.tokens ≡ self.old.tokens) }
        ensures found { OnOk result ((tree : Forest) → All (IsNode tree) self.old.found.items → IsNode tree node.now → All (IsNode tree) self.new.found.items) }
    {
        if !self.is_wanted(node) {
            return Ok(());
        }
        let _node = self.wanted.pop();
        self.found.push(*node)?;
        Ok(())
    }

    /// Ends the newest node.
    fn end(&mut self) -> Result<(), NoMemory>
        ensures { OnOk result ((tree : Forest) (steps : List StepValue) → IsAt tree (exit ∷ steps) self.old → IsAt tree steps self.new) }
    {
        let Some(newest) = self.begun.pop() else {
            return Ok(());
        };
        let ended = Outside {
            kind: newest.kind,
            start: newest.start,
            end: self.tokens,
        };
        self.keep(&ended)?;
        Ok(())
    }

    /// Takes a float that is taken apart, and ends the one or two nodes that it ends.
    fn split(&mut self, ends_in_dot: bool) -> Result<(), NoMemory>
        requires { self.old.tokens + 1 < 2 ^ 64 }
        ensures { OnOk result ((tree : Forest) (steps : List StepValue) → IsAt tree (with_ends (float_split ends_in_dot ∷ steps)) self.old → IsAt tree (with_ends steps) self.new) }
    {
        self.take(1);
        self.end()?;
        if ends_in_dot {
            return Ok(());
        }
        self.end()
    }

    /// Follows a step.
    fn follow(&mut self, step: Step<'_>) -> Result<(), NoMemory>
        requires { self.old.tokens + width_of (step_value step) < 2 ^ 64 }
        ensures { OnOk result ((tree : Forest) (steps : List StepValue) → IsAt tree (with_ends (step_value step.entry ∷ steps)) self.old → IsAt tree (with_ends steps) self.new) }
    {
        match step {
            Step::Enter { kind } => self.begin(kind),
            Step::Token {
                kind: _,
                n_input_tokens,
            } => {
                self.take(usize::from(n_input_tokens));
                Ok(())
            }
            Step::Exit => self.end(),
            Step::FloatSplit { ends_in_dot } => self.split(ends_in_dot),
            Step::Error { msg: _ } => Ok(()),
        }
    }
}

/// Returns those of the wanted nodes that are nodes of a tree, in the order of the text, where the wanted ones end one
/// after another and the last one comes first.
///
/// The error means out of memory.
pub fn find_nodes(
    alloc: Global,
    output: &Output,
    wanted: Vec<Outside>,
) -> Result<Vec<Outside>, NoMemory>
    ensures { IfOk result (λ nodes. All (IsNode output.now) nodes.items) }
{
    // For the proof: it fits its type.
    let _tokens = output.used();
    let mut walk = Walk {
        begun: Vec::new(alloc),
        tokens: 0,
        wanted,
        found: Vec::new(alloc),
    };
    'steps: for step in output.iter() {
        walk.follow(step)?;
    }
    // The steps of a tree end each of its nodes, so this is never so.
    if !walk.begun.is_empty() {
        return Ok(Vec::new(alloc));
    }
    Ok(walk.found)
}
