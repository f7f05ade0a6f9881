//! The sink that builds a tree and keeps its messages.
ghost use Rattle.std.specs.Prelude.{◌≡◌, ◌++◌, ◌∷◌, [], OnOk};
ghost use Rattle.syntax_tree.specs.Building.{building, outermost};
ghost use Rattle.syntax_tree.specs.RangedForest.{ranged_none};

use crate::builder::Builder;
use rap_base::no_memory::NoMemory;
use rap_lexed::shortcuts::{StrSink, StrStep};
use rap_ranged::report::Report;
use std::alloc::Global;

/// A tree and its messages after some of its steps.
#[derive(Drop)]
pub(crate) struct Collector {
    alloc: Global,
    pub(crate) builder: Builder,
    pub(crate) reports: Vec<Report>,
}

impl Collector {
    /// An empty collector.
    pub(crate) fn new(alloc: Global) -> Collector
        ensures tree { building result.builder ≡ record { frames = outermost; forest = ranged_none; at = 0 } }
        ensures reports { result.reports.items ≡ [] }
    {
        Collector {
            alloc,
            builder: Builder::new(alloc),
            reports: Vec::new(alloc),
        }
    }

    /// Keeps a message.
    fn keep(&mut self, text: &str, at: usize) -> Result<(), NoMemory>
        ensures reports { OnOk result (self.new.reports.items ≡ self.old.reports.items ++ record { text = text.now; at = at } ∷ []) }
        ensures tree { self.new.builder ≡ self.old.builder }
    {
        let text = String::from_str(self.alloc, text)?;
        self.reports.push(Report::new(text, at))?;
        Ok(())
    }
}

impl StrSink for Collector {
    ghost use Rattle.syntax_tree.specs.Collects.{Collects};

    type Refusal = NoMemory;

    ghost takes = { Collects };

    // After a call that was out of memory, nothing is specified about what was kept.
    ghost refuses = { λ _ _ _ _. Unit {0} };

    #[inline(always)]
    fn step(&mut self, step: StrStep<'_>) -> Result<(), NoMemory> {
        match step {
            StrStep::Error { msg, pos } => self.keep(msg, pos),
            StrStep::Token { kind, text } => self.builder.token(kind, text),
            StrStep::Enter { kind } => self.builder.enter(kind),
            StrStep::Exit => self.builder.exit(),
        }
    }
}
