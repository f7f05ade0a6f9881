//! The events that a parser records, and the output that they make.
ghost use Rattle.std.specs.Prelude.{◌≡◌, ◌<◌, map, true, IfOk, string_bytes};
ghost use Rattle.rap_events.specs.Machine.{run, initial, floor, all_splits_placed};

use crate::output::Output;
use crate::word::Word;
use rap_base::no_memory::NoMemory;
use rap_base::syntax_kind::SyntaxKind;
use std::alloc::Global;

mod walk;

use walk::Walk;

/// A call of a parser, or a step of an output. The calls start or end a marker, take a token, split a float, or report
/// a message; the last three are steps too, so that the output can be written over the recorded events.
///
/// While a parser records, events are only appended: `precede` and `extend_to` do not change earlier events.
#[derive(Clone, Copy, PartialEq, Eq, Debug)]
pub(crate) enum Event {
    /// A marker is started.
    Start,
    /// A marker is started before the node that the event before this one finished.
    Precede,
    /// The newest open marker becomes a node.
    Finish {
        kind: SyntaxKind,
    },
    /// The node that was just finished begins at the newest open marker, and that marker is removed.
    Extend,
    /// The newest open marker is abandoned.
    Abandon,
    /// `n_input_tokens` tokens of the input are taken as one token.
    Token {
        n_input_tokens: u8,
        kind: SyntaxKind,
    },
    /// A float of a field access is split. It ends the nodes that the next calls finish: one `FIELD_EXPR` if the float
    /// ends in a dot, otherwise two.
    FloatSplit {
        ends_in_dot: bool,
    },
    /// A message is reported. The messages stand in a list of their own, in the order of the events that report them; the
    /// number is that of the message among them, as far as a word has bits for it.
    Error {
        message: u32,
    },
    /// A node begins: a step. A parser records none.
    Enter {
        kind: SyntaxKind,
    },
    /// The newest open node ends: a step. A parser records none.
    Exit,
}

impl Event {
    ghost use Rattle.rap_events.specs.Forest.{used};
    ghost use Rattle.rap_events.specs.History.{history};

    /// Makes the output of the events, which take so many tokens. Events and messages are moved into it.
    ///
    /// The events are read backwards, from the last one: at the start of a node it is then known which nodes that were
    /// finished later begin before it. The steps are written over the events that were read.
    pub(crate) fn process(
        alloc: Global,
        events: Vec<Word>,
        messages: Vec<String>,
        tokens: usize,
    ) -> Result<Output, NoMemory>
        requires sound { (run initial (history events.items (map string_bytes messages.items))).sound ≡ true }
        requires closed { (run initial (history events.items (map string_bytes messages.items))).below ≡ floor }
        requires splits { all_splits_placed (run initial (history events.items (map string_bytes messages.items))) ≡ true }
        requires tokens { tokens ≡ used (run initial (history events.items (map string_bytes messages.items))).forest }
        ensures { IfOk result (λ output. output ≡ (run initial (history events.items (map string_bytes messages.items))).forest) }
    {
        let mut walk = Walk::new(alloc, events, messages);
        while walk.left > 0 {
            walk.back()?;
        }
        let output = walk.output(tokens);
        Ok(output)
    }
}
