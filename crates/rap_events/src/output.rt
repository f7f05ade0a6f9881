//! The output of a parse: the steps of its forest.
ghost use Rattle.std.specs.Prelude.{◌≡◌, ◌==◌, ◌||◌, ◌-◌, ◌≤◌, ◌<◌, ◌^◌, ℕ, List, ◌∷◌, length, drop, map, not, true, IfOk, string_bytes};
ghost use Rattle.std.specs.List.{count_by};
ghost use Rattle.rap_events.specs.Output.{value_of, values};
ghost use Rattle.rap_events.specs.Message.{is_at_message_or_end};
ghost use Rattle.rap_events.specs.StepValue.{StepValue, is_element, is_leaf};
ghost use Rattle.rap_events.specs.History.{first_message};
ghost use Rattle.rap_events.specs.Forest.{none, node, flat, splits_placed, used, ends_in};
ghost use Rattle.rap_events.specs.Reading.{forest_of};
ghost use Rattle.rap_events.specs.LastSteps.{left_behind};
ghost use Rattle.rap_events.specs.Word.{has_byte};

use crate::event::Event;
use crate::word::Word;
use rap_base::no_memory::NoMemory;
use rap_base::syntax_kind::SyntaxKind;
use std::alloc::Global;
use std::marker::Model;

/// The steps of an output: the words from `first` on, which stand for `tokens` tokens of the input. The messages are
/// those of the errors, in the same order.
#[derive(Drop)]
pub(crate) struct StepList {
    steps: Vec<Word>,
    first: usize,
    messages: Vec<String>,
    tokens: usize,
}

/// The output of a parse. Contracts see its forest.
#[derive(Drop)]
pub struct Output {
    list: Option<StepList>,
}

impl Model for Output {
    ghost use Rattle.std.specs.Prelude.{◌≡◌};
    ghost use Rattle.std.specs.Prelude.{true};
    ghost use Rattle.rap_events.specs.Forest.{Forest, flat, splits_placed};
    ghost use Rattle.rap_events.specs.Reading.{forest_of, forest_code};

    ghost Value = { Forest };

    ghost coded = { forest_code };

    ghost use Rattle.rap_events.specs.Output.{values_of, IsWithin, IsCounted};

    ghost view = { λ output. forest_of (values_of output.list) };

    ghost invariant = { λ output. (IsWithin output.list × IsCounted output.list) × ((flat (forest_of (values_of output.list)) ≡ values_of output.list) × (splits_placed (forest_of (values_of output.list)) ≡ true)) };
}

/// The output without steps.
impl Default for Output {
    ghost use Rattle.std.specs.Prelude.{◌≡◌};
    ghost use Rattle.rap_events.specs.Forest.{none};

    ghost is_default = { λ output. output ≡ none };

    fn default() -> Output {
        Output { list: None }
    }
}

impl Output {
    /// Makes the output of the steps from `first` on, which stand for so many tokens. The messages are those of the
    /// errors, in the same order.
    pub(crate) fn of_steps(
        steps: Vec<Word>,
        first: usize,
        messages: Vec<String>,
        tokens: usize,
    ) -> Output
        requires within { first ≤ length steps.items }
        requires steps { flat (forest_of (values (drop first steps.items) (map string_bytes messages.items))) ≡ values (drop first steps.items) (map string_bytes messages.items) }
        requires splits { splits_placed (forest_of (values (drop first steps.items) (map string_bytes messages.items))) ≡ true }
        requires tokens { tokens ≡ used (forest_of (values (drop first steps.items) (map string_bytes messages.items))) }
        ensures { result ≡ forest_of (values (drop first steps.items) (map string_bytes messages.items)) }
    {
        Output {
            list: Some(StepList {
                steps,
                first,
                messages,
                tokens,
            }),
        }
    }

    /// The steps that show this forest.
    fn into_list(self, alloc: Global) -> StepList
        ensures within { result.first ≤ length result.steps.items }
        ensures list { values (drop result.first result.steps.items) (map string_bytes result.messages.items) ≡ flat self }
        ensures splits { splits_placed self ≡ true }
        ensures tokens { result.tokens ≡ used self }
    {
        match self.list {
            Some(list) => list,
            None => StepList {
                steps: Vec::new(alloc),
                first: 0,
                messages: Vec::new(alloc),
                tokens: 0,
            },
        }
    }

    /// Returns the steps of the forest, from left to right. No memory is allocated.
    #[tactic(auto, using(crate::proofs::Values::values_length, crate::proofs::Values::values_few))]
    pub fn iter(&self) -> Steps<'_>
        ensures steps { result ≡ flat self.now }
        ensures few { length (flat self.now) < 2 ^ 64 }
        ensures splits { splits_placed self.now ≡ true }
    {
        match &self.list {
            Some(list) => Steps {
                rest: &list.steps[list.first..],
                messages: list.messages.as_slice(),
            },
            None => Steps {
                rest: &[],
                messages: &[],
            },
        }
    }

    /// Returns how many input tokens the output stands for, without a walk through its steps: a leaf for as many as it
    /// was taken from, and a float that is split for one.
    pub fn used(&self) -> usize
        ensures { result ≡ used self.now }
    {
        match &self.list {
            Some(list) => list.tokens,
            None => 0,
        }
    }

    /// Returns whether the last thing in the output is a leaf of this kind that stands in so many nodes, each the last
    /// thing in the one around it. Of the steps only the last ones are looked at, one more than there are such nodes.
    pub fn ends_in(&self, kind: SyntaxKind, depth: u8) -> bool
        ensures { result ≡ ends_in kind depth self.now }
    {
        match &self.list {
            Some(list) => words_end_in(
                &list.steps[list.first..],
                list.messages.as_slice(),
                kind,
                depth,
            ),
            None => false,
        }
    }
}

// How many of these words have one of two lowest bytes. No jump hangs on a word, so that several are looked at at a time.
#[inline(always)]
fn count_bytes(words: &[Word], byte: u32, other: u32) -> usize
    ensures { result ≡ count_by (λ e. has_byte byte e || has_byte other e) words.now }
{
    let mut count = 0usize;
    for word in words {
        count += usize::from(word.has_byte(byte) | word.has_byte(other));
    }
    count
}

// The same of the forest that words and messages show.
#[tactic(auto, using(crate::proofs::Endings::last_show))]
fn words_end_in(words: &[Word], messages: &[String], kind: SyntaxKind, depth: u8) -> bool
    requires { flat (forest_of (values words.now (map string_bytes messages.now))) ≡ values words.now (map string_bytes messages.now) }
    ensures { result ≡ ends_in kind depth (forest_of (values words.now (map string_bytes messages.now))) }
{
    end_in(
        last_steps(words, messages, usize::from(depth) + 1),
        kind,
        depth,
    )
}

// The last steps that words show, at most so many. The messages of errors among them need not be their own.
fn last_steps<'a>(words: &'a [Word], messages: &'a [String], count: usize) -> Steps<'a>
    ensures { result ≡ values (drop (length words.now - count) words.now) (map string_bytes messages.now) }
{
    Steps {
        rest: &words[words.len().saturating_sub(count)..],
        messages,
    }
}

// Whether one is left behind these steps of a count that begins at each leaf of the kind, with one more than so many,
// of which each end of a node takes one, and all else takes all.
fn end_in(last: Steps<'_>, kind: SyntaxKind, depth: u8) -> bool
    ensures { result ≡ (left_behind kind depth 0 last.entry == 1) }
{
    let at_leaf = u16::from(depth) + 1;
    let mut left = 0u16;
    'steps: for step in last {
        left = match step {
            Step::Token { kind: other, .. } => { if other == kind { at_leaf } else { 0 } }
            Step::Exit => left.saturating_sub(1),
            _ => 0,
        };
    }
    left == 1
}

/// Makes the output of one node of this kind, whose children are the forest of `output`.
///
/// The error means out of memory.
pub fn wrap_in_node(alloc: Global, output: Output, kind: SyntaxKind) -> Result<Output, NoMemory>
    ensures { IfOk result (λ wrapped. wrapped ≡ node none kind output) }
{
    let StepList {
        mut steps,
        first,
        messages,
        tokens,
    } = output.into_list(alloc);
    steps.insert(first, Word::of_event(Event::Enter { kind }))?;
    steps.push(Word::of_event(Event::Exit))?;
    Ok(Output::of_steps(steps, first, messages, tokens))
}

/// A step of an output: `n_input_tokens` tokens as one leaf of a kind, a float of a field access that is split, the
/// beginning of a node, the end of the newest open node, or a message.
///
/// A float also ends the newest open node; one that does not end in a dot ends the two newest.
#[derive(Clone, Copy, Debug)]
pub enum Step<'a> {
    Token {
        kind: SyntaxKind,
        n_input_tokens: u8,
    },
    FloatSplit {
        ends_in_dot: bool,
    },
    Enter {
        kind: SyntaxKind,
    },
    Exit,
    Error {
        msg: &'a str,
    },
}

/// An iterator over the steps of an output. Contracts see the list of those that are left.
#[derive(Drop)]
pub struct Steps<'a> {
    rest: &'a [Word],
    messages: &'a [String],
}

impl<'a> Model for Steps<'a> {
    ghost use Rattle.std.specs.Prelude.{List, map, string_bytes};
    ghost use Rattle.rap_events.specs.StepValue.{StepValue};
    ghost use Rattle.rap_events.specs.Reading.{step_code};
    ghost use Rattle.std.specs.Coded.{coded_list};

    ghost Value = { List StepValue };

    ghost coded = { coded_list step_code };

    ghost use Rattle.rap_events.specs.Output.{values};

    ghost view = { λ steps. values steps.rest.now (map string_bytes steps.messages.now) };
}

impl Steps<'_> {
    /// Returns whether a message comes next, or nothing: only then it is not known yet that a node's end is next in the
    /// tree over a text, where messages that follow a node come before its end.
    #[inline(always)]
    pub fn is_at_message_or_end(&self) -> bool
        ensures { result ≡ is_at_message_or_end self.now }
    {
        match self.rest {
            [word, ..] => !is_step_without_message(word.event()),
            [] => true,
        }
    }

    /// Returns how many of the steps that are left begin a node or are a leaf. A float that is split is neither.
    #[tactic(auto, using(crate::proofs::Counts::count_elements))]
    pub fn elements(&self) -> usize
        ensures { result ≡ count_by is_element self.now }
    {
        count_bytes(self.rest, 0x01, 0x11)
    }

    /// Returns how many of the steps that are left are a leaf. A float that is split is none.
    #[tactic(auto, using(crate::proofs::Counts::count_leaves))]
    pub fn leaves(&self) -> usize
        ensures { result ≡ count_by is_leaf self.now }
    {
        count_bytes(self.rest, 0x01, 0x01)
    }
}

// Whether an event is a step, but no message.
#[inline(always)]
fn is_step_without_message(event: Event) -> bool
    ensures { (messages : List (List ℕ)) (values : List StepValue) → is_at_message_or_end (value_of messages event ∷ values) ≡ not result }
{
    match event {
        Event::Token { .. } | Event::FloatSplit { .. } | Event::Enter { .. } | Event::Exit => true,
        Event::Error { .. }
        | Event::Start
        | Event::Precede
        | Event::Finish { .. }
        | Event::Extend
        | Event::Abandon => false,
    }
}

#[tactic(auto, using(crate::proofs::Values::values_length))]
impl<'a> Iterator for Steps<'a> {
    type Item = Step<'a>;

    ghost use Rattle.std.specs.Prelude.{Some, IfSome};
    ghost use Rattle.std.specs.Iterator.{YieldsFirstBy, item_count, UpTo};
    ghost use Rattle.std.specs.Iterator.SizeHint.{IsWithinCount};
    ghost use Rattle.rap_events.specs.Step.{step_value};

    ghost next_gives = { YieldsFirstBy step_value (λ steps. steps) };

    ghost remaining = { item_count (λ steps. steps) };

    fn next(&mut self) -> Option<Step<'a>> {
        let (first, rest) = self.rest.split_first()?;
        self.rest = rest;
        let word = *first;
        Some(match word.step() {
            Event::Token {
                kind,
                n_input_tokens,
            } => Step::Token {
                kind,
                n_input_tokens,
            },
            Event::FloatSplit { ends_in_dot } => Step::FloatSplit { ends_in_dot },
            Event::Enter { kind } => Step::Enter { kind },
            Event::Exit => Step::Exit,
            Event::Error { .. } => {
                let (msg, messages) = split_message(self.messages);
                self.messages = messages;
                Step::Error { msg }
            }
            // No output holds any of these.
            Event::Start | Event::Precede | Event::Finish { .. } | Event::Extend | Event::Abandon =>
                Step::Error { msg: "" },
        })
    }

    fn size_hint(&self) -> (usize, Option<usize>)
        ensures lower { IsWithinCount result.0 (item_count (λ steps. steps) self.now) }
        ensures upper { IfSome result.1 (UpTo (item_count (λ steps. steps) self.now)) }
        ensures exact { (result.0 ≡ length self.now) × (result.1 ≡ Some (length self.now)) }
    {
        (self.rest.len(), Some(self.rest.len()))
    }
}

#[tactic(auto, using(crate::proofs::Values::values_length))]
impl<'a> ExactSizeIterator for Steps<'a> {
    fn len(&self) -> usize {
        self.rest.len()
    }
}

// The first message, or an empty one if there is none, and the others.
fn split_message(messages: &[String]) -> (&str, &[String])
    ensures message { result.0.now ≡ first_message (map string_bytes messages.now) }
    ensures others { map string_bytes result.1.now ≡ drop 1 (map string_bytes messages.now) }
{
    match messages.split_first() {
        Some((message, others)) => (message.as_str(), others),
        None => ("", messages),
    }
}
