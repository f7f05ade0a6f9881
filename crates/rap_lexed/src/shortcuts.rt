//! From a text's tokens to the parser's input, and from the parser's output to the steps of the tree over the text.
ghost use Rattle.std.specs.Prelude.{◌≡◌, ◌+◌, ◌-◌, ◌*◌, ◌<◌, ◌≤◌, ◌↔◌, ◌∷◌, [], ◌++◌, length, drop, map, true, IsTrue, IfOk, OnOk, not, ◌||◌, ◌==◌};
ghost use Rattle.rap_base.specs.TokenKind.{IDENT};
ghost use Rattle.rap_base.specs.TokenTests.{is_trivia};
ghost use Rattle.rap_base.specs.declared.edition.Edition.{Edition};
ghost use Rattle.rap_events.specs.Forest.{flat, one_tree, splits_placed, used};
ghost use Rattle.rap_events.specs.Cover.{covers};
ghost use Rattle.rap_events.specs.Reading.{forest_of};
ghost use Rattle.rap_events.specs.Step.{step_value};
ghost use Rattle.rap_lexed.specs.Contextual.{past, past_first, ArePlain};
ghost use Rattle.rap_lexed.specs.Input.{records, records_at, joint_of};
ghost use Rattle.rap_lexed.specs.LexedStr.{joined, token_at};
ghost use Rattle.rap_lexed.specs.StrForest.{str_flat, str_joined, str_one_tree};
ghost use Rattle.rap_lexed.specs.StrSink.{HandsOut};
ghost use Rattle.rap_lexed.specs.Trivia.{front_of, significant, with_trivia, TreeTouches};

use crate::lexed_str::LexedStr;
use rap_base::edition::Edition;
use rap_base::no_memory::NoMemory;
use rap_base::syntax_kind::SyntaxKind;
use rap_events::input::Input;
use rap_events::output::{Output, Step};
use std::alloc::Global;

mod attached;
mod builder;

use builder::Builder;

/// A step of a walk through a tree over a text, from left to right.
#[derive(Clone, Copy, Debug)]
pub enum StrStep<'a> {
    /// A leaf of the newest open node: its kind, and its text.
    Token { kind: SyntaxKind, text: &'a str },
    /// A node begins inside the newest open one.
    Enter { kind: SyntaxKind },
    /// The newest open node ends.
    Exit,
    /// A message, and its offset in the text in bytes.
    Error { msg: &'a str, pos: usize },
}

/// A receiver of the steps of a tree.
///
/// A sink states two relations: `takes`, between a step that it accepts and its own value before and after; and
/// `refuses`, between a step that it refuses, the refusal, and its own value before and after.
pub trait StrSink {
    ghost use Rattle.std.specs.Prelude.{MatchResult};
    ghost use Rattle.rap_lexed.specs.StrStep.{StrStepValue, str_step_value};

    /// Why a step is refused.
    type Refusal;

    ghost takes: { Self → StrStepValue → Self → Type 0 };

    ghost refuses: { Self → StrStepValue → Self.Refusal → Self → Type 0 };

    /// Accepts a step, or refuses it.
    fn step(&mut self, step: StrStep<'_>) -> Result<(), Self::Refusal>
        ensures { MatchResult result (λ _. takes self.old (str_step_value step.entry) self.new) (λ e. refuses self.old (str_step_value step.entry) e self.new) };
}

impl LexedStr<'_> {
    /// Makes the parser's input: the tokens that are no trivia, in order.
    ///
    /// An identifier has the contextual keyword of its text, if there is one. A float number is joint if its text does
    /// not end with a dot. Any other token but an identifier is joint if the token right after it is neither trivia nor
    /// an identifier. The error means out of memory.
    pub fn to_input(&self, alloc: Global, edition: Edition) -> Result<Input, NoMemory>
        ensures records { IfOk result (λ input. input ≡ records self.now.tokens edition) }
        ensures count { IfOk result (λ input. length input ≡ significant self.now.tokens) }
    {
        let mut input = Input::with_capacity(alloc, self.len())?;
        let mut numbers = self.contextual_numbers();
        let mut i = 0;
        'tokens: while i < self.len() {
            numbers = past(numbers, i);
            push_record(self, i, edition, &mut input)?;
            let end = past_first(numbers, self.len());
            i = push_plain(self, i + 1, end, edition, &mut input);
        }
        Ok(input)
    }

    /// Passes the steps of an output's tree to a sink, with the texts of its leaves and with the trivia that the
    /// parser's input left out. Returns whether all tokens of the text were passed to the sink.
    ///
    /// The output must be one tree over a prefix of this text's tokens. Trivia come right before the next node or leaf;
    /// those at the beginning of the text, and those with nothing after them, are inside the root. Before an item, a
    /// field, a variant or a macro call, the attached trivia are inside the node, at its beginning. They are found by a
    /// walk back from the node, which stops at white space with two line feeds in a row, unless that follows a `/**/`;
    /// they begin at the farthest comment that the walk reaches. A message that follows a node comes before the node's
    /// end, and its offset is the beginning of the first token that was not yet passed to the sink. No memory is
    /// allocated, except by the sink. The error is the sink's refusal of a step; it has accepted all steps before.
    pub fn intersperse_trivia<S: StrSink>(
        &self,
        output: &Output,
        sink: &mut S,
    ) -> Result<bool, S::Refusal>
        requires tree { one_tree output.now ≡ true }
        requires prefix { (edition : Edition) × (covers (records self.now.tokens edition) output.now ≡ true) }
        ensures steps { HandsOut S.takes S.refuses sink.old (str_flat (with_trivia self.now.tokens output.now)) result sink.new }
        ensures answer { IfOk result (λ all. IsTrue all ↔ (used output.now ≡ significant self.now.tokens)) }

        // What was handed out is one tree, each leaf stands for tokens that touch, and the texts of all its leaves
        // are those of the tokens that the output covers and of the trivia before the next one: the text, where all
        // were passed to the sink. It has few steps: those of the output, at most nine more for each token that the
        // output covers, and one for each token of the text.
        ensures tree { str_one_tree (with_trivia self.now.tokens output.now) ≡ true }
        ensures touching { TreeTouches self.now.tokens output.now }
        ensures front { str_joined (with_trivia self.now.tokens output.now) ≡ joined (front_of (used output.now) self.now.tokens) }
        ensures few { length (str_flat (with_trivia self.now.tokens output.now)) ≤ length (flat output.now) + (9 * used output.now + length self.now.tokens) }
        ensures whole { IfOk result (λ all. IsTrue all → str_joined (with_trivia self.now.tokens output.now) ≡ joined self.now.tokens) }
    {
        let mut builder = Builder::new(self);
        let mut steps = output.iter();
        'steps: while let Some(step) = steps.next() {
            builder.step(step, sink)?;
            // The end of a node waits for messages alone: handed out at once, it is not asked for at the next step.
            if builder.is_waiting() && !steps.is_at_message_or_end() {
                builder.close(sink)?;
            }
        }
        builder.finish(sink)
    }

    /// Does for the steps of a tree in a slice what [`LexedStr::intersperse_trivia`] does for an output.
    ///
    /// They must be the steps of one tree over a prefix of this text's tokens, in which each split float is the last
    /// child of the nodes that it ends.
    pub fn intersperse_steps<S: StrSink>(
        &self,
        steps: &[Step<'_>],
        sink: &mut S,
    ) -> Result<bool, S::Refusal>
        requires shown { flat (forest_of (map step_value steps.now)) ≡ map step_value steps.now }
        requires splits { splits_placed (forest_of (map step_value steps.now)) ≡ true }
        requires tree { one_tree (forest_of (map step_value steps.now)) ≡ true }
        requires prefix { (edition : Edition) × (covers (records self.now.tokens edition) (forest_of (map step_value steps.now)) ≡ true) }
        ensures steps { HandsOut S.takes S.refuses sink.old (str_flat (with_trivia self.now.tokens (forest_of (map step_value steps.now)))) result sink.new }
        ensures answer { IfOk result (λ all. IsTrue all ↔ (used (forest_of (map step_value steps.now)) ≡ significant self.now.tokens)) }
    {
        let mut builder = Builder::new(self);
        for step in steps {
            builder.step(copied_step(step), sink)?;
        }
        builder.finish(sink)
    }
}

// `*step` is refused: a `Copy` enum that holds a struct with a model is not copied from behind a reference.
fn copied_step<'a>(step: &Step<'a>) -> Step<'a>
    ensures { step_value result ≡ step_value step.now }
{
    match step {
        Step::Token {
            kind,
            n_input_tokens,
        } => Step::Token {
            kind: *kind,
            n_input_tokens: *n_input_tokens,
        },
        Step::FloatSplit { ends_in_dot } => Step::FloatSplit {
            ends_in_dot: *ends_in_dot,
        },
        Step::Enter { kind } => Step::Enter { kind: *kind },
        Step::Exit => Step::Exit,
        Step::Error { msg } => Step::Error { msg },
    }
}

/// Appends the record of a token, if it is no trivia.
#[inline(never)]
fn push_record(
    lexed: &LexedStr<'_>,
    i: usize,
    edition: Edition,
    input: &mut Input,
) -> Result<(), NoMemory>
    requires { i < length lexed.now.tokens }
    ensures { OnOk result (input.new ≡ input.old ++ records_at lexed.now.tokens i edition) }
{
    let kind = lexed.kind(i);
    if kind.is_trivia() {
        return Ok(());
    }
    if kind == SyntaxKind::IDENT {
        let keyword = SyntaxKind::from_contextual_keyword(lexed.text(i), edition);
        return input.push_ident(keyword.unwrap_or(SyntaxKind::IDENT), edition);
    }
    input.push_joint(kind, edition, is_joint(lexed, i))?;
    Ok(())
}

/// The numbers, which are in order, past this one.
fn past(numbers: &[u32], number: usize) -> &[u32]
    ensures { result.now ≡ past numbers.now number }
{
    match numbers {
        [first, rest @ ..] if *first as usize == number => rest,
        _ => numbers,
    }
}

/// One past the first of the numbers; without one, how many tokens there are.
fn past_first(numbers: &[u32], count: usize) -> usize
    ensures { result ≡ past_first numbers.now count }
{
    match numbers {
        [first, ..] => *first as usize + 1,
        [] => count,
    }
}

/// Appends the records of tokens from `from` on, as far as the kinds alone give them. The last one before `end` is only
/// looked at, and none before that may be a contextual keyword. Returns how far it came.
///
/// It stops where there is no room, and at a float number: `push_record` goes on from there.
#[inline(always)]
fn push_plain(
    lexed: &LexedStr<'_>,
    from: usize,
    end: usize,
    edition: Edition,
    input: &mut Input,
) -> usize
    requires rising { from ≤ end }
    requires within { end ≤ length lexed.now.tokens }
    requires plain { ArePlain (token_at lexed.now.tokens) from (end - 1) }
    ensures further { from ≤ result }
    ensures within { result ≤ end }
    ensures last { from < end → result < end }
    ensures pushed { input.new ++ records (drop result lexed.now.tokens) edition ≡ input.old ++ records (drop from lexed.now.tokens) edition }
{
    from + input.push_kinds_in_room(&lexed.kinds()[from..end], edition)
}

/// The joint bit of a token.
#[inline(always)]
fn is_joint(lexed: &LexedStr<'_>, i: usize) -> bool
    requires { i < length lexed.now.tokens }
    ensures { result ≡ joint_of (token_at lexed.now.tokens i) (drop (i + 1) lexed.now.tokens) }
{
    match lexed.kind(i) {
        SyntaxKind::IDENT => false,
        SyntaxKind::FLOAT_NUMBER => !lexed.text(i).ends_with('.'),
        _ => {
            let count = lexed.len();
            i + 1 < count && touches(lexed.kind(i + 1))
        }
    }
}

/// Whether a token of this kind touches the token before it.
fn touches(kind: SyntaxKind) -> bool
    ensures { result ≡ not (is_trivia kind || (kind == IDENT)) }
{
    !(kind.is_trivia() || kind == SyntaxKind::IDENT)
}
