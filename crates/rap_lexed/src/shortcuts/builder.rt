//! Inserting trivia between the steps of an output.
ghost use Rattle.std.specs.Prelude.{◌≡◌, ◌+◌, ◌<◌, ◌≤◌, ◌↔◌, ◌∷◌, [], ◌++◌, true, length, take, drop, map, IsTrue, IfOk, OnOk};
ghost use Rattle.rap_events.specs.StepValue.{enter, exit, token, float_split};
ghost use Rattle.rap_events.specs.Step.{step_value};
ghost use Rattle.rap_lexed.specs.StrSink.{HandsOut};
ghost use Rattle.rap_lexed.specs.Attached.{attached_tail, before_tail, takes_tail};
ghost use Rattle.rap_lexed.specs.Builder.{number_steps, dotted_steps, illegal_steps, float_steps, after_float};
ghost use Rattle.rap_lexed.specs.Input.{ends_with_dot};
ghost use Rattle.rap_lexed.specs.StrStep.{str_enter, str_token, str_step_value};
ghost use Rattle.rap_lexed.specs.Trivia.{trivia_at, past_trivia, text_of};

use super::attached::{tail_begin, takes_tail};
use super::{StrSink, StrStep};
use crate::lexed_str::LexedStr;
use rap_base::syntax_kind::SyntaxKind;
use rap_events::output::Step;

/// What a builder handed out last.
#[derive(Clone, Copy)]
pub(super) enum State {
    /// Nothing: the root's beginning comes first.
    PendingEnter,
    /// Anything but the end of a node.
    Normal,
    /// The end of a node, which waits for the messages that follow it.
    PendingExit,
}

impl State {
    /// What was handed out last, of a float.
    fn after_float(ends_in_dot: bool) -> State
        ensures { result ≡ after_float ends_in_dot }
    {
        if ends_in_dot {
            State::Normal
        } else {
            State::PendingExit
        }
    }
}

/// Where the walk through an output stands: how many tokens of the text were passed to the sink, and what came last.
#[derive(Drop)]
pub(super) struct Builder<'a, 'text> {
    lexed: &'a LexedStr<'text>,
    pos: usize,
    state: State,
}

impl<'a, 'text> Builder<'a, 'text> {
    ghost use Rattle.rap_lexed.specs.Builder.{held, leaves_of, before_next, made_by, moved, CanMake};
    ghost use Rattle.rap_lexed.specs.declared.shortcuts.builder.State.TheVariants.{PendingEnter, Normal, PendingExit};

    pub(super) fn new(lexed: &'a LexedStr<'text>) -> Builder<'a, 'text>
        ensures { result ≡ record { lexed = lexed.entry; pos = 0; state = PendingEnter } }
    {
        Builder {
            lexed,
            pos: 0,
            state: State::PendingEnter,
        }
    }

    #[inline(always)]
    pub(super) fn step<S: StrSink>(
        &mut self,
        step: Step<'_>,
        sink: &mut S,
    ) -> Result<(), S::Refusal>
        requires within { self.old.pos ≤ length self.old.lexed.now.tokens }
        requires can { CanMake self.old.lexed.now.tokens self.old.pos (step_value step) }
        ensures steps { HandsOut S.takes S.refuses sink.old (made_by self.old (step_value step.entry)) result sink.new }
        ensures after { OnOk result (self.new ≡ moved self.old (step_value step.entry)) }
    {
        match step {
            Step::Token {
                kind,
                n_input_tokens,
            } => self.token(kind, n_input_tokens as usize, sink),
            Step::FloatSplit { ends_in_dot } => self.float_split(ends_in_dot, sink),
            Step::Enter { kind } => self.enter(kind, sink),
            Step::Exit => self.exit(sink),
            Step::Error { msg } => {
                let pos = self.lexed.text_start(self.pos);
                sink.step(StrStep::Error { msg, pos })
            }
        }
    }

    /// Hands out what is left after the last step: trivia, and the root's end. Returns whether all tokens are out.
    pub(super) fn finish<S: StrSink>(mut self, sink: &mut S) -> Result<bool, S::Refusal>
        requires { self.pos ≤ length self.lexed.now.tokens }
        ensures steps { HandsOut S.takes S.refuses sink.old (leaves_of (trivia_at self.entry.lexed.now.tokens self.entry.pos) ++ held self.entry.state) result sink.new }
        ensures answer { IfOk result (λ all. IsTrue all ↔ (past_trivia self.entry.lexed.now.tokens self.entry.pos ≡ length self.entry.lexed.now.tokens)) }
    {
        self.eat_trivias(sink)?;
        self.close(sink)?;
        Ok(self.pos == self.lexed.len())
    }

    #[inline(always)]
    fn token<S: StrSink>(
        &mut self,
        kind: SyntaxKind,
        n_input_tokens: usize,
        sink: &mut S,
    ) -> Result<(), S::Refusal>
        requires within { self.old.pos ≤ length self.old.lexed.now.tokens }
        requires can { CanMake self.old.lexed.now.tokens self.old.pos (token kind n_input_tokens) }
        ensures steps { HandsOut S.takes S.refuses sink.old (made_by self.old (token kind n_input_tokens)) result sink.new }
        ensures after { OnOk result (self.new ≡ moved self.old (token kind n_input_tokens)) }
    {
        self.settle(sink)?;
        self.do_token(kind, n_input_tokens, sink)
    }

    fn float_split<S: StrSink>(&mut self, ends_in_dot: bool, sink: &mut S) -> Result<(), S::Refusal>
        requires within { self.old.pos ≤ length self.old.lexed.now.tokens }
        requires can { CanMake self.old.lexed.now.tokens self.old.pos (float_split ends_in_dot) }
        ensures steps { HandsOut S.takes S.refuses sink.old (made_by self.old (float_split ends_in_dot)) result sink.new }
        ensures after { OnOk result (self.new ≡ moved self.old (float_split ends_in_dot)) }
    {
        self.settle(sink)?;
        // For the proof: it fits its type.
        let _count = self.lexed.len();
        let text = self.lexed.text(self.pos);
        let start = self.lexed.text_start(self.pos);
        self.pos += 1;
        self.state = State::after_float(ends_in_dot);
        hand_out_float(text, ends_in_dot, start, sink)
    }

    #[inline(always)]
    fn enter<S: StrSink>(&mut self, kind: SyntaxKind, sink: &mut S) -> Result<(), S::Refusal>
        requires { self.old.pos ≤ length self.old.lexed.now.tokens }
        ensures steps { HandsOut S.takes S.refuses sink.old (made_by self.old (enter kind)) result sink.new }
        ensures after { OnOk result (self.new ≡ moved self.old (enter kind)) }
    {
        if let State::PendingEnter = self.state {
            self.state = State::Normal;
            return sink.step(StrStep::Enter { kind });
        }
        self.close(sink)?;
        self.enter_between_trivias(kind, sink)
    }

    /// Hands out the beginning of a node, and the trivia that stand here: its attached tail after it, and the others
    /// before. Most nodes begin where none stand.
    #[inline(always)]
    fn enter_between_trivias<S: StrSink>(
        &mut self,
        kind: SyntaxKind,
        sink: &mut S,
    ) -> Result<(), S::Refusal>
        requires { self.old.pos ≤ length self.old.lexed.now.tokens }
        ensures steps { HandsOut S.takes S.refuses sink.old (leaves_of (before_tail kind (trivia_at self.old.lexed.now.tokens self.old.pos)) ++ str_enter kind ∷ leaves_of (attached_tail kind (trivia_at self.old.lexed.now.tokens self.old.pos))) result sink.new }
        ensures after { OnOk result (self.new ≡ record self.old { pos = past_trivia self.old.lexed.now.tokens self.old.pos }) }
    {
        if self.is_at_trivia() {
            return self.enter_at_trivia(kind, sink);
        }
        sink.step(StrStep::Enter { kind })
    }

    /// Whether the next token is trivia.
    fn is_at_trivia(&self) -> bool
        ensures { IsTrue result ↔ (self.now.pos < past_trivia self.now.lexed.now.tokens self.now.pos) }
    {
        self.pos < self.lexed.len() && self.lexed.kind(self.pos).is_trivia()
    }

    /// The same for a node that begins where trivia stand.
    fn enter_at_trivia<S: StrSink>(
        &mut self,
        kind: SyntaxKind,
        sink: &mut S,
    ) -> Result<(), S::Refusal>
        requires { self.old.pos ≤ length self.old.lexed.now.tokens }
        ensures steps { HandsOut S.takes S.refuses sink.old (leaves_of (before_tail kind (trivia_at self.old.lexed.now.tokens self.old.pos)) ++ str_enter kind ∷ leaves_of (attached_tail kind (trivia_at self.old.lexed.now.tokens self.old.pos))) result sink.new }
        ensures after { OnOk result (self.new ≡ record self.old { pos = past_trivia self.old.lexed.now.tokens self.old.pos }) }
    {
        if takes_tail(kind) {
            return self.enter_with_tail(kind, sink);
        }
        self.eat_trivias(sink)?;
        sink.step(StrStep::Enter { kind })
    }

    /// Hands out the beginning of a node that takes a tail, between the trivia before the tail and the tail.
    fn enter_with_tail<S: StrSink>(
        &mut self,
        kind: SyntaxKind,
        sink: &mut S,
    ) -> Result<(), S::Refusal>
        requires within { self.old.pos ≤ length self.old.lexed.now.tokens }
        requires item { takes_tail kind ≡ true }
        ensures steps { HandsOut S.takes S.refuses sink.old (leaves_of (before_tail kind (trivia_at self.old.lexed.now.tokens self.old.pos)) ++ str_enter kind ∷ leaves_of (attached_tail kind (trivia_at self.old.lexed.now.tokens self.old.pos))) result sink.new }
        ensures after { OnOk result (self.new ≡ record self.old { pos = past_trivia self.old.lexed.now.tokens self.old.pos }) }
    {
        let begin = tail_begin(self.lexed, self.pos);
        self.eat_n_trivias(begin - self.pos, sink)?;
        sink.step(StrStep::Enter { kind })?;
        self.eat_trivias(sink)
    }

    #[inline(always)]
    fn exit<S: StrSink>(&mut self, sink: &mut S) -> Result<(), S::Refusal>
        ensures steps { HandsOut S.takes S.refuses sink.old (made_by self.old exit) result sink.new }
        ensures after { OnOk result (self.new ≡ moved self.old exit) }
    {
        self.close(sink)?;
        self.state = State::PendingExit;
        Ok(())
    }

    /// Hands out the end of a node that waits, and the trivia that stand here.
    #[inline(always)]
    fn settle<S: StrSink>(&mut self, sink: &mut S) -> Result<(), S::Refusal>
        requires { self.old.pos ≤ length self.old.lexed.now.tokens }
        ensures steps { HandsOut S.takes S.refuses sink.old (before_next self.old.lexed.now.tokens self.old.state self.old.pos) result sink.new }
        ensures after { OnOk result (self.new ≡ record self.old { pos = past_trivia self.old.lexed.now.tokens self.old.pos; state = Normal }) }
    {
        self.close(sink)?;
        self.eat_trivias(sink)
    }

    /// Whether the end of a node waits.
    #[inline(always)]
    pub(super) fn is_waiting(&self) -> bool
        ensures { IsTrue result ↔ (self.now.state ≡ PendingExit) }
    {
        matches!(self.state, State::PendingExit)
    }

    /// Hands out the end of a node that waits.
    #[inline(always)]
    pub(super) fn close<S: StrSink>(&mut self, sink: &mut S) -> Result<(), S::Refusal>
        ensures steps { HandsOut S.takes S.refuses sink.old (held self.old.state) result sink.new }
        ensures after { OnOk result (self.new ≡ record self.old { state = Normal }) }
    {
        if let State::PendingExit = self.state {
            sink.step(StrStep::Exit)?;
        }
        self.state = State::Normal;
        Ok(())
    }

    #[inline(always)]
    fn eat_trivias<S: StrSink>(&mut self, sink: &mut S) -> Result<(), S::Refusal>
        requires { self.old.pos ≤ length self.old.lexed.now.tokens }
        ensures steps { HandsOut S.takes S.refuses sink.old (leaves_of (trivia_at self.old.lexed.now.tokens self.old.pos)) result sink.new }
        ensures after { OnOk result (self.new ≡ record self.old { pos = past_trivia self.old.lexed.now.tokens self.old.pos }) }
    {
        'trivia: while self.pos < self.lexed.len() {
            let kind = self.lexed.kind(self.pos);
            if !kind.is_trivia() {
                break;
            }
            self.do_token(kind, 1, sink)?;
        }
        Ok(())
    }

    /// Hands out so many tokens as they are.
    fn eat_n_trivias<S: StrSink>(&mut self, n: usize, sink: &mut S) -> Result<(), S::Refusal>
        requires { self.old.pos + n ≤ length self.old.lexed.now.tokens }
        ensures steps { HandsOut S.takes S.refuses sink.old (leaves_of (take n (drop self.old.pos self.old.lexed.now.tokens))) result sink.new }
        ensures after { OnOk result (self.new ≡ record self.old { pos = self.old.pos + n }) }
    {
        'tokens: for _ in 0..n {
            let trivia = self.lexed.kind(self.pos);
            self.do_token(trivia, 1, sink)?;
        }
        Ok(())
    }

    #[inline(always)]
    fn do_token<S: StrSink>(
        &mut self,
        kind: SyntaxKind,
        n_input_tokens: usize,
        sink: &mut S,
    ) -> Result<(), S::Refusal>
        requires some { 0 < n_input_tokens }
        requires within { self.old.pos + n_input_tokens ≤ length self.old.lexed.now.tokens }
        ensures steps { HandsOut S.takes S.refuses sink.old (str_token kind (text_of self.old.lexed.now.tokens self.old.pos n_input_tokens) ∷ []) result sink.new }
        ensures after { OnOk result (self.new ≡ record self.old { pos = self.old.pos + n_input_tokens }) }
    {
        // For the proof: it fits its type.
        let _count = self.lexed.len();
        let text = self.lexed.range_text(self.pos..self.pos + n_input_tokens);
        self.pos += n_input_tokens;
        sink.step(StrStep::Token { kind, text })
    }
}

/// Hands out the parts of a float that a field access ends with, and the end of that access: its numbers are the names
/// of fields. Where it does not end in a dot, the end of the access around it is not handed out yet.
///
/// Such floats are rare: inlined, this takes registers from the walk.
#[inline(never)]
fn hand_out_float<S: StrSink>(
    text: &str,
    ends_in_dot: bool,
    pos: usize,
    sink: &mut S,
) -> Result<(), S::Refusal>
    requires { ends_with_dot text.now ≡ ends_in_dot }
    ensures { HandsOut S.takes S.refuses sink.old (float_steps ends_in_dot text.now pos) result sink.new }
{
    if ends_in_dot {
        return hand_out_dotted(text.strip_suffix('.').unwrap_or(text), sink);
    }
    match text.split_once('.') {
        Some((left, right)) => {
            hand_out_dotted(left, sink)?;
            hand_out_number(right, sink)
        }
        None => hand_out_illegal(text, pos, sink),
    }
}

/// Hands out a number as the name of a field.
fn hand_out_number<S: StrSink>(number: &str, sink: &mut S) -> Result<(), S::Refusal>
    ensures { HandsOut S.takes S.refuses sink.old (number_steps number.now) result sink.new }
{
    let steps = [
        StrStep::Enter {
            kind: SyntaxKind::NAME_REF,
        },
        StrStep::Token {
            kind: SyntaxKind::INT_NUMBER,
            text: number,
        },
        StrStep::Exit,
    ];
    hand_out(&steps, sink)
}

/// Hands out a number as the name of a field, the end of the node around it, and a dot.
fn hand_out_dotted<S: StrSink>(number: &str, sink: &mut S) -> Result<(), S::Refusal>
    ensures { HandsOut S.takes S.refuses sink.old (dotted_steps number.now) result sink.new }
{
    hand_out_number(number, sink)?;
    let end = [
        StrStep::Exit,
        StrStep::Token {
            kind: SyntaxKind::DOT,
            text: ".",
        },
    ];
    hand_out(&end, sink)
}

/// Hands out an `ERROR` over a float without a dot, and the end of the node around it.
fn hand_out_illegal<S: StrSink>(text: &str, pos: usize, sink: &mut S) -> Result<(), S::Refusal>
    ensures { HandsOut S.takes S.refuses sink.old (illegal_steps text.now pos) result sink.new }
{
    let steps = [
        StrStep::Error {
            msg: "illegal float literal",
            pos,
        },
        StrStep::Enter {
            kind: SyntaxKind::ERROR,
        },
        StrStep::Token {
            kind: SyntaxKind::FLOAT_NUMBER,
            text,
        },
        StrStep::Exit,
        StrStep::Exit,
    ];
    hand_out(&steps, sink)
}

/// Hands out steps, one after another.
fn hand_out<S: StrSink>(steps: &[StrStep<'_>], sink: &mut S) -> Result<(), S::Refusal>
    ensures { HandsOut S.takes S.refuses sink.old (map str_step_value steps.now) result sink.new }
{
    'steps: for step in steps {
        sink.step(copied(step))?;
    }
    Ok(())
}

// `*step` is refused: a `Copy` enum that holds a struct with a model is not copied from behind a reference.
fn copied<'a>(step: &StrStep<'a>) -> StrStep<'a>
    ensures { str_step_value result ≡ str_step_value step.now }
{
    match step {
        StrStep::Token { kind, text } => StrStep::Token { kind: *kind, text },
        StrStep::Enter { kind } => StrStep::Enter { kind: *kind },
        StrStep::Exit => StrStep::Exit,
        StrStep::Error { msg, pos } => StrStep::Error { msg, pos: *pos },
    }
}
