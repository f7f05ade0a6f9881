//! What fills the caller's room.
ghost use Rattle.std.specs.Prelude.{◌≡◌, ◌<◌, ◌^◌, length};
ghost use Rattle.rap_events.specs.Forest.{flat};
ghost use Rattle.rap_events.specs.Step.{step_value};
ghost use Rattle.rap_c.specs.Item.{message, output_item, output_items, token_items, lexer_items};
ghost use Rattle.rap_c.specs.Filling.{write_at};

use crate::answer::RapAnswer;
use crate::step::{ENTER, EXIT, MESSAGE, RapStep, SPLIT, TOKEN};
use ra_ap_parser::{LexedStr, Output, Step, StrSink, StrStep, SyntaxKind};
use std::convert::Infallible;

/// The caller's room for steps and for the bytes of messages, how many of each there have been, and the place that the
/// steps have come to. Numbers saturate at 2^64 - 1.
#[derive(Drop)]
pub struct Filler<'a> {
    pub steps: &'a mut [RapStep],
    pub messages: &'a mut [u8],
    pub count: usize,
    pub said: usize,
    pub place: usize,
}

/// Writes the bytes into the room from a place on, as far as it reaches.
pub fn put_bytes(room: &mut [u8], at: usize, bytes: &[u8])
    ensures { room.new ≡ write_at room.old at bytes.now }
{
    if at < room.len() {
        let count = bytes.len().min(room.len() - at);
        room[at..at + count].copy_from_slice(&bytes[..count]);
    }
}

/// The kind's number.
pub fn kind_number(kind: SyntaxKind) -> u32
    ensures { result ≡ kind }
{
    u32::from(u16::from(kind))
}

impl<'a> Filler<'a> {
    ghost use Rattle.rap_c.specs.Fills.{Adds, AddsAll, IsStart, Puts};

    /// Nothing is written yet.
    pub fn new(steps: &'a mut [RapStep], messages: &'a mut [u8]) -> Filler<'a>
        ensures start { IsStart steps.old messages.old result }
        ensures steps { result.steps.ghost_name ≡ steps.entry.ghost_name }
        ensures messages { result.messages.ghost_name ≡ messages.entry.ghost_name }
    {
        // For the proof: both fit their type.
        let _step_room = steps.len();
        let _message_room = messages.len();
        Filler {
            steps,
            messages,
            count: 0,
            said: 0,
            place: 0,
        }
    }

    /// Writes a step where there is room for it, and goes so far on.
    fn put(&mut self, what: u32, kind: u32, width: usize)
        ensures { Puts what kind width self.old self.new }
    {
        // For the proof: it fits its type.
        let _said = self.said;
        let at = self.place;
        let end = at.saturating_add(width);
        if self.count < self.steps.len() {
            self.steps[self.count] = RapStep {
                what,
                kind,
                at,
                start: at,
                end,
            };
        }
        self.count = self.count.saturating_add(1);
        self.place = end;
    }

    /// Writes a message as far as there is room for it, and its step.
    fn put_message(&mut self, text: &str, at: usize)
        ensures { Adds (message text.now at) self.old self.new }
    {
        let start = self.said;
        let end = start.saturating_add(text.len());
        put_bytes(self.messages, start, text.as_bytes());
        if self.count < self.steps.len() {
            self.steps[self.count] = RapStep {
                what: MESSAGE,
                kind: 0,
                at,
                start,
                end,
            };
        }
        self.count = self.count.saturating_add(1);
        self.said = end;
    }

    /// Adds a step of an output.
    fn put_output_step(&mut self, step: Step<'_>)
        ensures { Adds (output_item (step_value step.entry)) self.old self.new }
    {
        match step {
            Step::Enter { kind } => self.put(ENTER, kind_number(kind), 0),
            Step::Exit => self.put(EXIT, 0, 0),
            Step::Token {
                kind,
                n_input_tokens,
            } => self.put(TOKEN, kind_number(kind), usize::from(n_input_tokens)),
            Step::FloatSplit { ends_in_dot } => self.put(SPLIT, u32::from(ends_in_dot), 1),
            Step::Error { msg } => self.put_message(msg, self.place),
        }
    }

    /// Adds the steps of an output.
    pub fn add_output(&mut self, output: &Output)
        ensures { AddsAll (output_items (flat output.now)) self.old self.new }
    {
        'steps: for step in output.iter() {
            self.put_output_step(step);
        }
    }

    /// Adds the tokens of a text.
    pub fn add_tokens(&mut self, lexed: &LexedStr<'_>)
        ensures { AddsAll (token_items lexed.now.tokens) self.old self.new }
    {
        'tokens: for i in 0..lexed.len() {
            self.put(TOKEN, kind_number(lexed.kind(i)), lexed.text_len(i));
        }
    }

    /// Adds the lexer's messages, each at the start of its token.
    pub fn add_errors_of(&mut self, lexed: &LexedStr<'_>)
        ensures { AddsAll (lexer_items lexed.now.tokens lexed.now.errors) self.old self.new }
    {
        match lexed.report_errors(self) {
            Ok(()) => (),
            Err(never) => match never {},
        }
    }

    /// What there has been, with this status, of so many bytes of the text.
    pub fn answer(&self, status: u32, used: usize) -> RapAnswer
        ensures { result ≡ record { status = status; steps = self.now.count; message_bytes = self.now.said; used = used } }
    {
        RapAnswer {
            status,
            steps: self.count,
            message_bytes: self.said,
            used,
        }
    }
}

impl StrSink for Filler<'_> {
    ghost use Rattle.rap_c.specs.Fills.{AddsStep};

    // No step is refused.
    type Refusal = Infallible;

    ghost takes = { AddsStep };

    ghost refuses = { λ _ _ _ _. ⊥ };

    fn step(&mut self, step: StrStep<'_>) -> Result<(), Infallible> {
        match step {
            StrStep::Enter { kind } => self.put(ENTER, kind_number(kind), 0),
            StrStep::Exit => self.put(EXIT, 0, 0),
            StrStep::Token { kind, text } => self.put(TOKEN, kind_number(kind), text.len()),
            StrStep::Error { msg, pos } => self.put_message(msg, pos),
        }
        Ok(())
    }
}
