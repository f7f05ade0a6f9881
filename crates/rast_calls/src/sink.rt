//! A sink that accepts a number of steps of a text's tree, and refuses the next one.
ghost use Rattle.std.specs.Prelude.{◌≡◌, ◌+◌, IfErr, IfOk, OnErr, OnOk, string_bytes};
ghost use Rattle.rast_calls.specs.Held.{ComesOfSteps, IsHeld, answer_line};

use crate::pushed::CallFault;
use ra_ap_parser::{Edition, StrSink, StrStep, SyntaxKind, TextFault, TopEntryPoint, parse_text};
use rast_common::message::push_message;
use rast_common::quote::push_quoted;
use std::alloc::{AllocError, Global};
use std::fmt::Write as _;

/// Why a step is refused.
#[derive(Clone, Copy, Debug, PartialEq, Eq)]
pub enum Refusal {
    /// As many steps were accepted as the sink accepts.
    Full,
    /// Out of memory: the allocator refused a request.
    NoMemory,
}

impl From<AllocError> for Refusal {
    ghost use Rattle.rast_calls.specs.declared.sink.Refusal.TheVariants.{NoMemory};

    ghost from_gives = { λ _ fault. fault ≡ NoMemory };

    fn from(_fault: AllocError) -> Refusal {
        Refusal::NoMemory
    }
}

/// The lines of the steps that were accepted, and how many more are accepted.
#[derive(Drop)]
pub struct Holder {
    pub lines: String,
    pub left: usize,
}

impl Holder {
    ghost use Rattle.std.specs.Prelude.{MatchResult};
    ghost use Rattle.rap_lexed.specs.StrStep.{str_enter, str_exit, str_token, str_error};
    ghost use Rattle.rast_calls.specs.Held.{Holds, Refuses};

    /// Counts a step as accepted, or refuses it.
    fn take(&mut self) -> Result<(), Refusal>
        ensures ok { OnOk result ((self.new.left + 1 ≡ self.old.left) × (self.new.lines ≡ self.old.lines)) }
        ensures err { OnErr result ((self.old.left ≡ 0) × (self.new ≡ self.old)) }
    {
        if self.left == 0 {
            return Err(Refusal::Full);
        }
        self.left -= 1;
        Ok(())
    }

    /// Adds the line of a node that begins.
    fn enter(&mut self, kind: SyntaxKind) -> Result<(), Refusal>
        ensures { MatchResult result (λ _. Holds self.old (str_enter kind) self.new) (λ e. Refuses self.old (str_enter kind) e self.new) }
    {
        self.take()?;
        writeln!(self.lines, "enter {}", kind.name())?;
        Ok(())
    }

    /// Adds the line of a node that ends.
    fn exit(&mut self) -> Result<(), Refusal>
        ensures { MatchResult result (λ _. Holds self.old str_exit self.new) (λ e. Refuses self.old str_exit e self.new) }
    {
        self.take()?;
        self.lines.push_str("exit\n")?;
        Ok(())
    }

    /// Adds the line of a token.
    fn token(&mut self, kind: SyntaxKind, text: &str) -> Result<(), Refusal>
        ensures { MatchResult result (λ _. Holds self.old (str_token kind text.now) self.new) (λ e. Refuses self.old (str_token kind text.now) e self.new) }
    {
        self.take()?;
        write!(self.lines, "token {} ", kind.name())?;
        push_quoted(&mut self.lines, text)?;
        self.lines.push_str("\n")?;
        Ok(())
    }

    /// Adds the line of a message.
    fn error(&mut self, msg: &str, pos: usize) -> Result<(), Refusal>
        ensures { MatchResult result (λ _. Holds self.old (str_error msg.now pos) self.new) (λ e. Refuses self.old (str_error msg.now pos) e self.new) }
    {
        self.take()?;
        push_message(&mut self.lines, pos, msg)?;
        Ok(())
    }
}

impl StrSink for Holder {
    ghost use Rattle.rast_calls.specs.Held.{Holds, Refuses};

    type Refusal = Refusal;

    ghost takes = { Holds };

    ghost refuses = { Refuses };

    fn step(&mut self, step: StrStep<'_>) -> Result<(), Refusal> {
        match step {
            StrStep::Enter { kind } => self.enter(kind),
            StrStep::Exit => self.exit(),
            StrStep::Token { kind, text } => self.token(kind, text),
            StrStep::Error { msg, pos } => self.error(msg, pos),
        }
    }
}

/// The line of whether all of the text was passed to the sink.
fn answer_of(whole: bool) -> &'static str
    ensures { result.now ≡ answer_line whole }
{
    if whole {
        "answer true\n"
    } else {
        "answer false\n"
    }
}

/// The lines of the steps of a text's tree that such a sink accepts, and whether these are all.
pub fn list_held(
    alloc: Global,
    count: usize,
    entry: TopEntryPoint,
    edition: Edition,
    text: &str,
) -> Result<String, CallFault>
    ensures held { IfOk result (λ lines. IsHeld text.now edition entry count (string_bytes lines)) }
    ensures fault { IfErr result (ComesOfSteps text.now edition) }
{
    let mut holder = Holder {
        lines: String::new(alloc),
        left: count,
    };
    match parse_text(alloc, edition, entry, text, &mut holder) {
        Ok(parsed) => holder.lines.push_str(answer_of(parsed.whole))?,
        Err(TextFault::TextTooLong) => return Err(CallFault::TextTooLong),
        Err(TextFault::TooManyTokens) => return Err(CallFault::TooManyTokens),
        Err(TextFault::NoMemory) => return Err(CallFault::NoMemory),
        Err(TextFault::Refused(Refusal::NoMemory)) => return Err(CallFault::NoMemory),
        Err(TextFault::Refused(Refusal::Full)) => holder.lines.push_str("refused\n")?,
    }
    Ok(holder.lines)
}
