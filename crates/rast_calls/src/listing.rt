//! The lines that are printed of what the calls return.
ghost use Rattle.std.specs.Prelude.{◌≡◌, ◌++◌, IfErr, IfOk, OnOk, string_bytes, length, MatchResult};
ghost use Rattle.rap_events.specs.Forest.{flat};
ghost use Rattle.rap_events.specs.Step.{step_value};
ghost use Rattle.rast_print.specs.Listed.{step_line, step_lines};
ghost use Rattle.rast_calls.specs.Listed.{Comes, ComesOfKept, ComesOfTokens, IsCounted, IsKept, IsStepped, Lists, capacity_lines, kept_lines, messages_in, refusal_lines, shown_spans, span, spans};

use crate::asked::{Asked, Tokens, Way};
use crate::built::list_built;
use crate::closed::list_closed;
use crate::pushed::{CallFault, input_of, input_of_first, output_of};
use crate::sink::list_held;
use ra_ap_parser::frontmatter::FrontmatterError;
use ra_ap_parser::{Input, NoMemory, Output, Step};
use std::alloc::{AllocError, Global};
use std::fmt::Write as _;

/// Makes an input with capacity for `room` tokens, and lists how many it has.
fn list_capacity(alloc: Global, capacity: usize) -> Result<String, CallFault>
    ensures lists { IfOk result (λ lines. string_bytes lines ≡ capacity_lines) }
    ensures fault { IfErr result (λ fault. fault ≡ CallFault.NoMemory) }
{
    let input = Input::with_capacity(alloc, capacity)?;
    let mut lines = String::new(alloc);
    writeln!(lines, "length {}", input.len())?;
    Ok(lines)
}

/// A refusal with `count` spans beside it: 0..1, 1..2 and so on.
fn refusal_of(
    alloc: Global,
    message: &str,
    start: usize,
    end: usize,
    count: usize,
) -> Result<FrontmatterError, NoMemory>
    ensures { IfOk result (λ e. e ≡ record { message = message.now; primary = span start end; visible = spans count }) }
{
    let mut error = FrontmatterError::new(alloc, message, start..end)?;
    'spans: for i in 0..count {
        error = error.push_visible_span(i..i + 1)?;
    }
    Ok(error)
}

/// Adds the spans to show, each after a space.
fn push_spans(lines: &mut String, error: &FrontmatterError) -> Result<(), AllocError>
    ensures { OnOk result (string_bytes lines.new ≡ string_bytes lines.old ++ shown_spans error.now.visible) }
{
    'spans: for span in error.visible_spans() {
        write!(lines, " {}..{}", span.start, span.end)?;
    }
    Ok(())
}

/// Lists the message and the spans of a refusal.
fn list_refusal(
    alloc: Global,
    message: &str,
    start: usize,
    end: usize,
    count: usize,
) -> Result<String, CallFault>
    ensures lists { IfOk result (λ lines. string_bytes lines ≡ refusal_lines message.now start end count) }
    ensures fault { IfErr result (λ fault. fault ≡ CallFault.NoMemory) }
{
    let error = refusal_of(alloc, message, start, end, count)?;
    let mut lines = String::new(alloc);
    let primary = error.primary_span();
    write!(
        lines,
        "refused {}\nprimary {}..{}\nvisible",
        error.message(),
        primary.start,
        primary.end
    )?;
    push_spans(&mut lines, &error)?;
    lines.push_str("\n")?;
    Ok(lines)
}

/// Adds the line of a step.
fn push_step(lines: &mut String, step: Step<'_>) -> Result<(), AllocError>
    ensures { OnOk result (string_bytes lines.new ≡ string_bytes lines.old ++ step_line (step_value step.entry)) }
{
    match step {
        Step::Enter { kind } => writeln!(lines, "enter {}", kind.name())?,
        Step::Exit => lines.push_str("exit\n")?,
        Step::Token {
            kind,
            n_input_tokens,
        } => writeln!(lines, "token {} {n_input_tokens}", kind.name())?,
        Step::FloatSplit { ends_in_dot } => lines.push_str(if ends_in_dot {
            "split true\n"
        } else {
            "split false\n"
        })?,
        Step::Error { msg } => writeln!(lines, "error {msg}")?,
    }
    Ok(())
}

/// Adds the lines of an output's steps.
fn push_steps(lines: &mut String, output: &Output) -> Result<(), AllocError>
    ensures { OnOk result (string_bytes lines.new ≡ string_bytes lines.old ++ step_lines (flat output.now)) }
{
    'steps: for step in output.iter() {
        push_step(lines, step)?;
    }
    Ok(())
}

/// Lists the steps of an input of the tokens.
fn list_steps(alloc: Global, way: Way, tokens: &Tokens) -> Result<String, CallFault>
    ensures lists { IfOk result (λ lines. IsStepped way tokens.now (string_bytes lines)) }
    ensures fault { IfErr result (ComesOfTokens way tokens.now) }
{
    let input = input_of(alloc, tokens)?;
    let output = output_of(alloc, way, &input)?;
    let mut lines = String::new(alloc);
    push_steps(&mut lines, &output)?;
    Ok(lines)
}

/// Adds the lines of how many tokens were pushed, and how many the input has then.
fn push_kept(lines: &mut String, count: usize, length: usize) -> Result<(), AllocError>
    ensures { OnOk result (string_bytes lines.new ≡ string_bytes lines.old ++ kept_lines count length) }
{
    write!(lines, "pushed {count}\nlength {length}\n")?;
    Ok(())
}

/// Lists how many of the tokens were pushed before a push was refused, how many the input has then, and its steps.
fn list_kept(alloc: Global, way: Way, tokens: &Tokens) -> Result<String, CallFault>
    ensures lists { IfOk result (λ lines. IsKept way tokens.now (string_bytes lines)) }
    ensures fault { IfErr result (ComesOfKept way tokens.now) }
{
    let pushed = input_of_first(alloc, tokens)?;
    let output = output_of(alloc, way, &pushed.input)?;
    let mut lines = String::new(alloc);
    push_kept(&mut lines, pushed.count, pushed.input.len())?;
    push_steps(&mut lines, &output)?;
    Ok(lines)
}

/// How many messages an output has.
#[tactic(auto, using(crate::proofs::Holding::messages_few))]
fn count_messages(output: &Output) -> usize
    ensures { result ≡ messages_in (flat output.now) }
{
    // For the proof: what holds of every output.
    let _steps = output.iter().len();
    let mut count = 0usize;
    'steps: for step in output.iter() {
        if let Step::Error { msg: _ } = step {
            count += 1;
        }
    }
    count
}

/// Lists how many steps and how many messages an input of the tokens has.
fn list_counts(alloc: Global, way: Way, tokens: &Tokens) -> Result<String, CallFault>
    ensures lists { IfOk result (λ lines. IsCounted way tokens.now (string_bytes lines)) }
    ensures fault { IfErr result (ComesOfTokens way tokens.now) }
{
    let input = input_of(alloc, tokens)?;
    let output = output_of(alloc, way, &input)?;
    let mut lines = String::new(alloc);
    let steps = output.iter().len();
    writeln!(lines, "steps {steps}\nmessages {}", count_messages(&output))?;
    Ok(lines)
}

/// Makes the calls, and lists what they return.
pub fn list(alloc: Global, asked: &Asked, text: &str) -> Result<String, CallFault>
    ensures lists { IfOk result (λ lines. Lists text.now asked.now (string_bytes lines)) }
    ensures fault { IfErr result (Comes text.now asked.now) }
{
    match asked {
        Asked::Capacity(capacity) => list_capacity(alloc, *capacity),
        Asked::Frontmatter {
            message,
            start,
            end,
            count,
        } => list_refusal(alloc, message.as_str(), *start, *end, *count),
        Asked::Push(way, tokens) => list_steps(alloc, *way, tokens),
        Asked::Kept(way, tokens) => list_kept(alloc, *way, tokens),
        Asked::Count(way, tokens) => list_counts(alloc, *way, tokens),
        Asked::Sink {
            count,
            entry,
            edition,
        } => list_held(alloc, *count, *entry, *edition, text),
        Asked::Build { entry, edition } => list_built(alloc, *entry, *edition, text),
        Asked::Closed { reparser, edition } => list_closed(alloc, *reparser, *edition, text),
    }
}
