//! A whole text, from its bytes to the steps of its tree.
ghost use Rattle.std.specs.Prelude.{◌≡◌, ◌≢◌, ◌≤◌, ◌<◌, ◌↔◌, ◌⊎◌, Err, IfErr, IfOk, Some, length};
ghost use Rattle.ra_ap_parser.specs.Headline.{HasTooManyTokens, Headline, IsParsed, Leaves};

use crate::entry_point::{MAX_TOKENS, ParseFault, TopEntryPoint};
use rap_base::edition::Edition;
use rap_events::output::Output;
use rap_lexed::lexed_str::{LexFault, LexedStr, MAX_TEXT, significant_tokens};
use rap_lexed::shortcuts::StrSink;
use std::alloc::Global;
use std::error::Error;
use std::fmt;

/// Why the tree of a text was not passed to the sink.
#[derive(Clone, Debug, Drop, PartialEq, Eq)]
pub enum TextFault<R> {
    /// The text has more than [`MAX_TEXT`] bytes.
    TextTooLong,
    /// The text has more than [`MAX_TOKENS`] tokens that are no trivia.
    TooManyTokens,
    /// Out of memory: the allocator refused a request.
    NoMemory,
    /// The sink refused a step.
    Refused(R),
}

impl<R> fmt::Display for TextFault<R> {
    ghost use Rattle.ra_ap_parser.specs.Fault.{text_fault_text};

    ghost output = { λ fault. Some (text_fault_text fault) };

    fn fmt<W: fmt::Write>(&self, f: &mut fmt::Formatter<W>) -> fmt::Result {
        match self {
            TextFault::TextTooLong => f.write_str("text too long"),
            TextFault::TooManyTokens => f.write_str("too many tokens"),
            TextFault::NoMemory => f.write_str("no memory"),
            TextFault::Refused(_) => f.write_str("refused by the sink"),
        }
    }
}

impl<R: fmt::Debug + Drop> Error for TextFault<R> {}

/// A text's tokens, and whether all of them were passed to the sink.
#[derive(Drop)]
pub struct ParsedText<'t> {
    pub lexed: LexedStr<'t>,
    pub whole: bool,
}

/// A text's tokens, and the output of their parse.
#[derive(Drop)]
pub struct ParsedTokens<'t> {
    pub lexed: LexedStr<'t>,
    pub output: Output,
}

/// The fault of a text whose tokens are out of memory.
fn without_memory<R>(alloc: Global, edition: Edition, text: &str) -> TextFault<R>
    requires { length text.now ≤ MAX_TEXT }
    ensures many { (result ≡ TextFault.TooManyTokens) ↔ HasTooManyTokens text.now edition }
    ensures else_memory { (result ≡ TextFault.TooManyTokens) ⊎ (result ≡ TextFault.NoMemory) }
{
    if significant_tokens(alloc, edition, text) > MAX_TOKENS {
        TextFault::TooManyTokens
    } else {
        TextFault::NoMemory
    }
}

/// Divides the text into tokens, and parses them from the entry point. The steps of the output's tree are passed on by
/// [`LexedStr::intersperse_trivia`]; [`parse_text`] does both.
///
/// The errors are those of [`parse_text`], and come when they come there; it is never `Refused`.
#[inline(always)]
pub fn parse_tokens<'t, R>(
    alloc: Global,
    edition: Edition,
    entry: TopEntryPoint,
    text: &'t str,
) -> Result<ParsedTokens<'t>, TextFault<R>>
    ensures parsed { IfOk result (λ r. IsParsed text.now edition entry r.lexed r.output) }
    ensures too_long { (result ≡ Err TextFault.TextTooLong) ↔ (MAX_TEXT < length text.now) }
    ensures too_many { (result ≡ Err TextFault.TooManyTokens) ↔ HasTooManyTokens text.now edition }
    ensures taken { (refusal : R) → result ≢ Err (TextFault.Refused refusal) }
{
    let lexed = match LexedStr::new(alloc, edition, text) {
        Ok(lexed) => lexed,
        Err(LexFault::TextTooLong) => return Err(TextFault::TextTooLong),
        Err(LexFault::NoMemory) => return Err(without_memory(alloc, edition, text)),
    };
    // For the proof: it fits its type.
    let _count = lexed.len();
    let Ok(input) = lexed.to_input(alloc, edition) else {
        return Err(without_memory(alloc, edition, text));
    };
    match entry.parse(alloc, &input) {
        Ok(output) => {
            // For the proof: what holds of every output.
            let _steps = output.iter();
            Ok(ParsedTokens { lexed, output })
        }
        Err(ParseFault::TooManyTokens) => Err(TextFault::TooManyTokens),
        Err(ParseFault::NoMemory) => Err(TextFault::NoMemory),
    }
}

/// Divides the text into tokens, parses them from the entry point, and passes the steps of the one tree over all of the
/// text to the sink.
///
/// The error is `TextTooLong` exactly for a text of more than [`MAX_TEXT`] bytes, which is tested first; then
/// `TooManyTokens` exactly for a text of more than [`MAX_TOKENS`] tokens that are no trivia, also if memory is out.
/// Otherwise it is `NoMemory` if the allocator refused a request, or `Refused` if the sink refused a step.
pub fn parse_text<'t, S: StrSink>(
    alloc: Global,
    edition: Edition,
    entry: TopEntryPoint,
    text: &'t str,
    sink: &mut S,
) -> Result<ParsedText<'t>, TextFault<S::Refusal>>
    ensures parsed { IfOk result (λ r. Headline S.takes text.now edition entry r.lexed r.whole sink.old sink.new) }
    ensures too_long { (result ≡ Err TextFault.TextTooLong) ↔ (MAX_TEXT < length text.now) }
    ensures too_many { (result ≡ Err TextFault.TooManyTokens) ↔ HasTooManyTokens text.now edition }
    ensures left { IfErr result (λ fault. Leaves S.takes S.refuses text.now edition entry fault sink.old sink.new) }
{
    let ParsedTokens { lexed, output } = match parse_tokens(alloc, edition, entry, text) {
        Ok(parsed) => parsed,
        Err(fault) => return Err(fault),
    };
    match lexed.intersperse_trivia(&output, sink) {
        Ok(whole) => Ok(ParsedText { lexed, whole }),
        Err(refusal) => Err(TextFault::Refused(refusal)),
    }
}
