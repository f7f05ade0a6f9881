//! Whether a text is in the core grammar.
ghost use Rattle.std.specs.Prelude.{◌≡◌, ◌≢◌, ◌<◌, ◌↔◌, Err, IfOk, IsTrue, length};
ghost use Rattle.rap_events.specs.Forest.{Forest};
ghost use Rattle.rap_grammar_table.specs.Tops.{MakesRow, file_row};
ghost use Rattle.ra_ap_parser.specs.Headline.{HasTooManyTokens, IsParsed};
ghost use Rattle.rap_core.specs.Derived.{IsDerived, IsTold};

use crate::listing::{Places, list_outside};
use ra_ap_parser::{
    Edition, Input, MAX_TEXT, NoMemory, Output, ParsedTokens, TextFault, TopEntryPoint,
    parse_tokens,
};
use rap_grammar_rows::check::derives_file;
use rap_grammar_rows::search::find_derivation;
use std::alloc::Global;

/// Whether a derivation of the whole input is found along its tree.
fn is_found(alloc: Global, input: &Input, output: &Output) -> Result<bool, NoMemory>
    ensures { IfOk result (λ b. IsTrue b → (forest : Forest) × MakesRow file_row input.now forest) }
{
    let found = find_derivation(alloc, input, output)?;
    let (claims, moves) = (found.claims.as_slice(), found.moves.as_slice());
    derives_file(alloc, input, claims, moves)
}

/// Tells whether a text that was parsed is in the core grammar.
fn is_parsed_derived(
    alloc: Global,
    edition: Edition,
    text: &str,
    parsed: &ParsedTokens<'_>,
) -> Result<bool, NoMemory>
    requires { IsParsed text.now edition TopEntryPoint.SourceFile parsed.now.lexed parsed.now.output }
    ensures { IfOk result (λ b. IsTrue b → IsDerived text.now edition) }
{
    if parsed.lexed.errors().len() > 0 {
        return Ok(false);
    }
    let input = parsed.lexed.to_input(alloc, edition)?;
    is_found(alloc, &input, &parsed.output)
}

/// Tells what of a text that was parsed is outside of the core grammar.
fn outside_parsed(
    alloc: Global,
    edition: Edition,
    text: &str,
    parsed: &ParsedTokens<'_>,
) -> Result<Option<Places>, NoMemory>
    requires { IsParsed text.now edition TopEntryPoint.SourceFile parsed.now.lexed parsed.now.output }
    ensures { IfOk result (IsTold text.now edition) }
{
    let input = parsed.lexed.to_input(alloc, edition)?;
    let found = is_found(alloc, &input, &parsed.output)?;
    let messages = parsed.lexed.errors().len();
    if found && messages == 0 {
        return Ok(None);
    }
    let places = list_outside(alloc, &parsed.lexed, &input, &parsed.output, !found)?;
    Ok(Some(places))
}

/// Returns whether a text is in the core grammar as a file.
///
/// `true` says that the core grammar derives the text's tokens, that the text's tree under
/// [`TopEntryPoint::SourceFile`] is the derivation's, and that neither the parser nor the lexer has a message. `false`
/// says that the lexer has one, or that no derivation was found: it is no proof that there is none.
///
/// The errors are those of [`parse_tokens`], and come when they come there.
pub fn is_derived(alloc: Global, edition: Edition, text: &str) -> Result<bool, TextFault<NoMemory>>
    ensures derived { IfOk result (λ b. IsTrue b → IsDerived text.now edition) }
    ensures too_long { (result ≡ Err TextFault.TextTooLong) ↔ (MAX_TEXT < length text.now) }
    ensures too_many { (result ≡ Err TextFault.TooManyTokens) ↔ HasTooManyTokens text.now edition }
    ensures taken { (refusal : NoMemory) → result ≢ Err (TextFault.Refused refusal) }
{
    let parsed = parse_tokens(alloc, edition, TopEntryPoint::SourceFile, text)?;
    match is_parsed_derived(alloc, edition, text, &parsed) {
        Ok(derived) => Ok(derived),
        Err(NoMemory) => Err(TextFault::NoMemory),
    }
}

/// Returns what of a text is outside of the core grammar as a file: the tokens that the lexer has a message of, and nodes
/// that the grammar does not derive. `None` exactly where [`is_derived`] returns `true`.
///
/// A text that is outside takes a second search, which [`is_derived`] does not make. The errors are those of
/// [`is_derived`].
pub fn outside_core(
    alloc: Global,
    edition: Edition,
    text: &str,
) -> Result<Option<Places>, TextFault<NoMemory>>
    ensures told { IfOk result (IsTold text.now edition) }
    ensures too_long { (result ≡ Err TextFault.TextTooLong) ↔ (MAX_TEXT < length text.now) }
    ensures too_many { (result ≡ Err TextFault.TooManyTokens) ↔ HasTooManyTokens text.now edition }
    ensures taken { (refusal : NoMemory) → result ≢ Err (TextFault.Refused refusal) }
{
    let parsed = parse_tokens(alloc, edition, TopEntryPoint::SourceFile, text)?;
    match outside_parsed(alloc, edition, text, &parsed) {
        Ok(told) => Ok(told),
        Err(NoMemory) => Err(TextFault::NoMemory),
    }
}
