//! What is listed of a text.
ghost use Rattle.std.specs.Prelude.{◌≡◌, ◌≢◌, ◌<◌, ◌↔◌, ◌++◌, IfOk, OnOk, Err, length, string_bytes};
ghost use Rattle.rast_lex.specs.Listed.{lines, places, token_line, message_lines, record_line, part_line, script_lines, shown_spans, refusal_lines};
ghost use Rattle.rast_lex.specs.Page.{ListsTokens, ListsInput, ListsSingle, ListsScript, shown_of};

use rap_base::edition::Edition;
use rap_events::input::Input;
use rap_frontmatter::frontmatter::{FrontmatterError, ScriptFault, ScriptSource, Span};
use rap_lexed::lexed_str::{LexFault, LexedStr};
use rast_common::message::push_message;
use rast_common::quote::push_quoted;
use rast_common::show::Show;
use std::alloc::{AllocError, Global};
use std::fmt::Write as _;
use std::io;

/// The lines that are listed, and whether one of them is a message.
#[derive(Drop)]
pub struct Page {
    pub lines: String,
    pub has_message: bool,
}

/// The lines are written. The status is 0 where no message is listed, and 1 where there is one.
impl Show for Page {
    ghost shown = { shown_of };

    fn write<W: io::Write>(&self, out: &mut W) -> io::Result<()> {
        out.write_all(self.lines.as_bytes())
    }

    fn status(&self) -> u8 {
        if self.has_message { 1 } else { 0 }
    }
}

/// Adds two places with two dots between them.
fn push_places(lines: &mut String, start: usize, end: usize) -> Result<(), AllocError>
    ensures { OnOk result (string_bytes lines.new ≡ string_bytes lines.old ++ places start end) }
{
    write!(lines, "{start}..{end}")?;
    Ok(())
}

/// Adds the line of a token.
fn push_token(lines: &mut String, lexed: &LexedStr<'_>, i: usize) -> Result<(), AllocError>
    requires { i < length lexed.now.tokens }
    ensures { OnOk result (string_bytes lines.new ≡ string_bytes lines.old ++ token_line lexed.now.tokens i) }
{
    let range = lexed.text_range(i);
    lines.push_str(lexed.kind(i).name())?;
    lines.push_str(" ")?;
    push_places(lines, range.start, range.end)?;
    lines.push_str(" ")?;
    push_quoted(lines, lexed.text(i))?;
    lines.push_str("\n")?;
    Ok(())
}

/// Adds the lines of all tokens.
fn push_tokens(page: &mut String, lexed: &LexedStr<'_>) -> Result<(), AllocError>
    ensures { OnOk result (string_bytes page.new ≡ string_bytes page.old ++ lines (token_line lexed.now.tokens) (length lexed.now.tokens)) }
{
    'tokens: for i in 0..lexed.len() {
        push_token(page, lexed, i)?;
    }
    Ok(())
}

/// Adds the lines of the lexer's messages.
fn push_messages(lines: &mut String, lexed: &LexedStr<'_>) -> Result<(), AllocError>
    ensures { OnOk result (string_bytes lines.new ≡ string_bytes lines.old ++ message_lines lexed.now.errors) }
{
    'errors: for (token, message) in lexed.errors() {
        push_message(lines, token, message)?;
    }
    Ok(())
}

/// Lists the text's tokens with the places of their first bytes and of those after them, and then the lexer's
/// messages with the numbers of their tokens.
pub fn list_tokens(alloc: Global, edition: Edition, text: &str) -> Result<Page, LexFault>
    ensures lists { IfOk result (ListsTokens text.now edition) }
    ensures too_long { (result ≡ Err LexFault.TextTooLong) ↔ (4294967295 < length text.now) }
{
    let lexed = LexedStr::new(alloc, edition, text)?;
    let mut lines = String::new(alloc);
    push_tokens(&mut lines, &lexed)?;
    push_messages(&mut lines, &lexed)?;
    let has_message = lexed.errors().len() > 0;
    Ok(Page { lines, has_message })
}

/// Adds the line of a token as the parser reads it.
fn push_record(lines: &mut String, input: &Input, i: usize) -> Result<(), AllocError>
    ensures { OnOk result (string_bytes lines.new ≡ string_bytes lines.old ++ record_line input.now i) }
{
    lines.push_str(input.kind(i).name())?;
    lines.push_str(" ")?;
    lines.push_str(input.contextual_kind(i).name())?;
    lines.push_str(if input.is_joint(i) {
        " true\n"
    } else {
        " false\n"
    })?;
    Ok(())
}

/// Adds the lines of all that the parser reads.
fn push_records(page: &mut String, input: &Input) -> Result<(), AllocError>
    ensures { OnOk result (string_bytes page.new ≡ string_bytes page.old ++ lines (record_line input.now) (length input.now)) }
{
    'records: for i in 0..input.len() {
        push_record(page, input, i)?;
    }
    Ok(())
}

/// Lists the parser's input of the text: for each token that is no trivia its kind, the keyword that an
/// identifier may be read as, and whether it touches the next token.
pub fn list_input(alloc: Global, edition: Edition, text: &str) -> Result<Page, LexFault>
    ensures lists { IfOk result (ListsInput text.now edition) }
    ensures too_long { (result ≡ Err LexFault.TextTooLong) ↔ (4294967295 < length text.now) }
{
    let lexed = LexedStr::new(alloc, edition, text)?;
    let Ok(input) = lexed.to_input(alloc, edition) else {
        return Err(LexFault::NoMemory);
    };
    let mut lines = String::new(alloc);
    push_records(&mut lines, &input)?;
    Ok(Page {
        lines,
        has_message: false,
    })
}

/// Lists the kind of a text that is one token, with its last message or a dash, or that it is none.
pub fn list_single(alloc: Global, edition: Edition, text: &str) -> Result<Page, LexFault>
    ensures lists { IfOk result (ListsSingle text.now edition) }
    ensures too_long { (result ≡ Err LexFault.TextTooLong) ↔ (4294967295 < length text.now) }
{
    let single = LexedStr::single_token(alloc, edition, text)?;
    let mut lines = String::new(alloc);
    let Some((kind, message)) = single else {
        lines.push_str("none\n")?;
        return Ok(Page {
            lines,
            has_message: false,
        });
    };
    lines.push_str(kind.name())?;
    let has_message = message.is_some();
    match message {
        Some(message) => write!(lines, " error {message}\n")?,
        None => lines.push_str(" -\n")?,
    }
    Ok(Page { lines, has_message })
}

/// Adds the line of a script's part.
fn push_part(lines: &mut String, name: &str, part: &Option<Span>) -> Result<(), AllocError>
    ensures { OnOk result (string_bytes lines.new ≡ string_bytes lines.old ++ part_line name.now part.now) }
{
    lines.push_str(name)?;
    match part {
        None => lines.push_str(" none\n")?,
        Some(span) => {
            lines.push_str(" ")?;
            push_places(lines, span.start, span.end)?;
            lines.push_str("\n")?;
        }
    }
    Ok(())
}

/// Lists the ranges of the parts of a script.
fn list_parts(alloc: Global, script: &ScriptSource<'_>) -> Result<String, AllocError>
    ensures { IfOk result (λ lines. string_bytes lines ≡ script_lines script.now) }
{
    let mut lines = String::new(alloc);
    lines.push_str("accepted\n")?;
    push_part(&mut lines, "shebang", &script.shebang_span())?;
    push_part(&mut lines, "open", &script.open_span())?;
    push_part(&mut lines, "info", &script.info_span())?;
    push_part(&mut lines, "frontmatter", &script.frontmatter_span())?;
    push_part(&mut lines, "close", &script.close_span())?;
    push_part(&mut lines, "content", &Some(script.content_span()))?;
    Ok(lines)
}

/// Adds spans, each after a space.
fn push_spans(lines: &mut String, spans: &[Span]) -> Result<(), AllocError>
    ensures { OnOk result (string_bytes lines.new ≡ string_bytes lines.old ++ shown_spans spans.now) }
{
    'spans: for span in spans {
        lines.push_str(" ")?;
        push_places(lines, span.start, span.end)?;
    }
    Ok(())
}

/// Lists why a text is refused as a script.
fn list_refusal(alloc: Global, error: &FrontmatterError) -> Result<String, AllocError>
    ensures { IfOk result (λ lines. string_bytes lines ≡ refusal_lines error.now) }
{
    let mut lines = String::new(alloc);
    let primary = error.primary_span();
    write!(lines, "refused {}\nprimary ", error.message())?;
    push_places(&mut lines, primary.start, primary.end)?;
    lines.push_str("\nvisible")?;
    push_spans(&mut lines, error.visible_spans())?;
    lines.push_str("\n")?;
    Ok(lines)
}

/// Lists the ranges of the parts of a script, or why the text is refused as one.
pub fn list_script(alloc: Global, text: &str) -> Result<Page, LexFault>
    ensures lists { IfOk result (ListsScript text.now) }
    ensures never_too_long { result ≢ Err LexFault.TextTooLong }
{
    match ScriptSource::parse(alloc, text) {
        Ok(script) => Ok(Page {
            lines: list_parts(alloc, &script)?,
            has_message: false,
        }),
        Err(ScriptFault::Refused(error)) => Ok(Page {
            lines: list_refusal(alloc, &error)?,
            has_message: true,
        }),
        Err(ScriptFault::NoMemory) => Err(LexFault::NoMemory),
    }
}
