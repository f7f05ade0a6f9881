//! The messages of the lexer about a token.
ghost use Rattle.std.specs.Prelude.{◌≡◌, ◌++◌, ◌∷◌, [], ℕ, List, IfOk, IsTrue, OnOk, map, length, string_bytes, option_to_list};
ghost use Rattle.std.specs.Option.{option_copied, option_map};
ghost use Rattle.rap_lexed.specs.SingleToken.{ReportsLast};
ghost use Rattle.rap_lexed.specs.Reported.{ReportsFaults, checked_mode, has_note, quote_of, IsBody, fixed_message, unterminated, holds, holds_pair, looks_open, prefix_note, ReportsOf};
ghost use Rattle.rap_lexed.specs.About.{about, Adds, IsQuiet};

use rap_lexer::escape::{Faults, Mode};
use rap_lexer::lexer::Remark;
use std::alloc::{AllocError, Global};
use std::marker::Model;

/// A message about a token.
#[derive(Debug, Drop)]
pub struct LexError {
    token: u32,
    message: String,
}

impl Model for LexError {
    ghost use Rattle.std.specs.Prelude.{string_bytes, option_to_list};
    ghost use Rattle.rap_lexed.specs.LexedStr.{Message};

    ghost Value = { Message };

    ghost view = { λ s. record { token = s.token; text = string_bytes s.message } };
}

impl LexError {
    /// Returns the number of the token.
    pub fn token(&self) -> usize
        ensures { result ≡ self.now.token }
    {
        self.token as usize
    }

    /// Returns the text of the message.
    pub fn message(&self) -> &str
        ensures { result.now ≡ self.now.text }
    {
        self.message.as_str()
    }
}

impl LexError {
    /// The text of the message, which is moved out.
    fn into_message(self) -> String
        ensures { string_bytes result ≡ self.text }
    {
        self.message
    }
}

/// Returns the last message about a text that is one token, if there is one. The error means out of memory.
pub fn last_message(alloc: Global, text: &str, remark: Remark) -> Result<Option<String>, AllocError>
    ensures { IfOk result (λ last. ReportsLast text.now remark (option_map string_bytes last)) }
{
    let mut errors = Vec::new(alloc);
    report(alloc, &mut errors, 0, text, remark, false, false)?;
    match errors.pop() {
        Some(error) => Ok(Some(error.into_message())),
        None => Ok(None),
    }
}

/// Reports what the remark says about the token with this text. After an open string an unknown prefix has a note.
/// `quiet` is whether it is sure that it says nothing.
#[inline(always)]
pub fn report(
    alloc: Global,
    errors: &mut Vec<LexError>,
    token: u32,
    text: &str,
    remark: Remark,
    after_open: bool,
    quiet: bool,
) -> Result<(), AllocError>
    requires { IsTrue quiet → IsQuiet text.now remark }
    ensures { OnOk result (Adds (ReportsOf after_open text.now remark) token errors.old.items errors.new.items) }
{
    if quiet {
        return Ok(());
    }
    match remark {
        Remark::Nothing => Ok(()),
        _ => report_remark(alloc, errors, token, text, remark, after_open),
    }
}

/// Reports what this remark, which is not `Nothing`, says about the token with this text.
#[inline(never)]
fn report_remark(
    alloc: Global,
    errors: &mut Vec<LexError>,
    token: u32,
    text: &str,
    remark: Remark,
    after_open: bool,
) -> Result<(), AllocError>
    ensures { OnOk result (Adds (ReportsOf after_open text.now remark) token errors.old.items errors.new.items) }
{
    if let Some(mode) = checked_mode(remark) {
        return report_escapes(alloc, errors, token, mode, body(mode, text));
    }
    if has_note(after_open, remark) {
        let note = prefix_note(alloc, text)?;
        push(alloc, errors, token, note.as_str())?;
        return Ok(());
    }
    report_fixed(alloc, errors, token, fixed_message(remark))
}

/// What literal the remark asks to be checked.
fn checked_mode(remark: Remark) -> Option<Mode>
    ensures { result ≡ checked_mode remark }
{
    match remark {
        Remark::Escapes(mode) => Some(mode),
        _ => None,
    }
}

/// Whether the remark is reported with a note.
fn has_note(after_open: bool, remark: Remark) -> bool
    ensures { result ≡ has_note after_open remark }
{
    match remark {
        Remark::UnknownPrefix => after_open,
        _ => false,
    }
}

/// Reports the message, if there is one.
fn report_fixed(
    alloc: Global,
    errors: &mut Vec<LexError>,
    token: u32,
    message: Option<&str>,
) -> Result<(), AllocError>
    ensures { OnOk result (errors.new.items ≡ errors.old.items ++ about token (option_to_list (option_copied message.entry))) }
{
    match message {
        Some(message) => push(alloc, errors, token, message),
        None => Ok(()),
    }
}

/// Reports one message.
fn push(
    alloc: Global,
    errors: &mut Vec<LexError>,
    token: u32,
    message: &str,
) -> Result<(), AllocError>
    ensures { OnOk result (errors.new.items ≡ errors.old.items ++ about token (message.now ∷ [])) }
{
    let message = String::from_str(alloc, message)?;
    errors.push(LexError { token, message })?;
    Ok(())
}

/// The note on an unknown prefix with this text.
fn prefix_note(alloc: Global, text: &str) -> Result<String, AllocError>
    ensures { IfOk result (λ note. string_bytes note ≡ prefix_note text.now) }
{
    let mut note = String::from_str(alloc, "unknown literal prefix `")?;
    note.push_str(text)?;
    note.push_str("` (note: check for unterminated string literal)")?;
    Ok(note)
}

/// Reports the faults of a literal's body.
fn report_escapes(
    alloc: Global,
    errors: &mut Vec<LexError>,
    token: u32,
    mode: Mode,
    body: &str,
) -> Result<(), AllocError>
    ensures { OnOk result (Adds (ReportsFaults mode body.now) token errors.old.items errors.new.items) }
{
    let mut faults = Faults::new(mode, body);
    'faults: while let Some(fault) = faults.next() {
        push(alloc, errors, token, fault.message(mode))?;
    }
    Ok(())
}

/// The message of a remark that has one of its own.
fn fixed_message(remark: Remark) -> Option<&'static str>
    ensures { option_copied result ≡ fixed_message remark }
{
    match remark {
        Remark::Nothing | Remark::Escapes(_) => None,
        Remark::OpenComment => {
            Some("Missing trailing `*/` symbols to terminate the block comment")
        }
        Remark::InvalidRawString => Some("Invalid raw string literal"),
        Remark::UnknownPrefix => Some("unknown literal prefix"),
        Remark::NoDigits => Some("Missing digits after the integer base prefix"),
        Remark::NoExponentDigits => Some("Missing digits after the exponent symbol"),
        Remark::ReservedString => Some("Invalid string literal (reserved syntax)"),
        Remark::InvalidIdent => Some("Ident contains invalid characters"),
        Remark::UnknownLifetimePrefix => Some("Unknown lifetime prefix"),
        Remark::LifetimeStartsWithNumber => Some("Lifetime name cannot start with a number"),
        Remark::Unterminated(mode) => Some(unterminated(mode)),
    }
}

fn unterminated(mode: Mode) -> &'static str
    ensures { result.now ≡ unterminated mode }
{
    match mode {
        Mode::Char => "Missing trailing `'` symbol to terminate the character literal",
        Mode::Byte => "Missing trailing `'` symbol to terminate the byte literal",
        Mode::Str => "Missing trailing `\"` symbol to terminate the string literal",
        Mode::ByteStr => "Missing trailing `\"` symbol to terminate the byte string literal",
        Mode::CStr => "Missing trailing `\"` symbol to terminate the C string literal",
    }
}

/// What stands between the opening quote of a literal and its last quote.
fn body(mode: Mode, text: &str) -> &str
    ensures { IsBody mode text.now result.now }
{
    let quote = quote_of(mode);
    let Some(opening) = text.find(quote) else {
        return "";
    };
    let Some(end) = text.rfind(quote) else {
        return "";
    };
    if opening < end {
        &text[opening + 1..end]
    } else {
        ""
    }
}

fn quote_of(mode: Mode) -> char
    ensures { result ≡ quote_of mode }
{
    match mode {
        Mode::Char | Mode::Byte => '\'',
        Mode::Str | Mode::ByteStr | Mode::CStr => '"',
    }
}

/// Whether the text looks as if its string went on too far.
#[inline(never)]
pub fn looks_open(text: &str) -> bool
    ensures { result ≡ looks_open text.now }
{
    let bytes = text.as_bytes();
    holds(b'(', bytes) && (holds_pair(b'/', b'/', bytes) || holds_pair(b';', b'\n', bytes))
}

/// Whether the byte stands in the text.
fn holds(byte: u8, text: &[u8]) -> bool
    ensures { result ≡ holds byte text.now }
{
    for &next in text {
        if next == byte {
            return true;
        }
    }
    false
}

/// Whether the bytes stand in the text, one directly after the other.
pub fn holds_pair(first: u8, second: u8, text: &[u8]) -> bool
    ensures { result ≡ holds_pair first second text.now }
{
    let mut after_first = false;
    for &next in text {
        if after_first && next == second {
            return true;
        }
        after_first = next == first;
    }
    false
}
