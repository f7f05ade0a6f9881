//! A text divided into tokens, with the lexer's messages.
ghost use Rattle.std.specs.Prelude.{◌≡◌, ℕ, ◌<◌, ◌≤◌, ◌+◌, ◌++◌, ◌∷◌, [], ◌^◌, ◌↔◌, ◌&&◌, ◌==◌, Some, IfOk, IfSome, IsCharBoundary, IsFalse, IsTrue, MatchOption, OnOk, min, string_bytes, chars, drop, length, map, slice_range, All};
ghost use Rattle.std.specs.List.Sorted.{IsNonDecreasingBy, IsPartitionPoint};
ghost use Rattle.std.specs.Option.{option_copied, option_map};
ghost use Rattle.rap_base.specs.TokenKind.{STRING};
ghost use Rattle.rap_base.specs.TokenTests.{IsTokenKind};
ghost use Rattle.rap_lexer.specs.Common.{is_contextual};
ghost use Rattle.rap_lexer.specs.First.{First};
ghost use Rattle.rap_lexed.specs.About.{IsQuiet};
ghost use Rattle.rap_lexed.specs.CommonTokens.{TakesCommon};
ghost use Rattle.rap_lexed.specs.Contextual.{noted, AreNoted};
ghost use Rattle.rap_lexed.specs.OneLexing.{IsOnlyLexing};
ghost use Rattle.rap_lexed.specs.SingleToken.{IsNotOneToken, IsOneToken};
ghost use Rattle.rap_lexed.specs.Reported.{looks_open};
ghost use Rattle.rap_lexed.specs.ErrorSteps.{error_steps};
ghost use Rattle.rap_lexed.specs.StrSink.{HandsOut};
ghost use Rattle.rap_lexed.specs.LexedStr.{joined, start_of, token_at, error_of, AreTokens, IsLexing};

use crate::shortcuts::{StrSink, StrStep};
pub use count::significant_tokens;
use header::{find_header, push_header};
use rap_base::edition::Edition;
use rap_base::no_memory::NoMemory;
use rap_base::syntax_kind::SyntaxKind;
use rap_lexer::escape::Mode;
use rap_lexer::lexer::{Lexeme, first_token, plain_character, quick_token, string_token};
pub(crate) use reported::holds_pair;
use reported::{LexError, last_message, looks_open, report};

mod count;
mod header;
mod reported;

use std::alloc::{AllocError, AllocFailed, Global};
use std::error::Error;
use std::fmt;
use std::marker::Model;
use std::ops::Range;

/// The most bytes that a text may have: every offset fits in 32 bits.
pub const MAX_TEXT: usize = 4_294_967_295;

/// The most tokens for which room is allocated at the start: a long text may have few tokens.
const FIRST_ROOM: usize = 4_194_304;

/// Up to how many bytes a text is short. Such a text may have a token to two bytes.
const SHORT: usize = 512;

/// For how many tokens of a text of this length room is allocated at the start: never for more than it may have.
fn first_room(len: usize) -> usize
    ensures { result ≤ len }
{
    if len <= SHORT {
        len / 3 + len / 4
    } else {
        (len / 3).min(FIRST_ROOM)
    }
}

/// Why a text was not lexed.
#[derive(Clone, Copy, Debug, PartialEq, Eq)]
pub enum LexFault {
    /// The text has more than [`MAX_TEXT`] bytes.
    TextTooLong,
    /// Out of memory: the allocator refused a request.
    NoMemory,
}

impl fmt::Display for LexFault {
    ghost use Rattle.rap_lexed.specs.Fault.{lex_fault_text};

    ghost output = { λ fault. Some (lex_fault_text fault) };

    fn fmt<W: fmt::Write>(&self, f: &mut fmt::Formatter<W>) -> fmt::Result {
        match self {
            LexFault::TextTooLong => f.write_str("text too long"),
            LexFault::NoMemory => f.write_str("no memory"),
        }
    }
}

impl Error for LexFault {}

impl From<AllocError> for LexFault {
    ghost use Rattle.rap_lexed.specs.declared.lexed_str.LexFault.TheVariants.{NoMemory};

    ghost from_gives = { λ _ fault. fault ≡ NoMemory };

    fn from(_error: AllocError) -> LexFault {
        LexFault::NoMemory
    }
}

impl<T: Drop> From<AllocFailed<T>> for LexFault {
    ghost use Rattle.rap_lexed.specs.declared.lexed_str.LexFault.TheVariants.{NoMemory};

    ghost from_gives = { λ _ fault. fault ≡ NoMemory };

    fn from(_error: AllocFailed<T>) -> LexFault {
        LexFault::NoMemory
    }
}

impl From<NoMemory> for LexFault {
    ghost use Rattle.rap_lexed.specs.declared.lexed_str.LexFault.TheVariants.{NoMemory};

    ghost from_gives = { λ _ fault. fault ≡ NoMemory };

    fn from(_error: NoMemory) -> LexFault {
        LexFault::NoMemory
    }
}

/// A text divided into tokens: none is empty, and joined they are the text. Contracts see the list of the tokens and
/// the list of the messages.
///
/// The numbers of the identifiers that are contextual keywords of some edition are kept too: the parser's input needs
/// the texts of these alone.
///
/// No accessor allocates memory; texts are slices of the caller's text.
#[derive(Drop)]
pub struct LexedStr<'a> {
    text: &'a str,
    kind: Vec<SyntaxKind>,
    start: Vec<u32>,
    contextual: Vec<u32>,
    error: Vec<LexError>,
}

impl<'a> Model for LexedStr<'a> {
    ghost use Rattle.std.specs.Prelude.{length, All};
    ghost use Rattle.rap_base.specs.TokenTests.{IsTokenKind};
    ghost use Rattle.rap_lexed.specs.Contextual.{AreNoted};
    ghost use Rattle.rap_lexed.specs.LexedStr.{Lexed, cut, token_at, AreStarts, AreInOrder};

    ghost Value = { Lexed };

    ghost view = { λ s. record { tokens = cut s.text.now s.kind.items s.start.items; errors = s.error.items } };

    ghost invariant = { λ s. AreStarts s.text.now (length s.kind.items) s.start.items × All IsTokenKind s.kind.items × AreInOrder (length s.kind.items) s.error.items × AreNoted (token_at (cut s.text.now s.kind.items s.start.items)) 0 (length s.kind.items) s.contextual.items };
}

/// How many tokens stand after the last string that looks open, up to 5, with one token more.
#[inline(always)]
fn since_open_after(since: usize, kind: SyntaxKind, text: &str) -> usize
    ensures opens { IsTrue ((kind == STRING) && looks_open text.now) → result ≡ 0 }
    ensures other { IsFalse ((kind == STRING) && looks_open text.now) → result ≡ min (since + 1) 5 }
{
    if kind == SyntaxKind::STRING && looks_open(text) {
        0
    } else if since < 5 {
        since + 1
    } else {
        5
    }
}

/// The same, with so many tokens more, none of which is a string.
#[inline(always)]
fn since_open_with(since: usize, more: usize) -> usize
    requires { since + more < 2 ^ 64 }
    ensures { result ≡ min (since + more) 5 }
{
    (since + more).min(5)
}

/// Takes the common tokens, plain numbers, and `/` and `#` alone that stand next, as many as there are that begin before
/// the last byte of the text: so each has a byte after it to look at. Returns where they end.
#[inline(always)]
fn take_common(
    edition: Edition,
    text: &str,
    from: usize,
    kind: &mut Vec<SyntaxKind>,
    start: &mut Vec<u32>,
    contextual: &mut Vec<u32>,
) -> Result<usize, NoMemory>
    requires short { length text.now ≤ MAX_TEXT }
    requires few { length kind.old.items ≤ from }
    requires border { IsCharBoundary text.now from }
    ensures taken { IfOk result (TakesCommon edition text.now kind.old.items start.old.items contextual.old.items from kind.new.items start.new.items contextual.new.items) }
    ensures border { IfOk result (IsCharBoundary text.now) }
    ensures further { IfOk result (λ end. from ≤ end) }
    ensures grows { OnOk result (length kind.old.items ≤ length kind.new.items) }
{
    let mut end = from;
    'common: while 1 < text.len() - end {
        let Some(token) = quick_token(edition, &text[end..]) else {
            break;
        };
        end += token.len;
        note(contextual, kind.len(), token.is_contextual)?;
        kind.push(token.kind)?;
        start.push(end as u32)?;
    }
    Ok(end)
}

/// The first token of the text, its length in bytes, and whether it is sure that there is nothing to report about it.
#[inline(always)]
fn next_token(edition: Edition, text: &str) -> (Lexeme, usize, bool)
    requires { 0 < length text.now }
    ensures token { First edition (chars text.now) result.0 (chars (drop result.1 text.now)) }
    ensures kind { IsTokenKind result.0.kind }
    ensures positive { 0 < result.1 }
    ensures border { IsCharBoundary text.now result.1 }
    ensures quiet { IsTrue result.2 → IsQuiet (slice_range text.now 0 result.1) result.0.remark }
{
    let bytes = text.as_bytes();
    if bytes[0] == b'"' {
        let string = string_token(text);
        return (string.token, string.len, string.is_plain);
    }
    match plain_character(text) {
        Some(len) => (
            Lexeme::literal(SyntaxKind::CHAR, Mode::Char, true),
            len,
            true,
        ),
        None => {
            let (token, len) = first_token(edition, text);
            (token, len, false)
        }
    }
}

/// Notes the number of a token, if it is a contextual keyword of some edition.
#[inline(always)]
fn note(numbers: &mut Vec<u32>, number: usize, is_contextual: bool) -> Result<(), NoMemory>
    requires { number < 2 ^ 32 }
    ensures { OnOk result (numbers.new.items ≡ noted numbers.old.items number is_contextual) }
{
    if is_contextual {
        push_number(numbers, number as u32)
    } else {
        Ok(())
    }
}

/// Appends a number: few tokens are contextual keywords.
#[cold]
#[inline(never)]
fn push_number(numbers: &mut Vec<u32>, number: u32) -> Result<(), NoMemory>
    ensures { OnOk result (numbers.new.items ≡ numbers.old.items ++ number ∷ []) }
{
    numbers.push(number)?;
    Ok(())
}

/// Whether a token is an identifier that is a contextual keyword of some edition: then it is one of the first edition.
fn is_contextual(kind: SyntaxKind, text: &str) -> bool
    ensures { result ≡ is_contextual kind text.now }
{
    kind == SyntaxKind::IDENT
        && SyntaxKind::from_contextual_keyword(text, Edition::Edition2015).is_some()
}

/// Where the messages about the token and the later ones begin.
fn first_error(errors: &[LexError], token: usize) -> usize
    requires { IsNonDecreasingBy (λ m. m.token) errors.now }
    ensures point { IsPartitionPoint (λ m. m.token < token) (λ m. token ≤ m.token) errors.now result }
    ensures bound { result ≤ length errors.now }
{
    errors.partition_point(|error| error.token() < token)
}

impl<'a> LexedStr<'a> {
    /// Divides the text into tokens by the lexical rules of the edition.
    ///
    /// The shebang and the frontmatter of a script source come first, one token each; of a text that is refused as a
    /// script source only the line of the shebang. No message is reported about them.
    ///
    /// The error is `TextTooLong` exactly if the text has more than [`MAX_TEXT`] bytes, which is tested first;
    /// otherwise `NoMemory` if the allocator refused a request.
    pub fn new(alloc: Global, edition: Edition, text: &'a str) -> Result<LexedStr<'a>, LexFault>
        ensures lexing { IfOk result (IsLexing text.now edition) }
        ensures only { IfOk result (IsOnlyLexing text.now edition) }
        ensures too_long { (result ≡ Err LexFault.TextTooLong) ↔ (MAX_TEXT < length text.now) }
    {
        if text.len() > MAX_TEXT {
            return Err(LexFault::TextTooLong);
        }
        let header = find_header(alloc, edition, text);
        let room = first_room(text.len());
        let mut kind = Vec::with_capacity(alloc, room)?;
        let mut start = Vec::with_capacity(alloc, room + 1)?;
        start.push(0)?;
        push_header(&header, &mut kind, &mut start)?;
        let mut offset = header.end();
        let mut contextual = Vec::new(alloc);
        let mut error = Vec::new(alloc);
        let mut since_open = 5usize;
        'tokens: while offset < text.len() {
            let before = kind.len();
            offset = take_common(
                edition,
                text,
                offset,
                &mut kind,
                &mut start,
                &mut contextual,
            )?;
            since_open = since_open_with(since_open, kind.len() - before);
            if offset == text.len() {
                break;
            }
            let (token, len, quiet) = next_token(edition, &text[offset..]);
            let next = &text[offset..offset + len];
            let number = kind.len() as u32;
            let after_open = since_open < 5;
            report(
                alloc,
                &mut error,
                number,
                next,
                token.remark,
                after_open,
                quiet,
            )?;
            since_open = since_open_after(since_open, token.kind, next);
            offset += len;
            note(&mut contextual, kind.len(), is_contextual(token.kind, next))?;
            kind.push(token.kind)?;
            start.push(offset as u32)?;
        }
        Ok(LexedStr {
            text,
            kind,
            start,
            contextual,
            error,
        })
    }

    /// Returns the kind of a text that is exactly one token, and its last message. A shebang or frontmatter is not
    /// looked for.
    ///
    /// Returns `None` for the empty text and for a text of two or more tokens; before the edition 2024 `##` and `#"`
    /// are such texts. The errors are those of [`LexedStr::new`].
    pub fn single_token(
        alloc: Global,
        edition: Edition,
        text: &str,
    ) -> Result<Option<(SyntaxKind, Option<String>)>, LexFault>
        ensures single { IfOk result (λ single. MatchOption single (IsNotOneToken edition text.now) (λ token. IsOneToken edition text.now token.0 (option_map string_bytes token.1))) }
        ensures too_long { (result ≡ Err LexFault.TextTooLong) ↔ (MAX_TEXT < length text.now) }
    {
        if MAX_TEXT < text.len() {
            return Err(LexFault::TextTooLong);
        }
        if text.is_empty() {
            return Ok(None);
        }
        let (token, len) = first_token(edition, text);
        if len < text.len() {
            return Ok(None);
        }
        let message = last_message(alloc, text, token.remark)?;
        Ok(Some((token.kind, message)))
    }

    /// Returns the whole text.
    pub fn as_str(&self) -> &'a str
        ensures { result.now ≡ joined self.now.tokens }
    {
        self.text
    }

    /// Returns the number of tokens.
    pub fn len(&self) -> usize
        ensures count { result ≡ length self.now.tokens }
        ensures tokens { AreTokens self.now.tokens }
    {
        self.kind.len()
    }

    /// Returns whether there is no token: exactly for the empty text.
    pub fn is_empty(&self) -> bool
        ensures { IsTrue result ↔ (length self.now.tokens ≡ 0) }
    {
        self.kind.is_empty()
    }

    /// Returns the kind of the token with the number `i`.
    pub fn kind(&self, i: usize) -> SyntaxKind
        requires { i < length self.now.tokens }
        ensures kind { result ≡ (token_at self.now.tokens i).kind }
        ensures token { IsTokenKind result }
    {
        self.kind[i]
    }

    /// The kinds of the tokens.
    #[inline(always)]
    pub(crate) fn kinds(&self) -> &[SyntaxKind]
        ensures kinds { result.now ≡ map (λ token. token.kind) self.now.tokens }
        ensures count { length result.now ≡ length self.now.tokens }
        ensures tokens { All IsTokenKind result.now }
    {
        self.kind.as_slice()
    }

    /// The numbers of the tokens that are contextual keywords of some edition, in order.
    pub(crate) fn contextual_numbers(&self) -> &[u32]
        ensures { AreNoted (token_at self.now.tokens) 0 (length self.now.tokens) result.now }
    {
        self.contextual.as_slice()
    }

    /// Returns the text of the token with the number `i`.
    pub fn text(&self, i: usize) -> &'a str
        requires { i < length self.now.tokens }
        ensures token { result.now ≡ (token_at self.now.tokens i).text }
        ensures slice { result.now ≡ slice_range (joined self.now.tokens) (start_of self.now.tokens i) (start_of self.now.tokens (i + 1)) }
    {
        // For the proof: it fits its type.
        let _count = self.len();
        self.range_text(i..i + 1)
    }

    /// Returns the text of the tokens from `r.start` to `r.end`, the latter excluded.
    pub fn range_text(&self, r: Range<usize>) -> &'a str
        requires rising { r.start < r.end }
        requires within { r.end ≤ length self.now.tokens }
        ensures { result.now ≡ slice_range (joined self.now.tokens) (start_of self.now.tokens r.start) (start_of self.now.tokens r.end) }
    {
        let low = self.start[r.start] as usize;
        let high = self.start[r.end] as usize;
        &self.text[low..high]
    }

    /// Returns the range of the token in the text, in bytes.
    pub fn text_range(&self, i: usize) -> Range<usize>
        requires { i < length self.now.tokens }
        ensures start { result.start ≡ start_of self.now.tokens i }
        ensures end { result.end ≡ start_of self.now.tokens (i + 1) }
    {
        // For the proof: it fits its type.
        let _count = self.len();
        let start = self.text_start(i);
        start..self.text_start(i + 1)
    }

    /// Returns the offset at which the token begins, in bytes; if `i` is the number of tokens, the length of the text.
    pub fn text_start(&self, i: usize) -> usize
        requires { i ≤ length self.now.tokens }
        ensures { result ≡ start_of self.now.tokens i }
    {
        self.start[i] as usize
    }

    /// Returns the length of the token, in bytes.
    pub fn text_len(&self, i: usize) -> usize
        requires { i < length self.now.tokens }
        ensures { result ≡ length (token_at self.now.tokens i).text }
    {
        let range = self.text_range(i);
        range.end - range.start
    }

    /// Returns the first message about the token, if there is one.
    pub fn error(&self, i: usize) -> Option<&str>
        requires { i < length self.now.tokens }
        ensures { option_copied result ≡ error_of self.now.errors i }
    {
        let errors = self.error.as_slice();
        let place = first_error(errors, i);
        if place == errors.len() {
            return None;
        }
        let error = &errors[place];
        if error.token() == i {
            Some(error.message())
        } else {
            None
        }
    }

    /// Returns all messages in the order of the tokens, each with the number of its token.
    pub fn errors(&self) -> Errors<'_>
        ensures { result ≡ self.now.errors }
    {
        Errors {
            rest: self.error.as_slice(),
        }
    }

    /// Passes all messages to a sink in the order of the tokens, each at the offset at which its token begins.
    ///
    /// No memory is allocated, except by the sink. The error is the sink's refusal of a message; it has accepted all
    /// messages before.
    pub fn report_errors<S: StrSink>(&self, sink: &mut S) -> Result<(), S::Refusal>
        ensures { HandsOut S.takes S.refuses sink.old (error_steps self.now.tokens self.now.errors) result sink.new }
    {
        'errors: for error in &self.error {
            let msg = error.message();
            let pos = self.text_start(error.token());
            sink.step(StrStep::Error { msg, pos })?;
        }
        Ok(())
    }
}

/// An iterator over messages, each with the number of its token. Contracts see the list of those that are left.
#[derive(Drop)]
pub struct Errors<'a> {
    rest: &'a [LexError],
}

impl<'a> Model for Errors<'a> {
    ghost use Rattle.std.specs.Prelude.{List};
    ghost use Rattle.rap_lexed.specs.LexedStr.{Message};

    ghost Value = { List Message };

    ghost view = { λ s. s.rest.now };
}

impl<'a> Iterator for Errors<'a> {
    ghost use Rattle.std.specs.Iterator.{YieldsFirstBy, item_count, UpTo};
    ghost use Rattle.std.specs.Iterator.SizeHint.{IsWithinCount};
    ghost use Rattle.rap_lexed.specs.LexedStr.{message_of_item};

    type Item = (usize, &'a str);

    ghost next_gives = { YieldsFirstBy message_of_item (λ errors. errors) };

    ghost remaining = { item_count (λ errors. errors) };

    fn next(&mut self) -> Option<(usize, &'a str)> {
        match self.rest {
            [first, rest @ ..] => {
                self.rest = rest;
                Some((first.token(), first.message()))
            }
            [] => None,
        }
    }

    fn size_hint(&self) -> (usize, Option<usize>)
        ensures lower { IsWithinCount result.0 (item_count (λ errors. errors) self.now) }
        ensures upper { IfSome result.1 (UpTo (item_count (λ errors. errors) self.now)) }
        ensures exact { (result.0 ≡ length self.now) × (result.1 ≡ Some (length self.now)) }
    {
        let count = self.len();
        (count, Some(count))
    }
}

impl ExactSizeIterator for Errors<'_> {
    fn len(&self) -> usize
        ensures { result ≡ length self.now }
    {
        self.rest.len()
    }
}
