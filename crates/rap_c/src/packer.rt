//! What fills the caller's room with the words of a tree.
ghost use Rattle.std.specs.Prelude.{◌≡◌, ◌<◌, ◌^◌, [], ◌∷◌, length};
ghost use Rattle.rap_lexed.specs.ErrorSteps.{error_steps};
ghost use Rattle.rap_c.specs.Words.{as_word, token_words, word_of};

use crate::answer::{OK, RapAnswer};
use crate::filler::put_bytes;
use crate::step::{ENTER, EXIT, MESSAGE, TOKEN};
use ra_ap_parser::{LexedStr, StrSink, StrStep, SyntaxKind};
use std::convert::Infallible;

/// The number of bytes that a token's word holds where a second word has the token's length.
const LONG: usize = 8191;

/// The caller's room for words and for the bytes of messages, and how many of each there have been. Numbers saturate at
/// 2^64 - 1.
#[derive(Drop)]
pub struct Packer<'a> {
    pub words: &'a mut [u32],
    pub messages: &'a mut [u8],
    pub count: usize,
    pub said: usize,
}

/// The word of a step.
#[inline(always)]
fn word(what: u32, bytes: usize, kind: SyntaxKind) -> u32
    requires what { what < 8 }
    requires bytes { bytes < 8192 }
    ensures { result ≡ word_of what bytes kind }
{
    what + 8 * (bytes as u32) + 65536 * u32::from(u16::from(kind))
}

/// The number in 32 bits. It saturates.
#[inline(always)]
fn narrow(number: usize) -> u32
    ensures { result ≡ as_word number }
{
    number.min(0xFFFF_FFFF) as u32
}

impl<'a> Packer<'a> {
    ghost use Rattle.rap_c.specs.Packs.{IsPackStart, Packs, PacksAll, PutsWord};

    /// Nothing is written yet.
    pub fn new(words: &'a mut [u32], messages: &'a mut [u8]) -> Packer<'a>
        ensures start { IsPackStart words.old messages.old result }
        ensures words { result.words.ghost_name ≡ words.entry.ghost_name }
        ensures messages { result.messages.ghost_name ≡ messages.entry.ghost_name }
    {
        // For the proof: both fit their type.
        let _word_room = words.len();
        let _message_room = messages.len();
        Packer {
            words,
            messages,
            count: 0,
            said: 0,
        }
    }

    /// Writes a word where there is room for it.
    #[inline(always)]
    fn put(&mut self, word: u32)
        ensures { PutsWord word self.old self.new }
    {
        // For the proof: both fit their type.
        let _said = self.said;
        let _message_room = self.messages.len();
        let count = self.count;
        if count < self.words.len() {
            self.words[count] = word;
            self.count = count + 1;
        } else {
            self.count = count.saturating_add(1);
        }
    }

    /// Adds a token of so many bytes.
    #[inline(always)]
    fn put_token(&mut self, kind: SyntaxKind, bytes: usize)
        ensures { Packs (token_words kind bytes) [] self.old self.new }
    {
        if bytes < LONG {
            self.put(word(TOKEN, bytes, kind));
        } else {
            self.put(word(TOKEN, LONG, kind));
            self.put(narrow(bytes));
        }
    }

    /// Adds a message that stands at a byte of the text.
    fn put_message(&mut self, text: &str, at: usize)
        ensures { Packs (word_of 3 0 0 ∷ as_word at ∷ as_word (length text.now) ∷ []) text.now self.old self.new }
    {
        let start = self.said;
        self.put(MESSAGE);
        self.put(narrow(at));
        self.put(narrow(text.len()));
        put_bytes(self.messages, start, text.as_bytes());
        self.said = start.saturating_add(text.len());
    }

    /// Adds the lexer's messages, each at the start of its token.
    pub fn add_errors_of(&mut self, lexed: &LexedStr<'_>)
        ensures { PacksAll (error_steps lexed.now.tokens lexed.now.errors) self.old self.new }
    {
        match lexed.report_errors(self) {
            Ok(()) => (),
            Err(never) => match never {},
        }
    }

    /// What there has been, and how many of the words are the tree's.
    pub fn answer(&self, tree: usize) -> RapAnswer
        ensures { result ≡ record { status = 0; steps = self.now.count; message_bytes = self.now.said; used = tree } }
    {
        RapAnswer {
            status: OK,
            steps: self.count,
            message_bytes: self.said,
            used: tree,
        }
    }
}

impl StrSink for Packer<'_> {
    ghost use Rattle.rap_c.specs.Packs.{PacksStep};

    // No step is refused.
    type Refusal = Infallible;

    ghost takes = { PacksStep };

    ghost refuses = { λ _ _ _ _. ⊥ };

    #[inline(always)]
    fn step(&mut self, step: StrStep<'_>) -> Result<(), Infallible> {
        match step {
            StrStep::Enter { kind } => self.put(word(ENTER, 0, kind)),
            StrStep::Exit => self.put(EXIT),
            StrStep::Token { kind, text } => self.put_token(kind, text.len()),
            StrStep::Error { msg, pos } => self.put_message(msg, pos),
        }
        Ok(())
    }
}
