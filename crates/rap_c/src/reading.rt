//! A text and the parser's input of it.
ghost use Rattle.std.specs.Prelude.{◌≡◌, ◌≤◌, ◌<◌, ◌⊎◌, ◌+◌, IfErr, IfOk, IsUtf8, MatchResult, length};
ghost use Rattle.rap_lexed.specs.Input.{records};
ghost use Rattle.rap_lexed.specs.LexedStr.{IsLexing};
ghost use Rattle.rap_lexed.specs.Trivia.{significant};

use crate::answer::Fault;
use ra_ap_parser::{Edition, Input, LexFault, LexedStr};
use std::alloc::Global;
use std::str;

/// The bytes as text.
pub fn text_of(bytes: &[u8]) -> Result<&str, Fault>
    ensures { MatchResult result (λ text. (text.now ≡ bytes.now) × IsUtf8 bytes.now) (λ fault. (fault ≡ Fault.NotUtf8) × ¬ IsUtf8 bytes.now) }
{
    match str::from_utf8(bytes) {
        Ok(text) => Ok(text),
        Err(_) => Err(Fault::NotUtf8),
    }
}

/// The text divided into tokens.
pub fn lex(alloc: Global, edition: Edition, text: &str) -> Result<LexedStr<'_>, Fault>
    ensures lexing { IfOk result (λ lexed. IsLexing text.now edition lexed × (length text.now ≤ 4294967295)) }
    ensures fault { IfErr result (λ fault. ((fault ≡ Fault.TextTooLong) × (4294967295 < length text.now)) ⊎ ((fault ≡ Fault.NoMemory) × (length text.now ≤ 4294967295))) }
{
    match LexedStr::new(alloc, edition, text) {
        Ok(lexed) => Ok(lexed),
        Err(LexFault::TextTooLong) => Err(Fault::TextTooLong),
        Err(LexFault::NoMemory) => Err(Fault::NoMemory),
    }
}

/// A text for the parser: its tokens, and those of them that are no trivia.
#[derive(Drop)]
pub struct Reading<'t> {
    pub lexed: LexedStr<'t>,
    pub input: Input,
}

/// The text divided into tokens, and the trivia left out.
pub fn read(alloc: Global, edition: Edition, text: &str) -> Result<Reading<'_>, Fault>
    ensures small { IfOk result (λ _. length text.now ≤ 4294967295) }
    ensures lexing { IfOk result (λ r. IsLexing text.now edition r.lexed) }
    ensures input { IfOk result (λ r. (r.input ≡ records r.lexed.tokens edition) × (length r.input ≡ significant r.lexed.tokens)) }
    ensures fault { IfErr result (λ fault. ((fault ≡ Fault.TextTooLong) × (4294967295 < length text.now)) ⊎ ((fault ≡ Fault.NoMemory) × (length text.now ≤ 4294967295))) }
{
    let lexed = lex(alloc, edition, text)?;
    let Ok(input) = lexed.to_input(alloc, edition) else {
        return Err(Fault::NoMemory);
    };
    Ok(Reading { lexed, input })
}
