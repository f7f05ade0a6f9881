//! The lexer's messages that wait for their places in a tree.
ghost use Rattle.std.specs.Prelude.{◌≡◌, IfErr, IfOk, length};
ghost use Rattle.rap_lexed.specs.LexedStr.{AreInOrder};
ghost use Rattle.rap_ranged.specs.Reports.{lexer_reports};

use crate::answer::Fault;
use ra_ap_parser::LexedStr;
use std::alloc::Global;
use std::marker::Model;

/// A message of the lexer: its text, and the byte at which its token begins.
#[derive(Drop)]
pub struct Waiting<'m> {
    text: &'m str,
    at: usize,
}

impl<'m> Model for Waiting<'m> {
    ghost use Rattle.rap_ranged.specs.Reports.{ReportValue};

    ghost Value = { ReportValue };

    ghost view = { λ w. record { text = w.text.now; at = w.at } };
}

impl<'m> Waiting<'m> {
    /// A message of this text at this byte.
    fn new(text: &'m str, at: usize) -> Waiting<'m>
        ensures { result ≡ record { text = text.now; at = at } }
    {
        Waiting { text, at }
    }

    /// Its text.
    pub fn text(&self) -> &'m str
        ensures { result.now ≡ self.now.text }
    {
        self.text
    }

    /// The byte at which it is.
    #[inline(always)]
    pub fn at(&self) -> usize
        ensures { result ≡ self.now.at }
    {
        self.at
    }
}

/// All messages of the lexer, in the order of their tokens. No memory is allocated where there is none.
pub fn waiting_of<'l>(alloc: Global, lexed: &'l LexedStr<'_>) -> Result<Vec<Waiting<'l>>, Fault>
    requires { AreInOrder (length lexed.now.tokens) lexed.now.errors }
    ensures reports { IfOk result (λ waiting. waiting.items ≡ lexer_reports lexed.now.tokens lexed.now.errors) }
    ensures fault { IfErr result (λ fault. fault ≡ Fault.NoMemory) }
{
    let mut waiting = Vec::new(alloc);
    'errors: for (token, text) in lexed.errors() {
        let at = lexed.text_start(token);
        let Ok(()) = waiting.push(Waiting::new(text, at)) else {
            return Err(Fault::NoMemory);
        };
    }
    Ok(waiting)
}
