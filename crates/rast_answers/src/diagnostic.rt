//! Diagnostics: the messages of a tree.
ghost use Rattle.std.specs.Prelude.{◌≡◌, IfOk, map};
ghost use Rattle.rast_answers.specs.Diagnostics.{said, shown};

use flat_tree::Message;
use std::alloc::{AllocError, Global};

/// A message about a text, and the range that it is about.
#[derive(Clone, Copy, Debug)]
pub struct Diagnostic<'t> {
    /// The text of the message.
    pub text: &'t str,
    /// The byte at which the range begins.
    pub start: usize,
    /// The byte at which it ends.
    pub end: usize,
}

/// A message with its range.
fn diagnostic_of(message: &Message) -> Diagnostic<'_>
    ensures { shown result ≡ said message.now }
{
    let range = message.range();
    Diagnostic {
        text: message.text(),
        start: range.start,
        end: range.end,
    }
}

/// Messages with their ranges, in their order. The error means out of memory.
pub fn diagnostics(alloc: Global, messages: &[Message]) -> Result<Vec<Diagnostic<'_>>, AllocError>
    ensures { IfOk result (λ list. map shown list.items ≡ map said messages.now) }
{
    let mut list = Vec::new(alloc);
    'messages: for message in messages {
        list.push(diagnostic_of(message))?;
    }
    Ok(list)
}
