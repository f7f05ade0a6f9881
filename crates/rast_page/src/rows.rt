//! A sink that writes a tree as the page's script reads it.
ghost use Rattle.std.specs.Prelude.{◌≡◌, ◌++◌, [], OnOk, string_bytes, chars};
ghost use Rattle.rap_base.specs.Names.{name_of};
ghost use Rattle.rast_page.specs.Json.{json_text};
ghost use Rattle.rast_page.specs.Rows.{message_row};

use crate::json::push_json;
use ra_ap_parser::{NoMemory, StrSink, StrStep};
use std::alloc::{AllocError, Global};
use std::fmt::Write as _;

/// What the page's script reads: a tree's steps, and its messages.
///
/// Each step and each message is a few items of a JSON array, with a comma before each of them: `0` where a node ends,
/// `1` and its kind where one begins, `2`, the kind and the text for a token; for a message its position in bytes
/// and its text.
#[derive(Drop)]
pub struct Rows {
    pub steps: String,
    pub messages: String,
}

/// Adds a message.
fn push_message_row(rows: &mut String, pos: usize, message: &str) -> Result<(), AllocError>
    ensures { OnOk result (string_bytes rows.new ≡ string_bytes rows.old ++ message_row pos message.now) }
{
    write!(rows, ",{pos},")?;
    push_json(rows, message)
}

impl Rows {
    pub fn new(alloc: Global) -> Rows
        ensures steps { string_bytes result.steps ≡ [] }
        ensures messages { string_bytes result.messages ≡ [] }
    {
        Rows {
            steps: String::new(alloc),
            messages: String::new(alloc),
        }
    }
}

impl StrSink for Rows {
    ghost use Rattle.rast_page.specs.Takes.{Records};

    type Refusal = NoMemory;

    ghost takes = { Records };

    // After a call that was out of memory, nothing is specified about the rows.
    ghost refuses = { λ _ _ _ _. Unit {0} };

    fn step(&mut self, step: StrStep<'_>) -> Result<(), NoMemory> {
        match step {
            StrStep::Enter { kind } => {
                self.steps.push_str(",1,")?;
                push_json(&mut self.steps, kind.name())?;
            }
            StrStep::Token { kind, text } => {
                self.steps.push_str(",2,")?;
                push_json(&mut self.steps, kind.name())?;
                self.steps.push_str(",")?;
                push_json(&mut self.steps, text)?;
            }
            StrStep::Exit => self.steps.push_str(",0")?,
            StrStep::Error { msg, pos } => push_message_row(&mut self.messages, pos, msg)?,
        }
        Ok(())
    }
}
