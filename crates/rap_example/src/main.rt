//! Prints the leaves of a text's tree and its messages: the smallest program on the library.
#![tactic(auto)]

use ra_ap_parser::{Edition, NoMemory, StrSink, StrStep, TextFault, TopEntryPoint, parse_text};
use std::fmt::Write as _;
use std::io;

/// A line for each leaf that is neither white space nor a comment, and for each message.
#[derive(Drop)]
struct Leaves {
    lines: String,
}

impl StrSink for Leaves {
    type Refusal = NoMemory;

    // The effect of an accepted step on the sink, and that of a refused one: here nothing is specified.
    ghost takes = { λ _ _ _. Unit {0} };

    ghost refuses = { λ _ _ _ _. Unit {0} };

    fn step(&mut self, step: StrStep<'_>) -> Result<(), NoMemory> {
        if let StrStep::Token { kind, text } = step
            && !kind.is_trivia()
        {
            writeln!(self.lines, "{} {text}", kind.name())?;
        }
        if let StrStep::Error { msg, pos } = step {
            writeln!(self.lines, "{msg} at {pos}")?;
        }
        Ok(())
    }
}

fn main(rt: HostRuntime) -> io::Result<()> {
    let alloc = rt.alloc();
    let mut leaves = Leaves {
        lines: String::new(alloc),
    };
    let entry = TopEntryPoint::Expr;
    match parse_text(alloc, Edition::LATEST, entry, "f(x, /* y */", &mut leaves) {
        Ok(_parsed) => print!(rt; "{}", leaves.lines),
        Err(TextFault::TextTooLong | TextFault::TooManyTokens) => println!(rt; "too long"),
        Err(TextFault::NoMemory | TextFault::Refused(_)) => println!(rt; "no memory"),
    }
}
