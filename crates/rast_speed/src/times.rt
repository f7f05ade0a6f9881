//! How long each part of a parse takes.

use ra_ap_parser::{
    Edition, LexFault, LexedStr, NoMemory, ParseFault, StrSink, StrStep, SyntaxKind, TopEntryPoint,
};
use std::alloc::Global;
use std::io;
use std::rt::Clock;
use std::time::Instant;
use syntax_tree::Tree;

/// Counts the steps that it takes, and those that begin an `ERROR` node.
#[derive(Drop)]
struct Counter {
    steps: usize,
    errors: usize,
}

impl StrSink for Counter {
    type Refusal = NoMemory;

    ghost takes = { λ _ _ _. Unit {0} };

    ghost refuses = { λ _ _ _ _. Unit {0} };

    fn step(&mut self, step: StrStep<'_>) -> Result<(), NoMemory> {
        self.steps = self.steps.saturating_add(1);
        if let StrStep::Enter { kind } = step
            && kind == SyntaxKind::ERROR
        {
            self.errors = self.errors.saturating_add(1);
        }
        Ok(())
    }
}

/// The times of the parts in microseconds, and how much was parsed.
#[derive(Clone, Copy, Debug)]
pub struct Times {
    pub lex: u128,
    pub input: u128,
    pub parse: u128,
    pub sink: u128,
    /// That of building a tree, if one was built.
    pub build: Option<u128>,
    pub tokens: usize,
    pub steps: usize,
    pub errors: usize,
}

impl Times {
    /// The shorter time of each part.
    pub fn shortest(&self, other: &Times) -> Times {
        Times {
            lex: self.lex.min(other.lex),
            input: self.input.min(other.input),
            parse: self.parse.min(other.parse),
            sink: self.sink.min(other.sink),
            build: shorter(self.build, other.build),
            tokens: self.tokens,
            steps: self.steps,
            errors: self.errors,
        }
    }
}

/// The shorter of two times, if both were taken.
fn shorter(time: Option<u128>, other: Option<u128>) -> Option<u128> {
    match (time, other) {
        (Some(time), Some(other)) => Some(time.min(other)),
        _ => None,
    }
}

/// Why nothing was measured.
#[derive(Debug, Drop)]
pub enum Failure {
    Clock(io::Error),
    Lex(LexFault),
    Parse(ParseFault),
    NoMemory(NoMemory),
}

impl From<io::Error> for Failure {
    fn from(error: io::Error) -> Failure {
        Failure::Clock(error)
    }
}

impl From<LexFault> for Failure {
    fn from(fault: LexFault) -> Failure {
        Failure::Lex(fault)
    }
}

impl From<ParseFault> for Failure {
    fn from(fault: ParseFault) -> Failure {
        Failure::Parse(fault)
    }
}

impl From<NoMemory> for Failure {
    fn from(fault: NoMemory) -> Failure {
        Failure::NoMemory(fault)
    }
}

/// Parses the text once, builds a tree if one is wanted, and takes the time of each part.
pub fn measure<R: Clock>(
    rt: &R,
    alloc: Global,
    edition: Edition,
    entry: TopEntryPoint,
    text: &str,
    builds: bool,
) -> Result<Times, Failure> {
    let start = Instant::now(rt)?;
    let lexed = LexedStr::new(alloc, edition, text)?;
    let lex = start.elapsed(rt)?.as_micros();
    let start = Instant::now(rt)?;
    let read = lexed.to_input(alloc, edition)?;
    let input = start.elapsed(rt)?.as_micros();
    let start = Instant::now(rt)?;
    let output = entry.parse(alloc, &read)?;
    let parse = start.elapsed(rt)?.as_micros();
    let mut counter = Counter {
        steps: 0,
        errors: 0,
    };
    let start = Instant::now(rt)?;
    let _whole = lexed.intersperse_trivia(&output, &mut counter)?;
    let sink = start.elapsed(rt)?.as_micros();
    let build = if builds {
        let start = Instant::now(rt)?;
        let _tree = Tree::build(alloc, &lexed, &output)?;
        Some(start.elapsed(rt)?.as_micros())
    } else {
        None
    };
    Ok(Times {
        lex,
        input,
        parse,
        sink,
        build,
        tokens: read.len(),
        steps: counter.steps,
        errors: counter.errors,
    })
}
