//! `rast_speed EDITION ENTRY FILE [build]` prints how long each part of a parse of the file takes, and with the fourth
//! word how long a tree takes that owns its nodes.
#![tactic(auto)]

mod times;

use ra_ap_parser::{Edition, LexFault, ParseFault, TopEntryPoint};
use rast_common::fault::{exit_code, report};
use rast_print::request::read_tree_request;
use std::alloc::{AllocError, Global};
use std::process::ExitCode;
use std::rt::Clock;
use std::{fs, io};
use times::{Failure, Times, measure};

/// How often each part is measured; the shortest time counts.
const ROUNDS: usize = 5;

const USAGE: &str = "usage: rast_speed EDITION ENTRY FILE [build]\n";

const UNREADABLE: &str = "rast_speed: cannot read the file\n";

const NO_MEMORY: &str = "rast_speed: no memory\n";

/// What is reported where nothing was measured.
fn failure_message(failure: &Failure) -> &'static str {
    match failure {
        Failure::Clock(_) => "rast_speed: cannot read the clock\n",
        Failure::Lex(LexFault::TextTooLong) => "rast_speed: text too long\n",
        Failure::Parse(ParseFault::TooManyTokens) => "rast_speed: too many tokens\n",
        _ => NO_MEMORY,
    }
}

/// The shortest times of all rounds.
fn measure_rounds<R: Clock>(
    rt: &R,
    alloc: Global,
    edition: Edition,
    entry: TopEntryPoint,
    text: &str,
    builds: bool,
) -> Result<Times, Failure> {
    let mut best = measure(rt, alloc, edition, entry, text, builds)?;
    for _ in 1..ROUNDS {
        let next = measure(rt, alloc, edition, entry, text, builds)?;
        best = best.shortest(&next);
    }
    Ok(best)
}

/// The lines that show the times.
fn lines(alloc: Global, bytes: usize, times: &Times) -> Result<String, AllocError> {
    let build = match times.build {
        Some(time) => format!(in alloc; ", build {time} us")?,
        None => String::new(alloc),
    };
    format!(in alloc;
        "{bytes} bytes, {} input tokens, {} steps, {} ERROR nodes\nlex {} us, to_input {} us, parse {} us, intersperse {} us{build}\n",
        times.tokens, times.steps, times.errors, times.lex, times.input, times.parse, times.sink
    )
}

/// Writes the lines.
fn write<W: io::Write>(out: &mut W, lines: &str) -> io::Result<()> {
    out.write_all(lines.as_bytes())?;
    out.flush()
}

fn main(rt: HostRuntime) -> ExitCode {
    let mut err = rt.stderr();
    let Some((request, builds)) = read_tree_request(&rt, "build") else {
        return exit_code(report(&mut err, USAGE));
    };
    let Ok(text) = fs::read_to_string(&rt, request.file.as_str()) else {
        return exit_code(report(&mut err, UNREADABLE));
    };
    let alloc = rt.alloc();
    let times = match measure_rounds(
        &rt,
        alloc,
        request.edition,
        request.entry,
        text.as_str(),
        builds,
    ) {
        Ok(times) => times,
        Err(failure) => return exit_code(report(&mut err, failure_message(&failure))),
    };
    let Ok(lines) = lines(alloc, text.len(), &times) else {
        return exit_code(report(&mut err, NO_MEMORY));
    };
    match write(&mut rt.stdout(), lines.as_str()) {
        Ok(()) => ExitCode::from(0),
        Err(_) => exit_code(report(&mut err, "rast_speed: cannot write\n")),
    }
}
