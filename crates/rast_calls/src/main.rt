//! `rast_calls` makes the calls of the library that no other program makes, and prints what they return.
#![tactic(auto)]

mod asked;
mod built;
mod closed;
mod listing;
mod pushed;
mod request;
mod run;
mod sink;

use rast_common::fault::{exit_code, report};
use request::read_request;
use run::run;
use std::fs;
use std::process::ExitCode;
use std::rt::Files;

const USAGE: &str = "usage: rast_calls capacity COUNT\n       \
    rast_calls frontmatter MESSAGE START END COUNT\n       \
    rast_calls push|ident|kept|kept-ident|count top|prefix|reparse NAME COUNT KIND [EVERY]\n       \
    rast_calls sink COUNT ENTRY EDITION FILE\n       \
    rast_calls build ENTRY EDITION FILE\n       \
    rast_calls closed NODE EDITION FILE\n";

const UNREADABLE: &str = "rast_calls: cannot read the file\n";

/// The text of the file, or an empty text if no file is named.
fn read_text<R: Files + AllocGlobal>(rt: &R, file: &Option<String>) -> Option<String> {
    match file {
        Some(file) => fs::read_to_string(rt, file.as_str()).ok(),
        None => Some(String::new(rt.alloc())),
    }
}

fn main(rt: HostRuntime) -> ExitCode {
    let mut err = rt.stderr();
    let Some(request) = read_request(&rt) else {
        return exit_code(report(&mut err, USAGE));
    };
    let Some(text) = read_text(&rt, &request.file) else {
        return exit_code(report(&mut err, UNREADABLE));
    };
    let mut out = rt.stdout();
    exit_code(run(
        rt.alloc(),
        &request.asked,
        text.as_str(),
        &mut out,
        &mut err,
    ))
}
