//! `rast EDITION ENTRY FILE [ranges]` prints the syntax tree of a file.
#![tactic(auto)]

mod ranges;
#[cfg(test)]
mod refused_write;
mod run;

use rast_common::fault::{exit_code, report};
use rast_print::request::read_tree_request;
use run::run;
use std::fs;
use std::process::ExitCode;

const USAGE: &str = "usage: rast EDITION ENTRY FILE [ranges]\n";

const UNREADABLE: &str = "rast: cannot read the file\n";

fn main(rt: HostRuntime) -> ExitCode {
    let mut err = rt.stderr();
    let Some((request, ranges)) = read_tree_request(&rt, "ranges") else {
        return exit_code(report(&mut err, USAGE));
    };
    let Ok(text) = fs::read_to_string(&rt, request.file.as_str()) else {
        return exit_code(report(&mut err, UNREADABLE));
    };
    let mut out = rt.stdout();
    let status = run(
        rt.alloc(),
        request.edition,
        request.entry,
        text.as_str(),
        ranges,
        &mut out,
        &mut err,
    );
    exit_code(status)
}
