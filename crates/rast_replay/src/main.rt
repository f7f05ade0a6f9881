//! `rast_replay FILE` reads a file of texts, each with the hash of what another parser prints of it, and prints those
//! of which this one prints something else.
#![tactic(auto)]

mod hash;
mod replay;
mod row;
mod unquote;
mod way;

use rast_common::fault::{exit_code, report};
use replay::run;
use std::process::ExitCode;
use std::{env, fs};

const USAGE: &str = "usage: rast_replay FILE\n";

fn main(rt: HostRuntime) -> ExitCode {
    let mut err = rt.stderr();
    let Ok(mut args) = env::args(&rt) else {
        return exit_code(report(&mut err, USAGE));
    };
    let _program = args.next();
    let Some(file) = args.next() else {
        return exit_code(report(&mut err, USAGE));
    };
    if args.next().is_some() {
        return exit_code(report(&mut err, USAGE));
    }
    let Ok(rows) = fs::read_to_string(&rt, file.as_str()) else {
        return exit_code(report(&mut err, "rast_replay: cannot read the file\n"));
    };
    let mut out = rt.stdout();
    let status = run(rt.alloc(), rows.as_str(), &mut out, &mut err);
    exit_code(status)
}
