//! `rast_rows FILE..` reads tables of texts with their trees and messages, as the Rust crate returns them, and prints
//! those that this library reads differently.
#![tactic(auto)]

mod compare;
mod notation;
mod table;

use compare::run;
use rast_common::fault::{exit_code, report};
use std::process::ExitCode;
use std::{env, fs};

const USAGE: &str = "usage: rast_rows FILE..\n";

fn main(rt: HostRuntime) -> ExitCode {
    let mut err = rt.stderr();
    let Ok(mut args) = env::args(&rt) else {
        return exit_code(report(&mut err, USAGE));
    };
    let _program = args.next();
    if args.len() == 0 {
        return exit_code(report(&mut err, USAGE));
    }
    let mut tables = String::new(rt.alloc());
    for file in args {
        let Ok(table) = fs::read_to_string(&rt, file.as_str()) else {
            return exit_code(report(&mut err, "rast_rows: cannot read a file\n"));
        };
        if tables.push_str(table.as_str()).is_err() {
            return exit_code(report(&mut err, "rast_rows: no memory\n"));
        }
    }
    let mut out = rt.stdout();
    let status = run(rt.alloc(), tables.as_str(), &mut out, &mut err);
    exit_code(status)
}
