//! `rast_core EDITION FILE..` tells whether files are in the core grammar, and otherwise what of them is outside.
#![tactic(auto)]

mod files;
mod page;
mod request;
mod run;

use files::tell;
use rast_common::fault::{exit_code, report};
use rast_common::program::Program;
use rast_common::words::{read_common, read_words};
use request::read_request;
use std::process::ExitCode;

const PROGRAM: Program = Program {
    name: "rast_core",
    usage: "usage: rast_core EDITION FILE..\n",
    options: "
Tells whether Rust files are in the core grammar. Of a file that is, nothing is printed. Otherwise a line
`KIND@START..END` tells what is outside: first each token that the lexer has a message of, and then each node that the
grammar does not derive and that has no such node in it.

  EDITION    2015, 2018, 2021 or 2024
  FILE       a file, which must be UTF-8; a folder, for the files below it whose names end in .rs, in the order of
             their paths; or - for the standard input. With a folder, or several files, each line begins with the
             file and a colon

  --help     prints this
  --version  prints the version

The status is 0 if each file is in the core grammar: its tree is then its derivation's, without a message. It is 1 if one
is outside, or no derivation of it was found, and 2 after a fault, whose reason is on standard error. After a fault of
one file the others are told all the same.
",
    version: "rast_core 0.0.360\n",
    cannot_write: "rast_core: cannot write\n",
    no_memory: "rast_core: no memory\n",
};

fn main(rt: HostRuntime) -> ExitCode {
    let (mut out, mut err) = (rt.stdout(), rt.stderr());
    let Ok(words) = read_words(&rt) else {
        return exit_code(report(&mut err, PROGRAM.usage));
    };
    if let Some(common) = read_common(words.as_slice()) {
        return exit_code(PROGRAM.tell(common, &mut out, &mut err));
    }
    match read_request(words.as_slice()) {
        Ok(request) => exit_code(tell(&rt, &request, &mut out, &mut err)),
        Err(wrong) => exit_code(PROGRAM.refuse(rt.alloc(), &wrong, &mut err)),
    }
}
