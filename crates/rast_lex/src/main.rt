//! `rast_lex EDITION FILE [input|single|script]` prints a file's tokens, the parser's input, the file as a single
//! token, or the parts of a script.
#![tactic(auto)]

mod listing;
mod request;
mod run;

use rast_common::over_file;
use rast_common::program::Program;
use request::read_request;
use run::run;
use std::process::ExitCode;

const PROGRAM: Program = Program {
    name: "rast_lex",
    usage: "usage: rast_lex EDITION FILE [input|single|script]\n",
    options: "
Prints the tokens of a Rust file: of each its kind, its range in bytes, and its text in quotes. A line
`error TOKEN: MESSAGE` follows for each message; tokens are numbered from 0 on.

  EDITION    2015, 2018, 2021 or 2024
  FILE       the file, which must be UTF-8; /dev/stdin is the standard input
  input      the parser's input instead: of each token that is no white space and no comment the kind, what an
             identifier may be read as instead, and whether the token touches the next one
  single     the kind of a text that is one token, with its message or -; for any other text none
  script     the parts of a script source, or why the text is none

  --help     prints this
  --version  prints the version

The status is 0 without messages, 1 with messages, and 2 after a fault, whose reason is on standard error.
",
    version: "rast_lex 0.0.360\n",
    cannot_write: "rast_lex: cannot write\n",
    no_memory: "rast_lex: no memory\n",
};

fn main(rt: HostRuntime) -> ExitCode {
    over_file!(
        rt,
        PROGRAM,
        read_request,
        |request, text, out, err| run(
            rt.alloc(),
            request.edition,
            request.listing,
            text.as_str(),
            &mut out,
            &mut err,
        )
    )
}
