//! `rast_page EDITION ENTRY FILE` writes a page that shows a file beside its syntax tree.
#![tactic(auto)]

mod head;
mod json;
mod request;
mod rows;
mod run;
mod tail;

use head::HEAD;
use rast_common::over_file;
use rast_common::program::Program;
use request::read_request;
use run::{Frame, run};
use std::process::ExitCode;
use tail::TAIL;

const PROGRAM: Program = Program {
    name: "rast_page",
    usage: "usage: rast_page EDITION ENTRY FILE\n",
    options: "
Writes a page for a browser on standard output, which shows a Rust file beside its syntax tree. The page is one file
and loads nothing from a network.

  EDITION    2015, 2018, 2021 or 2024
  ENTRY      SourceFile, MacroItems, MacroStmts, Pattern, Type, Expr or MetaItem, as which the text is parsed
  FILE       the file, which must be UTF-8; /dev/stdin is the standard input

  --help     prints this
  --version  prints the version

The status is 0 without messages, 1 with messages, and 2 after a fault, whose reason is on standard error.
",
    version: "rast_page 0.0.360\n",
    cannot_write: "rast_page: cannot write\n",
    no_memory: "rast_page: no memory\n",
};

fn main(rt: HostRuntime) -> ExitCode {
    let frame = Frame {
        head: HEAD,
        tail: TAIL,
    };
    over_file!(
        rt,
        PROGRAM,
        read_request,
        |request, text, out, err| run(
            rt.alloc(),
            request.edition,
            request.entry,
            &frame,
            request.file,
            text.as_str(),
            &mut out,
            &mut err,
        )
    )
}
