//! `rast_steps --steps ENTRY EDITION FILE`, `--prefix PREFIX EDITION FILE` and
//! `--reparse NODE FIRST PARENT EDITION FILE` print what the parser returns before the trivia are put back.
#![tactic(auto)]

mod request;
mod run;

use rast_common::over_file;
use rast_common::program::Program;
use request::read_request;
use run::run;
use std::process::ExitCode;

const PROGRAM: Program = Program {
    name: "rast_steps",
    usage: "\
usage: rast_steps --steps ENTRY EDITION FILE
       rast_steps --prefix PREFIX EDITION FILE
       rast_steps --reparse NODE FIRST PARENT EDITION FILE
",
    options: "
Prints the steps that the parser returns for a Rust text, before white space and comments are put back.

  --steps    the whole text is parsed as ENTRY
  --prefix   a prefix of the text is parsed as PREFIX, as a macro matches it; after the steps come the line
             `used END` with the prefix's end in bytes, and, if the steps are those of one tree, `tree` and the tree
  --reparse  a node in braces is parsed again from its own text, and its tree is printed; NODE is its kind, FIRST
             that of the first thing in it, and PARENT that of the node around it; - for none
  ENTRY      SourceFile, MacroItems, MacroStmts, Pattern, Type, Expr or MetaItem
  PREFIX     Vis, Block, Stmt, Pat, PatTop, Ty, Expr, Path, Item or MetaItem
  EDITION    2015, 2018, 2021 or 2024
  FILE       the file, which must be UTF-8; /dev/stdin is the standard input

  --help     prints this
  --version  prints the version

The status is 0, or 2 after a fault, whose reason is on standard error.
",
    version: "rast_steps 0.0.360\n",
    cannot_write: "rast_steps: cannot write\n",
    no_memory: "rast_steps: no memory\n",
};

fn main(rt: HostRuntime) -> ExitCode {
    over_file!(
        rt,
        PROGRAM,
        read_request,
        |request, text, out, err| run(
            rt.alloc(),
            request.edition,
            request.asked,
            text.as_str(),
            &mut out,
            &mut err,
        )
    )
}
