//! `rast_server` answers an editor over standard input and output, as the Language Server Protocol has it.
#![tactic(auto)]

mod answers;
mod initialize;
mod limit;
mod open_documents;
mod outline;
mod run;
mod selected;
mod server;
mod tree;
mod trees;

use rast_common::fault::{exit_code, report};
use rast_common::program::Program;
use rast_common::words::{WrongWords, read_common, read_words};
use run::run;
use std::process::ExitCode;

const PROGRAM: Program = Program {
    name: "rast_server",
    usage: "usage: rast_server\n",
    options: "
A language server for Rust texts over standard input and output, by the Language Server Protocol 3.17. It needs no
project. It answers: diagnostics of what is open, documentSymbol, foldingRange, selectionRange, documentHighlight,
semanticTokens of a text or a range, and rust-analyzer/viewSyntaxTree.

  --help     prints this
  --version  prints the version

The status is 0 after `exit` if `shutdown` came before it, 1 if not, and 2 after a fault, whose reason is on standard
error. An end of the input counts as `exit`.
",
    version: "rast_server 0.0.360\n",
    cannot_write: "rast_server: cannot write\n",
    no_memory: "rast_server: no memory\n",
};

fn main(rt: HostRuntime) -> ExitCode {
    let (mut input, mut out, mut err) = (rt.stdin(), rt.stdout(), rt.stderr());
    let Ok(words) = read_words(&rt) else {
        return exit_code(report(&mut err, PROGRAM.usage));
    };
    if let Some(common) = read_common(words.as_slice()) {
        return exit_code(PROGRAM.tell(common, &mut out, &mut err));
    }
    if !words.is_empty() {
        return exit_code(PROGRAM.refuse(rt.alloc(), &WrongWords::Number, &mut err));
    }
    exit_code(run(rt.alloc(), &mut input, &mut out, &mut err))
}
