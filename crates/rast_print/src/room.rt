//! Room for the lines of a tree before the first of them.
ghost use Rattle.std.specs.Prelude.{◌≡◌, []};

use ra_ap_parser::{LexedStr, Output};
use rap_base::room::doubled;
use rast_common::indented::IndentedText;
use std::alloc::Global;

/// For how many bytes the lines have room at first: the first text that is added is the root's name, mostly `SOURCE_FILE`.
const FIRST_BYTES: usize = 11;

/// For how many indentations a list has room at first.
const FIRST_LINES: usize = 4;

/// No lines yet, but room for as many as growing by doubling would surely come to, if there is memory for it. The output's
/// tree must cover the lexed text.
pub(crate) fn roomy_lines(alloc: Global, lexed: &LexedStr<'_>, output: &Output) -> IndentedText
    ensures { result ≡ [] }
{
    let trivia = lexed.len().saturating_sub(output.used());
    let steps = output.iter();
    let leaves = steps.leaves();
    let nodes = steps.elements().saturating_sub(leaves);
    // The shortest names are `FN`, that of `@`, and of trivia `COMMENT`; with a leaf stand a space and two quotes, and each
    // line has its end.
    let names = trivia
        .saturating_mul(11)
        .saturating_add(leaves.saturating_mul(6))
        .saturating_add(nodes.saturating_mul(3));
    let bytes = names.saturating_add(lexed.as_str().len());
    let lines = trivia.saturating_add(leaves).saturating_add(nodes);
    IndentedText::with_hint(
        alloc,
        doubled(FIRST_BYTES, bytes),
        doubled(FIRST_LINES, lines),
    )
}
