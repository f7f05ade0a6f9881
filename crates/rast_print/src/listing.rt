//! What is listed of a text.
ghost use Rattle.std.specs.Prelude.{◌≡◌, ◌⊎◌, ◌≤◌, ◌<◌, ◌↔◌, ◌++◌, Some, true, IfErr, IfOk, OnOk, length, string_bytes};
ghost use Rattle.rap_events.specs.Cover.{covers};
ghost use Rattle.rap_events.specs.Forest.{flat, one_tree, used};
ghost use Rattle.rap_events.specs.Step.{step_value};
ghost use Rattle.rap_grammar.specs.Part.{part_kind};
ghost use Rattle.rap_lexed.specs.Input.{records};
ghost use Rattle.rap_lexed.specs.LexedStr.{IsLexing};
ghost use Rattle.rap_lexed.specs.StrForest.{str_flat};
ghost use Rattle.rap_lexed.specs.Trivia.{significant, with_trivia};
ghost use Rattle.rast_print.specs.Printed.{printed, reported};
ghost use Rattle.rast_print.specs.Listed.{node_part, step_line, step_lines, used_line, tree_lines, tree_part};
ghost use Rattle.rast_print.specs.Lists.{Comes, ComesOfNode, Lists, ListsNode, ListsPrefix, ListsSteps};
ghost use Rattle.rap_base.specs.Limits.{max_tokens};

use crate::asked::Asked;
use crate::printer::Printer;
use ra_ap_parser::{
    Edition, Input, LexFault, LexedStr, NoMemory, Output, ParseFault, PrefixEntryPoint, Reparser,
    Step, TopEntryPoint, is_one_tree,
};
use rap_lexed::used::used_bytes;
use rast_common::indented::IndentedText;
use std::alloc::{AllocError, Global};
use std::fmt::Write as _;

/// Why nothing is listed.
#[derive(Clone, Copy, Debug, PartialEq, Eq)]
pub enum ListFault {
    /// The text is longer than the lexer takes.
    TextTooLong,
    /// The text has more tokens than the parser takes.
    TooManyTokens,
    /// The node must begin with a `{`, and the text does not.
    NoBrace,
    /// Out of memory: the allocator refused a request.
    NoMemory,
}

impl From<LexFault> for ListFault {
    ghost use Rattle.rap_lexed.specs.declared.lexed_str.LexFault.TheVariants as lex;
    ghost use Rattle.rast_print.specs.declared.listing.ListFault.TheVariants.{TextTooLong, NoMemory};

    ghost from_gives = { λ from fault. ((from ≡ lex.TextTooLong) ↔ (fault ≡ TextTooLong)) × ((from ≡ lex.NoMemory) ↔ (fault ≡ NoMemory)) };

    fn from(fault: LexFault) -> ListFault {
        match fault {
            LexFault::TextTooLong => ListFault::TextTooLong,
            LexFault::NoMemory => ListFault::NoMemory,
        }
    }
}

impl From<NoMemory> for ListFault {
    ghost use Rattle.rast_print.specs.declared.listing.ListFault.TheVariants.{NoMemory};

    ghost from_gives = { λ _ fault. fault ≡ NoMemory };

    fn from(_fault: NoMemory) -> ListFault {
        ListFault::NoMemory
    }
}

impl From<AllocError> for ListFault {
    ghost use Rattle.rast_print.specs.declared.listing.ListFault.TheVariants.{NoMemory};

    ghost from_gives = { λ _ fault. fault ≡ NoMemory };

    fn from(_fault: AllocError) -> ListFault {
        ListFault::NoMemory
    }
}

/// Adds the line of a step.
fn push_step(lines: &mut String, step: Step<'_>) -> Result<(), AllocError>
    ensures { OnOk result (string_bytes lines.new ≡ string_bytes lines.old ++ step_line (step_value step.entry)) }
{
    match step {
        Step::Enter { kind } => writeln!(lines, "enter {}", kind.name())?,
        Step::Exit => lines.push_str("exit\n")?,
        Step::Token {
            kind,
            n_input_tokens,
        } => writeln!(lines, "token {} {n_input_tokens}", kind.name())?,
        Step::FloatSplit { ends_in_dot } => lines.push_str(if ends_in_dot {
            "split true\n"
        } else {
            "split false\n"
        })?,
        Step::Error { msg } => writeln!(lines, "error {msg}")?,
    }
    Ok(())
}

/// Adds the lines of an output's steps.
fn push_steps(lines: &mut String, output: &Output) -> Result<(), AllocError>
    ensures { OnOk result (string_bytes lines.new ≡ string_bytes lines.old ++ step_lines (flat output.now)) }
{
    'steps: for step in output.iter() {
        push_step(lines, step)?;
    }
    Ok(())
}

/// Adds the line with the end of the last token that an output consumed.
fn push_used(lines: &mut String, lexed: &LexedStr<'_>, output: &Output) -> Result<(), AllocError>
    requires { used output.now ≤ max_tokens }
    ensures { OnOk result (string_bytes lines.new ≡ string_bytes lines.old ++ used_line lexed.now.tokens output.now) }
{
    let end = used_bytes(lexed, output);
    writeln!(lines, "used {end}")?;
    Ok(())
}

/// The lines of a tree, trivia put back, after other lines, and those of its messages.
#[tactic(auto, using(crate::proofs::Listings::tree_after, crate::proofs::Listings::messages_from))]
fn print_tree(
    alloc: Global,
    lines: IndentedText,
    lexed: &LexedStr<'_>,
    output: &Output,
) -> Result<Printer, NoMemory>
    requires tree { one_tree output.now ≡ true }
    requires prefix { (edition : Edition) × (covers (records lexed.now.tokens edition) output.now ≡ true) }
    ensures tree { IfOk result (λ p. p.tree ≡ lines ++ printed 0 (str_flat (with_trivia lexed.now.tokens output.now))) }
    ensures messages { IfOk result (λ p. string_bytes p.messages ≡ reported (str_flat (with_trivia lexed.now.tokens output.now))) }
{
    let mut printer = Printer::after(alloc, lines);
    lexed.intersperse_trivia(output, &mut printer)?;
    Ok(printer)
}

/// The lines of a tree, trivia put back, and those of its messages, after other lines.
fn with_tree(
    alloc: Global,
    lines: IndentedText,
    lexed: &LexedStr<'_>,
    output: &Output,
) -> Result<IndentedText, NoMemory>
    requires tree { one_tree output.now ≡ true }
    requires prefix { (edition : Edition) × (covers (records lexed.now.tokens edition) output.now ≡ true) }
    ensures { IfOk result (λ all. all ≡ lines ++ tree_lines lexed.now.tokens output.now) }
{
    let mut printer = print_tree(alloc, lines, lexed, output)?;
    printer.tree.push_str(printer.messages.as_str())?;
    Ok(printer.tree)
}

/// Other lines, and after them, if the output is one tree, a line that says so and the lines of the tree.
#[tactic(auto, using(crate::proofs::Listings::no_tree, crate::proofs::Listings::a_tree))]
fn with_tree_part(
    alloc: Global,
    mut lines: String,
    lexed: &LexedStr<'_>,
    output: &Output,
) -> Result<IndentedText, NoMemory>
    requires prefix { (edition : Edition) × (covers (records lexed.now.tokens edition) output.now ≡ true) }
    ensures { IfOk result (λ all. all ≡ string_bytes lines ++ tree_part lexed.now.tokens output.now) }
{
    if !is_one_tree(output) {
        return Ok(IndentedText::unindented(alloc, lines));
    }
    lines.push_str("tree\n")?;
    with_tree(alloc, IndentedText::unindented(alloc, lines), lexed, output)
}

/// The lines of a node's tree, or of its steps if they are not one tree.
fn list_node_part(
    alloc: Global,
    lexed: &LexedStr<'_>,
    output: &Output,
) -> Result<IndentedText, NoMemory>
    requires prefix { (edition : Edition) × (covers (records lexed.now.tokens edition) output.now ≡ true) }
    ensures { IfOk result (λ lines. lines ≡ node_part lexed.now.tokens output.now) }
{
    if is_one_tree(output) {
        return with_tree(alloc, IndentedText::new(alloc), lexed, output);
    }
    let mut lines = String::new(alloc);
    lines.push_str("not one tree\n")?;
    push_steps(&mut lines, output)?;
    Ok(IndentedText::unindented(alloc, lines))
}

/// A text and the parser's input of it.
#[derive(Drop)]
struct Reading<'t> {
    lexed: LexedStr<'t>,
    input: Input,
}

/// Divides the text into tokens, and leaves the trivia out.
fn read(alloc: Global, edition: Edition, text: &str) -> Result<Reading<'_>, ListFault>
    ensures small { IfOk result (λ _. length text.now ≤ 4294967295) }
    ensures lexing { IfOk result (λ r. IsLexing text.now edition r.lexed) }
    ensures input { IfOk result (λ r. (r.input ≡ records r.lexed.tokens edition) × (length r.input ≡ significant r.lexed.tokens)) }
    ensures fault { IfErr result (λ fault. ((fault ≡ ListFault.TextTooLong) × (4294967295 < length text.now)) ⊎ ((fault ≡ ListFault.NoMemory) × (length text.now ≤ 4294967295))) }
{
    let lexed = LexedStr::new(alloc, edition, text)?;
    let input = lexed.to_input(alloc, edition)?;
    Ok(Reading { lexed, input })
}

/// Lists the steps of the whole text.
#[tactic(auto, using(crate::proofs::Listings::too_many))]
fn list_steps(
    alloc: Global,
    edition: Edition,
    entry: TopEntryPoint,
    text: &str,
) -> Result<IndentedText, ListFault>
    ensures lists { IfOk result (ListsSteps text.now edition entry) }
    ensures fault { IfErr result (Comes text.now edition (Asked.Steps entry)) }
{
    let reading = read(alloc, edition, text)?;
    let output = match entry.parse(alloc, &reading.input) {
        Ok(output) => output,
        Err(ParseFault::TooManyTokens) => return Err(ListFault::TooManyTokens),
        Err(ParseFault::NoMemory) => return Err(ListFault::NoMemory),
    };
    let mut lines = String::new(alloc);
    push_steps(&mut lines, &output)?;
    Ok(IndentedText::unindented(alloc, lines))
}

/// Lists the steps of a prefix of the text and where it ends, and the tree if it is one.
#[tactic(auto, using(crate::proofs::Listings::too_many))]
fn list_prefix(
    alloc: Global,
    edition: Edition,
    entry: PrefixEntryPoint,
    text: &str,
) -> Result<IndentedText, ListFault>
    ensures lists { IfOk result (ListsPrefix text.now edition entry) }
    ensures fault { IfErr result (Comes text.now edition (Asked.Prefix entry)) }
{
    let reading = read(alloc, edition, text)?;
    let output = match entry.parse(alloc, &reading.input) {
        Ok(output) => output,
        Err(ParseFault::TooManyTokens) => return Err(ListFault::TooManyTokens),
        Err(ParseFault::NoMemory) => return Err(ListFault::NoMemory),
    };
    let mut lines = String::new(alloc);
    push_steps(&mut lines, &output)?;
    push_used(&mut lines, &reading.lexed, &output)?;
    let lines = with_tree_part(alloc, lines, &reading.lexed, &output)?;
    Ok(lines)
}

/// Lists the tree of a node that is parsed again, or its steps if they are not one tree, and where it ends.
#[tactic(auto, using(crate::proofs::Listings::too_many))]
fn list_node(
    alloc: Global,
    edition: Edition,
    reparser: Reparser,
    text: &str,
) -> Result<IndentedText, ListFault>
    ensures lists { IfOk result (ListsNode text.now edition reparser) }
    ensures fault { IfErr result (ComesOfNode text.now edition (Some (part_kind reparser))) }
{
    let reading = read(alloc, edition, text)?;
    if !reparser.can_parse(&reading.input) {
        return Err(ListFault::NoBrace);
    }
    let output = match reparser.parse(alloc, &reading.input) {
        Ok(output) => output,
        Err(ParseFault::TooManyTokens) => return Err(ListFault::TooManyTokens),
        Err(ParseFault::NoMemory) => return Err(ListFault::NoMemory),
    };
    let mut lines = list_node_part(alloc, &reading.lexed, &output)?;
    let mut used = String::new(alloc);
    push_used(&mut used, &reading.lexed, &output)?;
    lines.push_str(used.as_str())?;
    Ok(lines)
}

/// Lists what is requested of the text.
pub fn list(
    alloc: Global,
    edition: Edition,
    asked: Asked,
    text: &str,
) -> Result<IndentedText, ListFault>
    ensures lists { IfOk result (Lists text.now edition asked) }
    ensures fault { IfErr result (Comes text.now edition asked) }
{
    match asked {
        Asked::Steps(entry) => list_steps(alloc, edition, entry, text),
        Asked::Prefix(entry) => list_prefix(alloc, edition, entry, text),
        Asked::Reparse {
            node,
            first_child,
            parent,
        } => match Reparser::for_node(node, first_child, parent) {
            Some(reparser) => list_node(alloc, edition, reparser, text),
            None => {
                let mut lines = IndentedText::new(alloc);
                lines.push_str("none\n")?;
                Ok(lines)
            }
        },
    }
}
