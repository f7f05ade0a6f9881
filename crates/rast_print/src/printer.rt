//! A sink that prints a tree.
ghost use Rattle.std.specs.Prelude.{◌≡◌, ◌+◌, ◌^◌, ◌-◌, ◌++◌, [], IfOk, OnOk, min, string_bytes, codes, chars};
ghost use Rattle.rap_base.specs.Names.{name_of};
ghost use Rattle.rast_common.specs.Indented.{indent};
ghost use Rattle.rast_common.specs.Quote.{quoted};

use ra_ap_parser::{NoMemory, StrSink, StrStep, SyntaxKind};
use rast_common::indented::IndentedText;
use rast_common::message::push_message;
use rast_common::show::Show;
use std::alloc::{AllocError, Global};
use std::io;

/// A tree's lines, indented by two spaces for each open node, and its messages, a line each.
#[derive(Drop)]
pub struct Printer {
    pub tree: IndentedText,
    pub messages: String,
    pub depth: usize,
}

/// Begins a line with the kind's name, after two spaces for each open node.
pub fn push_kind(lines: &mut IndentedText, depth: usize, kind: SyntaxKind) -> Result<(), AllocError>
    ensures { OnOk result (lines.new ≡ lines.old ++ (indent depth ++ name_of kind)) }
{
    lines.indent(depth)?;
    lines.push_str(kind.name())?;
    Ok(())
}

/// Adds a node's line.
#[inline(never)]
fn push_node(lines: &mut IndentedText, depth: usize, kind: SyntaxKind) -> Result<(), AllocError>
    ensures { OnOk result (lines.new ≡ lines.old ++ (indent depth ++ (name_of kind ++ codes "\n"))) }
{
    push_kind(lines, depth, kind)?;
    lines.push_str("\n")?;
    Ok(())
}

/// Adds a token's line.
#[inline(never)]
fn push_token(
    lines: &mut IndentedText,
    depth: usize,
    kind: SyntaxKind,
    text: &str,
) -> Result<(), AllocError>
    ensures { OnOk result (lines.new
        ≡ lines.old ++ (indent depth ++ (name_of kind ++ (codes " " ++ (quoted (chars text.now) ++ codes "\n"))))) }
{
    push_kind(lines, depth, kind)?;
    lines.push_str(" ")?;
    lines.push_quoted(text)?;
    lines.push_str("\n")?;
    Ok(())
}

impl Printer {
    /// A printer with no lines.
    pub fn new(alloc: Global) -> Printer
        ensures tree { result.tree ≡ [] }
        ensures messages { string_bytes result.messages ≡ [] }
        ensures depth { result.depth ≡ 0 }
    {
        Printer::after(alloc, IndentedText::new(alloc))
    }

    /// A printer that adds a tree's lines after these.
    pub fn after(alloc: Global, lines: IndentedText) -> Printer
        ensures tree { result.tree ≡ lines }
        ensures messages { string_bytes result.messages ≡ [] }
        ensures depth { result.depth ≡ 0 }
    {
        Printer {
            tree: lines,
            messages: String::new(alloc),
            depth: 0,
        }
    }
}

impl StrSink for Printer {
    ghost use Rattle.rast_print.specs.Prints.{Prints};

    type Refusal = NoMemory;

    ghost takes = { Prints };

    // After a call that was out of memory, nothing is specified about the lines.
    ghost refuses = { λ _ _ _ _. Unit {0} };

    #[inline(always)]
    fn step(&mut self, step: StrStep<'_>) -> Result<(), NoMemory> {
        match step {
            StrStep::Enter { kind } => {
                push_node(&mut self.tree, self.depth, kind)?;
                self.depth = self.depth.saturating_add(1);
            }
            StrStep::Token { kind, text } => push_token(&mut self.tree, self.depth, kind, text)?,
            StrStep::Exit => self.depth = self.depth.saturating_sub(1),
            StrStep::Error { msg, pos } => push_message(&mut self.messages, pos, msg)?,
        }
        Ok(())
    }
}

/// The tree's lines are written and then the messages'. The status is 0 where there is no message, and 1 where there is
/// one.
impl Show for Printer {
    ghost use Rattle.rast_print.specs.Shown.{shown_of};

    ghost shown = { shown_of };

    fn write<W: io::Write>(&self, out: &mut W) -> io::Result<()> {
        self.tree.write_to(out)?;
        out.write_all(self.messages.as_bytes())
    }

    fn status(&self) -> u8 {
        if self.messages.is_empty() { 0 } else { 1 }
    }
}
