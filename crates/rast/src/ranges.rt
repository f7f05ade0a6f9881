//! A tree's lines with the place of each node and leaf.
ghost use Rattle.std.specs.Prelude.{◌≡◌, ◌+◌, ◌*◌, ◌<◌, ◌++◌, ◌∷◌, IfErr, IfOk, OnOk, true, length, string_bytes};
ghost use Rattle.rast.specs.Pending.{pending, child_lines, ArePlaced, AllPlaced, pending_size, message_lines};
ghost use Rattle.rast.specs.RangedLines.{place, node_line, leaf_line, ranged_lines};
ghost use Rattle.rast.specs.Ran.{ArePrinted};
ghost use Rattle.rast_print.specs.Shown.{Comes};
ghost use Rattle.syntax_tree.specs.Children.{with_child};
ghost use Rattle.syntax_tree.specs.Places.{HavePlaces, IsPlace};
ghost use Rattle.syntax_tree.specs.RangedForest.{alone, ranged_none, forest_size};

use ra_ap_parser::{Edition, NoMemory, SyntaxKind, TextFault, TopEntryPoint};
use rast_common::indented::IndentedText;
use rast_common::message::push_message;
use rast_print::printer::{Printer, push_kind};
use std::alloc::{AllocError, Global};
use std::ops::Range;
use syntax_tree::{Child, Message, Node, Tree};

/// Adds where something begins and ends.
fn push_place(lines: &mut IndentedText, range: &Range<usize>) -> Result<(), AllocError>
    ensures { OnOk result (lines.new ≡ lines.old ++ place range.now.start range.now.end) }
{
    let start = range.start;
    let end = range.end;
    write!(lines, "@{start}..{end}")?;
    Ok(())
}

/// Adds a node's line.
fn push_node(lines: &mut IndentedText, depth: usize, node: &Node) -> Result<(), AllocError>
    ensures { OnOk result (lines.new
        ≡ lines.old ++ node_line depth node.now.kind node.now.start node.now.end) }
{
    push_kind(lines, depth, node.kind())?;
    push_place(lines, &node.range())?;
    lines.push_str("\n")?;
    Ok(())
}

/// Adds a leaf's line.
fn push_leaf(
    lines: &mut IndentedText,
    depth: usize,
    kind: SyntaxKind,
    range: &Range<usize>,
    text: &str,
) -> Result<(), AllocError>
    requires { IsPlace text.now range.now.start range.now.end }
    ensures { OnOk result (lines.new
        ≡ lines.old ++ leaf_line text.now depth kind range.now.start range.now.end) }
{
    push_kind(lines, depth, kind)?;
    push_place(lines, range)?;
    lines.push_str(" ")?;
    lines.push_quoted(&text[range.start..range.end])?;
    lines.push_str("\n")?;
    Ok(())
}

/// Adds a child's line, and leaves its children.
fn push_child<'a>(
    lines: &mut IndentedText,
    lists: &mut Vec<&'a [Child]>,
    depth: usize,
    child: &'a Child,
    text: &str,
) -> Result<(), NoMemory>
    requires deep { depth ≡ length lists.old.items }
    requires placed { HavePlaces text.now (with_child ranged_none child.now) }
    requires all_placed { AllPlaced text.now lists.old.items }
    ensures lines { OnOk result (lines.new ++ pending text.now 1 lists.new.items
        ≡ lines.old ++ (child_lines text.now depth child.now ++ pending text.now 1 lists.old.items)) }
    ensures placed { OnOk result (AllPlaced text.now lists.new.items) }
    ensures smaller { OnOk result (pending_size lists.new.items
        < pending_size lists.old.items + (2 * forest_size (with_child ranged_none child.now))) }
{
    match child {
        Child::Leaf { kind, range } => {
            push_leaf(lines, depth, *kind, range, text)?;
            Ok(())
        }
        Child::Node(node) => {
            push_node(lines, depth, node)?;
            lists.push(node.children())?;
            Ok(())
        }
    }
}

/// Adds the lines of a node's children, and of all that stands in them.
fn push_children(
    alloc: Global,
    lines: &mut IndentedText,
    root: &Node,
    text: &str,
) -> Result<(), NoMemory>
    requires { HavePlaces text.now root.now.children }
    ensures { OnOk result (lines.new
        ≡ lines.old ++ ranged_lines text.now 1 root.now.children) }
{
    let mut lists = Vec::new(alloc);
    lists.push(root.children())?;
    'lists: while let Some(list) = lists.pop() {
        let [first, later @ ..] = list else {
            continue;
        };
        lists.push(later)?;
        let depth = lists.len();
        push_child(lines, &mut lists, depth, first, text)?;
    }
    Ok(())
}

/// Adds the messages' lines.
fn push_messages(lines: &mut String, messages: &[Message]) -> Result<(), AllocError>
    ensures { OnOk result (string_bytes lines.new ≡ string_bytes lines.old ++ message_lines messages.now) }
{
    'messages: for message in messages {
        push_message(lines, message.position(), message.text())?;
    }
    Ok(())
}

/// The lines of a tree and of its messages.
fn printed(alloc: Global, tree: &Tree<'_>, text: &str) -> Result<Printer, NoMemory>
    requires { HavePlaces text.now (alone tree.now.root) }
    ensures tree { IfOk result (λ printer. printer.tree ≡ ranged_lines text.now 0 (alone tree.now.root)) }
    ensures messages { IfOk result (λ printer. string_bytes printer.messages ≡ message_lines tree.now.messages.items) }
{
    let mut printer = Printer::new(alloc);
    push_node(&mut printer.tree, 0, tree.root())?;
    push_children(alloc, &mut printer.tree, tree.root(), text)?;
    push_messages(&mut printer.messages, tree.messages())?;
    Ok(printer)
}

/// The lines of the text's tree, with the place of each node and leaf, and of its messages, the tree's messages before
/// the lexer's.
pub fn print_ranges(
    alloc: Global,
    edition: Edition,
    entry: TopEntryPoint,
    text: &str,
) -> Result<Printer, TextFault<NoMemory>>
    ensures printed { IfOk result (ArePrinted true text.now edition entry) }
    ensures fault { IfErr result (Comes text.now edition) }
{
    let tree = Tree::of_text(alloc, edition, entry, text)?;
    match printed(alloc, &tree, text) {
        Ok(printer) => Ok(printer),
        Err(NoMemory) => Err(TextFault::NoMemory),
    }
}
