//! The nodes and leaves of a tree that is built.
ghost use Rattle.std.specs.Prelude.{◌≡◌, ◌++◌, ◌∷◌, IfErr, IfOk, OnOk, string_bytes};
ghost use Rattle.rast_calls.specs.Built.{ComesOfBuild, IsBuilt, leaf_line, leaf_lines, node_line, node_lines};
ghost use Rattle.syntax_tree.specs.Elements.{descendants_of};
ghost use Rattle.syntax_tree.specs.Leaves.{leaves_of};

use crate::pushed::CallFault;
use ra_ap_parser::{Edition, LexedStr, NoMemory, TopEntryPoint};
use std::alloc::{AllocError, Global};
use std::fmt::Write as _;
use syntax_tree::{Leaf, Node, Tree};

/// Adds the line of a node.
fn push_node(lines: &mut String, node: &Node) -> Result<(), AllocError>
    ensures { OnOk result (string_bytes lines.new ≡ string_bytes lines.old ++ node_line node.now) }
{
    let range = node.range();
    writeln!(
        lines,
        "node {} {}..{}",
        node.kind().name(),
        range.start,
        range.end
    )?;
    Ok(())
}

/// Adds the line of a leaf.
fn push_leaf(lines: &mut String, leaf: &Leaf) -> Result<(), AllocError>
    ensures { OnOk result (string_bytes lines.new ≡ string_bytes lines.old ++ leaf_line leaf.now) }
{
    let range = leaf.range();
    writeln!(
        lines,
        "leaf {} {}..{}",
        leaf.kind().name(),
        range.start,
        range.end
    )?;
    Ok(())
}

/// Adds the lines of a node and of all nodes in it.
fn push_nodes(alloc: Global, lines: &mut String, root: &Node) -> Result<(), NoMemory>
    ensures { OnOk result (string_bytes lines.new ≡ string_bytes lines.old ++ node_lines (root.now ∷ descendants_of root.now.children)) }
{
    'nodes: for node in root.descendants(alloc)? {
        push_node(lines, node)?;
    }
    Ok(())
}

/// Adds the lines of all leaves in a node.
fn push_leaves(alloc: Global, lines: &mut String, root: &Node) -> Result<(), NoMemory>
    ensures { OnOk result (string_bytes lines.new ≡ string_bytes lines.old ++ leaf_lines (leaves_of root.now.children)) }
{
    'leaves: for leaf in root.leaves(alloc)? {
        push_leaf(lines, &leaf)?;
    }
    Ok(())
}

/// Lists the nodes and then the leaves of the tree that is built of a text.
pub fn list_built(
    alloc: Global,
    entry: TopEntryPoint,
    edition: Edition,
    text: &str,
) -> Result<String, CallFault>
    ensures built { IfOk result (λ lines. IsBuilt text.now edition entry (string_bytes lines)) }
    ensures fault { IfErr result (ComesOfBuild text.now edition) }
{
    let lexed = LexedStr::new(alloc, edition, text)?;
    let input = lexed.to_input(alloc, edition)?;
    let output = entry.parse(alloc, &input)?;
    let tree = Tree::build(alloc, &lexed, &output)?;
    let mut lines = String::new(alloc);
    push_nodes(alloc, &mut lines, tree.root())?;
    push_leaves(alloc, &mut lines, tree.root())?;
    Ok(lines)
}
