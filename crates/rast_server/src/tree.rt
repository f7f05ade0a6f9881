//! The tree of a document as a JSON string, which is not longer than the limit.
ghost use Rattle.std.specs.Prelude.{◌≡◌, ◌+◌, ◌*◌, ◌<◌, ◌≤◌, ◌++◌, IfNone, IfOk, IfSome, OnOk, length, string_bytes};
ghost use Rattle.json.specs.Print.{escape};
ghost use Rattle.rast_common.specs.Indented.{indent};
ghost use Rattle.rap_ranged.specs.Places.{IsPlace};
ghost use Rattle.flat_tree.specs.Order.{ParentsComeFirst};
ghost use Rattle.rast_messages.specs.Replies.{string_text};
ghost use Rattle.rast_server.specs.TreeText.{AreDepths, HavePlaces, depth_at, element_text, leaf_text, tree_text};
ghost use Rattle.rast_server.specs.declared.limit.TheConstants.{LIMIT};

use crate::limit::LIMIT;
use flat_tree::Element;
use rast_common::quote::push_quoted;
use rast_messages::{left_by_text, push_escaped, push_number};
use std::alloc::{AllocError, Global};

/// Adds what a leaf has in its line and a node has not: a space and its text in quotes.
fn push_leaf(line: &mut String, text: &str, element: &Element) -> Result<(), AllocError>
    requires { IsPlace text.now element.now.start element.now.end }
    ensures { OnOk result (string_bytes line.new ≡ string_bytes line.old ++ leaf_text text.now element.now) }
{
    if !element.is_leaf() {
        return Ok(());
    }
    let range = element.range();
    line.push_str(" ")?;
    push_quoted(line, &text[range.start..range.end])
}

/// Adds what stands in the line of a node or leaf: its kind, its place, and a leaf's text.
#[tactic(auto, unfolding(crate::specs::TreeText::element_text))]
fn push_element(line: &mut String, text: &str, element: &Element) -> Result<(), AllocError>
    requires { IsPlace text.now element.now.start element.now.end }
    ensures { OnOk result (string_bytes line.new ≡ string_bytes line.old ++ element_text text.now element.now) }
{
    line.push_str(element.kind().name())?;
    line.push_str("@")?;
    push_number(line, element.start() as usize)?;
    line.push_str("..")?;
    push_number(line, element.end() as usize)?;
    push_leaf(line, text, element)?;
    line.push_str("\n")?;
    Ok(())
}

/// Two spaces for each of a few levels.
fn few_levels(levels: usize) -> &'static str
    requires { levels < 8 }
    ensures { result.now ≡ indent levels }
{
    match levels {
        0 => "",
        1 => "  ",
        2 => "    ",
        3 => "      ",
        4 => "        ",
        5 => "          ",
        6 => "            ",
        _ => "              ",
    }
}

/// Adds two spaces for each level.
#[tactic(auto, using(crate::proofs::TreeLines::indent_eight))]
fn push_indent(json: &mut String, levels: usize) -> Result<(), AllocError>
    ensures { OnOk result (string_bytes json.new ≡ string_bytes json.old ++ indent levels) }
{
    'eights: for _eight in 0..levels / 8 {
        json.push_str("                ")?;
    }
    json.push_str(few_levels(levels % 8))?;
    Ok(())
}

/// How many nodes the node or leaf with an index is in, if that is known of those before it.
fn depth_of(elements: &[Element], depths: &[usize], index: usize) -> usize
    requires order { ParentsComeFirst elements.now }
    requires within { index < length elements.now }
    requires before { AreDepths elements.now index depths.now }
    ensures { result ≡ depth_at elements.now index }
{
    if index == 0 {
        return 0;
    }
    depths[elements[index].parent() as usize] + 1
}

/// How many nodes each node and leaf is in.
fn depths_of(alloc: Global, elements: &[Element]) -> Result<Vec<usize>, AllocError>
    requires { ParentsComeFirst elements.now }
    ensures { IfOk result (λ depths. AreDepths elements.now (length elements.now) depths.items) }
{
    let mut depths: Vec<usize> = Vec::with_capacity(alloc, elements.len())?;
    for index in 0..elements.len() {
        let depth = depth_of(elements, depths.as_slice(), index);
        depths.push(depth)?;
    }
    Ok(depths)
}

/// What is left of so many bytes after those that a line takes between the quotes of a JSON string: that of a node or leaf
/// at a depth. `None` if it takes more. The line is written into the text given, without the spaces before it.
fn left_by_line(
    line: &mut String,
    text: &str,
    element: &Element,
    depth: usize,
    bytes: usize,
) -> Result<Option<usize>, AllocError>
    requires { IsPlace text.now element.now.start element.now.end }
    ensures some { IfOk result (λ found. IfSome found (λ left. left + (2 * depth + length (escape (element_text text.now element.now))) ≡ bytes)) }
    ensures none { IfOk result (λ found. IfNone found (bytes < 2 * depth + length (escape (element_text text.now element.now)))) }
{
    if bytes / 2 < depth {
        return Ok(None);
    }
    line.clear();
    push_element(line, text, element)?;
    Ok(left_by_text(bytes - 2 * depth, line.as_str()))
}

/// What is left of so many bytes after those that the lines of all nodes and leaves take between the quotes of a JSON
/// string. `None` if they take more. No more than one line at a time is written for that.
fn left_by_lines(
    alloc: Global,
    text: &str,
    elements: &[Element],
    depths: &[usize],
    bytes: usize,
) -> Result<Option<usize>, AllocError>
    requires places { HavePlaces text.now elements.now }
    requires depths { AreDepths elements.now (length elements.now) depths.now }
    ensures some { IfOk result (λ found. IfSome found (λ left. left + length (escape (tree_text text.now elements.now)) ≡ bytes)) }
    ensures none { IfOk result (λ found. IfNone found (bytes < length (escape (tree_text text.now elements.now)))) }
{
    let mut line = String::new(alloc);
    let mut left = bytes;
    for index in 0..elements.len() {
        let found = left_by_line(&mut line, text, &elements[index], depths[index], left)?;
        let Some(rest) = found else {
            return Ok(None);
        };
        left = rest;
    }
    Ok(Some(left))
}

/// Adds a line as it stands between the quotes of a JSON string: that of a node or leaf at a depth. It is written into the
/// text given first, without the spaces before it.
fn push_line(
    json: &mut String,
    line: &mut String,
    text: &str,
    element: &Element,
    depth: usize,
) -> Result<(), AllocError>
    requires { IsPlace text.now element.now.start element.now.end }
    ensures { OnOk result (string_bytes json.new ≡ string_bytes json.old ++ (indent depth ++ escape (element_text text.now element.now))) }
{
    push_indent(json, depth)?;
    line.clear();
    push_element(line, text, element)?;
    push_escaped(json, line.as_str())
}

/// Adds the lines of all nodes and leaves as they stand between the quotes of a JSON string.
fn push_lines(
    alloc: Global,
    json: &mut String,
    text: &str,
    elements: &[Element],
    depths: &[usize],
) -> Result<(), AllocError>
    requires places { HavePlaces text.now elements.now }
    requires depths { AreDepths elements.now (length elements.now) depths.now }
    ensures { OnOk result (string_bytes json.new ≡ string_bytes json.old ++ escape (tree_text text.now elements.now)) }
{
    let mut line = String::new(alloc);
    for index in 0..elements.len() {
        push_line(json, &mut line, text, &elements[index], depths[index])?;
    }
    Ok(())
}

/// The lines of the tree of a text with the place of each node and leaf, as a JSON string. `None` if that is longer than
/// the limit: its length is counted before any of it is written, and memory is asked for once, for all of it. The error
/// means out of memory.
pub fn tree_string(
    alloc: Global,
    text: &str,
    elements: &[Element],
) -> Result<Option<String>, AllocError>
    requires places { HavePlaces text.now elements.now }
    requires order { ParentsComeFirst elements.now }
    ensures text { IfOk result (λ made. IfSome made (λ json. string_bytes json ≡ string_text (tree_text text.now elements.now))) }
    ensures within { IfOk result (λ made. IfSome made (λ json. length (string_bytes json) ≤ LIMIT)) }
    ensures longer { IfOk result (λ made. IfNone made (LIMIT < length (string_text (tree_text text.now elements.now)))) }
{
    let depths = depths_of(alloc, elements)?;
    let found = left_by_lines(alloc, text, elements, depths.as_slice(), LIMIT - 2)?;
    let Some(left) = found else {
        return Ok(None);
    };
    let mut json = String::with_capacity(alloc, LIMIT - left)?;
    json.push_str("\"")?;
    push_lines(alloc, &mut json, text, elements, depths.as_slice())?;
    json.push_str("\"")?;
    Ok(Some(json))
}
