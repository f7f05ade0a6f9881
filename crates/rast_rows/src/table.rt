//! Tables of texts with their trees and messages.
//!
//! A line `@ ENTRY EDITION` says how the texts below it are read. Each text is between `«` and `»`; after it
//! is its tree, on any number of lines, and each message in a line of its own after a bar, with its place in bytes, a
//! further line of a message after two bars. Text after `# ` is a comment.
use crate::notation::{spelled_out, with_line_feeds};
use ra_ap_parser::{Edition, TopEntryPoint};
use rast_print::entry::Entry;
use std::alloc::{AllocError, Global};

/// The expected result of a text.
#[derive(Drop)]
pub struct Row {
    pub text: String,
    pub tree: String,
    pub messages: String,
}

/// How the texts of a table are read, and the table. `None` if the first line is different.
pub fn read_head(section: &str) -> Option<(Edition, TopEntryPoint, &str)> {
    let (head, table) = section.split_once('\n')?;
    let (entry, year) = head.split_once(' ')?;
    let edition = year.parse::<Edition>().ok()?;
    let Entry(entry) = entry.parse::<Entry>().ok()?;
    Some((edition, entry, table))
}

/// Reads the tree and the messages from their lines.
fn tree_and_messages(alloc: Global, lines: &str) -> Result<(String, String), AllocError> {
    let mut tree = String::new(alloc);
    let mut messages = String::new(alloc);
    for line in lines.lines() {
        let line = line.trim();
        if let Some(rest) = line.strip_prefix("||") {
            messages.push_str("\n")?;
            messages.push_str(rest)?;
        } else if line.starts_with('|') {
            messages.push_str(line)?;
        } else if !line.is_empty() && !line.starts_with("# ") {
            if !tree.is_empty() {
                tree.push_str(" ")?;
            }
            tree.push_str(line)?;
        }
    }
    Ok((tree, messages))
}

/// A row, from its text on. `None` if the text has no end.
pub fn read_row(alloc: Global, row: &str) -> Result<Option<Row>, AllocError> {
    let Some((text, lines)) = row.split_once('»') else {
        return Ok(None);
    };
    let text = with_line_feeds(alloc, text)?;
    let (tree, messages) = tree_and_messages(alloc, lines)?;
    let tree = with_line_feeds(alloc, tree.as_str())?;
    let tree = spelled_out(alloc, tree.as_str())?;
    Ok(Some(Row {
        text,
        tree,
        messages,
    }))
}
