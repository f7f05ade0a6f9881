//! Trees that are looked at: owned trees with their nodes, what stands at a place, what is around it, and the lines that
//! show a tree.

use crate::digest::{Digest, number};
use crate::failure::Failure;
use crate::files::add_tree;
use crate::texts::Maker;
use flat_tree::FlatTree;
use ra_ap_parser::{Edition, NoMemory, TextFault, TopEntryPoint};
use rast_print::print_text::print_text;
use std::alloc::Global;
use std::io;
use syntax_tree::Tree;

/// How many places of a text are asked for.
const PLACES: u64 = 2_000;

impl io::Write for Digest {
    fn write(&mut self, bytes: &[u8]) -> io::Result<usize> {
        self.count(bytes.len());
        self.add_bytes(bytes);
        Ok(bytes.len())
    }

    fn flush(&mut self) -> io::Result<()> {
        Ok(())
    }
}

/// Goes through an owned tree with its leaves and messages, and asks it for places.
fn ask_tree(
    alloc: Global,
    maker: &mut Maker<'_>,
    text: &str,
    digest: &mut Digest,
) -> Result<(), Failure> {
    let tree = Tree::of_text(alloc, Edition::CURRENT, TopEntryPoint::SourceFile, text)?;
    for node in tree.root().descendants(alloc)? {
        digest.count(1);
        digest.add_range(number(node.kind()), node.range());
        digest.add(node.children().len() as u64);
    }
    for leaf in tree.root().leaves(alloc)? {
        digest.add_range(number(leaf.kind()), leaf.range());
    }
    for message in tree.messages() {
        digest.add_range(message.position() as u64, message.range());
        digest.add_bytes(message.text().as_bytes());
    }
    for _ in 0..PLACES {
        let offset = maker.random.below(text.len() as u64 + 1) as usize;
        if let Some(leaf) = tree.leaf_at(offset) {
            digest.add_range(number(leaf.kind()), leaf.range());
        }
        let end = offset.saturating_add(maker.random.below(200) as usize);
        if let Some(element) = tree.covering(offset..end) {
            digest.add_range(number(element.kind()), element.range());
        }
    }
    Ok(())
}

/// Goes through a flat tree with its messages, and asks it for places, and what is around them.
fn ask_flat_tree(
    alloc: Global,
    maker: &mut Maker<'_>,
    text: &str,
    digest: &mut Digest,
) -> Result<(), Failure> {
    let tree = FlatTree::of_text(alloc, Edition::CURRENT, TopEntryPoint::SourceFile, text)?;
    add_tree(digest, &tree);
    for _ in 0..PLACES {
        let offset = maker.random.below(text.len() as u64 + 1) as usize;
        if let Some(leaf) = tree.leaf_at(offset) {
            for index in tree.ancestors(leaf) {
                digest.add(index as u64);
            }
        }
        let end = offset.saturating_add(maker.random.below(200) as usize);
        if let Some(index) = tree.covering(offset..end) {
            for child in tree.children(index).take(10) {
                digest.add(child as u64);
            }
        }
    }
    Ok(())
}

/// Prints a tree.
fn print(alloc: Global, text: &str, digest: &mut Digest) -> Result<(), Failure> {
    let printed: Result<_, TextFault<NoMemory>> = print_text(
        alloc,
        Edition::CURRENT,
        TopEntryPoint::SourceFile,
        text,
    );
    let printer = printed?;
    if printer.tree.write_to(digest).is_err() {
        return Err(Failure);
    }
    digest.add_bytes(printer.messages.as_bytes());
    Ok(())
}

/// Makes so many texts of 20 to 200 KB, and looks at each in one of three ways.
pub fn run(
    alloc: Global,
    maker: &mut Maker<'_>,
    count: u64,
    digest: &mut Digest,
) -> Result<(), Failure> {
    let mut text = String::new(alloc);
    for i in 0..count {
        text.clear();
        let size = maker.random.below(180_000).saturating_add(20_000);
        maker.push_file(&mut text, size)?;
        digest.add_text(text.len());
        match i % 3 {
            0 => ask_tree(alloc, maker, text.as_str(), digest)?,
            1 => ask_flat_tree(alloc, maker, text.as_str(), digest)?,
            _ => print(alloc, text.as_str(), digest)?,
        }
    }
    Ok(())
}
