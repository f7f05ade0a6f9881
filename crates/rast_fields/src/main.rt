//! `rast_fields EDITION ENTRY FILE` prints what the fields of the nodes of a file's tree find.
#![tactic(auto)]

use flat_tree::{Field, FlatTree};
use ra_ap_parser::{Edition, NoMemory, TopEntryPoint};
use rast_common::fault::{Fault, exit_code, report};
use rast_common::show::finish;
use rast_print::print_text::fault_of;
use rast_print::request::read_tree_request;
use std::alloc::Global;
use std::fmt::Write as _;
use std::fs;
use std::process::ExitCode;

const USAGE: &str = "usage: rast_fields EDITION ENTRY FILE\n";

const UNREADABLE: &str = "rast_fields: cannot read the file\n";

/// Adds a line for each child that a field of a node finds: the index of the node, the field's name, and the index of
/// the child. The fields of a node stand in the order of their names.
fn add_lines(lines: &mut String, tree: &FlatTree<'_>, index: u32) -> Result<(), NoMemory> {
    for number in 1..=u16::from(Field::YIELD_TOKEN) {
        if let Some(field) = Field::of_number(number) {
            for child in tree.field_children(index, field) {
                writeln!(lines, "{index} {} {child}", field.name())?;
            }
        }
    }
    Ok(())
}

/// The lines of all nodes of a text's tree. The error is why it has none.
fn lines_of(
    alloc: Global,
    edition: Edition,
    entry: TopEntryPoint,
    text: &str,
) -> Result<String, Fault> {
    let tree = match FlatTree::of_text(alloc, edition, entry, text) {
        Ok(tree) => tree,
        Err(fault) => return Err(fault_of(&fault)),
    };
    let Ok(count) = u32::try_from(tree.elements().len()) else {
        return Err(Fault::TooManyTokens);
    };
    let mut lines = String::new(alloc);
    for index in 0..count {
        let Ok(()) = add_lines(&mut lines, &tree, index) else {
            return Err(Fault::NoMemory);
        };
    }
    Ok(lines)
}

fn main(rt: HostRuntime) -> ExitCode {
    let mut err = rt.stderr();
    let Some((request, false)) = read_tree_request(&rt, "") else {
        return exit_code(report(&mut err, USAGE));
    };
    let Ok(text) = fs::read_to_string(&rt, request.file.as_str()) else {
        return exit_code(report(&mut err, UNREADABLE));
    };
    let lines = lines_of(rt.alloc(), request.edition, request.entry, text.as_str());
    exit_code(finish("rast_fields", lines, &mut rt.stdout(), &mut err))
}
