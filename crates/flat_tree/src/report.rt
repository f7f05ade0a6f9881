//! Messages whose place is not known yet.
ghost use Rattle.std.specs.Prelude.{◌≡◌, IfOk, Some, map};
ghost use Rattle.std.specs.List.{slice_get};
ghost use Rattle.flat_tree.specs.declared.element.Element.{Element};
ghost use Rattle.rap_lexed.specs.StrForest.{StrForest};
ghost use Rattle.rap_ranged.specs.MergedMessages.{merged};
ghost use Rattle.rap_ranged.specs.Ranged.{Ranged};
ghost use Rattle.rap_ranged.specs.RangedForest.{RangedNode};
ghost use Rattle.rap_ranged.specs.RangedMessages.{ranged_message};
ghost use Rattle.flat_tree.specs.ByteLeaf.{EndsBegun};
ghost use Rattle.flat_tree.specs.FlatTree.{elements_of_tree};

use crate::element::Element;
use crate::leaf_at::{begun_near, element_of, leaf_before};
use crate::merge::merge;
use rap_base::no_memory::NoMemory;
use rap_ranged::message::Message;
use rap_ranged::report::Report;
use std::alloc::Global;
use std::ops::Range;

/// The message with the range of the leaf at its position. So many elements begin there or before.
fn placed(report: Report, elements: &[Element], begun: usize) -> Message
    requires { EndsBegun elements.now report.at begun }
    ensures { (f : StrForest) (root : RangedNode) → Ranged f root → elements.now ≡ elements_of_tree root → result ≡ ranged_message root.children report }
{
    let at = report.position();
    match leaf_before(elements, at, begun) {
        Some(index) => {
            let range = place_of(elements, index, at);
            report.placed(range)
        }
        None => report.placed(at..at),
    }
}

/// The place of the element with this index; where none has it, an empty one at this byte.
fn place_of(elements: &[Element], index: u32, at: usize) -> Range<usize>
    ensures start { (e : Element) → slice_get elements.now index ≡ Some e → result.start ≡ e.start }
    ensures end { (e : Element) → slice_get elements.now index ≡ Some e → result.end ≡ e.end }
{
    match element_of(elements, index) {
        Some(element) => element.range(),
        None => at..at,
    }
}

/// The messages of the parser and those of the lexer in the order of their positions, with their places.
pub(crate) fn all_messages(
    alloc: Global,
    of_parser: Vec<Report>,
    of_lexer: Vec<Report>,
    elements: &[Element],
) -> Result<Vec<Message>, NoMemory>
    ensures { (f : StrForest) (root : RangedNode) → Ranged f root → elements.now ≡ elements_of_tree root
        → IfOk result (λ messages. messages.items ≡ merged (map (ranged_message root.children) of_parser.items) (map (ranged_message root.children) of_lexer.items)) }
{
    let first = all_placed(alloc, of_parser, elements)?;
    let second = all_placed(alloc, of_lexer, elements)?;
    merge(alloc, first, second)
}

/// The messages with their places. Most come in the order of their positions, so a place is looked for from the last one.
fn all_placed(
    alloc: Global,
    reports: Vec<Report>,
    elements: &[Element],
) -> Result<Vec<Message>, NoMemory>
    ensures { (f : StrForest) (root : RangedNode) → Ranged f root → elements.now ≡ elements_of_tree root
        → IfOk result (λ messages. messages.items ≡ map (ranged_message root.children) reports.items) }
{
    let mut messages = Vec::with_capacity(alloc, reports.len())?;
    let mut begun = 0;
    'reports: for report in reports {
        begun = begun_near(elements, report.position(), begun);
        messages.push(placed(report, elements, begun))?;
    }
    Ok(messages)
}
