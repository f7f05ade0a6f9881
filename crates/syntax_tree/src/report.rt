//! Messages whose place is not known yet.
ghost use Rattle.std.specs.Prelude.{◌≡◌, ◌≤◌, IfOk, map};
ghost use Rattle.syntax_tree.specs.InRow.{InRow};
ghost use Rattle.syntax_tree.specs.RangedMessages.{ranged_message};

use crate::leaf_at::leaf_below;
use crate::node::Node;
use rap_base::no_memory::NoMemory;
use rap_ranged::message::Message;
use rap_ranged::report::Report;
use std::alloc::Global;

/// The message with the range of the leaf at its position below a node.
fn placed(report: Report, root: &Node) -> Message
    requires row { InRow root.now.start root.now.children root.now.end }
    requires begins { root.now.start ≡ 0 }
    ensures { result ≡ ranged_message root.now.children report }
{
    let at = report.position();
    let range = match leaf_below(root, at) {
        Some(leaf) => leaf.range(),
        None => at..at,
    };
    report.placed(range)
}

/// The messages with their places below a node.
pub(crate) fn all_placed(
    alloc: Global,
    reports: Vec<Report>,
    root: &Node,
) -> Result<Vec<Message>, NoMemory>
    requires row { InRow root.now.start root.now.children root.now.end }
    requires begins { root.now.start ≡ 0 }
    ensures { IfOk result (λ messages. messages.items ≡ map (ranged_message root.now.children) reports.items) }
{
    let mut messages = Vec::with_capacity(alloc, reports.len())?;
    'reports: for report in reports {
        messages.push(placed(report, root))?;
    }
    Ok(messages)
}
