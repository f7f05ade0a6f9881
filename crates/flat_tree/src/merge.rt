//! Messages of two lists in the order of the text.
ghost use Rattle.std.specs.Prelude.{◌≡◌, ◌++◌, IfOk, OnOk, drop, reverse};
ghost use Rattle.std.specs.List.{prefix_len, take_while};
ghost use Rattle.rap_ranged.specs.MergedMessages.{is_before, merged};

use rap_base::no_memory::NoMemory;
use rap_ranged::message::Message;
use std::alloc::Global;

/// The messages of both lists in the order of their positions: of two at one position that of the first list comes
/// first.
pub(crate) fn merge(
    alloc: Global,
    first: Vec<Message>,
    second: Vec<Message>,
) -> Result<Vec<Message>, NoMemory>
    ensures { IfOk result (λ messages. messages.items ≡ merged first.items second.items) }
{
    if second.is_empty() {
        return Ok(first);
    }
    let mut others = second;
    others.reverse();
    let mut messages = Vec::with_capacity(alloc, first.len().saturating_add(others.len()))?;
    'first: for message in first {
        move_before(message.position(), &mut others, &mut messages)?;
        messages.push(message)?;
    }
    move_all(others, &mut messages)?;
    Ok(messages)
}

/// Moves the messages before a byte from the end of a list to that of another, as far as none at or after the byte
/// stands between them.
fn move_before(
    at: usize,
    others: &mut Vec<Message>,
    messages: &mut Vec<Message>,
) -> Result<(), NoMemory>
    ensures moved { OnOk result (messages.new.items ≡ messages.old.items ++ take_while (is_before at) (reverse others.old.items)) }
    ensures others { OnOk result (reverse others.new.items ≡ drop (prefix_len (is_before at) (reverse others.old.items)) (reverse others.old.items)) }
{
    'others: while let Some(other) = others.pop() {
        if other.position() >= at {
            others.push_reserved(other);
            break;
        }
        messages.push(other)?;
    }
    Ok(())
}

/// Moves the messages of a list to the end of another, the last one first.
fn move_all(others: Vec<Message>, messages: &mut Vec<Message>) -> Result<(), NoMemory>
    ensures { OnOk result (messages.new.items ≡ messages.old.items ++ reverse others.items) }
{
    let mut others = others;
    'others: while let Some(other) = others.pop() {
        messages.push(other)?;
    }
    Ok(())
}
