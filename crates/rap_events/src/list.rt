//! Lists that grow seldom.
ghost use Rattle.std.specs.Prelude.{◌≡◌, ◌<◌, IsTrue, is_ok, if◌then◌else◌, [], ◌∷◌, ◌++◌, vec_len, vec_capacity};

use rap_base::no_memory::NoMemory;
use std::mem::replace;

/// For how many items a list gets room that had none: short lists then grow once.
const FIRST_ROOM: usize = 64;

/// Adds an item at the end. If memory is refused, the list is as before.
///
/// A list that must grow is moved out and back in, so nothing but a copy of it is lent: a caller can keep the list's
/// length and address in registers.
#[inline(always)]
pub(crate) fn push<T: Copy>(list: &mut Vec<T>, item: T) -> Result<(), NoMemory>
    ensures items { list.new.items ≡ (if is_ok result then list.old.items ++ item ∷ [] else list.old.items) }
{
    if list.len() == list.capacity() {
        let empty = Vec::new(*list.allocator());
        let (roomier, is_grown) = with_room(replace(list, empty));
        *list = roomier;
        if !is_grown {
            return Err(NoMemory);
        }
    }
    list.push_reserved(item);
    Ok(())
}

/// Adds an item at the end of a list that stays where it is. An empty list is given room for `expected` items at once.
/// If memory is refused, the list is as before.
///
/// The list grows in a call that ends the caller, so a caller that does no more than this needs no frame.
#[inline(always)]
pub(crate) fn push_in_place<T: Copy>(
    list: &mut Vec<T>,
    item: T,
    expected: usize,
) -> Result<(), NoMemory>
    ensures items { list.new.items ≡ (if is_ok result then list.old.items ++ item ∷ [] else list.old.items) }
{
    if list.len() < list.capacity() {
        list.push_reserved(item);
        return Ok(());
    }
    push_growing(list, item, expected)
}

// The same for a list that must grow.
#[cold]
#[inline(never)]
fn push_growing<T: Copy>(list: &mut Vec<T>, item: T, expected: usize) -> Result<(), NoMemory>
    ensures items { list.new.items ≡ (if is_ok result then list.old.items ++ item ∷ [] else list.old.items) }
{
    let more = if list.is_empty() { expected } else { 1 };
    list.reserve(more)?;
    list.push(item)?;
    Ok(())
}

// The list with room for one more item, and whether memory was left for that. An empty list gets room for more at once.
#[cold]
#[inline(never)]
fn with_room<T: Copy>(list: Vec<T>) -> (Vec<T>, bool)
    ensures items { result.0.items ≡ list.items }
    ensures room { IsTrue result.1 → vec_len result.0 < vec_capacity result.0 }
{
    let mut roomier = list;
    let more = if roomier.is_empty() { FIRST_ROOM } else { 1 };
    let is_grown = roomier.reserve(more).is_ok();
    (roomier, is_grown)
}
