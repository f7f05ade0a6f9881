//! The leaf that holds a byte.
ghost use Rattle.std.specs.Prelude.{◌≡◌, ℕ, ◌+◌, ◌<◌, ◌≤◌, Some, length, option_copied};
ghost use Rattle.std.specs.List.{slice_get};
ghost use Rattle.rap_lexed.specs.StrForest.{StrForest};
ghost use Rattle.rap_ranged.specs.Ranged.{Ranged};
ghost use Rattle.rap_ranged.specs.RangedForest.{RangedNode};
ghost use Rattle.flat_tree.specs.ByteLeaf.{EndsBegun, IsLeafAt};
ghost use Rattle.flat_tree.specs.FlatTree.{elements_of_tree};
ghost use Rattle.flat_tree.specs.declared.element.Element.{Element};

use crate::element::Element;
use crate::tree::FlatTree;

/// The element with this index, if one has it.
#[inline(always)]
pub(crate) fn element_of(elements: &[Element], index: u32) -> Option<&Element>
    ensures { option_copied result ≡ slice_get elements.now index }
{
    elements.get(index as usize)
}

/// Where the element with this index ends.
#[inline(always)]
pub(crate) fn end_at(elements: &[Element], index: u32) -> usize
    requires { index < length elements.now }
    ensures { (e : Element) → slice_get elements.now index ≡ Some e → result ≡ e.end }
{
    elements[index as usize].end() as usize
}

/// The index of the node that the element with this index is in.
#[inline(always)]
pub(crate) fn parent_at(elements: &[Element], index: u32) -> u32
    requires { index < length elements.now }
    ensures { (e : Element) → slice_get elements.now index ≡ Some e → result ≡ e.parent }
{
    elements[index as usize].parent()
}

/// How many elements begin at a byte or before, if they are in the order of their beginnings: by bisection.
pub(crate) fn begun_at(elements: &[Element], offset: usize) -> usize
    ensures { EndsBegun elements.now offset result }
{
    begun_between(elements, offset, 0, elements.len())
}

/// The same where it is known that they are so many at least, and so many at most.
pub(crate) fn begun_between(elements: &[Element], offset: usize, least: usize, most: usize) -> usize
    requires ordered { least ≤ most }
    requires bound { most ≤ length elements.now }
    requires before { (e : Element) (i : ℕ) → i + 1 ≡ least → slice_get elements.now i ≡ Some e → e.start ≤ offset }
    requires later { (e : Element) → slice_get elements.now most ≡ Some e → offset < e.start }
    ensures { EndsBegun elements.now offset result }
{
    let mut low = least;
    let mut high = most;
    'halves: while low < high {
        let middle = low + (high - low) / 2;
        if elements[middle].start() as usize <= offset {
            low = middle + 1;
        } else {
            high = middle;
        }
    }
    low
}

/// The same where they are about so many: in steps that grow from there, and by bisection where a step was too long. Far
/// from there it takes about twice the steps of a bisection.
pub(crate) fn begun_near(elements: &[Element], offset: usize, near: usize) -> usize
    ensures { EndsBegun elements.now offset result }
{
    if near == 0 || near > elements.len() {
        return begun_at(elements, offset);
    }
    if elements[near - 1].start() as usize > offset {
        return begun_at(elements, offset);
    }
    let mut low = near;
    let mut step = 1usize;
    'steps: while step <= elements.len() - low {
        let last = low + step - 1;
        if elements[last].start() as usize > offset {
            return begun_between(elements, offset, low, last);
        }
        low = last + 1;
        step = step.saturating_mul(2);
    }
    begun_between(elements, offset, low, elements.len())
}

/// The index of the leaf that holds the byte at this offset, of the elements of a tree: what [`FlatTree::leaf_at`] gives
/// of the tree. It is the last element that begins there or before, if it ends after it.
pub fn leaf_of(elements: &[Element], offset: usize) -> Option<u32>
    ensures { (f : StrForest) (root : RangedNode) → Ranged f root → elements.now ≡ elements_of_tree root → IsLeafAt root offset result }
{
    leaf_before(elements, offset, begun_at(elements, offset))
}

/// The same where it is known how many elements begin at the byte or before.
pub(crate) fn leaf_before(elements: &[Element], offset: usize, count: usize) -> Option<u32>
    requires { EndsBegun elements.now offset count }
    ensures { (f : StrForest) (root : RangedNode) → Ranged f root → elements.now ≡ elements_of_tree root → IsLeafAt root offset result }
{
    let whole = elements.first()?.after() as usize;
    if count == 0 {
        return None;
    }
    let index = count - 1;
    if index >= whole {
        return None;
    }
    if offset < elements[index].end() as usize {
        Some(index as u32)
    } else {
        None
    }
}

impl FlatTree<'_> {
    /// The index of the leaf that holds the byte at this offset in the text: the one that begins there or before, and
    /// ends after it. `None` exactly at the end of the text and after it. It is found by bisection, and no memory is
    /// allocated.
    pub fn leaf_at(&self, offset: usize) -> Option<u32>
        ensures { (f : StrForest) (root : RangedNode) → Ranged f root → self.now.elements.items ≡ elements_of_tree root → IsLeafAt root offset result }
    {
        leaf_of(self.elements(), offset)
    }
}
