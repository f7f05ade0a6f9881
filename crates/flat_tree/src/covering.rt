//! The smallest node or leaf that holds a range.
ghost use Rattle.std.specs.Prelude.{◌≡◌, ◌+◌, ◌<◌, ◌↔◌, None, MatchOption};
ghost use Rattle.rap_lexed.specs.StrForest.{StrForest};
ghost use Rattle.rap_ranged.specs.Covering.{smallest_holding};
ghost use Rattle.rap_ranged.specs.Ranged.{Ranged};
ghost use Rattle.rap_ranged.specs.RangedForest.{RangedNode, alone};
ghost use Rattle.flat_tree.specs.ByteLeaf.{EndsBegun};
ghost use Rattle.flat_tree.specs.CoveringIndex.{IsSmallest};
ghost use Rattle.flat_tree.specs.FlatTree.{elements_of_tree};

use crate::leaf_at::{begun_at, end_at, parent_at};
use crate::tree::FlatTree;
use std::ops::Range;

impl FlatTree<'_> {
    /// The index of the smallest node or leaf that holds a range of bytes: of those that begin where it begins or
    /// before, and end where it ends or after, the last one in preorder. None of the others is inside it. Of two leaves
    /// between which an empty range is, it is the second one. `None` exactly if the range ends after the root does. The
    /// last element that begins early enough is found by bisection, and from there on it climbs; no memory is allocated.
    pub fn covering(&self, range: Range<usize>) -> Option<u32>
        ensures element { (f : StrForest) (root : RangedNode) → Ranged f root → self.now.elements.items ≡ elements_of_tree root
            → MatchOption result (smallest_holding range.start range.end (alone root) ≡ None) (IsSmallest root range.start range.end) }
        ensures none { (f : StrForest) (root : RangedNode) → Ranged f root → self.now.elements.items ≡ elements_of_tree root
            → (result ≡ None) ↔ (root.end < range.end) }
    {
        let elements = self.elements();
        let mut index = self.last_begun(range.start)?;
        'up: while end_at(elements, index) < range.end {
            if index == 0 {
                return None;
            }
            index = parent_at(elements, index);
        }
        Some(index)
    }

    /// The index of the last element that begins at a byte or before, if there is one.
    fn last_begun(&self, offset: usize) -> Option<u32>
        ensures { MatchOption result (EndsBegun self.now.elements.items offset 0) (λ i. EndsBegun self.now.elements.items offset (i + 1)) }
    {
        let elements = self.elements();
        let begun = begun_at(elements, offset);
        if begun == 0 {
            return None;
        }
        let index = begun - 1;
        // For the proof: it fits its type.
        let _after = elements[index].after();
        Some(index as u32)
    }
}
