//! The children of a node by its fields.
ghost use Rattle.std.specs.Prelude.{◌≡◌, None, map};
ghost use Rattle.std.specs.List.{last_or, slice_get};
ghost use Rattle.rap_fields.specs.Rule.{fitting, found, look_of, one_of};
ghost use Rattle.rap_ranged.specs.RangedForest.{RangedNode};
ghost use Rattle.flat_tree.specs.FieldChild.{field_child, field_children, kind_in};
ghost use Rattle.flat_tree.specs.FlatTree.{elements_of_tree};
ghost use Rattle.flat_tree.specs.Navigation.{child_indices};

use crate::element::Element;
use crate::field_children::FieldChildren;
use crate::tree::FlatTree;
use rap_base::syntax_kind::SyntaxKind;
use rap_fields::field::Field;
use rap_fields::rule::{Step, Which};

/// The kind of the element with this index; `EOF`, which no element has, where there is none.
pub(crate) fn kind_in(elements: &[Element], index: u32) -> SyntaxKind
    ensures { result ≡ kind_in elements.now index }
{
    match elements.get(index as usize) {
        Some(element) => element.kind(),
        None => SyntaxKind::EOF,
    }
}

impl FlatTree<'_> {
    /// The index of the child of a field: the one child, or the first of several. `None` exactly if no child is there,
    /// or a node of its kind does not have the field, or no element has the index.
    ///
    /// The rule of the field says which child that is ([`Field::rule`]), in broken texts too. Whether it can be missing
    /// where nothing is wrong right under the node is in docs/NODES.md.
    pub fn field(&self, index: u32, field: Field) -> Option<u32>
        ensures { (root : RangedNode) → self.now.elements.items ≡ elements_of_tree root
            → result ≡ field_child self.now.elements.items root index field }
    {
        self.found_by(index, field.rule(kind_in(self.elements(), index)))
    }

    /// The indices of the children of a field, in order: all of a field that may have several, and else the one that
    /// [`FlatTree::field`] finds. No memory is allocated.
    pub fn field_children(&self, index: u32, field: Field) -> FieldChildren<'_>
        ensures { (root : RangedNode) → self.now.elements.items ≡ elements_of_tree root
            → result ≡ field_children self.now.elements.items root index field }
    {
        let elements = self.elements();
        let rule = field.rule(kind_in(elements, index));
        if rule.len() == 0 {
            return FieldChildren::of_one(elements, None);
        }
        let last = rule.len() - 1;
        let mark = self.found_by(index, &rule[..last]);
        match rule[last].which {
            Which::All => FieldChildren::fitting(elements, self.children(index), rule[last], mark),
            Which::First => FieldChildren::of_one(elements, self.looked(index, &rule[last], mark)),
            Which::Last => FieldChildren::of_one(elements, self.looked(index, &rule[last], mark)),
        }
    }

    /// What the steps of a rule find among the children, one after another. `None` also without a step.
    pub fn found_by(&self, index: u32, rule: &[Step]) -> Option<u32>
        ensures { (root : RangedNode) → self.now.elements.items ≡ elements_of_tree root
            → result ≡ found (kind_in self.now.elements.items) None (map look_of rule.now) (child_indices root index) }
    {
        let mut found = None;
        'steps: for step in rule {
            found = self.looked(index, step, found);
        }
        found
    }

    /// The child that a step finds, where the step before has found `mark`.
    fn looked(&self, index: u32, step: &Step, mark: Option<u32>) -> Option<u32>
        ensures { (root : RangedNode) → self.now.elements.items ≡ elements_of_tree root
            → result ≡ one_of step.now.which
            (fitting (kind_in self.now.elements.items) mark (look_of step.now) (child_indices root index)) }
    {
        match step.which {
            Which::First => self.first_fitting(index, step, mark),
            Which::Last => self.last_fitting(index, step, mark),
            Which::All => self.first_fitting(index, step, mark),
        }
    }

    /// The first of the children that fit a step.
    fn first_fitting(&self, index: u32, step: &Step, mark: Option<u32>) -> Option<u32>
        ensures { (root : RangedNode) → self.now.elements.items ≡ elements_of_tree root
            → result ≡ slice_get
            (fitting (kind_in self.now.elements.items) mark (look_of step.now) (child_indices root index)) 0 }
    {
        for child in self.children(index) {
            if step.fits(mark, kind_in(self.elements(), child), child) {
                return Some(child);
            }
        }
        None
    }

    /// The last of the children that fit a step.
    fn last_fitting(&self, index: u32, step: &Step, mark: Option<u32>) -> Option<u32>
        ensures { (root : RangedNode) → self.now.elements.items ≡ elements_of_tree root
            → result ≡ last_or None
            (fitting (kind_in self.now.elements.items) mark (look_of step.now) (child_indices root index)) }
    {
        let mut last = None;
        'children: for child in self.children(index) {
            if step.fits(mark, kind_in(self.elements(), child), child) {
                last = Some(child);
            }
        }
        last
    }
}
