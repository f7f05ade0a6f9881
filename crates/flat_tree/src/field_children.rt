//! The children of a field, one after another.
ghost use Rattle.std.specs.Prelude.{◌≡◌};
ghost use Rattle.rap_fields.specs.Rule.{fitting, look_of};
ghost use Rattle.flat_tree.specs.FieldChild.{kind_in, those};
ghost use Rattle.flat_tree.specs.Order.{PassesForward};

use crate::children::Children;
use crate::element::Element;
use crate::fields::kind_in;
use rap_fields::rule::{Place, Step, Which};
use std::marker::Model;

/// The children of a field that are still to come. Contracts see the list of their indices.
#[derive(Drop)]
pub struct FieldChildren<'a> {
    elements: &'a [Element],
    one: Option<u32>,
    children: Children<'a>,
    step: Step,
    mark: Option<u32>,
}

impl<'a> Model for FieldChildren<'a> {
    ghost use Rattle.std.specs.Prelude.{ℕ, List, ◌++◌};
    ghost use Rattle.rap_fields.specs.Rule.{fitting, look_of};
    ghost use Rattle.flat_tree.specs.FieldChild.{kind_in, those};

    ghost Value = { List ℕ };

    ghost view = { λ c. those c.one ++ fitting (kind_in c.elements.now) c.mark (look_of c.step) c.children };
}

impl<'a> FieldChildren<'a> {
    /// One child, or none.
    pub(crate) fn of_one(elements: &'a [Element], one: Option<u32>) -> FieldChildren<'a>
        requires { PassesForward elements.now }
        ensures { result ≡ those one }
    {
        FieldChildren {
            elements,
            one,
            children: Children::none(elements),
            step: Step {
                place: Place::Anywhere,
                which: Which::All,
                kinds: &[],
            },
            mark: None,
        }
    }

    /// Those of some children that fit a step.
    pub(crate) fn fitting(
        elements: &'a [Element],
        children: Children<'a>,
        step: Step,
        mark: Option<u32>,
    ) -> FieldChildren<'a>
        ensures { result ≡ fitting (kind_in elements.now) mark (look_of step) children.entry }
    {
        FieldChildren {
            elements,
            one: None,
            children,
            step,
            mark,
        }
    }
}

impl<'a> Iterator for FieldChildren<'a> {
    ghost use Rattle.std.specs.Iterator.{YieldsFirst, item_count};

    type Item = u32;

    ghost next_gives = { YieldsFirst (λ indices. indices) };

    ghost remaining = { item_count (λ indices. indices) };

    fn next(&mut self) -> Option<u32> {
        if let Some(child) = self.one {
            self.one = None;
            return Some(child);
        }
        'children: while let Some(child) = self.children.next() {
            if self
                .step
                .fits(self.mark, kind_in(self.elements, child), child)
            {
                return Some(child);
            }
        }
        None
    }
}
