//! Lists that share what stands before, and that are let go all at once.
ghost use Rattle.std.specs.Prelude.{◌≡◌, ◌==◌, List, [], ◌∷◌, ◌++◌, length, take, slice_get, Some, IfOk, OnOk, if◌then◌else◌};
ghost use Rattle.rap_grammar_rows.specs.declared.search.list.Link.{Link};

use rap_base::no_memory::NoMemory;
use std::alloc::Global;

/// What stands in a list.
#[derive(Clone, Copy)]
pub enum Item {
    /// Nothing: below the first one.
    Bottom,
    /// The outermost of the nodes that stand around an open one.
    Around(usize),
    /// A test that must not hold before this token.
    Guard(u16, usize),
}

/// An item, and the list behind it.
#[derive(Clone, Copy)]
struct Link {
    item: Item,
    rest: usize,
}

/// Lists by their numbers; 0 is the empty one.
#[derive(Drop)]
pub struct Lists {
    links: Vec<Link>,
}

impl Lists {
    /// The empty list alone.
    pub fn new(alloc: Global) -> Result<Lists, NoMemory> {
        let mut links = Vec::new(alloc);
        links.push(Link {
            item: Item::Bottom,
            rest: 0,
        })?;
        Ok(Lists { links })
    }

    /// The list with an item before another one.
    pub fn put(&mut self, item: Item, rest: usize) -> Result<usize, NoMemory>
        ensures number { IfOk result (λ number. number ≡ length self.old.links.items) }
        ensures put { OnOk result (self.new.links.items ≡ self.old.links.items ++ record { item = item; rest = rest } ∷ []) }
    {
        let number = self.links.len();
        self.links.push(Link { item, rest })?;
        Ok(number)
    }

    /// The first item of a list, and the others.
    #[tactic(auto, using(std::proofs::lemmas::Option::get_or_from_slice_get))]
    pub fn first(&self, list: usize) -> (Item, usize)
        ensures { (link : Link) → slice_get self.now.links.items list ≡ Some link → result ≡ (link.item, link.rest) }
    {
        if list < self.links.len() {
            let link = self.links[list];
            (link.item, link.rest)
        } else {
            (Item::Bottom, 0)
        }
    }

    /// How many lists there are.
    pub fn mark(&self) -> usize
        ensures { result ≡ length self.now.links.items }
    {
        self.links.len()
    }

    /// Lets go of the lists that were made later than a mark.
    pub fn release(&mut self, mark: usize)
        ensures { self.new.links.items ≡ (if mark == 0 then self.old.links.items else take mark self.old.links.items) }
    {
        if 0 < mark && mark < self.links.len() {
            self.links.truncate(mark);
        }
    }
}
