//! The rules by which the children of fields are found.
ghost use Rattle.std.specs.Prelude.{◌≡◌};
ghost use Rattle.rap_fields.specs.Rule.{fits, look_of, stands};
ghost use Rattle.rap_grammar_table.specs.Known.{among};

use rap_base::syntax_kind::SyntaxKind;

/// Where a child stands, by what the step before has found.
#[derive(Clone, Copy, Debug, PartialEq, Eq)]
pub enum Place {
    /// Anywhere in the node.
    Anywhere,
    /// Before that, or anywhere if nothing was found.
    Before,
    /// Before that, or nowhere.
    OnlyBefore,
    /// Behind that, or nowhere.
    After,
    /// Behind that, or anywhere.
    Past,
}

/// Which of the children that fit are found.
#[derive(Clone, Copy, Debug, PartialEq, Eq)]
pub enum Which {
    /// The first.
    First,
    /// The last.
    Last,
    /// All: what is asked for first is the first of them.
    All,
}

/// A step of a rule: which children of some kinds are found at a place.
#[derive(Clone, Copy, Debug)]
pub struct Step {
    /// Where they stand.
    pub place: Place,
    /// Which of them.
    pub which: Which,
    /// The numbers of their kinds.
    pub kinds: &'static [u16],
}

impl Place {
    /// Whether the child with this index stands there, where the step before has found the one with the index `mark`.
    pub fn holds(self, mark: Option<u32>, child: u32) -> bool
        ensures { result ≡ stands self mark child }
    {
        match self {
            Place::Anywhere => true,
            Place::Before => match mark {
                Some(mark) => child < mark,
                None => true,
            },
            Place::OnlyBefore => match mark {
                Some(mark) => child < mark,
                None => false,
            },
            Place::After => match mark {
                Some(mark) => mark < child,
                None => false,
            },
            Place::Past => match mark {
                Some(mark) => mark < child,
                None => true,
            },
        }
    }
}

impl Step {
    /// Whether it finds children of the kind.
    pub fn has(&self, kind: SyntaxKind) -> bool
        ensures { result ≡ among self.now.kinds.now kind }
    {
        let number = u16::from(kind);
        for one in self.kinds {
            if *one == number {
                return true;
            }
        }
        false
    }

    /// Whether a child of the kind and with this index fits, where the step before has found the one with the index
    /// `mark`.
    pub fn fits(&self, mark: Option<u32>, kind: SyntaxKind, child: u32) -> bool
        ensures { result ≡ fits (look_of self.now) mark kind child }
    {
        self.place.holds(mark, child) && self.has(kind)
    }
}
