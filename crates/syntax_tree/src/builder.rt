//! The sink that builds a tree.
ghost use Rattle.std.specs.Prelude.{◌≡◌, ◌+◌, IfOk, OnOk, length, IsUtf8};
ghost use Rattle.rap_lexed.specs.StrStep.{str_enter, str_exit, str_token};
ghost use Rattle.syntax_tree.specs.Building.{after, building, outermost};
ghost use Rattle.syntax_tree.specs.Children.{children_of};
ghost use Rattle.syntax_tree.specs.RangedForest.{ranged_none};

use crate::node::{Child, Node};
use rap_base::no_memory::NoMemory;
use rap_base::syntax_kind::SyntaxKind;
use rap_lexed::shortcuts::{StrSink, StrStep};
use std::alloc::Global;

/// A node that has begun and not ended: its kind, where it begins, and how many children stand before it in the node
/// around it.
#[derive(Drop)]
pub(crate) struct Open {
    kind: SyntaxKind,
    start: u32,
    before: usize,
}

/// A tree as far as its steps have come. The children of all open nodes wait in one list, those of the newest node last:
/// `inside` is their number.
#[derive(Drop)]
pub(crate) struct Builder {
    open: Vec<Open>,
    children: Vec<Child>,
    inside: usize,
    at: u32,
}

/// Where a text ends that begins at a place. A place past 32 bits is refused; no lexed text is so long.
fn end_of(at: u32, text: &str) -> Result<u32, NoMemory>
    ensures { IfOk result (λ end. end ≡ at + length text.now) }
{
    let end = (at as usize).checked_add(text.len()).ok_or(NoMemory)?;
    if end > u32::MAX as usize {
        return Err(NoMemory);
    }
    Ok(end as u32)
}

/// The next number. One past 64 bits is refused; no list is so long.
fn one_more(number: usize) -> Result<usize, NoMemory>
    ensures { IfOk result (λ next. next ≡ number + 1) }
{
    number.checked_add(1).ok_or(NoMemory)
}

impl Builder {
    /// Nothing yet.
    pub(crate) fn new(alloc: Global) -> Builder
        ensures { building result ≡ record { frames = outermost; forest = ranged_none; at = 0 } }
    {
        Builder {
            open: Vec::new(alloc),
            children: Vec::new(alloc),
            inside: 0,
            at: 0,
        }
    }

    /// What stands in the newest node, or beside the whole tree.
    pub(crate) fn into_children(self) -> Vec<Child>
        ensures { children_of result.items ≡ (building self).forest }
    {
        let Builder {
            open,
            mut children,
            inside,
            at: _,
        } = self;
        if !open.is_empty() {
            let before = children.len().saturating_sub(inside);
            children.drain(..before);
        }
        children
    }

    /// A node begins.
    #[inline(always)]
    pub(crate) fn enter(&mut self, kind: SyntaxKind) -> Result<(), NoMemory>
        ensures { OnOk result (building self.new ≡ after (building self.old) (str_enter kind)) }
    {
        self.open.push(Open {
            kind,
            start: self.at,
            before: self.inside,
        })?;
        self.inside = 0;
        Ok(())
    }

    /// The newest node ends, if there is one. Its children move into a list of their number.
    #[inline(never)]
    pub(crate) fn exit(&mut self) -> Result<(), NoMemory>
        ensures { OnOk result (building self.new ≡ after (building self.old) str_exit) }
    {
        let Some(open) = self.open.pop() else {
            return Ok(());
        };
        let inside = one_more(open.before)?;
        let before = self.children.len().saturating_sub(self.inside);
        let children = self.children.split_off(before)?;
        let node = Node::new(open.kind, open.start, self.at, children);
        self.children.reserve(1)?;
        self.children.push_reserved(Child::Node(node));
        self.inside = inside;
        Ok(())
    }

    /// A leaf comes.
    #[inline(always)]
    pub(crate) fn token(&mut self, kind: SyntaxKind, text: &str) -> Result<(), NoMemory>
        ensures built { OnOk result (building self.new ≡ after (building self.old) (str_token kind text.now)) }
        ensures text { IsUtf8 text.now }
    {
        let inside = one_more(self.inside)?;
        let end = end_of(self.at, text)?;
        let range = self.at as usize..end as usize;
        self.children.reserve(1)?;
        self.children.push_reserved(Child::Leaf { kind, range });
        self.inside = inside;
        self.at = end;
        Ok(())
    }
}

impl StrSink for Builder {
    ghost use Rattle.syntax_tree.specs.Building.{Builds};

    type Refusal = NoMemory;

    ghost takes = { Builds };

    // After a call that was out of memory, nothing is specified about what was built.
    ghost refuses = { λ _ _ _ _. Unit {0} };

    #[inline(always)]
    fn step(&mut self, step: StrStep<'_>) -> Result<(), NoMemory> {
        match step {
            StrStep::Token { kind, text } => self.token(kind, text),
            StrStep::Enter { kind } => self.enter(kind),
            StrStep::Exit => self.exit(),
            StrStep::Error { .. } => Ok(()),
        }
    }
}
