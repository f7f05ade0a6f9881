//! The nodes of a tree that the table does not derive.
ghost use Rattle.std.specs.Prelude.{◌≤◌, length, All, AllPairs, IfOk};

use crate::search::element::elements_of;
use crate::search::memo::Answer;
use crate::search::site::{is_begun, roots_of};
use crate::search::{Search, new_search};
use rap_base::no_memory::NoMemory;
use rap_base::syntax_kind::SyntaxKind;
use rap_events::input::Input;
use rap_events::output::Output;
use std::alloc::Global;

/// A node that the table does not derive, with its first token and the one behind it.
#[derive(Clone, Copy)]
pub struct Outside {
    pub kind: SyntaxKind,
    pub start: usize,
    pub end: usize,
}

impl Search {
    /// Whether an element is a leaf, or a node that some category derives.
    fn is_derived(&mut self, input: &Input, at: usize) -> Result<bool, NoMemory> {
        let element = self.elements.at(at);
        if !element.is_node {
            return Ok(true);
        }
        'roots: for category in roots_of(u16::from(element.kind)) {
            if let Answer::Fact(_, end) = self.answer_category(input, *category, at)? {
                if end == element.behind {
                    return Ok(true);
                }
            }
        }
        Ok(false)
    }

    /// The nodes that no category derives, but those in nodes that one does; each stands before what is in it.
    fn failed(&mut self, input: &Input) -> Result<Vec<usize>, NoMemory> {
        let mut failed = Vec::new(self.alloc);
        let mut at = 0;
        'elements: for _ in 0..u64::MAX {
            if at >= self.elements.len() {
                break 'elements;
            }
            if self.is_derived(input, at)? {
                at = self.elements.at(at).behind;
            } else {
                failed.push(at)?;
                at = at.saturating_add(1);
            }
        }
        Ok(failed)
    }

    /// A node with its tokens, as far as they are among so many first ones.
    fn node(&self, at: usize, tokens: usize) -> Outside
        ensures { (result.start ≤ result.end) × (result.end ≤ tokens) }
    {
        let element = self.elements.at(at);
        let end = self.token(element.behind).min(tokens);
        let start = element.token.min(end);
        Outside {
            kind: element.kind,
            start,
            end,
        }
    }

    /// Of nodes that no category derives the smallest; the last one comes first. Of so many tokens none is in two.
    fn smallest(&self, failed: Vec<usize>, tokens: usize) -> Result<Vec<Outside>, NoMemory>
        ensures within { IfOk result (λ nodes. All (λ node. (node.start ≤ node.end) × (node.end ≤ tokens)) nodes.items) }
        ensures apart { IfOk result (λ nodes. AllPairs (λ later node. node.end ≤ later.start) nodes.items) }
    {
        let mut failed = failed;
        let mut found = Vec::new(self.alloc);
        let mut newest = usize::MAX;
        let mut limit = tokens;
        'nodes: for _ in 0..u64::MAX {
            let Some(at) = failed.pop() else {
                break 'nodes;
            };
            let element = self.elements.at(at);
            let is_first = at == 0 && found.is_empty();
            if element.behind <= newest && (is_first || is_begun(u16::from(element.kind))) {
                let node = self.node(at, limit);
                newest = at;
                limit = node.start;
                found.push(node)?;
            }
        }
        Ok(found)
    }
}

/// Returns the nodes of a tree that no category derives though it is of such nodes, each with none of them in it; the
/// last one comes first. Where there is none it is the root, if no category derives that. The tokens of each are some of
/// the input, and no token is in two nodes.
///
/// The error means out of memory.
pub fn find_outside(alloc: Global, input: &Input, output: &Output) -> Result<Vec<Outside>, NoMemory>
    ensures within { IfOk result (λ nodes. All (λ node. (node.start ≤ node.end) × (node.end ≤ length input.now)) nodes.items) }
    ensures apart { IfOk result (λ nodes. AllPairs (λ later node. node.end ≤ later.start) nodes.items) }
{
    let elements = elements_of(alloc, output)?;
    let mut search = new_search(alloc, elements)?;
    let failed = search.failed(input)?;
    search.smallest(failed, input.len())
}
