//! A tree as the list of its elements, each node before what stands in it.

use rap_base::no_memory::NoMemory;
use rap_base::syntax_kind::SyntaxKind;
use rap_events::output::{Output, Step};
use std::alloc::Global;

/// A node or a leaf.
#[derive(Clone, Copy)]
pub struct Element {
    pub kind: SyntaxKind,
    pub is_node: bool,
    /// How many tokens of the input stand before it.
    pub token: usize,
    /// The number of the element behind it and all that stands in it.
    pub behind: usize,
    /// The number of the node that it stands in. Where there is none it is past all others.
    pub parent: usize,
}

/// The elements of a tree, the nodes that have not ended yet, and the number of its tokens.
#[derive(Drop)]
pub struct Elements {
    list: Vec<Element>,
    open: Vec<usize>,
    tokens: usize,
}

impl Elements {
    /// No elements, with room for so many.
    pub fn with_capacity(alloc: Global, elements: usize) -> Result<Elements, NoMemory> {
        Ok(Elements {
            list: Vec::with_capacity(alloc, elements)?,
            open: Vec::new(alloc),
            tokens: 0,
        })
    }

    /// How many elements there are.
    pub fn len(&self) -> usize {
        self.list.len()
    }

    /// Whether there are none.
    pub fn is_empty(&self) -> bool {
        self.list.is_empty()
    }

    /// Returns an element. Past the last one it is an empty leaf.
    #[inline(always)]
    pub fn at(&self, number: usize) -> Element {
        if number < self.list.len() {
            self.list[number]
        } else {
            Element {
                kind: SyntaxKind::EOF,
                is_node: false,
                token: self.tokens,
                behind: number,
                parent: usize::MAX,
            }
        }
    }

    /// Where the list of the elements in a node ends. Past the last element that is the list of all roots.
    #[inline(always)]
    pub fn end_of(&self, node: usize) -> usize {
        if node < self.list.len() {
            self.list[node].behind
        } else {
            self.list.len()
        }
    }

    /// Adds an element with nothing in it.
    fn add(&mut self, kind: SyntaxKind, is_node: bool) -> Result<(), NoMemory> {
        let number = self.list.len();
        let parent = match self.open.as_slice().last() {
            Some(node) => *node,
            None => usize::MAX,
        };
        let element = Element {
            kind,
            is_node,
            token: self.tokens,
            behind: number.saturating_add(1),
            parent,
        };
        self.list.push(element)?;
        Ok(())
    }

    /// Begins a node.
    pub fn begin(&mut self, kind: SyntaxKind) -> Result<(), NoMemory> {
        let number = self.list.len();
        self.add(kind, true)?;
        self.open.push(number)?;
        Ok(())
    }

    /// Adds a leaf of so many tokens.
    pub fn leaf(&mut self, kind: SyntaxKind, tokens: usize) -> Result<(), NoMemory> {
        self.add(kind, false)?;
        self.tokens = self.tokens.saturating_add(tokens);
        Ok(())
    }

    /// Ends the newest open node.
    pub fn end(&mut self) {
        let behind = self.list.len();
        let Some(number) = self.open.pop() else {
            return;
        };
        if number < behind {
            let mut element = self.list[number];
            element.behind = behind;
            self.list[number] = element;
        }
    }
}

/// Returns the elements of a tree, without its messages. A float that is taken apart is one leaf, of no row.
pub fn elements_of(alloc: Global, output: &Output) -> Result<Elements, NoMemory> {
    let steps = output.iter();
    let mut elements = Elements::with_capacity(alloc, steps.len())?;
    'steps: for step in steps {
        match step {
            Step::Enter { kind } => elements.begin(kind)?,
            Step::Token {
                kind,
                n_input_tokens,
            } => elements.leaf(kind, usize::from(n_input_tokens))?,
            Step::Exit => elements.end(),
            Step::FloatSplit { ends_in_dot } => {
                elements.leaf(SyntaxKind::EOF, 1)?;
                elements.end();
                if !ends_in_dot {
                    elements.end();
                }
            }
            Step::Error { .. } => {}
        }
    }
    Ok(elements)
}
