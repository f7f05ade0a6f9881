//! Symbols: what a text declares.
ghost use Rattle.std.specs.Prelude.{◌≡◌, ◌<◌, IfOk, IsTrue, find, length};
ghost use Rattle.rast_answers.specs.Kinds.{children};
ghost use Rattle.rast_answers.specs.Symbols.{header_in, is_in_header, is_name, is_name_at, name_of, span_more, symbol_at, symbols_of};

use crate::extent::{Extent, extent_at};
use crate::kinds::{after_at, around, kind_at};
use crate::lists::push_option;
use crate::symbol_kind::{SymbolKind, symbol_kind};
use flat_tree::Element;
use rap_base::syntax_kind::SyntaxKind;
use std::alloc::{AllocError, Global};

/// A symbol. Another one is inside it exactly if its index is past this one's and before `after`.
#[derive(Clone, Copy, Debug, PartialEq, Eq)]
pub struct Symbol {
    /// What it is.
    pub kind: SymbolKind,
    /// The range of its node.
    pub extent: Extent,
    /// The range of its name. The name of an `impl` is its header, up to its `where` or its items.
    pub name: Extent,
    /// The index of its node.
    pub index: usize,
    /// The index past all that is inside its node.
    pub after: usize,
}

/// Whether an element of this kind is a name: a constant's may be `_`.
fn is_name(kind: SyntaxKind) -> bool
    ensures { result ≡ is_name kind }
{
    matches!(kind, SyntaxKind::NAME | SyntaxKind::UNDERSCORE)
}

/// Whether an element of this kind that stands right in an `impl` is in its header.
fn is_in_header(kind: SyntaxKind) -> bool
    ensures { result ≡ is_in_header kind }
{
    !matches!(
        kind,
        SyntaxKind::WHITESPACE
            | SyntaxKind::COMMENT
            | SyntaxKind::DOC_COMMENT
            | SyntaxKind::ATTR
            | SyntaxKind::WHERE_CLAUSE
            | SyntaxKind::ASSOC_ITEM_LIST
    )
}

/// The index of the first element right in a node that is a name.
#[tactic(auto, using(crate::proofs::Passes::passes_none, crate::proofs::Passes::passes))]
fn name_in(elements: &[Element], node: usize) -> Option<usize>
    requires { node < length elements.now }
    ensures { result ≡ find (is_name_at elements.now) (children elements.now node) }
{
    let end = after_at(elements, node);
    let mut at = node + 1;
    'children: for _step in node + 1..end {
        if end <= at {
            return None;
        }
        if is_name(kind_at(elements, at)) {
            return Some(at);
        }
        at = after_at(elements, at);
    }
    None
}

/// A range with that of an element added at its end, if the element is in an `impl`'s header.
fn span_more(elements: &[Element], span: Option<Extent>, index: usize) -> Option<Extent>
    ensures { result ≡ span_more elements.now span index }
{
    if !is_in_header(kind_at(elements, index)) {
        return span;
    }
    let extent = extent_at(elements, index);
    match span {
        Some(begun) => Some(Extent {
            start: begun.start,
            end: extent.end,
        }),
        None => Some(extent),
    }
}

/// The range of an `impl`'s header.
#[tactic(auto, using(crate::proofs::Passes::passes_none, crate::proofs::Passes::passes))]
fn header_in(elements: &[Element], node: usize) -> Option<Extent>
    requires { node < length elements.now }
    ensures { result ≡ header_in elements.now node }
{
    let end = after_at(elements, node);
    let mut at = node + 1;
    let mut header = None;
    'children: for _step in node + 1..end {
        if end <= at {
            return header;
        }
        header = span_more(elements, header, at);
        at = after_at(elements, at);
    }
    header
}

/// The range of the name of a symbol of this kind.
fn name_of(elements: &[Element], index: usize, kind: SymbolKind) -> Option<Extent>
    requires { index < length elements.now }
    ensures { result ≡ name_of elements.now index kind }
{
    if let SymbolKind::Impl = kind {
        return header_in(elements, index);
    }
    let name = name_in(elements, index)?;
    Some(extent_at(elements, name))
}

/// Whether an element declares nothing by its kind alone: all kinds of nodes that declare are from `MODULE` to `IMPL`.
#[tactic(auto, using(crate::proofs::Outside::no_symbol_before, crate::proofs::Outside::no_symbol_past))]
fn declares_nothing(elements: &[Element], index: usize) -> bool
    ensures { IsTrue result → symbol_at elements.now index ≡ None }
{
    let kind = kind_at(elements, index);
    kind < SyntaxKind::MODULE || SyntaxKind::IMPL < kind
}

/// The symbol that the node with this index declares.
fn symbol_at(elements: &[Element], index: usize) -> Option<Symbol>
    requires { index < length elements.now }
    ensures { result ≡ symbol_at elements.now index }
{
    if declares_nothing(elements, index) {
        return None;
    }
    let outer = kind_at(elements, around(elements, index));
    let kind = symbol_kind(kind_at(elements, index), outer)?;
    let name = name_of(elements, index, kind)?;
    Some(Symbol {
        kind,
        extent: extent_at(elements, index),
        name,
        index,
        after: after_at(elements, index),
    })
}

/// What a tree declares, in the order of the text, each before what is inside it. The error means out of memory.
#[tactic(auto, using(crate::proofs::RowLaws::filter_map_next))]
pub(crate) fn symbols(alloc: Global, elements: &[Element]) -> Result<Vec<Symbol>, AllocError>
    ensures { IfOk result (λ list. list.items ≡ symbols_of elements.now) }
{
    let mut list = Vec::new(alloc);
    for index in 0..elements.len() {
        push_option(&mut list, symbol_at(elements, index))?;
    }
    Ok(list)
}
