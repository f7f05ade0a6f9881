//! Folds: what stands over more than one line.
ghost use Rattle.std.specs.Prelude.{◌≡◌, ◌<◌, IfOk, length, string_bytes};
ghost use Rattle.std.specs.List.{slice_get};
ghost use Rattle.rast_answers.specs.Folds.{fold_at, fold_of, folds_of, is_folded};

use crate::comments::last_of_comments;
use crate::imports::last_of_imports;
use crate::kinds::kind_at;
use crate::lines::line_of;
use crate::lists::push_option;
use flat_tree::Element;
use rap_base::syntax_kind::SyntaxKind;
use rast_document::Document;
use std::alloc::{AllocError, Global};

/// What folds.
#[derive(Clone, Copy, Debug, PartialEq, Eq)]
pub enum FoldKind {
    /// A block or a list.
    Block,
    /// Comments in a row, or one over more than one line.
    Comment,
    /// Imports in a row.
    Imports,
}

/// A range that folds.
#[derive(Clone, Copy, Debug, PartialEq, Eq)]
pub struct Fold {
    /// What folds.
    pub kind: FoldKind,
    /// The byte at which it begins.
    pub start: usize,
    /// The byte at which it ends.
    pub end: usize,
}

/// Whether nodes of this kind fold: blocks, and lists in brackets.
fn is_folded(kind: SyntaxKind) -> bool
    ensures { result ≡ is_folded kind }
{
    matches!(
        kind,
        SyntaxKind::STMT_LIST
            | SyntaxKind::ITEM_LIST
            | SyntaxKind::EXTERN_ITEM_LIST
            | SyntaxKind::ASSOC_ITEM_LIST
            | SyntaxKind::RECORD_FIELD_LIST
            | SyntaxKind::TUPLE_FIELD_LIST
            | SyntaxKind::VARIANT_LIST
            | SyntaxKind::MATCH_ARM_LIST
            | SyntaxKind::USE_TREE_LIST
            | SyntaxKind::PARAM_LIST
            | SyntaxKind::ARG_LIST
            | SyntaxKind::GENERIC_PARAM_LIST
            | SyntaxKind::GENERIC_ARG_LIST
            | SyntaxKind::RECORD_EXPR_FIELD_LIST
            | SyntaxKind::RECORD_PAT_FIELD_LIST
            | SyntaxKind::ARRAY_EXPR
            | SyntaxKind::TOKEN_TREE
    )
}

/// The range from an element to another, if it is over more than one line.
fn fold_from(
    document: &Document,
    elements: &[Element],
    kind: FoldKind,
    first: usize,
    last: usize,
) -> Option<Fold>
    ensures { result ≡ fold_of (string_bytes document.now.text) kind (slice_get elements.now first) (slice_get elements.now last) }
{
    let start = elements.get(first)?.start() as usize;
    let end = elements.get(last)?.end() as usize;
    if line_of(document, start) < line_of(document, end) {
        Some(Fold { kind, start, end })
    } else {
        None
    }
}

/// The fold that begins with the element with this index. Most kinds begin none: leaves before comments, and nodes up to
/// `STMT_LIST`.
#[tactic(auto, using(crate::proofs::Outside::no_fold_before, crate::proofs::Outside::no_fold_between))]
fn fold_at(document: &Document, elements: &[Element], index: usize) -> Option<Fold>
    requires { index < length elements.now }
    ensures { result ≡ fold_at (string_bytes document.now.text) elements.now index }
{
    let kind = kind_at(elements, index);
    if kind < SyntaxKind::COMMENT {
        return None;
    }
    if SyntaxKind::OUTER_DOC_COMMENT < kind && kind < SyntaxKind::STMT_LIST {
        return None;
    }
    if is_folded(kind) {
        return fold_from(document, elements, FoldKind::Block, index, index);
    }
    if let Some(last) = last_of_comments(document, elements, index) {
        return fold_from(document, elements, FoldKind::Comment, index, last);
    }
    if let Some(last) = last_of_imports(document, elements, index) {
        return fold_from(document, elements, FoldKind::Imports, index, last);
    }
    None
}

/// What folds, in the order of the text. The error means out of memory.
#[tactic(auto, using(crate::proofs::RowLaws::filter_map_next))]
pub(crate) fn folds(
    alloc: Global,
    document: &Document,
    elements: &[Element],
) -> Result<Vec<Fold>, AllocError>
    ensures { IfOk result (λ list. list.items ≡ folds_of (string_bytes document.now.text) elements.now) }
{
    let mut list = Vec::new(alloc);
    for index in 0..elements.len() {
        push_option(&mut list, fold_at(document, elements, index))?;
    }
    Ok(list)
}
