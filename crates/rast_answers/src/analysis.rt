//! A document with its tree.
ghost use Rattle.std.specs.Prelude.{◌≡◌, IfOk, length, map, string_bytes};
ghost use Rattle.rap_base.specs.declared.edition.Edition.{Edition};
ghost use Rattle.ra_ap_parser.specs.declared.entry_point.TopEntryPoint.{TopEntryPoint};
ghost use Rattle.flat_tree.specs.TextTree.{IsFlatText};
ghost use Rattle.rap_lexed.specs.StrForest.{StrForest};
ghost use Rattle.rap_ranged.specs.Ranged.{Ranged};
ghost use Rattle.rap_ranged.specs.RangedForest.{RangedNode};
ghost use Rattle.flat_tree.specs.FlatTree.{elements_of_tree};
ghost use Rattle.rast_answers.specs.Deltas.{AreInOrder, decoded, deltas_from};
ghost use Rattle.rast_answers.specs.Diagnostics.{said, shown};
ghost use Rattle.rast_answers.specs.Folds.{folds_of};
ghost use Rattle.rast_answers.specs.Highlights.{AreHighlights};
ghost use Rattle.rast_answers.specs.Selections.{IsSelection};
ghost use Rattle.rast_answers.specs.Symbols.{symbols_of};
ghost use Rattle.rast_answers.specs.Tokens.{tokens_of};

use crate::deltas::{Delta, deltas};
use crate::diagnostic::{Diagnostic, diagnostics};
use crate::extent::Extent;
use crate::folds::{Fold, folds};
use crate::highlights::highlights;
use crate::selection::outwards;
use crate::symbols::{Symbol, symbols};
use crate::tokens::tokens;
use flat_tree::FlatTree;
use ra_ap_parser::{Edition, NoMemory, TextFault, TopEntryPoint};
use rast_document::Document;
use std::alloc::{AllocError, Global};

/// A document with the tree of its text, which is parsed as a source file.
#[derive(Drop)]
pub struct Analysis<'d> {
    document: &'d Document,
    tree: FlatTree<'d>,
}

impl<'d> Analysis<'d> {
    /// Parses a document. The errors are those of [`FlatTree::of_text`].
    pub fn of_document(
        alloc: Global,
        edition: Edition,
        document: &'d Document,
    ) -> Result<Analysis<'d>, TextFault<NoMemory>>
        ensures tree { IfOk result (λ a. IsFlatText (string_bytes document.now.text) edition TopEntryPoint.SourceFile a.tree.elements.items a.tree.messages.items) }
        ensures document { IfOk result (λ a. a.document.now ≡ document.now) }
    {
        let tree = FlatTree::of_text(alloc, edition, TopEntryPoint::SourceFile, document.text())?;
        Ok(Analysis { document, tree })
    }

    /// The document.
    pub fn document(&self) -> &'d Document
        ensures { result.now ≡ self.now.document.now }
    {
        self.document
    }

    /// The tree.
    pub fn tree(&self) -> &FlatTree<'d>
        ensures { result.now ≡ self.now.tree }
    {
        &self.tree
    }

    /// The messages of the tree, each with its range, in the order of the text. The error means out of memory.
    pub fn diagnostics(&self, alloc: Global) -> Result<Vec<Diagnostic<'_>>, AllocError>
        ensures { IfOk result (λ list. map shown list.items ≡ map said self.now.tree.messages.items) }
    {
        diagnostics(alloc, self.tree.messages())
    }

    /// The symbols that the text declares, in the order of the text, each before those inside it. The error means out of
    /// memory.
    pub fn symbols(&self, alloc: Global) -> Result<Vec<Symbol>, AllocError>
        ensures { IfOk result (λ list. list.items ≡ symbols_of self.now.tree.elements.items) }
    {
        symbols(alloc, self.tree.elements())
    }

    /// What folds, in the order of the text. The error means out of memory.
    pub fn folds(&self, alloc: Global) -> Result<Vec<Fold>, AllocError>
        ensures { IfOk result (λ list. list.items ≡ folds_of (string_bytes self.now.document.now.text) self.now.tree.elements.items) }
    {
        folds(alloc, self.document, self.tree.elements())
    }

    /// What may be selected around an offset: the range of the leaf there, then those of the nodes around it, outwards,
    /// each other than the one before. At the end of the text it is the last leaf. The error means out of memory.
    pub fn selection(&self, alloc: Global, offset: usize) -> Result<Vec<Extent>, AllocError>
        ensures { (f : StrForest) (root : RangedNode) → Ranged f root → self.now.tree.elements.items ≡ elements_of_tree root
            → IfOk result (λ list. IsSelection root self.now.tree.elements.items offset list.items) }
    {
        let leaf = self.tree.leaf_at(offset);
        let before = self.tree.leaf_at(offset.saturating_sub(1));
        let index = leaf.unwrap_or(before.unwrap_or(0));
        outwards(alloc, self.tree.elements(), index as usize)
    }

    /// What belongs together with the leaf at an offset, in the order of the text: a bracket with its partner; the keyword
    /// and the label of a loop or block with the jumps about it; the `fn` of a function or the bars of a closure with the
    /// `return`s from it. If nothing belongs to that leaf, it is the one that ends at the offset; an empty list means that
    /// nothing belongs to either. The error means out of memory.
    pub fn highlights(&self, alloc: Global, offset: usize) -> Result<Vec<Extent>, AllocError>
        ensures { (f : StrForest) (root : RangedNode) → Ranged f root → self.now.tree.elements.items ≡ elements_of_tree root
            → IfOk result (λ list. AreHighlights (string_bytes self.now.document.now.text) root self.now.tree.elements.items offset list.items) }
    {
        let leaf = self.tree.leaf_at(offset);
        let before = self.tree.leaf_at(offset.saturating_sub(1));
        highlights(alloc, self.document, self.tree.elements(), leaf, before)
    }

    /// The tokens of the text as numbers, each relative to the one before. The error means out of memory.
    pub fn tokens(&self, alloc: Global) -> Result<Vec<Delta>, AllocError>
        ensures value { IfOk result (λ list. list.items ≡ deltas_from 0 0 (tokens_of self.now.document.now.encoding (string_bytes self.now.document.now.text)
            0 (length (string_bytes self.now.document.now.text)) self.now.tree.elements.items)) }
        ensures decoded { IfOk result (λ list. AreInOrder 0 0 (tokens_of self.now.document.now.encoding (string_bytes self.now.document.now.text)
            0 (length (string_bytes self.now.document.now.text)) self.now.tree.elements.items)
            → decoded 0 0 list.items ≡ tokens_of self.now.document.now.encoding (string_bytes self.now.document.now.text)
            0 (length (string_bytes self.now.document.now.text)) self.now.tree.elements.items) }
    {
        let end = self.document.text().len();
        self.tokens_within(alloc, 0, end)
    }

    /// The tokens that have a byte of a range, or end or begin at its ends, as numbers. The error means out of memory.
    pub fn tokens_within(
        &self,
        alloc: Global,
        start: usize,
        end: usize,
    ) -> Result<Vec<Delta>, AllocError>
        ensures value { IfOk result (λ list. list.items ≡ deltas_from 0 0 (tokens_of self.now.document.now.encoding (string_bytes self.now.document.now.text)
            start end self.now.tree.elements.items)) }
        ensures decoded { IfOk result (λ list. AreInOrder 0 0 (tokens_of self.now.document.now.encoding (string_bytes self.now.document.now.text)
            start end self.now.tree.elements.items)
            → decoded 0 0 list.items ≡ tokens_of self.now.document.now.encoding (string_bytes self.now.document.now.text)
            start end self.now.tree.elements.items) }
    {
        let list = tokens(alloc, self.document, self.tree.elements(), start, end)?;
        deltas(alloc, list.as_slice())
    }
}
