//! A document with the list of its tree.
ghost use Rattle.std.specs.Prelude.{◌≡◌, IfOk, length, string_bytes};
ghost use Rattle.rap_base.specs.declared.edition.Edition.{Edition};
ghost use Rattle.rap_lexed.specs.StrForest.{StrForest};
ghost use Rattle.rap_ranged.specs.Ranged.{Ranged};
ghost use Rattle.rap_ranged.specs.RangedForest.{RangedNode};
ghost use Rattle.flat_tree.specs.FlatTree.{elements_of_tree};
ghost use Rattle.rast_answers.specs.Deltas.{AreInOrder, decoded, deltas_from};
ghost use Rattle.rast_answers.specs.Folds.{folds_of};
ghost use Rattle.rast_answers.specs.Highlights.{AreHighlights};
ghost use Rattle.rast_answers.specs.Listings.{AreElementsOf};
ghost use Rattle.rast_answers.specs.Selections.{IsSelection};
ghost use Rattle.rast_answers.specs.Symbols.{symbols_of};
ghost use Rattle.rast_answers.specs.Tokens.{tokens_of};

use crate::deltas::{Delta, deltas};
use crate::extent::Extent;
use crate::folds::{Fold, folds};
use crate::highlights::highlights;
use crate::selection::outwards;
use crate::symbols::{Symbol, symbols};
use crate::tokens::tokens;
use flat_tree::{Element, leaf_of};
use rast_document::Document;
use std::alloc::{AllocError, Global};

/// A document with the list of its tree, which was made before and is kept by the caller. It answers what an
/// [`Analysis`](crate::Analysis) of the document answers, but for the messages, and parses nothing.
#[derive(Clone, Copy)]
pub struct Listing<'d> {
    document: &'d Document,
    elements: &'d [Element],
}

impl<'d> Listing<'d> {
    /// A document with the nodes and leaves of the tree of its text, which was parsed as a source file.
    pub fn new(document: &'d Document, elements: &'d [Element]) -> Listing<'d>
        requires { (edition : Edition) × AreElementsOf (string_bytes document.now.text) edition elements.now }
        ensures document { result.document.now ≡ document.now }
        ensures elements { result.elements.now ≡ elements.now }
    {
        Listing { document, elements }
    }

    /// The document.
    pub fn document(&self) -> &'d Document
        ensures { result.now ≡ self.now.document.now }
    {
        self.document
    }

    /// The nodes and leaves in preorder.
    pub fn elements(&self) -> &'d [Element]
        ensures { result.now ≡ self.now.elements.now }
    {
        self.elements
    }

    /// The symbols that the text declares, in the order of the text, each before those inside it. The error means out of
    /// memory.
    pub fn symbols(&self, alloc: Global) -> Result<Vec<Symbol>, AllocError>
        ensures { IfOk result (λ list. list.items ≡ symbols_of self.now.elements.now) }
    {
        symbols(alloc, self.elements)
    }

    /// What folds, in the order of the text. The error means out of memory.
    pub fn folds(&self, alloc: Global) -> Result<Vec<Fold>, AllocError>
        ensures { IfOk result (λ list. list.items ≡ folds_of (string_bytes self.now.document.now.text) self.now.elements.now) }
    {
        folds(alloc, self.document, self.elements)
    }

    /// What may be selected around an offset, as [`Analysis::selection`](crate::Analysis::selection) has it. The error
    /// means out of memory.
    pub fn selection(&self, alloc: Global, offset: usize) -> Result<Vec<Extent>, AllocError>
        ensures { (f : StrForest) (root : RangedNode) → Ranged f root → self.now.elements.now ≡ elements_of_tree root
            → IfOk result (λ list. IsSelection root self.now.elements.now offset list.items) }
    {
        let leaf = leaf_of(self.elements, offset);
        let before = leaf_of(self.elements, offset.saturating_sub(1));
        let index = leaf.unwrap_or(before.unwrap_or(0));
        outwards(alloc, self.elements, index as usize)
    }

    /// What belongs together with the leaf at an offset, as [`Analysis::highlights`](crate::Analysis::highlights) has it.
    /// The error means out of memory.
    pub fn highlights(&self, alloc: Global, offset: usize) -> Result<Vec<Extent>, AllocError>
        ensures { (f : StrForest) (root : RangedNode) → Ranged f root → self.now.elements.now ≡ elements_of_tree root
            → IfOk result (λ list. AreHighlights (string_bytes self.now.document.now.text) root self.now.elements.now offset list.items) }
    {
        let leaf = leaf_of(self.elements, offset);
        let before = leaf_of(self.elements, offset.saturating_sub(1));
        highlights(alloc, self.document, self.elements, leaf, before)
    }

    /// The tokens of the text as numbers, each relative to the one before. The error means out of memory.
    pub fn tokens(&self, alloc: Global) -> Result<Vec<Delta>, AllocError>
        ensures value { IfOk result (λ list. list.items ≡ deltas_from 0 0 (tokens_of self.now.document.now.encoding (string_bytes self.now.document.now.text)
            0 (length (string_bytes self.now.document.now.text)) self.now.elements.now)) }
        ensures decoded { IfOk result (λ list. AreInOrder 0 0 (tokens_of self.now.document.now.encoding (string_bytes self.now.document.now.text)
            0 (length (string_bytes self.now.document.now.text)) self.now.elements.now)
            → decoded 0 0 list.items ≡ tokens_of self.now.document.now.encoding (string_bytes self.now.document.now.text)
            0 (length (string_bytes self.now.document.now.text)) self.now.elements.now) }
    {
        let end = self.document.text().len();
        self.tokens_within(alloc, 0, end)
    }

    /// The tokens that have a byte of a range, or end or begin at its ends, as numbers. The error means out of memory.
    pub fn tokens_within(
        &self,
        alloc: Global,
        start: usize,
        end: usize,
    ) -> Result<Vec<Delta>, AllocError>
        ensures value { IfOk result (λ list. list.items ≡ deltas_from 0 0 (tokens_of self.now.document.now.encoding (string_bytes self.now.document.now.text)
            start end self.now.elements.now)) }
        ensures decoded { IfOk result (λ list. AreInOrder 0 0 (tokens_of self.now.document.now.encoding (string_bytes self.now.document.now.text)
            start end self.now.elements.now)
            → decoded 0 0 list.items ≡ tokens_of self.now.document.now.encoding (string_bytes self.now.document.now.text)
            start end self.now.elements.now) }
    {
        let list = tokens(alloc, self.document, self.elements, start, end)?;
        deltas(alloc, list.as_slice())
    }
}
