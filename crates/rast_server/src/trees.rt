//! Trees of documents: a document is parsed, and the list of its tree is kept for what is asked about it later.
ghost use Rattle.std.specs.Prelude.{◌≡◌, ◌≤◌, [], IfNone, IfOk, IfSome, IsTrue, false, length, string_bytes, vec_capacity, vec_len};
ghost use Rattle.rap_base.specs.declared.edition.Edition.TheVariants.{Edition2024};
ghost use Rattle.rast_answers.specs.Listings.{AreListsOf};

use flat_tree::{Element, FlatTree, Message};
use ra_ap_parser::{Edition, NoMemory, TextFault, TopEntryPoint};
use rast_answers::Listing;
use rast_document::Document;
use std::alloc::Global;

/// Of how many documents the trees are kept.
const FEW: usize = 4;

/// The nodes and leaves, and the messages, of a tree.
#[derive(Drop)]
pub(crate) struct Lists {
    elements: Vec<Element>,
    messages: Vec<Message>,
}

impl Lists {
    /// Parses a document. The errors are those of [`FlatTree::of_text_exact`]. The nodes and leaves have no more room
    /// than they need, if the allocator can give back what was too much.
    pub(crate) fn of_document(
        alloc: Global,
        document: &Document,
    ) -> Result<Lists, TextFault<NoMemory>>
        ensures { IfOk result (λ lists. AreListsOf (string_bytes document.now.text) Edition2024 lists.elements.items lists.messages.items) }
    {
        let tree = FlatTree::of_text_exact(
            alloc,
            Edition::CURRENT,
            TopEntryPoint::SourceFile,
            document.text(),
        )?;
        let (elements, messages) = tree.into_lists();
        Ok(Lists { elements, messages })
    }

    /// The messages, in the order of the text.
    pub(crate) fn messages(&self) -> &[Message]
        ensures { result.now ≡ self.now.messages.items }
    {
        self.messages.as_slice()
    }

    /// The document whose tree they are of, with its nodes and leaves.
    #[tactic(auto, using(rast_answers::proofs::Kept::elements_of_lists))]
    pub(crate) fn listing<'d>(&'d self, document: &'d Document) -> Listing<'d>
        requires { AreListsOf (string_bytes document.now.text) Edition2024 self.now.elements.items self.now.messages.items }
        ensures document { result.document.now ≡ document.now }
        ensures elements { result.elements.now ≡ self.now.elements.items }
    {
        Listing::new(document, self.elements.as_slice())
    }

    /// The nodes and leaves alone.
    pub(crate) fn into_elements(self) -> Vec<Element>
        ensures { result.items ≡ self.elements.items }
    {
        self.elements
    }
}

/// The nodes and leaves of a document's tree, in a list that has no more room than it needs, and the document's uri.
#[derive(Drop)]
pub(crate) struct Kept {
    uri: String,
    elements: Vec<Element>,
    ghost exact: { vec_capacity elements ≤ vec_len elements },
}

impl Kept {
    /// The nodes and leaves.
    pub(crate) fn elements(&self) -> &[Element]
        ensures { result.now ≡ self.now.elements.items }
    {
        self.elements.as_slice()
    }
}

/// The trees of a few documents: of those that were asked about or changed last, the latest behind the others.
#[derive(Drop)]
pub(crate) struct Trees {
    kept: Vec<Kept>,
    ghost few: { vec_len kept ≤ 4 },
}

impl Trees {
    ghost use Rattle.rast_server.specs.Trees.{HasNone, IsPlaceOf, IsTreeOf, Keeps, Prepares, last, others};

    /// No trees.
    pub(crate) fn new(alloc: Global) -> Trees
        ensures { result.kept.items ≡ [] }
    {
        Trees {
            kept: Vec::new(alloc),
        }
    }

    // Where the tree of a document stands.
    fn place(&self, uri: &str) -> Option<usize>
        ensures some { IfSome result (λ place. IsPlaceOf uri.now place self.now.kept.items) }
        ensures none { IfNone result (HasNone uri.now self.now.kept.items) }
    {
        self.kept.iter().position(|kept| kept.uri.as_str() == uri)
    }

    /// The tree of a document, if it is kept.
    pub(crate) fn find(&self, uri: &str) -> Option<&Kept>
        ensures some { IfSome result (λ kept. IsTreeOf uri.now kept.now self.now.kept.items) }
        ensures none { IfNone result (HasNone uri.now self.now.kept.items) }
    {
        match self.place(uri) {
            Some(place) => Some(&self.kept[place]),
            None => None,
        }
    }

    // Gives up the oldest tree if there are as many as there may be.
    fn leave_place(&mut self)
        ensures last { self.new.kept.items ≡ last 3 self.old.kept.items }
        ensures few { vec_len self.new.kept ≤ 3 }
        ensures room { vec_capacity self.new.kept ≡ vec_capacity self.old.kept }
    {
        if self.kept.len() == FEW {
            let _ = self.kept.remove(0);
        }
    }

    /// Makes the tree of a document the latest. If it has none, there is a place for one afterwards.
    pub(crate) fn prepare(&mut self, uri: &str)
        ensures { Prepares uri.now self.old.kept.items self.new.kept.items }
    {
        match self.place(uri) {
            Some(place) => {
                let kept = self.kept.remove(place);
                self.kept.push_reserved(kept);
            }
            None => self.leave_place(),
        }
    }

    /// Gives up the tree of a document.
    pub(crate) fn forget(&mut self, uri: &str)
        ensures others { self.new.kept.items ≡ others uri.now self.old.kept.items }
        ensures room { vec_capacity self.new.kept ≡ vec_capacity self.old.kept }
    {
        self.kept.retain(|kept| kept.uri.as_str() != uri);
    }

    /// Keeps the nodes and leaves of a document's tree, in the place of those that were kept of it, or else, if there
    /// are as many trees as there may be, in that of the oldest one. Returns whether they are kept: if they have more
    /// room than they need, or if there is no memory, all trees stay as they were.
    pub(crate) fn keep(&mut self, alloc: Global, uri: &str, elements: Vec<Element>) -> bool
        ensures kept { IsTrue result → Keeps uri.now elements.items self.old.kept.items self.new.kept.items }
        ensures refused { result ≡ false → self.new.kept.items ≡ self.old.kept.items }
    {
        if elements.capacity() > elements.len() {
            return false;
        }
        let Ok(name) = String::from_str(alloc, uri) else {
            return false;
        };
        if self.kept.reserve_exact(FEW - self.kept.len()).is_err() {
            return false;
        }
        self.forget(uri);
        self.leave_place();
        self.kept.push_reserved(Kept {
            uri: name,
            elements,
        });
        true
    }
}
