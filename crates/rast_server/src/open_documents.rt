//! The documents that the editor has open, with the trees of a few of them.
ghost use Rattle.std.specs.Prelude.{◌≡◌, ◌⊎◌, [], IfErr, IfNone, IfSome, IsSome, None, OnErr, OnOk, Some, is_some, option_map, string_bytes};
ghost use Rattle.std.specs.BTreeMap.{get_by_text};
ghost use Rattle.std.specs.Option.{ForSome};
ghost use Rattle.rap_base.specs.declared.edition.Edition.TheVariants.{Edition2024};
ghost use Rattle.rast_answers.specs.Listings.{AreElementsOf};
ghost use Rattle.rast_server.specs.Documents.{IsNoMemory, SaysNoPlace, SaysNotOpen};
ghost use Rattle.rast_server.specs.Trees.{AreKeptOf, ChangesText, HasNoText, PutsIn};

use crate::server::{NOT_OPEN, Opened};
use crate::trees::Trees;
use flat_tree::Element;
use rast_answers::Listing;
use rast_document::{Change, Document};
use rast_messages::Fault;
use std::alloc::{AllocError, Global};
use std::collections::BTreeMap;
use std::marker::Model;

/// The open documents by their uris, with the trees of a few of them. Contracts see the documents.
#[derive(Drop)]
pub(crate) struct Documents {
    opened: BTreeMap<String, Opened>,
    trees: Trees,
}

impl Model for Documents {
    ghost use Rattle.rast_server.specs.Rows.{map_row};
    ghost use Rattle.rast_server.specs.Trees.{AreTrees, Map};

    ghost Value = { Map };

    ghost coded = { map_row.coded };

    ghost view = { λ d. d.opened };

    ghost invariant = { λ d. AreTrees d.opened d.trees.kept.items };
}

impl Documents {
    /// No documents.
    pub(crate) fn new(alloc: Global) -> Documents
        ensures { result.entries ≡ [] }
    {
        Documents {
            opened: BTreeMap::new(alloc),
            trees: Trees::new(alloc),
        }
    }

    /// Whether a document is open under this uri.
    pub(crate) fn has(&self, uri: &str) -> bool
        ensures { result ≡ is_some (get_by_text self.now uri.now) }
    {
        self.opened.contains_key(uri)
    }

    /// The document under this uri, which is open.
    pub(crate) fn get(&self, uri: &str) -> &Opened
        requires { IsSome (get_by_text self.now uri.now) }
        ensures { Some result.now ≡ get_by_text self.now uri.now }
    {
        self.opened.get(uri).unwrap()
    }

    /// The document under this uri with its tree, if that is kept.
    pub(crate) fn listing(&self, uri: &str) -> Option<Listing<'_>>
        ensures document { IfSome result (λ listing. option_map (λ opened. opened.document) (get_by_text self.now uri.now) ≡ Some listing.document.now) }
        ensures tree { IfSome result (λ listing. AreElementsOf (string_bytes listing.document.now.text) Edition2024 listing.elements.now) }
    {
        let opened = self.opened.get(uri)?;
        let kept = self.trees.find(uri)?;
        Some(Listing::new(&opened.document, kept.elements()))
    }

    /// Makes the tree of this document the latest. If none is kept, there is room for one afterwards: the oldest tree is
    /// given up, so that its memory serves to parse the document.
    pub(crate) fn prepare(&mut self, uri: &str)
        ensures { self.new ≡ self.old }
    {
        self.trees.prepare(uri);
    }

    /// Keeps the nodes and leaves of the tree of this document, if it has one and there is memory for that.
    pub(crate) fn keep(&mut self, alloc: Global, uri: &str, tree: Option<Vec<Element>>)
        requires { ForSome (get_by_text self.old uri.now) (λ opened. AreKeptOf (string_bytes opened.document.text) tree) }
        ensures { self.new ≡ self.old }
    {
        if let Some(elements) = tree {
            let _ = self.trees.keep(alloc, uri, elements);
        }
    }

    /// Puts a document under this uri. After an error, which means out of memory, all is as before.
    pub(crate) fn insert(
        &mut self,
        alloc: Global,
        uri: &str,
        opened: Opened,
    ) -> Result<(), AllocError>
        ensures puts { OnOk result (PutsIn uri.now (Some opened) self.old self.new) }
        ensures err { OnErr result (self.new.entries ≡ self.old.entries) }
    {
        let key = String::from_str(alloc, uri)?;
        if self.opened.insert(key, opened).is_err() {
            return Err(AllocError);
        }
        self.trees.forget(uri);
        Ok(())
    }

    /// Makes changes of the document under this uri. After an error all is as before.
    pub(crate) fn change(
        &mut self,
        alloc: Global,
        uri: &str,
        version: i64,
        changes: &[Change<'_>],
    ) -> Result<(), Fault>
        ensures changes { OnOk result (ChangesText uri.now version changes.now self.old self.new) }
        ensures why { IfErr result (λ fault. IsNoMemory fault
            ⊎ ((SaysNotOpen fault × (get_by_text self.old uri.now ≡ None)) ⊎ (SaysNoPlace fault × HasNoText uri.now changes.now self.old))) }
        ensures err { OnErr result (self.new.entries ≡ self.old.entries) }
    {
        let opened = self.opened.get_mut(uri).ok_or(NOT_OPEN)?;
        opened.change(alloc, version, changes)?;
        self.trees.forget(uri);
        Ok(())
    }

    /// Takes out the document under this uri, if it is open.
    pub(crate) fn remove(&mut self, uri: &str) -> Option<Opened>
        ensures value { result ≡ get_by_text self.old uri.now }
        ensures puts { PutsIn uri.now None self.old self.new }
        ensures unchanged { IfNone result (self.new.entries ≡ self.old.entries) }
    {
        let opened = self.opened.remove(uri);
        self.trees.forget(uri);
        opened
    }
}
