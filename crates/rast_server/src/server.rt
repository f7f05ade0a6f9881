//! The state of the server, and what each message does to it.
ghost use Rattle.std.specs.Prelude.{◌≡◌, ◌⊎◌, ◌<◌, ◌≤◌, ◌↔◌, ℕ, List, [], IfErr, IfOk, IsSome, IsTrue, OnErr, OnOk, codes, false, true, length, option_map, string_bytes};
ghost use Rattle.rap_base.specs.declared.edition.Edition.TheVariants.{Edition2024};
ghost use Rattle.rast_answers.specs.Listings.{AreElementsOf, AreListsOf};
ghost use Rattle.std.specs.BTreeMap.{get_by_text};
ghost use Rattle.rast_server.specs.Trees.{AreKeptOf};
ghost use Rattle.serde_json.specs.Data.{null};
ghost use Rattle.serde_json.specs.View.{view};
ghost use Rattle.serde_json.specs.Written.{has_float};
ghost use Rattle.rast_document.specs.Changes.{AllChange};
ghost use Rattle.rast_messages.specs.declared.reply.Code.TheVariants.{InternalError, InvalidRequest, ParseError};
ghost use Rattle.rast_server.specs.Answered.{Answers, Grants, Heeds, IsAboutDocument, IsHeeded, IsAnswer, IsRefusedAbout, IsRefusedAt, IsUnanswered, IsUntold, Refuses, Reports, status_of};
ghost use Rattle.rast_server.specs.Documents.{Cannot, CannotChange, CannotClose, CannotOpen, Changes, Closes, Does, IsNoMemory, KeepsDocuments, Leaves, Opens, SaysNoPlace, opened_text};
ghost use Rattle.rast_server.specs.Limited.{AreLonger, AreSelections, Fails, Gives, IsGiven, IsOfPlaces, IsParsedAt, IsProportional, IsWithheld, SaysTooDeep, SaysTooLong, shown_text};
ghost use Rattle.rast_server.specs.declared.limit.TheConstants.{LIMIT};
ghost use Rattle.rast_server.specs.declared.server.Stage.TheVariants.{Fresh, Ready, ShutDown};

use crate::answers::{folds, highlights, push_diagnostics, tokens};
use crate::initialize::capabilities;
use crate::limit::TOO_DEEP;
use crate::open_documents::Documents;
use crate::outline::symbols;
use crate::selected::selections;
use crate::tree::tree_string;
use crate::trees::Lists;
use flat_tree::Element;
use ra_ap_parser::{NoMemory, TextFault};
use rast_answers::{Diagnostic, Listing, diagnostics};
use rast_document::{Change, ChangeFault, Document, Encoding};
use rast_messages::{
    Code, Fault, Message, NO_MEMORY, begin_notification, changes_in, classify, encoding_of, error,
    log, position_in, positions_in, push_string, span_in, success, uri_of, version_of,
};
use serde_json::Value;
use std::alloc::{AllocError, Global};
use std::fmt::Write as _;

/// How far the server has come.
#[derive(Clone, Copy, Debug, PartialEq, Eq)]
enum Stage {
    /// It waits for `initialize`.
    Fresh,
    /// It answers.
    Ready,
    /// `shutdown` has come.
    ShutDown,
}

/// A document that the editor has open.
#[derive(Drop)]
pub(crate) struct Opened {
    pub(crate) version: i64,
    pub(crate) document: Document,
}

impl Opened {
    // Makes changes. After an error the document is as before.
    pub(crate) fn change(
        &mut self,
        alloc: Global,
        version: i64,
        changes: &[Change<'_>],
    ) -> Result<(), Fault>
        ensures ok { OnOk result (AllChange self.old.document.encoding (string_bytes self.old.document.text) changes.now
            (string_bytes self.new.document.text)) }
        ensures encoding { self.new.document.encoding ≡ self.old.document.encoding }
        ensures version { OnOk result (self.new.version ≡ version) }
        ensures why { IfErr result (λ fault. IsNoMemory fault ⊎ (SaysNoPlace fault × ((text : List ℕ)
            → ¬ AllChange self.old.document.encoding (string_bytes self.old.document.text) changes.now text))) }
        ensures err { OnErr result (self.new ≡ self.old) }
    {
        match self.document.change(alloc, changes) {
            Ok(()) => {
                self.version = version;
                Ok(())
            }
            Err(ChangeFault::NoRange) => Err(NO_PLACE),
            Err(ChangeFault::NoMemory) => Err(NO_MEMORY),
        }
    }
}

/// The server.
#[derive(Drop)]
pub struct Server {
    stage: Stage,
    encoding: Encoding,
    documents: Documents,
}

/// The result of a request, a JSON text, and what the request makes of the server.
#[derive(Drop)]
pub struct Granted {
    text: String,
    stage: Stage,
    encoding: Encoding,
}

/// What is sent for a message: JSON texts.
#[derive(Drop)]
pub enum Outcome {
    /// Nothing.
    Nothing,
    /// The reply to a request, or to a message that is none.
    Reply(String),
    /// A notification.
    Note(String),
    /// Nothing, and the server ends with this status.
    Exit(u8),
}

/// A request that is none at this time.
const NOT_NOW: Fault = Fault {
    code: Code::InvalidRequest,
    text: "not a request for this time",
};

/// The parameters of a method are wrong.
const WRONG_PARAMS: Fault = Fault {
    code: Code::InvalidParams,
    text: "the parameters are not those of the method",
};

/// The document of a message is not open.
pub(crate) const NOT_OPEN: Fault = Fault {
    code: Code::InvalidParams,
    text: "the document is not open",
};

/// No request but `initialize` is granted yet.
const NOT_INITIALIZED: Fault = Fault {
    code: Code::ServerNotInitialized,
    text: "the server is not initialized",
};

/// The server has no such method.
const NO_METHOD: Fault = Fault {
    code: Code::MethodNotFound,
    text: "the server has no such method",
};

/// The content of a message is no JSON.
const NO_JSON: Fault = Fault {
    code: Code::ParseError,
    text: "the content is no JSON in UTF-8",
};

/// A position or a range is none of the document.
pub(crate) const NO_PLACE: Fault = Fault {
    code: Code::InvalidParams,
    text: "the position or range is none of the document",
};

/// Why a text has no tree.
fn fault_of(fault: TextFault<NoMemory>) -> Fault
    ensures { result.code ≡ InternalError }
{
    match fault {
        TextFault::TextTooLong => Fault {
            code: Code::InternalError,
            text: "text too long",
        },
        TextFault::TooManyTokens => Fault {
            code: Code::InternalError,
            text: "too many tokens",
        },
        TextFault::NoMemory | TextFault::Refused(_) => NO_MEMORY,
    }
}

/// Adds the message that a document has no tree.
fn push_fault(
    json: &mut String,
    document: &Document,
    fault: TextFault<NoMemory>,
) -> Result<(), Fault>
    ensures { IfErr result IsNoMemory }
{
    let fault = fault_of(fault);
    if fault.text == NO_MEMORY.text {
        return Err(NO_MEMORY);
    }
    let none = Diagnostic {
        text: fault.text,
        start: 0,
        end: 0,
    };
    Ok(push_diagnostics(json, document, &[none])?)
}

/// Adds the messages of the tree of a document.
fn push_listed(
    alloc: Global,
    json: &mut String,
    document: &Document,
    lists: &Lists,
) -> Result<(), Fault>
    requires { AreListsOf (string_bytes document.now.text) Edition2024 lists.now.elements.items lists.now.messages.items }
    ensures { IfErr result IsNoMemory }
{
    let list = diagnostics(alloc, lists.messages())?;
    Ok(push_diagnostics(json, document, list.as_slice())?)
}

/// Adds the messages of a document, or the one that it has no tree. Returns the nodes and leaves of its tree, for which it
/// is parsed.
fn push_messages(
    alloc: Global,
    json: &mut String,
    document: &Document,
) -> Result<Option<Vec<Element>>, Fault>
    ensures tree { IfOk result (λ tree. AreKeptOf (string_bytes document.now.text) tree) }
    ensures why { IfErr result IsNoMemory }
{
    match Lists::of_document(alloc, document) {
        Ok(lists) => {
            push_listed(alloc, json, document, &lists)?;
            Ok(Some(lists.into_elements()))
        }
        Err(fault) => {
            push_fault(json, document, fault)?;
            Ok(None)
        }
    }
}

/// The notification of a document's messages, up to these.
fn begin_messages(alloc: Global, uri: &str) -> Result<String, AllocError> {
    let mut json = begin_notification(alloc, "textDocument/publishDiagnostics")?;
    json.push_str("{\"uri\":")?;
    push_string(&mut json, uri)?;
    Ok(json)
}

/// The notification of a document's messages, and the nodes and leaves of its tree, for which it is parsed, if it has one.
/// Where no memory is left for the end, the tree is given up.
fn published(
    alloc: Global,
    uri: &str,
    version: i64,
    document: &Document,
) -> Result<(String, Option<Vec<Element>>), Fault>
    ensures tree { IfOk result (λ made. AreKeptOf (string_bytes document.now.text) made.1) }
    ensures why { IfErr result IsNoMemory }
{
    let mut json = begin_messages(alloc, uri)?;
    write!(json, ",\"version\":{version},\"diagnostics\":[").map_err(AllocError::from)?;
    let tree = push_messages(alloc, &mut json, document)?;
    if json.push_str("]}}").is_ok() {
        return Ok((json, tree));
    }
    drop(tree);
    json.push_str("]}}")?;
    Ok((json, None))
}

/// The notification of the messages of an open document, for which it is parsed. Its tree is kept.
fn republished(alloc: Global, uri: &str, documents: &mut Documents) -> Result<String, Fault>
    requires { IsSome (get_by_text documents.old uri.now) }
    ensures same { documents.new ≡ documents.old }
    ensures why { IfErr result IsNoMemory }
{
    documents.prepare(uri);
    let opened = documents.get(uri);
    let (note, tree) = published(alloc, uri, opened.version, &opened.document)?;
    documents.keep(alloc, uri, tree);
    Ok(note)
}

/// The notification that a document has no messages any more.
fn withdrawn(alloc: Global, uri: &str) -> Result<String, Fault>
    ensures { IfErr result IsNoMemory }
{
    let mut json = begin_messages(alloc, uri)?;
    json.push_str(",\"diagnostics\":[]}}")?;
    Ok(json)
}

/// The text that a `didOpen` brings.
fn opened_text(params: &Value) -> Option<&str>
    ensures { option_map (λ text. text.now) result ≡ opened_text (view params.now) }
{
    params.pointer("/textDocument/text").and_then(Value::as_str)
}

/// What may be selected around the positions of a message.
fn selected(alloc: Global, listing: &Listing<'_>, params: &Value) -> Result<String, Fault>
    ensures selected { IfOk result (λ text. AreSelections listing.now.document.now listing.now.elements.now (view params.now) (string_bytes text)) }
    ensures within { IfOk result (λ text. length (string_bytes text) ≤ LIMIT) }
    ensures why { IfErr result (λ fault. IsOfPlaces fault.code
        ⊎ (SaysTooLong fault × AreLonger listing.now.document.now listing.now.elements.now (view params.now))) }
{
    let positions = positions_in(alloc, params)?.ok_or(WRONG_PARAMS)?;
    selections(alloc, listing, positions.as_slice())
}

/// The tree of a document.
#[tactic(auto, using(crate::proofs::Parsed::have_places, crate::proofs::Parsed::parents_first))]
fn shown(alloc: Global, listing: &Listing<'_>) -> Result<String, Fault>
    requires { AreElementsOf (string_bytes listing.now.document.now.text) Edition2024 listing.now.elements.now }
    ensures text { IfOk result (λ text. string_bytes text ≡ shown_text listing.now.document.now listing.now.elements.now) }
    ensures within { IfOk result (λ text. length (string_bytes text) ≤ LIMIT) }
    ensures why { IfErr result (λ fault. (fault.code ≡ InternalError)
        ⊎ (SaysTooDeep fault × (LIMIT < length (shown_text listing.now.document.now listing.now.elements.now)))) }
{
    tree_string(alloc, listing.document().text(), listing.elements())?.ok_or(TOO_DEEP)
}

/// What belongs together with what stands at the position of a message.
fn highlighted(alloc: Global, listing: &Listing<'_>, params: &Value) -> Result<String, Fault>
    ensures { IfErr result (λ fault. IsOfPlaces fault.code) }
{
    let place = params.get("position").ok_or(WRONG_PARAMS)?;
    let position = position_in(place).ok_or(WRONG_PARAMS)?;
    let offset = listing.document().offset(position).ok_or(NO_PLACE)?;
    Ok(highlights(alloc, listing, offset)?)
}

/// The tokens of the range of a message.
fn tokens_of_range(alloc: Global, listing: &Listing<'_>, params: &Value) -> Result<String, Fault>
    ensures { IfErr result (λ fault. IsOfPlaces fault.code) }
{
    let range = params.get("range").ok_or(WRONG_PARAMS)?;
    let span = span_in(range).ok_or(WRONG_PARAMS)?;
    let start = listing.document().offset(span.start).ok_or(NO_PLACE)?;
    let end = listing.document().offset(span.end).ok_or(NO_PLACE)?;
    let list = listing.tokens_within(alloc, start, end)?;
    Ok(tokens(alloc, list.as_slice())?)
}

/// The result of a request about a document, which is no longer than in proportion to the text and the message.
fn proportional(
    alloc: Global,
    listing: &Listing<'_>,
    method: &str,
    params: &Value,
) -> Result<String, Fault>
    requires about { IsAboutDocument method.now }
    requires proportional { IsProportional method.now }
    ensures { IfErr result (λ fault. Fails method.now fault.code) }
{
    match method {
        "textDocument/foldingRange" => Ok(folds(alloc, listing)?),
        "textDocument/documentHighlight" => highlighted(alloc, listing, params),
        "textDocument/semanticTokens/full" => {
            let list = listing.tokens(alloc)?;
            Ok(tokens(alloc, list.as_slice())?)
        }
        _ => tokens_of_range(alloc, listing, params),
    }
}

/// The result of a request about a document, of which the tree is known. If it may be longer than in proportion to the
/// text and the message, it is within the limit.
fn answered(
    alloc: Global,
    listing: &Listing<'_>,
    method: &str,
    params: &Value,
) -> Result<String, Fault>
    requires tree { AreElementsOf (string_bytes listing.now.document.now.text) Edition2024 listing.now.elements.now }
    requires about { IsAboutDocument method.now }
    ensures given { IfOk result (λ text. IsGiven listing.now.document.now listing.now.elements.now method.now (view params.now) (string_bytes text)) }
    ensures why { IfErr result (λ fault. Fails method.now fault.code
        ⊎ IsWithheld listing.now.document.now listing.now.elements.now method.now (view params.now) fault) }
{
    match method {
        "rust-analyzer/viewSyntaxTree" => shown(alloc, listing),
        "textDocument/selectionRange" => selected(alloc, listing, params),
        "textDocument/documentSymbol" => symbols(alloc, listing),
        _ => proportional(alloc, listing, method, params),
    }
}

/// The result of a request about an open document. It is parsed if its tree is not kept, and that is kept then.
fn result_of(
    alloc: Global,
    documents: &mut Documents,
    uri: &str,
    method: &str,
    params: &Value,
) -> Result<String, Fault>
    requires is_open { IsSome (get_by_text documents.old uri.now) }
    requires about { IsAboutDocument method.now }
    ensures same { documents.new ≡ documents.old }
    ensures given { IfOk result (λ text. IsParsedAt documents.old uri.now (λ d es. IsGiven d es method.now (view params.now) (string_bytes text))) }
    ensures why { IfErr result (λ fault. Fails method.now fault.code
        ⊎ IsParsedAt documents.old uri.now (λ d es. IsWithheld d es method.now (view params.now) fault)) }
{
    documents.prepare(uri);
    if let Some(listing) = documents.listing(uri) {
        return answered(alloc, &listing, method, params);
    }
    let document = &documents.get(uri).document;
    match Lists::of_document(alloc, document) {
        Ok(lists) => {
            let result = answered(alloc, &lists.listing(document), method, params);
            documents.keep(alloc, uri, Some(lists.into_elements()));
            result
        }
        Err(fault) => Err(fault_of(fault)),
    }
}

/// Whether a method is a request about a document.
fn is_about_document(method: &str) -> bool
    ensures { IsTrue result ↔ IsAboutDocument method.now }
{
    matches!(
        method,
        "textDocument/documentSymbol"
            | "textDocument/foldingRange"
            | "textDocument/selectionRange"
            | "textDocument/documentHighlight"
            | "textDocument/semanticTokens/full"
            | "textDocument/semanticTokens/range"
            | "rust-analyzer/viewSyntaxTree"
    )
}

/// Whether a method is a notification about a document.
fn is_heeded(method: &str) -> bool
    ensures { IsTrue result ↔ IsHeeded method.now }
{
    matches!(
        method,
        "textDocument/didOpen" | "textDocument/didChange" | "textDocument/didClose"
    )
}

impl Server {
    /// A server that waits for `initialize`.
    pub fn new(alloc: Global) -> Server
        ensures stage { result.stage ≡ Fresh }
        ensures documents { result.documents.entries ≡ [] }
    {
        Server {
            stage: Stage::Fresh,
            encoding: Encoding::Utf16,
            documents: Documents::new(alloc),
        }
    }

    /// The status with which the server ends: 0 if `shutdown` has come, else 1.
    pub fn status(&self) -> u8
        ensures value { result ≡ status_of self.now.stage }
        ensures small { result ≤ 1 }
    {
        if self.stage == Stage::ShutDown { 0 } else { 1 }
    }

    /// What is sent for a message. The error means that there is no memory even for the report of that.
    pub fn answer(&mut self, alloc: Global, content: &[u8]) -> Result<Outcome, AllocError>
        ensures answers { IfOk result (λ outcome. IsAnswer self.old content.now outcome self.new) }
        ensures unanswered { OnErr result (IsUnanswered self.old content.now self.new) }
    {
        let message = match Value::from_slice(alloc, content) {
            Ok(message) => message,
            Err(fault) => return unread(alloc, fault.is_memory()),
        };
        let none = Value::Null;
        let params = message.get("params").unwrap_or(&none);
        match classify(&message) {
            Message::Request { id, method } => self.reply(alloc, id, method, params),
            Message::Notification { method } => self.take(alloc, method, params),
            Message::Response => Ok(Outcome::Nothing),
            Message::Invalid { id } => {
                let fault = no_message();
                Ok(Outcome::Reply(error(alloc, id, fault)?))
            }
        }
    }

    // The reply to a request. It changes the server only once the reply is made.
    fn reply(
        &mut self,
        alloc: Global,
        id: &Value,
        method: &str,
        params: &Value,
    ) -> Result<Outcome, AllocError>
        ensures answers { IfOk result (λ outcome. has_float (view id.now) ≡ false → Answers self.old (view id.now) method.now (view params.now) outcome self.new) }
        ensures err { OnErr result (self.new ≡ self.old) }
    {
        let granted = match self.request(alloc, method, params) {
            Ok(granted) => granted,
            Err(fault) => return Ok(Outcome::Reply(error(alloc, Some(id), fault)?)),
        };
        let Ok(reply) = success(alloc, id, granted.text.as_str()) else {
            let fault = Fault::from(AllocError);
            return Ok(Outcome::Reply(error(alloc, Some(id), fault)?));
        };
        self.stage = granted.stage;
        self.encoding = granted.encoding;
        Ok(Outcome::Reply(reply))
    }

    // The result of a request.
    fn request(&mut self, alloc: Global, method: &str, params: &Value) -> Result<Granted, Fault>
        ensures same { self.new ≡ self.old }
        ensures grants { IfOk result (Grants self.old method.now (view params.now)) }
        ensures refuses { IfErr result (Refuses self.old method.now (view params.now)) }
    {
        match self.stage {
            Stage::Fresh => started(alloc, method, params),
            Stage::Ready => self.asked(alloc, method, params),
            Stage::ShutDown => Err(NOT_NOW),
        }
    }

    // The result of a request after `initialize`.
    fn asked(&mut self, alloc: Global, method: &str, params: &Value) -> Result<Granted, Fault>
        requires { self.old.stage ≡ Ready }
        ensures same { self.new ≡ self.old }
        ensures grants { IfOk result (Grants self.old method.now (view params.now)) }
        ensures refuses { IfErr result (Refuses self.old method.now (view params.now)) }
    {
        if method == "initialize" {
            return Err(NOT_NOW);
        }
        if method == "shutdown" {
            return Ok(Granted {
                text: String::from_str(alloc, "null")?,
                stage: Stage::ShutDown,
                encoding: self.encoding,
            });
        }
        if !is_about_document(method) {
            return Err(NO_METHOD);
        }
        Ok(Granted {
            text: self.about_document(alloc, method, params)?,
            stage: Stage::Ready,
            encoding: self.encoding,
        })
    }

    // The result of a request about a document.
    fn about_document(
        &mut self,
        alloc: Global,
        method: &str,
        params: &Value,
    ) -> Result<String, Fault>
        requires { IsAboutDocument method.now }
        ensures same { self.new ≡ self.old }
        ensures gives { IfOk result (λ text. Gives self.old method.now (view params.now) (string_bytes text)) }
        ensures why { IfErr result (λ fault. (fault.code ≡ InternalError) ⊎ IsRefusedAbout self.old method.now (view params.now) fault) }
    {
        let uri = uri_of(params).ok_or(WRONG_PARAMS)?;
        if !self.documents.has(uri) {
            return Err(NOT_OPEN);
        }
        result_of(alloc, &mut self.documents, uri, method, params)
    }

    // What is sent for a notification.
    fn take(&mut self, alloc: Global, method: &str, params: &Value) -> Result<Outcome, AllocError>
        ensures heeds { IfOk result (λ outcome. Heeds self.old method.now (view params.now) outcome self.new) }
        ensures untold { OnErr result (IsUntold self.old method.now (view params.now) self.new) }
    {
        if method == "exit" {
            return Ok(Outcome::Exit(self.status()));
        }
        if self.stage != Stage::Ready || !is_heeded(method) {
            return Ok(Outcome::Nothing);
        }
        match self.heed(alloc, method, params) {
            Ok(note) => Ok(Outcome::Note(note)),
            Err(fault) => Ok(Outcome::Note(log(alloc, method, fault)?)),
        }
    }

    // What is sent for a notification about a document.
    fn heed(&mut self, alloc: Global, method: &str, params: &Value) -> Result<String, Fault>
        requires { IsHeeded method.now }
        ensures stage { self.new.stage ≡ self.old.stage }
        ensures encoding { self.new.encoding ≡ self.old.encoding }
        ensures does { OnOk result (Does method.now (view params.now) self.old self.new) }
        ensures why { IfErr result (λ fault. Cannot method.now (view params.now) self.old fault) }
        ensures leaves { IfErr result (λ fault. Leaves method.now (view params.now) fault self.old self.new) }
    {
        match method {
            "textDocument/didOpen" => self.open(alloc, params),
            "textDocument/didChange" => self.change(alloc, params),
            _ => self.close(alloc, params),
        }
    }

    fn open(&mut self, alloc: Global, params: &Value) -> Result<String, Fault>
        ensures stage { self.new.stage ≡ self.old.stage }
        ensures encoding { self.new.encoding ≡ self.old.encoding }
        ensures opens { OnOk result (Opens (view params.now) self.old self.new) }
        ensures why { IfErr result (λ fault. CannotOpen (view params.now) fault) }
        ensures err { OnErr result (KeepsDocuments self.old self.new) }
    {
        let uri = uri_of(params).ok_or(WRONG_PARAMS)?;
        let version = version_of(params).ok_or(WRONG_PARAMS)?;
        let text = opened_text(params).ok_or(WRONG_PARAMS)?;
        self.documents.prepare(uri);
        let text = String::from_str(alloc, text)?;
        let document = Document::new(alloc, self.encoding, text)?;
        let (note, tree) = published(alloc, uri, version, &document)?;
        let opened = Opened { version, document };
        self.documents.insert(alloc, uri, opened)?;
        self.documents.keep(alloc, uri, tree);
        Ok(note)
    }

    fn change(&mut self, alloc: Global, params: &Value) -> Result<String, Fault>
        ensures stage { self.new.stage ≡ self.old.stage }
        ensures encoding { self.new.encoding ≡ self.old.encoding }
        ensures changes { OnOk result (Changes (view params.now) self.old self.new) }
        ensures why { IfErr result (λ fault. CannotChange (view params.now) self.old fault) }
        ensures err { IfErr result (λ fault. KeepsDocuments self.old self.new
            ⊎ (IsNoMemory fault × Changes (view params.now) self.old self.new)) }
    {
        let uri = uri_of(params).ok_or(WRONG_PARAMS)?;
        let version = version_of(params).ok_or(WRONG_PARAMS)?;
        let changes = changes_in(alloc, params)?.ok_or(WRONG_PARAMS)?;
        self.documents
            .change(alloc, uri, version, changes.as_slice())?;
        republished(alloc, uri, &mut self.documents)
    }

    fn close(&mut self, alloc: Global, params: &Value) -> Result<String, Fault>
        ensures stage { self.new.stage ≡ self.old.stage }
        ensures encoding { self.new.encoding ≡ self.old.encoding }
        ensures closes { OnOk result (Closes (view params.now) self.old self.new) }
        ensures why { IfErr result (λ fault. CannotClose (view params.now) self.old fault) }
        ensures err { OnErr result (KeepsDocuments self.old self.new) }
    {
        let uri = uri_of(params).ok_or(WRONG_PARAMS)?;
        let note = withdrawn(alloc, uri)?;
        if self.documents.remove(uri).is_none() {
            return Err(NOT_OPEN);
        }
        Ok(note)
    }
}

// The result of `initialize`. Nothing else is granted before it.
fn started(alloc: Global, method: &str, params: &Value) -> Result<Granted, Fault>
    ensures grants { IfOk result (λ granted. (method.now ≡ codes "initialize") × (granted.stage ≡ Ready)) }
    ensures refuses { IfErr result (λ fault. IsRefusedAt Fresh method.now fault.code) }
{
    if method != "initialize" {
        return Err(NOT_INITIALIZED);
    }
    let encoding = encoding_of(params);
    Ok(Granted {
        text: capabilities(alloc, encoding)?,
        stage: Stage::Ready,
        encoding,
    })
}

// What is said of a message that is none.
fn no_message() -> Fault
    ensures { result.code ≡ InvalidRequest }
{
    Fault {
        code: Code::InvalidRequest,
        text: "not a message of JSON-RPC 2.0",
    }
}

// What is sent for a content that is no JSON, or that memory ran out for.
fn unread(alloc: Global, is_memory: bool) -> Result<Outcome, AllocError>
    ensures memory { IfOk result (λ outcome. is_memory ≡ true → Reports InternalError null outcome) }
    ensures no_json { IfOk result (λ outcome. is_memory ≡ false → Reports ParseError null outcome) }
{
    let fault = if is_memory { NO_MEMORY } else { NO_JSON };
    Ok(Outcome::Reply(error(alloc, None, fault)?))
}
