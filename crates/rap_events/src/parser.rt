//! The parser: a position in the input, and the events that were recorded so far.
ghost use Rattle.std.specs.Prelude.{◌≡◌, ◌==◌, ◌^◌, ◌*◌, ◌/◌, ◌%◌, ◌≢◌, ℕ, ◌+◌, ◌-◌, ◌<◌, ◌≤◌, List, [], ◌∷◌, ◌++◌, length, drop, map, true, All, AllPairs, IfOk, OnOk, IsTrue, Some, None, string_bytes, if◌then◌else◌};
ghost use Rattle.rap_base.specs.TokenKind.{EOF, IDENT, FLOAT_NUMBER};
ghost use Rattle.rap_base.specs.NodeKind.{FIELD_EXPR};
ghost use Rattle.rap_base.specs.TokenSet.{member};
ghost use Rattle.rap_base.specs.Keyword.{is_any_identifier};
ghost use Rattle.rap_events.specs.Record.{kind_at, IsTokenRecord};
ghost use Rattle.rap_events.specs.Cover.{stand, widths};
ghost use Rattle.rap_events.specs.History.{history, reported_by};
ghost use Rattle.rap_events.specs.Machine.{run, initial, all_leaves, all_splits_placed};
ghost use Rattle.rap_events.specs.Fit.{AllFit};
ghost use Rattle.rap_events.specs.FloatSplit.{split_calls};
ghost use Rattle.rap_events.specs.declared.event.Event.TheVariants as event;
ghost use Rattle.std.proofs.Props.{props};

use crate::event::Event;
use crate::input::Input;
use crate::list::push_in_place;
use crate::output::Output;
use crate::word::Word;
use rap_base::edition::Edition;
use rap_base::no_memory::NoMemory;
use rap_base::syntax_kind::SyntaxKind;
use rap_base::token_set::TokenSet;
use std::alloc::Global;
use std::snapshot::Snapshot;

mod composite;

use composite::at_place;
pub use composite::width_of;

/// How many messages a word can number.
const MESSAGE_NUMBERS: usize = 1 << 31;

/// Reads an input from its beginning and records events.
///
/// After a call that was out of memory a parser must not be used any more: what it has recorded is not specified.
#[derive(Drop)]
pub struct Parser<'t> {
    alloc: Global,
    input: &'t Input,
    len: usize,
    pos: usize,
    // The kind of the token at `pos`, or `EOF` at the end: most tests ask for it.
    next: SyntaxKind,
    events: Vec<Word>,
    messages: Vec<String>,
    ghost tokens: { All IsTokenRecord input.now },
    ghost ends: { len ≡ length input.now },
    ghost in_input: { pos ≤ len },
    ghost here: { next ≡ kind_at input.now pos },
    ghost reported: { reported_by events.items ≡ length messages.items },
    ghost sound: { (run initial (history events.items (map string_bytes messages.items))).sound ≡ true },
    ghost covers: { stand (all_leaves (run initial (history events.items (map string_bytes messages.items)))) input.now ≡ true },
    ghost place: { widths (all_leaves (run initial (history events.items (map string_bytes messages.items)))) ≡ pos },
    ghost splits: { all_splits_placed (run initial (history events.items (map string_bytes messages.items))) ≡ true },
    ghost fit: { (run initial (history events.items (map string_bytes messages.items))).messages ≡ 0 → ∥ AllFit (run initial (history events.items (map string_bytes messages.items))) ∥₁ },
}

/// A node that was started and not finished: the number of the call that started it, which only contracts see.
#[derive(Drop)]
pub struct Marker {
    pos: Snapshot<usize>,
}

/// A node that was finished: the number of calls up to then, and its kind, which only contracts see.
#[derive(Drop)]
pub struct CompletedMarker {
    end: Snapshot<usize>,
    kind: Snapshot<SyntaxKind>,
}

impl<'t> Parser<'t> {
    ghost use Rattle.rap_events.specs.History as call;
    ghost use Rattle.rap_events.specs.Cover.{stands, covers, of_tokens};
    ghost use Rattle.rap_events.specs.Fit.{AllFitIn};
    ghost use Rattle.rap_events.specs.Forest.{flat, used, message_count, splits_placed};
    ghost use Rattle.rap_events.specs.Interval.{tree_steps, nodes_of, Nested};
    ghost use Rattle.rap_events.specs.LastToken.{last_taken};
    ghost use Rattle.rap_events.specs.Machine.{floor};
    ghost use Rattle.rap_events.specs.Composite.{is_at, width};
    ghost use Rattle.rap_events.specs.Record.{contextual_at, edition_at};
    ghost use Rattle.rap_events.specs.State.{state, calls, start_state, Opened, Bumped, SplitFloat, IsLast, Reported, Ate, AteAs, Expected, Skipped, Recovered, is_kept, expected, with_kind, skip_calls, next, next_contextual, At, ReadsAs};

    /// Makes a parser at the first token, with nothing recorded. No memory is allocated.
    pub fn new(alloc: Global, input: &'t Input) -> Self
        ensures state { state result ≡ start_state input.now }
        ensures calls { calls result ≡ [] }
    {
        Parser {
            alloc,
            input,
            len: input.len(),
            pos: 0,
            next: input.kind(0),
            events: Vec::new(alloc),
            messages: Vec::new(alloc),
        }
    }

    /// Returns the kind of the next token, or `EOF` if none is left.
    pub fn current(&self) -> SyntaxKind
        ensures kind { result ≡ next (state self.now) }
        ensures end { result ≡ EOF → (state self.now).rest ≡ [] }
    {
        self.next
    }

    /// Returns the kind of the token `n` places after the next one, or `EOF` past the last token.
    pub fn nth(&self, n: usize) -> SyntaxKind
        requires { n < 4 }
        ensures { result ≡ kind_at (state self.now).rest n }
    {
        self.input.kind(self.ahead(n))
    }

    // The place that many tokens after the next one, or the end.
    fn ahead(&self, n: usize) -> usize
        ensures { drop result self.now.input.now ≡ drop n (state self.now).rest }
    {
        self.pos + n.min(self.len - self.pos)
    }

    /// Returns the number of tokens that are left.
    pub fn left(&self) -> usize
        ensures { result ≡ (state self.now).left }
    {
        self.len - self.pos
    }

    /// Returns the edition of the next token, or the latest edition if none is left.
    pub fn current_edition(&self) -> Edition
        ensures { result ≡ edition_at (state self.now).rest 0 }
    {
        self.input.edition(self.pos)
    }

    /// Returns whether a token of this kind comes next. An operator of two or three tokens comes next if its tokens
    /// follow one another and each but the last touches the one after it.
    pub fn at(&self, kind: SyntaxKind) -> bool
        ensures { result ≡ is_at kind (state self.now).rest }
    {
        at_place(self.input, self.pos, self.next, kind)
    }

    /// The same after `n` tokens.
    pub fn nth_at(&self, n: usize, kind: SyntaxKind) -> bool
        ensures { result ≡ is_at kind (drop n (state self.now).rest) }
    {
        let place = self.ahead(n);
        at_place(self.input, place, self.input.kind(place), kind)
    }

    /// Whether the next token's kind is in the set.
    pub fn at_ts(&self, kinds: TokenSet) -> bool
        ensures { result ≡ member kinds (next (state self.now)) }
    {
        kinds.contains(self.current())
    }

    /// The same for the token `n` places after the next one.
    pub fn nth_at_ts(&self, n: usize, kinds: TokenSet) -> bool
        requires { n < 4 }
        ensures { result ≡ member kinds (kind_at (state self.now).rest n) }
    {
        kinds.contains(self.nth(n))
    }

    /// Whether the next token is an identifier that may be read as this keyword.
    pub fn at_contextual_kw(&self, kw: SyntaxKind) -> bool
        requires { kw ≢ EOF }
        ensures here { result ≡ (next_contextual (state self.now) == kw) }
        ensures reads_as { IsTrue result → ReadsAs (state self.now) kw }
    {
        self.input.contextual_kind(self.pos) == kw
    }

    /// The same after `n` tokens.
    pub fn nth_at_contextual_kw(&self, n: usize, kw: SyntaxKind) -> bool
        requires near { n < 4 }
        requires keyword { kw ≢ EOF }
        ensures { result ≡ (contextual_at (state self.now).rest n == kw) }
    {
        self.input.contextual_kind(self.ahead(n)) == kw
    }

    /// Returns the kind under which the last token was taken, or `EOF` if none was. The parts of a split float do not
    /// count.
    pub fn last_token(&self) -> SyntaxKind
        ensures { result ≡ last_taken (state self.now) }
    {
        let mut i = self.events.len();
        while i > 0 {
            i -= 1;
            let word = self.events[i];
            if let Event::Token { kind, .. } = word.event() {
                return kind;
            }
        }
        SyntaxKind::EOF
    }

    /// Takes a token of this kind if one comes next. Returns whether it did.
    pub fn eat(&mut self, kind: SyntaxKind) -> Result<bool, NoMemory>
        requires { kind ≢ EOF }
        ensures state { IfOk result (λ taken. Ate (state self.old) (state self.new) kind taken) }
        ensures recorded { IfOk result (λ taken. calls self.new ≡ calls self.old ++ (if taken then call.token kind (width kind) ∷ [] else [])) }
    {
        if self.at(kind) {
            self.bump(kind)?;
            Ok(true)
        } else {
            Ok(false)
        }
    }

    /// Takes the next token as this keyword if it is an identifier that may be read as it. Returns whether it did.
    pub fn eat_contextual_kw(&mut self, kw: SyntaxKind) -> Result<bool, NoMemory>
        requires { kw ≢ EOF }
        ensures state { IfOk result (λ taken. AteAs (state self.old) (state self.new) kw taken) }
        ensures recorded { IfOk result (λ taken. calls self.new ≡ calls self.old ++ (if taken then call.token kw 1 ∷ [] else [])) }
    {
        if self.at_contextual_kw(kw) {
            self.bump_remap(kw)?;
            Ok(true)
        } else {
            Ok(false)
        }
    }

    /// Takes the next token, which must be of this kind.
    pub fn bump(&mut self, kind: SyntaxKind) -> Result<(), NoMemory>
        requires here { At (state self.old) kind }
        requires some { kind ≢ EOF }
        ensures state { OnOk result (Bumped (state self.old) (state self.new) kind (width kind)) }
        ensures recorded { OnOk result (calls self.new ≡ calls self.old ++ call.token kind (width kind) ∷ []) }
    {
        let n_input_tokens = width_of(kind);
        self.take(kind, n_input_tokens)?;
        Ok(())
    }

    /// Takes the next token under its own kind. There must be one.
    pub fn bump_any(&mut self) -> Result<(), NoMemory>
        requires { next (state self.old) ≢ EOF }
        ensures state { OnOk result (Bumped (state self.old) (state self.new) (next (state self.old)) 1) }
        ensures recorded { OnOk result (calls self.new ≡ calls self.old ++ call.token (next (state self.old)) 1 ∷ []) }
    {
        let kind = self.current();
        self.bump_remap(kind)?;
        Ok(())
    }

    /// Takes the next token under another kind, as which it must be readable: an identifier as its contextual keyword,
    /// or a keyword as an identifier.
    pub fn bump_remap(&mut self, kind: SyntaxKind) -> Result<(), NoMemory>
        requires { ReadsAs (state self.old) kind }
        ensures state { OnOk result (Bumped (state self.old) (state self.new) kind 1) }
        ensures recorded { OnOk result (calls self.new ≡ calls self.old ++ call.token kind 1 ∷ []) }
    {
        self.take(kind, 1)?;
        Ok(())
    }

    /// Takes the next token, an identifier or a keyword, as an identifier.
    pub fn bump_remap_any_ident(&mut self) -> Result<(), NoMemory>
        requires { is_any_identifier (next (state self.old)) ≡ true }
        ensures state { OnOk result (Bumped (state self.old) (state self.new) IDENT 1) }
        ensures recorded { OnOk result (calls self.new ≡ calls self.old ++ call.token IDENT 1 ∷ []) }
    {
        self.bump_remap(SyntaxKind::IDENT)?;
        Ok(())
    }

    /// Takes a token of this kind if one comes next; otherwise reports that it is missing. Returns whether it took one.
    #[inline(always)]
    pub fn expect(&mut self, kind: SyntaxKind) -> Result<bool, NoMemory>
        requires { kind ≢ EOF }
        ensures state { IfOk result (λ taken. Expected (state self.old) (state self.new) kind taken) }
        ensures recorded { IfOk result (λ taken. calls self.new ≡ calls self.old ++ (if taken then call.token kind (width kind) else call.error (expected kind)) ∷ []) }
    {
        if self.eat(kind)? {
            return Ok(true);
        }
        self.report_missing(kind)?;
        Ok(false)
    }

    // Reports that a token of this kind is missing. The call is not inlined: where a token is expected, it mostly comes.
    #[cold]
    #[inline(never)]
    fn report_missing(&mut self, kind: SyntaxKind) -> Result<(), NoMemory>
        ensures state { OnOk result (Reported (state self.old) (state self.new) (expected kind)) }
        ensures recorded { OnOk result (calls self.new ≡ calls self.old ++ call.error (expected kind) ∷ []) }
    {
        let message = self.missing(kind)?;
        self.report(message)?;
        Ok(())
    }

    // The message that a token of this kind is missing.
    fn missing(&self, kind: SyntaxKind) -> Result<String, NoMemory>
        ensures { IfOk result (λ message. string_bytes message ≡ expected kind) }
    {
        let name = kind.name();
        let mut message = String::with_capacity(self.alloc, name.len().saturating_add(9))?;
        message.push_str("expected ")?;
        message.push_str(name)?;
        Ok(message)
    }

    /// Reports a message before the next token.
    #[inline(never)]
    pub fn error(&mut self, message: &str) -> Result<(), NoMemory>
        ensures state { OnOk result (Reported (state self.old) (state self.new) message.now) }
        ensures recorded { OnOk result (calls self.new ≡ calls self.old ++ call.error message.now ∷ []) }
    {
        let message = String::from_str(self.alloc, message)?;
        self.report(message)?;
        Ok(())
    }

    /// Reports a message before the next token. The name of that token's kind is appended to it.
    #[inline(never)]
    pub fn error_with_kind(&mut self, message: &str) -> Result<(), NoMemory>
        ensures state { OnOk result (Reported (state self.old) (state self.new) (with_kind message.now (next (state self.old)))) }
        ensures recorded { OnOk result (calls self.new ≡ calls self.old ++ call.error (with_kind message.now (next (state self.old))) ∷ []) }
    {
        let mut message = String::from_str(self.alloc, message)?;
        message.push_str(self.current().name())?;
        self.report(message)?;
        Ok(())
    }

    /// Reports a message and takes the next token, if there is one, into an `ERROR`.
    #[inline(never)]
    pub fn err_and_bump(&mut self, message: &str) -> Result<(), NoMemory>
        ensures state { OnOk result (Skipped (state self.old) (state self.new) message.now) }
        ensures recorded { OnOk result (calls self.new ≡ calls self.old ++ skip_calls (state self.old).rest message.now) }
    {
        let marker = self.start()?;
        self.error(message)?;
        if self.current() != SyntaxKind::EOF {
            self.bump_any()?;
        }
        marker.complete(self, SyntaxKind::ERROR)?;
        Ok(())
    }

    /// Reports a message and takes the next token into an `ERROR` node. If the token is a brace or its kind is in the
    /// set, only the message is reported. Returns whether the token was kept.
    #[inline(never)]
    pub fn err_recover(&mut self, message: &str, recovery: TokenSet) -> Result<bool, NoMemory>
        ensures state { IfOk result (λ kept. Recovered (state self.old) (state self.new) message.now recovery kept) }
        ensures recorded { IfOk result (λ kept. calls self.new ≡ calls self.old ++ (if kept then call.error message.now ∷ [] else skip_calls (state self.old).rest message.now)) }
    {
        if self.at_kept(recovery) {
            self.error(message)?;
            return Ok(true);
        }
        self.err_and_bump(message)?;
        Ok(false)
    }

    fn at_kept(&self, recovery: TokenSet) -> bool
        ensures { result ≡ is_kept recovery (next (state self.now)) }
    {
        let kind = self.current();
        kind == SyntaxKind::L_CURLY || kind == SyntaxKind::R_CURLY || self.at_ts(recovery)
    }

    /// Splits the next token, which must be a float behind the dot of a field access. `marker`, the newest one, is that
    /// of the field access.
    ///
    /// The field access is finished, and if the float does not end in a dot, so is another one around it: `x.0.1` is a
    /// field of a field. Returns whether the float ends in a dot, and the field access that was finished last.
    pub fn split_float(&mut self, marker: Marker) -> Result<(bool, CompletedMarker), NoMemory>
        requires newest { (state self.old).marker ≡ Some marker.pos.value }
        requires float { next (state self.old) ≡ FLOAT_NUMBER }
        ensures state { IfOk result (λ r. SplitFloat (state self.old) (state self.new) r.0 × IsLast (state self.new) r.1 FIELD_EXPR) }
        ensures recorded { IfOk result (λ r. calls self.new ≡ calls self.old ++ split_calls r.0) }
    {
        let kind = SyntaxKind::FIELD_EXPR;
        let ends_in_dot = !self.input.is_joint(self.pos);
        let count = split_len(ends_in_dot);
        let events = [
            Word::of_event(Event::FloatSplit { ends_in_dot }),
            Word::of_event(Event::Finish { kind }),
            Word::of_event(Event::Precede),
            Word::of_event(Event::Finish { kind }),
        ];
        self.events.extend_from_slice(&events[..count])?;
        self.pos += 1;
        self.next = self.input.kind(self.pos);
        let completed = CompletedMarker {
            end: Snapshot::of(&self.events.len()),
            kind: Snapshot::of(&kind),
        };
        Ok((ends_in_dot, completed))
    }

    // Takes so many tokens as one of this kind. Its word is made where the kind is known, so mostly beforehand.
    #[inline(always)]
    fn take(&mut self, kind: SyntaxKind, n_input_tokens: u8) -> Result<(), NoMemory>
        requires within { n_input_tokens ≤ (state self.old).left }
        requires stands { stands (of_tokens kind n_input_tokens) (state self.old).rest ≡ true }
        ensures state { OnOk result (Bumped (state self.old) (state self.new) kind n_input_tokens) }
        ensures recorded { OnOk result (calls self.new ≡ calls self.old ++ call.token kind n_input_tokens ∷ []) }
    {
        let word = Word::of_event(Event::Token {
            kind,
            n_input_tokens,
        });
        let width = usize::from(n_input_tokens);
        self.take_word(word, Snapshot::of(&kind), width)?;
        Ok(())
    }

    #[inline(never)]
    fn take_word(
        &mut self,
        word: Word,
        kind: Snapshot<SyntaxKind>,
        width: usize,
    ) -> Result<(), NoMemory>
        requires word { word ≡ event.Token width kind.value }
        requires within { width ≤ (state self.old).left }
        requires stands { stands (of_tokens kind.value width) (state self.old).rest ≡ true }
        ensures state { OnOk result (Bumped (state self.old) (state self.new) kind.value width) }
        ensures recorded { OnOk result (calls self.new ≡ calls self.old ++ call.token kind.value width ∷ []) }
    {
        if self.events.len() < self.events.capacity() {
            self.events.push_reserved(word);
            self.pos += width;
            self.next = self.input.kind(self.pos);
            return Ok(());
        }
        self.take_growing(word, kind, width)
    }

    // The same where the list of events must grow: a call that ends the caller, so that this needs no frame.
    #[cold]
    #[inline(never)]
    fn take_growing(
        &mut self,
        word: Word,
        kind: Snapshot<SyntaxKind>,
        width: usize,
    ) -> Result<(), NoMemory>
        requires word { word ≡ event.Token width kind.value }
        requires within { width ≤ (state self.old).left }
        requires stands { stands (of_tokens kind.value width) (state self.old).rest ≡ true }
        ensures state { OnOk result (Bumped (state self.old) (state self.new) kind.value width) }
        ensures recorded { OnOk result (calls self.new ≡ calls self.old ++ call.token kind.value width ∷ []) }
    {
        push_in_place(&mut self.events, word, expected_events(self.len))?;
        self.pos += width;
        self.next = self.input.kind(self.pos);
        Ok(())
    }

    fn report(&mut self, message: String) -> Result<(), NoMemory>
        ensures state { OnOk result (Reported (state self.old) (state self.new) (string_bytes message)) }
        ensures recorded { OnOk result (calls self.new ≡ calls self.old ++ call.error (string_bytes message) ∷ []) }
        ensures word { OnOk result (self.new.events.items ≡ self.old.events.items ++ event.Error (length self.old.messages.items % 2 ^ 31) ∷ []) }
    {
        let word = self.next_word();
        self.events.reserve(1)?;
        self.messages.push(message)?;
        self.events.push_reserved(word);
        Ok(())
    }

    // The word of the message that is reported next, with its number among the messages. A word has 31 bits for it, more
    // than a parse of the grammar needs: that reads fewer than 2^23 tokens, and records at most 256 events for each of
    // them and for the end. Past that the numbers begin again. No message is lost: the k-th error has the k-th message.
    fn next_word(&self) -> Word
        ensures { result ≡ event.Error (length self.now.messages.items % 2 ^ 31) }
    {
        let number = (self.messages.len() % MESSAGE_NUMBERS) as u32;
        Word::of_event(Event::Error { message: number })
    }

    /// Makes the output of the recorded events. Each marker must have been completed or abandoned. The error means out
    /// of memory.
    pub fn process(self, alloc: Global) -> Result<Output, NoMemory>
        requires { (state self).below ≡ floor }
        ensures forest { IfOk result (λ output. output ≡ (state self.entry).forest) }
        ensures tree { IfOk result (λ output. flat output ≡ tree_steps (calls self.entry)) }
        ensures nested { AllPairs Nested (nodes_of (calls self.entry)) }
        ensures few { IfOk result (λ output. length (flat output) ≤ (state self.entry).count) }
        ensures covers { IfOk result (λ output. covers (state self.entry).input output ≡ true) }
        ensures used { IfOk result (λ output. used output + (state self.entry).left ≡ length (state self.entry).input) }
        ensures rest { IfOk result (λ output. (state self.entry).rest ≡ drop (used output) (state self.entry).input) }
        ensures splits { IfOk result (λ output. splits_placed output ≡ true) }
        ensures fit { IfOk result (λ output. message_count output ≡ 0 → ∥ AllFitIn output ∥₁) }
    {
        let tokens = self.pos;
        let messages = self.messages;
        let output = Event::process(alloc, self.events, messages, tokens)?;
        Ok(output)
    }

    /// Starts a node.
    #[inline(never)]
    pub fn start(&mut self) -> Result<Marker, NoMemory>
        ensures state { IfOk result (λ m. Opened (state self.old) (state self.new) m.pos.value) }
        ensures recorded { OnOk result (calls self.new ≡ calls self.old ++ call.start ∷ []) }
    {
        let pos = Snapshot::of(&self.events.len());
        let word = Word::of_event(Event::Start);
        push_in_place(&mut self.events, word, expected_events(self.len))?;
        Ok(Marker { pos })
    }
}

// For how many events room is made at first: half of real files have at most three and a half for each token. Short texts
// may have more.
#[inline(always)]
fn expected_events(tokens: usize) -> usize
    ensures { tokens * 7 < 2 ^ 64 → result ≡ tokens * 7 / 2 + 64 }
{
    tokens.saturating_mul(7) / 2 + 64
}

/// The number of events of a float that is split.
fn split_len(ends_in_dot: bool) -> usize
    ensures calls { result ≡ length (split_calls ends_in_dot) }
    ensures few { result ≤ 4 }
{
    if ends_in_dot { 2 } else { 4 }
}

impl Marker {
    ghost use Rattle.rap_events.specs.History as call;
    ghost use Rattle.rap_events.specs.Fit.{Fit, is_plain};
    ghost use Rattle.rap_events.specs.State.{state, calls, IsLast, Completed, Abandoned};

    /// Finishes the node. The marker must be the newest one, and the kind neither `BIN_EXPR` nor `TOKEN_TREE`: see
    /// [`Marker::complete_fit`] for these.
    pub fn complete(self, p: &mut Parser<'_>, kind: SyntaxKind) -> Result<CompletedMarker, NoMemory>
        requires newest { (state p.old).marker ≡ Some self.pos.value }
        requires plain { is_plain kind ≡ true }
        ensures state { IfOk result (λ cm. Completed (state p.old) (state p.new) kind × IsLast (state p.new) cm kind) }
        ensures recorded { OnOk result (calls p.new ≡ calls p.old ++ call.finish kind ∷ []) }
    {
        let completed = self.complete_fit(p, kind)?;
        Ok(completed)
    }

    /// Finishes the node, of any kind. The marker must be the newest one, and unless a message was reported, the
    /// children must be as the kind requires.
    #[inline(never)]
    pub fn complete_fit(
        self,
        p: &mut Parser<'_>,
        kind: SyntaxKind,
    ) -> Result<CompletedMarker, NoMemory>
        requires newest { (state p.old).marker ≡ Some self.pos.value }
        requires fit { (state p.old).messages ≡ 0 → Fit kind (state p.old).forest }
        ensures state { IfOk result (λ cm. Completed (state p.old) (state p.new) kind × IsLast (state p.new) cm kind) }
        ensures recorded { OnOk result (calls p.new ≡ calls p.old ++ call.finish kind ∷ []) }
    {
        let word = Word::of_event(Event::Finish { kind });
        push_in_place(&mut p.events, word, expected_events(p.len))?;
        Ok(CompletedMarker {
            end: Snapshot::of(&p.events.len()),
            kind: Snapshot::of(&kind),
        })
    }

    /// Abandons the node. The marker must be the newest one; what was recorded under it stays.
    #[inline(never)]
    pub fn abandon(self, p: &mut Parser<'_>) -> Result<(), NoMemory>
        requires { (state p.old).marker ≡ Some self.pos.value }
        ensures state { OnOk result (Abandoned (state p.old) (state p.new)) }
        ensures recorded { OnOk result (calls p.new ≡ calls p.old ++ call.abandon ∷ []) }
    {
        let word = Word::of_event(Event::Abandon);
        push_in_place(&mut p.events, word, expected_events(p.len))?;
        Ok(())
    }
}

impl CompletedMarker {
    ghost use Rattle.rap_events.specs.History as call;
    ghost use Rattle.rap_events.specs.Fit.{is_plain};
    ghost use Rattle.rap_events.specs.State.{state, calls, IsLast, Preceded, Extended};

    /// Starts a node around this one, which must be the one just finished.
    #[inline(never)]
    pub fn precede(self, p: &mut Parser<'_>) -> Result<Marker, NoMemory>
        requires { IsLast (state p.old) self self.kind.value }
        ensures state { IfOk result (λ m. Preceded (state p.old) (state p.new) m.pos.value self.kind.value) }
        ensures recorded { OnOk result (calls p.new ≡ calls p.old ++ call.precede ∷ []) }
    {
        let pos = Snapshot::of(&p.events.len());
        let word = Word::of_event(Event::Precede);
        push_in_place(&mut p.events, word, expected_events(p.len))?;
        Ok(Marker { pos })
    }

    /// Lets this node, which must be the one just finished, begin at `m`, the newest marker. The marker is
    /// removed. The kind must be neither `BIN_EXPR` nor `TOKEN_TREE`.
    #[inline(never)]
    pub fn extend_to(self, p: &mut Parser<'_>, m: Marker) -> Result<CompletedMarker, NoMemory>
        requires last { IsLast (state p.old) self self.kind.value }
        requires newest { (state p.old).marker ≡ Some m.pos.value }
        requires plain { is_plain self.kind.value ≡ true }
        ensures state { IfOk result (λ cm. Extended (state p.old) (state p.new) self.kind.value × IsLast (state p.new) cm self.kind.value) }
        ensures recorded { OnOk result (calls p.new ≡ calls p.old ++ call.extend ∷ []) }
    {
        let word = Word::of_event(Event::Extend);
        push_in_place(&mut p.events, word, expected_events(p.len))?;
        Ok(CompletedMarker {
            end: Snapshot::of(&p.events.len()),
            kind: self.kind,
        })
    }
}
