//! The tokens that a parser reads.
ghost use Rattle.std.specs.Prelude.{◌≡◌, ◌≢◌, ℕ, ◌+◌, ◌-◌, ◌<◌, ◌≤◌, ◌↔◌, List, [], ◌∷◌, ◌++◌, length, map, take, true, false, All, IsTrue, IsFalse, IfOk, OnOk, OnErr};
ghost use Rattle.rap_base.specs.TokenKind.{EOF, IDENT, FLOAT_NUMBER};
ghost use Rattle.rap_base.specs.TokenTests.{is_token, IsTokenKind};
ghost use Rattle.rap_events.specs.KindRecords.{kind_records};

use rap_base::edition::Edition;
use rap_base::no_memory::NoMemory;
use rap_base::syntax_kind::SyntaxKind;
use std::alloc::Global;
use std::marker::Model;

mod columns;

use columns::Columns;

/// The tokens that a parser reads, without trivia. Contracts see the list of their records.
#[derive(Drop)]
pub struct Input {
    len: usize,
    columns: Columns,
}

impl Model for Input {
    ghost use Rattle.std.specs.Prelude.{List, All};
    ghost use Rattle.rap_events.specs.Record.{Record, IsTokenRecord};

    ghost Value = { List Record };

    ghost use Rattle.rap_events.specs.Input.{records, Holds};

    ghost view = { λ input. records input.columns input.len };

    ghost invariant = { λ input. Holds input.columns input.len × All IsTokenRecord (records input.columns input.len) };
}

impl Input {
    ghost use Rattle.rap_events.specs.Record.{kind_at, contextual_at, edition_at, joint_at, with_last_joint, IsTokenRecord};

    /// Makes an empty input with room for `capacity` tokens of one edition. The first token of a second edition asks
    /// for memory again: from then on the edition of each token is kept. The error means out of memory, also if
    /// `capacity` is more than a list can have.
    pub fn with_capacity(alloc: Global, capacity: usize) -> Result<Input, NoMemory>
        ensures { IfOk result (λ input. input ≡ []) }
    {
        let columns = Columns::with_capacity(alloc, capacity)?;
        Ok(Input { len: 0, columns })
    }

    /// Appends a token of this kind, which must be a token's kind and not `EOF`. It is read as nothing else and does
    /// not touch the next token. The error means out of memory; the input is then unchanged.
    pub fn push(&mut self, kind: SyntaxKind, edition: Edition) -> Result<(), NoMemory>
        requires token { is_token kind ≡ true }
        requires some { kind ≢ EOF }
        ensures ok { OnOk result (self.new ≡ self.old ++ record { kind = kind; contextual = EOF; edition = edition; joint = false } ∷ []) }
        ensures err { OnErr result (self.new ≡ self.old) }
    {
        self.push_joint(kind, edition, false)
    }

    /// Appends a token as [`Input::push`] does, with its joint bit. This is faster than a call of [`Input::was_joint`]:
    /// it saves a branch that processors often predict wrongly.
    pub fn push_joint(
        &mut self,
        kind: SyntaxKind,
        edition: Edition,
        joint: bool,
    ) -> Result<(), NoMemory>
        requires token { is_token kind ≡ true }
        requires some { kind ≢ EOF }
        ensures ok { OnOk result (self.new ≡ self.old ++ record { kind = kind; contextual = EOF; edition = edition; joint = joint } ∷ []) }
        ensures err { OnErr result (self.new ≡ self.old) }
    {
        self.columns.make_room(self.len, edition)?;
        self.columns
            .write(self.len, kind, SyntaxKind::EOF, edition, joint);
        self.len += 1;
        Ok(())
    }

    /// Appends an identifier that may be read as `contextual_kind` and does not touch the next token. The error means
    /// out of memory; the input is then unchanged.
    pub fn push_ident(
        &mut self,
        contextual_kind: SyntaxKind,
        edition: Edition,
    ) -> Result<(), NoMemory>
        requires { is_token contextual_kind ≡ true }
        ensures ok { OnOk result (self.new ≡ self.old ++ record { kind = IDENT; contextual = contextual_kind; edition = edition; joint = false } ∷ []) }
        ensures err { OnErr result (self.new ≡ self.old) }
    {
        self.columns.make_room(self.len, edition)?;
        self.columns.write(self.len, SyntaxKind::IDENT, contextual_kind, edition, false);
        self.len += 1;
        Ok(())
    }

    /// Appends a token as [`Input::push_joint`] does, if all tokens so far have its edition and there is room for it
    /// without asking for memory. Returns whether it did; where it did not, the input is unchanged.
    ///
    /// Room is made by the calls that may ask for memory, for 1,024 tokens at a time, so a new input has none. Once
    /// tokens of two editions were pushed, none is taken, however much room there is: this call serves loops over the
    /// tokens of one text, where it would only cost time to write editions down.
    #[inline(always)]
    pub fn push_joint_in_room(&mut self, kind: SyntaxKind, edition: Edition, joint: bool) -> bool
        requires token { is_token kind ≡ true }
        requires some { kind ≢ EOF }
        ensures pushed { IsTrue result → self.new ≡ self.old ++ record { kind = kind; contextual = EOF; edition = edition; joint = joint } ∷ [] }
        ensures full { IsFalse result → self.new ≡ self.old }
    {
        if !self.columns.has_room(self.len, edition) {
            return false;
        }
        self.columns
            .write(self.len, kind, SyntaxKind::EOF, edition, joint);
        self.len += 1;
        true
    }

    /// Appends an identifier as [`Input::push_ident`] does, if all tokens so far have its edition and there is room for
    /// it without asking for memory, as [`Input::push_joint_in_room`] has it. Returns whether it did; where it did not,
    /// the input is unchanged.
    #[inline(always)]
    pub fn push_ident_in_room(&mut self, contextual_kind: SyntaxKind, edition: Edition) -> bool
        requires { is_token contextual_kind ≡ true }
        ensures pushed { IsTrue result → self.new ≡ self.old ++ record { kind = IDENT; contextual = contextual_kind; edition = edition; joint = false } ∷ [] }
        ensures full { IsFalse result → self.new ≡ self.old }
    {
        if !self.columns.has_room(self.len, edition) {
            return false;
        }
        self.columns.write(self.len, SyntaxKind::IDENT, contextual_kind, edition, false);
        self.len += 1;
        true
    }

    /// Appends tokens by their kinds alone, if all tokens so far have this edition and there is room for them without
    /// asking for memory: those of consecutive tokens of a text, trivia among them, which are left out. The last kind
    /// is only looked at, as the one after. Returns how many of the kinds were taken, which may be none, and is none
    /// once tokens of two editions were pushed.
    ///
    /// An identifier may be read as nothing else. A token is joint if neither it nor the one right after it is trivia
    /// or an identifier. A float number is not taken: its joint bit needs its text.
    #[inline(always)]
    pub fn push_kinds_in_room(&mut self, kinds: &[SyntaxKind], edition: Edition) -> usize
        requires { All IsTokenKind kinds.now }
        ensures taken { result ≤ length kinds.now - 1 }
        ensures floats { All (λ kind. kind ≢ FLOAT_NUMBER) (take result kinds.now) }
        ensures pushed { self.new ≡ self.old ++ kind_records (take (result + 1) kinds.now) edition }
    {
        if kinds.is_empty() || !self.columns.has_room(self.len, edition) {
            return 0;
        }
        let (end, taken) = self.columns.write_kinds(self.len, kinds);
        self.len = end;
        taken
    }

    /// Marks the last token as touching the next one. There must be a token.
    pub fn was_joint(&mut self)
        requires { 0 < length self.old }
        ensures { self.new ≡ with_last_joint self.old }
    {
        self.columns.set_joint(self.len - 1);
    }

    /// Returns the number of tokens.
    pub fn len(&self) -> usize
        ensures len { result ≡ length self.now }
        ensures tokens { All IsTokenRecord self.now }
    {
        self.len
    }

    /// Returns whether there is no token.
    pub fn is_empty(&self) -> bool
        ensures { IsTrue result ↔ (self.now ≡ []) }
    {
        self.len() == 0
    }

    /// Returns the kind of the token at `index`, or `EOF` past the last token.
    pub fn kind(&self, index: usize) -> SyntaxKind
        ensures { result ≡ kind_at self.now index }
    {
        if index < self.len {
            self.columns.kind(index)
        } else {
            SyntaxKind::EOF
        }
    }

    /// Returns the contextual kind of the identifier at `index`; `EOF` for any other token and past the last token.
    pub fn contextual_kind(&self, index: usize) -> SyntaxKind
        ensures contextual { result ≡ contextual_at self.now index }
        ensures identifier { result ≢ EOF → kind_at self.now index ≡ IDENT }
    {
        if index < self.len {
            self.columns.contextual_kind(index)
        } else {
            SyntaxKind::EOF
        }
    }

    /// Returns the edition of the token at `index`, or the latest edition past the last token.
    pub fn edition(&self, index: usize) -> Edition
        ensures { result ≡ edition_at self.now index }
    {
        if index < self.len {
            self.columns.edition(index)
        } else {
            Edition::Edition2024
        }
    }

    /// Returns whether the token at `index` touches the next one.
    pub fn is_joint(&self, index: usize) -> bool
        ensures { result ≡ joint_at self.now index }
    {
        index < self.len && self.columns.is_joint(index)
    }
}
