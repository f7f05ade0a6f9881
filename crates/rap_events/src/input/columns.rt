//! The lists in which an input keeps its records.
ghost use Rattle.std.specs.Prelude.{◌≡◌, ◌≢◌, ℕ, ◌+◌, ◌*◌, ◌<◌, ◌≤◌, ◌↔◌, length, take, set, get_or, [], ◌∷◌, ◌++◌, All, IfOk, IsTrue, OnOk, OnErr};
ghost use Rattle.rap_base.specs.Bits.{bit};
ghost use Rattle.rap_base.specs.TokenKind.{EOF, IDENT, FLOAT_NUMBER};
ghost use Rattle.rap_base.specs.declared.edition.Edition.{Edition};
ghost use Rattle.rap_events.specs.Record.{with_last_joint, IsTokenRecord};
ghost use Rattle.rap_events.specs.Input.{kind_of_code, contextual_of_code, record_at, records, Holds, HasPlace};
ghost use Rattle.rap_events.specs.KindRecords.{kind_records};

use rap_base::edition::Edition;
use rap_base::no_memory::NoMemory;
use rap_base::syntax_kind::SyntaxKind;
use std::alloc::Global;

mod kinds;

use kinds::AT_ONCE;

/// How many records a word of joints has bits for.
const BLOCK: usize = 64;

/// How many places the lists grow by: those of 16 words of joints.
const GROWTH: usize = 1024;

/// From which code on a code is an identifier's: this, and the number of the kind that it may be read as. No kind has a
/// number as large.
const CONTEXTUAL: u16 = 512;

/// The fields of the records, a list for each, at the record's place.
///
/// A record's code says its kind, and for an identifier what it may be read as. It is the number of the kind, so that
/// tokens of which only the kinds are known are copied, and an identifier is then one that may be read as nothing else;
/// or it is `CONTEXTUAL` and the number of the contextual kind of an identifier. Whether record i is joint is bit i mod
/// 64 of word i div 64 of the joints.
///
/// Mostly all records have one edition, and the list of editions is empty. It is used from the first record of another
/// edition on.
///
/// The lists are filled up past the last record, to 64 for each word of joints, so that there is room for a record
/// where its place is below that.
#[derive(Drop)]
pub(super) struct Columns {
    codes: Vec<u16>,
    edition: Edition,
    editions: Vec<Edition>,
    joints: Vec<u64>,
}

impl Columns {
    /// Lists without records, which grow to `capacity` of them without asking for memory again, as long as all have one
    /// edition.
    pub(super) fn with_capacity(alloc: Global, capacity: usize) -> Result<Columns, NoMemory>
        ensures { IfOk result (λ columns. Holds columns 0) }
    {
        let words = capacity.div_ceil(GROWTH) * (GROWTH / BLOCK);
        let codes = Vec::with_capacity(alloc, words.saturating_mul(BLOCK))?;
        let joints = Vec::with_capacity(alloc, words)?;
        Ok(Columns {
            codes,
            edition: Edition::LATEST,
            editions: Vec::new(alloc),
            joints,
        })
    }

    /// Whether there is room for records after the first `len`, all of which have this edition, as that one has.
    #[inline(always)]
    pub(super) fn has_room(&self, len: usize, edition: Edition) -> bool
        requires { Holds self.now len }
        ensures { IsTrue result ↔ (HasPlace self.now len edition × length self.now.editions.items ≡ 0) }
    {
        self.has_place(len, edition) && self.editions.is_empty()
    }

    /// Whether there is a place for a record of this edition after the first `len`.
    #[inline(always)]
    fn has_place(&self, len: usize, edition: Edition) -> bool
        requires { Holds self.now len }
        ensures { IsTrue result ↔ HasPlace self.now len edition }
    {
        len < self.joints.len() * BLOCK && (edition == self.edition || !self.editions.is_empty())
    }

    /// Makes room for a record of this edition after the first `len`, which stay as they are, also if this is out of
    /// memory.
    #[inline(always)]
    pub(super) fn make_room(&mut self, len: usize, edition: Edition) -> Result<(), NoMemory>
        requires { Holds self.old len }
        ensures holds { Holds self.new len }
        ensures room { OnOk result (HasPlace self.new len edition) }
        ensures records { records self.new len ≡ records self.old len }
    {
        if self.has_place(len, edition) {
            return Ok(());
        }
        self.make_place(len, edition)
    }

    /// Does so where there is no place.
    #[cold]
    #[inline(never)]
    fn make_place(&mut self, len: usize, edition: Edition) -> Result<(), NoMemory>
        requires { Holds self.old len }
        ensures holds { Holds self.new len }
        ensures room { OnOk result (HasPlace self.new len edition) }
        ensures records { records self.new len ≡ records self.old len }
    {
        self.grow(len)?;
        self.admit(len, edition)
    }

    /// Fills the lists up by 1,024 places, if there is none after the first `len`. The words of joints come last, so
    /// that their places count only where the other lists have grown.
    fn grow(&mut self, len: usize) -> Result<(), NoMemory>
        requires { Holds self.old len }
        ensures holds { Holds self.new len }
        ensures room { OnOk result (len < 64 * length self.new.joints.items) }
        ensures records { records self.new len ≡ records self.old len }
    {
        if len < self.joints.len() * BLOCK {
            return Ok(());
        }
        let Some(room) = len.checked_add(GROWTH) else {
            return Err(NoMemory);
        };
        self.codes.resize(room, 0)?;
        fill_if_used(&mut self.editions, room, self.edition)?;
        self.joints.resize(room / BLOCK, 0)?;
        Ok(())
    }

    /// Sees to it that a record of this edition can be written after the first `len`: the first record's is that of all,
    /// and one that differs from it needs the list of editions.
    fn admit(&mut self, len: usize, edition: Edition) -> Result<(), NoMemory>
        requires holds { Holds self.old len }
        requires room { len < 64 * length self.old.joints.items }
        ensures holds { Holds self.new len }
        ensures room { OnOk result (HasPlace self.new len edition) }
        ensures records { records self.new len ≡ records self.old len }
    {
        if len == 0 {
            self.edition = edition;
            return Ok(());
        }
        if edition == self.edition || !self.editions.is_empty() {
            return Ok(());
        }
        self.editions
            .resize(self.joints.len() * BLOCK, self.edition)?;
        Ok(())
    }

    /// Writes the record at a place that has room, where the records end.
    #[inline(always)]
    pub(super) fn write(
        &mut self,
        place: usize,
        kind: SyntaxKind,
        contextual_kind: SyntaxKind,
        edition: Edition,
        joint: bool,
    )
        requires holds { Holds self.old place }
        requires room { HasPlace self.old place edition }
        requires identifier { contextual_kind ≢ EOF → kind ≡ IDENT }
        ensures holds { Holds self.new (place + 1) }
        ensures records { records self.new (place + 1) ≡ records self.old place ++ record { kind = kind; contextual = contextual_kind; edition = edition; joint = joint } ∷ [] }
    {
        self.codes[place] = code_of(kind, contextual_kind);
        set_if_used(&mut self.editions, place, edition);
        self.joints[place / BLOCK] |= u64::from(joint) << (place % BLOCK);
    }

    /// Writes the records of tokens of these kinds where the records end, as far as there is room: up to eight one by
    /// one, and if no float number was among them, more of them eight at a time. They get the edition that all records
    /// have. The last kind is only looked at, and a float number is not taken: its joint bit needs its text. Returns
    /// where the records end then, and how many of the kinds were taken.
    #[inline(always)]
    pub(super) fn write_kinds(&mut self, place: usize, kinds: &[SyntaxKind]) -> (usize, usize)
        requires holds { Holds self.old place }
        requires room { place < 64 * length self.old.joints.items }
        requires one_edition { length self.old.editions.items ≡ 0 }
        requires some { 0 < length kinds.now }
        ensures holds { Holds self.new result.0 }
        ensures records { records self.new result.0 ≡ records self.old place ++ kind_records (take (result.1 + 1) kinds.now) self.old.edition }
        ensures floats { All (λ kind. kind ≢ FLOAT_NUMBER) (take result.1 kinds.now) }
        ensures within { result.1 < length kinds.now }
    {
        let room = self.joints.len() * BLOCK - place;
        let few = (kinds.len() - 1).min(AT_ONCE).min(room);
        let (end, taken, touching) = self.put_few(place, kinds, few);
        if taken < few {
            return (end, taken);
        }
        let (end, more) = self.put_eights(end, &kinds[taken..], touching);
        (end, taken + more)
    }

    /// Makes the last record joint.
    pub(super) fn set_joint(&mut self, last: usize)
        requires { Holds self.old (last + 1) }
        ensures holds { Holds self.new (last + 1) }
        ensures records { records self.new (last + 1) ≡ with_last_joint (records self.old (last + 1)) }
    {
        self.joints[last / BLOCK] |= 1 << (last % BLOCK);
    }

    /// The kind of the record at a place.
    #[inline(always)]
    pub(super) fn kind(&self, place: usize) -> SyntaxKind
        requires place { place < length self.now.codes.items }
        requires token { IsTokenRecord (record_at self.now place) }
        ensures { result ≡ (record_at self.now place).kind }
    {
        let code = self.codes[place];
        if code < CONTEXTUAL {
            SyntaxKind::from_u16(code)
        } else {
            SyntaxKind::IDENT
        }
    }

    /// What the record at a place may be read as.
    #[inline(always)]
    pub(super) fn contextual_kind(&self, place: usize) -> SyntaxKind
        requires place { place < length self.now.codes.items }
        requires token { IsTokenRecord (record_at self.now place) }
        ensures { result ≡ (record_at self.now place).contextual }
    {
        let code = self.codes[place];
        if code >= CONTEXTUAL {
            SyntaxKind::from_u16(code - CONTEXTUAL)
        } else if code == u16::from(SyntaxKind::IDENT) {
            SyntaxKind::IDENT
        } else {
            SyntaxKind::EOF
        }
    }

    /// The edition of the record at a place.
    #[inline(always)]
    pub(super) fn edition(&self, place: usize) -> Edition
        requires { 0 < length self.now.editions.items → place < length self.now.editions.items }
        ensures { result ≡ (record_at self.now place).edition }
    {
        if self.editions.is_empty() {
            self.edition
        } else {
            self.editions[place]
        }
    }

    /// Whether the record at a place is joint.
    pub(super) fn is_joint(&self, place: usize) -> bool
        requires { place < 64 * length self.now.joints.items }
        ensures { result ≡ bit self.now.joints.items place }
    {
        (self.joints[place / BLOCK] >> (place % BLOCK)) & 1 == 1
    }
}

/// The code of a token of this kind, which may be read as that one if it is an identifier.
#[inline(always)]
fn code_of(kind: SyntaxKind, contextual_kind: SyntaxKind) -> u16
    requires { contextual_kind ≢ EOF → kind ≡ IDENT }
    ensures kind { kind_of_code result ≡ kind }
    ensures contextual { contextual_of_code result ≡ contextual_kind }
{
    if kind == SyntaxKind::IDENT {
        CONTEXTUAL + u16::from(contextual_kind)
    } else {
        u16::from(kind)
    }
}

/// Fills a list of editions that has any up to so many. If memory is refused, it is as before.
fn fill_if_used(editions: &mut Vec<Edition>, room: usize, edition: Edition) -> Result<(), NoMemory>
    ensures kept { (i : ℕ) (d : Edition) → i < room → i < length editions.old.items → get_or editions.new.items i d ≡ get_or editions.old.items i d }
    ensures unused { length editions.old.items ≡ 0 → editions.new.items ≡ editions.old.items }
    ensures ok { OnOk result (0 < length editions.new.items → length editions.new.items ≡ room) }
    ensures err { OnErr result (editions.new.items ≡ editions.old.items) }
{
    if editions.is_empty() {
        return Ok(());
    }
    editions.resize(room, edition)?;
    Ok(())
}

/// Sets an edition in a list that has any.
#[inline(always)]
fn set_if_used(editions: &mut Vec<Edition>, place: usize, edition: Edition)
    requires { 0 < length editions.old.items → place < length editions.old.items }
    ensures { editions.new.items ≡ set editions.old.items place edition }
{
    if !editions.is_empty() {
        editions[place] = edition;
    }
}
