//! Records of tokens of which nothing but the kinds is known. They get the edition that all records have.
//!
//! Processors read a jump that crosses or ends at a border of some bytes slower than others, so that a loop of many jumps
//! takes up to half more time where it lies badly. So tokens are put eight at a time, without a jump.
ghost use Rattle.std.specs.Prelude.{◌≡◌, ◌≢◌, ◌↔◌, ◌+◌, ◌*◌, ◌<◌, ◌≤◌, ◌++◌, All, IsTrue, IsFalse, false, length, drop, take, slice_index_or};
ghost use Rattle.rap_base.specs.TokenKind.{EOF, FLOAT_NUMBER};
ghost use Rattle.rap_base.specs.TokenTests.{is_trivia};
ghost use Rattle.rap_events.specs.Input.{records, Holds, KeepsRoom};
ghost use Rattle.rap_events.specs.KindRecords.{touches, kind_record, kind_records};

use super::{BLOCK, Columns};
use rap_base::syntax_kind::SyntaxKind;

/// How many tokens are put at a time.
pub(super) const AT_ONCE: usize = 8;

impl Columns {
    /// Puts the records of the first `few` tokens of these kinds where the records end, one by one. A float number is
    /// not taken, and ends this. There must be a kind after them, which is only looked at.
    ///
    /// Returns where the records end then, how many of the kinds were taken, and whether the next kind touches.
    #[inline(always)]
    pub(super) fn put_few(
        &mut self,
        start: usize,
        kinds: &[SyntaxKind],
        few: usize,
    ) -> (usize, usize, bool)
        requires holds { Holds self.old start }
        requires one_edition { length self.old.editions.items ≡ 0 }
        requires room { start + few ≤ 64 * length self.old.joints.items }
        requires within { few < length kinds.now }
        ensures holds { Holds self.new result.0 }
        ensures records { records self.new result.0 ≡ records self.old start ++ kind_records (take (result.1 + 1) kinds.now) self.old.edition }
        ensures floats { All (λ kind. kind ≢ FLOAT_NUMBER) (take result.1 kinds.now) }
        ensures few { result.1 ≤ few }
        ensures touching { result.2 ≡ touches (slice_index_or kinds.now result.1 EOF) }
        ensures room { KeepsRoom self.old self.new }
    {
        let mut place = start;
        let mut taken = 0usize;
        let mut touching = touches(kinds[0]);
        'tokens: while taken < few {
            if kinds[taken] == SyntaxKind::FLOAT_NUMBER {
                break;
            }
            let pair = &kinds[taken..taken + 2];
            let (next_place, next_touching) = self.put_one(place, pair, touching);
            place = next_place;
            touching = next_touching;
            taken += 1;
        }
        (place, taken, touching)
    }

    /// Puts the records of tokens of these kinds where the records end, eight at a time: as long as there are as many,
    /// with a kind after them and with room, and none of them is a float number. `touching` says whether the first one
    /// touches.
    ///
    /// Returns where the records end then, and how many of the kinds were taken.
    #[inline(always)]
    pub(super) fn put_eights(
        &mut self,
        start: usize,
        kinds: &[SyntaxKind],
        first_touching: bool,
    ) -> (usize, usize)
        requires holds { Holds self.old start }
        requires one_edition { length self.old.editions.items ≡ 0 }
        requires some { 0 < length kinds.now }
        requires touching { first_touching ≡ touches (slice_index_or kinds.now 0 EOF) }
        ensures holds { Holds self.new result.0 }
        ensures records { records self.new result.0 ≡ records self.old start ++ kind_records (take (result.1 + 1) kinds.now) self.old.edition }
        ensures floats { All (λ kind. kind ≢ FLOAT_NUMBER) (take result.1 kinds.now) }
        ensures within { result.1 < length kinds.now }
        ensures room { KeepsRoom self.old self.new }
    {
        let mut place = start;
        let mut taken = 0usize;
        let mut touching = first_touching;
        // Asked at the end of the loop, so that no jump stands before the straight part of it.
        let mut more = self.takes_eight(place, kinds);
        'eights: while more {
            let (middle, middle_touching) = self.put_four(
                place,
                &kinds[taken..taken + 5],
                touching,
            );
            let (end, end_touching) = self.put_four(
                middle,
                &kinds[taken + 4..taken + 9],
                middle_touching,
            );
            place = end;
            touching = end_touching;
            taken += AT_ONCE;
            more = self.takes_eight(place, &kinds[taken..]);
        }
        (place, taken)
    }

    /// Whether the first eight of these kinds can be put at once: there is one after them, there is room for a record of
    /// each, and none is that of a float number.
    #[inline(always)]
    fn takes_eight(&self, place: usize, kinds: &[SyntaxKind]) -> bool
        requires { Holds self.now place }
        ensures { IsTrue result ↔ (8 < length kinds.now × place + 8 ≤ 64 * length self.now.joints.items × All (λ kind. kind ≢ FLOAT_NUMBER) (take 8 kinds.now)) }
    {
        AT_ONCE < kinds.len()
            && AT_ONCE <= self.joints.len() * BLOCK - place
            && !holds_float(&kinds[..AT_ONCE])
    }

    /// Puts the records of four tokens, with the kind of the token after them, as [`Columns::put_one`] does.
    #[inline(always)]
    fn put_four(&mut self, place: usize, kinds: &[SyntaxKind], touching: bool) -> (usize, bool)
        requires holds { Holds self.old place }
        requires one_edition { length self.old.editions.items ≡ 0 }
        requires room { place + 4 ≤ 64 * length self.old.joints.items }
        requires kinds { length kinds.now ≡ 5 }
        requires touching { touching ≡ touches (slice_index_or kinds.now 0 EOF) }
        ensures holds { Holds self.new result.0 }
        ensures records { records self.new result.0 ≡ records self.old place ++ kind_records kinds.now self.old.edition }
        ensures near { result.0 ≤ place + 4 }
        ensures touching { result.1 ≡ touches (slice_index_or kinds.now 4 EOF) }
        ensures room { KeepsRoom self.old self.new }
    {
        let (second, second_touching) = self.put_one(place, &kinds[..2], touching);
        let (third, third_touching) = self.put_one(second, &kinds[1..3], second_touching);
        let (fourth, fourth_touching) = self.put_one(third, &kinds[2..4], third_touching);
        self.put_one(fourth, &kinds[3..5], fourth_touching)
    }

    /// Puts the record of a token at a place that has room, where the records end: the first kind is the token's, and the
    /// second that of the token after it. `touching` says whether the first one touches.
    ///
    /// Returns where the records end then, and whether the second kind touches.
    #[inline(always)]
    fn put_one(&mut self, place: usize, kinds: &[SyntaxKind], touching: bool) -> (usize, bool)
        requires holds { Holds self.old place }
        requires one_edition { length self.old.editions.items ≡ 0 }
        requires room { place < 64 * length self.old.joints.items }
        requires kinds { length kinds.now ≡ 2 }
        requires touching { touching ≡ touches (slice_index_or kinds.now 0 EOF) }
        ensures holds { Holds self.new result.0 }
        ensures records { records self.new result.0 ≡ records self.old place ++ kind_records kinds.now self.old.edition }
        ensures near { result.0 ≤ place + 1 }
        ensures touching { result.1 ≡ touches (slice_index_or kinds.now 1 EOF) }
        ensures room { KeepsRoom self.old self.new }
    {
        let next_touching = touches(kinds[1]);
        let end = self.put(place, kinds[0], touching & next_touching);
        (end, next_touching)
    }

    /// Puts the record of a token at a place that has room, where the records end. Returns where they end then: trivia
    /// have no record, so that the next token is put at the same place.
    #[inline(always)]
    fn put(&mut self, place: usize, kind: SyntaxKind, joint: bool) -> usize
        requires holds { Holds self.old place }
        requires one_edition { length self.old.editions.items ≡ 0 }
        requires room { place < 64 * length self.old.joints.items }
        requires kept { IsTrue joint → is_trivia kind ≡ false }
        ensures holds { Holds self.new result }
        ensures records { records self.new result ≡ records self.old place ++ kind_record kind joint self.old.edition }
        ensures near { result ≤ place + 1 }
        ensures room { KeepsRoom self.old self.new }
    {
        let count = usize::from(!kind.is_trivia());
        self.codes[place] = u16::from(kind);
        self.joints[place / BLOCK] |= u64::from(joint) << (place % BLOCK);
        place + count
    }
}

/// Whether one of these kinds is that of a float number. All are looked at, so that there are no jumps.
#[inline(always)]
fn holds_float(kinds: &[SyntaxKind]) -> bool
    ensures { IsFalse result ↔ All (λ kind. kind ≢ FLOAT_NUMBER) kinds.now }
{
    let mut found = false;
    for kind in kinds {
        found |= *kind == SyntaxKind::FLOAT_NUMBER;
    }
    found
}

/// Whether this is neither the kind of trivia nor that of an identifier.
#[inline(always)]
fn touches(kind: SyntaxKind) -> bool
    ensures { result ≡ touches kind }
{
    !(kind.is_trivia() || kind == SyntaxKind::IDENT)
}
