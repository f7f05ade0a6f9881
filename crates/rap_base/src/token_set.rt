//! Sets of token kinds.
ghost use Rattle.std.specs.Prelude.{◌≡◌, ℕ, ◌||◌, ◌==◌, IsTrue, false, slice_index_or};
ghost use Rattle.std.specs.Int.{bit_at};
ghost use Rattle.std.specs.List.{list_all, list_any};
ghost use Rattle.rap_base.specs.TokenKind.{EOF, INT_NUMBER};
ghost use Rattle.rap_base.specs.TokenSet.{member};
ghost use Rattle.rap_base.specs.TokenTests.{is_token};
ghost use Rattle.rap_base.specs.declared.token_set.TokenSet.{TokenSet};

use crate::syntax_kind::SyntaxKind;

/// The number of 64-bit words of a set: there are 157 kinds of tokens.
const WORDS: usize = 3;

/// A set of token kinds, as bits: the kind with the number n is bit n mod 64 of word n div 64.
#[derive(Clone, Copy)]
pub struct TokenSet {
    words: [u64; WORDS],
}

impl TokenSet {
    /// The empty set.
    pub const EMPTY: TokenSet = TokenSet { words: [0; WORDS] };

    /// States in its contract that the empty set has no kind. The body does nothing.
    pub fn empty_has_no_kind()
        ensures { (kind : ℕ) → member TokenSet.EMPTY kind ≡ false }
    {}

    /// States in its contract that a kind is in a set by the bit of its number: `EOF`, 0, by bit 0 of word 0, and
    /// `INT_NUMBER`, 141, by bit 13 of word 2. The body does nothing.
    pub fn keeps_a_bit_for_each_kind()
        ensures first { (set : TokenSet) → member set EOF ≡ (bit_at (slice_index_or set.words 0 0) 0 == 1) }
        ensures number { (set : TokenSet) → member set INT_NUMBER ≡ (bit_at (slice_index_or set.words 2 0) 13 == 1) }
    {}

    /// Returns the set of the given kinds. Each must be a token's kind.
    pub fn new(kinds: &[SyntaxKind]) -> TokenSet
        requires { IsTrue (list_all is_token kinds.now) }
        ensures { (kind : ℕ) → member result kind ≡ list_any (λ k. k == kind) kinds.now }
    {
        let mut set = TokenSet::EMPTY;
        'kinds: for kind in kinds {
            let number = u16::from(*kind) as usize;
            set.words[number / 64] |= 1 << (number % 64);
        }
        set
    }

    /// Returns the set of the kinds that are in one of the two sets.
    pub fn union(self, other: TokenSet) -> TokenSet
        ensures { (kind : ℕ) → member result kind ≡ (member self kind || member other kind) }
    {
        TokenSet {
            words: [
                self.words[0] | other.words[0],
                self.words[1] | other.words[1],
                self.words[2] | other.words[2],
            ],
        }
    }

    /// Returns whether `kind`, which must be a token's kind, is in the set.
    pub fn contains(&self, kind: SyntaxKind) -> bool
        requires { IsTrue (is_token kind) }
        ensures { result ≡ member self.now kind }
    {
        let number = u16::from(kind) as usize;
        (self.words[number / 64] >> (number % 64)) & 1 == 1
    }
}
