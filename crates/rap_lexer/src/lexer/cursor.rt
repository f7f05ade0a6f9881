//! A place in a text.
ghost use Rattle.std.specs.Prelude.{◌≡◌, ◌≢◌, ◌≤◌, ◌++◌, MatchBool, ℕ, List, [], ◌∷◌, ◌<◌, ◌^◌, length, drop, slice_get, MatchOption, encode_utf8_all};
ghost use Rattle.std.specs.Str.{chars, IsCharBoundary};
ghost use Rattle.rap_lexer.specs.Run.{next_is, tail};

use crate::lexer::plain::is_next;
use std::marker::Model;

/// A place in a text. Contracts see the characters that are left.
#[derive(Drop)]
pub struct Cursor<'a> {
    rest: &'a str,
}

impl<'a> Model for Cursor<'a> {
    ghost use Rattle.std.specs.Prelude.{List, ℕ};
    ghost use Rattle.std.specs.Str.{chars, IsUtf8};

    ghost Value = { List ℕ };

    ghost view = { λ s. chars s.rest.now };

    ghost invariant = { λ s. IsUtf8 s.rest.now };
}

impl<'a> Cursor<'a> {
    /// Makes a cursor at the beginning of the text.
    pub fn new(text: &'a str) -> Cursor<'a>
        ensures { result ≡ chars text.now }
    {
        Cursor { rest: text }
    }

    /// Returns the text that is left.
    pub fn as_str(&self) -> &'a str
        ensures text { result.now ≡ encode_utf8_all self.now }
        ensures same { chars result.now ≡ self.now }
    {
        self.rest
    }

    /// The next character.
    pub fn first(&self) -> Option<char>
        ensures { result ≡ slice_get self.now 0 }
    {
        self.rest.chars().next()
    }

    /// Takes the next character.
    pub fn bump(&mut self) -> Option<char>
        ensures taken { MatchOption result ((self.old ≡ []) × (self.new ≡ [])) (λ c. self.old ≡ c ∷ self.new) }
        ensures room { length self.old < 2 ^ 63 }
    {
        let mut chars = self.rest.chars();
        let c = chars.next();
        self.rest = chars.as_str();
        c
    }

    /// Takes the next character, if there is one.
    pub fn skip(&mut self)
        ensures { self.new ≡ tail self.old }
    {
        let _ = self.bump();
    }

    /// Takes the next `n` bytes. They must end at a character boundary.
    #[inline(always)]
    pub fn advance(&mut self, n: usize)
        requires { IsCharBoundary (encode_utf8_all self.old) n }
        ensures { self.new ≡ chars (drop n (encode_utf8_all self.old)) }
    {
        self.rest = &self.rest[n..];
    }

    /// The place after the next character.
    pub fn ahead(&self) -> Cursor<'a>
        ensures { result ≡ tail self.now }
    {
        let mut ahead = Cursor { rest: self.rest };
        ahead.skip();
        ahead
    }

    /// Whether this character stands next. One of ASCII is looked for as a byte.
    #[inline(always)]
    pub fn is_next(&self, c: char) -> bool
        ensures { result ≡ next_is c self.now }
    {
        if c.is_ascii() {
            return is_next(self.rest.as_bytes(), c as u8);
        }
        match self.first() {
            Some(next) => next == c,
            None => false,
        }
    }

    /// Returns the length of the text that is left, in bytes.
    pub fn len(&self) -> usize
        ensures bytes { result ≡ length (encode_utf8_all self.now) }
        ensures room { length self.now < 2 ^ 63 }
    {
        self.rest.len()
    }

    /// Takes these two characters, if they stand next.
    pub fn eat_pair(&mut self, a: char, b: char) -> bool
        ensures { MatchBool result (self.old ≡ a ∷ b ∷ self.new) ((self.new ≡ self.old) × ((rest : List ℕ) → self.old ≢ a ∷ b ∷ rest)) }
    {
        if self.is_next(a) && self.ahead().is_next(b) {
            self.skip();
            self.skip();
            true
        } else {
            false
        }
    }
}
