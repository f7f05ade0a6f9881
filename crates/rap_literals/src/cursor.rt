//! A place in a literal's body.
ghost use Rattle.std.specs.Prelude.{◌≡◌, [], ◌∷◌, slice_get, MatchOption};
ghost use Rattle.std.specs.Str.{chars};

use std::marker::Model;

/// A place in a literal's body. Contracts see the characters that are left.
#[derive(Drop)]
pub struct Cursor<'a> {
    rest: &'a str,
}

impl<'a> Model for Cursor<'a> {
    ghost use Rattle.std.specs.Prelude.{List, ℕ};
    ghost use Rattle.std.specs.Str.{chars, IsUtf8};

    ghost Value = { List ℕ };

    ghost view = { λ s. chars s.rest.now };

    ghost invariant = { λ s. IsUtf8 s.rest.now };
}

impl<'a> Cursor<'a> {
    /// Makes a cursor at the beginning of the body.
    pub fn new(body: &'a str) -> Cursor<'a>
        ensures { result ≡ chars body.now }
    {
        Cursor { rest: body }
    }

    /// The next character.
    pub fn first(&self) -> Option<char>
        ensures { result ≡ slice_get self.now 0 }
    {
        self.rest.chars().next()
    }

    /// Takes the next character.
    pub fn bump(&mut self) -> Option<char>
        ensures { MatchOption result ((self.old ≡ []) × (self.new ≡ [])) (λ c. self.old ≡ c ∷ self.new) }
    {
        let mut chars = self.rest.chars();
        let c = chars.next();
        self.rest = chars.as_str();
        c
    }
}
