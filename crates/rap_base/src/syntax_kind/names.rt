//! The names of the kinds.
ghost use Rattle.std.specs.Prelude.{◌≡◌, List, ℕ, map};
ghost use Rattle.std.specs.List.{range_with_len};
ghost use Rattle.rap_base.specs.Names.{name_of};
ghost use Rattle.rap_base.specs.Numbered.{numbered};

use super::SyntaxKind;
use super::table::NUMBERED;

impl SyntaxKind {
    /// Returns the kind's name, for example `"L_PAREN"`.
    pub fn name(self) -> &'static str
        ensures { result.now ≡ name_of self }
    {
        SyntaxKind::numbered()[usize::from(self.number)].0
    }

    /// Returns the names of all kinds in the order of their numbers, each with the number of the constant of that name.
    ///
    /// The first two clauses speak of the constants themselves: a clause cannot name a constant of a type with a model,
    /// but it can name their table.
    pub fn numbered() -> &'static [(&'static str, u16); 330]
        ensures constants { map {B = List ℕ × ℕ} (λ row. (row.0.now, row.1)) NUMBERED ≡ numbered }
        ensures order { map (λ row. row.1) NUMBERED ≡ range_with_len 0 330 }
        ensures table { map {B = List ℕ × ℕ} (λ row. (row.0.now, row.1)) result.now ≡ numbered }
    {
        &NUMBERED
    }
}
