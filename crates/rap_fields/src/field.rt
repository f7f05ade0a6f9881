//! The names of fields.
ghost use Rattle.std.specs.Prelude.{◌≡◌, ◌⊎◌, List, ℕ, ◌<◌, ◌≤◌, MatchOption, Some, map};
ghost use Rattle.std.specs.List.{range_with_len};
ghost use Rattle.rap_fields.specs.FieldNames.{YIELD_TOKEN, numbered};
ghost use Rattle.rap_fields.specs.Rule.{look_of};
ghost use Rattle.rap_fields.specs.RuleOf.{name_of, rule_of};

use self::names::NUMBERED;
use crate::rule::Step;
use crate::rules::rows_of;
use rap_base::syntax_kind::SyntaxKind;
use std::fmt;
use std::marker::Model;

mod constants;
mod names;

/// A field of nodes, as its number in the table of names. Contracts see that number. A node has it or not by its kind,
/// and fields of one name may have other children in nodes of another kind.
#[derive(Clone, Copy, PartialEq, Eq, PartialOrd, Ord, Hash)]
pub struct Field {
    number: u16,
}

impl Model for Field {
    ghost Value = { ℕ };

    ghost view = { λ f. f.number };

    ghost invariant = { λ f. f.number ≤ YIELD_TOKEN };

    ghost inverse = { λ n. record { number = n } };
}

/// Prints the field's name.
impl fmt::Debug for Field {
    ghost debug_output = { λ field. Some (name_of field) };

    fn fmt<W: fmt::Write>(&self, f: &mut fmt::Formatter<W>) -> fmt::Result {
        f.write_str(self.name())
    }
}

/// The number of a field.
impl From<Field> for u16 {
    ghost from_gives = { λ field number. number ≡ field };

    fn from(field: Field) -> u16 {
        field.number
    }
}

impl Field {
    /// The field with this number: they are numbered from 1 on in the order of their names. `None` exactly of 0, and of
    /// what is past the last, `YIELD_TOKEN`.
    pub fn of_number(number: u16) -> Option<Field>
        ensures { MatchOption result ((number ≡ 0) ⊎ (YIELD_TOKEN < number)) (λ field. (field ≡ number) × (0 < number)) }
    {
        if number == 0 || u16::from(Field::YIELD_TOKEN) < number {
            return None;
        }
        Some(Field { number })
    }

    /// Its name, as `"body"`.
    pub fn name(self) -> &'static str
        ensures { result.now ≡ name_of self }
    {
        Field::numbered()[usize::from(self.number)].0
    }

    /// Returns the names of all fields in the order of their numbers, each with the number of the constant of that name.
    /// At 0 stands an empty name.
    ///
    /// The first two clauses speak of the constants themselves, as those of `SyntaxKind::numbered` do.
    pub fn numbered() -> &'static [(&'static str, u16); 226]
        ensures constants { map {B = List ℕ × ℕ} (λ row. (row.0.now, row.1)) NUMBERED ≡ numbered }
        ensures order { map (λ row. row.1) NUMBERED ≡ range_with_len 0 226 }
        ensures table { map {B = List ℕ × ℕ} (λ row. (row.0.now, row.1)) result.now ≡ numbered }
    {
        &NUMBERED
    }

    /// The rule by which it is found in nodes of a kind: steps, of which the last finds its children. There are none
    /// where such nodes do not have it.
    pub fn rule(self, kind: SyntaxKind) -> &'static [Step]
        ensures { map look_of result.now ≡ rule_of kind self }
    {
        for (number, rule) in rows_of(kind) {
            if *number == self.number {
                return rule;
            }
        }
        &[]
    }
}
