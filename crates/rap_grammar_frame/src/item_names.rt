//! Names that items are given. The set that is asked where a name is missing is made only then.
//! In the Rust crate: `grammar/items.rs`.
ghost use Rattle.std.specs.Prelude.{◌≡◌, ℕ, ◌||◌, OnOk};
ghost use Rattle.rap_base.specs.TokenKind.{IDENT};
ghost use Rattle.rap_base.specs.TokenSet.{member};
ghost use Rattle.rap_events.specs.State.{state, next};
ghost use Rattle.rap_grammar_scripts.specs.ItemNames.{is_item_paren_recovery};
ghost use Rattle.rap_grammar_scripts.specs.Names.{name_r};
ghost use Rattle.rap_grammar_frame.specs.Grew.{Grew, Took};
ghost use Rattle.rap_grammar_scripts.specs.Exec.{Executes};
ghost use Rattle.rap_grammar_scripts.specs.Recovery.{is_item_recovery};
ghost use Rattle.rap_grammar_frame.specs.Room.{name_room, recovery_events};

use crate::names::{given_name, name_r};
use crate::recovery::item_recovery_set;
use rap_base::T;
use rap_base::no_memory::NoMemory;
use rap_base::token_set::TokenSet;
use rap_events::parser::Parser;

/// An item's name. Where it is missing, the next token is skipped too, unless it is a brace or an item begins with it.
#[inline(never)]
pub fn item_name(p: &mut Parser<'_>) -> Result<(), NoMemory>
    ensures grew { OnOk result (Grew (state p.old) (state p.new) recovery_events) }
    ensures took { OnOk result (next (state p.old) ≡ IDENT → Took (state p.old) (state p.new) name_room) }
    ensures script { OnOk result ((depth : ℕ) → Executes depth (name_r is_item_recovery) p.old p.new) }
{
    if p.at(T![ident]) {
        given_name(p)?;
        return Ok(());
    }
    name_r(p, item_recovery_set())?;
    Ok(())
}

/// A function's name. Where it is missing, the next token is skipped too, unless it is a brace, the parenthesis of its
/// parameters, or an item begins with it.
#[inline(never)]
pub fn fn_name(p: &mut Parser<'_>) -> Result<(), NoMemory>
    ensures grew { OnOk result (Grew (state p.old) (state p.new) recovery_events) }
    ensures took { OnOk result (next (state p.old) ≡ IDENT → Took (state p.old) (state p.new) name_room) }
    ensures script { OnOk result ((depth : ℕ) → Executes depth (name_r is_item_paren_recovery) p.old p.new) }
{
    if p.at(T![ident]) {
        given_name(p)?;
        return Ok(());
    }
    name_r(p, item_paren_recovery_set())?;
    Ok(())
}

/// The recovery set of a function's name.
fn item_paren_recovery_set() -> TokenSet
    ensures { (kind : ℕ) → member result kind ≡ is_item_paren_recovery kind }
{
    item_recovery_set().union(TokenSet::new(&[T!['(']]))
}
