//! Literals.
//! In the Rust crate: `grammar/expressions/atom.rs`.
ghost use Rattle.std.specs.Prelude.{ℕ, ◌≡◌, ◌≢◌, ◌<◌, ◌≤◌, IfOk, OnOk, true, ◌⊎◌};
ghost use Rattle.rap_base.specs.NodeKind.{LITERAL};
ghost use Rattle.rap_events.specs.State.{state, next};
ghost use Rattle.rap_grammar_scripts.specs.Literals as script;
ghost use Rattle.rap_grammar_scripts.specs.First.{is_literal_first};
ghost use Rattle.rap_grammar_frame.specs.Grew.{Grew, Took, Optional};
ghost use Rattle.rap_grammar_scripts.specs.Exec.{Does};
ghost use Rattle.rap_grammar_frame.specs.Room.{atom_room};
ghost use Rattle.rap_grammar_scripts.specs.Words.{of_option};

use crate::first::is_literal_first;
use rap_base::no_memory::NoMemory;
use rap_base::syntax_kind::SyntaxKind;
use rap_events::parser::{CompletedMarker, Parser};

/// A literal, as `1` and `true`, if one comes next.
#[inline(always)]
#[tactic(auto, unfolding(rap_grammar_scripts::specs::Literals::literal))]
pub fn literal(p: &mut Parser<'_>) -> Result<Option<CompletedMarker>, NoMemory>
    ensures made { IfOk result (Optional LITERAL atom_room (state p.old) (state p.new)) }
    ensures grew { OnOk result (Grew (state p.old) (state p.new) 0) }
    ensures took { OnOk result (is_literal_first (next (state p.old)) ≡ true → Took (state p.old) (state p.new) atom_room) }
    ensures script { IfOk result
        (λ o. (depth : ℕ) → Does depth script.literal (of_option o) (state p.old) (state p.new)) }
{
    if !is_literal_first(p.current()) {
        return Ok(None);
    }
    let m = p.start()?;
    p.bump_any()?;
    let cm = m.complete(p, SyntaxKind::LITERAL)?;
    Ok(Some(cm))
}
