//! A path as a type.
ghost use Rattle.std.specs.Prelude.{◌≡◌, ◌<◌, OnOk, IfOk, true};
ghost use Rattle.rap_base.specs.NodeKind.{PATH_TYPE};
ghost use Rattle.rap_events.specs.State.{state};
ghost use Rattle.rap_grammar_scripts.specs.First.{is_path_start};
ghost use Rattle.rap_grammar_frame.specs.Grew.{Within, Makes};
ghost use Rattle.rap_grammar_scripts.specs.Exec.{Executes};
ghost use Rattle.rap_grammar_frame.specs.Room.{list_room};
ghost use Rattle.rap_grammar_scripts.specs.PathType as script;
ghost use Rattle.rap_grammar_scripts.specs.Test.{holds};

use rap_base::no_memory::NoMemory;
use rap_base::syntax_kind::SyntaxKind;
use rap_events::parser::{CompletedMarker, Parser};
use rap_grammar_frame::first::is_path_start;
use rap_grammar_frame::knot::Grammar;
use rap_grammar_paths::paths::type_path;

/// A path as a type, as `a::b`.
#[tactic(auto, using(rap_grammar_facts::proofs::Paths::took_type_path), unfolding(rap_grammar_scripts::specs::PathType::path_type))]
pub fn path_type<G: Grammar>(p: &mut Parser<'_>, g: &G) -> Result<CompletedMarker, NoMemory>
    requires within { Within G.valid G.left g.now p.old }
    requires path { holds is_path_start (state p.old).rest ≡ true }
    ensures made { IfOk result (Makes PATH_TYPE list_room (state p.old) (state p.new)) }
    ensures script { OnOk result (Executes (G.left g.now) script.path_type p.old p.new) }
{
    let m = p.start()?;
    type_path(p, g)?;
    let cm = m.complete(p, SyntaxKind::PATH_TYPE)?;
    Ok(cm)
}
