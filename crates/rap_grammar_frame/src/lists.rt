//! Lists in brackets.
//! In the Rust crate: `grammar.rs`.
ghost use Rattle.std.specs.Prelude.{◌≡◌, ◌≢◌, ℕ, Bool, ◌<◌, ◌≤◌, OnOk, IfOk, true};
ghost use Rattle.rap_base.specs.TokenKind.{EOF};
ghost use Rattle.rap_events.specs.State.{state, next, At};
ghost use Rattle.rap_grammar_scripts.specs.Lists as script;
ghost use Rattle.rap_grammar_frame.specs.Grew.{Behind, Grew, Took, Within};
ghost use Rattle.rap_grammar_scripts.specs.Exec.{Does, Executes};
ghost use Rattle.rap_grammar_scripts.specs.declared.rule.Rule.{Rule};
ghost use Rattle.rap_grammar_frame.specs.Room.{element_events, element_room, brackets_room};
ghost use Rattle.rap_grammar_scripts.specs.Script.{Script};
ghost use Rattle.rap_grammar_scripts.specs.Words.{of_bool};

use crate::knot::Grammar;
use rap_base::no_memory::NoMemory;
use rap_base::syntax_kind::SyntaxKind;
use rap_events::parser::Parser;

/// What stands between the delimiters of a list.
pub trait Element {
    /// What one element makes, and whether the list goes on after it.
    ghost element: { Self → Script Rule };

    /// What elements begin with.
    ghost first: { Self → ℕ → Bool };

    /// One element, if one begins. Returns whether the list can go on after it.
    fn parse<G: Grammar>(&self, p: &mut Parser<'_>, g: &G) -> Result<bool, NoMemory>
        requires behind { Behind G.valid G.left g.now p.old }
        requires more { next (state p.old) ≢ EOF }
        ensures grew { OnOk result (Grew (state p.old) (state p.new) element_events) }
        ensures took { IfOk result (λ going_on. going_on ≡ true → Took (state p.old) (state p.new) element_room) }
        ensures script { IfOk result
            (λ going_on. Does (G.left g.now) (element self.now) (of_bool going_on) (state p.old) (state p.new)) };

    /// Whether an element may begin with a token of this kind.
    fn is_first(&self, kind: SyntaxKind) -> bool
        ensures { result ≡ first self.now kind };
}

/// A list from `bra` to `ket`, as `(a, b)`, its elements with `delim` between. A missing element is reported and
/// skipped; a missing `delim` is reported where the next element begins.
#[tactic(auto, using(crate::proofs::Binary::width_positive), unfolding(rap_grammar_scripts::specs::Lists::delimited))]
pub fn delimited<G: Grammar, E: Element>(
    p: &mut Parser<'_>,
    g: &G,
    bra: SyntaxKind,
    ket: SyntaxKind,
    delim: SyntaxKind,
    unexpected_delim_message: &str,
    element: &E,
) -> Result<(), NoMemory>
    requires within { Within G.valid G.left g.now p.old }
    requires here { At (state p.old) bra }
    requires bra { bra ≢ EOF }
    requires ket { ket ≢ EOF }
    requires delim { delim ≢ EOF }
    ensures took { OnOk result (Took (state p.old) (state p.new) brackets_room) }
    ensures script { OnOk result
        (Executes (G.left g.now)
        (script.delimited (E.element element.now) bra ket delim unexpected_delim_message.now (E.first element.now)) p.old p.new) }
{
    p.bump(bra)?;
    elements(p, g, ket, delim, unexpected_delim_message, element)?;
    p.expect(ket)?;
    Ok(())
}

/// The elements of a list up to `ket`, or to where it can't go on.
#[tactic(auto, using(crate::proofs::Loops::turns), unfolding(rap_grammar_scripts::specs::Lists::elements))]
fn elements<G: Grammar, E: Element>(
    p: &mut Parser<'_>,
    g: &G,
    ket: SyntaxKind,
    delim: SyntaxKind,
    unexpected_delim_message: &str,
    element: &E,
) -> Result<(), NoMemory>
    requires behind { Behind G.valid G.left g.now p.old }
    requires delim { delim ≢ EOF }
    ensures grew { OnOk result (Grew (state p.old) (state p.new) element_events) }
    ensures script { OnOk result
        (Executes (G.left g.now)
        (script.elements (E.element element.now) ket delim unexpected_delim_message.now (E.first element.now)) p.old p.new) }
{
    'elements: while !p.at(ket) && !p.at(SyntaxKind::EOF) {
        if p.at(delim) {
            let m = p.start()?;
            p.error(unexpected_delim_message)?;
            p.bump(delim)?;
            m.complete(p, SyntaxKind::ERROR)?;
            continue;
        }
        if !element.parse(p, g)? {
            return Ok(());
        }
        if !p.at(delim) && !element.is_first(p.current()) {
            return Ok(());
        }
        p.expect(delim)?;
    }
    Ok(())
}
