//! Expressions.
ghost use Rattle.std.specs.Prelude.{ℕ, ◌≡◌, ◌≢◌, ◌<◌, ◌≤◌, IfOk, Some, None, OnOk, true, false};
ghost use Rattle.rap_base.specs.TokenKind.{EOF};
ghost use Rattle.rap_events.specs.State.{state, next};
ghost use Rattle.rap_grammar_scripts.specs.Expressions as script;
ghost use Rattle.rap_grammar_scripts.specs.Words.{of_expr};
ghost use Rattle.rap_grammar_scripts.specs.First.{is_expr_first};
ghost use Rattle.rap_grammar_frame.specs.Grew.{Within, Dropped, Spent};
ghost use Rattle.rap_grammar_scripts.specs.Exec.{Does};
ghost use Rattle.rap_grammar_scripts.specs.Recovery.{stops_expr};
ghost use Rattle.rap_grammar_facts.specs.Nodes.{AtomIf};
ghost use Rattle.rap_grammar_frame.specs.Room.{marked_room, dropped_events};
ghost use Rattle.rap_grammar_frame.specs.Rules.{Answered, AnsweredFrom};
ghost use Rattle.rap_grammar_scripts.specs.Script.{nothing};

use crate::expressions::atom::atom_expr;
use crate::expressions::operators::{climb, prefix_expr, ref_expr};
use rap_base::T;
use rap_base::no_memory::NoMemory;
use rap_events::parser::{CompletedMarker, Marker, Parser};
use rap_grammar_attributes::attributes::outer_attrs;
use rap_grammar_expressions_operands::postfix::postfix_expr;
use rap_grammar_expressions_operands::ranges::prefix_range;
use rap_grammar_frame::first::is_expr_first;
use rap_grammar_frame::knot::Grammar;
use rap_grammar_frame::recovery::expr_recovery_set;
use rap_grammar_scripts::arguments::{BlockLike, Restrictions};

mod atom;
mod operators;

/// An expression of at least the power `bp`, after its attributes.
#[inline(never)]
#[tactic(auto, unfolding(rap_grammar_scripts::specs::Expressions::expr_bp))]
pub fn expr_bp<G: Grammar>(
    p: &mut Parser<'_>,
    g: &G,
    r: Restrictions,
    bp: u8,
) -> Result<Option<(CompletedMarker, BlockLike)>, NoMemory>
    requires within { Within G.valid G.left g.now p.old }
    requires power { 1 ≤ bp }
    ensures answered { IfOk result (Answered (state p.old) (state p.new) r.prefer_stmt bp) }
    ensures script { IfOk result
        (λ e. Does (G.left g.now) (script.expr_bp r bp) (of_expr e) (state p.old) (state p.new)) }
{
    let m = p.start()?;
    outer_attrs(p, g)?;
    let expr = expr_from(p, g, m, r, bp)?;
    Ok(expr)
}

/// An expression of at least the power `bp`, from the newest marker on.
#[inline(always)]
#[tactic(auto, using(crate::proofs::Atoms::taken, rap_grammar_facts::proofs::Expressions::reported_lhs, rap_grammar_facts::proofs::Operators::grew_climb), unfolding(rap_grammar_scripts::specs::Expressions::expr_from))]
pub fn expr_from<G: Grammar>(
    p: &mut Parser<'_>,
    g: &G,
    m: Marker,
    r: Restrictions,
    bp: u8,
) -> Result<Option<(CompletedMarker, BlockLike)>, NoMemory>
    requires within { Within G.valid G.left g.now p.old }
    requires newest { (state p.old).marker ≡ Some m.pos.value }
    requires power { 1 ≤ bp }
    ensures answered { IfOk result (AnsweredFrom (state p.old) (state p.new) r.prefer_stmt bp) }
    ensures spent { IfOk result
        (λ e. e ≡ None → stops_expr (next (state p.old)) ≡ false → Spent (state p.old) (state p.new) marked_room) }
    ensures script { IfOk result
        (λ e. Does (G.left g.now) (script.expr_from r bp) (of_expr e) (state p.old) (state p.new)) }
{
    if !is_expr_first(p.current()) {
        missing_expr(p, m)?;
        return Ok(None);
    }
    let Some((lhs, block_like)) = lhs(p, g, r)? else {
        m.abandon(p)?;
        return Ok(None);
    };
    let lhs = lhs.extend_to(p, m)?;
    if r.prefer_stmt && block_like.is_block() {
        return Ok(Some((lhs, BlockLike::Block)));
    }
    let cm = climb(p, g, lhs, r, bp)?;
    Ok(Some((cm, BlockLike::NotBlock)))
}

/// Reports that an expression is missing, and abandons the marker. It is a function of its own so that the set
/// takes no room on the stack of the recursive rules.
#[inline(never)]
#[tactic(auto, using(crate::proofs::Missing::spent_missing), unfolding(rap_grammar_scripts::specs::Expressions::missing_expr))]
fn missing_expr(p: &mut Parser<'_>, m: Marker) -> Result<(), NoMemory>
    requires newest { (state p.old).marker ≡ Some m.pos.value }
    requires missing { is_expr_first (next (state p.old)) ≡ false }
    ensures dropped { OnOk result (Dropped (state p.old) (state p.new) dropped_events) }
    ensures spent { OnOk result (stops_expr (next (state p.old)) ≡ false → Spent (state p.old) (state p.new) marked_room) }
    ensures script { OnOk result ((depth : ℕ) → Does depth script.missing_expr nothing (state p.old) (state p.new)) }
{
    p.err_recover("expected expression", expr_recovery_set())?;
    m.abandon(p)?;
    Ok(())
}

/// An expression without an operator between two expressions, as `-a` and `a.b()`.
#[inline(always)]
#[tactic(auto, using(rap_grammar_frame::proofs::Done::less_left), unfolding(rap_grammar_scripts::specs::Expressions::lhs))]
fn lhs<G: Grammar>(
    p: &mut Parser<'_>,
    g: &G,
    r: Restrictions,
) -> Result<Option<(CompletedMarker, BlockLike)>, NoMemory>
    requires within { Within G.valid G.left g.now p.old }
    requires more { next (state p.old) ≢ EOF }
    ensures atom { IfOk result (AtomIf (state p.old) (state p.new)) }
    ensures script { IfOk result (λ e. Does (G.left g.now) (script.lhs r) (of_expr e) (state p.old) (state p.new)) }
{
    match p.current() {
        T![&] => Ok(Some((ref_expr(p, g, r)?, BlockLike::NotBlock))),
        T![*] | T![!] | T![-] => Ok(Some((prefix_expr(p, g, r)?, BlockLike::NotBlock))),
        T![.] if p.at(T![..=]) => Ok(Some((prefix_range(p, g, r, T![..=])?, BlockLike::NotBlock))),
        T![.] if p.at(T![..]) => Ok(Some((prefix_range(p, g, r, T![..])?, BlockLike::NotBlock))),
        _ => {
            let Some((atom, block_like)) = atom_expr(p, g, r)? else {
                return Ok(None);
            };
            let allow_calls = !(r.prefer_stmt && block_like.is_block());
            let expr = postfix_expr(p, g, atom, block_like, allow_calls)?;
            Ok(Some(expr))
        }
    }
}
