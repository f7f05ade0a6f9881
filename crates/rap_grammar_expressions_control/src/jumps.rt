//! Jump expressions, with a value or without one.
//! In the Rust crate: `grammar/expressions/atom.rs`.
ghost use Rattle.std.specs.Prelude.{ℕ, ◌≡◌, ◌≢◌, ◌<◌, ◌≤◌, IfOk, OnOk, true, IsTrue};
ghost use Rattle.rap_base.specs.TokenKind.{RETURN_KW, BECOME_KW, YIELD_KW, DO_KW, CONTINUE_KW, BREAK_KW};
ghost use Rattle.rap_events.specs.State.{state, next};
ghost use Rattle.rap_grammar_scripts.specs.Jumps as script;
ghost use Rattle.rap_grammar_scripts.specs.Atom as atom_script;
ghost use Rattle.rap_grammar_frame.specs.Grew.{Within, Behind};
ghost use Rattle.rap_grammar_scripts.specs.Exec.{Executes};
ghost use Rattle.rap_grammar_facts.specs.Alone.{ExecutesAlone};
ghost use Rattle.rap_grammar_facts.specs.Nodes.{IsAtom};
ghost use Rattle.rap_grammar_scripts.specs.Test.{holds};

use rap_base::T;
use rap_base::no_memory::NoMemory;
use rap_base::syntax_kind::SyntaxKind;
use rap_events::parser::{CompletedMarker, Parser};
use rap_grammar_frame::first::is_expr_first;
use rap_grammar_frame::knot::Grammar;
use rap_grammar_frame::names::lifetime;
use rap_grammar_frame::through_knot::expr;
use rap_grammar_scripts::arguments::Restrictions;

/// Whether an operand follows. Before a block, as in `if break {}`, a `{` begins none.
fn has_operand(p: &Parser<'_>, before_block: bool) -> bool
    ensures { result ≡ holds (script.has_operand before_block) (state p.now).rest }
{
    let is_block = before_block && p.current() == T!['{'];
    is_expr_first(p.current()) && !is_block
}

/// An operand that may be missing.
#[tactic(auto, unfolding(rap_grammar_scripts::specs::Jumps::opt_expr))]
fn opt_expr<G: Grammar>(p: &mut Parser<'_>, g: &G, before_block: bool) -> Result<(), NoMemory>
    requires behind { Behind G.valid G.left g.now p.old }
    ensures script { OnOk result (Executes (G.left g.now) (script.opt_expr before_block) p.old p.new) }
{
    if !has_operand(p, before_block) {
        return Ok(());
    }
    expr(p, g)?;
    Ok(())
}

/// The label of the loop or block, if there is one.
#[tactic(auto, unfolding(rap_grammar_scripts::specs::Jumps::opt_lifetime))]
fn opt_lifetime(p: &mut Parser<'_>) -> Result<(), NoMemory>
    ensures script { OnOk result (ExecutesAlone script.opt_lifetime p.old p.new) }
{
    if !p.at(T![lifetime_ident]) {
        return Ok(());
    }
    lifetime(p)?;
    Ok(())
}

/// A `return`, as `return` and `return a`.
#[inline(never)]
#[tactic(auto, using(rap_grammar_frame::proofs::Done::less_left, rap_grammar_frame::proofs::Done::marker_kept, rap_grammar_facts::proofs::Jumps::level_opt_expr), unfolding(rap_grammar_scripts::specs::Jumps::return_expr))]
pub fn return_expr<G: Grammar>(p: &mut Parser<'_>, g: &G) -> Result<CompletedMarker, NoMemory>
    requires within { Within G.valid G.left g.now p.old }
    requires here { next (state p.old) ≡ RETURN_KW }
    ensures atom { IfOk result (IsAtom (state p.old) (state p.new)) }
    ensures script { OnOk result (Executes (G.left g.now) script.return_expr p.old p.new) }
{
    let m = p.start()?;
    p.bump(T![return])?;
    opt_expr(p, g, false)?;
    let cm = m.complete(p, SyntaxKind::RETURN_EXPR)?;
    Ok(cm)
}

/// A `become`, as `become f()`.
#[inline(never)]
#[tactic(auto, unfolding(rap_grammar_scripts::specs::Jumps::become_expr))]
pub fn become_expr<G: Grammar>(p: &mut Parser<'_>, g: &G) -> Result<CompletedMarker, NoMemory>
    requires within { Within G.valid G.left g.now p.old }
    requires here { next (state p.old) ≡ BECOME_KW }
    ensures atom { IfOk result (IsAtom (state p.old) (state p.new)) }
    ensures script { OnOk result (Executes (G.left g.now) script.become_expr p.old p.new) }
{
    let m = p.start()?;
    p.bump(T![become])?;
    expr(p, g)?;
    let cm = m.complete(p, SyntaxKind::BECOME_EXPR)?;
    Ok(cm)
}

/// A `yield`, as `yield` and `yield a`.
#[inline(never)]
#[tactic(auto, using(rap_grammar_frame::proofs::Done::less_left, rap_grammar_frame::proofs::Done::marker_kept, rap_grammar_facts::proofs::Jumps::level_opt_expr), unfolding(rap_grammar_scripts::specs::Jumps::yield_expr))]
pub fn yield_expr<G: Grammar>(p: &mut Parser<'_>, g: &G) -> Result<CompletedMarker, NoMemory>
    requires within { Within G.valid G.left g.now p.old }
    requires here { next (state p.old) ≡ YIELD_KW }
    ensures atom { IfOk result (IsAtom (state p.old) (state p.new)) }
    ensures script { OnOk result (Executes (G.left g.now) script.yield_expr p.old p.new) }
{
    let m = p.start()?;
    p.bump(T![yield])?;
    opt_expr(p, g, false)?;
    let cm = m.complete(p, SyntaxKind::YIELD_EXPR)?;
    Ok(cm)
}

/// Whether `do yeet` comes next.
pub fn starts_yeet(p: &Parser<'_>) -> bool
    ensures starts { result ≡ holds atom_script.starts_yeet (state p.now).rest }
    ensures here { result ≡ true → next (state p.now) ≡ DO_KW }
{
    p.current() == T![do] && p.nth_at_contextual_kw(1, T![yeet])
}

/// A `do yeet`, as `do yeet` and `do yeet a`.
#[inline(never)]
#[tactic(auto, using(rap_grammar_facts::proofs::Jumps::fewer_opt_expr, rap_grammar_facts::proofs::Jumps::marker_opt_expr), unfolding(rap_grammar_scripts::specs::Jumps::yeet_expr))]
pub fn yeet_expr<G: Grammar>(p: &mut Parser<'_>, g: &G) -> Result<CompletedMarker, NoMemory>
    requires within { Within G.valid G.left g.now p.old }
    requires here { next (state p.old) ≡ DO_KW }
    ensures atom { IfOk result (IsAtom (state p.old) (state p.new)) }
    ensures script { OnOk result (Executes (G.left g.now) script.yeet_expr p.old p.new) }
{
    let m = p.start()?;
    p.bump(T![do])?;
    p.eat_contextual_kw(T![yeet])?;
    opt_expr(p, g, false)?;
    let cm = m.complete(p, SyntaxKind::YEET_EXPR)?;
    Ok(cm)
}

/// A `continue`, as `continue` and `continue 'a`.
#[inline(never)]
#[tactic(auto, using(rap_grammar_facts::proofs::Alone::alone_less_left, rap_grammar_facts::proofs::Alone::alone_marker_kept, rap_grammar_facts::proofs::Jumps::level_opt_lifetime), unfolding(rap_grammar_scripts::specs::Jumps::continue_expr))]
pub fn continue_expr(p: &mut Parser<'_>) -> Result<CompletedMarker, NoMemory>
    requires here { next (state p.old) ≡ CONTINUE_KW }
    ensures atom { IfOk result (IsAtom (state p.old) (state p.new)) }
    ensures script { OnOk result ((depth : ℕ) → Executes depth script.continue_expr p.old p.new) }
{
    let m = p.start()?;
    p.bump(T![continue])?;
    opt_lifetime(p)?;
    let cm = m.complete(p, SyntaxKind::CONTINUE_EXPR)?;
    Ok(cm)
}

/// A `break`, as `break`, `break 'a` and `break 'a b`.
#[inline(never)]
#[tactic(auto, using(rap_grammar_frame::proofs::Done::less_left, rap_grammar_frame::proofs::Done::marker_kept, rap_grammar_facts::proofs::Alone::alone_less_left, rap_grammar_facts::proofs::Alone::alone_marker_kept, rap_grammar_facts::proofs::Jumps::level_opt_expr, rap_grammar_facts::proofs::Jumps::level_opt_lifetime), unfolding(rap_grammar_scripts::specs::Jumps::break_expr))]
pub fn break_expr<G: Grammar>(
    p: &mut Parser<'_>,
    g: &G,
    r: Restrictions,
) -> Result<CompletedMarker, NoMemory>
    requires within { Within G.valid G.left g.now p.old }
    requires here { next (state p.old) ≡ BREAK_KW }
    ensures atom { IfOk result (IsAtom (state p.old) (state p.new)) }
    ensures script { OnOk result (Executes (G.left g.now) (script.break_expr r) p.old p.new) }
{
    let m = p.start()?;
    p.bump(T![break])?;
    opt_lifetime(p)?;
    opt_expr(p, g, r.forbid_structs)?;
    let cm = m.complete(p, SyntaxKind::BREAK_EXPR)?;
    Ok(cm)
}
