//! Closures.
//! In the Rust crate: `grammar/expressions/atom.rs`.
ghost use Rattle.std.specs.Prelude.{◌≡◌, ◌<◌, ◌≤◌, IfOk, OnOk, true};
ghost use Rattle.rap_events.specs.State.{state};
ghost use Rattle.rap_grammar_scripts.specs.Closures as script;
ghost use Rattle.rap_grammar_scripts.specs.First.{is_closure};
ghost use Rattle.rap_grammar_frame.specs.Grew.{Within, Behind};
ghost use Rattle.rap_grammar_scripts.specs.Exec.{Executes};
ghost use Rattle.rap_grammar_facts.specs.Alone.{ExecutesAlone};
ghost use Rattle.rap_grammar_facts.specs.Nodes.{IsOperand};
ghost use Rattle.rap_grammar_scripts.specs.Test.{holds};

use rap_base::T;
use rap_base::no_memory::NoMemory;
use rap_base::syntax_kind::SyntaxKind;
use rap_events::parser::{CompletedMarker, Parser};
use rap_grammar_expressions_blocks::blocks::block_expr;
use rap_grammar_frame::first::is_expr_first;
use rap_grammar_frame::knot::Grammar;
use rap_grammar_frame::through_knot::{expr, for_binder, opt_ret_type};
use rap_grammar_params::params::param_list_closure;

/// A closure, as `|a| b`.
#[inline(never)]
#[tactic(auto, using(rap_grammar_facts::proofs::Closures::facts, rap_grammar_facts::proofs::Params::took_param_list_closure), unfolding(rap_grammar_scripts::specs::Closures::closure_expr))]
pub fn closure_expr<G: Grammar>(p: &mut Parser<'_>, g: &G) -> Result<CompletedMarker, NoMemory>
    requires within { Within G.valid G.left g.now p.old }
    requires here { holds is_closure (state p.old).rest ≡ true }
    ensures operand { IfOk result (IsOperand (state p.new)) }
    ensures script { OnOk result (Executes (G.left g.now) script.closure_expr p.old p.new) }
{
    let m = p.start()?;
    closure_binder(p, g)?;
    closure_keywords(p)?;
    if !p.at(T![|]) {
        p.error("expected `|`")?;
        let cm = m.complete(p, SyntaxKind::CLOSURE_EXPR)?;
        return Ok(cm);
    }
    param_list_closure(p, g)?;
    closure_body(p, g)?;
    let cm = m.complete(p, SyntaxKind::CLOSURE_EXPR)?;
    Ok(cm)
}

/// The lifetimes of a closure, as `for<'a>`, if it has some.
#[tactic(auto, unfolding(rap_grammar_scripts::specs::Closures::closure_binder))]
fn closure_binder<G: Grammar>(p: &mut Parser<'_>, g: &G) -> Result<(), NoMemory>
    requires within { Within G.valid G.left g.now p.old }
    ensures script { OnOk result (Executes (G.left g.now) script.closure_binder p.old p.new) }
{
    if !p.at(T![for]) {
        return Ok(());
    }
    for_binder(p, g)?;
    Ok(())
}

/// The keywords before the parameters of a closure, as `static async move`.
#[tactic(auto, unfolding(rap_grammar_scripts::specs::Closures::closure_keywords))]
fn closure_keywords(p: &mut Parser<'_>) -> Result<(), NoMemory>
    ensures script { OnOk result (ExecutesAlone script.closure_keywords p.old p.new) }
{
    p.eat(T![const])?;
    p.eat(T![static])?;
    p.eat(T![async])?;
    p.eat(T![gen])?;
    p.eat(T![move])?;
    Ok(())
}

/// The body of a closure: an expression, or a block if there is a return type.
#[tactic(auto, using(rap_grammar_facts::proofs::Closures::facts), unfolding(rap_grammar_scripts::specs::Closures::closure_body))]
fn closure_body<G: Grammar>(p: &mut Parser<'_>, g: &G) -> Result<(), NoMemory>
    requires behind { Behind G.valid G.left g.now p.old }
    ensures script { OnOk result (Executes (G.left g.now) script.closure_body p.old p.new) }
{
    if opt_ret_type(p, g)? {
        closing_angles(p)?;
        block_expr(p, g)?;
        return Ok(());
    }
    if !is_expr_first(p.current()) {
        p.error("expected expression")?;
        return Ok(());
    }
    expr(p, g)?;
    Ok(())
}

/// Angle brackets that nothing opened, after the type of a closure.
#[tactic(auto, using(rap_grammar_frame::proofs::Loops::turns, crate::proofs::Skipping::loop_skipped), unfolding(rap_grammar_scripts::specs::Closures::closing_angles))]
fn closing_angles(p: &mut Parser<'_>) -> Result<(), NoMemory>
    ensures script { OnOk result (ExecutesAlone script.closing_angles p.old p.new) }
{
    'angles: while p.at(T![>]) {
        p.err_and_bump("expected a curly brace")?;
    }
    Ok(())
}
