//! `match` and its arms.
//! In the Rust crate: `grammar/expressions/atom.rs`.
ghost use Rattle.std.specs.Prelude.{ℕ, ◌≡◌, ◌≢◌, ◌<◌, ◌≤◌, IfOk, OnOk, true, false, [], ◌∷◌, if◌then◌else◌};
ghost use Rattle.rap_base.specs.TokenKind.{IF_KW, MATCH_KW, L_CURLY};
ghost use Rattle.rap_base.specs.NodeKind.{MATCH_ARM_LIST};
ghost use Rattle.rap_events.specs.Forest.{node};
ghost use Rattle.rap_events.specs.State.{state, last_children, next};
ghost use Rattle.rap_grammar_scripts.specs.Matches as script;
ghost use Rattle.rap_grammar_scripts.specs.Words.{of_like, is_block};
ghost use Rattle.rap_grammar_frame.specs.Grew.{Within, Behind};
ghost use Rattle.rap_grammar_scripts.specs.Exec.{Does, Executes};
ghost use Rattle.rap_grammar_facts.specs.Alone.{ExecutesAlone};
ghost use Rattle.rap_grammar_facts.specs.Nodes.{IsAtom};
ghost use Rattle.rap_grammar_scripts.specs.Script.{something, again};

use rap_base::T;
use rap_base::no_memory::NoMemory;
use rap_base::syntax_kind::SyntaxKind;
use rap_events::parser::{CompletedMarker, Parser};
use rap_grammar_attributes::attributes::{inner_attrs, outer_attrs};
use rap_grammar_expressions_blocks::blocks::error_block;
use rap_grammar_frame::knot::Grammar;
use rap_grammar_frame::through_knot::{arm_pattern, expr, expr_no_struct, expr_stmt};
use rap_grammar_scripts::arguments::BlockLike;

/// A `match`, as `match a { b => c }`.
#[inline(never)]
#[tactic(auto, using(rap_grammar_facts::proofs::Matches::facts), unfolding(rap_grammar_scripts::specs::Matches::match_expr))]
pub fn match_expr<G: Grammar>(p: &mut Parser<'_>, g: &G) -> Result<CompletedMarker, NoMemory>
    requires within { Within G.valid G.left g.now p.old }
    requires here { next (state p.old) ≡ MATCH_KW }
    ensures atom { IfOk result (IsAtom (state p.old) (state p.new)) }
    ensures script { OnOk result (Executes (G.left g.now) script.match_expr p.old p.new) }
{
    let m = p.start()?;
    p.bump(T![match])?;
    expr_no_struct(p, g)?;
    if !p.at(T!['{']) {
        p.error("expected `{`")?;
        let cm = m.complete(p, SyntaxKind::MATCH_EXPR)?;
        return Ok(cm);
    }
    match_arm_list(p, g)?;
    let cm = m.complete(p, SyntaxKind::MATCH_EXPR)?;
    Ok(cm)
}

/// The arms of a `match` in their braces.
#[tactic(auto, using(rap_grammar_facts::proofs::Matches::marker_match_arms, rap_grammar_facts::proofs::Matches::below_match_arms), unfolding(rap_grammar_scripts::specs::Matches::match_arm_list))]
pub fn match_arm_list<G: Grammar>(p: &mut Parser<'_>, g: &G) -> Result<(), NoMemory>
    requires within { Within G.valid G.left g.now p.old }
    requires here { next (state p.old) ≡ L_CURLY }
    ensures one { OnOk result
        ((state p.new).forest ≡ node (state p.old).forest MATCH_ARM_LIST (last_children (state p.new).forest)) }
    ensures script { OnOk result (Executes (G.left g.now) script.match_arm_list p.old p.new) }
{
    let m = p.start()?;
    p.bump(T!['{'])?;
    inner_attrs(p, g)?;
    match_arms(p, g)?;
    p.expect(T!['}'])?;
    m.complete(p, SyntaxKind::MATCH_ARM_LIST)?;
    Ok(())
}

/// The arms up to the brace that closes. What is not an arm is reported and skipped.
#[tactic(auto, using(rap_grammar_facts::proofs::Matches::facts, rap_grammar_frame::proofs::Loops::turns), unfolding(rap_grammar_scripts::specs::Matches::match_arms))]
fn match_arms<G: Grammar>(p: &mut Parser<'_>, g: &G) -> Result<(), NoMemory>
    requires behind { Behind G.valid G.left g.now p.old }
    ensures script { OnOk result (Executes (G.left g.now) script.match_arms p.old p.new) }
{
    'arms: loop {
        let more = next_arm(p, g)?;
        if !more {
            return Ok(());
        }
    }
}

/// An arm, or what stands in its place, up to the brace that closes. Returns whether there was one.
fn next_arm<G: Grammar>(p: &mut Parser<'_>, g: &G) -> Result<bool, NoMemory>
    requires behind { Behind G.valid G.left g.now p.old }
    ensures script { IfOk result
        (λ more. Does (G.left g.now) (script.arms_turn false false) (if more then again false false else something)
        (state p.old) (state p.new)) }
{
    if p.at(SyntaxKind::EOF) {
        return Ok(false);
    }
    if p.at(T!['}']) {
        return Ok(false);
    }
    if p.at(T!['{']) {
        error_block(p, g, "expected match arm")?;
        return Ok(true);
    }
    if p.at(T![,]) {
        p.err_and_bump("expected pattern")?;
        return Ok(true);
    }
    match_arm(p, g)?;
    Ok(true)
}

/// An arm, as `a if b => c,`.
#[tactic(auto, using(rap_grammar_facts::proofs::Matches::fewer_arm_head, rap_grammar_facts::proofs::Matches::marker_arm_head, rap_grammar_facts::proofs::Matches::marker_arm_body, rap_grammar_frame::proofs::Steps::by_report), unfolding(rap_grammar_scripts::specs::Matches::match_arm))]
fn match_arm<G: Grammar>(p: &mut Parser<'_>, g: &G) -> Result<(), NoMemory>
    requires behind { Behind G.valid G.left g.now p.old }
    ensures script { OnOk result (Executes (G.left g.now) script.match_arm p.old p.new) }
{
    let m = p.start()?;
    outer_attrs(p, g)?;
    arm_head(p, g)?;
    p.expect(T![=>])?;
    arm_body(p, g)?;
    m.complete(p, SyntaxKind::MATCH_ARM)?;
    Ok(())
}

/// The attributes, pattern and guard of an arm. It takes no token where the arrow itself comes next.
#[tactic(auto, using(rap_grammar_facts::proofs::Matches::facts), unfolding(rap_grammar_scripts::specs::Matches::arm_head))]
fn arm_head<G: Grammar>(p: &mut Parser<'_>, g: &G) -> Result<(), NoMemory>
    requires behind { Behind G.valid G.left g.now p.old }
    ensures script { OnOk result (Executes (G.left g.now) script.arm_head p.old p.new) }
{
    arm_pattern(p, g)?;
    if !p.at(T![if]) {
        return Ok(());
    }
    match_guard(p, g)?;
    Ok(())
}

/// The guard of an arm, as `if a`.
#[tactic(auto, unfolding(rap_grammar_scripts::specs::Matches::match_guard))]
fn match_guard<G: Grammar>(p: &mut Parser<'_>, g: &G) -> Result<(), NoMemory>
    requires within { Within G.valid G.left g.now p.old }
    requires here { next (state p.old) ≡ IF_KW }
    ensures script { OnOk result (Executes (G.left g.now) script.match_guard p.old p.new) }
{
    let m = p.start()?;
    p.bump(T![if])?;
    if p.at(T![=]) {
        p.error("expected expression")?;
        m.complete(p, SyntaxKind::MATCH_GUARD)?;
        return Ok(());
    }
    expr(p, g)?;
    m.complete(p, SyntaxKind::MATCH_GUARD)?;
    Ok(())
}

/// The body of an arm, and the comma after it.
#[tactic(auto, using(rap_grammar_facts::proofs::Matches::facts), unfolding(rap_grammar_scripts::specs::Matches::arm_body))]
fn arm_body<G: Grammar>(p: &mut Parser<'_>, g: &G) -> Result<(), NoMemory>
    requires behind { Behind G.valid G.left g.now p.old }
    ensures script { OnOk result (Executes (G.left g.now) script.arm_body p.old p.new) }
{
    if p.eat(T![,])? {
        p.error("expected expression")?;
        return Ok(());
    }
    let Some((_, block_like)) = expr_stmt(p, g)? else {
        arm_end(p, BlockLike::NotBlock)?;
        return Ok(());
    };
    arm_end(p, block_like)?;
    Ok(())
}

/// The comma after an arm. It may be missing after a block and at the end.
#[tactic(auto, unfolding(rap_grammar_scripts::specs::Matches::arm_end))]
fn arm_end(p: &mut Parser<'_>, block_like: BlockLike) -> Result<(), NoMemory>
    ensures script { OnOk result (ExecutesAlone (script.arm_end (is_block (of_like block_like))) p.old p.new) }
{
    if p.eat(T![,])? {
        return Ok(());
    }
    if block_like.is_block() {
        return Ok(());
    }
    if !p.at(T!['}']) {
        p.error("expected `,`")?;
    }
    Ok(())
}
