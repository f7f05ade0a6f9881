//! Conditions, loops and labels.
//! In the Rust crate: `grammar/expressions/atom.rs`.
ghost use Rattle.std.specs.Prelude.{ℕ, ◌≡◌, ◌≢◌, ◌<◌, ◌≤◌, IfOk, OnOk, IfSome, Some};
ghost use Rattle.rap_base.specs.TokenKind.{IF_KW, LET_KW, LOOP_KW, WHILE_KW, FOR_KW, LIFETIME_IDENT, COLON};
ghost use Rattle.rap_events.specs.State.{state, next, NthAt};
ghost use Rattle.rap_grammar_scripts.specs.Control as script;
ghost use Rattle.rap_grammar_scripts.specs.Words.{of_expr};
ghost use Rattle.rap_grammar_frame.specs.Grew.{Within, Behind};
ghost use Rattle.rap_grammar_scripts.specs.Exec.{Does, Executes};
ghost use Rattle.rap_grammar_facts.specs.Alone.{ExecutesAlone};
ghost use Rattle.rap_grammar_facts.specs.Nodes.{IsOperand, IsAtom, AtomIf};

use rap_base::T;
use rap_base::no_memory::NoMemory;
use rap_base::syntax_kind::SyntaxKind;
use rap_events::parser::{CompletedMarker, Marker, Parser};
use rap_grammar_expressions_blocks::blocks::{block_expr, stmt_list};
use rap_grammar_frame::knot::{Answer, Grammar};
use rap_grammar_frame::names::lifetime;
use rap_grammar_frame::through_knot;
use rap_grammar_frame::through_knot::{expr_no_struct, pattern};
use rap_grammar_scripts::arguments::{BlockLike, Restrictions};
use rap_grammar_scripts::rule::Rule;

/// An `if`, as `if a { b } else { c }`.
#[inline(never)]
#[tactic(auto, using(rap_grammar_facts::proofs::Control::fewer_else_branch, rap_grammar_facts::proofs::Control::marker_else_branch), unfolding(rap_grammar_scripts::specs::Control::if_expr))]
pub fn if_expr<G: Grammar>(p: &mut Parser<'_>, g: &G) -> Result<CompletedMarker, NoMemory>
    requires within { Within G.valid G.left g.now p.old }
    requires here { next (state p.old) ≡ IF_KW }
    ensures atom { IfOk result (IsAtom (state p.old) (state p.new)) }
    ensures script { OnOk result (Executes (G.left g.now) script.if_expr p.old p.new) }
{
    let m = p.start()?;
    p.bump(T![if])?;
    expr_no_struct(p, g)?;
    block_expr(p, g)?;
    else_branch(p, g)?;
    let cm = m.complete(p, SyntaxKind::IF_EXPR)?;
    Ok(cm)
}

/// The `else` of an `if`, if there is one: a block, or another `if`.
#[tactic(auto, unfolding(rap_grammar_scripts::specs::Control::else_branch))]
fn else_branch<G: Grammar>(p: &mut Parser<'_>, g: &G) -> Result<(), NoMemory>
    requires behind { Behind G.valid G.left g.now p.old }
    ensures script { OnOk result (Executes (G.left g.now) script.else_branch p.old p.new) }
{
    if !p.eat(T![else])? {
        return Ok(());
    }
    if p.at(T![if]) {
        through_knot::if_expr(p, g)?;
        return Ok(());
    }
    block_expr(p, g)?;
    Ok(())
}

/// A pattern as a condition, as `let a = b`.
#[inline(never)]
pub fn let_expr<G: Grammar>(
    p: &mut Parser<'_>,
    g: &G,
    r: Restrictions,
) -> Result<CompletedMarker, NoMemory>
    requires within { Within G.valid G.left g.now p.old }
    requires here { next (state p.old) ≡ LET_KW }
    ensures atom { IfOk result (IsAtom (state p.old) (state p.new)) }
    ensures script { OnOk result (Executes (G.left g.now) (script.let_expr r) p.old p.new) }
{
    let m = p.start()?;
    p.bump(T![let])?;
    pattern(p, g)?;
    p.expect(T![=])?;
    g.run(p, Rule::ExprBp { r, bp: 5 })?;
    let cm = m.complete(p, SyntaxKind::LET_EXPR)?;
    Ok(cm)
}

/// A `loop`, as `loop { a }`.
#[inline(never)]
#[tactic(auto, unfolding(rap_grammar_scripts::specs::Control::loop_expr))]
pub fn loop_expr<G: Grammar>(p: &mut Parser<'_>, g: &G) -> Result<CompletedMarker, NoMemory>
    requires within { Within G.valid G.left g.now p.old }
    requires here { next (state p.old) ≡ LOOP_KW }
    ensures atom { IfOk result (IsAtom (state p.old) (state p.new)) }
    ensures script { OnOk result (Executes (G.left g.now) script.loop_expr p.old p.new) }
{
    let m = p.start()?;
    let cm = loop_from(p, g, m)?;
    Ok(cm)
}

/// The same from the newest marker on.
#[tactic(auto, unfolding(rap_grammar_scripts::specs::Control::loop_from))]
fn loop_from<G: Grammar>(p: &mut Parser<'_>, g: &G, m: Marker) -> Result<CompletedMarker, NoMemory>
    requires within { Within G.valid G.left g.now p.old }
    requires newest { (state p.old).marker ≡ Some m.pos.value }
    requires here { next (state p.old) ≡ LOOP_KW }
    ensures atom { IfOk result (IsAtom (state p.old) (state p.new)) }
    ensures script { OnOk result (Executes (G.left g.now) script.loop_from p.old p.new) }
{
    p.bump(T![loop])?;
    block_expr(p, g)?;
    let cm = m.complete(p, SyntaxKind::LOOP_EXPR)?;
    Ok(cm)
}

/// A `while` loop, as `while a { b }`.
#[inline(never)]
#[tactic(auto, unfolding(rap_grammar_scripts::specs::Control::while_expr))]
pub fn while_expr<G: Grammar>(p: &mut Parser<'_>, g: &G) -> Result<CompletedMarker, NoMemory>
    requires within { Within G.valid G.left g.now p.old }
    requires here { next (state p.old) ≡ WHILE_KW }
    ensures atom { IfOk result (IsAtom (state p.old) (state p.new)) }
    ensures script { OnOk result (Executes (G.left g.now) script.while_expr p.old p.new) }
{
    let m = p.start()?;
    let cm = while_from(p, g, m)?;
    Ok(cm)
}

/// The same from the newest marker on.
#[tactic(auto, unfolding(rap_grammar_scripts::specs::Control::while_from))]
fn while_from<G: Grammar>(p: &mut Parser<'_>, g: &G, m: Marker) -> Result<CompletedMarker, NoMemory>
    requires within { Within G.valid G.left g.now p.old }
    requires newest { (state p.old).marker ≡ Some m.pos.value }
    requires here { next (state p.old) ≡ WHILE_KW }
    ensures atom { IfOk result (IsAtom (state p.old) (state p.new)) }
    ensures script { OnOk result (Executes (G.left g.now) script.while_from p.old p.new) }
{
    p.bump(T![while])?;
    expr_no_struct(p, g)?;
    block_expr(p, g)?;
    let cm = m.complete(p, SyntaxKind::WHILE_EXPR)?;
    Ok(cm)
}

/// A `for` loop, as `for a in b { c }`.
#[inline(never)]
#[tactic(auto, unfolding(rap_grammar_scripts::specs::Control::for_expr))]
pub fn for_expr<G: Grammar>(p: &mut Parser<'_>, g: &G) -> Result<CompletedMarker, NoMemory>
    requires within { Within G.valid G.left g.now p.old }
    requires here { next (state p.old) ≡ FOR_KW }
    ensures atom { IfOk result (IsAtom (state p.old) (state p.new)) }
    ensures script { OnOk result (Executes (G.left g.now) script.for_expr p.old p.new) }
{
    let m = p.start()?;
    let cm = for_from(p, g, m)?;
    Ok(cm)
}

/// The same from the newest marker on.
#[tactic(auto, using(rap_grammar_frame::proofs::Steps::by_report), unfolding(rap_grammar_scripts::specs::Control::for_from))]
fn for_from<G: Grammar>(p: &mut Parser<'_>, g: &G, m: Marker) -> Result<CompletedMarker, NoMemory>
    requires within { Within G.valid G.left g.now p.old }
    requires newest { (state p.old).marker ≡ Some m.pos.value }
    requires here { next (state p.old) ≡ FOR_KW }
    ensures atom { IfOk result (IsAtom (state p.old) (state p.new)) }
    ensures script { OnOk result (Executes (G.left g.now) script.for_from p.old p.new) }
{
    p.bump(T![for])?;
    pattern(p, g)?;
    p.expect(T![in])?;
    expr_no_struct(p, g)?;
    block_expr(p, g)?;
    let cm = m.complete(p, SyntaxKind::FOR_EXPR)?;
    Ok(cm)
}

/// A loop or a block after its label, as `'a: loop {}`. Where neither follows, the label stands in an `ERROR`.
#[inline(never)]
#[tactic(auto, using(rap_grammar_facts::proofs::Control::facts), unfolding(rap_grammar_scripts::specs::Control::labelled_expr))]
pub fn labelled_expr<G: Grammar>(p: &mut Parser<'_>, g: &G) -> Result<Answer, NoMemory>
    requires within { Within G.valid G.left g.now p.old }
    requires here { next (state p.old) ≡ LIFETIME_IDENT }
    requires colon { NthAt (state p.old) 1 COLON }
    ensures atom { IfOk result (AtomIf (state p.old) (state p.new)) }
    ensures script { IfOk result
        (λ e. Does (G.left g.now) script.labelled_expr (of_expr e) (state p.old) (state p.new)) }
{
    let m = p.start()?;
    label(p)?;
    let e = labelled_from(p, g, m)?;
    Ok(e)
}

/// A label, as `'a:`.
fn label(p: &mut Parser<'_>) -> Result<(), NoMemory>
    requires here { next (state p.old) ≡ LIFETIME_IDENT }
    requires colon { NthAt (state p.old) 1 COLON }
    ensures script { OnOk result (ExecutesAlone script.label p.old p.new) }
{
    let m = p.start()?;
    lifetime(p)?;
    p.bump(T![:])?;
    m.complete(p, SyntaxKind::LABEL)?;
    Ok(())
}

/// What the label is of, from the newest marker on.
#[tactic(auto, unfolding(rap_grammar_scripts::specs::Control::labelled_from))]
fn labelled_from<G: Grammar>(p: &mut Parser<'_>, g: &G, m: Marker) -> Result<Answer, NoMemory>
    requires within { Within G.valid G.left g.now p.old }
    requires newest { (state p.old).marker ≡ Some m.pos.value }
    ensures operand { IfOk result (λ o. IfSome o (λ e. IsOperand (state p.new) e.0)) }
    ensures script { IfOk result
        (λ e. Does (G.left g.now) script.labelled_from (of_expr e) (state p.old) (state p.new)) }
{
    match p.current() {
        T![loop] => Ok(Some((loop_from(p, g, m)?, BlockLike::Block))),
        T![for] => Ok(Some((for_from(p, g, m)?, BlockLike::Block))),
        T![while] => Ok(Some((while_from(p, g, m)?, BlockLike::Block))),
        T!['{'] => {
            stmt_list(p, g)?;
            let cm = m.complete(p, SyntaxKind::BLOCK_EXPR)?;
            Ok(Some((cm, BlockLike::Block)))
        }
        _ => {
            p.error("expected a loop or block")?;
            m.complete(p, SyntaxKind::ERROR)?;
            Ok(None)
        }
    }
}
