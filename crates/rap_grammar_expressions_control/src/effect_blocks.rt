//! Blocks as expressions, and what stands before their braces.
//! In the Rust crate: `grammar/expressions/atom.rs`.
ghost use Rattle.std.specs.Prelude.{ℕ, ◌≡◌, ◌≢◌, ◌<◌, ◌≤◌, IfOk, OnOk, true, ◌⊎◌};
ghost use Rattle.rap_base.specs.TokenKind.{EOF, L_CURLY, TRY_KW};
ghost use Rattle.rap_events.specs.State.{state, next};
ghost use Rattle.rap_grammar_scripts.specs.EffectBlocks as script;
ghost use Rattle.rap_grammar_scripts.specs.EffectBlocks.{is_effect_block};
ghost use Rattle.rap_grammar_scripts.specs.Words.{of_expr};
ghost use Rattle.rap_grammar_scripts.specs.First.{is_closure};
ghost use Rattle.rap_grammar_frame.specs.Grew.{Within};
ghost use Rattle.rap_grammar_scripts.specs.Exec.{Does, Executes};
ghost use Rattle.rap_grammar_facts.specs.Alone.{ExecutesAlone};
ghost use Rattle.rap_grammar_facts.specs.Nodes.{IsAtom, AtomIf};
ghost use Rattle.rap_grammar_scripts.specs.Test.{holds};

use crate::closures::closure_expr;
use crate::control::for_expr;
use rap_base::T;
use rap_base::no_memory::NoMemory;
use rap_base::syntax_kind::SyntaxKind;
use rap_events::parser::{CompletedMarker, Parser};
use rap_grammar_expressions_blocks::blocks::stmt_list;
use rap_grammar_frame::knot::{Answer, Grammar};
use rap_grammar_frame::through_knot::type_;
use rap_grammar_scripts::arguments::BlockLike;

/// A block by itself, as `{ a; b }`.
#[inline(never)]
#[tactic(auto, unfolding(rap_grammar_scripts::specs::EffectBlocks::plain_block))]
pub fn plain_block<G: Grammar>(p: &mut Parser<'_>, g: &G) -> Result<CompletedMarker, NoMemory>
    requires within { Within G.valid G.left g.now p.old }
    requires here { next (state p.old) ≡ L_CURLY }
    ensures atom { IfOk result (IsAtom (state p.old) (state p.new)) }
    ensures script { OnOk result (Executes (G.left g.now) script.plain_block p.old p.new) }
{
    let m = p.start()?;
    stmt_list(p, g)?;
    let cm = m.complete(p, SyntaxKind::BLOCK_EXPR)?;
    Ok(cm)
}

/// A block with an effect, a closure, a `try` block or a `for` loop. Where none begins, the next token stands in an
/// `ERROR`.
#[tactic(auto, using(rap_grammar_facts::proofs::Closures::moved_closure_expr), unfolding(rap_grammar_scripts::specs::EffectBlocks::effect_expr))]
pub fn effect_expr<G: Grammar>(p: &mut Parser<'_>, g: &G) -> Result<Answer, NoMemory>
    requires within { Within G.valid G.left g.now p.old }
    requires more { next (state p.old) ≢ EOF }
    ensures atom { IfOk result (AtomIf (state p.old) (state p.new)) }
    ensures script { IfOk result (λ o. Does (G.left g.now) script.effect_expr (of_expr o) (state p.old) (state p.new)) }
{
    if is_effect_block(p) {
        let block = effect_block(p, g)?;
        return Ok(Some((block, BlockLike::Block)));
    }
    if is_closure(p) {
        let closure = closure_expr(p, g)?;
        return Ok(Some((closure, BlockLike::NotBlock)));
    }
    match p.current() {
        T![try] => Ok(Some((try_block_expr(p, g)?, BlockLike::Block))),
        T![for] => Ok(Some((for_expr(p, g)?, BlockLike::Block))),
        _ => {
            p.err_and_bump("expected expression")?;
            Ok(None)
        }
    }
}

/// Whether a closure comes next.
fn is_closure(p: &Parser<'_>) -> bool
    ensures { result ≡ holds is_closure (state p.now).rest }
{
    matches!(
        p.current(),
        T![const] | T![static] | T![async] | T![move] | T![|]
    ) || (p.current() == T![for] && p.nth(1) == T![<])
}

/// Whether a block comes next, with what it is before its brace, as `unsafe {}` and `async move {}`.
#[tactic(auto, unfolding(rap_grammar_scripts::specs::EffectBlocks::is_effect_block))]
fn is_effect_block(p: &Parser<'_>) -> bool
    ensures { result ≡ holds is_effect_block (state p.now).rest }
{
    let la = p.nth(1);
    match p.current() {
        T![const] | T![unsafe] => la == T!['{'],
        T![gen] => la == T!['{'] || (la == T![move] && p.nth(2) == T!['{']),
        T![async] => {
            la == T!['{']
                || (la == T![gen] && p.nth(2) == T!['{'])
                || (la == T![move] && p.nth(2) == T!['{'])
                || (la == T![gen] && p.nth(2) == T![move] && p.nth(3) == T!['{'])
        }
        _ => false,
    }
}

/// What stands before the brace of a block with an effect, as `async move`.
#[tactic(auto, using(crate::proofs::Effects::some_first, crate::proofs::Effects::brace_next), unfolding(rap_grammar_scripts::specs::EffectBlocks::effects))]
fn effects(p: &mut Parser<'_>) -> Result<(), NoMemory>
    requires starts { holds is_effect_block (state p.old).rest ≡ true }
    ensures here { OnOk result (next (state p.new) ≡ L_CURLY) }
    ensures script { OnOk result (ExecutesAlone script.effects p.old p.new) }
{
    p.bump_any()?;
    p.eat(T![gen])?;
    p.eat(T![move])?;
    Ok(())
}

/// A block with a keyword before it, as `unsafe {}`.
#[inline(never)]
#[tactic(auto, using(rap_grammar_facts::proofs::EffectBlocks::facts), unfolding(rap_grammar_scripts::specs::EffectBlocks::effect_block))]
fn effect_block<G: Grammar>(p: &mut Parser<'_>, g: &G) -> Result<CompletedMarker, NoMemory>
    requires within { Within G.valid G.left g.now p.old }
    requires starts { holds is_effect_block (state p.old).rest ≡ true }
    ensures atom { IfOk result (IsAtom (state p.old) (state p.new)) }
    ensures script { OnOk result (Executes (G.left g.now) script.effect_block p.old p.new) }
{
    let m = p.start()?;
    effects(p)?;
    stmt_list(p, g)?;
    let cm = m.complete(p, SyntaxKind::BLOCK_EXPR)?;
    Ok(cm)
}

/// A `try`, and the type of the block after it, as `try bikeshed a`.
#[tactic(auto, unfolding(rap_grammar_scripts::specs::EffectBlocks::try_modifier))]
fn try_modifier<G: Grammar>(p: &mut Parser<'_>, g: &G) -> Result<(), NoMemory>
    requires within { Within G.valid G.left g.now p.old }
    requires here { next (state p.old) ≡ TRY_KW }
    ensures script { OnOk result (Executes (G.left g.now) script.try_modifier p.old p.new) }
{
    let m = p.start()?;
    p.bump(T![try])?;
    if p.eat_contextual_kw(T![bikeshed])? {
        type_(p, g)?;
        m.complete(p, SyntaxKind::TRY_BLOCK_MODIFIER)?;
        return Ok(());
    }
    m.complete(p, SyntaxKind::TRY_BLOCK_MODIFIER)?;
    Ok(())
}

/// A `try` block, as `try {}` and `try bikeshed a {}`.
#[inline(never)]
#[tactic(auto, using(rap_grammar_facts::proofs::EffectBlocks::facts), unfolding(rap_grammar_scripts::specs::EffectBlocks::try_block_expr))]
fn try_block_expr<G: Grammar>(p: &mut Parser<'_>, g: &G) -> Result<CompletedMarker, NoMemory>
    requires within { Within G.valid G.left g.now p.old }
    requires here { next (state p.old) ≡ TRY_KW }
    ensures atom { IfOk result (IsAtom (state p.old) (state p.new)) }
    ensures script { OnOk result (Executes (G.left g.now) script.try_block_expr p.old p.new) }
{
    let m = p.start()?;
    try_modifier(p, g)?;
    if p.at(T!['{']) {
        stmt_list(p, g)?;
        let cm = m.complete(p, SyntaxKind::BLOCK_EXPR)?;
        return Ok(cm);
    }
    p.error("expected a block")?;
    let cm = m.complete(p, SyntaxKind::BLOCK_EXPR)?;
    Ok(cm)
}
