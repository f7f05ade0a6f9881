//! Constants as generic arguments.
ghost use Rattle.std.specs.Prelude.{◌≡◌, ◌<◌, OnOk, true};
ghost use Rattle.rap_base.specs.TokenKind.{MINUS};
ghost use Rattle.rap_base.specs.NodeKind.{PATH_EXPR};
ghost use Rattle.rap_events.specs.State.{state, next};
ghost use Rattle.rap_grammar_scripts.specs.ConstArgs as script;
ghost use Rattle.rap_grammar_scripts.specs.First.{is_path_start};
ghost use Rattle.rap_grammar_frame.specs.Grew.{Within};
ghost use Rattle.rap_grammar_scripts.specs.Exec.{Executes};
ghost use Rattle.rap_grammar_facts.specs.Alone.{ExecutesAlone};
ghost use Rattle.rap_grammar_scripts.specs.Test.{holds};

use rap_base::T;
use rap_base::no_memory::NoMemory;
use rap_base::syntax_kind::SyntaxKind;
use rap_base::token_set::TokenSet;
use rap_events::parser::{CompletedMarker, Parser};
use rap_grammar_expressions_blocks::blocks::block_expr;
use rap_grammar_frame::first::{is_const_arg_first, is_literal_first, is_path_start};
use rap_grammar_frame::knot::Grammar;
use rap_grammar_frame::literals::literal;
use rap_grammar_paths::paths::expr_path;

/// A constant as an argument, as `1`, `-1`, `{ a }` and `a::b`.
#[tactic(auto, using(rap_grammar_facts::proofs::ConstArgs::facts), unfolding(rap_grammar_scripts::specs::ConstArgs::const_arg))]
pub fn const_arg<G: Grammar>(p: &mut Parser<'_>, g: &G) -> Result<(), NoMemory>
    requires within { Within G.valid G.left g.now p.old }
    ensures script { OnOk result (Executes (G.left g.now) script.const_arg p.old p.new) }
{
    let m = p.start()?;
    const_arg_expr(p, g)?;
    m.complete(p, SyntaxKind::CONST_ARG)?;
    Ok(())
}

/// The expression of a constant.
#[tactic(auto, unfolding(rap_grammar_scripts::specs::ConstArgs::const_arg_expr))]
fn const_arg_expr<G: Grammar>(p: &mut Parser<'_>, g: &G) -> Result<(), NoMemory>
    requires within { Within G.valid G.left g.now p.old }
    ensures script { OnOk result (Executes (G.left g.now) script.const_arg_expr p.old p.new) }
{
    if p.current() == T!['{'] {
        block_expr(p, g)?;
        return Ok(());
    }
    if is_literal_first(p.current()) {
        literal(p)?;
        return Ok(());
    }
    if p.current() == T![-] {
        negative_const(p)?;
        return Ok(());
    }
    if is_path_start(p) {
        const_path(p, g)?;
        return Ok(());
    }
    missing_const(p)?;
    Ok(())
}

/// A path as a constant, as `a::b`.
#[tactic(auto, using(rap_grammar_facts::proofs::Paths::took_expr_path), unfolding(rap_grammar_scripts::specs::ConstArgs::const_path))]
fn const_path<G: Grammar>(p: &mut Parser<'_>, g: &G) -> Result<CompletedMarker, NoMemory>
    requires within { Within G.valid G.left g.now p.old }
    requires path { holds is_path_start (state p.old).rest ≡ true }
    ensures script { OnOk result (Executes (G.left g.now) script.const_path p.old p.new) }
{
    let m = p.start()?;
    expr_path(p, g)?;
    let cm = m.complete(p, SyntaxKind::PATH_EXPR)?;
    Ok(cm)
}

/// A negative number, as `-1`.
#[tactic(auto, unfolding(rap_grammar_scripts::specs::ConstArgs::negative_const))]
fn negative_const(p: &mut Parser<'_>) -> Result<(), NoMemory>
    requires here { next (state p.old) ≡ MINUS }
    ensures script { OnOk result (ExecutesAlone script.negative_const p.old p.new) }
{
    let m = p.start()?;
    p.bump(T![-])?;
    literal(p)?;
    m.complete(p, SyntaxKind::PREFIX_EXPR)?;
    Ok(())
}

/// A constant is missing. It is a function of its own so that the set takes no room on the stack of the rules that
/// nest.
#[inline(never)]
#[tactic(auto, unfolding(rap_grammar_scripts::specs::ConstArgs::missing_const))]
fn missing_const(p: &mut Parser<'_>) -> Result<(), NoMemory>
    ensures script { OnOk result (ExecutesAlone script.missing_const p.old p.new) }
{
    p.err_recover(
        "expected a generic const argument",
        TokenSet::new(&[T![>], T![,]]),
    )?;
    Ok(())
}
