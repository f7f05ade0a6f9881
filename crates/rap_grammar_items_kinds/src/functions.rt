//! Functions.
//! In the Rust crate: `grammar/items.rs`.
ghost use Rattle.std.specs.Prelude.{ℕ, ◌≡◌, ◌≢◌, ◌<◌, ◌≤◌, IfOk, OnOk, Some, None, true, ◌⊎◌};
ghost use Rattle.rap_base.specs.TokenKind.{FN_KW, EOF};
ghost use Rattle.rap_events.specs.State.{state, next};
ghost use Rattle.rap_grammar_scripts.specs.Functions as script;
ghost use Rattle.rap_grammar_frame.specs.Grew.{Within, Behind};
ghost use Rattle.rap_grammar_scripts.specs.Exec.{Executes};
ghost use Rattle.rap_grammar_facts.specs.Alone.{ExecutesAlone};

use rap_base::T;
use rap_base::no_memory::NoMemory;
use rap_base::syntax_kind::SyntaxKind;
use rap_events::parser::{Marker, Parser};
use rap_grammar_expressions_blocks::blocks::block_expr;
use rap_grammar_frame::item_names::fn_name;
use rap_grammar_frame::knot::Grammar;
use rap_grammar_frame::through_knot::{
    opt_generic_param_list, opt_no_arrow_ret_type, opt_ret_type, opt_where_clause,
};
use rap_grammar_params::params::param_list_fn_def;

/// A function from its keyword on, as `fn f(a: b) -> c {}`.
#[tactic(auto, using(rap_grammar_frame::proofs::Done::less_left, rap_grammar_frame::proofs::Done::marker_kept, rap_grammar_facts::proofs::Functions::level_signature, rap_grammar_facts::proofs::Functions::level_fn_body), unfolding(rap_grammar_scripts::specs::Functions::fn_))]
pub fn fn_<G: Grammar>(p: &mut Parser<'_>, g: &G, m: Marker) -> Result<(), NoMemory>
    requires within { Within G.valid G.left g.now p.old }
    requires newest { (state p.old).marker ≡ Some m.pos.value }
    requires here { next (state p.old) ≡ FN_KW }
    ensures script { OnOk result (Executes (G.left g.now) script.fn_ p.old p.new) }
{
    p.bump(T![fn])?;
    fn_name(p)?;
    opt_generic_param_list(p, g)?;
    signature(p, g)?;
    fn_body(p, g)?;
    m.complete(p, SyntaxKind::FN)?;
    Ok(())
}

/// The parameters of a function, its return type and its `where`, as `(a: b) -> c where d: E`.
#[tactic(auto, using(rap_grammar_frame::proofs::Done::less_left, rap_grammar_facts::proofs::Alone::alone_less_left), unfolding(rap_grammar_scripts::specs::Functions::signature))]
fn signature<G: Grammar>(p: &mut Parser<'_>, g: &G) -> Result<(), NoMemory>
    requires behind { Behind G.valid G.left g.now p.old }
    ensures script { OnOk result (Executes (G.left g.now) script.signature p.old p.new) }
{
    fn_params(p, g)?;
    fn_ret_type(p, g)?;
    unbalanced_brackets(p)?;
    opt_where_clause(p, g)?;
    Ok(())
}

/// The parameters of a function, or the message that they are missing.
#[tactic(auto, unfolding(rap_grammar_scripts::specs::Functions::fn_params))]
fn fn_params<G: Grammar>(p: &mut Parser<'_>, g: &G) -> Result<(), NoMemory>
    requires within { Within G.valid G.left g.now p.old }
    ensures script { OnOk result (Executes (G.left g.now) script.fn_params p.old p.new) }
{
    if p.at(T!['(']) {
        param_list_fn_def(p, g)?;
        return Ok(());
    }
    p.error("expected function arguments")?;
    Ok(())
}

/// The return type of a function, as `-> a`, and also without the arrow.
#[tactic(auto, unfolding(rap_grammar_scripts::specs::Functions::fn_ret_type))]
fn fn_ret_type<G: Grammar>(p: &mut Parser<'_>, g: &G) -> Result<(), NoMemory>
    requires behind { Behind G.valid G.left g.now p.old }
    ensures script { OnOk result (Executes (G.left g.now) script.fn_ret_type p.old p.new) }
{
    if opt_ret_type(p, g)? {
        return Ok(());
    }
    opt_no_arrow_ret_type(p, g)?;
    Ok(())
}

/// Whether a kind is a bracket that closes, but no brace.
fn is_unbalanced(kind: SyntaxKind) -> bool
    ensures here { result ≡ script.is_unbalanced kind }
    ensures more { result ≡ true → kind ≢ EOF }
{
    matches!(kind, T![')'] | T![']'] | T![>])
}

/// Brackets that close nothing, each in an `ERROR`.
fn unbalanced_brackets(p: &mut Parser<'_>) -> Result<(), NoMemory>
    ensures script { OnOk result (ExecutesAlone script.unbalanced_brackets p.old p.new) }
{
    'brackets: while is_unbalanced(p.current()) {
        p.err_and_bump("expected a curly brace")?;
    }
    Ok(())
}

/// The block of a function, or the semicolon in its place.
#[tactic(auto, unfolding(rap_grammar_scripts::specs::Functions::fn_body))]
fn fn_body<G: Grammar>(p: &mut Parser<'_>, g: &G) -> Result<(), NoMemory>
    requires within { Within G.valid G.left g.now p.old }
    ensures script { OnOk result (Executes (G.left g.now) script.fn_body p.old p.new) }
{
    if p.eat(T![;])? {
        return Ok(());
    }
    block_expr(p, g)?;
    Ok(())
}
