//! Constants and statics.
ghost use Rattle.std.specs.Prelude.{ℕ, ◌≡◌, ◌≢◌, ◌<◌, ◌≤◌, OnOk, Some, true, ◌⊎◌};
ghost use Rattle.rap_base.specs.TokenKind.{STATIC_KW};
ghost use Rattle.rap_events.specs.State.{state, next};
ghost use Rattle.rap_grammar_scripts.specs.Consts as script;
ghost use Rattle.rap_grammar_scripts.specs.Consts.{starts_const};
ghost use Rattle.rap_grammar_frame.specs.Grew.{Within, Behind};
ghost use Rattle.rap_grammar_scripts.specs.Exec.{Executes};
ghost use Rattle.rap_grammar_facts.specs.Alone.{ExecutesAlone};
ghost use Rattle.rap_grammar_scripts.specs.Test.{holds};

use rap_base::T;
use rap_base::no_memory::NoMemory;
use rap_base::syntax_kind::SyntaxKind;
use rap_events::parser::{Marker, Parser};
use rap_grammar_frame::knot::Grammar;
use rap_grammar_frame::names::name;
use rap_grammar_frame::through_knot::{ascription, expr, opt_generic_param_list, opt_where_clause};

/// A constant from its `const` or `type const` on, as `const A: b = c;`.
#[tactic(auto, using(rap_grammar_frame::proofs::Done::marker_kept, rap_grammar_facts::proofs::Consts::level_const_or_static), unfolding(rap_grammar_scripts::specs::Consts::konst))]
pub fn konst<G: Grammar>(p: &mut Parser<'_>, g: &G, m: Marker) -> Result<(), NoMemory>
    requires within { Within G.valid G.left g.now p.old }
    requires newest { (state p.old).marker ≡ Some m.pos.value }
    requires here { holds starts_const (state p.old).rest ≡ true }
    ensures script { OnOk result (Executes (G.left g.now) script.konst p.old p.new) }
{
    p.eat(T![type])?;
    p.bump(T![const])?;
    const_or_static(p, g, true)?;
    m.complete(p, SyntaxKind::CONST)?;
    Ok(())
}

/// A static from its keyword on, as `static A: b = c;`.
#[tactic(auto, using(rap_grammar_frame::proofs::Done::marker_kept, rap_grammar_facts::proofs::Consts::level_const_or_static), unfolding(rap_grammar_scripts::specs::Consts::static_))]
pub fn static_<G: Grammar>(p: &mut Parser<'_>, g: &G, m: Marker) -> Result<(), NoMemory>
    requires within { Within G.valid G.left g.now p.old }
    requires newest { (state p.old).marker ≡ Some m.pos.value }
    requires here { next (state p.old) ≡ STATIC_KW }
    ensures script { OnOk result (Executes (G.left g.now) script.static_ p.old p.new) }
{
    p.bump(T![static])?;
    const_or_static(p, g, false)?;
    m.complete(p, SyntaxKind::STATIC)?;
    Ok(())
}

/// A constant or a static, after its keyword.
#[tactic(auto, using(rap_grammar_frame::proofs::Done::less_left, rap_grammar_facts::proofs::Alone::alone_less_left), unfolding(rap_grammar_scripts::specs::Consts::const_or_static))]
fn const_or_static<G: Grammar>(p: &mut Parser<'_>, g: &G, is_const: bool) -> Result<(), NoMemory>
    requires behind { Behind G.valid G.left g.now p.old }
    ensures script { OnOk result (Executes (G.left g.now) (script.const_or_static is_const) p.old p.new) }
{
    p.eat(T![mut])?;
    const_name(p, is_const)?;
    const_params(p, g, is_const)?;
    const_type(p, g, is_const)?;
    const_value(p, g)?;
    const_where(p, g, is_const)?;
    p.expect(T![;])?;
    Ok(())
}

/// The name. A constant may have none, as `const _: a = b;`.
#[tactic(auto, unfolding(rap_grammar_scripts::specs::Consts::const_name))]
fn const_name(p: &mut Parser<'_>, is_const: bool) -> Result<(), NoMemory>
    ensures script { OnOk result (ExecutesAlone (script.const_name is_const) p.old p.new) }
{
    if !is_const {
        name(p)?;
        return Ok(());
    }
    if p.eat(T![_])? {
        return Ok(());
    }
    name(p)?;
    Ok(())
}

/// Generic parameters, which are reported at a static.
#[tactic(auto, using(rap_grammar_frame::proofs::Steps::by_report), unfolding(rap_grammar_scripts::specs::Consts::const_params))]
fn const_params<G: Grammar>(p: &mut Parser<'_>, g: &G, is_const: bool) -> Result<(), NoMemory>
    requires behind { Behind G.valid G.left g.now p.old }
    ensures script { OnOk result (Executes (G.left g.now) (script.const_params is_const) p.old p.new) }
{
    if is_const {
        opt_generic_param_list(p, g)?;
        return Ok(());
    }
    if p.at(T![<]) {
        p.error("`static` may not have generic parameters")?;
        opt_generic_param_list(p, g)?;
        return Ok(());
    }
    opt_generic_param_list(p, g)?;
    Ok(())
}

/// The type, as `: a`. Where it is missing, that is reported.
#[tactic(auto, unfolding(rap_grammar_scripts::specs::Consts::const_type, rap_grammar_scripts::specs::Consts::missing_const_type))]
fn const_type<G: Grammar>(p: &mut Parser<'_>, g: &G, is_const: bool) -> Result<(), NoMemory>
    requires within { Within G.valid G.left g.now p.old }
    ensures script { OnOk result (Executes (G.left g.now) (script.const_type is_const) p.old p.new) }
{
    if p.at(T![:]) {
        ascription(p, g)?;
        return Ok(());
    }
    if is_const {
        p.error("missing type for `const`")?;
        return Ok(());
    }
    p.error("missing type for `static`")?;
    Ok(())
}

/// The value, as `= 1`, if it is given.
#[tactic(auto, unfolding(rap_grammar_scripts::specs::Consts::const_value))]
fn const_value<G: Grammar>(p: &mut Parser<'_>, g: &G) -> Result<(), NoMemory>
    requires within { Within G.valid G.left g.now p.old }
    ensures script { OnOk result (Executes (G.left g.now) script.const_value p.old p.new) }
{
    if p.eat(T![=])? {
        expr(p, g)?;
    }
    Ok(())
}

/// The `where` of a constant, if it has one. A static has none.
#[tactic(auto, unfolding(rap_grammar_scripts::specs::Consts::const_where))]
fn const_where<G: Grammar>(p: &mut Parser<'_>, g: &G, is_const: bool) -> Result<(), NoMemory>
    requires behind { Behind G.valid G.left g.now p.old }
    ensures script { OnOk result (Executes (G.left g.now) (script.const_where is_const) p.old p.new) }
{
    if is_const {
        opt_where_clause(p, g)?;
    }
    Ok(())
}
