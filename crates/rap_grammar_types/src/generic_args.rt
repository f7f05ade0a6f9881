//! Generic arguments.
ghost use Rattle.std.specs.Prelude.{◌≡◌, ◌<◌, OnOk, true, Some};
ghost use Rattle.rap_base.specs.TokenKind.{LIFETIME_IDENT, COLON, BANG};
ghost use Rattle.rap_events.specs.State.{state, next, IsLast};
ghost use Rattle.rap_grammar_scripts.specs.First.{is_const_arg_first, is_generic_arg_first, is_type_first, is_path_name};
ghost use Rattle.rap_grammar_scripts.specs.GenericArgs as script;
ghost use Rattle.rap_grammar_frame.specs.Grew.{Within, Behind};
ghost use Rattle.rap_grammar_scripts.specs.Exec.{Executes};
ghost use Rattle.rap_grammar_facts.specs.Alone.{ExecutesAlone};
ghost use Rattle.rap_grammar_scripts.specs.Recovery.{is_generic_arg_recovery};
ghost use Rattle.rap_grammar_scripts.specs.Test.{holds};

use crate::types::{opt_type_bounds_as_dyn_trait_type, starts_weak_dyn, type_with_bounds_cond};
use rap_base::T;
use rap_base::no_memory::NoMemory;
use rap_base::syntax_kind::SyntaxKind;
use rap_events::parser::{CompletedMarker, Marker, Parser};
use rap_grammar_frame::first::{is_const_arg_first, is_type_first};
use rap_grammar_frame::knot::Grammar;
use rap_grammar_frame::names::{is_path_name, lifetime, name_ref_mod_path};
use rap_grammar_frame::through_knot::type_;
use rap_grammar_frame::token_tree::{macro_call_after_excl, starts_macro_call};
use rap_grammar_generics::const_args::const_arg;
use rap_grammar_generics::generic_params::bounds;
use rap_grammar_paths::paths::{opt_path_type_args, type_path_for_qualifier};

/// An argument, as `'a`, `1`, `a`, `a = b` and `a: b`.
#[tactic(auto, unfolding(rap_grammar_scripts::specs::GenericArgs::generic_arg))]
pub fn generic_arg<G: Grammar>(p: &mut Parser<'_>, g: &G) -> Result<(), NoMemory>
    requires within { Within G.valid G.left g.now p.old }
    requires first { is_generic_arg_first (next (state p.old)) ≡ true }
    ensures script { OnOk result (Executes (G.left g.now) script.generic_arg p.old p.new) }
{
    if starts_lifetime_arg(p) {
        lifetime_arg(p)?;
        return Ok(());
    }
    if is_const_arg_first(p.current()) {
        const_arg(p, g)?;
        return Ok(());
    }
    if starts_named_arg(p) {
        named_arg(p, g)?;
        return Ok(());
    }
    type_arg(p, g)?;
    Ok(())
}

/// Whether a lifetime comes next that is no bound of a type, as in `'a + b`.
fn starts_lifetime_arg(p: &Parser<'_>) -> bool
    ensures starts { result ≡ holds script.starts_lifetime_arg (state p.now).rest }
    ensures here { result ≡ true → next (state p.now) ≡ LIFETIME_IDENT }
{
    p.current() == T![lifetime_ident] && !p.nth_at(1, T![+])
}

/// A lifetime as an argument, as `'a`.
#[tactic(auto, unfolding(rap_grammar_scripts::specs::GenericArgs::lifetime_arg))]
fn lifetime_arg(p: &mut Parser<'_>) -> Result<(), NoMemory>
    requires here { next (state p.old) ≡ LIFETIME_IDENT }
    ensures script { OnOk result (ExecutesAlone script.lifetime_arg p.old p.new) }
{
    let m = p.start()?;
    lifetime(p)?;
    m.complete(p, SyntaxKind::LIFETIME_ARG)?;
    Ok(())
}

/// A type as an argument, as `&a`.
#[tactic(auto, using(rap_grammar_facts::proofs::Types::marker_type_with_bounds_cond), unfolding(rap_grammar_scripts::specs::GenericArgs::type_arg))]
fn type_arg<G: Grammar>(p: &mut Parser<'_>, g: &G) -> Result<(), NoMemory>
    requires within { Within G.valid G.left g.now p.old }
    requires first { is_type_first (next (state p.old)) ≡ true }
    ensures script { OnOk result (Executes (G.left g.now) script.type_arg p.old p.new) }
{
    let m = p.start()?;
    type_with_bounds_cond(p, g, true)?;
    m.complete(p, SyntaxKind::TYPE_ARG)?;
    Ok(())
}

/// Whether a name comes next that is no `dyn` of a type.
fn starts_named_arg(p: &Parser<'_>) -> bool
    ensures starts { result ≡ holds script.starts_named_arg (state p.now).rest }
    ensures here { result ≡ true → is_path_name (next (state p.now)) ≡ true }
{
    is_path_name(p.current()) && !starts_weak_dyn(p)
}

/// Whether bounds come next, from their colon on.
fn starts_bounds(p: &Parser<'_>) -> bool
    ensures starts { result ≡ holds script.starts_bounds (state p.now).rest }
    ensures here { result ≡ true → next (state p.now) ≡ COLON }
{
    p.current() == T![:] && !p.at(T![::])
}

/// An argument that begins with a name, as `a::b<c>`, `a = b` and `a<b>: c`.
#[tactic(auto, using(rap_grammar_frame::proofs::Done::marker_kept, rap_grammar_facts::proofs::GenericArgs::level_assoc_value), unfolding(rap_grammar_scripts::specs::GenericArgs::named_arg))]
fn named_arg<G: Grammar>(p: &mut Parser<'_>, g: &G) -> Result<(), NoMemory>
    requires within { Within G.valid G.left g.now p.old }
    requires name { is_path_name (next (state p.old)) ≡ true }
    ensures script { OnOk result (Executes (G.left g.now) script.named_arg p.old p.new) }
{
    let m = p.start()?;
    name_ref_mod_path(p)?;
    opt_path_type_args(p, g)?;
    if p.current() == T![=] {
        p.bump_any()?;
        assoc_value(p, g)?;
        m.complete(p, SyntaxKind::ASSOC_TYPE_ARG)?;
        return Ok(());
    }
    if starts_bounds(p) {
        bounds(p, g)?;
        m.complete(p, SyntaxKind::ASSOC_TYPE_ARG)?;
        return Ok(());
    }
    let segment = m.complete(p, SyntaxKind::PATH_SEGMENT)?;
    path_arg(p, g, segment)?;
    Ok(())
}

/// What a name is bound to after the `=`, as the `b` of `a = b`.
#[tactic(auto, unfolding(rap_grammar_scripts::specs::GenericArgs::assoc_value))]
fn assoc_value<G: Grammar>(p: &mut Parser<'_>, g: &G) -> Result<(), NoMemory>
    requires behind { Behind G.valid G.left g.now p.old }
    ensures script { OnOk result (Executes (G.left g.now) script.assoc_value p.old p.new) }
{
    if is_type_first(p.current()) {
        type_(p, g)?;
        return Ok(());
    }
    if is_generic_arg_recovery(p.current()) {
        p.error("missing associated item binding")?;
        return Ok(());
    }
    const_arg(p, g)?;
    Ok(())
}

/// The recovery set of arguments.
fn is_generic_arg_recovery(kind: SyntaxKind) -> bool
    ensures { result ≡ is_generic_arg_recovery kind }
{
    matches!(kind, T![>] | T![,])
}

/// A path from its first segment on, as a type, as `a::b`, or a macro call, as `a!()`.
#[tactic(auto, using(rap_grammar_facts::proofs::GenericArgs::facts), unfolding(rap_grammar_scripts::specs::GenericArgs::path_arg))]
fn path_arg<G: Grammar>(p: &mut Parser<'_>, g: &G, segment: CompletedMarker) -> Result<(), NoMemory>
    requires behind { Behind G.valid G.left g.now p.old }
    requires last { IsLast (state p.old) segment segment.kind.value }
    ensures script { OnOk result (Executes (G.left g.now) script.path_arg p.old p.new) }
{
    let m = segment.precede(p)?;
    let qual = m.complete(p, SyntaxKind::PATH)?;
    let path = type_path_for_qualifier(p, g, qual)?;
    let m = path.precede(p)?;
    if starts_macro_call(p) {
        macro_arg(p, g, m)?;
        return Ok(());
    }
    let ty = m.complete(p, SyntaxKind::PATH_TYPE)?;
    bounded_arg(p, g, ty, SyntaxKind::PATH_TYPE)?;
    Ok(())
}

/// A macro call after its path, as the `!()` of `a!()`. The marker before the path is open.
#[tactic(auto, unfolding(rap_grammar_scripts::specs::GenericArgs::macro_arg, rap_events::specs::Machine::top))]
fn macro_arg<G: Grammar>(p: &mut Parser<'_>, g: &G, m: Marker) -> Result<(), NoMemory>
    requires behind { Behind G.valid G.left g.now p.old }
    requires newest { (state p.old).marker ≡ Some m.pos.value }
    requires here { next (state p.old) ≡ BANG }
    ensures script { OnOk result (Executes (G.left g.now) script.macro_arg p.old p.new) }
{
    macro_call_after_excl(p)?;
    let call = m.complete(p, SyntaxKind::MACRO_CALL)?;
    let m = call.precede(p)?;
    let ty = m.complete(p, SyntaxKind::MACRO_TYPE)?;
    bounded_arg(p, g, ty, SyntaxKind::MACRO_TYPE)?;
    Ok(())
}

/// The bounds after a type of this kind, as `+ b` after `a`, if there are; and what comes of it is an argument.
#[tactic(auto, unfolding(rap_grammar_scripts::specs::GenericArgs::bounded_arg))]
fn bounded_arg<G: Grammar>(
    p: &mut Parser<'_>,
    g: &G,
    ty: CompletedMarker,
    kind: SyntaxKind,
) -> Result<(), NoMemory>
    requires behind { Behind G.valid G.left g.now p.old }
    requires last { IsLast (state p.old) ty kind }
    ensures script { OnOk result (Executes (G.left g.now) (script.bounded_arg kind) p.old p.new) }
{
    let ty = opt_type_bounds_as_dyn_trait_type(p, g, ty, kind)?;
    let m = ty.precede(p)?;
    m.complete(p, SyntaxKind::TYPE_ARG)?;
    Ok(())
}
