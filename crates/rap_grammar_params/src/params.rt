//! Parameters of functions and closures.
ghost use Rattle.std.specs.Prelude.{ℕ, ◌≡◌, ◌<◌, ◌≤◌, ◌+◌, OnOk, IfOk, true, false, Some, drop, if◌then◌else◌};
ghost use Rattle.rap_events.specs.Composite.{is_at};
ghost use Rattle.rap_base.specs.TokenKind.{L_PAREN, PIPE, EOF, SELF_KW};
ghost use Rattle.rap_events.specs.State.{state, next, At};
ghost use Rattle.rap_grammar_scripts.specs.First.{is_param_first};
ghost use Rattle.rap_grammar_frame.specs.Grew.{Within, Behind};
ghost use Rattle.rap_grammar_scripts.specs.Exec.{Does, Executes};
ghost use Rattle.rap_grammar_facts.specs.Alone.{DoesAlone, ExecutesAlone};
ghost use Rattle.rap_grammar_scripts.specs.Params as script;
ghost use Rattle.rap_grammar_scripts.specs.Test.{holds};
ghost use Rattle.rap_grammar_scripts.specs.Words.{of_bool};

use rap_base::T;
use rap_base::no_memory::NoMemory;
use rap_base::syntax_kind::SyntaxKind;
use rap_events::parser::{Marker, Parser};
use rap_grammar_attributes::attributes::outer_attrs;
use rap_grammar_frame::first::{is_outer_attr_first, is_pattern_first, is_type_first};
use rap_grammar_frame::knot::Grammar;
use rap_grammar_frame::names::lifetime;
use rap_grammar_frame::through_knot::{ascription, pattern, pattern_single, type_};
use rap_grammar_scripts::arguments::Flavor;

/// The parameters of a function, as `(&self, a: b)`.
#[tactic(auto, unfolding(rap_grammar_scripts::specs::Params::param_list_fn_def))]
pub fn param_list_fn_def<G: Grammar>(p: &mut Parser<'_>, g: &G) -> Result<(), NoMemory>
    requires within { Within G.valid G.left g.now p.old }
    requires here { next (state p.old) ≡ L_PAREN }
    ensures script { OnOk result (Executes (G.left g.now) script.param_list_fn_def p.old p.new) }
{
    list_(p, g, Flavor::FnDef)?;
    Ok(())
}

/// The parameters of a function pointer, as `(a, _: b)`.
#[tactic(auto, unfolding(rap_grammar_scripts::specs::Params::param_list_fn_ptr))]
pub fn param_list_fn_ptr<G: Grammar>(p: &mut Parser<'_>, g: &G) -> Result<(), NoMemory>
    requires within { Within G.valid G.left g.now p.old }
    requires here { next (state p.old) ≡ L_PAREN }
    ensures script { OnOk result (Executes (G.left g.now) script.param_list_fn_ptr p.old p.new) }
{
    list_(p, g, Flavor::FnPointer)?;
    Ok(())
}

/// The parameters of a closure, as `|a, b: c|`.
#[tactic(auto, unfolding(rap_grammar_scripts::specs::Params::param_list_closure))]
pub fn param_list_closure<G: Grammar>(p: &mut Parser<'_>, g: &G) -> Result<(), NoMemory>
    requires within { Within G.valid G.left g.now p.old }
    requires here { next (state p.old) ≡ PIPE }
    ensures script { OnOk result (Executes (G.left g.now) script.param_list_closure p.old p.new) }
{
    list_(p, g, Flavor::Closure)?;
    Ok(())
}

/// The parameters in their brackets.
#[tactic(auto, using(rap_grammar_frame::proofs::Binary::width_positive, rap_grammar_facts::proofs::Params::marker_params_of), unfolding(rap_grammar_scripts::specs::Params::list_))]
fn list_<G: Grammar>(p: &mut Parser<'_>, g: &G, flavor: Flavor) -> Result<(), NoMemory>
    requires within { Within G.valid G.left g.now p.old }
    requires here { At (state p.old) (script.bra flavor) }
    ensures script { OnOk result (Executes (G.left g.now) (script.list_ flavor) p.old p.new) }
{
    let m = p.start()?;
    p.bump(flavor.bra())?;
    params_of(p, g, flavor)?;
    p.expect(flavor.ket())?;
    m.complete(p, SyntaxKind::PARAM_LIST)?;
    Ok(())
}

/// What stands in the brackets.
fn params_of<G: Grammar>(p: &mut Parser<'_>, g: &G, flavor: Flavor) -> Result<(), NoMemory>
    requires behind { Behind G.valid G.left g.now p.old }
    ensures script { OnOk result (Executes (G.left g.now) (script.params_of flavor) p.old p.new) }
{
    if flavor == Flavor::FnDef {
        fn_def_params(p, g)?;
        return Ok(());
    }
    params(p, g, flavor)?;
    Ok(())
}

/// The parameters of a function, the first of which may be a `self`.
#[tactic(auto, using(rap_grammar_frame::proofs::Done::less_left), unfolding(rap_grammar_scripts::specs::Params::fn_def_params))]
fn fn_def_params<G: Grammar>(p: &mut Parser<'_>, g: &G) -> Result<(), NoMemory>
    requires behind { Behind G.valid G.left g.now p.old }
    ensures script { OnOk result (Executes (G.left g.now) script.fn_def_params p.old p.new) }
{
    if !first_param(p, g)? {
        return Ok(());
    }
    params(p, g, Flavor::FnDef)?;
    Ok(())
}

/// The first parameter of a function, as `self` or `a: b`. Returns whether another one may follow.
#[tactic(auto, using(rap_grammar_frame::proofs::Done::less_left, rap_grammar_frame::proofs::Done::marker_kept, rap_grammar_facts::proofs::Params::level_opt_self_param), unfolding(rap_grammar_scripts::specs::Params::first_param))]
fn first_param<G: Grammar>(p: &mut Parser<'_>, g: &G) -> Result<bool, NoMemory>
    requires behind { Behind G.valid G.left g.now p.old }
    ensures script { IfOk result
        (λ on. Does (G.left g.now) script.first_param (of_bool on) (state p.old) (state p.new)) }
{
    let m = p.start()?;
    outer_attrs(p, g)?;
    if opt_self_param(p, g)? {
        m.complete(p, SyntaxKind::SELF_PARAM)?;
        after_self(p)?;
        return Ok(true);
    }
    if p.at(SyntaxKind::EOF) || p.at(T![')']) {
        m.abandon(p)?;
        return Ok(false);
    }
    let on = marked_param(p, g, m, Flavor::FnDef)?;
    Ok(on)
}

/// The comma after a `self`.
#[tactic(auto, unfolding(rap_grammar_scripts::specs::Params::after_self))]
fn after_self(p: &mut Parser<'_>) -> Result<(), NoMemory>
    ensures script { OnOk result (ExecutesAlone script.after_self p.old p.new) }
{
    if !p.at(T![')']) {
        p.expect(T![,])?;
    }
    Ok(())
}

/// Parameters with commas between them, up to where the list can't go on.
#[tactic(auto, using(rap_grammar_frame::proofs::Loops::turns, rap_grammar_frame::proofs::Done::less_left, rap_grammar_facts::proofs::Params::on_attributed_param), unfolding(rap_grammar_scripts::specs::Params::params))]
fn params<G: Grammar>(p: &mut Parser<'_>, g: &G, flavor: Flavor) -> Result<(), NoMemory>
    requires behind { Behind G.valid G.left g.now p.old }
    ensures script { OnOk result (Executes (G.left g.now) (script.params flavor) p.old p.new) }
{
    'params: while !p.at(SyntaxKind::EOF) && !p.at(flavor.ket()) {
        if !attributed_param(p, g, flavor)? {
            return Ok(());
        }
    }
    Ok(())
}

/// A parameter with its attributes, as `#[a] b: c`. Returns whether another one may follow.
#[tactic(auto, unfolding(rap_grammar_scripts::specs::Params::attributed_param))]
fn attributed_param<G: Grammar>(p: &mut Parser<'_>, g: &G, flavor: Flavor) -> Result<bool, NoMemory>
    requires behind { Behind G.valid G.left g.now p.old }
    ensures script { IfOk result
        (λ on. Does (G.left g.now) (script.attributed_param flavor) (of_bool on) (state p.old) (state p.new)) }
{
    let m = p.start()?;
    outer_attrs(p, g)?;
    let on = marked_param(p, g, m, flavor)?;
    Ok(on)
}

/// A parameter from its marker on, and the comma after it. Returns whether another one may follow.
#[tactic(auto, using(rap_grammar_facts::proofs::Params::marker_param), unfolding(rap_grammar_scripts::specs::Params::marked_param))]
fn marked_param<G: Grammar>(
    p: &mut Parser<'_>,
    g: &G,
    m: Marker,
    flavor: Flavor,
) -> Result<bool, NoMemory>
    requires behind { Behind G.valid G.left g.now p.old }
    requires newest { (state p.old).marker ≡ Some m.pos.value }
    ensures script { IfOk result
        (λ on. Does (G.left g.now) (script.marked_param flavor) (of_bool on) (state p.old) (state p.new)) }
{
    if !is_param_first(p.current()) {
        p.error("expected value parameter")?;
        m.abandon(p)?;
        let on = p.eat(T![,])?;
        return Ok(on);
    }
    param(p, g, flavor)?;
    m.complete(p, SyntaxKind::PARAM)?;
    let on = after_param(p)?;
    Ok(on)
}

/// Whether a parameter, or an attribute before it, may begin with a token of this kind.
fn is_param_first(kind: SyntaxKind) -> bool
    ensures { result ≡ is_param_first kind }
{
    is_pattern_first(kind) || is_type_first(kind) || is_outer_attr_first(kind)
}

/// The comma after a parameter. Returns whether another one may follow. Where one begins, a missing comma is reported.
#[tactic(auto, unfolding(rap_grammar_scripts::specs::Params::after_param))]
fn after_param(p: &mut Parser<'_>) -> Result<bool, NoMemory>
    ensures script { IfOk result
        (λ on. DoesAlone script.after_param (of_bool on) (state p.old) (state p.new)) }
{
    if p.eat(T![,])? {
        return Ok(true);
    }
    if !is_param_first(p.current()) {
        return Ok(false);
    }
    p.error("expected `,`")?;
    Ok(true)
}

/// What a parameter is made of.
fn param<G: Grammar>(p: &mut Parser<'_>, g: &G, flavor: Flavor) -> Result<(), NoMemory>
    requires behind { Behind G.valid G.left g.now p.old }
    requires first { is_param_first (next (state p.old)) ≡ true }
    ensures script { OnOk result (Executes (G.left g.now) (script.param flavor) p.old p.new) }
{
    match flavor {
        Flavor::FnDef => {
            fn_def_param(p, g)?;
            Ok(())
        }
        Flavor::FnPointer => {
            fn_ptr_param(p, g)?;
            Ok(())
        }
        Flavor::Closure => {
            closure_param(p, g)?;
            Ok(())
        }
    }
}

/// A parameter of a function, as `a: b`, `a: ...` and `...`.
#[tactic(auto, unfolding(rap_grammar_scripts::specs::Params::fn_def_param))]
fn fn_def_param<G: Grammar>(p: &mut Parser<'_>, g: &G) -> Result<(), NoMemory>
    requires behind { Behind G.valid G.left g.now p.old }
    requires first { is_param_first (next (state p.old)) ≡ true }
    ensures script { OnOk result (Executes (G.left g.now) script.fn_def_param p.old p.new) }
{
    if p.eat(T![...])? {
        return Ok(());
    }
    pattern(p, g)?;
    param_type(p, g)?;
    Ok(())
}

/// A parameter of a function pointer, as `a`, `_: a` and `...`.
#[tactic(auto, unfolding(rap_grammar_scripts::specs::Params::fn_ptr_param))]
fn fn_ptr_param<G: Grammar>(p: &mut Parser<'_>, g: &G) -> Result<(), NoMemory>
    requires behind { Behind G.valid G.left g.now p.old }
    requires first { is_param_first (next (state p.old)) ≡ true }
    ensures script { OnOk result (Executes (G.left g.now) script.fn_ptr_param p.old p.new) }
{
    if p.eat(T![...])? {
        return Ok(());
    }
    if is_named_param(p) {
        pattern_single(p, g)?;
        param_type(p, g)?;
        return Ok(());
    }
    type_(p, g)?;
    Ok(())
}

/// Whether a name and a colon come next, and no path.
fn is_named_param(p: &Parser<'_>) -> bool
    ensures { result ≡ holds script.is_named_param (state p.now).rest }
{
    (p.at(T![ident]) || p.at(T![_])) && p.nth(1) == T![:] && !p.nth_at(1, T![::])
}

/// A parameter of a closure, as `a` and `a: b`.
#[tactic(auto, unfolding(rap_grammar_scripts::specs::Params::closure_param))]
fn closure_param<G: Grammar>(p: &mut Parser<'_>, g: &G) -> Result<(), NoMemory>
    requires behind { Behind G.valid G.left g.now p.old }
    requires first { is_param_first (next (state p.old)) ≡ true }
    ensures script { OnOk result (Executes (G.left g.now) script.closure_param p.old p.new) }
{
    pattern_single(p, g)?;
    if p.at(T![:]) && !p.at(T![::]) {
        ascription(p, g)?;
    }
    Ok(())
}

/// What stands after a parameter's pattern: `: a` or `: ...`.
#[tactic(auto, using(rap_grammar_facts::proofs::Alone::alone_less_left), unfolding(rap_grammar_scripts::specs::Params::param_type))]
fn param_type<G: Grammar>(p: &mut Parser<'_>, g: &G) -> Result<(), NoMemory>
    requires behind { Behind G.valid G.left g.now p.old }
    ensures script { OnOk result (Executes (G.left g.now) script.param_type p.old p.new) }
{
    if variadic_param(p)? {
        return Ok(());
    }
    if p.at(T![:]) {
        ascription(p, g)?;
        return Ok(());
    }
    p.error("missing type for function parameter")?;
    Ok(())
}

/// `: ...`, if it comes next. Returns whether it did.
#[tactic(auto, unfolding(rap_grammar_scripts::specs::Params::variadic_param))]
fn variadic_param(p: &mut Parser<'_>) -> Result<bool, NoMemory>
    ensures script { IfOk result
        (λ found. DoesAlone script.variadic_param (of_bool found) (state p.old) (state p.new)) }
{
    if p.at(T![:]) && p.nth_at(1, T![...]) {
        p.bump(T![:])?;
        p.bump(T![...])?;
        return Ok(true);
    }
    Ok(false)
}

/// A parameter that is a `self`, as `mut self: a` and `&'a mut self`, if one comes next. Returns whether it did.
#[tactic(auto, unfolding(rap_grammar_scripts::specs::Params::opt_self_param))]
fn opt_self_param<G: Grammar>(p: &mut Parser<'_>, g: &G) -> Result<bool, NoMemory>
    requires behind { Behind G.valid G.left g.now p.old }
    ensures script { IfOk result
        (λ found. Does (G.left g.now) script.opt_self_param (of_bool found) (state p.old) (state p.new)) }
{
    if is_self_value(p) {
        self_value(p, g)?;
        return Ok(true);
    }
    if is_self_ref(p) {
        self_ref(p)?;
        return Ok(true);
    }
    Ok(false)
}

/// Whether after `n` tokens comes a `self` with which no path begins.
fn is_isolated_self(p: &Parser<'_>, n: usize) -> bool
    requires { n < 4 }
    ensures { result ≡ holds (script.is_isolated_self n) (state p.now).rest }
{
    p.nth_at(n, T![self]) && !p.nth_at(n + 1, T![::])
}

/// Whether `self` or `mut self` comes next.
fn is_self_value(p: &Parser<'_>) -> bool
    ensures { result ≡ holds script.is_self_value (state p.now).rest }
{
    is_isolated_self(p, past(p, T![mut], 0))
}

/// Whether `&self` comes next, with a lifetime and a `mut` or without them.
fn is_self_ref(p: &Parser<'_>) -> bool
    ensures { result ≡ holds script.is_self_ref (state p.now).rest }
{
    p.at(T![&]) && is_isolated_self(p, past(p, T![mut], past(p, T![lifetime_ident], 1)))
}

/// How far a token of this kind after `n` tokens reaches, if it is there.
fn past(p: &Parser<'_>, kind: SyntaxKind, n: usize) -> usize
    requires { n < 4 }
    ensures few { result ≤ n + 1 }
    ensures past { result ≡ if is_at kind (drop n (state p.now).rest) then n + 1 else n }
{
    if p.nth_at(n, kind) { n + 1 } else { n }
}

/// `self` or `mut self`, and its type.
#[tactic(auto, using(rap_grammar_facts::proofs::Alone::alone_less_left), unfolding(rap_grammar_scripts::specs::Params::self_value))]
fn self_value<G: Grammar>(p: &mut Parser<'_>, g: &G) -> Result<(), NoMemory>
    requires within { Within G.valid G.left g.now p.old }
    requires here { holds script.is_self_value (state p.old).rest ≡ true }
    ensures script { OnOk result (Executes (G.left g.now) script.self_value p.old p.new) }
{
    p.eat(T![mut])?;
    self_as_name(p)?;
    if p.at(T![:]) {
        ascription(p, g)?;
    }
    Ok(())
}

/// `&self`, with a lifetime and a `mut` or without them.
#[tactic(auto, unfolding(rap_grammar_scripts::specs::Params::self_ref, rap_grammar_scripts::specs::Params::self_mut))]
fn self_ref(p: &mut Parser<'_>) -> Result<(), NoMemory>
    requires here { holds script.is_self_ref (state p.old).rest ≡ true }
    ensures script { OnOk result (ExecutesAlone script.self_ref p.old p.new) }
{
    p.bump(T![&])?;
    if p.at(T![lifetime_ident]) {
        lifetime(p)?;
        p.eat(T![mut])?;
        self_as_name(p)?;
        return Ok(());
    }
    p.eat(T![mut])?;
    self_as_name(p)?;
    Ok(())
}

/// The `self` of a parameter.
#[tactic(auto, unfolding(rap_grammar_scripts::specs::Params::self_as_name))]
fn self_as_name(p: &mut Parser<'_>) -> Result<(), NoMemory>
    requires { next (state p.old) ≡ SELF_KW }
    ensures script { OnOk result (ExecutesAlone script.self_as_name p.old p.new) }
{
    let m = p.start()?;
    p.bump(T![self])?;
    m.complete(p, SyntaxKind::NAME)?;
    Ok(())
}
