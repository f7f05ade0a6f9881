//! Types.
ghost use Rattle.std.specs.Prelude.{ℕ, ◌≡◌, ◌≢◌, ◌<◌, OnOk, IsTrue, IfOk, Some, true};
ghost use Rattle.rap_base.specs.TokenKind.{DYN_KW, L_PAREN, BANG, STAR, L_BRACK, SEMICOLON, AMP, UNDERSCORE, FOR_KW, IMPL_KW, LIFETIME_IDENT, BUILTIN_KW, POUND};
ghost use Rattle.rap_base.specs.NodeKind.{PATH_TYPE};
ghost use Rattle.rap_events.specs.State.{state, next, ReadsAs, IsLast, NthAt};
ghost use Rattle.rap_grammar_scripts.specs.First.{starts_weak_dyn, is_weak_dyn_path_first, is_dyn_weak, is_fn_ptr_first, is_path_start};
ghost use Rattle.rap_grammar_frame.specs.Grew.{Within, Behind};
ghost use Rattle.rap_grammar_scripts.specs.Exec.{Does, Executes};
ghost use Rattle.rap_grammar_facts.specs.Alone.{ExecutesAlone};
ghost use Rattle.rap_grammar_scripts.specs.Test.{holds};
ghost use Rattle.rap_grammar_scripts.specs.Types as script;
ghost use Rattle.rap_grammar_scripts.specs.Types.{starts_bare_dyn, starts_for_target};
ghost use Rattle.rap_grammar_scripts.specs.Words.{of_bool};

use rap_base::T;
use rap_base::no_memory::NoMemory;
use rap_base::syntax_kind::SyntaxKind;
use rap_events::parser::{CompletedMarker, Marker, Parser};
use rap_grammar_frame::first::{is_fn_ptr_first, is_path_start, is_use_path_start};
use rap_grammar_frame::knot::Grammar;
use rap_grammar_frame::names::{abi, lifetime, starts_builtin};
use rap_grammar_frame::recovery::type_recovery_set;
use rap_grammar_frame::through_knot::{
    expr, for_binder, opt_ret_type, pattern, type_, type_no_bounds,
};
use rap_grammar_frame::token_tree::{macro_call_after_excl, starts_macro_call};
use rap_grammar_generics::generic_params::{bounds_without_colon, bounds_without_colon_m};
use rap_grammar_generics::path_type::path_type;
use rap_grammar_params::params::param_list_fn_ptr;
use rap_grammar_paths::paths::type_path;

/// A type, as `&a` and `[a; 1]`, with bounds after it, as `a + b`, where they are allowed.
#[tactic(auto, unfolding(rap_grammar_scripts::specs::Types::type_with_bounds_cond))]
pub fn type_with_bounds_cond<G: Grammar>(
    p: &mut Parser<'_>,
    g: &G,
    allow_bounds: bool,
) -> Result<(), NoMemory>
    requires within { Within G.valid G.left g.now p.old }
    ensures script { OnOk result (Executes (G.left g.now) (script.type_with_bounds_cond allow_bounds) p.old p.new) }
{
    match p.current() {
        T!['('] => paren_or_tuple_type(p, g),
        T![!] => never_type(p),
        T![*] => ptr_type(p, g),
        T!['['] => array_or_slice_type(p, g),
        T![&] => ref_type(p, g),
        T![_] => infer_type(p),
        T![fn] | T![unsafe] | T![extern] => fn_ptr_type(p, g),
        T![for] => for_type(p, g, allow_bounds),
        T![impl] => impl_trait_type(p, g),
        T![dyn] => dyn_trait_type(p, g),
        T![<] => path_type_bounds(p, g, allow_bounds),
        _ => named_type(p, g, allow_bounds),
    }
}

/// A type that begins with no symbol and no keyword of its own, as `a::b` and `'a + b`.
#[tactic(auto, unfolding(rap_grammar_scripts::specs::Types::named_type))]
fn named_type<G: Grammar>(p: &mut Parser<'_>, g: &G, allow_bounds: bool) -> Result<(), NoMemory>
    requires within { Within G.valid G.left g.now p.old }
    ensures script { OnOk result (Executes (G.left g.now) (script.named_type allow_bounds) p.old p.new) }
{
    if starts_weak_dyn(p) {
        dyn_trait_type_weak(p, g)?;
        return Ok(());
    }
    if is_path_start(p) {
        path_or_macro_type(p, g, allow_bounds)?;
        return Ok(());
    }
    if starts_bare_dyn(p) {
        bare_dyn_trait_type(p, g)?;
        return Ok(());
    }
    missing_type(p)?;
    Ok(())
}

/// Whether bounds come next that begin with a lifetime, as `'a + b`.
fn starts_bare_dyn(p: &Parser<'_>) -> bool
    ensures { result ≡ holds starts_bare_dyn (state p.now).rest }
{
    p.current() == T![lifetime_ident] && p.nth_at(1, T![+])
}

/// A type is missing: the next token stands in an `ERROR`, unless it is kept.
#[inline(never)]
#[tactic(auto, unfolding(rap_grammar_scripts::specs::Types::missing_type))]
fn missing_type(p: &mut Parser<'_>) -> Result<(), NoMemory>
    ensures script { OnOk result ((depth : ℕ) → Executes depth script.missing_type p.old p.new) }
{
    if p.current() == T!['{'] {
        p.error("expected type, found `{`")?;
        return Ok(());
    }
    p.err_recover("expected type", type_recovery_set())?;
    Ok(())
}

/// What may follow an identifier `dyn` that is read as the keyword.
fn is_weak_dyn_path_first(kind: SyntaxKind) -> bool
    ensures { result ≡ is_weak_dyn_path_first kind }
{
    matches!(
        kind,
        T![ident]
            | T![self]
            | T![super]
            | T![crate]
            | T![Self]
            | T![lifetime_ident]
            | T![?]
            | T![for]
            | T!['(']
    )
}

/// Whether an identifier `dyn` before a bound comes next, as in `dyn a`.
fn is_dyn_weak(p: &Parser<'_>) -> bool
    ensures here { result ≡ holds is_dyn_weak (state p.now).rest }
    ensures bears { IsTrue result → ReadsAs (state p.now) DYN_KW }
{
    p.at_contextual_kw(T![dyn]) && is_weak_dyn_path_first(p.nth(1))
}

/// The same before 2018, when such a `dyn` is the keyword.
pub(crate) fn starts_weak_dyn(p: &Parser<'_>) -> bool
    ensures here { result ≡ holds starts_weak_dyn (state p.now).rest }
    ensures bears { IsTrue result → ReadsAs (state p.now) DYN_KW }
{
    p.current() == T![ident] && !p.current_edition().at_least_2018() && is_dyn_weak(p)
}

/// A type in parentheses, as `(a)`, or a tuple of types, as `()`, `(a,)` and `(a, b)`.
#[inline(never)]
#[tactic(auto, using(rap_grammar_frame::proofs::Done::marker_kept, rap_grammar_facts::proofs::Types::level_tuple_types), unfolding(rap_grammar_scripts::specs::Types::paren_or_tuple_type))]
fn paren_or_tuple_type<G: Grammar>(p: &mut Parser<'_>, g: &G) -> Result<(), NoMemory>
    requires within { Within G.valid G.left g.now p.old }
    requires here { next (state p.old) ≡ L_PAREN }
    ensures script { OnOk result (Executes (G.left g.now) script.paren_or_tuple_type p.old p.new) }
{
    let m = p.start()?;
    p.bump(T!['('])?;
    let is_parens = tuple_types(p, g)?;
    p.expect(T![')'])?;
    let kind = if is_parens {
        SyntaxKind::PAREN_TYPE
    } else {
        SyntaxKind::TUPLE_TYPE
    };
    m.complete(p, kind)?;
    Ok(())
}

/// What stands in parentheses. Returns whether it is one type and no comma.
#[tactic(auto, using(rap_grammar_facts::proofs::Types::facts, rap_grammar_frame::proofs::Loops::turns), unfolding(rap_grammar_scripts::specs::Types::tuple_types))]
fn tuple_types<G: Grammar>(p: &mut Parser<'_>, g: &G) -> Result<bool, NoMemory>
    requires behind { Behind G.valid G.left g.now p.old }
    ensures script { IfOk result
        (λ parens. Does (G.left g.now) script.tuple_types (of_bool parens) (state p.old) (state p.new)) }
{
    let mut seen = false;
    'types: while !p.at(SyntaxKind::EOF) && !p.at(T![')']) {
        type_(p, g)?;
        if !p.eat(T![,])? {
            return Ok(!seen);
        }
        seen = true;
    }
    Ok(false)
}

/// The never type, `!`.
#[inline(never)]
#[tactic(auto, unfolding(rap_grammar_scripts::specs::Types::never_type))]
fn never_type(p: &mut Parser<'_>) -> Result<(), NoMemory>
    requires here { next (state p.old) ≡ BANG }
    ensures script { OnOk result (ExecutesAlone script.never_type p.old p.new) }
{
    let m = p.start()?;
    p.bump(T![!])?;
    m.complete(p, SyntaxKind::NEVER_TYPE)?;
    Ok(())
}

/// A pointer, as `*const a`.
#[tactic(auto, using(rap_grammar_facts::proofs::Types::facts), unfolding(rap_grammar_scripts::specs::Types::ptr_type))]
fn ptr_type<G: Grammar>(p: &mut Parser<'_>, g: &G) -> Result<(), NoMemory>
    requires within { Within G.valid G.left g.now p.old }
    requires here { next (state p.old) ≡ STAR }
    ensures script { OnOk result (Executes (G.left g.now) script.ptr_type p.old p.new) }
{
    let m = p.start()?;
    p.bump(T![*])?;
    ptr_qualifier(p)?;
    type_no_bounds(p, g)?;
    m.complete(p, SyntaxKind::PTR_TYPE)?;
    Ok(())
}

/// What stands after the star of a pointer, as `const` and `mut`.
#[inline(never)]
#[tactic(auto, unfolding(rap_grammar_scripts::specs::Types::ptr_qualifier))]
fn ptr_qualifier(p: &mut Parser<'_>) -> Result<(), NoMemory>
    ensures script { OnOk result (ExecutesAlone script.ptr_qualifier p.old p.new) }
{
    if matches!(p.current(), T![mut] | T![const]) {
        p.bump_any()?;
        return Ok(());
    }
    p.error(
        "expected mut or const in raw pointer type (use `*mut T` or `*const T` as appropriate)",
    )?;
    Ok(())
}

/// An array with its length, as `[a; 1]`, or a slice, as `[a]`.
#[inline(never)]
#[tactic(auto, using(rap_grammar_frame::proofs::Done::marker_kept, rap_grammar_facts::proofs::Types::level_array_length), unfolding(rap_grammar_scripts::specs::Types::array_or_slice_type))]
fn array_or_slice_type<G: Grammar>(p: &mut Parser<'_>, g: &G) -> Result<(), NoMemory>
    requires within { Within G.valid G.left g.now p.old }
    requires here { next (state p.old) ≡ L_BRACK }
    ensures script { OnOk result (Executes (G.left g.now) script.array_or_slice_type p.old p.new) }
{
    let m = p.start()?;
    p.bump(T!['['])?;
    type_(p, g)?;
    if p.at(T![']']) {
        p.bump(T![']'])?;
        m.complete(p, SyntaxKind::SLICE_TYPE)?;
        return Ok(());
    }
    if p.at(T![;]) {
        array_length(p, g)?;
        m.complete(p, SyntaxKind::ARRAY_TYPE)?;
        return Ok(());
    }
    p.error("expected `;` or `]`")?;
    m.complete(p, SyntaxKind::SLICE_TYPE)?;
    Ok(())
}

/// The length of an array and its bracket, as `; 1]`.
#[tactic(auto, unfolding(rap_grammar_scripts::specs::Types::array_length))]
fn array_length<G: Grammar>(p: &mut Parser<'_>, g: &G) -> Result<(), NoMemory>
    requires within { Within G.valid G.left g.now p.old }
    requires here { next (state p.old) ≡ SEMICOLON }
    ensures script { OnOk result (Executes (G.left g.now) script.array_length p.old p.new) }
{
    p.bump(T![;])?;
    let m = p.start()?;
    expr(p, g)?;
    m.complete(p, SyntaxKind::CONST_ARG)?;
    p.expect(T![']'])?;
    Ok(())
}

/// A reference, as `&a` and `&'a mut b`.
#[inline(never)]
#[tactic(auto, unfolding(rap_grammar_scripts::specs::Types::ref_type))]
fn ref_type<G: Grammar>(p: &mut Parser<'_>, g: &G) -> Result<(), NoMemory>
    requires within { Within G.valid G.left g.now p.old }
    requires here { next (state p.old) ≡ AMP }
    ensures script { OnOk result (Executes (G.left g.now) script.ref_type p.old p.new) }
{
    let m = p.start()?;
    p.bump(T![&])?;
    if p.at(T![lifetime_ident]) {
        lifetime(p)?;
    }
    p.eat(T![mut])?;
    type_no_bounds(p, g)?;
    m.complete(p, SyntaxKind::REF_TYPE)?;
    Ok(())
}

/// The inferred type, `_`.
#[inline(never)]
#[tactic(auto, unfolding(rap_grammar_scripts::specs::Types::infer_type))]
fn infer_type(p: &mut Parser<'_>) -> Result<(), NoMemory>
    requires here { next (state p.old) ≡ UNDERSCORE }
    ensures script { OnOk result (ExecutesAlone script.infer_type p.old p.new) }
{
    let m = p.start()?;
    p.bump(T![_])?;
    m.complete(p, SyntaxKind::INFER_TYPE)?;
    Ok(())
}

/// A function pointer, as `fn(a) -> b` and `unsafe extern "C" fn()`.
#[inline(never)]
#[tactic(auto, using(rap_grammar_frame::proofs::Done::less_left, rap_grammar_frame::proofs::Done::marker_kept, rap_grammar_facts::proofs::Alone::alone_less_left, rap_grammar_facts::proofs::Alone::alone_marker_kept, rap_grammar_facts::proofs::Types::level_fn_qualifiers, rap_grammar_facts::proofs::Types::level_fn_ptr_params), unfolding(rap_grammar_scripts::specs::Types::fn_ptr_type))]
fn fn_ptr_type<G: Grammar>(p: &mut Parser<'_>, g: &G) -> Result<(), NoMemory>
    requires within { Within G.valid G.left g.now p.old }
    requires first { is_fn_ptr_first (next (state p.old)) ≡ true }
    ensures script { OnOk result (Executes (G.left g.now) script.fn_ptr_type p.old p.new) }
{
    let m = p.start()?;
    fn_qualifiers(p)?;
    if !p.at(T![fn]) {
        m.abandon(p)?;
        p.error("expected `fn`")?;
        return Ok(());
    }
    p.bump(T![fn])?;
    fn_ptr_params(p, g)?;
    opt_ret_type(p, g)?;
    m.complete(p, SyntaxKind::FN_PTR_TYPE)?;
    Ok(())
}

/// What stands before the `fn` of a function pointer, as `unsafe extern "C"`.
#[tactic(auto, unfolding(rap_grammar_scripts::specs::Types::fn_qualifiers))]
fn fn_qualifiers(p: &mut Parser<'_>) -> Result<(), NoMemory>
    ensures script { OnOk result (ExecutesAlone script.fn_qualifiers p.old p.new) }
{
    p.eat(T![unsafe])?;
    if p.at(T![extern]) {
        abi(p)?;
        return Ok(());
    }
    Ok(())
}

/// The parameters of a function pointer, as `(a, b)`.
#[tactic(auto, unfolding(rap_grammar_scripts::specs::Types::fn_ptr_params))]
fn fn_ptr_params<G: Grammar>(p: &mut Parser<'_>, g: &G) -> Result<(), NoMemory>
    requires within { Within G.valid G.left g.now p.old }
    ensures script { OnOk result (Executes (G.left g.now) script.fn_ptr_params p.old p.new) }
{
    if p.at(T!['(']) {
        param_list_fn_ptr(p, g)?;
        return Ok(());
    }
    p.error("expected parameters")?;
    Ok(())
}

/// A type over any lifetimes, as `for<'a> fn(&'a b)` and `for<'a> b<'a> + c`.
#[inline(never)]
#[tactic(auto, using(rap_grammar_facts::proofs::Types::facts), unfolding(rap_grammar_scripts::specs::Types::for_type))]
fn for_type<G: Grammar>(p: &mut Parser<'_>, g: &G, allow_bounds: bool) -> Result<(), NoMemory>
    requires within { Within G.valid G.left g.now p.old }
    requires here { next (state p.old) ≡ FOR_KW }
    ensures script { OnOk result (Executes (G.left g.now) (script.for_type allow_bounds) p.old p.new) }
{
    let m = p.start()?;
    for_binder(p, g)?;
    if starts_for_target(p) {
        for_target(p, g, m, allow_bounds)?;
        return Ok(());
    }
    p.error("expected a function pointer or path")?;
    for_target(p, g, m, allow_bounds)?;
    Ok(())
}

/// The type after the lifetimes of a `for`, and its bounds, as `b<'a> + c`. The marker before the `for` is open.
#[tactic(auto)]
fn for_target<G: Grammar>(
    p: &mut Parser<'_>,
    g: &G,
    m: Marker,
    allow_bounds: bool,
) -> Result<(), NoMemory>
    requires behind { Behind G.valid G.left g.now p.old }
    requires newest { (state p.old).marker ≡ Some m.pos.value }
    ensures script { OnOk result (Executes (G.left g.now) (script.for_target allow_bounds) p.old p.new) }
{
    type_no_bounds(p, g)?;
    let cm = m.complete(p, SyntaxKind::FOR_TYPE)?;
    if allow_bounds {
        opt_type_bounds_as_dyn_trait_type(p, g, cm, SyntaxKind::FOR_TYPE)?;
        return Ok(());
    }
    Ok(())
}

/// Whether a function pointer or a path comes next.
fn starts_for_target(p: &Parser<'_>) -> bool
    ensures { result ≡ holds starts_for_target (state p.now).rest }
{
    is_fn_ptr_first(p.current()) || is_use_path_start(p)
}

/// A type by its bounds, as `impl a + 'b`.
#[inline(never)]
#[tactic(auto, unfolding(rap_grammar_scripts::specs::Types::impl_trait_type))]
fn impl_trait_type<G: Grammar>(p: &mut Parser<'_>, g: &G) -> Result<(), NoMemory>
    requires within { Within G.valid G.left g.now p.old }
    requires here { next (state p.old) ≡ IMPL_KW }
    ensures script { OnOk result (Executes (G.left g.now) script.impl_trait_type p.old p.new) }
{
    let m = p.start()?;
    p.bump(T![impl])?;
    bounds_without_colon(p, g)?;
    m.complete(p, SyntaxKind::IMPL_TRAIT_TYPE)?;
    Ok(())
}

/// The type of trait objects, as `dyn a + 'b`.
#[inline(never)]
#[tactic(auto, unfolding(rap_grammar_scripts::specs::Types::dyn_trait_type))]
fn dyn_trait_type<G: Grammar>(p: &mut Parser<'_>, g: &G) -> Result<(), NoMemory>
    requires within { Within G.valid G.left g.now p.old }
    requires here { next (state p.old) ≡ DYN_KW }
    ensures script { OnOk result (Executes (G.left g.now) script.dyn_trait_type p.old p.new) }
{
    let m = p.start()?;
    p.bump(T![dyn])?;
    bounds_without_colon(p, g)?;
    m.complete(p, SyntaxKind::DYN_TRAIT_TYPE)?;
    Ok(())
}

/// The same where `dyn` is an identifier.
#[inline(never)]
#[tactic(auto, unfolding(rap_grammar_scripts::specs::Types::dyn_trait_type_weak))]
fn dyn_trait_type_weak<G: Grammar>(p: &mut Parser<'_>, g: &G) -> Result<(), NoMemory>
    requires within { Within G.valid G.left g.now p.old }
    requires here { ReadsAs (state p.old) DYN_KW }
    ensures script { OnOk result (Executes (G.left g.now) script.dyn_trait_type_weak p.old p.new) }
{
    let m = p.start()?;
    p.bump_remap(T![dyn])?;
    bounds_without_colon(p, g)?;
    m.complete(p, SyntaxKind::DYN_TRAIT_TYPE)?;
    Ok(())
}

/// The same without a `dyn`, as `'a + b`.
#[inline(never)]
#[tactic(auto, unfolding(rap_grammar_scripts::specs::Types::bare_dyn_trait_type))]
fn bare_dyn_trait_type<G: Grammar>(p: &mut Parser<'_>, g: &G) -> Result<(), NoMemory>
    requires within { Within G.valid G.left g.now p.old }
    requires here { next (state p.old) ≡ LIFETIME_IDENT }
    ensures script { OnOk result (Executes (G.left g.now) script.bare_dyn_trait_type p.old p.new) }
{
    let m = p.start()?;
    bounds_without_colon(p, g)?;
    m.complete(p, SyntaxKind::DYN_TRAIT_TYPE)?;
    Ok(())
}

/// A path, as `a::b`, a macro call, as `a!()`, or `builtin#pattern_type(a is b)`.
#[tactic(auto, using(rap_grammar_facts::proofs::Types::facts), unfolding(rap_grammar_scripts::specs::Types::path_or_macro_type))]
fn path_or_macro_type<G: Grammar>(
    p: &mut Parser<'_>,
    g: &G,
    allow_bounds: bool,
) -> Result<(), NoMemory>
    requires within { Within G.valid G.left g.now p.old }
    requires path { holds is_path_start (state p.old).rest ≡ true }
    ensures script { OnOk result (Executes (G.left g.now) (script.path_or_macro_type allow_bounds) p.old p.new) }
{
    if starts_builtin(p) {
        pattern_type(p, g)?;
        return Ok(());
    }
    path_or_macro(p, g, allow_bounds)?;
    Ok(())
}

/// A path as a type, as `a::b`, or a macro call, as `a!()`.
#[inline(never)]
#[tactic(auto, using(rap_grammar_facts::proofs::Paths::took_type_path), unfolding(rap_grammar_scripts::specs::Types::path_or_macro))]
fn path_or_macro<G: Grammar>(p: &mut Parser<'_>, g: &G, allow_bounds: bool) -> Result<(), NoMemory>
    requires within { Within G.valid G.left g.now p.old }
    requires path { holds is_path_start (state p.old).rest ≡ true }
    ensures script { OnOk result (Executes (G.left g.now) (script.path_or_macro allow_bounds) p.old p.new) }
{
    let r = p.start()?;
    let m = p.start()?;
    type_path(p, g)?;
    if starts_macro_call(p) {
        macro_call_after_excl(p)?;
        m.complete(p, SyntaxKind::MACRO_CALL)?;
        r.complete(p, SyntaxKind::MACRO_TYPE)?;
        return Ok(());
    }
    m.abandon(p)?;
    let path = r.complete(p, SyntaxKind::PATH_TYPE)?;
    if allow_bounds {
        opt_type_bounds_as_dyn_trait_type(p, g, path, SyntaxKind::PATH_TYPE)?;
        return Ok(());
    }
    Ok(())
}

/// A path as a type, and bounds after it where they are allowed, as `a + b`.
#[tactic(auto, unfolding(rap_grammar_scripts::specs::Types::path_type_bounds))]
pub fn path_type_bounds<G: Grammar>(
    p: &mut Parser<'_>,
    g: &G,
    allow_bounds: bool,
) -> Result<(), NoMemory>
    requires within { Within G.valid G.left g.now p.old }
    requires path { holds is_path_start (state p.old).rest ≡ true }
    ensures script { OnOk result (Executes (G.left g.now) (script.path_type_bounds allow_bounds) p.old p.new) }
{
    let path = path_type(p, g)?;
    if allow_bounds {
        opt_type_bounds_as_dyn_trait_type(p, g, path, SyntaxKind::PATH_TYPE)?;
        return Ok(());
    }
    Ok(())
}

/// The bounds after a type of this kind, as `+ b` after `a`, if there are: all is one type of trait objects, and the
/// type before them its first bound. A macro call has no bounds after it.
#[inline(never)]
#[tactic(auto, unfolding(rap_grammar_scripts::specs::Types::opt_type_bounds_as_dyn_trait_type))]
pub(crate) fn opt_type_bounds_as_dyn_trait_type<G: Grammar>(
    p: &mut Parser<'_>,
    g: &G,
    lhs: CompletedMarker,
    kind: SyntaxKind,
) -> Result<CompletedMarker, NoMemory>
    requires behind { Behind G.valid G.left g.now p.old }
    requires last { IsLast (state p.old) lhs kind }
    ensures last { IfOk result (λ cm. IsLast (state p.new) cm cm.kind.value) }
    ensures script { OnOk result (Executes (G.left g.now) (script.opt_type_bounds_as_dyn_trait_type kind) p.old p.new) }
{
    if kind == SyntaxKind::MACRO_TYPE || !p.at(T![+]) {
        return Ok(lhs);
    }
    let m = lhs.precede(p)?;
    let bound = m.complete(p, SyntaxKind::TYPE_BOUND)?;
    let m = bound.precede(p)?;
    p.bump(T![+])?;
    let bounds = bounds_without_colon_m(p, g, m)?;
    let m = bounds.precede(p)?;
    let cm = m.complete(p, SyntaxKind::DYN_TRAIT_TYPE)?;
    Ok(cm)
}

/// A type by its values, as `builtin#pattern_type(a is 1..)`. Where another name follows, `builtin#` is an error.
#[inline(never)]
#[tactic(auto, using(rap_grammar_frame::proofs::Done::marker_kept, rap_grammar_facts::proofs::Types::level_pattern_type_parts), unfolding(rap_grammar_scripts::specs::Types::pattern_type))]
fn pattern_type<G: Grammar>(p: &mut Parser<'_>, g: &G) -> Result<(), NoMemory>
    requires within { Within G.valid G.left g.now p.old }
    requires here { ReadsAs (state p.old) BUILTIN_KW }
    requires pound { NthAt (state p.old) 1 POUND }
    ensures script { OnOk result (Executes (G.left g.now) script.pattern_type p.old p.new) }
{
    let m = p.start()?;
    p.bump_remap(T![builtin])?;
    p.bump(T![#])?;
    if !p.at_contextual_kw(T![pattern_type]) {
        p.error("unknown name after `builtin#`")?;
        m.complete(p, SyntaxKind::ERROR)?;
        return Ok(());
    }
    p.bump_remap(T![pattern_type])?;
    pattern_type_parts(p, g)?;
    m.complete(p, SyntaxKind::PATTERN_TYPE)?;
    Ok(())
}

/// What stands after `builtin#pattern_type`: a type and its values, as `(a is 1..)`.
fn pattern_type_parts<G: Grammar>(p: &mut Parser<'_>, g: &G) -> Result<(), NoMemory>
    requires behind { Behind G.valid G.left g.now p.old }
    ensures script { OnOk result (Executes (G.left g.now) script.pattern_type_parts p.old p.new) }
{
    p.expect(T!['('])?;
    type_(p, g)?;
    if p.at_contextual_kw(T![is]) {
        p.bump_remap(T![is])?;
    } else {
        p.error("expected `is`")?;
    }
    pattern(p, g)?;
    p.expect(T![')'])?;
    Ok(())
}
