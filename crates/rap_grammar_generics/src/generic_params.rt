//! Generic parameters, bounds, and `where`.
ghost use Rattle.std.specs.Prelude.{◌≡◌, ◌≢◌, ◌<◌, ◌≤◌, OnOk, IfOk, Some, true, false};
ghost use Rattle.rap_base.specs.TokenKind.{L_ANGLE, LIFETIME_IDENT, IDENT, CONST_KW, COLON, USE_KW, BANG, WHERE_KW};
ghost use Rattle.rap_base.specs.NodeKind.{TYPE_BOUND_LIST};
ghost use Rattle.rap_events.specs.State.{state, next, NthAt};
ghost use Rattle.rap_grammar_scripts.specs.First.{is_where_predicate_first};
ghost use Rattle.rap_grammar_scripts.specs.GenericParams as script;
ghost use Rattle.rap_grammar_frame.specs.Grew.{Within, Grew, Took, Behind, Closes};
ghost use Rattle.rap_grammar_scripts.specs.Exec.{Does, Executes};
ghost use Rattle.rap_grammar_facts.specs.Alone.{DoesAlone, ExecutesAlone, ExecutesDeep};
ghost use Rattle.rap_grammar_frame.specs.Room.{list_room};
ghost use Rattle.rap_grammar_scripts.specs.Words.{of_bool};

use crate::const_args::const_arg;
use crate::path_type::path_type;
use rap_base::T;
use rap_base::no_memory::NoMemory;
use rap_base::syntax_kind::SyntaxKind;
use rap_events::parser::{CompletedMarker, Marker, Parser};
use rap_grammar_attributes::attributes::outer_attrs;
use rap_grammar_frame::first::{is_outer_attr_first, is_type_first, is_use_path_start};
use rap_grammar_frame::knot::Grammar;
use rap_grammar_frame::lists::{Element, delimited};
use rap_grammar_frame::names::{lifetime, name, name_ref_or_upper_self};
use rap_grammar_frame::through_knot::{ascription, for_binder, type_};
use rap_grammar_frame::token_tree::token_tree;

/// Generic parameters, as `<'a, T: A, const N: b>`.
#[tactic(auto, unfolding(rap_grammar_scripts::specs::GenericParams::generic_param_list, rap_grammar_scripts::specs::GenericParams::generic_params))]
pub fn generic_param_list<G: Grammar>(p: &mut Parser<'_>, g: &G) -> Result<(), NoMemory>
    requires within { Within G.valid G.left g.now p.old }
    requires here { next (state p.old) ≡ L_ANGLE }
    ensures script { OnOk result (Executes (G.left g.now) script.generic_param_list p.old p.new) }
{
    let m = p.start()?;
    delimited(
        p,
        g,
        T![<],
        T![>],
        T![,],
        "expected generic parameter",
        &GenericParam,
    )?;
    m.complete(p, SyntaxKind::GENERIC_PARAM_LIST)?;
    Ok(())
}

/// A parameter with its attributes, as `#[a] T`.
struct GenericParam;

impl Element for GenericParam {
    ghost use Rattle.rap_grammar_scripts.specs.First as first_script;

    ghost element = { λ _. script.attributed_param };

    ghost first = { λ _. first_script.is_attributed_generic_param_first };

    #[tactic(auto, unfolding(rap_grammar_scripts::specs::GenericParams::attributed_param))]
    fn parse<G: Grammar>(&self, p: &mut Parser<'_>, g: &G) -> Result<bool, NoMemory> {
        let m = p.start()?;
        outer_attrs(p, g)?;
        let found = generic_param(p, g, m)?;
        Ok(found)
    }

    fn is_first(&self, kind: SyntaxKind) -> bool {
        matches!(kind, T![ident] | T![lifetime_ident] | T![const]) || is_outer_attr_first(kind)
    }
}

/// A parameter from its marker on. Returns whether there is one.
#[tactic(auto, unfolding(rap_grammar_scripts::specs::GenericParams::generic_param))]
fn generic_param<G: Grammar>(p: &mut Parser<'_>, g: &G, m: Marker) -> Result<bool, NoMemory>
    requires behind { Behind G.valid G.left g.now p.old }
    requires newest { (state p.old).marker ≡ Some m.pos.value }
    ensures script { IfOk result
        (λ found. Does (G.left g.now) script.generic_param (of_bool found) (state p.old) (state p.new)) }
{
    match p.current() {
        T![lifetime_ident] => {
            lifetime_param(p, g, m)?;
            Ok(true)
        }
        T![ident] => {
            type_param(p, g, m)?;
            Ok(true)
        }
        T![const] => {
            const_param(p, g, m)?;
            Ok(true)
        }
        _ => {
            m.abandon(p)?;
            p.err_and_bump("expected generic parameter")?;
            Ok(false)
        }
    }
}

/// A lifetime as a parameter, as `'a: 'b`.
#[tactic(auto, unfolding(rap_grammar_scripts::specs::GenericParams::lifetime_param))]
fn lifetime_param<G: Grammar>(p: &mut Parser<'_>, g: &G, m: Marker) -> Result<(), NoMemory>
    requires behind { Behind G.valid G.left g.now p.old }
    requires newest { (state p.old).marker ≡ Some m.pos.value }
    requires here { next (state p.old) ≡ LIFETIME_IDENT }
    ensures script { OnOk result (Executes (G.left g.now) script.lifetime_param p.old p.new) }
{
    lifetime(p)?;
    if p.eat(T![:])? {
        lifetime_bounds(p, g)?;
    }
    m.complete(p, SyntaxKind::LIFETIME_PARAM)?;
    Ok(())
}

/// A type as a parameter, as `T: A = b`.
#[tactic(auto, unfolding(rap_grammar_scripts::specs::GenericParams::type_param, rap_grammar_scripts::specs::GenericParams::type_default))]
fn type_param<G: Grammar>(p: &mut Parser<'_>, g: &G, m: Marker) -> Result<(), NoMemory>
    requires behind { Behind G.valid G.left g.now p.old }
    requires newest { (state p.old).marker ≡ Some m.pos.value }
    requires here { next (state p.old) ≡ IDENT }
    ensures script { OnOk result (Executes (G.left g.now) script.type_param p.old p.new) }
{
    name(p)?;
    if p.at(T![:]) {
        bounds(p, g)?;
    }
    if p.at(T![=]) {
        p.bump(T![=])?;
        type_(p, g)?;
    }
    m.complete(p, SyntaxKind::TYPE_PARAM)?;
    Ok(())
}

/// A constant as a parameter, as `const N: a = 1`.
#[tactic(auto, using(rap_grammar_facts::proofs::GenericParams::facts), unfolding(rap_grammar_scripts::specs::GenericParams::const_param))]
fn const_param<G: Grammar>(p: &mut Parser<'_>, g: &G, m: Marker) -> Result<(), NoMemory>
    requires behind { Behind G.valid G.left g.now p.old }
    requires newest { (state p.old).marker ≡ Some m.pos.value }
    requires here { next (state p.old) ≡ CONST_KW }
    ensures script { OnOk result (Executes (G.left g.now) script.const_param p.old p.new) }
{
    p.bump(T![const])?;
    name(p)?;
    const_type(p, g)?;
    const_default(p, g)?;
    m.complete(p, SyntaxKind::CONST_PARAM)?;
    Ok(())
}

/// The type of a constant, as `: a`. Where it is missing, that is reported.
#[tactic(auto, unfolding(rap_grammar_scripts::specs::GenericParams::const_type))]
fn const_type<G: Grammar>(p: &mut Parser<'_>, g: &G) -> Result<(), NoMemory>
    requires behind { Behind G.valid G.left g.now p.old }
    ensures script { OnOk result (Executes (G.left g.now) script.const_type p.old p.new) }
{
    if p.at(T![:]) {
        ascription(p, g)?;
        return Ok(());
    }
    p.error("missing type for const parameter")?;
    Ok(())
}

/// The default of a constant, as `= 1`, if there is one.
#[tactic(auto, unfolding(rap_grammar_scripts::specs::GenericParams::const_default))]
fn const_default<G: Grammar>(p: &mut Parser<'_>, g: &G) -> Result<(), NoMemory>
    requires behind { Behind G.valid G.left g.now p.old }
    ensures script { OnOk result (Executes (G.left g.now) script.const_default p.old p.new) }
{
    if p.eat(T![=])? {
        const_arg(p, g)?;
    }
    Ok(())
}

/// What a lifetime outlives, as the `'b + 'c` of `'a: 'b + 'c`.
#[tactic(auto, using(rap_grammar_facts::proofs::GenericParams::facts), unfolding(rap_grammar_scripts::specs::GenericParams::lifetime_bounds))]
fn lifetime_bounds<G: Grammar>(p: &mut Parser<'_>, g: &G) -> Result<(), NoMemory>
    requires within { Within G.valid G.left g.now p.old }
    ensures grew { OnOk result (Grew (state p.old) (state p.new) 16) }
    ensures script { OnOk result (Executes (G.left g.now) script.lifetime_bounds p.old p.new) }
{
    let m = p.start()?;
    lifetime_bound_list(p, g)?;
    m.complete(p, SyntaxKind::TYPE_BOUND_LIST)?;
    Ok(())
}

/// A lifetime's bounds with `+` between them.
#[tactic(auto, using(rap_grammar_facts::proofs::GenericParams::facts, rap_grammar_frame::proofs::Loops::turns), unfolding(rap_grammar_scripts::specs::GenericParams::lifetime_bound_list))]
fn lifetime_bound_list<G: Grammar>(p: &mut Parser<'_>, g: &G) -> Result<(), NoMemory>
    requires within { Within G.valid G.left g.now p.old }
    ensures script { OnOk result (Executes (G.left g.now) script.lifetime_bound_list p.old p.new) }
{
    'bounds: while lifetime_bound(p, g)? {
        if !p.eat(T![+])? {
            return Ok(());
        }
    }
    Ok(())
}

/// A lifetime's bound. One that is no lifetime is reported. Returns whether there is one.
#[tactic(auto, using(rap_grammar_frame::proofs::Steps::by_report), unfolding(rap_grammar_scripts::specs::GenericParams::lifetime_bound))]
fn lifetime_bound<G: Grammar>(p: &mut Parser<'_>, g: &G) -> Result<bool, NoMemory>
    requires within { Within G.valid G.left g.now p.old }
    ensures script { IfOk result
        (λ found. Does (G.left g.now) script.lifetime_bound (of_bool found) (state p.old) (state p.new)) }
{
    if matches!(p.current(), T![lifetime_ident] | T![>] | T![,]) {
        let found = type_bound(p, g)?;
        return Ok(found);
    }
    p.error("expected lifetime")?;
    let found = type_bound(p, g)?;
    Ok(found)
}

/// Bounds with their colon, as `: 'a + A`.
#[tactic(auto, unfolding(rap_grammar_scripts::specs::GenericParams::bounds))]
pub fn bounds<G: Grammar>(p: &mut Parser<'_>, g: &G) -> Result<(), NoMemory>
    requires within { Within G.valid G.left g.now p.old }
    requires here { next (state p.old) ≡ COLON }
    ensures took { OnOk result (Took (state p.old) (state p.new) list_room) }
    ensures script { OnOk result (Executes (G.left g.now) script.bounds p.old p.new) }
{
    p.bump(T![:])?;
    bounds_without_colon(p, g)?;
    Ok(())
}

/// Bounds, as `'a + ?A + for<'b> B`.
#[tactic(auto, unfolding(rap_grammar_scripts::specs::GenericParams::bounds_without_colon))]
pub fn bounds_without_colon<G: Grammar>(p: &mut Parser<'_>, g: &G) -> Result<(), NoMemory>
    requires within { Within G.valid G.left g.now p.old }
    ensures grew { OnOk result (Grew (state p.old) (state p.new) 16) }
    ensures script { OnOk result (Executes (G.left g.now) script.bounds_without_colon p.old p.new) }
{
    let m = p.start()?;
    bounds_without_colon_m(p, g, m)?;
    Ok(())
}

/// Bounds, from their marker on.
#[tactic(auto, using(rap_grammar_facts::proofs::GenericParams::facts), unfolding(rap_grammar_scripts::specs::GenericParams::bounds_without_colon_m))]
pub fn bounds_without_colon_m<G: Grammar>(
    p: &mut Parser<'_>,
    g: &G,
    m: Marker,
) -> Result<CompletedMarker, NoMemory>
    requires within { Within G.valid G.left g.now p.old }
    requires newest { (state p.old).marker ≡ Some m.pos.value }
    ensures closes { IfOk result (Closes TYPE_BOUND_LIST 12 (state p.old) (state p.new)) }
    ensures script { OnOk result (Executes (G.left g.now) script.bounds_without_colon_m p.old p.new) }
{
    type_bounds(p, g)?;
    let cm = m.complete(p, SyntaxKind::TYPE_BOUND_LIST)?;
    Ok(cm)
}

/// Bounds with `+` between them.
#[tactic(auto, using(rap_grammar_facts::proofs::GenericParams::facts, rap_grammar_frame::proofs::Loops::turns), unfolding(rap_grammar_scripts::specs::GenericParams::type_bounds))]
fn type_bounds<G: Grammar>(p: &mut Parser<'_>, g: &G) -> Result<(), NoMemory>
    requires within { Within G.valid G.left g.now p.old }
    ensures script { OnOk result (Executes (G.left g.now) script.type_bounds p.old p.new) }
{
    'bounds: while type_bound(p, g)? {
        if !p.eat(T![+])? {
            return Ok(());
        }
    }
    Ok(())
}

/// A bound, as `'a`, `A` and `(?A)`. Returns whether there is one.
#[tactic(auto, using(rap_grammar_facts::proofs::GenericParams::facts), unfolding(rap_grammar_scripts::specs::GenericParams::type_bound))]
fn type_bound<G: Grammar>(p: &mut Parser<'_>, g: &G) -> Result<bool, NoMemory>
    requires within { Within G.valid G.left g.now p.old }
    ensures script { IfOk result
        (λ found. Does (G.left g.now) script.type_bound (of_bool found) (state p.old) (state p.new)) }
{
    let m = p.start()?;
    let has_paren = p.eat(T!['('])?;
    if !bare_bound(p, g)? {
        m.abandon(p)?;
        return Ok(false);
    }
    if has_paren {
        p.expect(T![')'])?;
    }
    m.complete(p, SyntaxKind::TYPE_BOUND)?;
    Ok(true)
}

/// A bound without its parentheses, as `'a`, `for<'a> A<'a>` and `use<'a, T>`. Returns whether there is one.
#[tactic(auto, using(rap_grammar_facts::proofs::GenericParams::facts), unfolding(rap_grammar_scripts::specs::GenericParams::bare_bound))]
fn bare_bound<G: Grammar>(p: &mut Parser<'_>, g: &G) -> Result<bool, NoMemory>
    requires within { Within G.valid G.left g.now p.old }
    ensures script { IfOk result
        (λ found. Does (G.left g.now) script.bare_bound (of_bool found) (state p.old) (state p.new)) }
{
    match p.current() {
        T![lifetime_ident] => {
            lifetime(p)?;
            Ok(true)
        }
        T![for] => {
            for_binder(p, g)?;
            let found = path_type_bound(p, g)?;
            Ok(found)
        }
        T![use] if p.nth_at(1, T![<]) => {
            use_bound(p, g)?;
            Ok(true)
        }
        _ => {
            let found = path_type_bound(p, g)?;
            Ok(found)
        }
    }
}

/// What a type captures, as `use<'a, T>`.
#[tactic(auto, unfolding(rap_grammar_scripts::specs::GenericParams::use_bound, rap_grammar_scripts::specs::GenericParams::use_bound_args))]
fn use_bound<G: Grammar>(p: &mut Parser<'_>, g: &G) -> Result<(), NoMemory>
    requires within { Within G.valid G.left g.now p.old }
    requires here { next (state p.old) ≡ USE_KW }
    requires args { NthAt (state p.old) 1 L_ANGLE }
    ensures script { OnOk result (Executes (G.left g.now) script.use_bound p.old p.new) }
{
    p.bump(T![use])?;
    let m = p.start()?;
    delimited(
        p,
        g,
        T![<],
        T![>],
        T![,],
        "expected identifier or lifetime",
        &UseBoundArg,
    )?;
    m.complete(p, SyntaxKind::USE_BOUND_GENERIC_ARGS)?;
    Ok(())
}

/// A name or a lifetime that is captured, as `'a` and `T`.
struct UseBoundArg;

impl Element for UseBoundArg {
    ghost use Rattle.rap_grammar_scripts.specs.First as first_script;

    ghost element = { λ _. script.use_bound_arg };

    ghost first = { λ _. first_script.is_use_bound_arg_first };

    #[tactic(auto, unfolding(rap_grammar_scripts::specs::GenericParams::use_bound_arg))]
    fn parse<G: Grammar>(&self, p: &mut Parser<'_>, g: &G) -> Result<bool, NoMemory> {
        let _ = g;
        if p.at(T![lifetime_ident]) {
            lifetime(p)?;
            return Ok(true);
        }
        name_ref_or_upper_self(p)?;
        Ok(true)
    }

    fn is_first(&self, kind: SyntaxKind) -> bool {
        matches!(kind, T![Self] | T![ident] | T![lifetime_ident])
    }
}

/// A trait as a bound, as `A`, `?A` and `const async A`. Returns whether there is one.
#[tactic(auto, using(rap_grammar_facts::proofs::GenericParams::facts), unfolding(rap_grammar_scripts::specs::GenericParams::path_type_bound))]
fn path_type_bound<G: Grammar>(p: &mut Parser<'_>, g: &G) -> Result<bool, NoMemory>
    requires within { Within G.valid G.left g.now p.old }
    ensures script { IfOk result
        (λ found. Does (G.left g.now) script.path_type_bound (of_bool found) (state p.old) (state p.new)) }
{
    bound_constness(p)?;
    p.eat(T![async])?;
    p.eat(T![?])?;
    if !is_use_path_start(p) {
        return Ok(false);
    }
    path_type(p, g)?;
    if p.at(T![!]) {
        bound_macro_call(p)?;
    }
    Ok(true)
}

/// The `const` before a trait, as `const`, `~const` and `[const]`, if there is one.
#[tactic(auto, unfolding(rap_grammar_scripts::specs::GenericParams::bound_constness))]
fn bound_constness(p: &mut Parser<'_>) -> Result<(), NoMemory>
    ensures script { OnOk result (ExecutesAlone script.bound_constness p.old p.new) }
{
    if p.eat(T![~])? {
        p.expect(T![const])?;
        return Ok(());
    }
    if p.eat(T!['['])? {
        p.expect(T![const])?;
        p.expect(T![']'])?;
        return Ok(());
    }
    p.eat(T![const])?;
    Ok(())
}

/// The rest of a macro call in place of a trait, as `!(a)`.
#[tactic(auto, unfolding(rap_grammar_scripts::specs::GenericParams::bound_macro_call))]
fn bound_macro_call(p: &mut Parser<'_>) -> Result<(), NoMemory>
    requires { next (state p.old) ≡ BANG }
    ensures script { OnOk result (ExecutesDeep script.bound_macro_call p.old p.new) }
{
    let m = p.start()?;
    p.bump(T![!])?;
    p.error("unexpected `!` in type path, macro calls are not allowed here")?;
    if matches!(p.current(), T!['{'] | T!['['] | T!['(']) {
        token_tree(p)?;
        m.complete(p, SyntaxKind::ERROR)?;
        return Ok(());
    }
    m.complete(p, SyntaxKind::ERROR)?;
    Ok(())
}

/// A `where` clause, as `where 'a: 'b, T: A`.
#[tactic(auto, using(rap_grammar_facts::proofs::GenericParams::facts), unfolding(rap_grammar_scripts::specs::GenericParams::where_clause))]
pub fn where_clause<G: Grammar>(p: &mut Parser<'_>, g: &G) -> Result<(), NoMemory>
    requires within { Within G.valid G.left g.now p.old }
    requires here { next (state p.old) ≡ WHERE_KW }
    ensures script { OnOk result (Executes (G.left g.now) script.where_clause p.old p.new) }
{
    let m = p.start()?;
    p.bump(T![where])?;
    where_predicates(p, g)?;
    m.complete(p, SyntaxKind::WHERE_CLAUSE)?;
    Ok(())
}

/// The predicates of a `where`, with commas between them.
#[tactic(auto, using(rap_grammar_facts::proofs::GenericParams::facts, rap_grammar_frame::proofs::Loops::turns), unfolding(rap_grammar_scripts::specs::GenericParams::where_predicates))]
fn where_predicates<G: Grammar>(p: &mut Parser<'_>, g: &G) -> Result<(), NoMemory>
    requires behind { Behind G.valid G.left g.now p.old }
    ensures script { OnOk result (Executes (G.left g.now) script.where_predicates p.old p.new) }
{
    'predicates: while is_where_predicate(p.current()) {
        where_predicate(p, g)?;
        if !after_predicate(p)? {
            return Ok(());
        }
    }
    Ok(())
}

/// Whether a predicate of a `where` may begin with a token of this kind.
fn is_where_predicate(kind: SyntaxKind) -> bool
    ensures { result ≡ is_where_predicate_first kind }
{
    kind != T![impl] && is_type_first(kind)
}

/// The comma after a predicate. Returns whether another predicate may follow.
#[tactic(auto, unfolding(rap_grammar_scripts::specs::GenericParams::after_predicate))]
fn after_predicate(p: &mut Parser<'_>) -> Result<bool, NoMemory>
    ensures script { IfOk result
        (λ on. DoesAlone script.after_predicate (of_bool on) (state p.old) (state p.new)) }
{
    let comma = p.eat(T![,])?;
    if matches!(p.current(), T!['{'] | T![;] | T![=]) {
        return Ok(false);
    }
    if !comma {
        p.error("expected comma")?;
    }
    Ok(true)
}

/// A predicate of a `where`, as `'a: 'b`, `T: A` and `for<'a> T: A<'a>`.
#[tactic(auto, unfolding(rap_grammar_scripts::specs::GenericParams::where_predicate))]
fn where_predicate<G: Grammar>(p: &mut Parser<'_>, g: &G) -> Result<(), NoMemory>
    requires behind { Behind G.valid G.left g.now p.old }
    ensures script { OnOk result (Executes (G.left g.now) script.where_predicate p.old p.new) }
{
    let m = p.start()?;
    match p.current() {
        T![lifetime_ident] => {
            lifetime(p)?;
            predicate_bounds(p, g)?;
        }
        T![impl] => {
            p.error("expected lifetime or type")?;
        }
        _ => {
            type_predicate(p, g)?;
        }
    }
    m.complete(p, SyntaxKind::WHERE_PRED)?;
    Ok(())
}

/// A predicate about a type, as `for<'a> T: A<'a>`.
#[tactic(auto, using(rap_grammar_facts::proofs::GenericParams::facts), unfolding(rap_grammar_scripts::specs::GenericParams::type_predicate))]
fn type_predicate<G: Grammar>(p: &mut Parser<'_>, g: &G) -> Result<(), NoMemory>
    requires behind { Behind G.valid G.left g.now p.old }
    ensures grew { OnOk result (Grew (state p.old) (state p.new) 21) }
    ensures script { OnOk result (Executes (G.left g.now) script.type_predicate p.old p.new) }
{
    if p.at(T![for]) {
        for_binder(p, g)?;
    }
    type_(p, g)?;
    predicate_bounds(p, g)?;
    Ok(())
}

/// The bounds of what a predicate is about, as the `: A` of `T: A`.
#[tactic(auto, unfolding(rap_grammar_scripts::specs::GenericParams::predicate_bounds))]
fn predicate_bounds<G: Grammar>(p: &mut Parser<'_>, g: &G) -> Result<(), NoMemory>
    requires within { Within G.valid G.left g.now p.old }
    ensures grew { OnOk result (Grew (state p.old) (state p.new) 1) }
    ensures script { OnOk result (Executes (G.left g.now) script.predicate_bounds p.old p.new) }
{
    if p.at(T![:]) {
        bounds(p, g)?;
        return Ok(());
    }
    p.error("expected colon")?;
    Ok(())
}
