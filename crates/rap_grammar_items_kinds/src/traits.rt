//! Traits and implementations.
ghost use Rattle.std.specs.Prelude.{ℕ, ◌≡◌, ◌≢◌, ◌<◌, ◌≤◌, OnOk, Some, true};
ghost use Rattle.rap_base.specs.NodeKind.{ASSOC_ITEM_LIST};
ghost use Rattle.rap_base.specs.TokenKind.{EOF, L_CURLY, BANG, TRAIT_KW, IMPL_KW};
ghost use Rattle.rap_events.specs.Forest.{node};
ghost use Rattle.rap_events.specs.State.{state, last_children, next};
ghost use Rattle.rap_grammar_frame.specs.Grew.{Within, Behind};
ghost use Rattle.rap_grammar_scripts.specs.Exec.{Executes};
ghost use Rattle.rap_grammar_facts.specs.Alone.{ExecutesAlone};
ghost use Rattle.rap_grammar_scripts.specs.Test.{holds};
ghost use Rattle.rap_grammar_scripts.specs.Traits as script;

use rap_base::T;
use rap_base::no_memory::NoMemory;
use rap_base::syntax_kind::SyntaxKind;
use rap_events::parser::{Marker, Parser};
use rap_grammar_attributes::attributes::inner_attrs;
use rap_grammar_expressions_blocks::blocks::error_block;
use rap_grammar_frame::item_names::item_name;
use rap_grammar_frame::knot::Grammar;
use rap_grammar_frame::through_knot::{
    bounds, bounds_without_colon, opt_generic_param_list, opt_where_clause, type_,
};
use rap_grammar_scripts::rule::Rule;

/// A trait from its keyword on, as `trait A {}`.
#[tactic(auto, using(rap_grammar_frame::proofs::Done::marker_kept, rap_grammar_facts::proofs::Traits::level_trait_body), unfolding(rap_grammar_scripts::specs::Traits::trait_))]
pub fn trait_<G: Grammar>(p: &mut Parser<'_>, g: &G, m: Marker) -> Result<(), NoMemory>
    requires within { Within G.valid G.left g.now p.old }
    requires newest { (state p.old).marker ≡ Some m.pos.value }
    requires here { next (state p.old) ≡ TRAIT_KW }
    ensures script { OnOk result (Executes (G.left g.now) script.trait_ p.old p.new) }
{
    p.bump(T![trait])?;
    item_name(p)?;
    opt_generic_param_list(p, g)?;
    trait_body(p, g)?;
    m.complete(p, SyntaxKind::TRAIT)?;
    Ok(())
}

/// What stands after a trait's name and parameters.
#[tactic(auto, using(rap_grammar_frame::proofs::Done::less_left), unfolding(rap_grammar_scripts::specs::Traits::trait_body))]
fn trait_body<G: Grammar>(p: &mut Parser<'_>, g: &G) -> Result<(), NoMemory>
    requires behind { Behind G.valid G.left g.now p.old }
    ensures script { OnOk result (Executes (G.left g.now) script.trait_body p.old p.new) }
{
    if p.eat(T![=])? {
        trait_alias(p, g)?;
        return Ok(());
    }
    opt_bounds(p, g)?;
    opt_where_clause(p, g)?;
    expect_assoc_item_list(p, g)?;
    Ok(())
}

/// The bounds of a trait alias, after its `=`, as the `A + B;` of `trait C = A + B;`.
#[tactic(auto, unfolding(rap_grammar_scripts::specs::Traits::trait_alias))]
fn trait_alias<G: Grammar>(p: &mut Parser<'_>, g: &G) -> Result<(), NoMemory>
    requires behind { Behind G.valid G.left g.now p.old }
    ensures script { OnOk result (Executes (G.left g.now) script.trait_alias p.old p.new) }
{
    bounds_without_colon(p, g)?;
    opt_where_clause(p, g)?;
    p.expect(T![;])?;
    Ok(())
}

/// Bounds after their colon, if there are.
#[tactic(auto, unfolding(rap_grammar_scripts::specs::Traits::opt_bounds))]
fn opt_bounds<G: Grammar>(p: &mut Parser<'_>, g: &G) -> Result<(), NoMemory>
    requires within { Within G.valid G.left g.now p.old }
    ensures script { OnOk result (Executes (G.left g.now) script.opt_bounds p.old p.new) }
{
    if p.at(T![:]) {
        bounds(p, g)?;
    }
    Ok(())
}

/// An implementation from its keyword on, as `impl A for b {}`.
#[tactic(auto, using(rap_grammar_facts::proofs::Traits::fewer_impl_params, rap_grammar_facts::proofs::Traits::marker_impl_params, rap_grammar_facts::proofs::Traits::fewer_opt_negative, rap_grammar_facts::proofs::Traits::marker_opt_negative, rap_grammar_facts::proofs::Traits::fewer_impl_types, rap_grammar_facts::proofs::Traits::marker_impl_types, rap_grammar_facts::proofs::Traits::marker_expect_assoc_item_list), unfolding(rap_grammar_scripts::specs::Traits::impl_))]
pub fn impl_<G: Grammar>(p: &mut Parser<'_>, g: &G, m: Marker) -> Result<(), NoMemory>
    requires within { Within G.valid G.left g.now p.old }
    requires newest { (state p.old).marker ≡ Some m.pos.value }
    requires here { next (state p.old) ≡ IMPL_KW }
    ensures script { OnOk result (Executes (G.left g.now) script.impl_ p.old p.new) }
{
    p.bump(T![impl])?;
    impl_params(p, g)?;
    p.eat(T![const])?;
    opt_negative(p)?;
    impl_types(p, g)?;
    opt_where_clause(p, g)?;
    expect_assoc_item_list(p, g)?;
    m.complete(p, SyntaxKind::IMPL)?;
    Ok(())
}

/// The parameters of an implementation, as the `<T>` of `impl<T> A {}`, if there are.
#[tactic(auto, unfolding(rap_grammar_scripts::specs::Traits::impl_params))]
fn impl_params<G: Grammar>(p: &mut Parser<'_>, g: &G) -> Result<(), NoMemory>
    requires behind { Behind G.valid G.left g.now p.old }
    ensures script { OnOk result (Executes (G.left g.now) script.impl_params p.old p.new) }
{
    if is_impl_params_start(p) {
        opt_generic_param_list(p, g)?;
    }
    Ok(())
}

/// Whether an implementation has parameters.
fn is_impl_params_start(p: &Parser<'_>) -> bool
    ensures { result ≡ holds script.is_impl_params_start (state p.now).rest }
{
    p.at(T![<]) && not_a_qualified_path(p)
}

/// Whether the `<` that comes next begins parameters, and no type as in `impl <a>::b {}`. What may be both is
/// parameters.
fn not_a_qualified_path(p: &Parser<'_>) -> bool
    ensures { result ≡ holds script.not_a_qualified_path (state p.now).rest }
{
    matches!(p.nth(1), T![#] | T![>] | T![const])
        || (matches!(p.nth(1), T![lifetime_ident] | T![ident])
            && matches!(p.nth(2), T![>] | T![,] | T![:] | T![=]))
}

/// A `!` before a trait, as in `impl !A for b {}`, if there is one.
#[tactic(auto, unfolding(rap_grammar_scripts::specs::Traits::opt_negative))]
fn opt_negative(p: &mut Parser<'_>) -> Result<(), NoMemory>
    ensures script { OnOk result (ExecutesAlone script.opt_negative p.old p.new) }
{
    if is_negative_start(p) {
        p.bump(T![!])?;
    }
    Ok(())
}

/// Whether a `!` comes next that is no type: the braces do not follow.
fn is_negative_start(p: &Parser<'_>) -> bool
    ensures starts { result ≡ holds script.is_negative_start (state p.now).rest }
    ensures here { result ≡ true → next (state p.now) ≡ BANG }
{
    p.at(T![!]) && !p.nth_at(1, T!['{'])
}

/// The type of an implementation, with the trait before it.
#[tactic(auto, using(rap_grammar_frame::proofs::Done::less_left), unfolding(rap_grammar_scripts::specs::Traits::impl_types))]
fn impl_types<G: Grammar>(p: &mut Parser<'_>, g: &G) -> Result<(), NoMemory>
    requires behind { Behind G.valid G.left g.now p.old }
    ensures script { OnOk result (Executes (G.left g.now) script.impl_types p.old p.new) }
{
    impl_type(p, g)?;
    if p.eat(T![for])? {
        impl_type(p, g)?;
    }
    Ok(())
}

/// A trait or a type of an implementation.
#[tactic(auto, unfolding(rap_grammar_scripts::specs::Traits::impl_type))]
pub fn impl_type<G: Grammar>(p: &mut Parser<'_>, g: &G) -> Result<(), NoMemory>
    requires behind { Behind G.valid G.left g.now p.old }
    ensures script { OnOk result (Executes (G.left g.now) script.impl_type p.old p.new) }
{
    if p.at(T![impl]) {
        p.error("expected trait or type")?;
        return Ok(());
    }
    type_(p, g)?;
    Ok(())
}

/// The items of a trait or an implementation. Where their braces are missing, that is reported.
#[tactic(auto, unfolding(rap_grammar_scripts::specs::Traits::expect_assoc_item_list))]
fn expect_assoc_item_list<G: Grammar>(p: &mut Parser<'_>, g: &G) -> Result<(), NoMemory>
    requires within { Within G.valid G.left g.now p.old }
    ensures script { OnOk result (Executes (G.left g.now) script.expect_assoc_item_list p.old p.new) }
{
    if p.at(T!['{']) {
        assoc_item_list(p, g)?;
        return Ok(());
    }
    p.error("expected `{`")?;
    Ok(())
}

/// The items of a trait or an implementation in their braces.
#[tactic(auto, using(rap_grammar_facts::proofs::Traits::marker_assoc_items, rap_grammar_facts::proofs::Traits::below_assoc_items), unfolding(rap_grammar_scripts::specs::Traits::assoc_item_list))]
pub fn assoc_item_list<G: Grammar>(p: &mut Parser<'_>, g: &G) -> Result<(), NoMemory>
    requires within { Within G.valid G.left g.now p.old }
    requires here { next (state p.old) ≡ L_CURLY }
    ensures one { OnOk result
        ((state p.new).forest ≡ node (state p.old).forest ASSOC_ITEM_LIST (last_children (state p.new).forest)) }
    ensures script { OnOk result (Executes (G.left g.now) script.assoc_item_list p.old p.new) }
{
    let m = p.start()?;
    p.bump(T!['{'])?;
    inner_attrs(p, g)?;
    assoc_items(p, g)?;
    p.expect(T!['}'])?;
    m.complete(p, SyntaxKind::ASSOC_ITEM_LIST)?;
    Ok(())
}

/// Items up to the brace that closes their list.
#[tactic(auto, using(rap_grammar_frame::proofs::Done::less_left, rap_grammar_facts::proofs::Traits::inside_assoc_item, rap_grammar_frame::proofs::Loops::turns), unfolding(rap_grammar_scripts::specs::Traits::assoc_items))]
fn assoc_items<G: Grammar>(p: &mut Parser<'_>, g: &G) -> Result<(), NoMemory>
    requires behind { Behind G.valid G.left g.now p.old }
    ensures script { OnOk result (Executes (G.left g.now) script.assoc_items p.old p.new) }
{
    'items: while !p.at(SyntaxKind::EOF) && !p.at(T!['}']) {
        assoc_item(p, g)?;
    }
    Ok(())
}

/// An item of a trait or an implementation. A block in its place is reported.
#[tactic(auto, unfolding(rap_grammar_scripts::specs::Traits::assoc_item, rap_grammar_scripts::specs::ThroughKnot::item_or_macro))]
fn assoc_item<G: Grammar>(p: &mut Parser<'_>, g: &G) -> Result<(), NoMemory>
    requires behind { Behind G.valid G.left g.now p.old }
    ensures script { OnOk result (Executes (G.left g.now) script.assoc_item p.old p.new) }
{
    if p.at(T!['{']) {
        error_block(p, g, "expected an item")?;
        return Ok(());
    }
    g.run(
        p,
        Rule::ItemOrMacro {
            stop_on_r_curly: true,
            is_in_extern: false,
        },
    )?;
    Ok(())
}
