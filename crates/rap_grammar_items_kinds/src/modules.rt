//! Modules, lists of items, and what is named in one line: a crate and a type.
//! In the Rust crate: `grammar/items.rs`.
ghost use Rattle.std.specs.Prelude.{ℕ, ◌≡◌, ◌≢◌, ◌<◌, ◌≤◌, IfOk, OnOk, Some, None, true, false, ◌⊎◌};
ghost use Rattle.rap_base.specs.NodeKind.{ITEM_LIST, EXTERN_ITEM_LIST};
ghost use Rattle.rap_base.specs.TokenKind.{EOF, L_CURLY, R_CURLY, CRATE_KW, EXTERN_KW, MOD_KW, TYPE_KW};
ghost use Rattle.rap_events.specs.Forest.{node};
ghost use Rattle.rap_events.specs.State.{state, last_children, next, NthAt};
ghost use Rattle.rap_grammar_frame.specs.Grew.{Within, Behind};
ghost use Rattle.rap_grammar_scripts.specs.Modules as script;
ghost use Rattle.rap_grammar_scripts.specs.Exec.{Executes};
ghost use Rattle.rap_grammar_facts.specs.Alone.{ExecutesAlone};
ghost use Rattle.rap_grammar_scripts.specs.Test.{holds};

use crate::consts::konst;
use rap_base::T;
use rap_base::no_memory::NoMemory;
use rap_base::syntax_kind::SyntaxKind;
use rap_events::parser::{Marker, Parser};
use rap_grammar_attributes::attributes::inner_attrs;
use rap_grammar_frame::knot::Grammar;
use rap_grammar_frame::names::{name, name_ref_or_self, opt_rename};
use rap_grammar_frame::through_knot::{bounds, opt_generic_param_list, opt_where_clause, type_};
use rap_grammar_scripts::rule::Rule;

/// A crate's name, as `extern crate a as b;`.
#[tactic(auto, unfolding(rap_grammar_scripts::specs::Modules::extern_crate))]
pub fn extern_crate(p: &mut Parser<'_>, m: Marker) -> Result<(), NoMemory>
    requires newest { (state p.old).marker ≡ Some m.pos.value }
    requires here { next (state p.old) ≡ EXTERN_KW }
    requires more { NthAt (state p.old) 1 CRATE_KW }
    ensures script { OnOk result (ExecutesAlone script.extern_crate p.old p.new) }
{
    p.bump(T![extern])?;
    p.bump(T![crate])?;
    name_ref_or_self(p)?;
    opt_rename(p)?;
    p.expect(T![;])?;
    m.complete(p, SyntaxKind::EXTERN_CRATE)?;
    Ok(())
}

/// What a list of items holds: up to the end, or up to a brace that closes it.
#[tactic(auto, unfolding(rap_grammar_scripts::specs::Modules::mod_contents))]
pub fn mod_contents<G: Grammar>(
    p: &mut Parser<'_>,
    g: &G,
    stop_on_r_curly: bool,
) -> Result<(), NoMemory>
    requires behind { Behind G.valid G.left g.now p.old }
    ensures script { OnOk result (Executes (G.left g.now) (script.mod_contents stop_on_r_curly) p.old p.new) }
{
    inner_attrs(p, g)?;
    items(p, g, stop_on_r_curly)?;
    Ok(())
}

/// Whether a brace comes next that ends a list of items.
fn ends_items(p: &Parser<'_>, stop_on_r_curly: bool) -> bool
    ensures here { result ≡ holds (script.ends_items stop_on_r_curly) (state p.now).rest }
    ensures more { result ≡ false → stop_on_r_curly ≡ true → next (state p.now) ≢ R_CURLY }
{
    p.at(T!['}']) && stop_on_r_curly
}

/// Items one after another.
#[tactic(auto, using(rap_grammar_frame::proofs::Done::less_left, rap_grammar_frame::proofs::Loops::turns), unfolding(rap_grammar_scripts::specs::Modules::items))]
fn items<G: Grammar>(p: &mut Parser<'_>, g: &G, stop_on_r_curly: bool) -> Result<(), NoMemory>
    requires behind { Behind G.valid G.left g.now p.old }
    ensures script { OnOk result (Executes (G.left g.now) (script.items stop_on_r_curly) p.old p.new) }
{
    // `safe fn` may stand anywhere: there is nothing else that it could be.
    let is_in_extern = true;
    'items: while !p.at(SyntaxKind::EOF) && !ends_items(p, stop_on_r_curly) {
        g.run(
            p,
            Rule::ItemOrMacro {
                stop_on_r_curly,
                is_in_extern,
            },
        )?;
    }
    Ok(())
}

/// The items of a module in their braces.
#[tactic(auto, using(rap_grammar_frame::proofs::Done::marker_kept, rap_grammar_frame::proofs::Ended::below_kept, rap_grammar_facts::proofs::Modules::level_mod_contents), unfolding(rap_grammar_scripts::specs::Modules::item_list))]
pub fn item_list<G: Grammar>(p: &mut Parser<'_>, g: &G) -> Result<(), NoMemory>
    requires within { Within G.valid G.left g.now p.old }
    requires here { next (state p.old) ≡ L_CURLY }
    ensures one { OnOk result
        ((state p.new).forest ≡ node (state p.old).forest ITEM_LIST (last_children (state p.new).forest)) }
    ensures script { OnOk result (Executes (G.left g.now) script.item_list p.old p.new) }
{
    let m = p.start()?;
    p.bump(T!['{'])?;
    mod_contents(p, g, true)?;
    p.expect(T!['}'])?;
    m.complete(p, SyntaxKind::ITEM_LIST)?;
    Ok(())
}

/// The items of an `extern` block in their braces.
#[tactic(auto, using(rap_grammar_frame::proofs::Done::marker_kept, rap_grammar_frame::proofs::Ended::below_kept, rap_grammar_facts::proofs::Modules::level_mod_contents), unfolding(rap_grammar_scripts::specs::Modules::extern_item_list))]
pub fn extern_item_list<G: Grammar>(p: &mut Parser<'_>, g: &G) -> Result<(), NoMemory>
    requires within { Within G.valid G.left g.now p.old }
    requires here { next (state p.old) ≡ L_CURLY }
    ensures one { OnOk result
        ((state p.new).forest ≡ node (state p.old).forest EXTERN_ITEM_LIST (last_children (state p.new).forest)) }
    ensures script { OnOk result (Executes (G.left g.now) script.extern_item_list p.old p.new) }
{
    let m = p.start()?;
    p.bump(T!['{'])?;
    mod_contents(p, g, true)?;
    p.expect(T!['}'])?;
    m.complete(p, SyntaxKind::EXTERN_ITEM_LIST)?;
    Ok(())
}

/// A module from its keyword on, as `mod a;` and `mod a {}`.
#[tactic(auto, using(rap_grammar_frame::proofs::Done::marker_kept, rap_grammar_facts::proofs::Modules::level_mod_body), unfolding(rap_grammar_scripts::specs::Modules::mod_item))]
pub fn mod_item<G: Grammar>(p: &mut Parser<'_>, g: &G, m: Marker) -> Result<(), NoMemory>
    requires within { Within G.valid G.left g.now p.old }
    requires newest { (state p.old).marker ≡ Some m.pos.value }
    requires here { next (state p.old) ≡ MOD_KW }
    ensures script { OnOk result (Executes (G.left g.now) script.mod_item p.old p.new) }
{
    p.bump(T![mod])?;
    name(p)?;
    mod_body(p, g)?;
    m.complete(p, SyntaxKind::MODULE)?;
    Ok(())
}

/// What a module holds, or the semicolon in its place.
#[tactic(auto, unfolding(rap_grammar_scripts::specs::Modules::mod_body))]
fn mod_body<G: Grammar>(p: &mut Parser<'_>, g: &G) -> Result<(), NoMemory>
    requires within { Within G.valid G.left g.now p.old }
    ensures script { OnOk result (Executes (G.left g.now) script.mod_body p.old p.new) }
{
    if p.at(T!['{']) {
        item_list(p, g)?;
        return Ok(());
    }
    if p.eat(T![;])? {
        return Ok(());
    }
    p.error("expected `;` or `{`")?;
    Ok(())
}

/// What begins with `type`: a type alias, or a constant after `type const`.
#[tactic(auto, unfolding(rap_grammar_scripts::specs::Modules::type_item))]
pub fn type_item<G: Grammar>(p: &mut Parser<'_>, g: &G, m: Marker) -> Result<(), NoMemory>
    requires within { Within G.valid G.left g.now p.old }
    requires newest { (state p.old).marker ≡ Some m.pos.value }
    requires here { next (state p.old) ≡ TYPE_KW }
    ensures script { OnOk result (Executes (G.left g.now) script.type_item p.old p.new) }
{
    if p.nth_at(1, T![const]) {
        konst(p, g, m)?;
        return Ok(());
    }
    type_alias(p, g, m)?;
    Ok(())
}

/// A type alias, as `type A<T>: B = c where T: D;`.
#[tactic(auto, using(rap_grammar_facts::proofs::Modules::fewer_alias_bounds, rap_grammar_facts::proofs::Modules::marker_alias_bounds, rap_grammar_facts::proofs::Modules::fewer_aliased_type, rap_grammar_facts::proofs::Modules::marker_aliased_type), unfolding(rap_grammar_scripts::specs::Modules::type_alias))]
fn type_alias<G: Grammar>(p: &mut Parser<'_>, g: &G, m: Marker) -> Result<(), NoMemory>
    requires within { Within G.valid G.left g.now p.old }
    requires newest { (state p.old).marker ≡ Some m.pos.value }
    requires here { next (state p.old) ≡ TYPE_KW }
    ensures script { OnOk result (Executes (G.left g.now) script.type_alias p.old p.new) }
{
    p.bump(T![type])?;
    name(p)?;
    opt_generic_param_list(p, g)?;
    alias_bounds(p, g)?;
    opt_where_clause(p, g)?;
    aliased_type(p, g)?;
    opt_where_clause(p, g)?;
    p.expect(T![;])?;
    m.complete(p, SyntaxKind::TYPE_ALIAS)?;
    Ok(())
}

/// The bounds of a type alias, as `: A`, if there are.
#[tactic(auto, unfolding(rap_grammar_scripts::specs::Modules::alias_bounds))]
fn alias_bounds<G: Grammar>(p: &mut Parser<'_>, g: &G) -> Result<(), NoMemory>
    requires within { Within G.valid G.left g.now p.old }
    ensures script { OnOk result (Executes (G.left g.now) script.alias_bounds p.old p.new) }
{
    if !p.at(T![:]) {
        return Ok(());
    }
    bounds(p, g)?;
    Ok(())
}

/// The type of a type alias, as `= a`, if there is one.
#[tactic(auto, unfolding(rap_grammar_scripts::specs::Modules::aliased_type))]
fn aliased_type<G: Grammar>(p: &mut Parser<'_>, g: &G) -> Result<(), NoMemory>
    requires within { Within G.valid G.left g.now p.old }
    ensures script { OnOk result (Executes (G.left g.now) script.aliased_type p.old p.new) }
{
    if !p.eat(T![=])? {
        return Ok(());
    }
    type_(p, g)?;
    Ok(())
}
