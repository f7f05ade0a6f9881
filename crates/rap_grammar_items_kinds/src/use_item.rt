//! Imports.
ghost use Rattle.std.specs.Prelude.{◌≡◌, ◌≢◌, ◌<◌, ◌≤◌, ◌+◌, OnOk, Some, true, ℕ};
ghost use Rattle.rap_base.specs.NodeKind.{USE_TREE_LIST};
ghost use Rattle.rap_base.specs.TokenKind.{USE_KW, L_CURLY, COLON2};
ghost use Rattle.rap_base.specs.TokenSet.{member};
ghost use Rattle.rap_events.specs.Composite.{is_at};
ghost use Rattle.rap_events.specs.Forest.{node};
ghost use Rattle.rap_events.specs.State.{state, last_children, next};
ghost use Rattle.rap_grammar_frame.specs.Grew.{Within};
ghost use Rattle.rap_grammar_scripts.specs.Exec.{Executes};
ghost use Rattle.rap_grammar_scripts.specs.Test.{holds};
ghost use Rattle.rap_grammar_scripts.specs.UseItem as script;
ghost use Rattle.rap_grammar_scripts.specs.UseItem.{is_group_first, is_global_group_start, is_use_tree_start};

use rap_base::T;
use rap_base::no_memory::NoMemory;
use rap_base::syntax_kind::SyntaxKind;
use rap_base::token_set::TokenSet;
use rap_events::parser::{Marker, Parser};
use rap_grammar_frame::first::is_use_path_start;
use rap_grammar_frame::knot::Grammar;
use rap_grammar_frame::lists::{Element, delimited};
use rap_grammar_frame::names::opt_rename;
use rap_grammar_frame::recovery::item_recovery_set;
use rap_grammar_paths::paths::use_path;
use rap_grammar_scripts::rule::Rule;

/// An import from its keyword on, as `use a::b;`.
#[tactic(auto, using(rap_grammar_frame::proofs::Done::marker_kept, rap_grammar_facts::proofs::UseItem::level_expect_use_tree), unfolding(rap_grammar_scripts::specs::UseItem::use_))]
pub fn use_<G: Grammar>(p: &mut Parser<'_>, g: &G, m: Marker) -> Result<(), NoMemory>
    requires within { Within G.valid G.left g.now p.old }
    requires newest { (state p.old).marker ≡ Some m.pos.value }
    requires here { next (state p.old) ≡ USE_KW }
    ensures script { OnOk result (Executes (G.left g.now) script.use_ p.old p.new) }
{
    p.bump(T![use])?;
    expect_use_tree(p, g)?;
    p.expect(T![;])?;
    m.complete(p, SyntaxKind::USE)?;
    Ok(())
}

/// The tree of an import. Where none begins, that is reported, and the next token is skipped too unless an item may
/// begin there.
#[inline(never)]
#[tactic(auto, unfolding(rap_grammar_scripts::specs::UseItem::expect_use_tree))]
fn expect_use_tree<G: Grammar>(p: &mut Parser<'_>, g: &G) -> Result<(), NoMemory>
    requires within { Within G.valid G.left g.now p.old }
    ensures script { OnOk result (Executes (G.left g.now) script.expect_use_tree p.old p.new) }
{
    if is_use_tree_start(p) {
        use_tree(p, g)?;
        return Ok(());
    }
    p.err_recover(
        "expected one of `*`, `::`, `{`, `self`, `super` or an identifier",
        item_recovery_set(),
    )?;
    Ok(())
}

/// Whether a tree of names comes next.
fn is_use_tree_start(p: &Parser<'_>) -> bool
    ensures { result ≡ holds is_use_tree_start (state p.now).rest }
{
    is_group_first(p.current()) || is_use_path_start(p)
}

/// Whether a star, or a list in its braces, begins with a token of this kind.
fn is_group_first(kind: SyntaxKind) -> bool
    ensures { result ≡ is_group_first kind }
{
    matches!(kind, T![*] | T!['{'])
}

/// Whether a star, or a list in its braces, comes next after `::`.
fn is_global_group_start(p: &Parser<'_>) -> bool
    ensures starts { result ≡ holds is_global_group_start (state p.now).rest }
    ensures here { result ≡ true → is_at COLON2 (state p.now).rest ≡ true }
{
    p.at(T![::]) && is_group_first(p.nth(2))
}

/// A tree of names, as `a::{b, c as d}`, of which one begins.
#[tactic(auto, using(rap_grammar_facts::proofs::Paths::fewer_use_path, rap_grammar_facts::proofs::Paths::marker_use_path, rap_grammar_frame::proofs::Done::marker_kept, rap_grammar_facts::proofs::UseItem::level_group, rap_grammar_facts::proofs::UseItem::level_after_use_path), unfolding(rap_grammar_scripts::specs::UseItem::use_tree))]
pub fn use_tree<G: Grammar>(p: &mut Parser<'_>, g: &G) -> Result<(), NoMemory>
    requires within { Within G.valid G.left g.now p.old }
    requires here { holds is_use_tree_start (state p.old).rest ≡ true }
    ensures script { OnOk result (Executes (G.left g.now) script.use_tree p.old p.new) }
{
    let m = p.start()?;
    if is_group_first(p.current()) {
        group(p, g)?;
        m.complete(p, SyntaxKind::USE_TREE)?;
        return Ok(());
    }
    if is_global_group_start(p) {
        p.bump(T![::])?;
        group(p, g)?;
        m.complete(p, SyntaxKind::USE_TREE)?;
        return Ok(());
    }
    use_path(p, g)?;
    after_use_path(p, g)?;
    m.complete(p, SyntaxKind::USE_TREE)?;
    Ok(())
}

/// A star, or a list in its braces.
#[tactic(auto, unfolding(rap_grammar_scripts::specs::UseItem::group))]
fn group<G: Grammar>(p: &mut Parser<'_>, g: &G) -> Result<(), NoMemory>
    requires within { Within G.valid G.left g.now p.old }
    requires first { is_group_first (next (state p.old)) ≡ true }
    ensures script { OnOk result (Executes (G.left g.now) script.group p.old p.new) }
{
    if p.eat(T![*])? {
        return Ok(());
    }
    use_tree_list(p, g)?;
    Ok(())
}

/// What stands after a path: a name for it, as `as a`, or names in it, as `::{a, b}`.
#[tactic(auto, unfolding(rap_grammar_scripts::specs::UseItem::after_use_path))]
fn after_use_path<G: Grammar>(p: &mut Parser<'_>, g: &G) -> Result<(), NoMemory>
    requires within { Within G.valid G.left g.now p.old }
    ensures script { OnOk result (Executes (G.left g.now) script.after_use_path p.old p.new) }
{
    if p.at(T![as]) {
        opt_rename(p)?;
        return Ok(());
    }
    if p.at(T![::]) {
        group_behind(p, g)?;
    }
    Ok(())
}

/// A star, or a list in its braces, after a path and `::`.
#[tactic(auto, unfolding(rap_grammar_scripts::specs::UseItem::group_behind))]
fn group_behind<G: Grammar>(p: &mut Parser<'_>, g: &G) -> Result<(), NoMemory>
    requires within { Within G.valid G.left g.now p.old }
    requires here { is_at COLON2 (state p.old).rest ≡ true }
    ensures script { OnOk result (Executes (G.left g.now) script.group_behind p.old p.new) }
{
    p.bump(T![::])?;
    if is_group_first(p.current()) {
        group(p, g)?;
        return Ok(());
    }
    p.error("expected `{` or `*`")?;
    Ok(())
}

/// Trees in their braces, as `{a, b::c}`.
#[tactic(auto, unfolding(rap_grammar_scripts::specs::UseItem::use_tree_list))]
pub fn use_tree_list<G: Grammar>(p: &mut Parser<'_>, g: &G) -> Result<(), NoMemory>
    requires within { Within G.valid G.left g.now p.old }
    requires here { next (state p.old) ≡ L_CURLY }
    ensures one { OnOk result
        ((state p.new).forest ≡ node (state p.old).forest USE_TREE_LIST (last_children (state p.new).forest)) }
    ensures script { OnOk result (Executes (G.left g.now) script.use_tree_list p.old p.new) }
{
    let m = p.start()?;
    delimited(
        p,
        g,
        T!['{'],
        T!['}'],
        T![,],
        "expected use tree",
        &NestedUseTree,
    )?;
    m.complete(p, SyntaxKind::USE_TREE_LIST)?;
    Ok(())
}

/// A tree of names in the braces of another one. Where none begins, a token is skipped too, so that the braces stay
/// balanced.
struct NestedUseTree;

impl Element for NestedUseTree {
    ghost element = { λ _. script.nested_use_tree };

    ghost first = { λ _. script.is_use_tree_list_first };

    #[tactic(auto, unfolding(rap_grammar_scripts::specs::UseItem::nested_use_tree, rap_grammar_scripts::specs::ThroughKnot::use_tree))]
    fn parse<G: Grammar>(&self, p: &mut Parser<'_>, g: &G) -> Result<bool, NoMemory> {
        if is_use_tree_start(p) {
            g.run(p, Rule::UseTree)?;
            return Ok(true);
        }
        p.err_and_bump("expected one of `*`, `::`, `{`, `self`, `super` or an identifier")?;
        Ok(use_tree_list_goes_on(p))
    }

    fn is_first(&self, kind: SyntaxKind) -> bool {
        matches!(kind, T!['{'] | T![ident])
    }
}

/// Whether the list of trees goes on where a tree is missing. It is a function of its own so that the set takes no room
/// on the stack of the rules that nest.
#[inline(never)]
fn use_tree_list_goes_on(p: &Parser<'_>) -> bool
    ensures here { result ≡ script.is_use_tree_list_recovery (next (state p.now)) }
{
    p.at_ts(use_tree_list_recovery_set())
}

/// Where the list of trees goes on although a tree is missing.
fn use_tree_list_recovery_set() -> TokenSet
    ensures { (kind : ℕ) → member result kind ≡ script.is_use_tree_list_recovery kind }
{
    TokenSet::new(&[T![;], T![,], T![.], T![ident]]).union(item_recovery_set())
}
