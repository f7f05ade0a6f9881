//! Attributes.
ghost use Rattle.std.specs.Prelude.{◌≡◌, ◌≢◌, ◌∷◌, OnOk, true, false, []};
ghost use Rattle.rap_base.specs.TokenKind.{EOF, UNSAFE_KW, CFG_ATTR_KW, CFG_KW, TRUE_KW, FALSE_KW, L_PAREN, EQ};
ghost use Rattle.rap_events.specs.State.{state, next, At};
ghost use Rattle.rap_events.specs.Composite.{is_at};
ghost use Rattle.rap_grammar_scripts.specs.Attributes as script;
ghost use Rattle.rap_grammar_scripts.specs.Attributes.{is_inner_attr_start, doc_comment, starts_attr, at_called_kw, is_value_start};
ghost use Rattle.rap_grammar_scripts.specs.First.{is_outer_attr_first, is_cfg_predicate_first, one_of};
ghost use Rattle.rap_grammar_frame.specs.Grew.{Within, Grew, Took, Behind};
ghost use Rattle.rap_grammar_scripts.specs.Exec.{Executes};
ghost use Rattle.rap_grammar_facts.specs.Alone.{ExecutesAlone};
ghost use Rattle.rap_grammar_frame.specs.Room.{list_room, element_room};
ghost use Rattle.rap_grammar_frame.specs.Rules.{Parsed};
ghost use Rattle.rap_grammar_scripts.specs.Test.{holds};

use rap_base::T;
use rap_base::no_memory::NoMemory;
use rap_base::syntax_kind::SyntaxKind;
use rap_events::parser::Parser;
use rap_grammar_frame::first::is_outer_attr_first;
use rap_grammar_frame::knot::Grammar;
use rap_grammar_frame::lists::{Element, delimited};
use rap_grammar_frame::through_knot::expr;
use rap_grammar_frame::token_tree::{is_bracket, token_tree};
use rap_grammar_paths::paths::attr_path;
use rap_grammar_scripts::rule::Rule;

/// Returns whether an inner attribute comes next.
fn is_inner_attr_start(p: &Parser<'_>) -> bool
    ensures { result ≡ holds is_inner_attr_start (state p.now).rest }
{
    p.at(SyntaxKind::INNER_DOC_COMMENT) || (p.at(T![#]) && p.nth_at(1, T![!]))
}

/// Inner attributes, as `#![a]` at the head of a block.
#[tactic(auto, using(rap_grammar_facts::proofs::Attributes::took_attr))]
pub fn inner_attrs<G: Grammar>(p: &mut Parser<'_>, g: &G) -> Result<(), NoMemory>
    requires within { Within G.valid G.left g.now p.old }
    ensures grew { OnOk result (Grew (state p.old) (state p.new) 0) }
    ensures stays { OnOk result (holds is_inner_attr_start (state p.old).rest ≡ false → state p.new ≡ state p.old) }
    ensures script { OnOk result (Executes (G.left g.now) script.inner_attrs p.old p.new) }
{
    'attrs: while is_inner_attr_start(p) {
        attr(p, g, true)?;
    }
    Ok(())
}

/// Outer attributes, as `#[a]` before a field.
#[tactic(auto, using(rap_grammar_facts::proofs::Attributes::took_attr))]
pub fn outer_attrs<G: Grammar>(p: &mut Parser<'_>, g: &G) -> Result<(), NoMemory>
    requires within { Within G.valid G.left g.now p.old }
    ensures grew { OnOk result (Grew (state p.old) (state p.new) 0) }
    ensures took { OnOk result (is_outer_attr_first (next (state p.old)) ≡ true → Took (state p.old) (state p.new) list_room) }
    ensures stays { OnOk result (is_outer_attr_first (next (state p.old)) ≡ false → state p.new ≡ state p.old) }
    ensures script { OnOk result (Executes (G.left g.now) script.outer_attrs p.old p.new) }
{
    'attrs: while is_outer_attr_first(p.current()) {
        attr(p, g, false)?;
    }
    Ok(())
}

/// The kind of an attribute that is written as a comment, as `/// a`.
fn doc_comment(inner: bool) -> SyntaxKind
    ensures { result ≡ doc_comment inner }
{
    if inner {
        SyntaxKind::INNER_DOC_COMMENT
    } else {
        SyntaxKind::OUTER_DOC_COMMENT
    }
}

/// An attribute, as `#[a]`, and as `#![a]` where it is an inner one.
#[tactic(auto, using(rap_grammar_facts::proofs::Alone::alone_less_left, rap_grammar_facts::proofs::Alone::alone_marker_kept, rap_grammar_frame::proofs::Done::marker_kept, rap_grammar_facts::proofs::Attributes::level_attr_mark, rap_grammar_facts::proofs::Attributes::level_attr_brackets), unfolding(rap_grammar_scripts::specs::Attributes::attr))]
fn attr<G: Grammar>(p: &mut Parser<'_>, g: &G, inner: bool) -> Result<(), NoMemory>
    requires within { Within G.valid G.left g.now p.old }
    requires first { holds (starts_attr inner) (state p.old).rest ≡ true }
    ensures script { OnOk result (Executes (G.left g.now) (script.attr inner) p.old p.new) }
{
    if p.at(doc_comment(inner)) {
        let m = p.start()?;
        p.bump_any()?;
        m.complete(p, SyntaxKind::DOC_COMMENT)?;
        return Ok(());
    }
    let m = p.start()?;
    attr_mark(p, inner)?;
    attr_brackets(p, g)?;
    m.complete(p, SyntaxKind::ATTR)?;
    Ok(())
}

/// What an attribute begins with: `#`, and `#!` where it is an inner one.
#[tactic(auto, unfolding(rap_grammar_scripts::specs::Attributes::attr_mark))]
fn attr_mark(p: &mut Parser<'_>, inner: bool) -> Result<(), NoMemory>
    requires first { holds (starts_attr inner) (state p.old).rest ≡ true }
    requires no_comment { is_at (doc_comment inner) (state p.old).rest ≡ false }
    ensures script { OnOk result (ExecutesAlone (script.attr_mark inner) p.old p.new) }
{
    p.bump(T![#])?;
    if inner {
        p.bump(T![!])?;
        return Ok(());
    }
    Ok(())
}

/// The brackets of an attribute with what stands in them, as `[a]` after `#`.
#[tactic(auto, unfolding(rap_grammar_scripts::specs::Attributes::attr_brackets))]
fn attr_brackets<G: Grammar>(p: &mut Parser<'_>, g: &G) -> Result<(), NoMemory>
    requires within { Within G.valid G.left g.now p.old }
    ensures script { OnOk result (Executes (G.left g.now) script.attr_brackets p.old p.new) }
{
    if !p.expect(T!['['])? {
        return Ok(());
    }
    meta(p, g)?;
    p.expect(T![']'])?;
    Ok(())
}

/// Whether an identifier that may be read as this keyword comes next, and a `(` after it.
#[tactic(auto, using(rap_events::proofs::Truth::and_false))]
fn at_called_kw(p: &Parser<'_>, kw: SyntaxKind) -> bool
    requires { kw ≢ EOF }
    ensures { result ≡ holds (at_called_kw kw) (state p.now).rest }
{
    p.at_contextual_kw(kw) && p.nth_at(1, T!['('])
}

/// What stands in the brackets of an attribute, as `a = "b"`.
#[tactic(auto, using(rap_grammar_facts::proofs::Attributes::took_unsafe_meta, rap_grammar_facts::proofs::Attributes::took_cfg_attr_meta, rap_grammar_facts::proofs::Attributes::took_cfg_meta, rap_grammar_facts::proofs::Attributes::grew_path_meta), unfolding(rap_grammar_scripts::specs::Attributes::meta))]
pub fn meta<G: Grammar>(p: &mut Parser<'_>, g: &G) -> Result<(), NoMemory>
    requires within { Within G.valid G.left g.now p.old }
    ensures grew { OnOk result (Grew (state p.old) (state p.new) 16) }
    ensures script { OnOk result (Executes (G.left g.now) script.meta p.old p.new) }
{
    if p.at(T![unsafe]) {
        unsafe_meta(p, g)?;
        return Ok(());
    }
    if at_called_kw(p, T![cfg_attr]) {
        cfg_attr_meta(p, g)?;
        return Ok(());
    }
    if at_called_kw(p, T![cfg]) {
        cfg_meta(p, g)?;
        return Ok(());
    }
    path_meta(p, g)?;
    Ok(())
}

/// An unsafe attribute, as `unsafe(a)`.
fn unsafe_meta<G: Grammar>(p: &mut Parser<'_>, g: &G) -> Result<(), NoMemory>
    requires within { Within G.valid G.left g.now p.old }
    requires here { At (state p.old) UNSAFE_KW }
    ensures script { OnOk result (Executes (G.left g.now) script.unsafe_meta p.old p.new) }
{
    let m = p.start()?;
    p.bump(T![unsafe])?;
    p.expect(T!['('])?;
    g.run(p, Rule::Meta)?;
    p.expect(T![')'])?;
    m.complete(p, SyntaxKind::UNSAFE_META)?;
    Ok(())
}

/// Attributes under a condition, as `cfg_attr(a, b, c = "d")`.
fn cfg_attr_meta<G: Grammar>(p: &mut Parser<'_>, g: &G) -> Result<(), NoMemory>
    requires within { Within G.valid G.left g.now p.old }
    requires here { holds (at_called_kw CFG_ATTR_KW) (state p.old).rest ≡ true }
    ensures script { OnOk result (Executes (G.left g.now) script.cfg_attr_meta p.old p.new) }
{
    let m = p.start()?;
    p.bump_remap(T![cfg_attr])?;
    p.bump(T!['('])?;
    cfg_predicate(p, g)?;
    p.expect(T![,])?;
    cfg_attr_metas(p, g)?;
    p.expect(T![')'])?;
    m.complete(p, SyntaxKind::CFG_ATTR_META)?;
    Ok(())
}

/// The attributes after their condition, as `b, c = "d"` in `cfg_attr(a, b, c = "d")`.
#[tactic(auto, using(rap_grammar_frame::proofs::Loops::turns), unfolding(rap_grammar_scripts::specs::Attributes::cfg_attr_metas))]
fn cfg_attr_metas<G: Grammar>(p: &mut Parser<'_>, g: &G) -> Result<(), NoMemory>
    requires behind { Behind G.valid G.left g.now p.old }
    ensures script { OnOk result (Executes (G.left g.now) script.cfg_attr_metas p.old p.new) }
{
    'metas: while !p.at(T![')']) && !p.at(SyntaxKind::EOF) {
        g.run(p, Rule::Meta)?;
        if !p.eat(T![,])? {
            return Ok(());
        }
    }
    Ok(())
}

/// An attribute that holds if a condition does, as `cfg(a)`.
fn cfg_meta<G: Grammar>(p: &mut Parser<'_>, g: &G) -> Result<(), NoMemory>
    requires within { Within G.valid G.left g.now p.old }
    requires here { holds (at_called_kw CFG_KW) (state p.old).rest ≡ true }
    ensures script { OnOk result (Executes (G.left g.now) script.cfg_meta p.old p.new) }
{
    let m = p.start()?;
    p.bump_remap(T![cfg])?;
    p.bump(T!['('])?;
    cfg_predicate(p, g)?;
    p.eat(T![,])?;
    p.expect(T![')'])?;
    m.complete(p, SyntaxKind::CFG_META)?;
    Ok(())
}

/// Whether a condition begins with a token of this kind.
fn is_cfg_predicate_first(kind: SyntaxKind) -> bool
    ensures { result ≡ is_cfg_predicate_first kind }
{
    matches!(kind, T![true] | T![false] | T![ident])
}

/// Whether a kind is `true` or `false`.
fn is_bool(kind: SyntaxKind) -> bool
    ensures { result ≡ one_of (TRUE_KW ∷ FALSE_KW ∷ []) kind }
{
    matches!(kind, T![true] | T![false])
}

/// A condition in another.
struct CfgOperand;

impl Element for CfgOperand {
    ghost use Rattle.rap_grammar_scripts.specs.ThroughKnot as through_knot_script;
    ghost use Rattle.rap_grammar_scripts.specs.First as first_script;

    ghost element = { λ _. through_knot_script.cfg_predicate_element };

    ghost first = { λ _. first_script.is_cfg_predicate_first };

    #[tactic(auto, unfolding(rap_grammar_scripts::specs::ThroughKnot::cfg_predicate_element))]
    fn parse<G: Grammar>(&self, p: &mut Parser<'_>, g: &G) -> Result<bool, NoMemory> {
        if !is_cfg_predicate_first(p.current()) {
            return Ok(false);
        }
        g.run(p, Rule::CfgPredicate)?;
        Ok(true)
    }

    fn is_first(&self, kind: SyntaxKind) -> bool {
        is_cfg_predicate_first(kind)
    }
}

/// A condition, as `true`, `a`, `a = "b"` and `any(a, not(b))`.
#[tactic(auto, using(rap_grammar_facts::proofs::Attributes::grew_cfg_value), unfolding(rap_grammar_scripts::specs::Attributes::cfg_predicate))]
pub fn cfg_predicate<G: Grammar>(p: &mut Parser<'_>, g: &G) -> Result<(), NoMemory>
    requires within { Within G.valid G.left g.now p.old }
    ensures parsed { OnOk result (Parsed is_cfg_predicate_first 8 element_room (state p.old) (state p.new)) }
    ensures script { OnOk result (Executes (G.left g.now) script.cfg_predicate p.old p.new) }
{
    let m = p.start()?;
    if is_bool(p.current()) {
        p.bump_any()?;
        m.complete(p, SyntaxKind::CFG_ATOM)?;
        return Ok(());
    }
    p.expect(T![ident])?;
    if p.eat(T![=])? {
        cfg_value(p)?;
        m.complete(p, SyntaxKind::CFG_ATOM)?;
        return Ok(());
    }
    if p.at(T!['(']) {
        cfg_operands(p, g)?;
        m.complete(p, SyntaxKind::CFG_COMPOSITE)?;
        return Ok(());
    }
    m.complete(p, SyntaxKind::CFG_ATOM)?;
    Ok(())
}

/// What a condition's name is compared with, as `"b"` in `a = "b"`.
#[tactic(auto, unfolding(rap_grammar_scripts::specs::Attributes::cfg_value))]
fn cfg_value(p: &mut Parser<'_>) -> Result<(), NoMemory>
    ensures script { OnOk result (ExecutesAlone script.cfg_value p.old p.new) }
{
    if p.at(T![ident]) {
        p.err_and_bump("expected a string literal")?;
        return Ok(());
    }
    p.expect(T![string])?;
    Ok(())
}

/// The conditions in the brackets of another, as `(a, b)` in `all(a, b)`.
fn cfg_operands<G: Grammar>(p: &mut Parser<'_>, g: &G) -> Result<(), NoMemory>
    requires within { Within G.valid G.left g.now p.old }
    requires here { At (state p.old) L_PAREN }
    ensures took { OnOk result (Took (state p.old) (state p.new) list_room) }
    ensures script { OnOk result (Executes (G.left g.now) script.cfg_operands p.old p.new) }
{
    delimited(
        p,
        g,
        T!['('],
        T![')'],
        T![,],
        "expected a cfg predicate",
        &CfgOperand,
    )?;
    Ok(())
}

/// Whether an attribute's value comes next: a `=` that begins no other operator.
fn is_value_start(p: &Parser<'_>) -> bool
    ensures { result ≡ holds is_value_start (state p.now).rest }
{
    p.at(T![=]) && !p.at(T![=>]) && !p.at(T![==])
}

/// An attribute by its path, as `a::b`, `a = "b"` and `a(b)`.
#[tactic(auto, using(rap_grammar_frame::proofs::Done::less_left, rap_grammar_frame::proofs::Done::marker_kept, rap_grammar_facts::proofs::Paths::level_attr_path, rap_grammar_facts::proofs::Attributes::level_attr_value), unfolding(rap_grammar_scripts::specs::Attributes::path_meta))]
fn path_meta<G: Grammar>(p: &mut Parser<'_>, g: &G) -> Result<(), NoMemory>
    requires within { Within G.valid G.left g.now p.old }
    ensures script { OnOk result (Executes (G.left g.now) script.path_meta p.old p.new) }
{
    let m = p.start()?;
    attr_path(p, g)?;
    if is_value_start(p) {
        attr_value(p, g)?;
        m.complete(p, SyntaxKind::KEY_VALUE_META)?;
        return Ok(());
    }
    if is_bracket(p.current()) {
        token_tree(p)?;
        m.complete(p, SyntaxKind::TOKEN_TREE_META)?;
        return Ok(());
    }
    m.complete(p, SyntaxKind::PATH_META)?;
    Ok(())
}

/// An attribute's value, as `= "b"` in `#[a = "b"]`.
#[tactic(auto, unfolding(rap_grammar_scripts::specs::Attributes::attr_value))]
fn attr_value<G: Grammar>(p: &mut Parser<'_>, g: &G) -> Result<(), NoMemory>
    requires within { Within G.valid G.left g.now p.old }
    requires here { At (state p.old) EQ }
    ensures script { OnOk result (Executes (G.left g.now) script.attr_value p.old p.new) }
{
    p.bump(T![=])?;
    if expr(p, g)?.is_none() {
        p.error("expected expression")?;
        return Ok(());
    }
    Ok(())
}
