//! Record literals.
//! In the Rust crate: `grammar/expressions.rs`.
ghost use Rattle.std.specs.Prelude.{◌≡◌, ◌≢◌, ◌<◌, ◌≤◌, OnOk, Some, true};
ghost use Rattle.rap_base.specs.NodeKind.{RECORD_EXPR_FIELD_LIST};
ghost use Rattle.rap_base.specs.TokenKind.{EOF, L_CURLY};
ghost use Rattle.rap_events.specs.Forest.{node};
ghost use Rattle.rap_events.specs.State.{state, last_children, next};
ghost use Rattle.rap_grammar_frame.specs.Grew.{Within, Behind};
ghost use Rattle.rap_grammar_scripts.specs.Exec.{Executes};
ghost use Rattle.rap_grammar_facts.specs.Alone.{ExecutesAlone};
ghost use Rattle.rap_grammar_scripts.specs.Records as script;
ghost use Rattle.rap_grammar_scripts.specs.Records.{is_field_name};

use rap_base::T;
use rap_base::no_memory::NoMemory;
use rap_base::syntax_kind::SyntaxKind;
use rap_events::parser::{Marker, Parser};
use rap_grammar_attributes::attributes::outer_attrs;
use rap_grammar_expressions_blocks::blocks::error_block;
use rap_grammar_frame::knot::Grammar;
use rap_grammar_frame::names::name_ref_or_index;
use rap_grammar_frame::through_knot::expr;

/// The fields of a record in their braces, as `{ a: b, ..c }`.
#[tactic(auto, using(rap_grammar_facts::proofs::Records::facts), unfolding(rap_grammar_scripts::specs::Records::record_expr_field_list))]
pub fn record_expr_field_list<G: Grammar>(p: &mut Parser<'_>, g: &G) -> Result<(), NoMemory>
    requires within { Within G.valid G.left g.now p.old }
    requires here { next (state p.old) ≡ L_CURLY }
    ensures one { OnOk result
        ((state p.new).forest ≡ node (state p.old).forest RECORD_EXPR_FIELD_LIST (last_children (state p.new).forest)) }
    ensures script { OnOk result (Executes (G.left g.now) script.record_expr_field_list p.old p.new) }
{
    let m = p.start()?;
    p.bump(T!['{'])?;
    record_fields(p, g)?;
    p.expect(T!['}'])?;
    m.complete(p, SyntaxKind::RECORD_EXPR_FIELD_LIST)?;
    Ok(())
}

/// The fields of a record, up to the brace that closes it.
#[tactic(auto, using(rap_grammar_facts::proofs::Records::facts, rap_grammar_frame::proofs::Loops::turns), unfolding(rap_grammar_scripts::specs::Records::record_fields))]
fn record_fields<G: Grammar>(p: &mut Parser<'_>, g: &G) -> Result<(), NoMemory>
    requires behind { Behind G.valid G.left g.now p.old }
    ensures script { OnOk result (Executes (G.left g.now) script.record_fields p.old p.new) }
{
    'fields: while !p.at(SyntaxKind::EOF) && !p.at(T!['}']) {
        record_field(p, g)?;
        if !p.at(T!['}']) {
            p.expect(T![,])?;
        }
    }
    Ok(())
}

/// A field with its attributes, as `#[a] b: c`.
#[tactic(auto, using(rap_grammar_facts::proofs::Records::facts), unfolding(rap_grammar_scripts::specs::Records::record_field))]
fn record_field<G: Grammar>(p: &mut Parser<'_>, g: &G) -> Result<(), NoMemory>
    requires behind { Behind G.valid G.left g.now p.old }
    ensures script { OnOk result (Executes (G.left g.now) script.record_field p.old p.new) }
{
    let m = p.start()?;
    outer_attrs(p, g)?;
    marked_field(p, g, m)?;
    Ok(())
}

/// Whether a kind is a field's name or number.
fn is_field_name(kind: SyntaxKind) -> bool
    ensures { result ≡ is_field_name kind }
{
    matches!(kind, T![ident] | T![int_number])
}

/// A field from its marker on, or the base of a record, as `..c`.
#[tactic(auto, using(rap_grammar_facts::proofs::Records::facts), unfolding(rap_grammar_scripts::specs::Records::marked_field))]
fn marked_field<G: Grammar>(p: &mut Parser<'_>, g: &G, m: Marker) -> Result<(), NoMemory>
    requires behind { Behind G.valid G.left g.now p.old }
    requires newest { (state p.old).marker ≡ Some m.pos.value }
    ensures script { OnOk result (Executes (G.left g.now) script.marked_field p.old p.new) }
{
    if is_field_name(p.current()) {
        named_field(p, g, m)?;
        return Ok(());
    }
    if p.at(T![..]) {
        m.abandon(p)?;
        p.bump(T![..])?;
        base_of_record(p, g)?;
        return Ok(());
    }
    if p.at(T!['{']) {
        error_block(p, g, "expected a field")?;
        m.abandon(p)?;
        return Ok(());
    }
    p.err_and_bump("expected identifier")?;
    m.abandon(p)?;
    Ok(())
}

/// A field that begins with a name, from its marker on, as `a: b`, `a` and `0: b`.
#[tactic(auto, using(rap_grammar_facts::proofs::Records::facts), unfolding(rap_grammar_scripts::specs::Records::named_field))]
fn named_field<G: Grammar>(p: &mut Parser<'_>, g: &G, m: Marker) -> Result<(), NoMemory>
    requires behind { Behind G.valid G.left g.now p.old }
    requires newest { (state p.old).marker ≡ Some m.pos.value }
    requires name { is_field_name (next (state p.old)) ≡ true }
    ensures script { OnOk result (Executes (G.left g.now) script.named_field p.old p.new) }
{
    if p.nth_at(1, T![::]) {
        base_without_dots(p, g, m)?;
        return Ok(());
    }
    if p.nth_at(1, T![..]) {
        name_ref_or_index(p)?;
        p.error("expected `:`")?;
        m.complete(p, SyntaxKind::RECORD_EXPR_FIELD)?;
        return Ok(());
    }
    field_name(p)?;
    expr(p, g)?;
    m.complete(p, SyntaxKind::RECORD_EXPR_FIELD)?;
    Ok(())
}

/// The base of a record whose dots are missing, as `a::b()`.
#[tactic(auto, using(rap_grammar_frame::proofs::Steps::by_report), unfolding(rap_grammar_scripts::specs::Records::base_without_dots))]
fn base_without_dots<G: Grammar>(p: &mut Parser<'_>, g: &G, m: Marker) -> Result<(), NoMemory>
    requires behind { Behind G.valid G.left g.now p.old }
    requires newest { (state p.old).marker ≡ Some m.pos.value }
    ensures script { OnOk result (Executes (G.left g.now) script.base_without_dots p.old p.new) }
{
    m.abandon(p)?;
    p.expect(T![..])?;
    expr(p, g)?;
    Ok(())
}

/// A field's name and the colon after it, as `a:`. Where no colon follows, the name is the value too.
#[tactic(auto, unfolding(rap_grammar_scripts::specs::Records::field_name))]
fn field_name(p: &mut Parser<'_>) -> Result<(), NoMemory>
    requires more { next (state p.old) ≢ EOF }
    ensures script { OnOk result (ExecutesAlone script.field_name p.old p.new) }
{
    if p.nth_at(1, T![:]) {
        name_ref_or_index(p)?;
        p.bump(T![:])?;
        return Ok(());
    }
    if p.nth_at(1, T![=]) {
        name_ref_or_index(p)?;
        p.err_and_bump("expected `:`")?;
        return Ok(());
    }
    Ok(())
}

/// What stands after the dots of the base: nothing in `S { .. }`.
#[tactic(auto, unfolding(rap_grammar_scripts::specs::Records::base_of_record))]
fn base_of_record<G: Grammar>(p: &mut Parser<'_>, g: &G) -> Result<(), NoMemory>
    requires behind { Behind G.valid G.left g.now p.old }
    ensures script { OnOk result (Executes (G.left g.now) script.base_of_record p.old p.new) }
{
    if p.at(T!['}']) {
        return Ok(());
    }
    expr(p, g)?;
    if !p.at(T![,]) {
        return Ok(());
    }
    p.error("cannot use a comma after the base struct")?;
    Ok(())
}
