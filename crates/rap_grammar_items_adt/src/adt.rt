//! Structs, unions and enums.
ghost use Rattle.std.specs.Prelude.{◌≡◌, ◌<◌, ◌≤◌, IfOk, OnOk, Some, true, false, ℕ};
ghost use Rattle.rap_base.specs.NodeKind.{VARIANT_LIST, RECORD_FIELD_LIST};
ghost use Rattle.rap_base.specs.TokenKind.{STRUCT_KW, ENUM_KW, UNION_KW, MUT_KW, L_CURLY, L_PAREN};
ghost use Rattle.rap_events.specs.Forest.{node};
ghost use Rattle.rap_events.specs.State.{state, last_children, next, ReadsAs};
ghost use Rattle.rap_grammar_scripts.specs.Adt as script;
ghost use Rattle.rap_grammar_scripts.specs.Adt.{is_mut_restriction_start};
ghost use Rattle.rap_grammar_frame.specs.Grew.{Within, Behind};
ghost use Rattle.rap_grammar_scripts.specs.Exec.{Does, Executes};
ghost use Rattle.rap_grammar_facts.specs.Alone.{ExecutesAlone};
ghost use Rattle.rap_grammar_scripts.specs.Test.{holds};
ghost use Rattle.rap_grammar_scripts.specs.Words.{of_bool};

use rap_base::T;
use rap_base::no_memory::NoMemory;
use rap_base::syntax_kind::SyntaxKind;
use rap_events::parser::{Marker, Parser};
use rap_grammar_attributes::attributes::outer_attrs;
use rap_grammar_expressions_blocks::blocks::error_block;
use rap_grammar_frame::first::{is_outer_attr_first, is_type_first};
use rap_grammar_frame::item_names::item_name;
use rap_grammar_frame::knot::Grammar;
use rap_grammar_frame::lists::{Element, delimited};
use rap_grammar_frame::names::name;
use rap_grammar_frame::through_knot::{expr, opt_generic_param_list, opt_where_clause, type_};
use rap_grammar_paths::visibility::{opt_visibility, opt_visibility_inner};

/// A struct from its keyword on, as `struct S;`.
#[tactic(auto, using(rap_grammar_frame::proofs::Done::marker_kept, rap_grammar_facts::proofs::Adt::level_struct_or_union), unfolding(rap_grammar_scripts::specs::Adt::strukt))]
pub fn strukt<G: Grammar>(p: &mut Parser<'_>, g: &G, m: Marker) -> Result<(), NoMemory>
    requires within { Within G.valid G.left g.now p.old }
    requires newest { (state p.old).marker ≡ Some m.pos.value }
    requires here { next (state p.old) ≡ STRUCT_KW }
    ensures script { OnOk result (Executes (G.left g.now) script.strukt p.old p.new) }
{
    p.bump(T![struct])?;
    struct_or_union(p, g, true)?;
    m.complete(p, SyntaxKind::STRUCT)?;
    Ok(())
}

/// A union from its keyword on, as `union U { a: b }`.
#[tactic(auto, using(rap_grammar_frame::proofs::Done::marker_kept, rap_grammar_facts::proofs::Adt::level_struct_or_union), unfolding(rap_grammar_scripts::specs::Adt::union))]
pub fn union<G: Grammar>(p: &mut Parser<'_>, g: &G, m: Marker) -> Result<(), NoMemory>
    requires within { Within G.valid G.left g.now p.old }
    requires newest { (state p.old).marker ≡ Some m.pos.value }
    requires here { ReadsAs (state p.old) UNION_KW }
    ensures script { OnOk result (Executes (G.left g.now) script.union p.old p.new) }
{
    p.bump_remap(T![union])?;
    struct_or_union(p, g, false)?;
    m.complete(p, SyntaxKind::UNION)?;
    Ok(())
}

/// A struct or a union from its name on.
#[tactic(auto, unfolding(rap_grammar_scripts::specs::Adt::struct_or_union))]
fn struct_or_union<G: Grammar>(p: &mut Parser<'_>, g: &G, is_struct: bool) -> Result<(), NoMemory>
    requires behind { Behind G.valid G.left g.now p.old }
    ensures script { OnOk result (Executes (G.left g.now) (script.struct_or_union is_struct) p.old p.new) }
{
    item_name(p)?;
    opt_generic_param_list(p, g)?;
    fields(p, g, is_struct)?;
    Ok(())
}

/// The fields of a struct or a union, and its `where`.
#[tactic(auto, unfolding(rap_grammar_scripts::specs::Adt::fields))]
fn fields<G: Grammar>(p: &mut Parser<'_>, g: &G, is_struct: bool) -> Result<(), NoMemory>
    requires behind { Behind G.valid G.left g.now p.old }
    ensures script { OnOk result (Executes (G.left g.now) (script.fields is_struct) p.old p.new) }
{
    if p.at(T![where]) {
        fields_behind_where(p, g)?;
        return Ok(());
    }
    if p.at(T!['{']) {
        record_field_list(p, g)?;
        return Ok(());
    }
    if is_struct {
        struct_fields(p, g)?;
        return Ok(());
    }
    p.error("expected `{`")?;
    Ok(())
}

/// A `where`, and the fields after it.
#[tactic(auto, unfolding(rap_grammar_scripts::specs::Adt::fields_behind_where))]
fn fields_behind_where<G: Grammar>(p: &mut Parser<'_>, g: &G) -> Result<(), NoMemory>
    requires behind { Behind G.valid G.left g.now p.old }
    ensures script { OnOk result (Executes (G.left g.now) script.fields_behind_where p.old p.new) }
{
    opt_where_clause(p, g)?;
    if p.eat(T![;])? {
        return Ok(());
    }
    if p.at(T!['{']) {
        record_field_list(p, g)?;
        return Ok(());
    }
    p.error("expected `;` or `{`")?;
    Ok(())
}

/// What only a struct may have in place of named fields: none, or fields in parentheses.
#[tactic(auto, unfolding(rap_grammar_scripts::specs::Adt::struct_fields))]
fn struct_fields<G: Grammar>(p: &mut Parser<'_>, g: &G) -> Result<(), NoMemory>
    requires behind { Behind G.valid G.left g.now p.old }
    ensures script { OnOk result (Executes (G.left g.now) script.struct_fields p.old p.new) }
{
    if p.eat(T![;])? {
        return Ok(());
    }
    if p.at(T!['(']) {
        tuple_fields(p, g)?;
        return Ok(());
    }
    p.error("expected `;`, `{`, or `(`")?;
    Ok(())
}

/// Fields in parentheses, and what stands after them.
#[tactic(auto, using(rap_grammar_facts::proofs::Adt::moved_tuple_field_list), unfolding(rap_grammar_scripts::specs::Adt::tuple_fields))]
fn tuple_fields<G: Grammar>(p: &mut Parser<'_>, g: &G) -> Result<(), NoMemory>
    requires within { Within G.valid G.left g.now p.old }
    requires here { next (state p.old) ≡ L_PAREN }
    ensures script { OnOk result (Executes (G.left g.now) script.tuple_fields p.old p.new) }
{
    tuple_field_list(p, g)?;
    opt_where_clause(p, g)?;
    p.expect(T![;])?;
    Ok(())
}

/// An enum from its keyword on, as `enum E { A }`.
#[tactic(auto, using(rap_grammar_frame::proofs::Done::marker_kept, rap_grammar_facts::proofs::Adt::level_variant_list), unfolding(rap_grammar_scripts::specs::Adt::enum_))]
pub fn enum_<G: Grammar>(p: &mut Parser<'_>, g: &G, m: Marker) -> Result<(), NoMemory>
    requires within { Within G.valid G.left g.now p.old }
    requires newest { (state p.old).marker ≡ Some m.pos.value }
    requires here { next (state p.old) ≡ ENUM_KW }
    ensures script { OnOk result (Executes (G.left g.now) script.enum_ p.old p.new) }
{
    p.bump(T![enum])?;
    item_name(p)?;
    opt_generic_param_list(p, g)?;
    opt_where_clause(p, g)?;
    if p.at(T!['{']) {
        variant_list(p, g)?;
        m.complete(p, SyntaxKind::ENUM)?;
        return Ok(());
    }
    p.error("expected `{`")?;
    m.complete(p, SyntaxKind::ENUM)?;
    Ok(())
}

/// The variants of an enum in their braces.
#[tactic(auto, using(rap_grammar_frame::proofs::Done::marker_kept, rap_grammar_frame::proofs::Ended::below_kept, rap_grammar_facts::proofs::Adt::level_variants), unfolding(rap_grammar_scripts::specs::Adt::variant_list))]
pub fn variant_list<G: Grammar>(p: &mut Parser<'_>, g: &G) -> Result<(), NoMemory>
    requires within { Within G.valid G.left g.now p.old }
    requires here { next (state p.old) ≡ L_CURLY }
    ensures one { OnOk result
        ((state p.new).forest ≡ node (state p.old).forest VARIANT_LIST (last_children (state p.new).forest)) }
    ensures script { OnOk result (Executes (G.left g.now) script.variant_list p.old p.new) }
{
    let m = p.start()?;
    p.bump(T!['{'])?;
    variants(p, g)?;
    p.expect(T!['}'])?;
    m.complete(p, SyntaxKind::VARIANT_LIST)?;
    Ok(())
}

/// Variants up to the brace that closes their list.
#[tactic(auto, using(rap_grammar_frame::proofs::Loops::turns, rap_grammar_frame::proofs::Done::less_left, rap_grammar_facts::proofs::Adt::inside_variant_or_block), unfolding(rap_grammar_scripts::specs::Adt::variants))]
fn variants<G: Grammar>(p: &mut Parser<'_>, g: &G) -> Result<(), NoMemory>
    requires behind { Behind G.valid G.left g.now p.old }
    ensures script { OnOk result (Executes (G.left g.now) script.variants p.old p.new) }
{
    'variants: while !p.at(SyntaxKind::EOF) && !p.at(T!['}']) {
        variant_or_block(p, g)?;
    }
    Ok(())
}

/// A variant, with the comma after it. A block in its place is reported.
#[tactic(auto, unfolding(rap_grammar_scripts::specs::Adt::variant_or_block))]
fn variant_or_block<G: Grammar>(p: &mut Parser<'_>, g: &G) -> Result<(), NoMemory>
    requires behind { Behind G.valid G.left g.now p.old }
    ensures script { OnOk result (Executes (G.left g.now) script.variant_or_block p.old p.new) }
{
    if p.at(T!['{']) {
        error_block(p, g, "expected enum variant")?;
        return Ok(());
    }
    variant(p, g)?;
    comma_in_braces(p)?;
    Ok(())
}

/// The comma in braces, before another field or variant and after it.
#[tactic(auto, unfolding(rap_grammar_scripts::specs::Adt::comma_in_braces))]
fn comma_in_braces(p: &mut Parser<'_>) -> Result<(), NoMemory>
    ensures script { OnOk result (ExecutesAlone script.comma_in_braces p.old p.new) }
{
    if p.at(T!['}']) {
        return Ok(());
    }
    p.expect(T![,])?;
    Ok(())
}

/// A variant with its attributes, as `#[a] A(b) = 1`.
#[tactic(auto, unfolding(rap_grammar_scripts::specs::Adt::variant))]
fn variant<G: Grammar>(p: &mut Parser<'_>, g: &G) -> Result<(), NoMemory>
    requires behind { Behind G.valid G.left g.now p.old }
    ensures script { OnOk result (Executes (G.left g.now) script.variant p.old p.new) }
{
    let m = p.start()?;
    outer_attrs(p, g)?;
    named_variant(p, g, m)?;
    Ok(())
}

/// A variant from its name on, with the marker that was opened before.
#[tactic(auto, unfolding(rap_grammar_scripts::specs::Adt::named_variant))]
fn named_variant<G: Grammar>(p: &mut Parser<'_>, g: &G, m: Marker) -> Result<(), NoMemory>
    requires behind { Behind G.valid G.left g.now p.old }
    requires newest { (state p.old).marker ≡ Some m.pos.value }
    ensures script { OnOk result (Executes (G.left g.now) script.named_variant p.old p.new) }
{
    if p.at(T![ident]) {
        name(p)?;
        after_variant_name(p, g, m)?;
        return Ok(());
    }
    if p.eat(T![_])? {
        after_variant_name(p, g, m)?;
        return Ok(());
    }
    m.abandon(p)?;
    missing_in_list(p, "expected enum variant")?;
    Ok(())
}

/// A field or a variant is missing. The next token is skipped too, unless the list ends there.
#[tactic(auto, unfolding(rap_grammar_scripts::specs::Adt::missing_in_list))]
fn missing_in_list(p: &mut Parser<'_>, message: &str) -> Result<(), NoMemory>
    ensures script { OnOk result (ExecutesAlone (script.missing_in_list message.now) p.old p.new) }
{
    if p.at(T!['}']) {
        p.error(message)?;
        return Ok(());
    }
    p.err_and_bump(message)?;
    Ok(())
}

/// What stands after a variant's name: its fields and its value.
#[tactic(auto, using(rap_grammar_frame::proofs::Done::less_left, rap_grammar_frame::proofs::Done::marker_kept, rap_grammar_facts::proofs::Adt::level_variant_fields, rap_grammar_facts::proofs::Adt::level_opt_value), unfolding(rap_grammar_scripts::specs::Adt::after_variant_name))]
fn after_variant_name<G: Grammar>(p: &mut Parser<'_>, g: &G, m: Marker) -> Result<(), NoMemory>
    requires behind { Behind G.valid G.left g.now p.old }
    requires newest { (state p.old).marker ≡ Some m.pos.value }
    ensures script { OnOk result (Executes (G.left g.now) script.after_variant_name p.old p.new) }
{
    variant_fields(p, g)?;
    opt_value(p, g)?;
    m.complete(p, SyntaxKind::VARIANT)?;
    Ok(())
}

/// The fields of a variant, if it has any.
#[tactic(auto, unfolding(rap_grammar_scripts::specs::Adt::variant_fields))]
fn variant_fields<G: Grammar>(p: &mut Parser<'_>, g: &G) -> Result<(), NoMemory>
    requires behind { Behind G.valid G.left g.now p.old }
    ensures script { OnOk result (Executes (G.left g.now) script.variant_fields p.old p.new) }
{
    if p.at(T!['{']) {
        record_field_list(p, g)?;
        return Ok(());
    }
    if p.at(T!['(']) {
        tuple_field_list(p, g)?;
        return Ok(());
    }
    Ok(())
}

/// The value of a field or a variant, as `= 1`, if it has one.
#[tactic(auto, unfolding(rap_grammar_scripts::specs::Adt::opt_value))]
fn opt_value<G: Grammar>(p: &mut Parser<'_>, g: &G) -> Result<(), NoMemory>
    requires within { Within G.valid G.left g.now p.old }
    ensures script { OnOk result (Executes (G.left g.now) script.opt_value p.old p.new) }
{
    if !p.eat(T![=])? {
        return Ok(());
    }
    let m = p.start()?;
    expr(p, g)?;
    m.complete(p, SyntaxKind::CONST_ARG)?;
    Ok(())
}

/// Named fields in their braces, as `{ a: b, c: d }`.
#[tactic(auto, using(rap_grammar_frame::proofs::Done::marker_kept, rap_grammar_frame::proofs::Ended::below_kept, rap_grammar_facts::proofs::Adt::level_record_fields), unfolding(rap_grammar_scripts::specs::Adt::record_field_list))]
pub fn record_field_list<G: Grammar>(p: &mut Parser<'_>, g: &G) -> Result<(), NoMemory>
    requires within { Within G.valid G.left g.now p.old }
    requires here { next (state p.old) ≡ L_CURLY }
    ensures one { OnOk result
        ((state p.new).forest ≡ node (state p.old).forest RECORD_FIELD_LIST (last_children (state p.new).forest)) }
    ensures script { OnOk result (Executes (G.left g.now) script.record_field_list p.old p.new) }
{
    let m = p.start()?;
    p.bump(T!['{'])?;
    record_fields(p, g)?;
    p.expect(T!['}'])?;
    m.complete(p, SyntaxKind::RECORD_FIELD_LIST)?;
    Ok(())
}

/// Named fields up to the brace that closes their list.
#[tactic(auto, using(rap_grammar_frame::proofs::Loops::turns, rap_grammar_frame::proofs::Done::less_left, rap_grammar_facts::proofs::Adt::inside_field_or_block), unfolding(rap_grammar_scripts::specs::Adt::record_fields))]
fn record_fields<G: Grammar>(p: &mut Parser<'_>, g: &G) -> Result<(), NoMemory>
    requires behind { Behind G.valid G.left g.now p.old }
    ensures script { OnOk result (Executes (G.left g.now) script.record_fields p.old p.new) }
{
    'fields: while !p.at(T!['}']) && !p.at(SyntaxKind::EOF) {
        field_or_block(p, g)?;
    }
    Ok(())
}

/// A named field, with the comma after it. A block in its place is reported.
#[tactic(auto, unfolding(rap_grammar_scripts::specs::Adt::field_or_block))]
fn field_or_block<G: Grammar>(p: &mut Parser<'_>, g: &G) -> Result<(), NoMemory>
    requires behind { Behind G.valid G.left g.now p.old }
    ensures script { OnOk result (Executes (G.left g.now) script.field_or_block p.old p.new) }
{
    if p.at(T!['{']) {
        error_block(p, g, "expected field")?;
        return Ok(());
    }
    record_field(p, g)?;
    comma_in_braces(p)?;
    Ok(())
}

/// A field with its attributes, as `#[a] pub b: c = 1`.
#[tactic(auto, unfolding(rap_grammar_scripts::specs::Adt::record_field))]
fn record_field<G: Grammar>(p: &mut Parser<'_>, g: &G) -> Result<(), NoMemory>
    requires behind { Behind G.valid G.left g.now p.old }
    ensures script { OnOk result (Executes (G.left g.now) script.record_field p.old p.new) }
{
    let m = p.start()?;
    outer_attrs(p, g)?;
    visible_field(p, g, m)?;
    Ok(())
}

/// A field from its visibility on, with the marker that was opened before.
#[tactic(auto, unfolding(rap_grammar_scripts::specs::Adt::visible_field))]
fn visible_field<G: Grammar>(p: &mut Parser<'_>, g: &G, m: Marker) -> Result<(), NoMemory>
    requires behind { Behind G.valid G.left g.now p.old }
    requires newest { (state p.old).marker ≡ Some m.pos.value }
    ensures script { OnOk result (Executes (G.left g.now) script.visible_field p.old p.new) }
{
    opt_visibility(p, g, false)?;
    restricted_field(p, g, m)?;
    Ok(())
}

/// A field from its `mut` restriction on, which may stand before `unsafe` and after it.
#[tactic(auto, using(rap_grammar_frame::proofs::Done::less_left, rap_grammar_frame::proofs::Done::marker_kept, rap_grammar_facts::proofs::Adt::level_opt_mut_restriction, rap_grammar_facts::proofs::Adt::level_opt_unsafe), unfolding(rap_grammar_scripts::specs::Adt::restricted_field))]
fn restricted_field<G: Grammar>(p: &mut Parser<'_>, g: &G, m: Marker) -> Result<(), NoMemory>
    requires behind { Behind G.valid G.left g.now p.old }
    requires newest { (state p.old).marker ≡ Some m.pos.value }
    ensures script { OnOk result (Executes (G.left g.now) script.restricted_field p.old p.new) }
{
    opt_mut_restriction(p, g)?;
    opt_unsafe(p, g)?;
    named_field(p, g, m)?;
    Ok(())
}

/// A field from its name on.
#[tactic(auto, using(rap_grammar_frame::proofs::Done::marker_kept, rap_grammar_facts::proofs::Adt::level_opt_value))]
fn named_field<G: Grammar>(p: &mut Parser<'_>, g: &G, m: Marker) -> Result<(), NoMemory>
    requires behind { Behind G.valid G.left g.now p.old }
    requires newest { (state p.old).marker ≡ Some m.pos.value }
    ensures script { OnOk result (Executes (G.left g.now) script.named_field p.old p.new) }
{
    if p.at(T![ident]) {
        name(p)?;
        p.expect(T![:])?;
        type_(p, g)?;
        opt_value(p, g)?;
        m.complete(p, SyntaxKind::RECORD_FIELD)?;
        return Ok(());
    }
    m.abandon(p)?;
    missing_in_list(p, "expected field declaration")?;
    Ok(())
}

/// The `unsafe` and the `mut` restriction before a field, if they are there.
#[tactic(auto, unfolding(rap_grammar_scripts::specs::Adt::opt_unsafe))]
fn opt_unsafe<G: Grammar>(p: &mut Parser<'_>, g: &G) -> Result<(), NoMemory>
    requires within { Within G.valid G.left g.now p.old }
    ensures script { OnOk result (Executes (G.left g.now) script.opt_unsafe p.old p.new) }
{
    if !p.eat(T![unsafe])? {
        return Ok(());
    }
    opt_mut_restriction(p, g)?;
    Ok(())
}

/// Whether a `mut` restriction comes next.
fn is_mut_restriction_start(p: &Parser<'_>) -> bool
    ensures starts { result ≡ holds is_mut_restriction_start (state p.now).rest }
    ensures here { result ≡ true → next (state p.now) ≡ MUT_KW }
{
    p.at(T![mut]) && p.nth(1) == T!['(']
}

/// The `mut` restriction of a field, as `mut(crate)`, if there is one.
#[tactic(auto, unfolding(rap_grammar_scripts::specs::Adt::opt_mut_restriction))]
fn opt_mut_restriction<G: Grammar>(p: &mut Parser<'_>, g: &G) -> Result<(), NoMemory>
    requires within { Within G.valid G.left g.now p.old }
    ensures script { OnOk result (Executes (G.left g.now) script.opt_mut_restriction p.old p.new) }
{
    if is_mut_restriction_start(p) {
        mut_restriction(p, g)?;
    }
    Ok(())
}

/// The `mut` restriction of a field.
#[tactic(auto, unfolding(rap_grammar_scripts::specs::Adt::mut_restriction))]
fn mut_restriction<G: Grammar>(p: &mut Parser<'_>, g: &G) -> Result<(), NoMemory>
    requires within { Within G.valid G.left g.now p.old }
    requires here { next (state p.old) ≡ MUT_KW }
    ensures script { OnOk result (Executes (G.left g.now) script.mut_restriction p.old p.new) }
{
    let m = p.start()?;
    p.bump(T![mut])?;
    if opt_visibility_inner(p, g, false)? {
        m.complete(p, SyntaxKind::MUT_RESTRICTION)?;
        return Ok(());
    }
    p.error("expected a mut restriction")?;
    m.complete(p, SyntaxKind::MUT_RESTRICTION)?;
    Ok(())
}

/// Fields without names in their parentheses, as `(a, pub b)`.
#[tactic(auto, unfolding(rap_grammar_scripts::specs::Adt::tuple_field_list))]
fn tuple_field_list<G: Grammar>(p: &mut Parser<'_>, g: &G) -> Result<(), NoMemory>
    requires within { Within G.valid G.left g.now p.old }
    requires here { next (state p.old) ≡ L_PAREN }
    ensures script { OnOk result (Executes (G.left g.now) script.tuple_field_list p.old p.new) }
{
    let m = p.start()?;
    delimited(
        p,
        g,
        T!['('],
        T![')'],
        T![,],
        "expected tuple field",
        &TupleField,
    )?;
    m.complete(p, SyntaxKind::TUPLE_FIELD_LIST)?;
    Ok(())
}

/// A field without a name.
struct TupleField;

impl Element for TupleField {
    ghost element = { λ _. script.tuple_field };

    ghost first = { λ _. script.is_tuple_field_first };

    #[tactic(auto, using(rap_grammar_facts::proofs::Adt::took_on_tuple_field, rap_grammar_facts::proofs::Adt::grew_tuple_field))]
    fn parse<G: Grammar>(&self, p: &mut Parser<'_>, g: &G) -> Result<bool, NoMemory> {
        let found = tuple_field(p, g)?;
        Ok(found)
    }

    fn is_first(&self, kind: SyntaxKind) -> bool {
        is_type_first(kind) || is_outer_attr_first(kind) || kind == T![pub]
    }
}

/// A field without a name, as `#[a] pub b`. Returns whether there is one.
#[inline(always)]
#[tactic(auto, unfolding(rap_grammar_scripts::specs::Adt::tuple_field))]
fn tuple_field<G: Grammar>(p: &mut Parser<'_>, g: &G) -> Result<bool, NoMemory>
    requires behind { Behind G.valid G.left g.now p.old }
    ensures script { IfOk result
        (λ found. Does (G.left g.now) script.tuple_field (of_bool found) (state p.old) (state p.new)) }
{
    let m = p.start()?;
    outer_attrs(p, g)?;
    let has_vis = opt_visibility(p, g, true)?;
    let found = restricted_tuple_field(p, g, m, has_vis)?;
    Ok(found)
}

/// A field without a name from its `mut` restriction on. Returns whether there is one.
#[tactic(auto, using(rap_grammar_frame::proofs::Done::less_left, rap_grammar_frame::proofs::Done::marker_kept, rap_grammar_facts::proofs::Adt::level_opt_mut_restriction), unfolding(rap_grammar_scripts::specs::Adt::restricted_tuple_field))]
fn restricted_tuple_field<G: Grammar>(
    p: &mut Parser<'_>,
    g: &G,
    m: Marker,
    has_vis: bool,
) -> Result<bool, NoMemory>
    requires behind { Behind G.valid G.left g.now p.old }
    requires newest { (state p.old).marker ≡ Some m.pos.value }
    ensures script { IfOk result
        (λ found. Does (G.left g.now) (script.restricted_tuple_field (of_bool has_vis)) (of_bool found) (state p.old)
        (state p.new)) }
{
    opt_mut_restriction(p, g)?;
    let found = typed_field(p, g, m, has_vis)?;
    Ok(found)
}

/// A field without a name from its type on. Where no type begins, that is reported, and a visibility before it becomes
/// an `ERROR`. Returns whether there is one.
#[tactic(auto, unfolding(rap_grammar_scripts::specs::Adt::typed_field))]
fn typed_field<G: Grammar>(
    p: &mut Parser<'_>,
    g: &G,
    m: Marker,
    has_vis: bool,
) -> Result<bool, NoMemory>
    requires behind { Behind G.valid G.left g.now p.old }
    requires newest { (state p.old).marker ≡ Some m.pos.value }
    ensures script { IfOk result
        (λ found. Does (G.left g.now) (script.typed_field (of_bool has_vis)) (of_bool found) (state p.old)
        (state p.new)) }
{
    if is_type_first(p.current()) {
        type_(p, g)?;
        m.complete(p, SyntaxKind::TUPLE_FIELD)?;
        return Ok(true);
    }
    p.error("expected a type")?;
    if has_vis {
        m.complete(p, SyntaxKind::ERROR)?;
        return Ok(false);
    }
    m.abandon(p)?;
    Ok(false)
}
