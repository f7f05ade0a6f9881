//! Patterns.
ghost use Rattle.std.specs.Prelude.{◌≡◌, ◌≢◌, ◌<◌, ◌≤◌, ◌∷◌, ℕ, OnOk, IfOk, IfSome, true, [], false};
ghost use Rattle.rap_base.specs.TokenSet.{member};
ghost use Rattle.rap_base.specs.TokenKind.{DOT2EQ, DOT2, EOF, AMP, POUND, BUILTIN_KW, L_PAREN, L_CURLY, R_CURLY, UNDERSCORE, BANG, L_BRACK, IDENT, MUT_KW, REF_KW, BOX_KW, CONST_KW};
ghost use Rattle.rap_events.specs.State.{state, At, IsLast, next, NthAt, ReadsAs};
ghost use Rattle.rap_grammar_scripts.specs.First.{is_range_pat_end_first, is_path_start, is_pat_top_first, one_of};
ghost use Rattle.rap_grammar_frame.specs.Grew.{Within, Behind};
ghost use Rattle.rap_grammar_scripts.specs.Exec.{Does, Executes};
ghost use Rattle.rap_grammar_facts.specs.Alone.{DoesAlone, ExecutesAlone};
ghost use Rattle.rap_grammar_scripts.specs.Patterns as script;
ghost use Rattle.rap_grammar_scripts.specs.Patterns.{ends_range_pat, is_ident_pat_start, is_literal_pat_start, at_field, is_rest_pat, ends_search};
ghost use Rattle.rap_grammar_scripts.specs.Recovery.{is_pattern_recovery};
ghost use Rattle.rap_grammar_scripts.specs.Script.{nothing, again};
ghost use Rattle.rap_grammar_scripts.specs.Test.{holds};
ghost use Rattle.rap_grammar_scripts.specs.Words.{of_option, of_bool};

use rap_base::T;
use rap_base::no_memory::NoMemory;
use rap_base::syntax_kind::SyntaxKind;
use rap_base::token_set::TokenSet;
use rap_events::parser::{CompletedMarker, Parser};
use rap_grammar_attributes::attributes::{cfg_predicate, outer_attrs};
use rap_grammar_expressions_blocks::blocks::{block_expr, error_block};
use rap_grammar_frame::first::{is_literal_first, is_pat_top_first, is_path_first, is_path_start};
use rap_grammar_frame::knot::Grammar;
use rap_grammar_frame::literals::literal;
use rap_grammar_frame::names::{given_name, name_r, name_ref_or_index, starts_builtin};
use rap_grammar_frame::through_knot::{pattern, pattern_single};
use rap_grammar_frame::token_tree::macro_call_after_excl;
use rap_grammar_paths::paths::expr_path;

/// Whether the end of a range may begin with a token of this kind.
fn is_range_pat_end_first(kind: SyntaxKind) -> bool
    ensures { result ≡ is_range_pat_end_first kind }
{
    is_literal_first(kind) || is_path_first(kind) || matches!(kind, T![-] | T![const])
}

/// The recovery set of patterns.
fn pat_recovery_set() -> TokenSet
    ensures { (kind : ℕ) → member result kind ≡ is_pattern_recovery kind }
{
    TokenSet::new(&[
        T![let],
        T![if],
        T![while],
        T![loop],
        T![match],
        T![')'],
        T![']'],
        T!['}'],
        T![,],
        T![=],
        T![&],
    ])
}

/// The recovery set of patterns, in an arm of a `match` or elsewhere.
fn recovery_set(in_arm: bool) -> TokenSet
    ensures { (kind : ℕ) → member result kind ≡ ends_search in_arm kind }
{
    if in_arm {
        return TokenSet::new(&[T![=], T![if]]);
    }
    pat_recovery_set()
}

/// A pattern with its alternatives, as `a`, `1 | 2` and `| 1 | 2`.
#[tactic(auto, using(rap_grammar_facts::proofs::Patterns::fewer_pattern_single_r, rap_grammar_facts::proofs::Patterns::marker_pattern_single_r, rap_grammar_facts::proofs::Patterns::marker_alternatives), unfolding(rap_grammar_scripts::specs::Patterns::pattern_r))]
pub fn pattern_r<G: Grammar>(p: &mut Parser<'_>, g: &G, in_arm: bool) -> Result<(), NoMemory>
    requires within { Within G.valid G.left g.now p.old }
    ensures script { OnOk result (Executes (G.left g.now) (script.pattern_r in_arm) p.old p.new) }
{
    let m = p.start()?;
    if p.eat(T![|])? {
        pattern_single_r(p, g, in_arm)?;
        alternatives(p, g, in_arm)?;
        m.complete(p, SyntaxKind::OR_PAT)?;
        return Ok(());
    }
    pattern_single_r(p, g, in_arm)?;
    if !p.at(T![|]) {
        m.abandon(p)?;
        return Ok(());
    }
    alternatives(p, g, in_arm)?;
    m.complete(p, SyntaxKind::OR_PAT)?;
    Ok(())
}

/// The alternatives after a first one, as the `| 2 | 3` of `1 | 2 | 3`.
#[tactic(auto, using(rap_grammar_frame::proofs::Done::less_left, rap_grammar_frame::proofs::Loops::turns), unfolding(rap_grammar_scripts::specs::Patterns::alternatives))]
fn alternatives<G: Grammar>(p: &mut Parser<'_>, g: &G, in_arm: bool) -> Result<(), NoMemory>
    requires within { Within G.valid G.left g.now p.old }
    ensures script { OnOk result (Executes (G.left g.now) (script.alternatives in_arm) p.old p.new) }
{
    'alternatives: while p.at(T![|]) {
        p.bump(T![|])?;
        pattern_single_r(p, g, in_arm)?;
    }
    Ok(())
}

/// A pattern that is no arm's, as [`pattern_r`] reads it.
// A call of its own, so that a caller that runs other rules too keeps no constant over their calls.
#[inline(never)]
pub fn pattern_elsewhere<G: Grammar>(p: &mut Parser<'_>, g: &G) -> Result<(), NoMemory>
    requires within { Within G.valid G.left g.now p.old }
    ensures script { OnOk result (Executes (G.left g.now) (script.pattern_r false) p.old p.new) }
{
    pattern_r(p, g, false)
}

/// A pattern without alternatives, as `a`, `0..=9`, `..9` and `..`.
#[inline(always)]
#[tactic(auto, using(rap_grammar_frame::proofs::Done::less_left), unfolding(rap_grammar_scripts::specs::Patterns::pattern_single_r))]
pub fn pattern_single_r<G: Grammar>(p: &mut Parser<'_>, g: &G, in_arm: bool) -> Result<(), NoMemory>
    requires within { Within G.valid G.left g.now p.old }
    ensures script { OnOk result (Executes (G.left g.now) (script.pattern_single_r in_arm) p.old p.new) }
{
    if p.at(T![..=]) {
        range_to_pat(p, g, in_arm)?;
        return Ok(());
    }
    if p.at(T![..]) {
        rest_pat(p, g, in_arm)?;
        return Ok(());
    }
    let Some(lhs) = atom_pat(p, g, in_arm)? else {
        return Ok(());
    };
    range_op(p, g, lhs, in_arm)?;
    Ok(())
}

/// A pattern without alternatives that is no arm's, as [`pattern_single_r`] reads it.
// A call of its own, as [`pattern_elsewhere`] is.
#[inline(never)]
pub fn pattern_single_elsewhere<G: Grammar>(p: &mut Parser<'_>, g: &G) -> Result<(), NoMemory>
    requires within { Within G.valid G.left g.now p.old }
    ensures script { OnOk result (Executes (G.left g.now) (script.pattern_single_r false) p.old p.new) }
{
    pattern_single_r(p, g, false)
}

/// A range without a start, as `..=9`.
#[tactic(auto, using(rap_grammar_frame::proofs::Done::marker_kept, rap_grammar_facts::proofs::Patterns::level_atom_pat), unfolding(rap_grammar_scripts::specs::Patterns::range_to_pat))]
fn range_to_pat<G: Grammar>(p: &mut Parser<'_>, g: &G, in_arm: bool) -> Result<(), NoMemory>
    requires within { Within G.valid G.left g.now p.old }
    requires here { At (state p.old) DOT2EQ }
    ensures script { OnOk result (Executes (G.left g.now) (script.range_to_pat in_arm) p.old p.new) }
{
    let m = p.start()?;
    p.bump(T![..=])?;
    atom_pat(p, g, in_arm)?;
    m.complete(p, SyntaxKind::RANGE_PAT)?;
    Ok(())
}

/// The rest of a list, as the `..` of `[a, ..]`, and a range without a start, as `..9`.
#[tactic(auto, using(rap_grammar_frame::proofs::Done::marker_kept, rap_grammar_facts::proofs::Patterns::level_atom_pat), unfolding(rap_grammar_scripts::specs::Patterns::rest_pat))]
fn rest_pat<G: Grammar>(p: &mut Parser<'_>, g: &G, in_arm: bool) -> Result<(), NoMemory>
    requires within { Within G.valid G.left g.now p.old }
    requires here { At (state p.old) DOT2 }
    ensures script { OnOk result (Executes (G.left g.now) (script.rest_pat in_arm) p.old p.new) }
{
    let m = p.start()?;
    p.bump(T![..])?;
    if is_range_pat_end_first(p.current()) {
        atom_pat(p, g, in_arm)?;
        m.complete(p, SyntaxKind::RANGE_PAT)?;
        return Ok(());
    }
    m.complete(p, SyntaxKind::REST_PAT)?;
    Ok(())
}

/// What makes a range of a pattern, as the `..=9` after `0`.
#[tactic(auto, unfolding(rap_grammar_scripts::specs::Patterns::range_op))]
fn range_op<G: Grammar>(
    p: &mut Parser<'_>,
    g: &G,
    lhs: CompletedMarker,
    in_arm: bool,
) -> Result<(), NoMemory>
    requires within { Within G.valid G.left g.now p.old }
    requires last { IsLast (state p.old) lhs lhs.kind.value }
    ensures script { OnOk result (Executes (G.left g.now) (script.range_op in_arm) p.old p.new) }
{
    if p.at(T![...]) {
        range_from_pat(p, g, lhs, T![...], in_arm)?;
        return Ok(());
    }
    if p.at(T![..=]) {
        range_from_pat(p, g, lhs, T![..=], in_arm)?;
        return Ok(());
    }
    if p.at(T![..]) {
        range_from_pat(p, g, lhs, T![..], in_arm)?;
        return Ok(());
    }
    Ok(())
}

/// A range from `lhs` on, whose end may be missing, as in `[0.., 1]`.
#[tactic(auto, using(rap_grammar_frame::proofs::Binary::width_positive), unfolding(rap_grammar_scripts::specs::Patterns::range_from_pat))]
fn range_from_pat<G: Grammar>(
    p: &mut Parser<'_>,
    g: &G,
    lhs: CompletedMarker,
    op: SyntaxKind,
    in_arm: bool,
) -> Result<(), NoMemory>
    requires within { Within G.valid G.left g.now p.old }
    requires last { IsLast (state p.old) lhs lhs.kind.value }
    requires here { At (state p.old) op }
    requires op { op ≢ EOF }
    ensures script { OnOk result (Executes (G.left g.now) (script.range_from_pat in_arm op) p.old p.new) }
{
    let m = lhs.precede(p)?;
    p.bump(op)?;
    if ends_range_pat(p.current()) {
        m.complete(p, SyntaxKind::RANGE_PAT)?;
        return Ok(());
    }
    atom_pat(p, g, in_arm)?;
    m.complete(p, SyntaxKind::RANGE_PAT)?;
    Ok(())
}

/// Whether a range that has begun ends before a token of this kind.
fn ends_range_pat(kind: SyntaxKind) -> bool
    ensures { result ≡ ends_range_pat kind }
{
    matches!(
        kind,
        T![=] | T![,] | T![:] | T![')'] | T!['}'] | T![']'] | T![if] | T![|] | SyntaxKind::EOF
    )
}

/// A pattern that is no range, as `a`, `S { x, .. }` and `&1`.
#[inline(never)]
#[tactic(auto, unfolding(rap_grammar_scripts::specs::Patterns::atom_pat))]
fn atom_pat<G: Grammar>(
    p: &mut Parser<'_>,
    g: &G,
    in_arm: bool,
) -> Result<Option<CompletedMarker>, NoMemory>
    requires within { Within G.valid G.left g.now p.old }
    ensures last { IfOk result (λ o. IfSome o (λ cm. IsLast (state p.new) cm cm.kind.value)) }
    ensures script { IfOk result
        (λ o. Does (G.left g.now) (script.atom_pat in_arm) (of_option o) (state p.old) (state p.new)) }
{
    if starts_builtin(p) {
        let cm = builtin_pat(p, g)?;
        return Ok(cm);
    }
    match p.current() {
        T![box] => Ok(Some(box_pat(p, g)?)),
        T![ref] | T![mut] => Ok(Some(ident_pat(p, g, true)?)),
        T![const] => Ok(Some(const_block_pat(p, g)?)),
        _ if is_ident_pat_start(p) => Ok(Some(ident_pat(p, g, true)?)),
        _ if is_path_start(p) => Ok(Some(path_or_macro_pat(p, g)?)),
        _ => {
            let cm = symbol_pat(p, g, in_arm)?;
            Ok(cm)
        }
    }
}

/// Whether an identifier comes next that begins no path of several names, no path with fields, and no macro call.
fn is_ident_pat_start(p: &Parser<'_>) -> bool
    ensures { result ≡ holds is_ident_pat_start (state p.now).rest }
{
    p.at(T![ident]) && !matches!(p.nth(1), T!['('] | T!['{'] | T![!]) && !p.nth_at(1, T![::])
}

/// A pattern that begins with no keyword and no path, as `1`, `_` and `(a, b)`.
#[tactic(auto, unfolding(rap_grammar_scripts::specs::Patterns::symbol_pat))]
fn symbol_pat<G: Grammar>(
    p: &mut Parser<'_>,
    g: &G,
    in_arm: bool,
) -> Result<Option<CompletedMarker>, NoMemory>
    requires within { Within G.valid G.left g.now p.old }
    ensures last { IfOk result (λ o. IfSome o (λ cm. IsLast (state p.new) cm cm.kind.value)) }
    ensures script { IfOk result
        (λ o. Does (G.left g.now) (script.symbol_pat in_arm) (of_option o) (state p.old) (state p.new)) }
{
    if is_literal_pat_start(p) {
        return Ok(Some(literal_pat(p)?));
    }
    match p.current() {
        T![_] => Ok(Some(wildcard_pat(p)?)),
        T![&] => Ok(Some(ref_pat(p, g)?)),
        T!['('] => Ok(Some(tuple_pat(p, g)?)),
        T!['['] => Ok(Some(slice_pat(p, g)?)),
        T![!] => Ok(Some(not_null_pat(p, g)?)),
        _ => {
            missing_pat(p, in_arm)?;
            Ok(None)
        }
    }
}

/// No pattern begins: the next token is skipped too, unless it is a brace or ends the search.
#[inline(never)]
#[tactic(auto, unfolding(rap_grammar_scripts::specs::Patterns::missing_pat))]
fn missing_pat(p: &mut Parser<'_>, in_arm: bool) -> Result<(), NoMemory>
    ensures script { OnOk result (DoesAlone (script.missing_pat in_arm) nothing (state p.old) (state p.new)) }
{
    p.err_recover("expected pattern", recovery_set(in_arm))?;
    Ok(())
}

/// A pattern after `builtin#`, as `builtin#deref(a)` and `builtin#cfg(unix)`. An unknown name is not taken.
#[tactic(auto, unfolding(rap_grammar_scripts::specs::Patterns::builtin_pat))]
fn builtin_pat<G: Grammar>(p: &mut Parser<'_>, g: &G) -> Result<Option<CompletedMarker>, NoMemory>
    requires within { Within G.valid G.left g.now p.old }
    requires here { ReadsAs (state p.old) BUILTIN_KW }
    requires pound { NthAt (state p.old) 1 POUND }
    ensures last { IfOk result (λ o. IfSome o (λ cm. IsLast (state p.new) cm cm.kind.value)) }
    ensures script { IfOk result
        (λ o. Does (G.left g.now) script.builtin_pat (of_option o) (state p.old) (state p.new)) }
{
    let m = p.start()?;
    p.bump_remap(T![builtin])?;
    p.bump(T![#])?;
    if p.eat_contextual_kw(T![deref])? {
        p.expect(T!['('])?;
        pattern(p, g)?;
        p.expect(T![')'])?;
        let cm = m.complete(p, SyntaxKind::DEREF_PAT)?;
        return Ok(Some(cm));
    }
    if p.eat_contextual_kw(T![cfg])? {
        p.expect(T!['('])?;
        cfg_predicate(p, g)?;
        p.eat(T![,])?;
        p.expect(T![')'])?;
        let cm = m.complete(p, SyntaxKind::CFG_PRED_PAT)?;
        return Ok(Some(cm));
    }
    p.error("unknown name after `builtin#`")?;
    m.complete(p, SyntaxKind::ERROR)?;
    Ok(None)
}

/// Whether a literal comes next, be it with a minus.
fn is_literal_pat_start(p: &Parser<'_>) -> bool
    ensures { result ≡ holds is_literal_pat_start (state p.now).rest }
{
    p.at(T![-]) && matches!(p.nth(1), T![int_number] | SyntaxKind::FLOAT_NUMBER)
        || is_literal_first(p.current())
}

/// A literal, as `1` and `-1`.
#[inline(never)]
#[tactic(auto, unfolding(rap_grammar_scripts::specs::Patterns::literal_pat))]
fn literal_pat(p: &mut Parser<'_>) -> Result<CompletedMarker, NoMemory>
    requires here { holds is_literal_pat_start (state p.old).rest ≡ true }
    ensures last { IfOk result (λ cm. IsLast (state p.new) cm cm.kind.value) }
    ensures script { OnOk result (ExecutesAlone script.literal_pat p.old p.new) }
{
    let m = p.start()?;
    p.eat(T![-])?;
    literal(p)?;
    let cm = m.complete(p, SyntaxKind::LITERAL_PAT)?;
    Ok(cm)
}

/// A path, as `a::B`, one with fields, as `B(x)` and `B { x }`, or a macro call, as `m!(x)`.
#[inline(never)]
#[tactic(auto, using(rap_grammar_facts::proofs::Paths::took_expr_path, rap_grammar_facts::proofs::Patterns::facts), unfolding(rap_grammar_scripts::specs::Patterns::path_or_macro_pat))]
fn path_or_macro_pat<G: Grammar>(p: &mut Parser<'_>, g: &G) -> Result<CompletedMarker, NoMemory>
    requires within { Within G.valid G.left g.now p.old }
    requires path { holds is_path_start (state p.old).rest ≡ true }
    ensures last { IfOk result (λ cm. IsLast (state p.new) cm cm.kind.value) }
    ensures script { OnOk result (Executes (G.left g.now) script.path_or_macro_pat p.old p.new) }
{
    let m = p.start()?;
    expr_path(p, g)?;
    match p.current() {
        T!['('] => {
            tuple_pat_fields(p, g)?;
            let cm = m.complete(p, SyntaxKind::TUPLE_STRUCT_PAT)?;
            Ok(cm)
        }
        T!['{'] => {
            record_pat_field_list(p, g)?;
            let cm = m.complete(p, SyntaxKind::RECORD_PAT)?;
            Ok(cm)
        }
        T![!] => {
            macro_call_after_excl(p)?;
            let call = m.complete(p, SyntaxKind::MACRO_CALL)?;
            let m = call.precede(p)?;
            let cm = m.complete(p, SyntaxKind::MACRO_PAT)?;
            Ok(cm)
        }
        _ => {
            let cm = m.complete(p, SyntaxKind::PATH_PAT)?;
            Ok(cm)
        }
    }
}

/// The fields of a tuple struct, as the `(a, ..)` of `S(a, ..)`.
#[tactic(auto, using(rap_grammar_facts::proofs::Patterns::facts), unfolding(rap_grammar_scripts::specs::Patterns::tuple_pat_fields))]
fn tuple_pat_fields<G: Grammar>(p: &mut Parser<'_>, g: &G) -> Result<(), NoMemory>
    requires within { Within G.valid G.left g.now p.old }
    requires here { next (state p.old) ≡ L_PAREN }
    ensures script { OnOk result (Executes (G.left g.now) script.tuple_pat_fields p.old p.new) }
{
    p.bump(T!['('])?;
    pat_list(p, g, T![')'])?;
    p.expect(T![')'])?;
    Ok(())
}

/// Whether a field's name or number and this separator come next.
fn at_field(p: &Parser<'_>, separator: SyntaxKind) -> bool
    ensures { result ≡ holds (at_field separator) (state p.now).rest }
{
    matches!(p.current(), T![ident] | T![int_number]) && p.nth(1) == separator
}

/// A field of a record, as `x: 1`, `ref x` and `box x`.
#[tactic(auto, using(rap_grammar_frame::proofs::Patterning::separator_next, rap_grammar_frame::proofs::Steps::by_skip), unfolding(rap_grammar_scripts::specs::Patterns::record_pat_field))]
fn record_pat_field<G: Grammar>(p: &mut Parser<'_>, g: &G) -> Result<(), NoMemory>
    requires within { Within G.valid G.left g.now p.old }
    ensures script { OnOk result (Executes (G.left g.now) script.record_pat_field p.old p.new) }
{
    if at_field(p, T![:]) {
        name_ref_or_index(p)?;
        p.bump(T![:])?;
        pattern(p, g)?;
        return Ok(());
    }
    if at_field(p, T![=]) {
        name_ref_or_index(p)?;
        p.err_and_bump("expected `:`")?;
        pattern(p, g)?;
        return Ok(());
    }
    match p.current() {
        T![box] => {
            box_pat(p, g)?;
            Ok(())
        }
        T![ref] | T![mut] | T![ident] => {
            ident_pat(p, g, false)?;
            Ok(())
        }
        _ => {
            p.err_and_bump("expected identifier")?;
            Ok(())
        }
    }
}

/// The fields of a record, as the `{ x, y: 1, .. }` of `S { x, y: 1, .. }`.
#[tactic(auto, using(rap_grammar_facts::proofs::Patterns::facts), unfolding(rap_grammar_scripts::specs::Patterns::record_pat_field_list))]
fn record_pat_field_list<G: Grammar>(p: &mut Parser<'_>, g: &G) -> Result<(), NoMemory>
    requires within { Within G.valid G.left g.now p.old }
    requires here { next (state p.old) ≡ L_CURLY }
    ensures script { OnOk result (Executes (G.left g.now) script.record_pat_field_list p.old p.new) }
{
    let m = p.start()?;
    p.bump(T!['{'])?;
    record_pat_fields(p, g)?;
    p.expect(T!['}'])?;
    m.complete(p, SyntaxKind::RECORD_PAT_FIELD_LIST)?;
    Ok(())
}

/// What stands in the braces of a record.
#[tactic(auto, using(rap_grammar_frame::proofs::Loops::turns, rap_grammar_frame::proofs::Done::less_left), unfolding(rap_grammar_scripts::specs::Patterns::record_pat_fields))]
fn record_pat_fields<G: Grammar>(p: &mut Parser<'_>, g: &G) -> Result<(), NoMemory>
    requires within { Within G.valid G.left g.now p.old }
    ensures script { OnOk result (Executes (G.left g.now) script.record_pat_fields p.old p.new) }
{
    'fields: while !p.at(SyntaxKind::EOF) && !p.at(T!['}']) {
        record_pat_turn(p, g)?;
    }
    Ok(())
}

/// A field, and the comma after it unless it is the last.
#[tactic(auto, using(rap_grammar_facts::proofs::Patterns::facts))]
fn record_pat_turn<G: Grammar>(p: &mut Parser<'_>, g: &G) -> Result<(), NoMemory>
    requires within { Within G.valid G.left g.now p.old }
    requires more { next (state p.old) ≢ EOF }
    requires open { next (state p.old) ≢ R_CURLY }
    ensures script { OnOk result
        (Does (G.left g.now) (script.record_pat_turn false false) (again false false) (state p.old) (state p.new)) }
{
    record_pat_element(p, g)?;
    if !p.at(T!['}']) {
        p.expect(T![,])?;
        return Ok(());
    }
    Ok(())
}

/// A field with its attributes, as `#[a] x: 1`, or the `..` that stands for the other fields.
#[tactic(auto, using(rap_grammar_facts::proofs::Patterns::facts), unfolding(rap_grammar_scripts::specs::Patterns::record_pat_element))]
fn record_pat_element<G: Grammar>(p: &mut Parser<'_>, g: &G) -> Result<(), NoMemory>
    requires within { Within G.valid G.left g.now p.old }
    ensures script { OnOk result (Executes (G.left g.now) script.record_pat_element p.old p.new) }
{
    let m = p.start()?;
    outer_attrs(p, g)?;
    if p.at(T![..]) {
        p.bump(T![..])?;
        m.complete(p, SyntaxKind::REST_PAT)?;
        return Ok(());
    }
    if p.at(T!['{']) {
        error_block(p, g, "expected ident")?;
        m.abandon(p)?;
        return Ok(());
    }
    record_pat_field(p, g)?;
    m.complete(p, SyntaxKind::RECORD_PAT_FIELD)?;
    Ok(())
}

/// The wildcard, `_`.
#[tactic(auto, unfolding(rap_grammar_scripts::specs::Patterns::wildcard_pat))]
fn wildcard_pat(p: &mut Parser<'_>) -> Result<CompletedMarker, NoMemory>
    requires here { next (state p.old) ≡ UNDERSCORE }
    ensures last { IfOk result (λ cm. IsLast (state p.new) cm cm.kind.value) }
    ensures script { OnOk result (ExecutesAlone script.wildcard_pat p.old p.new) }
{
    let m = p.start()?;
    p.bump(T![_])?;
    let cm = m.complete(p, SyntaxKind::WILDCARD_PAT)?;
    Ok(cm)
}

/// A reference, as `&a` and `&mut a`.
#[tactic(auto, unfolding(rap_grammar_scripts::specs::Patterns::ref_pat))]
fn ref_pat<G: Grammar>(p: &mut Parser<'_>, g: &G) -> Result<CompletedMarker, NoMemory>
    requires within { Within G.valid G.left g.now p.old }
    requires here { next (state p.old) ≡ AMP }
    ensures last { IfOk result (λ cm. IsLast (state p.new) cm cm.kind.value) }
    ensures script { OnOk result (Executes (G.left g.now) script.ref_pat p.old p.new) }
{
    let m = p.start()?;
    p.bump(T![&])?;
    p.eat(T![mut])?;
    pattern_single(p, g)?;
    let cm = m.complete(p, SyntaxKind::REF_PAT)?;
    Ok(cm)
}

/// A pointer that is not null, as `!a`.
#[tactic(auto, unfolding(rap_grammar_scripts::specs::Patterns::not_null_pat))]
fn not_null_pat<G: Grammar>(p: &mut Parser<'_>, g: &G) -> Result<CompletedMarker, NoMemory>
    requires within { Within G.valid G.left g.now p.old }
    requires here { next (state p.old) ≡ BANG }
    ensures last { IfOk result (λ cm. IsLast (state p.new) cm cm.kind.value) }
    ensures script { OnOk result (Executes (G.left g.now) script.not_null_pat p.old p.new) }
{
    let m = p.start()?;
    p.bump(T![!])?;
    pattern_single(p, g)?;
    let cm = m.complete(p, SyntaxKind::NOT_NULL)?;
    Ok(cm)
}

/// A pattern in parentheses, as `(a)`, or a tuple, as `()`, `(a,)` and `(..)`.
#[inline(never)]
#[tactic(auto, using(rap_grammar_facts::proofs::Alone::alone_less_left, rap_grammar_facts::proofs::Alone::alone_marker_kept, rap_grammar_facts::proofs::Patterns::level_leading_comma, rap_grammar_frame::proofs::Done::marker_kept, rap_grammar_facts::proofs::Patterns::level_tuple_patterns), unfolding(rap_grammar_scripts::specs::Patterns::tuple_pat))]
fn tuple_pat<G: Grammar>(p: &mut Parser<'_>, g: &G) -> Result<CompletedMarker, NoMemory>
    requires within { Within G.valid G.left g.now p.old }
    requires here { next (state p.old) ≡ L_PAREN }
    ensures last { IfOk result (λ cm. IsLast (state p.new) cm cm.kind.value) }
    ensures script { OnOk result (Executes (G.left g.now) script.tuple_pat p.old p.new) }
{
    let m = p.start()?;
    p.bump(T!['('])?;
    let has_comma = leading_comma(p)?;
    let is_parens = tuple_patterns(p, g, has_comma)?;
    p.expect(T![')'])?;
    let kind = if is_parens {
        SyntaxKind::PAREN_PAT
    } else {
        SyntaxKind::TUPLE_PAT
    };
    let cm = m.complete(p, kind)?;
    Ok(cm)
}

/// A comma before the first pattern, as in `(, a)`, which is reported. Returns whether there is one.
#[tactic(auto, unfolding(rap_grammar_scripts::specs::Patterns::leading_comma))]
fn leading_comma(p: &mut Parser<'_>) -> Result<bool, NoMemory>
    ensures script { IfOk result
        (λ comma. DoesAlone script.leading_comma (of_bool comma) (state p.old) (state p.new)) }
{
    if p.eat(T![,])? {
        p.error("expected pattern")?;
        return Ok(true);
    }
    Ok(false)
}

/// What stands in parentheses. Returns whether it is one pattern, no comma and no `..`.
#[tactic(auto, using(rap_grammar_frame::proofs::Loops::turns), unfolding(rap_grammar_scripts::specs::Patterns::tuple_patterns))]
fn tuple_patterns<G: Grammar>(
    p: &mut Parser<'_>,
    g: &G,
    mut is_tuple: bool,
) -> Result<bool, NoMemory>
    requires behind { Behind G.valid G.left g.now p.old }
    ensures script { IfOk result
        (λ parens. Does (G.left g.now) (script.tuple_patterns is_tuple) (of_bool parens) (state p.old) (state p.new)) }
{
    let mut has_pat = false;
    'patterns: while !p.at(SyntaxKind::EOF) && !p.at(T![')']) {
        has_pat = true;
        if !is_pat_top_first(p.current()) {
            p.error("expected a pattern")?;
            return Ok(!is_tuple);
        }
        is_tuple |= is_rest_pat(p);
        is_tuple = tuple_element(p, g, is_tuple)?;
    }
    Ok(has_pat && !is_tuple)
}

/// A pattern, and the comma after it unless it is the last. Returns whether there is a comma or a `..` up to here.
fn tuple_element<G: Grammar>(p: &mut Parser<'_>, g: &G, is_tuple: bool) -> Result<bool, NoMemory>
    requires behind { Behind G.valid G.left g.now p.old }
    requires first { is_pat_top_first (next (state p.old)) ≡ true }
    ensures script { IfOk result (λ tuple.
        Does (G.left g.now) (script.tuple_element is_tuple) (again tuple true) (state p.old) (state p.new)) }
{
    pattern(p, g)?;
    if !p.at(T![')']) {
        p.expect(T![,])?;
        return Ok(true);
    }
    Ok(is_tuple)
}

/// Whether `..` comes next and no range begins with it.
fn is_rest_pat(p: &Parser<'_>) -> bool
    ensures { result ≡ holds is_rest_pat (state p.now).rest }
{
    !p.at(T![..=]) && p.at(T![..]) && !is_range_pat_end_first(p.nth(2))
}

/// A slice by its elements, as `[a, .., b]`.
#[inline(never)]
#[tactic(auto, using(rap_grammar_frame::proofs::Done::marker_kept, rap_grammar_facts::proofs::Patterns::level_pat_list), unfolding(rap_grammar_scripts::specs::Patterns::slice_pat))]
fn slice_pat<G: Grammar>(p: &mut Parser<'_>, g: &G) -> Result<CompletedMarker, NoMemory>
    requires within { Within G.valid G.left g.now p.old }
    requires here { next (state p.old) ≡ L_BRACK }
    ensures last { IfOk result (λ cm. IsLast (state p.new) cm cm.kind.value) }
    ensures script { OnOk result (Executes (G.left g.now) script.slice_pat p.old p.new) }
{
    let m = p.start()?;
    p.bump(T!['['])?;
    pat_list(p, g, T![']'])?;
    p.expect(T![']'])?;
    let cm = m.complete(p, SyntaxKind::SLICE_PAT)?;
    Ok(cm)
}

/// Patterns up to `ket`, as `a, b`. A comma that is missing is reported where the next pattern begins.
#[tactic(auto, using(rap_grammar_frame::proofs::Loops::turns), unfolding(rap_grammar_scripts::specs::Patterns::pat_list))]
fn pat_list<G: Grammar>(p: &mut Parser<'_>, g: &G, ket: SyntaxKind) -> Result<(), NoMemory>
    requires behind { Behind G.valid G.left g.now p.old }
    ensures script { OnOk result (Executes (G.left g.now) (script.pat_list ket) p.old p.new) }
{
    'patterns: while !p.at(SyntaxKind::EOF) && !p.at(ket) {
        pattern(p, g)?;
        if p.eat(T![,])? {
            continue;
        }
        if !is_pat_top_first(p.current()) {
            return Ok(());
        }
        p.error_with_kind("expected COMMA, got ")?;
    }
    Ok(())
}

/// An identifier pattern, as `a`, `ref mut a` and, where `with_at`, `a @ 1`.
#[tactic(auto, using(rap_grammar_facts::proofs::Alone::alone_less_left, rap_grammar_facts::proofs::Alone::alone_marker_kept, rap_grammar_facts::proofs::Patterns::level_binding, rap_grammar_frame::proofs::Done::marker_kept, rap_grammar_facts::proofs::Patterns::level_at_pattern), unfolding(rap_grammar_scripts::specs::Patterns::ident_pat))]
fn ident_pat<G: Grammar>(
    p: &mut Parser<'_>,
    g: &G,
    with_at: bool,
) -> Result<CompletedMarker, NoMemory>
    requires within { Within G.valid G.left g.now p.old }
    requires here { one_of (REF_KW ∷ MUT_KW ∷ IDENT ∷ []) (next (state p.old)) ≡ true }
    ensures last { IfOk result (λ cm. IsLast (state p.new) cm cm.kind.value) }
    ensures script { OnOk result (Executes (G.left g.now) (script.ident_pat with_at) p.old p.new) }
{
    let m = p.start()?;
    binding(p)?;
    at_pattern(p, g, with_at)?;
    let cm = m.complete(p, SyntaxKind::IDENT_PAT)?;
    Ok(cm)
}

/// A name, and how it is bound, as `ref mut a`.
#[inline(never)]
fn binding(p: &mut Parser<'_>) -> Result<(), NoMemory>
    requires here { one_of (REF_KW ∷ MUT_KW ∷ IDENT ∷ []) (next (state p.old)) ≡ true }
    ensures script { OnOk result (ExecutesAlone script.binding p.old p.new) }
{
    p.eat(T![ref])?;
    p.eat(T![mut])?;
    if p.at(T![ident]) {
        given_name(p)?;
        return Ok(());
    }
    name_r(p, pat_recovery_set())?;
    Ok(())
}

/// The subpattern after a name, as the `@ 1` of `a @ 1`, if there is one and it may be there.
#[tactic(auto, unfolding(rap_grammar_scripts::specs::Patterns::at_pattern))]
fn at_pattern<G: Grammar>(p: &mut Parser<'_>, g: &G, with_at: bool) -> Result<(), NoMemory>
    requires within { Within G.valid G.left g.now p.old }
    ensures script { OnOk result (Executes (G.left g.now) (script.at_pattern with_at) p.old p.new) }
{
    if with_at && p.at(T![@]) {
        p.bump(T![@])?;
        pattern_single(p, g)?;
    }
    Ok(())
}

/// A box pattern, as `box a`.
#[tactic(auto, unfolding(rap_grammar_scripts::specs::Patterns::box_pat))]
fn box_pat<G: Grammar>(p: &mut Parser<'_>, g: &G) -> Result<CompletedMarker, NoMemory>
    requires within { Within G.valid G.left g.now p.old }
    requires here { next (state p.old) ≡ BOX_KW }
    ensures last { IfOk result (λ cm. IsLast (state p.new) cm cm.kind.value) }
    ensures script { OnOk result (Executes (G.left g.now) script.box_pat p.old p.new) }
{
    let m = p.start()?;
    p.bump(T![box])?;
    pattern_single(p, g)?;
    let cm = m.complete(p, SyntaxKind::BOX_PAT)?;
    Ok(cm)
}

/// A constant block, as `const { 1 }`.
#[tactic(auto, unfolding(rap_grammar_scripts::specs::Patterns::const_block_pat))]
fn const_block_pat<G: Grammar>(p: &mut Parser<'_>, g: &G) -> Result<CompletedMarker, NoMemory>
    requires within { Within G.valid G.left g.now p.old }
    requires here { next (state p.old) ≡ CONST_KW }
    ensures last { IfOk result (λ cm. IsLast (state p.new) cm cm.kind.value) }
    ensures script { OnOk result (Executes (G.left g.now) script.const_block_pat p.old p.new) }
{
    let m = p.start()?;
    p.bump(T![const])?;
    block_expr(p, g)?;
    let cm = m.complete(p, SyntaxKind::CONST_BLOCK_PAT)?;
    Ok(cm)
}
