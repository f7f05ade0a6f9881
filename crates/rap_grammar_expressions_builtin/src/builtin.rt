//! The forms after `builtin#`.
//! In the Rust crate: `grammar/expressions/atom.rs`.
ghost use Rattle.std.specs.Prelude.{◌≡◌, IfOk, OnOk, IfSome, IsTrue, Some, true, false, if◌then◌else◌};
ghost use Rattle.rap_base.specs.Keyword.{is_any_identifier};
ghost use Rattle.rap_base.specs.TokenKind.{EQ};
ghost use Rattle.rap_events.specs.State.{state, next, NthAt};
ghost use Rattle.rap_grammar_scripts.specs.Builtin as script;
ghost use Rattle.rap_grammar_scripts.specs.Words.{of_expr, of_bool, of_option, starts_builtin};
ghost use Rattle.rap_grammar_frame.specs.Grew.{Within, Behind};
ghost use Rattle.rap_grammar_scripts.specs.Exec.{Does, Executes};
ghost use Rattle.rap_grammar_facts.specs.Alone.{DoesAlone, ExecutesAlone};
ghost use Rattle.rap_grammar_facts.specs.Nodes.{IsOperand};
ghost use Rattle.rap_grammar_scripts.specs.Script.{something, again};
ghost use Rattle.rap_grammar_scripts.specs.Test.{holds};

use crate::asm::parse_asm_expr;
use rap_base::T;
use rap_base::no_memory::NoMemory;
use rap_base::syntax_kind::SyntaxKind;
use rap_events::parser::{CompletedMarker, Marker, Parser};
use rap_grammar_frame::knot::{Answer, Grammar};
use rap_grammar_frame::names::{name_any_identifier, name_ref_mod_path_or_index};
use rap_grammar_frame::through_knot::{expr, type_};
use rap_grammar_scripts::arguments::BlockLike;
use rap_grammar_scripts::rule::Rule;

/// An expression after `builtin#`, as `builtin#offset_of(a, b)`. An unknown name is reported and not taken.
#[inline(never)]
#[tactic(auto, using(rap_grammar_facts::proofs::Builtin::grew_offset_of, rap_grammar_facts::proofs::Builtin::grew_format_args), unfolding(rap_grammar_scripts::specs::Builtin::builtin_expr))]
pub fn builtin_expr<G: Grammar>(p: &mut Parser<'_>, g: &G) -> Result<Answer, NoMemory>
    requires within { Within G.valid G.left g.now p.old }
    requires here { holds starts_builtin (state p.old).rest ≡ true }
    ensures operand { IfOk result (λ o. IfSome o (λ e. IsOperand (state p.new) e.0)) }
    ensures script { IfOk result
        (λ e. Does (G.left g.now) script.builtin_expr (of_expr e) (state p.old) (state p.new)) }
{
    let m = p.start()?;
    p.bump_remap(T![builtin])?;
    p.bump(T![#])?;
    if p.eat_contextual_kw(T![offset_of])? {
        offset_of(p, g)?;
        let cm = m.complete(p, SyntaxKind::OFFSET_OF_EXPR)?;
        return Ok(Some((cm, BlockLike::NotBlock)));
    }
    if p.eat_contextual_kw(T![format_args])? {
        format_args(p, g)?;
        let cm = m.complete(p, SyntaxKind::FORMAT_ARGS_EXPR)?;
        return Ok(Some((cm, BlockLike::NotBlock)));
    }
    match other_builtin(p, g, m)? {
        Some(cm) => Ok(Some((cm, BlockLike::NotBlock))),
        None => Ok(None),
    }
}

/// Inline assembly, `include_bytes` or `cfg(a)`, from the marker on. None, and a message in an `ERROR` over what the
/// marker has, where none of these names comes next.
#[tactic(auto, using(rap_grammar_facts::proofs::Builtin::grew_asm_name, rap_grammar_facts::proofs::Builtin::grew_cfg), unfolding(rap_grammar_scripts::specs::Builtin::other_builtin))]
fn other_builtin<G: Grammar>(
    p: &mut Parser<'_>,
    g: &G,
    m: Marker,
) -> Result<Option<CompletedMarker>, NoMemory>
    requires behind { Behind G.valid G.left g.now p.old }
    requires newest { (state p.old).marker ≡ Some m.pos.value }
    ensures operand { IfOk result (λ o. IfSome o (λ cm. IsOperand (state p.new) cm)) }
    ensures script { IfOk result
        (λ o. Does (G.left g.now) script.other_builtin (of_option o) (state p.old) (state p.new)) }
{
    if asm_name(p)? {
        let cm = parse_asm_expr(p, g, m)?;
        return Ok(Some(cm));
    }
    if p.eat_contextual_kw(T![include_bytes])? {
        let cm = m.complete(p, SyntaxKind::INCLUDE_BYTES_EXPR)?;
        return Ok(Some(cm));
    }
    if p.eat_contextual_kw(T![cfg])? {
        cfg(p, g)?;
        let cm = m.complete(p, SyntaxKind::CFG_PRED_EXPR)?;
        return Ok(Some(cm));
    }
    p.error("unknown name after `builtin#`")?;
    m.complete(p, SyntaxKind::ERROR)?;
    Ok(None)
}

/// The name of one of the kinds of inline assembly. Returns whether one comes next.
#[tactic(auto, unfolding(rap_grammar_scripts::specs::Builtin::asm_name))]
fn asm_name(p: &mut Parser<'_>) -> Result<bool, NoMemory>
    ensures script { IfOk result (λ found. DoesAlone script.asm_name (of_bool found) (state p.old) (state p.new)) }
{
    if p.eat_contextual_kw(T![asm])? {
        return Ok(true);
    }
    if p.eat_contextual_kw(T![global_asm])? {
        return Ok(true);
    }
    if p.eat_contextual_kw(T![naked_asm])? {
        return Ok(true);
    }
    Ok(false)
}

/// A type and a field in it, as `(a, b.0)` and `(a, (b.0))`.
fn offset_of<G: Grammar>(p: &mut Parser<'_>, g: &G) -> Result<(), NoMemory>
    requires behind { Behind G.valid G.left g.now p.old }
    ensures script { OnOk result (Executes (G.left g.now) script.offset_of p.old p.new) }
{
    p.expect(T!['('])?;
    type_(p, g)?;
    p.expect(T![,])?;
    // A macro may have wrapped the fields in parentheses.
    if p.eat(T!['('])? {
        offset_of_fields(p)?;
        p.expect(T![')'])?;
        p.expect(T![')'])?;
        return Ok(());
    }
    offset_of_fields(p)?;
    p.expect(T![')'])?;
    Ok(())
}

/// The fields on the way to the one whose place is asked for, as `b.0`.
#[tactic(auto, using(rap_grammar_facts::proofs::Builtin::facts), unfolding(rap_grammar_scripts::specs::Builtin::offset_of_fields))]
fn offset_of_fields(p: &mut Parser<'_>) -> Result<(), NoMemory>
    ensures script { OnOk result (ExecutesAlone script.offset_of_fields p.old p.new) }
{
    'fields: loop {
        let more = next_field(p)?;
        if !more {
            return Ok(());
        }
    }
}

/// A field and the dot after it. Returns whether there was one.
fn next_field(p: &mut Parser<'_>) -> Result<bool, NoMemory>
    ensures script { IfOk result
        (λ more. DoesAlone (script.fields_turn false false)
        (if more then again false false else something) (state p.old) (state p.new)) }
{
    if p.at(SyntaxKind::EOF) {
        return Ok(false);
    }
    if p.at(T![')']) {
        return Ok(false);
    }
    name_ref_mod_path_or_index(p)?;
    if p.at(T![')']) {
        return Ok(true);
    }
    p.expect(T![.])?;
    Ok(true)
}

/// A text and its arguments, as `("{} {b}", a, b = 1)`.
#[tactic(auto, using(rap_grammar_facts::proofs::Builtin::facts))]
fn format_args<G: Grammar>(p: &mut Parser<'_>, g: &G) -> Result<(), NoMemory>
    requires behind { Behind G.valid G.left g.now p.old }
    ensures script { OnOk result (Executes (G.left g.now) script.format_args p.old p.new) }
{
    p.expect(T!['('])?;
    expr(p, g)?;
    if p.eat(T![,])? {
        format_arguments(p, g)?;
        p.expect(T![')'])?;
        return Ok(());
    }
    p.expect(T![')'])?;
    Ok(())
}

/// The arguments of a text. They end where no expression follows.
#[tactic(auto, using(rap_grammar_facts::proofs::Builtin::facts, rap_grammar_frame::proofs::Loops::turns), unfolding(rap_grammar_scripts::specs::Builtin::format_arguments))]
fn format_arguments<G: Grammar>(p: &mut Parser<'_>, g: &G) -> Result<(), NoMemory>
    requires behind { Behind G.valid G.left g.now p.old }
    ensures script { OnOk result (Executes (G.left g.now) script.format_arguments p.old p.new) }
{
    'arguments: while !p.at(SyntaxKind::EOF) && !p.at(T![')']) {
        let m = p.start()?;
        opt_arg_name(p)?;
        if expr(p, g)?.is_none() {
            m.abandon(p)?;
            return Ok(());
        }
        m.complete(p, SyntaxKind::FORMAT_ARGS_ARG)?;
        if !p.at(T![')']) {
            p.expect(T![,])?;
        }
    }
    Ok(())
}

/// The name of an argument and its `=`, as `b =`, if they come next.
#[tactic(auto, unfolding(rap_grammar_scripts::specs::Builtin::opt_arg_name))]
fn opt_arg_name(p: &mut Parser<'_>) -> Result<(), NoMemory>
    ensures script { OnOk result (ExecutesAlone script.opt_arg_name p.old p.new) }
{
    if !starts_arg_name(p) {
        return Ok(());
    }
    name_any_identifier(p)?;
    p.bump(T![=])?;
    Ok(())
}

/// Whether a name and an `=` that begins no `==` come next.
fn starts_arg_name(p: &Parser<'_>) -> bool
    ensures here { result ≡ holds script.starts_arg_name (state p.now).rest }
    ensures name { IsTrue result → is_any_identifier (next (state p.now)) ≡ true }
    ensures eq { IsTrue result → NthAt (state p.now) 1 EQ }
{
    p.current().is_any_identifier() && p.nth_at(1, T![=]) && !p.nth_at(2, T![=])
}

/// A condition in its brackets, as `(unix)`.
fn cfg<G: Grammar>(p: &mut Parser<'_>, g: &G) -> Result<(), NoMemory>
    requires behind { Behind G.valid G.left g.now p.old }
    ensures script { OnOk result (Executes (G.left g.now) script.cfg p.old p.new) }
{
    p.expect(T!['('])?;
    g.run(p, Rule::CfgPredicate)?;
    p.eat(T![,])?;
    p.expect(T![')'])?;
    Ok(())
}
