//! What follows an operand: calls, indexes, fields and methods, `?`.
//! In the Rust crate: `grammar/expressions.rs`.
ghost use Rattle.std.specs.Prelude.{ℕ, ◌≡◌, ◌<◌, ◌≤◌, Bool, IfOk, OnOk, true, false, Some, if◌then◌else◌};
ghost use Rattle.rap_base.specs.TokenKind.{DOT, L_PAREN, L_BRACK, AWAIT_KW, QUESTION};
ghost use Rattle.rap_events.specs.Fit.{is_plain};
ghost use Rattle.rap_events.specs.State.{state, IsLast, next};
ghost use Rattle.rap_grammar_scripts.specs.Postfix as script;
ghost use Rattle.rap_grammar_scripts.specs.Words.{of_like, is_block, of_bool};
ghost use Rattle.rap_grammar_scripts.specs.Postfix.{is_method_call};
ghost use Rattle.rap_grammar_frame.specs.Grew.{Within, Behind};
ghost use Rattle.rap_grammar_scripts.specs.Exec.{Does, Executes};
ghost use Rattle.rap_grammar_facts.specs.Nodes.{IsOperand};
ghost use Rattle.rap_grammar_scripts.specs.Script.{something, block, again};
ghost use Rattle.rap_grammar_scripts.specs.Test.{holds};

use rap_base::T;
use rap_base::no_memory::NoMemory;
use rap_base::syntax_kind::SyntaxKind;
use rap_events::parser::{CompletedMarker, Marker, Parser};
use rap_grammar_frame::first::is_expr_first;
use rap_grammar_frame::knot::Grammar;
use rap_grammar_frame::lists::{Element, delimited};
use rap_grammar_frame::names::{
    is_path_name, is_path_name_or_index, name_ref_mod_path, name_ref_mod_path_or_index,
};
use rap_grammar_frame::through_knot::expr;
use rap_grammar_paths::generic_arg_list::opt_generic_arg_list_expr;
use rap_grammar_scripts::arguments::BlockLike;

/// What follows an operand directly, as `(a)`, `[0]`, `.b`, `.c()` and `?`.
#[inline(always)]
#[tactic(auto, using(rap_grammar_frame::proofs::Loops::turns), unfolding(rap_grammar_scripts::specs::Postfix::postfix_expr))]
pub fn postfix_expr<G: Grammar>(
    p: &mut Parser<'_>,
    g: &G,
    mut lhs: CompletedMarker,
    mut block_like: BlockLike,
    mut allow_calls: bool,
) -> Result<(CompletedMarker, BlockLike), NoMemory>
    requires within { Within G.valid G.left g.now p.old }
    requires last { IsLast (state p.old) lhs lhs.kind.value }
    requires plain { is_plain lhs.kind.value ≡ true }
    ensures operand { IfOk result (λ e. IsOperand (state p.new) e.0) }
    ensures script { IfOk result
        (λ e. Does (G.left g.now) (script.postfix_expr allow_calls (is_block (of_like block_like))) (of_like e.1)
        (state p.old) (state p.new)) }
{
    'postfixes: loop {
        let (expr, goes_on) = postfix(p, g, lhs, allow_calls)?;
        if !goes_on {
            return Ok((expr, block_like));
        }
        lhs = expr;
        allow_calls = true;
        block_like = BlockLike::NotBlock;
    }
}

/// One call, index, field, method or `?` if one follows, and whether more may follow that. Where none does, the operand
/// is returned as it is.
#[inline(always)]
fn postfix<G: Grammar>(
    p: &mut Parser<'_>,
    g: &G,
    lhs: CompletedMarker,
    allow_calls: bool,
) -> Result<(CompletedMarker, bool), NoMemory>
    requires within { Within G.valid G.left g.now p.old }
    requires last { IsLast (state p.old) lhs lhs.kind.value }
    requires plain { is_plain lhs.kind.value ≡ true }
    ensures operand { IfOk result (λ e. IsOperand (state p.new) e.0) }
    ensures script { IfOk result
        (λ e. (blocky : Bool) → Does (G.left g.now) (script.postfix_turn allow_calls blocky)
        (if e.1 then again true false else (if blocky then block else something)) (state p.old) (state p.new)) }
{
    match p.current() {
        T!['('] if allow_calls => Ok((call_expr(p, g, lhs)?, true)),
        T!['['] if allow_calls => Ok((index_expr(p, g, lhs)?, true)),
        T![.] if !p.at(T![..=]) && !p.at(T![..]) => {
            let access = postfix_dot_expr(p, g, lhs)?;
            Ok(access)
        }
        T![?] => Ok((try_expr(p, lhs)?, true)),
        _ => Ok((lhs, false)),
    }
}

/// A dot and what follows it, as `.b`, `.0`, `.c()` and `.await`, and whether more may follow that.
#[inline(never)]
#[tactic(auto, unfolding(rap_grammar_scripts::specs::Postfix::postfix_dot_expr))]
fn postfix_dot_expr<G: Grammar>(
    p: &mut Parser<'_>,
    g: &G,
    lhs: CompletedMarker,
) -> Result<(CompletedMarker, bool), NoMemory>
    requires within { Within G.valid G.left g.now p.old }
    requires last { IsLast (state p.old) lhs lhs.kind.value }
    requires here { next (state p.old) ≡ DOT }
    ensures operand { IfOk result (λ e. IsOperand (state p.new) e.0) }
    ensures script { IfOk result
        (λ e. Does (G.left g.now) script.postfix_dot_expr (of_bool e.1) (state p.old) (state p.new)) }
{
    let m = lhs.precede(p)?;
    p.bump(T![.])?;
    let access = after_dot(p, g, m)?;
    Ok(access)
}

/// What follows a dot, and whether more may follow that: a range after the dot of a float ends all postfixes.
///
/// A float is one field, as `0.` in `a.0. b`, or two, as `0.1` in `a.0.1`. Its own dot may end it, and is then followed
/// as any other.
#[tactic(auto, using(rap_grammar_frame::proofs::Loops::turns), unfolding(rap_grammar_scripts::specs::Postfix::after_dot))]
fn after_dot<G: Grammar>(
    p: &mut Parser<'_>,
    g: &G,
    mut m: Marker,
) -> Result<(CompletedMarker, bool), NoMemory>
    requires behind { Behind G.valid G.left g.now p.old }
    requires newest { (state p.old).marker ≡ Some m.pos.value }
    ensures operand { IfOk result (λ e. IsOperand (state p.new) e.0) }
    ensures script { IfOk result (λ e. Does (G.left g.now) script.after_dot (of_bool e.1) (state p.old) (state p.new)) }
{
    'fields: loop {
        if p.current() != SyntaxKind::FLOAT_NUMBER {
            let cm = name_after_dot(p, g, m)?;
            return Ok((cm, true));
        }
        let (ends_in_dot, field) = p.split_float(m)?;
        if !ends_in_dot {
            return Ok((field, true));
        }
        if p.at(T![..=]) || p.at(T![..]) {
            return Ok((field, false));
        }
        m = field.precede(p)?;
    }
}

/// A method with its arguments, `await`, or a field's name or number after a dot.
#[tactic(auto, unfolding(rap_grammar_scripts::specs::Postfix::name_after_dot))]
fn name_after_dot<G: Grammar>(
    p: &mut Parser<'_>,
    g: &G,
    m: Marker,
) -> Result<CompletedMarker, NoMemory>
    requires behind { Behind G.valid G.left g.now p.old }
    requires newest { (state p.old).marker ≡ Some m.pos.value }
    ensures operand { IfOk result (IsOperand (state p.new)) }
    ensures script { OnOk result (Executes (G.left g.now) script.name_after_dot p.old p.new) }
{
    if is_method_call(p) {
        let cm = method_call_expr(p, g, m)?;
        return Ok(cm);
    }
    if p.at(T![await]) {
        let cm = await_expr(p, m)?;
        return Ok(cm);
    }
    let cm = field_expr(p, m)?;
    Ok(cm)
}

/// Whether what stands after a dot is called: a name before `(` or `::`, or a `(` without a name.
#[tactic(auto, unfolding(rap_grammar_scripts::specs::Postfix::is_method_call))]
fn is_method_call(p: &Parser<'_>) -> bool
    ensures { result ≡ holds is_method_call (state p.now).rest }
{
    if p.current() == T!['('] {
        return true;
    }
    is_path_name(p.current()) && (p.nth(1) == T!['('] || p.nth_at(1, T![::]))
}

/// A call, as `(1)` after `f`.
#[inline(never)]
#[tactic(auto, using(rap_grammar_facts::proofs::Postfix::facts), unfolding(rap_grammar_scripts::specs::Postfix::call_expr))]
fn call_expr<G: Grammar>(
    p: &mut Parser<'_>,
    g: &G,
    lhs: CompletedMarker,
) -> Result<CompletedMarker, NoMemory>
    requires within { Within G.valid G.left g.now p.old }
    requires last { IsLast (state p.old) lhs lhs.kind.value }
    requires here { next (state p.old) ≡ L_PAREN }
    ensures operand { IfOk result (IsOperand (state p.new)) }
    ensures script { OnOk result (Executes (G.left g.now) script.call_expr p.old p.new) }
{
    let m = lhs.precede(p)?;
    arg_list(p, g)?;
    let cm = m.complete(p, SyntaxKind::CALL_EXPR)?;
    Ok(cm)
}

/// An index, as `[0]` after `a`.
#[inline(never)]
#[tactic(auto, unfolding(rap_grammar_scripts::specs::Postfix::index_expr))]
fn index_expr<G: Grammar>(
    p: &mut Parser<'_>,
    g: &G,
    lhs: CompletedMarker,
) -> Result<CompletedMarker, NoMemory>
    requires within { Within G.valid G.left g.now p.old }
    requires last { IsLast (state p.old) lhs lhs.kind.value }
    requires here { next (state p.old) ≡ L_BRACK }
    ensures operand { IfOk result (IsOperand (state p.new)) }
    ensures script { OnOk result (Executes (G.left g.now) script.index_expr p.old p.new) }
{
    let m = lhs.precede(p)?;
    p.bump(T!['['])?;
    expr(p, g)?;
    p.expect(T![']'])?;
    let cm = m.complete(p, SyntaxKind::INDEX_EXPR)?;
    Ok(cm)
}

/// The name and the arguments of a method after the dot, as `f(1)` after `a.`.
#[tactic(auto, using(rap_grammar_frame::proofs::Steps::by_report), unfolding(rap_grammar_scripts::specs::Postfix::method_call_expr))]
fn method_call_expr<G: Grammar>(
    p: &mut Parser<'_>,
    g: &G,
    m: Marker,
) -> Result<CompletedMarker, NoMemory>
    requires behind { Behind G.valid G.left g.now p.old }
    requires newest { (state p.old).marker ≡ Some m.pos.value }
    ensures operand { IfOk result (IsOperand (state p.new)) }
    ensures script { OnOk result (Executes (G.left g.now) script.method_call_expr p.old p.new) }
{
    if is_path_name(p.current()) {
        name_ref_mod_path(p)?;
        let cm = method_arguments(p, g, m)?;
        return Ok(cm);
    }
    p.error("expected method name, field name or number")?;
    let cm = method_arguments(p, g, m)?;
    Ok(cm)
}

/// The arguments of a method after its name, as `(1)` and `::<T>(1)`.
#[tactic(auto, using(rap_grammar_facts::proofs::Postfix::marker_arg_list), unfolding(rap_grammar_scripts::specs::Postfix::method_arguments))]
fn method_arguments<G: Grammar>(
    p: &mut Parser<'_>,
    g: &G,
    m: Marker,
) -> Result<CompletedMarker, NoMemory>
    requires behind { Behind G.valid G.left g.now p.old }
    requires newest { (state p.old).marker ≡ Some m.pos.value }
    ensures operand { IfOk result (IsOperand (state p.new)) }
    ensures script { OnOk result (Executes (G.left g.now) script.method_arguments p.old p.new) }
{
    opt_generic_arg_list_expr(p, g)?;
    if p.at(T!['(']) {
        arg_list(p, g)?;
    } else {
        p.error("expected argument list")?;
    }
    let cm = m.complete(p, SyntaxKind::METHOD_CALL_EXPR)?;
    Ok(cm)
}

/// An `await` after the dot, as `await` after `a.`.
#[tactic(auto, unfolding(rap_grammar_scripts::specs::Postfix::await_expr))]
fn await_expr(p: &mut Parser<'_>, m: Marker) -> Result<CompletedMarker, NoMemory>
    requires newest { (state p.old).marker ≡ Some m.pos.value }
    requires here { next (state p.old) ≡ AWAIT_KW }
    ensures operand { IfOk result (IsOperand (state p.new)) }
    ensures script { OnOk result ((depth : ℕ) → Executes depth script.await_expr p.old p.new) }
{
    p.bump(T![await])?;
    let cm = m.complete(p, SyntaxKind::AWAIT_EXPR)?;
    Ok(cm)
}

/// A field after the dot, as `b` and `0` after `a.`.
#[tactic(auto, unfolding(rap_grammar_scripts::specs::Postfix::field_expr))]
fn field_expr(p: &mut Parser<'_>, m: Marker) -> Result<CompletedMarker, NoMemory>
    requires newest { (state p.old).marker ≡ Some m.pos.value }
    ensures operand { IfOk result (IsOperand (state p.new)) }
    ensures script { OnOk result ((depth : ℕ) → Executes depth script.field_expr p.old p.new) }
{
    if is_path_name_or_index(p.current()) {
        name_ref_mod_path_or_index(p)?;
    } else {
        p.error("expected field name or number")?;
    }
    let cm = m.complete(p, SyntaxKind::FIELD_EXPR)?;
    Ok(cm)
}

/// A question mark, as `?` after `a`.
#[inline(never)]
#[tactic(auto, unfolding(rap_grammar_scripts::specs::Postfix::try_expr))]
fn try_expr(p: &mut Parser<'_>, lhs: CompletedMarker) -> Result<CompletedMarker, NoMemory>
    requires last { IsLast (state p.old) lhs lhs.kind.value }
    requires here { next (state p.old) ≡ QUESTION }
    ensures operand { IfOk result (IsOperand (state p.new)) }
    ensures script { OnOk result ((depth : ℕ) → Executes depth script.try_expr p.old p.new) }
{
    let m = lhs.precede(p)?;
    p.bump(T![?])?;
    let cm = m.complete(p, SyntaxKind::TRY_EXPR)?;
    Ok(cm)
}

/// An argument of a call.
struct Argument;

impl Element for Argument {
    ghost use Rattle.rap_grammar_scripts.specs.ThroughKnot as through_knot_script;
    ghost use Rattle.rap_grammar_scripts.specs.First as first_script;

    ghost element = { λ _. through_knot_script.expr };

    ghost first = { λ _. first_script.is_expr_first };

    fn parse<G: Grammar>(&self, p: &mut Parser<'_>, g: &G) -> Result<bool, NoMemory> {
        let expr = expr(p, g)?;
        Ok(expr.is_some())
    }

    fn is_first(&self, kind: SyntaxKind) -> bool {
        is_expr_first(kind)
    }
}

/// The arguments of a call, as `(a, b)`.
#[tactic(auto, unfolding(rap_grammar_scripts::specs::Postfix::arg_list))]
fn arg_list<G: Grammar>(p: &mut Parser<'_>, g: &G) -> Result<(), NoMemory>
    requires within { Within G.valid G.left g.now p.old }
    requires here { next (state p.old) ≡ L_PAREN }
    ensures script { OnOk result (Executes (G.left g.now) script.arg_list p.old p.new) }
{
    let m = p.start()?;
    delimited(
        p,
        g,
        T!['('],
        T![')'],
        T![,],
        "expected expression",
        &Argument,
    )?;
    m.complete(p, SyntaxKind::ARG_LIST)?;
    Ok(())
}
