//! Expressions that begin with no operator.
ghost use Rattle.std.specs.Prelude.{ℕ, ◌≡◌, ◌≢◌, ◌<◌, ◌≤◌, IfOk, OnOk, true};
ghost use Rattle.rap_base.specs.TokenKind.{EOF, L_PAREN, L_BRACK, L_CURLY, UNDERSCORE, LIFETIME_IDENT, COLON};
ghost use Rattle.rap_events.specs.State.{state, next, NthAt};
ghost use Rattle.rap_grammar_scripts.specs.Atom as script;
ghost use Rattle.rap_grammar_scripts.specs.Words.{of_expr, of_like, of_bool};
ghost use Rattle.rap_grammar_scripts.specs.First.{is_path_start};
ghost use Rattle.rap_grammar_frame.specs.Grew.{Within, Behind};
ghost use Rattle.rap_grammar_scripts.specs.Exec.{Does, Executes};
ghost use Rattle.rap_grammar_facts.specs.Alone.{DoesAlone};
ghost use Rattle.rap_grammar_facts.specs.Nodes.{IsAtom, AtomIf};
ghost use Rattle.rap_grammar_scripts.specs.Test.{holds};

use rap_base::T;
use rap_base::no_memory::NoMemory;
use rap_base::syntax_kind::SyntaxKind;
use rap_events::parser::{CompletedMarker, Parser};
use rap_grammar_expressions_builtin::builtin::builtin_expr;
use rap_grammar_expressions_control::control::{
    if_expr, labelled_expr, let_expr, loop_expr, while_expr,
};
use rap_grammar_expressions_control::effect_blocks::{effect_expr, plain_block};
use rap_grammar_expressions_control::jumps::{
    become_expr, break_expr, continue_expr, return_expr, starts_yeet, yeet_expr, yield_expr,
};
use rap_grammar_expressions_control::matches::match_expr;
use rap_grammar_expressions_operands::records::record_expr_field_list;
use rap_grammar_frame::first::is_path_start;
use rap_grammar_frame::knot::{Answer, Grammar};
use rap_grammar_frame::literals::literal;
use rap_grammar_frame::names::starts_builtin;
use rap_grammar_frame::through_knot::expr;
use rap_grammar_frame::token_tree::{macro_call_after_excl, starts_macro_call};
use rap_grammar_paths::paths::expr_path;
use rap_grammar_scripts::arguments::{BlockLike, Restrictions};

/// An expression that begins with no operator, as `1`, `a::b` and `(a)`. Where none begins, the next token stands in an
/// `ERROR`.
#[inline(always)]
#[tactic(auto, using(crate::proofs::Atoms::atom_if, rap_grammar_facts::proofs::Builtin::moved_builtin_expr), unfolding(rap_grammar_scripts::specs::Atom::atom_expr))]
pub(crate) fn atom_expr<G: Grammar>(
    p: &mut Parser<'_>,
    g: &G,
    r: Restrictions,
) -> Result<Answer, NoMemory>
    requires within { Within G.valid G.left g.now p.old }
    requires more { next (state p.old) ≢ EOF }
    ensures atom { IfOk result (AtomIf (state p.old) (state p.new)) }
    ensures script { IfOk result
        (λ o. Does (G.left g.now) (script.atom_expr r) (of_expr o) (state p.old) (state p.new)) }
{
    if let Some(cm) = literal(p)? {
        return Ok(Some((cm, BlockLike::NotBlock)));
    }
    if starts_builtin(p) {
        let form = builtin_expr(p, g)?;
        return Ok(form);
    }
    if is_path_start(p) {
        let path = path_expr(p, g, r)?;
        return Ok(Some(path));
    }
    let other = bracketed_expr(p, g, r)?;
    Ok(other)
}

/// An expression in brackets, `_` or a `let`, or one of those that [`control_expr`] reads.
#[inline(never)]
#[tactic(auto, unfolding(rap_grammar_scripts::specs::Atom::bracketed_expr))]
fn bracketed_expr<G: Grammar>(
    p: &mut Parser<'_>,
    g: &G,
    r: Restrictions,
) -> Result<Answer, NoMemory>
    requires within { Within G.valid G.left g.now p.old }
    requires more { next (state p.old) ≢ EOF }
    ensures atom { IfOk result (AtomIf (state p.old) (state p.new)) }
    ensures script { IfOk result
        (λ o. Does (G.left g.now) (script.bracketed_expr r) (of_expr o) (state p.old) (state p.new)) }
{
    match p.current() {
        T!['('] => Ok(Some((tuple_expr(p, g)?, BlockLike::NotBlock))),
        T!['['] => Ok(Some((array_expr(p, g)?, BlockLike::NotBlock))),
        T!['{'] => Ok(Some((plain_block(p, g)?, BlockLike::Block))),
        T![_] => Ok(Some((underscore_expr(p)?, BlockLike::NotBlock))),
        T![let] => Ok(Some((let_expr(p, g, r)?, BlockLike::NotBlock))),
        _ => {
            let other = control_expr(p, g, r)?;
            Ok(other)
        }
    }
}

/// Whether a label comes next, as `'a:`.
fn starts_label(p: &Parser<'_>) -> bool
    ensures starts { result ≡ holds script.starts_label (state p.now).rest }
    ensures here { result ≡ true → next (state p.now) ≡ LIFETIME_IDENT }
    ensures colon { result ≡ true → NthAt (state p.now) 1 COLON }
{
    p.current() == T![lifetime_ident] && p.nth_at(1, T![:])
}

/// A condition, a loop or a `match`, or one of those that [`jump_expr`] reads.
#[tactic(auto, unfolding(rap_grammar_scripts::specs::Atom::control_expr))]
fn control_expr<G: Grammar>(p: &mut Parser<'_>, g: &G, r: Restrictions) -> Result<Answer, NoMemory>
    requires within { Within G.valid G.left g.now p.old }
    requires more { next (state p.old) ≢ EOF }
    ensures atom { IfOk result (AtomIf (state p.old) (state p.new)) }
    ensures script { IfOk result
        (λ o. Does (G.left g.now) (script.control_expr r) (of_expr o) (state p.old) (state p.new)) }
{
    if starts_label(p) {
        let labelled = labelled_expr(p, g)?;
        return Ok(labelled);
    }
    match p.current() {
        T![if] => Ok(Some((if_expr(p, g)?, BlockLike::Block))),
        T![loop] => Ok(Some((loop_expr(p, g)?, BlockLike::Block))),
        T![while] => Ok(Some((while_expr(p, g)?, BlockLike::Block))),
        T![match] => Ok(Some((match_expr(p, g)?, BlockLike::Block))),
        _ => {
            let other = jump_expr(p, g, r)?;
            Ok(other)
        }
    }
}

/// A jump, or one of those that [`effect_expr`] reads.
#[tactic(auto, unfolding(rap_grammar_scripts::specs::Atom::jump_expr))]
fn jump_expr<G: Grammar>(p: &mut Parser<'_>, g: &G, r: Restrictions) -> Result<Answer, NoMemory>
    requires within { Within G.valid G.left g.now p.old }
    requires more { next (state p.old) ≢ EOF }
    ensures atom { IfOk result (AtomIf (state p.old) (state p.new)) }
    ensures script { IfOk result
        (λ o. Does (G.left g.now) (script.jump_expr r) (of_expr o) (state p.old) (state p.new)) }
{
    if starts_yeet(p) {
        let yeet = yeet_expr(p, g)?;
        return Ok(Some((yeet, BlockLike::NotBlock)));
    }
    match p.current() {
        T![return] => Ok(Some((return_expr(p, g)?, BlockLike::NotBlock))),
        T![become] => Ok(Some((become_expr(p, g)?, BlockLike::NotBlock))),
        T![yield] => Ok(Some((yield_expr(p, g)?, BlockLike::NotBlock))),
        T![continue] => Ok(Some((continue_expr(p)?, BlockLike::NotBlock))),
        T![break] => Ok(Some((break_expr(p, g, r)?, BlockLike::NotBlock))),
        _ => {
            let other = effect_expr(p, g)?;
            Ok(other)
        }
    }
}

/// A `_`, as on the left of `_ = a`.
#[tactic(auto, unfolding(rap_grammar_scripts::specs::Atom::underscore_expr))]
fn underscore_expr(p: &mut Parser<'_>) -> Result<CompletedMarker, NoMemory>
    requires here { next (state p.old) ≡ UNDERSCORE }
    ensures atom { IfOk result (IsAtom (state p.old) (state p.new)) }
    ensures script { OnOk result ((depth : ℕ) → Executes depth script.underscore_expr p.old p.new) }
{
    let m = p.start()?;
    p.bump(T![_])?;
    let cm = m.complete(p, SyntaxKind::UNDERSCORE_EXPR)?;
    Ok(cm)
}

/// Whether the fields of a record come next, where a record literal may stand.
fn starts_record(p: &Parser<'_>, r: Restrictions) -> bool
    ensures starts { result ≡ holds (script.starts_record r.forbid_structs) (state p.now).rest }
    ensures here { result ≡ true → next (state p.now) ≡ L_CURLY }
{
    !r.forbid_structs && p.at(T!['{'])
}

/// A path, as `a::b`, a record literal, as `a { b: c }`, or a macro call, as `a!(b)`.
#[inline(never)]
#[tactic(auto, using(rap_grammar_frame::proofs::Done::less_left, rap_grammar_frame::proofs::Done::marker_kept, rap_grammar_facts::proofs::Records::level_record_expr_field_list, rap_grammar_facts::proofs::Paths::took_expr_path), unfolding(rap_grammar_scripts::specs::Atom::path_expr))]
fn path_expr<G: Grammar>(
    p: &mut Parser<'_>,
    g: &G,
    r: Restrictions,
) -> Result<(CompletedMarker, BlockLike), NoMemory>
    requires within { Within G.valid G.left g.now p.old }
    requires path { holds is_path_start (state p.old).rest ≡ true }
    ensures atom { IfOk result (λ e. IsAtom (state p.old) (state p.new) e.0) }
    ensures script { IfOk result
        (λ e. Does (G.left g.now) (script.path_expr r) (of_like e.1) (state p.old) (state p.new)) }
{
    let m = p.start()?;
    expr_path(p, g)?;
    if starts_record(p, r) {
        record_expr_field_list(p, g)?;
        let cm = m.complete(p, SyntaxKind::RECORD_EXPR)?;
        return Ok((cm, BlockLike::NotBlock));
    }
    if starts_macro_call(p) {
        let block_like = macro_call_after_excl(p)?;
        let call = m.complete(p, SyntaxKind::MACRO_CALL)?;
        let m = call.precede(p)?;
        let cm = m.complete(p, SyntaxKind::MACRO_EXPR)?;
        return Ok((cm, block_like));
    }
    let cm = m.complete(p, SyntaxKind::PATH_EXPR)?;
    Ok((cm, BlockLike::NotBlock))
}

/// An expression in parentheses, as `(a)`, or a tuple, as `()`, `(a,)` and `(a, b)`.
#[inline(never)]
#[tactic(auto, using(rap_grammar_frame::proofs::Done::less_left, rap_grammar_frame::proofs::Done::marker_kept, rap_grammar_facts::proofs::Atom::level_tuple_elements), unfolding(rap_grammar_scripts::specs::Atom::tuple_expr))]
fn tuple_expr<G: Grammar>(p: &mut Parser<'_>, g: &G) -> Result<CompletedMarker, NoMemory>
    requires within { Within G.valid G.left g.now p.old }
    requires here { next (state p.old) ≡ L_PAREN }
    ensures atom { IfOk result (IsAtom (state p.old) (state p.new)) }
    ensures script { OnOk result (Executes (G.left g.now) script.tuple_expr p.old p.new) }
{
    let m = p.start()?;
    p.bump(T!['('])?;
    let is_parens = tuple_elements(p, g)?;
    p.expect(T![')'])?;
    let kind = if is_parens {
        SyntaxKind::PAREN_EXPR
    } else {
        SyntaxKind::TUPLE_EXPR
    };
    let cm = m.complete(p, kind)?;
    Ok(cm)
}

/// What stands in parentheses. Returns whether it is one expression and no comma.
#[tactic(auto, using(rap_grammar_frame::proofs::Loops::turns), unfolding(rap_grammar_scripts::specs::Atom::tuple_elements))]
fn tuple_elements<G: Grammar>(p: &mut Parser<'_>, g: &G) -> Result<bool, NoMemory>
    requires behind { Behind G.valid G.left g.now p.old }
    ensures script { IfOk result
        (λ parens. Does (G.left g.now) script.tuple_elements (of_bool parens) (state p.old) (state p.new)) }
{
    let mut saw_comma = false;
    let mut saw_expr = false;
    'elements: while !p.at(SyntaxKind::EOF) && !p.at(T![')']) {
        if p.at(T![,]) {
            // An element is missing, as in `(a, , b)`.
            p.error("expected expression")?;
            p.bump(T![,])?;
            saw_comma = true;
            continue;
        }
        saw_expr = true;
        if expr(p, g)?.is_none() {
            return Ok(!saw_comma);
        }
        if !p.at(T![')']) {
            saw_comma = true;
            p.expect(T![,])?;
        }
    }
    Ok(saw_expr && !saw_comma)
}

/// An array by its elements, as `[a, b]`, or by one and their number, as `[a; n]`.
#[inline(never)]
#[tactic(auto, using(rap_grammar_frame::proofs::Done::less_left, rap_grammar_frame::proofs::Done::marker_kept, rap_grammar_facts::proofs::Atom::level_array_elements), unfolding(rap_grammar_scripts::specs::Atom::array_expr))]
fn array_expr<G: Grammar>(p: &mut Parser<'_>, g: &G) -> Result<CompletedMarker, NoMemory>
    requires within { Within G.valid G.left g.now p.old }
    requires here { next (state p.old) ≡ L_BRACK }
    ensures atom { IfOk result (IsAtom (state p.old) (state p.new)) }
    ensures script { OnOk result (Executes (G.left g.now) script.array_expr p.old p.new) }
{
    let m = p.start()?;
    p.bump(T!['['])?;
    array_elements(p, g)?;
    p.expect(T![']'])?;
    let cm = m.complete(p, SyntaxKind::ARRAY_EXPR)?;
    Ok(cm)
}

/// What stands in the brackets of an array.
#[tactic(auto, using(rap_grammar_facts::proofs::Alone::alone_less_left, rap_grammar_frame::proofs::Loops::turns), unfolding(rap_grammar_scripts::specs::Atom::array_elements))]
fn array_elements<G: Grammar>(p: &mut Parser<'_>, g: &G) -> Result<(), NoMemory>
    requires behind { Behind G.valid G.left g.now p.old }
    ensures script { OnOk result (Executes (G.left g.now) script.array_elements p.old p.new) }
{
    let mut is_first = true;
    let mut has_semi = false;
    'elements: while !p.at(SyntaxKind::EOF) && !p.at(T![']']) {
        if expr(p, g)?.is_none() {
            return Ok(());
        }
        match after_element(p, is_first, has_semi)? {
            Some(semi) => has_semi = semi,
            None => return Ok(()),
        }
        is_first = false;
    }
    Ok(())
}

/// What stands after an element of an array: a semicolon after the first one, or a comma. Returns whether there was a
/// semicolon, or `None` where the array ends.
#[tactic(auto, unfolding(rap_grammar_scripts::specs::Atom::after_element))]
fn after_element(
    p: &mut Parser<'_>,
    is_first: bool,
    has_semi: bool,
) -> Result<Option<bool>, NoMemory>
    ensures script { IfOk result
        (λ o. DoesAlone (script.after_element is_first has_semi) (script.of_semi o) (state p.old) (state p.new)) }
{
    if is_first && p.at(T![;]) {
        p.bump(T![;])?;
        return Ok(Some(true));
    }
    if has_semi {
        return Ok(None);
    }
    if p.at(T![']']) {
        return Ok(Some(false));
    }
    if p.expect(T![,])? {
        return Ok(Some(false));
    }
    Ok(None)
}
