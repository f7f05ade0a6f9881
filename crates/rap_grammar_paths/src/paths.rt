//! Paths.
ghost use Rattle.std.specs.Prelude.{◌≡◌, ◌⊎◌, ◌<◌, ◌≤◌, OnOk, true, IfOk, Some, ℕ, drop};
ghost use Rattle.rap_base.specs.NodeKind.{PATH};
ghost use Rattle.rap_base.specs.TokenKind.{COLON2, L_ANGLE, L_PAREN, DOT2};
ghost use Rattle.rap_base.specs.TokenSet.{member};
ghost use Rattle.rap_events.specs.State.{state, IsLast, next};
ghost use Rattle.rap_events.specs.Composite.{is_at};
ghost use Rattle.rap_grammar_scripts.specs.First.{is_path_start};
ghost use Rattle.rap_grammar_frame.specs.Grew.{Within, Grew, Behind};
ghost use Rattle.rap_grammar_scripts.specs.Exec.{Does, Executes};
ghost use Rattle.rap_grammar_facts.specs.Alone.{DoesAlone, ExecutesAlone};
ghost use Rattle.rap_grammar_scripts.specs.Paths as script;
ghost use Rattle.rap_grammar_scripts.specs.Recovery.{is_segment_recovery};
ghost use Rattle.rap_grammar_scripts.specs.Test.{holds};
ghost use Rattle.rap_grammar_scripts.specs.Words.{of_option};

use crate::generic_arg_list::{generic_arg_list, opt_generic_arg_list_expr};
use rap_base::T;
use rap_base::no_memory::NoMemory;
use rap_base::syntax_kind::SyntaxKind;
use rap_base::token_set::TokenSet;
use rap_events::parser::{CompletedMarker, Marker, Parser};
use rap_grammar_frame::first::{is_type_first, is_use_path_start};
use rap_grammar_frame::knot::Grammar;
use rap_grammar_frame::lists::{Element, delimited};
use rap_grammar_frame::names::{is_path_name, name_ref_mod_path};
use rap_grammar_frame::recovery::{expr_recovery_set, item_recovery_set, type_recovery_set};
use rap_grammar_frame::through_knot::{opt_ret_type, type_};
use rap_grammar_scripts::arguments::Mode;
use rap_grammar_scripts::rule::Rule;

/// A path in an import, as `a::b`, and where an item may be a macro call.
#[inline(never)]
#[tactic(auto, unfolding(rap_grammar_scripts::specs::Paths::use_path))]
pub fn use_path<G: Grammar>(p: &mut Parser<'_>, g: &G) -> Result<(), NoMemory>
    requires within { Within G.valid G.left g.now p.old }
    ensures script { OnOk result (Executes (G.left g.now) script.use_path p.old p.new) }
{
    path(p, g, Mode::Use)?;
    Ok(())
}

/// A path in a restriction, as the `a::b` of `pub(in a::b)`.
#[inline(never)]
#[tactic(auto, unfolding(rap_grammar_scripts::specs::Paths::vis_path))]
pub fn vis_path<G: Grammar>(p: &mut Parser<'_>, g: &G) -> Result<(), NoMemory>
    requires within { Within G.valid G.left g.now p.old }
    ensures script { OnOk result (Executes (G.left g.now) script.vis_path p.old p.new) }
{
    path(p, g, Mode::Vis)?;
    Ok(())
}

/// A path in an attribute, as the `a::b` of `#[a::b]`.
#[inline(never)]
#[tactic(auto, unfolding(rap_grammar_scripts::specs::Paths::attr_path))]
pub fn attr_path<G: Grammar>(p: &mut Parser<'_>, g: &G) -> Result<(), NoMemory>
    requires within { Within G.valid G.left g.now p.old }
    ensures script { OnOk result (Executes (G.left g.now) script.attr_path p.old p.new) }
{
    path(p, g, Mode::Attr)?;
    Ok(())
}

/// A path in a type, as `a::b<c>`.
#[inline(never)]
#[tactic(auto, unfolding(rap_grammar_scripts::specs::Paths::type_path))]
pub fn type_path<G: Grammar>(p: &mut Parser<'_>, g: &G) -> Result<(), NoMemory>
    requires within { Within G.valid G.left g.now p.old }
    requires path { holds is_path_start (state p.old).rest ≡ true }
    ensures script { OnOk result (Executes (G.left g.now) script.type_path p.old p.new) }
{
    path(p, g, Mode::Type)?;
    Ok(())
}

/// A path in a type, where one may be missing, as after the `sym` of inline assembly or at the front of an input.
#[inline(never)]
#[tactic(auto, using(rap_grammar_facts::proofs::Paths::grew_path), unfolding(rap_grammar_scripts::specs::Paths::type_path))]
pub fn sym_path<G: Grammar>(p: &mut Parser<'_>, g: &G) -> Result<(), NoMemory>
    requires within { Within G.valid G.left g.now p.old }
    ensures grew { OnOk result (Grew (state p.old) (state p.new) 8) }
    ensures script { OnOk result (Executes (G.left g.now) script.type_path p.old p.new) }
{
    path(p, g, Mode::Type)?;
    Ok(())
}

/// A path in an expression, as `a::b::<c>` and `::a`.
#[inline(always)]
#[tactic(auto, unfolding(rap_grammar_scripts::specs::Paths::expr_path))]
pub fn expr_path<G: Grammar>(p: &mut Parser<'_>, g: &G) -> Result<(), NoMemory>
    requires within { Within G.valid G.left g.now p.old }
    requires path { holds is_path_start (state p.old).rest ≡ true }
    ensures script { OnOk result (Executes (G.left g.now) script.expr_path p.old p.new) }
{
    path(p, g, Mode::Expr)?;
    Ok(())
}

/// The segments after a first path in a type, as `::b<c>` after `a`.
#[inline(never)]
#[tactic(auto, using(rap_grammar_facts::proofs::Paths::grew_path_for_qualifier), unfolding(rap_grammar_scripts::specs::Paths::type_path_for_qualifier))]
pub fn type_path_for_qualifier<G: Grammar>(
    p: &mut Parser<'_>,
    g: &G,
    qual: CompletedMarker,
) -> Result<CompletedMarker, NoMemory>
    requires within { Within G.valid G.left g.now p.old }
    requires last { IsLast (state p.old) qual PATH }
    ensures grew { OnOk result (Grew (state p.old) (state p.new) 0) }
    ensures last { IfOk result (λ cm. IsLast (state p.new) cm PATH) }
    ensures script { OnOk result (Executes (G.left g.now) script.type_path_for_qualifier p.old p.new) }
{
    let path = path_for_qualifier(p, g, Mode::Type, qual)?;
    Ok(path)
}

/// A path. None, and a message, where no name follows and nothing was taken.
#[inline(always)]
#[tactic(auto, using(rap_grammar_frame::proofs::Done::less_left, rap_grammar_frame::proofs::Done::marker_kept, rap_grammar_facts::proofs::Paths::level_path_segment), unfolding(rap_grammar_scripts::specs::Paths::path))]
fn path<G: Grammar>(
    p: &mut Parser<'_>,
    g: &G,
    mode: Mode,
) -> Result<Option<CompletedMarker>, NoMemory>
    requires within { Within G.valid G.left g.now p.old }
    ensures script { IfOk result
        (λ o. Does (G.left g.now) (script.path mode) (of_option o) (state p.old) (state p.new)) }
{
    let path = p.start()?;
    if path_segment(p, g, mode, true)?.is_none() {
        path.abandon(p)?;
        return Ok(None);
    }
    let qual = path.complete(p, SyntaxKind::PATH)?;
    let path = path_for_qualifier(p, g, mode, qual)?;
    Ok(Some(path))
}

/// Whether another segment comes next: of what is imported, no list and no star, as in `a::{b, c}` and `a::*`.
#[inline(always)]
fn has_segment(p: &Parser<'_>, mode: Mode) -> bool
    ensures segment { result ≡ holds (script.has_segment mode) (state p.now).rest }
    ensures here { result ≡ true → is_at COLON2 (state p.now).rest ≡ true }
{
    match mode {
        Mode::Use => p.at(T![::]) && !matches!(p.nth(2), T![*] | T!['{']),
        _ => p.at(T![::]),
    }
}

/// The segments after a first path, as `::b::c` after `a`.
#[inline(always)]
#[tactic(auto, using(rap_grammar_frame::proofs::Loops::turns, rap_grammar_frame::proofs::Done::less_left, rap_grammar_frame::proofs::Done::marker_kept, rap_grammar_facts::proofs::Paths::level_path_segment), unfolding(rap_grammar_scripts::specs::Paths::path_for_qualifier))]
fn path_for_qualifier<G: Grammar>(
    p: &mut Parser<'_>,
    g: &G,
    mode: Mode,
    mut qual: CompletedMarker,
) -> Result<CompletedMarker, NoMemory>
    requires within { Within G.valid G.left g.now p.old }
    requires last { IsLast (state p.old) qual PATH }
    ensures last { IfOk result (λ cm. IsLast (state p.new) cm PATH) }
    ensures script { OnOk result (Executes (G.left g.now) (script.path_for_qualifier mode) p.old p.new) }
{
    'segments: while has_segment(p, mode) {
        let path = qual.precede(p)?;
        p.bump(T![::])?;
        path_segment(p, g, mode, false)?;
        qual = path.complete(p, SyntaxKind::PATH)?;
    }
    Ok(qual)
}

/// A segment of a path, as `a`, and `::a` and `<a as b>` where it is the first. None, and a message, where no name
/// follows.
#[inline(always)]
#[tactic(auto, using(rap_grammar_frame::proofs::Done::marker_kept, rap_grammar_facts::proofs::Paths::level_type_anchor), unfolding(rap_grammar_scripts::specs::Paths::path_segment))]
fn path_segment<G: Grammar>(
    p: &mut Parser<'_>,
    g: &G,
    mode: Mode,
    first: bool,
) -> Result<Option<CompletedMarker>, NoMemory>
    requires within { Within G.valid G.left g.now p.old }
    ensures script { IfOk result
        (λ o. Does (G.left g.now) (script.path_segment mode first) (of_option o) (state p.old) (state p.new)) }
{
    let m = p.start()?;
    if !first {
        let segment = segment_name(p, g, m, mode, true)?;
        return Ok(segment);
    }
    if p.at(T![<]) {
        type_anchor(p, g)?;
        let segment = m.complete(p, SyntaxKind::PATH_SEGMENT)?;
        return Ok(Some(segment));
    }
    if p.eat(T![::])? {
        let segment = segment_name(p, g, m, mode, false)?;
        return Ok(segment);
    }
    let segment = segment_name(p, g, m, mode, true)?;
    Ok(segment)
}

/// A type, and its trait, in the angle brackets that a path begins with, as the `<a as b>` of `<a as b>::c`.
#[inline(always)]
#[tactic(auto, using(rap_grammar_frame::proofs::Done::marker_kept, rap_grammar_facts::proofs::Paths::level_anchor_trait), unfolding(rap_grammar_scripts::specs::Paths::type_anchor))]
fn type_anchor<G: Grammar>(p: &mut Parser<'_>, g: &G) -> Result<(), NoMemory>
    requires within { Within G.valid G.left g.now p.old }
    requires here { next (state p.old) ≡ L_ANGLE }
    ensures script { OnOk result (Executes (G.left g.now) script.type_anchor p.old p.new) }
{
    let m = p.start()?;
    p.bump(T![<])?;
    type_(p, g)?;
    anchor_trait(p, g)?;
    p.expect(T![>])?;
    m.complete(p, SyntaxKind::TYPE_ANCHOR)?;
    if !p.at(T![::]) {
        p.error("expected `::`")?;
    }
    Ok(())
}

/// The trait of a type anchor, as the `as b` of `<a as b>::c`, if it has one.
#[tactic(auto, unfolding(rap_grammar_scripts::specs::Paths::anchor_trait, rap_grammar_scripts::specs::ThroughKnot::path_type_bounds))]
fn anchor_trait<G: Grammar>(p: &mut Parser<'_>, g: &G) -> Result<(), NoMemory>
    requires behind { Behind G.valid G.left g.now p.old }
    ensures script { OnOk result (Executes (G.left g.now) script.anchor_trait p.old p.new) }
{
    if !p.eat(T![as])? {
        return Ok(());
    }
    if is_use_path_start(p) {
        g.run(p, Rule::PathTypeBounds)?;
        return Ok(());
    }
    p.error("expected a trait")?;
    Ok(())
}

/// The name of a segment whose marker is open, and the arguments after it, as `a::<b>`. None, and a message, where no
/// name follows and nothing was taken.
#[inline(always)]
#[tactic(auto, using(rap_grammar_frame::proofs::Done::marker_kept, rap_grammar_facts::proofs::Paths::level_opt_path_args), unfolding(rap_grammar_scripts::specs::Paths::segment_name))]
fn segment_name<G: Grammar>(
    p: &mut Parser<'_>,
    g: &G,
    m: Marker,
    mode: Mode,
    empty: bool,
) -> Result<Option<CompletedMarker>, NoMemory>
    requires within { Within G.valid G.left g.now p.old }
    requires newest { (state p.old).marker ≡ Some m.pos.value }
    ensures script { IfOk result
        (λ o. Does (G.left g.now) (script.segment_name mode empty) (of_option o) (state p.old) (state p.new)) }
{
    if !is_path_name(p.current()) {
        let segment = missing_segment_name(p, m, mode, empty)?;
        return Ok(segment);
    }
    name_ref_mod_path(p)?;
    opt_path_args(p, g, mode)?;
    let segment = m.complete(p, SyntaxKind::PATH_SEGMENT)?;
    Ok(Some(segment))
}

/// A segment's name is missing. It is a function of its own so that the set takes no room on the stack of the rules
/// that nest.
#[inline(never)]
#[tactic(auto, unfolding(rap_grammar_scripts::specs::Paths::missing_segment_name))]
fn missing_segment_name(
    p: &mut Parser<'_>,
    m: Marker,
    mode: Mode,
    empty: bool,
) -> Result<Option<CompletedMarker>, NoMemory>
    requires newest { (state p.old).marker ≡ Some m.pos.value }
    ensures script { IfOk result
        (λ o. DoesAlone (script.missing_segment_name mode empty) (of_option o) (state p.old) (state p.new)) }
{
    let stopped = p.err_recover(
        "expected identifier, `self`, `super`, `crate`, or `Self`",
        segment_recovery_set(mode),
    )?;
    if empty && stopped {
        m.abandon(p)?;
        return Ok(None);
    }
    let segment = m.complete(p, SyntaxKind::PATH_SEGMENT)?;
    Ok(Some(segment))
}

/// The recovery set of a segment's name.
fn segment_recovery_set(mode: Mode) -> TokenSet
    ensures { (kind : ℕ) → member result kind ≡ is_segment_recovery mode kind }
{
    match mode {
        Mode::Use => item_recovery_set(),
        Mode::Attr => item_recovery_set().union(TokenSet::new(&[T![']'], T![=], T![#]])),
        Mode::Type => type_recovery_set(),
        Mode::Expr => expr_recovery_set().union(item_recovery_set()),
        Mode::Vis => item_recovery_set().union(TokenSet::new(&[T![')']])),
    }
}

/// The arguments after a name, as they may be where the path stands.
#[inline(always)]
#[tactic(auto, unfolding(rap_grammar_scripts::specs::Paths::opt_path_args))]
fn opt_path_args<G: Grammar>(p: &mut Parser<'_>, g: &G, mode: Mode) -> Result<(), NoMemory>
    requires within { Within G.valid G.left g.now p.old }
    ensures script { OnOk result (Executes (G.left g.now) (script.opt_path_args mode) p.old p.new) }
{
    match mode {
        Mode::Use | Mode::Attr | Mode::Vis => Ok(()),
        Mode::Type => {
            opt_path_type_args(p, g)?;
            Ok(())
        }
        Mode::Expr => {
            opt_generic_arg_list_expr(p, g)?;
            Ok(())
        }
    }
}

/// Whether arguments in a type come next, with `::` before their bracket.
fn has_args_behind(p: &Parser<'_>) -> bool
    ensures { result ≡ holds script.has_args_behind (state p.now).rest }
{
    p.at(T![::]) && matches!(p.nth(2), T![<] | T!['('])
}

/// Whether arguments in a type come next, from their bracket on.
fn has_args(p: &Parser<'_>) -> bool
    ensures { result ≡ holds script.has_args (state p.now).rest }
{
    (p.current() == T![<] && p.nth(1) != T![=]) || p.current() == T!['(']
}

/// The arguments after a name in a type, as `<a>`, `::<a>` and `(a) -> b`, if there are.
#[inline(always)]
#[tactic(auto, using(rap_grammar_facts::proofs::Paths::ended_path_type_args), unfolding(rap_grammar_scripts::specs::Paths::opt_path_type_args))]
pub fn opt_path_type_args<G: Grammar>(p: &mut Parser<'_>, g: &G) -> Result<(), NoMemory>
    requires within { Within G.valid G.left g.now p.old }
    ensures grew { OnOk result (Grew (state p.old) (state p.new) 0) }
    ensures script { OnOk result (Executes (G.left g.now) script.opt_path_type_args p.old p.new) }
{
    if has_args_behind(p) {
        let m = p.start()?;
        p.bump(T![::])?;
        path_type_args(p, g, m)?;
        return Ok(());
    }
    if has_args(p) {
        let m = p.start()?;
        path_type_args(p, g, m)?;
    }
    Ok(())
}

/// Arguments in a type from their bracket on, as `<a>`, `(a) -> b` and `(..)`, whose marker is open.
#[inline(never)]
#[tactic(auto, unfolding(rap_grammar_scripts::specs::Paths::path_type_args))]
fn path_type_args<G: Grammar>(p: &mut Parser<'_>, g: &G, m: Marker) -> Result<(), NoMemory>
    requires within { Within G.valid G.left g.now p.old }
    requires newest { (state p.old).marker ≡ Some m.pos.value }
    requires here { (next (state p.old) ≡ L_PAREN) ⊎ (next (state p.old) ≡ L_ANGLE) }
    ensures script { OnOk result (Executes (G.left g.now) script.path_type_args p.old p.new) }
{
    if p.current() == T![<] {
        generic_arg_list(p, g, m)?;
        return Ok(());
    }
    if p.nth_at(1, T![..]) {
        return_type_syntax(p, m)?;
        return Ok(());
    }
    parenthesized_args(p, g, m)?;
    Ok(())
}

/// Two dots in parentheses, for any return type, as `(..)` after `a::b`. The marker is open.
#[tactic(auto, unfolding(rap_grammar_scripts::specs::Paths::return_type_syntax))]
fn return_type_syntax(p: &mut Parser<'_>, m: Marker) -> Result<(), NoMemory>
    requires newest { (state p.old).marker ≡ Some m.pos.value }
    requires here { next (state p.old) ≡ L_PAREN }
    requires dots { is_at DOT2 (drop 1 (state p.old).rest) ≡ true }
    ensures script { OnOk result (ExecutesAlone script.return_type_syntax p.old p.new) }
{
    p.bump(T!['('])?;
    p.bump(T![..])?;
    p.expect(T![')'])?;
    m.complete(p, SyntaxKind::RETURN_TYPE_SYNTAX)?;
    Ok(())
}

/// The types of a function's parameters and its return type, as `(a, b) -> c` after `Fn`. The marker is open.
#[tactic(auto, unfolding(rap_grammar_scripts::specs::Paths::parenthesized_args))]
fn parenthesized_args<G: Grammar>(p: &mut Parser<'_>, g: &G, m: Marker) -> Result<(), NoMemory>
    requires within { Within G.valid G.left g.now p.old }
    requires newest { (state p.old).marker ≡ Some m.pos.value }
    requires here { next (state p.old) ≡ L_PAREN }
    ensures script { OnOk result (Executes (G.left g.now) script.parenthesized_args p.old p.new) }
{
    delimited(p, g, T!['('], T![')'], T![,], "expected type", &TypeArg)?;
    m.complete(p, SyntaxKind::PARENTHESIZED_ARG_LIST)?;
    opt_ret_type(p, g)?;
    Ok(())
}

/// The type of a function's parameter, as `a` in `Fn(a)`.
struct TypeArg;

impl Element for TypeArg {
    ghost use Rattle.rap_grammar_scripts.specs.First as first_script;

    ghost element = { λ _. script.type_arg_element };

    ghost first = { λ _. first_script.is_type_first };

    #[tactic(auto, unfolding(rap_grammar_scripts::specs::Paths::type_arg_element))]
    fn parse<G: Grammar>(&self, p: &mut Parser<'_>, g: &G) -> Result<bool, NoMemory> {
        let progress = is_type_first(p.current());
        let m = p.start()?;
        type_(p, g)?;
        m.complete(p, SyntaxKind::TYPE_ARG)?;
        Ok(progress)
    }

    fn is_first(&self, kind: SyntaxKind) -> bool {
        is_type_first(kind)
    }
}
