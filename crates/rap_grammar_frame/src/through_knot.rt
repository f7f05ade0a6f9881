//! Calls of the recursive rules, as parts of others.
//! In the Rust crate: `grammar.rs`, and in `grammar/` `expressions.rs`, `generic_params.rs`, `patterns.rs`, `types.rs`.
ghost use Rattle.std.specs.Prelude.{◌≡◌, ◌≢◌, ◌<◌, ◌≤◌, OnOk, IfOk, true, false, Some, None, ◌∷◌};
ghost use Rattle.rap_base.specs.TokenKind.{COLON, FOR_KW, IF_KW};
ghost use Rattle.rap_events.specs.State.{state, next};
ghost use Rattle.rap_grammar_scripts.specs.ThroughKnot as script;
ghost use Rattle.rap_grammar_scripts.specs.Words.{of_expr, of_bool, of_option};
ghost use Rattle.rap_grammar_frame.specs.Grew.{Within, Grew, Behind, Reads, Took};
ghost use Rattle.rap_grammar_scripts.specs.Exec.{Does, Executes};
ghost use Rattle.rap_grammar_scripts.specs.Recovery.{stops_expr};
ghost use Rattle.rap_grammar_frame.specs.Room.{atom_room, expression_room, list_room};
ghost use Rattle.rap_grammar_frame.specs.Rules.{Answered, IsArmPattern, IsPattern, IsSinglePattern, IsType};

use crate::knot::{Answer, Grammar};
use crate::names::is_path_name;
use rap_base::T;
use rap_base::no_memory::NoMemory;
use rap_base::syntax_kind::SyntaxKind;
use rap_events::parser::{CompletedMarker, Parser};
use rap_grammar_scripts::arguments::Restrictions;
use rap_grammar_scripts::rule::Rule;

/// The return type of a function, as `-> a`, if there is one. Returns whether there is.
#[tactic(auto, unfolding(rap_grammar_scripts::specs::ThroughKnot::opt_ret_type))]
pub fn opt_ret_type<G: Grammar>(p: &mut Parser<'_>, g: &G) -> Result<bool, NoMemory>
    requires within { Within G.valid G.left g.now p.old }
    ensures grew { OnOk result (Grew (state p.old) (state p.new) 0) }
    ensures script { IfOk result
        (λ found. Does (G.left g.now) script.opt_ret_type (of_bool found) (state p.old) (state p.new)) }
{
    if !p.at(T![->]) {
        return Ok(false);
    }
    let m = p.start()?;
    p.bump(T![->])?;
    type_no_bounds(p, g)?;
    m.complete(p, SyntaxKind::RET_TYPE)?;
    Ok(true)
}

/// The same without the arrow, which is reported: a type where a name of a path comes next.
#[tactic(auto, unfolding(rap_grammar_scripts::specs::ThroughKnot::opt_no_arrow_ret_type))]
pub fn opt_no_arrow_ret_type<G: Grammar>(p: &mut Parser<'_>, g: &G) -> Result<bool, NoMemory>
    requires behind { Behind G.valid G.left g.now p.old }
    ensures grew { OnOk result (Grew (state p.old) (state p.new) 0) }
    ensures script { IfOk result
        (λ found. Does (G.left g.now) script.opt_no_arrow_ret_type (of_bool found) (state p.old)
        (state p.new)) }
{
    if !is_path_name(p.current()) {
        return Ok(false);
    }
    let m = p.start()?;
    p.error("missing thin-arrow `->`")?;
    type_no_bounds(p, g)?;
    m.complete(p, SyntaxKind::RET_TYPE)?;
    Ok(true)
}

/// An expression, after a token of the rule around it.
#[tactic(auto, unfolding(rap_grammar_scripts::specs::ThroughKnot::expr))]
pub fn expr<G: Grammar>(p: &mut Parser<'_>, g: &G) -> Result<Option<CompletedMarker>, NoMemory>
    requires behind { Behind G.valid G.left g.now p.old }
    ensures reads { IfOk result (Reads expression_room 8 (state p.old) (state p.new)) }
    ensures took { OnOk result (stops_expr (next (state p.old)) ≡ false → Took (state p.old) (state p.new) expression_room) }
    ensures script { IfOk result (λ o. Does (G.left g.now) script.expr (of_option o) (state p.old) (state p.new)) }
{
    let r = Restrictions {
        forbid_structs: false,
        prefer_stmt: false,
    };
    match g.run(p, Rule::ExprBp { r, bp: 1 })? {
        Some((cm, _)) => Ok(Some(cm)),
        None => Ok(None),
    }
}

/// An expression in which no record literal may stand, as before the block of an `if`.
#[tactic(auto, unfolding(rap_grammar_scripts::specs::ThroughKnot::expr_no_struct))]
pub fn expr_no_struct<G: Grammar>(p: &mut Parser<'_>, g: &G) -> Result<(), NoMemory>
    requires behind { Behind G.valid G.left g.now p.old }
    ensures grew { OnOk result (Grew (state p.old) (state p.new) 8) }
    ensures script { OnOk result (Executes (G.left g.now) script.expr_no_struct p.old p.new) }
{
    let r = Restrictions {
        forbid_structs: true,
        prefer_stmt: false,
    };
    g.run(p, Rule::ExprBp { r, bp: 1 })?;
    Ok(())
}

/// An expression that ends after a block, as a statement does.
#[tactic(auto, unfolding(rap_grammar_scripts::specs::ThroughKnot::expr_stmt))]
pub fn expr_stmt<G: Grammar>(p: &mut Parser<'_>, g: &G) -> Result<Answer, NoMemory>
    requires behind { Behind G.valid G.left g.now p.old }
    ensures answered { IfOk result (Answered (state p.old) (state p.new) true 1) }
    ensures script { IfOk result (λ e. Does (G.left g.now) script.expr_stmt (of_expr e) (state p.old) (state p.new)) }
{
    let r = Restrictions {
        forbid_structs: false,
        prefer_stmt: true,
    };
    let expr = g.run(p, Rule::ExprBp { r, bp: 1 })?;
    Ok(expr)
}

// calls: written by crates/rap_grammar_scripts/rules up to "end"
/// A type, after a token of the rule around it.
#[tactic(auto, unfolding(rap_grammar_scripts::specs::ThroughKnot::type_))]
pub fn type_<G: Grammar>(p: &mut Parser<'_>, g: &G) -> Result<(), NoMemory>
    requires behind { Behind G.valid G.left g.now p.old }
    ensures reads { OnOk result (IsType (state p.old) (state p.new)) }
    ensures script { OnOk result (Executes (G.left g.now) script.type_ p.old p.new) }
{
    g.run(p, Rule::TypeWithBoundsCond { allow_bounds: true })?;
    Ok(())
}

/// A type without bounds after it.
#[tactic(auto, unfolding(rap_grammar_scripts::specs::ThroughKnot::type_no_bounds))]
pub fn type_no_bounds<G: Grammar>(p: &mut Parser<'_>, g: &G) -> Result<(), NoMemory>
    requires behind { Behind G.valid G.left g.now p.old }
    ensures reads { OnOk result (IsType (state p.old) (state p.new)) }
    ensures script { OnOk result (Executes (G.left g.now) script.type_no_bounds p.old p.new) }
{
    g.run(
        p,
        Rule::TypeWithBoundsCond {
            allow_bounds: false,
        },
    )?;
    Ok(())
}

/// A pattern, after a token of the rule around it.
#[tactic(auto, unfolding(rap_grammar_scripts::specs::ThroughKnot::pattern))]
pub fn pattern<G: Grammar>(p: &mut Parser<'_>, g: &G) -> Result<(), NoMemory>
    requires behind { Behind G.valid G.left g.now p.old }
    ensures reads { OnOk result (IsPattern (state p.old) (state p.new)) }
    ensures script { OnOk result (Executes (G.left g.now) script.pattern p.old p.new) }
{
    g.run(p, Rule::Pattern)?;
    Ok(())
}

/// A pattern without alternatives.
#[tactic(auto, unfolding(rap_grammar_scripts::specs::ThroughKnot::pattern_single))]
pub fn pattern_single<G: Grammar>(p: &mut Parser<'_>, g: &G) -> Result<(), NoMemory>
    requires behind { Behind G.valid G.left g.now p.old }
    ensures reads { OnOk result (IsSinglePattern (state p.old) (state p.new)) }
    ensures script { OnOk result (Executes (G.left g.now) script.pattern_single p.old p.new) }
{
    g.run(p, Rule::PatternSingle)?;
    Ok(())
}

/// Generic parameters, as `<T, 'a>`, if there are.
#[tactic(auto, unfolding(rap_grammar_scripts::specs::ThroughKnot::opt_generic_param_list))]
pub fn opt_generic_param_list<G: Grammar>(p: &mut Parser<'_>, g: &G) -> Result<(), NoMemory>
    requires behind { Behind G.valid G.left g.now p.old }
    ensures grew { OnOk result (Grew (state p.old) (state p.new) 0) }
    ensures script { OnOk result (Executes (G.left g.now) script.opt_generic_param_list p.old p.new) }
{
    if !p.at(T![<]) {
        return Ok(());
    }
    g.run(p, Rule::GenericParamList)?;
    Ok(())
}

/// Bounds after their colon, as `: A + B`.
#[tactic(auto, unfolding(rap_grammar_scripts::specs::ThroughKnot::bounds))]
pub fn bounds<G: Grammar>(p: &mut Parser<'_>, g: &G) -> Result<(), NoMemory>
    requires within { Within G.valid G.left g.now p.old }
    requires here { next (state p.old) ≡ COLON }
    ensures took { OnOk result (Took (state p.old) (state p.new) list_room) }
    ensures script { OnOk result (Executes (G.left g.now) script.bounds p.old p.new) }
{
    p.bump(T![:])?;
    g.run(p, Rule::BoundsWithoutColon)?;
    Ok(())
}

/// Bounds, as `A + B`.
#[tactic(auto, unfolding(rap_grammar_scripts::specs::ThroughKnot::bounds_without_colon))]
pub fn bounds_without_colon<G: Grammar>(p: &mut Parser<'_>, g: &G) -> Result<(), NoMemory>
    requires behind { Behind G.valid G.left g.now p.old }
    ensures grew { OnOk result (Grew (state p.old) (state p.new) 16) }
    ensures script { OnOk result (Executes (G.left g.now) script.bounds_without_colon p.old p.new) }
{
    g.run(p, Rule::BoundsWithoutColon)?;
    Ok(())
}

/// A `where` clause, as `where T: A`, if there is one.
#[tactic(auto, unfolding(rap_grammar_scripts::specs::ThroughKnot::opt_where_clause))]
pub fn opt_where_clause<G: Grammar>(p: &mut Parser<'_>, g: &G) -> Result<(), NoMemory>
    requires behind { Behind G.valid G.left g.now p.old }
    ensures grew { OnOk result (Grew (state p.old) (state p.new) 0) }
    ensures script { OnOk result (Executes (G.left g.now) script.opt_where_clause p.old p.new) }
{
    if !p.at(T![where]) {
        return Ok(());
    }
    g.run(p, Rule::WhereClause)?;
    Ok(())
}

/// The pattern of an arm of a `match`.
#[tactic(auto, unfolding(rap_grammar_scripts::specs::ThroughKnot::arm_pattern))]
pub fn arm_pattern<G: Grammar>(p: &mut Parser<'_>, g: &G) -> Result<(), NoMemory>
    requires behind { Behind G.valid G.left g.now p.old }
    ensures reads { OnOk result (IsArmPattern (state p.old) (state p.new)) }
    ensures script { OnOk result (Executes (G.left g.now) script.arm_pattern p.old p.new) }
{
    g.run(p, Rule::ArmPattern)?;
    Ok(())
}

/// An `if` after an `else`.
#[tactic(auto, unfolding(rap_grammar_scripts::specs::ThroughKnot::if_expr))]
pub fn if_expr<G: Grammar>(p: &mut Parser<'_>, g: &G) -> Result<(), NoMemory>
    requires behind { Behind G.valid G.left g.now p.old }
    requires here { next (state p.old) ≡ IF_KW }
    ensures took { OnOk result (Took (state p.old) (state p.new) atom_room) }
    ensures script { OnOk result (Executes (G.left g.now) script.if_expr p.old p.new) }
{
    g.run(p, Rule::IfExpr)?;
    Ok(())
}
// end

/// The parameters after `for`, as `for<'a>`.
#[tactic(auto, unfolding(rap_grammar_scripts::specs::ThroughKnot::for_binder, rap_grammar_scripts::specs::ThroughKnot::generic_param_list))]
pub fn for_binder<G: Grammar>(p: &mut Parser<'_>, g: &G) -> Result<(), NoMemory>
    requires within { Within G.valid G.left g.now p.old }
    requires here { next (state p.old) ≡ FOR_KW }
    ensures took { OnOk result (Took (state p.old) (state p.new) list_room) }
    ensures script { OnOk result (Executes (G.left g.now) script.for_binder p.old p.new) }
{
    let m = p.start()?;
    p.bump(T![for])?;
    if p.at(T![<]) {
        g.run(p, Rule::GenericParamList)?;
        m.complete(p, SyntaxKind::FOR_BINDER)?;
        return Ok(());
    }
    p.error("expected `<`")?;
    m.complete(p, SyntaxKind::FOR_BINDER)?;
    Ok(())
}

/// A type after its colon, as `: a`.
#[tactic(auto, unfolding(rap_grammar_scripts::specs::ThroughKnot::ascription))]
pub fn ascription<G: Grammar>(p: &mut Parser<'_>, g: &G) -> Result<(), NoMemory>
    requires within { Within G.valid G.left g.now p.old }
    requires here { next (state p.old) ≡ COLON }
    ensures took { OnOk result (Took (state p.old) (state p.new) list_room) }
    ensures script { OnOk result (Executes (G.left g.now) script.ascription p.old p.new) }
{
    p.bump(T![:])?;
    if p.at(T![=]) {
        p.error("missing type")?;
        return Ok(());
    }
    type_(p, g)?;
    Ok(())
}
