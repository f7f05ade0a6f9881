//! The knot of the grammar: the function that runs any recursive rule.
ghost use Rattle.std.specs.Prelude.{◌≡◌, ◌+◌, ◌<◌, ◌≤◌, IfOk, suc};
ghost use Rattle.rap_events.specs.State.{state};
ghost use Rattle.rap_grammar_frame.specs.Rules.{Pre, Post};
ghost use Rattle.rap_grammar.specs.Brief.{rule_of};

use rap_base::no_memory::NoMemory;
use rap_events::parser::Parser;
use rap_grammar_frame::knot::{Answer, Grammar};
use rap_grammar_scripts::arguments::{Restrictions, Semicolon};
use rap_grammar_scripts::rule::Rule;

// functions: written by crates/rap_grammar_scripts/rules up to "end"
use crate::statements::stmt;
use rap_grammar_attributes::attributes::{cfg_predicate, meta};
use rap_grammar_expressions::expressions::expr_bp;
use rap_grammar_expressions_control::control::if_expr;
use rap_grammar_frame::token_tree::token_tree;
use rap_grammar_generics::generic_params::{
    bounds_without_colon, generic_param_list, where_clause,
};
use rap_grammar_items::items::item_or_macro;
use rap_grammar_items_kinds::use_item::use_tree;
use rap_grammar_patterns::patterns::{pattern_elsewhere, pattern_r, pattern_single_elsewhere};
use rap_grammar_types::generic_args::generic_arg;
use rap_grammar_types::types::{path_type_bounds, type_with_bounds_cond};
// end

/// The grammar as a function that runs any rule.
#[derive(Drop)]
pub(crate) struct Rules<F: Fn(&mut Parser<'_>, Rule) -> Result<Answer, NoMemory>> {
    pub(crate) run: F,
    pub(crate) left: usize,
}

impl<F: Fn(&mut Parser<'_>, Rule) -> Result<Answer, NoMemory>> Grammar for Rules<F> {
    ghost left = { λ rules. rules.left };

    ghost valid = { λ rules. ((q : _) (c : _) → Pre c (state q.now) → (state q.now).left < rules.left → F.pre rules.run q c) ×
        ((q : _) (c : _) (a : _) (s : _) → F.post rules.run q c a s → IfOk a (Post rules.left c (state q.now) (state s.now))) };

    #[inline(always)]
    fn run(&self, p: &mut Parser<'_>, rule: Rule) -> Result<Answer, NoMemory> {
        (self.run)(p, rule)
    }
}

/// A rule, but for the restrictions and the power of an expression. It goes in registers, where a [`Rule`] goes through
/// memory: so where a call names its rule, that rule alone is left of the choice between all.
#[derive(Clone, Copy)]
pub(crate) enum Brief {
    // Brief: written by crates/rap_grammar_scripts/rules up to "end"
    Expr,
    Type { allow_bounds: bool },
    PathTypeBounds,
    GenericArg,
    GenericParamList,
    BoundsWithoutColon,
    WhereClause,
    Pattern,
    PatternSingle,
    ArmPattern,
    Stmt { semicolon: Semicolon },
    IfExpr,
    Item { stop_on_r_curly: bool },
    ExternItem { stop_on_r_curly: bool },
    UseTree,
    Meta,
    CfgPredicate,
    TokenTree,
    // end
}

/// Parts a rule.
#[inline(always)]
fn brief_of(rule: Rule) -> (Brief, Restrictions, u8)
    ensures { rule_of result.0 result.1 result.2 ≡ rule }
{
    let none = Restrictions {
        forbid_structs: false,
        prefer_stmt: false,
    };
    match rule {
        // brief_of: written by crates/rap_grammar_scripts/rules up to "end"
        Rule::ExprBp { r, bp } => (Brief::Expr, r, bp),
        Rule::TypeWithBoundsCond { allow_bounds } => (Brief::Type { allow_bounds }, none, 0),
        Rule::PathTypeBounds => (Brief::PathTypeBounds, none, 0),
        Rule::GenericArg => (Brief::GenericArg, none, 0),
        Rule::GenericParamList => (Brief::GenericParamList, none, 0),
        Rule::BoundsWithoutColon => (Brief::BoundsWithoutColon, none, 0),
        Rule::WhereClause => (Brief::WhereClause, none, 0),
        Rule::Pattern => (Brief::Pattern, none, 0),
        Rule::PatternSingle => (Brief::PatternSingle, none, 0),
        Rule::ArmPattern => (Brief::ArmPattern, none, 0),
        Rule::Stmt { semicolon } => (Brief::Stmt { semicolon }, none, 0),
        Rule::IfExpr => (Brief::IfExpr, none, 0),
        Rule::ItemOrMacro {
            stop_on_r_curly,
            is_in_extern,
        } => {
            if is_in_extern {
                (Brief::ExternItem { stop_on_r_curly }, none, 0)
            } else {
                (Brief::Item { stop_on_r_curly }, none, 0)
            }
        }
        Rule::UseTree => (Brief::UseTree, none, 0),
        Rule::Meta => (Brief::Meta, none, 0),
        Rule::CfgPredicate => (Brief::CfgPredicate, none, 0),
        Rule::TokenTree => (Brief::TokenTree, none, 0),
        // end
    }
}

/// The same as a function that runs any rule by its parts.
#[derive(Drop)]
struct BriefRules<F: Fn(&mut Parser<'_>, Brief, Restrictions, u8) -> Result<Answer, NoMemory>> {
    run: F,
    left: usize,
}

impl<F: Fn(&mut Parser<'_>, Brief, Restrictions, u8) -> Result<Answer, NoMemory>> Grammar
    for BriefRules<F> {
    ghost left = { λ rules. rules.left };

    ghost valid = { λ rules. ((q : _) (c : _) (r : _) (bp : _) → Pre (rule_of c r bp) (state q.now) → (state q.now).left < rules.left → F.pre rules.run q c r bp) ×
        ((q : _) (c : _) (r : _) (bp : _) (a : _) (s : _) → F.post rules.run q c r bp a s → IfOk a (Post rules.left (rule_of c r bp) (state q.now) (state s.now))) };

    #[inline(always)]
    fn run(&self, p: &mut Parser<'_>, rule: Rule) -> Result<Answer, NoMemory> {
        let (brief, r, bp) = brief_of(rule);
        (self.run)(p, brief, r, bp)
    }
}

/// The grammar before the first token: a rule may be called with all tokens left.
#[derive(Drop)]
pub(crate) struct AllRules {
    /// The number of tokens that are left.
    pub(crate) left: usize,
}

impl Grammar for AllRules {
    ghost left = { λ rules. suc rules.left };

    ghost valid = { λ _. Unit {0} };

    #[inline(always)]
    #[tactic(auto, using(crate::proofs::Depth::more))]
    fn run(&self, p: &mut Parser<'_>, rule: Rule) -> Result<Answer, NoMemory> {
        run(p, rule)
    }
}

/// Returns the rules for a parser that may have taken no token yet.
pub(crate) fn all_rules(p: &Parser<'_>) -> AllRules
    ensures { result.left ≡ (state p.now).left }
{
    AllRules { left: p.left() }
}

/// Runs a rule.
#[inline(always)]
pub fn run(p: &mut Parser<'_>, rule: Rule) -> Result<Answer, NoMemory>
    requires { Pre rule (state p.old) }
    ensures { IfOk result (Post (suc (state p.old).left) rule (state p.old) (state p.new)) }
{
    let (brief, r, bp) = brief_of(rule);
    run_brief(p, brief, r, bp)
}

/// Runs a rule that is parted. It is inlined into the recursive calls, so that each call goes to its rule directly: that
/// halves what a level of nesting keeps on the stack.
#[inline(always)]
#[cycle(run)]
#[tactic(auto, using(crate::proofs::Depth::more, crate::proofs::Depth::answers_so, rap_grammar_facts::proofs::Types::took_path_type_bounds, rap_grammar_facts::proofs::UseItem::took_use_tree, rap_grammar_facts::proofs::Promised::facts), unfolding(rap_grammar_scripts::specs::Knot::script_of))]
pub(crate) fn run_brief(
    p: &mut Parser<'_>,
    brief: Brief,
    r: Restrictions,
    bp: u8,
) -> Result<Answer, NoMemory>
    requires { Pre (rule_of brief r bp) (state p.old) }
    ensures { IfOk result (Post (suc (state p.old).left) (rule_of brief r bp) (state p.old) (state p.new)) }
{
    let left = p.left();
    let call = |q: &mut Parser<'_>, c: Brief, d: Restrictions, power: u8| -> Result<
        Answer,
        NoMemory,
    >
        requires pre { Pre (rule_of c d power) (state q.old) }
        requires left { (state q.old).left < left }
        ensures { IfOk result (Post left (rule_of c d power) (state q.old) (state q.new)) }
    {
        let _ = &left;
        run_brief(q, c, d, power)
    };
    let g = BriefRules { run: call, left };
    match brief {
        // run_brief: written by crates/rap_grammar_scripts/rules up to "end"
        Brief::Expr => expr_bp(p, &g, r, bp),
        Brief::Type { allow_bounds } => {
            type_with_bounds_cond(p, &g, allow_bounds)?;
            Ok(None)
        }
        Brief::PathTypeBounds => {
            path_type_bounds(p, &g, true)?;
            Ok(None)
        }
        Brief::GenericArg => {
            generic_arg(p, &g)?;
            Ok(None)
        }
        Brief::GenericParamList => {
            generic_param_list(p, &g)?;
            Ok(None)
        }
        Brief::BoundsWithoutColon => {
            bounds_without_colon(p, &g)?;
            Ok(None)
        }
        Brief::WhereClause => {
            where_clause(p, &g)?;
            Ok(None)
        }
        Brief::Pattern => {
            pattern_elsewhere(p, &g)?;
            Ok(None)
        }
        Brief::PatternSingle => {
            pattern_single_elsewhere(p, &g)?;
            Ok(None)
        }
        Brief::ArmPattern => {
            pattern_r(p, &g, true)?;
            Ok(None)
        }
        Brief::Stmt { semicolon } => {
            stmt(p, &g, semicolon)?;
            Ok(None)
        }
        Brief::IfExpr => {
            if_expr(p, &g)?;
            Ok(None)
        }
        Brief::Item { stop_on_r_curly } => {
            item_or_macro(p, &g, stop_on_r_curly, false)?;
            Ok(None)
        }
        Brief::ExternItem { stop_on_r_curly } => {
            item_or_macro(p, &g, stop_on_r_curly, true)?;
            Ok(None)
        }
        Brief::UseTree => {
            use_tree(p, &g)?;
            Ok(None)
        }
        Brief::Meta => {
            meta(p, &g)?;
            Ok(None)
        }
        Brief::CfgPredicate => {
            cfg_predicate(p, &g)?;
            Ok(None)
        }
        Brief::TokenTree => {
            token_tree(p)?;
            Ok(None)
        }
        // end
    }
}
