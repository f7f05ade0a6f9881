//! Entries that parse a prefix of an input, and leave the other tokens.
//! In the Rust crate: `grammar.rs`.
ghost use Rattle.std.specs.Prelude.{◌≡◌, ◌<◌, ◌≤◌, length, IfOk, OnOk, true, false};
ghost use Rattle.rap_base.specs.TokenKind.{L_CURLY};
ghost use Rattle.rap_events.specs.Forest.{node};
ghost use Rattle.rap_events.specs.Record.{next_kind};
ghost use Rattle.rap_events.specs.State.{state, next, last_children};
ghost use Rattle.rap_grammar.specs.Part.{IsPrefixOver, IsPrefixOf, IsOneNode, Goes, part_script, part_kind, in_braces, asks_brace};
ghost use Rattle.rap_grammar_scripts.specs.ThroughKnot as through_knot_script;
ghost use Rattle.rap_grammar_frame.specs.Grew.{Grew};
ghost use Rattle.rap_grammar_frame.specs.Rules.{Pre, Post};
ghost use Rattle.rap_grammar_scripts.specs.Statements as statements_script;
ghost use Rattle.rap_grammar_scripts.specs.Items as items_script;
ghost use Rattle.rap_base.specs.Limits.{max_tokens};

use super::run_alone;
use crate::knot::{Rules, run};
use rap_base::no_memory::NoMemory;
use rap_events::input::Input;
use rap_events::output::Output;
use rap_events::parser::Parser;
use rap_grammar_expressions_blocks::blocks::block_expr;
use rap_grammar_expressions_control::matches::match_arm_list;
use rap_grammar_expressions_operands::records::record_expr_field_list;
use rap_grammar_frame::knot::Answer;
use rap_grammar_frame::token_tree::token_tree;
use rap_grammar_items_adt::adt::{record_field_list, variant_list};
use rap_grammar_items_kinds::modules::{extern_item_list, item_list};
use rap_grammar_items_kinds::traits::assoc_item_list;
use rap_grammar_items_kinds::use_item::use_tree_list;
use rap_grammar_paths::paths::sym_path;
use rap_grammar_paths::visibility::opt_visibility;
use rap_grammar_scripts::arguments::{Restrictions, Semicolon};
use rap_grammar_scripts::rule::Rule;
use std::alloc::Global;

/// The parts of a file that are not recursive rules, and can be parsed alone.
#[derive(Clone, Copy, Debug, PartialEq, Eq)]
pub enum Part {
    /// A visibility, if there is one.
    Visibility,
    /// A path in a type.
    Path,
    Block,
    RecordFieldList,
    RecordExprFieldList,
    VariantList,
    MatchArmList,
    UseTreeList,
    ExternItemList,
    TokenTree,
    AssocItemList,
    ItemList,
}

/// Runs the rule of a part.
#[tactic(auto, using(rap_grammar_facts::proofs::Modules::took_item_list, rap_grammar_facts::proofs::Modules::took_extern_item_list, rap_grammar_facts::proofs::Traits::took_assoc_item_list, rap_grammar_facts::proofs::UseItem::took_use_tree_list, rap_grammar_facts::proofs::Matches::took_match_arm_list, rap_grammar_facts::proofs::Records::took_record_expr_field_list, crate::proofs::Depth::more, rap_grammar_facts::proofs::Adt::took_record_field_list, rap_grammar_facts::proofs::Adt::took_variant_list))]
fn run_part(p: &mut Parser<'_>, part: Part) -> Result<(), NoMemory>
    requires brace { asks_brace part ≡ true → next (state p.old) ≡ L_CURLY }
    ensures grew { OnOk result (Grew (state p.old) (state p.new) 8) }
    ensures one { OnOk result
        (in_braces part ≡ true → next (state p.old) ≡ L_CURLY →
        (state p.new).forest ≡ node (state p.old).forest (part_kind part) (last_children (state p.new).forest)) }
    ensures script { OnOk result (Goes (part_script part) (state p.old) (state p.new)) }
{
    let left = p.left();
    let call = |q: &mut Parser<'_>, c: Rule| -> Result<Answer, NoMemory>
        requires pre { Pre c (state q.old) }
        requires left { (state q.old).left < left }
        ensures { IfOk result (Post left c (state q.old) (state q.new)) }
    {
        let _ = &left;
        run(q, c)
    };
    let g = Rules { run: call, left };
    match part {
        Part::Visibility => {
            opt_visibility(p, &g, false)?;
            Ok(())
        }
        Part::Path => {
            sym_path(p, &g)?;
            Ok(())
        }
        Part::Block => {
            block_expr(p, &g)?;
            Ok(())
        }
        Part::RecordFieldList => {
            record_field_list(p, &g)?;
            Ok(())
        }
        Part::RecordExprFieldList => {
            record_expr_field_list(p, &g)?;
            Ok(())
        }
        Part::VariantList => {
            variant_list(p, &g)?;
            Ok(())
        }
        Part::MatchArmList => {
            match_arm_list(p, &g)?;
            Ok(())
        }
        Part::UseTreeList => {
            use_tree_list(p, &g)?;
            Ok(())
        }
        Part::ExternItemList => {
            extern_item_list(p, &g)?;
            Ok(())
        }
        Part::TokenTree => {
            token_tree(p)?;
            Ok(())
        }
        Part::AssocItemList => {
            assoc_item_list(p, &g)?;
            Ok(())
        }
        Part::ItemList => {
            item_list(p, &g)?;
            Ok(())
        }
    }
}

/// Parses a part at the beginning of the input. If the part has braces and the input begins with one, the output is
/// exactly one node. The error means out of memory.
pub fn parse_part(alloc: Global, input: &Input, part: Part) -> Result<Output, NoMemory>
    requires few { length input.now ≤ max_tokens }
    requires brace { asks_brace part ≡ true → next_kind input.now ≡ L_CURLY }
    ensures prefix { IfOk result (IsPrefixOver input.now) }
    ensures script { IfOk result (IsPrefixOf (part_script part) input.now) }
    ensures one { IfOk result
        (λ output. in_braces part ≡ true → next_kind input.now ≡ L_CURLY → IsOneNode (part_kind part) output) }
{
    let mut p = Parser::new(alloc, input);
    run_part(&mut p, part)?;
    let output = p.process(alloc)?;
    Ok(output)
}

/// A statement without the semicolon that may stand after it.
#[tactic(auto, unfolding(rap_grammar_scripts::specs::Knot::script_of))]
pub fn stmt(alloc: Global, input: &Input) -> Result<Output, NoMemory>
    requires { length input.now ≤ max_tokens }
    ensures prefix { IfOk result (IsPrefixOver input.now) }
    ensures script { IfOk result (IsPrefixOf (statements_script.stmt Semicolon.Forbidden) input.now) }
{
    let mut p = Parser::new(alloc, input);
    let semicolon = Semicolon::Forbidden;
    run_alone(&mut p, Rule::Stmt { semicolon })?;
    let output = p.process(alloc)?;
    Ok(output)
}

/// A pattern without alternatives.
#[tactic(auto, unfolding(rap_grammar_scripts::specs::ThroughKnot::pattern_single, crate::specs::Part::part_of))]
pub fn pattern_single(alloc: Global, input: &Input) -> Result<Output, NoMemory>
    requires { length input.now ≤ max_tokens }
    ensures prefix { IfOk result (IsPrefixOver input.now) }
    ensures script { IfOk result (IsPrefixOf through_knot_script.pattern_single input.now) }
{
    let mut p = Parser::new(alloc, input);
    run_alone(&mut p, Rule::PatternSingle)?;
    let output = p.process(alloc)?;
    Ok(output)
}

/// A pattern with its alternatives.
#[tactic(auto, unfolding(rap_grammar_scripts::specs::ThroughKnot::pattern, crate::specs::Part::part_of))]
pub fn pattern(alloc: Global, input: &Input) -> Result<Output, NoMemory>
    requires { length input.now ≤ max_tokens }
    ensures prefix { IfOk result (IsPrefixOver input.now) }
    ensures script { IfOk result (IsPrefixOf through_knot_script.pattern input.now) }
{
    let mut p = Parser::new(alloc, input);
    run_alone(&mut p, Rule::Pattern)?;
    let output = p.process(alloc)?;
    Ok(output)
}

/// A type.
#[tactic(auto, unfolding(rap_grammar_scripts::specs::ThroughKnot::type_, crate::specs::Part::part_of))]
pub fn type_(alloc: Global, input: &Input) -> Result<Output, NoMemory>
    requires { length input.now ≤ max_tokens }
    ensures prefix { IfOk result (IsPrefixOver input.now) }
    ensures script { IfOk result (IsPrefixOf through_knot_script.type_ input.now) }
{
    let mut p = Parser::new(alloc, input);
    run_alone(&mut p, Rule::TypeWithBoundsCond { allow_bounds: true })?;
    let output = p.process(alloc)?;
    Ok(output)
}

/// An expression.
#[tactic(auto, unfolding(rap_grammar_scripts::specs::ThroughKnot::expr, crate::specs::Part::option_of))]
pub fn expr(alloc: Global, input: &Input) -> Result<Output, NoMemory>
    requires { length input.now ≤ max_tokens }
    ensures prefix { IfOk result (IsPrefixOver input.now) }
    ensures script { IfOk result (IsPrefixOf through_knot_script.expr input.now) }
{
    let mut p = Parser::new(alloc, input);
    let r = Restrictions {
        forbid_structs: false,
        prefer_stmt: false,
    };
    run_alone(&mut p, Rule::ExprBp { r, bp: 1 })?;
    let output = p.process(alloc)?;
    Ok(output)
}

/// An item, or a macro call in its place.
#[tactic(auto, unfolding(rap_grammar_scripts::specs::Knot::script_of))]
pub fn item(alloc: Global, input: &Input) -> Result<Output, NoMemory>
    requires { length input.now ≤ max_tokens }
    ensures prefix { IfOk result (IsPrefixOver input.now) }
    ensures script { IfOk result (IsPrefixOf (items_script.item_or_macro true true) input.now) }
{
    let mut p = Parser::new(alloc, input);
    // Only `safe fn` is more than elsewhere in a foreign block, and there is no other reading of it.
    let item = Rule::ItemOrMacro {
        stop_on_r_curly: true,
        is_in_extern: true,
    };
    run_alone(&mut p, item)?;
    let output = p.process(alloc)?;
    Ok(output)
}

/// The contents of an attribute's brackets.
#[tactic(auto, unfolding(rap_grammar_scripts::specs::ThroughKnot::meta, crate::specs::Part::part_of))]
pub fn meta_item(alloc: Global, input: &Input) -> Result<Output, NoMemory>
    requires { length input.now ≤ max_tokens }
    ensures prefix { IfOk result (IsPrefixOver input.now) }
    ensures script { IfOk result (IsPrefixOf through_knot_script.meta input.now) }
{
    let mut p = Parser::new(alloc, input);
    run_alone(&mut p, Rule::Meta)?;
    let output = p.process(alloc)?;
    Ok(output)
}
