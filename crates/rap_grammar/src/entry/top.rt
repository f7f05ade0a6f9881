//! Entries that parse a whole input as one tree. The error of each means out of memory.
//! In the Rust crate: `grammar.rs`.
ghost use Rattle.std.specs.Prelude.{◌≡◌, ◌≤◌, length, IfOk, false};
ghost use Rattle.rap_base.specs.NodeKind.{SOURCE_FILE, MACRO_STMTS, MACRO_ITEMS};
ghost use Rattle.rap_grammar_scripts.specs.ThroughKnot as through_knot_script;
ghost use Rattle.rap_grammar_scripts.specs.Entry as entry_script;
ghost use Rattle.rap_grammar_scripts.specs.Modules as modules_script;
ghost use Rattle.rap_grammar.specs.Top.{IsTreeOver, IsTopOf, IsRootOf};
ghost use Rattle.rap_base.specs.Limits.{max_tokens};

use super::{Known, close_root, close_top, known_by, run_alone};
use crate::knot::{Brief, all_rules, run_brief};
use rap_base::no_memory::NoMemory;
use rap_base::syntax_kind::SyntaxKind;
use rap_events::input::Input;
use rap_events::output::Output;
use rap_events::parser::Parser;
use rap_grammar_scripts::arguments::Restrictions;
use rap_grammar_scripts::rule::Rule;
use std::alloc::Global;

/// A file: `SOURCE_FILE` over the whole input.
#[tactic(auto, using(rap_grammar_facts::proofs::Entry::grew_source_file))]
pub fn source_file(alloc: Global, input: &Input) -> Result<Output, NoMemory>
    requires { length input.now ≤ max_tokens }
    ensures tree { IfOk result (IsTreeOver input.now) }
    ensures script { IfOk result (IsRootOf SOURCE_FILE entry_script.source_file input.now) }
{
    let mut p = Parser::new(alloc, input);
    let m = p.start()?;
    let g = all_rules(&p);
    super::source_file(&mut p, &g)?;
    let output = close_root(alloc, p, m, SyntaxKind::SOURCE_FILE)?;
    Ok(output)
}

/// A pattern with its alternatives. If the input is not exactly one pattern, the tree is an `ERROR`.
#[tactic(auto, unfolding(rap_grammar_scripts::specs::ThroughKnot::pattern, crate::specs::Part::part_of, crate::specs::Known::known_of))]
pub fn pattern(alloc: Global, input: &Input) -> Result<Output, NoMemory>
    requires { length input.now ≤ max_tokens }
    ensures tree { IfOk result (IsTreeOver input.now) }
    ensures script { IfOk result (IsTopOf through_knot_script.pattern input.now) }
{
    let mut p = Parser::new(alloc, input);
    let m = p.start()?;
    run_alone(&mut p, Rule::Pattern)?;
    let output = close_top(alloc, p, m, Known::ByFirstStep)?;
    Ok(output)
}

/// A type. If the input is not exactly one type, the tree is an `ERROR`.
#[tactic(auto, unfolding(rap_grammar_scripts::specs::ThroughKnot::type_, crate::specs::Part::part_of, crate::specs::Known::known_of))]
pub fn type_(alloc: Global, input: &Input) -> Result<Output, NoMemory>
    requires { length input.now ≤ max_tokens }
    ensures tree { IfOk result (IsTreeOver input.now) }
    ensures script { IfOk result (IsTopOf through_knot_script.type_ input.now) }
{
    let mut p = Parser::new(alloc, input);
    let m = p.start()?;
    run_alone(&mut p, Rule::TypeWithBoundsCond { allow_bounds: true })?;
    let output = close_top(alloc, p, m, Known::ByFirstStep)?;
    Ok(output)
}

/// An expression. If the input is not exactly one expression, the tree is an `ERROR`.
pub fn expr(alloc: Global, input: &Input) -> Result<Output, NoMemory>
    requires { length input.now ≤ max_tokens }
    ensures tree { IfOk result (IsTreeOver input.now) }
    ensures script { IfOk result (IsTopOf through_knot_script.expr input.now) }
{
    let mut p = Parser::new(alloc, input);
    let m = p.start()?;
    let r = Restrictions {
        forbid_structs: false,
        prefer_stmt: false,
    };
    let answer = run_brief(&mut p, Brief::Expr, r, 1)?;
    let known = known_by(&answer);
    let output = close_top(alloc, p, m, known)?;
    Ok(output)
}

/// The contents of an attribute's brackets, as `cfg(a)` in `#[cfg(a)]`. If other tokens follow, the tree is an `ERROR`.
#[tactic(auto, unfolding(rap_grammar_scripts::specs::ThroughKnot::meta, crate::specs::Part::part_of, crate::specs::Known::known_of))]
pub fn meta_item(alloc: Global, input: &Input) -> Result<Output, NoMemory>
    requires { length input.now ≤ max_tokens }
    ensures tree { IfOk result (IsTreeOver input.now) }
    ensures script { IfOk result (IsTopOf through_knot_script.meta input.now) }
{
    let mut p = Parser::new(alloc, input);
    let m = p.start()?;
    run_alone(&mut p, Rule::Meta)?;
    let output = close_top(alloc, p, m, Known::OneTree)?;
    Ok(output)
}

/// The statements that a macro expands to: `MACRO_STMTS` over the whole input.
#[tactic(auto, using(rap_grammar_facts::proofs::Entry::grew_macro_stmts))]
pub fn macro_stmts(alloc: Global, input: &Input) -> Result<Output, NoMemory>
    requires { length input.now ≤ max_tokens }
    ensures tree { IfOk result (IsTreeOver input.now) }
    ensures script { IfOk result (IsRootOf MACRO_STMTS entry_script.macro_stmts input.now) }
{
    let mut p = Parser::new(alloc, input);
    let m = p.start()?;
    let g = all_rules(&p);
    super::macro_stmts(&mut p, &g)?;
    let output = close_root(alloc, p, m, SyntaxKind::MACRO_STMTS)?;
    Ok(output)
}

/// The items that a macro expands to: `MACRO_ITEMS` over the whole input.
#[tactic(auto, using(rap_grammar_facts::proofs::Modules::grew_mod_contents))]
pub fn macro_items(alloc: Global, input: &Input) -> Result<Output, NoMemory>
    requires { length input.now ≤ max_tokens }
    ensures tree { IfOk result (IsTreeOver input.now) }
    ensures script { IfOk result (IsRootOf MACRO_ITEMS (modules_script.mod_contents false) input.now) }
{
    let mut p = Parser::new(alloc, input);
    let m = p.start()?;
    let g = all_rules(&p);
    super::macro_items(&mut p, &g)?;
    let output = close_root(alloc, p, m, SyntaxKind::MACRO_ITEMS)?;
    Ok(output)
}
