//! The entries of the grammar, and how a parse ends.
ghost use Rattle.std.specs.Prelude.{suc, ◌≡◌, ◌≢◌, ◌^◌, ℕ, ◌+◌, ◌*◌, ◌<◌, ◌≤◌, ◌↔◌, length, [], IfOk, IfSome, OnOk, IsTrue, Some, None, true, false};
ghost use Rattle.rap_events.specs.Cover.{covers};
ghost use Rattle.rap_events.specs.Fit.{AllFitIn, is_plain};
ghost use Rattle.rap_events.specs.Forest.{Forest, node, none, flat, message_count, one_tree, used};
ghost use Rattle.rap_events.specs.Machine.{floor, push};
ghost use Rattle.rap_events.specs.State.{state, next};
ghost use Rattle.rap_base.specs.TokenKind.{EOF, ERROR};
ghost use Rattle.rap_events.specs.Composite.{is_at};
ghost use Rattle.rap_grammar_frame.specs.Grew.{Grew};
ghost use Rattle.rap_grammar_frame.specs.Rules.{Pre, Parses};
ghost use Rattle.rap_grammar_scripts.specs.Entry as script;
ghost use Rattle.rap_grammar_scripts.specs.Modules as modules_script;
ghost use Rattle.rap_grammar_scripts.specs.Exec.{Executes};
ghost use Rattle.rap_grammar_scripts.specs.Knot.{script_of};
ghost use Rattle.rap_grammar.specs.Known.{IsKnown, begins_node, known_by, known_of};
ghost use Rattle.rap_grammar.specs.Part.{Goes, option_of, part_of};
ghost use Rattle.rap_grammar.specs.Top.{top_tree, with_leaves};

use crate::knot::{AllRules, run};
use rap_base::T;
use rap_base::no_memory::NoMemory;
use rap_base::syntax_kind::SyntaxKind;
use rap_events::output::{Output, Step, wrap_in_node};
use rap_events::parser::{Marker, Parser};
use rap_grammar_attributes::attributes::inner_attrs;
use rap_grammar_frame::knot::{Answer, Grammar};
use rap_grammar_scripts::arguments::Semicolon;
use rap_grammar_scripts::rule::Rule;
use std::alloc::Global;

pub mod part;
pub mod top;

/// Returns whether the output is exactly one node and nothing else.
pub fn is_one_tree(output: &Output) -> bool
    ensures { result ≡ one_tree output.now }
{
    let mut steps = output.iter();
    let mut depth = 0usize;
    let mut nodes = 0u8;
    'steps: while let Some(step) = steps.next() {
        match step {
            Step::Enter { .. } => {
                if depth == 0 {
                    if nodes == 1 {
                        return false;
                    }
                    nodes = 1;
                }
                depth += 1;
            }
            Step::Exit => depth = depth.saturating_sub(1),
            Step::FloatSplit { ends_in_dot: true } => {
                if depth < 2 {
                    return false;
                }
                depth -= 1;
            }
            Step::FloatSplit { ends_in_dot: false } => {
                if depth == 0 {
                    return false;
                }
                depth = depth.saturating_sub(2);
            }
            Step::Token { .. } | Step::Error { .. } => {
                if depth == 0 {
                    return false;
                }
            }
        }
    }
    nodes == 1
}

/// What is known of an output before it is looked at.
#[derive(Clone, Copy, Debug, PartialEq, Eq)]
pub enum Known {
    /// It is one tree: exactly one node and nothing else.
    OneTree,
    /// It is one tree exactly if its first step begins a node, and no `ABI`.
    ByFirstStep,
    /// Nothing is known.
    Nothing,
}

/// Returns whether the first step begins a node, and no `ABI`.
fn begins_node(output: &Output) -> bool
    ensures { result ≡ begins_node (flat output.now) }
{
    let mut steps = output.iter();
    match steps.next() {
        Some(step) => match step {
            Step::Enter { kind } => kind != SyntaxKind::ABI,
            Step::Exit | Step::FloatSplit { .. } | Step::Token { .. } | Step::Error { .. } => false,
        },
        None => false,
    }
}

/// Returns whether the output is one tree. Its steps are walked through only where nothing is known of it.
#[tactic(auto, unfolding(crate::specs::Known::IsKnown))]
fn is_one_tree_by(output: &Output, known: Known) -> bool
    requires { IsKnown known output.now }
    ensures { result ≡ one_tree output.now }
{
    match known {
        Known::OneTree => true,
        Known::ByFirstStep => begins_node(output),
        Known::Nothing => is_one_tree(output),
    }
}

/// Runs a rule that is an entry of its own.
#[tactic(auto, using(crate::proofs::Depth::own_goes, crate::proofs::Depth::part_goes, crate::proofs::Depth::option_goes, crate::proofs::Known::leaves, rap_grammar_frame::proofs::Done::rule_grew))]
fn run_alone(p: &mut Parser<'_>, rule: Rule) -> Result<Answer, NoMemory>
    requires { Pre rule (state p.old) }
    ensures parses { IfOk result (Parses rule (state p.old) (state p.new)) }
    ensures grew { OnOk result (Grew (state p.old) (state p.new) 20) }
    ensures own { OnOk result (Goes (script_of rule) (state p.old) (state p.new)) }
    ensures part { OnOk result (Goes (part_of rule) (state p.old) (state p.new)) }
    ensures option { OnOk result (Goes (option_of rule) (state p.old) (state p.new)) }
    ensures leaves { OnOk result ((state p.old).forest ≡ none → IsKnown (known_of rule) (state p.new).forest) }
{
    let answer = run(p, rule)?;
    Ok(answer)
}

/// Returns what is known of an output that began with nothing, by an expression's result.
fn known_by(answer: &Answer) -> Known
    ensures { result ≡ known_by answer.now }
{
    match answer {
        Some(_) => Known::OneTree,
        None => Known::Nothing,
    }
}

/// Whether no token is left.
#[tactic(auto, using(crate::proofs::TopTree::closing))]
fn is_at_end(p: &Parser<'_>) -> bool
    ensures here { result ≡ is_at EOF (state p.now).rest }
    ensures some { result ≡ false → next (state p.now) ≢ EOF }
    ensures rest { result ≡ true → (state p.now).rest ≡ [] }
    ensures left { result ≡ true → (state p.now).left ≡ 0 }
{
    p.current() == SyntaxKind::EOF
}

/// Reads the statements that a macro expands to, to the end of the input.
#[tactic(auto, using(rap_grammar_frame::proofs::Loops::turns), unfolding(rap_grammar_scripts::specs::Entry::macro_stmts))]
fn macro_stmts(p: &mut Parser<'_>, g: &AllRules) -> Result<(), NoMemory>
    requires { (state p.old).left ≤ g.now.left }
    ensures rest { OnOk result ((state p.new).rest ≡ []) }
    ensures script { OnOk result (Executes (suc g.now.left) script.macro_stmts p.old p.new) }
{
    'statements: while !is_at_end(p) {
        let semicolon = Semicolon::Optional;
        g.run(p, Rule::Stmt { semicolon })?;
    }
    Ok(())
}

/// Reads items, to the end of the input.
#[tactic(auto, using(rap_grammar_frame::proofs::Loops::turns), unfolding(rap_grammar_scripts::specs::Modules::items))]
fn items(p: &mut Parser<'_>, g: &AllRules) -> Result<(), NoMemory>
    requires { (state p.old).left ≤ g.now.left }
    ensures rest { OnOk result ((state p.new).rest ≡ []) }
    ensures script { OnOk result (Executes (suc g.now.left) (modules_script.items false) p.old p.new) }
{
    'items: while !is_at_end(p) {
        // Only `safe fn` is more than elsewhere in a foreign block, and there is no other reading of it.
        let item = Rule::ItemOrMacro {
            stop_on_r_curly: false,
            is_in_extern: true,
        };
        g.run(p, item)?;
    }
    Ok(())
}

/// Reads the items that a macro expands to, to the end of the input.
#[tactic(auto, unfolding(rap_grammar_scripts::specs::Modules::mod_contents))]
fn macro_items(p: &mut Parser<'_>, g: &AllRules) -> Result<(), NoMemory>
    requires { (state p.old).left ≤ g.now.left }
    ensures rest { OnOk result ((state p.new).rest ≡ []) }
    ensures script { OnOk result (Executes (suc g.now.left) (modules_script.mod_contents false) p.old p.new) }
{
    inner_attrs(p, g)?;
    items(p, g)?;
    Ok(())
}

/// Reads a file, to the end of the input.
#[tactic(auto, unfolding(rap_grammar_scripts::specs::Entry::source_file))]
fn source_file(p: &mut Parser<'_>, g: &AllRules) -> Result<(), NoMemory>
    requires { (state p.old).left ≤ g.now.left }
    ensures rest { OnOk result ((state p.new).rest ≡ []) }
    ensures script { OnOk result (Executes (suc g.now.left) script.source_file p.old p.new) }
{
    p.eat(T![shebang])?;
    p.eat(T![frontmatter])?;
    macro_items(p, g)?;
    Ok(())
}

/// Takes each token that is left, one by one.
fn take_rest(p: &mut Parser<'_>) -> Result<(), NoMemory>
    ensures forest { OnOk result ((state p.new).forest ≡ with_leaves (state p.old).forest (state p.old).rest) }
    ensures rest { OnOk result ((state p.new).rest ≡ []) }
    ensures left { OnOk result ((state p.new).left ≡ 0) }
    ensures count { OnOk result ((state p.new).count ≡ (state p.old).count + (state p.old).left) }
    ensures input { OnOk result ((state p.new).input ≡ (state p.old).input) }
    ensures messages { OnOk result ((state p.new).messages ≡ (state p.old).messages) }
    ensures marker { OnOk result ((state p.new).marker ≡ (state p.old).marker) }
    ensures below { OnOk result ((state p.new).below ≡ (state p.old).below) }
{
    'tokens: while !is_at_end(p) {
        p.bump_any()?;
    }
    Ok(())
}

/// Ends the parse of a top entry. `m`, the only open marker, must be the one started first.
///
/// If no token is left and the output is one tree, exactly one node and no other token or message, it is returned as it
/// is. Otherwise the tokens that are left are taken one by one, and the tree is one `ERROR` over everything. `known` must
/// be true of what was parsed. The error means out of memory.
#[tactic(auto, using(crate::proofs::TopTree::closing))]
pub fn close_top(
    alloc: Global,
    mut p: Parser<'_>,
    m: Marker,
    known: Known,
) -> Result<Output, NoMemory>
    requires newest { (state p).marker ≡ Some m.pos.value }
    requires below { (state p).below ≡ push floor None none }
    requires known { IsKnown known (state p).forest }
    ensures top { IfOk result (λ output. output ≡ top_tree (state p.entry).forest (state p.entry).rest) }
    ensures covers { IfOk result (λ output. covers (state p.entry).input output ≡ true) }
    ensures used { IfOk result (λ output. used output ≡ length (state p.entry).input) }
    ensures few { IfOk result (λ output. length (flat output) ≤ (state p.entry).count + (state p.entry).left + 3) }
    ensures fit { IfOk result (λ output. message_count output ≡ 0 → ∥ AllFitIn output ∥₁) }
{
    if !is_at_end(&p) {
        take_rest(&mut p)?;
        m.complete(&mut p, SyntaxKind::ERROR)?;
        let output = p.process(alloc)?;
        return Ok(output);
    }
    m.abandon(&mut p)?;
    let output = p.process(alloc)?;
    if is_one_tree_by(&output, known) {
        return Ok(output);
    }
    let output = wrap_in_node(alloc, output, SyntaxKind::ERROR)?;
    Ok(output)
}

/// Ends the parse of a top entry whose node has the marker `m`, the only open one. No token must be left. The error
/// means out of memory.
#[tactic(auto, using(crate::proofs::TopTree::closing))]
pub fn close_root(
    alloc: Global,
    mut p: Parser<'_>,
    m: Marker,
    kind: SyntaxKind,
) -> Result<Output, NoMemory>
    requires newest { (state p).marker ≡ Some m.pos.value }
    requires below { (state p).below ≡ push floor None none }
    requires end { (state p).rest ≡ [] }
    requires plain { is_plain kind ≡ true }
    ensures root { IfOk result (λ output. output ≡ node none kind (state p.entry).forest) }
    ensures covers { IfOk result (λ output. covers (state p.entry).input output ≡ true) }
    ensures used { IfOk result (λ output. used output ≡ length (state p.entry).input) }
    ensures few { IfOk result (λ output. length (flat output) ≤ (state p.entry).count + 1) }
    ensures fit { IfOk result (λ output. message_count output ≡ 0 → ∥ AllFitIn output ∥₁) }
{
    m.complete(&mut p, kind)?;
    let output = p.process(alloc)?;
    Ok(output)
}
