//! Blocks, and the `let` statements in them.
//! In the Rust crate: `grammar/expressions/atom.rs`, `grammar/expressions.rs` and `grammar.rs`.
ghost use Rattle.std.specs.Prelude.{ℕ, ◌≡◌, ◌≢◌, ◌<◌, ◌≤◌, OnOk, IfOk, true, ◌⊎◌};
ghost use Rattle.rap_base.specs.NodeKind.{BLOCK_EXPR};
ghost use Rattle.rap_base.specs.TokenKind.{L_CURLY, ELSE_KW, LET_KW};
ghost use Rattle.rap_events.specs.Forest.{node};
ghost use Rattle.rap_events.specs.State.{state, last_children, next};
ghost use Rattle.rap_grammar_scripts.specs.Blocks as script;
ghost use Rattle.rap_grammar_scripts.specs.Blocks.{starts_let};
ghost use Rattle.rap_grammar_frame.specs.Grew.{Within, Behind, Took, Grew};
ghost use Rattle.rap_grammar_scripts.specs.Exec.{Does, Executes};
ghost use Rattle.rap_grammar_frame.specs.Room.{brackets_room, list_room, recovery_events};
ghost use Rattle.rap_grammar_scripts.specs.Test.{holds};
ghost use Rattle.rap_grammar_scripts.specs.Words.{of_option};

use rap_base::T;
use rap_base::no_memory::NoMemory;
use rap_base::syntax_kind::SyntaxKind;
use rap_events::parser::{CompletedMarker, Parser};
use rap_grammar_attributes::attributes::inner_attrs;
use rap_grammar_frame::knot::Grammar;
use rap_grammar_frame::through_knot::{ascription, expr, pattern};
use rap_grammar_scripts::arguments::Semicolon;
use rap_grammar_scripts::rule::Rule;

/// A block, as `{ a; b }`. Where none begins, that is reported.
#[tactic(auto, unfolding(rap_grammar_scripts::specs::Blocks::block_expr))]
pub fn block_expr<G: Grammar>(p: &mut Parser<'_>, g: &G) -> Result<(), NoMemory>
    requires within { Within G.valid G.left g.now p.old }
    ensures grew { OnOk result (Grew (state p.old) (state p.new) recovery_events) }
    ensures took { OnOk result (next (state p.old) ≡ L_CURLY → Took (state p.old) (state p.new) list_room) }
    ensures one { OnOk result
        (next (state p.old) ≡ L_CURLY →
        (state p.new).forest ≡ node (state p.old).forest BLOCK_EXPR (last_children (state p.new).forest)) }
    ensures script { OnOk result (Executes (G.left g.now) script.block_expr p.old p.new) }
{
    if !p.at(T!['{']) {
        p.error("expected a block")?;
        return Ok(());
    }
    let m = p.start()?;
    stmt_list(p, g)?;
    m.complete(p, SyntaxKind::BLOCK_EXPR)?;
    Ok(())
}

/// The statements of a block in their braces.
#[tactic(auto, unfolding(rap_grammar_scripts::specs::Blocks::stmt_list))]
pub fn stmt_list<G: Grammar>(p: &mut Parser<'_>, g: &G) -> Result<(), NoMemory>
    requires within { Within G.valid G.left g.now p.old }
    requires here { next (state p.old) ≡ L_CURLY }
    ensures took { OnOk result (Took (state p.old) (state p.new) brackets_room) }
    ensures script { OnOk result (Executes (G.left g.now) script.stmt_list p.old p.new) }
{
    let m = p.start()?;
    p.bump(T!['{'])?;
    expr_block_contents(p, g)?;
    p.expect(T!['}'])?;
    m.complete(p, SyntaxKind::STMT_LIST)?;
    Ok(())
}

/// What stands in the braces of a block.
#[tactic(auto, unfolding(rap_grammar_scripts::specs::Blocks::expr_block_contents))]
pub fn expr_block_contents<G: Grammar>(p: &mut Parser<'_>, g: &G) -> Result<(), NoMemory>
    requires behind { Behind G.valid G.left g.now p.old }
    ensures grew { OnOk result (Grew (state p.old) (state p.new) 8) }
    ensures script { OnOk result (Executes (G.left g.now) script.expr_block_contents p.old p.new) }
{
    inner_attrs(p, g)?;
    statements(p, g)?;
    Ok(())
}

/// The statements of a block, up to the brace that closes it.
#[tactic(auto, using(rap_grammar_frame::proofs::Loops::turns), unfolding(rap_grammar_scripts::specs::Blocks::statements))]
fn statements<G: Grammar>(p: &mut Parser<'_>, g: &G) -> Result<(), NoMemory>
    requires behind { Behind G.valid G.left g.now p.old }
    ensures grew { OnOk result (Grew (state p.old) (state p.new) 0) }
    ensures script { OnOk result (Executes (G.left g.now) script.statements p.old p.new) }
{
    'statements: while !p.at(SyntaxKind::EOF) && !p.at(T!['}']) {
        let semicolon = Semicolon::Required;
        g.run(p, Rule::Stmt { semicolon })?;
    }
    Ok(())
}

/// A block where none may be, as the `{}` of `S { {} }`.
#[tactic(auto, unfolding(rap_grammar_scripts::specs::Blocks::error_block))]
pub fn error_block<G: Grammar>(p: &mut Parser<'_>, g: &G, message: &str) -> Result<(), NoMemory>
    requires within { Within G.valid G.left g.now p.old }
    requires here { next (state p.old) ≡ L_CURLY }
    ensures took { OnOk result (Took (state p.old) (state p.new) list_room) }
    ensures script { OnOk result (Executes (G.left g.now) (script.error_block message.now) p.old p.new) }
{
    let m = p.start()?;
    p.error(message)?;
    p.bump(T!['{'])?;
    expr_block_contents(p, g)?;
    p.eat(T!['}'])?;
    m.complete(p, SyntaxKind::ERROR)?;
    Ok(())
}

/// Whether a `let` comes next, or a `super let`.
pub fn starts_let(p: &Parser<'_>) -> bool
    ensures { result ≡ holds starts_let (state p.now).rest }
{
    p.at(T![let]) || (p.at(T![super]) && p.nth_at(1, T![let]))
}

/// A `let` statement without the node around it, as `let a: b = c else { d };`.
#[tactic(auto, unfolding(rap_grammar_scripts::specs::Blocks::let_stmt))]
pub fn let_stmt<G: Grammar>(p: &mut Parser<'_>, g: &G, with_semi: Semicolon) -> Result<(), NoMemory>
    requires within { Within G.valid G.left g.now p.old }
    requires here { holds starts_let (state p.old).rest ≡ true }
    ensures took { OnOk result (Took (state p.old) (state p.new) brackets_room) }
    ensures script { OnOk result (Executes (G.left g.now) (script.let_stmt with_semi) p.old p.new) }
{
    p.eat(T![super])?;
    p.bump(T![let])?;
    pattern(p, g)?;
    let_type(p, g)?;
    let value = let_value(p, g)?;
    let_else(p, g, value)?;
    let_end(p, with_semi)?;
    Ok(())
}

/// The type of a `let` statement, as the `: b` of `let a: b;`, if it has one.
#[tactic(auto, unfolding(rap_grammar_scripts::specs::Blocks::let_type))]
fn let_type<G: Grammar>(p: &mut Parser<'_>, g: &G) -> Result<(), NoMemory>
    requires within { Within G.valid G.left g.now p.old }
    ensures grew { OnOk result (Grew (state p.old) (state p.new) 0) }
    ensures script { OnOk result (Executes (G.left g.now) script.let_type p.old p.new) }
{
    if !p.at(T![:]) {
        return Ok(());
    }
    ascription(p, g)?;
    Ok(())
}

/// The value of a `let` statement, as the `= b` of `let a = b;`, if it has one.
#[tactic(auto, unfolding(rap_grammar_scripts::specs::Blocks::let_value))]
fn let_value<G: Grammar>(p: &mut Parser<'_>, g: &G) -> Result<Option<CompletedMarker>, NoMemory>
    requires within { Within G.valid G.left g.now p.old }
    ensures grew { OnOk result (Grew (state p.old) (state p.new) 0) }
    ensures script { IfOk result
        (λ value. Does (G.left g.now) script.let_value (of_option value) (state p.old) (state p.new)) }
{
    if !p.eat(T![=])? {
        return Ok(None);
    }
    let value = expr(p, g)?;
    Ok(value)
}

/// The `else { b }` of `let a = c else { b };`, if there is one.
#[tactic(auto, unfolding(rap_grammar_scripts::specs::Blocks::let_else))]
fn let_else<G: Grammar>(
    p: &mut Parser<'_>,
    g: &G,
    value: Option<CompletedMarker>,
) -> Result<(), NoMemory>
    requires within { Within G.valid G.left g.now p.old }
    ensures grew { OnOk result (Grew (state p.old) (state p.new) 0) }
    ensures script { OnOk result (Executes (G.left g.now) (script.let_else (of_option value)) p.old p.new) }
{
    if !p.at(T![else]) {
        return Ok(());
    }
    value_before_else(p, value)?;
    else_block(p, g)?;
    Ok(())
}

/// Reports a value before an `else` that ends with a brace.
fn value_before_else(p: &mut Parser<'_>, value: Option<CompletedMarker>) -> Result<(), NoMemory>
    ensures grew { OnOk result (Grew (state p.old) (state p.new) 1) }
    ensures rest { OnOk result ((state p.new).rest ≡ (state p.old).rest) }
    ensures script { OnOk result
        ((depth : ℕ) → Executes depth (script.value_before_else (of_option value)) p.old p.new) }
{
    let Some(_) = value else {
        return Ok(());
    };
    if p.last_token() == T!['}'] {
        p.error("right curly brace `}` before `else` in a `let...else` statement not allowed")?;
        return Ok(());
    }
    Ok(())
}

/// The `else` of a `let` statement, with its block.
#[tactic(auto, unfolding(rap_grammar_scripts::specs::Blocks::else_block))]
fn else_block<G: Grammar>(p: &mut Parser<'_>, g: &G) -> Result<(), NoMemory>
    requires within { Within G.valid G.left g.now p.old }
    requires here { next (state p.old) ≡ ELSE_KW }
    ensures took { OnOk result (Took (state p.old) (state p.new) list_room) }
    ensures script { OnOk result (Executes (G.left g.now) script.else_block p.old p.new) }
{
    let m = p.start()?;
    p.bump(T![else])?;
    block_expr(p, g)?;
    m.complete(p, SyntaxKind::LET_ELSE)?;
    Ok(())
}

/// The semicolon of a `let` statement, which may or must be there, or is left to others.
#[tactic(auto, unfolding(rap_grammar_scripts::specs::Blocks::let_end))]
fn let_end(p: &mut Parser<'_>, with_semi: Semicolon) -> Result<(), NoMemory>
    ensures grew { OnOk result (Grew (state p.old) (state p.new) 1) }
    ensures script { OnOk result ((depth : ℕ) → Executes depth (script.let_end with_semi) p.old p.new) }
{
    match with_semi {
        Semicolon::Required => {
            p.expect(T![;])?;
            Ok(())
        }
        Semicolon::Optional => {
            p.eat(T![;])?;
            Ok(())
        }
        Semicolon::Forbidden => Ok(()),
    }
}

/// A `let` statement where none may be.
#[tactic(auto, unfolding(rap_grammar_scripts::specs::Blocks::error_let_stmt))]
pub fn error_let_stmt<G: Grammar>(p: &mut Parser<'_>, g: &G, message: &str) -> Result<(), NoMemory>
    requires within { Within G.valid G.left g.now p.old }
    requires here { next (state p.old) ≡ LET_KW }
    ensures took { OnOk result (Took (state p.old) (state p.new) list_room) }
    ensures script { OnOk result (Executes (G.left g.now) (script.error_let_stmt message.now) p.old p.new) }
{
    let m = p.start()?;
    p.error(message)?;
    let_stmt(p, g, Semicolon::Optional)?;
    m.complete(p, SyntaxKind::ERROR)?;
    Ok(())
}
