//! Statements.
//! In the Rust crate: `grammar/expressions.rs`.
ghost use Rattle.std.specs.Prelude.{◌≡◌, OnOk, Some};
ghost use Rattle.rap_events.specs.State.{state, IsLast};
ghost use Rattle.rap_grammar_scripts.specs.Words.{of_like, is_block};
ghost use Rattle.rap_grammar_frame.specs.Grew.{Within};
ghost use Rattle.rap_grammar_facts.specs.Alone.{ExecutesAlone};
ghost use Rattle.rap_grammar_scripts.specs.Exec.{Executes};
ghost use Rattle.rap_grammar_scripts.specs.Statements as script;
ghost use Rattle.rap_grammar_scripts.specs.Statements.{ends_block};
ghost use Rattle.rap_grammar_scripts.specs.Test.{holds};

use rap_base::T;
use rap_base::no_memory::NoMemory;
use rap_base::syntax_kind::SyntaxKind;
use rap_events::parser::{CompletedMarker, Marker, Parser};
use rap_grammar_attributes::attributes::outer_attrs;
use rap_grammar_expressions::expressions::expr_from;
use rap_grammar_expressions_blocks::blocks::{let_stmt, starts_let};
use rap_grammar_frame::first::is_expr_first;
use rap_grammar_frame::knot::Grammar;
use rap_grammar_items::items::opt_item;
use rap_grammar_scripts::arguments::{BlockLike, Restrictions, Semicolon};

/// A statement: `;`, a `let`, an item, or an expression, which at the end of its block is its value.
#[tactic(auto, using(rap_grammar_facts::proofs::Items::fewer_opt_item), unfolding(rap_grammar_scripts::specs::Statements::stmt))]
pub fn stmt<G: Grammar>(p: &mut Parser<'_>, g: &G, semicolon: Semicolon) -> Result<(), NoMemory>
    requires within { Within G.valid G.left g.now p.old }
    ensures script { OnOk result (Executes (G.left g.now) (script.stmt semicolon) p.old p.new) }
{
    if p.eat(T![;])? {
        return Ok(());
    }
    let m = p.start()?;
    outer_attrs(p, g)?;
    if starts_let(p) {
        let_stmt(p, g, semicolon)?;
        m.complete(p, SyntaxKind::LET_STMT)?;
        return Ok(());
    }
    match opt_item(p, g, m, false)? {
        None => Ok(()),
        Some(m) => {
            expr_as_stmt(p, g, m, semicolon)?;
            Ok(())
        }
    }
}

/// An expression from the newest marker on, as a statement, or as the value of the block that ends after it.
#[tactic(auto, unfolding(rap_grammar_scripts::specs::Statements::expr_as_stmt))]
fn expr_as_stmt<G: Grammar>(
    p: &mut Parser<'_>,
    g: &G,
    m: Marker,
    semicolon: Semicolon,
) -> Result<(), NoMemory>
    requires within { Within G.valid G.left g.now p.old }
    requires newest { (state p.old).marker ≡ Some m.pos.value }
    ensures script { OnOk result (Executes (G.left g.now) (script.expr_as_stmt semicolon) p.old p.new) }
{
    if !is_expr_first(p.current()) {
        p.err_and_bump("expected expression, item or let statement")?;
        m.abandon(p)?;
        return Ok(());
    }
    let r = Restrictions {
        forbid_structs: false,
        prefer_stmt: true,
    };
    let Some((cm, block_like)) = expr_from(p, g, m, r, 1)? else {
        return Ok(());
    };
    expr_stmt_end(p, cm, block_like, semicolon)?;
    Ok(())
}

/// The end of an expression as a statement: a node around it and its semicolon, unless it is the value of its block.
#[tactic(auto, using(rap_grammar_facts::proofs::Alone::alone_marker_kept, rap_grammar_facts::proofs::Statements::level_expr_semicolon), unfolding(rap_grammar_scripts::specs::Statements::expr_stmt_end))]
fn expr_stmt_end(
    p: &mut Parser<'_>,
    cm: CompletedMarker,
    block_like: BlockLike,
    semicolon: Semicolon,
) -> Result<(), NoMemory>
    requires last { IsLast (state p.old) cm cm.kind.value }
    ensures script { OnOk result
        (ExecutesAlone (script.expr_stmt_end semicolon (is_block (of_like block_like))) p.old p.new) }
{
    if ends_block(p, semicolon) {
        return Ok(());
    }
    let m = cm.precede(p)?;
    expr_semicolon(p, semicolon, block_like)?;
    m.complete(p, SyntaxKind::EXPR_STMT)?;
    Ok(())
}

/// Whether an expression ends its block here, and is its value.
fn ends_block(p: &Parser<'_>, semicolon: Semicolon) -> bool
    ensures { result ≡ holds (ends_block semicolon) (state p.now).rest }
{
    match semicolon {
        Semicolon::Required => p.at(T!['}']),
        Semicolon::Optional | Semicolon::Forbidden => p.at(T!['}']) || p.at(SyntaxKind::EOF),
    }
}

/// The semicolon after an expression, which one that reads like a block may do without.
#[tactic(auto, unfolding(rap_grammar_scripts::specs::Statements::expr_semicolon))]
fn expr_semicolon(
    p: &mut Parser<'_>,
    semicolon: Semicolon,
    block_like: BlockLike,
) -> Result<(), NoMemory>
    ensures script { OnOk result
        (ExecutesAlone (script.expr_semicolon semicolon (is_block (of_like block_like))) p.old p.new) }
{
    match semicolon {
        Semicolon::Required => {
            if block_like.is_block() {
                p.eat(T![;])?;
                return Ok(());
            }
            p.expect(T![;])?;
            Ok(())
        }
        Semicolon::Optional => {
            p.eat(T![;])?;
            Ok(())
        }
        Semicolon::Forbidden => Ok(()),
    }
}
