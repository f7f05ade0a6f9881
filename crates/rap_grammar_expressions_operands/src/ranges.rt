//! Ranges.
//! In the Rust crate: `grammar/expressions.rs`.
ghost use Rattle.std.specs.Prelude.{◌≡◌, ◌≢◌, ◌<◌, ◌≤◌, IfOk, false, true, OnOk};
ghost use Rattle.rap_base.specs.NodeKind.{RANGE_EXPR};
ghost use Rattle.rap_base.specs.TokenKind.{EOF};
ghost use Rattle.rap_events.specs.State.{state, IsLast, At, last_children};
ghost use Rattle.rap_events.specs.Power.{power, open_ended};
ghost use Rattle.rap_grammar_scripts.specs.Ranges as script;
ghost use Rattle.rap_grammar_scripts.specs.Ranges.{has_range_end};
ghost use Rattle.rap_grammar_frame.specs.Grew.{Within};
ghost use Rattle.rap_grammar_scripts.specs.Exec.{Does, Executes};
ghost use Rattle.rap_grammar_facts.specs.Nodes.{IsAtom, Wrapped};
ghost use Rattle.rap_grammar_scripts.specs.Test.{holds};
ghost use Rattle.rap_grammar_scripts.specs.Words.{of_bool};

use rap_base::T;
use rap_base::no_memory::NoMemory;
use rap_base::syntax_kind::SyntaxKind;
use rap_events::parser::{CompletedMarker, Parser};
use rap_grammar_frame::first::is_expr_first;
use rap_grammar_frame::knot::Grammar;
use rap_grammar_scripts::arguments::Restrictions;
use rap_grammar_scripts::rule::Rule;

/// Whether the dots of a range have an end after them: not in `(1..).max()`, nor before the block of `for i in 1.. {}`.
#[tactic(auto, unfolding(rap_grammar_scripts::specs::Ranges::has_range_end))]
fn has_range_end(p: &Parser<'_>, r: Restrictions) -> bool
    ensures { result ≡ holds (has_range_end r.forbid_structs) (state p.now).rest }
{
    let has_access_after = p.current() == T![.] && p.nth(1) == T![ident];
    let struct_forbidden = r.forbid_structs && p.current() == T!['{'];
    is_expr_first(p.current()) && !has_access_after && !struct_forbidden
}

/// The dots of a range after its start `lhs`, as `..` and `..=b` after `a`. Returns whether an end followed them.
#[tactic(auto, using(rap_grammar_frame::proofs::Binary::width_positive), unfolding(rap_grammar_scripts::specs::Ranges::range_expr))]
#[inline(never)]
pub fn range_expr<G: Grammar>(
    p: &mut Parser<'_>,
    g: &G,
    lhs: CompletedMarker,
    r: Restrictions,
    op: SyntaxKind,
) -> Result<(CompletedMarker, bool), NoMemory>
    requires within { Within G.valid G.left g.now p.old }
    requires last { IsLast (state p.old) lhs lhs.kind.value }
    requires here { At (state p.old) op }
    requires power { power op ≡ 2 }
    ensures wraps { IfOk result (λ range. Wrapped RANGE_EXPR (state p.old) (state p.new) range.0) }
    ensures open_end { IfOk result (λ range. range.1 ≡ false → open_ended (last_children (state p.new).forest) ≡ true) }
    ensures script { IfOk result
        (λ range. Does (G.left g.now) (script.range_expr r op) (of_bool range.1) (state p.old) (state p.new)) }
{
    let m = lhs.precede(p)?;
    p.bump(op)?;
    if !has_range_end(p, r) {
        let cm = m.complete(p, SyntaxKind::RANGE_EXPR)?;
        return Ok((cm, false));
    }
    let r = Restrictions {
        prefer_stmt: false,
        ..r
    };
    g.run(p, Rule::ExprBp { r, bp: 3 })?;
    let cm = m.complete(p, SyntaxKind::RANGE_EXPR)?;
    Ok((cm, true))
}

/// A range without a start, as `..` and `..=b`.
#[tactic(auto, using(rap_grammar_frame::proofs::Binary::width_positive), unfolding(rap_grammar_scripts::specs::Ranges::prefix_range))]
#[inline(never)]
pub fn prefix_range<G: Grammar>(
    p: &mut Parser<'_>,
    g: &G,
    r: Restrictions,
    op: SyntaxKind,
) -> Result<CompletedMarker, NoMemory>
    requires within { Within G.valid G.left g.now p.old }
    requires here { At (state p.old) op }
    requires some { op ≢ EOF }
    ensures atom { IfOk result (IsAtom (state p.old) (state p.new)) }
    ensures script { OnOk result (Executes (G.left g.now) (script.prefix_range r op) p.old p.new) }
{
    let m = p.start()?;
    p.bump(op)?;
    if has_range_end(p, r) {
        g.run(p, Rule::ExprBp { r, bp: 2 })?;
    }
    let cm = m.complete(p, SyntaxKind::RANGE_EXPR)?;
    Ok(cm)
}
