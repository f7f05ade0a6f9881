//! Operators before an operand and between two.
//! In the Rust crate: `grammar/expressions.rs`.
ghost use Rattle.std.specs.Prelude.{◌≡◌, ◌≢◌, ◌+◌, ◌<◌, ◌≤◌, ◌↔◌, ◌∷◌, IfOk, OnOk, true, false, []};
ghost use Rattle.rap_base.specs.TokenKind.{EOF, AS_KW, MUT_KW, CONST_KW, IDENT, AMP};
ghost use Rattle.rap_base.specs.NodeKind.{BIN_EXPR, CAST_EXPR};
ghost use Rattle.rap_events.specs.Power.{power};
ghost use Rattle.rap_events.specs.State.{state, next, At, IsLast, but_last, last_children};
ghost use Rattle.rap_events.specs.Fit.{is_plain};
ghost use Rattle.rap_grammar_frame.specs.Climb.{Climbed, LeftFits, Bound};
ghost use Rattle.rap_grammar_scripts.specs.Operators as script;
ghost use Rattle.rap_grammar_scripts.specs.First.{one_of};
ghost use Rattle.rap_grammar_frame.specs.Grew.{Within};
ghost use Rattle.rap_grammar_scripts.specs.Exec.{Executes};
ghost use Rattle.rap_grammar_facts.specs.Alone.{ExecutesAlone};
ghost use Rattle.rap_grammar_scripts.specs.Operator.{operator_at};
ghost use Rattle.rap_grammar_facts.specs.Nodes.{IsAtom, Wrapped};

use rap_base::T;
use rap_base::no_memory::NoMemory;
use rap_base::syntax_kind::SyntaxKind;
use rap_events::parser::{CompletedMarker, Parser};
use rap_grammar_expressions_operands::ranges::range_expr;
use rap_grammar_frame::knot::Grammar;
use rap_grammar_frame::through_knot::type_no_bounds;
use rap_grammar_scripts::arguments::Restrictions;
use rap_grammar_scripts::rule::Rule;

/// The least power of the operand of a prefix operator: it binds tighter than any operator between two operands.
const PREFIX_POWER: u8 = 255;

#[derive(Clone, Copy)]
enum Associativity {
    Left,
    Right,
}

/// The operator after an operand that comes next, with its power: 12 for `as`. The power is 0 where none does.
#[inline(always)]
#[tactic(auto, unfolding(rap_grammar_scripts::specs::Operator::operator_at))]
fn current_op(p: &Parser<'_>) -> (u8, SyntaxKind, Associativity)
    ensures power { result.0 ≡ power (operator_at (state p.now).rest) }
    ensures op { 0 < result.0 → result.1 ≡ operator_at (state p.now).rest }
    ensures here { 0 < result.0 → At (state p.now) result.1 }
    ensures most { result.0 ≤ 12 }
    ensures cast { result.1 ≢ AS_KW → result.0 < 12 }
    ensures right { (result.2 ≡ Associativity.Right) ↔ (result.0 ≡ 1) }
{
    use Associativity::{Left, Right};
    match p.current() {
        T![|] if p.at(T![||]) => (3, T![||], Left),
        T![|] if p.at(T![|=]) => (1, T![|=], Right),
        T![|] => (6, T![|], Left),
        T![>] if p.at(T![>>=]) => (1, T![>>=], Right),
        T![>] if p.at(T![>>]) => (9, T![>>], Left),
        T![>] if p.at(T![>=]) => (5, T![>=], Left),
        T![>] => (5, T![>], Left),
        T![=] if p.at(T![==]) => (5, T![==], Left),
        T![=] if p.at(T![=>]) => (0, T![=>], Left),
        T![=] => (1, T![=], Right),
        T![<] if p.at(T![<=]) => (5, T![<=], Left),
        T![<] if p.at(T![<<=]) => (1, T![<<=], Right),
        T![<] if p.at(T![<<]) => (9, T![<<], Left),
        T![<] => (5, T![<], Left),
        T![+] if p.at(T![+=]) => (1, T![+=], Right),
        T![+] => (10, T![+], Left),
        T![^] if p.at(T![^=]) => (1, T![^=], Right),
        T![^] => (7, T![^], Left),
        T![%] if p.at(T![%=]) => (1, T![%=], Right),
        T![%] => (11, T![%], Left),
        T![&] if p.at(T![&=]) => (1, T![&=], Right),
        T![&] if p.at(T![&&]) => (4, T![&&], Left),
        T![&] => (8, T![&], Left),
        T![/] if p.at(T![/=]) => (1, T![/=], Right),
        T![/] => (11, T![/], Left),
        T![*] if p.at(T![*=]) => (1, T![*=], Right),
        T![*] => (11, T![*], Left),
        T![.] if p.at(T![..=]) => (2, T![..=], Left),
        T![.] if p.at(T![..]) => (2, T![..], Left),
        T![!] if p.at(T![!=]) => (5, T![!=], Left),
        T![-] if p.at(T![-=]) => (1, T![-=], Right),
        T![-] => (10, T![-], Left),
        T![as] => (12, T![as], Left),
        _ => (0, SyntaxKind::EOF, Left),
    }
}

/// The operators of at least the power `bp` after `lhs`, each with its operand on the right.
#[inline(always)]
#[tactic(auto, using(rap_grammar_frame::proofs::Done::less_left))]
pub(crate) fn climb<G: Grammar>(
    p: &mut Parser<'_>,
    g: &G,
    mut lhs: CompletedMarker,
    r: Restrictions,
    bp: u8,
) -> Result<CompletedMarker, NoMemory>
    requires within { Within G.valid G.left g.now p.old }
    requires last { IsLast (state p.old) lhs lhs.kind.value }
    requires plain { is_plain lhs.kind.value ≡ true }
    requires power { 1 ≤ bp }
    ensures last { IfOk result (λ cm. IsLast (state p.new) cm cm.kind.value) }
    ensures one { OnOk result (but_last (state p.new).forest ≡ but_last (state p.old).forest) }
    ensures climbed { IfOk result (λ cm. Climbed (state p.new) cm.kind.value bp false) }
    ensures script { OnOk result (Executes (G.left g.now) (script.climb r bp) p.old p.new) }
{
    'operators: loop {
        let (op_bp, op, associativity) = current_op(p);
        if op_bp < bp {
            return Ok(lhs);
        }
        if op == T![as] {
            lhs = cast_expr(p, g, lhs)?;
            continue;
        }
        if op_bp == 2 {
            let (range, has_end) = range_expr(p, g, lhs, r, op)?;
            lhs = range;
            if !has_end {
                return Ok(lhs);
            }
            continue;
        }
        lhs = bin_expr(p, g, lhs, r, op, op_bp, associativity)?;
    }
}

/// An operator between two expressions, the left one done, as `+ b` after `a`.
#[inline(never)]
#[tactic(auto, using(rap_grammar_frame::proofs::Binary::width_positive, rap_grammar_frame::proofs::Binary::bound), unfolding(rap_grammar_scripts::specs::Operators::bin_expr))]
fn bin_expr<G: Grammar>(
    p: &mut Parser<'_>,
    g: &G,
    lhs: CompletedMarker,
    r: Restrictions,
    op: SyntaxKind,
    bp: u8,
    associativity: Associativity,
) -> Result<CompletedMarker, NoMemory>
    requires within { Within G.valid G.left g.now p.old }
    requires last { IsLast (state p.old) lhs lhs.kind.value }
    requires here { At (state p.old) op }
    requires power { bp ≡ power op }
    requires positive { 0 < bp }
    requires no_range { bp ≢ 2 }
    requires no_cast { bp < 12 }
    requires right { (associativity ≡ Associativity.Right) ↔ (bp ≡ 1) }
    requires left_side { (state p.old).messages ≡ 0 → LeftFits lhs.kind.value (last_children (state p.old).forest) bp }
    ensures wraps { IfOk result (Wrapped BIN_EXPR (state p.old) (state p.new)) }
    ensures bound { OnOk result ((state p.new).messages ≡ 0 → Bound (state p.new) bp) }
    ensures script { OnOk result (Executes (G.left g.now) (script.bin_expr r op) p.old p.new) }
{
    let m = lhs.precede(p)?;
    p.bump(op)?;
    let bp = right_power(bp, associativity);
    let r = Restrictions {
        prefer_stmt: false,
        ..r
    };
    g.run(p, Rule::ExprBp { r, bp })?;
    let cm = m.complete_fit(p, SyntaxKind::BIN_EXPR)?;
    Ok(cm)
}

/// A cast, as `as b` after `a`.
#[inline(never)]
#[tactic(auto, unfolding(rap_grammar_scripts::specs::Operators::cast_expr))]
fn cast_expr<G: Grammar>(
    p: &mut Parser<'_>,
    g: &G,
    lhs: CompletedMarker,
) -> Result<CompletedMarker, NoMemory>
    requires within { Within G.valid G.left g.now p.old }
    requires last { IsLast (state p.old) lhs lhs.kind.value }
    requires here { At (state p.old) AS_KW }
    ensures wraps { IfOk result (Wrapped CAST_EXPR (state p.old) (state p.new)) }
    ensures script { OnOk result (Executes (G.left g.now) script.cast_expr p.old p.new) }
{
    let m = lhs.precede(p)?;
    p.bump(T![as])?;
    type_no_bounds(p, g)?;
    let cm = m.complete(p, SyntaxKind::CAST_EXPR)?;
    Ok(cm)
}

/// The least power of the operand on the right of an operator of the power `bp`.
fn right_power(bp: u8, associativity: Associativity) -> u8
    requires right { (associativity ≡ Associativity.Right) ↔ (bp ≡ 1) }
    requires small { bp < 12 }
    requires positive { 0 < bp }
    ensures left { bp ≢ 1 → result ≡ bp + 1 }
    ensures right { bp ≡ 1 → result ≡ 1 }
    ensures most { result ≤ bp + 1 }
    ensures positive { 1 ≤ result }
{
    match associativity {
        Associativity::Left => bp + 1,
        Associativity::Right => bp,
    }
}

/// What stands between the `&` of a reference and its operand: `mut`, `raw mut`, `raw const`, and `raw` before a name.
/// Elsewhere `raw` is a name itself, as in `&raw.b`.
#[tactic(auto, unfolding(rap_grammar_scripts::specs::Operators::ref_qualifier))]
fn ref_qualifier(p: &mut Parser<'_>) -> Result<(), NoMemory>
    ensures script { OnOk result (ExecutesAlone script.ref_qualifier p.old p.new) }
{
    if p.at_contextual_kw(T![raw]) && is_raw_follow(p.nth(1)) {
        p.bump_remap(T![raw])?;
        if p.eat(T![const])? {
            return Ok(());
        }
        p.eat(T![mut])?;
        return Ok(());
    }
    p.eat(T![mut])?;
    Ok(())
}

/// Whether `raw` before a token of this kind is no name.
fn is_raw_follow(kind: SyntaxKind) -> bool
    ensures { result ≡ one_of (MUT_KW ∷ CONST_KW ∷ IDENT ∷ []) kind }
{
    matches!(kind, T![mut] | T![const] | T![ident])
}

/// A reference, as `&a`, `&mut a` and `&raw const a`.
#[inline(never)]
#[tactic(auto, using(rap_grammar_facts::proofs::Operators::facts), unfolding(rap_grammar_scripts::specs::Operators::ref_expr))]
pub(crate) fn ref_expr<G: Grammar>(
    p: &mut Parser<'_>,
    g: &G,
    r: Restrictions,
) -> Result<CompletedMarker, NoMemory>
    requires within { Within G.valid G.left g.now p.old }
    requires here { next (state p.old) ≡ AMP }
    ensures atom { IfOk result (IsAtom (state p.old) (state p.new)) }
    ensures script { OnOk result (Executes (G.left g.now) (script.ref_expr r) p.old p.new) }
{
    let m = p.start()?;
    p.bump(T![&])?;
    ref_qualifier(p)?;
    g.run(
        p,
        Rule::ExprBp {
            r,
            bp: PREFIX_POWER,
        },
    )?;
    let cm = m.complete(p, SyntaxKind::REF_EXPR)?;
    Ok(cm)
}

/// An operator before its operand, as `-a`.
#[inline(never)]
#[tactic(auto, unfolding(rap_grammar_scripts::specs::Operators::prefix_expr))]
pub(crate) fn prefix_expr<G: Grammar>(
    p: &mut Parser<'_>,
    g: &G,
    r: Restrictions,
) -> Result<CompletedMarker, NoMemory>
    requires within { Within G.valid G.left g.now p.old }
    requires more { next (state p.old) ≢ EOF }
    ensures atom { IfOk result (IsAtom (state p.old) (state p.new)) }
    ensures script { OnOk result (Executes (G.left g.now) (script.prefix_expr r) p.old p.new) }
{
    let m = p.start()?;
    p.bump_any()?;
    let bp = PREFIX_POWER;
    g.run(p, Rule::ExprBp { r, bp })?;
    let cm = m.complete(p, SyntaxKind::PREFIX_EXPR)?;
    Ok(cm)
}
