//! The list of generic arguments.
ghost use Rattle.std.specs.Prelude.{◌≡◌, ◌<◌, ◌≤◌, true, false, OnOk, Some};
ghost use Rattle.rap_base.specs.TokenKind.{L_ANGLE, COLON2};
ghost use Rattle.rap_events.specs.State.{state, next};
ghost use Rattle.rap_events.specs.Composite.{is_at};
ghost use Rattle.rap_grammar_scripts.specs.First.{is_generic_arg_first, starts_expr_args};
ghost use Rattle.rap_grammar_frame.specs.Grew.{Within, Grew};
ghost use Rattle.rap_grammar_scripts.specs.Exec.{Executes};
ghost use Rattle.rap_grammar_scripts.specs.GenericArgList as script;
ghost use Rattle.rap_grammar_scripts.specs.Test.{holds};

use rap_base::T;
use rap_base::no_memory::NoMemory;
use rap_base::syntax_kind::SyntaxKind;
use rap_events::parser::{Marker, Parser};
use rap_grammar_frame::first::is_generic_arg_first;
use rap_grammar_frame::knot::Grammar;
use rap_grammar_frame::lists::{Element, delimited};
use rap_grammar_scripts::rule::Rule;

/// An argument in a list.
pub struct GenericArg;

impl Element for GenericArg {
    ghost use Rattle.rap_grammar_scripts.specs.First as first_script;
    ghost use Rattle.rap_grammar_scripts.specs.ThroughKnot as through_knot_script;

    ghost element = { λ _. through_knot_script.generic_arg_element };

    ghost first = { λ _. first_script.is_generic_arg_first };

    #[tactic(auto, unfolding(rap_grammar_scripts::specs::ThroughKnot::generic_arg_element))]
    fn parse<G: Grammar>(&self, p: &mut Parser<'_>, g: &G) -> Result<bool, NoMemory> {
        if !is_generic_arg_first(p.current()) {
            return Ok(false);
        }
        g.run(p, Rule::GenericArg)?;
        Ok(true)
    }

    fn is_first(&self, kind: SyntaxKind) -> bool {
        is_generic_arg_first(kind)
    }
}

/// Arguments in angle brackets, as `<a, 'b, 1>`, whose marker is open.
#[inline(never)]
#[tactic(auto, unfolding(rap_grammar_scripts::specs::GenericArgList::generic_arg_list))]
pub(crate) fn generic_arg_list<G: Grammar>(
    p: &mut Parser<'_>,
    g: &G,
    m: Marker,
) -> Result<(), NoMemory>
    requires within { Within G.valid G.left g.now p.old }
    requires newest { (state p.old).marker ≡ Some m.pos.value }
    requires here { next (state p.old) ≡ L_ANGLE }
    ensures script { OnOk result (Executes (G.left g.now) script.generic_arg_list p.old p.new) }
{
    delimited(
        p,
        g,
        T![<],
        T![>],
        T![,],
        "expected generic argument",
        &GenericArg,
    )?;
    m.complete(p, SyntaxKind::GENERIC_ARG_LIST)?;
    Ok(())
}

/// Whether the arguments after a name in an expression come next.
#[inline(always)]
fn starts_expr_args(p: &Parser<'_>) -> bool
    ensures { result ≡ holds starts_expr_args (state p.now).rest }
{
    p.at(T![::]) && p.nth_at(2, T![<])
}

/// The arguments after a name in an expression, as `::<a>`, if there are.
#[inline(always)]
#[tactic(auto, using(rap_grammar_facts::proofs::GenericArgList::ended_generic_arg_list), unfolding(rap_grammar_scripts::specs::GenericArgList::opt_generic_arg_list_expr))]
pub fn opt_generic_arg_list_expr<G: Grammar>(p: &mut Parser<'_>, g: &G) -> Result<(), NoMemory>
    requires within { Within G.valid G.left g.now p.old }
    ensures grew { OnOk result (Grew (state p.old) (state p.new) 0) }
    ensures stays { OnOk result (is_at COLON2 (state p.old).rest ≡ false → state p.new ≡ state p.old) }
    ensures script { OnOk result (Executes (G.left g.now) script.opt_generic_arg_list_expr p.old p.new) }
{
    if !starts_expr_args(p) {
        return Ok(());
    }
    let m = p.start()?;
    p.bump(T![::])?;
    generic_arg_list(p, g, m)?;
    Ok(())
}
