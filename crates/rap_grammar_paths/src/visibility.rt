//! Visibilities of items and fields.
//! In the Rust crate: `grammar.rs`.
ghost use Rattle.std.specs.Prelude.{◌≡◌, ◌≢◌, ◌<◌, ◌≤◌, IfOk, OnOk, true, false, ◌⊎◌};
ghost use Rattle.rap_base.specs.TokenKind.{PUB_KW, L_PAREN, IN_KW};
ghost use Rattle.rap_events.specs.State.{state, next, At, NthAt};
ghost use Rattle.rap_grammar_scripts.specs.Visibility as script;
ghost use Rattle.rap_grammar_frame.specs.Grew.{Within, Behind, Took, Grew};
ghost use Rattle.rap_grammar_scripts.specs.Exec.{Does, Executes};
ghost use Rattle.rap_grammar_frame.specs.Room.{list_room};
ghost use Rattle.rap_grammar_scripts.specs.Test.{holds};
ghost use Rattle.rap_grammar_scripts.specs.Words.{of_bool};

use crate::paths::vis_path;
use rap_base::T;
use rap_base::no_memory::NoMemory;
use rap_base::syntax_kind::SyntaxKind;
use rap_events::parser::Parser;
use rap_grammar_frame::knot::Grammar;

/// `pub` with its restriction, as `pub(crate)`, if it comes next. In a tuple's field, parentheses may be the field's
/// type. Returns whether it does.
#[tactic(auto, unfolding(rap_grammar_scripts::specs::Visibility::opt_visibility))]
pub fn opt_visibility<G: Grammar>(
    p: &mut Parser<'_>,
    g: &G,
    in_tuple_field: bool,
) -> Result<bool, NoMemory>
    requires within { Within G.valid G.left g.now p.old }
    ensures took { IfOk result (λ found. found ≡ true → Took (state p.old) (state p.new) list_room) }
    ensures stays { IfOk result (λ found. found ≡ false → state p.new ≡ state p.old) }
    ensures script { IfOk result
        (λ found. Does (G.left g.now) (script.opt_visibility in_tuple_field) (of_bool found) (state p.old)
        (state p.new)) }
{
    if !p.at(T![pub]) {
        return Ok(false);
    }
    let m = p.start()?;
    p.bump(T![pub])?;
    opt_visibility_inner(p, g, in_tuple_field)?;
    m.complete(p, SyntaxKind::VISIBILITY)?;
    Ok(true)
}

/// Whether a restriction to a module comes next. In a tuple's field, parentheses around a name or around nothing are
/// its type.
fn starts_restriction(p: &Parser<'_>, in_tuple_field: bool) -> bool
    ensures here { result ≡ holds (script.starts_restriction in_tuple_field) (state p.now).rest }
    ensures paren { result ≡ true → next (state p.now) ≡ L_PAREN }
{
    p.at(T!['('])
        && matches!(
            p.nth(1),
            T![crate] | T![self] | T![super] | T![ident] | T![')']
        )
        && p.nth(2) != T![:]
        && !(in_tuple_field && matches!(p.nth(1), T![ident] | T![')']))
}

/// Whether a restriction with `in` comes next.
fn starts_in_restriction(p: &Parser<'_>) -> bool
    ensures here { result ≡ holds script.starts_in_restriction (state p.now).rest }
    ensures paren { result ≡ true → next (state p.now) ≡ L_PAREN }
    ensures more { result ≡ true → NthAt (state p.now) 1 IN_KW }
{
    p.at(T!['(']) && p.nth_at(1, T![in])
}

/// A restriction in its parentheses, as `(crate)` and `(in a::b)`, if it comes next. Returns whether it does.
#[tactic(auto, using(rap_grammar_facts::proofs::Visibility::took_restriction, rap_grammar_facts::proofs::Visibility::took_in_restriction), unfolding(rap_grammar_scripts::specs::Visibility::opt_visibility_inner))]
pub fn opt_visibility_inner<G: Grammar>(
    p: &mut Parser<'_>,
    g: &G,
    in_tuple_field: bool,
) -> Result<bool, NoMemory>
    requires within { Within G.valid G.left g.now p.old }
    ensures took { IfOk result (λ found. found ≡ true → Took (state p.old) (state p.new) list_room) }
    ensures stays { IfOk result (λ found. found ≡ false → state p.new ≡ state p.old) }
    ensures script { IfOk result
        (λ found. Does (G.left g.now) (script.opt_visibility_inner in_tuple_field) (of_bool found) (state p.old)
        (state p.new)) }
{
    if starts_restriction(p, in_tuple_field) {
        restriction(p, g)?;
        return Ok(true);
    }
    if starts_in_restriction(p) {
        in_restriction(p, g)?;
        return Ok(true);
    }
    Ok(false)
}

/// A restriction to a module, as `(crate)`.
#[tactic(auto, using(rap_grammar_frame::proofs::Done::marker_kept, rap_grammar_facts::proofs::Paths::level_vis_path), unfolding(rap_grammar_scripts::specs::Visibility::restriction))]
fn restriction<G: Grammar>(p: &mut Parser<'_>, g: &G) -> Result<(), NoMemory>
    requires within { Within G.valid G.left g.now p.old }
    requires here { next (state p.old) ≡ L_PAREN }
    ensures script { OnOk result (Executes (G.left g.now) script.restriction p.old p.new) }
{
    let m = p.start()?;
    p.bump(T!['('])?;
    vis_path(p, g)?;
    p.expect(T![')'])?;
    m.complete(p, SyntaxKind::VISIBILITY_INNER)?;
    Ok(())
}

/// A restriction with `in`, as `(in a::b)`.
#[tactic(auto, using(rap_grammar_frame::proofs::Done::marker_kept, rap_grammar_facts::proofs::Paths::level_vis_path), unfolding(rap_grammar_scripts::specs::Visibility::in_restriction))]
fn in_restriction<G: Grammar>(p: &mut Parser<'_>, g: &G) -> Result<(), NoMemory>
    requires within { Within G.valid G.left g.now p.old }
    requires here { next (state p.old) ≡ L_PAREN }
    requires more { NthAt (state p.old) 1 IN_KW }
    ensures script { OnOk result (Executes (G.left g.now) script.in_restriction p.old p.new) }
{
    let m = p.start()?;
    p.bump(T!['('])?;
    p.bump(T![in])?;
    vis_path(p, g)?;
    p.expect(T![')'])?;
    m.complete(p, SyntaxKind::VISIBILITY_INNER)?;
    Ok(())
}
