//! Macros, and calls of them in the place of an item.
//! In the Rust crate: `grammar/items.rs`.
ghost use Rattle.std.specs.Prelude.{ℕ, ◌≡◌, ◌≢◌, ◌<◌, ◌≤◌, IfOk, OnOk, Some, None, true, ◌⊎◌};
ghost use Rattle.rap_base.specs.TokenKind.{BANG, MACRO_KW, MACRO_RULES_KW};
ghost use Rattle.rap_events.specs.State.{state, next, ReadsAs};
ghost use Rattle.rap_grammar_facts.specs.Alone.{ExecutesDeep};
ghost use Rattle.rap_grammar_scripts.specs.Macros as script;

use rap_base::T;
use rap_base::no_memory::NoMemory;
use rap_base::syntax_kind::SyntaxKind;
use rap_events::parser::{Marker, Parser};
use rap_grammar_frame::item_names::item_name;
use rap_grammar_frame::names::name;
use rap_grammar_frame::token_tree::{is_bracket, macro_call_after_excl, token_tree};

/// A macro by its rules, as `macro_rules! a { () => {} }`.
#[tactic(auto, using(rap_grammar_facts::proofs::Alone::deep_marker_kept, rap_grammar_facts::proofs::Macros::level_rules_in_brackets))]
pub fn macro_rules(p: &mut Parser<'_>, m: Marker) -> Result<(), NoMemory>
    requires newest { (state p.old).marker ≡ Some m.pos.value }
    requires here { ReadsAs (state p.old) MACRO_RULES_KW }
    ensures script { OnOk result (ExecutesDeep script.macro_rules p.old p.new) }
{
    p.bump_remap(T![macro_rules])?;
    p.expect(T![!])?;
    name(p)?;
    rules_in_brackets(p)?;
    m.complete(p, SyntaxKind::MACRO_RULES)?;
    Ok(())
}

/// The rules of a macro in their brackets, with a semicolon after them if these are no braces.
#[tactic(auto, unfolding(rap_grammar_scripts::specs::Macros::rules_in_brackets))]
fn rules_in_brackets(p: &mut Parser<'_>) -> Result<(), NoMemory>
    ensures script { OnOk result (ExecutesDeep script.rules_in_brackets p.old p.new) }
{
    let kind = p.current();
    if matches!(kind, T!['['] | T!['(']) {
        token_tree(p)?;
        p.expect(T![;])?;
        return Ok(());
    }
    if kind == T!['{'] {
        token_tree(p)?;
        return Ok(());
    }
    p.error("expected `{`, `[`, `(`")?;
    Ok(())
}

/// A macro from its keyword on, as `macro a($b:ident) {}`.
#[tactic(auto, using(rap_grammar_facts::proofs::Alone::deep_marker_kept, rap_grammar_facts::proofs::Macros::level_macro_def_tokens), unfolding(rap_grammar_scripts::specs::Macros::macro_def))]
pub fn macro_def(p: &mut Parser<'_>, m: Marker) -> Result<(), NoMemory>
    requires newest { (state p.old).marker ≡ Some m.pos.value }
    requires here { next (state p.old) ≡ MACRO_KW }
    ensures script { OnOk result (ExecutesDeep script.macro_def p.old p.new) }
{
    p.bump(T![macro])?;
    item_name(p)?;
    macro_def_tokens(p)?;
    m.complete(p, SyntaxKind::MACRO_DEF)?;
    Ok(())
}

/// What stands after a macro's name, as `{ () => {} }` and `($a:ident) {}`.
#[tactic(auto, unfolding(rap_grammar_scripts::specs::Macros::macro_def_tokens))]
fn macro_def_tokens(p: &mut Parser<'_>) -> Result<(), NoMemory>
    ensures script { OnOk result (ExecutesDeep script.macro_def_tokens p.old p.new) }
{
    if p.at(T!['{']) {
        token_tree(p)?;
        return Ok(());
    }
    if p.at(T!['(']) {
        token_tree(p)?;
        macro_def_body(p)?;
        return Ok(());
    }
    p.error("unmatched `(`")?;
    Ok(())
}

/// The body of a macro, after its parameters.
#[tactic(auto, unfolding(rap_grammar_scripts::specs::Macros::macro_def_body))]
fn macro_def_body(p: &mut Parser<'_>) -> Result<(), NoMemory>
    ensures script { OnOk result (ExecutesDeep script.macro_def_body p.old p.new) }
{
    if is_bracket(p.current()) {
        token_tree(p)?;
        return Ok(());
    }
    p.error("expected `{`, `[`, `(`")?;
    Ok(())
}

/// A macro call after its path in the place of an item, as `!{}` and `!();`.
#[tactic(auto, unfolding(rap_grammar_scripts::specs::Macros::macro_call))]
pub fn macro_call(p: &mut Parser<'_>, m: Marker) -> Result<(), NoMemory>
    requires newest { (state p.old).marker ≡ Some m.pos.value }
    requires here { next (state p.old) ≡ BANG }
    ensures script { OnOk result (ExecutesDeep script.macro_call p.old p.new) }
{
    let like = macro_call_after_excl(p)?;
    if like.is_block() {
        m.complete(p, SyntaxKind::MACRO_CALL)?;
        return Ok(());
    }
    p.expect(T![;])?;
    m.complete(p, SyntaxKind::MACRO_CALL)?;
    Ok(())
}
