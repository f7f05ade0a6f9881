//! What may stand before the keyword of an item.
//! In the Rust crate: `grammar/items.rs`.
ghost use Rattle.std.specs.Prelude.{ℕ, ◌≡◌, ◌≢◌, IfOk, OnOk, true, ◌||◌};
ghost use Rattle.rap_base.specs.TokenKind.{EOF, IMPL_KW, CONST_KW, ASYNC_KW, GEN_KW, UNSAFE_KW, SAFE_KW, AUTO_KW, DEFAULT_KW};
ghost use Rattle.rap_events.specs.State.{state, next, At, NthAt, ReadsAs};
ghost use Rattle.rap_grammar_frame.specs.Grew.{Within};
ghost use Rattle.rap_grammar_scripts.specs.Exec.{Does, Executes};
ghost use Rattle.rap_grammar_scripts.specs.Modifiers as script;
ghost use Rattle.rap_grammar_scripts.specs.Script.{again};
ghost use Rattle.rap_grammar_scripts.specs.Test.{Test, holds};
ghost use Rattle.rap_grammar_scripts.specs.Words.{of_bool};

use rap_base::T;
use rap_base::no_memory::NoMemory;
use rap_base::syntax_kind::SyntaxKind;
use rap_events::parser::Parser;
use rap_grammar_frame::knot::Grammar;
use rap_grammar_frame::names::abi;
use rap_grammar_paths::visibility::opt_visibility_inner;

/// Whether there were modifiers, and whether `extern` was one.
#[derive(Clone, Copy)]
pub struct ItemModifiers {
    pub has_mods: bool,
    pub has_extern: bool,
}

/// The modifiers of an item, as `pub(crate) const unsafe extern "C"` before `fn`, without the `pub`.
#[tactic(auto, unfolding(rap_grammar_scripts::specs::Modifiers::modifiers))]
pub fn modifiers<G: Grammar>(
    p: &mut Parser<'_>,
    g: &G,
    is_in_extern: bool,
) -> Result<ItemModifiers, NoMemory>
    requires within { Within G.valid G.left g.now p.old }
    ensures script { IfOk result
        (λ found. Does (G.left g.now) (script.modifiers is_in_extern) (again found.has_mods found.has_extern)
        (state p.old) (state p.new)) }
{
    let restricted = opt_impl_restriction(p, g)?;
    let qualified = qualifiers(p)?;
    let safe = safety(p, is_in_extern)?;
    let has_extern = opt_abi(p)?;
    let marked = auto_or_default(p)?;
    let has_mods = either(
        restricted,
        either(qualified, either(safe, either(has_extern, marked))),
    );
    Ok(ItemModifiers {
        has_mods,
        has_extern,
    })
}

/// Whether one of two was there.
fn either(a: bool, b: bool) -> bool
    ensures { result ≡ a || b }
{
    a || b
}

/// Whether an `impl` restriction of a trait comes next, and not the type of an implementation.
fn is_impl_restriction(p: &Parser<'_>) -> bool
    ensures here { result ≡ holds script.is_impl_restriction (state p.now).rest }
    ensures kind { result ≡ true → next (state p.now) ≡ IMPL_KW }
{
    p.at(T![impl])
        && p.nth(1) == T!['(']
        && ((matches!(p.nth(2), T![crate] | T![super] | T![self]) && p.nth(3) == T![')'])
            || p.nth(2) == T![in])
}

/// An `impl` restriction of a trait, as `impl(crate)`, if it comes next. Returns whether it does.
#[tactic(auto, unfolding(rap_grammar_scripts::specs::Modifiers::opt_impl_restriction))]
fn opt_impl_restriction<G: Grammar>(p: &mut Parser<'_>, g: &G) -> Result<bool, NoMemory>
    requires within { Within G.valid G.left g.now p.old }
    ensures script { IfOk result
        (λ found. Does (G.left g.now) script.opt_impl_restriction (of_bool found) (state p.old) (state p.new)) }
{
    if !is_impl_restriction(p) {
        return Ok(false);
    }
    impl_restriction(p, g)?;
    Ok(true)
}

/// An `impl` restriction of a trait, as `impl(crate)`.
#[tactic(auto, unfolding(rap_grammar_scripts::specs::Modifiers::impl_restriction))]
fn impl_restriction<G: Grammar>(p: &mut Parser<'_>, g: &G) -> Result<(), NoMemory>
    requires within { Within G.valid G.left g.now p.old }
    requires here { next (state p.old) ≡ IMPL_KW }
    ensures script { OnOk result (Executes (G.left g.now) script.impl_restriction p.old p.new) }
{
    let m = p.start()?;
    p.bump(T![impl])?;
    if opt_visibility_inner(p, g, false)? {
        m.complete(p, SyntaxKind::IMPL_RESTRICTION)?;
        return Ok(());
    }
    p.error("expected an impl restriction")?;
    m.complete(p, SyntaxKind::IMPL_RESTRICTION)?;
    Ok(())
}

/// A modifier that is a keyword, if it was found to come next.
#[tactic(auto, unfolding(rap_grammar_scripts::specs::Modifiers::modifier))]
fn modifier(p: &mut Parser<'_>, found: bool, kind: SyntaxKind) -> Result<bool, NoMemory>
    requires here { found ≡ true → At (state p.old) kind }
    requires some { kind ≢ EOF }
    ensures script { IfOk result
        (λ some. (depth : ℕ) → (t : Test) → found ≡ holds t (state p.old).rest →
        Does depth (script.modifier t kind) (of_bool some) (state p.old) (state p.new)) }
{
    if !found {
        return Ok(false);
    }
    p.bump(kind)?;
    Ok(true)
}

/// A modifier that is an identifier and is read as a keyword, if it was found to come next.
#[tactic(auto, unfolding(rap_grammar_scripts::specs::Modifiers::modifier_as))]
fn modifier_as(p: &mut Parser<'_>, found: bool, kind: SyntaxKind) -> Result<bool, NoMemory>
    requires here { found ≡ true → ReadsAs (state p.old) kind }
    ensures script { IfOk result
        (λ some. (depth : ℕ) → (t : Test) → found ≡ holds t (state p.old).rest →
        Does depth (script.modifier_as t kind) (of_bool some) (state p.old) (state p.new)) }
{
    if !found {
        return Ok(false);
    }
    p.bump_remap(kind)?;
    Ok(true)
}

/// Whether a `const` comes next that begins no block.
fn is_const_modifier(p: &Parser<'_>) -> bool
    ensures here { result ≡ holds script.is_const_modifier (state p.now).rest }
    ensures kind { result ≡ true → At (state p.now) CONST_KW }
{
    p.at(T![const]) && p.nth(1) != T!['{']
}

/// Whether an `async` comes next that begins no block and no closure.
fn is_async_modifier(p: &Parser<'_>) -> bool
    ensures here { result ≡ holds script.is_async_modifier (state p.now).rest }
    ensures kind { result ≡ true → At (state p.now) ASYNC_KW }
{
    p.at(T![async])
        && (!matches!(p.nth(1), T!['{'] | T![gen] | T![move] | T![|])
            || (p.nth(1) == T![gen] && p.nth(2) == T![fn]))
}

/// Whether a `gen` comes next that a function follows.
fn is_gen_modifier(p: &Parser<'_>) -> bool
    ensures here { result ≡ holds script.is_gen_modifier (state p.now).rest }
    ensures kind { result ≡ true → At (state p.now) GEN_KW }
{
    p.at(T![gen]) && p.nth(1) == T![fn]
}

/// Whether an `unsafe` comes next that begins no block.
fn is_unsafe_modifier(p: &Parser<'_>) -> bool
    ensures here { result ≡ holds script.is_unsafe_modifier (state p.now).rest }
    ensures kind { result ≡ true → At (state p.now) UNSAFE_KW }
{
    p.at(T![unsafe]) && p.nth(1) != T!['{']
}

/// Whether a `safe` comes next where one may be.
fn is_safe_modifier(p: &Parser<'_>, is_in_extern: bool) -> bool
    ensures here { result ≡ holds (script.is_safe_modifier is_in_extern) (state p.now).rest }
    ensures bears { result ≡ true → ReadsAs (state p.now) SAFE_KW }
{
    is_in_extern && p.at_contextual_kw(T![safe])
}

/// Whether an `auto` comes next that a trait follows.
fn is_auto_modifier(p: &Parser<'_>) -> bool
    ensures here { result ≡ holds script.is_auto_modifier (state p.now).rest }
    ensures bears { result ≡ true → ReadsAs (state p.now) AUTO_KW }
{
    p.at_contextual_kw(T![auto]) && p.nth(1) == T![trait]
}

/// The `const` and `async` of a function. Returns whether there was one of them.
#[tactic(auto, unfolding(rap_grammar_scripts::specs::Modifiers::qualifiers))]
fn qualifiers(p: &mut Parser<'_>) -> Result<bool, NoMemory>
    ensures script { IfOk result
        (λ found. (depth : ℕ) → Does depth script.qualifiers (of_bool found) (state p.old) (state p.new)) }
{
    let is_const = is_const_modifier(p);
    let constant = modifier(p, is_const, T![const])?;
    let is_async = is_async_modifier(p);
    let asynchronous = modifier(p, is_async, T![async])?;
    let is_gen = is_gen_modifier(p);
    let generator = modifier(p, is_gen, T![gen])?;
    Ok(either(constant, either(asynchronous, generator)))
}

/// `unsafe`, and `safe` in an `extern` block. Returns whether there was one.
#[tactic(auto, unfolding(rap_grammar_scripts::specs::Modifiers::safety))]
fn safety(p: &mut Parser<'_>, is_in_extern: bool) -> Result<bool, NoMemory>
    ensures script { IfOk result
        (λ found. (depth : ℕ) → Does depth (script.safety is_in_extern) (of_bool found) (state p.old) (state p.new)) }
{
    let is_unsafe = is_unsafe_modifier(p);
    let no_safety = modifier(p, is_unsafe, T![unsafe])?;
    let is_safe = is_safe_modifier(p, is_in_extern);
    let safe = modifier_as(p, is_safe, T![safe])?;
    Ok(either(no_safety, safe))
}

/// An ABI, as `extern "C"`, if it comes next. Returns whether it does.
#[tactic(auto, unfolding(rap_grammar_scripts::specs::Modifiers::opt_abi))]
fn opt_abi(p: &mut Parser<'_>) -> Result<bool, NoMemory>
    ensures script { IfOk result
        (λ found. (depth : ℕ) → Does depth script.opt_abi (of_bool found) (state p.old) (state p.new)) }
{
    if !p.at(T![extern]) {
        return Ok(false);
    }
    abi(p)?;
    Ok(true)
}

/// `auto` before a trait, and `default` before what may be replaced. Returns whether there was one.
#[tactic(auto, unfolding(rap_grammar_scripts::specs::Modifiers::auto_or_default))]
fn auto_or_default(p: &mut Parser<'_>) -> Result<bool, NoMemory>
    ensures script { IfOk result
        (λ found. (depth : ℕ) → Does depth script.auto_or_default (of_bool found) (state p.old) (state p.new)) }
{
    let is_auto = is_auto_modifier(p);
    let auto = modifier_as(p, is_auto, T![auto])?;
    let default = opt_default(p)?;
    Ok(either(auto, default))
}

/// Whether a `default` comes next that an item's keyword follows.
fn is_default(p: &Parser<'_>) -> bool
    ensures here { result ≡ holds script.is_default (state p.now).rest }
    ensures bears { result ≡ true → ReadsAs (state p.now) DEFAULT_KW }
{
    p.at_contextual_kw(T![default]) && matches!(p.nth(1), T![fn] | T![type] | T![const] | T![impl])
}

/// The same with an `unsafe` between.
fn is_default_unsafe(p: &Parser<'_>) -> bool
    ensures here { result ≡ holds script.is_default_unsafe (state p.now).rest }
    ensures bears { result ≡ true → ReadsAs (state p.now) DEFAULT_KW }
    ensures more { result ≡ true → NthAt (state p.now) 1 UNSAFE_KW }
{
    p.at_contextual_kw(T![default])
        && p.nth_at(1, T![unsafe])
        && matches!(p.nth(2), T![impl] | T![fn])
}

/// The same with an `async` between, and perhaps an `unsafe`.
fn is_default_async(p: &Parser<'_>) -> bool
    ensures here { result ≡ holds script.is_default_async (state p.now).rest }
    ensures bears { result ≡ true → ReadsAs (state p.now) DEFAULT_KW }
    ensures more { result ≡ true → NthAt (state p.now) 1 ASYNC_KW }
{
    p.at_contextual_kw(T![default])
        && p.nth_at(1, T![async])
        && (p.nth_at(2, T![fn]) || (p.nth_at(2, T![unsafe]) && p.nth_at(3, T![fn])))
}

/// `default` with the modifier after it, if it comes next. Returns whether it does.
#[tactic(auto, unfolding(rap_grammar_scripts::specs::Modifiers::opt_default))]
fn opt_default(p: &mut Parser<'_>) -> Result<bool, NoMemory>
    ensures script { IfOk result
        (λ found. (depth : ℕ) → Does depth script.opt_default (of_bool found) (state p.old) (state p.new)) }
{
    if is_default(p) {
        p.bump_remap(T![default])?;
        return Ok(true);
    }
    if is_default_unsafe(p) {
        p.bump_remap(T![default])?;
        p.bump(T![unsafe])?;
        return Ok(true);
    }
    if is_default_async(p) {
        p.bump_remap(T![default])?;
        p.bump(T![async])?;
        p.eat(T![unsafe])?;
        return Ok(true);
    }
    Ok(false)
}
