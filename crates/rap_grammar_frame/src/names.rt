//! Names, and what stands as one.
//! In the Rust crate: `grammar.rs`.
ghost use Rattle.std.specs.Prelude.{◌≡◌, ◌≢◌, ◌<◌, ◌≤◌, IsTrue, true, OnOk, ℕ, Bool, drop};
ghost use Rattle.rap_base.specs.TokenKind.{POUND, BUILTIN_KW, EOF, LIFETIME_IDENT, IDENT, EXTERN_KW};
ghost use Rattle.rap_base.specs.Keyword.{is_any_identifier};
ghost use Rattle.rap_base.specs.TokenSet.{member};
ghost use Rattle.rap_events.specs.State.{state, next, NthAt, ReadsAs};
ghost use Rattle.rap_grammar_scripts.specs.First.{is_path_name, is_path_name_or_index};
ghost use Rattle.rap_grammar_scripts.specs.Names as script;
ghost use Rattle.rap_grammar_frame.specs.Grew.{Grew, Took};
ghost use Rattle.rap_grammar_scripts.specs.Exec.{Executes};
ghost use Rattle.rap_grammar_scripts.specs.Names.{given_name};
ghost use Rattle.rap_grammar_frame.specs.Room.{name_room, recovery_events};
ghost use Rattle.rap_grammar_scripts.specs.Test.{holds};
ghost use Rattle.rap_grammar_scripts.specs.Words.{starts_builtin};

use rap_base::T;
use rap_base::no_memory::NoMemory;
use rap_base::syntax_kind::SyntaxKind;
use rap_base::token_set::TokenSet;
use rap_events::parser::Parser;

/// Whether `builtin#` comes next.
pub fn starts_builtin(p: &Parser<'_>) -> bool
    ensures here { result ≡ holds starts_builtin (state p.now).rest }
    ensures bears { IsTrue result → ReadsAs (state p.now) BUILTIN_KW }
    ensures pound { IsTrue result → NthAt (state p.now) 1 POUND }
{
    p.at_contextual_kw(T![builtin]) && p.nth_at(1, T![#])
}

/// Whether a kind is a name in a path.
#[inline(always)]
pub fn is_path_name(kind: SyntaxKind) -> bool
    ensures { result ≡ is_path_name kind }
{
    matches!(
        kind,
        T![ident] | T![self] | T![super] | T![crate] | T![Self]
    )
}

/// A name in a path, as `a` or `self`.
#[inline(always)]
#[tactic(auto, unfolding(rap_grammar_scripts::specs::Names::name_ref_mod_path))]
pub fn name_ref_mod_path(p: &mut Parser<'_>) -> Result<(), NoMemory>
    ensures grew { OnOk result (Grew (state p.old) (state p.new) recovery_events) }
    ensures took { OnOk result (next (state p.old) ≢ EOF → Took (state p.old) (state p.new) name_room) }
    ensures script { OnOk result ((depth : ℕ) → Executes depth script.name_ref_mod_path p.old p.new) }
{
    if is_path_name(p.current()) {
        let m = p.start()?;
        p.bump_any()?;
        m.complete(p, SyntaxKind::NAME_REF)?;
    } else {
        p.err_and_bump("expected identifier, `self`, `super`, `crate`, or `Self`")?;
    }
    Ok(())
}

/// Whether a kind is a name in a path or a field's number.
pub fn is_path_name_or_index(kind: SyntaxKind) -> bool
    ensures { result ≡ is_path_name_or_index kind }
{
    is_path_name(kind) || kind == T![int_number]
}

/// A name in a path or a field's number, as `a` or `0`.
#[tactic(auto, unfolding(rap_grammar_scripts::specs::Names::name_ref_mod_path_or_index))]
pub fn name_ref_mod_path_or_index(p: &mut Parser<'_>) -> Result<(), NoMemory>
    ensures grew { OnOk result (Grew (state p.old) (state p.new) recovery_events) }
    ensures took { OnOk result (next (state p.old) ≢ EOF → Took (state p.old) (state p.new) name_room) }
    ensures script { OnOk result ((depth : ℕ) → Executes depth script.name_ref_mod_path_or_index p.old p.new) }
{
    if is_path_name_or_index(p.current()) {
        let m = p.start()?;
        p.bump_any()?;
        m.complete(p, SyntaxKind::NAME_REF)?;
    } else {
        p.err_and_bump("expected integer, identifier, `self`, `super`, `crate`, or `Self`")?;
    }
    Ok(())
}

/// A lifetime, as `'a`.
#[tactic(auto, unfolding(rap_grammar_scripts::specs::Names::lifetime))]
pub fn lifetime(p: &mut Parser<'_>) -> Result<(), NoMemory>
    requires here { next (state p.old) ≡ LIFETIME_IDENT }
    ensures took { OnOk result (Took (state p.old) (state p.new) name_room) }
    ensures script { OnOk result ((depth : ℕ) → Executes depth script.lifetime p.old p.new) }
{
    let m = p.start()?;
    p.bump(T![lifetime_ident])?;
    m.complete(p, SyntaxKind::LIFETIME)?;
    Ok(())
}

/// A declared name, as the `a` of `let a`.
pub fn given_name(p: &mut Parser<'_>) -> Result<(), NoMemory>
    requires here { next (state p.old) ≡ IDENT }
    ensures took { OnOk result (Took (state p.old) (state p.new) name_room) }
    ensures script { OnOk result ((depth : ℕ) → Executes depth given_name p.old p.new) }
{
    let m = p.start()?;
    p.bump(T![ident])?;
    m.complete(p, SyntaxKind::NAME)?;
    Ok(())
}

/// A declared name, as the `a` of `let a`. Where it is missing, the next token is skipped too, unless it is a
/// brace or in the set.
#[tactic(auto, unfolding(rap_grammar_scripts::specs::Names::name_r))]
pub fn name_r(p: &mut Parser<'_>, recovery: TokenSet) -> Result<(), NoMemory>
    ensures grew { OnOk result (Grew (state p.old) (state p.new) recovery_events) }
    ensures took { OnOk result (next (state p.old) ≡ IDENT → Took (state p.old) (state p.new) name_room) }
    ensures script { OnOk result
        ((depth : ℕ) → (kept : ℕ → Bool) → ((kind : ℕ) → member recovery kind ≡ kept kind) →
        Executes depth (script.name_r kept) p.old p.new) }
{
    if p.at(T![ident]) {
        given_name(p)?;
        return Ok(());
    }
    p.err_recover("expected a name", recovery)?;
    Ok(())
}

/// A declared name.
#[tactic(auto, unfolding(rap_grammar_scripts::specs::Names::name))]
pub fn name(p: &mut Parser<'_>) -> Result<(), NoMemory>
    ensures grew { OnOk result (Grew (state p.old) (state p.new) recovery_events) }
    ensures took { OnOk result (next (state p.old) ≡ IDENT → Took (state p.old) (state p.new) name_room) }
    ensures script { OnOk result ((depth : ℕ) → Executes depth script.name p.old p.new) }
{
    name_r(p, TokenSet::new(&[]))?;
    Ok(())
}

/// A field by its name or number, as the `a` of `S { a: 1 }`.
#[tactic(auto, unfolding(rap_grammar_scripts::specs::Names::name_ref_or_index))]
pub fn name_ref_or_index(p: &mut Parser<'_>) -> Result<(), NoMemory>
    requires more { next (state p.old) ≢ EOF }
    ensures took { OnOk result (Took (state p.old) (state p.new) name_room) }
    ensures rest { OnOk result ((state p.new).rest ≡ drop 1 (state p.old).rest) }
    ensures script { OnOk result ((depth : ℕ) → Executes depth script.name_ref_or_index p.old p.new) }
{
    let m = p.start()?;
    p.bump_any()?;
    m.complete(p, SyntaxKind::NAME_REF)?;
    Ok(())
}

/// A name that may be a keyword, as the `type` of `type = 1`.
#[tactic(auto, unfolding(rap_grammar_scripts::specs::Names::name_any_identifier))]
pub fn name_any_identifier(p: &mut Parser<'_>) -> Result<(), NoMemory>
    requires here { is_any_identifier (next (state p.old)) ≡ true }
    ensures took { OnOk result (Took (state p.old) (state p.new) name_room) }
    ensures rest { OnOk result ((state p.new).rest ≡ drop 1 (state p.old).rest) }
    ensures script { OnOk result ((depth : ℕ) → Executes depth script.name_any_identifier p.old p.new) }
{
    let m = p.start()?;
    p.bump_remap_any_ident()?;
    m.complete(p, SyntaxKind::NAME)?;
    Ok(())
}

/// A name or `Self`.
#[tactic(auto, unfolding(rap_grammar_scripts::specs::Names::name_ref_or_upper_self))]
pub fn name_ref_or_upper_self(p: &mut Parser<'_>) -> Result<(), NoMemory>
    ensures grew { OnOk result (Grew (state p.old) (state p.new) recovery_events) }
    ensures took { OnOk result (next (state p.old) ≢ EOF → Took (state p.old) (state p.new) name_room) }
    ensures script { OnOk result ((depth : ℕ) → Executes depth script.name_ref_or_upper_self p.old p.new) }
{
    if matches!(p.current(), T![ident] | T![Self]) {
        let m = p.start()?;
        p.bump_any()?;
        m.complete(p, SyntaxKind::NAME_REF)?;
    } else {
        p.err_and_bump("expected identifier or `Self`")?;
    }
    Ok(())
}

/// A name or `self`.
#[tactic(auto, unfolding(rap_grammar_scripts::specs::Names::name_ref_or_self))]
pub fn name_ref_or_self(p: &mut Parser<'_>) -> Result<(), NoMemory>
    ensures grew { OnOk result (Grew (state p.old) (state p.new) recovery_events) }
    ensures took { OnOk result (next (state p.old) ≢ EOF → Took (state p.old) (state p.new) name_room) }
    ensures script { OnOk result ((depth : ℕ) → Executes depth script.name_ref_or_self p.old p.new) }
{
    if matches!(p.current(), T![ident] | T![self]) {
        let m = p.start()?;
        p.bump_any()?;
        m.complete(p, SyntaxKind::NAME_REF)?;
    } else {
        p.err_and_bump("expected identifier or `self`")?;
    }
    Ok(())
}

/// Another name for what is imported, as `as a`, if there is one.
#[tactic(auto, unfolding(rap_grammar_scripts::specs::Names::opt_rename))]
pub fn opt_rename(p: &mut Parser<'_>) -> Result<(), NoMemory>
    ensures grew { OnOk result (Grew (state p.old) (state p.new) 0) }
    ensures script { OnOk result ((depth : ℕ) → Executes depth script.opt_rename p.old p.new) }
{
    if !p.at(T![as]) {
        return Ok(());
    }
    let m = p.start()?;
    p.bump(T![as])?;
    if p.eat(T![_])? {
        m.complete(p, SyntaxKind::RENAME)?;
        return Ok(());
    }
    name(p)?;
    m.complete(p, SyntaxKind::RENAME)?;
    Ok(())
}

/// An ABI, as `extern "C"`.
#[tactic(auto, unfolding(rap_grammar_scripts::specs::Names::abi))]
pub fn abi(p: &mut Parser<'_>) -> Result<(), NoMemory>
    requires here { next (state p.old) ≡ EXTERN_KW }
    ensures took { OnOk result (Took (state p.old) (state p.new) name_room) }
    ensures script { OnOk result ((depth : ℕ) → Executes depth script.abi p.old p.new) }
{
    let m = p.start()?;
    p.bump(T![extern])?;
    p.eat(T![string])?;
    m.complete(p, SyntaxKind::ABI)?;
    Ok(())
}
