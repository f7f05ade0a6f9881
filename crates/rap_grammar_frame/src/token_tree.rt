//! Token trees, and the macro calls that hold them.
//! In the Rust crate: `grammar/items.rs`.
ghost use Rattle.std.specs.Prelude.{◌≤◌, ℕ, ◌≡◌, ◌∷◌, [], OnOk, true, IfOk};
ghost use Rattle.rap_base.specs.TokenKind.{R_PAREN, R_BRACK, BANG};
ghost use Rattle.rap_base.specs.NodeKind.{TOKEN_TREE};
ghost use Rattle.rap_events.specs.Fit.{partner};
ghost use Rattle.rap_events.specs.Forest.{node};
ghost use Rattle.rap_events.specs.State.{state, next, last_children};
ghost use Rattle.rap_grammar_scripts.specs.Balanced.{NestsAsBrackets};
ghost use Rattle.rap_grammar_scripts.specs.Words.{of_like};
ghost use Rattle.rap_grammar_scripts.specs.First.{is_bracket, one_of};
ghost use Rattle.rap_grammar_frame.specs.Grew.{Took};
ghost use Rattle.rap_grammar_scripts.specs.TokenTree as script;
ghost use Rattle.rap_grammar_scripts.specs.Exec.{Does, Executes};
ghost use Rattle.rap_grammar_frame.specs.Room.{list_room};
ghost use Rattle.rap_grammar_scripts.specs.Test.{holds};

use rap_base::T;
use rap_base::no_memory::NoMemory;
use rap_base::syntax_kind::SyntaxKind;
use rap_events::parser::Parser;
use rap_grammar_scripts::arguments::BlockLike;

/// Whether a kind is an opening bracket.
pub fn is_bracket(kind: SyntaxKind) -> bool
    ensures { result ≡ is_bracket kind }
{
    matches!(kind, T!['{'] | T!['('] | T!['['])
}

/// The bracket that closes an opening one.
fn closing_bracket(kind: SyntaxKind) -> SyntaxKind
    ensures { result ≡ partner kind }
{
    match kind {
        T!['('] => T![')'],
        T!['['] => T![']'],
        _ => T!['}'],
    }
}

/// Whether a kind is a bracket that closes, but no brace.
fn is_unmatched(kind: SyntaxKind) -> bool
    ensures { result ≡ one_of (R_PAREN ∷ R_BRACK ∷ []) kind }
{
    matches!(kind, T![')'] | T![']'])
}

/// A list of tokens in its brackets, with such lists among them, as `(a, [b; 2])`.
pub fn token_tree(p: &mut Parser<'_>) -> Result<(), NoMemory>
    requires bracket { is_bracket (next (state p.old)) ≡ true }
    ensures took { OnOk result (Took (state p.old) (state p.new) list_room) }
    ensures one { OnOk result
        ((state p.new).forest ≡ node (state p.old).forest TOKEN_TREE (last_children (state p.new).forest)) }
    ensures script { OnOk result
        ((depth : ℕ) → (state p.old).left ≤ depth → Executes depth script.token_tree p.old p.new) }
    ensures balanced { OnOk result (NestsAsBrackets (state p.old) (state p.new)) }
{
    let ket = closing_bracket(p.current());
    let m = p.start()?;
    p.bump_any()?;
    'tokens: while !p.at(SyntaxKind::EOF) && !p.at(ket) {
        let kind = p.current();
        if is_bracket(kind) {
            token_tree(p)?;
            continue;
        }
        if kind == T!['}'] {
            p.error("unmatched `}`")?;
            m.complete_fit(p, SyntaxKind::TOKEN_TREE)?;
            return Ok(());
        }
        if is_unmatched(kind) {
            p.err_and_bump("unmatched brace")?;
            continue;
        }
        p.bump_any()?;
    }
    p.expect(ket)?;
    m.complete_fit(p, SyntaxKind::TOKEN_TREE)?;
    Ok(())
}

/// Whether the `!` of a macro call comes next, and no `!=`.
pub fn starts_macro_call(p: &Parser<'_>) -> bool
    ensures starts { result ≡ holds script.starts_macro_call (state p.now).rest }
    ensures here { result ≡ true → next (state p.now) ≡ BANG }
{
    p.at(T![!]) && !p.at(T![!=])
}

/// A macro call after its path, as `!(a)` in `f!(a)`. With braces it reads like a block.
#[tactic(auto, unfolding(rap_grammar_scripts::specs::TokenTree::macro_call_after_excl))]
pub fn macro_call_after_excl(p: &mut Parser<'_>) -> Result<BlockLike, NoMemory>
    requires here { next (state p.old) ≡ BANG }
    ensures took { OnOk result (Took (state p.old) (state p.new) list_room) }
    ensures script { IfOk result
        (λ e. (depth : ℕ) → (state p.old).left ≤ depth → Does depth script.macro_call_after_excl (of_like e)
        (state p.old) (state p.new)) }
{
    p.bump(T![!])?;
    let kind = p.current();
    if kind == T!['{'] {
        token_tree(p)?;
        return Ok(BlockLike::Block);
    }
    if is_bracket(kind) {
        token_tree(p)?;
        return Ok(BlockLike::NotBlock);
    }
    p.error("expected `{`, `[`, `(`")?;
    Ok(BlockLike::NotBlock)
}
