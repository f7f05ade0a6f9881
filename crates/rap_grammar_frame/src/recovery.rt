//! Recovery sets: the tokens before which a missing phrase is reported and nothing is skipped.
ghost use Rattle.std.specs.Prelude.{◌≡◌, ◌≢◌, ℕ, ◌<◌, ◌≤◌, ◌⊎◌};
ghost use Rattle.rap_base.specs.TokenSet.{member};
ghost use Rattle.rap_grammar_scripts.specs.Recovery.{is_type_recovery, is_expr_recovery, is_item_recovery};

use rap_base::T;
use rap_base::token_set::TokenSet;

/// The recovery set of types.
pub fn type_recovery_set() -> TokenSet
    ensures { (kind : ℕ) → member result kind ≡ is_type_recovery kind }
{
    TokenSet::new(&[T![')'], T![']'], T!['}'], T![>], T![,], T![pub]])
}

/// The recovery set of expressions.
pub fn expr_recovery_set() -> TokenSet
    ensures { (kind : ℕ) → member result kind ≡ is_expr_recovery kind }
{
    TokenSet::new(&[T!['('], T!['}'], T![')'], T![']'], T![,]])
}

/// What items begin with, and the semicolon after them.
pub fn item_recovery_set() -> TokenSet
    ensures { (kind : ℕ) → member result kind ≡ is_item_recovery kind }
{
    TokenSet::new(&[
        T![fn],
        T![struct],
        T![enum],
        T![impl],
        T![trait],
        T![const],
        T![async],
        T![unsafe],
        T![extern],
        T![static],
        T![let],
        T![mod],
        T![pub],
        T![crate],
        T![use],
        T![macro],
        T![;],
    ])
}
