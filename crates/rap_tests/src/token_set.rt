//! Sets of kinds.
ghost use Rattle.std.specs.Prelude.{◌≡◌, ℕ, false};
ghost use Rattle.rap_base.specs.TokenSet.{member};

use rap_base::syntax_kind::SyntaxKind;
use rap_base::token_set::TokenSet;

// The empty set has no kind.
fn empty() -> TokenSet
    ensures { (kind : ℕ) → member result kind ≡ false }
{
    TokenSet::EMPTY
}

#[test]
fn holds_what_it_is_made_of(rt: HostRuntime) {
    let ends = TokenSet::new(&[SyntaxKind::EOF, SyntaxKind::SHEBANG]);
    assert!(rt; ends.contains(SyntaxKind::EOF) && ends.contains(SyntaxKind::SHEBANG));
    assert!(rt; !ends.contains(SyntaxKind::PLUS) && !empty().contains(SyntaxKind::EOF));
    let more = ends.union(TokenSet::new(&[SyntaxKind::PLUS]));
    assert!(rt; more.contains(SyntaxKind::EOF) && more.contains(SyntaxKind::PLUS));
    assert!(rt; !more.contains(SyntaxKind::MINUS));
}
