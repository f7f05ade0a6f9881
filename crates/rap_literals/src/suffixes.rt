//! The suffixes of literals in quotes.
ghost use Rattle.std.specs.Prelude.{◌≡◌, ℕ, List, MatchOption};
ghost use Rattle.rap_lexer.specs.Class.{is_in};
ghost use Rattle.rap_lexer.specs.Run.{after_run};
ghost use Rattle.rap_lexer.specs.declared.lexer.run.Class.TheVariants.{Hash};
ghost use Rattle.rap_literals.specs.Suffix.{HasSuffix};

use crate::cut::after_quotes;
use crate::digits::strip;

/// What follows the `#` that stand first.
fn after_hashes(text: &str) -> &str
    ensures { result.now ≡ after_run (is_in Hash) text.now }
{
    let mut rest = text;
    'hashes: while let Some(next) = strip(rest, '#') {
        rest = next;
    }
    rest
}

/// Returns the suffix of a literal in quotes, as `suffix` of `"a"suffix`: a string, a byte string, a C string, a
/// character or a byte, raw or not. It is what follows the quotes and hashes: by the lexer's rules an identifier, or
/// nothing.
///
/// `text` is the literal with its prefix, quotes and hashes. The result is `None` exactly if the whole text is no such
/// literal. The escapes in it may have faults.
///
/// The rules are those of <https://doc.rust-lang.org/reference/tokens.html#suffixes>.
pub fn quoted_suffix(text: &str) -> Option<&str>
    ensures { MatchOption result ((suffix : List ℕ) → ¬ HasSuffix text.now suffix) (λ suffix. HasSuffix text.now suffix.now) }
{
    match after_quotes(text) {
        None => None,
        Some(after) => Some(after_hashes(after)),
    }
}
