//! Whether a node that was parsed again ends with its own closing brace.
ghost use Rattle.std.specs.Prelude.{◌≡◌, ◌==◌};
ghost use Rattle.rap_events.specs.Forest.{used};
ghost use Rattle.rap_lexed.specs.Trivia.{significant};
ghost use Rattle.ra_ap_parser.specs.Closed.{ends_in_brace};

use rap_base::syntax_kind::SyntaxKind;
use rap_events::output::Output;
use rap_lexed::lexed_str::LexedStr;

/// Returns the number of tokens of the text that are no trivia.
pub fn count_significant(lexed: &LexedStr<'_>) -> usize
    ensures { result ≡ significant lexed.now.tokens }
{
    let mut count = 0usize;
    'tokens: for i in 0..lexed.len() {
        if !lexed.kind(i).is_trivia() {
            count += 1;
        }
    }
    count
}

/// Whether the output stands for so many tokens.
pub fn has_used(output: &Output, tokens: usize) -> bool
    ensures { result ≡ (used output.now == tokens) }
{
    output.used() == tokens
}

/// Whether the last thing in the output, within so many nodes, each the last one in the one around it, is a `}`.
#[tactic(auto, using(crate::proofs::Closing::same_ends))]
pub fn ends_in_brace(output: &Output, depth: u8) -> bool
    ensures { result ≡ ends_in_brace depth output.now }
{
    output.ends_in(SyntaxKind::R_CURLY, depth)
}
