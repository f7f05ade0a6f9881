//! How much of a text an output covers.
ghost use Rattle.std.specs.Prelude.{◌≡◌, ◌≤◌};
ghost use Rattle.rap_base.specs.Limits.{max_tokens};
ghost use Rattle.rap_events.specs.Forest.{used};
ghost use Rattle.rap_lexed.specs.Used.{end_after};

use crate::lexed_str::LexedStr;
use rap_events::output::Output;

/// Returns the number of tokens that an output covers.
pub fn used_tokens(output: &Output) -> usize
    requires { used output.now ≤ max_tokens }
    ensures { result ≡ used output.now }
{
    output.used()
}

/// Returns the end, in bytes, of the `count`-th token that is no trivia: 0 if `count` is 0, and the length of the text
/// if there are fewer tokens.
pub fn end_after(lexed: &LexedStr<'_>, count: usize) -> usize
    ensures { result ≡ end_after count lexed.now.tokens }
{
    let mut left = count;
    'tokens: for i in 0..lexed.len() {
        if left == 0 {
            return lexed.text_start(i);
        }
        if !lexed.kind(i).is_trivia() {
            left -= 1;
        }
    }
    lexed.text_start(lexed.len())
}

/// Returns the end, in bytes, of the last token that an output covers.
pub fn used_bytes(lexed: &LexedStr<'_>, output: &Output) -> usize
    requires { used output.now ≤ max_tokens }
    ensures { result ≡ end_after (used output.now) lexed.now.tokens }
{
    end_after(lexed, used_tokens(output))
}
