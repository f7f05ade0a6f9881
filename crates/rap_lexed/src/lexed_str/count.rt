//! How many tokens a text has.
ghost use Rattle.std.specs.Prelude.{◌≡◌, ◌≤◌, length};
ghost use Rattle.rap_lexed.specs.LexedStr.{Lexed, IsLexing};
ghost use Rattle.rap_lexed.specs.Trivia.{significant};

use super::MAX_TEXT;
use super::header::find_header;
use rap_base::edition::Edition;
use rap_lexer::lexer::first_token;
use std::alloc::Global;

/// Returns the number of tokens of the text that are no trivia. The result does not depend on whether memory is left.
pub fn significant_tokens(alloc: Global, edition: Edition, text: &str) -> usize
    requires { length text.now ≤ MAX_TEXT }
    ensures { (lexed : Lexed) × IsLexing text.now edition lexed × (result ≡ significant lexed.tokens) }
{
    let header = find_header(alloc, edition, text);
    let mut count = header.count();
    let mut offset = header.end();
    'tokens: while offset < text.len() {
        let (token, len) = first_token(edition, &text[offset..]);
        if !token.kind.is_trivia() {
            count += 1;
        }
        offset += len;
    }
    count
}
