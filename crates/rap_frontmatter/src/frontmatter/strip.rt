//! Where a shebang and blank lines end.
ghost use Rattle.rap_frontmatter.specs.Script.{EndsShebang, EndsBlankLines};

use crate::frontmatter::line::first_line;
use rap_base::whitespace::is_rust_whitespace;

/// Returns the end of the shebang in bytes, its line feed included. A text has a shebang if it starts with `#!` and the
/// next character that is not white space is not `[`, which would begin an inner attribute (the Rust Reference,
/// "Shebang").
pub fn strip_shebang(input: &str) -> Option<usize>
    ensures { EndsShebang input.now result }
{
    let rest = input.strip_prefix("#!")?;
    if rest.trim_start().starts_with('[') {
        return None;
    }
    Some(first_line(input.as_bytes()).next)
}

/// Returns the end, in bytes, of the longest prefix of Rust white space that ends with a line feed.
pub fn strip_ws_lines(input: &str) -> Option<usize>
    ensures { EndsBlankLines input.now result }
{
    let mut at = 0;
    let mut end = None;
    for c in input.chars() {
        if !is_rust_whitespace(c) {
            return end;
        }
        at += c.len_utf8();
        if c == '\n' {
            end = Some(at);
        }
    }
    end
}
