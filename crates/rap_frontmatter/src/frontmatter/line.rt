//! Lines, dashes and words of a text, by bytes.
ghost use Rattle.std.specs.Prelude.{◌≡◌, ◌==◌, position};
ghost use Rattle.std.specs.List.{prefix_len, suffix_len};
ghost use Rattle.rap_frontmatter.specs.Script.{HasLine, FindsWord, is_horizontal};

use std::ops::Range;

/// The first line of a text: its length, and the offset of the next line, both in bytes.
#[derive(Clone, Copy)]
pub(super) struct Line {
    pub(super) len: usize,
    pub(super) next: usize,
}

/// Returns the byte offset of the first line feed.
pub(super) fn find_line_feed(text: &[u8]) -> Option<usize>
    ensures { result ≡ position (λ b. b == 10) text.now }
{
    text.iter().position(|b| *b == b'\n')
}

/// Returns the first line of the text, without its line feed and a carriage return before that.
pub(super) fn first_line(text: &[u8]) -> Line
    ensures { HasLine text.now result.len result.next }
{
    match find_line_feed(text) {
        None => Line {
            len: text.len(),
            next: text.len(),
        },
        Some(feed) => {
            let next = feed + 1;
            if feed > 0 && text[feed - 1] == b'\r' {
                Line {
                    len: feed - 1,
                    next,
                }
            } else {
                Line { len: feed, next }
            }
        }
    }
}

/// Returns the number of dashes at the beginning of the text.
pub(super) fn count_dashes(text: &[u8]) -> usize
    ensures { result ≡ prefix_len (λ b. b == 45) text.now }
{
    text.iter().take_while(|b| **b == b'-').count()
}

/// Returns the range of the line without the spaces and tabs at both ends, in bytes; `None` if nothing else is in it.
pub(super) fn find_word(line: &[u8]) -> Option<Range<usize>>
    ensures { FindsWord line.now result }
{
    let start = count_blank_prefix(line);
    if start == line.len() {
        return None;
    }
    Some(start..line.len() - count_blank_end(line))
}

/// How many spaces and tabs the line begins with.
fn count_blank_prefix(line: &[u8]) -> usize
    ensures { result ≡ prefix_len is_horizontal line.now }
{
    line.iter().take_while(|b| is_horizontal(**b)).count()
}

/// How many spaces and tabs the line ends with.
fn count_blank_end(line: &[u8]) -> usize
    ensures { result ≡ suffix_len is_horizontal line.now }
{
    line.iter().rev().take_while(|b| is_horizontal(**b)).count()
}

fn is_horizontal(b: u8) -> bool
    ensures { result ≡ is_horizontal b }
{
    b == b' ' || b == b'\t'
}
