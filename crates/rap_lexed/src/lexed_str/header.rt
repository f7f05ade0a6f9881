//! The header of a text: the shebang and the frontmatter of a script source, which come before the lexer's tokens.
ghost use Rattle.std.specs.Prelude.{◌≡◌, ◌<◌, ◌^◌, ◌++◌, ◌==◌, ℕ, length, position, IfSome, OnOk, None, chars, unwrap_or, option_to_list};
ghost use Rattle.std.specs.Option.{option_map};
ghost use Rattle.rap_frontmatter.specs.Script.{HasLine};
ghost use Rattle.rap_lexed.specs.Header.{header_kinds, pieces, is_passed, Leads, IsShebangLine, IsHeader, AreEnds};

use rap_base::edition::Edition;
use rap_base::no_memory::NoMemory;
use rap_base::syntax_kind::SyntaxKind;
use rap_frontmatter::frontmatter::ScriptSource;
use rap_lexer::lexer::first_token;
use std::alloc::Global;

/// The ends of the pieces before the first token, in bytes: a shebang at the beginning of the text, and a frontmatter
/// after it.
#[derive(Clone, Copy)]
pub struct Header {
    shebang: Option<usize>,
    frontmatter: Option<usize>,
}

impl Header {
    /// Where the first token begins.
    pub fn end(&self) -> usize
        ensures { result ≡ unwrap_or self.now.frontmatter (unwrap_or self.now.shebang 0) }
    {
        self.frontmatter.unwrap_or(self.shebang.unwrap_or(0))
    }

    /// How many pieces there are.
    pub fn count(&self) -> usize
        ensures { result ≡ length (header_kinds self.now.shebang self.now.frontmatter) }
    {
        usize::from(self.shebang.is_some()) + usize::from(self.frontmatter.is_some())
    }
}

/// Finds the pieces of a script source, or the shebang of a text that is refused as one.
///
/// Only the message of a refusal needs memory; it is not used here, so the result does not depend on whether memory is
/// left.
pub fn find_header(alloc: Global, edition: Edition, text: &str) -> Header
    ensures header { IsHeader edition text.now (pieces text.now result.shebang result.frontmatter) }
    ensures ends { AreEnds text.now result.shebang result.frontmatter }
{
    match ScriptSource::parse(alloc, text) {
        Ok(script) => script_header(&script),
        Err(_refused) => Header {
            shebang: shebang_line(edition, text),
            frontmatter: None,
        },
    }
}

/// The pieces of a script source.
fn script_header(script: &ScriptSource<'_>) -> Header
    ensures shebang { result.shebang ≡ option_map (λ r. r.end) script.now.shebang }
    ensures frontmatter { result.frontmatter ≡ option_map (λ _. script.now.content.start) script.now.frontmatter }
{
    Header {
        shebang: script.shebang_span().map(|span| span.end),
        frontmatter: match script.frontmatter_span() {
            Some(_) => Some(script.content_span().start),
            None => None,
        },
    }
}

/// How long the shebang's line is, without its end, if there is one: the text starts with `#!`, and what follows does
/// not start, past white space and comments that are no doc comments, with `[` (rustc_lexer, `strip_shebang`).
fn shebang_line(edition: Edition, text: &str) -> Option<usize>
    ensures line { IsShebangLine edition text.now result }
    ensures ends { AreEnds text.now result None }
{
    let after = text.strip_prefix("#!")?;
    if leading_kind(edition, after) == Some(SyntaxKind::L_BRACK) {
        return None;
    }
    Some(line_len(text))
}

/// The kind of the first token past white space and comments that are no doc comments.
fn leading_kind(edition: Edition, text: &str) -> Option<SyntaxKind>
    ensures { Leads edition (chars text.now) result }
{
    let mut offset = 0usize;
    'tokens: while offset < text.len() {
        let (token, len) = first_token(edition, &text[offset..]);
        if !is_passed(token.kind) {
            return Some(token.kind);
        }
        offset += len;
    }
    None
}

/// Whether a token of this kind is passed over.
fn is_passed(kind: SyntaxKind) -> bool
    ensures { result ≡ is_passed kind }
{
    kind == SyntaxKind::WHITESPACE || kind == SyntaxKind::COMMENT
}

/// How long the first line is, without its end.
fn line_len(text: &str) -> usize
    ensures { (next : ℕ) × HasLine text.now result next }
{
    let bytes = text.as_bytes();
    match find_line_feed(bytes) {
        None => bytes.len(),
        Some(feed) => {
            if feed > 0 && bytes[feed - 1] == b'\r' {
                feed - 1
            } else {
                feed
            }
        }
    }
}

/// Where the first line feed stands.
fn find_line_feed(text: &[u8]) -> Option<usize>
    ensures { result ≡ position (λ b. b == 10) text.now }
{
    text.iter().position(|b| *b == b'\n')
}

/// Appends the kinds of the pieces, and where they end.
pub fn push_header(
    header: &Header,
    kinds: &mut Vec<SyntaxKind>,
    starts: &mut Vec<u32>,
) -> Result<(), NoMemory>
    requires shebang { IfSome header.now.shebang (λ end. end < 2 ^ 32) }
    requires frontmatter { IfSome header.now.frontmatter (λ end. end < 2 ^ 32) }
    ensures kinds { OnOk result (kinds.new.items ≡ kinds.old.items ++ header_kinds header.now.shebang header.now.frontmatter) }
    ensures starts { OnOk result (starts.new.items ≡ starts.old.items ++ (option_to_list header.now.shebang ++ option_to_list header.now.frontmatter)) }
{
    if let Some(end) = header.shebang {
        kinds.push(SyntaxKind::SHEBANG)?;
        starts.push(end as u32)?;
    }
    if let Some(end) = header.frontmatter {
        kinds.push(SyntaxKind::FRONTMATTER)?;
        starts.push(end as u32)?;
    }
    Ok(())
}
