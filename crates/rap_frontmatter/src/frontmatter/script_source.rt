//! The parts of a script source.
ghost use Rattle.std.specs.Prelude.{◌≡◌, IfSome, slice_range};
ghost use Rattle.std.specs.Option.{option_copied, option_map};
ghost use Rattle.rap_frontmatter.specs.Script.{IsCut, slice_at};

use crate::frontmatter::error::Span;
use std::marker::Model;

/// The parts of a text that begins with a shebang, a frontmatter, both or neither. Spans are in bytes and end at
/// character boundaries; the parts are slices of the text.
#[derive(Debug, Drop)]
pub struct ScriptSource<'s> {
    pub(super) raw: &'s str,
    pub(super) shebang: Option<Span>,
    pub(super) open: Option<Span>,
    pub(super) info: Option<Span>,
    pub(super) frontmatter: Option<Span>,
    pub(super) close: Option<Span>,
    pub(super) content: Span,
}

impl<'s> Model for ScriptSource<'s> {
    ghost use Rattle.rap_frontmatter.specs.Script.{Script, AtBorders};

    ghost Value = { Script };

    ghost view = { λ s. record {
      text = s.raw.now;
      shebang = s.shebang;
      opening = s.open;
      info = s.info;
      frontmatter = s.frontmatter;
      close = s.close;
      content = s.content;
    } };

    ghost invariant = { λ s. AtBorders (record {
      text = s.raw.now;
      shebang = s.shebang;
      opening = s.open;
      info = s.info;
      frontmatter = s.frontmatter;
      close = s.close;
      content = s.content;
    }) };
}

impl<'s> ScriptSource<'s> {
    /// Returns the line that starts with `#!`, with its line feed.
    pub fn shebang(&self) -> Option<&'s str>
        ensures { option_copied result ≡ option_map (slice_at self.now.text) self.now.shebang }
    {
        slice(self.raw, &self.shebang)
    }

    pub fn shebang_span(&self) -> Option<Span>
        ensures { result ≡ self.now.shebang }
    {
        same(&self.shebang)
    }

    /// Returns the span of the dashes that open the frontmatter.
    pub fn open_span(&self) -> Option<Span>
        ensures { result ≡ self.now.opening }
    {
        same(&self.open)
    }

    /// Returns the text after the opening dashes on their line, without spaces and tabs at both ends; `None` if it is
    /// empty.
    pub fn info(&self) -> Option<&'s str>
        ensures { option_copied result ≡ option_map (slice_at self.now.text) self.now.info }
    {
        slice(self.raw, &self.info)
    }

    pub fn info_span(&self) -> Option<Span>
        ensures { result ≡ self.now.info }
    {
        same(&self.info)
    }

    /// Returns the lines between the opening and the closing dashes.
    pub fn frontmatter(&self) -> Option<&'s str>
        ensures { option_copied result ≡ option_map (slice_at self.now.text) self.now.frontmatter }
    {
        slice(self.raw, &self.frontmatter)
    }

    pub fn frontmatter_span(&self) -> Option<Span>
        ensures { result ≡ self.now.frontmatter }
    {
        same(&self.frontmatter)
    }

    /// Returns the span of the dashes that close the frontmatter.
    pub fn close_span(&self) -> Option<Span>
        ensures { result ≡ self.now.close }
    {
        same(&self.close)
    }

    /// Returns the rest of the text: what follows the line of the closing dashes, or without a frontmatter the shebang.
    pub fn content(&self) -> &'s str
        ensures { result.now ≡ slice_at self.now.text self.now.content }
    {
        let span = self.content_span();
        &self.raw[span.start..span.end]
    }

    pub fn content_span(&self) -> Span
        ensures { result ≡ self.now.content }
    {
        self.content.start..self.content.end
    }
}

/// The text at the span, if there is one.
fn slice<'s>(text: &'s str, span: &Option<Span>) -> Option<&'s str>
    requires { IfSome span.now (IsCut text.now) }
    ensures { option_copied result ≡ option_map (slice_at text.now) span.now }
{
    match span {
        None => None,
        Some(span) => Some(&text[span.start..span.end]),
    }
}

fn same(span: &Option<Span>) -> Option<Span>
    ensures { result ≡ span.now }
{
    match span {
        None => None,
        Some(span) => Some(span.start..span.end),
    }
}
