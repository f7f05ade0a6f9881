//! Lines of a document.
ghost use Rattle.std.specs.Prelude.{◌≡◌, string_bytes};
ghost use Rattle.rast_answers.specs.Gaps.{line_of};

use rast_document::Document;

/// The line of an offset; past the end of the text that of the end.
pub(crate) fn line_of(document: &Document, offset: usize) -> usize
    ensures { result ≡ line_of (string_bytes document.now.text) offset }
{
    document.line(offset.min(document.text().len()))
}
