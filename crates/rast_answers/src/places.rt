//! Positions of a document's offsets.
ghost use Rattle.std.specs.Prelude.{◌≡◌, string_bytes};
ghost use Rattle.rast_answers.specs.Tokens.{place_of};

use rast_document::{Document, Position};

/// The position of an offset; past the end of the text that of the end.
pub(crate) fn place_of(document: &Document, offset: usize) -> Position
    ensures { result ≡ place_of document.now.encoding (string_bytes document.now.text) offset }
{
    document.position(offset.min(document.text().len()))
}
