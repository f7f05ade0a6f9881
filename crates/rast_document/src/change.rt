//! Changes of a document.
ghost use Rattle.std.specs.Prelude.{◌≡◌, ℕ, List, ◌++◌, ◌≤◌, ◌↔◌, Err, IfNone, IfOk, IfSome, IsTrue, IsCharBoundary, OnErr, OnOk, drop, string_bytes, take};
ghost use Rattle.rast_document.specs.Changes.{AllChange, Changes, IsInOrder};
ghost use Rattle.rast_document.specs.Indexed.{AgreeTo, IsRange};

use crate::document::Document;
use crate::position::{Position, Span};
use std::alloc::{AllocError, Global};
use std::error::Error;
use std::fmt;

/// A change: the text in the place of a range, or in the place of the whole document.
#[derive(Clone, Copy, Debug)]
pub struct Change<'a> {
    /// The range, or `None` for the whole document.
    pub span: Option<Span>,
    /// The text in its place.
    pub text: &'a str,
}

/// Why a document keeps its text.
#[derive(Clone, Copy, Debug, PartialEq, Eq)]
pub enum ChangeFault {
    /// A range is none: it ends before it begins, or one of its ends means no offset.
    NoRange,
    /// Out of memory.
    NoMemory,
}

impl fmt::Display for ChangeFault {
    fn fmt<W: fmt::Write>(&self, f: &mut fmt::Formatter<W>) -> fmt::Result {
        f.write_str(match self {
            ChangeFault::NoRange => "the range of a change is none",
            ChangeFault::NoMemory => "no memory",
        })
    }
}

impl Error for ChangeFault {}

impl From<AllocError> for ChangeFault {
    ghost use Rattle.rast_document.specs.declared.change.ChangeFault.TheVariants.{NoMemory};

    ghost from_gives = { λ _ fault. fault ≡ NoMemory };

    fn from(_error: AllocError) -> ChangeFault {
        ChangeFault::NoMemory
    }
}

/// Whether the second position is not before the first.
pub(crate) fn is_in_order(first: Position, second: Position) -> bool
    ensures { IsTrue result ↔ IsInOrder first second }
{
    first.line < second.line || (first.line == second.line && first.character <= second.character)
}

/// A text with another in the place of its bytes from one offset to a later one. The error means out of memory.
fn replaced(
    alloc: Global,
    text: &str,
    from: usize,
    to: usize,
    by: &str,
) -> Result<String, AllocError>
    requires from { IsCharBoundary text.now from }
    requires to { IsCharBoundary text.now to }
    requires rising { from ≤ to }
    ensures { IfOk result (λ new. string_bytes new ≡ take from text.now ++ by.now ++ drop to text.now) }
{
    let length = (text.len() - (to - from)).saturating_add(by.len());
    let mut new = String::with_capacity(alloc, length)?;
    new.push_str(&text[..from])?;
    new.push_str(by)?;
    new.push_str(&text[to..])?;
    Ok(new)
}

impl Document {
    // The offsets that the ends of a range mean.
    fn range(&self, span: Span) -> Option<(usize, usize)>
        ensures found { IfSome result (λ range. IsRange self.now.encoding (string_bytes self.now.text) span range.0 range.1) }
        ensures none { IfNone result ((from to : ℕ) → ¬ IsRange self.now.encoding (string_bytes self.now.text) span from to) }
    {
        if !is_in_order(span.start, span.end) {
            return None;
        }
        let from = self.offset(span.start)?;
        let to = self.offset(span.end)?;
        Some((from, to))
    }

    // The text after a change, and an offset up to which it is the document's.
    fn text_after(&self, alloc: Global, change: &Change<'_>) -> Result<(String, usize), ChangeFault>
        ensures changed { IfOk result (λ new. Changes self.now.encoding (string_bytes self.now.text) change.now (string_bytes new.0)) }
        ensures agree { IfOk result (λ new. AgreeTo (string_bytes self.now.text) (string_bytes new.0) new.1) }
        ensures none { result ≡ Err ChangeFault.NoRange → (other : List ℕ) → ¬ Changes self.now.encoding (string_bytes self.now.text) change.now other }
    {
        let Some(span) = change.span else {
            return Ok((String::from_str(alloc, change.text)?, 0));
        };
        let Some((from, to)) = self.range(span) else {
            return Err(ChangeFault::NoRange);
        };
        Ok((replaced(alloc, self.text(), from, to, change.text)?, from))
    }

    // The same of another text, which is the document's up to an offset and of which nothing is counted ahead.
    fn text_after_more(
        &self,
        alloc: Global,
        text: &str,
        same: usize,
        change: &Change<'_>,
    ) -> Result<(String, usize), ChangeFault>
        requires { AgreeTo (string_bytes self.now.text) text.now same }
        ensures changed { IfOk result (λ new. Changes self.now.encoding text.now change.now (string_bytes new.0)) }
        ensures agree { IfOk result (λ new. AgreeTo (string_bytes self.now.text) (string_bytes new.0) new.1) }
        ensures none { result ≡ Err ChangeFault.NoRange → (other : List ℕ) → ¬ Changes self.now.encoding text.now change.now other }
    {
        let Some(span) = change.span else {
            return Ok((String::from_str(alloc, change.text)?, 0));
        };
        let Some((from, to)) = self.range_in(text, same, span) else {
            return Err(ChangeFault::NoRange);
        };
        Ok((
            replaced(alloc, text, from, to, change.text)?,
            from.min(same),
        ))
    }

    /// Makes changes in order, each of what the ones before it left. After an error the document is as before: a range is
    /// none exactly after `NoRange`, which is returned for the first such change.
    pub fn change(&mut self, alloc: Global, changes: &[Change<'_>]) -> Result<(), ChangeFault>
        ensures encoding { self.new.encoding ≡ self.old.encoding }
        ensures ok { OnOk result (AllChange self.old.encoding (string_bytes self.old.text) changes.now (string_bytes self.new.text)) }
        ensures only { OnOk result ((other : List ℕ)
            → AllChange self.old.encoding (string_bytes self.old.text) changes.now other → other ≡ string_bytes self.new.text) }
        ensures none { result ≡ Err ChangeFault.NoRange → (other : List ℕ)
            → ¬ AllChange self.old.encoding (string_bytes self.old.text) changes.now other }
        ensures err { OnErr result (self.new ≡ self.old) }
    {
        let Some((first, rest)) = changes.split_first() else {
            return Ok(());
        };
        let (mut text, mut same) = self.text_after(alloc, first)?;
        for change in rest {
            let next = self.text_after_more(alloc, text.as_str(), same, change)?;
            text = next.0;
            same = next.1;
        }
        *self = Document::new(alloc, self.encoding(), text)?;
        Ok(())
    }
}
