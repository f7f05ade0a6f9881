//! Why a script source is refused.
ghost use Rattle.std.specs.Prelude.{◌≡◌, [], ◌∷◌, ◌++◌, IfOk, Some, string_bytes};
ghost use Rattle.std.specs.Fmt.{padded};

use rap_base::no_memory::NoMemory;
use std::alloc::Global;
use std::error::Error;
use std::fmt;
use std::marker::Model;
use std::ops::Range;

/// A range of bytes of a text.
pub type Span = Range<usize>;

/// Why a text is not a script source: a message, the span of the error, and further spans to show with it.
#[derive(Clone, Debug, Drop)]
pub struct FrontmatterError {
    message: String,
    primary_span: Span,
    visible_spans: Vec<Span>,
}

impl Model for FrontmatterError {
    ghost use Rattle.std.specs.Prelude.{string_bytes};
    ghost use Rattle.rap_frontmatter.specs.Refusal.{Refusal};

    ghost Value = { Refusal };

    ghost view = { λ e. record {
      message = string_bytes e.message;
      primary = e.primary_span;
      visible = e.visible_spans.items;
    } };
}

impl FrontmatterError {
    /// Makes an error without visible spans. The message is copied. The error of this call means out of memory.
    pub fn new(alloc: Global, message: &str, span: Span) -> Result<FrontmatterError, NoMemory>
        ensures { IfOk result (λ e. e ≡ record { message = message.now; primary = span; visible = [] }) }
    {
        Ok(FrontmatterError {
            message: String::from_str(alloc, message)?,
            primary_span: span,
            visible_spans: Vec::new(alloc),
        })
    }

    /// Appends a visible span. If this is out of memory, `self` is dropped.
    pub fn push_visible_span(mut self, span: Span) -> Result<FrontmatterError, NoMemory>
        ensures { IfOk result (λ e. e ≡ record self { visible = self.visible ++ span ∷ [] }) }
    {
        self.visible_spans.push(span)?;
        Ok(self)
    }

    /// Makes an error with one visible span.
    pub(super) fn shown(
        alloc: Global,
        message: String,
        primary: Span,
        visible: Span,
    ) -> Result<FrontmatterError, NoMemory>
        ensures { IfOk result (λ e. e ≡ record { message = string_bytes message; primary = primary; visible = visible ∷ [] }) }
    {
        let error = FrontmatterError {
            message,
            primary_span: primary,
            visible_spans: Vec::new(alloc),
        };
        error.push_visible_span(visible)
    }

    pub fn message(&self) -> &str
        ensures { result.now ≡ self.now.message }
    {
        self.message.as_str()
    }

    pub fn primary_span(&self) -> Span
        ensures { result ≡ self.now.primary }
    {
        self.primary_span.start..self.primary_span.end
    }

    /// Returns the spans to show besides the primary one, in the order in which they were pushed.
    pub fn visible_spans(&self) -> &[Span]
        ensures { result.now ≡ self.now.visible }
    {
        self.visible_spans.as_slice()
    }
}

/// Errors are equal if their messages and all their spans are equal.
impl PartialEq for FrontmatterError {
    ghost use Rattle.std.specs.Cmp.{partial_equiv_from_equiv};
    ghost use Rattle.rap_frontmatter.specs.Refusal.{is_same, same_laws};

    ghost eq = { is_same };

    ghost laws = { partial_equiv_from_equiv same_laws };

    fn eq(&self, other: &FrontmatterError) -> bool {
        self.message == other.message
            && self.primary_span == other.primary_span
            && self.visible_spans == other.visible_spans
    }
}

impl Eq for FrontmatterError {
    ghost use Rattle.rap_frontmatter.specs.Refusal.{same_laws};

    ghost laws = { same_laws };
}

impl fmt::Display for FrontmatterError {
    ghost output = { λ e. Some e.message };

    ghost styled_output = { λ e spec. Some (padded spec e.message) };

    fn fmt<W: fmt::Write>(&self, f: &mut fmt::Formatter<W>) -> fmt::Result {
        f.pad(self.message())
    }
}

impl Error for FrontmatterError {}

/// Why a text was not read as a script source: it is refused, or the report was out of memory.
#[derive(Clone, PartialEq, Eq, Debug, Drop)]
pub enum ScriptFault {
    Refused(FrontmatterError),
    NoMemory,
}

impl fmt::Display for ScriptFault {
    ghost use Rattle.rap_frontmatter.specs.ScriptFault.{script_fault_text};

    ghost output = { λ fault. Some (script_fault_text fault) };

    fn fmt<W: fmt::Write>(&self, f: &mut fmt::Formatter<W>) -> fmt::Result {
        match self {
            ScriptFault::Refused(error) => f.write_str(error.message()),
            ScriptFault::NoMemory => f.write_str("no memory"),
        }
    }
}

impl Error for ScriptFault {}

impl From<NoMemory> for ScriptFault {
    ghost use Rattle.std.specs.Prelude.{◌≡◌};
    ghost use Rattle.rap_frontmatter.specs.declared.frontmatter.error.ScriptFault.TheVariants.{NoMemory as no_memory};

    ghost from_gives = { λ _ e. e ≡ no_memory };

    fn from(_error: NoMemory) -> ScriptFault {
        ScriptFault::NoMemory
    }
}
