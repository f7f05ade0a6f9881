//! How each refusal of a script source is reported.
ghost use Rattle.std.specs.Prelude.{◌≡◌, ◌<◌, [], ◌∷◌, IfOk};
ghost use Rattle.rap_frontmatter.specs.Refusal.{too_short, unclosed, fewer, more, after_close, only_one};

use crate::frontmatter::error::{FrontmatterError, Span};
use rap_base::no_memory::NoMemory;
use std::alloc::Global;

/// Fewer than three dashes open.
pub(super) fn opens_too_short(
    alloc: Global,
    dashes: usize,
    end: Span,
    opening: Span,
) -> Result<FrontmatterError, NoMemory>
    ensures { IfOk result (λ e. e ≡ record { message = too_short dashes; primary = end; visible = opening ∷ [] }) }
{
    let message = format!(in alloc; "found {dashes} `-` in rust frontmatter, expected at least 3")?;
    FrontmatterError::shown(alloc, message, end, opening)
}

/// Nothing closes the fence.
pub(super) fn lacks_close(
    alloc: Global,
    fence: &str,
    end: Span,
    opening: Span,
) -> Result<FrontmatterError, NoMemory>
    ensures { IfOk result (λ e. e ≡ record { message = unclosed fence.now; primary = end; visible = opening ∷ [] }) }
{
    let message = format!(in alloc; "unclosed frontmatter; expected `{fence}`")?;
    FrontmatterError::shown(alloc, message, end, opening)
}

/// Fewer dashes close than open, by so many.
pub(super) fn closes_too_short(
    alloc: Global,
    missing: usize,
    close: Span,
    opening: Span,
) -> Result<FrontmatterError, NoMemory>
    ensures { IfOk result (λ e. e ≡ record { message = fewer missing; primary = close; visible = opening ∷ [] }) }
{
    let message = format!(in alloc;
        "closing code fence has {missing} less `-` than the opening fence"
    )?;
    FrontmatterError::shown(alloc, message, close, opening)
}

/// More dashes close than open, by so many.
pub(super) fn closes_too_long(
    alloc: Global,
    extra: usize,
    dashes: Span,
    opening: Span,
) -> Result<FrontmatterError, NoMemory>
    ensures { IfOk result (λ e. e ≡ record { message = more extra; primary = dashes; visible = opening ∷ [] }) }
{
    let message = format!(in alloc;
        "closing code fence has {extra} more `-` than the opening fence"
    )?;
    FrontmatterError::shown(alloc, message, dashes, opening)
}

/// Something follows the closing dashes on their line.
pub(super) fn follows_close(
    alloc: Global,
    word: Span,
    opening: Span,
) -> Result<FrontmatterError, NoMemory>
    ensures { IfOk result (λ e. e ≡ record { message = after_close; primary = word; visible = opening ∷ [] }) }
{
    let error = FrontmatterError::new(
        alloc,
        "unexpected characters after frontmatter close",
        word,
    )?;
    error.push_visible_span(opening)
}

/// Dashes open a second frontmatter.
pub(super) fn opens_twice(
    alloc: Global,
    dashes: Span,
    opening: Span,
    close: Span,
) -> Result<FrontmatterError, NoMemory>
    ensures { IfOk result (λ e. e ≡ record { message = only_one; primary = dashes; visible = opening ∷ close ∷ [] }) }
{
    let error = FrontmatterError::new(alloc, "only one frontmatter is supported", dashes)?;
    error.push_visible_span(opening)?.push_visible_span(close)
}
