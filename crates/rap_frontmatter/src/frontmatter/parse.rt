//! Reading a script source from the beginning of a text.
ghost use Rattle.std.specs.Prelude.{◌≡◌, ◌+◌, ◌<◌, ◌≤◌, ◌^◌, [], ◌∷◌, drop, IfOk, IfErr, IfSome};
ghost use Rattle.std.specs.Option.{option_map};
ghost use Rattle.rap_frontmatter.specs.Script.{IsScript, AtBorders, dashes, span, up_to, moved};
ghost use Rattle.rap_frontmatter.specs.ScriptPlaces.{HasNoDashes, Opens, Closes, Ends, closed};
ghost use Rattle.rap_frontmatter.specs.ScriptFault.{IsFault, IsShownAtBorders};
ghost use Rattle.rap_frontmatter.specs.OneAnswer.{IsOnlyScript, IsOnlyFault};
ghost use Rattle.rap_frontmatter.specs.Refusal.{unclosed, end_of};

use crate::frontmatter::close::{Closing, FoundClose, find_close};
use crate::frontmatter::error::{FrontmatterError, ScriptFault, Span};
use crate::frontmatter::line::{count_dashes, find_word, first_line};
use crate::frontmatter::open::{Opening, find_dashes, find_opening};
use crate::frontmatter::report;
use crate::frontmatter::script_source::ScriptSource;
use rap_base::no_memory::NoMemory;
use std::alloc::Global;

/// The least number of dashes that open a frontmatter.
const SHORTEST_FENCE: usize = 3;

impl<'s> ScriptSource<'s> {
    /// Divides the text into a shebang, a frontmatter and the content. No memory is allocated for a text that is
    /// accepted.
    ///
    /// The text is refused if fewer than three dashes open a frontmatter, if no line closes it, if more or fewer
    /// dashes close it than open it, if other text is on the closing line, or if a second frontmatter follows. The
    /// error is that refusal, or out of memory for its report.
    pub fn parse(alloc: Global, raw: &'s str) -> Result<ScriptSource<'s>, ScriptFault>
        ensures accepted { IfOk result (IsScript raw.now) }
        ensures borders { IfOk result AtBorders }
        ensures only { IfOk result (IsOnlyScript raw.now) }
        ensures refused { IfErr result (IsFault raw.now) }
        ensures only_fault { IfErr result (IsOnlyFault raw.now) }
        ensures fault_borders { IfErr result (IsShownAtBorders raw.now) }
    {
        source_of(alloc, raw)
    }
}

/// The parts of a text, or the refusal.
fn source_of<'s>(alloc: Global, raw: &'s str) -> Result<ScriptSource<'s>, ScriptFault>
    ensures accepted { IfOk result (IsScript raw.now) }
    ensures borders { IfOk result AtBorders }
    ensures refused { IfErr result (IsFault raw.now) }
{
    let opening = find_opening(raw);
    if opening.dashes.len == 0 {
        return Ok(without_frontmatter(raw, &opening));
    }
    if opening.dashes.len < SHORTEST_FENCE {
        let len = raw.len();
        let error = report::opens_too_short(
            alloc,
            opening.dashes.len,
            len..len,
            opening.dashes.span(),
        )?;
        return Err(ScriptFault::Refused(error));
    }
    after_opening(alloc, raw, &opening)
}

/// A script source without frontmatter: the content follows the shebang.
fn without_frontmatter<'s>(raw: &'s str, opening: &Opening) -> ScriptSource<'s>
    requires opens { Opens raw.now opening.now }
    requires none { opening.now.dashes.len ≡ 0 }
    ensures accepted { IsScript raw.now result }
    ensures borders { AtBorders result }
{
    ScriptSource {
        raw,
        shebang: span_to(opening.shebang),
        open: None,
        info: None,
        frontmatter: None,
        close: None,
        content: opening.shebang.unwrap_or(0)..raw.len(),
    }
}

/// Reads the text after the dashes that open a frontmatter.
fn after_opening<'s>(
    alloc: Global,
    raw: &'s str,
    opening: &Opening,
) -> Result<ScriptSource<'s>, ScriptFault>
    requires opens { Opens raw.now opening.now }
    requires enough { 3 ≤ opening.now.dashes.len }
    ensures accepted { IfOk result (IsScript raw.now) }
    ensures borders { IfOk result AtBorders }
    ensures refused { IfErr result (IsFault raw.now) }
{
    let end = opening.dashes.end();
    match find_close(&raw.as_bytes()[end..], opening.dashes.len) {
        FoundClose::At(closing) => after_close(alloc, raw, opening, closing),
        FoundClose::TooShort { place, len } => {
            let missing = opening.dashes.len - len;
            let close = end + place..end + place + len;
            let error = report::closes_too_short(alloc, missing, close, opening.dashes.span())?;
            Err(ScriptFault::Refused(error))
        }
        FoundClose::NoFence => Err(ScriptFault::Refused(unclosed(alloc, raw, opening)?)),
        FoundClose::NoLine => Err(ScriptFault::Refused(unclosed(alloc, raw, opening)?)),
    }
}

/// Reports that nothing closes the frontmatter.
fn unclosed(alloc: Global, raw: &str, opening: &Opening) -> Result<FrontmatterError, NoMemory>
    requires opens { Opens raw.now opening.now }
    requires some { 0 < opening.now.dashes.len }
    ensures { IfOk result (λ e. e ≡ record { message = unclosed (dashes opening.now.dashes.len); primary = end_of raw.now; visible = span opening.now.dashes.start opening.now.dashes.len ∷ [] }) }
{
    let len = raw.len();
    let open = opening.dashes.span();
    let fence = &raw[opening.dashes.start..opening.dashes.end()];
    report::lacks_close(alloc, fence, len..len, open)
}

/// Reads the text after the dashes that close a frontmatter.
fn after_close<'s>(
    alloc: Global,
    raw: &'s str,
    opening: &Opening,
    closing: Closing,
) -> Result<ScriptSource<'s>, ScriptFault>
    requires opens { Opens raw.now opening.now }
    requires enough { 3 ≤ opening.now.dashes.len }
    requires closes { Closes raw.now opening.now closing }
    ensures accepted { IfOk result (IsScript raw.now) }
    ensures borders { IfOk result AtBorders }
    ensures refused { IfErr result (IsFault raw.now) }
{
    let end = opening.dashes.end() + closing.close + opening.dashes.len;
    let rest = &raw.as_bytes()[end..];
    let extra = count_dashes(rest);
    if extra > 0 {
        let error = report::closes_too_long(alloc, extra, end..end + extra, opening.dashes.span())?;
        return Err(ScriptFault::Refused(error));
    }
    let tail = first_line(rest);
    if let Some(word) = find_word(&rest[..tail.len]) {
        let word = end + word.start..end + word.end;
        let error = report::follows_close(alloc, word, opening.dashes.span())?;
        return Err(ScriptFault::Refused(error));
    }
    before_content(alloc, raw, opening, closing, tail.next)
}

/// Reads the text after the line of the closing dashes.
fn before_content<'s>(
    alloc: Global,
    raw: &'s str,
    opening: &Opening,
    closing: Closing,
    line: usize,
) -> Result<ScriptSource<'s>, ScriptFault>
    requires opens { Opens raw.now opening.now }
    requires enough { 3 ≤ opening.now.dashes.len }
    requires closes { Closes raw.now opening.now closing }
    requires ends { Ends raw.now opening.now closing line }
    ensures accepted { IfOk result (IsScript raw.now) }
    ensures borders { IfOk result AtBorders }
    ensures refused { IfErr result (IsFault raw.now) }
{
    let close = opening.dashes.end() + closing.close;
    let content = close + opening.dashes.len + line;
    let second = find_dashes(&raw[content..]);
    if second.len > 0 {
        let dashes = content + second.start..content + second.end();
        let close = close..close + opening.dashes.len;
        let error = report::opens_twice(alloc, dashes, opening.dashes.span(), close)?;
        return Err(ScriptFault::Refused(error));
    }
    Ok(with_frontmatter(raw, opening, closing, line))
}

/// All parts of a script source with a frontmatter.
fn with_frontmatter<'s>(
    raw: &'s str,
    opening: &Opening,
    closing: Closing,
    line: usize,
) -> ScriptSource<'s>
    requires opens { Opens raw.now opening.now }
    requires enough { 3 ≤ opening.now.dashes.len }
    requires closes { Closes raw.now opening.now closing }
    requires ends { Ends raw.now opening.now closing line }
    requires no_second { HasNoDashes (drop (closed opening.now closing + line) raw.now) }
    ensures accepted { IsScript raw.now result }
    ensures borders { AtBorders result }
{
    let end = opening.dashes.end();
    let info = find_word(&raw.as_bytes()[end..end + closing.line]);
    let close = end + closing.close;
    ScriptSource {
        raw,
        shebang: span_to(opening.shebang),
        open: Some(opening.dashes.span()),
        info: moved(info, end),
        frontmatter: Some(end + closing.matter..close),
        close: Some(close..close + opening.dashes.len),
        content: close + opening.dashes.len + line..raw.len(),
    }
}

/// The span from the beginning of the text to `end`.
fn span_to(end: Option<usize>) -> Option<Span>
    ensures { result ≡ option_map up_to end }
{
    end.map(|end| 0..end)
}

/// The span moved by `by` bytes.
fn moved(span: Option<Span>, by: usize) -> Option<Span>
    requires { IfSome span (λ s. (by + s.start < 2 ^ 64) × (by + s.end < 2 ^ 64)) }
    ensures { result ≡ option_map (moved by) span }
{
    match span {
        None => None,
        Some(span) => Some(by + span.start..by + span.end),
    }
}
