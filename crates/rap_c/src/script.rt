//! Script sources: what may stand before the code of a file.
ghost use Rattle.std.specs.Prelude.{◌≡◌, ◌≢◌, ◌⊎◌, IfErr, IfOk, IsUtf8, unwrap_or};
ghost use Rattle.rap_frontmatter.specs.Script.{EndsBlankLines, EndsShebang};
ghost use Rattle.rap_c.specs.Given.{IsRefusal};
ghost use Rattle.rap_c.specs.Script.{ArePartsUntouched, ComesOfBytes, ComesOfCutting, ComesOfScript, IsCut, IsEndGiven, IsReport, IsReported, parts_of, shown_of};
ghost use Rattle.rap_c.specs.Filling.{overwritten};

use crate::answer::{Fault, NO_SCRIPT, OK, RapAnswer, settle};
use crate::filler::put_bytes;
use crate::part::{RapPart, part_at, part_of, put_parts};
use crate::reading::text_of;
use ra_ap_parser::frontmatter::{
    FrontmatterError, ScriptFault, ScriptSource, strip_shebang, strip_ws_lines,
};
use std::alloc::Global;

/// What a refusal shows: where it is, and what stands beside it.
fn shown(alloc: Global, error: &FrontmatterError) -> Result<Vec<RapPart>, Fault>
    ensures parts { IfOk result (λ parts. parts.items ≡ shown_of error.now) }
    ensures fault { IfErr result (λ fault. fault ≡ Fault.NoMemory) }
{
    let mut parts = Vec::new(alloc);
    let Ok(()) = parts.push(part_at(&error.primary_span())) else {
        return Err(Fault::NoMemory);
    };
    'spans: for span in error.visible_spans() {
        let Ok(()) = parts.push(part_at(span)) else {
            return Err(Fault::NoMemory);
        };
    }
    Ok(parts)
}

/// Fills the room with the parts of a script source.
fn fill_cut(script: &ScriptSource<'_>, parts: &mut [RapPart])
    ensures { parts.new ≡ overwritten parts.old (parts_of script.now) }
{
    put_parts(
        parts,
        &[
            part_of(&script.shebang_span()),
            part_of(&script.open_span()),
            part_of(&script.info_span()),
            part_of(&script.frontmatter_span()),
            part_of(&script.close_span()),
            part_at(&script.content_span()),
        ],
    );
}

/// Fills the room with what refuses a text.
fn fill_report(
    alloc: Global,
    error: &FrontmatterError,
    used: usize,
    parts: &mut [RapPart],
    messages: &mut [u8],
) -> Result<RapAnswer, Fault>
    ensures given { IfOk result (IsReport error.now used parts.old parts.new messages.old messages.new) }
    ensures fault { IfErr result (λ fault. fault ≡ Fault.NoMemory) }
    ensures untouched { IfErr result (λ _. ArePartsUntouched parts.old parts.new messages.old messages.new) }
{
    let shown = shown(alloc, error)?;
    put_parts(parts, shown.as_slice());
    put_bytes(messages, 0, error.message().as_bytes());
    Ok(RapAnswer {
        status: NO_SCRIPT,
        steps: shown.len(),
        message_bytes: error.message().len(),
        used,
    })
}

/// Fills the room with the parts of the text, or with what refuses it.
fn fill_script(
    alloc: Global,
    text: &str,
    parts: &mut [RapPart],
    messages: &mut [u8],
) -> Result<RapAnswer, Fault>
    ensures given { IfOk result (λ answer. IsCut text.now parts.old parts.new messages.old messages.new answer ⊎ IsReported text.now parts.old parts.new messages.old messages.new answer) }
    ensures fault { IfErr result (ComesOfCutting text.now) }
    ensures untouched { IfErr result (λ _. ArePartsUntouched parts.old parts.new messages.old messages.new) }
{
    match ScriptSource::parse(alloc, text) {
        Ok(script) => {
            fill_cut(&script, parts);
            Ok(RapAnswer {
                status: OK,
                steps: 6,
                message_bytes: 0,
                used: text.len(),
            })
        }
        Err(ScriptFault::Refused(error)) => fill_report(alloc, &error, text.len(), parts, messages),
        Err(ScriptFault::NoMemory) => Err(Fault::NoMemory),
    }
}

/// Reads the bytes, and fills the room.
fn script(
    alloc: Global,
    text: &[u8],
    parts: &mut [RapPart],
    messages: &mut [u8],
) -> Result<RapAnswer, Fault>
    ensures given { IfOk result (λ answer. IsUtf8 text.now × (IsCut text.now parts.old parts.new messages.old messages.new answer ⊎ IsReported text.now parts.old parts.new messages.old messages.new answer)) }
    ensures fault { IfErr result (ComesOfScript text.now) }
    ensures untouched { IfErr result (λ _. ArePartsUntouched parts.old parts.new messages.old messages.new) }
{
    let text = text_of(text)?;
    fill_script(alloc, text, parts, messages)
}

/// Cuts the text into a shebang, a frontmatter and its content, and fills the slice with its six parts. Where the text is
/// refused the status is 12, and the slices have the parts to show, the one that the message is about first, and the
/// message.
#[unsafe(no_mangle)]
pub extern "C" fn rap_script(
    alloc: Global,
    text: &[u8],
    parts: &mut [RapPart],
    messages: &mut [u8],
) -> RapAnswer
    ensures cut { result.status ≡ 0 → IsUtf8 text.now × IsCut text.now parts.old parts.new messages.old messages.new result }
    ensures reported { result.status ≡ 12 → IsUtf8 text.now × IsReported text.now parts.old parts.new messages.old messages.new result }
    ensures refused { result.status ≢ 0 → result.status ≢ 12 → IsRefusal (ComesOfScript text.now) result × ArePartsUntouched parts.old parts.new messages.old messages.new }
{
    settle(script(alloc, text, parts, messages))
}

/// What says where something ends, or nowhere.
fn end_given(end: Option<usize>) -> RapAnswer
    ensures { result ≡ record { status = 0; steps = 0; message_bytes = 0; used = unwrap_or end 0 } }
{
    RapAnswer {
        status: OK,
        steps: 0,
        message_bytes: 0,
        used: end.unwrap_or(0),
    }
}

/// Reads the bytes, and says where the shebang ends.
fn shebang(text: &[u8]) -> Result<RapAnswer, Fault>
    ensures given { IfOk result (IsEndGiven EndsShebang text.now) }
    ensures fault { IfErr result (ComesOfBytes text.now) }
{
    let text = text_of(text)?;
    Ok(end_given(strip_shebang(text)))
}

/// Says where the shebang ends, with its line feed; 0 where there is none.
#[unsafe(no_mangle)]
pub extern "C" fn rap_shebang(text: &[u8]) -> RapAnswer
    ensures shebang { result.status ≡ 0 → IsEndGiven EndsShebang text.now result }
    ensures refused { result.status ≢ 0 → IsRefusal (ComesOfBytes text.now) result }
{
    settle(shebang(text))
}

/// Reads the bytes, and says where the blank lines end.
fn blank_lines(text: &[u8]) -> Result<RapAnswer, Fault>
    ensures given { IfOk result (IsEndGiven EndsBlankLines text.now) }
    ensures fault { IfErr result (ComesOfBytes text.now) }
{
    let text = text_of(text)?;
    Ok(end_given(strip_ws_lines(text)))
}

/// Says where the longest run of white space that begins the text and ends with a line feed ends; 0 where there is none.
#[unsafe(no_mangle)]
pub extern "C" fn rap_blank_lines(text: &[u8]) -> RapAnswer
    ensures blank { result.status ≡ 0 → IsEndGiven EndsBlankLines text.now result }
    ensures refused { result.status ≢ 0 → IsRefusal (ComesOfBytes text.now) result }
{
    settle(blank_lines(text))
}
