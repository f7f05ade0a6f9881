//! Refusals of script sources.
use rap_frontmatter::frontmatter::{FrontmatterError, ScriptFault};
use std::test::Fail;

#[test]
fn keeps_message_and_spans(rt: HostRuntime) -> Result<(), Fail> {
    let alloc = rt.alloc();
    let error = FrontmatterError::new(alloc, "no end", 0..1)?;
    assert_eq!(rt; error.visible_spans().len(), 0);
    let error = error.push_visible_span(2..3)?.push_visible_span(1..7)?;
    assert_eq!(rt; error.message(), "no end");
    assert_eq!(rt; error.primary_span(), 0..1);
    assert_eq!(rt; error.visible_spans(), [2..3, 1..7].as_slice());
    let shown = format!(in alloc; "{error} {error:>8}")?;
    assert_eq!(rt; shown.as_str(), "no end   no end");
    Ok(())
}

#[test]
fn faults_are_reported_and_compared(rt: HostRuntime) -> Result<(), Fail> {
    let alloc = rt.alloc();
    let refused = ScriptFault::Refused(FrontmatterError::new(alloc, "no end", 0..1)?);
    let shown = format!(in alloc; "{refused}, {}", ScriptFault::NoMemory)?;
    assert_eq!(rt; shown.as_str(), "no end, no memory");
    let copy = refused.clone()?;
    assert_eq!(rt; copy, refused);
    assert_ne!(rt; copy, ScriptFault::NoMemory);
    Ok(())
}
