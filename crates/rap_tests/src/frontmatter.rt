//! The parts of a script source.
use rap_frontmatter::frontmatter::ScriptSource;
use std::test::Fail;

#[test]
fn slices_the_text(rt: HostRuntime) -> Result<(), Fail> {
    let text = "#!/bin/é\n---\tcargo\né = 1\n---\nfn f() {}";
    let Ok(source) = ScriptSource::parse(rt.alloc(), text) else {
        return Err(Fail::from("refused"));
    };
    assert_eq!(rt; source.shebang(), Some("#!/bin/é\n"));
    assert_eq!(rt; source.info(), Some("cargo"));
    assert_eq!(rt; source.frontmatter(), Some("é = 1\n"));
    assert_eq!(rt; source.content(), "fn f() {}");
    Ok(())
}
