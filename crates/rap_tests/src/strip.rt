//! Texts without their first lines.
use rap_frontmatter::frontmatter::{strip_shebang, strip_ws_lines};

#[test]
fn strips_shebangs(rt: HostRuntime) {
    for (text, want) in [
        ("#!x\n--", Some(4)),
        ("#!/usr/bin/env y", Some(16)),
        ("#!\r\nfn", Some(4)),
        ("#![a]", None),
        ("#!\u{a0}\n [a]", None),
        ("#!\u{200e}[a]", Some(8)),
        (" #!x", None),
        ("#", None),
    ] {
        assert_eq!(rt; strip_shebang(text), want, "at {text:?}");
    }
}

#[test]
fn strips_blank_lines(rt: HostRuntime) {
    for (text, want) in [
        (" \n x", Some(2)),
        ("  x", None),
        ("\n\u{85}\u{2028}\r\n\tx\n", Some(8)),
        ("\u{a0}\n", None),
        ("\u{2029}", None),
        ("", None),
    ] {
        assert_eq!(rt; strip_ws_lines(text), want, "at {text:?}");
    }
}
