//! The faults of a literal's body.
use rap_lexer::escape::{Fault, Faults, Mode};

#[test]
fn reports_faults_in_order(rt: HostRuntime) {
    let mut faults = Faults::new(Mode::CStr, "\\u{\\0\\x0\0\\x00\\u{0}\\q\\");
    for wanted in [
        Fault::InvalidCharInUnicodeEscape,
        Fault::InvalidCharInHexEscape,
        Fault::NulInCStr,
        Fault::NulInCStr,
        Fault::InvalidEscape,
    ] {
        assert_eq!(rt; faults.next(), Some(wanted));
    }
    assert_eq!(rt; faults.next(), None);
}
