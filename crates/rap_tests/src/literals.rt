//! The values of literals by worked examples.
use rap_literals::{
    Radix, byte_string_value, byte_value, c_string_value, char_value, float_parts, integer_parts,
    quoted_suffix, string_value,
};
use std::alloc::{AllocError, Global};
use std::test::Fail;

fn is_text(alloc: Global, literal: &str, wanted: &str) -> Result<bool, AllocError> {
    match string_value(alloc, literal)? {
        Some(value) => Ok(value.as_str() == wanted),
        None => Ok(false),
    }
}

fn is_bytes(value: Option<Vec<u8>>, wanted: &[u8]) -> bool {
    match value {
        Some(value) => value.as_slice() == wanted,
        None => false,
    }
}

#[test]
fn strings(rt: HostRuntime) -> Result<(), Fail> {
    for (literal, wanted) in [
        (r#""""#, ""),
        (r#""a\n\u{1F600}""#, "a\n😀"),
        (r#""\t\r\\\'\"\0'""#, "\t\r\\'\"\0'"),
        (r#""\x41\x7f""#, "A\x7f"),
        (r#""\u{1_F6_00}\u{000041}""#, "😀A"),
        ("\"é߿\u{ffff}\u{10ffff}\"", "é\u{7ff}\u{ffff}\u{10ffff}"),
        ("\"a\\\n  \t\n\r b\"", "ab"),
        ("\"a\\\n \"", "a"),
        ("\"\\\n \\\n x\"", "x"),
        ("\"a\n b\"", "a\n b"),
        (r#""x"suffix"#, "x"),
        (r##"r#"a\n"b"#"##, "a\\n\"b"),
        (r#"r"""#, ""),
        (r###"r##"""#"##s"###, "\"\"#"),
    ] {
        assert!(rt; is_text(rt.alloc(), literal, wanted)?, "{literal}");
    }
    Ok(())
}

#[test]
fn no_strings(rt: HostRuntime) -> Result<(), Fail> {
    for literal in [
        r#""\q""#,
        r#""\x80""#,
        r#""\x4""#,
        r#""\u{110000}""#,
        r#""\u{d800}""#,
        r#""\u{}""#,
        r#""\u{_1}""#,
        r#""\u{1234567}""#,
        "\"",
        "",
        "\"a\" ",
        " \"a\"",
        "\"a\"\"b\"",
        "\"\\\"",
        "r#\"a\"",
        "b\"a\"",
        "c\"a\"",
        "'a'",
        "a",
        "1",
    ] {
        assert!(rt; string_value(rt.alloc(), literal)?.is_none(), "{literal}");
    }
    Ok(())
}

#[test]
fn byte_strings(rt: HostRuntime) -> Result<(), Fail> {
    let alloc = rt.alloc();
    assert!(rt; is_bytes(byte_string_value(alloc, r#"b"\xff\x00a""#)?, &[255, 0, 97]));
    assert!(rt; is_bytes(byte_string_value(alloc, r#"b"\n\"\\"x"#)?, &[10, 34, 92]));
    assert!(rt; is_bytes(byte_string_value(alloc, "b\"a\\\n b\"")?, b"ab"));
    assert!(rt; is_bytes(byte_string_value(alloc, r##"br#"\xff"#"##)?, b"\\xff"));
    for literal in [
        r#"b"é""#,
        r#"b"\u{41}""#,
        r#"b"\xg0""#,
        r#""a""#,
        "b'a'",
        "b\"a",
    ] {
        assert!(rt; byte_string_value(alloc, literal)?.is_none(), "{literal}");
    }
    Ok(())
}

#[test]
fn c_strings(rt: HostRuntime) -> Result<(), Fail> {
    let alloc = rt.alloc();
    assert!(rt;
        is_bytes(
            c_string_value(alloc, r#"c"\xffé\u{e9}\x41""#)?,
            &[255, 195, 169, 195, 169, 65]
        )
    );
    assert!(rt; is_bytes(c_string_value(alloc, r#"c"""#)?, b""));
    assert!(rt; is_bytes(c_string_value(alloc, r##"cr#"\"#"##)?, b"\\"));
    for literal in [
        r#"c"\0""#,
        r#"c"a\x00""#,
        r#"c"\u{0}""#,
        "c\"\0\"",
        r#""a""#,
        r#"b"a""#,
    ] {
        assert!(rt; c_string_value(alloc, literal)?.is_none(), "{literal}");
    }
    Ok(())
}

#[test]
fn characters(rt: HostRuntime) {
    for (literal, wanted) in [
        ("'a'", 'a'),
        (r"'\''", '\''),
        ("'\"'", '"'),
        (r"'\n'", '\n'),
        (r"'\x7f'", '\x7f'),
        (r"'\u{10ffff}'", '\u{10ffff}'),
        ("'😀'", '😀'),
        ("'a'suffix", 'a'),
    ] {
        assert_eq!(rt; char_value(literal), Some(wanted), "{literal}");
    }
    for literal in [
        "''", "'ab'", r"'\x80'", "'\t'", "'\n'", "'\r'", "'\ra'", "'a", "'''", "b'a'", "a", "",
    ] {
        assert_eq!(rt; char_value(literal), None, "{literal}");
    }
}

#[test]
fn bytes(rt: HostRuntime) {
    for (literal, wanted) in [
        ("b'a'", b'a'),
        (r"b'\xff'", 255),
        (r"b'\''", b'\''),
        (r"b'\0'u8", 0),
    ] {
        assert_eq!(rt; byte_value(literal), Some(wanted), "{literal}");
    }
    for literal in [
        "b'é'",
        "b'ab'",
        r"b'\u{41}'",
        "b''",
        "'a'",
        "b'\r'",
        "b\"a\"",
    ] {
        assert_eq!(rt; byte_value(literal), None, "{literal}");
    }
}

#[test]
fn integers(rt: HostRuntime) -> Result<(), Fail> {
    let past = "340282366920938463463374607431768211456";
    for (literal, radix, digits, suffix, value) in [
        ("0", Radix::Decimal, "0", "", Some(0)),
        ("00_1", Radix::Decimal, "00_1", "", Some(1)),
        ("1_000", Radix::Decimal, "1_000", "", Some(1000)),
        ("0xFF_u8", Radix::Hexadecimal, "FF_", "u8", Some(255)),
        (
            "0xdeadBEEF",
            Radix::Hexadecimal,
            "deadBEEF",
            "",
            Some(3_735_928_559),
        ),
        ("0b1010", Radix::Binary, "1010", "", Some(10)),
        ("0b_1é", Radix::Binary, "_1", "é", Some(1)),
        ("0o17usize", Radix::Octal, "17", "usize", Some(15)),
        ("1f32", Radix::Decimal, "1", "f32", Some(1)),
        (
            "340282366920938463463374607431768211455",
            Radix::Decimal,
            "340282366920938463463374607431768211455",
            "",
            Some(u128::MAX),
        ),
        (
            "0x1_0000_0000_0000_0000_0000_0000_0000_0000",
            Radix::Hexadecimal,
            "1_0000_0000_0000_0000_0000_0000_0000_0000",
            "",
            None,
        ),
        (past, Radix::Decimal, past, "", None),
        ("0b12", Radix::Binary, "12", "", None),
        ("0o8", Radix::Octal, "8", "", None),
    ] {
        let integer = integer_parts(literal).ok_or("no integer")?;
        assert_eq!(rt; integer.radix, radix, "{literal}");
        assert_eq!(rt; integer.digits, digits, "{literal}");
        assert_eq!(rt; integer.suffix, suffix, "{literal}");
        assert_eq!(rt; integer.value(), value, "{literal}");
    }
    for literal in ["1.0", "1e3", "0x", "0b_", "a1", "", "1 ", "-1", "\"1\""] {
        assert!(rt; integer_parts(literal).is_none(), "{literal}");
    }
    Ok(())
}

#[test]
fn radixes(rt: HostRuntime) {
    assert_eq!(rt; Radix::Binary.number(), 2);
    assert_eq!(rt; Radix::Octal.number(), 8);
    assert_eq!(rt; Radix::Decimal.number(), 10);
    assert_eq!(rt; Radix::Hexadecimal.number(), 16);
}

#[test]
fn floats(rt: HostRuntime) -> Result<(), Fail> {
    for (literal, digits, suffix, value) in [
        ("1.5", "1.5", "", 1.5),
        ("2.", "2.", "", 2.0),
        ("1e3", "1e3", "", 1000.0),
        ("1e+2", "1e+2", "", 100.0),
        ("0.1f64", "0.1", "f64", 0.1),
        ("1.5e3_f32", "1.5e3_", "f32", 1500.0),
        ("1_0.5_0E-1_0suffix", "1_0.5_0E-1_0", "suffix", 1.05e-9),
        ("1e400", "1e400", "", f64::INFINITY),
    ] {
        let float = float_parts(literal).ok_or("no float")?;
        assert_eq!(rt; float.digits, digits, "{literal}");
        assert_eq!(rt; float.suffix, suffix, "{literal}");
        assert_eq!(rt; float.value(rt.alloc())?, Some(value), "{literal}");
    }
    for literal in [
        "1", "1e", "1e+_", "0x1.5", "1.0.0", "1.e3", ".5", "", "1.5 ",
    ] {
        assert!(rt; float_parts(literal).is_none(), "{literal}");
    }
    Ok(())
}

#[test]
fn suffixes(rt: HostRuntime) {
    for (literal, wanted) in [
        (r#""x"suffix"#, "suffix"),
        (r#""x""#, ""),
        (r#""\q"s"#, "s"),
        (r##"r#"x"#s"##, "s"),
        (r##"br#"x"#"##, ""),
        ("'a'é", "é"),
        ("b'a'u8", "u8"),
        (r#"b"x"b"#, "b"),
        (r#"c"x"_1"#, "_1"),
    ] {
        assert_eq!(rt; quoted_suffix(literal), Some(wanted), "{literal}");
    }
    for literal in ["1u8", "a", "\"x\" s", "\"x", "", "'a"] {
        assert_eq!(rt; quoted_suffix(literal), None, "{literal}");
    }
}
