//! Documents by worked examples: those of the protocol, and each line end.
use rast_document::{Change, ChangeFault, Document, Encoding, Position, Span};
use std::alloc::{AllocError, Global};
use std::test::Fail;

fn document(alloc: Global, encoding: Encoding, text: &str) -> Result<Document, AllocError> {
    Document::new(alloc, encoding, String::from_str(alloc, text)?)
}

fn at(line: usize, character: usize) -> Position {
    Position { line, character }
}

// The protocol's example: `a`, U+10400, `b`.
#[test]
fn counts_units(rt: HostRuntime) -> Result<(), Fail> {
    let units = [
        (Encoding::Utf8, 5),
        (Encoding::Utf16, 3),
        (Encoding::Utf32, 2),
    ];
    for (encoding, character) in units {
        let document = document(rt.alloc(), encoding, "a\u{10400}b")?;
        assert!(rt; document.text().len() == 6);
        assert_eq!(rt; document.position(5), at(0, character));
        assert_eq!(rt; document.offset(at(0, character)), Some(5));
        assert_eq!(rt; document.offset(at(0, 99)), Some(6));
    }
    let document = document(rt.alloc(), Encoding::Utf16, "a\u{10400}b")?;
    assert_eq!(rt; document.offset(at(0, 2)), None);
    Ok(())
}

// Each line end, the last line without one.
#[test]
fn divides_lines(rt: HostRuntime) -> Result<(), Fail> {
    let document = document(rt.alloc(), Encoding::Utf16, "one\ntwo\r\nthree\rfour")?;
    assert!(rt; document.text().len() == 19);
    let places = [
        (0, at(0, 0)),
        (3, at(0, 3)),
        (4, at(1, 0)),
        (7, at(1, 3)),
        (9, at(2, 0)),
        (14, at(2, 5)),
        (15, at(3, 0)),
        (19, at(3, 4)),
    ];
    for (offset, position) in places {
        assert!(rt; offset <= 19);
        assert_eq!(rt; document.position(offset), position, "at {offset}");
        assert_eq!(rt; document.offset(position), Some(offset), "at {offset}");
    }
    assert_eq!(rt; document.position(8), at(1, 3));
    assert_eq!(rt; document.offset(at(1, 4)), Some(7));
    assert_eq!(rt; document.offset(at(4, 0)), None);
    Ok(())
}

#[test]
fn counts_far_into_a_line(rt: HostRuntime) -> Result<(), Fail> {
    let mut text = String::new(rt.alloc());
    for _ in 0..200 {
        text.push_str("\u{e9}\u{10400}")?;
    }
    let document = Document::new(rt.alloc(), Encoding::Utf16, text)?;
    assert!(rt; document.text().len() == 1200);
    assert_eq!(rt; document.position(602), at(0, 301));
    assert_eq!(rt; document.offset(at(0, 301)), Some(602));
    assert_eq!(rt; document.offset(at(0, 302)), None);
    assert_eq!(rt; document.position(1200), at(0, 600));
    Ok(())
}

#[test]
fn changes_in_order(rt: HostRuntime) -> Result<(), Fail> {
    let mut document = document(rt.alloc(), Encoding::Utf16, "fn f() {\n}\n")?;
    let changes = [
        Change {
            span: Some(Span {
                start: at(0, 3),
                end: at(0, 4),
            }),
            text: "main",
        },
        Change {
            span: Some(Span {
                start: at(0, 10),
                end: at(0, 99),
            }),
            text: "{ ",
        },
    ];
    assert!(rt; document.change(rt.alloc(), &changes).is_ok());
    assert_eq!(rt; document.text(), "fn main() { \n}\n");
    let refused = [
        Change {
            span: None,
            text: "x",
        },
        Change {
            span: Some(Span {
                start: at(0, 1),
                end: at(0, 0),
            }),
            text: "y",
        },
    ];
    assert_eq!(rt;
        document.change(rt.alloc(), &refused),
        Err(ChangeFault::NoRange)
    );
    assert_eq!(rt; document.text(), "fn main() { \n}\n");
    Ok(())
}
