//! Frames by worked examples: headers in each form, faults, and a stream that comes a byte at a time.
ghost use Rattle.std.specs.Prelude.{IfOk};
ghost use Rattle.rast_frames.specs.Fronts.{Fronts};
ghost use Rattle.rast_frames.specs.Stream.{waiting};

use rast_frames::{Frames, Front, HeaderFault, MAX_HEADER, front_of, write_frame};
use std::alloc::AllocError;
use std::test::Fail;

fn front(text: &str) -> Front {
    front_of(text.as_bytes(), 100)
}

#[test]
fn reads_a_header_in_each_form(rt: HostRuntime) -> Result<(), Fail> {
    let message = Front::Message { start: 21, end: 23 };
    assert_eq!(rt; front("Content-Length: 2\r\n\r\n{}"), message);
    assert_eq!(rt; front("CONTENT-length: 2\r\n\r\n{}Content"), message);
    assert_eq!(rt; front("content-length:02\r\n\r\n{}\r\n\r\n"), message);
    let typed =
        "Content-Type: application/vscode-jsonrpc; charset=utf-8\r\nContent-Length:  2 \r\n\r\n{}";
    assert_eq!(rt; front(typed), Front::Message { start: 80, end: 82 });
    let empty = Front::Message { start: 21, end: 21 };
    assert_eq!(rt; front("Content-Length: 0\r\n\r\n"), empty);
    Ok(())
}

#[test]
fn waits_for_the_rest(rt: HostRuntime) -> Result<(), Fail> {
    assert_eq!(rt; front(""), Front::Part);
    assert_eq!(rt; front("Content-Length: 2\r\n\r"), Front::Part);
    assert_eq!(rt; front("Content-Length: 2\r\n\r\n{"), Front::Part);
    assert_eq!(rt; front("Content-Length: 2\n\n{}"), Front::Part);
    Ok(())
}

#[test]
fn names_each_fault(rt: HostRuntime) -> Result<(), Fail> {
    let wrong = |fault, end| Front::Wrong { fault, end };
    assert_eq!(rt; front("\r\n\r\n"), wrong(HeaderFault::NoLength, 4));
    assert_eq!(rt;
        front("Length: 2\r\n\r\n{}"),
        wrong(HeaderFault::NoLength, 13)
    );
    assert_eq!(rt;
        front("x Content-Length: 2\r\n\r\n{}"),
        wrong(HeaderFault::NoLength, 23)
    );
    assert_eq!(rt;
        front("Content-Length: two\r\n\r\n{}"),
        wrong(HeaderFault::WrongLength, 23)
    );
    assert_eq!(rt;
        front("Content-Length: +2\r\n\r\n{}"),
        wrong(HeaderFault::WrongLength, 22)
    );
    assert_eq!(rt;
        front("Content-Length:\r\n\r\n{}"),
        wrong(HeaderFault::WrongLength, 19)
    );
    assert_eq!(rt;
        front("Content-Length: 281474976710656\r\n\r\n"),
        wrong(HeaderFault::WrongLength, 35)
    );
    let twice = "Content-Length: 2\r\ncontent-length: 2\r\n\r\n{}";
    assert_eq!(rt; front(twice), wrong(HeaderFault::TwoLengths, 40));
    let long = Front::TooLong {
        start: 23,
        length: 101,
    };
    assert_eq!(rt; front("Content-Length: 101\r\n\r\n"), long);
    Ok(())
}

#[test]
fn is_lost_after_a_long_header(rt: HostRuntime) -> Result<(), Fail> {
    let header = vec![in rt.alloc(); b'x'; MAX_HEADER + 4]?;
    assert_eq!(rt; header.len(), 4100);
    assert_eq!(rt; front_of(&header[..4099], 100), Front::Part);
    assert_eq!(rt; front_of(header.as_slice(), 100), Front::Lost);
    Ok(())
}

// Adds what stands at the front.
fn push_front(read: &mut String, frames: &Frames, limit: usize) -> Result<Front, AllocError>
    ensures { IfOk result (Fronts limit (waiting frames.now).bytes) }
{
    let front = frames.front(limit);
    match front {
        Front::Part | Front::Lost => (),
        Front::Message { start, end } => {
            for byte in frames.content(start, end) {
                read.push(char::from(*byte))?;
            }
        }
        Front::TooLong { .. } => read.push_str(" long ")?,
        Front::Wrong { .. } => read.push_str("wrong ")?,
    }
    Ok(front)
}

// Two messages, a content that is left out and a header that is none between them, a byte at a time.
#[test]
fn reads_a_byte_at_a_time(rt: HostRuntime) -> Result<(), Fail> {
    let mut stream = Vec::new(rt.alloc());
    write_frame(&mut stream, b"first")?;
    stream.extend_from_slice(b"Content-Length: 9\r\n\r\n123456789None: 0\r\n\r\n")?;
    write_frame(&mut stream, b"last")?;
    let mut frames = Frames::new(rt.alloc());
    let mut read = String::new(rt.alloc());
    for byte in stream.as_slice() {
        frames.push(&[*byte])?;
        let front = push_front(&mut read, &frames, 8)?;
        frames.pass(front);
    }
    assert_eq!(rt; read.as_str(), "first long wrong last");
    assert!(rt; frames.is_empty());
    Ok(())
}
