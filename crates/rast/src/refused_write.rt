//! What `run` has written when its output fails at one of the calls.
use crate::run::run;
use ra_ap_parser::{Edition, TopEntryPoint};
use std::io;
use std::test::Fail;

const TREE: &str = "BIN_EXPR\n  LITERAL\n    INT_NUMBER \"1\"\n  PLUS \"+\"\n  ERROR\n";

const MESSAGES: &str = "error 2: expected expression\n";

/// An output that accepts as many calls as are left, keeps what they write, and fails at the next one.
#[derive(Drop)]
struct Failing {
    taken: Vec<u8>,
    left: usize,
}

impl Failing {
    fn turn(&mut self) -> io::Result<()> {
        if self.left == 0 {
            return Err(io::Error::from(io::ErrorKind::BrokenPipe));
        }
        self.left -= 1;
        Ok(())
    }
}

impl io::Write for Failing {
    fn write(&mut self, bytes: &[u8]) -> io::Result<usize> {
        self.turn()?;
        if self.taken.extend_from_slice(bytes).is_err() {
            return Err(io::Error::from(io::ErrorKind::OutOfMemory));
        }
        Ok(bytes.len())
    }

    fn flush(&mut self) -> io::Result<()> {
        self.turn()
    }
}

/// The tree of `1+` is one write, its message another, and a flush follows.
#[test]
fn fails_at_each_call(rt: HostRuntime) -> Result<(), Fail> {
    for (left, taken) in [("", ""), (TREE, ""), (TREE, MESSAGES), (TREE, MESSAGES)]
        .iter()
        .enumerate()
    {
        let mut out = Failing {
            taken: Vec::new(rt.alloc()),
            left,
        };
        let mut err = Vec::new(rt.alloc());
        let status = run(
            rt.alloc(),
            Edition::Edition2024,
            TopEntryPoint::Expr,
            "1+",
            false,
            &mut out,
            &mut err,
        )?;
        let (tree, messages) = *taken;
        assert_eq!(rt; out.taken.len(), tree.len() + messages.len());
        assert!(rt; out.taken.starts_with(tree.as_bytes()));
        assert!(rt; out.taken.ends_with(messages.as_bytes()));
        let (wanted, report) = if left < 3 {
            (2, "rast: cannot write\n")
        } else {
            (1, "")
        };
        assert_eq!(rt; status, wanted);
        assert!(rt; err.as_slice() == report.as_bytes());
    }
    Ok(())
}
