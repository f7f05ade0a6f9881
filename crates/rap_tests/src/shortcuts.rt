//! A sink for tests, which keeps its steps and refuses one.
use rap_base::edition::Edition;
use rap_base::syntax_kind::SyntaxKind;
use rap_events::output::wrap_in_node;
use rap_events::parser::Parser;
use rap_lexed::lexed_str::LexedStr;
use rap_lexed::shortcuts::{StrSink, StrStep};
use std::alloc::{AllocError, Global};
use std::fmt::Write;
use std::test::Fail;

#[derive(Drop)]
enum Kept {
    Token { kind: SyntaxKind, text: String },
    Enter { kind: SyntaxKind },
    Exit,
    Error { msg: String, pos: usize },
}

#[derive(Drop, PartialEq, Debug)]
enum Refusal {
    Full,
    NoMemory,
}

impl From<AllocError> for Refusal {
    fn from(_error: AllocError) -> Refusal {
        Refusal::NoMemory
    }
}

impl From<std::alloc::AllocFailed<Kept>> for Refusal {
    fn from(_error: std::alloc::AllocFailed<Kept>) -> Refusal {
        Refusal::NoMemory
    }
}

/// Keeps `left` more steps, and refuses the next one.
#[derive(Drop)]
struct Keeper {
    alloc: Global,
    kept: Vec<Kept>,
    left: usize,
}

impl StrSink for Keeper {
    ghost use Rattle.std.specs.Prelude.{◌≡◌, ◌+◌, vec_len};

    type Refusal = Refusal;

    ghost takes = { λ s _ t. (vec_len t.kept ≡ vec_len s.kept + 1) × (s.left ≡ t.left + 1) };

    ghost refuses = { λ s _ _ t. t.kept.items ≡ s.kept.items };

    fn step(&mut self, step: StrStep<'_>) -> Result<(), Refusal> {
        if self.left == 0 {
            return Err(Refusal::Full);
        }
        let alloc = self.alloc;
        let kept = match step {
            StrStep::Token { kind, text } => {
                let text = String::from_str(alloc, text)?;
                Kept::Token { kind, text }
            }
            StrStep::Enter { kind } => Kept::Enter { kind },
            StrStep::Exit => Kept::Exit,
            StrStep::Error { msg, pos } => {
                let msg = String::from_str(alloc, msg)?;
                Kept::Error { msg, pos }
            }
        };
        self.kept.push(kept)?;
        self.left -= 1;
        Ok(())
    }
}

/// The steps in one line: a node as `KIND(..)`, a token by its kind and its text, a message with its place.
fn line(alloc: Global, steps: &[Kept]) -> Result<String, AllocError> {
    let mut line = String::new(alloc);
    for step in steps {
        match step {
            Kept::Token { kind, text } => write!(line, "{}{text:?} ", kind.name())?,
            Kept::Enter { kind } => write!(line, "{}( ", kind.name())?,
            Kept::Exit => line.push_str(") ")?,
            Kept::Error { msg, pos } => write!(line, "{pos}:{msg} ")?,
        }
    }
    Ok(line)
}

/// What a sink that accepts `left` steps returns and keeps for a `use` of a name and a semicolon, inside an `ERROR`.
fn item_line(
    alloc: Global,
    text: &str,
    left: usize,
) -> Result<(Result<bool, Refusal>, String), Fail> {
    let lexed = LexedStr::new(alloc, Edition::Edition2024, text)?;
    let input = lexed.to_input(alloc, Edition::Edition2024)?;
    let mut p = Parser::new(alloc, &input);
    let m = p.start()?;
    p.expect(SyntaxKind::IDENT)?;
    p.expect(SyntaxKind::SEMICOLON)?;
    m.complete(&mut p, SyntaxKind::USE)?;
    let output = p.process(alloc)?;
    let tree = wrap_in_node(alloc, output, SyntaxKind::ERROR)?;
    let mut sink = Keeper {
        alloc,
        kept: Vec::new(alloc),
        left,
    };
    let answer = lexed.intersperse_trivia(&tree, &mut sink);
    let line = line(alloc, &sink.kept)?;
    Ok((answer, line))
}

#[test]
fn hands_out_an_attached_tail_until_a_step_is_refused(rt: HostRuntime) -> Result<(), Fail> {
    let alloc = rt.alloc();
    let steps = [
        "ERROR( ",
        "COMMENT\"// a\" ",
        "WHITESPACE\"\\n\\n\" ",
        "USE( ",
        "COMMENT\"/* b */\" ",
        "WHITESPACE\" \" ",
        "COMMENT\"// c\" ",
        "WHITESPACE\"\\n \" ",
        "IDENT\"x\" ",
        "SEMICOLON\";\" ",
        ") ",
        ") ",
    ];
    for left in 0..13 {
        let (answer, line) = item_line(alloc, "// a\n\n/* b */ // c\n x;", left)?;
        let mut want = String::new(alloc);
        for step in steps.iter().take(left) {
            want.push_str(step)?;
        }
        assert_eq!(rt; line.as_str(), want.as_str(), "with {left} left");
        if left < 12 {
            assert_eq!(rt; answer, Err(Refusal::Full), "with {left} left");
        } else {
            assert_eq!(rt; answer, Ok(true));
        }
    }
    Ok(())
}
