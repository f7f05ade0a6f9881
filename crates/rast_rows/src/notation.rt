//! Trees in one line.
//!
//! `K(..)` is a node with its children and `K"t"` a leaf; `_` is a leaf of one space. In tables written by hand, `P:a`
//! is the path that is the name `a`, `E:a` and `T:a` the expression and the type that are that path, and `¶` a line
//! feed.
use ra_ap_parser::{NoMemory, StrSink, StrStep, SyntaxKind};
use std::alloc::{AllocError, Global};
use std::fmt::Write as _;

/// Writes a tree in one line, and its messages in another, each after a bar and its place.
#[derive(Drop)]
pub struct Notation {
    pub tree: String,
    pub messages: String,
    // Whether the node that is open has children.
    begun: bool,
}

impl Notation {
    /// Nothing is written yet.
    pub fn new(alloc: Global) -> Notation {
        Notation {
            tree: String::new(alloc),
            messages: String::new(alloc),
            begun: false,
        }
    }

    /// Separates what comes next from what is before it in the same node.
    fn space(&mut self) -> Result<(), NoMemory> {
        if self.begun {
            self.tree.push_str(" ")?;
        }
        self.begun = true;
        Ok(())
    }
}

impl StrSink for Notation {
    type Refusal = NoMemory;

    ghost takes = { λ _ _ _. Unit {0} };

    ghost refuses = { λ _ _ _ _. Unit {0} };

    fn step(&mut self, step: StrStep<'_>) -> Result<(), NoMemory> {
        match step {
            StrStep::Enter { kind } => {
                self.space()?;
                self.begun = false;
                write!(self.tree, "{}(", kind.name())?;
            }
            StrStep::Token { kind, text } => {
                self.space()?;
                if kind == SyntaxKind::WHITESPACE && text == " " {
                    self.tree.push_str("_")?;
                } else {
                    write!(self.tree, "{}\"{text}\"", kind.name())?;
                }
            }
            StrStep::Exit => {
                self.begun = true;
                self.tree.push_str(")")?;
            }
            StrStep::Error { msg, pos } => write!(self.messages, "|{pos} {msg}")?,
        }
        Ok(())
    }
}

/// The tree with each `P:a`, `E:a` and `T:a` replaced by its nodes.
pub fn spelled_out(alloc: Global, tree: &str) -> Result<String, AllocError> {
    let mut out = String::new(alloc);
    let mut last = ' ';
    let mut nodes = 0u8;
    for c in tree.chars() {
        if nodes > 0 {
            out.push(c)?;
            out.push_str(if nodes == 3 { "\")))" } else { "\"))))" })?;
            nodes = 0;
        } else if c == ':' && matches!(last, 'P' | 'E' | 'T') {
            out.pop();
            out.push_str(match last {
                'E' => "PATH_EXPR(",
                'T' => "PATH_TYPE(",
                _ => "",
            })?;
            out.push_str("PATH(PATH_SEGMENT(NAME_REF(IDENT\"")?;
            nodes = if last == 'P' { 3 } else { 4 };
        } else {
            out.push(c)?;
        }
        last = c;
    }
    Ok(out)
}

/// The text with each `¶` replaced by a line feed.
pub fn with_line_feeds(alloc: Global, text: &str) -> Result<String, AllocError> {
    let mut out = String::new(alloc);
    for c in text.chars() {
        out.push(if c == '¶' { '\n' } else { c })?;
    }
    Ok(out)
}
