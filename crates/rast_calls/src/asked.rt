//! The calls to make, and their arguments.
use ra_ap_parser::{Edition, PrefixEntryPoint, Reparser, SyntaxKind, TopEntryPoint};

/// How an input is parsed.
#[derive(Clone, Copy, Debug)]
pub enum Way {
    /// A top entry point, which parses the whole input.
    Top(TopEntryPoint),
    /// A prefix entry point, which parses a prefix.
    Prefix(PrefixEntryPoint),
    /// A node that is parsed again.
    Node(Reparser),
}

/// How a token is pushed.
#[derive(Clone, Copy, Debug)]
pub enum Token {
    /// As a token of this kind.
    Kind(SyntaxKind),
    /// As an identifier that may be read as this kind.
    Ident(SyntaxKind),
}

/// Tokens that are pushed one after another.
#[derive(Clone, Copy, Debug)]
pub struct Tokens {
    /// What each of them is.
    pub token: Token,
    /// How many there are.
    pub count: usize,
    /// The first and every n-th after it touch the next one. At 0 none does.
    pub every: usize,
}

/// Which calls are made.
#[derive(Drop)]
pub enum Asked {
    /// An input is made with capacity for this number of tokens.
    Capacity(usize),
    /// A refusal of a script source is made, with a message, a span, and this number of spans beside it.
    Frontmatter {
        message: String,
        start: usize,
        end: usize,
        count: usize,
    },
    /// The steps of an input of these tokens.
    Push(Way, Tokens),
    /// The steps of an input of these tokens up to the first push that is refused.
    Kept(Way, Tokens),
    /// How many steps and messages an input of these tokens has.
    Count(Way, Tokens),
    /// What a sink holds of a text's steps if it accepts this number of them, and refuses the next one.
    Sink {
        count: usize,
        entry: TopEntryPoint,
        edition: Edition,
    },
    /// The nodes and leaves of the tree that is built of a text.
    Build {
        entry: TopEntryPoint,
        edition: Edition,
    },
    /// Whether the node that is made of a text is closed.
    Closed {
        reparser: Reparser,
        edition: Edition,
    },
}
