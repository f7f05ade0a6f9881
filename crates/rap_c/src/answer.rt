//! What a call returns.
ghost use Rattle.std.specs.Prelude.{◌≡◌, MatchResult};
ghost use Rattle.rap_c.specs.Answer.{number_of, refusal};

/// Why a call fails.
#[derive(Clone, Copy, Debug, PartialEq, Eq)]
pub enum Fault {
    /// The number is no edition's year.
    NoEdition,
    /// The number is no entry's.
    NoEntry,
    /// The bytes are no UTF-8.
    NotUtf8,
    /// The text has more bytes than the lexer takes.
    TextTooLong,
    /// The text has more tokens than the parser takes.
    TooManyTokens,
    /// Out of memory: the allocator refused a request.
    NoMemory,
    /// A node of this kind, with this first child and in this parent, is not parsed again alone.
    NoNode,
    /// The node must begin with a `{`, and the text or the records do not.
    NoBrace,
    /// A record is no token's.
    NoRecord,
    /// The steps that were given are not those of one tree over the text.
    NoSteps,
}

impl Fault {
    /// The fault's status.
    pub fn number(self) -> u32
        ensures { result ≡ number_of self }
    {
        match self {
            Fault::NoEdition => 2,
            Fault::NoEntry => 3,
            Fault::NotUtf8 => 4,
            Fault::TextTooLong => 5,
            Fault::TooManyTokens => 6,
            Fault::NoMemory => 7,
            Fault::NoNode => 8,
            Fault::NoBrace => 9,
            Fault::NoRecord => 10,
            Fault::NoSteps => 11,
        }
    }
}

/// The steps are those of one tree, or of a text's tokens.
pub const OK: u32 = 0;

/// The steps make no tree.
pub const NO_TREE: u32 = 1;

/// The text is no script source.
pub const NO_SCRIPT: u32 = 12;

/// What a call returns: its status, how many steps and how many bytes of messages there are, and how many bytes of the
/// text they are about.
///
/// Where the status is a fault's, the other numbers are 0.
#[repr(C)]
#[derive(Clone, Copy, Debug, PartialEq, Eq)]
pub struct RapAnswer {
    pub status: u32,
    pub steps: usize,
    pub message_bytes: usize,
    pub used: usize,
}

/// The result of a call that may have met a fault.
pub fn settle(outcome: Result<RapAnswer, Fault>) -> RapAnswer
    ensures { MatchResult outcome (λ answer. result ≡ answer) (λ fault. result ≡ refusal fault) }
{
    match outcome {
        Ok(answer) => answer,
        Err(fault) => RapAnswer {
            status: fault.number(),
            steps: 0,
            message_bytes: 0,
            used: 0,
        },
    }
}
