//! Inputs of tokens that are pushed, and what is made of them.
ghost use Rattle.std.specs.Prelude.{◌≡◌, ◌⊎◌, ◌≤◌, ◌<◌, ◌++◌, [], ◌∷◌, IfErr, IfOk, OnErr, OnOk, length, IsTrue, IsFalse};
ghost use Rattle.rast_calls.specs.Made.{CanPush, ComesOfInput, ComesOfOutput, IsMade, pushed, record_of_token, touches};

use crate::asked::{Token, Tokens, Way};
use ra_ap_parser::{Edition, Input, LexFault, NoMemory, Output, ParseFault, SyntaxKind};
use std::alloc::{AllocError, Global};

/// Why nothing is printed.
#[derive(Clone, Copy, Debug, PartialEq, Eq)]
pub enum CallFault {
    /// The text is longer than the lexer takes.
    TextTooLong,
    /// There are more tokens than the parser takes.
    TooManyTokens,
    /// The node must begin with a `{`, and the input does not.
    NoBrace,
    /// The kind is not a token's, or it is the end's.
    NoToken,
    /// Out of memory: the allocator refused a request.
    NoMemory,
}

impl From<NoMemory> for CallFault {
    ghost use Rattle.rast_calls.specs.declared.pushed.CallFault.TheVariants.{NoMemory};

    ghost from_gives = { λ _ fault. fault ≡ NoMemory };

    fn from(_fault: NoMemory) -> CallFault {
        CallFault::NoMemory
    }
}

impl From<AllocError> for CallFault {
    ghost use Rattle.rast_calls.specs.declared.pushed.CallFault.TheVariants.{NoMemory};

    ghost from_gives = { λ _ fault. fault ≡ NoMemory };

    fn from(_fault: AllocError) -> CallFault {
        CallFault::NoMemory
    }
}

impl From<LexFault> for CallFault {
    ghost use Rattle.rap_lexed.specs.declared.lexed_str.LexFault.TheVariants as lex;
    ghost use Rattle.rast_calls.specs.declared.pushed.CallFault.TheVariants.{TextTooLong, NoMemory};

    ghost from_gives = { λ from fault. ((from ≡ lex.TextTooLong) × (fault ≡ TextTooLong)) ⊎ ((from ≡ lex.NoMemory) × (fault ≡ NoMemory)) };

    fn from(fault: LexFault) -> CallFault {
        match fault {
            LexFault::TextTooLong => CallFault::TextTooLong,
            LexFault::NoMemory => CallFault::NoMemory,
        }
    }
}

impl From<ParseFault> for CallFault {
    ghost use Rattle.ra_ap_parser.specs.declared.entry_point.ParseFault.TheVariants as parse;
    ghost use Rattle.rast_calls.specs.declared.pushed.CallFault.TheVariants.{TooManyTokens, NoMemory};

    ghost from_gives = { λ from fault. ((from ≡ parse.TooManyTokens) × (fault ≡ TooManyTokens)) ⊎ ((from ≡ parse.NoMemory) × (fault ≡ NoMemory)) };

    fn from(fault: ParseFault) -> CallFault {
        match fault {
            ParseFault::TooManyTokens => CallFault::TooManyTokens,
            ParseFault::NoMemory => CallFault::NoMemory,
        }
    }
}

/// Whether the token may be pushed: the end may not; an identifier that may be read as the end has no second reading.
fn may_be_pushed(token: Token) -> bool
    ensures can { IsTrue result → CanPush token }
    ensures cannot { IsFalse result → CanPush token → ⊥ }
{
    match token {
        Token::Kind(kind) => kind.is_token() && kind != SyntaxKind::EOF,
        Token::Ident(kind) => kind.is_token(),
    }
}

/// Whether the token at a place touches the one after it.
fn is_joint(every: usize, i: usize) -> bool
    ensures { result ≡ touches every i }
{
    if every == 0 { false } else { i % every == 0 }
}

/// Pushes a token. A refused push leaves the input as it was.
#[tactic(auto, using(crate::proofs::Pushing::last_joint, crate::proofs::Pushing::some_last))]
fn push_token(input: &mut Input, token: Token, joint: bool) -> Result<(), NoMemory>
    requires { CanPush token }
    ensures ok { OnOk result (input.new ≡ input.old ++ record_of_token token joint ∷ []) }
    ensures err { OnErr result (input.new ≡ input.old) }
{
    let edition = Edition::LATEST;
    match token {
        Token::Kind(kind) => input.push(kind, edition)?,
        Token::Ident(kind) => input.push_ident(kind, edition)?,
    }
    if joint {
        input.was_joint();
    }
    Ok(())
}

/// Pushes the tokens, and returns how many were pushed before a push was refused.
fn push_tokens(input: &mut Input, tokens: &Tokens) -> usize
    requires can { CanPush tokens.now.token }
    requires none { input.old ≡ [] }
    ensures few { result ≤ tokens.now.count }
    ensures pushed { input.new ≡ pushed tokens.now.token tokens.now.every result }
{
    'tokens: for i in 0..tokens.count {
        let joint = is_joint(tokens.every, i);
        if push_token(input, tokens.token, joint).is_err() {
            return i;
        }
    }
    tokens.count
}

/// An input, and how many of the tokens it has.
#[derive(Drop)]
pub struct Pushed {
    pub input: Input,
    pub count: usize,
}

/// An input of the tokens, up to the first whose push is refused. Its capacity is 0 at first.
pub fn input_of_first(alloc: Global, tokens: &Tokens) -> Result<Pushed, CallFault>
    ensures few { IfOk result (λ p. p.count ≤ tokens.now.count) }
    ensures pushed { IfOk result (λ p. p.input ≡ pushed tokens.now.token tokens.now.every p.count) }
    ensures fault { IfErr result (ComesOfInput tokens.now) }
{
    if !may_be_pushed(tokens.token) {
        return Err(CallFault::NoToken);
    }
    let mut input = Input::with_capacity(alloc, 0)?;
    let count = push_tokens(&mut input, tokens);
    Ok(Pushed { input, count })
}

/// An input of all the tokens.
pub fn input_of(alloc: Global, tokens: &Tokens) -> Result<Input, CallFault>
    ensures pushed { IfOk result (λ input. input ≡ pushed tokens.now.token tokens.now.every tokens.now.count) }
    ensures fault { IfErr result (ComesOfInput tokens.now) }
{
    let pushed = input_of_first(alloc, tokens)?;
    if pushed.count < tokens.count {
        return Err(CallFault::NoMemory);
    }
    Ok(pushed.input)
}

/// What is made of an input.
pub fn output_of(alloc: Global, way: Way, input: &Input) -> Result<Output, CallFault>
    ensures made { IfOk result (IsMade way input.now) }
    ensures fault { IfErr result (ComesOfOutput way input.now) }
{
    match way {
        Way::Top(entry) => Ok(entry.parse(alloc, input)?),
        Way::Prefix(entry) => Ok(entry.parse(alloc, input)?),
        Way::Node(reparser) => {
            if !reparser.can_parse(input) {
                return Err(CallFault::NoBrace);
            }
            Ok(reparser.parse(alloc, input)?)
        }
    }
}
