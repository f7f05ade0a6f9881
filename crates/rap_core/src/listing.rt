//! What of a text is outside of the core grammar.
ghost use Rattle.std.specs.Prelude.{◌≡◌, ◌<◌, ◌+◌, ℕ, [], ◌∷◌, ◌++◌, All, IfOk, OnOk, if◌then◌else◌, length, map};
ghost use Rattle.rap_events.specs.Forest.{Forest};
ghost use Rattle.rap_lexed.specs.LexedStr.{AreInOrder, start_of, token_at};
ghost use Rattle.rap_lexed.specs.Trivia.{is_trivial};
ghost use Rattle.rap_core.specs.Listed.{HasMessage, IsNodePlace, IsReported, Lists, end_behind, number_after, numbers_read, numbers_reported, token_place};
ghost use Rattle.rap_core.specs.Nodes.{IsNode};

use crate::nodes::find_nodes;
use ra_ap_parser::{Input, LexedStr, NoMemory, Output, SyntaxKind};
use rap_grammar_rows::search::outside::{Outside, find_outside};
use std::alloc::Global;

/// A token or a node of a text, with its range in bytes.
#[derive(Clone, Copy, Debug, PartialEq, Eq)]
pub struct Place {
    pub kind: SyntaxKind,
    /// Where its first token begins.
    pub start: usize,
    /// Where its last token ends.
    pub end: usize,
}

/// What of a text is outside of the core grammar.
#[derive(Drop)]
pub struct Places {
    /// The tokens that the lexer has a message of, in the order of the text.
    pub tokens: Vec<Place>,
    /// Nodes of the tree, in the order of the text: those that the grammar does not derive and that have no such node in
    /// them. Where there is none, the whole file; where the tree is a derivation's, no node.
    pub nodes: Vec<Place>,
}

/// Adds a token that the lexer has a message of.
fn push_token(places: &mut Vec<Place>, lexed: &LexedStr<'_>, token: usize) -> Result<(), NoMemory>
    requires within { token < length lexed.now.tokens }
    requires message { HasMessage lexed.now token }
    requires places { All (IsReported lexed.now) places.old.items }
    ensures each { OnOk result (All (IsReported lexed.now) places.new.items) }
    ensures one { OnOk result (places.new.items ≡ places.old.items ++ token_place lexed.now.tokens token ∷ []) }
{
    let kind = lexed.kind(token);
    let range = lexed.text_range(token);
    places.push(Place {
        kind,
        start: range.start,
        end: range.end,
    })?;
    Ok(())
}

/// The tokens that the lexer has a message of, each once.
fn reported_tokens(alloc: Global, lexed: &LexedStr<'_>) -> Result<Vec<Place>, NoMemory>
    requires { AreInOrder (length lexed.now.tokens) lexed.now.errors }
    ensures each { IfOk result (λ places. All (IsReported lexed.now) places.items) }
    ensures all { IfOk result (λ places. places.items ≡ map (token_place lexed.now.tokens) (numbers_reported 0 lexed.now.errors)) }
{
    // For the proof: it fits its type.
    let _count = lexed.len();
    let mut places = Vec::new(alloc);
    let mut listed = 0;
    'errors: for (token, _) in lexed.errors() {
        if listed <= token {
            push_token(&mut places, lexed, token)?;
            listed = token + 1;
        }
    }
    Ok(places)
}

/// Adds the number of a token if the parser reads it.
fn push_read(numbers: &mut Vec<usize>, lexed: &LexedStr<'_>, token: usize) -> Result<(), NoMemory>
    requires { token < length lexed.now.tokens }
    ensures { OnOk result (numbers.new.items ≡ numbers.old.items ++ (if is_trivial (token_at lexed.now.tokens token) then [] else token ∷ [])) }
{
    if lexed.kind(token).is_trivia() {
        return Ok(());
    }
    numbers.push(token)?;
    Ok(())
}

/// The numbers of the tokens that the parser reads, in order.
fn read_tokens(alloc: Global, lexed: &LexedStr<'_>) -> Result<Vec<usize>, NoMemory>
    ensures { IfOk result (λ numbers. numbers.items ≡ numbers_read lexed.now.tokens (length lexed.now.tokens)) }
{
    let mut numbers = Vec::new(alloc);
    'tokens: for i in 0..lexed.len() {
        push_read(&mut numbers, lexed, i)?;
    }
    Ok(numbers)
}

/// The number of the token that the parser reads after so many others, by the numbers of all that it reads; where there
/// is none, how many tokens there are.
fn number_after(lexed: &LexedStr<'_>, numbers: &[usize], before: usize) -> usize
    requires { numbers.now ≡ numbers_read lexed.now.tokens (length lexed.now.tokens) }
    ensures { result ≡ number_after lexed.now.tokens before }
{
    if before < numbers.len() {
        numbers[before]
    } else {
        lexed.len()
    }
}

/// Where the token with a number begins; behind the last one the end of the text.
fn start_of(lexed: &LexedStr<'_>, number: usize) -> usize
    ensures { result ≡ start_of lexed.now.tokens number }
{
    lexed.text_start(number.min(lexed.len()))
}

/// Where the token with a number ends; behind the last one the end of the text.
fn end_of(lexed: &LexedStr<'_>, number: usize) -> usize
    ensures { result ≡ start_of lexed.now.tokens (number + 1) }
{
    if number < lexed.len() {
        lexed.text_range(number).end
    } else {
        lexed.text_start(lexed.len())
    }
}

/// Where the tokens from one to before another end, by the numbers of the tokens that the parser reads. Where there are
/// none they end where the next one begins.
fn node_end(lexed: &LexedStr<'_>, numbers: &[usize], first: usize, behind: usize) -> usize
    requires { numbers.now ≡ numbers_read lexed.now.tokens (length lexed.now.tokens) }
    ensures { (used : ℕ) → behind ≡ first + used → result ≡ end_behind lexed.now.tokens first used }
{
    if first < behind {
        end_of(lexed, number_after(lexed, numbers, behind - 1))
    } else {
        start_of(lexed, number_after(lexed, numbers, first))
    }
}

/// The place of a node, by the numbers of the tokens that the parser reads.
fn node_place(lexed: &LexedStr<'_>, numbers: &[usize], node: Outside) -> Place
    requires { numbers.now ≡ numbers_read lexed.now.tokens (length lexed.now.tokens) }
    ensures { (tree : Forest) → IsNode tree node → IsNodePlace lexed.now.tokens tree result }
{
    let start = start_of(lexed, number_after(lexed, numbers, node.start));
    let end = node_end(lexed, numbers, node.start, node.end);
    Place {
        kind: node.kind,
        start,
        end,
    }
}

/// The nodes that the core grammar does not derive, in the order of the text.
fn nodes_outside(
    alloc: Global,
    lexed: &LexedStr<'_>,
    input: &Input,
    output: &Output,
) -> Result<Vec<Place>, NoMemory>
    ensures { IfOk result (λ places. All (IsNodePlace lexed.now.tokens output.now) places.items) }
{
    let wanted = find_outside(alloc, input, output)?;
    let nodes = find_nodes(alloc, output, wanted)?;
    let numbers = read_tokens(alloc, lexed)?;
    let mut places = Vec::new(alloc);
    'nodes: for node in nodes.as_slice() {
        places.push(node_place(lexed, numbers.as_slice(), *node))?;
    }
    Ok(places)
}

/// Lists the tokens that the lexer has a message of, and with `nodes` the nodes that the core grammar does not derive.
pub fn list_outside(
    alloc: Global,
    lexed: &LexedStr<'_>,
    input: &Input,
    output: &Output,
    nodes: bool,
) -> Result<Places, NoMemory>
    requires { AreInOrder (length lexed.now.tokens) lexed.now.errors }
    ensures { IfOk result (Lists lexed.now output.now) }
{
    let tokens = reported_tokens(alloc, lexed)?;
    let nodes = if nodes {
        nodes_outside(alloc, lexed, input, output)?
    } else {
        Vec::new(alloc)
    };
    Ok(Places { tokens, nodes })
}
