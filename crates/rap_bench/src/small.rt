//! Many small texts, as a macro expander and an analyser have them: each of 1 to 130 tokens, white space among them.

use crate::digest::{Digest, number};
use crate::edited::parse_again;
use crate::failure::Failure;
use crate::shapes::{Shape, Shapes};
use crate::texts::Maker;
use ra_ap_parser::{
    Edition, Input, LexedStr, Output, PrefixEntryPoint, Step, SyntaxKind, TopEntryPoint, parse_text,
};
use std::alloc::Global;

/// Adds the steps of an output.
pub fn add_output(digest: &mut Digest, output: &Output) {
    digest.count(output.iter().len());
    for step in output.iter() {
        match step {
            Step::Token {
                kind,
                n_input_tokens,
            } => digest.add(number(kind) ^ ((n_input_tokens as u64) << 10)),
            Step::FloatSplit { ends_in_dot } => digest.add((4 << 60) ^ ends_in_dot as u64),
            Step::Enter { kind } => digest.add(number(kind) ^ (1 << 60)),
            Step::Exit => digest.add(2 << 60),
            Step::Error { msg } => digest.add_bytes(msg.as_bytes()),
        }
    }
}

/// Adds the lexer's messages, each with the number of its token.
pub fn add_errors(digest: &mut Digest, lexed: &LexedStr<'_>) {
    for (token, message) in lexed.errors() {
        digest.add(token as u64);
        digest.add_bytes(message.as_bytes());
    }
}

/// Pushes the tokens of a text one by one, as a macro expander does, and parses them.
fn parse_pushed(
    alloc: Global,
    entry: TopEntryPoint,
    text: &str,
    digest: &mut Digest,
) -> Result<(), Failure> {
    let lexed = LexedStr::new(alloc, Edition::CURRENT, text)?;
    let mut input = Input::with_capacity(alloc, 0)?;
    for i in 0..lexed.len() {
        let kind = lexed.kind(i);
        if kind == SyntaxKind::IDENT {
            let contextual = SyntaxKind::from_contextual_keyword(lexed.text(i), Edition::CURRENT);
            let contextual = contextual.unwrap_or(SyntaxKind::IDENT);
            if contextual.is_token() {
                input.push_ident(contextual, Edition::CURRENT)?;
            }
        } else if kind.is_token() && !kind.is_trivia() && kind != SyntaxKind::EOF {
            input.push(kind, Edition::CURRENT)?;
        }
    }
    let output = entry.parse(alloc, &input)?;
    add_output(digest, &output);
    add_errors(digest, &lexed);
    Ok(())
}

/// Parses the front of a text.
fn parse_prefix(
    alloc: Global,
    entry: PrefixEntryPoint,
    text: &str,
    digest: &mut Digest,
) -> Result<(), Failure> {
    let lexed = LexedStr::new(alloc, Edition::CURRENT, text)?;
    let input = lexed.to_input(alloc, Edition::CURRENT)?;
    let output = entry.parse(alloc, &input)?;
    add_output(digest, &output);
    add_errors(digest, &lexed);
    Ok(())
}

/// Parses a text of a few tokens, and adds the steps of its tree and the lexer's messages.
fn parse_all(
    alloc: Global,
    entry: TopEntryPoint,
    text: &str,
    digest: &mut Digest,
) -> Result<(), Failure> {
    let parsed = parse_text(alloc, Edition::CURRENT, entry, text, digest)?;
    digest.add(parsed.whole as u64);
    add_errors(digest, &parsed.lexed);
    Ok(())
}

/// The list of shapes that a number stands for.
fn list_of<'s>(shapes: &'s Shapes<'s>, job: u64) -> &'s [Shape] {
    match job {
        0 | 8 => shapes.statements.as_slice(),
        1 | 9 => shapes.macro_items.as_slice(),
        2 | 10 | 11 | 18 | 19 => shapes.expressions.as_slice(),
        3 | 12 => shapes.types.as_slice(),
        4 | 13 => shapes.patterns.as_slice(),
        5 => shapes.metas.as_slice(),
        6 | 7 | 14 => shapes.blocks.as_slice(),
        15 => shapes.fields.as_slice(),
        16 => shapes.arms.as_slice(),
        17 => shapes.tokens.as_slice(),
        20 => shapes.uses.as_slice(),
        21 => shapes.assocs.as_slice(),
        _ => shapes.singles.as_slice(),
    }
}

/// Asks for the kind of a text that is one token, or is none.
fn ask_single(alloc: Global, text: &str, digest: &mut Digest) -> Result<(), Failure> {
    if let Some((kind, message)) = LexedStr::single_token(alloc, Edition::CURRENT, text)? {
        digest.add(number(kind));
        if let Some(message) = message {
            digest.add_bytes(message.as_str().as_bytes());
        }
    }
    Ok(())
}

/// Does what a number stands for with a text of its list.
fn do_one(alloc: Global, job: u64, text: &str, digest: &mut Digest) -> Result<(), Failure> {
    match job {
        0 | 14 => parse_all(alloc, TopEntryPoint::MacroStmts, text, digest),
        1 => parse_all(alloc, TopEntryPoint::MacroItems, text, digest),
        2 => parse_all(alloc, TopEntryPoint::Expr, text, digest),
        3 => parse_all(alloc, TopEntryPoint::Ty, text, digest),
        4 => parse_all(alloc, TopEntryPoint::Pattern, text, digest),
        5 => parse_all(alloc, TopEntryPoint::MetaItem, text, digest),
        8 => parse_pushed(alloc, TopEntryPoint::MacroStmts, text, digest),
        9 => parse_pushed(alloc, TopEntryPoint::MacroItems, text, digest),
        10 => parse_pushed(alloc, TopEntryPoint::Expr, text, digest),
        11 => parse_prefix(alloc, PrefixEntryPoint::Expr, text, digest),
        12 => parse_prefix(alloc, PrefixEntryPoint::Ty, text, digest),
        13 => parse_prefix(alloc, PrefixEntryPoint::PatTop, text, digest),
        18 => parse_prefix(alloc, PrefixEntryPoint::Stmt, text, digest),
        6 | 7 => parse_again(alloc, SyntaxKind::BLOCK_EXPR, text, digest),
        15 => parse_again(alloc, SyntaxKind::RECORD_FIELD_LIST, text, digest),
        16 => parse_again(alloc, SyntaxKind::MATCH_ARM_LIST, text, digest),
        17 => parse_again(alloc, SyntaxKind::TOKEN_TREE, text, digest),
        20 => parse_again(alloc, SyntaxKind::USE_TREE_LIST, text, digest),
        21 => parse_again(alloc, SyntaxKind::ASSOC_ITEM_LIST, text, digest),
        _ => ask_single(alloc, text, digest),
    }
}

/// Makes and parses so many texts.
pub fn run<'s>(
    alloc: Global,
    maker: &mut Maker<'s>,
    count: u64,
    digest: &mut Digest,
) -> Result<(), Failure> {
    let shapes: &'s Shapes<'s> = maker.shapes;
    let mut text = String::new(alloc);
    for _ in 0..count {
        text.clear();
        let job = maker.random.below(24);
        let shape = maker.pick(list_of(shapes, job));
        maker.push_shape(&mut text, shape)?;
        digest.add_text(text.len());
        do_one(alloc, job, text.as_str(), digest)?;
    }
    Ok(())
}
