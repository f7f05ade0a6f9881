//! Derivations of the core grammar, and the elements of a tree.
use crate::places;
use rap_base::edition::Edition;
use rap_base::no_memory::NoMemory;
use rap_base::syntax_kind::SyntaxKind;
use rap_events::input::Input;
use rap_events::output::{Output, wrap_in_node};
use rap_events::parser::Parser;
use rap_grammar_rows::check::derives_file;
use rap_grammar_rows::fact::Claim;
use rap_grammar_rows::search::element::elements_of;
use rap_grammar_rows::search::find_derivation;
use rap_grammar_rows::search::outside::{Outside, find_outside};
use std::alloc::Global;

// The claims of a file with one module that has no body.
const MODULE: [Claim; 11] = [
    Claim::Row(places::END, 0, 0),
    Claim::LastTurn(places::INNER_ATTRIBUTE, 0),
    Claim::Row(places::END, 0, 0),
    Claim::LastTurn(places::ATTRIBUTE, 2),
    Claim::Row(places::VISIBILITY, 0, 0),
    Claim::Category(places::ITEMS, places::MODULE, 0, 3),
    Claim::Row(places::ITEM, 0, 3),
    Claim::Row(places::END, 3, 3),
    Claim::LastTurn(places::ITEM, 7),
    Claim::OneTurn(6, 8),
    Claim::Row(0, 0, 3),
];

// The choices of their walks.
const CHOICES: [usize; 9] = [1, 3, 4, 0, 5, 1, 1, 1, 9];

// A module without a body, before a token of this kind, and one more token where that is asked for.
fn module(alloc: Global, end: SyntaxKind, more: bool) -> Result<Input, NoMemory> {
    let mut input = Input::with_capacity(alloc, 4)?;
    input.push(SyntaxKind::MOD_KW, Edition::CURRENT)?;
    input.push_ident(SyntaxKind::IDENT, Edition::CURRENT)?;
    if end == SyntaxKind::SEMICOLON {
        input.push(SyntaxKind::SEMICOLON, Edition::CURRENT)?;
    } else {
        input.push(SyntaxKind::COMMA, Edition::CURRENT)?;
    }
    if more {
        input.push(SyntaxKind::SEMICOLON, Edition::CURRENT)?;
    }
    Ok(input)
}

// The claims are those of one text alone.
#[test]
fn claims_derive_their_tokens(rt: HostRuntime) -> Result<(), NoMemory> {
    let alloc = rt.alloc();
    let input = module(alloc, SyntaxKind::SEMICOLON, false)?;
    assert!(rt; derives_file(alloc, &input, &MODULE, &CHOICES)?);
    let comma = module(alloc, SyntaxKind::COMMA, false)?;
    assert!(rt; !derives_file(alloc, &comma, &MODULE, &CHOICES)?);
    let longer = module(alloc, SyntaxKind::SEMICOLON, true)?;
    assert!(rt; !derives_file(alloc, &longer, &MODULE, &CHOICES)?);
    Ok(())
}

#[test]
fn claims_rest_on_earlier_ones(rt: HostRuntime) -> Result<(), NoMemory> {
    let alloc = rt.alloc();
    let input = module(alloc, SyntaxKind::SEMICOLON, false)?;
    assert!(rt; !derives_file(alloc, &input, &MODULE[1..], &CHOICES)?);
    assert!(rt; !derives_file(alloc, &input, &MODULE[..10], &CHOICES)?);
    assert!(rt; !derives_file(alloc, &input, &MODULE, &[1, 3, 4, 1, 5, 1, 1, 1, 9])?);
    Ok(())
}

// A file without tokens.
fn empty_file(alloc: Global) -> Result<Output, NoMemory> {
    wrap_in_node(alloc, Output::default(), SyntaxKind::SOURCE_FILE)
}

// Whether there is one node, of this kind and with these tokens.
fn is_one(nodes: &[Outside], kind: SyntaxKind, start: usize, end: usize) -> bool {
    if nodes.len() != 1 {
        return false;
    }
    let node = nodes[0];
    node.kind == kind && node.start == start && node.end == end
}

// What is outside of a tree that is derived is its root: the row of a file is none of a category.
#[test]
fn an_empty_file_is_derived(rt: HostRuntime) -> Result<(), NoMemory> {
    let alloc = rt.alloc();
    let input = Input::with_capacity(alloc, 0)?;
    let output = empty_file(alloc)?;
    let found = find_derivation(alloc, &input, &output)?;
    let (claims, moves) = (found.claims.as_slice(), found.moves.as_slice());
    assert!(rt; derives_file(alloc, &input, claims, moves)?);
    let nodes = find_outside(alloc, &input, &output)?;
    assert!(rt; is_one(nodes.as_slice(), SyntaxKind::SOURCE_FILE, 0, 0));
    Ok(())
}

#[test]
fn a_tree_of_other_tokens_is_not(rt: HostRuntime) -> Result<(), NoMemory> {
    let alloc = rt.alloc();
    let mut input = Input::with_capacity(alloc, 1)?;
    input.push(SyntaxKind::COMMA, Edition::CURRENT)?;
    let output = empty_file(alloc)?;
    let found = find_derivation(alloc, &input, &output)?;
    let (claims, moves) = (found.claims.as_slice(), found.moves.as_slice());
    assert!(rt; !derives_file(alloc, &input, claims, moves)?);
    let nodes = find_outside(alloc, &input, &output)?;
    assert!(rt; is_one(nodes.as_slice(), SyntaxKind::SOURCE_FILE, 0, 0));
    Ok(())
}

// The output of a float that is the fields of two field accesses, one in the other.
fn split(alloc: Global) -> Result<Output, NoMemory> {
    let mut input = Input::with_capacity(alloc, 1)?;
    input.push_joint(SyntaxKind::FLOAT_NUMBER, Edition::CURRENT, true)?;
    let mut p = Parser::new(alloc, &input);
    let whole = p.start()?;
    let field = p.start()?;
    p.split_float(field)?;
    whole.complete(&mut p, SyntaxKind::SOURCE_FILE)?;
    p.process(alloc)
}

#[test]
fn a_float_that_is_split_ends_two_nodes(rt: HostRuntime) -> Result<(), NoMemory> {
    let output = split(rt.alloc())?;
    let tree = elements_of(rt.alloc(), &output)?;
    assert!(rt; tree.len() == 4);
    assert!(rt; tree.at(0).kind == SyntaxKind::SOURCE_FILE && tree.at(0).behind == 4);
    assert!(rt; tree.at(1).kind == SyntaxKind::FIELD_EXPR && tree.at(1).behind == 4);
    assert!(rt; tree.at(2).kind == SyntaxKind::FIELD_EXPR && tree.at(2).behind == 4);
    assert!(rt; tree.at(3).token == 0 && tree.at(4).token == 1);
    Ok(())
}
