//! Inputs, parsers and outputs.
use rap_base::edition::Edition;
use rap_base::no_memory::NoMemory;
use rap_base::syntax_kind::SyntaxKind;
use rap_base::token_set::TokenSet;
use rap_events::input::Input;
use rap_events::output::{Output, Step, wrap_in_node};
use rap_events::parser::Parser;
use std::alloc::Global;
use std::test::Fail;

// The steps of an output in one line: a node as `KIND(..)`, a token by its kind and how many tokens it takes, a
// split float by whether it ends in a dot, a message in quotes.
fn line(alloc: Global, output: &Output) -> Result<String, NoMemory> {
    let mut text = String::new(alloc);
    for step in output.iter() {
        match step {
            Step::Token {
                kind,
                n_input_tokens,
            } => {
                text.push_str(kind.name())?;
                for _ in 1..n_input_tokens {
                    text.push_str("+")?;
                }
                text.push_str(" ")?;
            }
            Step::FloatSplit { ends_in_dot: true } => text.push_str("l. ) ")?,
            Step::FloatSplit { ends_in_dot: false } => text.push_str("l.r ) ) ")?,
            Step::Enter { kind } => {
                text.push_str(kind.name())?;
                text.push_str("( ")?;
            }
            Step::Exit => text.push_str(") ")?,
            Step::Error { msg } => {
                text.push_str("'")?;
                text.push_str(msg)?;
                text.push_str("' ")?;
            }
        }
    }
    Ok(text)
}

// The tokens of `a == b`, the first `=` touching the second.
fn comparison(alloc: Global) -> Result<Input, NoMemory> {
    let mut input = Input::with_capacity(alloc, 4)?;
    input.push_ident(SyntaxKind::IDENT, Edition::Edition2024)?;
    input.push(SyntaxKind::EQ, Edition::Edition2024)?;
    input.was_joint();
    input.push(SyntaxKind::EQ, Edition::Edition2024)?;
    input.push_ident(SyntaxKind::UNION_KW, Edition::Edition2018)?;
    Ok(input)
}

// A push makes room for 1,024 tokens; then there is none before the next push.
#[test]
fn pushes_while_there_is_room(rt: HostRuntime) -> Result<(), Fail> {
    let mut input = Input::with_capacity(rt.alloc(), 4)?;
    let has_room = input.push_joint_in_room(SyntaxKind::EQ, Edition::Edition2024, true);
    assert!(rt; !has_room && input.is_empty());
    input.push(SyntaxKind::EQ, Edition::Edition2024)?;
    let has_room = input.push_joint_in_room(SyntaxKind::EQ, Edition::Edition2024, true);
    assert!(rt; has_room && input.is_joint(1));
    for _ in 0..1024 {
        let _pushed = input.push_ident_in_room(SyntaxKind::IDENT, Edition::Edition2024);
    }
    assert_eq!(rt; input.len(), 1024);
    Ok(())
}

// The tokens of `<= a.1.;`, the last for the one before it.
fn push_comparison(input: &mut Input) -> usize {
    let kinds = [
        SyntaxKind::L_ANGLE,
        SyntaxKind::EQ,
        SyntaxKind::WHITESPACE,
        SyntaxKind::IDENT,
        SyntaxKind::DOT,
        SyntaxKind::FLOAT_NUMBER,
        SyntaxKind::SEMICOLON,
    ];
    input.push_kinds_in_room(&kinds, Edition::Edition2021)
}

#[test]
fn pushes_kinds_up_to_a_float_number(rt: HostRuntime) -> Result<(), Fail> {
    let mut input = Input::with_capacity(rt.alloc(), 4)?;
    let without_room = push_comparison(&mut input);
    assert!(rt; without_room == 0 && input.is_empty());
    input.push(SyntaxKind::COMMA, Edition::Edition2021)?;
    assert_eq!(rt; push_comparison(&mut input), 5);
    assert_eq!(rt; input.len(), 5);
    assert!(rt; input.kind(1) == SyntaxKind::L_ANGLE && input.is_joint(1));
    assert!(rt; input.kind(2) == SyntaxKind::EQ && !input.is_joint(2));
    assert!(rt; input.kind(3) == SyntaxKind::IDENT && !input.is_joint(3));
    assert!(rt; input.contextual_kind(3) == SyntaxKind::IDENT);
    assert!(rt; input.kind(4) == SyntaxKind::DOT && input.is_joint(4));
    assert!(rt; input.contextual_kind(4) == SyntaxKind::EOF);
    assert!(rt; input.edition(4) == Edition::Edition2021);
    Ok(())
}

// The first token of another edition makes the input keep the edition of each token, over a growth of its lists too.
// From then on kinds alone are not taken.
#[test]
fn keeps_editions_that_change(rt: HostRuntime) -> Result<(), Fail> {
    let mut input = Input::with_capacity(rt.alloc(), 4)?;
    input.push(SyntaxKind::COMMA, Edition::Edition2021)?;
    assert_eq!(rt; push_comparison(&mut input), 5);
    input.push_ident(SyntaxKind::UNION_KW, Edition::Edition2018)?;
    input.push(SyntaxKind::IDENT, Edition::Edition2021)?;
    assert_eq!(rt; push_comparison(&mut input), 0);
    let has_room = input.push_joint_in_room(SyntaxKind::EQ, Edition::Edition2021, true);
    assert!(rt; !has_room && input.len() == 7);
    for _ in 7..1030 {
        input.push_joint(SyntaxKind::EQ, Edition::Edition2015, true)?;
    }
    assert_eq!(rt; input.len(), 1030);
    for i in 0..1030 {
        assert_eq!(rt; input.edition(i) == Edition::Edition2021, i < 5 || i == 6);
        assert_eq!(rt; input.edition(i) == Edition::Edition2018, i == 5);
        assert_eq!(rt; input.edition(i) == Edition::Edition2015, i > 6);
        assert_eq!(rt;
            input.kind(i) == SyntaxKind::IDENT,
            i == 3 || i == 5 || i == 6
        );
        assert_eq!(rt; input.is_joint(i), i == 1 || i == 4 || i > 6);
    }
    assert!(rt; input.contextual_kind(3) == SyntaxKind::IDENT);
    assert!(rt; input.contextual_kind(5) == SyntaxKind::UNION_KW);
    assert!(rt; input.contextual_kind(6) == SyntaxKind::EOF);
    assert!(rt; input.contextual_kind(7) == SyntaxKind::EOF);
    Ok(())
}

// The tokens of `a,` nine times, the last for the one before it.
fn push_pairs(input: &mut Input) -> usize {
    let kinds = [
        SyntaxKind::IDENT,
        SyntaxKind::COMMA,
        SyntaxKind::IDENT,
        SyntaxKind::COMMA,
        SyntaxKind::IDENT,
        SyntaxKind::COMMA,
        SyntaxKind::IDENT,
        SyntaxKind::COMMA,
        SyntaxKind::IDENT,
        SyntaxKind::COMMA,
        SyntaxKind::IDENT,
        SyntaxKind::COMMA,
        SyntaxKind::IDENT,
        SyntaxKind::COMMA,
        SyntaxKind::IDENT,
        SyntaxKind::COMMA,
        SyntaxKind::IDENT,
        SyntaxKind::COMMA,
    ];
    input.push_kinds_in_room(&kinds, Edition::Edition2015)
}

// Kinds of another edition than that of the tokens so far are not taken. Those of the same one are: of 18 kinds 16, eight
// at a time, since the last two are no eight.
#[test]
fn pushes_kinds_of_one_edition(rt: HostRuntime) -> Result<(), Fail> {
    let mut input = Input::with_capacity(rt.alloc(), 4)?;
    input.push(SyntaxKind::COMMA, Edition::Edition2015)?;
    assert_eq!(rt; push_comparison(&mut input), 0);
    assert_eq!(rt; push_pairs(&mut input), 16);
    assert_eq!(rt; input.len(), 17);
    for i in 0..17 {
        let identifier = i % 2 == 1;
        assert_eq!(rt; input.kind(i) == SyntaxKind::IDENT, identifier);
        assert_eq!(rt; input.contextual_kind(i) == SyntaxKind::IDENT, identifier);
        assert!(rt; input.edition(i) == Edition::Edition2015 && !input.is_joint(i));
    }
    Ok(())
}

#[test]
fn reads_tokens_back(rt: HostRuntime) -> Result<(), Fail> {
    let input = comparison(rt.alloc())?;
    assert_eq!(rt; input.len(), 4);
    assert!(rt; input.kind(1) == SyntaxKind::EQ && input.is_joint(1) && !input.is_joint(2));
    assert!(rt; input.contextual_kind(3) == SyntaxKind::UNION_KW);
    assert!(rt; input.edition(3) == Edition::Edition2018);
    assert!(rt; input.kind(4) == SyntaxKind::EOF);
    assert_eq!(rt; Output::default().iter().len(), 0);
    Ok(())
}

#[test]
fn keeps_joints_over_words(rt: HostRuntime) -> Result<(), Fail> {
    let mut input = Input::with_capacity(rt.alloc(), 3)?;
    for i in 0..66 {
        input.push(SyntaxKind::DOT, Edition::Edition2021)?;
        if i % 3 == 2 || i == 64 {
            input.was_joint();
        }
    }
    for i in 66..130 {
        input.push_joint(SyntaxKind::EQ, Edition::Edition2024, i % 3 == 2)?;
    }
    assert_eq!(rt; input.len(), 130);
    for i in 0..130 {
        assert_eq!(rt; input.is_joint(i), i % 3 == 2 || i == 64);
        let first = i < 66;
        assert_eq!(rt; input.kind(i) == SyntaxKind::DOT, first);
        assert_eq!(rt; input.edition(i) == Edition::Edition2021, first);
        assert!(rt; input.contextual_kind(i) == SyntaxKind::EOF);
    }
    assert!(rt; !input.is_joint(130) && !input.is_joint(192));
    assert!(rt; input.kind(130) == SyntaxKind::EOF);
    assert!(rt; input.edition(130) == Edition::Edition2024);
    Ok(())
}

#[test]
fn precedes_a_node(rt: HostRuntime) -> Result<(), Fail> {
    let input = comparison(rt.alloc())?;
    let mut p = Parser::new(rt.alloc(), &input);
    let m = p.start()?;
    p.expect(SyntaxKind::IDENT)?;
    let name = m.complete(&mut p, SyntaxKind::NAME_REF)?;
    let outer = name.precede(&mut p)?;
    p.expect(SyntaxKind::EQ2)?;
    p.expect(SyntaxKind::COMMA)?;
    outer.complete(&mut p, SyntaxKind::RANGE_EXPR)?;
    let output = p.process(rt.alloc())?;
    let text = line(rt.alloc(), &output)?;
    assert_eq!(rt;
        text.as_str(),
        "RANGE_EXPR( NAME_REF( IDENT ) EQ2+ 'expected COMMA' ) "
    );
    let steps = output.iter();
    assert!(rt; steps.elements() == 4 && steps.leaves() == 2);
    Ok(())
}

#[test]
fn extends_and_abandons(rt: HostRuntime) -> Result<(), Fail> {
    let input = comparison(rt.alloc())?;
    let mut p = Parser::new(rt.alloc(), &input);
    let older = p.start()?;
    p.eat(SyntaxKind::IDENT)?;
    let dropped = p.start()?;
    p.error("m")?;
    dropped.abandon(&mut p)?;
    let m = p.start()?;
    p.eat(SyntaxKind::EQ)?;
    let node = m.complete(&mut p, SyntaxKind::ERROR)?;
    node.extend_to(&mut p, older)?;
    let output = p.process(rt.alloc())?;
    let whole = wrap_in_node(rt.alloc(), output, SyntaxKind::SOURCE_FILE)?;
    let text = line(rt.alloc(), &whole)?;
    assert_eq!(rt; text.as_str(), "SOURCE_FILE( ERROR( IDENT 'm' EQ ) ) ");
    Ok(())
}

#[test]
fn recovers(rt: HostRuntime) -> Result<(), Fail> {
    let input = comparison(rt.alloc())?;
    let mut p = Parser::new(rt.alloc(), &input);
    p.err_recover("a", TokenSet::new(&[SyntaxKind::EQ]))?;
    p.err_recover("b", TokenSet::new(&[SyntaxKind::EQ]))?;
    p.err_and_bump("c")?;
    p.err_and_bump("d")?;
    p.eat_contextual_kw(SyntaxKind::UNION_KW)?;
    p.err_and_bump("e")?;
    let output = p.process(rt.alloc())?;
    let text = line(rt.alloc(), &output)?;
    assert_eq!(rt;
        text.as_str(),
        "ERROR( 'a' IDENT ) 'b' ERROR( 'c' EQ ) ERROR( 'd' EQ ) UNION_KW ERROR( 'e' ) "
    );
    Ok(())
}
