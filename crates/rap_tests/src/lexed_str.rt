//! Queries on a text's tokens.
use rap_base::edition::Edition;
use rap_lexed::lexed_str::LexedStr;
use std::test::Fail;

#[test]
fn finds_first_messages(rt: HostRuntime) -> Result<(), Fail> {
    let text = "0x '' \"\\u{}\\q\" 1e+";
    let lexed = LexedStr::new(rt.alloc(), Edition::Edition2024, text)?;
    for (i, want) in [
        (0, Some("Missing digits after the integer base prefix")),
        (1, None),
        (2, Some("empty character literal")),
        (3, None),
        (4, Some("empty unicode escape")),
        (5, None),
        (6, Some("Missing digits after the exponent symbol")),
    ] {
        assert!(rt; i < lexed.len());
        assert_eq!(rt; lexed.error(i), want, "at {i}");
    }
    let mut errors = lexed.errors();
    assert_eq!(rt; errors.len(), 5);
    assert_eq!(rt; errors.nth(3), Some((4, "unknown character escape")));
    assert_eq!(rt; errors.len(), 1);
    Ok(())
}

#[test]
fn takes_the_empty_text(rt: HostRuntime) -> Result<(), Fail> {
    let lexed = LexedStr::new(rt.alloc(), Edition::Edition2015, "")?;
    assert!(rt; lexed.is_empty());
    assert_eq!(rt; lexed.as_str(), "");
    Ok(())
}
