//! Laws of kinds that no single function states, and the keywords of some texts.
ghost use Rattle.std.specs.Prelude.{◌≡◌, ◌==◌, IfSome, nat_lt};
ghost use Rattle.std.specs.Ordering.{nat_cmp};
ghost use Rattle.rap_base.specs.Keyword.{keyword_name};
ghost use Rattle.rap_base.specs.Names.{name_of};

use rap_base::edition::Edition;
use rap_base::syntax_kind::SyntaxKind;
use std::cmp::Ordering;

// The kind with a kind's number is that kind.
fn there_and_back(kind: SyntaxKind) -> SyntaxKind
    ensures { result ≡ kind }
{
    SyntaxKind::from_u16(u16::from(kind))
}

// Kinds are compared as their numbers are.
fn order(left: SyntaxKind, right: SyntaxKind) -> Ordering
    ensures { result ≡ nat_cmp left right }
{
    left.cmp(&right)
}

fn is_before(left: SyntaxKind, right: SyntaxKind) -> bool
    ensures { result ≡ nat_lt left right }
{
    left < right
}

fn is_same(left: SyntaxKind, right: SyntaxKind) -> bool
    ensures { result ≡ (left == right) }
{
    left == right
}

// A keyword's kind is named by its word.
fn keyword_kind(text: &str, edition: Edition) -> Option<SyntaxKind>
    ensures { IfSome result (λ kind. name_of kind ≡ keyword_name text.now) }
{
    SyntaxKind::from_keyword(text, edition)
}

fn contextual_kind(text: &str, edition: Edition) -> Option<SyntaxKind>
    ensures { IfSome result (λ kind. name_of kind ≡ keyword_name text.now) }
{
    SyntaxKind::from_contextual_keyword(text, edition)
}

#[test]
fn goes_to_numbers_and_back(rt: HostRuntime) {
    assert_eq!(rt;
        there_and_back(SyntaxKind::PATH_META),
        SyntaxKind::PATH_META
    );
    assert_eq!(rt; u16::from(SyntaxKind::SHEBANG), 156);
    assert_eq!(rt; order(SyntaxKind::EOF, SyntaxKind::SHEBANG), Ordering::Less);
    assert!(rt; is_before(SyntaxKind::SHEBANG, SyntaxKind::TOMBSTONE));
    assert!(rt; !is_same(SyntaxKind::STRING, SyntaxKind::BYTE_STRING));
    assert_eq!(rt; SyntaxKind::SELF_TYPE_KW.name(), "SELF_TYPE_KW");
}

#[test]
fn knows_the_keywords_of_each_edition(rt: HostRuntime) {
    for (text, first) in [
        ("as", Edition::Edition2015),
        ("continue", Edition::Edition2015),
        ("abstract", Edition::Edition2015),
        ("async", Edition::Edition2018),
        ("try", Edition::Edition2018),
        ("gen", Edition::Edition2024),
    ] {
        for edition in [
            Edition::Edition2015,
            Edition::Edition2018,
            Edition::Edition2021,
            Edition::Edition2024,
        ] {
            assert_eq!(rt;
                keyword_kind(text, edition).is_some(),
                first <= edition,
                "{text}"
            );
        }
    }
    for text in ["", "a", "As", "safe", "union", "continues", "_"] {
        assert_eq!(rt; keyword_kind(text, Edition::LATEST), None);
    }
}

#[test]
fn knows_the_contextual_keywords(rt: HostRuntime) {
    assert_eq!(rt;
        contextual_kind("dyn", Edition::Edition2015),
        Some(SyntaxKind::DYN_KW)
    );
    assert_eq!(rt; contextual_kind("dyn", Edition::Edition2018), None);
    assert_eq!(rt;
        contextual_kind("union", Edition::Edition2021),
        Some(SyntaxKind::UNION_KW)
    );
    assert_eq!(rt;
        contextual_kind("preserves_flags", Edition::Edition2024),
        Some(SyntaxKind::PRESERVES_FLAGS_KW)
    );
    assert_eq!(rt; contextual_kind("fn", Edition::Edition2024), None);
    assert!(rt; SyntaxKind::UNION_KW.is_keyword(Edition::Edition2015));
    assert!(rt; SyntaxKind::DYN_KW.is_keyword(Edition::Edition2015));
    assert!(rt; !SyntaxKind::GEN_KW.is_keyword(Edition::Edition2021));
    assert!(rt;
        SyntaxKind::GEN_KW.is_any_identifier() && !SyntaxKind::UNDERSCORE.is_any_identifier()
    );
}
