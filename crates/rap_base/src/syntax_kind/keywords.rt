//! Keywords by their texts.
ghost use Rattle.std.specs.Prelude.{◌≡◌, ◌==◌, ◌&&◌, nat_le, unwrap_or};
ghost use Rattle.rap_base.specs.Keyword.{from_keyword, from_contextual_keyword, is_keyword};
ghost use Rattle.rap_base.specs.TokenKind.{IDENT};
ghost use Rattle.rap_base.specs.Word.{is_contextual_kind, is_ever_contextual, last_reserved};

use super::SyntaxKind;
use super::words::known_word;
use crate::edition::Edition;

impl SyntaxKind {
    /// Returns the kind of the word `text` if the edition reserves it (the Rust Reference, "Keywords").
    pub fn from_keyword(text: &str, edition: Edition) -> Option<SyntaxKind>
        ensures { result ≡ from_keyword text.now edition }
    {
        match known_word(text) {
            Some(kind) => {
                if kind.is_reserved(edition) {
                    Some(kind)
                } else {
                    None
                }
            }
            None => None,
        }
    }

    /// Returns the kind of the word `text` if it is a contextual keyword: a keyword only where the grammar expects
    /// it. In the edition 2015 `dyn` is one too.
    pub fn from_contextual_keyword(text: &str, edition: Edition) -> Option<SyntaxKind>
        ensures { result ≡ from_contextual_keyword text.now edition }
    {
        match known_word(text) {
            Some(kind) => {
                if kind.is_contextual(edition) {
                    Some(kind)
                } else {
                    None
                }
            }
            None => None,
        }
    }

    /// Returns the kind of the word `text`: what the edition reserves has its own, any other word is an identifier. The
    /// second part is whether it is an identifier that is a contextual keyword of some edition.
    #[inline(always)]
    pub fn of_word(text: &str, edition: Edition) -> (SyntaxKind, bool)
        ensures kind { result.0 ≡ unwrap_or (from_keyword text.now edition) IDENT }
        ensures contextual { result.1 ≡ ((result.0 == IDENT) && is_ever_contextual text.now) }
    {
        match known_word(text) {
            None => (SyntaxKind::IDENT, false),
            Some(kind) => {
                if kind.is_reserved(edition) {
                    (kind, false)
                } else {
                    (SyntaxKind::IDENT, kind.is_contextual(Edition::Edition2015))
                }
            }
        }
    }

    /// Whether the edition reserves the known word with this kind.
    #[inline(always)]
    fn is_reserved(self, edition: Edition) -> bool
        ensures { result ≡ nat_le self (last_reserved edition) }
    {
        match edition {
            Edition::Edition2015 => self <= SyntaxKind::YIELD_KW,
            Edition::Edition2018 | Edition::Edition2021 => self <= SyntaxKind::TRY_KW,
            Edition::Edition2024 => self <= SyntaxKind::GEN_KW,
        }
    }

    /// Whether the known word with this kind is a contextual keyword of the edition.
    fn is_contextual(self, edition: Edition) -> bool
        ensures { result ≡ is_contextual_kind edition self }
    {
        match edition {
            Edition::Edition2015 => SyntaxKind::ASM_KW <= self || self == SyntaxKind::DYN_KW,
            _ => SyntaxKind::ASM_KW <= self,
        }
    }

    /// Returns whether this is the kind of a keyword of the edition, contextual keywords included.
    pub fn is_keyword(self, edition: Edition) -> bool
        ensures { result ≡ is_keyword self edition }
    {
        match self {
            SyntaxKind::ASYNC_KW | SyntaxKind::AWAIT_KW | SyntaxKind::TRY_KW => {
                edition.at_least_2018()
            }
            SyntaxKind::GEN_KW => edition.at_least_2024(),
            _ => SyntaxKind::AS_KW <= self && self <= SyntaxKind::YEET_KW,
        }
    }
}
