//! Tests of kinds.
ghost use Rattle.std.specs.Prelude.{◌≡◌};
ghost use Rattle.rap_base.specs.Keyword.{is_any_identifier};
ghost use Rattle.rap_base.specs.TokenTests.{is_token, is_trivia, is_l_delimiter, is_r_delimiter, is_delimiter, is_literal};

use super::SyntaxKind;
use crate::edition::Edition;

impl SyntaxKind {
    /// Returns whether tokens can have this kind. `ERROR` is the kind of tokens and of nodes.
    pub fn is_token(self) -> bool
        ensures { result ≡ is_token self }
    {
        self <= SyntaxKind::SHEBANG
    }

    /// Returns whether this is trivia: white space or a comment that is no doc comment. The parser's input has none.
    pub fn is_trivia(self) -> bool
        ensures { result ≡ is_trivia self }
    {
        matches!(self, SyntaxKind::WHITESPACE | SyntaxKind::COMMENT)
    }

    /// Whether this is an identifier, or a keyword of the latest edition, contextual ones included.
    pub fn is_any_identifier(self) -> bool
        ensures { result ≡ is_any_identifier self }
    {
        self == SyntaxKind::IDENT || self.is_keyword(Edition::LATEST)
    }

    /// Whether this is an opening bracket: `(`, `{` or `[`.
    pub fn is_l_delimiter(self) -> bool
        ensures { result ≡ is_l_delimiter self }
    {
        matches!(
            self,
            SyntaxKind::L_PAREN | SyntaxKind::L_CURLY | SyntaxKind::L_BRACK
        )
    }

    /// Whether this is a closing bracket: `)`, `}` or `]`.
    pub fn is_r_delimiter(self) -> bool
        ensures { result ≡ is_r_delimiter self }
    {
        matches!(
            self,
            SyntaxKind::R_PAREN | SyntaxKind::R_CURLY | SyntaxKind::R_BRACK
        )
    }

    /// Whether this is an opening or a closing bracket.
    pub fn is_delimiter(self) -> bool
        ensures { result ≡ is_delimiter self }
    {
        self.is_l_delimiter() || self.is_r_delimiter()
    }

    /// Whether this is a number, a character or a string.
    pub fn is_literal(self) -> bool
        ensures { result ≡ is_literal self }
    {
        matches!(
            self,
            SyntaxKind::INT_NUMBER
                | SyntaxKind::FLOAT_NUMBER
                | SyntaxKind::CHAR
                | SyntaxKind::BYTE
                | SyntaxKind::STRING
                | SyntaxKind::BYTE_STRING
                | SyntaxKind::C_STRING
        )
    }
}
