//! Comments, from what follows their `//` or `/*`.
ghost use Rattle.std.specs.Prelude.{◌≡◌, ◌≢◌, ◌<◌, ◌^◌, ℕ, List, [], ◌∷◌, MatchBool, length};
ghost use Rattle.rap_lexer.specs.Comment.{line_kind, block_kind, IsLineComment, IsBlockComment, Ends};

use crate::lexer::cursor::Cursor;
use crate::lexer::lexeme::{Lexeme, Remark};
use crate::lexer::run::{Class, eat_text};
use rap_base::syntax_kind::SyntaxKind;

/// Takes a line comment up to the next line feed.
pub fn line_comment(cursor: &mut Cursor<'_>) -> Lexeme
    ensures { IsLineComment cursor.old result cursor.new }
{
    let kind = line_kind(cursor);
    eat_text(cursor, Class::InLine);
    Lexeme::plain(kind)
}

fn line_kind(cursor: &Cursor<'_>) -> SyntaxKind
    ensures { result ≡ line_kind cursor.now }
{
    if cursor.is_next('!') {
        SyntaxKind::INNER_DOC_COMMENT
    } else if cursor.is_next('/') && !cursor.ahead().is_next('/') {
        SyntaxKind::OUTER_DOC_COMMENT
    } else {
        SyntaxKind::COMMENT
    }
}

/// Takes a block comment up to and with the `*/` that ends it.
pub fn block_comment(cursor: &mut Cursor<'_>) -> Lexeme
    ensures { IsBlockComment cursor.old result cursor.new }
{
    let kind = block_kind(cursor);
    if eat_body(cursor) {
        Lexeme::plain(kind)
    } else {
        Lexeme {
            kind,
            remark: Remark::OpenComment,
        }
    }
}

fn block_kind(cursor: &Cursor<'_>) -> SyntaxKind
    ensures { result ≡ block_kind cursor.now }
{
    if cursor.is_next('!') {
        return SyntaxKind::INNER_DOC_COMMENT;
    }
    let ahead = cursor.ahead();
    if cursor.is_next('*') && !ahead.is_next('*') && !ahead.is_next('/') {
        SyntaxKind::OUTER_DOC_COMMENT
    } else {
        SyntaxKind::COMMENT
    }
}

/// Takes the body of a block comment and the `*/` that ends it. Returns whether that was there.
fn eat_body(cursor: &mut Cursor<'_>) -> bool
    ensures { MatchBool result (Ends cursor.old cursor.new) ((cursor.new ≡ []) × ((end : List ℕ) → ¬ Ends cursor.old end)) }
{
    // For the proof: it fits its type.
    let _len = cursor.len();
    let mut depth: u64 = 1;
    'body: loop {
        eat_text(cursor, Class::InBlock);
        if cursor.eat_pair('/', '*') {
            depth += 1;
        } else if cursor.eat_pair('*', '/') {
            depth -= 1;
            if depth == 0 {
                return true;
            }
        } else {
            match cursor.bump() {
                None => return false,
                Some(_) => {}
            }
        }
    }
}
