//! Runs of characters of one class.
ghost use Rattle.std.specs.Prelude.{◌≡◌, ◌<◌, ◌≤◌, ℕ, false, length};
ghost use Rattle.rap_lexer.specs.Class.{is_hex_digit, is_in, is_ascii_in};
ghost use Rattle.rap_lexer.specs.Run.{next_in, run_of, after_run, after_suffix};
ghost use Rattle.rap_lexer.specs.declared.lexer.run.Class.TheVariants.{IdentContinue, HexOrUnderscore};

use crate::lexer::cursor::Cursor;
use crate::lexer::lanes::{white_run, word_run};
use memchr::{memchr, memchr2};
use rap_base::whitespace::is_rust_whitespace;

/// A class of characters that the lexical rules name.
#[derive(Clone, Copy)]
pub enum Class {
    /// Rust's white space.
    White,
    /// All but the line feed.
    InLine,
    /// All but the double quote and the backslash.
    InString,
    /// All but the double quote.
    InRawString,
    /// All but `/` and `*`.
    InBlock,
    /// The first character of an identifier: `_` or XID_Start.
    IdentStart,
    /// A later character of an identifier: XID_Continue.
    IdentContinue,
    /// The property Emoji past ASCII.
    Emoji,
    /// A later character of an identifier with an emoji in it: XID_Continue, emoji, and the joiner U+200D.
    InvalidContinue,
    /// The digits 0 to 9.
    Digit,
    /// `_`.
    Underscore,
    /// The digits 0 to 9 and `_`.
    DigitOrUnderscore,
    /// The hexadecimal digits and `_`.
    HexOrUnderscore,
    /// `#`.
    Hash,
}

/// Whether the character is in the class.
#[inline(always)]
pub fn is_in(class: Class, c: char) -> bool
    ensures { result ≡ is_in class c }
{
    if c.is_ascii() {
        is_ascii_in(class, c as u8)
    } else {
        is_any_in(class, c)
    }
}

/// Whether the character is in the class, ASCII or not.
#[inline(always)]
fn is_any_in(class: Class, c: char) -> bool
    ensures { result ≡ is_in class c }
{
    match class {
        Class::White => is_rust_whitespace(c),
        Class::InLine => c != '\n',
        Class::InString => c != '"' && c != '\\',
        Class::InRawString => c != '"',
        Class::InBlock => c != '/' && c != '*',
        Class::IdentStart => c == '_' || unicode_ident::is_xid_start(c),
        Class::IdentContinue => unicode_ident::is_xid_continue(c),
        Class::Emoji => !c.is_ascii() && unicode::properties::is_emoji(c),
        Class::InvalidContinue => {
            unicode_ident::is_xid_continue(c)
                || !c.is_ascii() && unicode::properties::is_emoji(c)
                || c == '\u{200d}'
        }
        Class::Digit => c.is_ascii_digit(),
        Class::Underscore => c == '_',
        Class::DigitOrUnderscore => c == '_' || c.is_ascii_digit(),
        Class::HexOrUnderscore => c == '_' || is_hex_digit(c),
        Class::Hash => c == '#',
    }
}

fn is_hex_digit(c: char) -> bool
    ensures { result ≡ is_hex_digit c }
{
    c.is_ascii_digit() || 'a' <= c && c <= 'f' || 'A' <= c && c <= 'F'
}

/// Whether a character of the class stands next.
pub fn is_next_in(cursor: &Cursor<'_>, class: Class) -> bool
    ensures { result ≡ next_in class cursor.now }
{
    match cursor.first() {
        Some(c) => is_in(class, c),
        None => false,
    }
}

/// Whether the byte is an ASCII character of the class.
#[inline(always)]
pub fn is_ascii_in(class: Class, b: u8) -> bool
    ensures { result ≡ is_ascii_in class b }
{
    match class {
        Class::White => matches!(b, 9..=13 | b' '),
        Class::InLine => b < 0x80 && b != b'\n',
        Class::InString => b < 0x80 && b != b'"' && b != b'\\',
        Class::InRawString => b < 0x80 && b != b'"',
        Class::InBlock => b < 0x80 && b != b'/' && b != b'*',
        Class::IdentStart => (b == b'_') | b.is_ascii_alphabetic(),
        Class::IdentContinue => (b == b'_') | b.is_ascii_alphanumeric(),
        Class::InvalidContinue => (b == b'_') | b.is_ascii_alphanumeric(),
        Class::Emoji => false,
        Class::Digit => b.is_ascii_digit(),
        Class::Underscore => b == b'_',
        Class::DigitOrUnderscore => (b == b'_') | b.is_ascii_digit(),
        Class::HexOrUnderscore => is_hexadecimal(b),
        Class::Hash => b == b'#',
    }
}

/// Whether the byte is a hexadecimal digit or `_`.
///
/// A look-up takes no jump, where to compare the byte with three ranges takes some: of digits in no order processors
/// guess many of them wrong.
#[inline(always)]
fn is_hexadecimal(b: u8) -> bool
    ensures { result ≡ is_ascii_in HexOrUnderscore b }
{
    HEXADECIMAL[usize::from(b)] == 1
}

#[rattlefmt::skip]
static HEXADECIMAL: [u8; 256] = [
    0, 0, 0, 0, 0, 0, 0, 0, 0, 0, 0, 0, 0, 0, 0, 0, // 0x00
    0, 0, 0, 0, 0, 0, 0, 0, 0, 0, 0, 0, 0, 0, 0, 0, // 0x10
    0, 0, 0, 0, 0, 0, 0, 0, 0, 0, 0, 0, 0, 0, 0, 0, // 0x20
    1, 1, 1, 1, 1, 1, 1, 1, 1, 1, 0, 0, 0, 0, 0, 0, // 0x30
    0, 1, 1, 1, 1, 1, 1, 0, 0, 0, 0, 0, 0, 0, 0, 0, // 0x40
    0, 0, 0, 0, 0, 0, 0, 0, 0, 0, 0, 0, 0, 0, 0, 1, // 0x50
    0, 1, 1, 1, 1, 1, 1, 0, 0, 0, 0, 0, 0, 0, 0, 0, // 0x60
    0, 0, 0, 0, 0, 0, 0, 0, 0, 0, 0, 0, 0, 0, 0, 0, // 0x70
    0, 0, 0, 0, 0, 0, 0, 0, 0, 0, 0, 0, 0, 0, 0, 0, // 0x80
    0, 0, 0, 0, 0, 0, 0, 0, 0, 0, 0, 0, 0, 0, 0, 0, // 0x90
    0, 0, 0, 0, 0, 0, 0, 0, 0, 0, 0, 0, 0, 0, 0, 0, // 0xa0
    0, 0, 0, 0, 0, 0, 0, 0, 0, 0, 0, 0, 0, 0, 0, 0, // 0xb0
    0, 0, 0, 0, 0, 0, 0, 0, 0, 0, 0, 0, 0, 0, 0, 0, // 0xc0
    0, 0, 0, 0, 0, 0, 0, 0, 0, 0, 0, 0, 0, 0, 0, 0, // 0xd0
    0, 0, 0, 0, 0, 0, 0, 0, 0, 0, 0, 0, 0, 0, 0, 0, // 0xe0
    0, 0, 0, 0, 0, 0, 0, 0, 0, 0, 0, 0, 0, 0, 0, 0, // 0xf0
];

/// How many ASCII characters of the class stand first.
#[inline(always)]
fn ascii_run(bytes: &[u8], class: Class) -> usize
    ensures { result ≡ length (run_of (is_ascii_in class) bytes.now) }
{
    match class {
        Class::White => white_run(bytes),
        Class::IdentContinue => word_run(bytes),
        _ => byte_run(bytes, class),
    }
}

/// How many ASCII characters of the class stand first.
pub fn byte_run(bytes: &[u8], class: Class) -> usize
    ensures run { result ≡ length (run_of (is_ascii_in class) bytes.now) }
    ensures within { result ≤ length bytes.now }
{
    let mut n = 0usize;
    'run: while n < bytes.len() && is_ascii_in(class, bytes[n]) {
        n += 1;
    }
    n
}

/// Takes the characters of the class that stand next.
#[inline(always)]
pub fn eat_run(cursor: &mut Cursor<'_>, class: Class)
    ensures { cursor.new ≡ after_run (is_in class) cursor.old }
{
    let bytes = cursor.as_str().as_bytes();
    let n = ascii_run(bytes, class);
    cursor.advance(n);
    if n < bytes.len() && bytes[n] >= 0x80 {
        eat_any(cursor, class);
    }
}

/// How many bytes of the class stand first.
#[inline(always)]
fn text_run(bytes: &[u8], class: Class) -> usize
    ensures { result ≡ length (run_of (is_in class) bytes.now) }
{
    match class {
        Class::InLine => memchr(b'\n', bytes).unwrap_or(bytes.len()),
        Class::InString => memchr2(b'"', b'\\', bytes).unwrap_or(bytes.len()),
        Class::InRawString => memchr(b'"', bytes).unwrap_or(bytes.len()),
        Class::InBlock => memchr2(b'/', b'*', bytes).unwrap_or(bytes.len()),
        _ => any_run(bytes, class),
    }
}

/// How many bytes of the class stand first.
pub fn any_run(bytes: &[u8], class: Class) -> usize
    ensures run { result ≡ length (run_of (is_in class) bytes.now) }
    ensures within { result ≤ length bytes.now }
{
    let mut n = 0usize;
    'run: while n < bytes.len() && is_in(class, bytes[n] as char) {
        n += 1;
    }
    n
}

/// Takes the characters of the class that stand next, where all but some ASCII characters are in it.
#[inline(always)]
pub fn eat_text(cursor: &mut Cursor<'_>, class: Class)
    requires { (c : ℕ) → is_in class c ≡ false → c < 128 }
    ensures { cursor.new ≡ after_run (is_in class) cursor.old }
{
    let n = text_run(cursor.as_str().as_bytes(), class);
    cursor.advance(n);
}

/// Takes the characters of the class that stand next, one by one.
#[inline(always)]
fn eat_any(cursor: &mut Cursor<'_>, class: Class)
    ensures { cursor.new ≡ after_run (is_in class) cursor.old }
{
    match class {
        Class::IdentContinue => eat_continues(cursor),
        _ => eat_each(cursor, class),
    }
}

/// Takes the later characters of an identifier that stand next, one by one. The class is known: each is looked up at
/// once in the table.
#[inline(never)]
fn eat_continues(cursor: &mut Cursor<'_>)
    ensures { cursor.new ≡ after_run (is_in IdentContinue) cursor.old }
{
    'run: while let Some(c) = cursor.first() {
        if !unicode_ident::is_xid_continue(c) {
            break;
        }
        let _ = cursor.bump();
    }
}

/// Takes the characters of any class that stand next, one by one.
#[inline(never)]
fn eat_each(cursor: &mut Cursor<'_>, class: Class)
    ensures { cursor.new ≡ after_run (is_in class) cursor.old }
{
    'run: while let Some(c) = cursor.first() {
        if !is_in(class, c) {
            break;
        }
        let _ = cursor.bump();
    }
}

/// Takes the identifier that stands next, if there is one.
pub fn eat_suffix(cursor: &mut Cursor<'_>)
    ensures { cursor.new ≡ after_suffix cursor.old }
{
    if is_next_in(cursor, Class::IdentStart) {
        cursor.skip();
        eat_run(cursor, Class::IdentContinue);
    }
}
