//! Common tokens: characters that are tokens of their own, white space, and words.
ghost use Rattle.std.specs.Prelude.{◌≡◌, ◌≢◌, ◌<◌, ◌==◌, ◌||◌, if◌then◌else◌, IfSome, MatchOption, nat_lt, false, true, length, chars, drop, get_or, slice_range, IsCharBoundary};
ghost use Rattle.rap_base.specs.TokenKind.{STRING};
ghost use Rattle.rap_base.specs.TokenTests.{IsTokenKind};
ghost use Rattle.rap_lexer.specs.Class.{is_ascii_in};
ghost use Rattle.rap_lexer.specs.Common.{is_contextual, is_lone, begins_white, ends_no_word, is_uncommon, IsCommon};
ghost use Rattle.rap_lexer.specs.First.{First, single_kind};
ghost use Rattle.rap_lexer.specs.Lexeme.{plain};
ghost use Rattle.rap_lexer.specs.Run.{run_of};
ghost use Rattle.rap_base.specs.declared.edition.Edition.{Edition};
ghost use Rattle.rap_lexer.specs.declared.lexer.run.Class.TheVariants.{White, IdentStart, IdentContinue};

use crate::lexer::lanes::{white_run, word_run};
use crate::lexer::run::{Class, is_ascii_in};
use crate::lexer::word::common_word;
use rap_base::edition::Edition;
use rap_base::syntax_kind::SyntaxKind;

/// A common token, about which there is nothing to report.
#[derive(Clone, Copy)]
pub struct CommonToken {
    pub kind: SyntaxKind,
    /// Its length in bytes.
    pub len: usize,
    /// Whether it is an identifier that is a contextual keyword of some edition.
    pub is_contextual: bool,
}

/// Returns the first token of `text`, which must not be empty, if it is a common one, and otherwise `None`:
/// [`first_token`](crate::lexer::first_token) takes any.
///
/// Common are a character that is a token of its own whatever follows it; white space in ASCII, unless a byte follows
/// it with which white space past ASCII begins; and a word in ASCII, unless a quote, a `#` or a character past ASCII
/// follows it. There is nothing to report about any of them.
#[inline(always)]
pub fn common_token(edition: Edition, text: &str) -> Option<CommonToken>
    requires { 0 < length text.now }
    ensures token { IfSome result (λ r. First edition (chars text.now) (plain r.kind) (chars (drop r.len text.now))) }
    ensures kind { IfSome result (λ r. IsTokenKind r.kind) }
    ensures no_string { IfSome result (λ r. r.kind ≢ STRING) }
    ensures positive { IfSome result (λ r. 0 < r.len) }
    ensures border { IfSome result (λ r. IsCharBoundary text.now r.len) }
    ensures common { MatchOption result (is_uncommon text.now ≡ true) (λ _. is_uncommon text.now ≡ false) }
    ensures contextual { IfSome result (λ r. r.is_contextual ≡ is_contextual r.kind (slice_range text.now 0 r.len)) }
{
    match byte_token(text) {
        Some(token) => Some(token),
        None => token_of_class(edition, text),
    }
}

/// The first byte, if it is a common token and the byte after it tells so: a character that is a token of its own, or
/// white space that does not go on.
///
/// Both are one case, which seldom changes to another from token to token: processors guess it better than whether a
/// token is white space.
#[inline(always)]
fn byte_token(text: &str) -> Option<CommonToken>
    ensures token { IfSome result (λ r. (edition : Edition) → IsCommon edition text.now r.kind r.len) }
    ensures contextual { IfSome result (λ r. r.is_contextual ≡ is_contextual r.kind (slice_range text.now 0 r.len)) }
{
    let bytes = text.as_bytes();
    if bytes.len() < 2 {
        return None;
    }
    let class = class_of(bytes[0]);
    if class > last_alone(bytes[1]) {
        return None;
    }
    Some(CommonToken {
        kind: SyntaxKind::from_u16(u16::from(class)),
        len: 1,
        is_contextual: false,
    })
}

/// The common token that the text begins with, by the class of its first byte.
///
/// Words and white space come first: a character alone is left to it only as the last byte.
#[inline(always)]
fn token_of_class(edition: Edition, text: &str) -> Option<CommonToken>
    requires { 0 < length text.now }
    ensures token { IfSome result (λ r. First edition (chars text.now) (plain r.kind) (chars (drop r.len text.now))) }
    ensures kind { IfSome result (λ r. IsTokenKind r.kind) }
    ensures no_string { IfSome result (λ r. r.kind ≢ STRING) }
    ensures positive { IfSome result (λ r. 0 < r.len) }
    ensures border { IfSome result (λ r. IsCharBoundary text.now r.len) }
    ensures common { MatchOption result (is_uncommon text.now ≡ true) (λ _. is_uncommon text.now ≡ false) }
    ensures contextual { IfSome result (λ r. r.is_contextual ≡ is_contextual r.kind (slice_range text.now 0 r.len)) }
{
    let class = class_of(text.as_bytes()[0]);
    if class == WORD {
        word_token(edition, text)
    } else if class == WHITE {
        white_token(text)
    } else if class < WHITE {
        Some(CommonToken {
            kind: SyntaxKind::from_u16(u16::from(class)),
            len: 1,
            is_contextual: false,
        })
    } else {
        None
    }
}

/// The white space that the text begins with.
#[inline(always)]
fn white_token(text: &str) -> Option<CommonToken>
    requires { is_ascii_in White (get_or text.now 0 0) ≡ true }
    ensures token { MatchOption result (is_uncommon text.now ≡ true) (λ r. (edition : Edition) → IsCommon edition text.now r.kind r.len) }
    ensures contextual { IfSome result (λ r. r.is_contextual ≡ is_contextual r.kind (slice_range text.now 0 r.len)) }
{
    let bytes = text.as_bytes();
    let n = white_run(bytes);
    if n < bytes.len() && begins_white(bytes[n]) {
        None
    } else {
        Some(CommonToken {
            kind: SyntaxKind::WHITESPACE,
            len: n,
            is_contextual: false,
        })
    }
}

/// Whether white space past ASCII begins with the byte: U+0085 with the first of the two, U+200E, U+200F, U+2028 and
/// U+2029 with the other.
#[inline(always)]
fn begins_white(b: u8) -> bool
    ensures { result ≡ begins_white b }
{
    b == 0xc2 || b == 0xe2
}

/// The word that the text begins with.
#[inline(always)]
fn word_token(edition: Edition, text: &str) -> Option<CommonToken>
    requires { is_ascii_in IdentStart (get_or text.now 0 0) ≡ true }
    ensures token { MatchOption result (is_uncommon text.now ≡ true) (λ r. IsCommon edition text.now r.kind r.len) }
    ensures contextual { IfSome result (λ r. r.is_contextual ≡ is_contextual r.kind (slice_range text.now 0 r.len)) }
{
    let bytes = text.as_bytes();
    let n = word_len(bytes);
    if n < bytes.len() && OTHER < class_of(bytes[n]) {
        None
    } else {
        let (kind, is_contextual) = common_word(edition, &text[..n]);
        Some(CommonToken {
            kind,
            len: n,
            is_contextual,
        })
    }
}

/// How many bytes of an identifier in ASCII stand first.
///
/// One letter alone is told by the byte after it. So where the next token begins need not wait for the comparison of
/// sixteen bytes.
#[inline(always)]
fn word_len(bytes: &[u8]) -> usize
    requires { is_ascii_in IdentStart (get_or bytes.now 0 0) ≡ true }
    ensures { result ≡ length (run_of (is_ascii_in IdentContinue) bytes.now) }
{
    if 1 < bytes.len() && !is_ascii_in(Class::IdentContinue, bytes[1]) {
        1
    } else {
        word_run(bytes)
    }
}

/// The class of a byte.
#[inline(always)]
pub fn class_of(b: u8) -> u8
    ensures lone { nat_lt result WHITE ≡ is_lone b }
    ensures kind { result < WHITE → result ≡ single_kind b }
    ensures white { (result == WHITE) ≡ is_ascii_in White b }
    ensures word { (result == WORD) ≡ is_ascii_in IdentStart b }
    ensures end { nat_lt OTHER result ≡ ends_no_word b }
    ensures past { (result == PAST_ASCII) ≡ nat_lt 127 b }
    ensures few { result < WHITE → result < 29 }
{
    CLASSES[usize::from(b)]
}

/// The last class of a byte that is a token of its own before this byte: before what is white space, or may begin some,
/// white space is none.
#[inline(always)]
fn last_alone(b: u8) -> u8
    ensures { result ≡ (if is_ascii_in White b || begins_white b then 150 else WHITE) }
{
    LAST_ALONE[usize::from(b)]
}

// The class of a character that is a token of its own is the number of its kind, from 1 to 28. The others:

/// White space: the number of its kind.
pub const WHITE: u8 = 151;

/// The first character of a word.
pub const WORD: u8 = 152;

/// Any other ASCII character.
pub const OTHER: u8 = 153;

/// A quote or a `#`, which make the word before them a prefix.
pub const QUOTE: u8 = 154;

/// Part of a character past ASCII.
pub const PAST_ASCII: u8 = 155;

// Their letters in the table, which has a row for each sixteen bytes.

const W: u8 = WHITE;

const I: u8 = WORD;

const O: u8 = OTHER;

const Q: u8 = QUOTE;

const H: u8 = PAST_ASCII;

#[rattlefmt::skip]
static CLASSES: [u8; 256] = [
    O,  O,  O,  O,  O,  O,  O,  O,  O,  W,  W,  W,  W,  W,  O,  O, // 0x00
    O,  O,  O,  O,  O,  O,  O,  O,  O,  O,  O,  O,  O,  O,  O,  O, // 0x10
    W,  27, Q,  Q,  15, 22, 16, Q,  3,  4,  19, 18, 2,  28, 24, O, // 0x20
    O,  O,  O,  O,  O,  O,  O,  O,  O,  O,  25, 1,  9,  26, 10, 14, // 0x30
    11, I,  I,  I,  I,  I,  I,  I,  I,  I,  I,  I,  I,  I,  I,  I, // 0x40
    I,  I,  I,  I,  I,  I,  I,  I,  I,  I,  I,  7,  O,  8,  21, I, // 0x50
    O,  I,  I,  I,  I,  I,  I,  I,  I,  I,  I,  I,  I,  I,  I,  I, // 0x60
    I,  I,  I,  I,  I,  I,  I,  I,  I,  I,  I,  5,  17, 6,  13, O, // 0x70
    H,  H,  H,  H,  H,  H,  H,  H,  H,  H,  H,  H,  H,  H,  H,  H, // 0x80
    H,  H,  H,  H,  H,  H,  H,  H,  H,  H,  H,  H,  H,  H,  H,  H, // 0x90
    H,  H,  H,  H,  H,  H,  H,  H,  H,  H,  H,  H,  H,  H,  H,  H, // 0xa0
    H,  H,  H,  H,  H,  H,  H,  H,  H,  H,  H,  H,  H,  H,  H,  H, // 0xb0
    H,  H,  H,  H,  H,  H,  H,  H,  H,  H,  H,  H,  H,  H,  H,  H, // 0xc0
    H,  H,  H,  H,  H,  H,  H,  H,  H,  H,  H,  H,  H,  H,  H,  H, // 0xd0
    H,  H,  H,  H,  H,  H,  H,  H,  H,  H,  H,  H,  H,  H,  H,  H, // 0xe0
    H,  H,  H,  H,  H,  H,  H,  H,  H,  H,  H,  H,  H,  H,  H,  H, // 0xf0
];

/// The class before white space: no byte has it.
const B: u8 = 150;

#[rattlefmt::skip]
static LAST_ALONE: [u8; 256] = [
    W,  W,  W,  W,  W,  W,  W,  W,  W,  B,  B,  B,  B,  B,  W,  W, // 0x00
    W,  W,  W,  W,  W,  W,  W,  W,  W,  W,  W,  W,  W,  W,  W,  W, // 0x10
    B,  W,  W,  W,  W,  W,  W,  W,  W,  W,  W,  W,  W,  W,  W,  W, // 0x20
    W,  W,  W,  W,  W,  W,  W,  W,  W,  W,  W,  W,  W,  W,  W,  W, // 0x30
    W,  W,  W,  W,  W,  W,  W,  W,  W,  W,  W,  W,  W,  W,  W,  W, // 0x40
    W,  W,  W,  W,  W,  W,  W,  W,  W,  W,  W,  W,  W,  W,  W,  W, // 0x50
    W,  W,  W,  W,  W,  W,  W,  W,  W,  W,  W,  W,  W,  W,  W,  W, // 0x60
    W,  W,  W,  W,  W,  W,  W,  W,  W,  W,  W,  W,  W,  W,  W,  W, // 0x70
    W,  W,  W,  W,  W,  W,  W,  W,  W,  W,  W,  W,  W,  W,  W,  W, // 0x80
    W,  W,  W,  W,  W,  W,  W,  W,  W,  W,  W,  W,  W,  W,  W,  W, // 0x90
    W,  W,  W,  W,  W,  W,  W,  W,  W,  W,  W,  W,  W,  W,  W,  W, // 0xa0
    W,  W,  W,  W,  W,  W,  W,  W,  W,  W,  W,  W,  W,  W,  W,  W, // 0xb0
    W,  W,  B,  W,  W,  W,  W,  W,  W,  W,  W,  W,  W,  W,  W,  W, // 0xc0
    W,  W,  W,  W,  W,  W,  W,  W,  W,  W,  W,  W,  W,  W,  W,  W, // 0xd0
    W,  W,  B,  W,  W,  W,  W,  W,  W,  W,  W,  W,  W,  W,  W,  W, // 0xe0
    W,  W,  W,  W,  W,  W,  W,  W,  W,  W,  W,  W,  W,  W,  W,  W, // 0xf0
];
