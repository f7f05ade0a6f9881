//! Tokens that are taken at once: common ones, plain numbers, and `/` and `#` alone.
ghost use Rattle.std.specs.Prelude.{◌≡◌, ◌≢◌, ◌<◌, IfSome, MatchOption, nat_lt, false, true, length, chars, drop, slice_range, IsCharBoundary};
ghost use Rattle.rap_base.specs.TokenKind.{STRING};
ghost use Rattle.rap_base.specs.TokenTests.{IsTokenKind};
ghost use Rattle.rap_lexer.specs.Class.{is_ascii_in};
ghost use Rattle.rap_lexer.specs.Common.{is_contextual, next_fits};
ghost use Rattle.rap_lexer.specs.First.{First, is_reserved_hash};
ghost use Rattle.rap_lexer.specs.Lexeme.{plain};
ghost use Rattle.rap_lexer.specs.Number.{after_sign};
ghost use Rattle.rap_lexer.specs.Plain.{begins_suffix, has_plain_suffix, after_plain_suffix, has_plain_power, after_plain_power, has_plain_exponent, after_plain_exponent, has_plain_end, after_plain_end, kind_with_end, ends_before_dot, has_plain_fraction, after_plain_fraction, is_plain_past_digits, after_past_digits, kind_past_digits, is_based, is_binary, is_digit_of, has_plain_digits, after_plain_digits, is_plain_number, is_plain_slash, is_plain_hash, is_plain_sign, is_quick, IsPlainNumber, IsPlainSign, Leaves};
ghost use Rattle.rap_lexer.specs.Run.{next_is, after_run};
ghost use Rattle.rap_lexer.specs.declared.lexer.run.Class.TheVariants.{Digit};

use crate::lexer::common::{CommonToken, PAST_ASCII, WORD, class_of, common_token};
use crate::lexer::lanes::word_run;
use crate::lexer::run::{Class, byte_run, is_ascii_in};
use rap_base::edition::Edition;
use rap_base::syntax_kind::SyntaxKind;

/// Returns the first token of `text`, which must not be empty, if it can be taken at once, and otherwise `None`:
/// [`first_token`](crate::lexer::first_token) takes any.
///
/// Taken at once are the common tokens, plain numbers, and a `/` or `#` alone: neither `/` nor `*` follows the one, and
/// from the edition 2024 on neither `"` nor `#` the other. A number is plain if a decimal digit stands at once after `0b`
/// and `0o`, a hexadecimal one after `0x`, and a decimal one after the letter and the optional sign of an exponent; if
/// its suffix is of ASCII; and if no character past ASCII stands directly behind it, or behind a dot that directly
/// follows its first digits. There is nothing to report about any of them.
#[inline(always)]
pub fn quick_token(edition: Edition, text: &str) -> Option<CommonToken>
    requires { 0 < length text.now }
    ensures token { IfSome result (λ r. First edition (chars text.now) (plain r.kind) (chars (drop r.len text.now))) }
    ensures kind { IfSome result (λ r. IsTokenKind r.kind) }
    ensures no_string { IfSome result (λ r. r.kind ≢ STRING) }
    ensures positive { IfSome result (λ r. 0 < r.len) }
    ensures border { IfSome result (λ r. IsCharBoundary text.now r.len) }
    ensures quick { MatchOption result (is_quick edition text.now ≡ false) (λ _. is_quick edition text.now ≡ true) }
    ensures contextual { IfSome result (λ r. r.is_contextual ≡ is_contextual r.kind (slice_range text.now 0 r.len)) }
{
    match common_token(edition, text) {
        Some(token) => Some(token),
        None => match plain_number(text) {
            Some(token) => Some(token),
            None => plain_sign(edition, text),
        },
    }
}

/// The `/` or `#` that the text begins with, if it is a token of its own by the byte after it.
///
/// The loop that takes the common tokens need not be left for one.
#[inline(always)]
fn plain_sign(edition: Edition, text: &str) -> Option<CommonToken>
    ensures sign { MatchOption result (is_plain_sign edition text.now ≡ false) (λ r. IsPlainSign edition text.now r.kind r.len) }
    ensures contextual { IfSome result (λ r. r.is_contextual ≡ is_contextual r.kind (slice_range text.now 0 r.len)) }
{
    let bytes = text.as_bytes();
    if is_plain_slash(bytes) {
        Some(CommonToken {
            kind: SyntaxKind::SLASH,
            len: 1,
            is_contextual: false,
        })
    } else if is_plain_hash(edition, bytes) {
        Some(CommonToken {
            kind: SyntaxKind::POUND,
            len: 1,
            is_contextual: false,
        })
    } else {
        None
    }
}

/// Whether the bytes begin with a `/` that begins no comment.
#[inline(always)]
fn is_plain_slash(bytes: &[u8]) -> bool
    ensures { result ≡ is_plain_slash bytes.now }
{
    if !is_next(bytes, b'/') {
        return false;
    }
    !is_next(&bytes[1..], b'/') && !is_next(&bytes[1..], b'*')
}

/// Whether the bytes begin with a `#` that begins no reserved guarded string.
#[inline(always)]
fn is_plain_hash(edition: Edition, bytes: &[u8]) -> bool
    ensures { result ≡ is_plain_hash edition bytes.now }
{
    if !is_next(bytes, b'#') {
        return false;
    }
    !is_reserved_after(edition, &bytes[1..])
}

/// Whether a `#` before these bytes begins a reserved guarded string.
#[inline(always)]
fn is_reserved_after(edition: Edition, bytes: &[u8]) -> bool
    ensures { result ≡ is_reserved_hash edition bytes.now }
{
    edition.at_least_2024() && (is_next(bytes, b'"') || is_next(bytes, b'#'))
}

/// The plain number that the text begins with.
#[inline(always)]
fn plain_number(text: &str) -> Option<CommonToken>
    ensures number { MatchOption result (is_plain_number text.now ≡ false) (λ r. IsPlainNumber text.now r.kind r.len) }
    ensures contextual { IfSome result (λ r. r.is_contextual ≡ is_contextual r.kind (slice_range text.now 0 r.len)) }
{
    if !begins_with(text.as_bytes(), Class::Digit) {
        return None;
    }
    let end = number_of(text)?;
    Some(CommonToken {
        kind: end.kind,
        len: end.len,
        is_contextual: false,
    })
}

/// Where the plain number ends that a text begins with, which begins with a digit.
///
/// It stands apart, since few tokens are numbers: the loop that takes the common ones is faster without it.
#[inline(never)]
fn number_of(text: &str) -> Option<NumberEnd>
    requires { next_fits (is_ascii_in Digit) text.now ≡ true }
    ensures number { MatchOption result (is_plain_number text.now ≡ false) (λ r. IsPlainNumber text.now r.kind r.len) }
    ensures contextual { IfSome result (λ r. false ≡ is_contextual r.kind (slice_range text.now 0 r.len)) }
{
    let bytes = text.as_bytes();
    let n = first_digits(bytes)?;
    let end = past_digits(&bytes[n..])?;
    Some(NumberEnd {
        kind: end.kind,
        len: n + end.len,
    })
}

/// How long the base prefix, the digits and the `_` are that the bytes begin with.
#[inline(always)]
fn first_digits(bytes: &[u8]) -> Option<usize>
    requires { next_fits (is_ascii_in Digit) bytes.now ≡ true }
    ensures digits { MatchOption result (has_plain_digits bytes.now ≡ false) (λ n. Leaves bytes.now n (after_plain_digits bytes.now)) }
    ensures plain { IfSome result (λ _. has_plain_digits bytes.now ≡ true) }
    ensures positive { IfSome result (λ n. 0 < n) }
{
    if is_based(bytes, b'x') {
        digits_of_base(bytes, Class::HexOrUnderscore)
    } else if is_binary(bytes) {
        digits_of_base(bytes, Class::DigitOrUnderscore)
    } else {
        Some(byte_run(bytes, Class::DigitOrUnderscore))
    }
}

/// How long the base prefix is, with the digits and the `_` after it, if a digit is the first of them.
#[inline(always)]
fn digits_of_base(bytes: &[u8], class: Class) -> Option<usize>
    ensures digits { MatchOption result (next_fits (is_digit_of class) (drop 2 bytes.now) ≡ false) (λ n. Leaves bytes.now n (after_run (is_ascii_in class) (drop 2 bytes.now))) }
    ensures plain { IfSome result (λ _. next_fits (is_digit_of class) (drop 2 bytes.now) ≡ true) }
    ensures positive { IfSome result (λ n. 0 < n) }
{
    if bytes.len() < 3 {
        return None;
    }
    if !is_digit_of(class, bytes[2]) {
        return None;
    }
    Some(2 + byte_run(&bytes[2..], class))
}

/// Where a number ends, and its kind.
#[derive(Clone, Copy)]
struct NumberEnd {
    kind: SyntaxKind,
    /// How many bytes stand before its end.
    len: usize,
}

/// How a number goes on past its first digits: with a fraction or without one.
#[inline(always)]
fn past_digits(bytes: &[u8]) -> Option<NumberEnd>
    ensures end { MatchOption result (is_plain_past_digits bytes.now ≡ false) (λ r. Leaves bytes.now r.len (after_past_digits bytes.now)) }
    ensures plain { IfSome result (λ _. is_plain_past_digits bytes.now ≡ true) }
    ensures kind { IfSome result (λ r. r.kind ≡ kind_past_digits bytes.now) }
{
    if !is_next(bytes, b'.') {
        return number_end(bytes, SyntaxKind::INT_NUMBER);
    }
    if ends_before_dot(&bytes[1..]) {
        return Some(NumberEnd {
            kind: SyntaxKind::INT_NUMBER,
            len: 0,
        });
    }
    let n = fraction(&bytes[1..])?;
    Some(NumberEnd {
        kind: SyntaxKind::FLOAT_NUMBER,
        len: 1 + n,
    })
}

/// How long the fraction is past its dot, with what ends the number. A dot alone makes a float too.
#[inline(always)]
fn fraction(bytes: &[u8]) -> Option<usize>
    ensures fraction { MatchOption result (has_plain_fraction bytes.now ≡ false) (λ n. Leaves bytes.now n (after_plain_fraction bytes.now)) }
    ensures plain { IfSome result (λ _. has_plain_fraction bytes.now ≡ true) }
{
    if !begins_with(bytes, Class::Digit) {
        return if is_past_ascii(bytes) { None } else { Some(0) };
    }
    let digits = byte_run(bytes, Class::DigitOrUnderscore);
    let end = number_end(&bytes[digits..], SyntaxKind::FLOAT_NUMBER)?;
    Some(digits + end.len)
}

/// Whether a dot before these bytes is not the number's: a second dot follows it, or an identifier in ASCII.
#[inline(always)]
fn ends_before_dot(bytes: &[u8]) -> bool
    ensures { result ≡ ends_before_dot bytes.now }
{
    is_next(bytes, b'.') || begins_with(bytes, Class::IdentStart)
}

/// How a number of this kind goes on past its last digits: with an exponent, which makes it a float, or a suffix.
#[inline(always)]
fn number_end(bytes: &[u8], kind: SyntaxKind) -> Option<NumberEnd>
    ensures end { MatchOption result (has_plain_end bytes.now ≡ false) (λ r. Leaves bytes.now r.len (after_plain_end bytes.now)) }
    ensures plain { IfSome result (λ _. has_plain_end bytes.now ≡ true) }
    ensures kind { IfSome result (λ r. r.kind ≡ kind_with_end kind bytes.now) }
{
    if is_next(bytes, b'e') || is_next(bytes, b'E') {
        let n = exponent(&bytes[1..])?;
        Some(NumberEnd {
            kind: SyntaxKind::FLOAT_NUMBER,
            len: 1 + n,
        })
    } else {
        let len = suffix(bytes)?;
        Some(NumberEnd { kind, len })
    }
}

/// How long the exponent is past its letter, with its suffix.
#[inline(always)]
fn exponent(bytes: &[u8]) -> Option<usize>
    ensures exponent { MatchOption result (has_plain_exponent bytes.now ≡ false) (λ n. Leaves bytes.now n (after_plain_exponent bytes.now)) }
    ensures plain { IfSome result (λ _. has_plain_exponent bytes.now ≡ true) }
{
    let sign = sign(bytes);
    let n = power(&bytes[sign..])?;
    Some(sign + n)
}

/// How long the exponent is past its sign, with its suffix.
#[inline(always)]
fn power(bytes: &[u8]) -> Option<usize>
    ensures power { MatchOption result (has_plain_power bytes.now ≡ false) (λ n. Leaves bytes.now n (after_plain_power bytes.now)) }
    ensures plain { IfSome result (λ _. has_plain_power bytes.now ≡ true) }
{
    if !begins_with(bytes, Class::Digit) {
        return None;
    }
    let n = byte_run(bytes, Class::DigitOrUnderscore);
    let more = suffix(&bytes[n..])?;
    Some(n + more)
}

/// How long the sign is that the bytes begin with.
#[inline(always)]
fn sign(bytes: &[u8]) -> usize
    ensures { Leaves bytes.now result (after_sign bytes.now) }
{
    if is_next(bytes, b'+') || is_next(bytes, b'-') {
        1
    } else {
        0
    }
}

/// How long the suffix is that the bytes begin with.
#[inline(always)]
fn suffix(bytes: &[u8]) -> Option<usize>
    ensures suffix { MatchOption result (has_plain_suffix bytes.now ≡ false) (λ n. Leaves bytes.now n (after_plain_suffix bytes.now)) }
    ensures plain { IfSome result (λ _. has_plain_suffix bytes.now ≡ true) }
{
    if !has_suffix(bytes) {
        return Some(0);
    }
    if is_past_ascii(bytes) {
        return None;
    }
    let n = word_run(bytes);
    if is_past_ascii(&bytes[n..]) {
        None
    } else {
        Some(n)
    }
}

/// Whether the bytes begin with `0` and this letter.
#[inline(always)]
fn is_based(bytes: &[u8], letter: u8) -> bool
    ensures { result ≡ is_based letter bytes.now }
{
    1 < bytes.len() && bytes[0] == b'0' && bytes[1] == letter
}

/// Whether the bytes begin with `0b` or `0o`.
#[inline(always)]
fn is_binary(bytes: &[u8]) -> bool
    ensures { result ≡ is_binary bytes.now }
{
    is_based(bytes, b'b') || is_based(bytes, b'o')
}

/// Whether the byte is a digit of the class.
#[inline(always)]
fn is_digit_of(class: Class, b: u8) -> bool
    ensures { result ≡ is_digit_of class b }
{
    is_ascii_in(class, b) && b != b'_'
}

/// Whether the bytes begin with this one.
#[inline(always)]
pub fn is_next(bytes: &[u8], b: u8) -> bool
    ensures { result ≡ next_is b bytes.now }
{
    !bytes.is_empty() && bytes[0] == b
}

/// Whether the bytes begin with an ASCII character of the class.
#[inline(always)]
fn begins_with(bytes: &[u8], class: Class) -> bool
    ensures { result ≡ next_fits (is_ascii_in class) bytes.now }
{
    !bytes.is_empty() && is_ascii_in(class, bytes[0])
}

/// Whether the bytes begin with one past ASCII.
#[inline(always)]
fn is_past_ascii(bytes: &[u8]) -> bool
    ensures { result ≡ next_fits (nat_lt 127) bytes.now }
{
    !bytes.is_empty() && 127 < bytes[0]
}

/// Whether the bytes begin with one that may begin a suffix.
#[inline(always)]
fn has_suffix(bytes: &[u8]) -> bool
    ensures { result ≡ next_fits begins_suffix bytes.now }
{
    !bytes.is_empty() && begins_suffix(bytes[0])
}

/// Whether the byte may begin a suffix.
#[inline(always)]
pub fn begins_suffix(b: u8) -> bool
    ensures { result ≡ begins_suffix b }
{
    let class = class_of(b);
    class == PAST_ASCII || class == WORD
}
