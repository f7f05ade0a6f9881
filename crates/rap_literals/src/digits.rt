//! The digits of numbers, and what follows them.
ghost use Rattle.std.specs.Prelude.{◌≡◌, ◌<◌, ◌≤◌, ℕ, List, ◌∷◌, ◌++◌, true, false, length, MatchOption};
ghost use Rattle.rap_lexer.specs.Class.{is_in};
ghost use Rattle.rap_lexer.specs.Number.{starts_exponent, after_sign};
ghost use Rattle.rap_lexer.specs.Run.{next_is, tail, run_of};
ghost use Rattle.rap_literals.specs.Number.{number_of, prefix_of, radix_of, class_of, after_digits, after_fraction, after_exponent, EndsWith};

/// The radix of an integer.
#[derive(Clone, Copy, PartialEq, Eq, Debug)]
pub enum Radix {
    /// 2, after `0b`.
    Binary,
    /// 8, after `0o`.
    Octal,
    /// 10, without a prefix.
    Decimal,
    /// 16, after `0x`.
    Hexadecimal,
}

impl Radix {
    /// Returns the radix as a number: 2, 8, 10 or 16.
    pub fn number(self) -> u32
        ensures value { result ≡ number_of self }
        ensures low { 2 ≤ result }
        ensures high { result ≤ 16 }
    {
        match self {
            Radix::Binary => 2,
            Radix::Octal => 8,
            Radix::Decimal => 10,
            Radix::Hexadecimal => 16,
        }
    }
}

/// Whether the byte is a digit or `_`, as the lexer takes them.
fn is_digit(radix: Radix, b: u8) -> bool
    ensures { result ≡ is_in (class_of radix) b }
{
    match radix {
        Radix::Hexadecimal => {
            b == b'_' || b.is_ascii_digit() || b'a' <= b && b <= b'f' || b'A' <= b && b <= b'F'
        }
        Radix::Binary | Radix::Octal | Radix::Decimal => b == b'_' || b.is_ascii_digit(),
    }
}

/// How many digits and `_` stand first.
fn digits_len(radix: Radix, bytes: &[u8]) -> usize
    ensures run { result ≡ length (run_of (is_in (class_of radix)) bytes.now) }
    ensures within { result ≤ length bytes.now }
{
    let mut n = 0usize;
    'run: while n < bytes.len() && is_digit(radix, bytes[n]) {
        n += 1;
    }
    n
}

/// What follows the digits and `_` that stand first.
pub fn after_digits(radix: Radix, text: &str) -> &str
    ensures { result.now ≡ after_digits radix text.now }
{
    let n = digits_len(radix, text.as_bytes());
    &text[n..]
}

/// What follows this character, if it stands first.
pub fn strip(text: &str, c: char) -> Option<&str>
    requires { c < 128 }
    ensures { MatchOption result (next_is c text.now ≡ false) (λ rest. text.now ≡ c ∷ rest.now) }
{
    text.strip_prefix(c)
}

/// The radix that a number begins with, and what follows its prefix.
pub fn after_prefix(text: &str) -> (Radix, &str)
    ensures radix { result.0 ≡ radix_of text.now }
    ensures rest { text.now ≡ prefix_of result.0 ++ result.1.now }
{
    let Some(rest) = strip(text, '0') else {
        return (Radix::Decimal, text);
    };
    if let Some(digits) = strip(rest, 'b') {
        return (Radix::Binary, digits);
    }
    if let Some(digits) = strip(rest, 'o') {
        return (Radix::Octal, digits);
    }
    if let Some(digits) = strip(rest, 'x') {
        return (Radix::Hexadecimal, digits);
    }
    (Radix::Decimal, text)
}

/// What follows a dot and the digits after it.
pub fn after_fraction(text: &str) -> &str
    ensures { result.now ≡ after_fraction text.now }
{
    match strip(text, '.') {
        Some(rest) => after_digits(Radix::Decimal, rest),
        None => text,
    }
}

/// What follows a sign.
fn after_sign(text: &str) -> &str
    ensures { result.now ≡ after_sign text.now }
{
    match strip(text, '+') {
        Some(rest) => rest,
        None => match strip(text, '-') {
            Some(rest) => rest,
            None => text,
        },
    }
}

/// What follows the letter of an exponent.
fn after_letter(text: &str) -> Option<&str>
    ensures { MatchOption result (starts_exponent text.now ≡ false) (λ rest. (starts_exponent text.now ≡ true) × (rest.now ≡ tail text.now)) }
{
    match strip(text, 'e') {
        Some(rest) => Some(rest),
        None => strip(text, 'E'),
    }
}

/// What follows an exponent.
pub fn after_exponent(text: &str) -> &str
    ensures { result.now ≡ after_exponent text.now }
{
    match after_letter(text) {
        Some(rest) => after_digits(Radix::Decimal, after_sign(rest)),
        None => text,
    }
}

/// What stands before this rest of a text.
pub fn before<'a>(text: &'a str, rest: &str) -> &'a str
    requires { EndsWith text.now rest.now }
    ensures { text.now ≡ result.now ++ rest.now }
{
    &text[..text.len() - rest.len()]
}
