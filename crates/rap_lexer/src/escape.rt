//! The faults of escapes in literals, after the Rust Reference, "Tokens", and the crate `rustc-literal-escaper`.
ghost use Rattle.std.specs.Prelude.{◌≡◌, ◌≤◌, List, [], ◌∷◌, ◌++◌, length, MatchOption, option_to_list, IfSome, encode_utf8_all};
ghost use Rattle.std.specs.Str.{chars};
ghost use Rattle.rap_lexer.specs.Escape.{message, is_byte, is_single, hex_limit, reported, Character, CharacterReports, StringReports, Reports, is_gap};
ghost use Rattle.rap_lexer.specs.EscapeWalk.{faults};
ghost use Rattle.rap_lexer.specs.PlainLiteral.{is_bare};
ghost use Rattle.rap_lexer.specs.Run.{run_of, after_run};
ghost use Rattle.rap_lexer.specs.declared.escape.Fault.{Fault};

pub(crate) mod character;

use crate::escape::character::character;
use crate::lexer::cursor::Cursor;
use crate::lexer::literal::is_bare;
use std::marker::Model;

/// What kind of literal a body belongs to.
#[derive(Clone, Copy, PartialEq, Eq, Debug)]
pub enum Mode {
    /// A character, `'..'`.
    Char,
    /// A byte, `b'..'`.
    Byte,
    /// A string, `".."`.
    Str,
    /// A byte string, `b".."`.
    ByteStr,
    /// A C string, `c".."`.
    CStr,
}

/// What is wrong in a literal's body.
#[derive(Clone, Copy, PartialEq, Eq, Debug)]
pub enum Fault {
    /// A character or byte has an empty body.
    ZeroChars,
    /// A character or byte has more after its first character.
    MoreThanOneChar,
    /// No escape begins with this character after its backslash.
    InvalidEscape,
    /// A character or byte is a line feed, a tab or a `'` without a backslash.
    EscapeOnlyChar,
    /// The body ends before the second digit of a `\x`.
    TooShortHexEscape,
    /// A character after `\x` is no hexadecimal digit.
    InvalidCharInHexEscape,
    /// A `\x` is over 7F where it has to be ASCII.
    OutOfRangeHexEscape,
    /// No `{` follows a `\u`.
    NoBraceInUnicodeEscape,
    /// The body ends before the `}` of a `\u{`.
    UnclosedUnicodeEscape,
    /// A `\u{` begins with `_`.
    LeadingUnderscoreUnicodeEscape,
    /// Nothing stands between the braces of a `\u{}`.
    EmptyUnicodeEscape,
    /// A character between the braces of a `\u{..}` is neither a hexadecimal digit nor `_`.
    InvalidCharInUnicodeEscape,
    /// A `\u{..}` has more than six digits.
    OverlongUnicodeEscape,
    /// A `\u{..}` stands in a byte or a byte string.
    UnicodeEscapeInByte,
    /// A `\u{..}` is over 10FFFF, or a surrogate.
    InvalidUnicodeEscape,
    /// A byte or a byte string has a character that is not ASCII.
    NonAsciiCharInByte,
    /// A C string has a NUL.
    NulInCStr,
}

impl Mode {
    // Bytes and byte strings.
    fn is_byte(self) -> bool
        ensures { result ≡ is_byte self }
    {
        matches!(self, Mode::Byte | Mode::ByteStr)
    }

    // Characters and bytes.
    fn is_single(self) -> bool
        ensures { result ≡ is_single self }
    {
        matches!(self, Mode::Char | Mode::Byte)
    }

    // The greatest value of a `\x`.
    fn hex_limit(self) -> u32
        ensures { result ≡ hex_limit self }
    {
        match self {
            Mode::Char | Mode::Str => 0x7F,
            Mode::Byte | Mode::ByteStr | Mode::CStr => 0xFF,
        }
    }
}

impl Fault {
    /// Returns the message of the fault in a literal of this kind.
    pub fn message(self, mode: Mode) -> &'static str
        ensures { result.now ≡ message self mode }
    {
        match self {
            Fault::ZeroChars => "empty character literal",
            Fault::MoreThanOneChar => "character literal may only contain one codepoint",
            Fault::InvalidEscape if mode.is_byte() => "unknown byte escape",
            Fault::InvalidEscape => "unknown character escape",
            Fault::EscapeOnlyChar if mode.is_byte() => "byte constant must be escaped",
            Fault::EscapeOnlyChar => "character constant must be escaped",
            Fault::TooShortHexEscape => "numeric character escape is too short",
            Fault::InvalidCharInHexEscape => "invalid character in numeric character escape",
            Fault::OutOfRangeHexEscape => "out of range hex escape",
            Fault::NoBraceInUnicodeEscape => "incorrect unicode escape sequence",
            Fault::UnclosedUnicodeEscape => "unterminated unicode escape",
            Fault::LeadingUnderscoreUnicodeEscape => "invalid start of unicode escape",
            Fault::EmptyUnicodeEscape => "empty unicode escape",
            Fault::InvalidCharInUnicodeEscape => "invalid character in unicode escape",
            Fault::OverlongUnicodeEscape => "overlong unicode escape",
            Fault::UnicodeEscapeInByte => "unicode escape in byte string",
            Fault::InvalidUnicodeEscape => "invalid unicode character escape",
            Fault::NonAsciiCharInByte if mode.is_single() => "non-ASCII character in byte literal",
            Fault::NonAsciiCharInByte => "non-ASCII character in byte string literal",
            Fault::NulInCStr => "null character in C string literal",
        }
    }
}

// The fault of a character's or byte's body.
fn character_fault(mode: Mode, body: &str) -> Option<Fault>
    ensures { CharacterReports mode (chars body.now) (option_to_list result) }
{
    let mut rest = Cursor::new(body);
    match rest.bump() {
        None => Some(Fault::ZeroChars),
        Some('\r') => None,
        Some(c) => match character(mode, c, &mut rest) {
            Err(fault) => Some(fault),
            Ok(_) if rest.first().is_some() => Some(Fault::MoreThanOneChar),
            Ok(_) => None,
        },
    }
}

// The fault that a string reports for one of its characters.
fn reported(mode: Mode, outcome: Result<u32, Fault>) -> Option<Fault>
    ensures { option_to_list result ≡ reported mode outcome }
{
    match outcome {
        Err(fault) => Some(fault),
        Ok(0) if mode == Mode::CStr => Some(Fault::NulInCStr),
        Ok(_) => None,
    }
}

// What a backslash before a line feed skips.
fn is_gap(c: char) -> bool
    ensures { result ≡ is_gap c }
{
    matches!(c, ' ' | '\t' | '\n' | '\r')
}

// Passes over what a backslash before a line feed skips.
fn skip_gap(rest: &mut Cursor<'_>)
    ensures { rest.new ≡ after_run is_gap rest.old }
{
    'gap: while let Some(c) = rest.first() {
        if !is_gap(c) {
            break;
        }
        let _ = rest.bump();
    }
}

// How many bare characters stand first: printing ASCII that is neither a `'` nor a backslash.
#[inline(always)]
fn bare_run(bytes: &[u8]) -> usize
    ensures run { result ≡ length (run_of is_bare bytes.now) }
    ensures within { result ≤ length bytes.now }
{
    let mut n = 0usize;
    'run: while n < bytes.len() && is_bare(bytes[n]) {
        n += 1;
    }
    n
}

// Passes over bare characters: nothing is reported about them.
#[inline(always)]
fn skip_bare(rest: &mut Cursor<'_>)
    ensures { rest.old ≡ run_of is_bare (encode_utf8_all rest.old) ++ rest.new }
{
    let n = bare_run(rest.as_str().as_bytes());
    rest.advance(n);
}

// The next fault of a string's body.
fn next_fault(mode: Mode, rest: &mut Cursor<'_>) -> Option<Fault>
    ensures { MatchOption result ((rest.new ≡ []) × StringReports mode rest.old [])
        (λ fault. (faults : List Fault) → StringReports mode rest.new faults → StringReports mode rest.old (fault ∷ faults)) }
{
    'body: loop {
        skip_bare(rest);
        let Some(c) = rest.bump() else {
            return None;
        };
        if c == '\\' && rest.first() == Some('\n') {
            skip_gap(rest);
            continue;
        }
        if let Some(fault) = reported(mode, character(mode, c, rest)) {
            return Some(fault);
        }
    }
}

/// An iterator over the faults of a literal's body. Contracts see the list of those that are left.
#[derive(Drop)]
pub struct Faults<'a> {
    mode: Mode,
    // The fault of a character or byte.
    single: Option<Fault>,
    // What is left of a string's body.
    rest: Cursor<'a>,
}

impl<'a> Model for Faults<'a> {
    ghost use Rattle.std.specs.Prelude.{List, if◌then◌else◌};
    ghost use Rattle.std.specs.Option.{option_to_list};
    ghost use Rattle.rap_lexer.specs.declared.escape.Fault.{Fault};
    ghost use Rattle.rap_lexer.specs.Escape.{is_single};
    ghost use Rattle.rap_lexer.specs.EscapeWalk.{faults_from};
    ghost use Rattle.rap_lexer.specs.EscapeWalk.Place.{before_character};

    ghost Value = { List Fault };

    ghost view = { λ s. if is_single s.mode then option_to_list s.single else faults_from s.mode before_character s.rest };
}

impl<'a> Faults<'a> {
    /// Returns the faults in `body`, the text between the quotes of a literal, in the order in which they are reported.
    /// A character or byte has at most one.
    pub fn new(mode: Mode, body: &'a str) -> Faults<'a>
        ensures list { result ≡ faults mode (chars body.now) }
        ensures reported { Reports mode (chars body.now) result }
        ensures only { (others : List Fault) → Reports mode (chars body.now) others → others ≡ result }
    {
        if mode.is_single() {
            Faults {
                mode,
                single: character_fault(mode, body),
                rest: Cursor::new(""),
            }
        } else {
            Faults {
                mode,
                single: None,
                rest: Cursor::new(body),
            }
        }
    }
}

impl Iterator for Faults<'_> {
    ghost use Rattle.std.specs.Iterator.{YieldsFirst, item_count};

    type Item = Fault;

    ghost next_gives = { YieldsFirst (λ faults. faults) };

    ghost remaining = { item_count (λ faults. faults) };

    fn next(&mut self) -> Option<Fault> {
        if self.mode.is_single() {
            self.single.take()
        } else {
            next_fault(self.mode, &mut self.rest)
        }
    }
}
