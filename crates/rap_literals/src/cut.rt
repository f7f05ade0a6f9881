//! A text that is one literal in quotes, and the body between its quotes.
ghost use Rattle.std.specs.Prelude.{◌≡◌, ◌≢◌, ◌<◌, ℕ, List, MatchBool, MatchOption};
ghost use Rattle.rap_lexer.specs.declared.escape.Mode.{Mode};
ghost use Rattle.rap_lexer.specs.declared.lexer.lexeme.Lexeme.{Lexeme};
ghost use Rattle.rap_lexer.specs.declared.lexer.lexeme.Remark.TheVariants.{Nothing};
ghost use Rattle.rap_literals.specs.Cut.{IsToken, AreParts, IsForm, IsPlain, IsQuoted, quote_of, kind_of};
ghost use Rattle.rap_literals.specs.declared.cut.Form.{Form};

use rap_base::edition::Edition;
use rap_base::syntax_kind::SyntaxKind;
use rap_lexer::escape::Mode;
use rap_lexer::lexer::{Lexeme, Remark, first_token};

/// How a literal in quotes is written.
#[derive(Clone, Copy)]
pub enum Form {
    /// With escapes.
    Escaped,
    /// Raw.
    Raw,
}

/// A literal in quotes.
#[derive(Clone, Copy, Drop)]
pub struct Literal<'a> {
    pub form: Form,
    /// What stands between the quotes.
    pub body: &'a str,
    /// What follows the last quote.
    pub after: &'a str,
}

/// The token that the whole text is.
pub fn token_of(text: &str) -> Option<Lexeme>
    ensures { MatchOption result ((token : Lexeme) → ¬ IsToken text.now token) (IsToken text.now) }
{
    if text.is_empty() {
        return None;
    }
    let (token, len) = first_token(Edition::Edition2024, text);
    if len == text.len() { Some(token) } else { None }
}

/// Whether the token is of this kind, and nothing is reported about it.
fn is_quiet(kind: SyntaxKind, token: Lexeme) -> bool
    ensures { MatchBool result ((token.kind ≡ kind) × (token.remark ≡ Nothing)) (¬ ((token.kind ≡ kind) × (token.remark ≡ Nothing))) }
{
    match token.remark {
        Remark::Nothing if token.kind == kind => true,
        _ => false,
    }
}

/// Whether the whole text is a token of this kind, about which the lexer reports nothing.
pub fn is_plain(kind: SyntaxKind, text: &str) -> bool
    ensures { MatchBool result (IsPlain kind text.now) (¬ IsPlain kind text.now) }
{
    match token_of(text) {
        None => false,
        Some(token) => is_quiet(kind, token),
    }
}

/// The quote of a literal of this mode.
fn quote_of(mode: Mode) -> char
    ensures value { result ≡ quote_of mode }
    ensures ascii { result < 128 }
{
    match mode {
        Mode::Char | Mode::Byte => '\'',
        Mode::Str | Mode::ByteStr | Mode::CStr => '"',
    }
}

/// The kind of a token that is a literal of this mode.
fn kind_of(mode: Mode) -> SyntaxKind
    ensures { result ≡ kind_of mode }
{
    match mode {
        Mode::Char => SyntaxKind::CHAR,
        Mode::Byte => SyntaxKind::BYTE,
        Mode::Str => SyntaxKind::STRING,
        Mode::ByteStr => SyntaxKind::BYTE_STRING,
        Mode::CStr => SyntaxKind::C_STRING,
    }
}

/// The form of a token that is a literal of this mode.
fn form_of(mode: Mode, token: Lexeme) -> Option<Form>
    ensures { MatchOption result ((form : Form) → ¬ IsForm form mode token) (λ form. IsForm form mode token) }
{
    match token.remark {
        Remark::Escapes(found) if found == mode => Some(Form::Escaped),
        Remark::Nothing if token.kind == kind_of(mode) => Some(Form::Raw),
        _ => None,
    }
}

/// What stands between the first of these quotes and the last one, and what follows that.
fn parts_of(quote: char, text: &str) -> (&str, &str)
    requires { quote < 128 }
    ensures { AreParts quote text.now result.0.now result.1.now }
{
    let Some(opening) = text.find(quote) else {
        return ("", "");
    };
    let Some(end) = text.rfind(quote) else {
        return ("", "");
    };
    if opening < end {
        (&text[opening + 1..end], &text[end + 1..])
    } else {
        ("", "")
    }
}

/// The parts of a text that is a literal of this mode.
pub fn quoted(mode: Mode, text: &str) -> Option<Literal<'_>>
    ensures { MatchOption result ((form : Form) (body after : List ℕ) → ¬ IsQuoted mode text.now form body after) (λ q. IsQuoted mode text.now q.form q.body.now q.after.now) }
{
    let Some(token) = token_of(text) else {
        return None;
    };
    let Some(form) = form_of(mode, token) else {
        return None;
    };
    let (body, after) = parts_of(quote_of(mode), text);
    Some(Literal { form, body, after })
}

/// The mode and form of a token that is a literal in quotes.
fn written(token: Lexeme) -> Option<(Mode, Form)>
    ensures { MatchOption result ((mode : Mode) (form : Form) → ¬ IsForm form mode token) (λ w. IsForm w.1 w.0 token) }
{
    match token.remark {
        Remark::Escapes(mode) => Some((mode, Form::Escaped)),
        Remark::Nothing => match mode_of(token.kind) {
            Some(mode) => Some((mode, Form::Raw)),
            None => None,
        },
        _ => None,
    }
}

/// The mode of a literal that is a token of this kind.
fn mode_of(kind: SyntaxKind) -> Option<Mode>
    ensures { MatchOption result ((mode : Mode) → kind ≢ kind_of mode) (λ mode. kind ≡ kind_of mode) }
{
    match kind {
        SyntaxKind::CHAR => Some(Mode::Char),
        SyntaxKind::BYTE => Some(Mode::Byte),
        SyntaxKind::STRING => Some(Mode::Str),
        SyntaxKind::BYTE_STRING => Some(Mode::ByteStr),
        SyntaxKind::C_STRING => Some(Mode::CStr),
        _ => None,
    }
}

/// What follows the last quote of a text that is a literal of any mode.
pub fn after_quotes(text: &str) -> Option<&str>
    ensures { MatchOption result ((mode : Mode) (form : Form) (body after : List ℕ) → ¬ IsQuoted mode text.now form body after) (λ after. (mode : Mode) × (form : Form) × (body : List ℕ) × IsQuoted mode text.now form body after.now) }
{
    let Some(token) = token_of(text) else {
        return None;
    };
    let Some((mode, _)) = written(token) else {
        return None;
    };
    Some(parts_of(quote_of(mode), text).1)
}
