//! Laws of the values of literals. Each function does nothing: its contract is the law.
ghost use Rattle.std.specs.Prelude.{◌≡◌, ◌↔◌, ℕ, List, [], ◌∷◌, true, false, chars};
ghost use Rattle.rap_lexer.specs.Escape.{carriage_return, is_single, BeginsNot, Reports};
ghost use Rattle.rap_lexer.specs.declared.escape.Fault.{Fault};
ghost use Rattle.rap_lexer.specs.declared.escape.Mode.{Mode};
ghost use Rattle.rap_lexer.specs.declared.lexer.lexeme.Lexeme.{Lexeme};
ghost use Rattle.rap_literals.specs.Cut.{IsForm, IsQuoted, IsToken};
ghost use Rattle.rap_literals.specs.Literal.{StringLiteral, CharacterLiteral};
ghost use Rattle.rap_literals.specs.Number.{IntegerLiteral, FloatLiteral};
ghost use Rattle.rap_literals.specs.Suffix.{HasSuffix};
ghost use Rattle.rap_literals.specs.Value.{StringValue, CharacterValue};
ghost use Rattle.rap_literals.specs.declared.cut.Form.{Form};
ghost use Rattle.rap_literals.specs.declared.cut.Form.TheVariants.{Escaped};
ghost use Rattle.rap_literals.specs.declared.digits.Radix.{Radix};

/// A text that is one token, and a literal in quotes, has a body.
pub fn literals_have_bodies()
    ensures { (mode : Mode) (text : List ℕ) (form : Form) (token : Lexeme) → IsToken text token → IsForm form mode token
        → (body : List ℕ) × (after : List ℕ) × IsQuoted mode text form body after }
{}

/// The body of a string stands for something just where the lexer reports nothing about it.
pub fn bodies_without_faults()
    ensures { (mode : Mode) (body : List ℕ) (faults : List Fault) → is_single mode ≡ false → Reports mode body faults
        → (faults ≡ []) ↔ ((bytes : List ℕ) × StringValue mode body bytes) }
{}

/// The body of a character or byte stands for something just where the lexer reports nothing about it and it does not
/// begin with a carriage return, at which the lexer's check ends.
pub fn single_bodies_without_faults()
    ensures { (mode : Mode) (body : List ℕ) (faults : List Fault) → is_single mode ≡ true → Reports mode body faults
        → ((faults ≡ []) × BeginsNot (carriage_return ∷ []) body) ↔ ((value : ℕ) × CharacterValue mode body value) }
{}

/// A string that is not raw stands for something just where the lexer reports nothing about its body.
pub fn strings_without_faults()
    ensures { (mode : Mode) (text body after : List ℕ) (faults : List Fault) → is_single mode ≡ false
        → IsQuoted mode text Escaped body after → Reports mode (chars body) faults
        → (faults ≡ []) ↔ ((bytes : List ℕ) × StringLiteral mode text bytes) }
{}

/// A character or byte stands for something just where the lexer reports nothing about its body, which does not begin
/// with a carriage return.
pub fn characters_without_faults()
    ensures { (mode : Mode) (text body after : List ℕ) (faults : List Fault) → is_single mode ≡ true
        → IsQuoted mode text Escaped body after → Reports mode (chars body) faults
        → ((faults ≡ []) × BeginsNot (carriage_return ∷ []) (chars body)) ↔ ((value : ℕ) × CharacterLiteral mode text value) }
{}

/// A string stands for one list of bytes.
pub fn one_string()
    ensures { (mode : Mode) (text bytes others : List ℕ) → StringLiteral mode text bytes → StringLiteral mode text others → bytes ≡ others }
{}

/// A character or byte stands for one character.
pub fn one_character()
    ensures { (mode : Mode) (text : List ℕ) (value other : ℕ) → CharacterLiteral mode text value → CharacterLiteral mode text other → value ≡ other }
{}

/// An integer has one radix, one list of digits, and one suffix.
pub fn one_integer()
    ensures { (text : List ℕ) (radix other : Radix) (digits suffix others rest : List ℕ)
        → IntegerLiteral text radix digits suffix → IntegerLiteral text other others rest
        → (radix ≡ other) × (digits ≡ others) × (suffix ≡ rest) }
{}

/// A floating-point literal has one list of digits, and one suffix.
pub fn one_float()
    ensures { (text digits suffix others rest : List ℕ) → FloatLiteral text digits suffix → FloatLiteral text others rest
        → (digits ≡ others) × (suffix ≡ rest) }
{}

/// A literal in quotes has one suffix.
pub fn one_suffix()
    ensures { (text suffix other : List ℕ) → HasSuffix text suffix → HasSuffix text other → suffix ≡ other }
{}
