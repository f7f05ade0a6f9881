//! Kinds of tokens: the table from leaves to what an editor colors.
ghost use Rattle.std.specs.Prelude.{◌≡◌, IsTrue};
ghost use Rattle.rast_answers.specs.TokenTable.{class_of, class_of_leaf, class_of_name, class_of_path, class_of_reference, declaring, is_keyword, plain, token_number};

use crate::kinds::{around, kind_at};
use flat_tree::Element;
use rap_base::syntax_kind::SyntaxKind;

/// The kind of a token, by its place in [`TOKEN_KINDS`].
#[derive(Clone, Copy, Debug, PartialEq, Eq)]
pub enum TokenKind {
    /// A comment.
    Comment,
    /// A keyword.
    Keyword,
    /// A string or a character.
    String,
    /// A number.
    Number,
    /// A module or a crate.
    Namespace,
    /// A type, or an alias.
    Type,
    /// A struct or a union.
    Struct,
    /// An enum.
    Enum,
    /// A trait.
    Interface,
    /// A parameter of a generic item.
    TypeParameter,
    /// A parameter of a function or a closure.
    Parameter,
    /// A variable, a constant or a static.
    Variable,
    /// A field.
    Property,
    /// A variant.
    EnumMember,
    /// A function.
    Function,
    /// A function of an `impl` or a trait.
    Method,
    /// A macro.
    Macro,
    /// A label, or a lifetime.
    Label,
    /// The name of an attribute.
    Decorator,
}

/// The protocol's names of the kinds, in the order of their numbers.
pub const TOKEN_KINDS: [&str; 19] = [
    "comment",
    "keyword",
    "string",
    "number",
    "namespace",
    "type",
    "struct",
    "enum",
    "interface",
    "typeParameter",
    "parameter",
    "variable",
    "property",
    "enumMember",
    "function",
    "method",
    "macro",
    "label",
    "decorator",
];

/// The modifier of a name where it is declared.
pub const DECLARATION: u32 = 1;

/// The modifier of a doc comment.
pub const DOCUMENTATION: u32 = 2;

/// The modifier of a constant.
pub const READONLY: u32 = 4;

/// The modifier of a static.
pub const STATIC: u32 = 8;

/// The protocol's names of the modifiers, in the order of their bits.
pub const TOKEN_MODIFIERS: [&str; 4] = ["declaration", "documentation", "readonly", "static"];

impl TokenKind {
    /// Its place in [`TOKEN_KINDS`].
    pub fn number(self) -> u32
        ensures { result ≡ token_number self }
    {
        match self {
            TokenKind::Comment => 0,
            TokenKind::Keyword => 1,
            TokenKind::String => 2,
            TokenKind::Number => 3,
            TokenKind::Namespace => 4,
            TokenKind::Type => 5,
            TokenKind::Struct => 6,
            TokenKind::Enum => 7,
            TokenKind::Interface => 8,
            TokenKind::TypeParameter => 9,
            TokenKind::Parameter => 10,
            TokenKind::Variable => 11,
            TokenKind::Property => 12,
            TokenKind::EnumMember => 13,
            TokenKind::Function => 14,
            TokenKind::Method => 15,
            TokenKind::Macro => 16,
            TokenKind::Label => 17,
            TokenKind::Decorator => 18,
        }
    }
}

/// A kind with its modifiers: the sum of their bits.
#[derive(Clone, Copy, Debug, PartialEq, Eq)]
pub(crate) struct Class {
    pub(crate) kind: TokenKind,
    pub(crate) modifiers: u32,
}

fn plain(kind: TokenKind) -> Option<Class>
    ensures { result ≡ plain kind }
{
    Some(Class { kind, modifiers: 0 })
}

fn declaring(kind: TokenKind) -> Option<Class>
    ensures { result ≡ declaring kind }
{
    Some(Class {
        kind,
        modifiers: DECLARATION,
    })
}

/// The class of a leaf that is no identifier, by its kind and that of the node around it.
fn class_of_leaf(kind: SyntaxKind, node: SyntaxKind) -> Option<Class>
    ensures { result ≡ class_of_leaf kind node }
{
    match kind {
        SyntaxKind::COMMENT | SyntaxKind::SHEBANG | SyntaxKind::FRONTMATTER => plain(
            TokenKind::Comment,
        ),
        SyntaxKind::INNER_DOC_COMMENT | SyntaxKind::OUTER_DOC_COMMENT => Some(Class {
            kind: TokenKind::Comment,
            modifiers: DOCUMENTATION,
        }),
        SyntaxKind::INT_NUMBER | SyntaxKind::FLOAT_NUMBER => plain(TokenKind::Number),
        SyntaxKind::CHAR
        | SyntaxKind::BYTE
        | SyntaxKind::STRING
        | SyntaxKind::BYTE_STRING
        | SyntaxKind::C_STRING => plain(TokenKind::String),
        SyntaxKind::LIFETIME_IDENT => plain(TokenKind::Label),
        SyntaxKind::BANG => {
            if node == SyntaxKind::MACRO_CALL || node == SyntaxKind::MACRO_RULES {
                plain(TokenKind::Macro)
            } else {
                None
            }
        }
        _ => {
            if SyntaxKind::AS_KW <= kind && kind <= SyntaxKind::YEET_KW {
                plain(TokenKind::Keyword)
            } else {
                None
            }
        }
    }
}

/// The class of an identifier that declares something, by the kinds of the node that it names and of the one around.
fn class_of_name(node: SyntaxKind, outer: SyntaxKind) -> Option<Class>
    ensures { result ≡ class_of_name node outer }
{
    match node {
        SyntaxKind::MODULE => declaring(TokenKind::Namespace),
        SyntaxKind::STRUCT | SyntaxKind::UNION => declaring(TokenKind::Struct),
        SyntaxKind::ENUM => declaring(TokenKind::Enum),
        SyntaxKind::TRAIT => declaring(TokenKind::Interface),
        SyntaxKind::TYPE_ALIAS => declaring(TokenKind::Type),
        SyntaxKind::TYPE_PARAM | SyntaxKind::CONST_PARAM => declaring(TokenKind::TypeParameter),
        SyntaxKind::RECORD_FIELD => declaring(TokenKind::Property),
        SyntaxKind::VARIANT => declaring(TokenKind::EnumMember),
        SyntaxKind::MACRO_RULES | SyntaxKind::MACRO_DEF => declaring(TokenKind::Macro),
        SyntaxKind::CONST => Some(Class {
            kind: TokenKind::Variable,
            modifiers: DECLARATION + READONLY,
        }),
        SyntaxKind::STATIC => Some(Class {
            kind: TokenKind::Variable,
            modifiers: DECLARATION + STATIC,
        }),
        SyntaxKind::FN => {
            if outer == SyntaxKind::ASSOC_ITEM_LIST {
                declaring(TokenKind::Method)
            } else {
                declaring(TokenKind::Function)
            }
        }
        SyntaxKind::IDENT_PAT => {
            if outer == SyntaxKind::PARAM {
                declaring(TokenKind::Parameter)
            } else {
                declaring(TokenKind::Variable)
            }
        }
        _ => None,
    }
}

/// The class of an identifier at the end of a path, by the kinds of the node that the path is in and of the one around.
fn class_of_path(node: SyntaxKind, outer: SyntaxKind) -> Option<Class>
    ensures { result ≡ class_of_path node outer }
{
    match node {
        SyntaxKind::MACRO_CALL => plain(TokenKind::Macro),
        SyntaxKind::RECORD_EXPR | SyntaxKind::RECORD_PAT => plain(TokenKind::Struct),
        SyntaxKind::PATH_META | SyntaxKind::TOKEN_TREE_META | SyntaxKind::KEY_VALUE_META => {
            plain(TokenKind::Decorator)
        }
        SyntaxKind::PATH_TYPE => {
            if outer == SyntaxKind::TYPE_BOUND {
                plain(TokenKind::Interface)
            } else {
                plain(TokenKind::Type)
            }
        }
        SyntaxKind::PATH_EXPR => {
            if outer == SyntaxKind::CALL_EXPR {
                plain(TokenKind::Function)
            } else {
                None
            }
        }
        _ => None,
    }
}

/// The class of an identifier that refers to something, by the index of the node around its `NAME_REF`.
fn class_of_reference(elements: &[Element], node: usize) -> Option<Class>
    ensures { result ≡ class_of_reference elements.now node }
{
    match kind_at(elements, node) {
        SyntaxKind::METHOD_CALL_EXPR => plain(TokenKind::Method),
        SyntaxKind::FIELD_EXPR | SyntaxKind::RECORD_EXPR_FIELD | SyntaxKind::RECORD_PAT_FIELD => {
            plain(TokenKind::Property)
        }
        SyntaxKind::EXTERN_CRATE => plain(TokenKind::Namespace),
        SyntaxKind::ASSOC_TYPE_ARG => plain(TokenKind::Type),
        SyntaxKind::PATH_SEGMENT => {
            let outer = around(elements, around(elements, node));
            class_of_path(
                kind_at(elements, outer),
                kind_at(elements, around(elements, outer)),
            )
        }
        _ => None,
    }
}

/// Whether a leaf has no class by its kind alone: white space has none, nor has punctuation other than `!`.
#[tactic(auto, using(crate::proofs::Outside::white_space_no_class, crate::proofs::Outside::punctuation_no_class))]
fn has_no_class(elements: &[Element], index: usize) -> bool
    ensures { IsTrue result → class_of elements.now index ≡ None }
{
    let kind = kind_at(elements, index);
    kind == SyntaxKind::WHITESPACE || (kind < SyntaxKind::AS_KW && kind != SyntaxKind::BANG)
}

/// The class of the leaf with this index, if it has one.
pub(crate) fn class_of(elements: &[Element], index: usize) -> Option<Class>
    ensures { result ≡ class_of elements.now index }
{
    if has_no_class(elements, index) {
        return None;
    }
    let node = around(elements, index);
    let outer = around(elements, node);
    if kind_at(elements, index) != SyntaxKind::IDENT {
        return class_of_leaf(kind_at(elements, index), kind_at(elements, node));
    }
    match kind_at(elements, node) {
        SyntaxKind::NAME => class_of_name(
            kind_at(elements, outer),
            kind_at(elements, around(elements, outer)),
        ),
        SyntaxKind::NAME_REF => class_of_reference(elements, outer),
        _ => None,
    }
}
