//! Kinds of symbols.
ghost use Rattle.std.specs.Prelude.{◌≡◌};
ghost use Rattle.rast_answers.specs.SymbolTable.{symbol_kind, symbol_number};

use rap_base::syntax_kind::SyntaxKind;

/// What a symbol is.
#[derive(Clone, Copy, Debug, PartialEq, Eq)]
pub enum SymbolKind {
    /// A module.
    Module,
    /// A function.
    Function,
    /// A function of an `impl` or a trait.
    Method,
    /// A struct.
    Struct,
    /// A union.
    Union,
    /// An enum.
    Enum,
    /// A variant of an enum.
    Variant,
    /// A field with a name.
    Field,
    /// A trait.
    Trait,
    /// An `impl`.
    Impl,
    /// A type alias.
    TypeAlias,
    /// A constant.
    Constant,
    /// A static.
    Static,
    /// A macro.
    Macro,
}

impl SymbolKind {
    /// The number of the protocol's kind that comes closest.
    pub fn number(self) -> u32
        ensures { result ≡ symbol_number self }
    {
        match self {
            SymbolKind::Module => 2,
            SymbolKind::Function | SymbolKind::Macro => 12,
            SymbolKind::Method => 6,
            SymbolKind::Struct | SymbolKind::Union => 23,
            SymbolKind::Enum => 10,
            SymbolKind::Variant => 22,
            SymbolKind::Field => 8,
            SymbolKind::Trait => 11,
            SymbolKind::Impl => 19,
            SymbolKind::TypeAlias => 26,
            SymbolKind::Constant | SymbolKind::Static => 14,
        }
    }
}

/// What a node of this kind in a node of that kind declares.
pub(crate) fn symbol_kind(kind: SyntaxKind, around: SyntaxKind) -> Option<SymbolKind>
    ensures { result ≡ symbol_kind kind around }
{
    match kind {
        SyntaxKind::MODULE => Some(SymbolKind::Module),
        SyntaxKind::FN => {
            if around == SyntaxKind::ASSOC_ITEM_LIST {
                Some(SymbolKind::Method)
            } else {
                Some(SymbolKind::Function)
            }
        }
        SyntaxKind::STRUCT => Some(SymbolKind::Struct),
        SyntaxKind::UNION => Some(SymbolKind::Union),
        SyntaxKind::ENUM => Some(SymbolKind::Enum),
        SyntaxKind::VARIANT => Some(SymbolKind::Variant),
        SyntaxKind::RECORD_FIELD => Some(SymbolKind::Field),
        SyntaxKind::TRAIT => Some(SymbolKind::Trait),
        SyntaxKind::IMPL => Some(SymbolKind::Impl),
        SyntaxKind::TYPE_ALIAS => Some(SymbolKind::TypeAlias),
        SyntaxKind::CONST => Some(SymbolKind::Constant),
        SyntaxKind::STATIC => Some(SymbolKind::Static),
        SyntaxKind::MACRO_RULES | SyntaxKind::MACRO_DEF => Some(SymbolKind::Macro),
        _ => None,
    }
}
