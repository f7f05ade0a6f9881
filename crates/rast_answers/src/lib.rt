//! What an editor is answered about a document: diagnostics, symbols, folds, selections, highlights, tokens.
//!
//! [`Analysis::of_document`] parses a document; each of its other methods makes one answer, in byte offsets of the text
//! on character boundaries. Only the tokens are in positions of the document, since their numbers are. A [`Listing`]
//! answers the same, but for the diagnostics, of a document whose tree's list is kept.
#![tactic(auto)]

mod about;
mod analysis;
mod brackets;
mod comments;
mod deltas;
mod diagnostic;
mod extent;
mod folds;
mod highlights;
mod imports;
mod jumps;
mod kinds;
pub mod laws;
mod lines;
mod listing;
mod lists;
mod places;
mod rows;
mod selection;
mod symbol_kind;
mod symbols;
mod token_kind;
mod tokens;

pub use analysis::Analysis;
pub use deltas::Delta;
pub use diagnostic::{Diagnostic, diagnostics};
pub use extent::Extent;
pub use folds::{Fold, FoldKind};
pub use listing::Listing;
pub use symbol_kind::SymbolKind;
pub use symbols::Symbol;
pub use token_kind::{
    DECLARATION, DOCUMENTATION, READONLY, STATIC, TOKEN_KINDS, TOKEN_MODIFIERS, TokenKind,
};
