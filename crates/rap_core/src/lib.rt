//! Whether a text is in the core grammar, and what of it is outside.
//!
//! [`is_derived`] returns `true` only where the core grammar derives the text's tokens as a file, and the text's tree is
//! the derivation's, without a message. [`outside_core`] returns the places of what is outside of it.
#![tactic(auto)]

mod derived;
mod listing;
mod nodes;

pub use derived::{is_derived, outside_core};
pub use listing::{Place, Places};
