//! Items, a file for each kind but structs, unions and enums.
#![tactic(auto)]

pub mod consts;
pub mod functions;
pub mod macros;
pub mod modifiers;
pub mod modules;
pub mod traits;
pub mod use_item;
