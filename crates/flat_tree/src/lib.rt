//! Flat syntax trees: the nodes and leaves of a text's tree in one list, in preorder, each with its kind, its exact
//! place in the text, the index past all that is inside it, and the index of the node that it is in.
//!
//! [`FlatTree::of_text`] makes the tree of a text, [`FlatTree::build`] that of a lexed text and the output of its
//! parse. Elements are named by their indices; the root's is 0. Nothing but making a tree allocates memory.
//!
//! A flat tree is for going through a large text, up as well as down, or for keeping many trees: an element takes 20
//! bytes, and the whole tree one allocation. Of the crate `syntax_tree` a node is a value that can be handed on, with
//! its children as a slice; take that one for small parts of a tree, or for the texts of nodes without trivia.
//!
//! An index that no element has is no fault: nothing is found for it.
#![tactic(auto)]

mod ancestors;
mod builder;
mod children;
mod collector;
mod covering;
mod descendants;
mod element;
mod family;
mod field_children;
mod fields;
pub mod laws;
mod leaf_at;
mod leaves;
mod merge;
mod report;
mod room;
mod tree;

pub use ancestors::Ancestors;
pub use children::Children;
pub use element::{Element, NO_PARENT};
pub use field_children::FieldChildren;
pub use leaf_at::leaf_of;
pub use leaves::Leaves;
pub use rap_fields::field::Field;
pub use rap_ranged::message::Message;
pub use tree::FlatTree;
