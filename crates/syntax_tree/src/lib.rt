//! Syntax trees that own their nodes: each node and each leaf has its kind and its exact place in the text.
//!
//! [`Tree::build`] makes the tree of a lexed text and the output of its parse; [`Tree::root`] is its root, and each
//! [`Node`] returns its children.
#![tactic(auto)]

mod builder;
mod collector;
mod covering;
mod element;
pub mod laws;
mod leaf;
mod leaf_at;
mod next;
mod node;
mod plain_text;
mod queries;
mod report;
mod traversal;
mod tree;
mod walk;

pub use element::Element;
pub use leaf::Leaf;
pub use node::{Child, Node};
pub use rap_ranged::message::Message;
pub use traversal::{Descendants, Leaves};
pub use tree::Tree;
