//! A step of a tree, in numbers.

/// A node begins.
pub const ENTER: u32 = 0;

/// The newest open node ends.
pub const EXIT: u32 = 1;

/// A token, a leaf of the newest open node.
pub const TOKEN: u32 = 2;

/// A message.
pub const MESSAGE: u32 = 3;

/// A split float of a field access, among steps that make no tree.
pub const SPLIT: u32 = 4;

/// A step: what it is, the kind of its node or its token, the place at which it stands, and its bytes.
///
/// Places and bytes are those of the text. The bytes of a message are those of the messages' slice. Among steps that
/// make no tree, places and bytes count the text's tokens that are no trivia.
#[repr(C)]
#[derive(Clone, Copy, Debug, PartialEq, Eq)]
pub struct RapStep {
    pub what: u32,
    pub kind: u32,
    pub at: usize,
    pub start: usize,
    pub end: usize,
}
