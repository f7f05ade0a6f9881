//! A tree in one list, in numbers: its nodes and leaves, its messages, and what a call returns of them.
ghost use Rattle.std.specs.Prelude.{◌≡◌, MatchResult};
ghost use Rattle.rap_c.specs.NodesAnswer.{nodes_refusal};

use crate::answer::Fault;

/// What stands for the parent of the root, which has none, and the number of elements for which there is room at most:
/// it is no element's index.
pub const NO_PARENT: u32 = 4_294_967_295;

/// A node or a leaf: its kind, the bytes of the text at which it begins and ends, the index past all that is in it, and
/// the index of the node that it is in.
#[repr(C)]
#[derive(Clone, Copy, Debug, PartialEq, Eq)]
pub struct RapElement {
    pub kind: u32,
    pub start: u32,
    pub end: u32,
    pub after: u32,
    pub parent: u32,
}

/// A message: the byte of the text at which it is, the range of the leaf there, and the range of its own bytes in the
/// slice of messages' bytes.
#[repr(C)]
#[derive(Clone, Copy, Debug, PartialEq, Eq)]
pub struct RapMessage {
    pub at: usize,
    pub start: usize,
    pub end: usize,
    pub text_start: usize,
    pub text_end: usize,
}

/// What a call returns: its status, how many elements, messages and bytes of messages there are, and how many bytes of
/// the text they are about.
///
/// Where the status is a fault's, the other numbers are 0.
#[repr(C)]
#[derive(Clone, Copy, Debug, PartialEq, Eq)]
pub struct RapNodesAnswer {
    pub status: u32,
    pub elements: usize,
    pub messages: usize,
    pub message_bytes: usize,
    pub used: usize,
}

/// The result of a call that may have met a fault.
pub fn settle_nodes(outcome: Result<RapNodesAnswer, Fault>) -> RapNodesAnswer
    ensures { MatchResult outcome (λ answer. result ≡ answer) (λ fault. result ≡ nodes_refusal fault) }
{
    match outcome {
        Ok(answer) => answer,
        Err(fault) => RapNodesAnswer {
            status: fault.number(),
            elements: 0,
            messages: 0,
            message_bytes: 0,
            used: 0,
        },
    }
}
