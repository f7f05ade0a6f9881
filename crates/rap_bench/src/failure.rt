//! Why a job was not done.

use ra_ap_parser::{LexFault, NoMemory, ParseFault, TextFault};
use std::alloc::AllocError;

/// A text was not parsed, or there is no memory.
#[derive(Clone, Copy, Debug)]
pub struct Failure;

impl From<AllocError> for Failure {
    fn from(_: AllocError) -> Failure {
        Failure
    }
}

impl From<NoMemory> for Failure {
    fn from(_: NoMemory) -> Failure {
        Failure
    }
}

impl From<LexFault> for Failure {
    fn from(_: LexFault) -> Failure {
        Failure
    }
}

impl From<ParseFault> for Failure {
    fn from(_: ParseFault) -> Failure {
        Failure
    }
}

impl From<TextFault<NoMemory>> for Failure {
    fn from(_: TextFault<NoMemory>) -> Failure {
        Failure
    }
}
