//! How long a message may be, and what is said of an answer that would be longer.
ghost use Rattle.std.specs.Prelude.{◌≡◌, ◌+◌, ◌≤◌, OnOk, length, max, string_bytes};
ghost use Rattle.std.specs.String.{string_capacity};
ghost use Rattle.rast_server.specs.declared.limit.TheConstants.{LIMIT};

use rast_messages::{Code, Fault};
use std::alloc::AllocError;

/// The longest content of a message to the server, and the longest result of a request whose result may be longer than in
/// proportion to its document, in bytes.
pub(crate) const LIMIT: usize = 268_435_456;

/// The tree of a document would be longer than the limit.
pub(crate) const TOO_DEEP: Fault = Fault {
    code: Code::RequestFailed,
    text: "the tree is too deep to be shown",
};

/// Another result would be.
pub(crate) const TOO_LONG: Fault = Fault {
    code: Code::RequestFailed,
    text: "the answer is too long",
};

/// Makes room for so many bytes more, and if there is too little for as many as there are, but never past the limit. The
/// error means out of memory.
pub(crate) fn make_room(json: &mut String, more: usize) -> Result<(), AllocError>
    requires { length (string_bytes json.old) + more ≤ LIMIT }
    ensures same { string_bytes json.new ≡ string_bytes json.old }
    ensures within { OnOk result (string_capacity json.new ≤ max (string_capacity json.old) LIMIT) }
{
    let len = json.len();
    if json.capacity() < len + more {
        let wanted = (len + more).max(len * 2).min(LIMIT);
        json.reserve_exact(wanted - len)?;
    }
    Ok(())
}
