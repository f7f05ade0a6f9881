//! Replies and notifications of the server.
ghost use Rattle.std.specs.Prelude.{◌≡◌, ◌++◌, false, IfOk, MatchOption, codes, string_bytes};
ghost use Rattle.serde_json.specs.Data.{null};
ghost use Rattle.serde_json.specs.View.{view};
ghost use Rattle.serde_json.specs.Written.{has_float};
ghost use Rattle.rast_messages.specs.Replies.{begun, error_text, failure, notification_begun, notification_text, number_of, shown_params, success_text};

use crate::pieces::push_string;
use serde_json::Value;
use std::alloc::{AllocError, Global};
use std::fmt::Write as _;

/// Why a request has no result: the errors of JSON-RPC and of the protocol.
#[derive(Clone, Copy, Debug, PartialEq, Eq)]
pub enum Code {
    /// The content of a message is no JSON, or its header is none.
    ParseError,
    /// The content is no request, or none at this time.
    InvalidRequest,
    /// The server has no such method.
    MethodNotFound,
    /// The parameters are not those of the method.
    InvalidParams,
    /// Out of memory.
    InternalError,
    /// The request came before `initialize`.
    ServerNotInitialized,
    /// The request is as it must be, and cannot be answered.
    RequestFailed,
}

impl Code {
    /// Its number.
    fn number(self) -> &'static str
        ensures { result.now ≡ number_of self }
    {
        match self {
            Code::ParseError => "-32700",
            Code::InvalidRequest => "-32600",
            Code::MethodNotFound => "-32601",
            Code::InvalidParams => "-32602",
            Code::InternalError => "-32603",
            Code::ServerNotInitialized => "-32002",
            Code::RequestFailed => "-32803",
        }
    }
}

/// What an error message says if memory ran out, and nothing more can be said.
pub const OUT_OF_MEMORY: &str =
    "{\"jsonrpc\":\"2.0\",\"id\":null,\"error\":{\"code\":-32603,\"message\":\"out of memory\"}}";

/// An error with what it says.
#[derive(Clone, Copy, Debug)]
pub struct Fault {
    /// Its code.
    pub code: Code,
    /// What it says.
    pub text: &'static str,
}

/// Out of memory.
pub const NO_MEMORY: Fault = Fault {
    code: Code::InternalError,
    text: "out of memory",
};

impl From<AllocError> for Fault {
    ghost use Rattle.rast_messages.specs.declared.reply.Code.TheVariants.{InternalError};

    ghost from_gives = { λ _ fault. (fault.code ≡ InternalError) × (fault.text.now ≡ codes "out of memory") };

    fn from(_error: AllocError) -> Fault {
        NO_MEMORY
    }
}

/// What a reply begins with: the id of the request, or `null` if that cannot be told.
#[tactic(auto, unfolding(crate::specs::Replies::begun))]
fn begin(alloc: Global, id: Option<&Value>) -> Result<String, AllocError>
    ensures { IfOk result (λ json. MatchOption id.entry (string_bytes json ≡ begun null)
        (λ id. has_float (view id.now) ≡ false → string_bytes json ≡ begun (view id.now))) }
{
    let mut json = String::from_str(alloc, "{\"jsonrpc\":\"2.0\",\"id\":")?;
    match id {
        None => json.push_str("null")?,
        Some(id) => {
            let id = id.to_string(alloc)?;
            json.push_str(id.as_str())?;
        }
    }
    Ok(json)
}

/// The reply to a request with its result, a JSON text. A long one is copied into room that is made for it at once.
pub fn success(alloc: Global, id: &Value, value: &str) -> Result<String, AllocError>
    ensures { IfOk result (λ json. has_float (view id.now) ≡ false
        → string_bytes json ≡ success_text (view id.now) value.now) }
{
    let mut json = begin(alloc, Some(id))?;
    json.push_str(",\"result\":")?;
    json.reserve_exact(value.len().saturating_add(1))?;
    json.push_str(value)?;
    json.push_str("}")?;
    Ok(json)
}

/// The reply to a request, or to a message that is none, with an error.
pub fn error(alloc: Global, id: Option<&Value>, fault: Fault) -> Result<String, AllocError>
    ensures { IfOk result (λ json. MatchOption id.entry (string_bytes json ≡ error_text null fault)
        (λ id. has_float (view id.now) ≡ false → string_bytes json ≡ error_text (view id.now) fault)) }
{
    let mut json = begin(alloc, id)?;
    let number = fault.code.number();
    write!(json, ",\"error\":{{\"code\":{number},\"message\":")?;
    push_string(&mut json, fault.text)?;
    json.push_str("}}")?;
    Ok(json)
}

/// What a notification of a method begins with: its parameters follow, a JSON text, and then `}`. So long parameters are
/// written where they stay.
pub fn begin_notification(alloc: Global, method: &str) -> Result<String, AllocError>
    ensures { IfOk result (λ json. string_bytes json ≡ notification_begun method.now) }
{
    let mut json = String::from_str(alloc, "{\"jsonrpc\":\"2.0\",\"method\":\"")?;
    json.push_str(method)?;
    json.push_str("\",\"params\":")?;
    Ok(json)
}

/// A notification of a method with its parameters, a JSON text.
pub fn notification(alloc: Global, method: &str, params: &str) -> Result<String, AllocError>
    ensures { IfOk result (λ json. string_bytes json ≡ notification_text method.now params.now) }
{
    let mut json = begin_notification(alloc, method)?;
    json.push_str(params)?;
    json.push_str("}")?;
    Ok(json)
}

/// What is said of a notification that failed: its method and why.
#[tactic(auto, unfolding(crate::specs::Replies::failure))]
fn failure(alloc: Global, method: &str, text: &str) -> Result<String, AllocError>
    ensures { IfOk result (λ said. string_bytes said ≡ failure method.now text.now) }
{
    let mut said = String::from_str(alloc, method)?;
    said.push_str(": ")?;
    said.push_str(text)?;
    Ok(said)
}

/// The parameters of a notification that shows a text as an error.
#[tactic(auto, unfolding(crate::specs::Replies::shown_params))]
fn shown_params(alloc: Global, text: &str) -> Result<String, AllocError>
    ensures { IfOk result (λ params. string_bytes params ≡ shown_params text.now) }
{
    let mut params = String::from_str(alloc, "{\"type\":1,\"message\":")?;
    push_string(&mut params, text)?;
    params.push_str("}")?;
    Ok(params)
}

/// The notification that a notification of the editor failed.
pub fn log(alloc: Global, method: &str, fault: Fault) -> Result<String, AllocError>
    ensures { IfOk result (λ json. string_bytes json ≡ notification_text (codes "window/logMessage")
        (shown_params (failure method.now fault.text.now))) }
{
    let text = failure(alloc, method, fault.text)?;
    let params = shown_params(alloc, text.as_str())?;
    notification(alloc, "window/logMessage", params.as_str())
}
