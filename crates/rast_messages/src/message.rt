//! What a message is, by JSON-RPC.
ghost use Rattle.std.specs.Prelude.{◌≡◌, option_map};
ghost use Rattle.serde_json.specs.View.{view};
ghost use Rattle.rast_messages.specs.Messages.{Classifies, id_in, is_id};

use serde_json::Value;

/// A message.
#[derive(Clone, Copy)]
pub enum Message<'a> {
    /// A request, to which a reply with its id must be sent.
    Request { id: &'a Value, method: &'a str },
    /// A notification.
    Notification { method: &'a str },
    /// A reply, of which the server expects none.
    Response,
    /// None of these, with its id if that can be told.
    Invalid { id: Option<&'a Value> },
}

/// Whether a value is an id: a string or an integer.
fn is_id(value: &Value) -> bool
    ensures { result ≡ is_id (view value.now) }
{
    match value {
        Value::String(_) => true,
        Value::Number(number) => !number.is_f64(),
        _ => false,
    }
}

/// The id of a message, if it is one.
fn id_of(message: &Value) -> Option<&Value>
    ensures { option_map (λ v. view v.now) result ≡ id_in (view message.now) }
{
    match message.get("id") {
        Some(id) => if is_id(id) { Some(id) } else { None },
        None => None,
    }
}

/// What a message is.
pub fn classify(message: &Value) -> Message<'_>
    ensures { Classifies (view message.now) result }
{
    let id = id_of(message);
    if message.get("jsonrpc").and_then(Value::as_str) != Some("2.0") {
        return Message::Invalid { id };
    }
    let has_id = message.get("id").is_some();
    match (message.get("method").and_then(Value::as_str), id) {
        (Some(method), Some(id)) => Message::Request { id, method },
        (Some(method), None) => {
            if has_id {
                Message::Invalid { id }
            } else {
                Message::Notification { method }
            }
        }
        (None, _) => {
            if has_id && (message.get("result").is_some() || message.get("error").is_some()) {
                Message::Response
            } else {
                Message::Invalid { id }
            }
        }
    }
}
