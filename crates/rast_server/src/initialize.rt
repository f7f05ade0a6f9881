//! The result of `initialize`.
use rast_answers::{TOKEN_KINDS, TOKEN_MODIFIERS};
use rast_document::Encoding;
use std::alloc::{AllocError, Global};

/// Adds names, each in quotes. They hold no character that JSON escapes.
fn push_names(json: &mut String, names: &[&str]) -> Result<(), AllocError> {
    let mut separator = "\"";
    for name in names {
        json.push_str(separator)?;
        json.push_str(name)?;
        separator = "\",\"";
    }
    json.push_str("\"")?;
    Ok(())
}

/// The protocol's name of an encoding.
fn name_of(encoding: Encoding) -> &'static str {
    match encoding {
        Encoding::Utf8 => "utf-8",
        Encoding::Utf16 => "utf-16",
        Encoding::Utf32 => "utf-32",
    }
}

/// What the server can do, with the encoding of positions. The error means out of memory.
pub fn capabilities(alloc: Global, encoding: Encoding) -> Result<String, AllocError> {
    let mut json = String::from_str(alloc, "{\"capabilities\":{\"positionEncoding\":\"")?;
    json.push_str(name_of(encoding))?;
    json.push_str("\",\"textDocumentSync\":{\"openClose\":true,\"change\":2}")?;
    json.push_str(",\"documentSymbolProvider\":true,\"foldingRangeProvider\":true")?;
    json.push_str(",\"selectionRangeProvider\":true,\"documentHighlightProvider\":true")?;
    json.push_str(
        ",\"semanticTokensProvider\":{\"full\":true,\"range\":true,\"legend\":{\"tokenTypes\":[",
    )?;
    push_names(&mut json, &TOKEN_KINDS)?;
    json.push_str("],\"tokenModifiers\":[")?;
    push_names(&mut json, &TOKEN_MODIFIERS)?;
    json.push_str("]}}},\"serverInfo\":{\"name\":\"rast_server\",\"version\":\"0.0.360\"}}")?;
    Ok(json)
}
