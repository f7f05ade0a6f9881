//! The answers about a document, as JSON texts: those that are no longer than in proportion to its text.
use rast_answers::{Delta, Diagnostic, Fold, FoldKind, Listing};
use rast_document::Document;
use rast_messages::{position_of, push_comma, push_number, push_range, push_string};
use std::alloc::{AllocError, Global};

/// Adds a message at a range.
fn push_diagnostic(
    json: &mut String,
    document: &Document,
    diagnostic: &Diagnostic<'_>,
) -> Result<(), AllocError> {
    json.push_str("{\"range\":")?;
    push_range(json, document, diagnostic.start, diagnostic.end)?;
    json.push_str(",\"severity\":1,\"source\":\"rast\",\"message\":")?;
    push_string(json, diagnostic.text)?;
    json.push_str("}")?;
    Ok(())
}

/// Adds messages at their ranges.
pub fn push_diagnostics(
    json: &mut String,
    document: &Document,
    list: &[Diagnostic<'_>],
) -> Result<(), AllocError> {
    let mut is_first = true;
    for diagnostic in list {
        push_comma(json, &mut is_first)?;
        push_diagnostic(json, document, diagnostic)?;
    }
    Ok(())
}

/// Adds what folds.
fn push_fold(json: &mut String, document: &Document, fold: &Fold) -> Result<(), AllocError> {
    let start = position_of(document, fold.start);
    let end = position_of(document, fold.end);
    let (first, from, last, to) = (start.line, start.character, end.line, end.character);
    json.push_str("{\"startLine\":")?;
    push_number(json, first)?;
    json.push_str(",\"startCharacter\":")?;
    push_number(json, from)?;
    json.push_str(",\"endLine\":")?;
    push_number(json, last)?;
    json.push_str(",\"endCharacter\":")?;
    push_number(json, to)?;
    json.push_str(match fold.kind {
        FoldKind::Block => "}",
        FoldKind::Comment => ",\"kind\":\"comment\"}",
        FoldKind::Imports => ",\"kind\":\"imports\"}",
    })?;
    Ok(())
}

/// What folds.
pub fn folds(alloc: Global, listing: &Listing<'_>) -> Result<String, AllocError> {
    let list = listing.folds(alloc)?;
    let mut json = String::from_str(alloc, "[")?;
    let mut is_first = true;
    for fold in list.as_slice() {
        push_comma(&mut json, &mut is_first)?;
        push_fold(&mut json, listing.document(), fold)?;
    }
    json.push_str("]")?;
    Ok(json)
}

/// What belongs together with what stands at an offset.
pub fn highlights(
    alloc: Global,
    listing: &Listing<'_>,
    offset: usize,
) -> Result<String, AllocError> {
    let list = listing.highlights(alloc, offset)?;
    let mut json = String::from_str(alloc, "[")?;
    let mut is_first = true;
    for extent in list.as_slice() {
        push_comma(&mut json, &mut is_first)?;
        json.push_str("{\"range\":")?;
        push_range(&mut json, listing.document(), extent.start, extent.end)?;
        json.push_str("}")?;
    }
    json.push_str("]")?;
    Ok(json)
}

/// Adds the five numbers of a token.
fn push_token(json: &mut String, token: &Delta) -> Result<(), AllocError> {
    let Delta {
        line,
        start,
        length,
        kind,
        modifiers,
    } = token;
    let kind = kind.number();
    push_number(json, *line)?;
    json.push(',')?;
    push_number(json, *start)?;
    json.push(',')?;
    push_number(json, *length)?;
    json.push(',')?;
    push_number(json, kind as usize)?;
    json.push(',')?;
    push_number(json, *modifiers as usize)?;
    Ok(())
}

/// Tokens as numbers.
pub fn tokens(alloc: Global, list: &[Delta]) -> Result<String, AllocError> {
    let mut json = String::from_str(alloc, "{\"data\":[")?;
    let mut is_first = true;
    for token in list {
        push_comma(&mut json, &mut is_first)?;
        push_token(&mut json, token)?;
    }
    json.push_str("]}")?;
    Ok(json)
}
