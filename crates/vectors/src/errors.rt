//! Errors as JSON, with their places (docs/VECTORS.md).

use kmip_ttlv_base::error::{Error, ErrorKind, ErrorLocation, SerdeError};
use serde_json::Value;
use std::alloc::{AllocError, Global};

/// Whether the words of an error don't matter: of kind `SerdeError(Other)`, where none are wanted.
pub fn has_any_words(wanted: Option<&Value>) -> bool {
    match wanted {
        Some(error) => {
            matches!(error.get("kind"), Some(Value::String(kind)) if kind.as_str() == "SerdeError(Other)")
        }
        None => false,
    }
}

// The kind of an error, in words.
fn kind_text(alloc: Global, kind: &ErrorKind, any_words: bool) -> Result<String, AllocError> {
    match kind {
        ErrorKind::IoError(cause) => format!(in alloc; "{:?}", cause.kind()),
        ErrorKind::SerdeError(SerdeError::Other(_)) if any_words => {
            String::from_str(alloc, "SerdeError(Other)")
        }
        kind => format!(in alloc; "{kind:?}"),
    }
}

// Adds the tags of the structures around.
fn push_parents(text: &mut String, place: &ErrorLocation) -> Result<(), AllocError> {
    let mut before = ",\"parents\":[";
    for tag in place.parent_tags() {
        write!(text, "{before}\"{tag}\"")?;
        before = ",";
    }
    text.push_str(if before == "," { "]" } else { "" })
}

// Adds the place of an error, as far as it is known.
fn push_place(text: &mut String, place: &ErrorLocation) -> Result<(), AllocError> {
    if let Some(offset) = place.offset() {
        let offset = offset.0;
        write!(text, ",\"offset\":{offset}")?;
    }
    push_parents(text, place)?;
    if let Some(tag) = place.tag() {
        write!(text, ",\"tag\":\"{tag}\"")?;
    }
    if let Some(typ) = place.typ() {
        write!(text, ",\"type\":\"{typ:?}\"")?;
    }
    text.push('}')
}

/// An error as JSON, its members in the order of their names.
pub fn error_text(alloc: Global, error: &Error, any_words: bool) -> Result<String, AllocError> {
    let kind = kind_text(alloc, error.kind(), any_words)?;
    let mut text = format!(in alloc; "{{\"kind\":{kind:?}")?;
    push_place(&mut text, error.location())?;
    Ok(text)
}
