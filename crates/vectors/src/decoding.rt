//! Tries what bytes are decoded as by a shape.

use crate::errors::{error_text, has_any_words};
use crate::file::{DECODING, flag, has_members, list, text, value};
use crate::shapes::shape_of;
use crate::tally::Tally;
use crate::values::{MOST_DEEP, data_of};
use kmip_ttlv_base::error::ErrorKind;
use kmip_ttlv_base::shape::Shape;
use kmip_ttlv_de::from_slice_by_shape;
use serde_json::Value;
use std::alloc::{AllocError, Global};
use std::io;

// What bytes are decoded as, or the error, in words.
fn found_text(
    alloc: Global,
    shape: &Shape,
    bytes: &[u8],
    any_words: bool,
) -> Result<String, AllocError> {
    match &from_slice_by_shape(alloc, shape, bytes) {
        Ok(data) => format!(in alloc; "{data:?}"),
        Err(error) => error_text(alloc, error, any_words),
    }
}

// A value in words.
fn value_text(alloc: Global, json: &Value) -> Result<String, AllocError> {
    match &data_of(alloc, json, MOST_DEEP) {
        Some(data) => format!(in alloc; "{data:?}"),
        None => String::from_str(alloc, "JSON that is a value"),
    }
}

// What is wanted, in words.
fn wanted_text(alloc: Global, test: &Value) -> Result<String, AllocError> {
    match (value(test, "value"), value(test, "error")) {
        (Some(json), None) => value_text(alloc, json),
        (None, Some(error)) => error.to_string(alloc),
        _ => String::from_str(alloc, "a value or an error"),
    }
}

// Whether bytes end too early, at no place.
fn is_early(alloc: Global, shape: &Shape, bytes: &[u8]) -> bool {
    match &from_slice_by_shape(alloc, shape, bytes) {
        Ok(_) => false,
        Err(error) => match error.kind() {
            ErrorKind::IoError(cause) => {
                cause.kind() == io::ErrorKind::UnexpectedEof && error.location().is_unknown()
            }
            _ => false,
        },
    }
}

// Tries each beginning of the bytes.
fn try_cuts(tally: &mut Tally<'_>, test: &str, shape: &Shape, bytes: &[u8]) -> io::Result<()> {
    for count in 0..bytes.len() {
        let cut = bytes.get(..count).unwrap_or(bytes);
        let is_early = is_early(tally.alloc(), shape, cut);
        let found = if is_early {
            "an early end"
        } else {
            "another outcome"
        };
        tally.compare(test, "a beginning", found, "an early end")?;
    }
    Ok(())
}

// Tries bytes.
fn try_bytes(tally: &mut Tally<'_>, test: &Value, shape: &Shape, bytes: &[u8]) -> io::Result<()> {
    let alloc = tally.alloc();
    let any_words = has_any_words(value(test, "error"));
    let found = found_text(alloc, shape, bytes, any_words)?;
    let wanted = wanted_text(alloc, test)?;
    let name = text(test, "name");
    tally.compare(name, "decoded", found.as_str(), wanted.as_str())
}

// Tries a test.
fn try_decoding(tally: &mut Tally<'_>, shape: &Shape, test: &Value) -> io::Result<()> {
    tally.begin();
    let Ok(bytes) = &hex::decode(tally.alloc(), text(test, "bytes")) else {
        return tally.compare(text(test, "name"), "bytes", "no digits", "digits");
    };
    try_bytes(tally, test, shape, bytes)?;
    if flag(test, "cuts") {
        try_cuts(tally, text(test, "name"), shape, bytes)?;
    }
    Ok(())
}

// The shape of tests.
fn shape_in(alloc: Global, decodings: &Value) -> Option<Shape> {
    shape_of(alloc, value(decodings, "shape")?, MOST_DEEP)
}

/// Tries the tests of a shape.
pub fn try_decodings(tally: &mut Tally<'_>, decodings: &Value) -> io::Result<()> {
    let Some(shape) = &shape_in(tally.alloc(), decodings) else {
        return tally.compare("a shape", "shape", "no shape", "a shape");
    };
    for test in list(decodings, "tests") {
        if has_members(&DECODING, test) {
            try_decoding(tally, shape, test)?;
        } else {
            tally.differs(text(test, "name"), "decodings")?;
        }
    }
    Ok(())
}
