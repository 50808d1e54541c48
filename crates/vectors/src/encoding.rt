//! Tries what values are encoded as.

use crate::errors::{error_text, has_any_words};
use crate::file::{text, text_if, value};
use crate::tally::Tally;
use crate::values::{MOST_DEEP, data_of};
use kmip_ttlv_base::error::Error;
use kmip_ttlv_base::shape::{Data, Serialize};
use kmip_ttlv_ser::{TtlvSerializer, to_vec, to_writer};
use serde_json::Value;
use std::alloc::{AllocError, Global};
use std::io;

// The bytes in hexadecimal, or the error, in words.
fn found_text(
    alloc: Global,
    found: &Result<Vec<u8>, Error>,
    any_words: bool,
) -> Result<String, AllocError> {
    match found {
        Ok(bytes) => hex::encode_upper(alloc, bytes.as_slice()),
        Err(error) => error_text(alloc, error, any_words),
    }
}

// What is wanted, in words.
fn wanted_text(alloc: Global, test: &Value) -> Result<String, AllocError> {
    match (text_if(test, "bytes"), value(test, "error")) {
        (Some(bytes), None) => String::from_str(alloc, bytes),
        (None, Some(error)) => error.to_string(alloc),
        _ => String::from_str(alloc, "bytes or an error"),
    }
}

// What a writer gets.
fn written(alloc: Global, data: &Data) -> Result<Vec<u8>, Error> {
    let mut writer = Vec::new(alloc);
    to_writer(alloc, data, &mut writer)?;
    Ok(writer)
}

// What a serializer gives.
fn serialized(alloc: Global, data: &Data) -> Result<Vec<u8>, Error> {
    let mut serializer = TtlvSerializer::new(alloc);
    serializer.serialize(data)?;
    serializer.into_vec()
}

// Whether the data of what this data tells is the same.
fn is_told_again(alloc: Global, data: &Data) -> bool {
    matches!(&data.to_data(alloc), Ok(again) if again == data)
}

// Compares what a call found with what is wanted.
fn try_bytes(
    tally: &mut Tally<'_>,
    test: &Value,
    what: &str,
    found: &Result<Vec<u8>, Error>,
    wanted: &str,
) -> io::Result<()> {
    let found = found_text(tally.alloc(), found, has_any_words(value(test, "error")))?;
    tally.compare(text(test, "name"), what, found.as_str(), wanted)
}

// Tries data: its bytes by each call, and that the data of what it tells is the same.
fn try_data(tally: &mut Tally<'_>, test: &Value, data: &Data, wanted: &str) -> io::Result<()> {
    let alloc = tally.alloc();
    try_bytes(tally, test, "encoded", &to_vec(alloc, data), wanted)?;
    try_bytes(tally, test, "written", &written(alloc, data), wanted)?;
    try_bytes(tally, test, "serialized", &serialized(alloc, data), wanted)?;
    let told = if is_told_again(alloc, data) {
        "the same"
    } else {
        "other data"
    };
    tally.compare(text(test, "name"), "told", told, "the same")
}

// The data of a test.
fn data_in(alloc: Global, test: &Value) -> Option<Data> {
    data_of(alloc, value(test, "value")?, MOST_DEEP)
}

/// Encodes a test's value, and compares its bytes, or the error, with those of the test.
pub fn try_encoding(tally: &mut Tally<'_>, test: &Value) -> io::Result<()> {
    tally.begin();
    let Some(data) = &data_in(tally.alloc(), test) else {
        return tally.compare(text(test, "name"), "value", "no value", "a value");
    };
    let wanted = wanted_text(tally.alloc(), test)?;
    try_data(tally, test, data, wanted.as_str())
}
