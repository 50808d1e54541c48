//! Errors at places that are far in: behind many bytes, and of long strings.

use crate::answer::{Of, compare, text_of};
use kmip_ttlv::from_slice;
use sample_shapes::inputs::{NUMBER, long, repeated};
use sample_shapes::parts::{Part, Text};
use sample_shapes::shapes::Numbers;
use std::alloc::Global;
use std::test::Fail;

// What is read of a message is this text.
fn is_read_as<P: Part>(alloc: Global, message: &[u8], wanted: &str) -> Result<(), Fail> {
    let found = text_of::<P>(alloc, from_slice(alloc, message))?;
    compare(found.as_str(), "a message made here", wanted)
}

// The message with this byte in place of the one so many bytes before its end.
fn changed(message: Vec<u8>, before: usize, byte: u8) -> Vec<u8> {
    let mut message = message;
    let at = message.len().saturating_sub(before);
    if let Some(place) = message.get_mut(at) {
        *place = byte;
    }
    message
}

// Of 20,000 numbers the last one, whose type or length is wrong; and long texts that are none at their end.
#[test]
fn errors_behind_many_bytes(rt: HostRuntime) -> Result<(), Fail> {
    let alloc = rt.alloc();
    let message = changed(repeated(alloc, 20_000, &NUMBER)?, 9, 5);
    let wanted =
        "MalformedTtlv(InvalidLength { expected: 4, actual: 5, typ: Integer }); pos: 320000 bytes, parent tags: 0xAAAAAA, tag: 0xBBBBBB, type: Integer (0x02)";
    is_read_as::<Numbers>(alloc, message.as_slice(), wanted)?;
    let message = changed(message, 13, 0x0C);
    let wanted =
        "MalformedTtlv(InvalidType(12)); pos: 319995 bytes, parent tags: 0xAAAAAA, tag: 0xBBBBBB";
    is_read_as::<Numbers>(alloc, message.as_slice(), wanted)?;
    let message = changed(long(alloc, 7, 1_048_576)?, 1, 0xFF);
    let wanted =
        "MalformedTtlv(InvalidValue { typ: TextString }); pos: 1048592 bytes, parent tags: 0xAAAAAA, tag: 0xBBBBBB, type: TextString (0x07)";
    is_read_as::<Of<Text>>(alloc, message.as_slice(), wanted)
}
