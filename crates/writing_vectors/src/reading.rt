//! A type with a shape, read: a structure of one number.

use crate::low_level::is_text;
use kmip_ttlv::error::{Error, ErrorKind, Result};
use kmip_ttlv::from_slice;
use std::alloc::Global;
use ttlv_vectors::samples::Single;

// A message, and the number in it or why it is an error and where. Their shape is that of `leaves.json` of the program `vectors`, where
// the other rows are.
const ROWS: [(&str, &str); 3] = [
    ("AAAAAA0100000010BBBBBB02000000040000000300000000", "3"),
    (
        "AAAAAA0100000010BBBBBB02000000050000000300000000",
        "MalformedTtlv(InvalidLength { expected: 4, actual: 5, typ: Integer }); pos: 16 bytes, parent tags: 0xAAAAAA, tag: 0xBBBBBB, type: Integer (0x02)",
    ),
    (
        "AAAAAA0100000010BBBBBB0200000004000000030000",
        "UnexpectedEof",
    ),
];

// Whether an error is printed so, with its place. Of an early end no place is said.
fn is_error_of(alloc: Global, error: &Error, text: &str) -> bool {
    let place = error.location();
    match error.kind() {
        ErrorKind::IoError(cause) => {
            let kind = cause.kind();
            is_text(&format!(in alloc; "{kind:?}"), text)
        }
        kind => is_text(&format!(in alloc; "{kind:?}; {place}"), text),
    }
}

// Whether what is read is this number, or the error that is printed so.
fn is_answered(alloc: Global, read: &Result<Single>, text: &str) -> bool {
    match read {
        Ok(single) => {
            let number = single.number;
            is_text(&format!(in alloc; "{number}"), text)
        }
        Err(error) => is_error_of(alloc, error, text),
    }
}

// Whether the message is read as this.
fn is_read_as(alloc: Global, message: &str, text: &str) -> bool {
    match &hex::decode(alloc, message) {
        Ok(bytes) => is_answered(alloc, &from_slice(alloc, bytes), text),
        Err(_) => false,
    }
}

#[test]
fn a_number_is_read_or_an_error(rt: HostRuntime) {
    for row in &ROWS {
        let (message, text) = *row;
        let is_right = is_read_as(rt.alloc(), message, text);
        assert!(rt; is_right, "{message}");
    }
}
