//! What else is kept as it is, in requests and responses: the payload of a response, a credential, an attribute and a vendor's extension,
//! which hold any items, and items behind those that a payload's type has. The bytes are made of items by hand.

use crate::by_hand::{
    BOOLEAN, ENUMERATION, INTEGER, STRUCTURE, TEXT_STRING, asked, item, put, request, request_item,
    request_with, response, response_item,
};
use crate::fates::{Fate, envelope_fate_of_bytes, fate_of_bytes};
use crate::tally::Tally;
use std::alloc::{AllocError, Global};
use std::io;

// Items of a vendor: a structure of a Byte String, and a number.
const ITEMS: &[u8] = b"\
\x54\0\x01\x01\0\0\0\x10\x54\0\x02\x08\0\0\0\x05\x01\x02\x03\x04\x05\0\0\0\
\x54\0\x03\x02\0\0\0\x04\xFF\xFF\xFF\xFE\0\0\0\0";

// A Unique Identifier.
const IDENTIFIER: &[u8] = b"\x42\0\x94\x07\0\0\0\x03key\0\0\0\0\0";

// A response to an operation that no table has (KMIP 1.0, section 7.1).
fn unknown_done(alloc: Global) -> Result<Vec<u8>, AllocError> {
    let done = response_item(alloc, 0xFF, ITEMS)?;
    response(alloc, done.as_slice())
}

// A request of a client with a credential of type 9, which no table has (section 2.1.2).
fn identified(alloc: Global) -> Result<Vec<u8>, AllocError> {
    let mut parts = item(alloc, 0x420024, ENUMERATION, &[0, 0, 0, 9])?;
    put(&mut parts, 0x420025, STRUCTURE, ITEMS)?;
    let credential = item(alloc, 0x420023, STRUCTURE, parts.as_slice())?;
    let authentication = item(alloc, 0x42000C, STRUCTURE, credential.as_slice())?;
    let get = request_item(alloc, 0x0A, 1, IDENTIFIER, b"")?;
    request_with(alloc, authentication.as_slice(), 1, get.as_slice())
}

// A request to add an attribute of a client to an object (sections 3.33 and 4.13).
fn attribute_added(alloc: Global) -> Result<Vec<u8>, AllocError> {
    let mut parts = item(alloc, 0x42000A, TEXT_STRING, b"x-Something")?;
    put(&mut parts, 0x42000B, STRUCTURE, ITEMS)?;
    let mut payload = IDENTIFIER.to_vec(alloc)?;
    put(&mut payload, 0x420008, STRUCTURE, parts.as_slice())?;
    asked(alloc, 0x0D, payload.as_slice())
}

// A request to get an object, with a vendor's extension which who doesn't know it has to refuse (section 6.16).
fn extended(alloc: Global) -> Result<Vec<u8>, AllocError> {
    let mut parts = item(alloc, 0x42009D, TEXT_STRING, b"ACME")?;
    put(&mut parts, 0x420026, BOOLEAN, &[0, 0, 0, 0, 0, 0, 0, 1])?;
    put(&mut parts, 0x42009C, STRUCTURE, ITEMS)?;
    let extension = item(alloc, 0x420051, STRUCTURE, parts.as_slice())?;
    let get = request_item(alloc, 0x0A, 1, IDENTIFIER, extension.as_slice())?;
    request(alloc, 1, get.as_slice())
}

// A search with these bytes behind its first item, which says how many objects it may find (section 4.8).
fn searched(alloc: Global, behind: &[u8]) -> Result<Vec<u8>, AllocError> {
    let mut payload = item(alloc, 0x42004F, INTEGER, &[0, 0, 0, 1])?;
    payload.extend_from_slice(behind)?;
    asked(alloc, 0x08, payload.as_slice())
}

// What a server can do: an operation, and what a vendor adds (section 4.24).
fn able(alloc: Global) -> Result<Vec<u8>, AllocError> {
    let mut payload = item(alloc, 0x42005C, ENUMERATION, &[0, 0, 0, 0x18])?;
    payload.extend_from_slice(ITEMS)?;
    let done = response_item(alloc, 0x18, payload.as_slice())?;
    response(alloc, done.as_slice())
}

// A request to get an object, whose payload isn't that of the operation.
fn mistaken(alloc: Global) -> Result<Vec<u8>, AllocError> {
    asked(alloc, 0x0A, ITEMS)
}

// Whether a message comes back.
fn is_back(alloc: Global, bytes: &[u8]) -> bool {
    matches!(&fate_of_bytes(alloc, bytes), Fate::Back)
}

// Whether it does so with its payloads kept.
fn is_envelope_back(alloc: Global, bytes: &[u8]) -> bool {
    matches!(&envelope_fate_of_bytes(alloc, bytes), Fate::Back)
}

/// Tries them.
pub fn try_all(tally: &mut Tally<'_>) -> io::Result<()> {
    let alloc = tally.alloc();
    for (what, bytes) in [
        ("the payload of a response", &unknown_done(alloc)?),
        ("a credential of another type", &identified(alloc)?),
        ("an attribute of a client", &attribute_added(alloc)?),
        ("an extension of a vendor", &extended(alloc)?),
        ("items behind a search", &searched(alloc, ITEMS)?),
        ("items behind what a server can do", &able(alloc)?),
    ] {
        tally.note(
            what,
            is_back(alloc, bytes) && is_envelope_back(alloc, bytes),
        )?;
    }
    let late = &item(alloc, 0x42004F, INTEGER, &[0, 0, 0, 2])?;
    let is_unsound = matches!(
        &fate_of_bytes(alloc, &searched(alloc, late)?),
        Fate::Unsound
    );
    tally.note("a part behind the parts of a search", is_unsound)?;
    let bytes = &mistaken(alloc)?;
    let is_refused = matches!(&fate_of_bytes(alloc, bytes), Fate::Undecoded(_));
    tally.note("a mistaken payload", is_refused)?;
    tally.note("a mistaken payload is kept", is_envelope_back(alloc, bytes))
}
