//! Messages that are written item by item, as KMIP 1.0, section 9.1.1, has them, and by no code of the libraries that are tested.

use std::alloc::{AllocError, Global};

/// The type code of a Structure (section 9.1.1.2).
pub const STRUCTURE: u8 = 1;

/// That of an Integer.
pub const INTEGER: u8 = 2;

/// That of an Enumeration.
pub const ENUMERATION: u8 = 5;

/// That of a Boolean.
pub const BOOLEAN: u8 = 6;

/// That of a Text String.
pub const TEXT_STRING: u8 = 7;

const BYTE_STRING: u8 = 8;

const DATE_TIME: u8 = 9;

/// Puts an item at the end: its tag, its type, its length, its content, and zeros until it is a multiple of eight bytes long.
pub fn put(bytes: &mut Vec<u8>, tag: u32, typ: u8, content: &[u8]) -> Result<(), AllocError> {
    let [_, first, second, third] = tag.to_be_bytes();
    bytes.extend_from_slice(&[first, second, third, typ])?;
    let length = u32::try_from(content.len()).unwrap_or(u32::MAX);
    bytes.extend_from_slice(&length.to_be_bytes())?;
    bytes.extend_from_slice(content)?;
    let padding = content.len().wrapping_neg() % 8;
    for _ in 0..padding {
        bytes.push(0)?;
    }
    Ok(())
}

/// An item alone.
pub fn item(alloc: Global, tag: u32, typ: u8, content: &[u8]) -> Result<Vec<u8>, AllocError> {
    let mut bytes = Vec::new(alloc);
    put(&mut bytes, tag, typ, content)?;
    Ok(bytes)
}

// Version 1.2 of the protocol (section 6.1).
fn version(alloc: Global) -> Result<Vec<u8>, AllocError> {
    let mut numbers = Vec::new(alloc);
    put(&mut numbers, 0x42006A, INTEGER, &[0, 0, 0, 1])?;
    put(&mut numbers, 0x42006B, INTEGER, &[0, 0, 0, 2])?;
    item(alloc, 0x420069, STRUCTURE, numbers.as_slice())
}

/// A request of so many items (section 7.1), with these items in its header between the version and their number (section 7.2).
pub fn request_with(
    alloc: Global,
    header: &[u8],
    count: u8,
    items: &[u8],
) -> Result<Vec<u8>, AllocError> {
    let mut begin = version(alloc)?;
    begin.extend_from_slice(header)?;
    put(&mut begin, 0x42000D, INTEGER, &[0, 0, 0, count])?;
    let mut content = item(alloc, 0x420077, STRUCTURE, begin.as_slice())?;
    content.extend_from_slice(items)?;
    item(alloc, 0x420078, STRUCTURE, content.as_slice())
}

/// A request of so many items.
pub fn request(alloc: Global, count: u8, items: &[u8]) -> Result<Vec<u8>, AllocError> {
    request_with(alloc, b"", count, items)
}

/// A response of one item, that was made at the beginning of 1970.
pub fn response(alloc: Global, item_bytes: &[u8]) -> Result<Vec<u8>, AllocError> {
    let mut begin = version(alloc)?;
    put(&mut begin, 0x420092, DATE_TIME, &[0, 0, 0, 0, 0, 0, 0, 0])?;
    put(&mut begin, 0x42000D, INTEGER, &[0, 0, 0, 1])?;
    let mut content = item(alloc, 0x42007A, STRUCTURE, begin.as_slice())?;
    content.extend_from_slice(item_bytes)?;
    item(alloc, 0x42007B, STRUCTURE, content.as_slice())
}

/// An item of a request: of the operation of this number, with an identifier of one byte, a payload of this content, and this behind it.
pub fn request_item(
    alloc: Global,
    operation: u8,
    id: u8,
    payload: &[u8],
    behind: &[u8],
) -> Result<Vec<u8>, AllocError> {
    let mut parts = Vec::new(alloc);
    put(&mut parts, 0x42005C, ENUMERATION, &[0, 0, 0, operation])?;
    put(&mut parts, 0x420093, BYTE_STRING, &[id])?;
    put(&mut parts, 0x420079, STRUCTURE, payload)?;
    parts.extend_from_slice(behind)?;
    item(alloc, 0x42000F, STRUCTURE, parts.as_slice())
}

/// A request of one item: of the operation of this number, with a payload of this content.
pub fn asked(alloc: Global, operation: u8, payload: &[u8]) -> Result<Vec<u8>, AllocError> {
    let one = request_item(alloc, operation, 1, payload, b"")?;
    request(alloc, 1, one.as_slice())
}

/// An item of a response: the operation of this number succeeded, with a payload of this content.
pub fn response_item(alloc: Global, operation: u8, payload: &[u8]) -> Result<Vec<u8>, AllocError> {
    let mut parts = Vec::new(alloc);
    put(&mut parts, 0x42005C, ENUMERATION, &[0, 0, 0, operation])?;
    put(&mut parts, 0x42007F, ENUMERATION, &[0, 0, 0, 0])?;
    put(&mut parts, 0x42007C, STRUCTURE, payload)?;
    item(alloc, 0x42000F, STRUCTURE, parts.as_slice())
}
