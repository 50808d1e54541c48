//! Messages of any size, such as a sender is free to choose.

use std::alloc::{AllocError, Global};

/// The Integer 7 with the tag BBBBBB.
pub const NUMBER: [u8; 16] = [0xBB, 0xBB, 0xBB, 2, 0, 0, 0, 4, 0, 0, 0, 7, 0, 0, 0, 0];

/// The Enumeration 7 with the tag BBBBBB.
pub const CHOICE: [u8; 16] = [0xBB, 0xBB, 0xBB, 5, 0, 0, 0, 4, 0, 0, 0, 7, 0, 0, 0, 0];

/// The Integer 7 with the tag CCCCCC.
pub const OTHER_NUMBER: [u8; 16] = [0xCC, 0xCC, 0xCC, 2, 0, 0, 0, 4, 0, 0, 0, 7, 0, 0, 0, 0];

/// An empty text BBBBBB.
pub const TEXT: [u8; 8] = [0xBB, 0xBB, 0xBB, 7, 0, 0, 0, 0];

/// An empty structure BBBBBB.
pub const EMPTY: [u8; 8] = [0xBB, 0xBB, 0xBB, 1, 0, 0, 0, 0];

// An item's header: a tag of three equal bytes, a type's code, a length.
fn header(tag: u8, code: u8, length: u32) -> [u8; 8] {
    let [a, b, c, d] = length.to_be_bytes();
    [tag, tag, tag, code, a, b, c, d]
}

// A structure AAAAAA of this content.
fn structure(alloc: Global, content: &[u8]) -> Result<Vec<u8>, AllocError> {
    let length = u32::try_from(content.len()).unwrap_or(0);
    let mut message = Vec::from_slice(alloc, &header(0xAA, 1, length))?;
    message.extend_from_slice(content)?;
    Ok(message)
}

/// A structure with this item a number of times.
pub fn repeated(alloc: Global, count: u32, item: &[u8]) -> Result<Vec<u8>, AllocError> {
    let mut items = Vec::new(alloc);
    for _ in 0..count {
        items.extend_from_slice(item)?;
    }
    structure(alloc, items.as_slice())
}

/// A structure with one item BBBBBB of this type's code and length, each byte of it 61.
pub fn long(alloc: Global, code: u8, length: u32) -> Result<Vec<u8>, AllocError> {
    let mut item = Vec::from_slice(alloc, &header(0xBB, code, length))?;
    for _ in 0..length {
        item.push(0x61)?;
    }
    for _ in 0..(8 - length % 8) % 8 {
        item.push(0)?;
    }
    structure(alloc, item.as_slice())
}

/// This many structures BBBBBB, each within the one before.
pub fn nested(alloc: Global, count: u32) -> Result<Vec<u8>, AllocError> {
    let mut message = Vec::new(alloc);
    for i in 0..count {
        let inside = (count - i - 1).saturating_mul(8);
        message.extend_from_slice(&header(0xBB, 1, inside))?;
    }
    Ok(message)
}

/// A structure of this many structures BBBBBB, each of a text under a tag of its own and an integer
/// CCCCCC.
pub fn tuples(alloc: Global, count: u32) -> Result<Vec<u8>, AllocError> {
    let mut items = Vec::new(alloc);
    for i in 0..count {
        let [_, a, b, c] = i.to_be_bytes();
        items.extend_from_slice(&header(0xBB, 1, 24))?;
        items.extend_from_slice(&[a, b, c, 7, 0, 0, 0, 0])?;
        items.extend_from_slice(&OTHER_NUMBER)?;
    }
    structure(alloc, items.as_slice())
}

/// A structure of a text BBBBBB of this length, zeros and a 1, and this many integers CCCCCC.
pub fn asked(alloc: Global, length: u32, count: u32) -> Result<Vec<u8>, AllocError> {
    let mut items = Vec::from_slice(alloc, &header(0xBB, 7, length))?;
    for _ in 1..length {
        items.push(0x30)?;
    }
    items.push(0x31)?;
    for _ in 0..(8 - length % 8) % 8 {
        items.push(0)?;
    }
    for _ in 0..count {
        items.extend_from_slice(&OTHER_NUMBER)?;
    }
    structure(alloc, items.as_slice())
}
