//! A value that is nested deep, by every call that writes.

use crate::bytes::data_bytes;
use crate::low_level::are_bytes;
use kmip_ttlv::ser::TtlvSerializer;
use kmip_ttlv::shape::{Data, Serialize};
use kmip_ttlv::to_writer;
use std::alloc::{AllocError, Global};
use std::fmt;
use ttlv_vectors::data::tagged_number;

const LEAF: &str = "AABBCC02000000040000000300000000";

// A number in so many structures, each in the one before.
fn nested(alloc: Global, depth: u32) -> Result<Data, AllocError> {
    let mut data = tagged_number(alloc, "Transparent:0xAABBCC", 3)?;
    for _ in 0..depth {
        let mut fields = Vec::new(alloc);
        fields.push(data)?;
        let name = "0xBBBBBB";
        data = Data::Struct { name, fields };
    }
    Ok(data)
}

// Their bytes in hexadecimal: each structure holds the headers of those within, of eight bytes each, and the
// number's sixteen bytes.
fn nested_text(alloc: Global, depth: u32) -> Result<String, fmt::Error> {
    let mut text = String::new(alloc);
    for within in (0..depth).rev() {
        let length = within.wrapping_mul(8).wrapping_add(16);
        write!(text, "BBBBBB01{length:08X}")?;
    }
    write!(text, "{LEAF}")?;
    Ok(text)
}

// Whether a serializer gives these bytes, in hexadecimal, for the data.
fn is_serialized(alloc: Global, data: &Data, text: &str) -> bool {
    let mut serializer = TtlvSerializer::new(alloc);
    let is_taken = serializer.serialize(data).is_ok();
    let bytes = serializer.into_vec();
    is_taken && matches!(&bytes, Ok(bytes) if are_bytes(alloc, bytes, text))
}

// Whether a writer is given these.
fn is_sent(alloc: Global, data: &Data, text: &str) -> bool {
    let mut writer = Vec::new(alloc);
    let is_sent = to_writer(alloc, data, &mut writer).is_ok();
    is_sent && are_bytes(alloc, &writer, text)
}

// Whether the data is written as these bytes: by a serializer, by itself, and to a writer.
fn is_written(alloc: Global, data: &Data, text: &str) -> bool {
    is_serialized(alloc, data, text)
        && matches!(&data_bytes(alloc, data), Ok(bytes) if are_bytes(alloc, bytes, text))
        && is_sent(alloc, data, text)
}

// Data of what this data tells is the same.
fn is_made_again(alloc: Global, data: &Data) -> bool {
    matches!(&data.to_data(alloc), Ok(again) if again == data)
}

// Whether a value of this depth is written as its bytes by each call.
fn is_right(alloc: Global, depth: u32) -> bool {
    match (&nested_text(alloc, depth), &nested(alloc, depth)) {
        (Ok(text), Ok(data)) => {
            is_written(alloc, data, text.as_str()) && is_made_again(alloc, data)
        }
        _ => false,
    }
}

// The last have 1,016 bytes, 1,024, 1,032 and more.
#[test]
fn values_nested_deep(rt: HostRuntime) {
    for depth in [0, 1, 16, 17, 64, 125, 126, 127, 600] {
        let is_right = is_right(rt.alloc(), depth);
        assert!(rt; is_right, "{depth}");
    }
}

// A structure of a byte string of this length, all sevens.
fn sevens(alloc: Global, len: usize) -> Result<Data, AllocError> {
    let mut bytes = Vec::new(alloc);
    bytes.resize(len, 7)?;
    let inner = Box::new(alloc, Data::Bytes(bytes))?;
    let mut fields = Vec::new(alloc);
    let name = "Transparent:0xAABBCC";
    fields.push(Data::Newtype { name, inner })?;
    let name = "0xBBBBBB";
    Ok(Data::Struct { name, fields })
}

// Its bytes in hexadecimal: a byte string is filled up with zeros to a multiple of eight.
fn sevens_text(alloc: Global, len: usize) -> Result<String, fmt::Error> {
    let filling = (8 - len % 8) % 8;
    let mut text = String::new(alloc);
    write!(
        text,
        "BBBBBB01{:08X}AABBCC08{len:08X}",
        len.wrapping_add(filling).wrapping_add(8)
    )?;
    for _ in 0..len {
        write!(text, "07")?;
    }
    for _ in 0..filling {
        write!(text, "00")?;
    }
    Ok(text)
}

// Whether a byte string of this length is written as its bytes by each call.
fn are_sevens(alloc: Global, len: usize) -> bool {
    match (&sevens_text(alloc, len), &sevens(alloc, len)) {
        (Ok(text), Ok(data)) => is_written(alloc, data, text.as_str()),
        _ => false,
    }
}

#[test]
fn byte_strings_of_many_lengths(rt: HostRuntime) {
    for len in [
        0, 1, 7, 8, 9, 996, 1_000, 1_001, 1_007, 1_008, 1_009, 4_096, 4_097,
    ] {
        let is_right = are_sevens(rt.alloc(), len);
        assert!(rt; is_right, "{len}");
    }
}
