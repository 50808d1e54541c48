//! The standard's example of a structure (KMIP 1.0, section 9.1.2), written field by field, and read.

use crate::samples::{is_integer, is_length, is_tag, is_type};
use kmip_ttlv_types::{
    SerializableTtlvType, TtlvEnumeration, TtlvInteger, TtlvLength, TtlvTag, TtlvType,
};
use std::alloc::Global;
use std::test::Fail;

// What follows the tag and the type, if these are the expected ones.
fn after_head(bytes: &[u8], tag: u32, typ: TtlvType) -> Option<&[u8]> {
    let mut rest = bytes;
    if is_tag(&mut rest, tag) && is_type(&mut rest, typ) {
        Some(rest)
    } else {
        None
    }
}

// What follows the length, if it is this.
fn after_length(bytes: &[u8], length: u32) -> Option<&[u8]> {
    let mut rest = bytes;
    if is_length(&mut rest, length) {
        Some(rest)
    } else {
        None
    }
}

// What follows the length and the value of an Enumeration, if it is this.
fn after_enumeration(bytes: &[u8], number: u32) -> Option<&[u8]> {
    let mut rest = bytes;
    if TtlvEnumeration::read((), &mut rest).ok() == Some(TtlvEnumeration(number)) {
        Some(rest)
    } else {
        None
    }
}

// What follows the length and the value of an Integer, if it is this.
fn after_integer(bytes: &[u8], number: i32) -> Option<&[u8]> {
    let mut rest = bytes;
    if is_integer(&mut rest, number) {
        Some(rest)
    } else {
        None
    }
}

// What follows the structure, if its items are the expected ones.
fn after_structure(bytes: &[u8]) -> Option<&[u8]> {
    let rest = after_head(bytes, 0x42_0020, TtlvType::Structure)?;
    let rest = after_length(rest, 32)?;
    let rest = after_head(rest, 0x42_0004, TtlvType::Enumeration)?;
    let rest = after_enumeration(rest, 254)?;
    let rest = after_head(rest, 0x42_0005, TtlvType::Integer)?;
    after_integer(rest, 255)
}

// An Enumeration 420004 of 254 and an Integer 420005 of 255.
fn write_items(out: &mut Vec<u8>) -> Option<()> {
    TtlvTag::from_number(0x42_0004)?.write(out).ok()?;
    TtlvEnumeration(254).write(out).ok()?;
    TtlvTag::from_number(0x42_0005)?.write(out).ok()?;
    TtlvInteger(255).write(out).ok()
}

// The structure 420020 of these two.
fn write_structure(alloc: Global, out: &mut Vec<u8>) -> Option<()> {
    let mut items = Vec::new(alloc);
    write_items(&mut items)?;
    TtlvTag::from_number(0x42_0020)?.write(out).ok()?;
    TtlvType::Structure.write(out).ok()?;
    let length = TtlvLength::new(u32::try_from(items.len()).ok()?);
    length.write(out).ok()?;
    out.extend_from_slice(items.as_slice()).ok()
}

// Whether the structure is written as these bytes.
fn is_written_as(alloc: Global, bytes: &[u8]) -> bool {
    let mut out = Vec::new(alloc);
    write_structure(alloc, &mut out).is_some() && out.as_slice() == bytes
}

#[test]
fn a_structure(rt: HostRuntime) -> Result<(), Fail> {
    let bytes =
        b"\x42\x00\x20\x01\x00\x00\x00\x20\x42\x00\x04\x05\x00\x00\x00\x04\x00\x00\x00\xFE\x00\x00\x00\x00\x42\x00\x05\x02\x00\x00\x00\x04\x00\x00\x00\xFF\x00\x00\x00\x00";
    assert!(rt; is_written_as(rt.alloc(), bytes));
    assert!(rt; matches!(after_structure(bytes), Some(rest) if rest.is_empty()));
    Ok(())
}
