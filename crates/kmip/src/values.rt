//! The value of an item, as it stands in a line.

use crate::dates::push_date;
use crate::escape::push_escaped;
use crate::names::{bits_of, name_of_tag, name_of_value};
use kmip_ttlv_names::value_name;
use kmip_ttlv_types::TtlvType;
use kmip_ttlv_types::places::{content_at, end_of, length_at, tag_at, type_at};
use std::alloc::{AllocError, Allocator};
use std::str;

/// An item.
#[derive(Clone, Copy)]
pub struct Item<'b> {
    /// Its tag.
    pub tag: u32,
    /// Its type.
    pub typ: TtlvType,
    /// Its value, of the type; empty of a structure, whose items come next.
    pub content: &'b [u8],
}

/// The item that bytes begin with, and the bytes behind it: of a structure those behind its header.
pub fn split_item(bytes: &[u8]) -> Option<(Item<'_>, &[u8])> {
    if bytes.len() < 8 {
        return None;
    }
    let tag = *tag_at(bytes, 0);
    let typ = type_at(bytes, 0)?;
    if typ == TtlvType::Structure {
        let content = &bytes[..0];
        return Some((Item { tag, typ, content }, &bytes[8..]));
    }
    let length = length_at(bytes, 0);
    let end = end_of(bytes, 0, typ, length)?;
    let content = content_at(bytes, 0, length);
    Some((Item { tag, typ, content }, &bytes[end..]))
}

// The number of four bytes.
fn four(content: &[u8]) -> u32 {
    match content {
        [a, b, c, d] => u32::from_be_bytes([*a, *b, *c, *d]),
        _ => 0,
    }
}

// The number of eight bytes.
fn eight(content: &[u8]) -> u64 {
    match content {
        [a, b, c, d, e, f, g, h] => u64::from_be_bytes([*a, *b, *c, *d, *e, *f, *g, *h]),
        _ => 0,
    }
}

/// Adds bytes in hexadecimal digits, two each.
pub fn push_hex<A: Allocator>(out: &mut String<A>, bytes: &[u8]) -> Result<(), AllocError> {
    for byte in bytes {
        write!(out, "{byte:02X}")?;
    }
    Ok(())
}

/// Adds the name of a value of an Enumeration under a tag, or its number if it has none.
pub fn push_named<A: Allocator>(
    out: &mut String<A>,
    tag: u32,
    value: u32,
) -> Result<(), AllocError> {
    match name_of_value(tag, value) {
        Some(name) => out.push_str(name),
        None => write!(out, "0x{value:08X}"),
    }
}

/// Adds the name of a tag, or its number if it has none.
pub fn push_tag<A: Allocator>(out: &mut String<A>, tag: u32) -> Result<(), AllocError> {
    match name_of_tag(tag) {
        Some(name) => out.push_str(name),
        None => write!(out, "0x{tag:06X}"),
    }
}

/// Adds what stands in front of a further part of a list.
pub fn push_between<A: Allocator>(out: &mut String<A>, is_first: bool) -> Result<(), AllocError> {
    if is_first { Ok(()) } else { out.push_str(", ") }
}

// Adds the names of the bits of a mask, and those that have none as a number.
fn push_mask<A: Allocator>(out: &mut String<A>, bits: &str, mask: u32) -> Result<(), AllocError> {
    let mut unnamed = mask;
    for place in 0..32u32 {
        let bit = mask & (1 << place);
        if bit != 0
            && let Some(name) = value_name(bits, bit)
        {
            push_between(out, unnamed == mask)?;
            out.push_str(name)?;
            unnamed &= !bit;
        }
    }
    if unnamed != 0 || mask == 0 {
        push_between(out, unnamed == mask)?;
        write!(out, "0x{unnamed:08X}")?;
    }
    Ok(())
}

// Adds an Integer: the bits of a mask, or a number.
fn push_integer<A: Allocator>(out: &mut String<A>, tag: u32, value: u32) -> Result<(), AllocError> {
    match bits_of(tag) {
        Some(bits) => push_mask(out, bits, value),
        None => {
            let value = value.cast_signed();
            write!(out, "{value}")
        }
    }
}

/// Adds the value of an item, named as those of a tag are: a text escaped, a date as ISO 8601 writes it, the bits of a mask and the value
/// of an Enumeration by their names, and bytes in hexadecimal digits. Of a structure nothing is added.
pub fn push_value<A: Allocator>(
    out: &mut String<A>,
    tag: u32,
    item: &Item<'_>,
) -> Result<(), AllocError> {
    let content = item.content;
    match item.typ {
        TtlvType::Structure => Ok(()),
        TtlvType::Integer => push_integer(out, tag, four(content)),
        TtlvType::Enumeration => push_named(out, tag, four(content)),
        TtlvType::LongInteger => {
            let value = eight(content).cast_signed();
            write!(out, "{value}")
        }
        TtlvType::Boolean => out.push_str(if eight(content) == 0 { "false" } else { "true" }),
        TtlvType::TextString => push_escaped(out, str::from_utf8(content).unwrap_or("")),
        TtlvType::DateTime => push_date(out, eight(content).cast_signed()),
        TtlvType::Interval => {
            let value = four(content);
            write!(out, "{value} seconds")
        }
        TtlvType::BigInteger | TtlvType::ByteString => push_hex(out, content),
    }
}
