//! Names of tags, codes of types, and printed texts.

use kmip_ttlv_types::{
    ByteOffset, Error, FieldType, TtlvInteger, TtlvLength, TtlvTag, TtlvTextString, TtlvType,
    number,
};
use std::alloc::{AllocError, Global};
use std::fmt::{Debug, Display};
use std::io::Cursor;
use std::test::Fail;

// Whether the name is a tag of this number or, if there is no number, an error with the whole name.
fn names_tag(heap: Global, name: &str, number: Option<u32>) -> bool {
    match &TtlvTag::from_str(heap, name) {
        Ok(tag) => number == Some(**tag),
        Err(Error::InvalidTtlvTag(text)) => number.is_none() && text.as_str() == name,
        Err(_) => false,
    }
}

// Whether the text is this number or, if there is none, no number.
fn is_number(text: &str, wanted: Option<u32>) -> bool {
    number(text) == wanted
}

// A name, and its number if it is a tag's.
const NAMES: [(&str, Option<u32>); 13] = [
    ("0x0x1", Some(1)),
    ("+1F", Some(0x1F)),
    ("000", Some(0)),
    ("0x0", Some(0)),
    ("001", Some(1)),
    ("0x4200AA", Some(0x42_00AA)),
    ("FFFFFF", Some(0xFF_FFFF)),
    ("0x1000000", None),
    ("", None),
    ("XYZ", None),
    ("    ", None),
    ("0x", None),
    ("-1", None),
];

#[test]
fn names_of_tags(rt: HostRuntime) -> Result<(), Fail> {
    for (name, value) in NAMES {
        assert!(rt; names_tag(rt.alloc(), name, value), "{name}");
    }
    assert!(rt; is_number("0xFFFFFFFF", Some(u32::MAX)));
    assert!(rt; is_number("100000000", None));
    Ok(())
}

#[test]
fn tags_and_bytes(rt: HostRuntime) -> Result<(), Fail> {
    let tag = TtlvTag::from([0x42, 0, 0x20]);
    assert!(rt; *tag == 0x42_0020);
    assert!(rt; TtlvTag::from(&[0x42, 0, 0x20]) == tag);
    let bytes: [u8; 3] = tag.into();
    assert!(rt; bytes == [0x42, 0, 0x20]);
    let bytes: [u8; 3] = (&tag).into();
    assert!(rt; bytes == [0x42, 0, 0x20]);
    Ok(())
}

#[test]
fn digits_of_tags(rt: HostRuntime) -> Result<(), Fail> {
    for (bytes, digits) in [
        ([0x42, 0x00, 0x20], *b"420020"),
        ([0, 0, 0x1F], *b"00001F"),
        ([0xAB, 0xCD, 0xEF], *b"ABCDEF"),
    ] {
        assert!(rt; TtlvTag::from(bytes).digits() == digits);
    }
    Ok(())
}

// Whether a code from 1 to 10 is that of a type, which has this code, and any other is an error.
fn is_code_or_error(code: u8) -> bool {
    match &TtlvType::try_from(code) {
        Ok(typ) => {
            let bytes: [u8; 1] = (*typ).into();
            code >= 1 && code <= 10 && bytes == [code]
        }
        Err(Error::InvalidTtlvType(refused)) => *refused == code && (code == 0 || code > 10),
        Err(_) => false,
    }
}

#[test]
fn codes_of_types(rt: HostRuntime) -> Result<(), Fail> {
    for code in 0..=255u8 {
        assert!(rt; is_code_or_error(code), "{code}");
    }
    assert!(rt; TtlvType::try_from(0x0A).ok() == Some(TtlvType::Interval));
    Ok(())
}

// Whether this is the text.
fn is_text(text: &Result<String, AllocError>, wanted: &str) -> bool {
    match text {
        Ok(text) => text.as_str() == wanted,
        Err(_) => false,
    }
}

/// Whether the value is printed so.
pub fn prints<D: Display + Drop>(heap: Global, shown: D, text: &str) -> bool {
    is_text(&format!(in heap; "{shown}"), text)
}

// A type, and how it is printed.
const TYPES: [(TtlvType, &str); 10] = [
    (TtlvType::Structure, "Structure (0x01)"),
    (TtlvType::Integer, "Integer (0x02)"),
    (TtlvType::LongInteger, "LongInteger (0x03)"),
    (TtlvType::BigInteger, "BigInteger (0x04)"),
    (TtlvType::Enumeration, "Enumeration (0x05)"),
    (TtlvType::Boolean, "Boolean (0x06)"),
    (TtlvType::TextString, "TextString (0x07)"),
    (TtlvType::ByteString, "ByteString (0x08)"),
    (TtlvType::DateTime, "DateTime (0x09)"),
    (TtlvType::Interval, "Interval (0x0A)"),
];

#[test]
fn texts_of_types(rt: HostRuntime) -> Result<(), Fail> {
    for (typ, text) in TYPES {
        assert!(rt; prints(rt.alloc(), typ, text), "{text}");
    }
    Ok(())
}

// Whether the value's debug text is this.
fn shows<D: Debug + Drop>(heap: Global, shown: D, text: &str) -> bool {
    is_text(&format!(in heap; "{shown:?}"), text)
}

// A tag, and its texts by Display, Debug and UpperHex.
const TAGS: [([u8; 3], &str, &str, &str); 6] = [
    ([0, 0, 0], "0x000000", "0x0", "0"),
    ([0, 0, 0x12], "0x000012", "0x12", "12"),
    ([0x0F, 0xFF, 0xFF], "0x0FFFFF", "0xFFFFF", "FFFFF"),
    ([0x42, 0x00, 0x20], "0x420020", "0x420020", "420020"),
    ([0xF0, 0, 0x01], "0xF00001", "0xF00001", "F00001"),
    ([0xFF, 0xFF, 0xFF], "0xFFFFFF", "0xFFFFFF", "FFFFFF"),
];

fn tag_is_shown(heap: Global, row: ([u8; 3], &str, &str, &str)) -> bool {
    let (bytes, text, debug, digits) = row;
    let tag = TtlvTag::from(bytes);
    prints(heap, tag, text)
        && shows(heap, tag, debug)
        && is_text(&format!(in heap; "{tag:X}"), digits)
}

// Whether a tag is printed with zeros, and in eight characters, as it is asked.
fn tag_is_padded(heap: Global, tag: TtlvTag) -> bool {
    is_text(&format!(in heap; "{tag:06X}"), "000012")
        && is_text(&format!(in heap; "{tag:8X}"), "      12")
}

#[test]
fn texts_of_tags(rt: HostRuntime) -> Result<(), Fail> {
    for row in TAGS {
        assert!(rt; tag_is_shown(rt.alloc(), row), "{}", row.1);
    }
    assert!(rt; tag_is_padded(rt.alloc(), TtlvTag::from([0, 0, 0x12])));
    Ok(())
}

fn length_is_shown(heap: Global, length: TtlvLength) -> bool {
    prints(heap, length, "0x000100AB")
        && shows(heap, length, "0x100AB")
        && is_text(&format!(in heap; "{length:X}"), "100AB")
        && is_text(&format!(in heap; "{length:08X}"), "000100AB")
}

fn text_is_shown(heap: Global) -> bool {
    match String::from_str(heap, "a") {
        Ok(text) => shows(heap, TtlvTextString(text), "TtlvTextString(\"a\")"),
        Err(_) => false,
    }
}

#[test]
fn texts_of_lengths_and_values(rt: HostRuntime) {
    assert!(rt; length_is_shown(rt.alloc(), TtlvLength::new(0x1_00AB)));
    assert!(rt; shows(rt.alloc(), TtlvInteger(-5), "TtlvInteger(-5)"));
    assert!(rt; text_is_shown(rt.alloc()));
}

#[test]
fn texts_of_fields(rt: HostRuntime) -> Result<(), Fail> {
    for (field, text) in [
        (FieldType::default(), "Tag"),
        (FieldType::Typ, "Type"),
        (FieldType::Length, "Length"),
        (FieldType::Value, "Value"),
        (FieldType::LengthAndValue, "LengthAndValue"),
        (FieldType::TypeAndLengthAndValue, "TypeAndLengthAndValue"),
    ] {
        assert!(rt; prints(rt.alloc(), field, text), "{text}");
    }
    Ok(())
}

#[test]
fn offsets(rt: HostRuntime) -> Result<(), Fail> {
    let mut cursor = Cursor::new(b"abc".as_slice());
    cursor.set_position(2);
    assert!(rt; (ByteOffset::from(&cursor).0 == 2) & (ByteOffset::from(cursor).0 == 2));
    assert!(rt; (ByteOffset::from(7u64).0 == 7) & (*ByteOffset::from(&7u64) == 7));
    assert!(rt; matches!(ByteOffset::try_from(7usize), Ok(ByteOffset(7))));
    assert!(rt; ByteOffset::try_from(usize::MAX).is_err());
    Ok(())
}
