//! Kinds and places of errors.

use crate::names::prints;
use crate::samples::whole_place;
use kmip_ttlv_base::error::{Error, ErrorKind, ErrorLocation, MalformedTtlvError, SerdeError};
use kmip_ttlv_base::types;
use kmip_ttlv_base::types::{ByteOffset, FieldType, TtlvTag, TtlvType};
use std::alloc::{AllocError, Global};
use std::io;
use std::io::Cursor;
use std::test::Fail;

// Whether the place, if there is one, is printed so.
fn place_prints(heap: Global, place: Result<ErrorLocation, AllocError>, text: &str) -> bool {
    match place {
        Ok(place) => prints(heap, place, text),
        Err(_) => false,
    }
}

// A place of which only the tag is known, within no structures.
fn place_of_tag(alloc: Global) -> ErrorLocation {
    let one = Some(TtlvTag::from([0, 0, 1]));
    ErrorLocation::at(None, Some(Vec::new(alloc)), one, None)
}

fn places_print(alloc: Global) -> bool {
    let whole =
        "pos: 16 bytes, parent tags: 0xAAAAAA > 0xBBBBBB, tag: 0xCCCCCC, type: Integer (0x02)";
    let typ = Some(TtlvType::Boolean);
    place_prints(alloc, Ok(ErrorLocation::unknown()), "Unknown")
        && place_prints(alloc, whole_place(alloc), whole)
        && place_prints(
            alloc,
            Ok(ErrorLocation::at(None, None, None, typ)),
            "type: Boolean (0x06)",
        )
        && prints(alloc, place_of_tag(alloc), "tag: 0x000001")
}

#[test]
fn texts_of_places(rt: HostRuntime) {
    let is_right = places_print(rt.alloc());
    assert!(rt; is_right);
}

// Whether the place is this offset alone.
fn is_at(place: ErrorLocation, offset: u64) -> bool {
    place.offset() == Some(ByteOffset(offset))
        && place.tag().is_none()
        && place.typ().is_none()
        && place.parent_tags().is_empty()
        && !place.is_unknown()
}

// Whether nothing is known about the place.
fn is_nowhere(place: ErrorLocation) -> bool {
    place.is_unknown()
}

#[test]
fn places_of_numbers(rt: HostRuntime) -> Result<(), Fail> {
    let mut cursor = Cursor::new(b"abc".as_slice());
    cursor.set_position(2);
    assert!(rt;
        is_at(ErrorLocation::from(2u8), 2)
            && is_at(ErrorLocation::from(2u16), 2)
            && is_at(ErrorLocation::from(2u32), 2)
            && is_at(ErrorLocation::from(2u64), 2)
            && is_at(ErrorLocation::from(2usize), 2)
            && is_at(ErrorLocation::from(ByteOffset(2)), 2)
    );
    assert!(rt;
        is_at(ErrorLocation::from(&cursor), 2)
            && is_at(ErrorLocation::from(&mut cursor), 2)
            && is_at(ErrorLocation::from(cursor), 2)
    );
    assert!(rt; is_nowhere(ErrorLocation::from(usize::MAX)));
    assert!(rt; is_at(ErrorLocation::from(u64::MAX), u64::MAX));
    Ok(())
}

// The tag of a structure.
fn outer() -> TtlvTag {
    TtlvTag::from([0xAA, 0xAA, 0xAA])
}

// A place within one structure.
fn place_of_one_parent(heap: Global) -> Result<ErrorLocation, AllocError> {
    let parents = Vec::from_slice(heap, &[outer()])?;
    Ok(ErrorLocation::at(None, Some(parents), None, None))
}

// A clone of it.
fn cloned_place(heap: Global) -> Result<ErrorLocation, AllocError> {
    place_of_one_parent(heap)?.clone()
}

// Whether the tags of the structures around the place are these.
fn has_parents(place: &Result<ErrorLocation, AllocError>, tags: &[TtlvTag]) -> bool {
    match place {
        Ok(place) => place.parent_tags() == tags,
        Err(_) => false,
    }
}

fn place_is_cloned(alloc: Global) -> bool {
    let copy = cloned_place(alloc);
    has_parents(&copy, &[outer()]) && place_prints(alloc, copy, "parent tags: 0xAAAAAA")
}

#[test]
fn clones_of_places(rt: HostRuntime) {
    let is_right = place_is_cloned(rt.alloc());
    assert!(rt; is_right);
}

// Whether the low-level error becomes a SerdeError in these words.
fn is_in_words(heap: Global, low: types::Error, wanted: &str) -> bool {
    match &ErrorKind::from_types(heap, low) {
        ErrorKind::SerdeError(SerdeError::Other(words)) => words.as_str() == wanted,
        _ => false,
    }
}

// Whether the low-level error becomes an invalid tag of this name.
fn is_of_name(heap: Global, low: types::Error, wanted: &str) -> bool {
    match &ErrorKind::from_types(heap, low) {
        ErrorKind::SerdeError(SerdeError::InvalidTag(name)) => name.as_str() == wanted,
        _ => false,
    }
}

// Whether the low-level error becomes this error of malformed TTLV.
fn is_malformed(heap: Global, low: types::Error, wanted: MalformedTtlvError) -> bool {
    match &ErrorKind::from_types(heap, low) {
        ErrorKind::MalformedTtlv(kind) => *kind == wanted,
        _ => false,
    }
}

// A text where memory is there for it, and an empty one where it isn't.
fn made(alloc: Global, text: &str) -> String {
    String::from_str(alloc, text).unwrap_or_else(|_| String::new(alloc))
}

fn low_errors_are_kinds(alloc: Global) -> bool {
    let words = "Internal error: invalid state machine operaiton";
    let wanted = MalformedTtlvError::UnsupportedType(10);
    is_in_words(alloc, types::Error::InvalidStateMachineOperation, words)
        && is_of_name(
            alloc,
            types::Error::InvalidTtlvTag(made(alloc, "XYZ")),
            "XYZ",
        )
        && is_malformed(alloc, types::Error::UnsupportedTtlvType(10), wanted)
}

#[test]
fn kinds_of_low_errors(rt: HostRuntime) {
    let is_right = low_errors_are_kinds(rt.alloc());
    assert!(rt; is_right);
}

#[test]
fn overflows(rt: HostRuntime) -> Result<(), Fail> {
    let wanted = MalformedTtlvError::Overflow {
        field_end: ByteOffset(12),
    };
    assert!(rt; MalformedTtlvError::overflow(12u64) == wanted);
    assert!(rt; MalformedTtlvError::overflow(&12u64) == wanted);
    assert!(rt; MalformedTtlvError::overflow(ByteOffset(12)) == wanted);
    let mut cursor = Cursor::new(b"abc".as_slice());
    cursor.set_position(12);
    assert!(rt; MalformedTtlvError::overflow(&cursor) == wanted);
    assert!(rt; MalformedTtlvError::overflow(cursor) == wanted);
    Ok(())
}

// Whether an error of this kind at offset 3 is printed so.
fn error_prints(heap: Global, kind: ErrorKind, text: &str) -> bool {
    prints(heap, Error::new(kind, ErrorLocation::from(3u8)), text)
}

// Errors that own nothing, at offset 3, and their texts.
fn errors_print(alloc: Global) -> bool {
    let malformed = MalformedTtlvError::UnexpectedTtlvField {
        expected: FieldType::Typ,
        actual: FieldType::Tag,
    };
    let broken = io::Error::from(io::ErrorKind::BrokenPipe);
    let create = SerdeError::InvalidVariant("Create");
    error_prints(
        alloc,
        ErrorKind::from(broken),
        "IO error broken pipe (at pos: 3 bytes)",
    ) && error_prints(
        alloc,
        ErrorKind::ResponseSizeExceedsLimit(24),
        "Response size 24 exceeds the configured limit",
    ) && error_prints(
        alloc,
        ErrorKind::from(malformed),
        "Malformed TTLV: field Tag where Type is expected (at pos: 3 bytes)",
    ) && error_prints(
        alloc,
        ErrorKind::from(create),
        "Serde error : the variant Create is no number (at pos: 3 bytes)",
    ) && error_prints(alloc, ErrorKind::OutOfMemory, "Out of memory")
        && error_prints(
            alloc,
            ErrorKind::LengthOverflow,
            "Length overflow (at pos: 3 bytes)",
        )
}

#[test]
fn texts_of_errors(rt: HostRuntime) {
    let is_right = errors_print(rt.alloc());
    assert!(rt; is_right);
}

// Whether an error of this kind without a place is printed so.
fn error_at_no_place_prints(heap: Global, kind: ErrorKind, text: &str) -> bool {
    prints(heap, Error::new(kind, ErrorLocation::unknown()), text)
}

#[test]
fn an_error_at_no_place(rt: HostRuntime) -> Result<(), Fail> {
    let text = "Length overflow (at Unknown)";
    assert!(rt; error_at_no_place_prints(rt.alloc(), ErrorKind::LengthOverflow, text));
    Ok(())
}

#[test]
fn texts_of_kinds(rt: HostRuntime) -> Result<(), Fail> {
    for (kind, text) in [
        (MalformedTtlvError::InvalidType(12), "invalid type 0x0C"),
        (
            MalformedTtlvError::InvalidLength {
                expected: 4,
                actual: 5,
                typ: TtlvType::Integer,
            },
            "length 5 of Integer (0x02) where 4 is expected",
        ),
        (
            MalformedTtlvError::InvalidValue {
                typ: TtlvType::Boolean,
            },
            "invalid value of Boolean (0x06)",
        ),
        (
            MalformedTtlvError::overflow(12u64),
            "an item passes the end at 12 of the structure around it",
        ),
        (
            MalformedTtlvError::UnexpectedTtlvField {
                expected: FieldType::Typ,
                actual: FieldType::Tag,
            },
            "field Tag where Type is expected",
        ),
        (
            MalformedTtlvError::UnexpectedType {
                expected: TtlvType::Structure,
                actual: TtlvType::Integer,
            },
            "type Integer (0x02) where Structure (0x01) is expected",
        ),
        (
            MalformedTtlvError::UnsupportedType(10),
            "unsupported type 0x0A",
        ),
        (
            MalformedTtlvError::UnknownStructureLength,
            "unknown structure length",
        ),
    ] {
        assert!(rt; prints(rt.alloc(), kind, text), "{text}");
    }
    Ok(())
}

// Whether the SerdeError is printed so.
fn says(heap: Global, kind: SerdeError, text: &str) -> bool {
    prints(heap, kind, text)
}

// Those that own a text, and those that don't.
fn disagreements_print(alloc: Global) -> bool {
    let rule = SerdeError::InvalidVariantMatcherSyntax(made(alloc, "if x"));
    says(alloc, rule, "the variant if x is no rule")
        && says(
            alloc,
            SerdeError::InvalidTag(made(alloc, "XYZ")),
            "the name XYZ is no tag",
        )
        && says(
            alloc,
            SerdeError::Other(made(alloc, "in words")),
            "in words",
        )
        && says(
            alloc,
            SerdeError::InvalidVariant("Create"),
            "the variant Create is no number",
        )
        && says(
            alloc,
            SerdeError::MissingIdentifier,
            "an item in a struct without fields",
        )
        && says(
            alloc,
            SerdeError::UnsupportedRustType("f64"),
            "values of f64 aren't written",
        )
}

fn differences_print(alloc: Global) -> bool {
    let tag = SerdeError::UnexpectedTag {
        expected: outer(),
        actual: TtlvTag::from([0, 0, 1]),
    };
    let typ = SerdeError::UnexpectedType {
        expected: TtlvType::TextString,
        actual: TtlvType::Interval,
    };
    says(alloc, tag, "tag 0x000001 where 0xAAAAAA is expected")
        && says(
            alloc,
            typ,
            "type Interval (0x0A) where TextString (0x07) is expected",
        )
}

#[test]
fn texts_of_disagreements(rt: HostRuntime) {
    let is_right = disagreements_print(rt.alloc()) && differences_print(rt.alloc());
    assert!(rt; is_right);
}
