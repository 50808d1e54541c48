//! What bytes are read as by types that read themselves, and with which errors: in rows, and for bytes that are cut or changed
//! as the shape of the same form reads them.

use crate::reading::Reading;
use crate::selves::{Closed, Last, Moment, Point, Whole};
use hex::FromHexError;
use kmip_ttlv::error::{Error, ErrorKind};
use kmip_ttlv::shape::Decode;
use kmip_ttlv::{Config, from_reader, from_slice};
use kmip_ttlv_memory::BoundedAllocator;
use sample_shapes::names::{TagA, TagB, TagC, TagD, TagE};
use sample_shapes::parts::{
    ClosedStructure, Field, LongNumber, Maybe, Number, OneField, Part, Sequence, Structure, Text,
};
use std::alloc::{AllocError, Allocator, Global};
use std::test::Fail;

// Shapes of the same forms, without the wrappers around leaves.
pub type PointShape = Structure<TagD, OneField<TagB, Number>>;

type MomentShape = Structure<TagE, OneField<TagB, LongNumber>>;

type LastShape = Structure<TagA, OneField<TagB, Number>>;

type ClosedShape = ClosedStructure<TagA, OneField<TagB, Number>>;

type WholeShape = Structure<
    TagA,
    Field<
        TagB,
        Number,
        Field<
            TagC,
            Maybe<Text>,
            Field<
                TagD,
                Maybe<PointShape>,
                Field<TagE, Sequence<MomentShape>, OneField<TagA, LastShape>>,
            >,
        >,
    >,
>;

pub const NUMBER: &str = "BBBBBB02000000040000000700000000";

pub const TEXT: &str = "CCCCCC07000000016100000000000000";

pub const POINT: &str = "DDDDDD0100000010BBBBBB02000000040000000300000000";

const MOMENT: &str = "EEEEEE0100000010BBBBBB0300000008FFFFFFFFFFFFFFFE";

const LAST: &str = "AAAAAA0100000010BBBBBB02000000040000000300000000";

const DATE: &str = "EEEEEE0100000010BBBBBB09000000080000000000000009";

// What an error says; "read" of a value.
fn error_of<T>(alloc: Global, found: &Result<T, Error>) -> Result<String, AllocError> {
    let Err(error) = found else {
        return String::from_str(alloc, "read");
    };
    match error.kind() {
        ErrorKind::IoError(cause) => format!(in alloc; "{:?}", cause.kind()),
        kind => format!(in alloc; "{kind:?}; {}", error.location()),
    }
}

/// The bytes of texts in hexadecimal, one after the other.
pub fn joined(alloc: Global, texts: &[&str]) -> Result<Vec<u8>, FromHexError> {
    let mut text = String::new(alloc);
    for one in texts {
        text.push_str(one)?;
    }
    hex::decode(alloc, text.as_str())
}

// Whether what was found is this error, or "read".
fn is_said<T>(alloc: Global, found: &Result<T, Error>, wanted: &str) -> bool {
    matches!(&error_of(alloc, found), Ok(text) if text.as_str() == wanted)
}

// Whether the bytes are read, or are this error.
fn is_row<T: Decode<Global>>(alloc: Global, text: &str, wanted: &str) -> bool {
    match &hex::decode(alloc, text) {
        Ok(bytes) => is_said(alloc, &from_slice::<T, _>(alloc, bytes), wanted),
        Err(_) => false,
    }
}

/// Fails unless each message is read, or the error that stands beside it.
pub fn check_rows<T: Decode<Global>>(alloc: Global, rows: &[(&str, &str)]) -> Result<(), Fail> {
    for row in rows {
        let (message, wanted) = *row;
        if !is_row::<T>(alloc, message, wanted) {
            return Err(Fail::new(format_args!("{message}: not {wanted}")));
        }
    }
    Ok(())
}

/// Whether the bytes of these texts are read as this value, where memory was there for it.
pub fn is_read_as<T: Decode<Global> + PartialEq>(
    alloc: Global,
    wanted: &Result<T, AllocError>,
    texts: &[&str],
) -> bool {
    match (wanted, &joined(alloc, texts)) {
        (Ok(wanted), Ok(bytes)) => {
            matches!(&from_slice::<T, _>(alloc, bytes), Ok(found) if *found == *wanted)
        }
        _ => false,
    }
}

// A message with each part, and one without those that may be absent.
const WHOLE: [&str; 7] = ["AAAAAA0100000080", NUMBER, TEXT, POINT, MOMENT, DATE, LAST];

const FEWEST: [&str; 4] = ["AAAAAA0100000040", NUMBER, MOMENT, LAST];

// What they are read as.
fn whole(alloc: Global) -> Result<Whole, AllocError> {
    Ok(Whole {
        number: 7,
        text: Some(String::from_str(alloc, "a")?),
        first: Some(Point { number: 3 }),
        moments: Vec::from_slice(alloc, &[Moment { seconds: -2 }, Moment { seconds: 9 }])?,
        last: Last { number: 3 },
    })
}

fn fewest(alloc: Global) -> Result<Whole, AllocError> {
    Ok(Whole {
        number: 7,
        text: None,
        first: None,
        moments: Vec::from_slice(alloc, &[Moment { seconds: -2 }])?,
        last: Last { number: 3 },
    })
}

#[test]
fn parts_are_read_or_absent(rt: HostRuntime) {
    let alloc = rt.alloc();
    let is_right = is_read_as(alloc, &whole(alloc), &WHOLE)
        && is_read_as(alloc, &fewest(alloc), &FEWEST);
    assert!(rt; is_right);
}

// What may be wrong with a structure of one number that allows no other item.
const CLOSED: [(&str, &str); 12] = [
    ("AAAAAA0100000010BBBBBB02000000040000000300000000", "read"),
    ("AAAAAA", "UnexpectedEof"),
    (
        "AAAAAA0C",
        "MalformedTtlv(InvalidType(12)); pos: 3 bytes, tag: 0xAAAAAA",
    ),
    (
        "BBBBBB01",
        "SerdeError(UnexpectedTag { expected: 0xAAAAAA, actual: 0xBBBBBB }); pos: 4 bytes, tag: 0xBBBBBB, type: Structure (0x01)",
    ),
    (
        "AAAAAA02",
        "MalformedTtlv(UnexpectedType { expected: Structure, actual: Integer }); pos: 4 bytes, tag: 0xAAAAAA, type: Integer (0x02)",
    ),
    (
        "AAAAAA0100000000",
        "SerdeError(Other(\"missing field\")); pos: 8 bytes, parent tags: 0xAAAAAA, tag: 0xAAAAAA, type: Structure (0x01)",
    ),
    (
        "AAAAAA0100000010CCCCCC02",
        "SerdeError(UnexpectedTag { expected: 0xBBBBBB, actual: 0xCCCCCC }); pos: 12 bytes, parent tags: 0xAAAAAA, tag: 0xCCCCCC, type: Integer (0x02)",
    ),
    (
        "AAAAAA0100000010BBBBBB03",
        "SerdeError(UnexpectedType { expected: Integer, actual: LongInteger }); pos: 12 bytes, parent tags: 0xAAAAAA, tag: 0xBBBBBB, type: LongInteger (0x03)",
    ),
    (
        "AAAAAA0100000010BBBBBB0200000008",
        "MalformedTtlv(InvalidLength { expected: 4, actual: 8, typ: Integer }); pos: 16 bytes, parent tags: 0xAAAAAA, tag: 0xBBBBBB, type: Integer (0x02)",
    ),
    (
        "AAAAAA0100000004BBBBBB02000000040000000300000000",
        "MalformedTtlv(Overflow { field_end: ByteOffset(12) }); pos: 24 bytes, parent tags: 0xAAAAAA, tag: 0xBBBBBB, type: Integer (0x02)",
    ),
    (
        "AAAAAA0100000020BBBBBB02000000040000000300000000CCCCCC02",
        "SerdeError(Other(\"unknown field\")); pos: 28 bytes, parent tags: 0xAAAAAA, tag: 0xAAAAAA, type: Structure (0x01)",
    ),
    (
        "AAAAAA0100000020BBBBBB02000000040000000300000000BBBBBB02",
        "SerdeError(Other(\"duplicate field\")); pos: 28 bytes, parent tags: 0xAAAAAA, tag: 0xAAAAAA, type: Structure (0x01)",
    ),
];

// The same within structures, and behind the fields of one that ignores other items.
const NESTED: [(&str, &str); 4] = [
    (
        "AAAAAA0100000058BBBBBB02000000040000000700000000DDDDDD0100000010BBBBBB03",
        "SerdeError(UnexpectedType { expected: Integer, actual: LongInteger }); pos: 36 bytes, parent tags: 0xAAAAAA > 0xDDDDDD, tag: 0xBBBBBB, type: LongInteger (0x03)",
    ),
    (
        "AAAAAA0100000018BBBBBB02000000040000000700000000EEEEEE0100000000",
        "SerdeError(Other(\"missing field\")); pos: 32 bytes, parent tags: 0xAAAAAA > 0xEEEEEE, tag: 0xEEEEEE, type: Structure (0x01)",
    ),
    (
        "AAAAAA0100000010BBBBBB02000000040000000700000000",
        "SerdeError(Other(\"missing field\")); pos: 24 bytes, parent tags: 0xAAAAAA, tag: 0xAAAAAA, type: Structure (0x01)",
    ),
    (
        "AAAAAA0100000018BBBBBB02000000040000000700000000FFFFFF0100000000",
        "SerdeError(UnexpectedTag { expected: 0xEEEEEE, actual: 0xFFFFFF }); pos: 28 bytes, parent tags: 0xAAAAAA, tag: 0xFFFFFF, type: Structure (0x01)",
    ),
];

#[test]
fn errors_have_their_places(rt: HostRuntime) -> Result<(), Fail> {
    check_rows::<Closed>(rt.alloc(), &CLOSED)?;
    check_rows::<Whole>(rt.alloc(), &NESTED)
}

// Whether both ways of reading have one error, or both a value.
fn agree<T: Decode<Global>, P: Part>(alloc: Global, bytes: &[u8]) -> bool {
    let shaped: Result<Reading<P>, Error> = from_slice(alloc, bytes);
    match &error_of(alloc, &shaped) {
        Ok(wanted) => is_said(alloc, &from_slice::<T, _>(alloc, bytes), wanted.as_str()),
        Err(_) => false,
    }
}

// Whether they do for each beginning of a message, and for it with each byte changed in several ways.
fn agree_near<T: Decode<Global>, P: Part>(alloc: Global, bytes: &mut [u8]) -> bool {
    for end in 0..=bytes.len() {
        if !agree::<T, P>(alloc, &bytes[..end]) {
            return false;
        }
    }
    for at in 0..bytes.len() {
        let byte = bytes[at];
        for other in [0x00, 0x01, 0x03, 0x07, 0x0C, 0x18, 0xBB, 0xDD, 0xFF] {
            bytes[at] = other;
            if !agree::<T, P>(alloc, bytes) {
                return false;
            }
        }
        bytes[at] = byte;
    }
    true
}

/// Whether they do for the bytes of these texts.
pub fn agree_nearby<T: Decode<Global>, P: Part>(alloc: Global, texts: &[&str]) -> bool {
    match &mut joined(alloc, texts) {
        Ok(bytes) => agree_near::<T, P>(alloc, bytes.as_mut_slice()),
        Err(_) => false,
    }
}

#[test]
fn it_reads_as_the_shape_does(rt: HostRuntime) {
    let is_right = agree_nearby::<Whole, WholeShape>(rt.alloc(), &WHOLE)
        && agree_nearby::<Whole, WholeShape>(rt.alloc(), &FEWEST);
    assert!(rt; is_right);
}

#[test]
fn it_reads_what_follows_as_the_shape_does(rt: HostRuntime) {
    for (text, _) in CLOSED {
        let is_right = agree_nearby::<Closed, ClosedShape>(rt.alloc(), &[text]);
        assert!(rt; is_right, "{text}");
    }
    let followed =
        "AAAAAA0100000058BBBBBB02000000040000000700000000EEEEEE0100000010BBBBBB09000000080000000000000009AAAAAA0100000010BBBBBB02000000040000000300000000FFFFFF08000000050102030405000000FFFFFF0100000000";
    let is_right = agree_nearby::<Whole, WholeShape>(rt.alloc(), &[followed]);
    assert!(rt; is_right);
}

// Whether a message was read, and whether memory ran out.
fn ending<A: Allocator>(found: Result<Whole<A>, Error<A>>) -> (bool, bool) {
    match found {
        Ok(_) => (true, false),
        Err(error) => (false, matches!(error.kind(), ErrorKind::OutOfMemory)),
    }
}

// Whether a message is read if the growth after so many fails, whether memory runs out, and whether a growth failed.
fn whole_after(alloc: Global, bytes: &[u8], before: u64) -> (bool, bool, bool) {
    let heap = BoundedAllocator::failing_after(alloc, before);
    let (is_read, is_short) = ending(from_slice(&heap, bytes));
    (is_read, is_short, heap.has_failed())
}

#[test]
fn it_may_run_out_of_memory(rt: HostRuntime) -> Result<(), Fail> {
    let bytes = joined(rt.alloc(), &WHOLE)?;
    for before in 0..100u64 {
        let (is_read, is_short, has_failed) = whole_after(rt.alloc(), bytes.as_slice(), before);
        assert!(rt;
            is_read && !has_failed || is_short && has_failed,
            "at {before}"
        );
        if !has_failed {
            return Ok(());
        }
    }
    Err(Fail::new("it grows without end"))
}

// A message, and one with an error: what the shape of this form, and a type that reads itself, return of them.
const CALLS: [(&str, &str); 2] = [
    ("AAAAAA0100000010BBBBBB02000000040000000300000000", "read"),
    (
        "AAAAAA0100000010CCCCCC02000000040000000300000000",
        "SerdeError(UnexpectedTag { expected: 0xBBBBBB, actual: 0xCCCCCC }); pos: 12 bytes, parent tags: 0xAAAAAA, tag: 0xCCCCCC, type: Integer (0x02)",
    ),
];

fn from_bytes<T: Decode<Global>>(alloc: Global, bytes: &[u8], wanted: &str) -> bool {
    is_said(alloc, &from_slice::<T, _>(alloc, bytes), wanted)
}

fn from_stream<T: Decode<Global>>(alloc: Global, bytes: &[u8], wanted: &str) -> bool {
    let mut reader = bytes;
    let found: Result<T, Error> = from_reader(alloc, &mut reader, &mut Config::new(alloc));
    is_said(alloc, &found, wanted)
}

// Whether both are so.
fn calls_say<T: Decode<Global>>(alloc: Global, text: &str, wanted: &str) -> bool {
    match &hex::decode(alloc, text) {
        Ok(bytes) => {
            from_bytes::<T>(alloc, bytes, wanted) && from_stream::<T>(alloc, bytes, wanted)
        }
        Err(_) => false,
    }
}

#[test]
fn calls_return_what_the_shape_does(rt: HostRuntime) {
    for (text, wanted) in CALLS {
        let is_right = calls_say::<Closed>(rt.alloc(), text, wanted)
            && calls_say::<Reading<ClosedShape>>(rt.alloc(), text, wanted);
        assert!(rt; is_right, "{text}");
    }
}

#[test]
fn no_shape_is_made_of_a_type_that_reads_itself(rt: HostRuntime) -> Result<(), Fail> {
    let bytes = hex::decode(rt.alloc(), CALLS[0].0)?;
    let heap = BoundedAllocator::failing_after(rt.alloc(), 0);
    let found: Result<Closed, Error<_>> = from_slice(&heap, bytes.as_slice());
    assert!(rt; matches!(found, Ok(closed) if closed.number == 3));
    Ok(())
}
