//! Types that are written, and a serializer that failed. (What values are written as, and their first errors, is data of the
//! program `vectors`.)

use crate::low_level::{are_bytes, is_text};
use kmip_ttlv::error::{Error, ErrorKind, ErrorLocation};
use kmip_ttlv::ser::TtlvSerializer;
use kmip_ttlv::shape::{Data, Serialize};
use kmip_ttlv::to_vec;
use std::alloc::Global;
use ttlv_vectors::samples::{Enclosed, Single, there_and_back};

// Whether an error is of this kind, as it is printed.
fn is_of_kind(alloc: Global, kind: &ErrorKind, text: &str) -> bool {
    is_text(&format!(in alloc; "{kind:?}"), text)
}

// Whether the place of an error is known by this offset alone.
fn is_at(error: &Error, offset: u64) -> bool {
    let place = error.location();
    matches!(place.offset(), Some(at) if at.0 == offset)
        && place.tag().is_none()
        && place.typ().is_none()
        && place.parent_tags().is_empty()
}

// Whether the answer is an error at this offset; the text is that of its kind.
fn is_error<T>(alloc: Global, answer: &Result<T, Error>, offset: u64, text: &str) -> bool {
    match answer {
        Ok(_) => false,
        Err(error) => is_at(error, offset) && is_of_kind(alloc, error.kind(), text),
    }
}

// Whether the answer is that of a serializer which failed at a call before.
fn is_closed<T>(alloc: Global, answer: &Result<T, Error>) -> bool {
    match answer {
        Ok(_) => false,
        Err(error) => {
            error.location().is_unknown()
                && is_of_kind(alloc, error.kind(), "MalformedTtlv(UnknownStructureLength)")
        }
    }
}

// Whether the place that a serializer has reached is behind so many bytes.
fn has_reached(serializer: &mut TtlvSerializer<Global>, offset: u64) -> bool {
    let place: ErrorLocation = ErrorLocation::from(serializer);
    matches!(place.offset(), Some(at) if at.0 == offset)
}

// Whether a new serializer takes a structure, reaches its end, and fails for a number without a tag.
fn fails_for_a_number(
    alloc: Global,
    serializer: &mut TtlvSerializer<Global>,
    empty: &Data,
) -> bool {
    let text =
        "MalformedTtlv(UnexpectedTtlvField { expected: Value, actual: TypeAndLengthAndValue })";
    let number: Data = Data::I32(3);
    has_reached(serializer, 0)
        && serializer.serialize(empty).is_ok()
        && has_reached(serializer, 8)
        && is_error(alloc, &serializer.serialize(&number), 8, text)
}

// Whether it then fails each time, and reaches nothing more.
fn stays_closed(alloc: Global, serializer: &mut TtlvSerializer<Global>, empty: &Data) -> bool {
    is_closed(alloc, &serializer.serialize(empty))
        && is_closed(alloc, &serializer.serialize(empty))
        && has_reached(serializer, 8)
}

// Whether a serializer that failed fails again, and gives no bytes.
fn fails_again(alloc: Global) -> bool {
    let empty = Data::Struct {
        name: "0xAABBCC",
        fields: Vec::new(alloc),
    };
    let mut serializer = TtlvSerializer::new(alloc);
    let has_failed = fails_for_a_number(alloc, &mut serializer, &empty);
    let is_stopped = stays_closed(alloc, &mut serializer, &empty);
    let is_empty = is_closed(alloc, &serializer.into_vec());
    has_failed && is_stopped && is_empty
}

// Whether the value is written as these bytes, in hexadecimal.
fn is_written<T: Serialize>(alloc: Global, value: &T, text: &str) -> bool {
    matches!(&to_vec(alloc, value), Ok(bytes) if are_bytes(alloc, bytes, text))
}

// Whether a structure of this number comes back.
fn comes_back(alloc: Global, number: i32) -> bool {
    matches!(&there_and_back(alloc, Single { number }), Ok(back) if *back == Single { number })
}

#[test]
fn numbers_come_back(rt: HostRuntime) {
    for number in [0, 3, -5, i32::MIN, i32::MAX] {
        let is_right = comes_back(rt.alloc(), number);
        assert!(rt; is_right, "{number}");
    }
}

const NUMBER: &str = "AAAAAA0100000010BBBBBB02000000040000000300000000";

fn a_number_is_written(alloc: Global) -> bool {
    is_written(alloc, &Single { number: 3 }, NUMBER)
}

// Tags that are parameters, of which the lowest three bytes are written.
fn tags_are_written(alloc: Global) -> bool {
    let small = Enclosed::<0xAA_AAAA, 0xBB_BBBB> { number: 3 };
    let large = Enclosed::<0xFFAA_AAAA, 0x01BB_BBBB> { number: 3 };
    let zero = Enclosed::<0, 0xFF_FFFF> { number: -1 };
    let text = "0000000100000010FFFFFF0200000004FFFFFFFF00000000";
    is_written(alloc, &small, NUMBER)
        && is_written(alloc, &large, NUMBER)
        && is_written(alloc, &zero, text)
}

#[test]
fn values_are_written(rt: HostRuntime) {
    let alloc = rt.alloc();
    for (what, is_right) in [
        ("a serializer that failed fails again", fails_again(alloc)),
        ("a number", a_number_is_written(alloc)),
        ("tags that are parameters", tags_are_written(alloc)),
    ] {
        assert!(rt; is_right, "{what}");
    }
}
