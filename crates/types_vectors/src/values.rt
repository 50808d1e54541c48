//! What single calls of the primitives return.

use crate::samples::{bytes_are_cloned, is_failure, number_is_cloned, text_is_cloned};
use kmip_ttlv_types::{
    Error, SerializableTtlvType, TtlvBigInteger, TtlvBoolean, TtlvEnumeration, TtlvInteger,
    TtlvInterval, TtlvTextString, TtlvType,
};
use std::alloc::{AllocError, Global};
use std::io::ErrorKind;
use std::test::Fail;

// Whether a big integer of these bytes is written, without its tag, as those.
fn big_is_written_as(alloc: Global, number: &[u8], bytes: &[u8]) -> bool {
    let Ok(number) = Vec::from_slice(alloc, number) else {
        return false;
    };
    let mut out = Vec::new(alloc);
    TtlvBigInteger(number).write(&mut out).is_ok() && out.as_slice() == bytes
}

#[test]
fn big_integers_go_on_with_their_sign(rt: HostRuntime) -> Result<(), Fail> {
    let one = b"\x04\x00\x00\x00\x08\xFF\xFF\xFF\xFF\xFF\xFF\xFF\x80";
    assert!(rt; big_is_written_as(rt.alloc(), b"\x80", one));
    assert!(rt; big_is_written_as(rt.alloc(), b"", b"\x04\x00\x00\x00\x00"));
    let seven = b"\x04\x00\x00\x00\x08\x00\x7F\x00\x00\x00\x00\x00\x01";
    assert!(rt; big_is_written_as(rt.alloc(), b"\x7F\x00\x00\x00\x00\x00\x01", seven));
    let twelve = b"\x03\xFD\x35\xEB\x6B\xC2\xDF\x46\x18\x08\x00\x00";
    let sixteen =
        b"\x04\x00\x00\x00\x10\x00\x00\x00\x00\x03\xFD\x35\xEB\x6B\xC2\xDF\x46\x18\x08\x00\x00";
    assert!(rt; big_is_written_as(rt.alloc(), twelve, sixteen));
    Ok(())
}

// Whether the result is a big integer of these bytes.
fn is_number(answer: &Result<TtlvBigInteger, Error>, wanted: &[u8]) -> bool {
    match answer {
        Ok(number) => number.as_slice() == wanted,
        Err(_) => false,
    }
}

// Whether a length and its content are read, to their end, as a big integer of these bytes.
fn number_is_read(heap: Global, leaf: &[u8], wanted: &[u8]) -> bool {
    let mut rest = leaf;
    is_number(&TtlvBigInteger::read(heap, &mut rest), wanted) && rest.is_empty()
}

// Whether content of three bytes is read as a big integer of these.
fn content_is_read(heap: Global, content: &[u8], wanted: &[u8]) -> bool {
    let mut rest = content;
    is_number(&TtlvBigInteger::read_value(heap, &mut rest, 3), wanted)
}

#[test]
fn big_integers_are_read_as_they_stand(rt: HostRuntime) -> Result<(), Fail> {
    let leaf = b"\x00\x00\x00\x03\x01\x02\x03\x00\x00\x00\x00\x00";
    assert!(rt; number_is_read(rt.alloc(), leaf, b"\x01\x02\x03"));
    assert!(rt; content_is_read(rt.alloc(), b"\x01\x02\x03", b"\x01\x02\x03"));
    Ok(())
}

// Whether the error is that a value of this type has this length, and another one is expected.
fn is_length_error<T>(answer: &Result<T, Error>, wanted: u32, length: u32, of: TtlvType) -> bool {
    match answer {
        Err(
            Error::InvalidTtlvValueLength {
                expected,
                actual,
                typ,
            },
        ) => *expected == wanted && *actual == length && *typ == of,
        _ => false,
    }
}

// Whether the error is that the content is no value of this type.
fn is_value_error<T>(answer: &Result<T, Error>, of: TtlvType) -> bool {
    match answer {
        Err(Error::InvalidTtlvValue(typ)) => *typ == of,
        _ => false,
    }
}

#[test]
fn booleans_that_are_none(rt: HostRuntime) -> Result<(), Fail> {
    let mut short: &[u8] = b"\x00\x00\x00\x04\x00\x00\x00\x01\x00\x00\x00\x00";
    let read = TtlvBoolean::read((), &mut short);
    assert!(rt; is_length_error(&read, 8, 4, TtlvType::Boolean));
    let mut two: &[u8] = b"\x00\x00\x00\x08\x00\x00\x00\x00\x00\x00\x00\x02";
    assert!(rt; is_value_error(&TtlvBoolean::read((), &mut two), TtlvType::Boolean));
    Ok(())
}

#[test]
fn lengths_that_are_wrong(rt: HostRuntime) -> Result<(), Fail> {
    let mut five: &[u8] = b"\x00\x00\x00\x05\x00\x00\x00\x01\x00\x00\x00\x00";
    assert!(rt;
        is_length_error(&TtlvInterval::read((), &mut five), 4, 5, TtlvType::Interval)
            && five.len() == 8
    );
    Ok(())
}

// Whether the bytes are no text because of their content.
fn is_no_text(heap: Global, bytes: &[u8]) -> bool {
    let mut rest = bytes;
    is_value_error(&TtlvTextString::read(heap, &mut rest), TtlvType::TextString)
}

// Whether the bytes end before the text does.
fn is_cut_text(heap: Global, bytes: &[u8]) -> bool {
    let mut rest = bytes;
    is_failure(
        &TtlvTextString::read(heap, &mut rest),
        ErrorKind::UnexpectedEof,
    )
}

#[test]
fn texts_are_checked_before_their_padding(rt: HostRuntime) -> Result<(), Fail> {
    assert!(rt; is_no_text(rt.alloc(), b"\x00\x00\x00\x01\xFF"));
    assert!(rt; is_cut_text(rt.alloc(), b"\x00\x00\x00\x01a\x00\x00"));
    Ok(())
}

// Whether three bytes 00 are written after a value of five bytes.
fn padding_is_written(heap: Global) -> bool {
    let mut out = Vec::new(heap);
    TtlvInteger::write_pad_bytes(&mut out, 5).is_ok()
        && out.as_slice() == b"\x00\x00\x00".as_slice()
}

// Whether three bytes of any value are read after a value of five bytes.
fn padding_is_read() -> bool {
    let mut padding: &[u8] = b"\xFF\xFF\xFF\xFF";
    TtlvInteger::read_pad_bytes(&mut padding, 5).is_ok() && padding.len() == 1
}

#[test]
fn padding_is_counted(rt: HostRuntime) -> Result<(), Fail> {
    for (len, pad) in [(0, 0), (5, 3), (8, 0), (1, 7), (u32::MAX, 1)] {
        assert!(rt; TtlvInteger::calc_pad_bytes(len) == pad);
    }
    assert!(rt; TtlvInteger(1).ttlv_type() == TtlvType::Integer);
    assert!(rt; padding_is_written(rt.alloc()));
    assert!(rt; padding_is_read());
    Ok(())
}

// Whether the value's length is this.
fn has_length<T: SerializableTtlvType>(value: &T, length: u32) -> bool {
    matches!(value.value_length(), Ok(answer) if answer == length)
}

// Whether a text has this length, and is written, without its type, as these bytes.
fn text_is_counted(heap: Global, text: &str, length: u32, bytes: &[u8]) -> bool {
    let Ok(text) = String::from_str(heap, text) else {
        return false;
    };
    let text = TtlvTextString(text);
    let mut out = Vec::new(heap);
    has_length(&text, length)
        && matches!(text.write_length_and_value(&mut out), Ok(answer) if answer == length)
        && out.as_slice() == bytes
}

// Whether a big integer of these bytes has this length.
fn number_is_counted(heap: Global, number: &[u8], length: u32) -> bool {
    match Vec::from_slice(heap, number) {
        Ok(number) => has_length(&TtlvBigInteger(number), length),
        Err(_) => false,
    }
}

#[test]
fn lengths_are_answered(rt: HostRuntime) -> Result<(), Fail> {
    assert!(rt; has_length(&TtlvEnumeration(1), 4));
    assert!(rt; has_length(&TtlvBoolean(true), 8));
    assert!(rt; text_is_counted(rt.alloc(), "abc", 3, b"\x00\x00\x00\x03abc"));
    assert!(rt; number_is_counted(rt.alloc(), b"abc", 8));
    Ok(())
}

// Whether a clone was made, and is the same.
fn is_same(clone: Result<bool, AllocError>) -> bool {
    matches!(clone, Ok(true))
}

// Whether a clone of the integer is the same.
fn integer_is_cloned(number: TtlvInteger) -> bool {
    matches!(number.clone(), Ok(copy) if copy == number)
}

// Whether clones of strings of this many bytes are the same.
fn strings_are_cloned(heap: Global, len: usize) -> Option<bool> {
    let mut bytes = Vec::new(heap);
    bytes.resize(len, b'a').ok()?;
    let text = str::from_utf8(&bytes).ok()?;
    Some(
        is_same(number_is_cloned(heap, &bytes))
            && is_same(text_is_cloned(heap, text))
            && is_same(bytes_are_cloned(heap, &bytes)),
    )
}

#[test]
fn clones_are_the_same(rt: HostRuntime) -> Result<(), Fail> {
    for len in 0..=40usize {
        assert!(rt;
            matches!(strings_are_cloned(rt.alloc(), len), Some(true)),
            "{len}"
        );
    }
    assert!(rt; matches!(strings_are_cloned(rt.alloc(), 70_001), Some(true)));
    assert!(rt; matches!(strings_are_cloned(rt.alloc(), 4_000_000), Some(true)));
    assert!(rt; integer_is_cloned(TtlvInteger(5)));
    Ok(())
}
