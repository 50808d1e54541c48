//! Reading from memory and writing into it, by vectors, slices and cursors.

use crate::samples::{
    PRIMITIVES, SAMPLES, Sample, Value, is_failure, is_integer, is_tag, is_type, is_value,
};
use kmip_ttlv_memory::BoundedAllocator;
use kmip_ttlv_types::laws::reread;
use kmip_ttlv_types::stream::{MemoryCursor, MemorySink, MemorySource, Sink};
use kmip_ttlv_types::{
    SerializableTtlvType, TtlvBigInteger, TtlvByteString, TtlvInteger, TtlvTag, TtlvTextString,
    TtlvType,
};
use std::alloc::Global;
use std::io::{Cursor, ErrorKind};
use std::test::Fail;

// The tag 420020 and an Integer of 8, written into a vector with room for them.
fn written_with_room(heap: Global) -> Option<Vec<u8>> {
    let mut sink = MemorySink(Vec::with_capacity(heap, 16).ok()?);
    TtlvTag::from([0x42, 0, 0x20]).write(&mut sink).ok()?;
    TtlvInteger(8).write(&mut sink).ok()?;
    Some(sink.0)
}

// Whether these bytes are that tag and that Integer, and nothing follows.
fn are_tag_and_integer(bytes: &[u8]) -> bool {
    let mut source = MemorySource(bytes);
    is_tag(&mut source, 0x42_0020)
        && is_type(&mut source, TtlvType::Integer)
        && is_integer(&mut source, 8)
        && is_failure(&TtlvTag::read(&mut source), ErrorKind::UnexpectedEof)
}

// Whether they are written into memory with room, and read.
fn memory_has_room(heap: Global) -> bool {
    matches!(&written_with_room(heap), Some(written) if are_tag_and_integer(written))
}

#[test]
fn memory_with_room(rt: HostRuntime) {
    assert!(rt; memory_has_room(rt.alloc()));
}

// Whether a vector that can't grow is an error of kind OutOfMemory.
fn is_without_memory(heap: Global) -> bool {
    let memory = BoundedAllocator::in_blocks(heap, 15);
    let mut sink = MemorySink(Vec::new(&memory));
    sink.send(&[7; 15]).is_ok()
        && matches!(sink.send(&[7]), Err(error) if error.kind() == ErrorKind::OutOfMemory)
}

#[test]
fn memory_without_room(rt: HostRuntime) {
    assert!(rt; is_without_memory(rt.alloc()));
}

// Whether the value is written into a vector and read from there.
fn goes_through_memory(heap: Global, sample: Sample) -> bool {
    let Ok(value) = sample.value(heap) else {
        return false;
    };
    let mut sink = MemorySink(Vec::new(heap));
    if value.write_to(&mut sink).is_err() || sink.0.as_slice() != sample.bytes {
        return false;
    }
    let mut source = MemorySource(sink.0.as_slice());
    is_value(&sample.read_from(heap, &mut source)) && source.0.is_empty()
}

#[test]
fn vectors_of_memory(rt: HostRuntime) -> Result<(), Fail> {
    for sample in SAMPLES {
        assert!(rt;
            goes_through_memory(rt.alloc(), sample),
            "{:?}",
            sample.kind
        );
    }
    Ok(())
}

// This many bytes EE.
fn filled(heap: Global, len: usize) -> Option<Vec<u8>> {
    let mut bytes = Vec::new(heap);
    bytes.resize(len, 0xEE).ok()?;
    Some(bytes)
}

// A cursor at an offset of the bytes.
fn cursor_at<T>(bytes: T, at: u64) -> MemoryCursor<T> {
    let mut cursor = Cursor::new(bytes);
    cursor.set_position(at);
    MemoryCursor(cursor)
}

// Whether the value is written into a slice from this offset up to that one.
fn is_written_up_to(heap: Global, sample: Sample, buffer: &mut [u8], at: u64, end: u64) -> bool {
    let Ok(value) = sample.value(heap) else {
        return false;
    };
    let mut sink = cursor_at(buffer, at);
    value.write_to(&mut sink).is_ok() && sink.0.position() == end
}

// Whether the value is read from a slice from this offset up to that one.
fn is_read_up_to(heap: Global, sample: Sample, buffer: &[u8], at: u64, end: u64) -> bool {
    let mut source = cursor_at(buffer, at);
    is_value(&sample.read_from(heap, &mut source)) && source.0.position() == end
}

// Whether this many bytes EE come before the value's.
fn is_behind_filling(sample: Sample, buffer: &[u8], at: usize) -> bool {
    match buffer.split_at_checked(at) {
        Some((front, written)) => {
            written == sample.bytes && front.iter().all(|byte| *byte == 0xEE)
        }
        None => false,
    }
}

// Whether the value is written into a slice, where it just fits from this offset on, and read back.
fn goes_through_a_slice(heap: Global, sample: Sample, at: usize) -> bool {
    let len = sample.bytes.len().saturating_add(at);
    let (at_byte, end) = (at as u64, len as u64);
    let Some(mut buffer) = filled(heap, len) else {
        return false;
    };
    is_written_up_to(heap, sample, &mut buffer[..], at_byte, end)
        && is_read_up_to(heap, sample, &buffer[..], at_byte, end)
        && is_behind_filling(sample, &buffer[..], at)
}

// At the start of a slice, and from the middle on.
#[test]
fn slices(rt: HostRuntime) -> Result<(), Fail> {
    for at in [0, 5] {
        for sample in SAMPLES {
            let is_right = goes_through_a_slice(rt.alloc(), sample, at);
            assert!(rt; is_right, "{:?}, at {at}", sample.kind);
        }
    }
    Ok(())
}

// Where writing the value into a slice from this offset on ends, if the result is an IoError of kind
// WriteZero.
fn end_of_failed_writing(heap: Global, sample: Sample, buffer: &mut [u8], at: u64) -> Option<u64> {
    let value = sample.value(heap).ok()?;
    let mut sink = cursor_at(buffer, at);
    if is_failure(&value.write_to(&mut sink), ErrorKind::WriteZero) {
        Some(sink.0.position())
    } else {
        None
    }
}

// Whether so many bytes are there, and are the same.
fn begins_alike(one: &[u8], other: &[u8], count: u64) -> bool {
    match usize::try_from(count) {
        Ok(count) => count <= one.len() && one.get(..count) == other.get(..count),
        Err(_) => false,
    }
}

// Whether a slice that is one byte too short gets a beginning of the value, and the result is an IoError of
// kind WriteZero.
fn is_one_byte_short(heap: Global, sample: Sample) -> bool {
    let len = sample.bytes.len().saturating_sub(1);
    let Some(mut buffer) = filled(heap, len) else {
        return false;
    };
    match end_of_failed_writing(heap, sample, &mut buffer[..], 0) {
        Some(end) => begins_alike(&buffer[..], sample.bytes, end),
        None => false,
    }
}

#[test]
fn slices_one_byte_too_short(rt: HostRuntime) -> Result<(), Fail> {
    for sample in SAMPLES {
        assert!(rt; is_one_byte_short(rt.alloc(), sample), "{:?}", sample.kind);
    }
    Ok(())
}

// Whether reading the value from a slice from this offset on gives an IoError of kind UnexpectedEof.
fn is_read_past_the_end(heap: Global, sample: Sample, buffer: &[u8], at: u64) -> bool {
    let mut source = cursor_at(buffer, at);
    is_failure(
        &sample.read_from(heap, &mut source),
        ErrorKind::UnexpectedEof,
    )
}

// Whether a cursor past the end of a slice neither writes nor reads the value.
fn is_past_the_end(heap: Global, sample: Sample, at: u64) -> bool {
    let mut buffer = [0xEEu8; 5];
    end_of_failed_writing(heap, sample, &mut buffer, at).is_some()
        && is_read_past_the_end(heap, sample, &buffer, at)
        && buffer == [0xEE; 5]
}

#[test]
fn cursors_past_the_end(rt: HostRuntime) -> Result<(), Fail> {
    for at in [5u64, 6, 1_000, u64::MAX] {
        for sample in SAMPLES {
            let is_right = is_past_the_end(rt.alloc(), sample, at);
            assert!(rt; is_right, "{:?}, at {at}", sample.kind);
        }
    }
    Ok(())
}

// Whether a primitive's value is what `reread` makes of it.
fn is_again<T: SerializableTtlvType + PartialEq>(heap: Global, alloc: T::Alloc, value: &T) -> bool {
    matches!(&reread(heap, alloc, value), Ok(again) if *again == *value)
}

// The same of those that take memory.
fn number_is_again(heap: Global, number: &TtlvBigInteger) -> bool {
    matches!(&reread(heap, heap, number), Ok(again) if again.as_slice() == number.as_slice())
}

fn text_is_again(heap: Global, text: &TtlvTextString) -> bool {
    matches!(&reread(heap, heap, text), Ok(again) if again.as_str() == text.as_str())
}

fn bytes_are_again(heap: Global, bytes: &TtlvByteString) -> bool {
    matches!(&reread(heap, heap, bytes), Ok(again) if again.as_slice() == bytes.as_slice())
}

// Whether that is so of a primitive's value; not for a part of a header.
fn value_is_again(heap: Global, value: &Value) -> bool {
    match value {
        Value::Integer(number) => is_again(heap, (), number),
        Value::LongInteger(number) => is_again(heap, (), number),
        Value::BigInteger(number) => number_is_again(heap, number),
        Value::Enumeration(number) => is_again(heap, (), number),
        Value::Boolean(truth) => is_again(heap, (), truth),
        Value::TextString(text) => text_is_again(heap, text),
        Value::ByteString(bytes) => bytes_are_again(heap, bytes),
        Value::DateTime(seconds) => is_again(heap, (), seconds),
        Value::Interval(seconds) => is_again(heap, (), seconds),
        Value::Tag(_) | Value::Type(_) | Value::Length(_) => false,
    }
}

// Whether the sample is written and read back by `reread`.
fn is_reread(heap: Global, sample: Sample) -> bool {
    match &sample.value(heap) {
        Ok(value) => value.is_sample() && value_is_again(heap, value),
        Err(_) => false,
    }
}

#[test]
fn values_are_reread(rt: HostRuntime) -> Result<(), Fail> {
    for sample in SAMPLES.iter().take(PRIMITIVES) {
        assert!(rt; is_reread(rt.alloc(), *sample), "{:?}", sample.kind);
    }
    Ok(())
}
