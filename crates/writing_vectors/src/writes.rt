//! How many writes a writer sees of a long message: they are the bytes of `to_vec`, or a beginning where it fails. And what memory they
//! take.

use crate::bytes::data_bytes;
use crate::writers::{Fake, failure_of};
use kmip_ttlv::shape::Data;
use kmip_ttlv::{to_vec, to_writer};
use kmip_ttlv_memory::BoundedAllocator;
use std::alloc::{AllocError, Global};
use std::io;
use ttlv_vectors::data::{newtype, tagged_number};

// Writes data to a writer, and returns why that failed.
fn data_failure(heap: Global, data: &Data, writer: &mut Fake) -> Option<io::ErrorKind> {
    failure_of(heap, data, writer)
}

// How many writes data comes in, where they are as many bytes, those of `to_vec`.
fn writes_of(heap: Global, data: &Data, count: usize) -> Option<usize> {
    let mut writer = Fake::new(heap, usize::MAX);
    let is_written = data_failure(heap, data, &mut writer).is_none();
    match &data_bytes(heap, data) {
        Ok(bytes) if is_written && bytes.len() == count => {
            if bytes.as_slice() == writer.taken.as_slice() {
                Some(writer.calls)
            } else {
                None
            }
        }
        _ => None,
    }
}

// An attribute of 56 bytes: its name, and a number.
fn attribute(alloc: Global) -> Result<Data, AllocError> {
    let name = Data::Text(String::from_str(alloc, "Cryptographic Length")?);
    let name = newtype(alloc, "Transparent:0x42000A", name)?;
    let mut fields = Vec::new(alloc);
    fields.push(name)?;
    fields.push(tagged_number(alloc, "Transparent:0x42000B", 128)?)?;
    let name = "0x420008";
    Ok(Data::Struct { name, fields })
}

// A structure of so many attributes.
fn attributes(alloc: Global, count: u32) -> Result<Data, AllocError> {
    let mut fields = Vec::new(alloc);
    for _ in 0..count {
        fields.push(attribute(alloc)?)?;
    }
    let name = "0x420091";
    Ok(Data::Struct { name, fields })
}

// A byte string of 20,000 bytes.
fn content(alloc: Global) -> Result<Data, AllocError> {
    let mut bytes = Vec::new(alloc);
    bytes.resize(20_000, 7)?;
    newtype(alloc, "Transparent:0xBBBBBB", Data::Bytes(bytes))
}

// A structure of so many byte strings.
fn contents(alloc: Global, count: u32) -> Result<Data, AllocError> {
    let mut fields = Vec::new(alloc);
    for _ in 0..count {
        fields.push(content(alloc)?)?;
    }
    let name = "0xAAAAAA";
    Ok(Data::Struct { name, fields })
}

// How many writes the data comes in, where memory was there for it, and it is of so many bytes.
fn writes_of_data(alloc: Global, data: &Result<Data, AllocError>, count: usize) -> Option<usize> {
    match data {
        Ok(data) => writes_of(alloc, data, count),
        Err(_) => None,
    }
}

#[test]
fn long_messages_are_few_writes(rt: HostRuntime) {
    let alloc = rt.alloc();
    let bytes = 8 + 10_000 * 56;
    let writes = writes_of_data(alloc, &attributes(alloc, 10_000), bytes);
    let are_few = matches!(writes, Some(writes) if writes <= bytes / 4_096 + 2);
    assert!(rt; are_few, "{writes:?}");
    // long contents go out as they lie
    let writes = writes_of_data(alloc, &contents(alloc, 3), 8 + 3 * 20_008);
    assert!(rt; writes == Some(6), "{writes:?}");
}

// Whether a writer with too little room has as many of the bytes as it has room for.
fn is_cut(heap: Global, data: &Data, room: usize, expected: &[u8]) -> bool {
    let mut writer = Fake::new(heap, room);
    data_failure(heap, data, &mut writer).is_some()
        && writer.taken.len() == room
        && expected.starts_with(writer.taken.as_slice())
}

// Whether that is so of a thousand attributes.
fn attributes_are_cut(alloc: Global, room: usize) -> bool {
    let Ok(data) = &attributes(alloc, 1_000) else {
        return false;
    };
    match &data_bytes(alloc, data) {
        Ok(expected) => is_cut(alloc, data, room, expected),
        Err(_) => false,
    }
}

#[test]
fn a_writer_that_fails_has_a_beginning(rt: HostRuntime) {
    for room in [0, 1, 8_191, 8_192, 8_193, 20_000, 56_007] {
        let is_right = attributes_are_cut(rt.alloc(), room);
        assert!(rt; is_right, "{room}");
    }
}

// Whether blocks of 20,000 bytes are enough for a thousand attributes to a writer, and not for their bytes.
fn is_written_in_blocks(alloc: Global) -> bool {
    let Ok(data) = &attributes(alloc, 1_000) else {
        return false;
    };
    let memory = BoundedAllocator::in_blocks(alloc, 20_000);
    let mut writer = Vec::new(alloc);
    to_vec(&memory, data).is_err()
        && to_writer(&memory, data, &mut writer).is_ok()
        && writer.len() == 8 + 1_000 * 56
}

#[test]
fn a_message_needs_no_memory_of_its_size(rt: HostRuntime) {
    let is_right = is_written_in_blocks(rt.alloc());
    assert!(rt; is_right);
}
