//! What is taken of memory at once: a front of it by `fill_front`, all of it by `take_all`.

use kmip_ttlv_memory::BoundedAllocator;
use kmip_ttlv_types::Error;
use kmip_ttlv_types::stream::{MemoryCursor, MemorySource, Source, take_all};
use std::alloc::{Allocator, Global};
use std::io::Cursor;
use std::test::Fail;

// What a source has, and how long the buffer is; and what it is filled with from its start on.
const FRONTS: [(&[u8], usize, &[u8]); 7] = [
    (b"", 0, b""),
    (b"", 3, b""),
    (b"\x01\x02\x03", 0, b""),
    (b"\x01\x02\x03", 1, b"\x01"),
    (b"\x01\x02\x03", 2, b"\x01\x02"),
    (b"\x01\x02\x03", 3, b"\x01\x02\x03"),
    (b"\x01\x02\x03", 8, b"\x01\x02\x03"),
];

// Whether a buffer of this length is filled with these bytes from its start on, and stays as it was behind them.
fn fills<S: Source>(source: &mut S, room: usize, wanted: &[u8]) -> bool {
    let mut buffer = [0xEEu8; 8];
    let Some(front) = buffer.get_mut(..room) else {
        return false;
    };
    let is_filled = matches!(source.fill_front(front), Ok(count) if count == wanted.len());
    let rest = buffer.get(wanted.len()..).unwrap_or(&[]);
    is_filled && buffer.starts_with(wanted) && rest.iter().all(|byte| *byte == 0xEE)
}

// Whether memory gives a front of its bytes, and has the others left.
fn gives_a_front(bytes: &[u8], room: usize, wanted: &[u8]) -> bool {
    let mut source = MemorySource(bytes);
    fills(&mut source, room, wanted) && Some(source.0) == bytes.get(wanted.len()..)
}

// Where a cursor over 01 to 05 stands, and how long the buffer is; and what it is filled with from its start on.
const FRONTS_AT: [(u64, usize, &[u8]); 8] = [
    (0, 0, b""),
    (0, 3, b"\x01\x02\x03"),
    (3, 1, b"\x04"),
    (3, 2, b"\x04\x05"),
    (3, 8, b"\x04\x05"),
    (5, 8, b""),
    (6, 8, b""),
    (u64::MAX, 8, b""),
];

// A cursor at an offset of the bytes.
fn cursor_at(bytes: &[u8], at: u64) -> MemoryCursor<&[u8]> {
    let mut cursor = Cursor::new(bytes);
    cursor.set_position(at);
    MemoryCursor(cursor)
}

// Whether such a cursor gives this front, and is behind it then.
fn gives_a_front_at(at: u64, room: usize, wanted: &[u8]) -> bool {
    let mut source = cursor_at(b"\x01\x02\x03\x04\x05", at);
    fills(&mut source, room, wanted)
        && source.0.position() == at.saturating_add(wanted.len() as u64)
}

#[test]
fn a_front_of_memory(rt: HostRuntime) -> Result<(), Fail> {
    for (bytes, room, wanted) in FRONTS {
        assert!(rt; gives_a_front(bytes, room, wanted), "{room}");
    }
    Ok(())
}

#[test]
fn a_front_from_a_cursor_on(rt: HostRuntime) -> Result<(), Fail> {
    for (at, room, wanted) in FRONTS_AT {
        assert!(rt; gives_a_front_at(at, room, wanted), "{at}, {room}");
    }
    Ok(())
}

// So many bytes, each another than the one before it.
fn counted(heap: Global, len: usize) -> Option<Vec<u8>> {
    let mut bytes = Vec::with_capacity(heap, len).ok()?;
    for n in 0..len {
        bytes.push((n % 251) as u8).ok()?;
    }
    Some(bytes)
}

// Whether all these bytes are taken from a source.
fn is_taken<S: Source, A: Allocator>(alloc: A, source: &mut S, wanted: &[u8]) -> bool {
    matches!(&take_all(alloc, source), Ok(taken) if taken.as_slice() == wanted)
}

// Whether memory of so many bytes gives all of them, and has none left; and a cursor those from this offset on.
fn gives_all(heap: Global, len: usize, at: usize) -> bool {
    let Some(bytes) = counted(heap, len) else {
        return false;
    };
    let mut memory = MemorySource(bytes.as_slice());
    let mut cursor = cursor_at(bytes.as_slice(), at as u64);
    let wanted = bytes.get(at..).unwrap_or(&[]);
    is_taken(heap, &mut memory, bytes.as_slice())
        && memory.0.is_empty()
        && is_taken(heap, &mut cursor, wanted)
        && cursor.0.position() == at.max(len) as u64
}

// Bytes are taken 4,096 at a time.
#[test]
fn all_of_memory(rt: HostRuntime) -> Result<(), Fail> {
    for len in [0, 1, 3, 4_095, 4_096, 4_097, 8_192, 10_000] {
        for at in [0, 1, 4_096, 20_000] {
            assert!(rt; gives_all(rt.alloc(), len, at), "{len}, {at}");
        }
    }
    Ok(())
}

// Whether the bytes can't be taken if blocks are limited to fewer.
fn runs_out(heap: Global) -> bool {
    let memory = BoundedAllocator::in_blocks(heap, 2);
    let mut source = MemorySource(b"\x01\x02\x03");
    matches!(&take_all(&memory, &mut source), Err(Error::OutOfMemory))
}

#[test]
fn all_of_memory_without_room(rt: HostRuntime) {
    assert!(rt; runs_out(rt.alloc()));
}
