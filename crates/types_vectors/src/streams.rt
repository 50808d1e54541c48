//! Readers and writers that are slow, are interrupted or fail: only the call that meets a failure returns
//! anything else.

use crate::faulty::{InterruptedReader, InterruptedWriter, SlowReader, SlowWriter};
use crate::samples::{SAMPLES, Sample, is_failure, is_length, is_tag, is_type, is_value};
use kmip_ttlv_memory::BoundedAllocator;
use kmip_ttlv_types::{SerializableTtlvType, TtlvByteString, TtlvLength, TtlvType};
use std::alloc::Global;
use std::io::ErrorKind;
use std::test::Fail;

// Whether, if a reader of one byte per call fails at any one call with this kind, the result is an IoError of that
// kind, and the bytes before that call were read; and whether the value is read if the reader doesn't fail before
// the end or is only interrupted.
fn is_read_or_failed(heap: Global, sample: Sample, kind: ErrorKind) -> bool {
    let bytes = sample.bytes;
    for count in 0..=bytes.len() {
        let mut reader = SlowReader {
            bytes,
            calls_before_fault: count as u64,
            kind,
        };
        let read = sample.read_from(heap, &mut reader);
        let is_right = if count < bytes.len() && kind != ErrorKind::Interrupted {
            is_failure(&read, kind) && reader.bytes == &bytes[count..]
        } else {
            is_value(&read) && reader.bytes.is_empty()
        };
        if !is_right {
            return false;
        }
    }
    true
}

#[test]
fn readers_that_fail_once(rt: HostRuntime) -> Result<(), Fail> {
    for kind in [
        ErrorKind::Interrupted,
        ErrorKind::BrokenPipe,
        ErrorKind::TimedOut,
        ErrorKind::WouldBlock,
        ErrorKind::OutOfMemory,
        ErrorKind::UnexpectedEof,
    ] {
        for sample in SAMPLES {
            let is_right = is_read_or_failed(rt.alloc(), sample, kind);
            assert!(rt; is_right, "{:?}, {kind:?}", sample.kind);
        }
    }
    Ok(())
}

#[test]
fn a_reader_that_failed_once_goes_on(rt: HostRuntime) -> Result<(), Fail> {
    let mut reader = SlowReader {
        bytes: b"\x42\x00\x20\x02\x00\x00\x00\x04",
        calls_before_fault: 3,
        kind: ErrorKind::TimedOut,
    };
    assert!(rt; is_tag(&mut reader, 0x42_0020));
    assert!(rt; is_failure(&TtlvType::read(&mut reader), ErrorKind::TimedOut));
    assert!(rt; is_type(&mut reader, TtlvType::Integer));
    assert!(rt; is_length(&mut reader, 4));
    Ok(())
}

// Whether the bytes, cut anywhere before their end, give an IoError of kind UnexpectedEof.
fn is_cut_short(heap: Global, sample: Sample) -> bool {
    let bytes = sample.bytes;
    for count in 0..bytes.len() {
        let mut front = &bytes[..count];
        if !is_failure(
            &sample.read_from(heap, &mut front),
            ErrorKind::UnexpectedEof,
        ) {
            return false;
        }
    }
    true
}

#[test]
fn cut_inputs(rt: HostRuntime) -> Result<(), Fail> {
    for sample in SAMPLES {
        assert!(rt; is_cut_short(rt.alloc(), sample), "{:?}", sample.kind);
    }
    Ok(())
}

// Whether the value is read if the reader is interrupted this often before each byte.
fn is_read_at_length(heap: Global, sample: Sample, interruptions: u64) -> bool {
    let mut reader = InterruptedReader {
        bytes: sample.bytes,
        interruptions,
        met: 0,
    };
    is_value(&sample.read_from(heap, &mut reader)) && reader.bytes.is_empty()
}

#[test]
fn readers_that_are_interrupted_often(rt: HostRuntime) -> Result<(), Fail> {
    for sample in SAMPLES {
        assert!(rt;
            is_read_at_length(rt.alloc(), sample, 5_000),
            "{:?}",
            sample.kind
        );
    }
    Ok(())
}

// A writer with room for this many bytes, which fails with a kind at a call.
fn slow_writer(heap: Global, room: usize, calls_before_fault: u64, kind: ErrorKind) -> SlowWriter {
    SlowWriter {
        taken: Vec::new(heap),
        room,
        calls_before_fault,
        kind,
    }
}

// Whether, if a writer of one byte per call fails at any one call with this kind, the result is an IoError of that
// kind, and the bytes before that call were written; and whether all are written if the writer doesn't fail before
// the end or is only interrupted.
fn is_written_or_failed(heap: Global, sample: Sample, kind: ErrorKind) -> bool {
    let Ok(value) = sample.value(heap) else {
        return false;
    };
    let bytes = sample.bytes;
    for count in 0..=bytes.len() {
        let mut writer = slow_writer(heap, 100, count as u64, kind);
        let written = value.write_to(&mut writer);
        let is_right = if count < bytes.len() && kind != ErrorKind::Interrupted {
            is_failure(&written, kind) && writer.taken.as_slice() == &bytes[..count]
        } else {
            written.is_ok() && writer.taken.as_slice() == bytes
        };
        if !is_right {
            return false;
        }
    }
    true
}

#[test]
fn writers_that_fail_once(rt: HostRuntime) -> Result<(), Fail> {
    for kind in [
        ErrorKind::Interrupted,
        ErrorKind::BrokenPipe,
        ErrorKind::TimedOut,
        ErrorKind::WouldBlock,
        ErrorKind::OutOfMemory,
        ErrorKind::WriteZero,
    ] {
        for sample in SAMPLES {
            let is_right = is_written_or_failed(rt.alloc(), sample, kind);
            assert!(rt; is_right, "{:?}, {kind:?}", sample.kind);
        }
    }
    Ok(())
}

// Whether, if a writer takes no byte after any number of them, the result is an IoError of kind WriteZero and those
// were written; and whether writing succeeds if it takes them all.
fn is_too_much(heap: Global, sample: Sample) -> bool {
    let Ok(value) = sample.value(heap) else {
        return false;
    };
    let bytes = sample.bytes;
    for room in 0..=bytes.len() {
        let mut writer = slow_writer(heap, room, u64::MAX, ErrorKind::BrokenPipe);
        let written = value.write_to(&mut writer);
        let is_right = if room < bytes.len() {
            is_failure(&written, ErrorKind::WriteZero)
        } else {
            written.is_ok()
        };
        if !is_right || writer.taken.as_slice() != &bytes[..room] {
            return false;
        }
    }
    true
}

#[test]
fn writers_without_room(rt: HostRuntime) -> Result<(), Fail> {
    for sample in SAMPLES {
        assert!(rt; is_too_much(rt.alloc(), sample), "{:?}", sample.kind);
    }
    Ok(())
}

// Whether the value is written if the writer is interrupted this often before each byte.
fn is_written_at_length(heap: Global, sample: Sample, interruptions: u64) -> bool {
    let Ok(value) = sample.value(heap) else {
        return false;
    };
    let mut writer = InterruptedWriter {
        taken: Vec::new(heap),
        interruptions,
        met: 0,
    };
    value.write_to(&mut writer).is_ok() && writer.taken.as_slice() == sample.bytes
}

#[test]
fn writers_that_are_interrupted_often(rt: HostRuntime) -> Result<(), Fail> {
    for sample in SAMPLES {
        assert!(rt;
            is_written_at_length(rt.alloc(), sample, 5_000),
            "{:?}",
            sample.kind
        );
    }
    Ok(())
}

// A length, and content of this many bytes, a multiple of eight.
fn long_leaf(heap: Global, count: u32) -> Option<Vec<u8>> {
    let mut bytes = Vec::new(heap);
    TtlvLength::new(count).write(&mut bytes).ok()?;
    bytes.resize((count as usize).saturating_add(4), b'a').ok()?;
    Some(bytes)
}

// Whether the leaf is read as its content, and asks for at most three times its bytes in all.
fn is_read_whole(heap: Global, leaf: &[u8]) -> bool {
    let memory = BoundedAllocator::in_blocks(heap, usize::MAX);
    let mut rest = leaf;
    let is_read = match (&TtlvByteString::read(&memory, &mut rest), leaf.get(4..)) {
        (Ok(read), Some(content)) => read.as_slice() == content,
        _ => false,
    };
    is_read && memory.asked() <= leaf.len().saturating_mul(3)
}

// Whether the leaf's content is written as the leaf, after its type.
fn is_written_whole(heap: Global, leaf: &[u8]) -> bool {
    let Ok(content) = Vec::from_slice(heap, leaf.get(4..).unwrap_or(&[])) else {
        return false;
    };
    let mut writer = slow_writer(
        heap,
        leaf.len().saturating_add(1),
        u64::MAX,
        ErrorKind::Other,
    );
    TtlvByteString(content).write(&mut writer).is_ok() && writer.taken.get(1..) == Some(leaf)
}

// Whether the leaf ends before its content does.
fn is_cut_leaf(heap: Global, leaf: &[u8]) -> bool {
    let mut rest = leaf;
    is_failure(
        &TtlvByteString::read(heap, &mut rest),
        ErrorKind::UnexpectedEof,
    )
}

// Whether that is so of a leaf, read and written whole, and of the leaf without its last byte.
fn is_right_leaf(heap: Global, leaf: &[u8]) -> bool {
    let cut = leaf.get(..leaf.len().saturating_sub(1)).unwrap_or(&[]);
    is_read_whole(heap, leaf) && is_written_whole(heap, leaf) && is_cut_leaf(heap, cut)
}

fn long_leaf_is_right(heap: Global, count: u32) -> bool {
    matches!(&long_leaf(heap, count), Some(leaf) if is_right_leaf(heap, leaf))
}

// Content of several pieces is read and written whole, and a missing byte is noticed.
#[test]
fn content_of_several_pieces(rt: HostRuntime) -> Result<(), Fail> {
    for count in [150_000u32, 3_100_000] {
        assert!(rt; long_leaf_is_right(rt.alloc(), count), "{count}");
    }
    Ok(())
}
