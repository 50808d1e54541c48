//! Each growth failing in turn: out of memory, or the answer that comes with ample memory. And how
//! much is asked for.

use crate::selves::Closed;
use crate::stream_samples::{MESSAGE, Wanted, is_kept, is_memory, is_wanted, slow};
use kmip_ttlv::types::stream::MemorySource;
use kmip_ttlv::{Config, from_reader};
use kmip_ttlv_memory::BoundedAllocator;
use std::alloc::Global;
use std::io::ErrorKind;
use std::test::Fail;

// That message twice.
const TWICE: &str =
    "AAAAAA0100000010BBBBBB02000000040000000300000000AAAAAA0100000010BBBBBB02000000040000000300000000";

// What one failed growth comes to.
#[derive(Clone, Copy, PartialEq, Eq)]
enum Outcome {
    OutOfMemory,
    Ample,
    Wrong,
}

// A message, where the growth after the first `before` fails.
fn with_failed_growth(alloc: Global, stream: &[u8], keeps: bool, before: u64) -> Outcome {
    let heap = BoundedAllocator::failing_after(alloc, before);
    let mut config = Config::new(&heap);
    if keeps {
        config = config.with_read_buf();
    }
    let mut reader = slow(stream);
    let found = from_reader::<Closed, _, _>(&heap, &mut reader, &mut config);
    let is_same = is_wanted(&found, Wanted::Number(3)) && reader.bytes.is_empty();
    if config.has_buf() != keeps || !(is_same || heap.has_failed() && is_memory(&found)) {
        return Outcome::Wrong;
    }
    if heap.has_failed() {
        Outcome::OutOfMemory
    } else {
        Outcome::Ample
    }
}

#[test]
fn each_growth_fails(rt: HostRuntime) -> Result<(), Fail> {
    let stream = hex::decode(rt.alloc(), MESSAGE)?;
    for keeps in [false, true] {
        let mut last = Outcome::OutOfMemory;
        for before in 0..1000u64 {
            last = with_failed_growth(rt.alloc(), stream.as_slice(), keeps, before);
            if last != Outcome::OutOfMemory {
                break;
            }
        }
        assert!(rt; last == Outcome::Ample, "with a buffer: {keeps}");
    }
    Ok(())
}

// Two messages, one after the other, into a buffer of which the growth after the first `before`
// fails: after the first message took all that was granted, the second takes none.
fn second_after(alloc: Global, one: &[u8], two: &[u8], before: u64) -> Outcome {
    let heap = BoundedAllocator::failing_after(alloc, before);
    let ample = BoundedAllocator::failing_after(alloc, 1_000_000);
    let mut config = Config::new(&heap).with_read_buf();
    let mut reader = slow(two);
    let first = from_reader::<Closed, _, _>(&ample, &mut reader, &mut config);
    if heap.has_failed() {
        return Outcome::OutOfMemory;
    }
    let is_first = is_wanted(&first, Wanted::Number(3)) && is_kept(&config, one);
    let second = from_reader::<Closed, _, _>(&ample, &mut reader, &mut config);
    let is_second = is_wanted(&second, Wanted::Number(3)) && is_kept(&config, one);
    if is_first && is_second && reader.bytes.is_empty() && !heap.has_failed() {
        Outcome::Ample
    } else {
        Outcome::Wrong
    }
}

#[test]
fn a_second_message_takes_no_growth(rt: HostRuntime) -> Result<(), Fail> {
    let one = hex::decode(rt.alloc(), MESSAGE)?;
    let two = hex::decode(rt.alloc(), TWICE)?;
    let mut last = Outcome::OutOfMemory;
    for before in 0..1000u64 {
        last = second_after(rt.alloc(), one.as_slice(), two.as_slice(), before);
        if last != Outcome::OutOfMemory {
            break;
        }
    }
    assert!(rt; last == Outcome::Ample);
    Ok(())
}

// Whether a stated length alone takes no memory: of a header that states more than four billion bytes
// only a first piece is asked for.
fn is_taken_by_pieces(alloc: Global) -> bool {
    let heap = BoundedAllocator::in_blocks(alloc, 8 + 65_536);
    let mut config = Config::new(&heap).with_read_buf();
    let mut source = MemorySource(&[0xAA, 0xAA, 0xAA, 1, 0xFF, 0xFF, 0xFF, 0xFF]);
    let found = from_reader::<Closed, _, _>(&heap, &mut source, &mut config);
    is_wanted(&found, Wanted::Fault(ErrorKind::UnexpectedEof))
}

#[test]
fn a_stated_length_takes_no_memory(rt: HostRuntime) -> Result<(), Fail> {
    assert!(rt; is_taken_by_pieces(rt.alloc()));
    Ok(())
}
