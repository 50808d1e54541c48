//! The response read from a stream: by reads of one byte, with each growth failing in turn, and with each
//! read failing in turn.

use crate::answer::answer;
use crate::reading::Reading;
use crate::response::{RESPONSE, Response};
use kmip_ttlv::error::{Error, ErrorKind};
use kmip_ttlv::{Config, from_reader};
use kmip_ttlv_memory::BoundedAllocator;
use std::alloc::{Allocator, Global};
use std::io;
use std::io::Read;
use std::test::Fail;

// Gives one byte a call, and at one call, counted from 0, fails with a kind instead.
#[derive(Drop)]
struct SlowReader<'a> {
    bytes: &'a [u8],
    before: u64,
    kind: io::ErrorKind,
}

impl Read for SlowReader<'_> {
    fn read(&mut self, buf: &mut [u8]) -> io::Result<usize> {
        let left = self.before;
        self.before = left.wrapping_sub(1);
        if left == 0 {
            return Err(io::Error::from(self.kind));
        }
        let most = buf.len().min(1);
        self.bytes.read(&mut buf[..most])
    }
}

// What reading came to.
#[derive(Clone, Copy, Debug, PartialEq, Eq)]
enum Outcome {
    // The response.
    Whole,
    // Want of memory, at no place.
    OutOfMemory,
    // An IoError of this kind, at no place.
    Fault(io::ErrorKind),
    // Anything else.
    Other,
}

fn found_error<A: Allocator>(error: &Error<A>) -> Outcome {
    if !error.location().is_unknown() {
        return Outcome::Other;
    }
    match error.kind() {
        ErrorKind::OutOfMemory => Outcome::OutOfMemory,
        ErrorKind::IoError(fault) => Outcome::Fault(fault.kind()),
        _ => Outcome::Other,
    }
}

fn outcome_of<A: Allocator>(read: &Result<Reading<Response, A>, Error<A>>, text: &str) -> Outcome {
    match read {
        Ok(found) if found.text.as_str() == text => Outcome::Whole,
        Ok(_) => Outcome::Other,
        Err(error) => found_error(error),
    }
}

// What reading comes to with memory from here, with a buffer that is kept or without one.
fn read_by<A: Allocator + Copy>(
    alloc: A,
    reader: &mut SlowReader,
    keeps: bool,
    text: &str,
) -> Outcome {
    let mut config = Config::new(alloc);
    if keeps {
        config = config.with_read_buf();
    }
    outcome_of(&from_reader(alloc, reader, &mut config), text)
}

// Whether the failure of the growth after so many is returned as out of memory or by the response; and
// where no growth fails, `None`.
fn is_right_or_short(
    alloc: Global,
    bytes: &[u8],
    keeps: bool,
    text: &str,
    before: u64,
) -> Option<bool> {
    let heap = BoundedAllocator::failing_after(alloc, before);
    let mut reader = SlowReader {
        bytes,
        before: u64::MAX,
        kind: io::ErrorKind::Other,
    };
    let found = read_by(&heap, &mut reader, keeps, text);
    if heap.has_failed() {
        Some(found == Outcome::Whole || found == Outcome::OutOfMemory)
    } else if found == Outcome::Whole {
        None
    } else {
        Some(false)
    }
}

// The number of growths that reading asks for, where each of them may fail.
fn growths_of(alloc: Global, bytes: &[u8], keeps: bool, text: &str) -> Option<u64> {
    for before in 0..1000u64 {
        match is_right_or_short(alloc, bytes, keeps, text, before) {
            Some(true) => {}
            Some(false) => return None,
            None => return Some(before),
        }
    }
    None
}

#[test]
fn each_growth_may_fail(rt: HostRuntime) -> Result<(), Fail> {
    let text = answer::<Response>(rt.alloc(), RESPONSE)?;
    let bytes = hex::decode(rt.alloc(), RESPONSE)?;
    for keeps in [false, true] {
        let growths = growths_of(rt.alloc(), bytes.as_slice(), keeps, text.as_str());
        assert!(rt; growths > Some(0), "with a buffer: {keeps}");
    }
    Ok(())
}

// Whether the read after so many fails with this kind and no byte was taken behind it; and reading that
// does not fail before the end, or is only interrupted, gives the response.
fn is_read_or_failed(
    alloc: Global,
    bytes: &[u8],
    text: &str,
    kind: io::ErrorKind,
    before: usize,
) -> bool {
    let mut reader = SlowReader {
        bytes,
        before: before as u64,
        kind,
    };
    let found = read_by(alloc, &mut reader, true, text);
    if before < bytes.len() && kind != io::ErrorKind::Interrupted {
        found == Outcome::Fault(kind) && Some(reader.bytes) == bytes.get(before..)
    } else {
        found == Outcome::Whole && reader.bytes.is_empty()
    }
}

#[test]
fn each_read_may_fail(rt: HostRuntime) -> Result<(), Fail> {
    let text = answer::<Response>(rt.alloc(), RESPONSE)?;
    let bytes = hex::decode(rt.alloc(), RESPONSE)?;
    for kind in [io::ErrorKind::BrokenPipe, io::ErrorKind::Interrupted] {
        for before in 0..=200usize {
            let is_right = is_read_or_failed(
                rt.alloc(),
                bytes.as_slice(),
                text.as_str(),
                kind,
                before,
            );
            assert!(rt; is_right, "{kind:?} at {before}");
        }
    }
    Ok(())
}
