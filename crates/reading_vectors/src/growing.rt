//! Each growth fails in turn: reading returns `OutOfMemory`, or what it returns with ample memory.

use crate::answer::{Single, answer};
use crate::reading::Reading;
use crate::response::{RESPONSE, Response};
use kmip_ttlv::error::{Error, ErrorKind};
use kmip_ttlv::shape::Data;
use kmip_ttlv::{from_slice, from_slice_by_shape};
use kmip_ttlv_memory::BoundedAllocator;
use sample_shapes::parts::Part;
use std::alloc::{AllocError, Allocator, Global};
use std::test::Fail;

// Whether an error is out of memory, at no place.
fn is_memory<A: Allocator>(error: &Error<A>) -> bool {
    if !error.location().is_unknown() {
        return false;
    }
    match error.kind() {
        ErrorKind::OutOfMemory => true,
        _ => false,
    }
}

// Whether this text was read, and whether memory ran out.
fn outcome<P, A: Allocator>(read: Result<Reading<P, A>, Error<A>>, text: &str) -> (bool, bool) {
    match read {
        Ok(found) => (found.text.as_str() == text, false),
        Err(error) => (false, is_memory(&error)),
    }
}

// What comes of the response if the growth after so many fails: whether it is read as this text, whether memory ran out, and
// whether a growth failed.
fn response_after(alloc: Global, bytes: &[u8], text: &str, before: u64) -> (bool, bool, bool) {
    let heap = BoundedAllocator::failing_after(alloc, before);
    let (is_whole, is_short) = outcome(from_slice::<Reading<Response, _>, _>(&heap, bytes), text);
    (is_whole, is_short, heap.has_failed())
}

#[test]
fn a_response_that_is_read_grows(rt: HostRuntime) -> Result<(), Fail> {
    let ample = answer::<Response>(rt.alloc(), RESPONSE)?;
    let bytes = hex::decode(rt.alloc(), RESPONSE)?;
    for before in 0..1000u64 {
        let (is_whole, is_short, has_failed) = response_after(
            rt.alloc(),
            bytes.as_slice(),
            ample.as_str(),
            before,
        );
        assert!(rt; is_whole || has_failed && is_short, "at {before}");
        if !has_failed {
            return Ok(());
        }
    }
    Err(Fail::new("it grows without end"))
}

// What the response is read as by its shape, which takes its memory here too.
fn read_by_shape<A: Allocator + Copy>(alloc: A, bytes: &[u8]) -> Result<Data<A>, Error<A>> {
    let shape = Response::shape(alloc)?;
    from_slice_by_shape(alloc, &shape, bytes)
}

// The same as `response_after` by the shape; of data only that it is a struct.
fn by_shape_after(alloc: Global, bytes: &[u8], before: u64) -> (bool, bool, bool) {
    let heap = BoundedAllocator::failing_after(alloc, before);
    let (is_read, is_short) = match &read_by_shape(&heap, bytes) {
        Ok(data) => (matches!(data, Data::Struct { .. }), false),
        Err(error) => (false, is_memory(error)),
    };
    (is_read, is_short, heap.has_failed())
}

#[test]
fn data_that_is_read_by_a_shape_grows(rt: HostRuntime) -> Result<(), Fail> {
    let bytes = hex::decode(rt.alloc(), RESPONSE)?;
    for before in 0..1000u64 {
        let (is_read, is_short, has_failed) = by_shape_after(rt.alloc(), bytes.as_slice(), before);
        assert!(rt; is_read || has_failed && is_short, "at {before}");
        if !has_failed {
            return Ok(());
        }
    }
    Err(Fail::new("it grows without end"))
}

// Whether memory runs out for a structure of one number if the growth after so many fails, and whether a growth failed.
fn number_after(alloc: Global, bytes: &[u8], before: u64) -> (bool, bool) {
    let heap = BoundedAllocator::failing_after(alloc, before);
    let (_, is_short) = outcome(from_slice::<Reading<Single, _>, _>(&heap, bytes), "");
    (is_short, heap.has_failed())
}

// The growths whose failure is out of memory, in reading a structure of one number.
fn failed_growths(alloc: Global, bytes: &[u8]) -> Result<Vec<u64>, AllocError> {
    let mut failed = Vec::new(alloc);
    for before in 0..1000u64 {
        let (is_short, has_failed) = number_after(alloc, bytes, before);
        if is_short {
            failed.push(before)?;
        }
        if !has_failed {
            break;
        }
    }
    Ok(failed)
}

#[test]
fn an_ignored_text_takes_no_memory(rt: HostRuntime) -> Result<(), Fail> {
    let number = hex::decode(
        rt.alloc(),
        "AAAAAA0100000020BBBBBB02000000040000000300000000CCCCCC02000000040000000500000000",
    )?;
    let short = hex::decode(
        rt.alloc(),
        "AAAAAA0100000020BBBBBB02000000040000000300000000CCCCCC07000000016100000000000000",
    )?;
    // 900 letters and four bytes of padding.
    let mut long = hex::decode(
        rt.alloc(),
        "AAAAAA01000003A0BBBBBB02000000040000000300000000CCCCCC0700000384",
    )?;
    for _ in 0..904u16 {
        long.push(0x61)?;
    }
    let wanted = failed_growths(rt.alloc(), number.as_slice())?;
    assert!(rt; !wanted.is_empty());
    let found = failed_growths(rt.alloc(), short.as_slice())?;
    assert_eq!(rt; found.as_slice(), wanted.as_slice());
    let found = failed_growths(rt.alloc(), long.as_slice())?;
    assert_eq!(rt; found.as_slice(), wanted.as_slice());
    Ok(())
}
