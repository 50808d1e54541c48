//! Messages and documents that are written, and read back.

use crate::rows::{DOCUMENTS, PLAIN, UNWRITTEN, WRITTEN};
use kmip_ttlv_memory::BoundedAllocator;
use kmip_ttlv_xml::{Document, WriteError, push_xml};
use kmip_words::{LateWords, Words, standard_words};
use std::alloc::{AllocError, Allocator, Global};
use std::test::*;

// What is written of these bytes.
fn written(alloc: Global, digits: &str) -> Result<String, WriteError> {
    let Ok(bytes) = hex::decode(alloc, digits) else {
        return Err(WriteError::OutOfMemory);
    };
    let mut out = String::new(alloc);
    push_xml(alloc, &mut out, bytes.as_slice())?;
    Ok(out)
}

// Whether this text is written of these bytes.
fn is_written(alloc: Global, text: &str, digits: &str) -> bool {
    match written(alloc, digits) {
        Ok(found) => found.as_str() == text,
        Err(_error) => false,
    }
}

#[test]
fn each_value(rt: HostRuntime) -> Result<(), Fail> {
    for (text, digits) in &WRITTEN {
        assert!(rt; is_written(rt.alloc(), text, digits), "{text}");
    }
    Ok(())
}

// Whether these bytes are not written for this reason.
fn is_unwritten(alloc: Global, digits: &str, error: WriteError) -> bool {
    match written(alloc, digits) {
        Ok(_text) => false,
        Err(found) => found == error,
    }
}

#[test]
fn each_reason(rt: HostRuntime) -> Result<(), Fail> {
    for (digits, error) in &UNWRITTEN {
        assert!(rt; is_unwritten(rt.alloc(), digits, *error), "{digits}");
    }
    Ok(())
}

// Adds a message, and again where memory ran out: that left the document as it was.
fn push_again<A: Allocator + Copy>(
    document: &mut Document<A>,
    words: &Words<A>,
    message: &[u8],
) -> Result<(), WriteError> {
    match document.push(words, message) {
        Err(WriteError::OutOfMemory) => document.push(words, message),
        other => other,
    }
}

// What is written of these lines of digits, of which those are passed that are no message, or that XML can't hold.
fn document<A: Allocator + Copy>(
    alloc: A,
    words: &Words<A>,
    late: &mut LateWords<A>,
    lines: &str,
) -> Result<String<A>, WriteError> {
    let mut document = Document::new(alloc)?;
    for line in lines.lines() {
        let Ok(bytes) = hex::decode(alloc, line) else {
            return Err(WriteError::OutOfMemory);
        };
        match push_again(&mut document, words, bytes.as_slice()) {
            Ok(()) | Err(WriteError::Malformed(_)) | Err(WriteError::NotHeld { .. }) => {}
            Err(error) => return Err(error),
        }
    }
    document.finish(late)
}

// Whether this document is written of these lines.
fn is_document(alloc: Global, words: &Words, text: &str, lines: &str) -> bool {
    match document(alloc, words, &mut LateWords::new(), lines) {
        Ok(found) => found.as_str() == text,
        Err(_error) => false,
    }
}

#[test]
fn each_document(rt: HostRuntime) -> Result<(), Fail> {
    let words = standard_words(rt.alloc())?;
    for (text, lines) in &DOCUMENTS {
        assert!(rt; is_document(rt.alloc(), &words, text, lines), "{text}");
    }
    Ok(())
}

// Whether this document is written in a memory that may fail, or none if it did. The words have a memory of their own.
fn is_right<'a>(
    calm: &'a BoundedAllocator<Global>,
    heap: &'a BoundedAllocator<Global>,
    text: &str,
    lines: &str,
) -> Result<bool, AllocError> {
    let words = standard_words(calm)?;
    match document(heap, &words, &mut LateWords::new(), lines) {
        Ok(found) => Ok(found.as_str() == text),
        Err(error) => Ok(error == WriteError::OutOfMemory && heap.has_failed()),
    }
}

// Whether each allocation may fail: there is no document then, or the same.
fn each_may_fail(alloc: Global, text: &str, lines: &str) -> Result<bool, AllocError> {
    for before in 0..1000u64 {
        let calm = BoundedAllocator::new(alloc, usize::MAX);
        let heap = BoundedAllocator::failing_after(alloc, before);
        let is_right = is_right(&calm, &heap, text, lines)?;
        if !is_right || !heap.has_failed() {
            return Ok(is_right && before > 0);
        }
    }
    Ok(false)
}

#[test]
fn each_growth_for_a_document_may_fail(rt: HostRuntime) {
    let (text, lines) = PLAIN;
    assert_eq!(rt; each_may_fail(rt.alloc(), text, lines), Ok(true));
}
