//! Each growth fails in turn: a call then returns OutOfMemory, and otherwise what it returns with ample
//! memory. And how much memory a length without its bytes takes.

use crate::samples::{
    bytes_are_cloned, is_failure, is_whole_place, number_is_cloned, text_is_cloned, whole_place,
};
use kmip_ttlv_base::error::{ErrorKind, SerdeError};
use kmip_ttlv_memory::BoundedAllocator;
use kmip_ttlv_types::stream::append_bytes;
use kmip_ttlv_types::{
    Error, SerializableTtlvType, TtlvBigInteger, TtlvByteString, TtlvTag, TtlvTextString,
};
use std::alloc::{AllocError, Allocator, Global};
use std::io;
use std::test::Fail;

// What a call returned.
#[derive(Clone, Copy, Debug, PartialEq, Eq)]
enum Answer {
    // What it returns with ample memory.
    Ample,
    // Out of memory.
    OutOfMemory,
    // Anything else.
    Other,
}

// The result of a call that returned a value, by whether that is the expected one.
fn ample_if(is_wanted: bool) -> Answer {
    if is_wanted {
        Answer::Ample
    } else {
        Answer::Other
    }
}

// A call that allocates.
#[derive(Clone, Copy, Debug)]
enum Call {
    ReadText,
    ReadBytes,
    ReadNumber,
    AppendBytes,
    FailingName,
    KindOfName,
    CloneText,
    CloneBytes,
    CloneNumber,
    ClonePlace,
}

// Each call, and how many growths it needs at least. Of a clone one is for the value itself.
const CALLS: [(Call, u64); 10] = [
    (Call::ReadText, 1),
    (Call::ReadBytes, 1),
    (Call::ReadNumber, 1),
    (Call::AppendBytes, 2),
    (Call::FailingName, 1),
    (Call::KindOfName, 1),
    (Call::CloneText, 2),
    (Call::CloneBytes, 2),
    (Call::CloneNumber, 2),
    (Call::ClonePlace, 2),
];

// The length of content of 150,000 bytes, and that content: three pieces, and no padding.
fn long_leaf(heap: Global) -> Result<Vec<u8>, Fail> {
    let mut bytes = Vec::from_slice(heap, b"\x00\x02\x49\xF0")?;
    for count in 0..150_000u32 {
        bytes.push((count % 127) as u8)?;
    }
    Ok(bytes)
}

// The content after a length.
fn content_of(leaf: &[u8]) -> &[u8] {
    match leaf.split_at_checked(4) {
        Some((_, content)) => content,
        None => leaf,
    }
}

// The value that the leaf is read as, or what reading returns in its place.
fn reading<T: SerializableTtlvType>(alloc: T::Alloc, leaf: &[u8]) -> Result<T, Answer> {
    let mut source = leaf;
    match T::read(alloc, &mut source) {
        Ok(value) => Ok(value),
        Err(Error::OutOfMemory) => Err(Answer::OutOfMemory),
        Err(_) => Err(Answer::Other),
    }
}

fn text_answer(memory: &BoundedAllocator<Global>, leaf: &[u8]) -> Answer {
    match &reading::<TtlvTextString<_>>(memory, leaf) {
        Ok(text) => ample_if(text.as_bytes() == content_of(leaf)),
        Err(answer) => *answer,
    }
}

fn bytes_answer(memory: &BoundedAllocator<Global>, leaf: &[u8]) -> Answer {
    match &reading::<TtlvByteString<_>>(memory, leaf) {
        Ok(bytes) => ample_if(bytes.as_slice() == content_of(leaf)),
        Err(answer) => *answer,
    }
}

fn number_answer(memory: &BoundedAllocator<Global>, leaf: &[u8]) -> Answer {
    match &reading::<TtlvBigInteger<_>>(memory, leaf) {
        Ok(number) => ample_if(number.as_slice() == content_of(leaf)),
        Err(answer) => *answer,
    }
}

// Appends all bytes of the leaf to two others.
fn append_answer(memory: &BoundedAllocator<Global>, leaf: &[u8]) -> Answer {
    let Ok(mut bytes) = Vec::from_slice(memory, b"\x01\x02") else {
        return Answer::OutOfMemory;
    };
    let mut source = leaf;
    match &append_bytes(&mut source, &mut bytes, leaf.len()) {
        Ok(()) => ample_if(bytes.starts_with(b"\x01\x02") && &bytes[2..] == leaf),
        Err(Error::OutOfMemory) => Answer::OutOfMemory,
        Err(_) => Answer::Other,
    }
}

fn name_answer(memory: &BoundedAllocator<Global>) -> Answer {
    match &TtlvTag::from_str(memory, "no tag") {
        Err(Error::InvalidTtlvTag(text)) => ample_if(text.as_str() == "no tag"),
        Err(Error::OutOfMemory) => Answer::OutOfMemory,
        _ => Answer::Other,
    }
}

// The kind of a low-level error with a name.
fn kind_answer(heap: Global, memory: &BoundedAllocator<Global>) -> Answer {
    let Ok(name) = String::from_str(heap, "no tag") else {
        return Answer::Other;
    };
    let low: Error = Error::InvalidTtlvTag(name);
    match &ErrorKind::from_types(memory, low) {
        ErrorKind::SerdeError(SerdeError::InvalidTag(name)) => ample_if(name.as_str() == "no tag"),
        ErrorKind::OutOfMemory => Answer::OutOfMemory,
        _ => Answer::Other,
    }
}

// The result of a call that fails with an AllocError, or else says whether its value is the expected one.
fn answer_of(is_wanted: Result<bool, AllocError>) -> Answer {
    match is_wanted {
        Ok(is_wanted) => ample_if(is_wanted),
        Err(_) => Answer::OutOfMemory,
    }
}

// Makes a place with two parents, and says whether a clone of it is the same.
fn place_is_cloned(memory: &BoundedAllocator<Global>) -> Result<bool, AllocError> {
    let place = whole_place(memory)?;
    let copy = place.clone()?;
    Ok(is_whole_place(&copy))
}

fn answer_to(heap: Global, memory: &BoundedAllocator<Global>, call: Call, leaf: &[u8]) -> Answer {
    match call {
        Call::ReadText => text_answer(memory, leaf),
        Call::ReadBytes => bytes_answer(memory, leaf),
        Call::ReadNumber => number_answer(memory, leaf),
        Call::AppendBytes => append_answer(memory, leaf),
        Call::FailingName => name_answer(memory),
        Call::KindOfName => kind_answer(heap, memory),
        Call::CloneText => answer_of(text_is_cloned(memory, "Hello World")),
        Call::CloneBytes => answer_of(bytes_are_cloned(memory, b"\x01\x02\x03")),
        Call::CloneNumber => answer_of(number_is_cloned(memory, b"\x80\x00")),
        Call::ClonePlace => answer_of(place_is_cloned(memory)),
    }
}

// How many growths the call needs, if it returns OutOfMemory when any one of them fails, and what it returns with ample
// memory when none does.
fn growths_of(heap: Global, call: Call, leaf: &[u8]) -> Option<u64> {
    for before in 0..100u64 {
        let memory = BoundedAllocator::failing_after(heap, before);
        let answer = answer_to(heap, &memory, call, leaf);
        if !memory.has_failed() {
            return if answer == Answer::Ample {
                Some(before)
            } else {
                None
            };
        }
        if answer != Answer::OutOfMemory {
            return None;
        }
    }
    None
}

// Whether the call needs so many growths at least.
fn grows(heap: Global, call: Call, leaf: &[u8], least: u64) -> bool {
    matches!(growths_of(heap, call, leaf), Some(growths) if growths >= least)
}

#[test]
fn calls_grow(rt: HostRuntime) -> Result<(), Fail> {
    let leaf = long_leaf(rt.alloc())?;
    for (call, least) in CALLS {
        assert!(rt; grows(rt.alloc(), call, leaf.as_slice(), least), "{call:?}");
    }
    Ok(())
}

// The calls that read a string.
const STRINGS: [Call; 3] = [Call::ReadText, Call::ReadBytes, Call::ReadNumber];

// A length of FFFFFFFF before three bytes.
const CUT: &[u8] = b"\xFF\xFF\xFF\xFFabc";

// Whether a leaf that is cut gives an IoError of kind UnexpectedEof.
fn is_early_end<T: SerializableTtlvType>(alloc: T::Alloc, leaf: &[u8]) -> bool {
    let mut source = leaf;
    is_failure(&T::read(alloc, &mut source), io::ErrorKind::UnexpectedEof)
}

fn ends_early<A: Allocator>(alloc: A, call: Call, leaf: &[u8]) -> bool {
    match call {
        Call::ReadText => is_early_end::<TtlvTextString<A>>(alloc, leaf),
        Call::ReadBytes => is_early_end::<TtlvByteString<A>>(alloc, leaf),
        Call::ReadNumber => is_early_end::<TtlvBigInteger<A>>(alloc, leaf),
        _ => false,
    }
}

// Whether such a length takes no more than one growth.
fn takes_one_piece(heap: Global, call: Call) -> bool {
    let memory = BoundedAllocator::failing_after(heap, 1);
    ends_early(&memory, call, CUT) && !memory.has_failed()
}

#[test]
fn a_length_without_its_bytes_takes_one_piece(rt: HostRuntime) -> Result<(), Fail> {
    for call in STRINGS {
        assert!(rt; takes_one_piece(rt.alloc(), call), "{call:?}");
    }
    Ok(())
}

// Whether a length of FFFFFFFF takes blocks of at most 65,536 bytes beyond twice those that came.
fn takes_what_came(heap: Global, call: Call, came: usize) -> Result<bool, AllocError> {
    let mut leaf = Vec::from_slice(heap, &[0xFF; 4])?;
    leaf.resize(came.saturating_add(4), b'a')?;
    let most = came.saturating_mul(2).saturating_add(65_536);
    let memory = BoundedAllocator::in_blocks(heap, most);
    Ok(ends_early(&memory, call, leaf.as_slice()))
}

#[test]
fn a_length_takes_what_came(rt: HostRuntime) -> Result<(), Fail> {
    for call in STRINGS {
        for came in [0, 3, 65_536, 200_000, 1_000_000] {
            assert!(rt;
                takes_what_came(rt.alloc(), call, came)?,
                "{call:?}: {came}"
            );
        }
    }
    Ok(())
}

// Whether reading the leaf runs out of memory.
fn is_error<T: SerializableTtlvType>(alloc: T::Alloc, leaf: &[u8]) -> bool {
    let mut source = leaf;
    matches!(&T::read(alloc, &mut source), Err(Error::OutOfMemory))
}

fn is_out_of_memory<A: Allocator>(alloc: A, call: Call, leaf: &[u8]) -> bool {
    match call {
        Call::ReadText => is_error::<TtlvTextString<A>>(alloc, leaf),
        Call::ReadBytes => is_error::<TtlvByteString<A>>(alloc, leaf),
        Call::ReadNumber => is_error::<TtlvBigInteger<A>>(alloc, leaf),
        _ => false,
    }
}

// Whether a block of 65,536 bytes is enough for such a length, and not for this leaf.
fn takes_pieces(heap: Global, call: Call, leaf: &[u8]) -> bool {
    let memory = BoundedAllocator::in_blocks(heap, 65_536);
    ends_early(&memory, call, CUT) && is_out_of_memory(&memory, call, leaf)
}

#[test]
fn a_piece_has_65_536_bytes(rt: HostRuntime) -> Result<(), Fail> {
    let leaf = long_leaf(rt.alloc())?;
    for call in STRINGS {
        assert!(rt; takes_pieces(rt.alloc(), call, leaf.as_slice()), "{call:?}");
    }
    Ok(())
}
