//! The request to create a key: in pieces on one serializer, over writers that are slow, fail or take nothing, in one write, and with
//! each growth failing in turn. And how much memory a serializer asks for.

use crate::bytes::{data_bytes, is_written, joined};
use crate::writers::{Fake, failure_of};
use kmip_ttlv::error::{Error, ErrorKind, MalformedTtlvError};
use kmip_ttlv::ser::TtlvSerializer;
use kmip_ttlv::shape::{Data, Serialize};
use kmip_ttlv::{error, to_vec, to_writer};
use kmip_ttlv_memory::BoundedAllocator;
use std::alloc::{AllocError, Allocator, Global};
use std::io;
use ttlv_vectors::data::tagged_number;
use ttlv_vectors::request::CreateRequest;
use ttlv_vectors::samples::Single;

// The request to create a key of 128 bits for encryption and decryption, in hexadecimal.
const HEADER: &str =
    "4200770100000038420069010000002042006A0200000004000000010000000042006B0200000004000000000000000042000D02000000040000000100000000";

const ITEM: &str =
    "42000F01000000D842005C0500000004000000010000000042007901000000C042005705000000040000000200000000\
42009101000000A8420008010000003042000A070000001743727970746F6772617068696320416C676F726974686D0042000B05000000040000000300000000420008010000003042000A070000001443727970746F67726170686963204C656E6774680000000042000B02000000040000008000000000420008010000003042000A070000001843727970746F67726170686963205573616765204D61736B42000B02000000040000000C00000000";

// A structure of the number three, in hexadecimal.
const NUMBER: &str = "AAAAAA0100000010BBBBBB02000000040000000300000000";

const REQUEST: CreateRequest = CreateRequest {
    major: 1,
    minor: 0,
    batch_count: 1,
    bits: 128,
    usage: 12,
};

// The parts of the whole request: its header and its item in one structure, of 296 bytes.
const WHOLE: [&str; 3] = ["4200780100000120", HEADER, ITEM];

fn is_memory<A: Allocator>(error: &Error<A>) -> bool {
    matches!(error.kind(), ErrorKind::OutOfMemory) && error.location().is_unknown()
}

fn is_closed<T, A: Allocator>(answer: &error::Result<T, A>) -> bool {
    match answer {
        Err(error) => {
            matches!(
                error.kind(),
                ErrorKind::MalformedTtlv(MalformedTtlvError::UnknownStructureLength)
            ) && error.location().is_unknown()
        }
        Ok(_) => false,
    }
}

// Whether the serializer gives these bytes.
fn gives<A: Allocator + Copy>(serializer: TtlvSerializer<A>, expected: &[u8]) -> bool {
    match &serializer.into_vec() {
        Ok(bytes) => bytes.as_slice() == expected,
        Err(_) => false,
    }
}

// Whether the serializer takes each of the data.
fn takes_each(serializer: &mut TtlvSerializer<Global>, fields: &[Data]) -> bool {
    for field in fields {
        if serializer.serialize(field).is_err() {
            return false;
        }
    }
    true
}

// Whether the fields of a structure, one after the other on one serializer, are these bytes.
fn is_in_pieces(alloc: Global, data: &Data, expected: &[u8]) -> bool {
    let Data::Struct { name: _, fields } = data else {
        return false;
    };
    let mut serializer = TtlvSerializer::new(alloc);
    let is_taken = takes_each(&mut serializer, fields);
    let is_given = gives(serializer, expected);
    is_taken && is_given
}

// Whether the request is, in two pieces.
fn request_is_in_pieces(alloc: Global) -> bool {
    match (&joined(alloc, &[HEADER, ITEM]), &REQUEST.to_data(alloc)) {
        (Ok(expected), Ok(request)) => is_in_pieces(alloc, request, expected),
        _ => false,
    }
}

// What a call answered.
#[derive(Clone, Copy)]
enum Answer {
    // These bytes.
    Whole,
    OutOfMemory,
    // Anything else.
    Other,
}

// This answer, if it is right.
fn answer_if(is_right: bool, answer: Answer) -> Answer {
    if is_right { answer } else { Answer::Other }
}

// A call that takes memory. The first two take the request.
#[derive(Clone, Copy)]
enum Call {
    ToVec,
    ToWriter,
    Serialize,
}

// What `to_vec` answers.
fn to_vec_answer(memory: &BoundedAllocator<Global>, expected: &[u8]) -> Answer {
    match &to_vec(memory, &REQUEST) {
        Ok(bytes) => answer_if(bytes.as_slice() == expected, Answer::Whole),
        Err(error) => answer_if(is_memory(error), Answer::OutOfMemory),
    }
}

// What `to_writer` answers. A writer is given nothing if memory runs out.
fn to_writer_answer(heap: Global, memory: &BoundedAllocator<Global>, expected: &[u8]) -> Answer {
    let mut writer = Vec::new(heap);
    match &to_writer(memory, &REQUEST, &mut writer) {
        Ok(()) => answer_if(writer.as_slice() == expected, Answer::Whole),
        Err(error) => answer_if(is_memory(error) && writer.is_empty(), Answer::OutOfMemory),
    }
}

// Whether the serializer returns an error for all that follows.
fn stays_closed<A: Allocator + Copy>(mut serializer: TtlvSerializer<A>, data: &Data) -> bool {
    let is_data_refused = is_closed(&serializer.serialize(data));
    let is_end_refused = is_closed(&serializer.into_vec());
    is_data_refused && is_end_refused
}

// What a serializer answers.
fn serializer_answer(memory: &BoundedAllocator<Global>, data: &Data, expected: &[u8]) -> Answer {
    let mut serializer = TtlvSerializer::new(memory);
    match &serializer.serialize(data) {
        Ok(()) => answer_if(gives(serializer, expected), Answer::Whole),
        Err(error) => {
            let is_stopped = stays_closed(serializer, data);
            answer_if(is_memory(error) && is_stopped, Answer::OutOfMemory)
        }
    }
}

// What a call answers with this memory.
fn answer_of(
    heap: Global,
    call: Call,
    memory: &BoundedAllocator<Global>,
    data: &Data,
    expected: &[u8],
) -> Answer {
    match call {
        Call::ToVec => to_vec_answer(memory, expected),
        Call::ToWriter => to_writer_answer(heap, memory, expected),
        Call::Serialize => serializer_answer(memory, data, expected),
    }
}

// How many growths a call asks for, if it answers OutOfMemory only where one of them failed, and else these bytes, for each of them in
// turn.
fn growths(heap: Global, call: Call, data: &Data, expected: &[u8]) -> Option<u64> {
    for before in 0..200u64 {
        let memory = BoundedAllocator::failing_after(heap, before);
        match (
            answer_of(heap, call, &memory, data, expected),
            memory.has_failed(),
        ) {
            (Answer::Whole, false) => return Some(before),
            (Answer::OutOfMemory, true) => {}
            _ => return None,
        }
    }
    None
}

// Whether a call answers the whole request, and asks for so many bytes of memory.
fn asks_for(heap: Global, call: Call, data: &Data, expected: &[u8], count: usize) -> bool {
    let memory = BoundedAllocator::in_blocks(heap, usize::MAX);
    let answer = answer_of(heap, call, &memory, data, expected);
    matches!(answer, Answer::Whole) && memory.asked() == count
}

// Whether each call gives the request, of 296 bytes, or runs out of memory. A message of up to 1,024 bytes is put together on the stack:
// the vector is all that memory is asked for.
fn is_given(alloc: Global, request: &Data, expected: &[u8]) -> bool {
    expected.len() == 296
        && is_written(alloc, &REQUEST, expected)
        && growths(alloc, Call::ToVec, request, expected).is_some()
        && growths(alloc, Call::ToWriter, request, expected).is_some()
        && growths(alloc, Call::Serialize, request, expected).is_some()
        && asks_for(alloc, Call::ToVec, request, expected, 296)
        && asks_for(alloc, Call::ToWriter, request, expected, 0)
}

fn request_is_given(alloc: Global) -> bool {
    match (&joined(alloc, &WHOLE), &REQUEST.to_data(alloc)) {
        (Ok(expected), Ok(request)) => is_given(alloc, request, expected),
        _ => false,
    }
}

// Whether a slow writer that fails has taken the bytes before that, and its error is the call's; and one that doesn't takes them all.
fn is_taken_up_to<T: Serialize>(
    heap: Global,
    value: &T,
    room: usize,
    kind: io::ErrorKind,
    expected: &[u8],
) -> bool {
    let mut writer = Fake::new(heap, room);
    writer.most = 1;
    writer.waits = true;
    writer.kind = kind;
    let is_right = match failure_of(heap, value, &mut writer) {
        None => room == expected.len(),
        Some(found) => found == kind && room < expected.len(),
    };
    is_right && writer.taken.len() == room && expected.starts_with(writer.taken.as_slice())
}

// Whether that is so of a writer that fails with this kind, wherever it does.
fn is_taken_anywhere<T: Serialize>(
    heap: Global,
    value: &T,
    kind: io::ErrorKind,
    expected: &[u8],
) -> bool {
    for room in 0..=expected.len() {
        if !is_taken_up_to(heap, value, room, kind, expected) {
            return false;
        }
    }
    true
}

// Whether that is so of the request, and of a structure of a number.
fn writers_have_beginnings(alloc: Global, kind: io::ErrorKind) -> bool {
    match (&joined(alloc, &WHOLE), &hex::decode(alloc, NUMBER)) {
        (Ok(request), Ok(number)) => {
            is_taken_anywhere(alloc, &REQUEST, kind, request)
                && is_taken_anywhere(alloc, &Single { number: 3 }, kind, number)
        }
        _ => false,
    }
}

// Writes the request to a writer, and returns why that failed.
fn request_failure(alloc: Global, writer: &mut Fake) -> Option<io::ErrorKind> {
    failure_of(alloc, &REQUEST, writer)
}

// Whether a writer that takes nothing is an error.
fn nothing_is_written(alloc: Global) -> bool {
    let mut writer = Fake::new(alloc, 1);
    writer.most = 0;
    matches!(
        request_failure(alloc, &mut writer),
        Some(io::ErrorKind::WriteZero)
    )
}

// Whether the request goes out in one write.
fn is_one_write(alloc: Global) -> bool {
    let mut writer = Fake::new(alloc, usize::MAX);
    let is_written = request_failure(alloc, &mut writer).is_none();
    match &joined(alloc, &WHOLE) {
        Ok(expected) => {
            is_written && writer.calls == 1 && writer.taken.as_slice() == expected.as_slice()
        }
        Err(_) => false,
    }
}

// A structure of so many leaves.
fn structure_of(alloc: Global, leaves: u32) -> Result<Data, AllocError> {
    let mut fields = Vec::new(alloc);
    for _ in 0..leaves {
        fields.push(tagged_number(alloc, "Transparent:0xBBBBBB", 3)?)?;
    }
    let name = "0xAAAAAA";
    Ok(Data::Struct { name, fields })
}

// How many growths a new serializer asks for, for this data.
fn growths_of(alloc: Global, data: &Data) -> Option<u64> {
    match &data_bytes(alloc, data) {
        Ok(expected) => growths(alloc, Call::Serialize, data, expected),
        Err(_) => None,
    }
}

// The same for a structure of so many leaves.
fn growths_for(alloc: Global, leaves: u32) -> Option<u64> {
    match &structure_of(alloc, leaves) {
        Ok(data) => growths_of(alloc, data),
        Err(_) => None,
    }
}

// Whether a serializer asks for as many growths for many leaves as for one, and for few.
fn grows_alike(alloc: Global) -> bool {
    match (growths_for(alloc, 1), growths_for(alloc, 1000)) {
        (Some(few), Some(many)) => few == many && few < 100,
        _ => false,
    }
}

#[test]
fn a_request(rt: HostRuntime) {
    let alloc = rt.alloc();
    for (what, is_right) in [
        (
            "it is written in pieces on one serializer",
            request_is_in_pieces(alloc),
        ),
        (
            "each call gives it, or runs out of memory",
            request_is_given(alloc),
        ),
        ("a writer takes nothing", nothing_is_written(alloc)),
        ("it is one write", is_one_write(alloc)),
        (
            "a serializer grows alike for many leaves",
            grows_alike(alloc),
        ),
    ] {
        assert!(rt; is_right, "{what}");
    }
}

#[test]
fn writers_that_fail(rt: HostRuntime) {
    for kind in [
        io::ErrorKind::BrokenPipe,
        io::ErrorKind::PermissionDenied,
        io::ErrorKind::TimedOut,
    ] {
        let is_right = writers_have_beginnings(rt.alloc(), kind);
        assert!(rt; is_right, "{kind:?}");
    }
}
