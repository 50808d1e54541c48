//! Messages that create and destroy a key, both ways, and their diagnostics.

use crate::tally::Tally;
use create_destroy::calls::{read_request, read_response, write_request, write_response};
use create_destroy::messages::{Request, Response};
use kmip_ttlv::PrettyPrinter;
use kmip_ttlv::laws::Sound;
use kmip_ttlv_memory::BoundedAllocator;
use sample_shapes::rereads::comes_back;
use std::alloc::Global;
use std::io;

const CREATE_REQUEST: &str = "42007801000001204200770100000038\
420069010000002042006A0200000004000000010000000042006B02000000040000000000000000\
42000D0200000004000000010000000042000F01000000D8\
42005C0500000004000000010000000042007901000000C0\
4200570500000004000000020000000042009101000000A8\
4200080100000030\
42000A070000001743727970746F6772617068696320416C676F726974686D00\
42000B05000000040000000300000000\
4200080100000030\
42000A070000001443727970746F67726170686963204C656E67746800000000\
42000B02000000040000008000000000\
4200080100000030\
42000A070000001843727970746F67726170686963205573616765204D61736B\
42000B02000000040000000C00000000";

const CREATE_RESPONSE: &str = "42007B01000000C042007A0100000048\
420069010000002042006A0200000004000000010000000042006B02000000040000000000000000\
4200920900000008000000004AFBE7C242000D02000000040000000100000000\
42000F010000006842005C05000000040000000100000000\
42007F0500000004000000000000000042007C0100000040\
42005705000000040000000200000000\
420094070000002466633838333364652D373064322D346563652D623036332D66656465336133633539666500000000";

const DESTROY_REQUEST: &str = "42007801000000904200770100000038\
420069010000002042006A0200000004000000010000000042006B02000000040000000000000000\
42000D0200000004000000010000000042000F0100000048\
42005C050000000400000014000000004200790100000030\
420094070000002466633838333364652D373064322D346563652D623036332D66656465336133633539666500000000";

const DESTROY_RESPONSE: &str = "42007B01000000B042007A0100000048\
420069010000002042006A0200000004000000010000000042006B02000000040000000000000000\
4200920900000008000000004AFBE7C5\
42000D0200000004000000010000000042000F0100000058\
42005C0500000004000000140000000042007F0500000004000000000000000042007C0100000030\
420094070000002466633838333364652D373064322D346563652D623036332D66656465336133633539666500000000";

// A message, whether it is a request, how many bytes it has, and its diagnostic.
type Row = (&'static str, bool, usize, &'static str);

const MESSAGES: [Row; 4] = [
    (
        CREATE_REQUEST,
        true,
        296,
        "78[77[69[6Ai6Bi]0Di]0F[5Ce1:79[57e2:91[08[0At0Be3:]08[0At0Bi]08[0At0Bi]]]]]",
    ),
    (
        DESTROY_REQUEST,
        true,
        152,
        "78[77[69[6Ai6Bi]0Di]0F[5Ce14:79[94t]]]",
    ),
    (
        CREATE_RESPONSE,
        false,
        200,
        "7B[7A[69[6Ai6Bi]92d0Di]0F[5Ce1:7Fe0:7C[57e2:94t]]]",
    ),
    (
        DESTROY_RESPONSE,
        false,
        184,
        "7B[7A[69[6Ai6Bi]92d0Di]0F[5Ce14:7Fe0:7C[94t]]]",
    ),
];

// Whether these bytes are as many, and have this diagnostic.
fn is_shown(alloc: Global, bytes: &[u8], length: usize, diagnostic: &str) -> bool {
    let mut printer = PrettyPrinter::new(alloc);
    let Ok(prefix) = String::from_str(alloc, "4200") else {
        return false;
    };
    printer.with_tag_prefix(prefix);
    match printer.to_diag_string(bytes) {
        Ok(text) => bytes.len() == length && text.as_str() == diagnostic,
        Err(_) => false,
    }
}

// Whether a request is written as these bytes.
fn is_request_written(alloc: Global, request: &Request, bytes: &[u8]) -> bool {
    matches!(&write_request(alloc, request), Ok(again) if again.as_slice() == bytes)
}

// Whether these bytes are a consistent request, and are written for it again.
fn is_request(alloc: Global, bytes: &[u8]) -> bool {
    match &read_request(alloc, bytes) {
        Ok(request) => {
            request.batch_count == 1
                && request.is_consistent()
                && is_request_written(alloc, request, bytes)
        }
        Err(_) => false,
    }
}

// Whether a response is written as these bytes.
fn is_response_written(alloc: Global, response: &Response, bytes: &[u8]) -> bool {
    matches!(&write_response(alloc, response), Ok(again) if again.as_slice() == bytes)
}

// Whether these bytes are a consistent response, and are written for it again.
fn is_response(alloc: Global, bytes: &[u8]) -> bool {
    match &read_response(alloc, bytes) {
        Ok(response) => {
            response.batch_count == 1
                && response.is_consistent()
                && is_response_written(alloc, response, bytes)
        }
        Err(_) => false,
    }
}

// Whether a message comes back equal, as a request or as a response.
fn is_equal_again(alloc: Global, digits: &str, of_request: bool) -> bool {
    if of_request {
        comes_back::<Request>(alloc, digits)
    } else {
        comes_back::<Response>(alloc, digits)
    }
}

// Whether the first of a row is a request and no response, or the other way round, comes back, and has the length and the diagnostic
// behind it.
fn is_right(alloc: Global, row: &Row) -> bool {
    let (digits, of_request, length, diagnostic) = *row;
    let Ok(bytes) = &hex::decode(alloc, digits) else {
        return false;
    };
    is_request(alloc, bytes) == of_request
        && is_response(alloc, bytes) != of_request
        && is_equal_again(alloc, digits, of_request)
        && is_shown(alloc, bytes, length, diagnostic)
}

// Whether bytes are read as a request or as a response, with this memory.
fn is_read(memory: &BoundedAllocator<Global>, bytes: &[u8], of_request: bool) -> bool {
    if of_request {
        read_request(memory, bytes).is_ok()
    } else {
        read_response(memory, bytes).is_ok()
    }
}

// How many blocks of memory a message takes that is read; none on an error other than out of memory.
fn blocks(alloc: Global, bytes: &[u8], of_request: bool) -> Option<u64> {
    for before in 0..100u64 {
        let memory = BoundedAllocator::failing_after(alloc, before);
        let is_read = is_read(&memory, bytes, of_request);
        if !memory.has_failed() {
            return if is_read { Some(before) } else { None };
        }
    }
    None
}

// Whether a message takes so many blocks.
fn takes_blocks(alloc: Global, digits: &str, of_request: bool, count: u64) -> bool {
    match &hex::decode(alloc, digits) {
        Ok(bytes) => blocks(alloc, bytes, of_request) == Some(count),
        Err(_) => false,
    }
}

// Messages, whether they are requests, and how many blocks they take. None is for the texts that rules ask for: a request has a list of
// items, one of attributes, and three names; a response a list of items, and an identifier.
const BLOCKS: [(&str, bool, u64); 2] = [(CREATE_REQUEST, true, 5), (CREATE_RESPONSE, false, 2)];

fn try_blocks(tally: &mut Tally<'_>) -> io::Result<()> {
    for row in &BLOCKS {
        let (digits, of_request, count) = *row;
        let is_right = takes_blocks(tally.alloc(), digits, of_request, count);
        tally.note("memory is for lists and texts alone", is_right)?;
    }
    Ok(())
}

// Whether a message without items is sound.
fn is_empty_sound(alloc: Global) -> bool {
    let empty: Request = Request {
        major: 1,
        minor: 0,
        batch_count: 0,
        items: Vec::new(alloc),
    };
    empty.is_sound()
}

/// Tries them.
pub fn try_all(tally: &mut Tally<'_>) -> io::Result<()> {
    for row in &MESSAGES {
        let (digits, _, _, _) = *row;
        let is_right = is_right(tally.alloc(), row);
        tally.note(digits, is_right)?;
    }
    try_blocks(tally)?;
    let is_sound = is_empty_sound(tally.alloc());
    tally.note("a message without items is not sound", !is_sound)
}
