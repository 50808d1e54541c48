//! Payloads that are kept as they are: in a request of kmip_messages that of an operation which no table has, and in an envelope each.
//! They may hold any items, which have to be whole (KMIP 1.0, section 9.1.1).

use crate::by_hand::{STRUCTURE, asked, item, request, request_item};
use crate::contents::request_of;
use crate::fates::{Fate, envelope_fate_of_bytes, fate_of_bytes};
use crate::tally::Tally;
use kmip_messages::envelope::{RequestEnvelope, RequestEnvelopeItem};
use kmip_messages::request_payload::RequestPayload;
use kmip_ttlv::error::{Error, ErrorKind, MalformedTtlvError, SerdeError};
use kmip_ttlv::memory::BoundedAllocator;
use kmip_ttlv::types::{ByteOffset, TtlvType};
use kmip_ttlv::{from_slice, to_vec};
use std::alloc::{AllocError, Allocator, Global};
use std::io;

// Numbers of operations (section 9.1.3.2.26), the last of which is in no table.
const GET: u8 = 0x0A;

const DESTROY: u8 = 0x14;

const UNKNOWN: u8 = 0xFF;

// The content of payloads: a Unique Identifier, items of a vendor, of all types, and another Unique Identifier.
const FIRST: &[u8] = b"\x42\0\x94\x07\0\0\0\x03key\0\0\0\0\0";

const SECOND: &[u8] = b"\
\x54\0\x01\x01\0\0\0\x28\
\x54\0\x02\x02\0\0\0\x04\xFF\xFF\xFF\xFE\0\0\0\0\
\x54\0\x03\x08\0\0\0\x03\x01\x02\x03\0\0\0\0\0\
\x54\0\x04\x01\0\0\0\0\
\x54\0\x05\x03\0\0\0\x08\x80\0\0\0\0\0\0\0\
\x54\0\x06\x04\0\0\0\x08\xFF\xFF\xFF\xFF\xFF\xFF\xFF\xFB\
\x54\0\x07\x05\0\0\0\x04\x80\0\0\x01\0\0\0\0\
\x54\0\x08\x06\0\0\0\x08\0\0\0\0\0\0\0\x01\
\x54\0\x09\x07\0\0\0\x07Gr\xC3\xB6\xC3\x9Fe\0\
\x54\0\x0A\x09\0\0\0\x08\0\0\0\0\x4A\xFB\xE7\xC2\
\x54\0\x0B\x0A\0\0\0\x04\0\0\x0E\x10\0\0\0\0";

const THIRD: &[u8] = b"\x42\0\x94\x07\0\0\0\x08other-id";

// A request to get an object, to do what is unknown, and to destroy an object; each item has a byte as its identifier.
fn batch(alloc: Global) -> Result<Vec<u8>, AllocError> {
    let mut items = request_item(alloc, GET, 1, FIRST, b"")?;
    items.extend_from_slice(request_item(alloc, UNKNOWN, 2, SECOND, b"")?.as_slice())?;
    items.extend_from_slice(request_item(alloc, DESTROY, 3, THIRD, b"")?.as_slice())?;
    request(alloc, 3, items.as_slice())
}

/// The envelope that bytes are.
pub fn envelope_of(alloc: Global, bytes: &[u8]) -> Result<RequestEnvelope, Error> {
    from_slice(alloc, bytes)
}

// Whether that comes back, with its payloads kept and without.
fn is_back(alloc: Global, bytes: &[u8]) -> bool {
    matches!(&fate_of_bytes(alloc, bytes), Fate::Back)
        && matches!(&envelope_fate_of_bytes(alloc, bytes), Fate::Back)
}

// Whether an item is of this operation, and has this identifier and this payload.
fn is_item(item: &RequestEnvelopeItem, operation: u8, id: u8, payload: &[u8]) -> bool {
    item.operation.number == u32::from(operation)
        && matches!(&item.unique_batch_item_id, Some(found) if found.as_slice() == [id].as_slice())
        && item.payload.as_bytes() == payload
}

// Whether the items of the batch are as they were written.
fn are_items(alloc: Global, bytes: &[u8]) -> bool {
    let Ok(envelope) = &envelope_of(alloc, bytes) else {
        return false;
    };
    match envelope.items.as_slice() {
        [first, second, third] => {
            is_item(first, GET, 1, FIRST)
                && is_item(second, UNKNOWN, 2, SECOND)
                && is_item(third, DESTROY, 3, THIRD)
        }
        _ => false,
    }
}

// Whether the payloads of the batch are in the types of their operations, but for that of the unknown one.
fn are_payloads(alloc: Global, bytes: &[u8]) -> bool {
    let Ok(request) = &request_of(alloc, bytes) else {
        return false;
    };
    match request.items.as_slice() {
        [first, second, third] => {
            matches!(&first.payload, RequestPayload::Get(_))
                && matches!(&second.payload, RequestPayload::Other(kept) if kept.as_bytes() == SECOND)
                && matches!(&third.payload, RequestPayload::Destroy(_))
        }
        _ => false,
    }
}

fn try_batch(tally: &mut Tally<'_>) -> io::Result<()> {
    let alloc = tally.alloc();
    let bytes = &batch(alloc)?;
    tally.note("a batch comes back", is_back(alloc, bytes))?;
    tally.note("its items are as written", are_items(alloc, bytes))?;
    tally.note("one payload of a batch is kept", are_payloads(alloc, bytes))
}

// Payloads that are kept.
const KEPT: [(&str, &[u8]); 3] = [
    ("no item", b""),
    (
        "a Big Integer of 8 bytes",
        b"\x54\0\x01\x04\0\0\0\x08\x80\0\0\0\0\0\0\0",
    ),
    (
        "a Big Integer of 16 bytes",
        b"\x54\0\x01\x04\0\0\0\x10\0\0\0\0\0\0\0\x01\0\0\0\0\0\0\0\0",
    ),
];

// Whether a request of one item comes back, and its payload is kept as it was written.
fn is_kept(alloc: Global, payload: &[u8]) -> Result<bool, AllocError> {
    let bytes = asked(alloc, UNKNOWN, payload)?;
    let Ok(envelope) = &envelope_of(alloc, bytes.as_slice()) else {
        return Ok(false);
    };
    let is_written = match envelope.items.as_slice() {
        [only] => is_item(only, UNKNOWN, 1, payload),
        _ => false,
    };
    Ok(is_written && is_back(alloc, bytes.as_slice()))
}

fn try_kept(tally: &mut Tally<'_>) -> io::Result<()> {
    let alloc = tally.alloc();
    for row in &KEPT {
        let (what, payload) = *row;
        tally.note(what, is_kept(alloc, payload)?)?;
    }
    Ok(())
}

// An item of a payload that is broken, and what is wrong with it. The payload's content begins at byte 120, behind the headers of the
// message (8), of its header (8 and 56), of the item (8), the operation (16), the identifier (16) and the header of the payload (8).
const BROKEN: [(&[u8], MalformedTtlvError); 6] = [
    (
        b"\x54\0\x01\x08\0\0\0\x10\0\0\0\0\0\0\0\0",
        MalformedTtlvError::Overflow {
            field_end: ByteOffset(136),
        },
    ),
    (
        b"\x54\0\x01\x0B\0\0\0\x04\0\0\0\0\0\0\0\0",
        MalformedTtlvError::InvalidType(0x0B),
    ),
    (
        b"\x54\0\x01\x06\0\0\0\x08\0\0\0\0\0\0\0\x02",
        MalformedTtlvError::InvalidValue {
            typ: TtlvType::Boolean,
        },
    ),
    (
        b"\x54\0\x01\x07\0\0\0\x03Gr\xF6\0\0\0\0\0",
        MalformedTtlvError::InvalidValue {
            typ: TtlvType::TextString,
        },
    ),
    (
        b"\x54\0\x01\x02\0\0\0\x08\0\0\0\0\0\0\0\x07",
        MalformedTtlvError::InvalidLength {
            expected: 4,
            actual: 8,
            typ: TtlvType::Integer,
        },
    ),
    (
        b"\x54\0\x01\x04\0\0\0\x09\0\0\0\0\0\0\0\0\x07\0\0\0\0\0\0\0",
        MalformedTtlvError::InvalidValue {
            typ: TtlvType::BigInteger,
        },
    ),
];

// Whether bytes aren't decoded for this reason.
fn is_malformed(fate: &Fate, wanted: MalformedTtlvError) -> bool {
    match fate {
        Fate::Undecoded(error) => {
            matches!(error.kind(), ErrorKind::MalformedTtlv(found) if *found == wanted)
        }
        _ => false,
    }
}

// A payload with a broken item isn't decoded, whatever follows it.
fn try_broken(tally: &mut Tally<'_>) -> io::Result<()> {
    let alloc = tally.alloc();
    for row in &BROKEN {
        let (payload, wanted) = *row;
        let mut items = request_item(alloc, UNKNOWN, 1, payload, b"")?;
        items.extend_from_slice(request_item(alloc, DESTROY, 2, THIRD, b"")?.as_slice())?;
        let bytes = request(alloc, 2, items.as_slice())?;
        let is_wanted = is_malformed(&fate_of_bytes(alloc, bytes.as_slice()), wanted)
            && is_malformed(&envelope_fate_of_bytes(alloc, bytes.as_slice()), wanted);
        tally.note("a payload with a broken item", is_wanted)?;
    }
    Ok(())
}

// Payloads of a text of three bytes, with other bytes as its padding, and with zeros; of a number behind it; of both in another order;
// and of both with one item more.
const PADDED: &[u8] = b"\x54\0\x01\x07\0\0\0\x03key\x01\x02\x03\x04\x05";

const ALONE: &[u8] = b"\x54\0\x01\x07\0\0\0\x03key\0\0\0\0\0";

const TWO: &[u8] =
    b"\x54\0\x01\x07\0\0\0\x03key\0\0\0\0\0\x54\0\x02\x02\0\0\0\x04\0\0\0\x07\0\0\0\0";

const TURNED: &[u8] =
    b"\x54\0\x02\x02\0\0\0\x04\0\0\0\x07\0\0\0\0\x54\0\x01\x07\0\0\0\x03key\0\0\0\0\0";

const THREE: &[u8] =
    b"\x54\0\x01\x07\0\0\0\x03key\0\0\0\0\0\x54\0\x02\x02\0\0\0\x04\0\0\0\x07\0\0\0\0\x54\0\x04\x01\0\0\0\0";

// Two payloads, and whether requests of them are equal.
const PAIRS: [(&str, &[u8], &[u8], bool); 5] = [
    ("padding is no part of a value", PADDED, ALONE, true),
    ("equal items are equal", TWO, TWO, true),
    ("one item less is another value", ALONE, TWO, false),
    ("another order is another value", TWO, TURNED, false),
    ("one item more is another value", TWO, THREE, false),
];

// Whether requests of two payloads are decoded, and are equal or not.
fn is_compared(
    alloc: Global,
    left: &[u8],
    right: &[u8],
    is_equal: bool,
) -> Result<bool, AllocError> {
    let left = &envelope_of(alloc, asked(alloc, UNKNOWN, left)?.as_slice());
    let right = &envelope_of(alloc, asked(alloc, UNKNOWN, right)?.as_slice());
    Ok(match (left, right) {
        (Ok(left), Ok(right)) => (*left == *right) == is_equal,
        _ => false,
    })
}

// Whether a payload whose padding isn't zero is encoded as one whose padding is.
fn is_padded_with_zeros(alloc: Global) -> Result<bool, AllocError> {
    let Ok(envelope) = &envelope_of(alloc, asked(alloc, UNKNOWN, PADDED)?.as_slice()) else {
        return Ok(false);
    };
    let wanted = asked(alloc, UNKNOWN, ALONE)?;
    Ok(matches!(&to_vec(alloc, envelope), Ok(bytes) if bytes.as_slice() == wanted.as_slice()))
}

fn try_pairs(tally: &mut Tally<'_>) -> io::Result<()> {
    let alloc = tally.alloc();
    for row in &PAIRS {
        let (what, left, right, is_equal) = *row;
        tally.note(what, is_compared(alloc, left, right, is_equal)?)?;
    }
    let is_right = is_padded_with_zeros(alloc)?;
    tally.note("padding is encoded as zeros", is_right)
}

// So many structures, each in the one before it, and in the last one these items.
fn nested(alloc: Global, levels: u8, last: &[u8]) -> Result<Vec<u8>, AllocError> {
    let mut content = last.to_vec(alloc)?;
    for _ in 0..levels {
        content = item(alloc, 0x540001, STRUCTURE, content.as_slice())?;
    }
    Ok(content)
}

// So many structures, whether the last one has an item or none, and whether that is kept: a leaf and an empty structure are a level, and
// there are 64 at most.
const LEVELS: [(u8, bool, bool); 5] = [
    (10, true, true),
    (63, true, true),
    (64, true, false),
    (64, false, true),
    (65, false, false),
];

// Whether a message has too many levels. The item that is one too many has 64 structures around it, each with eight bytes in front of what
// is in it; the error's offset is behind its tag and its type.
fn is_too_deep(fate: &Fate) -> bool {
    let Fate::Undecoded(error) = fate else {
        return false;
    };
    matches!(error.kind(), ErrorKind::SerdeError(SerdeError::Other(words)) if words.as_str() == "too many levels")
        && error.location().offset() == Some(ByteOffset(120 + 64 * 8 + 4))
}

fn try_levels(tally: &mut Tally<'_>) -> io::Result<()> {
    let alloc = tally.alloc();
    for row in &LEVELS {
        let (levels, has_leaf, is_kept) = *row;
        let last = if has_leaf { ALONE } else { b"" };
        let payload = nested(alloc, levels, last)?;
        let bytes = &asked(alloc, UNKNOWN, payload.as_slice())?;
        let is_wanted = if is_kept {
            is_back(alloc, bytes)
        } else {
            is_too_deep(&fate_of_bytes(alloc, bytes))
                && is_too_deep(&envelope_fate_of_bytes(alloc, bytes))
        };
        tally.note("levels in a payload", is_wanted)?;
    }
    Ok(())
}

// Whether a request is out of memory as it is decoded with this allocator; None on another error.
fn is_out_of_memory<A: Allocator + Copy>(alloc: A, bytes: &[u8]) -> Option<bool> {
    let read: Result<RequestEnvelope<A>, Error<A>> = from_slice(alloc, bytes);
    match &read {
        Ok(_) => Some(false),
        Err(error) if matches!(error.kind(), ErrorKind::OutOfMemory) => Some(true),
        Err(_) => None,
    }
}

// How many blocks of memory a request takes that is decoded; None unless it is out of memory wherever one of them fails, and only there.
fn blocks(alloc: Global, bytes: &[u8]) -> Option<u64> {
    for before in 0..200u64 {
        let memory = BoundedAllocator::failing_after(alloc, before);
        if is_out_of_memory(&memory, bytes) != Some(memory.has_failed()) {
            return None;
        }
        if !memory.has_failed() {
            return Some(before);
        }
    }
    None
}

/// Tries them. The batch takes at least its list of items, three identifiers and three payloads.
pub fn try_all(tally: &mut Tally<'_>) -> io::Result<()> {
    try_batch(tally)?;
    try_kept(tally)?;
    try_broken(tally)?;
    try_pairs(tally)?;
    try_levels(tally)?;
    let alloc = tally.alloc();
    let batch = batch(alloc)?;
    tally.note("memory fails", blocks(alloc, batch.as_slice()) >= Some(7))
}
