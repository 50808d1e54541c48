//! Structures that become other types: a payload that was kept the request that it is, and a key in a transparent form what is kept of
//! it.

use crate::by_hand::asked;
use crate::kept_items::envelope_of;
use crate::tally::Tally;
use kmip_messages::envelope::RequestEnvelopeItem;
use kmip_messages::key::TransparentSymmetricKey;
use kmip_messages::request_payload::ObjectRequest;
use kmip_ttlv::Kept;
use kmip_ttlv::error::{Error, ErrorKind, SerdeError};
use kmip_ttlv::memory::BoundedAllocator;
use kmip_ttlv::types::ByteOffset;
use kmip_ttlv_kinds::convert;
use std::alloc::{AllocError, Allocator, Global};
use std::io;

// The tags of a payload and of Key Material (KMIP 1.0, section 9.1.3.1).
const PAYLOAD: u32 = 0x420079;

const KEY_MATERIAL: u32 = 0x420043;

// A payload that is a Unique Identifier, and one with a number behind that, which no table has.
const NAMED: &[u8] = b"\x42\0\x94\x07\0\0\0\x03key\0\0\0\0\0";

const MORE: &[u8] =
    b"\x42\0\x94\x07\0\0\0\x03key\0\0\0\0\0\x54\0\x02\x02\0\0\0\x04\0\0\0\x07\0\0\0\0";

// A key of five bytes, as the one item of Key Material (section 2.1.7.1).
const KEY: &[u8] = b"\x42\0\x3F\x08\0\0\0\x05\x01\x02\x03\x04\x05\0\0\0";

// What an item asks for.
fn payload_of(item: RequestEnvelopeItem) -> Kept {
    item.payload
}

// The payload of a request to get an object.
fn kept_payload(alloc: Global, content: &[u8]) -> Result<Option<Kept>, AllocError> {
    let bytes = asked(alloc, 0x0A, content)?;
    let Ok(mut envelope) = envelope_of(alloc, bytes.as_slice()) else {
        return Ok(None);
    };
    Ok(match envelope.items.pop() {
        Some(item) => Some(payload_of(item)),
        None => None,
    })
}

// What a payload asks for, by its identifier.
fn asked_for(
    alloc: Global,
    content: &[u8],
) -> Result<Option<Result<ObjectRequest, Error>>, AllocError> {
    Ok(match kept_payload(alloc, content)? {
        Some(payload) => Some(convert(alloc, payload, PAYLOAD)),
        None => None,
    })
}

// Whether it is decoded, and has that identifier.
fn is_named(alloc: Global) -> Result<bool, AllocError> {
    Ok(match &asked_for(alloc, NAMED)? {
        Some(
            Ok(
                ObjectRequest {
                    unique_identifier: Some(name),
                },
            ),
        ) => name.as_str() == "key",
        _ => false,
    })
}

// Whether an item that no table has is the error: it begins 24 bytes behind the payload's first one, and the offset is behind its type.
fn is_refused(alloc: Global) -> Result<bool, AllocError> {
    Ok(match &asked_for(alloc, MORE)? {
        Some(Err(error)) => {
            matches!(error.kind(), ErrorKind::SerdeError(SerdeError::Other(words)) if words.as_str() == "unknown field")
                && error.location().offset() == Some(ByteOffset(28))
        }
        _ => false,
    })
}

// A key in a transparent form, as Key Material that holds any items.
fn kept_key<A: Allocator + Copy>(alloc: A) -> Result<Kept<A>, Error<A>> {
    let key = [1u8, 2, 3, 4, 5].to_vec(alloc)?;
    convert(alloc, TransparentSymmetricKey { key }, KEY_MATERIAL)
}

// Whether that holds the key's item, and becomes the key again.
fn is_key(alloc: Global) -> bool {
    let Ok(kept) = kept_key(alloc) else {
        return false;
    };
    let is_item = kept.as_bytes() == KEY;
    let back: Result<TransparentSymmetricKey, Error> = convert(alloc, kept, KEY_MATERIAL);
    is_item && matches!(&back, Ok(found) if found.key.as_slice() == [1u8, 2, 3, 4, 5].as_slice())
}

// Whether that is out of memory wherever a block of memory fails, and only there.
fn is_bounded(alloc: Global) -> bool {
    for before in 0..20u64 {
        let memory = BoundedAllocator::failing_after(alloc, before);
        let is_out = match &kept_key(&memory) {
            Ok(_) => false,
            Err(error) => matches!(error.kind(), ErrorKind::OutOfMemory),
        };
        if is_out != memory.has_failed() {
            return false;
        }
        if !is_out {
            return before > 0;
        }
    }
    false
}

/// Tries them.
pub fn try_all(tally: &mut Tally<'_>) -> io::Result<()> {
    let alloc = tally.alloc();
    tally.note("a kept payload becomes a request", is_named(alloc)?)?;
    tally.note("a kept payload with more in it", is_refused(alloc)?)?;
    tally.note("a transparent key is kept", is_key(alloc))?;
    tally.note("a key that is kept for want of memory", is_bounded(alloc))
}
