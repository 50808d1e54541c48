//! Whether messages come back: encoded and decoded again they are equal, or the same bytes.

use kmip_ttlv::error::Error;
use kmip_ttlv::laws::{Message, reread};
use kmip_ttlv::{from_slice, to_vec};
use std::alloc::{Allocator, Global};

/// A message, decoded from hexadecimal digits; None if it isn't.
pub fn decoded<T: Message<Global>>(alloc: Global, digits: &str) -> Option<T> {
    let Ok(bytes) = hex::decode(alloc, digits) else {
        return None;
    };
    let read: Result<T, Error> = from_slice(alloc, bytes.as_slice());
    match read {
        Ok(message) => Some(message),
        Err(_) => None,
    }
}

/// Whether a message is decoded from hexadecimal digits, is sound, and comes back equal.
pub fn comes_back<T: Message<Global>>(alloc: Global, digits: &str) -> bool {
    let Some(message) = decoded::<T>(alloc, digits) else {
        return false;
    };
    match reread(alloc, &message) {
        Ok(other) => message.is_sound() && message == other,
        Err(_) => false,
    }
}

/// Whether a message is encoded as the bytes that it was decoded from.
pub fn is_encoded_again<T: Message<Global>>(alloc: Global, digits: &str) -> bool {
    let Some(message) = decoded::<T>(alloc, digits) else {
        return false;
    };
    match (to_vec(alloc, &message), hex::decode(alloc, digits)) {
        (Ok(written), Ok(bytes)) => written == bytes,
        _ => false,
    }
}

/// Whether a message is decoded and comes back equal, with memory of this allocator.
pub fn comes_back_in<T: Message<A>, A: Allocator + Copy>(alloc: A, bytes: &[u8]) -> bool {
    let read: Result<T, Error<A>> = from_slice(alloc, bytes);
    let Ok(message) = read else {
        return false;
    };
    match reread(alloc, &message) {
        Ok(other) => message == other,
        Err(_) => false,
    }
}
