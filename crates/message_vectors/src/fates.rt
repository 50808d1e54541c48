//! What becomes of a message that is decoded and encoded again, with its payloads in the types of their operations, or kept as they are.
//! `Request` and `Response` are named in functions of their own, which call `from_slice` and `to_vec` at them: evidence that one of them
//! meets several bounds at once is more than the prover compares.

use kmip_messages::envelope::{RequestEnvelope, ResponseEnvelope};
use kmip_messages::request::Request;
use kmip_messages::response::Response;
use kmip_ttlv::error::Error;
use kmip_ttlv::laws::Sound;
use kmip_ttlv::shape::{Decode, Serialize};
use kmip_ttlv::{from_slice, to_vec};
use std::alloc::Global;
use std::fmt;

// The tag of a request, and the type code of a Structure.
const REQUEST: [u8; 4] = [0x42, 0x00, 0x78, 0x01];

/// What becomes of a message.
#[derive(Drop)]
pub enum Fate {
    /// It is sound, and comes back equal and as the same bytes.
    Back,
    /// Its digits are none.
    NoDigits,
    /// It isn't decoded.
    Undecoded(Error),
    /// It is decoded, and isn't sound.
    Unsound,
    /// It isn't encoded.
    Unencoded(Error),
    /// It comes back as other bytes, or as another message.
    Changed,
}

impl fmt::Display for Fate {
    fn fmt<W: fmt::Write>(&self, f: &mut fmt::Formatter<W>) -> fmt::Result {
        match self {
            Fate::Back => write!(f, "it comes back"),
            Fate::NoDigits => write!(f, "these are no digits"),
            Fate::Undecoded(error) => write!(f, "{error}"),
            Fate::Unsound => write!(f, "it is not sound"),
            Fate::Unencoded(error) => write!(f, "{error}"),
            Fate::Changed => write!(f, "it is encoded as other bytes"),
        }
    }
}

/// Whether bytes are decoded as a message that is equal to this one.
pub fn is_equal_again<T: Decode<Global> + PartialEq>(
    alloc: Global,
    message: &T,
    bytes: &[u8],
) -> bool {
    let read: Result<T, Error> = from_slice(alloc, bytes);
    match &read {
        Ok(other) => *message == *other,
        Err(_) => false,
    }
}

// What becomes of a message that was decoded from these bytes, by what it is encoded as: whether it is sound, and equal to itself once more.
fn fate_of_encoded(
    encoded: Result<Vec<u8>, Error>,
    bytes: &[u8],
    is_sound: bool,
    is_equal: bool,
) -> Fate {
    if !is_sound {
        return Fate::Unsound;
    }
    match encoded {
        Ok(again) if again.as_slice() == bytes && is_equal => Fate::Back,
        Ok(_) => Fate::Changed,
        Err(error) => Fate::Unencoded(error),
    }
}

// What becomes of the message of this type that bytes are.
fn fate_as<T: Decode<Global> + Serialize + Sound + PartialEq>(alloc: Global, bytes: &[u8]) -> Fate {
    let read: Result<T, Error> = from_slice(alloc, bytes);
    match read {
        Ok(message) => {
            let is_equal = is_equal_again(alloc, &message, bytes);
            fate_of_encoded(to_vec(alloc, &message), bytes, message.is_sound(), is_equal)
        }
        Err(error) => Fate::Undecoded(error),
    }
}

// What becomes of the request that bytes are.
fn fate_of_request(alloc: Global, bytes: &[u8]) -> Fate {
    let read: Result<Request, Error> = from_slice(alloc, bytes);
    let again: Result<Request, Error> = from_slice(alloc, bytes);
    match read {
        Ok(message) => {
            let is_equal = matches!(&again, Ok(other) if message == *other);
            fate_of_encoded(to_vec(alloc, &message), bytes, message.is_sound(), is_equal)
        }
        Err(error) => Fate::Undecoded(error),
    }
}

// What becomes of the response that bytes are.
fn fate_of_response(alloc: Global, bytes: &[u8]) -> Fate {
    let read: Result<Response, Error> = from_slice(alloc, bytes);
    let again: Result<Response, Error> = from_slice(alloc, bytes);
    match read {
        Ok(message) => {
            let is_equal = matches!(&again, Ok(other) if message == *other);
            fate_of_encoded(to_vec(alloc, &message), bytes, message.is_sound(), is_equal)
        }
        Err(error) => Fate::Undecoded(error),
    }
}

/// Whether bytes begin as a request.
pub fn is_request(bytes: &[u8]) -> bool {
    bytes.starts_with(&REQUEST)
}

/// What becomes of the message that bytes are, whatever kind of message it has.
pub fn fate_of_bytes(alloc: Global, bytes: &[u8]) -> Fate {
    if is_request(bytes) {
        fate_of_request(alloc, bytes)
    } else {
        fate_of_response(alloc, bytes)
    }
}

/// The same of a message whose payloads are kept as they are.
pub fn envelope_fate_of_bytes(alloc: Global, bytes: &[u8]) -> Fate {
    if is_request(bytes) {
        fate_as::<RequestEnvelope>(alloc, bytes)
    } else {
        fate_as::<ResponseEnvelope>(alloc, bytes)
    }
}

/// What becomes of the message that these digits are, whatever kind of message it has.
pub fn fate_of(alloc: Global, digits: &str) -> Fate {
    match &hex::decode(alloc, digits) {
        Ok(bytes) => fate_of_bytes(alloc, bytes.as_slice()),
        Err(_) => Fate::NoDigits,
    }
}

/// The same of a message whose payloads are kept as they are.
pub fn envelope_fate_of(alloc: Global, digits: &str) -> Fate {
    match &hex::decode(alloc, digits) {
        Ok(bytes) => envelope_fate_of_bytes(alloc, bytes.as_slice()),
        Err(_) => Fate::NoDigits,
    }
}
