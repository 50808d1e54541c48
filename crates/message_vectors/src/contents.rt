//! What tests ask of messages of kmip_messages: what becomes of one, and what is in it. Each type of message is decoded in one
//! function here, since each function that does takes the prover long.

use crate::fates::{Fate, envelope_fate_of, fate_of};
use kmip_messages::key::{
    KeyBlock, KeyMaterial, KeyValue, KeyWrappingData, WrappingParameters, wrapping_method,
};
use kmip_messages::object::ManagedObject;
use kmip_messages::request::{Request, RequestItem};
use kmip_messages::request_payload::{RegisterRequest, RequestPayload};
use kmip_messages::response::{Response, ResponseItem, result_status};
use kmip_messages::response_payload::{GetResponse, ResponsePayload};
use kmip_ttlv::error::Error;
use kmip_ttlv::from_slice;
use std::alloc::Global;

/// What has to become of a message.
#[derive(Clone, Copy)]
pub enum Wanted {
    /// It comes back equal and as the same bytes, and is no message of the other kind.
    Back,
    /// It isn't decoded, but comes back with its payloads kept as they are.
    Undecoded,
    /// It is decoded, and isn't sound.
    Unsound,
}

// Whether a message is decoded as a request or as a response, and not as both.
fn is_of_one_kind(alloc: Global, digits: &str) -> bool {
    request_has(alloc, digits, Asked::Anything) != response_has(alloc, digits, Told::Anything)
}

/// Whether that becomes of a message.
pub fn becomes(alloc: Global, digits: &str, wanted: Wanted) -> bool {
    match (&fate_of(alloc, digits), wanted) {
        (Fate::Back, Wanted::Back) => is_of_one_kind(alloc, digits),
        (Fate::Undecoded(_), Wanted::Undecoded) => {
            matches!(&envelope_fate_of(alloc, digits), Fate::Back)
        }
        (Fate::Unsound, Wanted::Unsound) => true,
        _ => false,
    }
}

// The identifier of what is got.
const IDENTIFIER: &str = "49a1ca88-6bea-4fb2-b450-7e58802c3038";

/// What may be in the first item of a request.
#[derive(Clone, Copy)]
pub enum Asked {
    /// Anything is asked for.
    Anything,
    /// The payload of each item has the type of its operation.
    Known,
    /// The object of that identifier is asked for.
    Object,
    /// An object of this type is registered (KMIP 1.0, section 9.1.3.2); a symmetric key has so many bytes, and others have none.
    Registered(u32, usize),
}

// How many bytes a key has.
fn key_length(value: &KeyValue) -> usize {
    let KeyValue::Plain(value) = value else {
        return 0;
    };
    match &value.key_material {
        KeyMaterial::Bytes(key) => key.len(),
        _ => 0,
    }
}

// The Object Type of the object that a payload lends, and how many bytes a symmetric key has.
fn lent(payload: &RegisterRequest) -> (u32, usize) {
    match payload.object() {
        Some(ManagedObject::Certificate(_)) => (1, 0),
        Some(ManagedObject::SymmetricKey(key)) => (2, key_length(&key.key_block.key_value)),
        Some(ManagedObject::PublicKey(_)) => (3, 0),
        Some(ManagedObject::PrivateKey(_)) => (4, 0),
        Some(ManagedObject::SplitKey(_)) => (5, 0),
        Some(ManagedObject::Template(_)) => (6, 0),
        Some(ManagedObject::SecretData(_)) => (7, 0),
        Some(ManagedObject::OpaqueObject(_)) => (8, 0),
        None => (0, 0),
    }
}

// Whether that is in a payload.
fn is_asked(payload: &RequestPayload, asked: Asked) -> bool {
    match (payload, asked) {
        (RequestPayload::Get(payload), Asked::Object) => {
            matches!(&payload.unique_identifier, Some(text) if text.as_str() == IDENTIFIER)
        }
        (RequestPayload::Register(payload), Asked::Registered(object_type, length)) => {
            let (found_type, found_length) = lent(payload);
            found_type == object_type && found_length == length
        }
        (_, Asked::Anything) => true,
        _ => false,
    }
}

// Whether the payload of each item has the type of its operation.
fn are_known(items: &[RequestItem]) -> bool {
    for item in items {
        if matches!(&item.payload, RequestPayload::Other(_)) {
            return false;
        }
    }
    true
}

/// The request that bytes are.
pub fn request_of(alloc: Global, bytes: &[u8]) -> Result<Request, Error> {
    from_slice(alloc, bytes)
}

/// Whether a request is decoded, and that is in its first item.
pub fn request_has(alloc: Global, digits: &str, asked: Asked) -> bool {
    let Ok(bytes) = &hex::decode(alloc, digits) else {
        return false;
    };
    let Ok(request) = &request_of(alloc, bytes.as_slice()) else {
        return false;
    };
    match (request.items.first(), asked) {
        (_, Asked::Known) => are_known(request.items.as_slice()),
        (Some(item), _) => is_asked(&item.payload, asked),
        (None, _) => false,
    }
}

/// What may be in a response.
#[derive(Clone, Copy)]
pub enum Told {
    /// Anything is said.
    Anything,
    /// The payload of each item that has one has the type of its operation.
    Known,
    /// The key `KEY` under that identifier, which nothing wraps.
    Key,
    /// That key, wrapped by `MAC` and `NONCE`; the key of the MAC is used so.
    WrappedKey(Option<WrappingParameters>),
    /// So many items that failed, each without a payload.
    Failures(usize),
}

const KEY: [u8; 16] = [0, 1, 2, 3, 4, 5, 6, 7, 8, 9, 10, 11, 12, 13, 14, 15];

const MAC: [u8; 16] = [
    240, 241, 242, 243, 244, 245, 246, 247, 248, 249, 250, 251, 252, 253, 254, 255,
];

const NONCE: [u8; 12] = [160, 161, 162, 163, 164, 165, 166, 167, 168, 169, 170, 171];

// Whether this is that key, of 128 bits.
fn is_the_key(block: &KeyBlock) -> bool {
    let KeyValue::Plain(value) = &block.key_value else {
        return false;
    };
    let KeyMaterial::Bytes(key) = &value.key_material else {
        return false;
    };
    matches!(&block.cryptographic_length, Some(length) if *length == 128)
        && key.as_slice() == KEY.as_slice()
}

// Whether a key is wrapped so, part by part.
fn is_wrapped(wrapping: &KeyWrappingData, parameters: Option<WrappingParameters>) -> bool {
    let Some(key) = &wrapping.mac_signature_key_information else {
        return false;
    };
    let (Some(mac), Some(nonce)) = (&wrapping.mac_signature, &wrapping.iv_counter_nonce) else {
        return false;
    };
    wrapping.wrapping_method == wrapping_method::MAC_SIGN
        && wrapping.encryption_key_information.is_none()
        && key.unique_identifier.as_str() == "mac-key"
        && key.cryptographic_parameters == parameters
        && mac.as_slice() == MAC.as_slice()
        && nonce.as_slice() == NONCE.as_slice()
}

// Whether a key is wrapped as that says.
fn is_wrapped_so(block: &KeyBlock, told: Told) -> bool {
    match (block.key_wrapping_data.as_deref(), told) {
        (None, Told::Key) => true,
        (Some(wrapping), Told::WrappedKey(parameters)) => is_wrapped(wrapping, parameters),
        _ => false,
    }
}

// Whether a payload has that key.
fn is_got(payload: &GetResponse, told: Told) -> bool {
    match payload.object() {
        Some(ManagedObject::SymmetricKey(key)) => {
            payload.unique_identifier.as_str() == IDENTIFIER
                && is_the_key(&key.key_block)
                && is_wrapped_so(&key.key_block, told)
        }
        _ => false,
    }
}

// How many items failed, without a payload.
fn failures(items: &[ResponseItem]) -> usize {
    let mut count = 0usize;
    for item in items {
        if item.result_status == result_status::OPERATION_FAILED && item.payload.is_none() {
            count = count.saturating_add(1);
        }
    }
    count
}

// Whether the payload of each item that has one has the type of its operation.
fn are_known_answers(items: &[ResponseItem]) -> bool {
    for item in items {
        if matches!(&item.payload, Some(ResponsePayload::Other(_))) {
            return false;
        }
    }
    true
}

// Whether that key is in the first of the items of a response.
fn has_key(items: &[ResponseItem], told: Told) -> bool {
    let Some(item) = items.first() else {
        return false;
    };
    match &item.payload {
        Some(ResponsePayload::Get(payload)) => is_got(payload, told),
        _ => false,
    }
}

// Whether that is in the items of a response.
fn is_told(items: &[ResponseItem], told: Told) -> bool {
    match told {
        Told::Anything => true,
        Told::Known => are_known_answers(items),
        Told::Failures(count) => failures(items) == count,
        _ => has_key(items, told),
    }
}

// The response that bytes are.
fn response_of(alloc: Global, bytes: &[u8]) -> Result<Response, Error> {
    from_slice(alloc, bytes)
}

/// Whether a response is decoded, and that is in it.
pub fn response_has(alloc: Global, digits: &str, told: Told) -> bool {
    let Ok(bytes) = &hex::decode(alloc, digits) else {
        return false;
    };
    match &response_of(alloc, bytes.as_slice()) {
        Ok(response) => is_told(response.items.as_slice(), told),
        Err(_) => false,
    }
}
