//! Symmetric keys: their bytes as a request has them, and what they may be used for.

ghost use Rattle.std.specs.Prelude.{◌≡◌, IfOk, option_map};
ghost use Rattle.kmip_client.specs.Payloads.{IsRawKey, bytes_of_value};

use kmip_messages::key::{KeyBlock, KeyMaterial, KeyValue, PlainKeyValue};
use kmip_messages::values::{CryptographicAlgorithm, key_format_type};
use std::alloc::{AllocError, Allocator};

/// What a key may be used for: the bits of a Cryptographic Usage Mask (KMIP 1.0, section 9.1.3.3.1).
pub mod usage {
    /// To sign.
    pub const SIGN: i32 = 0x0000_0001;
    /// To verify signatures.
    pub const VERIFY: i32 = 0x0000_0002;
    /// To encrypt.
    pub const ENCRYPT: i32 = 0x0000_0004;
    /// To decrypt.
    pub const DECRYPT: i32 = 0x0000_0008;
    /// To wrap keys.
    pub const WRAP_KEY: i32 = 0x0000_0010;
    /// To unwrap keys.
    pub const UNWRAP_KEY: i32 = 0x0000_0020;
    /// To be exported.
    pub const EXPORT: i32 = 0x0000_0040;
    /// To make a MAC.
    pub const MAC_GENERATE: i32 = 0x0000_0080;
    /// To verify a MAC.
    pub const MAC_VERIFY: i32 = 0x0000_0100;
    /// To derive keys.
    pub const DERIVE_KEY: i32 = 0x0000_0200;
}

/// These bytes as a key that isn't wrapped (KMIP 1.0, section 2.1.3): what it is for, and how long it is, in bits. Fails if memory runs
/// out.
pub fn raw_key<A: Allocator + Copy>(
    alloc: A,
    algorithm: CryptographicAlgorithm,
    length: i32,
    bytes: &[u8],
) -> Result<KeyBlock<A>, AllocError>
    ensures { IfOk result (IsRawKey algorithm length bytes.now) }
{
    let bytes = bytes.to_vec(alloc)?;
    let value = PlainKeyValue {
        key_material: KeyMaterial::Bytes(bytes),
        attributes: Vec::new(alloc),
    };
    Ok(KeyBlock {
        key_format_type: key_format_type::RAW,
        key_compression_type: None,
        key_value: KeyValue::Plain(value),
        cryptographic_algorithm: Some(algorithm),
        cryptographic_length: Some(length),
        key_wrapping_data: None,
    })
}

/// The bytes of a key that isn't wrapped, or of which only the bytes are; none of one in a transparent form, or wrapped as a whole.
pub fn raw_bytes<A: Allocator>(key: &KeyBlock<A>) -> Option<&[u8]>
    ensures { option_map (λ bytes. bytes.now) result ≡ bytes_of_value key.now.key_value }
{
    match &key.key_value {
        KeyValue::Plain(value) => match &value.key_material {
            KeyMaterial::Bytes(bytes) => Some(bytes.as_slice()),
            KeyMaterial::Structure(_) => None,
        },
        KeyValue::Wrapped(_) => None,
    }
}
