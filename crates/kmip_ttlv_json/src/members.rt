//! The members of an item's JSON: which were met, and what their texts stand for.

ghost use Rattle.std.specs.Prelude.{◌≡◌, IfOk, None, option_map};
ghost use Rattle.kmip_ttlv_json.specs.JsonTrees.{behind_0x, bytes_of, type_named, tag_of_digits, tag_of_text, type_of_text};
ghost use Rattle.kmip_ttlv_json.specs.Events.{type_met};

use crate::seen::Seen;
use hex::FromHexError;
use kmip_ttlv_types::{TtlvTag, TtlvType};
use kmip_words::LateWords;
use std::alloc::{AllocError, Allocator};

/// The members of an object that were met: of each name the last.
#[derive(Clone, Copy)]
pub struct Members<'t> {
    pub tag: Option<Seen<'t>>,
    pub typ: Option<Seen<'t>>,
    pub value: Option<Seen<'t>>,
    /// Whether a member with another name was met.
    pub others: bool,
}

/// What follows `0x`.
pub fn behind_0x(text: &str) -> Option<&[u8]>
    ensures { option_map (λ s. s.now) result ≡ behind_0x text.now }
{
    match text.as_bytes() {
        [b'0', b'x', digits @ ..] => Some(digits),
        _ => None,
    }
}

/// The bytes of hexadecimal digits of either case. The only error is out of memory.
pub fn bytes_of<A: Allocator>(alloc: A, digits: &[u8]) -> Result<Option<Vec<u8, A>>, AllocError>
    ensures { IfOk result (λ o. option_map (λ v. v.items) o ≡ bytes_of digits.now) }
{
    match hex::decode(alloc, digits) {
        Ok(bytes) => Ok(Some(bytes)),
        Err(FromHexError::OutOfMemory) => Err(AllocError),
        Err(_) => Ok(None),
    }
}

/// The type of a name.
pub fn type_named(name: &str) -> Option<TtlvType>
    ensures { result ≡ type_named name.now }
{
    match name {
        "Structure" => Some(TtlvType::Structure),
        "Integer" => Some(TtlvType::Integer),
        "LongInteger" => Some(TtlvType::LongInteger),
        "BigInteger" => Some(TtlvType::BigInteger),
        "Enumeration" => Some(TtlvType::Enumeration),
        "Boolean" => Some(TtlvType::Boolean),
        "TextString" => Some(TtlvType::TextString),
        "ByteString" => Some(TtlvType::ByteString),
        "DateTime" => Some(TtlvType::DateTime),
        "Interval" => Some(TtlvType::Interval),
        _ => None,
    }
}

// The tag of six digits.
fn tag_of_digits(digits: &[u8]) -> Option<TtlvTag>
    ensures { result ≡ tag_of_digits digits.now }
{
    let mut bytes = [0; 3];
    hex::decode_to_slice(digits, &mut bytes).ok()?;
    Some(TtlvTag::from(bytes))
}

/// The tag of a text, if there is one: by its digits or its word. The only error is out of memory.
pub fn tag_of<A: Allocator + Copy>(
    alloc: A,
    words: &mut LateWords<A>,
    text: Option<&str>,
) -> Result<Option<TtlvTag>, AllocError>
    ensures { IfOk result (λ tag. tag ≡ tag_of_text (option_map (λ s. s.now) text.entry)) }
{
    let Some(text) = text else {
        return Ok(None);
    };
    match behind_0x(text) {
        Some(digits) => Ok(tag_of_digits(digits)),
        None => words.tag_of(alloc, text),
    }
}

// The type of a text, if there is one.
fn type_of(text: Option<&str>) -> Option<TtlvType>
    ensures { result ≡ type_of_text (option_map (λ s. s.now) text.entry) }
{
    type_named(text?)
}

/// The type that was met: a Structure, where none was.
pub fn type_met(typ: Option<Seen<'_>>) -> Option<TtlvType>
    ensures { result ≡ type_met typ.entry }
{
    match typ {
        Some(typ) => type_of(typ.text()),
        None => Some(TtlvType::Structure),
    }
}
