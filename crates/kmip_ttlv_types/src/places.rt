//! What is at an offset where an item may begin: its header, its size, its content, and whether content is valid
//! for a leaf (KMIP 1.0, section 9.1.1). A position is an offset from the first byte.
//!
//! Nothing here allocates or fails. Each reader decides what it checks first, and which error it returns.
//!
//! ```
//! let bytes = b"\x42\0\x20\x02\0\0\0\x04\0\0\0\x08\0\0\0\0";
//! assert_eq!(rt; tag_at(bytes, 0), TtlvTag::from([0x42, 0x00, 0x20]));
//! assert_eq!(rt; type_at(bytes, 0), Some(TtlvType::Integer));
//! assert_eq!(rt; length_at(bytes, 0), 4);
//! assert_eq!(rt; end_of(bytes, 0, TtlvType::Integer, 4), Some(16));
//! assert!(rt; content_at(bytes, 0, 4) == b"\0\0\0\x08".as_slice());
//! ```

ghost use Rattle.std.specs.Prelude.{◌≡◌, ◌+◌, ◌<◌, ◌≤◌, length, take, drop, IfSome, IfNone};
ghost use Rattle.kmip_ttlv_types.specs.declared.typ.TtlvType.TheVariants.{Boolean as TheBoolean};
ghost use Rattle.kmip_ttlv_types.specs.ItemTypes.{fixed_length, padding, type_of};
ghost use Rattle.kmip_ttlv_types.specs.Leaves.{is_valid};
ghost use Rattle.kmip_ttlv_types.specs.Places.{tag_at, code_at, length_at, size};

use crate::numbers::{number_of_eight, number_of_four};
use crate::tag::TtlvTag;
use crate::typ::TtlvType;
use std::str;

/// The tag of the item at `pos`: the first three bytes of its header.
#[inline]
pub fn tag_at(bytes: &[u8], pos: usize) -> TtlvTag
    requires { pos + 3 ≤ length bytes.now }
    ensures { result ≡ tag_at bytes.now pos }
{
    TtlvTag::of_bytes(bytes[pos], bytes[pos + 1], bytes[pos + 2])
}

/// The type of the item at `pos`, if the fourth byte of its header is a type's code.
#[inline]
pub fn type_at(bytes: &[u8], pos: usize) -> Option<TtlvType>
    requires { pos + 4 ≤ length bytes.now }
    ensures { result ≡ type_of (code_at bytes.now pos) }
{
    TtlvType::from_code(bytes[pos + 3])
}

/// The length of the item at `pos`, the last four bytes of its header: that of its content, in bytes.
#[inline]
pub fn length_at(bytes: &[u8], pos: usize) -> u32
    requires { pos + 8 ≤ length bytes.now }
    ensures { result ≡ length_at bytes.now pos }
{
    u32::from_be_bytes([
        bytes[pos + 4],
        bytes[pos + 5],
        bytes[pos + 6],
        bytes[pos + 7],
    ])
}

// How many bytes of padding follow content of `n` bytes.
#[inline]
fn padding_of(typ: TtlvType, n: usize) -> usize
    ensures { result ≡ padding typ n }
{
    match typ {
        TtlvType::Structure => 0,
        _ => (8 - n % 8) % 8,
    }
}

/// How many bytes an item takes whose content has `n`, with its header and its padding.
///
/// ```
/// assert_eq!(rt; size_of(TtlvType::TextString, 11), 24);
/// ```
#[inline]
pub fn size_of(typ: TtlvType, n: u32) -> usize
    ensures { result ≡ size typ n }
{
    let n = n as usize;
    8 + n + padding_of(typ, n)
}

/// The offset behind the item at `pos`, whose content has `n` bytes, if all of it is there.
#[inline]
pub fn end_of(bytes: &[u8], pos: usize, typ: TtlvType, n: u32) -> Option<usize>
    requires { pos ≤ length bytes.now }
    ensures some { IfSome result (λ end. (end ≡ pos + size typ n) × (end ≤ length bytes.now)) }
    ensures none { IfNone result (length bytes.now < pos + size typ n) }
{
    let taken = size_of(typ, n);
    if bytes.len() - pos < taken {
        return None;
    }
    Some(pos + taken)
}

/// The content of the item at `pos`: the `n` bytes behind its header, without padding.
#[inline]
pub fn content_at(bytes: &[u8], pos: usize, n: u32) -> &[u8]
    requires { pos + 8 + n ≤ length bytes.now }
    ensures { result.now ≡ take n (drop (pos + 8) bytes.now) }
{
    &bytes[pos + 8..pos + 8 + n as usize]
}

/// How long a value of this type is, in bytes, if all are equally long.
#[inline]
pub fn fixed_length(typ: TtlvType) -> Option<u32>
    ensures { result ≡ fixed_length typ }
{
    match typ {
        TtlvType::Integer | TtlvType::Enumeration | TtlvType::Interval => Some(4),
        TtlvType::LongInteger | TtlvType::Boolean | TtlvType::DateTime => Some(8),
        TtlvType::Structure | TtlvType::BigInteger | TtlvType::TextString | TtlvType::ByteString =>
            None,
    }
}

// Whether these are eight bytes, of the number 0 or 1.
#[inline]
fn is_boolean(content: &[u8]) -> bool
    ensures { result ≡ is_valid TheBoolean content.now }
{
    content.len() == 8 && number_of_eight(content) < 2
}

/// Whether these bytes are valid content of a leaf of this type. No content is valid for a structure.
///
/// ```
/// assert!(rt; is_valid(TtlvType::Boolean, b"\0\0\0\0\0\0\0\x01"));
/// assert!(rt; !is_valid(TtlvType::Boolean, b"\0\0\0\0\0\0\0\x02"));
/// ```
#[inline]
pub fn is_valid(typ: TtlvType, content: &[u8]) -> bool
    ensures { result ≡ is_valid typ content.now }
{
    match typ {
        TtlvType::Structure => false,
        TtlvType::Integer | TtlvType::Enumeration | TtlvType::Interval => content.len() == 4,
        TtlvType::LongInteger | TtlvType::DateTime => content.len() == 8,
        TtlvType::Boolean => is_boolean(content),
        TtlvType::TextString => str::from_utf8(content).is_ok(),
        TtlvType::BigInteger | TtlvType::ByteString => true,
    }
}
