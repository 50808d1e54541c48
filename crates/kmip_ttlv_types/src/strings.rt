//! The primitives of any length.

ghost use Rattle.std.specs.Prelude.{◌≡◌, ◌≢◌, ◌<◌, ◌^◌, true, length, refl, string_bytes, vec_items, vec_len};
ghost use Rattle.std.specs.Io.KnownBytes.{Consumes};
ghost use Rattle.std.proofs.lemmas.Str.{IsUtf8-string_bytes, is_utf8-from_IsUtf8};
ghost use Rattle.kmip_ttlv_types.specs.declared.typ.TtlvType.TheVariants.{BigInteger, TextString, ByteString};
ghost use Rattle.kmip_ttlv_types.specs.ItemTypes.{pad_len};
ghost use Rattle.kmip_ttlv_types.specs.Headers.{Writes};
ghost use Rattle.kmip_ttlv_types.specs.Primitives.{IsLengthOf, sign_extended, length_and_content};

use crate::Result;
use crate::error::Error;
use crate::length::TtlvLength;
use crate::numbers::sign_of;
use crate::primitive::{HasTtlvType, SerializableTtlvType, send_both, write_slice};
use crate::stream::{Sink, Source, take_bytes};
use crate::typ::TtlvType;
use std::alloc::{AllocError, Allocator, Global};
use std::ops::Deref;

// The length of this content, if four bytes can hold it.
fn length_of(content: &[u8]) -> Result<u32>
    ensures { IsLengthOf content.now result }
{
    u32::try_from(content.len()).map_err(|_| Error::LengthOverflow)
}

/// UTF-8 text (KMIP 1.0, section 9.1.1.4).
///
/// ```
/// let mut out = Vec::new(alloc);
/// TtlvTextString(String::from_str(alloc, "Hello World")?).write(&mut out)?;
/// assert!(rt; out.as_slice() == b"\x07\0\0\0\x0BHello World\0\0\0\0\0".as_slice());
/// ```
#[derive(Drop)]
#[derive_where(Debug)]
pub struct TtlvTextString<A: Allocator = Global>(pub String<A>);

/// The same text, in memory of the same allocator. Fails if that runs out.
impl<A: Allocator + Clone> Clone for TtlvTextString<A> {
    ghost is_clone = { λ s t. string_bytes t.0 ≡ string_bytes s.0 };

    fn clone(&self) -> std::result::Result<TtlvTextString<A>, AllocError> {
        Ok(TtlvTextString(self.0.clone()?))
    }
}

/// `*value` is the text, as a `String`.
impl<A: Allocator> Deref for TtlvTextString<A> {
    type Target = String<A>;

    ghost deref_gives = { λ v s. s ≡ v.0 };

    fn deref(&self) -> &String<A> {
        &self.0
    }
}

impl<A: Allocator> HasTtlvType for TtlvTextString<A> {
    const TTLV_TYPE: TtlvType = TtlvType::TextString;

    ghost TTLV_TYPE = { TextString };
}

impl<A: Allocator> SerializableTtlvType for TtlvTextString<A> {
    type Alloc = A;

    ghost value_bytes = { λ v. string_bytes v.0 };

    ghost takes_memory = { true };

    ghost bytes_are_valid = { λ v. is_utf8-from_IsUtf8 _ (IsUtf8-string_bytes v.0) };

    fn value_length(&self) -> Result<u32> {
        length_of(self.0.as_bytes())
    }

    fn read_value<S: Source>(alloc: A, src: &mut S, value_len: u32) -> Result<TtlvTextString<A>> {
        let bytes = take_bytes(alloc, src, value_len as usize)?;
        match String::from_utf8(bytes) {
            Ok(text) => Ok(TtlvTextString(text)),
            Err(_) => Err(Error::InvalidTtlvValue(TtlvType::TextString)),
        }
    }

    fn write_length_and_value<S: Sink>(&self, dst: &mut S) -> Result<u32> {
        let length = self.value_length()?;
        write_slice(dst, length, self.0.as_bytes())?;
        Ok(length)
    }
}

/// Any bytes (KMIP 1.0, section 9.1.1.4).
///
/// ```
/// let mut out = Vec::new(alloc);
/// TtlvByteString(Vec::from_slice(alloc, &[1, 2, 3])?).write(&mut out)?;
/// assert!(rt; out.as_slice() == b"\x08\0\0\0\x03\x01\x02\x03\0\0\0\0\0".as_slice());
/// ```
#[derive(Drop)]
#[derive_where(Debug)]
pub struct TtlvByteString<A: Allocator = Global>(pub Vec<u8, A>);

/// The same bytes, in memory of the same allocator. Fails if that runs out.
impl<A: Allocator + Clone> Clone for TtlvByteString<A> {
    ghost is_clone = { λ s t. vec_items t.0 ≡ vec_items s.0 };

    fn clone(&self) -> std::result::Result<TtlvByteString<A>, AllocError> {
        Ok(TtlvByteString(self.0.clone()?))
    }
}

/// `*value` is the bytes, as a vector.
impl<A: Allocator> Deref for TtlvByteString<A> {
    type Target = Vec<u8, A>;

    ghost deref_gives = { λ v s. s ≡ v.0 };

    fn deref(&self) -> &Vec<u8, A> {
        &self.0
    }
}

impl<A: Allocator> HasTtlvType for TtlvByteString<A> {
    const TTLV_TYPE: TtlvType = TtlvType::ByteString;

    ghost TTLV_TYPE = { ByteString };
}

impl<A: Allocator> SerializableTtlvType for TtlvByteString<A> {
    type Alloc = A;

    ghost value_bytes = { λ v. vec_items v.0 };

    ghost takes_memory = { true };

    ghost bytes_are_valid = { λ v. refl };

    fn value_length(&self) -> Result<u32> {
        length_of(self.0.as_slice())
    }

    fn read_value<S: Source>(alloc: A, src: &mut S, value_len: u32) -> Result<TtlvByteString<A>> {
        Ok(TtlvByteString(take_bytes(alloc, src, value_len as usize)?))
    }

    fn write_length_and_value<S: Sink>(&self, dst: &mut S) -> Result<u32> {
        let length = self.value_length()?;
        write_slice(dst, length, self.0.as_slice())?;
        Ok(length)
    }
}

/// A signed number of any length: its two's complement, the highest byte first (KMIP 1.0, section
/// 9.1.1.4). It is read as it is. When it is written, its sign is extended to a multiple of eight
/// bytes, and its length counts them all.
///
/// ```
/// let mut out = Vec::new(alloc);
/// TtlvBigInteger(Vec::from_slice(alloc, b"\x80")?).write(&mut out)?;
/// assert!(rt; out.as_slice() == b"\x04\0\0\0\x08\xFF\xFF\xFF\xFF\xFF\xFF\xFF\x80".as_slice());
/// ```
#[derive(Drop)]
#[derive_where(Debug)]
pub struct TtlvBigInteger<A: Allocator = Global>(pub Vec<u8, A>);

/// The same bytes, in memory of the same allocator. Fails if that runs out.
impl<A: Allocator + Clone> Clone for TtlvBigInteger<A> {
    ghost is_clone = { λ s t. vec_items t.0 ≡ vec_items s.0 };

    fn clone(&self) -> std::result::Result<TtlvBigInteger<A>, AllocError> {
        Ok(TtlvBigInteger(self.0.clone()?))
    }
}

/// The bytes of the two's complement.
impl<A: Allocator> Deref for TtlvBigInteger<A> {
    type Target = Vec<u8, A>;

    ghost deref_gives = { λ v s. s ≡ v.0 };

    fn deref(&self) -> &Vec<u8, A> {
        &self.0
    }
}

impl<A: Allocator> HasTtlvType for TtlvBigInteger<A> {
    const TTLV_TYPE: TtlvType = TtlvType::BigInteger;

    ghost TTLV_TYPE = { BigInteger };
}

// How many sign bytes extend these to a multiple of eight.
fn sign_count(bytes: &[u8]) -> usize
    ensures count { result ≡ pad_len (length bytes.now) }
    ensures small { result < 8 }
{
    (8 - bytes.len() % 8) % 8
}

// How many bytes these are with their sign bytes.
fn extended_length(bytes: &[u8]) -> usize
    ensures { result ≡ length (sign_extended bytes.now) }
{
    sign_count(bytes) + bytes.len()
}

// Writes the length `count`, then as many bytes: sign bytes, and these.
fn write_extended<S: Sink>(dst: &mut S, count: u32, bytes: &[u8]) -> Result<()>
    requires { count ≡ length (sign_extended bytes.now) }
    ensures { Writes (length_and_content (sign_extended bytes.now))
        (S.emitted dst.old) (S.emitted dst.new) (S.room dst.old) (S.room dst.new) result }
{
    TtlvLength::new(count).write(dst)?;
    let signs = [sign_of(bytes); 8];
    send_both(dst, &signs[..sign_count(bytes)], bytes)
}

impl<A: Allocator> SerializableTtlvType for TtlvBigInteger<A> {
    type Alloc = A;

    ghost value_bytes = { λ v. vec_items v.0 };

    ghost takes_memory = { true };

    ghost bytes_are_valid = { λ v. refl };

    fn value_length(&self) -> Result<u32> {
        let length = extended_length(self.0.as_slice());
        u32::try_from(length).map_err(|_| Error::LengthOverflow)
    }

    fn read_value<S: Source>(alloc: A, src: &mut S, value_len: u32) -> Result<TtlvBigInteger<A>> {
        Ok(TtlvBigInteger(take_bytes(alloc, src, value_len as usize)?))
    }

    fn write_length_and_value<S: Sink>(&self, dst: &mut S) -> Result<u32> {
        let length = self.value_length()?;
        write_extended(dst, length, self.0.as_slice())?;
        Ok(length)
    }
}
