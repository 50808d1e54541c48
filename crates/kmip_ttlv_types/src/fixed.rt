//! The primitives of fixed length.

ghost use Rattle.std.specs.Prelude.{◌≡◌, false, length, refl};
ghost use Rattle.std.specs.Int.{w32, w64, to_be_bytes, cast_unsigned};
ghost use Rattle.kmip_ttlv_types.specs.declared.typ.TtlvType.TheVariants.{Integer, LongInteger, Enumeration, Boolean};
ghost use Rattle.kmip_ttlv_types.specs.declared.typ.TtlvType.TheVariants.{DateTime, Interval};
ghost use Rattle.kmip_ttlv_types.specs.Primitives.{boolean_bytes};
ghost use Rattle.kmip_ttlv_types.specs.FixedReads.{ReadsFixed, boolean_bytes-valid};

use crate::Result;
use crate::error::Error;
use crate::numbers::{long_of, signed_long_of, signed_word_of, word_of};
use crate::primitive::{HasTtlvType, SerializableTtlvType, write_slice};
use crate::stream::{Sink, Source, fill_all};
use crate::typ::TtlvType;
use std::ops::Deref;

/// A signed number of four bytes (KMIP 1.0, section 9.1.1.4).
///
/// ```
/// let mut out = Vec::new(alloc);
/// TtlvInteger(8).write(&mut out)?;
/// assert!(rt; out.as_slice() == b"\x02\0\0\0\x04\0\0\0\x08\0\0\0\0".as_slice());
/// ```
#[derive(Clone, Copy, Debug, PartialEq, Eq)]
pub struct TtlvInteger(pub i32);

/// `*value` is the number.
impl Deref for TtlvInteger {
    type Target = i32;

    ghost deref_gives = { λ v n. n ≡ v.0 };

    fn deref(&self) -> &i32 {
        &self.0
    }
}

impl HasTtlvType for TtlvInteger {
    const TTLV_TYPE: TtlvType = TtlvType::Integer;

    ghost TTLV_TYPE = { Integer };
}

impl SerializableTtlvType for TtlvInteger {
    type Alloc = ();

    ghost value_bytes = { λ v. to_be_bytes w32 (cast_unsigned w32 v.0) };

    ghost takes_memory = { false };

    ghost bytes_are_valid = { λ v. refl };

    fn value_length(&self) -> Result<u32> {
        Ok(4)
    }

    fn read_value<S: Source>(_alloc: (), src: &mut S, value_len: u32) -> Result<TtlvInteger> {
        let bytes = read_word(src, value_len, TtlvType::Integer)?;
        Ok(TtlvInteger(signed_word_of(&bytes)))
    }

    fn write_length_and_value<S: Sink>(&self, dst: &mut S) -> Result<u32> {
        write_slice(dst, 4, &self.0.to_be_bytes())?;
        Ok(4)
    }
}

/// A signed number of eight bytes (KMIP 1.0, section 9.1.1.4).
///
/// ```
/// let mut out = Vec::new(alloc);
/// TtlvLongInteger(123_456_789_000_000_000).write(&mut out)?;
/// assert!(rt; out.as_slice() == b"\x03\0\0\0\x08\x01\xB6\x9B\x4B\xA5\x74\x92\0".as_slice());
/// ```
#[derive(Clone, Copy, Debug, PartialEq, Eq)]
pub struct TtlvLongInteger(pub i64);

/// `*value` is the number.
impl Deref for TtlvLongInteger {
    type Target = i64;

    ghost deref_gives = { λ v n. n ≡ v.0 };

    fn deref(&self) -> &i64 {
        &self.0
    }
}

impl HasTtlvType for TtlvLongInteger {
    const TTLV_TYPE: TtlvType = TtlvType::LongInteger;

    ghost TTLV_TYPE = { LongInteger };
}

impl SerializableTtlvType for TtlvLongInteger {
    type Alloc = ();

    ghost value_bytes = { λ v. to_be_bytes w64 (cast_unsigned w64 v.0) };

    ghost takes_memory = { false };

    ghost bytes_are_valid = { λ v. refl };

    fn value_length(&self) -> Result<u32> {
        Ok(8)
    }

    fn read_value<S: Source>(_alloc: (), src: &mut S, value_len: u32) -> Result<TtlvLongInteger> {
        let bytes = read_long(src, value_len, TtlvType::LongInteger)?;
        Ok(TtlvLongInteger(signed_long_of(&bytes)))
    }

    fn write_length_and_value<S: Sink>(&self, dst: &mut S) -> Result<u32> {
        write_slice(dst, 8, &self.0.to_be_bytes())?;
        Ok(8)
    }
}

/// An unsigned number of four bytes that stands for a choice (KMIP 1.0, section 9.1.1.4).
///
/// ```
/// let mut out = Vec::new(alloc);
/// TtlvEnumeration(255).write(&mut out)?;
/// assert!(rt; out.as_slice() == b"\x05\0\0\0\x04\0\0\0\xFF\0\0\0\0".as_slice());
/// ```
#[derive(Clone, Copy, Debug, PartialEq, Eq)]
pub struct TtlvEnumeration(pub u32);

/// `*value` is the number.
impl Deref for TtlvEnumeration {
    type Target = u32;

    ghost deref_gives = { λ v n. n ≡ v.0 };

    fn deref(&self) -> &u32 {
        &self.0
    }
}

impl HasTtlvType for TtlvEnumeration {
    const TTLV_TYPE: TtlvType = TtlvType::Enumeration;

    ghost TTLV_TYPE = { Enumeration };
}

impl SerializableTtlvType for TtlvEnumeration {
    type Alloc = ();

    ghost value_bytes = { λ v. to_be_bytes w32 v.0 };

    ghost takes_memory = { false };

    ghost bytes_are_valid = { λ v. refl };

    fn value_length(&self) -> Result<u32> {
        Ok(4)
    }

    fn read_value<S: Source>(_alloc: (), src: &mut S, value_len: u32) -> Result<TtlvEnumeration> {
        let bytes = read_word(src, value_len, TtlvType::Enumeration)?;
        Ok(TtlvEnumeration(word_of(&bytes)))
    }

    fn write_length_and_value<S: Sink>(&self, dst: &mut S) -> Result<u32> {
        write_slice(dst, 4, &self.0.to_be_bytes())?;
        Ok(4)
    }
}

/// True or false: the number 1 or 0 in eight bytes (KMIP 1.0, section 9.1.1.4).
///
/// ```
/// let mut out = Vec::new(alloc);
/// TtlvBoolean(true).write(&mut out)?;
/// assert!(rt; out.as_slice() == b"\x06\0\0\0\x08\0\0\0\0\0\0\0\x01".as_slice());
/// ```
#[derive(Clone, Copy, Debug, PartialEq, Eq)]
pub struct TtlvBoolean(pub bool);

/// `*value` is the truth value.
impl Deref for TtlvBoolean {
    type Target = bool;

    ghost deref_gives = { λ v n. n ≡ v.0 };

    fn deref(&self) -> &bool {
        &self.0
    }
}

impl HasTtlvType for TtlvBoolean {
    const TTLV_TYPE: TtlvType = TtlvType::Boolean;

    ghost TTLV_TYPE = { Boolean };
}

impl SerializableTtlvType for TtlvBoolean {
    type Alloc = ();

    ghost value_bytes = { λ v. boolean_bytes v.0 };

    ghost takes_memory = { false };

    ghost bytes_are_valid = { λ v. boolean_bytes-valid v.0 };

    fn value_length(&self) -> Result<u32> {
        Ok(8)
    }

    fn read_value<S: Source>(_alloc: (), src: &mut S, value_len: u32) -> Result<TtlvBoolean> {
        let bytes = read_long(src, value_len, TtlvType::Boolean)?;
        match long_of(&bytes) {
            0 => Ok(TtlvBoolean(false)),
            1 => Ok(TtlvBoolean(true)),
            _ => Err(Error::InvalidTtlvValue(TtlvType::Boolean)),
        }
    }

    fn write_length_and_value<S: Sink>(&self, dst: &mut S) -> Result<u32> {
        write_slice(dst, 8, &u64::from(self.0).to_be_bytes())?;
        Ok(8)
    }
}

/// A time: the signed number of seconds since the start of 1970, in eight bytes (KMIP 1.0, section
/// 9.1.1.4).
///
/// ```
/// let mut out = Vec::new(alloc);
/// TtlvDateTime(0x47DA_67F8).write(&mut out)?;
/// assert!(rt; out.as_slice() == b"\x09\0\0\0\x08\0\0\0\0\x47\xDA\x67\xF8".as_slice());
/// ```
#[derive(Clone, Copy, Debug, PartialEq, Eq)]
pub struct TtlvDateTime(pub i64);

/// The number of seconds.
impl Deref for TtlvDateTime {
    type Target = i64;

    ghost deref_gives = { λ v n. n ≡ v.0 };

    fn deref(&self) -> &i64 {
        &self.0
    }
}

impl HasTtlvType for TtlvDateTime {
    const TTLV_TYPE: TtlvType = TtlvType::DateTime;

    ghost TTLV_TYPE = { DateTime };
}

impl SerializableTtlvType for TtlvDateTime {
    type Alloc = ();

    ghost value_bytes = { λ v. to_be_bytes w64 (cast_unsigned w64 v.0) };

    ghost takes_memory = { false };

    ghost bytes_are_valid = { λ v. refl };

    fn value_length(&self) -> Result<u32> {
        Ok(8)
    }

    fn read_value<S: Source>(_alloc: (), src: &mut S, value_len: u32) -> Result<TtlvDateTime> {
        let bytes = read_long(src, value_len, TtlvType::DateTime)?;
        Ok(TtlvDateTime(signed_long_of(&bytes)))
    }

    fn write_length_and_value<S: Sink>(&self, dst: &mut S) -> Result<u32> {
        write_slice(dst, 8, &self.0.to_be_bytes())?;
        Ok(8)
    }
}

/// A span of time: an unsigned number of seconds in four bytes (KMIP 1.0, section 9.1.1.4).
///
/// ```
/// let mut out = Vec::new(alloc);
/// TtlvInterval(864_000).write(&mut out)?;
/// assert!(rt; out.as_slice() == b"\x0A\0\0\0\x04\0\x0D\x2F\0\0\0\0\0".as_slice());
/// ```
#[derive(Clone, Copy, Debug, PartialEq, Eq)]
pub struct TtlvInterval(pub u32);

/// The number of seconds.
impl Deref for TtlvInterval {
    type Target = u32;

    ghost deref_gives = { λ v n. n ≡ v.0 };

    fn deref(&self) -> &u32 {
        &self.0
    }
}

impl HasTtlvType for TtlvInterval {
    const TTLV_TYPE: TtlvType = TtlvType::Interval;

    ghost TTLV_TYPE = { Interval };
}

impl SerializableTtlvType for TtlvInterval {
    type Alloc = ();

    ghost value_bytes = { λ v. to_be_bytes w32 v.0 };

    ghost takes_memory = { false };

    ghost bytes_are_valid = { λ v. refl };

    fn value_length(&self) -> Result<u32> {
        Ok(4)
    }

    fn read_value<S: Source>(_alloc: (), src: &mut S, value_len: u32) -> Result<TtlvInterval> {
        let bytes = read_word(src, value_len, TtlvType::Interval)?;
        Ok(TtlvInterval(word_of(&bytes)))
    }

    fn write_length_and_value<S: Sink>(&self, dst: &mut S) -> Result<u32> {
        write_slice(dst, 4, &self.0.to_be_bytes())?;
        Ok(4)
    }
}

// Reads a value of a type whose length is four bytes. Any other stated length is an error.
fn read_word<S: Source>(src: &mut S, value_len: u32, typ: TtlvType) -> Result<[u8; 4]>
    ensures { ReadsFixed typ 4 S.can_fail (S.left src.old) (S.left src.new) value_len result }
{
    if value_len != 4 {
        return Err(Error::InvalidTtlvValueLength {
            expected: 4,
            actual: value_len,
            typ,
        });
    }
    let mut bytes = [0u8; 4];
    fill_all(src, &mut bytes)?;
    Ok(bytes)
}

// Reads a value of a type whose length is eight bytes. Any other stated length is an error.
fn read_long<S: Source>(src: &mut S, value_len: u32, typ: TtlvType) -> Result<[u8; 8]>
    ensures { ReadsFixed typ 8 S.can_fail (S.left src.old) (S.left src.new) value_len result }
{
    if value_len != 8 {
        return Err(Error::InvalidTtlvValueLength {
            expected: 8,
            actual: value_len,
            typ,
        });
    }
    let mut bytes = [0u8; 8];
    fill_all(src, &mut bytes)?;
    Ok(bytes)
}
