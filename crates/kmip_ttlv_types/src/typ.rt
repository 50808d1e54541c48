//! The type of an item.

ghost use Rattle.std.specs.Prelude.{◌≡◌, Some, IfOk, MatchResult, [], ◌∷◌};
ghost use Rattle.kmip_ttlv_types.specs.ItemTypes.{code, type_of};
ghost use Rattle.kmip_ttlv_types.specs.TypeTexts.{type_text, IsTypeOf};
ghost use Rattle.kmip_ttlv_types.specs.Headers.{ReadsType, Writes};

use crate::error::Error;
use crate::stream::{Sink, Source, fill_all};
use std::fmt;

/// The type of an item (KMIP 1.0, section 9.1.1.2). Its code is one byte on the wire.
///
/// ```
/// assert_eq!(rt; TtlvType::from_code(0x0A), Some(TtlvType::Interval));
/// assert_eq!(rt; TtlvType::Interval.code(), 0x0A);
/// ```
#[derive(Clone, Copy, Debug, PartialEq, Eq)]
pub enum TtlvType {
    /// Code 01: items, one after the other.
    Structure,
    /// Code 02: a signed number of four bytes.
    Integer,
    /// Code 03: a signed number of eight bytes.
    LongInteger,
    /// Code 04: a signed number of any length.
    BigInteger,
    /// Code 05: an unsigned number of four bytes that stands for a choice.
    Enumeration,
    /// Code 06: true or false, in eight bytes.
    Boolean,
    /// Code 07: UTF-8 text.
    TextString,
    /// Code 08: any bytes.
    ByteString,
    /// Code 09: seconds since the start of 1970, a signed number of eight bytes.
    DateTime,
    /// Code 0A: a number of seconds, unsigned, of four bytes.
    Interval,
}

impl TtlvType {
    /// The type with this code, if it is from 01 to 0A.
    pub fn from_code(code: u8) -> Option<TtlvType>
        ensures { result ≡ type_of code }
    {
        match code {
            1 => Some(TtlvType::Structure),
            2 => Some(TtlvType::Integer),
            3 => Some(TtlvType::LongInteger),
            4 => Some(TtlvType::BigInteger),
            5 => Some(TtlvType::Enumeration),
            6 => Some(TtlvType::Boolean),
            7 => Some(TtlvType::TextString),
            8 => Some(TtlvType::ByteString),
            9 => Some(TtlvType::DateTime),
            10 => Some(TtlvType::Interval),
            _ => None,
        }
    }

    /// The type's code on the wire.
    pub fn code(self) -> u8
        ensures { result ≡ code self }
    {
        match self {
            TtlvType::Structure => 1,
            TtlvType::Integer => 2,
            TtlvType::LongInteger => 3,
            TtlvType::BigInteger => 4,
            TtlvType::Enumeration => 5,
            TtlvType::Boolean => 6,
            TtlvType::TextString => 7,
            TtlvType::ByteString => 8,
            TtlvType::DateTime => 9,
            TtlvType::Interval => 10,
        }
    }

    /// Reads the byte of a type's code.
    ///
    /// Fails with `InvalidTtlvType` and the byte if it is no type's code, or with `IoError` if it can't be read:
    /// of kind `UnexpectedEof` at the end of the input.
    ///
    /// ```
    /// let mut source = MemorySource(b"\x0A\0\0\0\x04");
    /// assert_eq!(rt; TtlvType::read(&mut source)?, TtlvType::Interval);
    /// ```
    pub fn read<S: Source>(src: &mut S) -> Result<TtlvType, Error>
        ensures { ReadsType S.can_fail (S.left src.old) (S.left src.new) result }
    {
        let mut byte = [0u8; 1];
        fill_all(src, &mut byte)?;
        TtlvType::try_from(byte[0])
    }

    /// Writes the byte of the type's code.
    ///
    /// Fails with `IoError` if the sink does.
    ///
    /// ```
    /// let mut out = Vec::new(alloc);
    /// TtlvType::Interval.write(&mut out)?;
    /// assert!(rt; out.as_slice() == b"\x0A".as_slice());
    /// ```
    pub fn write<S: Sink>(&self, dst: &mut S) -> Result<(), Error>
        ensures { Writes (code self.now ∷ [])
            (S.emitted dst.old) (S.emitted dst.new) (S.room dst.old) (S.room dst.new) result }
    {
        dst.send(&[self.code()])?;
        Ok(())
    }
}

impl TryFrom<u8> for TtlvType {
    type Error = Error;

    ghost try_from_gives = { λ c r. IsTypeOf c r };

    /// The type with this code.
    ///
    /// Fails with `InvalidTtlvType` and the code if it isn't from 01 to 0A.
    fn try_from(code: u8) -> Result<TtlvType, Error> {
        TtlvType::from_code(code).ok_or(Error::InvalidTtlvType(code))
    }
}

/// The byte of the type's code.
impl From<TtlvType> for [u8; 1] {
    ghost use Rattle.std.specs.Prelude.{[], ◌∷◌};

    ghost from_gives = { λ t bytes. bytes ≡ code t ∷ [] };

    fn from(typ: TtlvType) -> [u8; 1] {
        [typ.code()]
    }
}

/// The name, and the code in brackets: `Integer (0x02)`.
impl fmt::Display for TtlvType {
    ghost output = { λ t. Some (type_text t) };

    fn fmt<W: fmt::Write>(&self, f: &mut fmt::Formatter<W>) -> fmt::Result {
        f.write_str(match self {
            TtlvType::Structure => "Structure (0x01)",
            TtlvType::Integer => "Integer (0x02)",
            TtlvType::LongInteger => "LongInteger (0x03)",
            TtlvType::BigInteger => "BigInteger (0x04)",
            TtlvType::Enumeration => "Enumeration (0x05)",
            TtlvType::Boolean => "Boolean (0x06)",
            TtlvType::TextString => "TextString (0x07)",
            TtlvType::ByteString => "ByteString (0x08)",
            TtlvType::DateTime => "DateTime (0x09)",
            TtlvType::Interval => "Interval (0x0A)",
        })
    }
}
