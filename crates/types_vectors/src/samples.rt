//! A value of each primitive and of each part of a header, with the bytes that it is written as. Those
//! of the primitives are the standard's examples (KMIP 1.0, section 9.1.2).

use kmip_ttlv_base::error::ErrorLocation;
use kmip_ttlv_base::types::ByteOffset;
use kmip_ttlv_types::stream::{Sink, Source};
use kmip_ttlv_types::{
    Error, SerializableTtlvType, TtlvBigInteger, TtlvBoolean, TtlvByteString, TtlvDateTime,
    TtlvEnumeration, TtlvInteger, TtlvInterval, TtlvLength, TtlvLongInteger, TtlvTag,
    TtlvTextString, TtlvType,
};
use std::alloc::{AllocError, Allocator, Global};
use std::io::ErrorKind;

/// What the tests have a value of: the primitives, and after them the parts of a header.
#[derive(Clone, Copy, Debug, PartialEq, Eq)]
pub enum Kind {
    Integer,
    LongInteger,
    BigInteger,
    Enumeration,
    Boolean,
    TextString,
    ByteString,
    DateTime,
    Interval,
    Tag,
    Type,
    Length,
}

/// A kind, and the bytes that its value is written as: for a primitive its type, length, content and
/// padding.
#[derive(Clone, Copy)]
pub struct Sample {
    pub kind: Kind,
    pub bytes: &'static [u8],
}

/// How many of the samples are primitives: the first ones.
pub const PRIMITIVES: usize = 9;

/// A sample of each kind.
pub const SAMPLES: [Sample; 12] = [
    Sample {
        kind: Kind::Integer,
        bytes: b"\x02\x00\x00\x00\x04\x00\x00\x00\x08\x00\x00\x00\x00",
    },
    Sample {
        kind: Kind::LongInteger,
        bytes: b"\x03\x00\x00\x00\x08\x01\xB6\x9B\x4B\xA5\x74\x92\x00",
    },
    Sample {
        kind: Kind::BigInteger,
        bytes: b"\x04\x00\x00\x00\x10\x00\x00\x00\x00\x03\xFD\x35\xEB\x6B\xC2\xDF\x46\x18\x08\x00\x00",
    },
    Sample {
        kind: Kind::Enumeration,
        bytes: b"\x05\x00\x00\x00\x04\x00\x00\x00\xFF\x00\x00\x00\x00",
    },
    Sample {
        kind: Kind::Boolean,
        bytes: b"\x06\x00\x00\x00\x08\x00\x00\x00\x00\x00\x00\x00\x01",
    },
    Sample {
        kind: Kind::TextString,
        bytes: b"\x07\x00\x00\x00\x0BHello World\x00\x00\x00\x00\x00",
    },
    Sample {
        kind: Kind::ByteString,
        bytes: b"\x08\x00\x00\x00\x03\x01\x02\x03\x00\x00\x00\x00\x00",
    },
    Sample {
        kind: Kind::DateTime,
        bytes: b"\x09\x00\x00\x00\x08\x00\x00\x00\x00\x47\xDA\x67\xF8",
    },
    Sample {
        kind: Kind::Interval,
        bytes: b"\x0A\x00\x00\x00\x04\x00\x0D\x2F\x00\x00\x00\x00\x00",
    },
    Sample {
        kind: Kind::Tag,
        bytes: b"\x42\x00\x20",
    },
    Sample {
        kind: Kind::Type,
        bytes: b"\x0A",
    },
    Sample {
        kind: Kind::Length,
        bytes: b"\x01\x02\x03\xFF",
    },
];

/// The number in the standard's example of a Big Integer, as it is written.
const NUMBER: &[u8] = b"\x00\x00\x00\x00\x03\xFD\x35\xEB\x6B\xC2\xDF\x46\x18\x08\x00\x00";

/// A value of one of these kinds.
#[derive(Drop)]
pub enum Value {
    Integer(TtlvInteger),
    LongInteger(TtlvLongInteger),
    BigInteger(TtlvBigInteger),
    Enumeration(TtlvEnumeration),
    Boolean(TtlvBoolean),
    TextString(TtlvTextString),
    ByteString(TtlvByteString),
    DateTime(TtlvDateTime),
    Interval(TtlvInterval),
    Tag(TtlvTag),
    Type(TtlvType),
    Length(TtlvLength),
}

impl Sample {
    /// The low-level value that the sample is. Fails if memory runs out.
    pub fn value(&self, heap: Global) -> Result<Value, AllocError> {
        match self.kind {
            Kind::Integer => Ok(Value::Integer(TtlvInteger(8))),
            Kind::LongInteger => Ok(Value::LongInteger(TtlvLongInteger(123_456_789_000_000_000))),
            Kind::BigInteger => {
                Ok(Value::BigInteger(TtlvBigInteger(Vec::from_slice(heap, NUMBER)?)))
            }
            Kind::Enumeration => Ok(Value::Enumeration(TtlvEnumeration(255))),
            Kind::Boolean => Ok(Value::Boolean(TtlvBoolean(true))),
            Kind::TextString => {
                let text = String::from_str(heap, "Hello World")?;
                Ok(Value::TextString(TtlvTextString(text)))
            }
            Kind::ByteString => {
                let bytes = Vec::from_slice(heap, b"\x01\x02\x03")?;
                Ok(Value::ByteString(TtlvByteString(bytes)))
            }
            Kind::DateTime => Ok(Value::DateTime(TtlvDateTime(1_205_495_800))),
            Kind::Interval => Ok(Value::Interval(TtlvInterval(864_000))),
            Kind::Tag => Ok(Value::Tag(TtlvTag::from([0x42, 0x00, 0x20]))),
            Kind::Type => Ok(Value::Type(TtlvType::Interval)),
            Kind::Length => Ok(Value::Length(TtlvLength::new(0x0102_03FF))),
        }
    }

    /// Reads the sample's bytes as a value of its kind.
    pub fn read_from<S: Source>(&self, heap: Global, source: &mut S) -> Result<Value, Error> {
        match self.kind {
            Kind::BigInteger | Kind::TextString | Kind::ByteString => {
                self.read_string(heap, source)
            }
            Kind::Tag | Kind::Type | Kind::Length => self.read_part(source),
            _ => self.read_number(source),
        }
    }

    // The same of a primitive that takes memory.
    fn read_string<S: Source>(&self, heap: Global, source: &mut S) -> Result<Value, Error> {
        match self.kind {
            Kind::BigInteger => Ok(Value::BigInteger(read_leaf(heap, source)?)),
            Kind::TextString => Ok(Value::TextString(read_leaf(heap, source)?)),
            _ => Ok(Value::ByteString(read_leaf(heap, source)?)),
        }
    }

    // The same of a part of a header.
    fn read_part<S: Source>(&self, source: &mut S) -> Result<Value, Error> {
        match self.kind {
            Kind::Tag => Ok(Value::Tag(TtlvTag::read(source)?)),
            Kind::Type => Ok(Value::Type(TtlvType::read(source)?)),
            _ => Ok(Value::Length(TtlvLength::read(source)?)),
        }
    }

    // The same of any other primitive.
    fn read_number<S: Source>(&self, source: &mut S) -> Result<Value, Error> {
        match self.kind {
            Kind::Integer => Ok(Value::Integer(read_leaf((), source)?)),
            Kind::LongInteger => Ok(Value::LongInteger(read_leaf((), source)?)),
            Kind::Enumeration => Ok(Value::Enumeration(read_leaf((), source)?)),
            Kind::Boolean => Ok(Value::Boolean(read_leaf((), source)?)),
            Kind::DateTime => Ok(Value::DateTime(read_leaf((), source)?)),
            _ => Ok(Value::Interval(read_leaf((), source)?)),
        }
    }
}

impl Value {
    /// Whether this is the sample's value.
    pub fn is_sample(&self) -> bool {
        match self {
            Value::Integer(number) => number.0 == 8,
            Value::LongInteger(number) => number.0 == 123_456_789_000_000_000,
            Value::BigInteger(number) => number.as_slice() == NUMBER,
            Value::Enumeration(number) => number.0 == 255,
            Value::Boolean(truth) => truth.0,
            Value::TextString(text) => text.as_str() == "Hello World",
            Value::ByteString(bytes) => bytes.as_slice() == b"\x01\x02\x03".as_slice(),
            Value::DateTime(seconds) => seconds.0 == 1_205_495_800,
            Value::Interval(seconds) => seconds.0 == 864_000,
            Value::Tag(tag) => **tag == 0x42_0020,
            Value::Type(typ) => *typ == TtlvType::Interval,
            Value::Length(length) => **length == 0x0102_03FF,
        }
    }

    /// Writes the value's bytes.
    pub fn write_to<S: Sink>(&self, sink: &mut S) -> Result<(), Error> {
        match self {
            Value::Integer(number) => number.write(sink),
            Value::LongInteger(number) => number.write(sink),
            Value::BigInteger(number) => number.write(sink),
            Value::Enumeration(number) => number.write(sink),
            Value::Boolean(truth) => truth.write(sink),
            Value::TextString(text) => text.write(sink),
            Value::ByteString(bytes) => bytes.write(sink),
            Value::DateTime(seconds) => seconds.write(sink),
            Value::Interval(seconds) => seconds.write(sink),
            Value::Tag(tag) => tag.write(sink),
            Value::Type(typ) => typ.write(sink),
            Value::Length(length) => length.write(sink),
        }
    }
}

// Reads a type and, if it is that of `T`, the rest of a leaf.
fn read_leaf<T: SerializableTtlvType, S: Source>(
    alloc: T::Alloc,
    source: &mut S,
) -> Result<T, Error> {
    let typ = TtlvType::read(source)?;
    if typ != T::TTLV_TYPE {
        return Err(Error::InvalidTtlvValue(typ));
    }
    T::read(alloc, source)
}

/// Whether the result is the sample's value.
pub fn is_value(answer: &Result<Value, Error>) -> bool {
    match answer {
        Ok(value) => value.is_sample(),
        Err(_) => false,
    }
}

/// Whether the result is an IoError of this kind.
pub fn is_failure<T>(answer: &Result<T, Error>, kind: ErrorKind) -> bool {
    match answer {
        Err(Error::IoError(e)) => e.kind() == kind,
        _ => false,
    }
}

/// Whether a tag of this number is read.
pub fn is_tag<S: Source>(source: &mut S, number: u32) -> bool {
    match TtlvTag::read(source) {
        Ok(tag) => *tag == number,
        Err(_) => false,
    }
}

/// Whether this type is read.
pub fn is_type<S: Source>(source: &mut S, wanted: TtlvType) -> bool {
    match TtlvType::read(source) {
        Ok(typ) => typ == wanted,
        Err(_) => false,
    }
}

/// Whether this length is read.
pub fn is_length<S: Source>(source: &mut S, wanted: u32) -> bool {
    match TtlvLength::read(source) {
        Ok(length) => *length == wanted,
        Err(_) => false,
    }
}

/// Whether this integer is read, after its type.
pub fn is_integer<S: Source>(source: &mut S, wanted: i32) -> bool {
    match TtlvInteger::read((), source) {
        Ok(number) => number.0 == wanted,
        Err(_) => false,
    }
}

/// Makes a text. Returns whether a clone of it is the same.
pub fn text_is_cloned<A: Allocator + Copy>(alloc: A, text: &str) -> Result<bool, AllocError> {
    let made = TtlvTextString(String::from_str(alloc, text)?);
    let copy = made.clone()?;
    Ok(copy.as_str() == text)
}

/// Makes a byte string. Returns whether a clone of it is the same.
pub fn bytes_are_cloned<A: Allocator + Copy>(alloc: A, bytes: &[u8]) -> Result<bool, AllocError> {
    let made = TtlvByteString(Vec::from_slice(alloc, bytes)?);
    let copy = made.clone()?;
    Ok(copy.as_slice() == bytes)
}

/// Makes a big integer. Returns whether a clone of it is the same.
pub fn number_is_cloned<A: Allocator + Copy>(alloc: A, number: &[u8]) -> Result<bool, AllocError> {
    let made = TtlvBigInteger(Vec::from_slice(alloc, number)?);
    let copy = made.clone()?;
    Ok(copy.as_slice() == number)
}

/// A place of which everything is known, within two structures.
pub fn whole_place<A: Allocator>(alloc: A) -> Result<ErrorLocation<A>, AllocError> {
    let tags = [
        TtlvTag::from([0xAA, 0xAA, 0xAA]),
        TtlvTag::from([0xBB, 0xBB, 0xBB]),
    ];
    Ok(ErrorLocation::at(
        Some(ByteOffset(16)),
        Some(Vec::from_slice(alloc, &tags)?),
        Some(TtlvTag::from([0xCC, 0xCC, 0xCC])),
        Some(TtlvType::Integer),
    ))
}

/// Whether this is that place.
pub fn is_whole_place<A: Allocator>(place: &ErrorLocation<A>) -> bool {
    let tags = [
        TtlvTag::from([0xAA, 0xAA, 0xAA]),
        TtlvTag::from([0xBB, 0xBB, 0xBB]),
    ];
    place.offset() == Some(ByteOffset(16))
        && place.parent_tags() == tags.as_slice()
        && place.tag() == Some(TtlvTag::from([0xCC, 0xCC, 0xCC]))
        && place.typ() == Some(TtlvType::Integer)
}
