//! Why the first pass stops at a value, and the error that is returned for it.

ghost use Rattle.std.specs.Prelude.{◌≡◌, IfOk};
ghost use Rattle.kmip_ttlv_base.specs.Errors.{view_of_kind};
ghost use Rattle.kmip_ttlv_ser.specs.Passes.{kind_of_cause, IsErrorOf};

use kmip_ttlv_base::error::{Error, ErrorKind, ErrorLocation, MalformedTtlvError, SerdeError};
use kmip_ttlv_types::{ByteOffset, FieldType};
use std::alloc::{AllocError, Allocator};

/// Why a value can't be encoded.
#[derive(Clone, Copy)]
pub enum Cause {
    /// An item without a pending tag; whether the last field written is a structure's length.
    NoTag(bool),
    /// A tag, or the end of a wrapper, while a tag is pending.
    TagUnused,
    /// A name that is no tag.
    InvalidTag(&'static str),
    /// The name of a unit variant that is no number.
    InvalidVariant(&'static str),
    /// A value of a type that can't be encoded.
    UnsupportedType(&'static str),
}

/// Why a value isn't encoded, and where.
#[derive(Clone, Copy)]
pub enum EncodeError {
    /// A length is above 2^32 - 1, or there are more than 2^64 - 1 bytes.
    LengthOverflow,
    /// The offset is the number of bytes before the invalid field.
    Invalid { cause: Cause, offset: u64 },
}

impl EncodeError {
    /// The error that is returned. Only a name that is no tag needs memory.
    pub fn into_error<A: Allocator>(self, alloc: A) -> Error<A>
        ensures { IsErrorOf self result }
    {
        match self {
            EncodeError::LengthOverflow => {
                Error::new(ErrorKind::LengthOverflow, ErrorLocation::unknown())
            }
            EncodeError::Invalid { cause, offset } => match kind(alloc, cause) {
                Ok(kind) => {
                    let location = ErrorLocation::at(Some(ByteOffset(offset)), None, None, None);
                    Error::new(kind, location)
                }
                Err(_) => Error::out_of_memory(),
            },
        }
    }
}

fn kind<A: Allocator>(alloc: A, cause: Cause) -> Result<ErrorKind<A>, AllocError>
    ensures { IfOk result (λ k. view_of_kind k ≡ kind_of_cause cause) }
{
    Ok(match cause {
        Cause::NoTag(opened) => {
            let expected = if opened {
                FieldType::Value
            } else {
                FieldType::Tag
            };
            let actual = FieldType::TypeAndLengthAndValue;
            MalformedTtlvError::UnexpectedTtlvField { expected, actual }.into()
        }
        Cause::TagUnused => {
            let expected = FieldType::Typ;
            let actual = FieldType::Tag;
            MalformedTtlvError::UnexpectedTtlvField { expected, actual }.into()
        }
        Cause::InvalidTag(name) => SerdeError::InvalidTag(String::from_str(alloc, name)?).into(),
        Cause::InvalidVariant(name) => SerdeError::InvalidVariant(name).into(),
        Cause::UnsupportedType(name) => SerdeError::UnsupportedRustType(name).into(),
    })
}
