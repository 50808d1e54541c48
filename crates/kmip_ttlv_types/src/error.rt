//! The errors of low-level calls.

ghost use Rattle.std.specs.Prelude.{◌≡◌};
ghost use Rattle.kmip_ttlv_types.specs.declared.error.Error.TheVariants.{OutOfMemory, IoError};

use crate::field::FieldType;
use crate::typ::TtlvType;
use std::alloc::{AllocError, AllocFailed, Allocator, Global};
use std::io;

/// An error of a low-level call. It doesn't say where: `kmip_ttlv_base::error` adds the place.
#[derive(Drop)]
#[derive_where(Debug)]
pub enum Error<A: Allocator = Global> {
    /// The reader or the writer failed, or the input ended too early (kind UnexpectedEof).
    IoError(io::Error),
    /// This text, which is given whole, is no tag.
    InvalidTtlvTag(String<A>),
    /// A field that the state machine doesn't accept now.
    UnexpectedTtlvField {
        expected: FieldType,
        actual: FieldType,
    },
    /// Never returned: each type from 01 to 0A is supported.
    UnsupportedTtlvType(u8),
    /// This byte is no type's code.
    InvalidTtlvType(u8),
    /// A length, in bytes, that no value of this type has.
    InvalidTtlvValueLength {
        expected: u32,
        actual: u32,
        typ: TtlvType,
    },
    /// The content is no value of this type.
    InvalidTtlvValue(TtlvType),
    /// A call that the state machine's mode doesn't allow.
    InvalidStateMachineOperation,
    /// An allocation failed.
    OutOfMemory,
    /// A length doesn't fit into four bytes.
    LengthOverflow,
}

/// An `IoError` of this error, which a reader or a writer returned.
impl<A: Allocator> From<io::Error> for Error<A> {
    ghost from_gives = { λ x e. e ≡ IoError x };

    fn from(error: io::Error) -> Error<A> {
        Error::IoError(error)
    }
}

/// `OutOfMemory`, as each allocation that fails.
impl<A: Allocator> From<AllocError> for Error<A> {
    ghost from_gives = { λ _ e. e ≡ OutOfMemory };

    fn from(_error: AllocError) -> Error<A> {
        Error::OutOfMemory
    }
}

/// OutOfMemory; the value that found no memory is dropped.
impl<T: Drop, A: Allocator> From<AllocFailed<T>> for Error<A> {
    ghost from_gives = { λ _ e. e ≡ OutOfMemory };

    fn from(_error: AllocFailed<T>) -> Error<A> {
        Error::OutOfMemory
    }
}
