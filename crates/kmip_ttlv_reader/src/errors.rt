//! The errors that failures are, as callers see them.

ghost use Rattle.std.specs.Prelude.{◌≡◌, ◌⊎◌, reverse};
ghost use Rattle.kmip_ttlv_base.specs.Errors.{view_of_kind, IsMemory, tags_of};
ghost use Rattle.kmip_ttlv_base.specs.Values.{Value};
ghost use Rattle.kmip_ttlv_reader.specs.Steps.{Outcome};
ghost use Rattle.kmip_ttlv_reader.specs.ReadResults.{IsError, IsOfBytes, seen};
ghost use Rattle.kmip_ttlv_reader.specs.Results.{IsFailure, kind_by, fault_by};

use crate::failure::{Cause, Failure, FaultAt};
use kmip_ttlv_base::error::{Error, ErrorKind, ErrorLocation};
use kmip_ttlv_base::types::{ByteOffset, TtlvTag};
use std::alloc::Allocator;
use std::io;

// The kind that a cause is.
fn kind<A: Allocator>(cause: Cause<A>) -> ErrorKind<A>
    ensures is { view_of_kind result ≡ kind_by cause }
    ensures of_bytes { IsOfBytes (kind_by cause) }
{
    match cause {
        Cause::Malformed(fault) => ErrorKind::MalformedTtlv(fault),
        Cause::Mismatch(fault) => ErrorKind::SerdeError(fault),
    }
}

// The tags of the structures around, the outermost first, if there are any.
fn parents<A: Allocator>(around: Vec<TtlvTag, A>) -> Option<Vec<TtlvTag, A>>
    ensures { tags_of result ≡ reverse around.items }
{
    if around.is_empty() {
        return None;
    }
    let mut tags = around;
    tags.reverse();
    Some(tags)
}

// The fault as an error.
fn error_at<A: Allocator>(fault: FaultAt<A>) -> Error<A>
    ensures is { seen result ≡ fault_by fault }
    ensures of_bytes { IsOfBytes (kind_by fault.cause) }
{
    let FaultAt {
        cause,
        offset,
        tag,
        typ,
        around,
    } = fault;
    let offset = ByteOffset(offset as u64);
    let location = ErrorLocation::at(Some(offset), parents(around), tag, typ);
    Error::new(kind(cause), location)
}

/// The failure as an error.
#[cold]
pub fn error<A: Allocator>(failure: Failure<A>) -> Error<A>
    ensures { (o : Outcome Value) → IsFailure o failure → IsMemory result ⊎ IsError o (seen result) }
{
    match failure {
        Failure::OutOfMemory => { Error::new(ErrorKind::OutOfMemory, ErrorLocation::unknown()) }
        Failure::EarlyEnd => {
            let early = io::Error::from(io::ErrorKind::UnexpectedEof);
            Error::new(ErrorKind::IoError(early), ErrorLocation::unknown())
        }
        Failure::Fault(fault) => error_at(Box::into_inner(fault)),
    }
}
