//! Reading the bytes of one message from a stream.

ghost use Rattle.std.specs.Prelude.{◌≡◌, ◌≤◌, [], length, Some, IfOk, IfErr, OnOk};
ghost use Rattle.kmip_ttlv_types.specs.Streams.{Behind};
ghost use Rattle.kmip_ttlv_base.specs.Errors.{kind_of, view_of_kind, location_of, view_of_location};
ghost use Rattle.kmip_ttlv_base.specs.declared.error.ErrorKind.TheVariants.{ResponseSizeExceedsLimit as TooLargeKind};
ghost use Rattle.kmip_ttlv_de.specs.StreamMessages.{HasSize, FailsAtHeader, behind_header, behind_tag, heads_structure};
ghost use Rattle.kmip_ttlv_de.specs.StreamMessages.{untyped_kind, IsIoFault, LacksBytes, Arrives, FailsToArrive};

use kmip_ttlv_base::error::{Error, ErrorKind, ErrorLocation, MalformedTtlvError, Result};
use kmip_ttlv_base::types;
use kmip_ttlv_base::types::places::{length_at, tag_at, type_at};
use kmip_ttlv_base::types::stream::{Source, append_bytes};
use kmip_ttlv_base::types::{ByteOffset, TtlvType};
use std::alloc::{AllocError, Allocator};
use std::io;

// A message of up to so many bytes takes one block of memory.
const SMALL: usize = 512;

// Reads the bytes of one message. If the header's code is no type's, or the message is larger than the limit, only the
// header is read.
pub fn take_message<S: Source, A: Allocator>(
    reader: &mut S,
    limit: Option<u32>,
    bytes: &mut Vec<u8, A>,
) -> Result<(), A>
    ensures ok { OnOk result (Arrives limit (S.left reader.old) (S.left reader.new) bytes.new.items) }
    ensures err { IfErr result (FailsToArrive S.can_fail limit (S.left reader.old) (S.left reader.new) (Some bytes.new.items)) }
{
    empty(bytes)?;
    take_more(reader, bytes, 8)?;
    let size = size_of(bytes.as_slice(), limit)?;
    take_more(reader, bytes, size - 8)
}

// Whether the header is a Structure's.
pub fn is_structure(message: &[u8]) -> bool
    requires { 8 ≤ length message.now }
    ensures { result ≡ heads_structure message.now }
{
    matches!(type_at(message, 0), Some(TtlvType::Structure))
}

// Removes all bytes, and makes room for a small message.
fn empty<A: Allocator>(bytes: &mut Vec<u8, A>) -> std::result::Result<(), AllocError>
    ensures { bytes.new.items ≡ [] }
{
    bytes.clear();
    bytes.reserve(SMALL)
}

// How many bytes the message with this header has, if its type is known and the limit allows it.
fn size_of<A: Allocator>(head: &[u8], limit: Option<u32>) -> Result<usize, A>
    requires { 8 ≤ length head.now }
    ensures ok { IfOk result (HasSize limit head.now) }
    ensures err { IfErr result (FailsAtHeader limit head.now) }
{
    let Some(typ) = type_at(head, 0) else {
        return Err(no_type(head));
    };
    let size = 8 + length_at(head, 0) as usize;
    match limit {
        Some(most) if size > most as usize => Err(too_large(head, typ, size)),
        _ => Ok(size),
    }
}

// The error for a header whose code is no type's, at the code.
fn no_type<A: Allocator>(head: &[u8]) -> Error<A>
    requires { 8 ≤ length head.now }
    ensures kind { view_of_kind (kind_of result) ≡ untyped_kind head.now }
    ensures place { view_of_location (location_of result) ≡ behind_tag head.now }
{
    Error::new(
        ErrorKind::MalformedTtlv(MalformedTtlvError::InvalidType(head[3])),
        ErrorLocation::at(Some(ByteOffset(3)), None, Some(tag_at(head, 0)), None),
    )
}

// The error for a message of this size, after its header.
fn too_large<A: Allocator>(head: &[u8], typ: TtlvType, size: usize) -> Error<A>
    requires { 8 ≤ length head.now }
    ensures kind { kind_of result ≡ TooLargeKind size }
    ensures place { view_of_location (location_of result) ≡ behind_header head.now typ }
{
    Error::new(
        ErrorKind::ResponseSizeExceedsLimit(size),
        ErrorLocation::at(Some(ByteOffset(8)), None, Some(tag_at(head, 0)), Some(typ)),
    )
}

// Reads `count` bytes and appends them to the buffer.
fn take_more<S: Source, A: Allocator>(
    reader: &mut S,
    bytes: &mut Vec<u8, A>,
    count: usize,
) -> Result<(), A>
    ensures ok { OnOk result (Behind (S.left reader.old) (S.left reader.new) bytes.old.items bytes.new.items count) }
    ensures err { IfErr result (LacksBytes S.can_fail (S.left reader.old) (S.left reader.new) count) }
{
    match append_bytes(reader, bytes, count) {
        Ok(()) => Ok(()),
        Err(types::Error::IoError(fault)) => Err(io_fault(fault)),
        Err(_) => Err(Error::out_of_memory()),
    }
}

// The error if reading fails or the stream ends: it has no place.
fn io_fault<A: Allocator>(fault: io::Error) -> Error<A>
    ensures { IsIoFault fault result }
{
    Error::new(ErrorKind::IoError(fault), ErrorLocation::unknown())
}
