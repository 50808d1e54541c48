//! Why reading stops, and where, as the readers hand it on.

ghost use Rattle.std.specs.Prelude.{◌≡◌, ◌+◌, ◌<◌, ◌≤◌, ◌^◌, [], length, Some};
ghost use Rattle.kmip_ttlv_base.specs.Values.{Values};
ghost use Rattle.kmip_ttlv_reader.specs.Steps.{Outcome, Read, within};
ghost use Rattle.kmip_ttlv_reader.specs.ReadFaults.{at_first, at_item, in_struct, bad_code, overflow};
ghost use Rattle.kmip_ttlv_reader.specs.Results.{IsFailure, IsFailureOf, kind_by};

use kmip_ttlv_base::error::{MalformedTtlvError, SerdeError};
use kmip_ttlv_base::types::places::tag_at;
use kmip_ttlv_base::types::{ByteOffset, TtlvTag, TtlvType};
use std::alloc::{AllocError, AllocFailed, Allocator, Global};

/// What a step of reading returns.
pub type Step<T, A = Global> = Result<T, Failure<A>>;

/// Why bytes are not read. It is small, since each result of a reader has room for one.
#[derive(Drop)]
pub enum Failure<A: Allocator = Global> {
    /// An allocation failed.
    OutOfMemory,
    /// The bytes end too early.
    EarlyEnd,
    /// Something is wrong with them.
    Fault(Box<FaultAt<A>, A>),
}

/// What is wrong, and where.
#[derive(Drop)]
pub struct FaultAt<A: Allocator = Global> {
    /// Which error it is, without its place.
    pub cause: Cause<A>,
    /// In bytes from the first byte.
    pub offset: usize,
    /// The tag that the error names: the item's, or that of the innermost struct. None at the first byte.
    pub tag: Option<TtlvTag>,
    /// The type that the error names. None if the code is that of no type, and at the first byte.
    pub typ: Option<TtlvType>,
    /// The tags of the structures around, the innermost first.
    pub around: Vec<TtlvTag, A>,
}

/// What is wrong with bytes.
#[derive(Drop)]
pub enum Cause<A: Allocator = Global> {
    /// They are no TTLV.
    Malformed(MalformedTtlvError),
    /// They don't agree with what the type says of itself.
    Mismatch(SerdeError<A>),
}

impl<A: Allocator> From<AllocError> for Failure<A> {
    ghost use Rattle.kmip_ttlv_reader.specs.declared.failure.Failure.TheVariants.{OutOfMemory};

    ghost from_gives = { λ _ r. r ≡ OutOfMemory };

    fn from(_error: AllocError) -> Failure<A> {
        Failure::OutOfMemory
    }
}

impl<T: Drop, A: Allocator> From<AllocFailed<T>> for Failure<A> {
    ghost use Rattle.kmip_ttlv_reader.specs.declared.failure.Failure.TheVariants.{OutOfMemory};

    ghost from_gives = { λ _ r. r ≡ OutOfMemory };

    fn from(_error: AllocFailed<T>) -> Failure<A> {
        Failure::OutOfMemory
    }
}

// With no structures around it.
fn make_fault<A: Allocator + Copy>(
    alloc: A,
    cause: Cause<A>,
    offset: usize,
    tag: Option<TtlvTag>,
    typ: Option<TtlvType>,
) -> Failure<A>
    ensures { IsFailureOf record {
      why = kind_by cause;
      place = record { offset = Some offset; parents = []; tag = tag; typ = typ };
    } result }
{
    let fault = FaultAt {
        cause,
        offset,
        tag,
        typ,
        around: Vec::new(alloc),
    };
    match Box::new(alloc, fault) {
        Ok(fault) => Failure::Fault(fault),
        Err(_) => Failure::OutOfMemory,
    }
}

/// At the first byte, where nothing was read.
#[cold]
pub fn at_first<A: Allocator + Copy>(alloc: A, cause: Cause<A>) -> Failure<A>
    ensures { IsFailureOf (at_first (kind_by cause)) result }
{
    make_fault(alloc, cause, 0, None, None)
}

/// So far after the first byte of the item at `pos`.
#[cold]
pub fn at_item<A: Allocator + Copy>(
    alloc: A,
    bytes: &[u8],
    pos: usize,
    after: usize,
    typ: TtlvType,
    cause: Cause<A>,
) -> Failure<A>
    requires there { pos + 4 ≤ length bytes.now }
    requires fits { after < 2 ^ 33 }
    ensures { IsFailureOf (at_item bytes.now pos after typ (kind_by cause)) result }
{
    let tag = tag_at(bytes, pos);
    make_fault(alloc, cause, pos + after, Some(tag), Some(typ))
}

/// The code of no type.
#[cold]
pub fn bad_code<A: Allocator + Copy>(alloc: A, bytes: &[u8], pos: usize) -> Failure<A>
    requires there { pos + 4 ≤ length bytes.now }
    ensures { IsFailureOf (bad_code bytes.now pos) result }
{
    let cause = Cause::Malformed(MalformedTtlvError::InvalidType(bytes[pos + 3]));
    make_fault(alloc, cause, pos + 3, Some(tag_at(bytes, pos)), None)
}

/// The item at `pos` goes past the end of the structure around it.
#[cold]
pub fn overflow<A: Allocator + Copy>(
    alloc: A,
    bytes: &[u8],
    pos: usize,
    end: usize,
    typ: TtlvType,
    next: usize,
) -> Failure<A>
    requires there { pos + 4 ≤ length bytes.now }
    ensures { IsFailureOf (overflow bytes.now pos end typ next) result }
{
    let cause = Cause::Malformed(MalformedTtlvError::Overflow {
        field_end: ByteOffset(end as u64),
    });
    make_fault(alloc, cause, next, Some(tag_at(bytes, pos)), Some(typ))
}

/// In the struct of this tag.
#[cold]
pub fn in_struct<A: Allocator + Copy>(
    alloc: A,
    offset: usize,
    tag: TtlvTag,
    words: &str,
) -> Failure<A>
    ensures { IsFailureOf (in_struct offset tag words.now) result }
{
    match String::from_str(alloc, words) {
        Ok(words) => {
            let cause = Cause::Mismatch(SerdeError::Other(words));
            make_fault(alloc, cause, offset, Some(tag), Some(TtlvType::Structure))
        }
        Err(_) => Failure::OutOfMemory,
    }
}

/// The same failure, from within a structure of this tag.
#[cold]
pub fn within<A: Allocator + Copy>(tag: TtlvTag, failure: Failure<A>) -> Failure<A>
    ensures list { (o : Outcome (Read Values)) → IsFailure o failure → IsFailure (within tag o) result }
    ensures items { (o : Outcome Values) → IsFailure o failure → IsFailure (within tag o) result }
{
    match failure {
        Failure::OutOfMemory => Failure::OutOfMemory,
        Failure::EarlyEnd => Failure::EarlyEnd,
        Failure::Fault(mut fault) => match fault.around.push(tag) {
            Ok(()) => Failure::Fault(fault),
            Err(_) => Failure::OutOfMemory,
        },
    }
}
