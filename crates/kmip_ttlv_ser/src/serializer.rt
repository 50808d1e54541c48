//! The calls that encode values: `to_vec`, `to_writer` and `TtlvSerializer`.

ghost use Rattle.std.specs.Prelude.{◌≡◌, [], false};
ghost use Rattle.kmip_ttlv_types.specs.Held.{held};
ghost use Rattle.kmip_ttlv_ser.specs.EncodeResults.{Encodes, EncodesTo, progress, Serializes, GivesAll};
ghost use Rattle.kmip_ttlv_ser.specs.EncodeResults.{IsClosed, AppendsValue};

use crate::buffer::Buffer;
use crate::emitter::emit;
use crate::gathered::Gathered;
use crate::measurer::measure;
use crate::output::Direct;
use crate::pending::Place;
use crate::single::in_one_pass;
use kmip_ttlv_base::error::{Error, ErrorKind, ErrorLocation, MalformedTtlvError, Result};
use kmip_ttlv_base::shape::Serialize;
use kmip_ttlv_types::ByteOffset;
use kmip_ttlv_types::stream::{MemorySink, Sink};
use std::alloc::{Allocator, Global};
use std::mem;

/// Encodes a value: the canonical bytes of its items, in order (KMIP 1.0, section 9.1).
///
/// If the value has no encoding, the error is that of the first invalid field in document order, with its
/// offset alone: the number of bytes before it. It is `InvalidTag` for a name that is no tag, `InvalidVariant`
/// for a unit variant that is no number, `UnsupportedRustType` for a value of a type that can't be encoded,
/// and `UnexpectedTtlvField` for an item without a tag or a tag without an item. It is `LengthOverflow`,
/// without a place, only if a length is above 2^32 - 1 or there are more than 2^64 - 1 bytes, and
/// `OutOfMemory` only if memory ran out.
///
/// The call recurses into the value: a stack of 8 MiB carries some 9,000 structures, sequences or options
/// within each other.
///
/// ```
/// let inner = Box::new(alloc, Data::I32(8))?;
/// let bytes = to_vec(alloc, &Data::Newtype { name: "Transparent:0x420020", inner })?;
/// assert!(rt; bytes.as_slice() == b"\x42\0\x20\x02\0\0\0\x04\0\0\0\x08\0\0\0\0".as_slice());
/// ```
pub fn to_vec<A: Allocator + Copy, T: Serialize>(alloc: A, value: &T) -> Result<Vec<u8, A>, A>
    ensures { Encodes (T.stated value.now) result }
{
    let mut out = Vec::new(alloc);
    let mut room = [0; 1_024];
    if let Some(whole) = in_one_pass(value, &mut room) {
        out.extend_from_slice(whole.bytes())?;
        return Ok(out);
    }
    append(alloc, value, false, &mut out)?;
    Ok(out)
}

/// Writes the bytes of `to_vec` to a writer as it goes, without a vector of them. Small pieces are gathered,
/// up to 8,192 bytes on the stack, and long ones are written directly.
///
/// It fails as `to_vec` does, and then nothing was written. It fails with `IoError`, without a place, if the
/// writer fails or takes no byte, and then a beginning of the bytes was written. Memory that has room for all of
/// the bytes, as a `MemorySink` with that capacity, doesn't fail. Interrupted writes are repeated, as often as
/// a 64-bit count allows.
///
/// ```
/// let mut writer = Vec::new(alloc);
/// to_writer(alloc, &Data::Newtype { name: "Transparent:0x420020", inner }, &mut writer)?;
/// assert!(rt; writer.as_slice() == b"\x42\0\x20\x02\0\0\0\x04\0\0\0\x08\0\0\0\0".as_slice());
/// ```
pub fn to_writer<A: Allocator + Copy, T: Serialize, S: Sink>(
    alloc: A,
    value: &T,
    writer: &mut S,
) -> Result<(), A>
    ensures { EncodesTo (T.stated value.now) (held S.emitted S.room writer.old) (held S.emitted S.room writer.new) result }
{
    let mut room = [0; 1_024];
    let Some(whole) = in_one_pass(value, &mut room) else {
        return to_writer_by_plan(alloc, value, writer);
    };
    match writer.send(whole.bytes()) {
        Ok(()) => Ok(()),
        Err(error) => Err(Error::new(ErrorKind::IoError(error), ErrorLocation::unknown())),
    }
}

/// The same, in two passes.
#[inline(never)]
fn to_writer_by_plan<A: Allocator + Copy, T: Serialize, S: Sink>(
    alloc: A,
    value: &T,
    writer: &mut S,
) -> Result<(), A>
    ensures { EncodesTo (T.stated value.now) (held S.emitted S.room writer.old) (held S.emitted S.room writer.new) result }
{
    let place = Place {
        offset: 0,
        opened: false,
    };
    let plan = measure(alloc, value, place)?;
    let mut buffer = Buffer::new();
    let mut gathered = emit(value, &plan.sizes, Gathered::new(writer, &mut buffer));
    gathered.flush();
    match gathered.failure {
        None => Ok(()),
        Some(error) => Err(Error::new(ErrorKind::IoError(error), ErrorLocation::unknown())),
    }
}

/// Encodes values one after the other, until a call fails.
///
/// After an error, out of memory included, each later call fails with `UnknownStructureLength`, without a
/// place. Converted to an `ErrorLocation`, a serializer is the number of bytes of the calls that succeeded.
///
/// ```
/// let mut serializer = TtlvSerializer::new(alloc);
/// serializer.serialize(&first)?;
/// serializer.serialize(&second)?;
/// let bytes = serializer.into_vec()?; // both messages, one after the other
/// ```
#[derive(Drop)]
pub struct TtlvSerializer<A: Allocator = Global> {
    alloc: A,
    out: Vec<u8, A>,
    opened: bool,
    refused: bool,
}

impl<A: Allocator + Copy> TtlvSerializer<A> {
    /// An empty serializer. Doesn't allocate.
    pub fn new(alloc: A) -> TtlvSerializer<A>
        ensures { progress result ≡ record { bytes = []; opened = false; refused = false } }
    {
        TtlvSerializer {
            alloc,
            out: Vec::new(alloc),
            opened: false,
            refused: false,
        }
    }

    /// Appends the items of a value. It fails as `to_vec` does, but offsets count the bytes of the earlier
    /// calls too, and which field is expected depends on them.
    pub fn serialize<T: Serialize>(&mut self, value: &T) -> Result<(), A>
        ensures { Serializes (T.stated value.now) (progress self.old) (progress self.new) result }
    {
        if self.refused {
            return Err(closed());
        }
        self.refused = true;
        self.opened = append(self.alloc, value, self.opened, &mut self.out)?;
        self.refused = false;
        Ok(())
    }

    /// All bytes that were appended. Doesn't allocate.
    ///
    /// Fails with `UnknownStructureLength` if a call failed before, and the bytes are lost.
    pub fn into_vec(self) -> Result<Vec<u8, A>, A>
        ensures { GivesAll (progress self) result }
    {
        if self.refused {
            return Err(closed());
        }
        Ok(self.out)
    }
}

/// The number of bytes of the calls that succeeded. The serializer stays as it is.
impl<A: Allocator, B: Allocator> From<&mut TtlvSerializer<B>> for ErrorLocation<A> {
    ghost use Rattle.std.specs.Prelude.{length};
    ghost use Rattle.kmip_ttlv_base.specs.Errors.{view_of_location, only_offset};
    ghost use Rattle.kmip_ttlv_ser.specs.EncodeResults.{progress};

    ghost from_gives = { λ s l. view_of_location l ≡ only_offset (length (progress s.now).bytes) };

    fn from(serializer: &mut TtlvSerializer<B>) -> ErrorLocation<A>
        ensures place { view_of_location result ≡ only_offset (length (progress serializer.old).bytes) }
        ensures unchanged { serializer.new ≡ serializer.old }
    {
        let bytes = serializer.out.len() as u64;
        ErrorLocation::at(Some(ByteOffset(bytes)), None, None, None)
    }
}

/// The error after a call that failed.
fn closed<A: Allocator>() -> Error<A>
    ensures { IsClosed result }
{
    Error::new(
        MalformedTtlvError::UnknownStructureLength.into(),
        ErrorLocation::unknown(),
    )
}

/// Appends a value's items, and returns whether the last field written is a structure's length.
///
/// It finds any error first, and reserves all room before it writes the first byte.
fn append<A: Allocator + Copy, T: Serialize>(
    alloc: A,
    value: &T,
    opened: bool,
    out: &mut Vec<u8, A>,
) -> Result<bool, A>
    ensures { AppendsValue (T.stated value.now) opened out.old.items out.new.items result }
{
    let place = Place {
        offset: out.len() as u64,
        opened,
    };
    let plan = measure(alloc, value, place)?;
    out.reserve((plan.end.offset - place.offset) as usize)?;
    let sink = MemorySink(mem::replace(out, Vec::new(alloc)));
    let whole = emit(value, &plan.sizes, Direct::new(sink));
    if let Some(_) = whole.failure {
        unreachable!();
    }
    *out = whole.sink.0;
    Ok(plan.end.opened)
}
