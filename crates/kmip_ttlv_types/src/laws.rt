//! Laws of reading and writing, each the contract of a function with an empty body, and a function over any
//! primitive that is proved by one of them.

ghost use Rattle.std.specs.Prelude.{◌≡◌, IsTrue};
ghost use Rattle.kmip_ttlv_types.specs.Laws.{IsReadBack, ReadsWholeLeaves, ReadsHeaders, WritesWhereRoom};
ghost use Rattle.kmip_ttlv_types.specs.Laws.{ReadsEachField, SkipsIgnoredTags, PadsToEight, LeavesAreTagAndRest};
ghost use Rattle.kmip_ttlv_types.specs.Laws.{Rereads};

use crate::Result;
use crate::fixed::{
    TtlvBoolean, TtlvDateTime, TtlvEnumeration, TtlvInteger, TtlvInterval, TtlvLongInteger,
};
use crate::primitive::SerializableTtlvType;
use crate::stream::{MemorySink, MemorySource};
use crate::tag::TtlvTag;
use crate::typ::TtlvType;
use std::alloc::Allocator;
use std::hash::Hash;

/// A value that was written is read back, as one with the bytes that were written, and what follows is left.
/// Reading fails only if the source can fail and does, or if memory runs out, for a type that allocates and
/// content that isn't empty.
pub fn what_was_written_is_read_back<T: SerializableTtlvType>(value: &T)
    ensures { IsReadBack T.HasTtlvType.TTLV_TYPE
        T.SerializableTtlvType.value_bytes T.SerializableTtlvType.takes_memory value.now }
{}

/// A whole leaf is read, whatever its padding is. Reading fails only if the source can fail and does, or if
/// memory runs out, for a type that allocates and content that isn't empty.
pub fn a_whole_leaf_in_memory_is_read<T: SerializableTtlvType>()
    ensures { ReadsWholeLeaves T.HasTtlvType.TTLV_TYPE
        T.SerializableTtlvType.value_bytes T.SerializableTtlvType.takes_memory }
{}

/// A tag, a type or a length is read from memory that has its bytes, unless a type's byte is no code.
pub fn headers_in_memory_are_read()
    ensures { ReadsHeaders }
{}

/// Writing into memory that has the room succeeds, unless a length doesn't fit into four bytes.
pub fn memory_with_room_is_written()
    ensures { WritesWhereRoom }
{}

/// While deserializing, `advance` returns true for each field that it accepts.
pub fn deserializing_reads_each_field()
    ensures { ReadsEachField }
{}

/// While serializing, `advance` returns false for a field that it accepts if and only if that is a tag to be
/// ignored.
pub fn serializing_skips_ignored_tags()
    ensures { SkipsIgnoredTags }
{}

/// Content and its padding are a multiple of eight bytes.
pub fn padding_fills_up_to_eight()
    ensures { PadsToEight }
{}

/// A leaf's canonical bytes are those of its tag, then what `write` of its value writes. Together they are a
/// multiple of eight bytes.
pub fn a_leaf_is_its_tag_and_the_rest()
    ensures { LeavesAreTagAndRest }
{}

/// A tag that is made from the three bytes of a tag is that tag.
pub fn tag_of_its_bytes(tag: TtlvTag) -> TtlvTag
    ensures { result ≡ tag }
{
    let bytes: [u8; 3] = tag.into();
    TtlvTag::from(bytes)
}

/// Tags that compare as equal are the same, and hash alike.
pub fn equal_tags_hash_alike(a: TtlvTag, b: TtlvTag)
    ensures { IsTrue (⟦<TtlvTag as PartialEq>⟧.eq a b)
        → (a ≡ b) × (⟦<TtlvTag as Hash>⟧.hash_input a ≡ ⟦<TtlvTag as Hash>⟧.hash_input b) }
{}

/// Two values with the same bytes are the same.
pub fn an_integer_is_known_by_its_bytes(a: TtlvInteger, b: TtlvInteger)
    ensures { ⟦<TtlvInteger as SerializableTtlvType>⟧.value_bytes a
        ≡ ⟦<TtlvInteger as SerializableTtlvType>⟧.value_bytes b
        → a ≡ b }
{}

/// Two values with the same bytes are the same.
pub fn a_long_integer_is_known_by_its_bytes(a: TtlvLongInteger, b: TtlvLongInteger)
    ensures { ⟦<TtlvLongInteger as SerializableTtlvType>⟧.value_bytes a
        ≡ ⟦<TtlvLongInteger as SerializableTtlvType>⟧.value_bytes b
        → a ≡ b }
{}

/// Two values with the same bytes are the same.
pub fn an_enumeration_is_known_by_its_bytes(a: TtlvEnumeration, b: TtlvEnumeration)
    ensures { ⟦<TtlvEnumeration as SerializableTtlvType>⟧.value_bytes a
        ≡ ⟦<TtlvEnumeration as SerializableTtlvType>⟧.value_bytes b
        → a ≡ b }
{}

/// Two values with the same bytes are the same.
pub fn a_boolean_is_known_by_its_bytes(a: TtlvBoolean, b: TtlvBoolean)
    ensures { ⟦<TtlvBoolean as SerializableTtlvType>⟧.value_bytes a
        ≡ ⟦<TtlvBoolean as SerializableTtlvType>⟧.value_bytes b
        → a ≡ b }
{}

/// Two values with the same bytes are the same.
pub fn a_date_time_is_known_by_its_bytes(a: TtlvDateTime, b: TtlvDateTime)
    ensures { ⟦<TtlvDateTime as SerializableTtlvType>⟧.value_bytes a
        ≡ ⟦<TtlvDateTime as SerializableTtlvType>⟧.value_bytes b
        → a ≡ b }
{}

/// Two values with the same bytes are the same.
pub fn an_interval_is_known_by_its_bytes(a: TtlvInterval, b: TtlvInterval)
    ensures { ⟦<TtlvInterval as SerializableTtlvType>⟧.value_bytes a
        ≡ ⟦<TtlvInterval as SerializableTtlvType>⟧.value_bytes b
        → a ≡ b }
{}

// The most bytes that type, length and padding of a leaf take.
const BESIDES_CONTENT: usize = 12;

/// Writes a value into memory, and reads it back from there, as one with the bytes that were written.
///
/// Fails with `LengthOverflow` if and only if the value is too long to be written, or with `OutOfMemory` if
/// there is no memory for its bytes or for the value that is read.
///
/// ```
/// assert_eq!(rt; reread(alloc, (), &TtlvInteger(8))?, TtlvInteger(8));
/// ```
pub fn reread<T: SerializableTtlvType, A: Allocator>(
    room: A,
    alloc: T::Alloc,
    value: &T,
) -> Result<T>
    ensures { Rereads T.HasTtlvType.TTLV_TYPE T.SerializableTtlvType.value_bytes value.now result }
{
    what_was_written_is_read_back(value);
    let length = value.value_length()?;
    let mut written = MemorySink(Vec::new(room));
    written.0.reserve(length as usize + BESIDES_CONTENT)?;
    value.write(&mut written)?;
    let mut source = MemorySource(written.0.as_slice());
    TtlvType::read(&mut source)?;
    T::read(alloc, &mut source)
}
