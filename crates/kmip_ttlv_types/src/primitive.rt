//! The trait of the primitives: values that are read and written with their length and padding.

ghost use Rattle.std.specs.Prelude.{◌≡◌, ℕ, List, Bool, true, ◌++◌, ◌<◌, length, replicate, IfOk, length as length'};
ghost use Rattle.kmip_ttlv_types.specs.declared.typ.TtlvType.{TtlvType};
ghost use Rattle.kmip_ttlv_types.specs.ItemTypes.{pad_len};
ghost use Rattle.kmip_ttlv_types.specs.Leaves.{is_valid};
ghost use Rattle.kmip_ttlv_types.specs.Headers.{Writes};
ghost use Rattle.kmip_ttlv_types.specs.Primitives.{content_of, length_and_content, leaf_rest, IsLengthOf, WritesLong};
ghost use Rattle.kmip_ttlv_types.specs.Primitives.{Skips, ReadsValue, ReadsLeaf};

use crate::Result;
use crate::length::TtlvLength;
use crate::stream::{Sink, Source, fill_all};
use crate::typ::TtlvType;

/// A primitive's type of items. It is a trait of its own because two members of one trait, such as
/// `TTLV_TYPE` and `ttlv_type`, may not differ in case alone.
pub trait HasTtlvType {
    /// The type of these items.
    const TTLV_TYPE: TtlvType;

    ghost TTLV_TYPE: { TtlvType };
}

/// A primitive: its values are read and written with their length and padding (KMIP 1.0, section 9.1.1).
/// The tag is read and written separately, and so is the type when reading.
///
/// ```
/// let mut source = MemorySource(b"\x42\0\x20\x02\0\0\0\x04\0\0\0\x08\0\0\0\0");
/// let (tag, typ) = (TtlvTag::read(&mut source)?, TtlvType::read(&mut source)?);
/// assert_eq!(rt; TtlvInteger::read((), &mut source)?, TtlvInteger(8));
/// ```
pub trait SerializableTtlvType: HasTtlvType + Sized + Drop {
    /// What allocates the memory of a value that is read: an allocator, or `()` if there is none to allocate.
    type Alloc: Drop;

    // The bytes of a value.
    ghost value_bytes: { Self → List ℕ };

    // Whether reading a value allocates.
    ghost takes_memory: { Bool };

    /// The length that is written, in bytes.
    ///
    /// Fails with `LengthOverflow` if it is above 2^32 - 1.
    ///
    /// ```
    /// assert_eq!(rt; TtlvBigInteger(Vec::from_slice(alloc, b"abc")?).value_length()?, 8);
    /// ```
    fn value_length(&self) -> Result<u32>
        ensures { IsLengthOf (content_of Self.TTLV_TYPE (value_bytes self.now)) result };

    /// Reads the content of a value, whose length in bytes was read before.
    ///
    /// Fails with `InvalidTtlvValueLength`, before it reads, if no value of this type has that length; with
    /// `InvalidTtlvValue` if the content is no value of this type; with `IoError` if it can't be read; or with
    /// `OutOfMemory`.
    ///
    /// ```
    /// let mut source = MemorySource(b"\x01\x02\x03");
    /// let number = TtlvBigInteger::read_value(alloc, &mut source, 3)?;
    /// assert!(rt; number.as_slice() == b"\x01\x02\x03".as_slice());
    /// ```
    fn read_value<S: Source>(alloc: Self::Alloc, src: &mut S, value_len: u32) -> Result<Self>
        ensures { ReadsValue Self.TTLV_TYPE value_bytes takes_memory
            S.can_fail (S.left src.old) (S.left src.new) value_len result };

    /// Writes length and content, and returns the length in bytes.
    ///
    /// Fails with `LengthOverflow`, before it writes, if the length is above 2^32 - 1; or with `IoError` if the
    /// sink fails, and then a beginning may have been written.
    ///
    /// ```
    /// let mut out = Vec::new(alloc);
    /// let text = TtlvTextString(String::from_str(alloc, "abc")?);
    /// assert_eq!(rt; text.write_length_and_value(&mut out)?, 3);
    /// assert!(rt; out.as_slice() == b"\0\0\0\x03abc".as_slice());
    /// ```
    fn write_length_and_value<S: Sink>(&self, dst: &mut S) -> Result<u32>
        ensures writes { let content = content_of Self.TTLV_TYPE (value_bytes self.now) in
            WritesLong (length content) (length_and_content content)
            (S.emitted dst.old) (S.emitted dst.new) (S.room dst.old) (S.room dst.new) result }
        ensures length { IfOk result (λ n. n ≡ length (content_of Self.TTLV_TYPE (value_bytes self.now))) };

    // The bytes of a value are valid content of its type.
    ghost bytes_are_valid: { (v : Self) → is_valid Self.TTLV_TYPE (value_bytes v) ≡ true };

    /// The type of this item.
    final fn ttlv_type(&self) -> TtlvType
        ensures { result ≡ Self.TTLV_TYPE }
    {
        Self::TTLV_TYPE
    }

    /// How many bytes of padding follow a value of this length in bytes: up to the next multiple of eight.
    ///
    /// ```
    /// assert_eq!(rt; TtlvByteString::<Global>::calc_pad_bytes(5), 3);
    /// ```
    final fn calc_pad_bytes(value_len: u32) -> u32
        ensures value { result ≡ pad_len value_len }
        ensures small { result < 8 }
    {
        (8 - value_len % 8) % 8
    }

    /// Reads the padding of a value of this length in bytes, whatever it holds.
    ///
    /// Fails with `IoError` if it can't be read.
    ///
    /// ```
    /// let mut source = MemorySource(b"\xFF\xFF\xFF\xFF");
    /// TtlvInteger::read_pad_bytes(&mut source, 5)?;
    /// assert!(rt; source.0 == b"\xFF".as_slice());
    /// ```
    final fn read_pad_bytes<S: Source>(src: &mut S, value_len: u32) -> Result<()>
        ensures { Skips (pad_len value_len) S.can_fail (S.left src.old) (S.left src.new) result }
    {
        let mut padding = [0u8; 8];
        let count = Self::calc_pad_bytes(value_len) as usize;
        fill_all(src, &mut padding[..count])
    }

    /// Writes the padding of a value of this length in bytes: zeros.
    ///
    /// Fails with `IoError` if the sink does; a beginning may have been written.
    ///
    /// ```
    /// let mut out = Vec::new(alloc);
    /// TtlvInteger::write_pad_bytes(&mut out, 5)?;
    /// assert!(rt; out.as_slice() == b"\0\0\0".as_slice());
    /// ```
    final fn write_pad_bytes<S: Sink>(dst: &mut S, value_len: u32) -> Result<()>
        ensures { Writes (replicate (pad_len value_len) 0)
            (S.emitted dst.old) (S.emitted dst.new) (S.room dst.old) (S.room dst.new) result }
    {
        let zeros = [0u8; 8];
        let count = Self::calc_pad_bytes(value_len) as usize;
        dst.send(&zeros[..count])?;
        Ok(())
    }

    /// Reads length, content and padding.
    ///
    /// Fails with `InvalidTtlvValueLength` if no value of this type has that length; with `InvalidTtlvValue` if
    /// the content is no value of this type, whether or not its padding is there; with `IoError` if bytes can't
    /// be read; or with `OutOfMemory`. In each case it consumes nothing beyond length, content and padding.
    ///
    /// ```
    /// let mut source = MemorySource(b"\0\0\0\x04\0\0\0\x08\0\0\0\0");
    /// assert_eq!(rt; TtlvInteger::read((), &mut source)?, TtlvInteger(8));
    /// ```
    final fn read<S: Source>(alloc: Self::Alloc, src: &mut S) -> Result<Self>
        ensures { ReadsLeaf Self.TTLV_TYPE value_bytes takes_memory
            S.can_fail (S.left src.old) (S.left src.new) result }
    {
        let length = *TtlvLength::read(src)?;
        let value = Self::read_value(alloc, src, length)?;
        Self::read_pad_bytes(src, length)?;
        Ok(value)
    }

    /// Writes type, length, content and padding.
    ///
    /// Fails with `LengthOverflow`, before it writes, if the length is above 2^32 - 1; or with `IoError` if the
    /// sink fails, and then a beginning may have been written.
    ///
    /// ```
    /// let mut out = Vec::new(alloc);
    /// TtlvInteger(8).write(&mut out)?;
    /// assert!(rt; out.as_slice() == b"\x02\0\0\0\x04\0\0\0\x08\0\0\0\0".as_slice());
    /// ```
    final fn write<S: Sink>(&self, dst: &mut S) -> Result<()>
        ensures { let content = content_of Self.TTLV_TYPE (value_bytes self.now) in
            WritesLong (length content) (leaf_rest Self.TTLV_TYPE content)
            (S.emitted dst.old) (S.emitted dst.new) (S.room dst.old) (S.room dst.new) result }
    {
        self.value_length()?;
        self.ttlv_type().write(dst)?;
        let length = self.write_length_and_value(dst)?;
        Self::write_pad_bytes(dst, length)
    }
}

// Writes two slices, one after the other.
pub fn send_both<S: Sink>(dst: &mut S, first: &[u8], second: &[u8]) -> Result<()>
    ensures { Writes (first.now ++ second.now)
        (S.emitted dst.old) (S.emitted dst.new) (S.room dst.old) (S.room dst.new) result }
{
    dst.send(first)?;
    dst.send(second)?;
    Ok(())
}

// Writes a length, and content of that length.
#[tactic(auto, unfolding(crate::specs::Primitives::length_and_content))]
pub fn write_slice<S: Sink>(dst: &mut S, length: u32, content: &[u8]) -> Result<()>
    requires { length ≡ length' content.now }
    ensures { Writes (length_and_content content.now)
        (S.emitted dst.old) (S.emitted dst.new) (S.room dst.old) (S.room dst.new) result }
{
    send_both(dst, &length.to_be_bytes(), content)
}
