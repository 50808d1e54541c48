//! The fields of an item, and byte offsets.

ghost use Rattle.std.specs.Prelude.{◌≡◌, ◌≢◌, ◌-◌, ◌^◌, Some, MatchResult};
ghost use Rattle.std.specs.Io.Cursor.{cursor_position};
ghost use Rattle.kmip_ttlv_types.specs.declared.field.FieldType.TheVariants.{Tag};
ghost use Rattle.kmip_ttlv_types.specs.FieldTexts.{field_text};

use std::fmt;
use std::io::Cursor;
use std::ops::Deref;

/// A field of an item, or several that are written or read at once.
#[derive(Clone, Copy, Debug, PartialEq, Eq)]
pub enum FieldType {
    /// The three bytes of the tag.
    Tag,
    /// The byte of the type.
    Typ,
    /// The four bytes of the length.
    Length,
    /// The content with its padding; of a Structure, the items in it.
    Value,
    /// A leaf's length and value at once.
    LengthAndValue,
    /// A leaf's type, length and value at once.
    TypeAndLengthAndValue,
}

/// The first field of an item: its tag.
impl Default for FieldType {
    ghost is_default = { λ f. f ≡ Tag };

    fn default() -> FieldType {
        FieldType::Tag
    }
}

/// The variant's name, `Type` for `Typ`.
impl fmt::Display for FieldType {
    ghost output = { λ f. Some (field_text f) };

    fn fmt<W: fmt::Write>(&self, f: &mut fmt::Formatter<W>) -> fmt::Result {
        f.write_str(match self {
            FieldType::Tag => "Tag",
            FieldType::Typ => "Type",
            FieldType::Length => "Length",
            FieldType::Value => "Value",
            FieldType::LengthAndValue => "LengthAndValue",
            FieldType::TypeAndLengthAndValue => "TypeAndLengthAndValue",
        })
    }
}

/// An offset in bytes, counted from the first byte.
#[derive(Clone, Copy, Debug, PartialEq, Eq)]
pub struct ByteOffset(pub u64);

/// The number of bytes before this offset.
impl Deref for ByteOffset {
    type Target = u64;

    ghost deref_gives = { λ o n. n ≡ o.0 };

    fn deref(&self) -> &u64 {
        &self.0
    }
}

/// The offset after this number of bytes.
impl From<u64> for ByteOffset {
    ghost from_gives = { λ n o. o.0 ≡ n };

    fn from(offset: u64) -> ByteOffset {
        ByteOffset(offset)
    }
}

/// The offset after this number of bytes.
impl From<&u64> for ByteOffset {
    ghost from_gives = { λ n o. o.0 ≡ n.now };

    fn from(offset: &u64) -> ByteOffset {
        ByteOffset(*offset)
    }
}

/// The offset of the byte that the cursor reads or writes next.
impl<T: Drop> From<Cursor<T>> for ByteOffset {
    ghost from_gives = { λ c o. o.0 ≡ cursor_position c };

    fn from(cursor: Cursor<T>) -> ByteOffset {
        ByteOffset(cursor.position())
    }
}

/// The offset of the byte that the cursor reads or writes next.
impl<T> From<&Cursor<T>> for ByteOffset {
    ghost from_gives = { λ c o. o.0 ≡ cursor_position c.now };

    fn from(cursor: &Cursor<T>) -> ByteOffset {
        ByteOffset(cursor.position())
    }
}

impl TryFrom<usize> for ByteOffset {
    type Error = ();

    ghost try_from_gives = { λ n r. MatchResult r (λ o. (o.0 ≡ n) × (n ≢ 2 ^ 64 - 1)) (λ _. n ≡ 2 ^ 64 - 1) };

    /// The offset after this number of bytes. Fails for the greatest number alone.
    fn try_from(offset: usize) -> Result<ByteOffset, ()> {
        let offset = offset as u64;
        if offset == u64::MAX {
            return Err(());
        }
        Ok(ByteOffset(offset))
    }
}
