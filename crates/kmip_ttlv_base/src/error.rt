//! Why a call fails, and where.

ghost use Rattle.std.specs.Prelude.{◌≡◌, Some, None, IfSome, IfNone, option_map};
ghost use Rattle.kmip_ttlv_base.specs.Errors.{Kind, out_of_memory, Location, unknown, kind_of, view_of_kind};
ghost use Rattle.kmip_ttlv_base.specs.Errors.{location_of, view_of_location, is_nowhere, tags_of, only_offset};
ghost use Rattle.kmip_ttlv_base.specs.Errors.{only_small_offset, IsOverflow, IsKindOf};
ghost use Rattle.kmip_ttlv_base.specs.LocationTexts.{location_text};
ghost use Rattle.std.specs.Io.Cursor.{cursor_position};
ghost use Rattle.kmip_ttlv_base.specs.declared.error.ErrorKind.TheVariants.{IoError as IoErrorKind};
ghost use Rattle.kmip_ttlv_base.specs.declared.error.ErrorKind.TheVariants.{MalformedTtlv as MalformedKind};
ghost use Rattle.kmip_ttlv_base.specs.declared.error.ErrorKind.TheVariants.{SerdeError as SerdeKind};
ghost use Rattle.kmip_ttlv_base.specs.declared.error.ErrorKind.TheVariants.{OutOfMemory as MemoryKind};

use crate::location::{write_parents, write_position, write_tag, write_type};
use crate::types;
use crate::types::{ByteOffset, FieldType, TtlvTag, TtlvType};
use std::alloc::{AllocError, AllocFailed, Allocator, Global};
use std::io::Cursor;
use std::{fmt, io};

/// The result of encoding or decoding.
pub type Result<T, A = Global> = std::result::Result<T, Error<A>>;

/// Why a value can't be encoded or bytes can't be decoded, and where.
#[derive(Drop)]
#[derive_where(Debug)]
pub struct Error<A: Allocator = Global> {
    kind: ErrorKind<A>,
    location: ErrorLocation<A>,
}

/// Why a value can't be encoded or bytes can't be decoded.
#[derive(Drop)]
#[derive_where(Debug)]
pub enum ErrorKind<A: Allocator = Global> {
    /// The reader or the writer failed, or the input ended too early (kind UnexpectedEof).
    IoError(io::Error),
    /// A message is longer than the limit: its length in bytes, header included.
    ResponseSizeExceedsLimit(usize),
    /// The bytes are no TTLV; or, encoding, an item has no tag, or a tag no item.
    MalformedTtlv(MalformedTtlvError),
    /// The bytes, or the value, don't match what the type describes.
    SerdeError(SerdeError<A>),
    /// An allocation failed. Such an error has no place.
    OutOfMemory,
    /// A length doesn't fit into four bytes, or there are more than 2^64 - 1 bytes in all.
    LengthOverflow,
}

/// Why bytes are no TTLV, or a value has none.
#[derive(Clone, Copy, Debug, PartialEq, Eq)]
pub enum MalformedTtlvError {
    /// This byte is no type's code.
    InvalidType(u8),
    /// A length, in bytes, that no value of this type has.
    InvalidLength {
        expected: u32,
        actual: u32,
        typ: TtlvType,
    },
    /// Content that is no value of this type.
    InvalidValue {
        typ: TtlvType,
    },
    /// An item goes past the end of the structure around it: the offset of that end.
    Overflow {
        field_end: ByteOffset,
    },
    /// A field in place of the expected one.
    UnexpectedTtlvField {
        expected: FieldType,
        actual: FieldType,
    },
    /// A leaf where a Structure is expected.
    UnexpectedType {
        expected: TtlvType,
        actual: TtlvType,
    },
    /// Never returned by encoding or decoding: each type from 01 to 0A is supported.
    UnsupportedType(u8),
    /// An earlier call of this serializer failed.
    UnknownStructureLength,
}

/// Why bytes, or a value, don't match what the type describes.
#[derive(Drop)]
#[derive_where(Debug)]
pub enum SerdeError<A: Allocator = Global> {
    /// The name of a unit variant, which is no number.
    InvalidVariant(&'static str),
    /// The whole name of a variant that begins like a rule and is none.
    InvalidVariantMatcherSyntax(String<A>),
    /// A name that is no tag.
    InvalidTag(String<A>),
    /// An item in a struct without fields.
    MissingIdentifier,
    /// Another cause, in words.
    Other(String<A>),
    /// An item with another tag than the expected one.
    UnexpectedTag {
        expected: TtlvTag,
        actual: TtlvTag,
    },
    /// An item of another type than the expected one.
    UnexpectedType {
        expected: TtlvType,
        actual: TtlvType,
    },
    /// A value of a Rust type that can't be encoded: the type's name.
    UnsupportedRustType(&'static str),
}

/// Where an error is: an offset in bytes from the first byte, the tags of the structures around it, the
/// outermost first, and the item's tag and type, as far as they are known.
///
/// ```
/// let parents = Vec::from_slice(alloc, &[TtlvTag::from([0xAA; 3]), TtlvTag::from([0xBB; 3])])?;
/// let tag = TtlvTag::from([0xCC; 3]);
/// let place = ErrorLocation::at(Some(ByteOffset(16)), Some(parents), Some(tag), Some(TtlvType::Integer));
/// println!(rt; "{place}")?; // pos: 16 bytes, parent tags: 0xAAAAAA > 0xBBBBBB, tag: 0xCCCCCC, type: Integer (0x02)
/// ```
#[derive(Drop)]
#[derive_where(Debug)]
pub struct ErrorLocation<A: Allocator = Global> {
    offset: Option<ByteOffset>,
    parent_tags: Option<Vec<TtlvTag, A>>,
    tag: Option<TtlvTag>,
    typ: Option<TtlvType>,
}

impl<A: Allocator> Error<A> {
    /// An error of this kind, at this place.
    ///
    /// ```
    /// let kind = ErrorKind::from(SerdeError::InvalidVariant("Create"));
    /// let error: Error = Error::new(kind, ErrorLocation::from(3u8));
    /// println!(rt; "{error}")?; // Serde error : the variant Create is no number (at pos: 3 bytes)
    /// ```
    pub fn new(kind: ErrorKind<A>, location: ErrorLocation<A>) -> Error<A>
        ensures kind { kind_of result ≡ kind }
        ensures location { location_of result ≡ location }
    {
        Error { kind, location }
    }

    /// Why the call failed.
    ///
    /// ```
    /// let error = Error::<Global>::out_of_memory();
    /// assert!(rt; matches!(error.kind(), ErrorKind::OutOfMemory) && error.location().is_unknown());
    /// ```
    pub fn kind(&self) -> &ErrorKind<A>
        ensures { result.now ≡ kind_of self.now }
    {
        &self.kind
    }

    /// Where the error is.
    pub fn location(&self) -> &ErrorLocation<A>
        ensures { result.now ≡ location_of self.now }
    {
        &self.location
    }

    /// The kind and the location.
    pub fn into_parts(self) -> (ErrorKind<A>, ErrorLocation<A>)
        ensures kind { result.0 ≡ kind_of self }
        ensures location { result.1 ≡ location_of self }
    {
        let Error { kind, location } = self;
        (kind, location)
    }

    /// Out of memory, at an unknown place.
    pub fn out_of_memory() -> Error<A>
        ensures kind { kind_of result ≡ MemoryKind }
        ensures location { view_of_location (location_of result) ≡ unknown }
    {
        Error {
            kind: ErrorKind::OutOfMemory,
            location: ErrorLocation::unknown(),
        }
    }
}

/// OutOfMemory, at an unknown place.
impl<A: Allocator> From<AllocError> for Error<A> {
    ghost use Rattle.kmip_ttlv_base.specs.Errors.{IsMemory};

    ghost from_gives = { λ _ e. IsMemory e };

    fn from(_error: AllocError) -> Error<A> {
        Error::out_of_memory()
    }
}

/// OutOfMemory, at an unknown place; the value that found no memory is dropped.
impl<T: Drop, A: Allocator> From<AllocFailed<T>> for Error<A> {
    ghost use Rattle.kmip_ttlv_base.specs.Errors.{IsMemory};

    ghost from_gives = { λ _ e. IsMemory e };

    fn from(_error: AllocFailed<T>) -> Error<A> {
        Error::out_of_memory()
    }
}

/// An `IoError` of this error, which a reader or a writer returned.
impl<A: Allocator> From<io::Error> for ErrorKind<A> {
    ghost from_gives = { λ e k. k ≡ IoErrorKind e };

    fn from(error: io::Error) -> ErrorKind<A> {
        ErrorKind::IoError(error)
    }
}

/// A `MalformedTtlv` for this reason.
impl<A: Allocator> From<MalformedTtlvError> for ErrorKind<A> {
    ghost from_gives = { λ e k. k ≡ MalformedKind e };

    fn from(error: MalformedTtlvError) -> ErrorKind<A> {
        ErrorKind::MalformedTtlv(error)
    }
}

/// A `SerdeError` for this reason.
impl<A: Allocator> From<SerdeError<A>> for ErrorKind<A> {
    ghost from_gives = { λ e k. k ≡ SerdeKind e };

    fn from(error: SerdeError<A>) -> ErrorKind<A> {
        ErrorKind::SerdeError(error)
    }
}

impl MalformedTtlvError {
    /// An item goes past the end of the structure around it: the offset of that end.
    ///
    /// ```
    /// let field_end = ByteOffset(12);
    /// assert!(rt; MalformedTtlvError::overflow(12u64) == MalformedTtlvError::Overflow { field_end });
    /// ```
    pub fn overflow<T: Into<ByteOffset>>(field_end: T) -> MalformedTtlvError
        ensures { IsOverflow T.converts field_end result }
    {
        MalformedTtlvError::Overflow {
            field_end: field_end.into(),
        }
    }
}

impl<A: Allocator> ErrorKind<A> {
    /// The kind of a low-level error. A text in it is copied into memory of `alloc`; if that runs out, the kind
    /// is OutOfMemory.
    ///
    /// ```
    /// let low: types::Error = types::Error::InvalidTtlvTag(String::from_str(alloc, "XYZ")?);
    /// let kind = ErrorKind::from_types(alloc, low); // SerdeError(InvalidTag("XYZ"))
    /// ```
    pub fn from_types<B: Allocator>(alloc: A, error: types::Error<B>) -> ErrorKind<A>
        ensures { IsKindOf error result }
    {
        use MalformedTtlvError as Malformed;
        match error {
            types::Error::IoError(e) => ErrorKind::IoError(e),
            types::Error::InvalidTtlvTag(name) => match String::from_str(alloc, name.as_str()) {
                Ok(name) => ErrorKind::SerdeError(SerdeError::InvalidTag(name)),
                Err(_) => ErrorKind::OutOfMemory,
            },
            types::Error::UnexpectedTtlvField { expected, actual } => {
                ErrorKind::MalformedTtlv(Malformed::UnexpectedTtlvField { expected, actual })
            }
            types::Error::UnsupportedTtlvType(code) => {
                ErrorKind::MalformedTtlv(Malformed::UnsupportedType(code))
            }
            types::Error::InvalidTtlvType(code) => {
                ErrorKind::MalformedTtlv(Malformed::InvalidType(code))
            }
            types::Error::InvalidTtlvValueLength {
                expected,
                actual,
                typ,
            } => ErrorKind::MalformedTtlv(Malformed::InvalidLength {
                expected,
                actual,
                typ,
            }),
            types::Error::InvalidTtlvValue(typ) => {
                ErrorKind::MalformedTtlv(Malformed::InvalidValue { typ })
            }
            types::Error::InvalidStateMachineOperation => {
                match String::from_str(alloc, "Internal error: invalid state machine operaiton") {
                    Ok(words) => ErrorKind::SerdeError(SerdeError::Other(words)),
                    Err(_) => ErrorKind::OutOfMemory,
                }
            }
            types::Error::OutOfMemory => ErrorKind::OutOfMemory,
            types::Error::LengthOverflow => ErrorKind::LengthOverflow,
        }
    }
}

impl<A: Allocator> ErrorLocation<A> {
    /// A place of which nothing is known: no offset, no tags and no type.
    pub fn unknown() -> ErrorLocation<A>
        ensures { view_of_location result ≡ unknown }
    {
        ErrorLocation {
            offset: None,
            parent_tags: None,
            tag: None,
            typ: None,
        }
    }

    /// A place, of which each part may be known. The parents' tags are the outermost first.
    pub fn at(
        offset: Option<ByteOffset>,
        parent_tags: Option<Vec<TtlvTag, A>>,
        tag: Option<TtlvTag>,
        typ: Option<TtlvType>,
    ) -> ErrorLocation<A>
        ensures { view_of_location result
            ≡ record { offset = option_map (λ o. o.0) offset; parents = tags_of parent_tags; tag = tag; typ = typ } }
    {
        ErrorLocation {
            offset,
            parent_tags,
            tag,
            typ,
        }
    }

    /// Whether no part of the place is known.
    pub fn is_unknown(&self) -> bool
        ensures { result ≡ is_nowhere (view_of_location self.now) }
    {
        self.offset.is_none()
            && self.parent_tags().is_empty()
            && self.tag.is_none()
            && self.typ.is_none()
    }

    /// The offset in bytes from the first byte, if it is known.
    pub fn offset(&self) -> Option<ByteOffset>
        ensures { option_map (λ o. o.0) result ≡ (view_of_location self.now).offset }
    {
        self.offset
    }

    /// The tags of the structures around, the outermost first; none if they aren't known.
    pub fn parent_tags(&self) -> &[TtlvTag]
        ensures { result.now ≡ (view_of_location self.now).parents }
    {
        match &self.parent_tags {
            Some(tags) => tags.as_slice(),
            None => &[],
        }
    }

    /// The item's tag, if it is known.
    pub fn tag(&self) -> Option<TtlvTag>
        ensures { result ≡ (view_of_location self.now).tag }
    {
        self.tag
    }

    /// The item's type, if it is known.
    pub fn typ(&self) -> Option<TtlvType>
        ensures { result ≡ (view_of_location self.now).typ }
    {
        self.typ
    }

    /// The four parts, as `at` takes them.
    pub fn into_parts(
        self,
    ) -> (
        Option<ByteOffset>,
        Option<Vec<TtlvTag, A>>,
        Option<TtlvTag>,
        Option<TtlvType>,
    )
        ensures { view_of_location self
            ≡ record {
              offset = option_map (λ o. o.0) result.0;
              parents = tags_of result.1;
              tag = result.2;
              typ = result.3;
            } }
    {
        let ErrorLocation {
            offset,
            parent_tags,
            tag,
            typ,
        } = self;
        (offset, parent_tags, tag, typ)
    }
}

/// The place at this offset, in bytes from the first. Tags and type stay unknown.
impl<A: Allocator> From<ByteOffset> for ErrorLocation<A> {
    ghost from_gives = { λ x l. view_of_location l ≡ only_offset x.0 };

    fn from(offset: ByteOffset) -> ErrorLocation<A> {
        ErrorLocation::at(Some(offset), None, None, None)
    }
}

/// The place at this offset, in bytes from the first. Tags and type stay unknown.
impl<A: Allocator> From<u8> for ErrorLocation<A> {
    ghost from_gives = { λ x l. view_of_location l ≡ only_offset x };

    fn from(offset: u8) -> ErrorLocation<A> {
        ErrorLocation::from(ByteOffset(u64::from(offset)))
    }
}

/// The place at this offset, in bytes from the first. Tags and type stay unknown.
impl<A: Allocator> From<u16> for ErrorLocation<A> {
    ghost from_gives = { λ x l. view_of_location l ≡ only_offset x };

    fn from(offset: u16) -> ErrorLocation<A> {
        ErrorLocation::from(ByteOffset(u64::from(offset)))
    }
}

/// The place at this offset, in bytes from the first. Tags and type stay unknown.
impl<A: Allocator> From<u32> for ErrorLocation<A> {
    ghost from_gives = { λ x l. view_of_location l ≡ only_offset x };

    fn from(offset: u32) -> ErrorLocation<A> {
        ErrorLocation::from(ByteOffset(u64::from(offset)))
    }
}

/// The place at this offset, in bytes from the first. Tags and type stay unknown.
impl<A: Allocator> From<u64> for ErrorLocation<A> {
    ghost from_gives = { λ x l. view_of_location l ≡ only_offset x };

    fn from(offset: u64) -> ErrorLocation<A> {
        ErrorLocation::from(ByteOffset(offset))
    }
}

/// The offset alone; an unknown place for the greatest number.
impl<A: Allocator> From<usize> for ErrorLocation<A> {
    ghost from_gives = { λ x l. view_of_location l ≡ only_small_offset x };

    fn from(offset: usize) -> ErrorLocation<A> {
        match ByteOffset::try_from(offset) {
            Ok(offset) => ErrorLocation::from(offset),
            Err(()) => ErrorLocation::unknown(),
        }
    }
}

/// The cursor's position alone.
impl<T: Drop, A: Allocator> From<Cursor<T>> for ErrorLocation<A> {
    ghost from_gives = { λ x l. view_of_location l ≡ only_offset (cursor_position x) };

    fn from(cursor: Cursor<T>) -> ErrorLocation<A> {
        ErrorLocation::from(ByteOffset(cursor.position()))
    }
}

/// The cursor's position alone.
impl<T, A: Allocator> From<&Cursor<T>> for ErrorLocation<A> {
    ghost from_gives = { λ x l. view_of_location l ≡ only_offset (cursor_position x.now) };

    fn from(cursor: &Cursor<T>) -> ErrorLocation<A> {
        ErrorLocation::from(ByteOffset(cursor.position()))
    }
}

/// The cursor's position alone. The cursor stays as it is.
impl<T, A: Allocator> From<&mut Cursor<T>> for ErrorLocation<A> {
    ghost from_gives = { λ x l. view_of_location l ≡ only_offset (cursor_position x.now) };

    fn from(cursor: &mut Cursor<T>) -> ErrorLocation<A>
        ensures place { view_of_location result ≡ only_offset (cursor_position cursor.old) }
        ensures unchanged { cursor.new ≡ cursor.old }
    {
        ErrorLocation::from(&*cursor)
    }
}

/// The same place, its parents' tags in memory of the same allocator. Fails if that runs out.
impl<A: Allocator + Clone> Clone for ErrorLocation<A> {
    ghost is_clone = { λ l m. view_of_location m ≡ view_of_location l };

    fn clone(&self) -> std::result::Result<ErrorLocation<A>, AllocError> {
        let parent_tags = match &self.parent_tags {
            Some(tags) => Some(Vec::from_slice(tags.allocator().clone()?, tags.as_slice())?),
            None => None,
        };
        Ok(ErrorLocation {
            offset: self.offset,
            parent_tags,
            tag: self.tag,
            typ: self.typ,
        })
    }
}

/// `Unknown`, or the known parts in this order, with a comma and a space between: the offset, the tags
/// around, the item's tag and its type.
impl<A: Allocator> fmt::Display for ErrorLocation<A> {
    ghost output = { λ l. Some (location_text (view_of_location l)) };

    fn fmt<W: fmt::Write>(&self, f: &mut fmt::Formatter<W>) -> fmt::Result {
        if self.is_unknown() {
            return f.write_str("Unknown");
        }
        let is_first = write_position(f, self.offset)?;
        let is_first = write_parents(f, is_first, self.parent_tags())?;
        let is_first = write_tag(f, is_first, self.tag)?;
        write_type(f, is_first, self.typ)?;
        Ok(())
    }
}

/// The error in words, with its types, lengths, codes and fields.
impl fmt::Display for MalformedTtlvError {
    fn fmt<W: fmt::Write>(&self, f: &mut fmt::Formatter<W>) -> fmt::Result {
        match self {
            MalformedTtlvError::InvalidType(code) => write!(f, "invalid type 0x{code:02X}"),
            MalformedTtlvError::InvalidLength {
                expected,
                actual,
                typ,
            } => write!(f, "length {actual} of {typ} where {expected} is expected"),
            MalformedTtlvError::InvalidValue { typ } => write!(f, "invalid value of {typ}"),
            MalformedTtlvError::Overflow { field_end } => {
                let end = field_end.0;
                write!(
                    f,
                    "an item passes the end at {end} of the structure around it"
                )
            }
            MalformedTtlvError::UnexpectedTtlvField { expected, actual } => {
                write!(f, "field {actual} where {expected} is expected")
            }
            MalformedTtlvError::UnexpectedType { expected, actual } => {
                write!(f, "type {actual} where {expected} is expected")
            }
            MalformedTtlvError::UnsupportedType(code) => {
                write!(f, "unsupported type 0x{code:02X}")
            }
            MalformedTtlvError::UnknownStructureLength => f.write_str("unknown structure length"),
        }
    }
}

/// The error in words, with its names, tags and types.
impl<A: Allocator> fmt::Display for SerdeError<A> {
    fn fmt<W: fmt::Write>(&self, f: &mut fmt::Formatter<W>) -> fmt::Result {
        match self {
            SerdeError::InvalidVariant(name) => write!(f, "the variant {name} is no number"),
            SerdeError::InvalidVariantMatcherSyntax(name) => {
                write!(f, "the variant {name} is no rule")
            }
            SerdeError::InvalidTag(name) => write!(f, "the name {name} is no tag"),
            SerdeError::MissingIdentifier => f.write_str("an item in a struct without fields"),
            SerdeError::Other(words) => write!(f, "{words}"),
            SerdeError::UnexpectedTag { expected, actual } => {
                write!(f, "tag {actual} where {expected} is expected")
            }
            SerdeError::UnexpectedType { expected, actual } => {
                write!(f, "type {actual} where {expected} is expected")
            }
            SerdeError::UnsupportedRustType(name) => write!(f, "values of {name} aren't written"),
        }
    }
}

/// The kind in words, and the place in brackets, except for OutOfMemory and ResponseSizeExceedsLimit.
impl<A: Allocator> fmt::Display for Error<A> {
    fn fmt<W: fmt::Write>(&self, f: &mut fmt::Formatter<W>) -> fmt::Result {
        let location = &self.location;
        match &self.kind {
            ErrorKind::IoError(e) => write!(f, "IO error {e} (at {location})"),
            ErrorKind::ResponseSizeExceedsLimit(size) => {
                write!(f, "Response size {size} exceeds the configured limit")
            }
            ErrorKind::MalformedTtlv(e) => write!(f, "Malformed TTLV: {e} (at {location})"),
            ErrorKind::SerdeError(e) => write!(f, "Serde error : {e} (at {location})"),
            ErrorKind::OutOfMemory => f.write_str("Out of memory"),
            ErrorKind::LengthOverflow => write!(f, "Length overflow (at {location})"),
        }
    }
}

impl<A: Allocator> std::error::Error for Error<A> {}
