//! Why a text is not read as a message.

ghost use Rattle.std.specs.Prelude.{◌≡◌, ◌+◌, ◌<◌, ◌^◌};
ghost use Rattle.kmip_ttlv_json.specs.declared.failure.JsonError.TheVariants.{OutOfMemory};
ghost use Rattle.kmip_ttlv_json.specs.Readings.{error_words, error_offset, moved};

use std::alloc::AllocError;

/// What is wrong with the JSON of an item.
#[derive(Clone, Copy, Debug, PartialEq, Eq)]
pub enum BadMember {
    /// It is no object whose members are `tag`, `type` and `value`, or these but `type`.
    Members,
    /// Its tag is neither the normalized name of one nor `0x` and six hexadecimal digits.
    Tag,
    /// Its type is none of the ten names.
    Typ,
    /// Its value is none of its type.
    Value,
}

/// An item that isn't one.
#[derive(Clone, Copy)]
pub struct BadItem {
    /// What is wrong with it.
    pub bad: BadMember,
    /// How many tokens are in front of it.
    pub at: usize,
}

/// Why a text is not read as a message. Offsets are in bytes from the text's first.
#[derive(Clone, Copy, Debug, PartialEq, Eq)]
pub enum JsonError {
    /// It is not JSON: where the first token begins that can't stand there, or the text's length if it ends too early. A comma
    /// behind a value and a colon behind a text are no tokens, others are; the name of a member is one with its colon.
    NotJson { offset: usize },
    /// It nests more than 127 deep: where the first bracket is that does.
    TooDeep { offset: usize },
    /// It is not the JSON of an item: what is wrong with the first item, in document order, that isn't one, and where this begins.
    /// A structure with a wrong item in it is right itself.
    NotItem { bad: BadMember, offset: usize },
    /// Its item, which begins there, is no Structure, so it is no message.
    NotStructure { offset: usize },
    /// A length in its item, which begins there, has more than four bytes, so it has no encoding.
    TooLong { offset: usize },
    /// An allocation failed, so nothing is said of the text.
    OutOfMemory,
}

impl JsonError {
    /// What is wrong, in words, without the place.
    pub fn words(self) -> &'static str
        ensures { result.now ≡ error_words self }
    {
        match self {
            JsonError::NotJson { .. } => "not JSON",
            JsonError::TooDeep { .. } => "nested more than 127 deep",
            JsonError::NotItem {
                bad: BadMember::Members,
                ..
            } => "an item without exactly tag, type and value",
            JsonError::NotItem {
                bad: BadMember::Tag,
                ..
            } => "a tag is not 0x and six hexadecimal digits",
            JsonError::NotItem {
                bad: BadMember::Typ,
                ..
            } => "the name of a type is unknown",
            JsonError::NotItem {
                bad: BadMember::Value,
                ..
            } => "a value is none of its type",
            JsonError::NotStructure { .. } => "the root is no Structure",
            JsonError::TooLong { .. } => "a length has more than four bytes",
            JsonError::OutOfMemory => "out of memory",
        }
    }

    /// Where it is, in bytes from the text's first: 0 if memory ran out.
    pub fn offset(self) -> usize
        ensures { result ≡ error_offset self }
    {
        match self {
            JsonError::NotJson { offset }
            | JsonError::TooDeep { offset }
            | JsonError::NotItem { offset, .. }
            | JsonError::NotStructure { offset }
            | JsonError::TooLong { offset } => offset,
            JsonError::OutOfMemory => 0,
        }
    }

    /// The same in a text that has so many bytes more in front.
    pub fn moved(self, count: usize) -> JsonError
        requires { error_offset self + count < 2 ^ 64 }
        ensures { result ≡ moved count self }
    {
        let offset = self.offset() + count;
        match self {
            JsonError::NotJson { .. } => JsonError::NotJson { offset },
            JsonError::TooDeep { .. } => JsonError::TooDeep { offset },
            JsonError::NotItem { bad, .. } => JsonError::NotItem { bad, offset },
            JsonError::NotStructure { .. } => JsonError::NotStructure { offset },
            JsonError::TooLong { .. } => JsonError::TooLong { offset },
            JsonError::OutOfMemory => self,
        }
    }
}

impl From<AllocError> for JsonError {
    ghost from_gives = { λ _ e. e ≡ OutOfMemory };

    fn from(_: AllocError) -> JsonError {
        JsonError::OutOfMemory
    }
}
