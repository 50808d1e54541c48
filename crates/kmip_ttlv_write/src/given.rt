//! The items to write, in any form that gives them; and why they can't be written.

ghost use Rattle.std.specs.Prelude.{◌≡◌};
ghost use Rattle.kmip_ttlv_write.specs.declared.given.GivenItem.{GivenItem as AnItem};
ghost use Rattle.kmip_ttlv_write.specs.declared.given.WriteError.TheVariants.{OutOfMemory};
ghost use Rattle.kmip_ttlv_write.specs.GivenItems.{given_of};

use kmip_ttlv_items::FoundItem;
use std::alloc::AllocError;

/// An item to write, with its tag and type as numbers.
///
/// ```
/// let item = GivenItem { offset: 8, depth: 1, tag: 0x42_006A, typ: 2, length: 4 }; // value: lent[16..20]
/// ```
#[derive(Clone, Copy, Debug, PartialEq, Eq)]
pub struct GivenItem {
    /// The offset of its value in the lent bytes, less eight: the offset of its header if the lent bytes are a message.
    /// Ignored for a Structure.
    pub offset: usize,
    /// How many structures it is in. It belongs to the last Structure before it of one depth less.
    pub depth: usize,
    /// Its tag, below 2^24.
    pub tag: u32,
    /// The code of its type, 1 to 10 (9.1.1.2).
    pub typ: u32,
    /// The length of its value, in bytes, without padding. Ignored for a Structure.
    pub length: u32,
}

/// A type that a caller has items in.
pub trait GiveItem: Copy {
    /// The item that it stands for.
    ghost given: { Self → AnItem };

    /// Converts it to the item to write.
    fn give(self) -> GivenItem
        ensures { result ≡ given self };
}

impl GiveItem for GivenItem {
    ghost given = { λ item. item };

    fn give(self) -> GivenItem {
        self
    }
}

/// An item that was found, with its value where it was found.
impl GiveItem for FoundItem {
    ghost given = { given_of };

    fn give(self) -> GivenItem {
        GivenItem {
            offset: self.offset,
            depth: self.depth,
            tag: *self.tag,
            typ: u32::from(self.typ.code()),
            length: self.length,
        }
    }
}

/// Why an item can't be written. If several kinds apply, the first of them is returned.
#[derive(Clone, Copy, Debug, PartialEq, Eq)]
pub enum BadKind {
    /// Its depth is more than the number of open structures: no Structure before it contains it.
    NotInside,
    /// Its tag is 2^24 or more.
    LongTag,
    /// The code of its type is unknown (9.1.1.2).
    UnknownType,
    /// No value of its type has this length (9.1.1.3).
    WrongLength,
    /// Its value goes past the end of the lent bytes.
    Outside,
    /// Its value is invalid for its type: a Boolean that is neither 0 nor 1, a text that is not UTF-8 (9.1.1.4).
    InvalidValue,
    /// With it, an enclosing Structure has 2^32 bytes of content or more, or all items take 2^64 bytes or more.
    TooLong,
}

/// The first item that can't be written.
#[derive(Clone, Copy, Debug, PartialEq, Eq)]
pub struct BadItem {
    /// The index of the item, from 0.
    pub index: usize,
    /// What is wrong with it.
    pub kind: BadKind,
}

/// Why items were not written.
#[derive(Clone, Copy, Debug, PartialEq, Eq)]
pub enum WriteError {
    /// An item can't be written.
    Bad(BadItem),
    /// An allocation failed: memory for the bytes ran out.
    OutOfMemory,
}

impl From<AllocError> for WriteError {
    ghost from_gives = { λ _ e. e ≡ OutOfMemory };

    fn from(_: AllocError) -> WriteError {
        WriteError::OutOfMemory
    }
}
