//! What a walk returns: items, and the first fault.

ghost use Rattle.std.specs.Prelude.{◌≡◌};
ghost use Rattle.kmip_ttlv_items.specs.declared.found.FoundItem.{FoundItem as AnItem};

use kmip_ttlv_types::{TtlvTag, TtlvType};

/// An item of a message. For a Structure only the header was read, not yet the items in it.
#[derive(Clone, Copy, Debug, PartialEq, Eq)]
pub struct FoundItem {
    /// The offset of its header, in bytes from the first. Its value begins eight bytes later.
    pub offset: usize,
    /// How many structures it is in: 0 for the root.
    pub depth: usize,
    /// The tag in its header.
    pub tag: TtlvTag,
    /// The type whose code is in its header.
    pub typ: TtlvType,
    /// The length of its value as the header states it, in bytes, without padding.
    pub length: u32,
}

/// A type that a caller stores found items as. [`FoundItem`] stores all of an item.
pub trait FromFoundItem: Copy {
    /// The stored form of an item.
    ghost converted: { AnItem → Self };

    /// Converts an item to its stored form.
    fn from_item(item: FoundItem) -> Self
        ensures { result ≡ converted item };
}

impl FromFoundItem for FoundItem {
    ghost converted = { λ item. item };

    fn from_item(item: FoundItem) -> FoundItem {
        item
    }
}

/// Why bytes are not one whole well-formed message.
#[derive(Clone, Copy, Debug, PartialEq, Eq)]
pub enum FaultKind {
    /// The bytes end before the root does, within this item: within its header, or within the value or the
    /// padding of a leaf.
    Cut,
    /// The root is no Structure.
    NoStructure,
    /// The type code is unknown (9.1.1.2).
    UnknownType,
    /// Fewer than eight bytes are left in the enclosing Structure, too few for a header.
    PartialHeader,
    /// No value of the type has this length (9.1.1.3).
    WrongLength,
    /// The item, with its padding, goes past the end of the enclosing Structure.
    Overlong,
    /// The content is no value of the type: a Boolean that is neither 0 nor 1, or a text that is not
    /// UTF-8 (9.1.1.4).
    InvalidValue,
    /// More bytes follow the root.
    Surplus,
}

/// The first fault in document order.
#[derive(Clone, Copy, Debug, PartialEq, Eq)]
pub struct Fault {
    /// The offset of the bad item, or of the first surplus byte, in bytes from the first.
    pub offset: usize,
    /// What is wrong there.
    pub kind: FaultKind,
}

/// How a walk ended.
#[derive(Clone, Copy, Debug, PartialEq, Eq)]
pub struct WalkEnd {
    /// How many items were found, whether or not there was room for them.
    pub count: usize,
    /// The fault that stopped it; none if the bytes are one whole message.
    pub fault: Option<Fault>,
}

/// What a step of a walk returns.
#[derive(Clone, Copy, Debug, PartialEq, Eq)]
pub enum Step {
    /// An item that the walk met: a leaf with all its bytes, or the header of a structure.
    Item(FoundItem),
    /// The end, with the fault that stopped the walk; none if the bytes are one whole message.
    End(Option<Fault>),
}
