//! An Enumeration of any number, as one type for all of them: each is this type at its own tag, with constants for the numbers
//! that have a name.

ghost use Rattle.std.specs.Prelude.{◌≡◌};
ghost use Rattle.kmip_ttlv_parts.specs.Enumerations.{enumeration_value, IsEnumeration};
ghost use Rattle.kmip_ttlv_parts.specs.Returns.{text_of_number};

use crate::sound::Sound;
use kmip_ttlv_base::parts;
use kmip_ttlv_base::shape::Serialize;
use kmip_ttlv_base::visit::{Leaf, Visitor};
use kmip_ttlv_reader::number_text::NumberText;
use std::alloc::AllocError;
use std::fmt;

/// An Enumeration of this tag: any number of four bytes, those of vendors and of later versions too. What is encoded and what
/// is decoded of it is its number. By `==` two are equal if their numbers are.
///
/// ```
/// pub type ObjectType = Enumeration<0x420057>;
///
/// pub mod object_type {
///     pub const SYMMETRIC_KEY: super::ObjectType = super::ObjectType { number: 0x00000002 };
/// }
///
/// match object.object_type {
///     object_type::SYMMETRIC_KEY => ..,
///     ObjectType { number } => ..,
/// }
/// ```
#[derive(Clone, Copy, PartialEq, Eq)]
pub struct Enumeration<const TAG: u32> {
    /// Its number.
    pub number: u32,
}

impl<const TAG: u32> Enumeration<TAG> {
    /// Its number as the text by which a rule names it: `0x` and eight digits.
    pub fn number_text(self) -> NumberText
        ensures { result.digits ≡ text_of_number self.entry.number }
    {
        NumberText::new(&self.number.to_be_bytes())
    }
}

/// Its number, as `0x` and eight digits.
impl<const TAG: u32> fmt::Debug for Enumeration<TAG> {
    fn fmt<W: fmt::Write>(&self, f: &mut fmt::Formatter<W>) -> fmt::Result {
        write!(f, "0x{:08X}", self.number)
    }
}

impl<const TAG: u32> Serialize for Enumeration<TAG> {
    ghost stated = { enumeration_value };

    fn visit<V: Visitor>(&self, visitor: &mut V) -> Result<(), AllocError> {
        parts::tagged(visitor, TAG, Leaf::U32(self.number))
    }
}

impl<const TAG: u32> Sound for Enumeration<TAG> {
    ghost IsSound = { IsEnumeration };

    fn is_sound(&self) -> bool {
        self.number.is_sound()
    }
}
