//! The pending tag of the next item, and the place that encoding has reached.

ghost use Rattle.std.specs.Prelude.{◌≡◌};
ghost use Rattle.kmip_ttlv_ser.specs.NameTexts.{text_of};
ghost use Rattle.kmip_ttlv_ser.specs.WrittenItems.{take_tag, pending_tag, pending_after};
ghost use Rattle.kmip_ttlv_ser.specs.Faults.{pending_len};

use crate::names::{Name, override_name, tag_of};
use kmip_ttlv_types::TtlvTag;

/// The tag that the next item gets.
#[derive(Clone, Copy)]
pub enum PendingTag {
    /// No tag is pending.
    Nothing,
    /// A tag under which no name can be taken.
    Plain(TtlvTag),
    /// A tag that replaces the tag of the next name.
    Overriding(TtlvTag),
}

impl PendingTag {
    /// The tag of a leaf.
    #[inline(always)]
    pub fn tag(&self) -> Option<TtlvTag>
        ensures { result ≡ pending_tag self.now }
    {
        match self {
            PendingTag::Nothing => None,
            PendingTag::Plain(tag) => Some(*tag),
            PendingTag::Overriding(tag) => Some(*tag),
        }
    }

    /// How many bytes the pending tag takes, which come before the next field.
    #[inline(always)]
    pub fn len(&self) -> u64
        ensures { result ≡ pending_len self.now }
    {
        match self {
            PendingTag::Nothing => 0,
            PendingTag::Plain(_) => 3,
            PendingTag::Overriding(_) => 3,
        }
    }

    /// The tag that a name gives when it is taken, if it can be.
    #[tactic(auto, unfolding(crate::specs::WrittenItems::take_tag))]
    #[inline(always)]
    pub fn take(&self, name: Name) -> Option<TtlvTag>
        ensures { result ≡ take_tag self.now (text_of name) }
    {
        let named = tag_of(name)?;
        match self {
            PendingTag::Nothing => Some(named),
            PendingTag::Plain(_) => None,
            PendingTag::Overriding(tag) => Some(*tag),
        }
    }

    /// The pending tag of a wrapper's content: the tag that was taken. It overrides if no tag was pending before
    /// and the wrapper's name begins with `Override:`.
    #[tactic(auto, unfolding(crate::specs::WrittenItems::pending_after))]
    #[inline(always)]
    pub fn over(&self, name: &'static str, tag: TtlvTag) -> PendingTag
        ensures { result ≡ pending_after self.now name.now tag }
    {
        match self {
            PendingTag::Nothing => match override_name(name) {
                Some(_) => PendingTag::Overriding(tag),
                None => PendingTag::Plain(tag),
            },
            _ => PendingTag::Plain(tag),
        }
    }
}

/// The place that encoding has reached: the number of bytes written, and whether the last field written is a
/// structure's length.
#[derive(Clone, Copy)]
pub struct Place {
    pub offset: u64,
    pub opened: bool,
}
