//! The call that writes items as a message.

ghost use Rattle.std.specs.Prelude.{◌≡◌};
ghost use Rattle.kmip_ttlv_c.specs.LentWrites.{c_given, c_bad_kind, c_bad, AnswersWrite};

use crate::items::KmipTtlvItem;
use crate::status::{MALFORMED, NO_ROOM, OK};
use kmip_ttlv_write::{BadItem, BadKind, GiveItem, GivenItem, write_into};

/// The first item that can't be written.
#[repr(C)]
#[derive(Clone, Copy, Debug)]
pub struct KmipTtlvBadItem {
    /// The index of the item, from 0; 0 for no bad item.
    pub index: usize,
    /// The number of what is wrong with it; 0 for nothing.
    pub kind: u32,
}

impl GiveItem for KmipTtlvItem {
    ghost given = { c_given };

    fn give(self) -> GivenItem {
        GivenItem {
            offset: self.offset,
            depth: self.depth,
            tag: self.tag,
            typ: self.typ,
            length: self.length,
        }
    }
}

/// The number in C of what is wrong with an item; what faults share has the same number, the others follow on.
fn kind_of(kind: BadKind) -> u32
    ensures { result ≡ c_bad_kind kind }
{
    match kind {
        BadKind::UnknownType => 3,
        BadKind::WrongLength => 5,
        BadKind::InvalidValue => 7,
        BadKind::NotInside => 9,
        BadKind::LongTag => 10,
        BadKind::Outside => 11,
        BadKind::TooLong => 12,
    }
}

/// A bad item in the form for C.
fn bad_of(bad: Option<BadItem>) -> KmipTtlvBadItem
    ensures { result ≡ c_bad bad }
{
    match bad {
        None => KmipTtlvBadItem { index: 0, kind: 0 },
        Some(bad) => KmipTtlvBadItem {
            index: bad.index,
            kind: kind_of(bad.kind),
        },
    }
}

/// Writes items as canonical bytes, or sets the first that can't be written.
#[unsafe(no_mangle)]
pub extern "C" fn kmip_ttlv_write(
    items: &[KmipTtlvItem],
    bytes: &[u8],
    out: &mut [u8],
    length: &mut usize,
    bad: &mut KmipTtlvBadItem,
) -> u32
    ensures { AnswersWrite items.now bytes.now result length.new bad.new out.old out.new }
{
    *length = 0;
    *bad = bad_of(None);
    let room = out.len();
    match write_into(items, bytes, out) {
        Ok(len) => *length = len,
        Err(found) => {
            *bad = bad_of(Some(found));
            return MALFORMED;
        }
    }
    if *length > room {
        return NO_ROOM;
    }
    OK
}
