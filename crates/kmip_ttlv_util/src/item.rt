//! The item at an offset of any bytes, if it can be read. Nothing is allocated: values are checked
//! in the bytes themselves.

ghost use Rattle.std.specs.Prelude.{◌≡◌, ◌≤◌, true, length, None, IfSome, IfNone};
ghost use Rattle.kmip_ttlv_types.specs.Leaves.{is_valid};
ghost use Rattle.kmip_ttlv_util.specs.Entries.{detail_of, entry_at, detail_value, type_read};
ghost use Rattle.kmip_ttlv_util.specs.Walks.{IsItem};

use kmip_ttlv_types::numbers::number_of_four;
use kmip_ttlv_types::places::{content_at, end_of, is_valid, length_at, tag_at, type_at};
use kmip_ttlv_types::{TtlvTag, TtlvType};

/// An item that can be read: the header of a structure, or a whole leaf with its padding.
#[derive(Clone, Copy)]
pub struct Item<'b> {
    /// The tag in its header.
    pub tag: TtlvTag,
    /// The type whose code is in its header.
    pub typ: TtlvType,
    /// The length that its header states, in bytes.
    pub length: u32,
    /// The value of an Enumeration.
    pub value: Option<u32>,
    /// The content of a leaf, which is valid; empty for a structure.
    pub content: &'b [u8],
    /// The offset of the next item.
    pub next: usize,
}

// The value of valid content, if the type is Enumeration.
#[inline(always)]
fn value_of(typ: TtlvType, content: &[u8]) -> Option<u32>
    requires { is_valid typ content.now ≡ true }
    ensures { result ≡ detail_value typ (detail_of typ content.now) }
{
    if typ != TtlvType::Enumeration {
        return None;
    }
    Some(number_of_four(content))
}

/// The item at this offset, if it can be read.
#[inline(always)]
pub fn item_at(bytes: &[u8], pos: usize) -> Option<Item<'_>>
    requires { pos ≤ length bytes.now }
    ensures some { IfSome result (λ i. IsItem bytes.now pos i) }
    ensures none { IfNone result (type_read (length bytes.now) pos (entry_at bytes.now pos) ≡ None) }
{
    if bytes.len() - pos < 8 {
        return None;
    }
    let Some(typ) = type_at(bytes, pos) else {
        return None;
    };
    let tag = tag_at(bytes, pos);
    let length = length_at(bytes, pos);
    if typ == TtlvType::Structure {
        return Some(Item {
            tag,
            typ,
            length,
            value: None,
            content: &[],
            next: pos + 8,
        });
    }
    let Some(next) = end_of(bytes, pos, typ, length) else {
        return None;
    };
    let content = content_at(bytes, pos, length);
    if !is_valid(typ, content) {
        return None;
    }
    Some(Item {
        tag,
        typ,
        length,
        value: value_of(typ, content),
        content,
        next,
    })
}
