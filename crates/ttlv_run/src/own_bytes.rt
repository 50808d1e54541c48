//! The bytes of an item, as they stand in front of its line.

ghost use Rattle.std.specs.Prelude.{◌≡◌, ◌≢◌, ◌+◌, ◌≤◌, ◌++◌, codes, take, drop, length, OnOk, OnErr};
ghost use Rattle.kmip_ttlv_types.specs.declared.typ.TtlvType.TheVariants.{Structure as TheStructure, ByteString as AByteString};
ghost use Rattle.kmip_ttlv_items.specs.ItemWalks.{content_at};
ghost use Rattle.kmip_ttlv_util.specs.Pretty.{value_shown};
ghost use Rattle.ttlv_run.specs.Items.{IsGood};
ghost use Rattle.ttlv_run.specs.Texts.{bytes_front, content_bytes, own_bytes, bytes_part};

use crate::job::Look;
use kmip_ttlv_items::FoundItem;
use kmip_ttlv_types::TtlvType;
use kmip_ttlv_util::{TextSink, push_value};

/// The value of an item; nothing of a structure, which has none of its own.
pub fn content_of<'b>(bytes: &'b [u8], item: &FoundItem) -> &'b [u8]
    requires { IsGood bytes.now item.now }
    ensures { item.now.typ ≢ TheStructure → result.now ≡ content_at bytes.now item.now.offset }
{
    if item.typ == TtlvType::Structure {
        return &[];
    }
    &bytes[item.offset + 8..item.offset + 8 + item.length as usize]
}

// The header of an item.
fn header_of<'b>(bytes: &'b [u8], item: &FoundItem) -> &'b [u8]
    requires { item.now.offset + 8 ≤ length bytes.now }
    ensures { result.now ≡ take 8 (drop item.now.offset bytes.now) }
{
    &bytes[item.offset..item.offset + 8]
}

// Adds a string of bytes in hexadecimal, as many as may be printed, and `..` where that is a part of them.
fn push_front<S: TextSink>(
    out: &mut S,
    width: Option<usize>,
    content: &[u8],
) -> Result<(), S::Error>
    ensures ok { OnOk result (S.adds out.old (bytes_front width content.now) out.new) }
    ensures err { OnErr result (S.breaks out.old (bytes_front width content.now) out.new) }
{
    let Some(width) = width else {
        return push_value(out, TtlvType::ByteString, content);
    };
    if content.len() <= width {
        return push_value(out, TtlvType::ByteString, content);
    }
    push_value(out, TtlvType::ByteString, &content[..width])?;
    out.push_str("..")
}

// Adds the value of a leaf in hexadecimal, as much as may be printed.
fn push_content_bytes<S: TextSink>(
    out: &mut S,
    width: Option<usize>,
    typ: TtlvType,
    content: &[u8],
) -> Result<(), S::Error>
    ensures ok { OnOk result (S.adds out.old (content_bytes width typ content.now) out.new) }
    ensures err { OnErr result (S.breaks out.old (content_bytes width typ content.now) out.new) }
{
    match typ {
        TtlvType::Structure => Ok(()),
        _ => push_front(out, width, content),
    }
}

// Adds the bytes of an item and a tab.
fn push_bytes<S: TextSink>(
    out: &mut S,
    width: Option<usize>,
    bytes: &[u8],
    item: &FoundItem,
) -> Result<(), S::Error>
    requires { IsGood bytes.now item.now }
    ensures ok { OnOk result (S.adds out.old (own_bytes width bytes.now item.now) out.new) }
    ensures err { OnErr result (S.breaks out.old (own_bytes width bytes.now item.now) out.new) }
{
    push_value(out, TtlvType::ByteString, header_of(bytes, item))?;
    push_content_bytes(out, width, item.typ, content_of(bytes, item))?;
    out.push_str("\t")
}

/// Adds the bytes of an item and a tab, where they are printed.
///
/// It fails where the sink fails.
pub fn push_own_bytes<S: TextSink>(
    out: &mut S,
    look: &Look<'_>,
    bytes: &[u8],
    item: &FoundItem,
) -> Result<(), S::Error>
    requires { IsGood bytes.now item.now }
    ensures ok { OnOk result (S.adds out.old (bytes_part look.now.bytes look.now.width bytes.now item.now) out.new) }
    ensures err { OnErr result (S.breaks out.old (bytes_part look.now.bytes look.now.width bytes.now item.now) out.new) }
{
    if look.bytes {
        return push_bytes(out, look.width, bytes, item);
    }
    Ok(())
}
