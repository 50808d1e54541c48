//! The characters of a message that XML can't hold.

ghost use Rattle.std.specs.Prelude.{◌≡◌, ◌≢◌, true, IfOk};
ghost use Rattle.std.specs.List.{AllByRecursion};
ghost use Rattle.kmip_ttlv_types.specs.declared.typ.TtlvType.TheVariants.{Structure as AStructure};
ghost use Rattle.kmip_ttlv_types.specs.Leaves.{is_valid};
ghost use Rattle.kmip_ttlv_items.specs.ItemWalks.{content_at};
ghost use Rattle.kmip_ttlv_json.specs.Printings.{IsThere};
ghost use Rattle.kmip_ttlv_xml.specs.XmlWritings.{unheld_of, first_unheld};

use kmip_ttlv_items::FoundItem;
use kmip_ttlv_types::TtlvType;
use plain_xml::wrong_offset;
use std::alloc::{AllocError, Allocator};
use std::str;

/// The value of a leaf.
pub fn content_of<'m>(message: &'m [u8], item: &FoundItem) -> &'m [u8]
    requires there { IsThere message.now item.now }
    requires leaf { item.now.typ ≢ AStructure }
    ensures is { result.now ≡ content_at message.now item.now.offset }
    ensures valid { is_valid item.now.typ result.now ≡ true }
{
    &message[item.offset + 8..item.offset + 8 + item.length as usize]
}

// Where the first character of an item's text is that XML can't hold.
fn unheld_of<A: Allocator + Copy>(
    alloc: A,
    message: &[u8],
    item: &FoundItem,
) -> Result<Option<usize>, AllocError>
    requires { IsThere message.now item.now }
    ensures { IfOk result (λ o. o ≡ unheld_of message.now item.now) }
{
    if item.typ != TtlvType::TextString {
        return Ok(None);
    }
    let text = unsafe { str::from_utf8_unchecked(content_of(message, item)) };
    match wrong_offset(alloc, text)? {
        Some(offset) => Ok(Some(item.offset + 8 + offset)),
        None => Ok(None),
    }
}

/// Where in a message the first character of these items is that XML can't hold.
pub fn first_unheld<A: Allocator + Copy>(
    alloc: A,
    items: &[FoundItem],
    message: &[u8],
) -> Result<Option<usize>, AllocError>
    requires { AllByRecursion (IsThere message.now) items.now }
    ensures { IfOk result (λ o. o ≡ first_unheld message.now items.now) }
{
    let mut rest = items;
    'items: while let [item, more @ ..] = rest {
        let found = unheld_of(alloc, message, item)?;
        if found.is_some() {
            return Ok(found);
        }
        rest = more;
    }
    Ok(None)
}
