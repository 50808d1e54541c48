//! Attributes: an Attribute Name names a tag, by which the Attribute Value behind it in its structure is named; and an
//! Attribute Reference may be the number of a tag.

ghost use Rattle.std.specs.Prelude.{◌≡◌, true, option_map};
ghost use Rattle.kmip_ttlv_types.specs.declared.typ.TtlvType.TheVariants.{TextString as ATextString};
ghost use Rattle.kmip_ttlv_items.specs.ItemWalks.{content_at};
ghost use Rattle.ttlv_run.specs.Attributes.{is_printed, attribute_named, still_inside, attribute_after, naming_tag, name_of_tag, enumeration_name};
ghost use Rattle.ttlv_run.specs.Items.{IsGood};
ghost use Rattle.ttlv_run.specs.Texts.{names_of};

use crate::job::{Names, Values};
use crate::masks::value_named;
use kmip_ttlv_items::FoundItem;
use kmip_ttlv_types::{TtlvTag, TtlvType};
use std::alloc::Allocator;
use std::str;

/// The tag of an attribute's name.
const ATTRIBUTE_NAME: u32 = 0x42_000A;

/// The tag of an attribute's value.
const ATTRIBUTE_VALUE: u32 = 0x42_000B;

/// The tag of a reference to an attribute, whose value may be the attribute's tag.
const ATTRIBUTE_REFERENCE: u32 = 0x42_013B;

/// The attribute that an Attribute Name names.
#[derive(Clone, Copy)]
pub struct Attribute {
    /// How many structures the name is in.
    pub depth: usize,
    /// The tag with this name.
    pub tag: TtlvTag,
}

// Whether a value is printed.
fn is_printed(values: Values) -> bool
    ensures { result ≡ is_printed values }
{
    match values {
        Values::Hidden | Values::Secret => false,
        Values::Escaped | Values::Lasting | Values::Raw => true,
    }
}

// The tag of a name, which is a text.
fn tag_of_name<A: Allocator>(
    names: &Names<'_, A>,
    bytes: &[u8],
    item: &FoundItem,
) -> Option<TtlvTag>
    requires good { IsGood bytes.now item.now }
    requires text { item.now.typ ≡ ATextString }
    ensures { result ≡ (names_of names.now).named (content_at bytes.now item.now.offset) }
{
    let content = &bytes[item.offset + 8..item.offset + 8 + item.length as usize];
    let name = unsafe { str::from_utf8_unchecked(content) };
    names.by_name.get(name).copied()
}

// The attribute that an item names, if it is a text.
fn attribute_named<A: Allocator>(
    names: &Names<'_, A>,
    bytes: &[u8],
    item: &FoundItem,
) -> Option<Attribute>
    requires { IsGood bytes.now item.now }
    ensures { result ≡ attribute_named (names_of names.now).named item.now.typ item.now.depth
        (content_at bytes.now item.now.offset) }
{
    if item.typ != TtlvType::TextString {
        return None;
    }
    match tag_of_name(names, bytes, item) {
        Some(tag) => Some(Attribute {
            depth: item.depth,
            tag,
        }),
        None => None,
    }
}

// An attribute, while a walk is in the structure of its name.
fn still_inside(depth: usize, attribute: Option<Attribute>) -> Option<Attribute>
    ensures { result ≡ still_inside depth attribute }
{
    match attribute {
        Some(attribute) => {
            if depth < attribute.depth {
                None
            } else {
                Some(attribute)
            }
        }
        None => None,
    }
}

/// The attribute that the last Attribute Name names, if that is printed, while a walk is in its structure: where one more
/// item was met.
pub fn attribute_after<A: Allocator>(
    names: &Names<'_, A>,
    values: Values,
    bytes: &[u8],
    last: Option<Attribute>,
    item: &FoundItem,
) -> Option<Attribute>
    requires { IsGood bytes.now item.now }
    ensures { result ≡ attribute_after (names_of names.now).named values bytes.now last item.now }
{
    if *item.tag != ATTRIBUTE_NAME {
        return still_inside(item.depth, last);
    }
    if !is_printed(values) {
        return None;
    }
    attribute_named(names, bytes, item)
}

/// The tag by which the value of an item is named: of an Attribute Value that of the attribute, if its name is in the same
/// structure; of any other item its own.
pub fn naming_tag(attribute: &Option<Attribute>, item: &FoundItem) -> TtlvTag
    ensures { result ≡ naming_tag attribute.now item.now }
{
    match attribute {
        Some(attribute) if *item.tag == ATTRIBUTE_VALUE && item.depth == attribute.depth => {
            attribute.tag
        }
        _ => item.tag,
    }
}

// The name of the tag that a number is, if it is one.
fn name_of_tag<'n, A: Allocator>(names: &Names<'n, A>, number: u32) -> Option<&'n str>
    ensures { option_map (λ s. s.now) result ≡ name_of_tag (names_of names.now).tags number }
{
    match TtlvTag::from_number(number) {
        Some(tag) => names.tags.get(&tag).copied(),
        None => None,
    }
}

/// The name of an enumeration's value, where there is one: as its tag has it, or, of a reference to an attribute, the name
/// of the tag.
pub fn enumeration_name<'n, A: Allocator>(
    names: &Names<'n, A>,
    tag: TtlvTag,
    value: u32,
) -> Option<&'n str>
    ensures { option_map (λ s. s.now) result
        ≡ enumeration_name (names_of names.now).values (names_of names.now).tags tag value }
{
    match value_named(names, names.values.get(&tag).copied(), tag, value) {
        Some(name) => Some(name),
        None => {
            if *tag == ATTRIBUTE_REFERENCE {
                name_of_tag(names, value)
            } else {
                None
            }
        }
    }
}
