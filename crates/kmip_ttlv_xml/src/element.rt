//! The item that an element is, without the elements in it.

ghost use Rattle.std.specs.Prelude.{◌≡◌, map, string_bytes, option_map, option_and_then, IfOk};
ghost use Rattle.kmip_ttlv_json.specs.JsonTrees.{valid_in};
ghost use Rattle.plain_xml.specs.Elements.{attribute_view};
ghost use Rattle.kmip_ttlv_xml.specs.declared.element.Stop.TheVariants.{NoMemory as IsNoMemory};
ghost use Rattle.kmip_ttlv_xml.specs.XmlItems.{leaf_in, leaf_of, typed_item, type_met, tag_met, item_of};
ghost use Rattle.kmip_ttlv_xml.specs.GivenElements.{Gives};

use crate::attribute::{are_known, attribute};
use crate::failure::BadElement;
use crate::value::content_of;
use kmip_ttlv_json::values::{tag_of, type_named};
use kmip_ttlv_types::places::is_valid;
use kmip_ttlv_types::{TtlvTag, TtlvType};
use kmip_words::LateWords;
use plain_xml::Element;
use std::alloc::{AllocError, Allocator};

/// An item without those in it.
#[derive(Drop)]
pub struct Item<A: Allocator> {
    pub tag: TtlvTag,
    pub typ: TtlvType,
    /// The value of a leaf; of a Structure nothing.
    pub content: Vec<u8, A>,
}

/// Why an element gives no item.
#[derive(Clone, Copy)]
pub enum Stop {
    NoMemory,
    Bad(BadElement),
}

impl From<AllocError> for Stop {
    ghost from_gives = { λ _ e. e ≡ IsNoMemory };

    fn from(_: AllocError) -> Stop {
        Stop::NoMemory
    }
}

// A leaf of this content, if it is valid for its type.
fn leaf_of<A: Allocator>(
    tag: TtlvTag,
    typ: TtlvType,
    content: Option<Vec<u8, A>>,
) -> Result<Item<A>, Stop>
    ensures { Gives result (leaf_of tag typ (option_map (λ v. v.items) content)) }
{
    let Some(content) = content else {
        return Err(Stop::Bad(BadElement::Value));
    };
    if !is_valid(typ, content.as_slice()) {
        return Err(Stop::Bad(BadElement::Value));
    }
    if content.len() > 0xFFFF_FFFF {
        return Err(Stop::Bad(BadElement::Long));
    }
    Ok(Item { tag, typ, content })
}

// An item by its type and the text of its value.
fn typed_item<A: Allocator + Copy>(
    alloc: A,
    words: &mut LateWords<A>,
    tag: TtlvTag,
    typ: Option<TtlvType>,
    value: Option<&str>,
) -> Result<Item<A>, Stop>
    ensures { Gives result (typed_item tag typ (option_map (λ s. s.now) value.entry)) }
{
    match (typ, value) {
        (None, _) => Err(Stop::Bad(BadElement::Typ)),
        (Some(TtlvType::Structure), None) => Ok(Item {
            tag,
            typ: TtlvType::Structure,
            content: Vec::new(alloc),
        }),
        (Some(TtlvType::Structure), Some(_)) | (Some(_), None) => {
            Err(Stop::Bad(BadElement::Attributes))
        }
        (Some(typ), Some(text)) => leaf_of(tag, typ, content_of(alloc, words, tag, typ, text)?),
    }
}

// The type that an attribute says: a Structure, where there is none.
fn type_met(typ: Option<&str>) -> Option<TtlvType>
    ensures { result ≡ type_met (option_map (λ s. s.now) typ.entry) }
{
    match typ {
        Some(typ) => type_named(typ),
        None => Some(TtlvType::Structure),
    }
}

// The tag of an element of this name, which may have an attribute for it.
fn tag_met<A: Allocator + Copy>(
    alloc: A,
    words: &mut LateWords<A>,
    name: &str,
    tag: Option<&str>,
) -> Result<Option<TtlvTag>, AllocError>
    ensures { IfOk result (λ o. o ≡ tag_met name.now (option_map (λ s. s.now) tag.entry)) }
{
    match tag {
        Some(tag) => {
            if name == "TTLV" {
                tag_of(alloc, words, Some(tag))
            } else {
                Ok(None)
            }
        }
        None => {
            if name == "TTLV" {
                Ok(None)
            } else {
                words.tag_of(alloc, name)
            }
        }
    }
}

/// The item that an element is.
#[tactic(auto, unfolding(crate::specs::XmlItems::item_of))]
pub fn item_of<A: Allocator + Copy>(
    alloc: A,
    words: &mut LateWords<A>,
    element: &Element<A>,
) -> Result<Item<A>, Stop>
    ensures { Gives result (item_of (string_bytes element.now.name) (map attribute_view element.now.attributes.items)) }
{
    let attributes = element.attributes.as_slice();
    if !are_known(attributes) {
        return Err(Stop::Bad(BadElement::Attributes));
    }
    let Some(tag) = tag_met(
        alloc,
        words,
        element.name.as_str(),
        attribute(attributes, "tag"),
    )?
    else {
        return Err(Stop::Bad(BadElement::Tag));
    };
    let typ = type_met(attribute(attributes, "type"));
    typed_item(alloc, words, tag, typ, attribute(attributes, "value"))
}
