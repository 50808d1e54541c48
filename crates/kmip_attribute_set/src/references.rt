//! References to attributes, as KMIP 2.0 names those that are asked for: by their tags.

ghost use Rattle.std.specs.Prelude.{IfOk, map};
ghost use Rattle.kmip_attribute_set.specs.Tags.{Refers};

use crate::attributes::Attributes;
use crate::names::{attribute_name, attribute_tag};
use crate::tags::{Tagged, no_tag};
use kmip_attributes::attribute::{Attribute, AttributeStructure, AttributeValue};
use kmip_ttlv_base::error::Error;
use kmip_ttlv_base::types::TtlvTag;
use kmip_ttlv_parts::Kept;
use std::alloc::Allocator;

// The names of items that are no attributes, as `from_tags` has them: an Attribute Reference, and the Attribute Name in one.
const REFERENCE: &str = "0x42013B";

const NAME: &str = "0x42000A";

/// The Attribute References that name these attributes: an Enumeration each, of the tag of the name, in their order.
///
/// It fails with `InvalidTag` if a name has no tag (`names::attribute_tag`), or as `to_vec` does.
pub fn references<A: Allocator + Copy>(alloc: A, names: &[&str]) -> Result<Kept<A>, Error<A>>
    ensures { IfOk result (Refers ⟦<Attributes<A> as Tagged<A>>⟧.IsTagged (map (λ name. name.now) names.now)) }
{
    let mut list = Attributes::new(alloc);
    for name in names {
        let Some(tag) = attribute_tag(name) else {
            return Err(no_tag(alloc, name));
        };
        list = list.with(REFERENCE, AttributeValue::Enumeration(tag))?;
    }
    list.to_tags(alloc)
}

// The name of the attribute that this one refers to, if it is a reference. Fails if memory runs out.
fn name_of<A: Allocator + Copy>(
    alloc: A,
    attribute: &Attribute<A>,
) -> Result<Option<String<A>>, Error<A>> {
    if attribute.name.as_str() != REFERENCE {
        return Ok(None);
    }
    match &attribute.value {
        AttributeValue::Enumeration(tag) => match TtlvTag::from_number(*tag) {
            Some(tag) => Ok(Some(attribute_name(alloc, tag)?)),
            None => Ok(None),
        },
        AttributeValue::Structure(AttributeStructure::Other(items)) => {
            match Attributes::from_tags(alloc, items)?.get(NAME) {
                Some(AttributeValue::TextString(name)) => {
                    Ok(Some(name.as_str().to_string(alloc)?))
                }
                _ => Ok(None),
            }
        }
        _ => Ok(None),
    }
}

/// The names of the attributes that the Attribute References among these items are of, in their order: by a tag, or a vendor's by the name
/// in it.
///
/// It fails as `Attributes::from_tags` does.
pub fn names_of<A: Allocator + Copy>(
    alloc: A,
    items: &Kept<A>,
) -> Result<Vec<String<A>, A>, Error<A>> {
    let mut names = Vec::new(alloc);
    for attribute in &Attributes::from_tags(alloc, items)?.list {
        if let Some(name) = name_of(alloc, attribute)? {
            names.push(name)?;
        }
    }
    Ok(names)
}
