//! The attributes of an element.

ghost use Rattle.std.specs.Prelude.{◌≡◌, map, option_map};
ghost use Rattle.plain_xml.specs.Elements.{attribute_view};
ghost use Rattle.kmip_ttlv_xml.specs.XmlItems.{attribute, is_known, are_known};

use plain_xml::Attribute;
use std::alloc::Allocator;

/// The value of the attribute of this name.
pub fn attribute<'a, A: Allocator>(attributes: &'a [Attribute<A>], name: &str) -> Option<&'a str>
    ensures { option_map (λ s. s.now) result ≡ attribute name.now (map attribute_view attributes.now) }
{
    let mut rest = attributes;
    'attributes: while let [attribute, more @ ..] = rest {
        if attribute.name.as_str() == name {
            return Some(attribute.value.as_str());
        }
        rest = more;
    }
    None
}

// Whether an item may have an attribute of this name.
fn is_known(name: &str) -> bool
    ensures { result ≡ is_known name.now }
{
    name == "tag" || name == "type" || name == "value" || name == "name" || name == "xmlns"
}

/// Whether an item may have all of these attributes.
pub fn are_known<A: Allocator>(attributes: &[Attribute<A>]) -> bool
    ensures { result ≡ are_known (map attribute_view attributes.now) }
{
    let mut rest = attributes;
    'attributes: while let [attribute, more @ ..] = rest {
        if !is_known(attribute.name.as_str()) {
            return false;
        }
        rest = more;
    }
    true
}
