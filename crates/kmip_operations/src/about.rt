//! What is known of an object: what a client says of it as it comes.

ghost use Rattle.std.specs.Prelude.{◌≡◌, None, OnOk, Some};

use kmip_messages::attribute::{Attribute, AttributeStructure, AttributeValue};
use kmip_messages::response::result_reason;
use kmip_messages::structures::Name;
use kmip_messages::template::TemplateAttribute;
use kmip_messages::values::{CryptographicAlgorithm, KeyFormatType, ObjectType, key_format_type};
use kmip_server::refusal::Refusal;
use std::alloc::Allocator;

/// What is known of an object, but for its material, its state and its dates.
#[derive(Drop)]
pub struct About<K: Allocator> {
    /// What it is.
    pub object_type: ObjectType,
    /// What a key is for.
    pub algorithm: Option<CryptographicAlgorithm>,
    /// How long a key is, in bits.
    pub length: Option<i32>,
    /// What it may be used for, a bit each.
    pub usage_mask: Option<i32>,
    /// Its names.
    pub names: Vec<Name<K>, K>,
    /// How its bytes are to be read, unless it is a certificate.
    pub format: KeyFormatType,
    /// The number of its Secret Data Type or Certificate Type; 0 for a key.
    pub subtype: u32,
}

// What is said of an attribute that can't be kept.
fn bad(message: &'static str) -> Refusal {
    Refusal::new(result_reason::INVALID_FIELD, message)
}

// Keeps a value that may come once.
fn keep<T: Drop>(place: &mut Option<T>, value: T) -> Result<(), Refusal>
    ensures { OnOk result ((place.old ≡ None) × (place.new ≡ Some value)) }
{
    if place.is_some() {
        return Err(bad("an attribute comes twice"));
    }
    *place = Some(value);
    Ok(())
}

impl<K: Allocator + Copy> About<K> {
    ghost use Rattle.kmip_operations.specs.Known.{Grows, HasName, Knows, KnowsAll};
    ghost use Rattle.std.specs.Prelude.{string_bytes};

    /// Of an object of this type nothing else yet.
    pub fn new(alloc: K, object_type: ObjectType) -> About<K>
        ensures { result.object_type ≡ object_type }
    {
        About {
            object_type,
            algorithm: None,
            length: None,
            usage_mask: None,
            names: Vec::new(alloc),
            format: key_format_type::RAW,
            subtype: 0,
        }
    }

    // Keeps a name.
    fn name<A: Allocator>(&mut self, alloc: K, name: &Name<A>) -> Result<(), Refusal>
        ensures grows { OnOk result (Grows self.old self.new) }
        ensures named { OnOk result (HasName (string_bytes name.now.value) self.new.names.items) }
    {
        let value = name.value.as_str().to_string(alloc)?;
        self.names.push(Name {
            value,
            name_type: name.name_type,
        })?;
        Ok(())
    }

    // Keeps an attribute.
    fn attribute<A: Allocator>(&mut self, alloc: K, attribute: &Attribute<A>) -> Result<(), Refusal>
        ensures grows { OnOk result (Grows self.old self.new) }
        ensures known { OnOk result (Knows (string_bytes attribute.now.name) attribute.now.value self.new) }
    {
        match (attribute.name.as_str(), &attribute.value) {
            ("Cryptographic Algorithm", AttributeValue::CryptographicAlgorithm(it)) => {
                keep(&mut self.algorithm, *it)
            }
            ("Cryptographic Length", AttributeValue::Integer(it)) => keep(&mut self.length, *it),
            ("Cryptographic Usage Mask", AttributeValue::Integer(it)) => {
                keep(&mut self.usage_mask, *it)
            }
            ("Name", AttributeValue::Structure(AttributeStructure::Name(it))) => self.name(
                alloc, it,
            ),
            _ => Err(bad("the server does not keep this attribute, or not with this value")),
        }
    }

    /// Keeps attributes. They are refused with Invalid Field if there is one that the server doesn't keep, or sets itself (KMIP 1.0,
    /// sections 11.2 and 11.4).
    pub fn attributes<A: Allocator>(
        &mut self,
        alloc: K,
        attributes: &[Attribute<A>],
    ) -> Result<(), Refusal>
        ensures known { OnOk result (KnowsAll attributes.now self.new) }
        ensures grows { OnOk result (Grows self.old self.new) }
    {
        for attribute in attributes {
            self.attribute(alloc, attribute)?;
        }
        Ok(())
    }

    /// Keeps the attributes of a template. It is refused as they are, and with Item Not Found if a template is named, since there are none.
    pub fn template<A: Allocator>(
        &mut self,
        alloc: K,
        template: &TemplateAttribute<A>,
    ) -> Result<(), Refusal>
        ensures known { OnOk result (KnowsAll template.now.attributes.items self.new) }
        ensures kind { OnOk result (self.new.object_type ≡ self.old.object_type) }
    {
        if !template.names.is_empty() {
            return Err(Refusal::new(result_reason::ITEM_NOT_FOUND, "there are no templates"));
        }
        self.attributes(alloc, template.attributes.as_slice())?;
        Ok(())
    }

    /// Whether an object of this name is this one.
    pub fn is_named<A: Allocator>(&self, name: &Name<A>) -> bool {
        self.names
            .iter()
            .any(|own| own.value.as_str() == name.value.as_str())
    }
}
