//! What attributes say: each call returns the value of the first attribute of its name, if that has one of the kind.

ghost use Rattle.std.specs.Prelude.{◌≡◌, bytes_eq, codes, option_map, string_bytes};
ghost use Rattle.kmip_attribute_set.specs.Attributes.{algorithm_of, date_of, integer_of, kind_of, name_of, state_of, text_of, value_of};

use crate::attributes::Attributes;
use kmip_attributes::attribute::{Attribute, AttributeStructure, AttributeValue};
use kmip_attributes::values::{CryptographicAlgorithm, ObjectType, State};
use kmip_ttlv_reader::reader::DateTime;
use std::alloc::Allocator;

// Whether an attribute has this name.
fn is_named<A: Allocator>(attribute: &Attribute<A>, name: &str) -> bool
    ensures { result ≡ bytes_eq (string_bytes attribute.now.name) name.now }
{
    attribute.name.as_str() == name
}

// The value of the first of these attributes that has this name.
fn find<'a, A: Allocator>(
    attributes: &'a [Attribute<A>],
    name: &str,
) -> Option<&'a AttributeValue<A>>
    ensures { option_map (λ value. value.now) result ≡ value_of name.now attributes.now }
{
    let mut left = attributes;
    while let Some((attribute, rest)) = left.split_first() {
        if is_named(attribute, name) {
            return Some(&attribute.value);
        }
        left = rest;
    }
    None
}

impl<A: Allocator> Attributes<A> {
    /// The value of the first attribute of this name.
    pub fn get(&self, name: &str) -> Option<&AttributeValue<A>>
        ensures { option_map (λ value. value.now) result ≡ value_of name.now self.now.list.items }
    {
        find(self.list.as_slice(), name)
    }

    // The number that the first attribute of this name is.
    fn integer(&self, name: &str) -> Option<i32>
        ensures { result ≡ integer_of (value_of name.now self.now.list.items) }
    {
        match self.get(name) {
            Some(AttributeValue::Integer(number)) => Some(*number),
            _ => None,
        }
    }

    // The date that the first attribute of this name is, in seconds since 1970.
    fn date(&self, name: &str) -> Option<DateTime>
        ensures { result ≡ date_of (value_of name.now self.now.list.items) }
    {
        match self.get(name) {
            Some(AttributeValue::DateTime(date)) => Some(*date),
            _ => None,
        }
    }

    /// The object's identifier (KMIP 1.0, section 3.1).
    pub fn unique_identifier(&self) -> Option<&str>
        ensures { option_map (λ text. text.now) result ≡ text_of (value_of (codes "Unique Identifier") self.now.list.items) }
    {
        match self.get("Unique Identifier") {
            Some(AttributeValue::TextString(text)) => Some(text.as_str()),
            _ => None,
        }
    }

    /// The text of the object's first name, whatever its type is (section 3.2).
    pub fn first_name(&self) -> Option<&str>
        ensures { option_map (λ text. text.now) result ≡ name_of (value_of (codes "Name") self.now.list.items) }
    {
        match self.get("Name") {
            Some(AttributeValue::Structure(AttributeStructure::Name(name))) => {
                Some(name.value.as_str())
            }
            _ => None,
        }
    }

    /// What the object is (section 3.3).
    pub fn object_type(&self) -> Option<ObjectType>
        ensures { result ≡ kind_of (value_of (codes "Object Type") self.now.list.items) }
    {
        match self.get("Object Type") {
            Some(AttributeValue::ObjectType(object_type)) => Some(*object_type),
            _ => None,
        }
    }

    /// What the key is for (section 3.4).
    pub fn cryptographic_algorithm(&self) -> Option<CryptographicAlgorithm>
        ensures { result ≡ algorithm_of (value_of (codes "Cryptographic Algorithm") self.now.list.items) }
    {
        match self.get("Cryptographic Algorithm") {
            Some(AttributeValue::CryptographicAlgorithm(algorithm)) => Some(*algorithm),
            _ => None,
        }
    }

    /// How long the key is, in bits (section 3.5).
    pub fn cryptographic_length(&self) -> Option<i32>
        ensures { result ≡ integer_of (value_of (codes "Cryptographic Length") self.now.list.items) }
    {
        self.integer("Cryptographic Length")
    }

    /// What the key may be used for, as the sum of bits (section 3.14).
    pub fn cryptographic_usage_mask(&self) -> Option<i32>
        ensures { result ≡ integer_of (value_of (codes "Cryptographic Usage Mask") self.now.list.items) }
    {
        self.integer("Cryptographic Usage Mask")
    }

    /// Where the object is in its life (section 3.17).
    pub fn state(&self) -> Option<State>
        ensures { result ≡ state_of (value_of (codes "State") self.now.list.items) }
    {
        match self.get("State") {
            Some(AttributeValue::State(state)) => Some(*state),
            _ => None,
        }
    }

    /// When the object came (section 3.18).
    pub fn initial_date(&self) -> Option<DateTime>
        ensures { result ≡ date_of (value_of (codes "Initial Date") self.now.list.items) }
    {
        self.date("Initial Date")
    }

    /// When the object becomes active, or did (section 3.19).
    pub fn activation_date(&self) -> Option<DateTime>
        ensures { result ≡ date_of (value_of (codes "Activation Date") self.now.list.items) }
    {
        self.date("Activation Date")
    }

    /// When the object is no longer active, or ceased to be (section 3.22).
    pub fn deactivation_date(&self) -> Option<DateTime>
        ensures { result ≡ date_of (value_of (codes "Deactivation Date") self.now.list.items) }
    {
        self.date("Deactivation Date")
    }

    /// When the object was destroyed (section 3.23).
    pub fn destroy_date(&self) -> Option<DateTime>
        ensures { result ≡ date_of (value_of (codes "Destroy Date") self.now.list.items) }
    {
        self.date("Destroy Date")
    }

    /// When the object was said to be compromised (section 3.25).
    pub fn compromise_date(&self) -> Option<DateTime>
        ensures { result ≡ date_of (value_of (codes "Compromise Date") self.now.list.items) }
    {
        self.date("Compromise Date")
    }

    /// When an attribute of the object changed last (section 3.32).
    pub fn last_change_date(&self) -> Option<DateTime>
        ensures { result ≡ date_of (value_of (codes "Last Change Date") self.now.list.items) }
    {
        self.date("Last Change Date")
    }
}
