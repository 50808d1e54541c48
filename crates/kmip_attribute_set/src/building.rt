//! How attributes are put together: each call takes them and returns them with one more, as the last.

ghost use Rattle.std.specs.Prelude.{◌≡◌, [], IfOk, codes};
ghost use Rattle.kmip_attribute_set.specs.Attributes.{AreOfKey, AreWith, IsAttribute, IsName};

use crate::attributes::Attributes;
use kmip_attributes::attribute::{Attribute, AttributeStructure, AttributeValue};
use kmip_attributes::structures::Name;
use kmip_attributes::values::{CryptographicAlgorithm, ObjectType, State, name_type};
use std::alloc::{AllocError, Allocator};

// An attribute of this name and value.
fn named<A: Allocator + Copy>(
    alloc: A,
    name: &str,
    value: AttributeValue<A>,
) -> Result<Attribute<A>, AllocError>
    ensures { IfOk result (IsAttribute name.now value) }
{
    let name = name.to_string(alloc)?;
    Ok(Attribute {
        name,
        index: None,
        value,
    })
}

/// The attributes of a new symmetric key, which every server asks for (KMIP 1.0, section 4.1), and its name: what it is for (section 3.4),
/// how long it is, in bits (section 3.5), and what it may be used for, as the sum of bits (section 3.14). Fails if memory runs out.
pub fn of_key<A: Allocator + Copy>(
    alloc: A,
    algorithm: CryptographicAlgorithm,
    length: i32,
    usage: i32,
    name: &str,
) -> Result<Attributes<A>, AllocError>
    ensures { IfOk result (λ attributes. AreOfKey algorithm length usage name.now attributes.list.items) }
{
    let none = Attributes::new(alloc);
    let one = none.with_cryptographic_algorithm(algorithm)?;
    let two = one.with_cryptographic_length(length)?;
    let three = two.with_cryptographic_usage_mask(usage)?;
    three.with_name(name)
}

impl<A: Allocator + Copy> Attributes<A> {
    /// No attributes.
    pub fn new(alloc: A) -> Attributes<A>
        ensures { result.list.items ≡ [] }
    {
        Attributes {
            list: Vec::new(alloc),
        }
    }

    /// With one more, of this name and value. Fails if memory runs out.
    pub fn with(self, name: &str, value: AttributeValue<A>) -> Result<Attributes<A>, AllocError>
        ensures { IfOk result (AreWith self (IsAttribute name.now value)) }
    {
        let Attributes { mut list } = self;
        let attribute = named(*list.allocator(), name, value)?;
        list.push(attribute)?;
        Ok(Attributes { list })
    }

    /// With what the object is (KMIP 1.0, section 3.3). Fails if memory runs out.
    pub fn with_object_type(self, object_type: ObjectType) -> Result<Attributes<A>, AllocError>
        ensures { IfOk result (AreWith self (IsAttribute (codes "Object Type") (AttributeValue.ObjectType object_type))) }
    {
        self.with("Object Type", AttributeValue::ObjectType(object_type))
    }

    /// With what the key is for (section 3.4). Fails if memory runs out.
    pub fn with_cryptographic_algorithm(
        self,
        algorithm: CryptographicAlgorithm,
    ) -> Result<Attributes<A>, AllocError>
        ensures { IfOk result (AreWith self (IsAttribute (codes "Cryptographic Algorithm") (AttributeValue.CryptographicAlgorithm algorithm))) }
    {
        self.with(
            "Cryptographic Algorithm",
            AttributeValue::CryptographicAlgorithm(algorithm),
        )
    }

    /// With how long the key is, in bits (section 3.5). Fails if memory runs out.
    pub fn with_cryptographic_length(self, bits: i32) -> Result<Attributes<A>, AllocError>
        ensures { IfOk result (AreWith self (IsAttribute (codes "Cryptographic Length") (AttributeValue.Integer bits))) }
    {
        self.with("Cryptographic Length", AttributeValue::Integer(bits))
    }

    /// With what the key may be used for, as the sum of bits (section 3.14). Fails if memory runs out.
    pub fn with_cryptographic_usage_mask(self, mask: i32) -> Result<Attributes<A>, AllocError>
        ensures { IfOk result (AreWith self (IsAttribute (codes "Cryptographic Usage Mask") (AttributeValue.Integer mask))) }
    {
        self.with("Cryptographic Usage Mask", AttributeValue::Integer(mask))
    }

    /// With where the object is in its life (section 3.17). Fails if memory runs out.
    pub fn with_state(self, state: State) -> Result<Attributes<A>, AllocError>
        ensures { IfOk result (AreWith self (IsAttribute (codes "State") (AttributeValue.State state))) }
    {
        self.with("State", AttributeValue::State(state))
    }

    /// With a name of the object, this text as it stands (section 3.2). Fails if memory runs out.
    pub fn with_name(self, text: &str) -> Result<Attributes<A>, AllocError>
        ensures { IfOk result (AreWith self (IsName text.now)) }
    {
        let value = text.to_string(*self.list.allocator())?;
        let name_type = name_type::UNINTERPRETED_TEXT_STRING;
        let name = AttributeStructure::Name(Name { value, name_type });
        self.with("Name", AttributeValue::Structure(name))
    }
}
