//! What is asked for attributes, as a user of the crate would write it: with a field that may be absent,
//! and one that may come often.

ghost use Rattle.std.specs.Prelude.{map, option_map};
ghost use Rattle.ttlv_vectors.specs.AttributeRequests.{identifier_value, attribute_name_value, asked_value};

use kmip_ttlv::parts::{begin_struct, each, end_struct, option, text_string};
use kmip_ttlv::shape::Serialize;
use kmip_ttlv::visit::Visitor;
use std::alloc::AllocError;

/// What names an object that the server keeps.
#[derive(Clone, Copy, Debug)]
pub struct UniqueIdentifier<'a> {
    pub text: &'a str,
}

impl<'a> Serialize for UniqueIdentifier<'a> {
    ghost stated = { λ i. identifier_value i.text.now };

    fn visit<V: Visitor>(&self, visitor: &mut V) -> Result<(), AllocError> {
        text_string(visitor, "Transparent:0x420094", self.text)?;
        Ok(())
    }
}

/// What names an attribute.
#[derive(Clone, Copy, Debug)]
pub struct AttributeName<'a> {
    pub text: &'a str,
}

impl<'a> Serialize for AttributeName<'a> {
    ghost stated = { λ n. attribute_name_value n.text.now };

    fn visit<V: Visitor>(&self, visitor: &mut V) -> Result<(), AllocError> {
        text_string(visitor, "Transparent:0x42000A", self.text)?;
        Ok(())
    }
}

/// Which attributes are asked for, all where none is named, and of which object, the last one used where
/// that is absent (KMIP 1.0, section 4.11).
#[derive(Clone, Copy, Debug)]
pub struct GetAttributes<'a> {
    pub unique_identifier: Option<UniqueIdentifier<'a>>,
    pub attribute_names: &'a [AttributeName<'a>],
}

impl<'a> Serialize for GetAttributes<'a> {
    ghost stated = { λ r. asked_value
        (option_map (λ i. identifier_value i.text.now) r.unique_identifier)
        (map (λ n. attribute_name_value n.text.now) r.attribute_names.now) };

    #[tactic(auto, using(kmip_ttlv_base::proofs::Visiting::visited_joined))]
    fn visit<V: Visitor>(&self, visitor: &mut V) -> Result<(), AllocError> {
        begin_struct(visitor, "0x420079")?;
        option(visitor, &self.unique_identifier)?;
        each(visitor, self.attribute_names)?;
        end_struct(visitor, "0x420079")?;
        Ok(())
    }
}
