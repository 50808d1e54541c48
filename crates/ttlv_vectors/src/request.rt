//! A request to create an AES key, as a user of the crate would write it: one function for each
//! part, with the value that it stands for.

ghost use Rattle.std.specs.Prelude.{OnOk, OnErr};
ghost use Rattle.kmip_ttlv.specs.Visits.{Receives};
ghost use Rattle.ttlv_vectors.specs.Requests.{version_value, header_value, attribute_value, algorithm_value};
ghost use Rattle.ttlv_vectors.specs.Requests.{length_value, usage_value, attributes_value, template_value};
ghost use Rattle.ttlv_vectors.specs.Requests.{symmetric_key_value, create_value, payload_value, item_value};
ghost use Rattle.ttlv_vectors.specs.Requests.{request_value};

use kmip_ttlv::parts::{
    begin_newtype, begin_seq, begin_struct, end_newtype, end_seq, end_struct, integer,
    newtype_variant, text_string, unit_variant,
};
use kmip_ttlv::shape::Serialize;
use kmip_ttlv::visit::{Leaf, Visitor};
use std::alloc::AllocError;

/// A request to create an AES key (KMIP 1.0, section 4.1).
#[derive(Clone, Copy, Debug)]
pub struct CreateRequest {
    /// The version of the protocol.
    pub major: i32,
    pub minor: i32,
    /// How many items the request has.
    pub batch_count: i32,
    /// The key's length in bits.
    pub bits: i32,
    /// What the key may be used for: the sum of the standard's flags.
    pub usage: i32,
}

// The version of the protocol.
#[inline]
#[tactic(auto, unfolding(crate::specs::Requests::version_value))]
fn version<V: Visitor>(visitor: &mut V, major: i32, minor: i32) -> Result<(), AllocError>
    ensures received { OnOk result
        (Receives V.knows V.step (version_value major minor) visitor.old visitor.new) }
    ensures stopped { OnErr result (V.stopped visitor.new) }
{
    begin_struct(visitor, "0x420069")?;
    integer(visitor, "Transparent:0x42006A", major)?;
    integer(visitor, "Transparent:0x42006B", minor)?;
    end_struct(visitor, "0x420069")?;
    Ok(())
}

// The version of the protocol, and how many items follow.
#[inline]
#[tactic(auto, unfolding(crate::specs::Requests::header_value))]
fn header<V: Visitor>(visitor: &mut V, major: i32, minor: i32, count: i32) -> Result<(), AllocError>
    ensures received { OnOk result
        (Receives V.knows V.step (header_value major minor count) visitor.old visitor.new) }
    ensures stopped { OnErr result (V.stopped visitor.new) }
{
    begin_struct(visitor, "0x420077")?;
    version(visitor, major, minor)?;
    integer(visitor, "Transparent:0x42000D", count)?;
    end_struct(visitor, "0x420077")?;
    Ok(())
}

// An attribute: its name, and its value under a tag that overrides the value's own.
#[inline]
#[tactic(auto, unfolding(crate::specs::Requests::attribute_value))]
fn attribute<V: Visitor, T: Serialize>(
    visitor: &mut V,
    name: &str,
    value: &T,
) -> Result<(), AllocError>
    ensures received { OnOk result
        (Receives V.knows V.step (attribute_value name.now (T.stated value.now)) visitor.old visitor.new) }
    ensures stopped { OnErr result (V.stopped visitor.new) }
{
    begin_struct(visitor, "0x420008")?;
    text_string(visitor, "Transparent:0x42000A", name)?;
    newtype_variant(visitor, "Override:0x42000B", "Transparent", value)?;
    end_struct(visitor, "0x420008")?;
    Ok(())
}

// The algorithm AES.
#[inline]
#[tactic(auto, unfolding(crate::specs::Requests::algorithm_value))]
fn algorithm<V: Visitor>(visitor: &mut V) -> Result<(), AllocError>
    ensures received { OnOk result
        (Receives V.knows V.step (algorithm_value) visitor.old visitor.new) }
    ensures stopped { OnErr result (V.stopped visitor.new) }
{
    let aes = Leaf::UnitVariant {
        name: "420028",
        variant: "0x00000003",
    };
    attribute(visitor, "Cryptographic Algorithm", &aes)?;
    Ok(())
}

// The key's length, in bits.
#[inline]
#[tactic(auto, unfolding(crate::specs::Requests::length_value))]
fn length<V: Visitor>(visitor: &mut V, bits: i32) -> Result<(), AllocError>
    ensures received { OnOk result
        (Receives V.knows V.step (length_value bits) visitor.old visitor.new) }
    ensures stopped { OnErr result (V.stopped visitor.new) }
{
    attribute(visitor, "Cryptographic Length", &Leaf::I32(bits))?;
    Ok(())
}

// What the key may be used for.
#[inline]
#[tactic(auto, unfolding(crate::specs::Requests::usage_value))]
fn usage_mask<V: Visitor>(visitor: &mut V, usage: i32) -> Result<(), AllocError>
    ensures received { OnOk result
        (Receives V.knows V.step (usage_value usage) visitor.old visitor.new) }
    ensures stopped { OnErr result (V.stopped visitor.new) }
{
    attribute(visitor, "Cryptographic Usage Mask", &Leaf::I32(usage))?;
    Ok(())
}

// The three attributes of a key.
#[inline]
#[tactic(auto, unfolding(crate::specs::Requests::attributes_value))]
fn attributes<V: Visitor>(visitor: &mut V, bits: i32, usage: i32) -> Result<(), AllocError>
    ensures received { OnOk result
        (Receives V.knows V.step (attributes_value bits usage) visitor.old visitor.new) }
    ensures stopped { OnErr result (V.stopped visitor.new) }
{
    begin_seq(visitor)?;
    algorithm(visitor)?;
    length(visitor, bits)?;
    usage_mask(visitor, usage)?;
    end_seq(visitor)?;
    Ok(())
}

// The template of a key: its attributes.
#[inline]
#[tactic(auto, unfolding(crate::specs::Requests::template_value))]
fn template<V: Visitor>(visitor: &mut V, bits: i32, usage: i32) -> Result<(), AllocError>
    ensures received { OnOk result
        (Receives V.knows V.step (template_value bits usage) visitor.old visitor.new) }
    ensures stopped { OnErr result (V.stopped visitor.new) }
{
    begin_newtype(visitor, "0x420091")?;
    attributes(visitor, bits, usage)?;
    end_newtype(visitor, "0x420091")?;
    Ok(())
}

// The object type Symmetric Key.
#[inline]
#[tactic(auto, unfolding(crate::specs::Requests::symmetric_key_value))]
fn symmetric_key<V: Visitor>(visitor: &mut V) -> Result<(), AllocError>
    ensures received { OnOk result
        (Receives V.knows V.step (symmetric_key_value) visitor.old visitor.new) }
    ensures stopped { OnErr result (V.stopped visitor.new) }
{
    unit_variant(visitor, "0x420057", "0x00000002")?;
    Ok(())
}

// The operation Create.
#[inline]
#[tactic(auto, unfolding(crate::specs::Requests::create_value))]
fn create<V: Visitor>(visitor: &mut V) -> Result<(), AllocError>
    ensures received { OnOk result
        (Receives V.knows V.step (create_value) visitor.old visitor.new) }
    ensures stopped { OnErr result (V.stopped visitor.new) }
{
    unit_variant(visitor, "0x42005C", "0x00000001")?;
    Ok(())
}

// The payload: a symmetric key with these attributes.
#[inline]
#[tactic(auto, unfolding(crate::specs::Requests::payload_value))]
fn payload<V: Visitor>(visitor: &mut V, bits: i32, usage: i32) -> Result<(), AllocError>
    ensures received { OnOk result
        (Receives V.knows V.step (payload_value bits usage) visitor.old visitor.new) }
    ensures stopped { OnErr result (V.stopped visitor.new) }
{
    begin_struct(visitor, "0x420079")?;
    symmetric_key(visitor)?;
    template(visitor, bits, usage)?;
    end_struct(visitor, "0x420079")?;
    Ok(())
}

// An item: create this key.
#[inline]
#[tactic(auto, unfolding(crate::specs::Requests::item_value))]
fn item<V: Visitor>(visitor: &mut V, bits: i32, usage: i32) -> Result<(), AllocError>
    ensures received { OnOk result
        (Receives V.knows V.step (item_value bits usage) visitor.old visitor.new) }
    ensures stopped { OnErr result (V.stopped visitor.new) }
{
    begin_struct(visitor, "0x42000F")?;
    create(visitor)?;
    payload(visitor, bits, usage)?;
    end_struct(visitor, "0x42000F")?;
    Ok(())
}

impl Serialize for CreateRequest {
    ghost stated = { λ r. request_value r.major r.minor r.batch_count r.bits r.usage };

    #[tactic(auto, unfolding(crate::specs::Requests::request_value))]
    fn visit<V: Visitor>(&self, visitor: &mut V) -> Result<(), AllocError> {
        begin_struct(visitor, "0x420078")?;
        header(visitor, self.major, self.minor, self.batch_count)?;
        item(visitor, self.bits, self.usage)?;
        end_struct(visitor, "0x420078")?;
        Ok(())
    }
}
