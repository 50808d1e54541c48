//! Items of any tags, as KMIP 2.0 has attributes in a structure Attributes, as attributes of the tags' names.

ghost use Rattle.std.specs.Prelude.{◌≡◌, ℕ, ◌-◌, ◌<◌, IfOk, false, true};
ghost use Rattle.kmip_ttlv_types.specs.ItemTypes.{is_structure};
ghost use Rattle.kmip_ttlv_types.specs.Leaves.{is_valid};
ghost use Rattle.kmip_ttlv_base.specs.Tags.{wrapper_name};
ghost use Rattle.kmip_attributes.specs.declared.attribute.AttributeStructure.{AttributeStructure};
ghost use Rattle.kmip_attributes.specs.declared.attribute.AttributeValue.{AttributeValue};
ghost use Rattle.kmip_ttlv_base.specs.Values.{Value, newtype_value};
ghost use Rattle.kmip_ttlv_reader.specs.Outcomes.{any_leaf_outcome, any_outcome, node_outcome};
ghost use Rattle.kmip_ttlv_reader.specs.Reads.{decoded_leaf, form_of_type, most_levels};
ghost use Rattle.kmip_ttlv_reader.specs.Steps.{gives};
ghost use Rattle.kmip_ttlv_parts.specs.KeptItems.{values_kept};
ghost use Rattle.kmip_attribute_set.specs.Tags.{AreNamed, IsNamed, IsNextNamed, Writings, structure_under, value_under};

use crate::attributes::Attributes;
use crate::names::attribute_name;
use kmip_attributes::attribute::{Attribute, AttributeStructure, AttributeValue};
use kmip_ttlv_base::types::numbers::{number_of_eight, number_of_four};
use kmip_ttlv_base::types::places::{content_at, length_at, size_of, tag_at, type_at};
use kmip_ttlv_base::types::{TtlvTag, TtlvType};
use kmip_ttlv_parts::Kept;
use kmip_ttlv_reader::leaf::text_of;
use kmip_ttlv_reader::reader::{BigNumber, DateTime, Interval};
use std::alloc::{AllocError, Allocator};

// The value that a leaf's content of this type is. Fails if memory runs out.
#[tactic(auto, unfolding(crate::specs::Tags::value_under))]
fn leaf_of<A: Allocator + Copy>(
    alloc: A,
    typ: TtlvType,
    content: &[u8],
) -> Result<AttributeValue<A>, AllocError>
    requires valid { is_valid typ content.now ≡ true }
    requires leaf { is_structure typ ≡ false }
    ensures { IfOk result (λ x. (f : ℕ → AttributeStructure A → Value) (tag : ℕ)
        → newtype_value (wrapper_name tag) (decoded_leaf (form_of_type typ) content.now) ≡ value_under f tag x) }
{
    match typ {
        TtlvType::Integer => { Ok(AttributeValue::Integer(number_of_four(content).cast_signed())) }
        TtlvType::LongInteger => Ok(AttributeValue::LongInteger(number_of_eight(
            content,
        ).cast_signed())),
        TtlvType::BigInteger => {
            let bytes = content.to_vec(alloc)?;
            Ok(AttributeValue::BigInteger(BigNumber { bytes }))
        }
        TtlvType::Enumeration => Ok(AttributeValue::Enumeration(number_of_four(content))),
        TtlvType::Boolean => Ok(AttributeValue::Boolean(number_of_eight(content) == 1)),
        TtlvType::TextString => {
            let text = text_of(content).to_string(alloc)?;
            Ok(AttributeValue::TextString(text))
        }
        TtlvType::ByteString => {
            let bytes = content.to_vec(alloc)?;
            Ok(AttributeValue::ByteString(bytes))
        }
        TtlvType::DateTime => {
            let seconds = number_of_eight(content).cast_signed();
            Ok(AttributeValue::DateTime(DateTime(seconds)))
        }
        TtlvType::Interval => Ok(AttributeValue::Interval(Interval(number_of_four(content)))),
        TtlvType::Structure => unreachable!(),
    }
}

// The attribute of this tag's name and of this value.
fn named<A: Allocator + Copy>(
    alloc: A,
    tag: TtlvTag,
    value: AttributeValue<A>,
) -> Result<Attribute<A>, AllocError>
    ensures { (under : ℕ → AttributeValue A → Value) → IfOk result (IsNamed under (under tag value)) }
{
    let name = attribute_name(alloc, tag)?;
    Ok(Attribute {
        name,
        index: None,
        value,
    })
}

// The leaf at this place as an attribute, and the place behind it. Fails if memory runs out.
fn leaf_there<A: Allocator + Copy>(
    alloc: A,
    bytes: &[u8],
    pos: usize,
    end: usize,
    typ: TtlvType,
) -> Result<(Attribute<A>, usize), AllocError>
    requires there { (x : Value × ℕ) × (any_leaf_outcome typ bytes.now pos end ≡ gives x) }
    requires leaf { is_structure typ ≡ false }
    ensures named { IfOk result (IsNextNamed (any_leaf_outcome typ bytes.now pos end)) }
    ensures further { IfOk result (λ r. pos < r.1) }
{
    let n = length_at(bytes, pos);
    let value = leaf_of(alloc, typ, content_at(bytes, pos, n))?;
    let attribute = named(alloc, tag_at(bytes, pos), value)?;
    Ok((attribute, pos + size_of(typ, n)))
}

// The structure at this place as an attribute that keeps it, and the place behind it. Fails if memory runs out.
fn structure_there<A: Allocator + Copy>(
    alloc: A,
    bytes: &[u8],
    pos: usize,
    end: usize,
) -> Result<(Attribute<A>, usize), AllocError>
    requires there { (x : Value × ℕ) × (node_outcome (any_outcome (most_levels - 1)) bytes.now pos end ≡ gives x) }
    ensures named { IfOk result (IsNextNamed (node_outcome (any_outcome (most_levels - 1)) bytes.now pos end)) }
    ensures further { IfOk result (λ r. pos < r.1) }
{
    let next = pos + 8 + length_at(bytes, pos) as usize;
    let kept = Kept::from_items(alloc, bytes, pos + 8, next)?;
    let value = AttributeValue::Structure(AttributeStructure::Other(kept));
    let attribute = named(alloc, tag_at(bytes, pos), value)?;
    Ok((attribute, next))
}

// The item at this place as an attribute, and the place behind it. Fails if memory runs out.
fn item_there<A: Allocator + Copy>(
    alloc: A,
    bytes: &[u8],
    pos: usize,
    end: usize,
) -> Result<(Attribute<A>, usize), AllocError>
    requires there { (x : Value × ℕ) × (any_outcome most_levels bytes.now pos end ≡ gives x) }
    ensures named { IfOk result (IsNextNamed (any_outcome most_levels bytes.now pos end)) }
    ensures further { IfOk result (λ r. pos < r.1) }
{
    let Some(typ) = type_at(bytes, pos) else {
        unreachable!()
    };
    if typ == TtlvType::Structure {
        structure_there(alloc, bytes, pos, end)
    } else {
        leaf_there(alloc, bytes, pos, end, typ)
    }
}

/// Attributes of the tags' names, whose values are these items as they are. Fails if memory runs out.
pub fn raw<A: Allocator + Copy>(alloc: A, items: &Kept<A>) -> Result<Attributes<A>, AllocError>
    ensures { (w : Writings A) → w.other ≡ values_kept → IfOk result (λ raw. AreNamed (value_under (structure_under w)) (values_kept items.now) raw.list.items) }
{
    let bytes = items.as_bytes();
    let mut list = Vec::new(alloc);
    let end = bytes.len();
    let mut next = 0;
    'items: while next < end {
        let (attribute, behind) = item_there(alloc, bytes, next, end)?;
        list.push(attribute)?;
        next = behind;
    }
    Ok(Attributes { list })
}
