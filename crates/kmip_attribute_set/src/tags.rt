//! Attributes as KMIP 2.0 has them: each one's value is an item under the attribute's own tag, in a structure Attributes.

ghost use Rattle.std.specs.Prelude.{◌≡◌, ℕ, OnErr, OnOk, is_some, map, option_map, string_bytes};
ghost use Rattle.kmip_ttlv_types.specs.Digits.{tag_text};
ghost use Rattle.kmip_ttlv_base.specs.Tags.{wrapper_name};
ghost use Rattle.kmip_ttlv_base.specs.Values.{Value, newtype_value, struct_value, values_of};
ghost use Rattle.kmip_ttlv_base.specs.Visits.{Receives, ReceivesEach, leaf_value};
ghost use Rattle.kmip_ttlv_reader.specs.Spots.{structure_form, structure_value};
ghost use Rattle.kmip_attributes.specs.declared.attribute.AttributeStructure.{AttributeStructure};
ghost use Rattle.kmip_attributes.specs.declared.attribute.AttributeValue.{AttributeValue};
ghost use Rattle.kmip_ttlv_kinds.specs.Laws.{IsReadFrom};
ghost use Rattle.kmip_ttlv_kinds.specs.Parts.{within};
ghost use Rattle.kmip_ttlv_parts.specs.KeptItems.{values_kept};
ghost use Rattle.kmip_attribute_set.specs.Names.{attribute_tag};
ghost use Rattle.kmip_attribute_set.specs.Tags.{AreNamed, IsNoTag, NamesItems, Tags, structure_under, tag_or_zero, untagged, value_under};

use crate::attributes::Attributes;
use crate::copies::read_again;
use crate::items::raw;
use crate::names::attribute_tag;
use kmip_attributes::attribute::{Attribute, AttributeStructure, AttributeValue};
use kmip_attributes::structures::{
    ApplicationSpecificInformation, CertificateIdentifier, CertificateIssuer, CertificateSubject,
    CryptographicDomainParameters, CryptographicParameters, Digest, Link, Name, RevocationReason,
    UsageLimits,
};
use kmip_ttlv_base::error::{Error, ErrorKind, ErrorLocation, SerdeError};
use kmip_ttlv_base::parts::{begin_structure, end_structure, tagged};
use kmip_ttlv_base::shape::Serialize;
use kmip_ttlv_base::visit::{Leaf, Visitor};
use kmip_ttlv_kinds::{Structure, convert, visit_structure};
use kmip_ttlv_parts::{Boxed, Kept};
use std::alloc::{AllocError, Allocator};

// The tag of the structure Attributes.
const ATTRIBUTES: u32 = 0x42_0125;

// The tag under which attributes are decoded that were items: any would do.
const ALONE: u32 = 0x42_0091;

/// What can be an item under any tag.
pub trait UnderTag {
    ghost use Rattle.std.specs.Prelude.{ℕ};
    ghost use Rattle.kmip_ttlv_base.specs.Values.{Value};

    // The item of a tag that it is.
    ghost under: { Self → ℕ → Value };

    /// Calls a visitor with it, under this tag. The error is the visitor's.
    fn visit_under<V: Visitor>(&self, tag: u32, visitor: &mut V) -> Result<(), AllocError>
        ensures received { OnOk result (Receives V.knows V.step (under self.now tag) visitor.old visitor.new) }
        ensures stopped { OnErr result (V.stopped visitor.new) };
}

// Calls a visitor with a structure on the heap, under this tag. The error is the visitor's.
fn visit_boxed<T: Structure<A>, V: Visitor, A: Allocator + Copy>(
    boxed: &Boxed<T, A>,
    tag: u32,
    visitor: &mut V,
) -> Result<(), AllocError>
    ensures received { OnOk result (Receives V.knows V.step (structure_value tag (within T.rules.written) boxed.now.inner.value) visitor.old visitor.new) }
    ensures stopped { OnErr result (V.stopped visitor.new) }
{
    visit_structure(boxed.inner.as_ref(), tag, visitor)
}

impl<A: Allocator + Copy> UnderTag for AttributeStructure<A> {
    ghost under = { λ x tag. structure_under record {
      name = ⟦<Name<A> as Structure<A>>⟧.rules.written;
      parameters = ⟦<CryptographicParameters as Structure<A>>⟧.rules.written;
      domain = ⟦<CryptographicDomainParameters as Structure<A>>⟧.rules.written;
      identifier = ⟦<CertificateIdentifier<A> as Structure<A>>⟧.rules.written;
      subject = ⟦<CertificateSubject<A> as Structure<A>>⟧.rules.written;
      issuer = ⟦<CertificateIssuer<A> as Structure<A>>⟧.rules.written;
      digest = ⟦<Digest<A> as Structure<A>>⟧.rules.written;
      limits = ⟦<UsageLimits as Structure<A>>⟧.rules.written;
      reason = ⟦<RevocationReason<A> as Structure<A>>⟧.rules.written;
      link = ⟦<Link<A> as Structure<A>>⟧.rules.written;
      application = ⟦<ApplicationSpecificInformation<A> as Structure<A>>⟧.rules.written;
      other = ⟦<Kept<A> as Structure<A>>⟧.rules.written;
    } tag x };

    fn visit_under<V: Visitor>(&self, tag: u32, visitor: &mut V) -> Result<(), AllocError> {
        match self {
            AttributeStructure::Name(it) => visit_structure::<_, V, A>(it, tag, visitor),
            AttributeStructure::CryptographicParameters(it) => {
                visit_boxed::<_, V, A>(it, tag, visitor)
            }
            AttributeStructure::CryptographicDomainParameters(it) => {
                visit_structure::<_, V, A>(it, tag, visitor)
            }
            AttributeStructure::CertificateIdentifier(it) => {
                visit_structure::<_, V, A>(it, tag, visitor)
            }
            AttributeStructure::CertificateSubject(it) => {
                visit_structure::<_, V, A>(it, tag, visitor)
            }
            AttributeStructure::CertificateIssuer(it) => {
                visit_structure::<_, V, A>(it, tag, visitor)
            }
            AttributeStructure::Digest(it) => visit_structure::<_, V, A>(it, tag, visitor),
            AttributeStructure::UsageLimits(it) => visit_structure::<_, V, A>(it, tag, visitor),
            AttributeStructure::RevocationReason(it) => {
                visit_structure::<_, V, A>(it, tag, visitor)
            }
            AttributeStructure::Link(it) => visit_structure::<_, V, A>(it, tag, visitor),
            AttributeStructure::ApplicationSpecificInformation(it) => {
                visit_structure::<_, V, A>(it, tag, visitor)
            }
            AttributeStructure::Other(it) => visit_structure::<_, V, A>(it, tag, visitor),
        }
    }
}

// The leaf that a value is that is no structure.
#[tactic(auto, unfolding(crate::specs::Tags::value_under))]
fn leaf_of<A: Allocator>(value: &AttributeValue<A>) -> Leaf<'_>
    requires { (x : AttributeStructure A) → value.now ≡ AttributeValue.Structure x → ⊥ }
    ensures { (f : ℕ → AttributeStructure A → Value) (tag : ℕ) → value_under f tag value.now ≡ newtype_value (wrapper_name tag) (leaf_value result) }
{
    match value {
        AttributeValue::ObjectType(it) => Leaf::U32(it.number),
        AttributeValue::CryptographicAlgorithm(it) => Leaf::U32(it.number),
        AttributeValue::CertificateType(it) => Leaf::U32(it.number),
        AttributeValue::State(it) => Leaf::U32(it.number),
        AttributeValue::Integer(it) => Leaf::I32(*it),
        AttributeValue::LongInteger(it) => Leaf::I64(*it),
        AttributeValue::BigInteger(it) => Leaf::BigInteger(it.bytes.as_slice()),
        AttributeValue::Enumeration(it) => Leaf::U32(*it),
        AttributeValue::Boolean(it) => Leaf::Bool(*it),
        AttributeValue::TextString(it) => Leaf::Text(it.as_str()),
        AttributeValue::ByteString(it) => Leaf::Bytes(it.as_slice()),
        AttributeValue::DateTime(it) => Leaf::DateTime(it.0),
        AttributeValue::Interval(it) => Leaf::Interval(it.0),
        AttributeValue::Structure(_) => unreachable!(),
    }
}

impl<A: Allocator + Copy> UnderTag for AttributeValue<A> {
    ghost under = { λ x tag. value_under (λ t s. ⟦<AttributeStructure<A> as UnderTag>⟧.under s t) tag x };

    fn visit_under<V: Visitor>(&self, tag: u32, visitor: &mut V) -> Result<(), AllocError> {
        match self {
            AttributeValue::Structure(it) => it.visit_under(tag, visitor),
            _ => tagged(visitor, tag, leaf_of(self)),
        }
    }
}

/// What is an item of its own tag.
pub trait Item {
    ghost use Rattle.kmip_ttlv_base.specs.Values.{Value};

    // The item that it is.
    ghost item: { Self → Value };

    /// Calls a visitor with it. The error is the visitor's.
    fn visit_item<V: Visitor>(&self, visitor: &mut V) -> Result<(), AllocError>
        ensures received { OnOk result (Receives V.knows V.step (item self.now) visitor.old visitor.new) }
        ensures stopped { OnErr result (V.stopped visitor.new) };
}

// The tag of an attribute's name, or 0 if that has none.
fn tag_of<A: Allocator>(attribute: &Attribute<A>) -> u32
    ensures { result ≡ tag_or_zero (attribute_tag (string_bytes attribute.now.name)) }
{
    match attribute_tag(attribute.name.as_str()) {
        Some(tag) => tag,
        None => 0,
    }
}

impl<A: Allocator + Copy> Item for Attribute<A> {
    ghost item = { λ x. ⟦<AttributeValue<A> as UnderTag>⟧.under x.value (tag_or_zero (attribute_tag (string_bytes x.name))) };

    fn visit_item<V: Visitor>(&self, visitor: &mut V) -> Result<(), AllocError> {
        let tag = tag_of(self);
        self.value.visit_under(tag, visitor)
    }
}

// Calls a visitor with each of these. The error is the visitor's.
fn visit_each<T: Item, V: Visitor>(items: &[T], visitor: &mut V) -> Result<(), AllocError>
    ensures received { OnOk result (ReceivesEach V.knows V.step (values_of (map T.item items.now)) visitor.old visitor.new) }
    ensures stopped { OnErr result (V.stopped visitor.new) }
{
    for item in items {
        item.visit_item(visitor)?;
    }
    Ok(())
}

// Calls a visitor with each of these. The error is the visitor's.
fn visit_all<T: Item, V: Visitor, A: Allocator>(
    items: &Vec<T, A>,
    visitor: &mut V,
) -> Result<(), AllocError>
    ensures received { OnOk result (ReceivesEach V.knows V.step (values_of (map T.item items.now.items)) visitor.old visitor.new) }
    ensures stopped { OnErr result (V.stopped visitor.new) }
{
    visit_each(items.as_slice(), visitor)
}

// The structure Attributes of these.
#[derive(Drop)]
struct ByTags<'t, A: Allocator + Copy> {
    attributes: &'t Attributes<A>,
}

impl<A: Allocator + Copy> Serialize for ByTags<'_, A> {
    ghost stated = { λ x. struct_value (tag_text 0x420125) (values_of (map ⟦<Attribute<A> as Item>⟧.item x.attributes.now.list.items)) };

    fn visit<V: Visitor>(&self, visitor: &mut V) -> Result<(), AllocError> {
        begin_structure(visitor, ATTRIBUTES)?;
        visit_all(&self.attributes.list, visitor)?;
        end_structure(visitor, ATTRIBUTES)?;
        Ok(())
    }
}

// Whether an attribute's name has a tag.
fn has_tag<A: Allocator>(attribute: &Attribute<A>) -> bool
    ensures { result ≡ is_some (attribute_tag (string_bytes attribute.now.name)) }
{
    attribute_tag(attribute.name.as_str()).is_some()
}

// The first of these attributes whose name has no tag.
fn first_untagged<A: Allocator>(list: &[Attribute<A>]) -> Option<&Attribute<A>>
    ensures { option_map (λ attribute. string_bytes attribute.now.name) result ≡ untagged list.now }
{
    let mut left = list;
    while let Some((attribute, rest)) = left.split_first() {
        if !has_tag(attribute) {
            return Some(attribute);
        }
        left = rest;
    }
    None
}

/// The error that a name is no tag.
pub(crate) fn no_tag<A: Allocator + Copy>(alloc: A, name: &str) -> Error<A>
    ensures { IsNoTag name.now result }
{
    match name.to_string(alloc) {
        Ok(name) => Error::new(
            ErrorKind::SerdeError(SerdeError::InvalidTag(name)),
            ErrorLocation::unknown(),
        ),
        Err(error) => Error::from(error),
    }
}

// The error that an attribute's name is no tag.
fn not_tagged<A: Allocator + Copy>(alloc: A, attribute: &Attribute<A>) -> Error<A>
    ensures { IsNoTag (string_bytes attribute.now.name) result }
{
    no_tag(alloc, attribute.name.as_str())
}

/// What goes by tags from KMIP 2.0 on.
pub trait Tagged<A: Allocator + Copy>: Sized {
    ghost use Rattle.std.specs.Prelude.{Result};
    ghost use Rattle.kmip_ttlv_base.specs.declared.error.Error.{Error};
    ghost use Rattle.kmip_ttlv_parts.specs.declared.kept.Kept.{Kept};

    // This is returned for what it has as items.
    ghost IsTagged: { Self → Result (Kept A) (Error A) → Type 0 };

    // This is returned for items.
    ghost IsOfTags: { Kept A → Result Self (Error A) → Type 0 };

    /// The items that KMIP 2.0 has in a structure Attributes: each attribute's value under the tag of its name, in their order. An index
    /// is left out, since there an attribute that comes again is only another item.
    ///
    /// It fails with `InvalidTag` if a name has no tag (`names::attribute_tag`), as that of a vendor's attribute, and otherwise as
    /// `to_vec` does of that structure; or if an item has more than 64 levels.
    fn to_tags(&self, alloc: A) -> Result<Kept<A>, Error<A>>
        ensures { IsTagged self.now result };

    /// The attributes that KMIP 2.0 has as these items: each of the name of its tag (`names::attribute_name`), in their order. An item
    /// whose tag is no attribute's of the standard is one, too: its name is the tag's digits, so none is lost.
    ///
    /// It fails as decoding the same attributes does in KMIP 1.x: if a Name has no text, say. Its offset counts
    /// in those attributes.
    fn from_tags(alloc: A, items: &Kept<A>) -> Result<Self, Error<A>>
        ensures { IsOfTags items.now result };
}

impl<A: Allocator + Copy> Tagged<A> for Attributes<A> {
    ghost IsTagged = { λ x result. Tags (untagged x.list.items)
        (IsReadFrom (struct_value (tag_text 0x420125) (values_of (map ⟦<Attribute<A> as Item>⟧.item x.list.items)))
        (structure_form 0x420125 ⟦<Kept<A> as Structure<A>>⟧.rules.fields ⟦<Kept<A> as Structure<A>>⟧.rules.closed)
        (structure_value 0x420125 (within ⟦<Kept<A> as Structure<A>>⟧.rules.values))) result };

    ghost IsOfTags = { λ items result. NamesItems (λ raw. AreNamed (λ tag x. ⟦<AttributeValue<A> as UnderTag>⟧.under x tag) (values_kept items) raw.list.items)
        (λ raw. IsReadFrom (structure_value 0x420091 (within ⟦<Attributes<A> as Structure<A>>⟧.rules.written) raw)
        (structure_form 0x420091 ⟦<Attributes<A> as Structure<A>>⟧.rules.fields ⟦<Attributes<A> as Structure<A>>⟧.rules.closed)
        (structure_value 0x420091 (within ⟦<Attributes<A> as Structure<A>>⟧.rules.values))) result };

    fn to_tags(&self, alloc: A) -> Result<Kept<A>, Error<A>> {
        match first_untagged(self.list.as_slice()) {
            Some(attribute) => Err(not_tagged(alloc, attribute)),
            None => read_again(alloc, &ByTags { attributes: self }, ATTRIBUTES),
        }
    }

    fn from_tags(alloc: A, items: &Kept<A>) -> Result<Attributes<A>, Error<A>> {
        match raw(alloc, items) {
            Ok(raw) => convert(alloc, raw, ALONE),
            Err(error) => Err(Error::from(error)),
        }
    }
}
