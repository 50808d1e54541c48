//! A choice whose variants contain one form, several forms, or none: a type with a shape, whose value is the data that is read.

ghost use Rattle.std.specs.Prelude.{◌≡◌, IfOk, false};
ghost use Rattle.kmip_ttlv.specs.Forms.{enum, struct, tuple, wrapped, content_of, fields_of, form_of, forms_of, variants_of};
ghost use Rattle.kmip_ttlv.specs.Values.{view};
ghost use Rattle.ttlv_vectors.specs.Selections.{IsField, IsVariant, choice_form, selection_form};

use kmip_ttlv::shape::{
    ByShape, Data, Deserialize, FieldShape, Shape, VariantContent, VariantShape,
};
use std::alloc::{AllocError, Allocator, Global};
use std::mem;

/// A name, and what it chooses: a text, a number and bytes in a Structure, or an Enumeration of 3.
#[derive(Drop)]
#[derive_where(Debug, PartialEq)]
pub struct Choice<A: Allocator = Global> {
    /// Both, as they are read.
    pub data: Data<A>,
}

// A field of this name.
fn field<A: Allocator>(name: &'static str, shape: Shape<A>) -> FieldShape<A>
    ensures { IsField name.now (form_of shape) result }
{
    FieldShape { name, shape }
}

// A variant of this name.
fn variant<A: Allocator>(name: &'static str, content: VariantContent<A>) -> VariantShape<A>
    ensures { IsVariant name.now (content_of content) result }
{
    VariantShape { name, content }
}

// What one shape reads.
fn one<A: Allocator + Copy>(alloc: A, shape: Shape<A>) -> Result<VariantContent<A>, AllocError>
    ensures { IfOk result (λ c. content_of c ≡ wrapped (form_of shape)) }
{
    Ok(VariantContent::Newtype(Box::new(alloc, shape)?))
}

// What several shapes read from the items of a Structure.
fn several<A: Allocator>(shapes: Vec<Shape<A>, A>) -> VariantContent<A>
    ensures { content_of result ≡ tuple (forms_of shapes.items) }
{
    VariantContent::Tuple(shapes)
}

// A choice of these variants.
fn enumeration<A: Allocator>(name: &'static str, variants: Vec<VariantShape<A>, A>) -> Shape<A>
    ensures { form_of result ≡ enum name.now (variants_of variants.items) }
{
    Shape::Enum { name, variants }
}

// A Structure of these fields.
fn structure<A: Allocator>(name: &'static str, fields: Vec<FieldShape<A>, A>) -> Shape<A>
    ensures { form_of result ≡ struct name.now (fields_of fields.items) false }
{
    Shape::Struct {
        name,
        fields,
        deny_unknown: false,
    }
}

// What the name chooses.
fn selection<A: Allocator + Copy>(alloc: A) -> Result<Shape<A>, AllocError>
    ensures { IfOk result (λ s. form_of s ≡ selection_form) }
{
    let mut pair = Vec::new(alloc);
    pair.push(Shape::I32)?;
    pair.push(Shape::Bytes)?;
    let text = one(alloc, Shape::Text)?;
    let mut variants = Vec::new(alloc);
    variants.push(variant("if 0x540042==Text", text))?;
    variants.push(variant("if 0x540042 in [Pair, Two]", several(pair)))?;
    variants.push(variant("0x00000003", VariantContent::Unit))?;
    Ok(enumeration("0x540041", variants))
}

impl<A: Allocator> ByShape for Choice<A> {}

impl<A: Allocator + Copy> Deserialize<A> for Choice<A> {
    ghost form = { choice_form };

    ghost is_value = { λ v x. v ≡ view x.data };

    fn shape(alloc: A) -> Result<Shape<A>, AllocError> {
        let mut fields = Vec::new(alloc);
        fields.push(field("0x540042", Shape::Text))?;
        fields.push(field("0x540041", selection(alloc)?))?;
        Ok(structure("0x540050", fields))
    }

    fn from_data(_alloc: A, value: &mut Data<A>) -> Result<Choice<A>, AllocError> {
        let data = mem::replace(value, Data::None);
        Ok(Choice { data })
    }
}
