//! Reading by a shape: one cycle of functions. Each returns the outcome of its form, or runs out of memory.

ghost use Rattle.std.specs.Prelude.{◌≡◌, ◌+◌, ◌≤◌, length, IfOk};
ghost use Rattle.kmip_ttlv_base.specs.Values.{view, views};
ghost use Rattle.kmip_ttlv_base.specs.Forms.{form_of, forms_of, fields_of, variants_of, content_of};
ghost use Rattle.kmip_ttlv_reader.specs.Reads.{is_option, is_struct};
ghost use Rattle.kmip_ttlv_reader.specs.Outcomes.{outcome, fields_outcome, field_outcome, seq_outcome, struct_outcome};
ghost use Rattle.kmip_ttlv_reader.specs.Outcomes.{all_outcome, enum_outcome, variant_outcome, content_outcome};
ghost use Rattle.kmip_ttlv_reader.specs.Outcomes.{tuple_outcome, forms_outcome, part_outcome};
ghost use Rattle.kmip_ttlv_reader.specs.Results.{IsRead};

use crate::made::{newtype, newtype_variant, some};
use crate::number::read_number;
use crate::rest::read_rest;
use crate::variant::{chosen, chosen_unit};
use kmip_ttlv_base::shape::{Data, FieldShape, Shape, VariantContent, VariantShape};
use kmip_ttlv_base::types::TtlvType;
use kmip_ttlv_reader::cursor::missing_field;
use kmip_ttlv_reader::failure::{Step, in_struct, within};
use kmip_ttlv_reader::head::{
    goes_on, has_tag, inside, length_there, opened, structure_wanted, tag_at, tag_wanted,
    type_there,
};
use kmip_ttlv_reader::leaf::{Leaf, read_leaf};
use kmip_ttlv_reader::scope::Scope;
use kmip_ttlv_reader::store::TagValueStore;
use std::alloc::Allocator;

#[inline(always)]
fn is_option<A: Allocator>(shape: &Shape<A>) -> bool
    ensures { result ≡ is_option (form_of shape.now) }
{
    matches!(shape, Shape::Option(_))
}

// Whether the shape is a struct, newtypes taken off.
fn is_struct<A: Allocator>(shape: &Shape<A>) -> bool
    ensures { result ≡ is_struct (form_of shape.now) }
{
    match shape {
        Shape::Struct { .. } => true,
        Shape::Newtype { inner, .. } => is_struct(inner),
        _ => false,
    }
}

/// What a shape reads from `pos` on.
#[cycle(reader)]
#[tactic(auto, unfolding(kmip_ttlv_reader::specs::Outcomes::outcome), using(kmip_ttlv_reader::proofs::Steps::failure_then))]
pub fn read_shape<'b, A: Allocator + Copy>(
    scope: &Scope<'b, A>,
    shape: &Shape<A>,
    pos: usize,
    stored: &mut TagValueStore<'b, A>,
) -> Step<(Data<A>, usize), A>
    requires inside { pos ≤ length scope.now.bytes.now }
    ensures read { IsRead view stored.new
        (outcome (form_of shape.now) scope.now.bytes.now scope.now.owner stored.old pos scope.now.end) result }
    ensures further { IfOk result (λ r. (pos + 8 ≤ r.1) × (r.1 ≤ scope.now.end) × (r.1 ≤ length scope.now.bytes.now)) }
{
    match shape {
        Shape::I32 => read_leaf(scope, Leaf::I32, pos, stored),
        Shape::I64 => read_leaf(scope, Leaf::I64, pos, stored),
        Shape::Bool => read_leaf(scope, Leaf::Bool, pos, stored),
        Shape::Text => read_leaf(scope, Leaf::Text, pos, stored),
        Shape::Bytes => read_leaf(scope, Leaf::Bytes, pos, stored),
        Shape::DateTime => read_leaf(scope, Leaf::DateTime, pos, stored),
        Shape::Interval => read_leaf(scope, Leaf::Interval, pos, stored),
        Shape::BigInteger => read_leaf(scope, Leaf::BigInteger, pos, stored),
        Shape::U32 => read_leaf(scope, Leaf::U32, pos, stored),
        Shape::Enum { name, variants } => read_enum(scope, name, variants, pos, stored),
        Shape::Option(inner) => {
            let (data, next) = read_shape(scope, inner, pos, stored)?;
            Ok((some(scope.alloc, data)?, next))
        }
        Shape::Newtype { name, inner } => {
            let (data, next) = read_shape(scope, inner, pos, stored)?;
            Ok((newtype(scope.alloc, name, data)?, next))
        }
        Shape::Seq(inner) => {
            let (all, next) = read_seq(scope, inner, pos, stored)?;
            Ok((Data::Seq(all), next))
        }
        Shape::Struct {
            name,
            fields,
            deny_unknown,
        } => {
            let (fields, next) = read_struct(scope, name, fields, *deny_unknown, pos, stored)?;
            Ok((Data::Struct { name, fields }, next))
        }
    }
}

/// A structure: its header, its fields, and its end.
#[cycle(reader)]
#[tactic(auto, unfolding(kmip_ttlv_reader::specs::Outcomes::struct_outcome), using(kmip_ttlv_reader::proofs::Steps::failure_then))]
#[inline(always)]
fn read_struct<'b, A: Allocator + Copy>(
    scope: &Scope<'b, A>,
    name: &str,
    fields: &[FieldShape<A>],
    deny: bool,
    pos: usize,
    stored: &mut TagValueStore<'b, A>,
) -> Step<(Vec<Data<A>, A>, usize), A>
    requires inside { pos ≤ length scope.now.bytes.now }
    ensures read { IsRead (λ v. views v.items) stored.new
        (struct_outcome name.now (fields_of fields.now) deny (fields_outcome (fields_of fields.now))
        scope.now.bytes.now scope.now.owner stored.old pos scope.now.end) result }
    ensures further { IfOk result (λ r. (pos + 8 ≤ r.1) × (r.1 ≤ scope.now.end) × (r.1 ≤ length scope.now.bytes.now)) }
{
    let stop = opened(scope.alloc, name, scope.bytes, pos)?;
    let owner = tag_at(scope.bytes, pos);
    let content = Scope {
        alloc: scope.alloc,
        bytes: scope.bytes,
        owner,
        end: stop,
    };
    match read_content(&content, fields, deny, pos + 8, stored) {
        Ok((values, stop)) => {
            inside(
                scope.alloc,
                scope.bytes,
                pos,
                scope.end,
                TtlvType::Structure,
                stop,
            )?;
            Ok((values, stop))
        }
        Err(failure) => Err(within(owner, failure)),
    }
}

/// All that a structure contains: the fields, and what may follow.
#[cycle(reader)]
#[tactic(auto, unfolding(kmip_ttlv_reader::specs::Outcomes::all_outcome), using(kmip_ttlv_reader::proofs::Steps::failure_then))]
pub fn read_content<'b, A: Allocator + Copy>(
    scope: &Scope<'b, A>,
    fields: &[FieldShape<A>],
    deny: bool,
    pos: usize,
    stored: &mut TagValueStore<'b, A>,
) -> Step<(Vec<Data<A>, A>, usize), A>
    requires inside { pos ≤ length scope.now.bytes.now }
    requires before { pos ≤ scope.now.end }
    ensures read { IsRead (λ v. views v.items) stored.new
        (all_outcome (fields_of fields.now) deny (fields_outcome (fields_of fields.now))
        scope.now.bytes.now scope.now.owner stored.old pos scope.now.end) result }
    ensures whole { IfOk result (λ r. (r.1 ≡ scope.now.end) × (scope.now.end ≤ length scope.now.bytes.now)) }
{
    let (values, next) = read_fields(scope, fields, pos, stored)?;
    let next = read_rest(scope, fields, deny, next)?;
    Ok((values, next))
}

/// The fields, one after the other.
#[cycle(reader)]
#[tactic(auto, using(kmip_ttlv_reader::proofs::Steps::failure_then))]
fn read_fields<'b, A: Allocator + Copy>(
    scope: &Scope<'b, A>,
    fields: &[FieldShape<A>],
    pos: usize,
    stored: &mut TagValueStore<'b, A>,
) -> Step<(Vec<Data<A>, A>, usize), A>
    requires inside { pos ≤ length scope.now.bytes.now }
    requires before { pos ≤ scope.now.end }
    ensures read { IsRead (λ v. views v.items) stored.new
        (fields_outcome (fields_of fields.now) scope.now.bytes.now scope.now.owner stored.old pos scope.now.end) result }
    ensures further { IfOk result (λ r. (pos ≤ r.1) × (r.1 ≤ scope.now.end) × (r.1 ≤ length scope.now.bytes.now)) }
{
    let mut values = Vec::with_capacity(scope.alloc, fields.len())?;
    let mut next = pos;
    for field in fields {
        let (value, after) = read_field(scope, field.name, &field.shape, next, stored)?;
        values.push(value)?;
        next = after;
    }
    Ok((values, next))
}

/// One field: a struct goes by its own name, any other by the field's, and an option may be left out.
#[cycle(reader)]
#[tactic(auto, unfolding(kmip_ttlv_reader::specs::Outcomes::field_outcome), using(kmip_ttlv_reader::proofs::Steps::failing))]
#[inline(always)]
fn read_field<'b, A: Allocator + Copy>(
    scope: &Scope<'b, A>,
    name: &str,
    shape: &Shape<A>,
    pos: usize,
    stored: &mut TagValueStore<'b, A>,
) -> Step<(Data<A>, usize), A>
    requires inside { pos ≤ length scope.now.bytes.now }
    requires before { pos ≤ scope.now.end }
    ensures read { IsRead view stored.new
        (field_outcome name.now (form_of shape.now) (outcome (form_of shape.now))
        scope.now.bytes.now scope.now.owner stored.old pos scope.now.end) result }
    ensures further { IfOk result (λ r. (pos ≤ r.1) × (r.1 ≤ scope.now.end) × (r.1 ≤ length scope.now.bytes.now)) }
{
    if pos == scope.end {
        if is_option(shape) {
            return Ok((Data::None, pos));
        }
        return Err(missing_field(scope));
    }
    if is_struct(shape) {
        return read_shape(scope, shape, pos, stored);
    }
    let typ = type_there(scope.alloc, scope.bytes, pos)?;
    if !has_tag(name, tag_at(scope.bytes, pos)) {
        if is_option(shape) {
            return Ok((Data::None, pos));
        }
        tag_wanted(scope.alloc, name, scope.bytes, pos, typ)?;
    }
    read_shape(scope, shape, pos, stored)
}

/// A sequence: the first item, and then as long as the next has its tag and type.
#[cycle(reader)]
#[tactic(auto, unfolding(kmip_ttlv_reader::specs::Outcomes::seq_outcome), using(kmip_ttlv_reader::proofs::Steps::failure_then))]
fn read_seq<'b, A: Allocator + Copy>(
    scope: &Scope<'b, A>,
    shape: &Shape<A>,
    pos: usize,
    stored: &mut TagValueStore<'b, A>,
) -> Step<(Vec<Data<A>, A>, usize), A>
    requires inside { pos ≤ length scope.now.bytes.now }
    ensures read { IsRead (λ v. views v.items) stored.new
        (seq_outcome (outcome (form_of shape.now)) scope.now.bytes.now scope.now.owner stored.old pos scope.now.end) result }
    ensures further { IfOk result (λ r. (pos + 8 ≤ r.1) × (r.1 ≤ scope.now.end) × (r.1 ≤ length scope.now.bytes.now)) }
{
    let mut values = Vec::new(scope.alloc);
    let (first, after) = read_shape(scope, shape, pos, stored)?;
    values.push(first)?;
    let mut next = after;
    while goes_on(scope.alloc, scope.bytes, pos, next, scope.end)? {
        let (value, after) = read_shape(scope, shape, next, stored)?;
        values.push(value)?;
        next = after;
    }
    Ok((values, next))
}

/// An enum, by the rules of its variants, or else by a number.
#[cycle(reader)]
#[tactic(auto, unfolding(kmip_ttlv_reader::specs::Outcomes::enum_outcome), using(kmip_ttlv_reader::proofs::Steps::failure_then))]
#[inline(always)]
fn read_enum<'b, A: Allocator + Copy>(
    scope: &Scope<'b, A>,
    name: &'static str,
    variants: &[VariantShape<A>],
    pos: usize,
    stored: &mut TagValueStore<'b, A>,
) -> Step<(Data<A>, usize), A>
    requires inside { pos ≤ length scope.now.bytes.now }
    ensures read { IsRead view stored.new
        (enum_outcome name.now (variants_of variants.now) (variant_outcome name.now (variants_of variants.now))
        scope.now.bytes.now scope.now.owner stored.old pos scope.now.end) result }
    ensures further { IfOk result (λ r. (pos + 8 ≤ r.1) × (r.1 ≤ scope.now.end) × (r.1 ≤ length scope.now.bytes.now)) }
{
    let typ = type_there(scope.alloc, scope.bytes, pos)?;
    let index = chosen(scope.alloc, variants, stored, typ, scope.bytes, pos)?;
    match index {
        Some(i) => read_variant(scope, name, &variants[i], typ, pos, stored),
        None => read_number(scope, name, variants, typ, pos, stored),
    }
}

/// What a variant contains that a rule chose.
#[cycle(reader)]
#[tactic(auto, unfolding(kmip_ttlv_reader::specs::Outcomes::content_outcome), using(kmip_ttlv_reader::proofs::Steps::failing))]
fn read_variant<'b, A: Allocator + Copy>(
    scope: &Scope<'b, A>,
    name: &'static str,
    shape: &VariantShape<A>,
    typ: TtlvType,
    pos: usize,
    stored: &mut TagValueStore<'b, A>,
) -> Step<(Data<A>, usize), A>
    requires there { pos + 4 ≤ length scope.now.bytes.now }
    ensures read { IsRead view stored.new
        (content_outcome name.now shape.now.name.now (content_of shape.now.content) typ
        scope.now.bytes.now scope.now.owner stored.old pos scope.now.end) result }
    ensures further { IfOk result (λ r. (pos + 8 ≤ r.1) × (r.1 ≤ scope.now.end) × (r.1 ≤ length scope.now.bytes.now)) }
{
    let variant = shape.name;
    match &shape.content {
        VariantContent::Unit => { Err(chosen_unit(scope.alloc, scope.bytes, pos, typ)) }
        VariantContent::Newtype(inner) => {
            let (data, next) = read_shape(scope, inner, pos, stored)?;
            Ok((newtype_variant(scope.alloc, name, variant, data)?, next))
        }
        VariantContent::Tuple(shapes) => {
            let (fields, next) = read_tuple(scope, shapes, typ, pos, stored)?;
            let data = Data::TupleVariant {
                name,
                variant,
                fields,
            };
            Ok((data, next))
        }
    }
}

/// A structure whose items the shapes use up.
#[cycle(reader)]
#[tactic(auto, unfolding(kmip_ttlv_reader::specs::Outcomes::tuple_outcome), using(kmip_ttlv_reader::proofs::Steps::failing))]
fn read_tuple<'b, A: Allocator + Copy>(
    scope: &Scope<'b, A>,
    shapes: &[Shape<A>],
    typ: TtlvType,
    pos: usize,
    stored: &mut TagValueStore<'b, A>,
) -> Step<(Vec<Data<A>, A>, usize), A>
    requires there { pos + 4 ≤ length scope.now.bytes.now }
    ensures read { IsRead (λ v. views v.items) stored.new
        (tuple_outcome typ (forms_outcome (forms_of shapes.now))
        scope.now.bytes.now scope.now.owner stored.old pos scope.now.end) result }
    ensures further { IfOk result (λ r. (pos + 8 ≤ r.1) × (r.1 ≤ scope.now.end) × (r.1 ≤ length scope.now.bytes.now)) }
{
    structure_wanted(scope.alloc, scope.bytes, pos, typ)?;
    let n = length_there(scope.bytes, pos)?;
    let stop = pos + 8 + n as usize;
    let content = Scope {
        alloc: scope.alloc,
        bytes: scope.bytes,
        owner: scope.owner,
        end: stop,
    };
    let (values, next) = read_parts(&content, shapes, pos + 8, stored)?;
    if next < stop {
        return Err(in_struct(scope.alloc, next, scope.owner, "too many items"));
    }
    inside(scope.alloc, scope.bytes, pos, scope.end, typ, stop)?;
    Ok((values, stop))
}

/// The items of a structure, one for each shape.
#[cycle(reader)]
#[tactic(auto, using(kmip_ttlv_reader::proofs::Steps::failure_then))]
fn read_parts<'b, A: Allocator + Copy>(
    scope: &Scope<'b, A>,
    shapes: &[Shape<A>],
    pos: usize,
    stored: &mut TagValueStore<'b, A>,
) -> Step<(Vec<Data<A>, A>, usize), A>
    requires inside { pos ≤ length scope.now.bytes.now }
    requires before { pos ≤ scope.now.end }
    ensures read { IsRead (λ v. views v.items) stored.new
        (forms_outcome (forms_of shapes.now) scope.now.bytes.now scope.now.owner stored.old pos scope.now.end) result }
    ensures further { IfOk result (λ r. (pos ≤ r.1) × (r.1 ≤ scope.now.end) × (r.1 ≤ length scope.now.bytes.now)) }
{
    let mut values = Vec::with_capacity(scope.alloc, shapes.len())?;
    let mut next = pos;
    for shape in shapes {
        let (value, after) = read_part(scope, shape, next, stored)?;
        values.push(value)?;
        next = after;
    }
    Ok((values, next))
}

/// One item of a tuple, which must be there.
#[cycle(reader)]
#[tactic(auto, unfolding(kmip_ttlv_reader::specs::Outcomes::part_outcome), using(kmip_ttlv_reader::proofs::Steps::failing))]
#[inline(always)]
fn read_part<'b, A: Allocator + Copy>(
    scope: &Scope<'b, A>,
    shape: &Shape<A>,
    pos: usize,
    stored: &mut TagValueStore<'b, A>,
) -> Step<(Data<A>, usize), A>
    requires inside { pos ≤ length scope.now.bytes.now }
    requires before { pos ≤ scope.now.end }
    ensures read { IsRead view stored.new
        (part_outcome (outcome (form_of shape.now))
        scope.now.bytes.now scope.now.owner stored.old pos scope.now.end) result }
    ensures further { IfOk result (λ r. (pos ≤ r.1) × (r.1 ≤ scope.now.end) × (r.1 ≤ length scope.now.bytes.now)) }
{
    if pos == scope.end {
        return Err(in_struct(scope.alloc, scope.end, scope.owner, "too few items"));
    }
    read_shape(scope, shape, pos, stored)
}
