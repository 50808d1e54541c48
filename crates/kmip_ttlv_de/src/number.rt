//! Enums that are read by a number: the text that names a variant.

ghost use Rattle.std.specs.Prelude.{◌≡◌, ◌+◌, ◌≤◌, length, IfOk, IfSome, option_map};
ghost use Rattle.kmip_ttlv_base.specs.Values.{view};
ghost use Rattle.kmip_ttlv_base.specs.Forms.{variants_of, content_of};
ghost use Rattle.kmip_ttlv_reader.specs.Reads.{is_number_type, first_named};
ghost use Rattle.kmip_ttlv_reader.specs.Outcomes.{number_outcome, unit_wanted, named_content};
ghost use Rattle.kmip_ttlv_reader.specs.Results.{IsRead, IsStep, IsFailureOf};

use kmip_ttlv_base::error::MalformedTtlvError;
use kmip_ttlv_base::shape::{Data, VariantContent, VariantShape};
use kmip_ttlv_base::types::{FieldType, TtlvType};
use kmip_ttlv_reader::failure::{Cause, Failure, Step, at_item, in_struct};
use kmip_ttlv_reader::head::{
    content_there, inside, is_number_type, length_there, length_wanted, tag_at, type_wanted,
};
use kmip_ttlv_reader::number_text::number_text;
use kmip_ttlv_reader::scope::Scope;
use kmip_ttlv_reader::store::TagValueStore;
use std::alloc::Allocator;
use std::str;

// The first variant of this name.
#[inline(always)]
fn first_named<'s, A: Allocator>(
    name: &str,
    variants: &'s [VariantShape<A>],
) -> Option<&'s VariantShape<A>>
    ensures content { option_map (λ v. content_of v.now.content) result
        ≡ first_named name.now (variants_of variants.now) }
    ensures name { IfSome result (λ v. v.now.name.now ≡ name.now) }
{
    for variant in variants {
        if variant.name == name {
            return Some(variant);
        }
    }
    None
}

// Content at a variant that a number names.
#[cold]
fn named_content<A: Allocator + Copy>(
    alloc: A,
    bytes: &[u8],
    pos: usize,
    typ: TtlvType,
    actual: FieldType,
) -> Failure<A>
    requires there { pos + 4 ≤ length bytes.now }
    ensures { IsFailureOf (named_content bytes.now pos typ actual) result }
{
    let cause = Cause::Malformed(MalformedTtlvError::UnexpectedTtlvField {
        expected: FieldType::Tag,
        actual,
    });
    at_item(alloc, bytes, pos, 16, typ, cause)
}

// The name of the unit variant that a number's text names.
#[tactic(auto, using(kmip_ttlv_reader::proofs::Steps::fault_is))]
#[inline(always)]
fn named_unit<A: Allocator + Copy>(
    scope: &Scope<'_, A>,
    variants: &[VariantShape<A>],
    typ: TtlvType,
    pos: usize,
    text: &str,
) -> Step<&'static str, A>
    requires there { pos + 4 ≤ length scope.now.bytes.now }
    ensures step { IsStep (λ _. tt) (unit_wanted scope.now.bytes.now scope.now.owner pos typ
        (first_named text.now (variants_of variants.now))) result }
    ensures name { IfOk result (λ name. name.now ≡ text.now) }
{
    let Some(variant) = first_named(text, variants) else {
        return Err(in_struct(scope.alloc, pos + 16, scope.owner, "unknown variant"));
    };
    match variant.content {
        VariantContent::Unit => Ok(variant.name),
        VariantContent::Newtype(_) => {
            let actual = FieldType::LengthAndValue;
            Err(named_content(scope.alloc, scope.bytes, pos, typ, actual))
        }
        VariantContent::Tuple(_) => {
            let actual = FieldType::Length;
            Err(named_content(scope.alloc, scope.bytes, pos, typ, actual))
        }
    }
}

/// The variant that a number names.
#[tactic(auto, unfolding(kmip_ttlv_reader::specs::Outcomes::number_outcome), using(kmip_ttlv_reader::proofs::Steps::failure_then))]
#[inline(always)]
pub fn read_number<'b, A: Allocator + Copy>(
    scope: &Scope<'b, A>,
    name: &'static str,
    variants: &[VariantShape<A>],
    typ: TtlvType,
    pos: usize,
    stored: &mut TagValueStore<'b, A>,
) -> Step<(Data<A>, usize), A>
    requires there { pos + 4 ≤ length scope.now.bytes.now }
    ensures read { IsRead view stored.new (number_outcome name.now (variants_of variants.now) typ
        scope.now.bytes.now scope.now.owner stored.old pos scope.now.end) result }
    ensures further { IfOk result (λ r. (pos + 8 ≤ r.1) × (r.1 ≤ scope.now.end) × (r.1 ≤ length scope.now.bytes.now)) }
{
    type_wanted(
        scope.alloc,
        is_number_type(typ),
        TtlvType::Enumeration,
        scope.bytes,
        pos,
        typ,
    )?;
    let _ = length_there(scope.bytes, pos)?;
    length_wanted(scope.alloc, scope.bytes, pos, 4, typ, Some(4))?;
    let (content, next) = content_there(scope.alloc, scope.bytes, pos, typ)?;
    let digits = number_text(content);
    let text = unsafe { str::from_utf8_unchecked(&digits) };
    let variant = named_unit(scope, variants, typ, pos, text)?;
    inside(scope.alloc, scope.bytes, pos, scope.end, typ, next)?;
    let lent: &'b str = variant;
    stored.store(tag_at(scope.bytes, pos), lent)?;
    Ok((Data::UnitVariant { name, variant }, next))
}
