//! Which variant of an enum the rules choose.

ghost use Rattle.std.specs.Prelude.{◌≡◌, ◌+◌, ◌<◌, ◌≤◌, length, IfOk, IfSome};
ghost use Rattle.kmip_ttlv_types.specs.declared.field.FieldType.TheVariants.{Length, Tag};
ghost use Rattle.kmip_ttlv_base.specs.declared.error.MalformedTtlvError.TheVariants as malformeds;
ghost use Rattle.kmip_ttlv_base.specs.Errors.{malformed};
ghost use Rattle.kmip_ttlv_base.specs.Forms.{variants_of};
ghost use Rattle.kmip_ttlv_reader.specs.Verdicts.{choice_of};
ghost use Rattle.kmip_ttlv_reader.specs.Rules.{choice};
ghost use Rattle.kmip_ttlv_reader.specs.Outcomes.{picked};
ghost use Rattle.kmip_ttlv_reader.specs.ReadFaults.{at_item};
ghost use Rattle.kmip_ttlv_reader.specs.Results.{IsStep, IsFailureOf};

use kmip_ttlv_base::error::MalformedTtlvError;
use kmip_ttlv_base::shape::VariantShape;
use kmip_ttlv_base::types::{FieldType, TtlvType};
use kmip_ttlv_reader::failure::{Cause, Failure, Step, at_item};
use kmip_ttlv_reader::rules::{RuleError, Verdict, bad_rule, rule};
use kmip_ttlv_reader::store::TagValueStore;
use std::alloc::Allocator;

// The index of the first variant whose rule holds, and none where no rule does: the item's number
// chooses then. A rule before it that is an error ends the search with its error.
#[inline(always)]
fn choose<'n, 'b, A: Allocator + Copy, B: Allocator>(
    variants: &'n [VariantShape<B>],
    stored: &'n TagValueStore<'b, A>,
    typ: TtlvType,
) -> Result<Option<usize>, RuleError<'n>>
    ensures choice { choice_of result ≡ choice (variants_of variants.now) stored.now typ }
    ensures inside { IfOk result (λ o. IfSome o (λ i. i < length variants.now)) }
{
    for (i, variant) in variants.iter().enumerate() {
        match rule(variant.name, stored, typ) {
            Verdict::Holds => return Ok(Some(i)),
            Verdict::Refused(error) => return Err(error),
            Verdict::NoRule | Verdict::Fails => {}
        }
    }
    Ok(None)
}

/// The index of the variant that a rule chooses at an item of this type, if one does.
#[tactic(auto, using(kmip_ttlv_reader::proofs::Steps::fault_is))]
#[inline(always)]
pub fn chosen<'b, A: Allocator + Copy>(
    alloc: A,
    variants: &[VariantShape<A>],
    stored: &TagValueStore<'b, A>,
    typ: TtlvType,
    bytes: &[u8],
    pos: usize,
) -> Step<Option<usize>, A>
    requires there { pos + 4 ≤ length bytes.now }
    ensures step { IsStep (λ i. i) (picked (choice (variants_of variants.now) stored.now typ) bytes.now pos typ) result }
    ensures inside { IfOk result (λ o. IfSome o (λ i. i < length variants.now)) }
{
    match choose(variants, stored, typ) {
        Ok(Some(i)) => Ok(Some(i)),
        Ok(None) => Ok(None),
        Err(rule) => Err(bad_rule(alloc, bytes, pos, typ, rule)),
    }
}

/// A variant without content that a rule chose.
#[cold]
pub fn chosen_unit<A: Allocator + Copy>(
    alloc: A,
    bytes: &[u8],
    pos: usize,
    typ: TtlvType,
) -> Failure<A>
    requires there { pos + 4 ≤ length bytes.now }
    ensures { IsFailureOf (at_item bytes.now pos 4 typ (malformed (malformeds.UnexpectedTtlvField Length Tag))) result }
{
    let cause = Cause::Malformed(MalformedTtlvError::UnexpectedTtlvField {
        expected: FieldType::Length,
        actual: FieldType::Tag,
    });
    at_item(alloc, bytes, pos, 4, typ, cause)
}
