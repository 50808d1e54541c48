//! What follows the fields of a struct, up to the structure's end.

ghost use Rattle.std.specs.Prelude.{◌≡◌, suc, ◌+◌, ◌≤◌, length, IfOk};
ghost use Rattle.kmip_ttlv_base.specs.Forms.{fields_of};
ghost use Rattle.kmip_ttlv_reader.specs.Reads.{has_fields};
ghost use Rattle.kmip_ttlv_de.specs.FieldTags.{HasTagsOf};
ghost use Rattle.kmip_ttlv_reader.specs.Outcomes.{rest_outcome, ignored};
ghost use Rattle.kmip_ttlv_reader.specs.Results.{IsStep};

use crate::field_tags::{is_field, tags_of};
use kmip_ttlv_base::error::SerdeError;
use kmip_ttlv_base::shape::FieldShape;
use kmip_ttlv_reader::failure::{Cause, Step, at_item, in_struct};
use kmip_ttlv_reader::head::{inside, item_end, tag_at, type_there};
use kmip_ttlv_reader::scope::Scope;
use std::alloc::Allocator;
use std::collections::BTreeSet;

/// What follows the fields, up to the end: in most messages nothing.
#[inline(always)]
pub fn read_rest<A: Allocator + Copy>(
    scope: &Scope<'_, A>,
    fields: &[FieldShape<A>],
    deny: bool,
    pos: usize,
) -> Step<usize, A>
    requires inside { pos ≤ length scope.now.bytes.now }
    requires before { pos ≤ scope.now.end }
    ensures step { IsStep (λ q. q)
        (rest_outcome (suc (length scope.now.bytes.now)) (fields_of fields.now) deny scope.now.bytes.now scope.now.owner pos scope.now.end) result }
    ensures whole { IfOk result (λ q. (q ≡ scope.now.end) × (scope.now.end ≤ length scope.now.bytes.now)) }
{
    if scope.end <= pos {
        return Ok(pos);
    }
    read_others(scope, fields, deny, pos)
}

// The items after the fields. The fields' tags are read once for all of them.
#[tactic(auto, using(kmip_ttlv_reader::proofs::Steps::failure_then))]
fn read_others<A: Allocator + Copy>(
    scope: &Scope<'_, A>,
    fields: &[FieldShape<A>],
    deny: bool,
    pos: usize,
) -> Step<usize, A>
    requires inside { pos ≤ length scope.now.bytes.now }
    requires before { pos ≤ scope.now.end }
    ensures step { IsStep (λ q. q)
        (rest_outcome (suc (length scope.now.bytes.now)) (fields_of fields.now) deny scope.now.bytes.now scope.now.owner pos scope.now.end) result }
    ensures whole { IfOk result (λ q. (q ≡ scope.now.end) × (scope.now.end ≤ length scope.now.bytes.now)) }
{
    let tags = tags_of(scope.alloc, fields)?;
    let mut next = pos;
    while next < scope.end {
        next = read_ignored(scope, fields, &tags, deny, next)?;
    }
    Ok(next)
}

/// An item after the fields, which is ignored.
#[tactic(auto, unfolding(kmip_ttlv_reader::specs::Outcomes::ignored), using(kmip_ttlv_reader::proofs::Steps::failing))]
fn read_ignored<A: Allocator + Copy>(
    scope: &Scope<'_, A>,
    fields: &[FieldShape<A>],
    tags: &BTreeSet<u32, A>,
    deny: bool,
    pos: usize,
) -> Step<usize, A>
    requires inside { pos ≤ length scope.now.bytes.now }
    requires tags { HasTagsOf (fields_of fields.now) tags.now }
    ensures step { IsStep (λ q. q) (ignored (fields_of fields.now) deny scope.now.bytes.now scope.now.owner pos scope.now.end) result }
    ensures further { IfOk result (λ q. (pos + 8 ≤ q) × (q ≤ scope.now.end) × (q ≤ length scope.now.bytes.now)) }
{
    let typ = type_there(scope.alloc, scope.bytes, pos)?;
    if !has_fields(fields) {
        let cause = Cause::Mismatch(SerdeError::MissingIdentifier);
        return Err(at_item(scope.alloc, scope.bytes, pos, 4, typ, cause));
    }
    if is_field(tags, tag_at(scope.bytes, pos)) {
        return Err(in_struct(scope.alloc, pos + 4, scope.owner, "duplicate field"));
    }
    if deny {
        return Err(in_struct(scope.alloc, pos + 4, scope.owner, "unknown field"));
    }
    let next = item_end(scope.alloc, scope.bytes, pos, typ)?;
    inside(scope.alloc, scope.bytes, pos, scope.end, typ, next)?;
    Ok(next)
}

// Whether there is a field.
#[inline(always)]
fn has_fields<A: Allocator + Copy>(fields: &[FieldShape<A>]) -> bool
    ensures { result ≡ has_fields (fields_of fields.now) }
{
    match fields {
        [] => false,
        [_, ..] => true,
    }
}
