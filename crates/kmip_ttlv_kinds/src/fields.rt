//! Reading a part of several elements, or of one that may be absent.

ghost use Rattle.std.specs.Prelude.{◌≡◌, ◌+◌, ◌<◌, ◌≤◌, length, IfOk};
ghost use Rattle.kmip_ttlv_types.specs.Digits.{tag_text};
ghost use Rattle.kmip_ttlv_base.specs.Values.{seq_value};
ghost use Rattle.kmip_ttlv_base.specs.Forms.{option, seq};
ghost use Rattle.kmip_ttlv_reader.specs.Outcomes.{outcome, field_outcome, seq_outcome};
ghost use Rattle.kmip_ttlv_reader.specs.Spots.{IsWithin, IsReadTo, at, optional_value, optional_values, values_by};

use crate::elements::Element;
use kmip_ttlv_reader::cursor::{field_there, is_tag, is_there};
use kmip_ttlv_reader::head::{goes_on, tag_at, type_there};
use kmip_ttlv_reader::reader::{Cursor, Scope, Step};
use std::alloc::Allocator;

// Elements of one kind, one after the other: at least one.
#[tactic(auto, using(kmip_ttlv_reader::proofs::Steps::failure_then))]
fn read_several<'b, E: Element<A>, A: Allocator + Copy>(
    scope: &Scope<'b, A>,
    cursor: &mut Cursor<'b, A>,
) -> Step<Vec<E::Holds, A>, A>
    requires within { IsWithin scope.now cursor.old }
    ensures read { IsReadTo (λ xs. values_by E.value xs.items) cursor.new
        (at (seq_outcome (outcome E.form)) scope.now cursor.old) result }
    ensures within { IfOk result (λ _. IsWithin scope.now cursor.new) }
    ensures further { IfOk result (λ _. cursor.old.pos + 8 ≤ cursor.new.pos) }
    ensures some { IfOk result (λ xs. 0 < length xs.items) }
{
    let first = cursor.pos();
    let mut values = Vec::new(scope.alloc);
    let value = E::read_one(scope, cursor)?;
    values.push(value)?;
    while goes_on(scope.alloc, scope.bytes, first, cursor.pos(), scope.end)? {
        let value = E::read_one(scope, cursor)?;
        values.push(value)?;
    }
    Ok(values)
}

// The same, as the form of a sequence has them.
#[inline(always)]
fn read_sequence<'b, E: Element<A>, A: Allocator + Copy>(
    scope: &Scope<'b, A>,
    cursor: &mut Cursor<'b, A>,
) -> Step<Vec<E::Holds, A>, A>
    requires within { IsWithin scope.now cursor.old }
    ensures read { IsReadTo (λ xs. seq_value (values_by E.value xs.items)) cursor.new
        (at (outcome (seq E.form)) scope.now cursor.old) result }
    ensures within { IfOk result (λ _. IsWithin scope.now cursor.new) }
    ensures further { IfOk result (λ _. cursor.old.pos + 8 ≤ cursor.new.pos) }
    ensures some { IfOk result (λ xs. 0 < length xs.items) }
{
    read_several::<E, A>(scope, cursor)
}

/// A part of several elements: at least one.
#[inline(always)]
pub fn read_several_field<'b, E: Element<A>, A: Allocator + Copy>(
    scope: &Scope<'b, A>,
    tag: u32,
    cursor: &mut Cursor<'b, A>,
) -> Step<Vec<E::Holds, A>, A>
    requires within { IsWithin scope.now cursor.old }
    ensures read { IsReadTo (λ xs. seq_value (values_by E.value xs.items)) cursor.new
        (at (field_outcome (tag_text tag) (seq E.form) (outcome (seq E.form))) scope.now cursor.old) result }
    ensures within { IfOk result (λ _. IsWithin scope.now cursor.new) }
{
    match field_there(scope, tag, cursor.pos()) {
        Ok(()) => read_sequence::<E, A>(scope, cursor),
        Err(failure) => Err(failure),
    }
}

/// A part of as many elements as there are, also none.
#[inline(always)]
pub fn read_any_field<'b, E: Element<A>, A: Allocator + Copy>(
    scope: &Scope<'b, A>,
    tag: u32,
    cursor: &mut Cursor<'b, A>,
) -> Step<Vec<E::Holds, A>, A>
    requires within { IsWithin scope.now cursor.old }
    ensures read { IsReadTo (λ xs. optional_values E.value xs.items) cursor.new
        (at (field_outcome (tag_text tag) (option (seq E.form)) (outcome (option (seq E.form)))) scope.now cursor.old) result }
    ensures within { IfOk result (λ _. IsWithin scope.now cursor.new) }
{
    match is_there(scope, tag, cursor.pos()) {
        Ok(true) => read_sequence::<E, A>(scope, cursor),
        Ok(false) => Ok(Vec::new(scope.alloc)),
        Err(failure) => Err(failure),
    }
}

/// A part that is an element, or absent.
#[tactic(auto, unfolding(kmip_ttlv_reader::specs::Outcomes::field_outcome, kmip_ttlv_reader::specs::Outcomes::outcome), using(kmip_ttlv_reader::proofs::Steps::failure_then))]
#[inline(always)]
pub fn read_optional_field<'b, E: Element<A>, A: Allocator + Copy>(
    scope: &Scope<'b, A>,
    tag: u32,
    cursor: &mut Cursor<'b, A>,
) -> Step<Option<E::Holds>, A>
    requires within { IsWithin scope.now cursor.old }
    ensures read { IsReadTo (optional_value E.value) cursor.new
        (at (field_outcome (tag_text tag) (option E.form) (outcome (option E.form))) scope.now cursor.old) result }
    ensures within { IfOk result (λ _. IsWithin scope.now cursor.new) }
{
    if cursor.pos() == scope.end {
        return Ok(None);
    }
    let _ = type_there(scope.alloc, scope.bytes, cursor.pos())?;
    if !is_tag(tag, tag_at(scope.bytes, cursor.pos())) {
        return Ok(None);
    }
    Ok(Some(E::read_one(scope, cursor)?))
}
