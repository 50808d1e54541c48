//! A cursor: how far reading has come in a structure. A type that reads itself takes its fields by the calls here,
//! one for each, in their order. Each call reads as the form of such a field is read (specs/Outcomes).

ghost use Rattle.std.specs.Prelude.{◌≡◌, ◌+◌, ◌≤◌, ◌++◌, ◌∷◌, length, codes, true, [], IfOk};
ghost use Rattle.kmip_ttlv_types.specs.Digits.{tag_text};
ghost use Rattle.kmip_ttlv_base.specs.Values.{newtype_value};
ghost use Rattle.kmip_ttlv_base.specs.Forms.{newtype};
ghost use Rattle.kmip_ttlv_reader.specs.LeafForms.{form_of_leaf};
ghost use Rattle.kmip_ttlv_reader.specs.Reads.{decoded_leaf, has_tag, takes};
ghost use Rattle.kmip_ttlv_types.specs.Leaves.{is_valid};
ghost use Rattle.kmip_ttlv_reader.specs.Outcomes.{outcome, field_outcome, tag_wanted};
ghost use Rattle.kmip_ttlv_reader.specs.Results.{IsRead, IsStep, IsFailureOf};
ghost use Rattle.kmip_ttlv_reader.specs.ReadFaults.{in_struct};
ghost use Rattle.kmip_ttlv_base.specs.Tags.{wrapper_name};
ghost use Rattle.kmip_ttlv_reader.specs.Spots.{Spot, IsWithin, IsReadTo, at, wrapped_leaf, field_there, optional_there};
ghost use Rattle.kmip_ttlv_reader.specs.TagValues.{TagValue};

use crate::failure::{Cause, Failure, Step, at_item, in_struct};
use crate::head::{tag_at, type_there};
use crate::leaf::{Leaf, LeafContent, leaf_there};
use crate::scope::Scope;
use crate::store::TagValueStore;
use kmip_ttlv_base::error::SerdeError;
use kmip_ttlv_base::types::{TtlvTag, TtlvType};
use std::alloc::{AllocError, Allocator, Global};
use std::marker::Model;

/// How far reading has come in a structure, and the stored texts for the rules of enums.
#[derive(Drop)]
pub struct Cursor<'b, A: Allocator = Global> {
    stored: TagValueStore<'b, A>,
    pos: usize,
}

impl<'b, A: Allocator> Model for Cursor<'b, A> {
    ghost use Rattle.kmip_ttlv_reader.specs.Spots.{Spot};

    ghost Value = { Spot };

    ghost view = { λ c. record { stored = c.stored; pos = c.pos } };
}

/// Whether a tag has this number, of which the last three bytes count.
#[inline(always)]
pub fn is_tag(tag: u32, found: TtlvTag) -> bool
    ensures { result ≡ has_tag (tag_text tag) found }
{
    tag % 0x0100_0000 == *found
}

/// The item's tag is this one.
#[tactic(auto, unfolding(crate::specs::Outcomes::tag_wanted), using(crate::proofs::Steps::fault_is))]
#[inline(always)]
pub fn tag_is<A: Allocator + Copy>(
    alloc: A,
    tag: u32,
    bytes: &[u8],
    pos: usize,
    typ: TtlvType,
) -> Step<(), A>
    requires there { pos + 4 ≤ length bytes.now }
    ensures step { IsStep (λ u. tt) (tag_wanted (tag_text tag) bytes.now pos typ) result }
{
    match TtlvTag::from_number(tag % 0x0100_0000) {
        Some(expected) => {
            if expected != tag_at(bytes, pos) {
                let cause = Cause::Mismatch(SerdeError::UnexpectedTag {
                    expected,
                    actual: tag_at(bytes, pos),
                });
                return Err(at_item(alloc, bytes, pos, 4, typ, cause));
            }
            Ok(())
        }
        None => unreachable!(),
    }
}

/// The structure ends where a field is wanted.
#[cold]
pub fn missing_field<A: Allocator + Copy>(scope: &Scope<'_, A>) -> Failure<A>
    ensures { IsFailureOf (in_struct scope.now.end scope.now.owner (codes "missing field")) result }
{
    in_struct(scope.alloc, scope.end, scope.owner, "missing field")
}

/// A field that may not be absent is there: an item of this tag.
#[tactic(auto, using(crate::proofs::Steps::failing))]
#[inline(always)]
pub fn field_there<A: Allocator + Copy>(scope: &Scope<'_, A>, tag: u32, pos: usize) -> Step<(), A>
    requires inside { pos ≤ length scope.now.bytes.now }
    ensures step { IsStep (λ u. tt) (field_there tag scope.now.bytes.now scope.now.owner pos scope.now.end) result }
{
    if pos == scope.end {
        return Err(missing_field(scope));
    }
    let typ = type_there(scope.alloc, scope.bytes, pos)?;
    if !is_tag(tag, tag_at(scope.bytes, pos)) {
        tag_is(scope.alloc, tag, scope.bytes, pos, typ)?;
    }
    Ok(())
}

/// Whether a field that may be absent is there: an item of this tag.
#[tactic(auto, using(crate::proofs::Steps::failure_then))]
#[inline(always)]
pub fn is_there<A: Allocator + Copy>(scope: &Scope<'_, A>, tag: u32, pos: usize) -> Step<bool, A>
    requires inside { pos ≤ length scope.now.bytes.now }
    ensures step { IsStep (λ b. b) (optional_there tag scope.now.bytes.now pos scope.now.end) result }
{
    if pos == scope.end {
        return Ok(false);
    }
    let _ = type_there(scope.alloc, scope.bytes, pos)?;
    Ok(is_tag(tag, tag_at(scope.bytes, pos)))
}

// A leaf within its wrapper.
#[inline(always)]
fn wrapped_there<'b, A: Allocator + Copy>(
    scope: &Scope<'b, A>,
    tag: u32,
    leaf: Leaf,
    pos: usize,
    stored: &mut TagValueStore<'b, A>,
) -> Step<(LeafContent<'b>, usize), A>
    requires inside { pos ≤ length scope.now.bytes.now }
    ensures read { IsRead (λ c. newtype_value (wrapper_name tag) (decoded_leaf (form_of_leaf leaf) c.bytes.now)) stored.new
        (outcome (wrapped_leaf tag (form_of_leaf leaf)) scope.now.bytes.now scope.now.owner stored.old pos scope.now.end) result }
    ensures taken { IfOk result (λ r. takes (form_of_leaf leaf) r.0.typ ≡ true) }
    ensures valid { IfOk result (λ r. is_valid r.0.typ r.0.bytes.now ≡ true) }
    ensures further { IfOk result (λ r. (pos + 8 ≤ r.1) × (r.1 ≤ scope.now.end) × (r.1 ≤ length scope.now.bytes.now)) }
{
    leaf_there(scope, leaf, pos, stored)
}

// A field that is a leaf within its wrapper.
#[tactic(auto, unfolding(crate::specs::Outcomes::field_outcome), using(crate::proofs::Steps::failure_then))]
#[inline(always)]
fn leaf_field_there<'b, A: Allocator + Copy>(
    scope: &Scope<'b, A>,
    tag: u32,
    leaf: Leaf,
    pos: usize,
    stored: &mut TagValueStore<'b, A>,
) -> Step<(LeafContent<'b>, usize), A>
    requires inside { pos ≤ length scope.now.bytes.now }
    requires before { pos ≤ scope.now.end }
    ensures read { IsRead (λ c. newtype_value (wrapper_name tag) (decoded_leaf (form_of_leaf leaf) c.bytes.now)) stored.new
        (field_outcome (tag_text tag) (wrapped_leaf tag (form_of_leaf leaf)) (outcome (wrapped_leaf tag (form_of_leaf leaf)))
        scope.now.bytes.now scope.now.owner stored.old pos scope.now.end) result }
    ensures taken { IfOk result (λ r. takes (form_of_leaf leaf) r.0.typ ≡ true) }
    ensures valid { IfOk result (λ r. is_valid r.0.typ r.0.bytes.now ≡ true) }
    ensures further { IfOk result (λ r. (pos + 8 ≤ r.1) × (r.1 ≤ scope.now.end) × (r.1 ≤ length scope.now.bytes.now)) }
{
    if pos == scope.end {
        return Err(missing_field(scope));
    }
    let typ = type_there(scope.alloc, scope.bytes, pos)?;
    if !is_tag(tag, tag_at(scope.bytes, pos)) {
        tag_is(scope.alloc, tag, scope.bytes, pos, typ)?;
    }
    wrapped_there(scope, tag, leaf, pos, stored)
}

impl<'b, A: Allocator + Copy> Cursor<'b, A> {
    /// At this place of a message, with no texts stored. Takes no memory.
    pub fn new(alloc: A, pos: usize) -> Cursor<'b, A>
        ensures { result ≡ record { stored = []; pos = pos } }
    {
        Cursor {
            stored: TagValueStore::new(alloc),
            pos,
        }
    }

    /// The place of the next item, in bytes from the message's first.
    #[inline(always)]
    pub fn pos(&self) -> usize
        ensures { result ≡ self.now.pos }
    {
        self.pos
    }

    /// The texts and numbers that were stored so far, which rules ask for.
    #[inline(always)]
    pub fn stored_values(&self) -> &TagValueStore<'b, A>
        ensures { result.now ≡ self.now.stored }
    {
        &self.stored
    }

    /// Goes to another place.
    #[inline(always)]
    pub fn go_to(&mut self, pos: usize)
        ensures { self.new ≡ record { stored = self.old.stored; pos = pos } }
    {
        self.pos = pos;
    }

    /// The next field, a leaf of this tag and shape.
    #[inline(always)]
    pub fn leaf(&mut self, scope: &Scope<'b, A>, tag: u32, leaf: Leaf) -> Step<LeafContent<'b>, A>
        requires within { IsWithin scope.now self.old }
        ensures read { IsReadTo (λ c. newtype_value (wrapper_name tag) (decoded_leaf (form_of_leaf leaf) c.bytes.now)) self.new
            (at (field_outcome (tag_text tag) (wrapped_leaf tag (form_of_leaf leaf)) (outcome (wrapped_leaf tag (form_of_leaf leaf))))
            scope.now self.old) result }
        ensures taken { IfOk result (λ c. takes (form_of_leaf leaf) c.typ ≡ true) }
        ensures valid { IfOk result (λ c. is_valid c.typ c.bytes.now ≡ true) }
        ensures within { IfOk result (λ _. IsWithin scope.now self.new) }
    {
        let (content, next) = leaf_field_there(scope, tag, leaf, self.pos, &mut self.stored)?;
        self.pos = next;
        Ok(content)
    }

    /// The next item, a leaf of this shape within the wrapper of this tag, whatever the item's own tag.
    #[inline(always)]
    pub fn wrapped_leaf(
        &mut self,
        scope: &Scope<'b, A>,
        tag: u32,
        leaf: Leaf,
    ) -> Step<LeafContent<'b>, A>
        requires within { IsWithin scope.now self.old }
        ensures read { IsReadTo (λ c. newtype_value (wrapper_name tag) (decoded_leaf (form_of_leaf leaf) c.bytes.now)) self.new
            (at (outcome (wrapped_leaf tag (form_of_leaf leaf))) scope.now self.old) result }
        ensures taken { IfOk result (λ c. takes (form_of_leaf leaf) c.typ ≡ true) }
        ensures valid { IfOk result (λ c. is_valid c.typ c.bytes.now ≡ true) }
        ensures within { IfOk result (λ _. IsWithin scope.now self.new) }
        ensures further { IfOk result (λ _. self.old.pos + 8 ≤ self.new.pos) }
    {
        let (content, next) = wrapped_there(scope, tag, leaf, self.pos, &mut self.stored)?;
        self.pos = next;
        Ok(content)
    }

    /// Stores a text under the tag of the item that it was read from, for the rules of what follows. An AllocError when out of
    /// memory.
    #[inline(always)]
    pub fn store(&mut self, tag: TtlvTag, text: &'b str) -> Result<(), AllocError>
        ensures { IfOk result (λ _. self.new ≡ record { stored = self.old.stored ++ record { tag = tag; text = text.now } ∷ []; pos = self.old.pos }) }
    {
        self.stored.store(tag, text)
    }
}
