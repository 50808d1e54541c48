//! Parts of structures: how many there are of an element.

ghost use Rattle.std.specs.Prelude.{◌≡◌, ◌↔◌, IfOk, IsTrue, OnErr, OnOk, map};
ghost use Rattle.kmip_ttlv_types.specs.Digits.{tag_text};
ghost use Rattle.kmip_ttlv_base.specs.Forms.{option, seq};
ghost use Rattle.kmip_ttlv_base.specs.Values.{seq_value, values_of};
ghost use Rattle.kmip_ttlv_base.specs.Visits.{Receives, ReceivesEach};
ghost use Rattle.kmip_ttlv_reader.specs.Reads.{has_tag};
ghost use Rattle.kmip_ttlv_reader.specs.Outcomes.{field_outcome, outcome};
ghost use Rattle.kmip_ttlv_reader.specs.Spots.{IsReadTo, IsWithin, at, optional_value, optional_values, values_by};
ghost use Rattle.kmip_ttlv_parts.specs.MessageParts.{sequence};
ghost use Rattle.kmip_ttlv_kinds.specs.Parts.{any, maybe, one, several};

use crate::elements::Element;
use crate::fields::{read_any_field, read_optional_field, read_several_field};
use kmip_ttlv_base::parts::{begin_seq, end_seq};
use kmip_ttlv_base::types::TtlvTag;
use kmip_ttlv_base::visit::Visitor;
use kmip_ttlv_reader::cursor::is_tag;
use kmip_ttlv_reader::reader::{Cursor, Scope, Step};
use std::alloc::{AllocError, Allocator};
use std::marker::PhantomData;

/// A part of a structure.
pub trait Part<A: Allocator + Copy> {
    ghost use Rattle.kmip_ttlv_base.specs.Forms.{Form};
    ghost use Rattle.kmip_ttlv_base.specs.Values.{Value};
    ghost use Rattle.kmip_ttlv_kinds.specs.Parts.{PartRules};

    /// The type of Rust that holds it.
    type Holds: Drop;

    // Its form.
    ghost form: { Form };

    // The value that it is read as.
    ghost value: { Self.Holds → Value };

    // What is written of it, which are sound, and that these come back.
    ghost rules: { PartRules Self.Holds form value };

    /// Whether the tag is that of its items.
    fn has_tag(tag: TtlvTag) -> bool
        ensures { result ≡ has_tag (tag_text rules.tag) tag };

    /// The part, from the cursor on.
    fn read<'b>(scope: &Scope<'b, A>, cursor: &mut Cursor<'b, A>) -> Step<Self::Holds, A>
        requires within { IsWithin scope.now cursor.old }
        ensures read { IsReadTo value cursor.new (at (field_outcome (tag_text rules.tag) form (outcome form)) scope.now cursor.old) result }
        ensures within { IfOk result (λ _. IsWithin scope.now cursor.new) };

    /// Calls a visitor with its items.
    fn visit<V: Visitor>(held: &Self::Holds, visitor: &mut V) -> Result<(), AllocError>
        ensures received { OnOk result (ReceivesEach V.knows V.step (rules.written held.now) visitor.old visitor.new) }
        ensures stopped { OnErr result (V.stopped visitor.new) };

    /// Whether it is sound.
    fn is_whole(held: &Self::Holds) -> bool
        ensures { IsTrue result ↔ rules.IsSound held.now };
}

/// A part that is exactly one element.
#[derive(Drop)]
pub struct One<E> {
    kind: PhantomData<E>,
}

impl<E: Element<A>, A: Allocator + Copy> Part<A> for One<E> {
    type Holds = E::Holds;

    ghost form = { E.form };

    ghost value = { E.value };

    ghost rules = { one E.rules };

    fn has_tag(tag: TtlvTag) -> bool {
        is_tag(E::number(), tag)
    }

    #[inline(always)]
    fn read<'b>(scope: &Scope<'b, A>, cursor: &mut Cursor<'b, A>) -> Step<E::Holds, A> {
        E::read_field(scope, cursor)
    }

    #[inline(always)]
    fn visit<V: Visitor>(held: &E::Holds, visitor: &mut V) -> Result<(), AllocError> {
        E::visit_one(held, visitor)
    }

    #[inline(always)]
    fn is_whole(held: &E::Holds) -> bool {
        E::is_whole(held)
    }
}

/// A part that is an element of this tag, or absent.
#[derive(Drop)]
pub struct Maybe<E, const TAG: u32> {
    kind: PhantomData<E>,
}

impl<E: Element<A>, const TAG: u32, A: Allocator + Copy> Part<A> for Maybe<E, TAG> {
    type Holds = Option<E::Holds>;

    ghost form = { option E.form };

    ghost value = { optional_value E.value };

    ghost rules = { maybe TAG E.rules };

    fn has_tag(tag: TtlvTag) -> bool {
        is_tag(TAG, tag)
    }

    #[inline(always)]
    fn read<'b>(scope: &Scope<'b, A>, cursor: &mut Cursor<'b, A>) -> Step<Option<E::Holds>, A> {
        read_optional_field::<E, A>(scope, TAG, cursor)
    }

    #[inline(always)]
    fn visit<V: Visitor>(held: &Option<E::Holds>, visitor: &mut V) -> Result<(), AllocError> {
        match held {
            Some(held) => E::visit_one(held, visitor),
            None => Ok(()),
        }
    }

    #[inline(always)]
    fn is_whole(held: &Option<E::Holds>) -> bool {
        match held {
            Some(held) => E::is_whole(held),
            None => true,
        }
    }
}

// The elements of a part, one after the other.
#[inline(always)]
fn visit_each<V: Visitor, E: Element<A>, A: Allocator + Copy>(
    elements: &[E::Holds],
    visitor: &mut V,
) -> Result<(), AllocError>
    ensures received { OnOk result (ReceivesEach V.knows V.step (values_of (map E.rules.written elements.now)) visitor.old visitor.new) }
    ensures stopped { OnErr result (V.stopped visitor.new) }
{
    for element in elements {
        E::visit_one(element, visitor)?;
    }
    Ok(())
}

// The same, as one value.
#[inline(always)]
fn visit_elements<V: Visitor, E: Element<A>, A: Allocator + Copy>(
    elements: &[E::Holds],
    visitor: &mut V,
) -> Result<(), AllocError>
    ensures received { OnOk result (Receives V.knows V.step (sequence E.rules.written elements.now) visitor.old visitor.new) }
    ensures stopped { OnErr result (V.stopped visitor.new) }
{
    begin_seq(visitor)?;
    visit_each::<V, E, A>(elements, visitor)?;
    end_seq(visitor)
}

/// A part that is elements of this tag, at least one.
#[derive(Drop)]
pub struct Several<E, const TAG: u32> {
    kind: PhantomData<E>,
}

impl<E: Element<A>, const TAG: u32, A: Allocator + Copy> Part<A> for Several<E, TAG> {
    type Holds = Vec<E::Holds, A>;

    ghost form = { seq E.form };

    ghost value = { λ xs. seq_value (values_by E.value xs.items) };

    ghost rules = { several TAG (λ xs. xs.items) E.rules };

    fn has_tag(tag: TtlvTag) -> bool {
        is_tag(TAG, tag)
    }

    #[inline(always)]
    fn read<'b>(scope: &Scope<'b, A>, cursor: &mut Cursor<'b, A>) -> Step<Vec<E::Holds, A>, A> {
        read_several_field::<E, A>(scope, TAG, cursor)
    }

    #[inline(always)]
    fn visit<V: Visitor>(held: &Vec<E::Holds, A>, visitor: &mut V) -> Result<(), AllocError> {
        visit_elements::<V, E, A>(held.as_slice(), visitor)
    }

    #[tactic(auto, unfolding(crate::specs::Parts::AreAll))]
    #[inline(always)]
    fn is_whole(held: &Vec<E::Holds, A>) -> bool {
        !held.is_empty() && held.iter().all(|element| E::is_whole(element))
    }
}

/// A part that is elements of this tag, as many as there are, also none.
#[derive(Drop)]
pub struct Any<E, const TAG: u32> {
    kind: PhantomData<E>,
}

impl<E: Element<A>, const TAG: u32, A: Allocator + Copy> Part<A> for Any<E, TAG> {
    type Holds = Vec<E::Holds, A>;

    ghost form = { option (seq E.form) };

    ghost value = { λ xs. optional_values E.value xs.items };

    ghost rules = { any TAG (λ xs. xs.items) E.rules };

    fn has_tag(tag: TtlvTag) -> bool {
        is_tag(TAG, tag)
    }

    #[inline(always)]
    fn read<'b>(scope: &Scope<'b, A>, cursor: &mut Cursor<'b, A>) -> Step<Vec<E::Holds, A>, A> {
        read_any_field::<E, A>(scope, TAG, cursor)
    }

    #[inline(always)]
    fn visit<V: Visitor>(held: &Vec<E::Holds, A>, visitor: &mut V) -> Result<(), AllocError> {
        visit_elements::<V, E, A>(held.as_slice(), visitor)
    }

    #[tactic(auto, unfolding(crate::specs::Parts::AreAll))]
    #[inline(always)]
    fn is_whole(held: &Vec<E::Holds, A>) -> bool {
        held.iter().all(|element| E::is_whole(element))
    }
}
