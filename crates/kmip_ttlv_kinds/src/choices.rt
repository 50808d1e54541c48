//! Choices: parts that a rule chooses, by the text of a part before them or by the type of their item.

ghost use Rattle.std.specs.Prelude.{◌≡◌, ◌↔◌, ◌+◌, ◌<◌, ◌≤◌, IfOk, IsTrue, OnErr, OnOk};
ghost use Rattle.kmip_ttlv_types.specs.Digits.{tag_text};
ghost use Rattle.kmip_ttlv_base.specs.Forms.{enum, option};
ghost use Rattle.kmip_ttlv_base.specs.Values.{no_values, value};
ghost use Rattle.kmip_ttlv_base.specs.Visits.{ReceivesEach};
ghost use Rattle.kmip_ttlv_reader.specs.Chosen.{count_of};
ghost use Rattle.kmip_ttlv_reader.specs.Outcomes.{field_outcome, outcome};
ghost use Rattle.kmip_ttlv_reader.specs.RuleParts.{AreRules};
ghost use Rattle.kmip_ttlv_reader.specs.Spots.{IsReadTo, IsWithin, at, optional_value};
ghost use Rattle.kmip_ttlv_kinds.specs.Parts.{maybe_one_of, one_of, told_choice};

use crate::counts::Part;
use crate::walks::{Judges, Visits, Walk};
use kmip_ttlv_base::types::TtlvTag;
use kmip_ttlv_base::visit::Visitor;
use kmip_ttlv_reader::choice::{first_that_holds, unnamed};
use kmip_ttlv_reader::cursor::{field_there, is_tag};
use kmip_ttlv_reader::head::{tag_at, type_there};
use kmip_ttlv_reader::reader::{Cursor, RuleParts, Scope, Step};
use std::alloc::{AllocError, Allocator};
use std::marker::PhantomData;

/// An enum that is read as one of its variants, which a rule chooses. All have one tag.
pub trait Choice<A: Allocator + Copy>: Sized + Drop {
    ghost use Rattle.kmip_ttlv_kinds.specs.Choices.{ChoiceOf, IsHeldAt};

    // Its name and variants, the value that it is read as, what is written of it, which are sound, what has to be known so that a rule
    // chooses what it holds, and that it comes back.
    ghost chosen: { ChoiceOf Self };

    /// The rules of its variants, in their order.
    fn variant_rules() -> &'static [RuleParts]
        ensures { AreRules chosen.variants result.now };

    /// The next item, as what the variant at this place holds, counted from 0.
    fn read_held<'b>(
        scope: &Scope<'b, A>,
        cursor: &mut Cursor<'b, A>,
        place: usize,
    ) -> Step<Self, A>
        requires within { IsWithin scope.now cursor.old }
        requires there { place < count_of chosen.variants }
        ensures read { IsHeldAt chosen place scope.now cursor.old cursor.new result }
        ensures within { IfOk result (λ _. IsWithin scope.now cursor.new) }
        ensures further { IfOk result (λ _. cursor.old.pos + 8 ≤ cursor.new.pos) };

    /// Tells a walk of what it holds.
    fn tell_held<W: Walk<A>>(&self, state: &mut W::State) -> Result<(), AllocError>
        ensures told { OnOk result (W.steps.Takes state.old (told_choice chosen.rules self.now) state.new) }
        ensures stopped { OnErr result (W.Stopped state.new) };
}

/// The next item, as the variant that the rules choose: the first whose rule holds.
pub fn read_choice<'b, C: Choice<A>, A: Allocator + Copy>(
    scope: &Scope<'b, A>,
    cursor: &mut Cursor<'b, A>,
) -> Step<C, A>
    requires within { IsWithin scope.now cursor.old }
    ensures read { IsReadTo C.chosen.value cursor.new (at (outcome (enum C.chosen.own C.chosen.variants)) scope.now cursor.old) result }
    ensures within { IfOk result (λ _. IsWithin scope.now cursor.new) }
    ensures further { IfOk result (λ _. cursor.old.pos + 8 ≤ cursor.new.pos) }
{
    let rules = C::variant_rules();
    let typ = type_there(scope.alloc, scope.bytes, cursor.pos())?;
    match first_that_holds(rules, cursor.stored_values(), typ) {
        Some(place) => C::read_held(scope, cursor, place),
        None => unnamed(scope, cursor.pos(), typ),
    }
}

// Calls a visitor with what a choice holds.
#[inline(always)]
fn visit_held<C: Choice<A>, V: Visitor, A: Allocator + Copy>(
    choice: &C,
    visitor: &mut V,
) -> Result<(), AllocError>
    ensures received { OnOk result (ReceivesEach V.knows V.step (value (C.chosen.rules.written choice.now) no_values) visitor.old visitor.new) }
    ensures stopped { OnErr result (V.stopped visitor.new) }
{
    choice.tell_held::<Visits<V>>(visitor)
}

/// Whether what a choice holds is sound.
pub fn is_choice_whole<C: Choice<A>, A: Allocator + Copy>(choice: &C) -> bool
    ensures { IsTrue result ↔ C.chosen.rules.IsSound choice.now }
{
    let mut good = true;
    match choice.tell_held::<Judges>(&mut good) {
        Ok(()) => good,
        Err(_) => false,
    }
}

/// A part that is exactly one item of this tag, which a rule chooses.
#[derive(Drop)]
pub struct OneOf<C, const TAG: u32> {
    kind: PhantomData<C>,
}

impl<C: Choice<A>, const TAG: u32, A: Allocator + Copy> Part<A> for OneOf<C, TAG> {
    type Holds = C;

    ghost form = { enum C.chosen.own C.chosen.variants };

    ghost value = { C.chosen.value };

    ghost rules = { one_of TAG C.chosen.rules };

    fn has_tag(tag: TtlvTag) -> bool {
        is_tag(TAG, tag)
    }

    #[inline(always)]
    fn read<'b>(scope: &Scope<'b, A>, cursor: &mut Cursor<'b, A>) -> Step<C, A> {
        match field_there(scope, TAG, cursor.pos()) {
            Ok(()) => read_choice(scope, cursor),
            Err(failure) => Err(failure),
        }
    }

    #[inline(always)]
    fn visit<V: Visitor>(held: &C, visitor: &mut V) -> Result<(), AllocError> {
        visit_held(held, visitor)
    }

    #[inline(always)]
    fn is_whole(held: &C) -> bool {
        is_choice_whole(held)
    }
}

/// A part that is such an item, or absent.
#[derive(Drop)]
pub struct MaybeOneOf<C, const TAG: u32> {
    kind: PhantomData<C>,
}

impl<C: Choice<A>, const TAG: u32, A: Allocator + Copy> Part<A> for MaybeOneOf<C, TAG> {
    type Holds = Option<C>;

    ghost form = { option (enum C.chosen.own C.chosen.variants) };

    ghost value = { optional_value C.chosen.value };

    ghost rules = { maybe_one_of TAG C.chosen.rules };

    fn has_tag(tag: TtlvTag) -> bool {
        is_tag(TAG, tag)
    }

    #[tactic(auto, unfolding(kmip_ttlv_reader::specs::Outcomes::field_outcome, kmip_ttlv_reader::specs::Outcomes::outcome), using(kmip_ttlv_reader::proofs::Steps::failure_then))]
    #[inline(always)]
    fn read<'b>(scope: &Scope<'b, A>, cursor: &mut Cursor<'b, A>) -> Step<Option<C>, A> {
        if cursor.pos() == scope.end {
            return Ok(None);
        }
        let _ = type_there(scope.alloc, scope.bytes, cursor.pos())?;
        if !is_tag(TAG, tag_at(scope.bytes, cursor.pos())) {
            return Ok(None);
        }
        Ok(Some(read_choice(scope, cursor)?))
    }

    #[inline(always)]
    fn visit<V: Visitor>(held: &Option<C>, visitor: &mut V) -> Result<(), AllocError> {
        match held {
            Some(held) => visit_held(held, visitor),
            None => Ok(()),
        }
    }

    #[inline(always)]
    fn is_whole(held: &Option<C>) -> bool {
        match held {
            Some(held) => is_choice_whole(held),
            None => true,
        }
    }
}
