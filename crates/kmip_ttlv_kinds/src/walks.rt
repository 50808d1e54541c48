//! Walks through the parts of a structure: a visitor is called with each, or each is asked whether it is sound. A type tells of its parts
//! once, for both.

ghost use Rattle.std.specs.Prelude.{◌↔◌, [], ◌∷◌, IsTrue, OnErr, OnOk};
ghost use Rattle.kmip_ttlv_parts.specs.KeptItems.{values_kept};
ghost use Rattle.kmip_ttlv_kinds.specs.Parts.{AreFour, AreThree, AreTwo, block, judging, told_item, told_parts, visiting};

use crate::counts::Part;
use crate::elements::Element;
use kmip_ttlv_base::visit::Visitor;
use kmip_ttlv_parts::Kept;
use std::alloc::{AllocError, Allocator};
use std::marker::PhantomData;

/// A structure that is sound only if more is true of it than that its parts are sound.
pub trait Decided {
    // What is.
    ghost IsDecided: { Self → Type 0 };

    /// Whether it is true.
    fn is_decided(&self) -> bool
        ensures { IsTrue result ↔ IsDecided self.now };
}

/// What is told of the parts of a structure, some at a time.
pub trait Walk<A: Allocator + Copy> {
    ghost use Rattle.kmip_ttlv_kinds.specs.Parts.{Steps};

    /// What it goes on from.
    type State;

    // What becomes of a state where something is told.
    ghost steps: { Steps Self.State };

    // In which state it ends early.
    ghost Stopped: { Self.State → Type 0 };

    /// A part.
    fn one<P: Part<A>>(state: &mut Self::State, first: &P::Holds) -> Result<(), AllocError>
        ensures told { OnOk result (steps.Takes state.old (told_parts (block (P.rules.written first.now ∷ [])) (P.rules.IsSound first.now)) state.new) }
        ensures stopped { OnErr result (Stopped state.new) };

    /// Two parts.
    fn two<P: Part<A>, Q: Part<A>>(
        state: &mut Self::State,
        first: &P::Holds,
        second: &Q::Holds,
    ) -> Result<(), AllocError>
        ensures told { OnOk result (steps.Takes state.old (told_parts (block (P.rules.written first.now ∷ Q.rules.written second.now ∷ [])) (AreTwo (P.rules.IsSound first.now) (Q.rules.IsSound second.now))) state.new) }
        ensures stopped { OnErr result (Stopped state.new) };

    /// Three parts.
    fn three<P: Part<A>, Q: Part<A>, R: Part<A>>(
        state: &mut Self::State,
        first: &P::Holds,
        second: &Q::Holds,
        third: &R::Holds,
    ) -> Result<(), AllocError>
        ensures told { OnOk result (steps.Takes state.old (told_parts (block (P.rules.written first.now ∷ Q.rules.written second.now ∷ R.rules.written third.now ∷ [])) (AreThree (P.rules.IsSound first.now) (Q.rules.IsSound second.now) (R.rules.IsSound third.now))) state.new) }
        ensures stopped { OnErr result (Stopped state.new) };

    /// Four parts.
    fn four<P: Part<A>, Q: Part<A>, R: Part<A>, S: Part<A>>(
        state: &mut Self::State,
        first: &P::Holds,
        second: &Q::Holds,
        third: &R::Holds,
        fourth: &S::Holds,
    ) -> Result<(), AllocError>
        ensures told { OnOk result (steps.Takes state.old (told_parts (block (P.rules.written first.now ∷ Q.rules.written second.now ∷ R.rules.written third.now ∷ S.rules.written fourth.now ∷ [])) (AreFour (P.rules.IsSound first.now) (Q.rules.IsSound second.now) (R.rules.IsSound third.now) (S.rules.IsSound fourth.now))) state.new) }
        ensures stopped { OnErr result (Stopped state.new) };

    /// An item that a choice holds.
    fn item<E: Element<A>>(state: &mut Self::State, held: &E::Holds) -> Result<(), AllocError>
        ensures told { OnOk result (steps.Takes state.old (told_item E.rules held.now) state.new) }
        ensures stopped { OnErr result (Stopped state.new) };

    /// The items of a structure that is kept as it is.
    fn kept(state: &mut Self::State, held: &Kept<A>) -> Result<(), AllocError>
        ensures told { OnOk result (steps.Takes state.old (told_parts (values_kept held.now) (Unit {0})) state.new) }
        ensures stopped { OnErr result (Stopped state.new) };

    /// That what was told is sound only if this holds too: the rules choose what a structure holds, say.
    fn check<D: Decided>(state: &mut Self::State, structure: &D)
        ensures { steps.Checks state.old (D.IsDecided structure.now) state.new };
}

/// The walk that calls a visitor.
pub struct Visits<V> {
    kind: PhantomData<V>,
}

impl<V: Visitor, A: Allocator + Copy> Walk<A> for Visits<V> {
    type State = V;

    ghost steps = { visiting V.knows V.step };

    ghost Stopped = { V.stopped };

    #[tactic(auto, unfolding(crate::specs::Parts::block), using(kmip_ttlv_base::proofs::Visiting::visited_joined))]
    #[inline(always)]
    fn one<P: Part<A>>(state: &mut V, first: &P::Holds) -> Result<(), AllocError> {
        P::visit(first, state)?;
        Ok(())
    }

    #[tactic(auto, unfolding(crate::specs::Parts::block), using(kmip_ttlv_base::proofs::Visiting::visited_joined))]
    #[inline(always)]
    fn two<P: Part<A>, Q: Part<A>>(
        state: &mut V,
        first: &P::Holds,
        second: &Q::Holds,
    ) -> Result<(), AllocError> {
        P::visit(first, state)?;
        Q::visit(second, state)?;
        Ok(())
    }

    #[tactic(auto, unfolding(crate::specs::Parts::block), using(kmip_ttlv_base::proofs::Visiting::visited_joined))]
    #[inline(always)]
    fn three<P: Part<A>, Q: Part<A>, R: Part<A>>(
        state: &mut V,
        first: &P::Holds,
        second: &Q::Holds,
        third: &R::Holds,
    ) -> Result<(), AllocError> {
        P::visit(first, state)?;
        Q::visit(second, state)?;
        R::visit(third, state)?;
        Ok(())
    }

    #[tactic(auto, unfolding(crate::specs::Parts::block), using(kmip_ttlv_base::proofs::Visiting::visited_joined))]
    #[inline(always)]
    fn four<P: Part<A>, Q: Part<A>, R: Part<A>, S: Part<A>>(
        state: &mut V,
        first: &P::Holds,
        second: &Q::Holds,
        third: &R::Holds,
        fourth: &S::Holds,
    ) -> Result<(), AllocError> {
        P::visit(first, state)?;
        Q::visit(second, state)?;
        R::visit(third, state)?;
        S::visit(fourth, state)?;
        Ok(())
    }

    #[inline(always)]
    fn item<E: Element<A>>(state: &mut V, held: &E::Holds) -> Result<(), AllocError> {
        E::visit_one(held, state)
    }

    #[inline(always)]
    fn kept(state: &mut V, held: &Kept<A>) -> Result<(), AllocError> {
        held.visit_items(state)
    }

    #[inline(always)]
    fn check<D: Decided>(_state: &mut V, _structure: &D) {}
}

/// The walk that asks each part whether it is sound.
#[derive(Drop)]
pub struct Judges {}

impl<A: Allocator + Copy> Walk<A> for Judges {
    type State = bool;

    ghost steps = { judging };

    ghost Stopped = { λ state. ⊥ };

    #[inline(always)]
    fn one<P: Part<A>>(state: &mut bool, first: &P::Holds) -> Result<(), AllocError> {
        *state = *state && P::is_whole(first);
        Ok(())
    }

    #[tactic(auto, unfolding(crate::specs::Parts::AreTwo))]
    #[inline(always)]
    fn two<P: Part<A>, Q: Part<A>>(
        state: &mut bool,
        first: &P::Holds,
        second: &Q::Holds,
    ) -> Result<(), AllocError> {
        *state = *state && P::is_whole(first) && Q::is_whole(second);
        Ok(())
    }

    #[tactic(auto, unfolding(crate::specs::Parts::AreThree))]
    #[inline(always)]
    fn three<P: Part<A>, Q: Part<A>, R: Part<A>>(
        state: &mut bool,
        first: &P::Holds,
        second: &Q::Holds,
        third: &R::Holds,
    ) -> Result<(), AllocError> {
        *state = *state && P::is_whole(first) && Q::is_whole(second) && R::is_whole(third);
        Ok(())
    }

    #[tactic(auto, unfolding(crate::specs::Parts::AreFour))]
    #[inline(always)]
    fn four<P: Part<A>, Q: Part<A>, R: Part<A>, S: Part<A>>(
        state: &mut bool,
        first: &P::Holds,
        second: &Q::Holds,
        third: &R::Holds,
        fourth: &S::Holds,
    ) -> Result<(), AllocError> {
        *state = *state
            && P::is_whole(first)
            && Q::is_whole(second)
            && R::is_whole(third)
            && S::is_whole(fourth);
        Ok(())
    }

    #[inline(always)]
    fn item<E: Element<A>>(state: &mut bool, held: &E::Holds) -> Result<(), AllocError> {
        *state = *state && E::is_whole(held);
        Ok(())
    }

    #[inline(always)]
    fn kept(_state: &mut bool, _held: &Kept<A>) -> Result<(), AllocError> {
        Ok(())
    }

    #[inline(always)]
    fn check<D: Decided>(state: &mut bool, structure: &D) {
        *state = *state && structure.is_decided();
    }
}
