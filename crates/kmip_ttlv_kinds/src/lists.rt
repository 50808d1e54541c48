//! Lists of parts: one alone, tuples of up to four kinds, or `Before` or `Four` of them with others behind. What they hold has the same
//! layout.

ghost use Rattle.std.specs.Prelude.{◌≡◌, [], ◌∷◌, IfOk};
ghost use Rattle.kmip_ttlv_types.specs.Digits.{tag_text};
ghost use Rattle.kmip_ttlv_base.specs.Forms.{field, no_fields};
ghost use Rattle.kmip_ttlv_base.specs.Values.{no_values, value};
ghost use Rattle.kmip_ttlv_reader.specs.Reads.{has_fields, names_tag};
ghost use Rattle.kmip_ttlv_reader.specs.Outcomes.{fields_outcome};
ghost use Rattle.kmip_ttlv_reader.specs.Spots.{IsReadTo, IsWithin, at};
ghost use Rattle.kmip_ttlv_kinds.specs.Parts.{AreFour, AreThree, AreTwo, are_four, are_more, are_three, are_two, block, blocks, four_of, in_blocks, is_one, is_one_more, last, more_of, of, then, three_of, two_of};

use crate::counts::Part;
use kmip_ttlv_base::types::TtlvTag;
use kmip_ttlv_reader::reader::{Cursor, Scope, Step};
use std::alloc::Allocator;
use std::marker::PhantomData;

/// What a list of these parts holds.
pub type Holds<L, A> = <L as PartList<A>>::Holds;

/// The parts of a structure, in their order.
pub trait PartList<A: Allocator + Copy> {
    ghost use Rattle.kmip_ttlv_base.specs.Forms.{Fields};
    ghost use Rattle.kmip_ttlv_base.specs.Values.{Values};
    ghost use Rattle.kmip_ttlv_kinds.specs.Parts.{ListRules};

    /// The types of Rust that hold them, as a tuple.
    type Holds: Drop;

    // The parts' names and forms.
    ghost fields: { Fields };

    // The values that they are read as.
    ghost values: { Self.Holds → Values };

    // What is written of them, which are sound, and that these come back.
    ghost rules: { ListRules Self.Holds fields values };

    /// Whether there is a part.
    fn has_parts() -> bool
        ensures { result ≡ has_fields fields };

    /// Whether the tag is that of a part.
    fn is_part(tag: TtlvTag) -> bool
        ensures { result ≡ names_tag fields tag };

    /// The parts, from the cursor on.
    fn read_list<'b>(scope: &Scope<'b, A>, cursor: &mut Cursor<'b, A>) -> Step<Self::Holds, A>
        requires within { IsWithin scope.now cursor.old }
        ensures read { IsReadTo values cursor.new (at (fields_outcome fields) scope.now cursor.old) result }
        ensures within { IfOk result (λ _. IsWithin scope.now cursor.new) };
}

// Parts that are read one after the other: what tuples are read by.
trait Run<A: Allocator + Copy> {
    ghost use Rattle.kmip_ttlv_base.specs.Forms.{Fields};
    ghost use Rattle.kmip_ttlv_base.specs.Values.{Values};

    // The types of Rust that hold them, each in a pair with those of the later ones.
    type Holds: Drop;

    // The parts' names and forms.
    ghost fields: { Fields };

    // The values that they are read as.
    ghost values: { Self.Holds → Values };

    // Whether the tag is that of a part.
    fn is_part(tag: TtlvTag) -> bool
        ensures { result ≡ names_tag fields tag };

    // The parts, from the cursor on.
    fn read<'b>(scope: &Scope<'b, A>, cursor: &mut Cursor<'b, A>) -> Step<Self::Holds, A>
        requires within { IsWithin scope.now cursor.old }
        ensures read { IsReadTo values cursor.new (at (fields_outcome fields) scope.now cursor.old) result }
        ensures within { IfOk result (λ _. IsWithin scope.now cursor.new) };
}

impl<A: Allocator + Copy> Run<A> for () {
    type Holds = ();

    ghost fields = { no_fields };

    ghost values = { λ _. no_values };

    fn is_part(_tag: TtlvTag) -> bool {
        false
    }

    #[tactic(auto, unfolding(kmip_ttlv_reader::specs::Outcomes::fields_outcome))]
    #[inline(always)]
    fn read<'b>(_scope: &Scope<'b, A>, _cursor: &mut Cursor<'b, A>) -> Step<(), A> {
        Ok(())
    }
}

// A list, as what is read behind other parts.
#[derive(Drop)]
struct Behind<L> {
    kind: PhantomData<L>,
}

impl<L: PartList<A>, A: Allocator + Copy> Run<A> for Behind<L> {
    type Holds = L::Holds;

    ghost fields = { L.fields };

    ghost values = { L.values };

    fn is_part(tag: TtlvTag) -> bool {
        L::is_part(tag)
    }

    #[inline(always)]
    fn read<'b>(scope: &Scope<'b, A>, cursor: &mut Cursor<'b, A>) -> Step<L::Holds, A> {
        L::read_list(scope, cursor)
    }
}

// A part, and others after it.
#[derive(Drop)]
struct Then<P, R> {
    kind: PhantomData<(P, R)>,
}

impl<P: Part<A>, R: Run<A>, A: Allocator + Copy> Run<A> for Then<P, R> {
    type Holds = (P::Holds, R::Holds);

    ghost fields = { field (tag_text P.rules.tag) P.form R.fields };

    ghost values = { λ x. value (P.value x.0) (R.values x.1) };

    fn is_part(tag: TtlvTag) -> bool {
        P::has_tag(tag) || R::is_part(tag)
    }

    #[tactic(auto, unfolding(kmip_ttlv_reader::specs::Outcomes::fields_outcome), using(kmip_ttlv_reader::proofs::Steps::failure_then))]
    #[inline(always)]
    fn read<'b>(scope: &Scope<'b, A>, cursor: &mut Cursor<'b, A>) -> Step<(P::Holds, R::Holds), A> {
        let first = P::read(scope, cursor)?;
        let others = R::read(scope, cursor)?;
        Ok((first, others))
    }
}

/// One part alone.
#[derive(Drop)]
pub struct Alone<P> {
    kind: PhantomData<P>,
}

impl<P: Part<A>, A: Allocator + Copy> PartList<A> for Alone<P> {
    type Holds = P::Holds;

    ghost fields = { field (tag_text P.rules.tag) P.form no_fields };

    ghost values = { λ x. value (P.value x) no_values };

    ghost rules = { in_blocks (λ x. block (P.rules.written x ∷ [])) P.rules.IsSound (last P.rules) (λ x. is_one (P.rules.written x)) (λ x sound. sound) };

    fn has_parts() -> bool {
        true
    }

    fn is_part(tag: TtlvTag) -> bool {
        P::has_tag(tag)
    }

    #[inline(always)]
    fn read_list<'b>(scope: &Scope<'b, A>, cursor: &mut Cursor<'b, A>) -> Step<P::Holds, A> {
        match <Then<P, ()> as Run<A>>::read(scope, cursor) {
            Ok((first, ())) => Ok(first),
            Err(failure) => Err(failure),
        }
    }
}

impl<P: Part<A>, Q: Part<A>, A: Allocator + Copy> PartList<A> for (P, Q) {
    type Holds = (P::Holds, Q::Holds);

    ghost fields = { field (tag_text P.rules.tag) P.form (field (tag_text Q.rules.tag) Q.form no_fields) };

    ghost values = { λ x. value (P.value x.0) (value (Q.value x.1) no_values) };

    ghost rules = { in_blocks (λ x. block (P.rules.written x.0 ∷ Q.rules.written x.1 ∷ []))
        (λ x. AreTwo (P.rules.IsSound x.0) (Q.rules.IsSound x.1))
        (of (λ x. (x.0, x.1)) (then P.rules (last Q.rules))) (λ x. are_two (P.rules.written x.0) (Q.rules.written x.1)) (λ x sound. two_of sound) };

    fn has_parts() -> bool {
        true
    }

    fn is_part(tag: TtlvTag) -> bool {
        <Then<P, Then<Q, ()>> as Run<A>>::is_part(tag)
    }

    #[inline(always)]
    fn read_list<'b>(
        scope: &Scope<'b, A>,
        cursor: &mut Cursor<'b, A>,
    ) -> Step<(P::Holds, Q::Holds), A> {
        match <Then<P, Then<Q, ()>> as Run<A>>::read(scope, cursor) {
            Ok(parts) => {
                let (first, (second, ())) = parts;
                Ok((first, second))
            }
            Err(failure) => Err(failure),
        }
    }
}

impl<P: Part<A>, Q: Part<A>, R: Part<A>, A: Allocator + Copy> PartList<A> for (P, Q, R) {
    type Holds = (P::Holds, Q::Holds, R::Holds);

    ghost fields = { field (tag_text P.rules.tag) P.form (field (tag_text Q.rules.tag) Q.form (field (tag_text R.rules.tag) R.form no_fields)) };

    ghost values = { λ x. value (P.value x.0) (value (Q.value x.1) (value (R.value x.2) no_values)) };

    ghost rules = { in_blocks (λ x. block (P.rules.written x.0 ∷ Q.rules.written x.1 ∷ R.rules.written x.2 ∷ []))
        (λ x. AreThree (P.rules.IsSound x.0) (Q.rules.IsSound x.1) (R.rules.IsSound x.2))
        (of (λ x. (x.0, (x.1, x.2))) (then P.rules (then Q.rules (last R.rules)))) (λ x. are_three (P.rules.written x.0) (Q.rules.written x.1) (R.rules.written x.2)) (λ x sound. three_of sound) };

    fn has_parts() -> bool {
        true
    }

    fn is_part(tag: TtlvTag) -> bool {
        <Then<P, Then<Q, Then<R, ()>>> as Run<A>>::is_part(tag)
    }

    #[inline(always)]
    fn read_list<'b>(
        scope: &Scope<'b, A>,
        cursor: &mut Cursor<'b, A>,
    ) -> Step<(P::Holds, Q::Holds, R::Holds), A> {
        match <Then<P, Then<Q, Then<R, ()>>> as Run<A>>::read(scope, cursor) {
            Ok(parts) => {
                let (first, (second, (third, ()))) = parts;
                Ok((first, second, third))
            }
            Err(failure) => Err(failure),
        }
    }
}

impl<P: Part<A>, Q: Part<A>, R: Part<A>, S: Part<A>, A: Allocator + Copy> PartList<A>
    for (P, Q, R, S) {
    type Holds = (P::Holds, Q::Holds, R::Holds, S::Holds);

    ghost fields = { field (tag_text P.rules.tag) P.form (field (tag_text Q.rules.tag) Q.form (field (tag_text R.rules.tag) R.form (field (tag_text S.rules.tag) S.form no_fields))) };

    ghost values = { λ x. value (P.value x.0) (value (Q.value x.1) (value (R.value x.2) (value (S.value x.3) no_values))) };

    ghost rules = { in_blocks (λ x. block (P.rules.written x.0 ∷ Q.rules.written x.1 ∷ R.rules.written x.2 ∷ S.rules.written x.3 ∷ []))
        (λ x. AreFour (P.rules.IsSound x.0) (Q.rules.IsSound x.1) (R.rules.IsSound x.2) (S.rules.IsSound x.3))
        (of (λ x. (x.0, (x.1, (x.2, x.3)))) (then P.rules (then Q.rules (then R.rules (last S.rules))))) (λ x. are_four (P.rules.written x.0) (Q.rules.written x.1) (R.rules.written x.2) (S.rules.written x.3)) (λ x sound. four_of sound) };

    fn has_parts() -> bool {
        true
    }

    fn is_part(tag: TtlvTag) -> bool {
        <Then<P, Then<Q, Then<R, Then<S, ()>>>> as Run<A>>::is_part(tag)
    }

    #[inline(always)]
    fn read_list<'b>(
        scope: &Scope<'b, A>,
        cursor: &mut Cursor<'b, A>,
    ) -> Step<(P::Holds, Q::Holds, R::Holds, S::Holds), A> {
        match <Then<P, Then<Q, Then<R, Then<S, ()>>>> as Run<A>>::read(scope, cursor) {
            Ok(parts) => {
                let (first, (second, (third, (fourth, ())))) = parts;
                Ok((first, second, third, fourth))
            }
            Err(failure) => Err(failure),
        }
    }
}

/// Four parts, as a tuple of their kinds, and others behind them.
#[derive(Drop)]
pub struct Four<F, L> {
    kind: PhantomData<(F, L)>,
}

impl<P: Part<A>, Q: Part<A>, R: Part<A>, S: Part<A>, L: PartList<A>, A: Allocator + Copy> PartList<
    A,
> for Four<(P, Q, R, S), L> {
    type Holds = (P::Holds, Q::Holds, R::Holds, S::Holds, L::Holds);

    ghost fields = { field (tag_text P.rules.tag) P.form (field (tag_text Q.rules.tag) Q.form (field (tag_text R.rules.tag) R.form (field (tag_text S.rules.tag) S.form L.fields))) };

    ghost values = { λ x. value (P.value x.0) (value (Q.value x.1) (value (R.value x.2) (value (S.value x.3) (L.values x.4)))) };

    ghost rules = { in_blocks (λ x. blocks (block (P.rules.written x.0 ∷ Q.rules.written x.1 ∷ R.rules.written x.2 ∷ S.rules.written x.3 ∷ [])) (L.rules.written x.4))
        (λ x. AreFour (P.rules.IsSound x.0) (Q.rules.IsSound x.1) (R.rules.IsSound x.2) (S.rules.IsSound x.3) × L.rules.IsSound x.4)
        (of (λ x. (x.0, (x.1, (x.2, (x.3, x.4))))) (then P.rules (then Q.rules (then R.rules (then S.rules L.rules)))))
        (λ x. are_more (P.rules.written x.0) (Q.rules.written x.1) (R.rules.written x.2) (S.rules.written x.3) (L.rules.written x.4)) (λ x sound. more_of sound) };

    fn has_parts() -> bool {
        true
    }

    fn is_part(tag: TtlvTag) -> bool {
        <Then<P, Then<Q, Then<R, Then<S, Behind<L>>>>> as Run<A>>::is_part(tag)
    }

    #[inline(always)]
    fn read_list<'b>(
        scope: &Scope<'b, A>,
        cursor: &mut Cursor<'b, A>,
    ) -> Step<(P::Holds, Q::Holds, R::Holds, S::Holds, L::Holds), A> {
        match <Then<P, Then<Q, Then<R, Then<S, Behind<L>>>>> as Run<A>>::read(scope, cursor) {
            Ok(parts) => {
                let (first, (second, (third, (fourth, others)))) = parts;
                Ok((first, second, third, fourth, others))
            }
            Err(failure) => Err(failure),
        }
    }
}

/// One part, and others behind it.
#[derive(Drop)]
pub struct Before<P, L> {
    kind: PhantomData<(P, L)>,
}

impl<P: Part<A>, L: PartList<A>, A: Allocator + Copy> PartList<A> for Before<P, L> {
    type Holds = (P::Holds, L::Holds);

    ghost fields = { field (tag_text P.rules.tag) P.form L.fields };

    ghost values = { λ x. value (P.value x.0) (L.values x.1) };

    ghost rules = { in_blocks (λ x. blocks (block (P.rules.written x.0 ∷ [])) (L.rules.written x.1)) (λ x. P.rules.IsSound x.0 × L.rules.IsSound x.1)
        (then P.rules L.rules) (λ x. is_one_more (P.rules.written x.0) (L.rules.written x.1)) (λ x sound. sound) };

    fn has_parts() -> bool {
        true
    }

    fn is_part(tag: TtlvTag) -> bool {
        <Then<P, Behind<L>> as Run<A>>::is_part(tag)
    }

    #[inline(always)]
    fn read_list<'b>(
        scope: &Scope<'b, A>,
        cursor: &mut Cursor<'b, A>,
    ) -> Step<(P::Holds, L::Holds), A> {
        <Then<P, Behind<L>> as Run<A>>::read(scope, cursor)
    }
}
