//! Elements: what a part is one of, or several.

ghost use Rattle.std.specs.Prelude.{◌≡◌, ◌↔◌, ◌+◌, ◌≤◌, IfOk, IsTrue, OnErr, OnOk};
ghost use Rattle.kmip_ttlv_types.specs.Digits.{tag_text};
ghost use Rattle.kmip_ttlv_base.specs.Forms.{any_number};
ghost use Rattle.kmip_ttlv_base.specs.Tags.{wrapper_name};
ghost use Rattle.kmip_ttlv_base.specs.Values.{newtype_value, u32_value};
ghost use Rattle.kmip_ttlv_base.specs.Visits.{Receives};
ghost use Rattle.kmip_ttlv_reader.specs.LeafForms.{form_of_leaf};
ghost use Rattle.kmip_ttlv_reader.specs.Outcomes.{field_outcome, outcome};
ghost use Rattle.kmip_ttlv_reader.specs.Spots.{IsReadTo, IsWithin, at, structure_form, structure_value, wrapped_leaf};
ghost use Rattle.kmip_ttlv_parts.specs.Boxes.{boxed};
ghost use Rattle.kmip_ttlv_kinds.specs.Parts.{IsWithinSound, in_a_box, item_of, structure_item, within};
ghost use Rattle.kmip_ttlv_parts.specs.Enumerations.{enumeration_value};
ghost use Rattle.kmip_ttlv_kinds.specs.Leaves.{enumeration_item, enumeration_under, leaf_item};

use crate::counts::{Maybe, One};
use crate::leaves::{LeafKind, read_leaf_field, read_wrapped};
use crate::structure::{Structure, Wrapper, is_structure_whole, visit_structure};
use crate::walks::{Judges, Visits};
use kmip_ttlv_base::parts;
use kmip_ttlv_base::parts::{begin_structure, end_structure};
use kmip_ttlv_base::shape::Serialize;
use kmip_ttlv_base::visit::{self, Visitor};
use kmip_ttlv_parts::laws::Sound;
use kmip_ttlv_parts::{Boxed, Enumeration};
use kmip_ttlv_reader::cursor::missing_field;
use kmip_ttlv_reader::reader::{Cursor, Scope, Step};
use std::alloc::{AllocError, Allocator};
use std::marker::PhantomData;

/// What a part is one of: one item of a message.
pub trait Element<A: Allocator + Copy> {
    ghost use Rattle.kmip_ttlv_base.specs.Forms.{Form};
    ghost use Rattle.kmip_ttlv_base.specs.Values.{Value};
    ghost use Rattle.kmip_ttlv_kinds.specs.Parts.{ItemRules};

    /// The type of Rust that holds one of them.
    type Holds: Drop;

    // Its form.
    ghost form: { Form };

    // The value that it is read as.
    ghost value: { Self.Holds → Value };

    // What is written of it, which are sound, and that these come back.
    ghost rules: { ItemRules Self.Holds form value };

    /// The number of its tag.
    fn number() -> u32
        ensures { result ≡ rules.number };

    /// One of them, from the cursor on.
    fn read_one<'b>(scope: &Scope<'b, A>, cursor: &mut Cursor<'b, A>) -> Step<Self::Holds, A>
        requires within { IsWithin scope.now cursor.old }
        ensures read { IsReadTo value cursor.new (at (outcome form) scope.now cursor.old) result }
        ensures within { IfOk result (λ _. IsWithin scope.now cursor.new) }
        ensures further { IfOk result (λ _. cursor.old.pos + 8 ≤ cursor.new.pos) };

    /// The same, as a field of a structure, which may lack it.
    fn read_field<'b>(scope: &Scope<'b, A>, cursor: &mut Cursor<'b, A>) -> Step<Self::Holds, A>
        requires within { IsWithin scope.now cursor.old }
        ensures read { IsReadTo value cursor.new (at (field_outcome (tag_text rules.number) form (outcome form)) scope.now cursor.old) result }
        ensures within { IfOk result (λ _. IsWithin scope.now cursor.new) };

    /// Calls a visitor with it.
    fn visit_one<V: Visitor>(held: &Self::Holds, visitor: &mut V) -> Result<(), AllocError>
        ensures received { OnOk result (Receives V.knows V.step (rules.written held.now) visitor.old visitor.new) }
        ensures stopped { OnErr result (V.stopped visitor.new) };

    /// Whether it is sound.
    fn is_whole(held: &Self::Holds) -> bool
        ensures { IsTrue result ↔ rules.IsSound held.now };
}

/// A structure under this tag, as an element.
#[derive(Drop)]
pub struct Of<T, const TAG: u32> {
    kind: PhantomData<T>,
}

impl<T: Structure<A>, const TAG: u32, A: Allocator + Copy> Element<A> for Of<T, TAG> {
    type Holds = T;

    ghost form = { structure_form TAG T.rules.fields T.rules.closed };

    ghost value = { structure_value TAG (within T.rules.values) };

    ghost rules = { structure_item TAG T.rules };

    #[inline(always)]
    fn number() -> u32 {
        TAG
    }

    #[tactic(auto, unfolding(crate::specs::Parts::within))]
    #[inline(always)]
    fn read_one<'b>(scope: &Scope<'b, A>, cursor: &mut Cursor<'b, A>) -> Step<T, A> {
        T::read(scope, TAG, cursor)
    }

    #[tactic(auto, unfolding(kmip_ttlv_reader::specs::Outcomes::field_outcome, crate::specs::Parts::within), using(kmip_ttlv_reader::proofs::Steps::fault_is))]
    #[inline(always)]
    fn read_field<'b>(scope: &Scope<'b, A>, cursor: &mut Cursor<'b, A>) -> Step<T, A> {
        if cursor.pos() == scope.end {
            return Err(missing_field(scope));
        }
        T::read(scope, TAG, cursor)
    }

    #[inline(always)]
    fn visit_one<V: Visitor>(held: &T, visitor: &mut V) -> Result<(), AllocError> {
        visit_structure(held, TAG, visitor)
    }

    #[inline(always)]
    fn is_whole(held: &T) -> bool {
        is_structure_whole(held)
    }
}

/// A structure under this tag, as an element that holds what is in it, of this type of Rust.
#[derive(Drop)]
pub struct Inside<T, I, const TAG: u32> {
    kind: PhantomData<(T, I)>,
}

impl<T: Wrapper<I, A>, I: Drop, const TAG: u32, A: Allocator + Copy> Element<A>
    for Inside<T, I, TAG> {
    type Holds = I;

    ghost form = { structure_form TAG T.Structure.rules.fields T.Structure.rules.closed };

    ghost value = { λ x. structure_value TAG (within T.Structure.rules.values) (T.wrap x) };

    ghost rules = { item_of T.wrap (structure_item TAG T.Structure.rules) };

    #[inline(always)]
    fn number() -> u32 {
        TAG
    }

    #[inline(always)]
    fn read_one<'b>(scope: &Scope<'b, A>, cursor: &mut Cursor<'b, A>) -> Step<I, A> {
        match <Of<T, TAG> as Element<A>>::read_one(scope, cursor) {
            Ok(outer) => Ok(outer.into_inner()),
            Err(failure) => Err(failure),
        }
    }

    #[inline(always)]
    fn read_field<'b>(scope: &Scope<'b, A>, cursor: &mut Cursor<'b, A>) -> Step<I, A> {
        match <Of<T, TAG> as Element<A>>::read_field(scope, cursor) {
            Ok(outer) => Ok(outer.into_inner()),
            Err(failure) => Err(failure),
        }
    }

    #[tactic(auto, unfolding(crate::specs::Parts::within))]
    #[inline(always)]
    fn visit_one<V: Visitor>(held: &I, visitor: &mut V) -> Result<(), AllocError> {
        begin_structure(visitor, TAG)?;
        T::tell_inner::<Visits<V>>(held, visitor)?;
        end_structure(visitor, TAG)
    }

    #[tactic(auto, unfolding(crate::specs::Parts::IsWithinSound))]
    #[inline(always)]
    fn is_whole(held: &I) -> bool {
        let mut good = true;
        match T::tell_inner::<Judges>(held, &mut good) {
            Ok(()) => good,
            Err(_) => false,
        }
    }
}

/// An element on the heap.
#[derive(Drop)]
pub struct InBox<E> {
    kind: PhantomData<E>,
}

impl<E: Element<A>, A: Allocator + Copy> Element<A> for InBox<E> {
    type Holds = Boxed<E::Holds, A>;

    ghost form = { E.form };

    ghost value = { boxed E.value };

    ghost rules = { in_a_box E.rules };

    #[inline(always)]
    fn number() -> u32 {
        E::number()
    }

    #[inline(always)]
    fn read_one<'b>(
        scope: &Scope<'b, A>,
        cursor: &mut Cursor<'b, A>,
    ) -> Step<Boxed<E::Holds, A>, A> {
        match E::read_one(scope, cursor) {
            Ok(inner) => Ok(Boxed::new(scope.alloc, inner)?),
            Err(failure) => Err(failure),
        }
    }

    #[inline(always)]
    fn read_field<'b>(
        scope: &Scope<'b, A>,
        cursor: &mut Cursor<'b, A>,
    ) -> Step<Boxed<E::Holds, A>, A> {
        match E::read_field(scope, cursor) {
            Ok(inner) => Ok(Boxed::new(scope.alloc, inner)?),
            Err(failure) => Err(failure),
        }
    }

    #[inline(always)]
    fn visit_one<V: Visitor>(held: &Boxed<E::Holds, A>, visitor: &mut V) -> Result<(), AllocError> {
        E::visit_one(held.inner.as_ref(), visitor)
    }

    #[inline(always)]
    fn is_whole(held: &Boxed<E::Holds, A>) -> bool {
        E::is_whole(held.inner.as_ref())
    }
}

/// An Enumeration of any number, of its own tag.
impl<const TAG: u32, A: Allocator + Copy> Element<A> for Enumeration<TAG> {
    type Holds = Enumeration<TAG>;

    ghost form = { wrapped_leaf TAG any_number };

    ghost value = { enumeration_value };

    ghost rules = { enumeration_item TAG };

    #[inline(always)]
    fn number() -> u32 {
        TAG
    }

    #[inline(always)]
    fn read_one<'b>(scope: &Scope<'b, A>, cursor: &mut Cursor<'b, A>) -> Step<Enumeration<TAG>, A> {
        let number: u32 = read_wrapped(scope, TAG, cursor)?;
        Ok(Enumeration { number })
    }

    #[inline(always)]
    fn read_field<'b>(
        scope: &Scope<'b, A>,
        cursor: &mut Cursor<'b, A>,
    ) -> Step<Enumeration<TAG>, A> {
        let number: u32 = read_leaf_field(scope, TAG, cursor)?;
        Ok(Enumeration { number })
    }

    #[inline(always)]
    fn visit_one<V: Visitor>(held: &Enumeration<TAG>, visitor: &mut V) -> Result<(), AllocError> {
        held.visit(visitor)
    }

    #[inline(always)]
    fn is_whole(held: &Enumeration<TAG>) -> bool {
        held.is_sound()
    }
}

/// An Enumeration of any number under another tag than its own, as an attribute's value is.
#[derive(Drop)]
pub struct Under<E, const TAG: u32> {
    kind: PhantomData<E>,
}

impl<const OWN: u32, const TAG: u32, A: Allocator + Copy> Element<A>
    for Under<Enumeration<OWN>, TAG> {
    type Holds = Enumeration<OWN>;

    ghost form = { wrapped_leaf TAG any_number };

    ghost value = { λ x. newtype_value (wrapper_name TAG) (u32_value x.number) };

    ghost rules = { enumeration_under TAG };

    #[inline(always)]
    fn number() -> u32 {
        TAG
    }

    #[inline(always)]
    fn read_one<'b>(scope: &Scope<'b, A>, cursor: &mut Cursor<'b, A>) -> Step<Enumeration<OWN>, A> {
        let number: u32 = read_wrapped(scope, TAG, cursor)?;
        Ok(Enumeration { number })
    }

    #[inline(always)]
    fn read_field<'b>(
        scope: &Scope<'b, A>,
        cursor: &mut Cursor<'b, A>,
    ) -> Step<Enumeration<OWN>, A> {
        let number: u32 = read_leaf_field(scope, TAG, cursor)?;
        Ok(Enumeration { number })
    }

    #[inline(always)]
    fn visit_one<V: Visitor>(held: &Enumeration<OWN>, visitor: &mut V) -> Result<(), AllocError> {
        parts::tagged(visitor, TAG, visit::Leaf::U32(held.number))
    }

    #[inline(always)]
    fn is_whole(held: &Enumeration<OWN>) -> bool {
        held.is_sound()
    }
}

/// A leaf of this type of Rust under this tag, as an element.
#[derive(Drop)]
pub struct LeafItem<K, const TAG: u32> {
    kind: PhantomData<K>,
}

impl<K: LeafKind<A>, const TAG: u32, A: Allocator + Copy> Element<A> for LeafItem<K, TAG> {
    type Holds = K;

    ghost form = { wrapped_leaf TAG (form_of_leaf K.leaf) };

    ghost value = { λ x. newtype_value (wrapper_name TAG) (K.value x) };

    ghost rules = { leaf_item TAG K.rules };

    #[inline(always)]
    fn number() -> u32 {
        TAG
    }

    #[inline(always)]
    fn read_one<'b>(scope: &Scope<'b, A>, cursor: &mut Cursor<'b, A>) -> Step<K, A> {
        read_wrapped(scope, TAG, cursor)
    }

    #[inline(always)]
    fn read_field<'b>(scope: &Scope<'b, A>, cursor: &mut Cursor<'b, A>) -> Step<K, A> {
        read_leaf_field(scope, TAG, cursor)
    }

    #[inline(always)]
    fn visit_one<V: Visitor>(held: &K, visitor: &mut V) -> Result<(), AllocError> {
        parts::tagged(visitor, TAG, held.as_leaf())
    }

    #[inline(always)]
    fn is_whole(held: &K) -> bool {
        held.is_sound_leaf()
    }
}

/// A part that is a leaf of this type of Rust under this tag.
pub type Leaf<K, const TAG: u32> = One<LeafItem<K, TAG>>;

/// A part that is such a leaf, or absent.
pub type MaybeLeaf<K, const TAG: u32> = Maybe<LeafItem<K, TAG>, TAG>;
