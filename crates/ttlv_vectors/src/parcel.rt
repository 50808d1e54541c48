// Written by codegen from types.table: change that, and run codegen/codegen.
//! A message with structures on the heap.

ghost use Rattle.std.specs.Prelude.{◌≡◌, false, refl};
ghost use Rattle.kmip_ttlv_kinds.specs.Parts.{structure};

use crate::leaves::{Contents, Moments};
use kmip_ttlv::error::Error;
use kmip_ttlv::laws::{Message, Sound};
use kmip_ttlv::shape::{Decode, Serialize};
use kmip_ttlv_kinds::{
    Alone, Element, FromParts, Holds, InBox, Leaf, Maybe, Of, One, PartList, Structure, Walk,
    decode_structure, is_structure_whole, read_structure, structures_come_back, visit_structure,
};
use kmip_ttlv_parts::Boxed;
use kmip_ttlv_parts::reader::{Cursor, Scope, Step};
use kmip_ttlv_parts::visit::Visitor;
use std::alloc::{AllocError, Allocator, Global};

/// A note.
#[derive(Drop)]
#[derive_where(PartialEq)]
pub struct Note<A: Allocator = Global> {
    /// What it says.
    pub text: String<A>,
}

type NoteParts<A> = Alone<Leaf<String<A>, 0x540082>>;

impl<A: Allocator + Copy> FromParts<A, NoteParts<A>> for Note<A> {
    ghost parts = { λ x. x.text };

    fn from_parts(text: Holds<NoteParts<A>, A>) -> Self {
        Note { text }
    }
}

impl<A: Allocator + Copy> Structure<A> for Note<A> {
    ghost rules = { structure false ⟦<NoteParts<A> as PartList<A>>⟧.rules ⟦<Note<A> as FromParts<A, NoteParts<A>>>⟧.parts refl ⟦<Note<A> as PartialEq>⟧.eq (λ x y e. e) };

    fn read<'b>(scope: &Scope<'b, A>, tag: u32, cursor: &mut Cursor<'b, A>) -> Step<Self, A> {
        read_structure::<NoteParts<A>, Self, A>(scope, tag, false, cursor)
    }

    fn tell_parts<W: Walk<A>>(&self, state: &mut W::State) -> Result<(), AllocError> {
        W::one::<Leaf<String<A>, 0x540082>>(state, &self.text)
    }
}

/// A message of structures on the heap.
#[derive(Drop)]
#[derive_where(PartialEq)]
pub struct Parcel<A: Allocator = Global> {
    /// Times, and truth: always there.
    pub moments: Boxed<Moments, A>,
    /// Texts and bytes, not all of which are sound.
    pub contents: Option<Boxed<Contents<A>, A>>,
    /// A note.
    pub note: Option<Boxed<Note<A>, A>>,
}

type ParcelParts<A> = (
    One<InBox<Of<Moments, 0x540009>>>,
    Maybe<InBox<Of<Contents<A>, 0x540020>>, 0x540020>,
    Maybe<InBox<Of<Note<A>, 0x540081>>, 0x540081>,
);

impl<A: Allocator + Copy> FromParts<A, ParcelParts<A>> for Parcel<A> {
    ghost parts = { λ x. (x.moments, x.contents, x.note) };

    fn from_parts((moments, contents, note): Holds<ParcelParts<A>, A>) -> Self {
        Parcel {
            moments,
            contents,
            note,
        }
    }
}

impl<A: Allocator + Copy> Structure<A> for Parcel<A> {
    ghost rules = { structure false ⟦<ParcelParts<A> as PartList<A>>⟧.rules ⟦<Parcel<A> as FromParts<A, ParcelParts<A>>>⟧.parts refl ⟦<Parcel<A> as PartialEq>⟧.eq (λ x y e. e) };

    fn read<'b>(scope: &Scope<'b, A>, tag: u32, cursor: &mut Cursor<'b, A>) -> Step<Self, A> {
        read_structure::<ParcelParts<A>, Self, A>(scope, tag, false, cursor)
    }

    fn tell_parts<W: Walk<A>>(&self, state: &mut W::State) -> Result<(), AllocError> {
        W::three::<
            One<InBox<Of<Moments, 0x540009>>>,
            Maybe<InBox<Of<Contents<A>, 0x540020>>, 0x540020>,
            Maybe<InBox<Of<Note<A>, 0x540081>>, 0x540081>,
        >(state, &self.moments, &self.contents, &self.note)
    }
}

impl<A: Allocator + Copy> Serialize for Parcel<A> {
    ghost stated = { ⟦<Of<Parcel<A>, 0x540080> as Element<A>>⟧.rules.written };

    fn visit<V: Visitor>(&self, visitor: &mut V) -> Result<(), AllocError> {
        visit_structure(self, 0x540080, visitor)
    }
}

impl<A: Allocator + Copy> Decode<A> for Parcel<A> {
    ghost form = { ⟦<Of<Parcel<A>, 0x540080> as Element<A>>⟧.form };

    ghost is_value = { λ v x. v ≡ ⟦<Of<Parcel<A>, 0x540080> as Element<A>>⟧.value x };

    fn decode(alloc: A, bytes: &[u8]) -> Result<Self, Error<A>> {
        decode_structure::<ParcelParts<A>, Self, A>(alloc, 0x540080, false, bytes)
    }
}

impl<A: Allocator + Copy> Sound for Parcel<A> {
    ghost IsSound = { ⟦<Of<Parcel<A>, 0x540080> as Element<A>>⟧.rules.IsSound };

    fn is_sound(&self) -> bool {
        is_structure_whole(self)
    }
}

impl<A: Allocator + Copy> Message<A> for Parcel<A> {
    fn comes_back() {
        structures_come_back::<Parcel<A>, 0x540080, A>();
    }
}
