// Written by codegen from types.table: change that, and run codegen/codegen.
//! The attributes of an object, as one thing: whether they came by names (KMIP 1.0, section 2.1.1) or by tags (KMIP 2.0).

ghost use Rattle.std.specs.Prelude.{refl, true};
ghost use Rattle.kmip_ttlv_kinds.specs.Parts.{structure};

use kmip_attributes::attribute::Attribute;
use kmip_attributes::values::State;
use kmip_ttlv_kinds::{
    Alone, Any, FromParts, Holds, Of, PartList, Structure, Walk, read_structure,
};
use kmip_ttlv_parts::reader::{Cursor, Scope, Step};
use std::alloc::{AllocError, Allocator, Global};

/// Attributes of an object, in their order.
#[derive(Drop)]
#[derive_where(PartialEq)]
pub struct Attributes<A: Allocator = Global> {
    /// The attributes.
    pub list: Vec<Attribute<A>, A>,
}

type AttributesParts<A> = Alone<Any<Of<Attribute<A>, 0x420008>, 0x420008>>;

impl<A: Allocator + Copy> FromParts<A, AttributesParts<A>> for Attributes<A> {
    ghost parts = { λ x. x.list };

    fn from_parts(list: Holds<AttributesParts<A>, A>) -> Self {
        Attributes { list }
    }
}

impl<A: Allocator + Copy> Structure<A> for Attributes<A> {
    ghost rules = { structure true ⟦<AttributesParts<A> as PartList<A>>⟧.rules ⟦<Attributes<A> as FromParts<A, AttributesParts<A>>>⟧.parts refl ⟦<Attributes<A> as PartialEq>⟧.eq (λ x y e. e) };

    fn read<'b>(scope: &Scope<'b, A>, tag: u32, cursor: &mut Cursor<'b, A>) -> Step<Self, A> {
        read_structure::<AttributesParts<A>, Self, A>(scope, tag, true, cursor)
    }

    fn tell_parts<W: Walk<A>>(&self, state: &mut W::State) -> Result<(), AllocError> {
        W::one::<Any<Of<Attribute<A>, 0x420008>, 0x420008>>(state, &self.list)
    }
}
