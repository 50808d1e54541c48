// Written by codegen from types.table: change that, and run codegen/codegen.
//! What objects are made with (KMIP 1.0, section 2.1.8).

ghost use Rattle.std.specs.Prelude.{refl, true};
ghost use Rattle.kmip_ttlv_kinds.specs.Parts.{structure};

use kmip_attributes::attribute::Attribute;
use kmip_attributes::values::{NameType, State};
use kmip_ttlv_kinds::{
    Any, FromParts, Holds, Leaf, Of, One, PartList, Structure, Walk, read_structure,
};
use kmip_ttlv_parts::reader::{Cursor, Scope, Step};
use std::alloc::{AllocError, Allocator, Global};

/// The name of a template (section 3.2).
#[derive(Drop)]
#[derive_where(PartialEq)]
pub struct TemplateName<A: Allocator = Global> {
    /// The name.
    pub value: String<A>,
    /// How it is to be read.
    pub name_type: NameType,
}

type TemplateNameParts<A> = (Leaf<String<A>, 0x420055>, One<NameType>);

impl<A: Allocator + Copy> FromParts<A, TemplateNameParts<A>> for TemplateName<A> {
    ghost parts = { λ x. (x.value, x.name_type) };

    fn from_parts((value, name_type): Holds<TemplateNameParts<A>, A>) -> Self {
        TemplateName { value, name_type }
    }
}

impl<A: Allocator + Copy> Structure<A> for TemplateName<A> {
    ghost rules = { structure true ⟦<TemplateNameParts<A> as PartList<A>>⟧.rules ⟦<TemplateName<A> as FromParts<A, TemplateNameParts<A>>>⟧.parts refl ⟦<TemplateName<A> as PartialEq>⟧.eq (λ x y e. e) };

    fn read<'b>(scope: &Scope<'b, A>, tag: u32, cursor: &mut Cursor<'b, A>) -> Step<Self, A> {
        read_structure::<TemplateNameParts<A>, Self, A>(scope, tag, true, cursor)
    }

    fn tell_parts<W: Walk<A>>(&self, state: &mut W::State) -> Result<(), AllocError> {
        W::two::<Leaf<String<A>, 0x420055>, One<NameType>>(state, &self.value, &self.name_type)
    }
}

/// Templates and attributes.
#[derive(Drop)]
#[derive_where(PartialEq)]
pub struct TemplateAttribute<A: Allocator = Global> {
    /// The names of templates.
    pub names: Vec<TemplateName<A>, A>,
    /// The attributes.
    pub attributes: Vec<Attribute<A>, A>,
}

type TemplateAttributeParts<A> = (
    Any<Of<TemplateName<A>, 0x420053>, 0x420053>,
    Any<Of<Attribute<A>, 0x420008>, 0x420008>,
);

impl<A: Allocator + Copy> FromParts<A, TemplateAttributeParts<A>> for TemplateAttribute<A> {
    ghost parts = { λ x. (x.names, x.attributes) };

    fn from_parts((names, attributes): Holds<TemplateAttributeParts<A>, A>) -> Self {
        TemplateAttribute { names, attributes }
    }
}

impl<A: Allocator + Copy> Structure<A> for TemplateAttribute<A> {
    ghost rules = { structure true ⟦<TemplateAttributeParts<A> as PartList<A>>⟧.rules ⟦<TemplateAttribute<A> as FromParts<A, TemplateAttributeParts<A>>>⟧.parts refl ⟦<TemplateAttribute<A> as PartialEq>⟧.eq (λ x y e. e) };

    fn read<'b>(scope: &Scope<'b, A>, tag: u32, cursor: &mut Cursor<'b, A>) -> Step<Self, A> {
        read_structure::<TemplateAttributeParts<A>, Self, A>(scope, tag, true, cursor)
    }

    fn tell_parts<W: Walk<A>>(&self, state: &mut W::State) -> Result<(), AllocError> {
        W::two::<
            Any<Of<TemplateName<A>, 0x420053>, 0x420053>,
            Any<Of<Attribute<A>, 0x420008>, 0x420008>,
        >(state, &self.names, &self.attributes)
    }
}

/// What both keys of a pair are made with.
#[derive(Drop)]
#[derive_where(PartialEq)]
pub struct CommonTemplateAttribute<A: Allocator = Global> {
    /// The names of templates.
    pub names: Vec<TemplateName<A>, A>,
    /// The attributes.
    pub attributes: Vec<Attribute<A>, A>,
}

type CommonTemplateAttributeParts<A> = (
    Any<Of<TemplateName<A>, 0x420053>, 0x420053>,
    Any<Of<Attribute<A>, 0x420008>, 0x420008>,
);

impl<A: Allocator + Copy> FromParts<A, CommonTemplateAttributeParts<A>>
    for CommonTemplateAttribute<A> {
    ghost parts = { λ x. (x.names, x.attributes) };

    fn from_parts((names, attributes): Holds<CommonTemplateAttributeParts<A>, A>) -> Self {
        CommonTemplateAttribute { names, attributes }
    }
}

impl<A: Allocator + Copy> Structure<A> for CommonTemplateAttribute<A> {
    ghost rules = { structure true ⟦<CommonTemplateAttributeParts<A> as PartList<A>>⟧.rules ⟦<CommonTemplateAttribute<A> as FromParts<A, CommonTemplateAttributeParts<A>>>⟧.parts refl ⟦<CommonTemplateAttribute<A> as PartialEq>⟧.eq (λ x y e. e) };

    fn read<'b>(scope: &Scope<'b, A>, tag: u32, cursor: &mut Cursor<'b, A>) -> Step<Self, A> {
        read_structure::<CommonTemplateAttributeParts<A>, Self, A>(scope, tag, true, cursor)
    }

    fn tell_parts<W: Walk<A>>(&self, state: &mut W::State) -> Result<(), AllocError> {
        W::two::<
            Any<Of<TemplateName<A>, 0x420053>, 0x420053>,
            Any<Of<Attribute<A>, 0x420008>, 0x420008>,
        >(state, &self.names, &self.attributes)
    }
}

/// What a private key is made with.
#[derive(Drop)]
#[derive_where(PartialEq)]
pub struct PrivateKeyTemplateAttribute<A: Allocator = Global> {
    /// The names of templates.
    pub names: Vec<TemplateName<A>, A>,
    /// The attributes.
    pub attributes: Vec<Attribute<A>, A>,
}

type PrivateKeyTemplateAttributeParts<A> = (
    Any<Of<TemplateName<A>, 0x420053>, 0x420053>,
    Any<Of<Attribute<A>, 0x420008>, 0x420008>,
);

impl<A: Allocator + Copy> FromParts<A, PrivateKeyTemplateAttributeParts<A>>
    for PrivateKeyTemplateAttribute<A> {
    ghost parts = { λ x. (x.names, x.attributes) };

    fn from_parts((names, attributes): Holds<PrivateKeyTemplateAttributeParts<A>, A>) -> Self {
        PrivateKeyTemplateAttribute { names, attributes }
    }
}

impl<A: Allocator + Copy> Structure<A> for PrivateKeyTemplateAttribute<A> {
    ghost rules = { structure true ⟦<PrivateKeyTemplateAttributeParts<A> as PartList<A>>⟧.rules ⟦<PrivateKeyTemplateAttribute<A> as FromParts<A, PrivateKeyTemplateAttributeParts<A>>>⟧.parts refl ⟦<PrivateKeyTemplateAttribute<A> as PartialEq>⟧.eq (λ x y e. e) };

    fn read<'b>(scope: &Scope<'b, A>, tag: u32, cursor: &mut Cursor<'b, A>) -> Step<Self, A> {
        read_structure::<PrivateKeyTemplateAttributeParts<A>, Self, A>(scope, tag, true, cursor)
    }

    fn tell_parts<W: Walk<A>>(&self, state: &mut W::State) -> Result<(), AllocError> {
        W::two::<
            Any<Of<TemplateName<A>, 0x420053>, 0x420053>,
            Any<Of<Attribute<A>, 0x420008>, 0x420008>,
        >(state, &self.names, &self.attributes)
    }
}

/// What a public key is made with.
#[derive(Drop)]
#[derive_where(PartialEq)]
pub struct PublicKeyTemplateAttribute<A: Allocator = Global> {
    /// The names of templates.
    pub names: Vec<TemplateName<A>, A>,
    /// The attributes.
    pub attributes: Vec<Attribute<A>, A>,
}

type PublicKeyTemplateAttributeParts<A> = (
    Any<Of<TemplateName<A>, 0x420053>, 0x420053>,
    Any<Of<Attribute<A>, 0x420008>, 0x420008>,
);

impl<A: Allocator + Copy> FromParts<A, PublicKeyTemplateAttributeParts<A>>
    for PublicKeyTemplateAttribute<A> {
    ghost parts = { λ x. (x.names, x.attributes) };

    fn from_parts((names, attributes): Holds<PublicKeyTemplateAttributeParts<A>, A>) -> Self {
        PublicKeyTemplateAttribute { names, attributes }
    }
}

impl<A: Allocator + Copy> Structure<A> for PublicKeyTemplateAttribute<A> {
    ghost rules = { structure true ⟦<PublicKeyTemplateAttributeParts<A> as PartList<A>>⟧.rules ⟦<PublicKeyTemplateAttribute<A> as FromParts<A, PublicKeyTemplateAttributeParts<A>>>⟧.parts refl ⟦<PublicKeyTemplateAttribute<A> as PartialEq>⟧.eq (λ x y e. e) };

    fn read<'b>(scope: &Scope<'b, A>, tag: u32, cursor: &mut Cursor<'b, A>) -> Step<Self, A> {
        read_structure::<PublicKeyTemplateAttributeParts<A>, Self, A>(scope, tag, true, cursor)
    }

    fn tell_parts<W: Walk<A>>(&self, state: &mut W::State) -> Result<(), AllocError> {
        W::two::<
            Any<Of<TemplateName<A>, 0x420053>, 0x420053>,
            Any<Of<Attribute<A>, 0x420008>, 0x420008>,
        >(state, &self.names, &self.attributes)
    }
}
