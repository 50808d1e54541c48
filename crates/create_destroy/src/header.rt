// Written by codegen from types.table: change that, and run codegen/codegen.
//! What requests and responses begin with (KMIP 1.0, sections 6.1, 6.4 and 6.5).

ghost use Rattle.std.specs.Prelude.{false, refl};
ghost use Rattle.kmip_ttlv_kinds.specs.Parts.{structure};

use kmip_ttlv_kinds::{FromParts, Holds, Leaf, Of, One, PartList, Structure, Walk, read_structure};
use kmip_ttlv_parts::reader::{Cursor, DateTime, Scope, Step};
use std::alloc::{AllocError, Allocator};

/// The version of the protocol (KMIP 1.0, section 6.1).
#[derive(Clone, Copy, PartialEq, Eq)]
pub struct ProtocolVersion {
    /// Major versions are not compatible.
    pub major: i32,
    /// Minor ones are.
    pub minor: i32,
}

type ProtocolVersionParts = (Leaf<i32, 0x42006A>, Leaf<i32, 0x42006B>);

impl<A: Allocator + Copy> FromParts<A, ProtocolVersionParts> for ProtocolVersion {
    ghost parts = { λ x. (x.major, x.minor) };

    fn from_parts((major, minor): Holds<ProtocolVersionParts, A>) -> Self {
        ProtocolVersion { major, minor }
    }
}

impl<A: Allocator + Copy> Structure<A> for ProtocolVersion {
    ghost rules = { structure false ⟦<ProtocolVersionParts as PartList<A>>⟧.rules ⟦<ProtocolVersion as FromParts<A, ProtocolVersionParts>>⟧.parts refl ⟦<ProtocolVersion as PartialEq>⟧.eq (λ x y e. e) };

    fn read<'b>(scope: &Scope<'b, A>, tag: u32, cursor: &mut Cursor<'b, A>) -> Step<Self, A> {
        read_structure::<ProtocolVersionParts, Self, A>(scope, tag, false, cursor)
    }

    fn tell_parts<W: Walk<A>>(&self, state: &mut W::State) -> Result<(), AllocError> {
        W::two::<Leaf<i32, 0x42006A>, Leaf<i32, 0x42006B>>(state, &self.major, &self.minor)
    }
}

/// The header of a request.
#[derive(Clone, Copy, PartialEq, Eq)]
pub struct RequestHeader {
    /// The version of the request.
    pub version: ProtocolVersion,
    /// How many items follow.
    pub batch_count: i32,
}

type RequestHeaderParts = (One<Of<ProtocolVersion, 0x420069>>, Leaf<i32, 0x42000D>);

impl<A: Allocator + Copy> FromParts<A, RequestHeaderParts> for RequestHeader {
    ghost parts = { λ x. (x.version, x.batch_count) };

    fn from_parts((version, batch_count): Holds<RequestHeaderParts, A>) -> Self {
        RequestHeader {
            version,
            batch_count,
        }
    }
}

impl<A: Allocator + Copy> Structure<A> for RequestHeader {
    ghost rules = { structure false ⟦<RequestHeaderParts as PartList<A>>⟧.rules ⟦<RequestHeader as FromParts<A, RequestHeaderParts>>⟧.parts refl ⟦<RequestHeader as PartialEq>⟧.eq (λ x y e. e) };

    fn read<'b>(scope: &Scope<'b, A>, tag: u32, cursor: &mut Cursor<'b, A>) -> Step<Self, A> {
        read_structure::<RequestHeaderParts, Self, A>(scope, tag, false, cursor)
    }

    fn tell_parts<W: Walk<A>>(&self, state: &mut W::State) -> Result<(), AllocError> {
        W::two::<One<Of<ProtocolVersion, 0x420069>>, Leaf<i32, 0x42000D>>(
            state,
            &self.version,
            &self.batch_count,
        )
    }
}

/// The header of a response.
#[derive(Clone, Copy, PartialEq, Eq)]
pub struct ResponseHeader {
    /// The version of the response.
    pub version: ProtocolVersion,
    /// When it was made, in seconds since 1970.
    pub time_stamp: DateTime,
    /// How many items follow.
    pub batch_count: i32,
}

type ResponseHeaderParts = (
    One<Of<ProtocolVersion, 0x420069>>,
    Leaf<DateTime, 0x420092>,
    Leaf<i32, 0x42000D>,
);

impl<A: Allocator + Copy> FromParts<A, ResponseHeaderParts> for ResponseHeader {
    ghost parts = { λ x. (x.version, x.time_stamp, x.batch_count) };

    fn from_parts((version, time_stamp, batch_count): Holds<ResponseHeaderParts, A>) -> Self {
        ResponseHeader {
            version,
            time_stamp,
            batch_count,
        }
    }
}

impl<A: Allocator + Copy> Structure<A> for ResponseHeader {
    ghost rules = { structure false ⟦<ResponseHeaderParts as PartList<A>>⟧.rules ⟦<ResponseHeader as FromParts<A, ResponseHeaderParts>>⟧.parts refl ⟦<ResponseHeader as PartialEq>⟧.eq (λ x y e. e) };

    fn read<'b>(scope: &Scope<'b, A>, tag: u32, cursor: &mut Cursor<'b, A>) -> Step<Self, A> {
        read_structure::<ResponseHeaderParts, Self, A>(scope, tag, false, cursor)
    }

    fn tell_parts<W: Walk<A>>(&self, state: &mut W::State) -> Result<(), AllocError> {
        W::three::<
            One<Of<ProtocolVersion, 0x420069>>,
            Leaf<DateTime, 0x420092>,
            Leaf<i32, 0x42000D>,
        >(state, &self.version, &self.time_stamp, &self.batch_count)
    }
}
