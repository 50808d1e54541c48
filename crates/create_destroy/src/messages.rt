//! The two messages: the fields of a header, and the items that follow. Both are encoded, decoded, and come back.

ghost use Rattle.std.specs.Prelude.{◌≡◌, false, refl, OnErr, OnOk};
ghost use Rattle.kmip_ttlv_kinds.specs.Laws.{AreReadBack};
ghost use Rattle.kmip_ttlv_kinds.specs.Parts.{IsWithinSound, structure, told_parts, within};
ghost use Rattle.create_destroy.specs.Headers.{of_request, of_response, request_header, response_header};

use crate::header::{ProtocolVersion, RequestHeader, ResponseHeader};
use crate::request::RequestItem;
use crate::response::ResponseItem;
use kmip_ttlv::error::Error;
use kmip_ttlv::laws::{Message, Sound};
use kmip_ttlv::shape::{Decode, Serialize};
use kmip_ttlv_kinds::{
    Element, FromParts, Holds, Of, One, Part, PartList, Several, Structure, Walk, decode_structure,
    is_structure_whole, read_structure, structures_are_read_back, structures_come_back,
    visit_structure,
};
use kmip_ttlv_parts::reader::{Cursor, DateTime, Scope, Step};
use kmip_ttlv_parts::visit::Visitor;
use std::alloc::{AllocError, Allocator, Global};

// Tells a walk of a header, and of the items behind it.
#[tactic(auto, unfolding(kmip_ttlv_kinds::specs::Parts::within, kmip_ttlv_kinds::specs::Parts::IsWithinSound))]
fn tell_two<P: Part<A>, Q: Part<A>, W: Walk<A>, A: Allocator + Copy>(
    header: &P::Holds,
    items: &Q::Holds,
    state: &mut W::State,
) -> Result<(), AllocError>
    ensures told { OnOk result (W.steps.Takes state.old (told_parts (within ⟦<(P, Q) as PartList<A>>⟧.rules.written (header.now, items.now)) (IsWithinSound ⟦<(P, Q) as PartList<A>>⟧.rules.IsSound (header.now, items.now))) state.new) }
    ensures stopped { OnErr result (W.Stopped state.new) }
{
    W::two::<P, Q>(state, header, items)
}

/// A request.
#[derive(Drop)]
#[derive_where(PartialEq)]
pub struct Request<A: Allocator = Global> {
    /// Major versions are not compatible.
    pub major: i32,
    /// Minor ones are.
    pub minor: i32,
    /// How many items follow.
    pub batch_count: i32,
    /// One or more.
    pub items: Vec<RequestItem<A>, A>,
}

impl<A: Allocator> Request<A> {
    // Its fields that are a header.
    fn header(&self) -> RequestHeader
        ensures { result ≡ request_header self.now }
    {
        RequestHeader {
            version: ProtocolVersion {
                major: self.major,
                minor: self.minor,
            },
            batch_count: self.batch_count,
        }
    }
}

type RequestParts<A> = (
    One<Of<RequestHeader, 0x420077>>,
    Several<Of<RequestItem<A>, 0x42000F>, 0x42000F>,
);

impl<A: Allocator + Copy> FromParts<A, RequestParts<A>> for Request<A> {
    ghost parts = { λ x. (request_header x, x.items) };

    fn from_parts((header, items): Holds<RequestParts<A>, A>) -> Self {
        Request {
            major: header.version.major,
            minor: header.version.minor,
            batch_count: header.batch_count,
            items,
        }
    }
}

impl<A: Allocator + Copy> Request<A> {
    // Tells a walk of its own.
    fn tell_own<W: Walk<A>>(&self, state: &mut W::State) -> Result<(), AllocError>
        ensures told { OnOk result (W.steps.Takes state.old (told_parts (within ⟦<RequestParts<A> as PartList<A>>⟧.rules.written (request_header self.now, self.now.items)) (IsWithinSound ⟦<RequestParts<A> as PartList<A>>⟧.rules.IsSound (request_header self.now, self.now.items))) state.new) }
        ensures stopped { OnErr result (W.Stopped state.new) }
    {
        tell_two::<
            One<Of<RequestHeader, 0x420077>>,
            Several<Of<RequestItem<A>, 0x42000F>, 0x42000F>,
            W,
            A,
        >(&self.header(), &self.items, state)
    }
}

impl<A: Allocator + Copy> Structure<A> for Request<A> {
    ghost rules = { structure false ⟦<RequestParts<A> as PartList<A>>⟧.rules ⟦<Request<A> as FromParts<A, RequestParts<A>>>⟧.parts refl ⟦<Request<A> as PartialEq>⟧.eq
        (λ x y. of_request (⟦<i32 as PartialEq>⟧.eq x.major y.major) (⟦<i32 as PartialEq>⟧.eq x.minor y.minor) (⟦<i32 as PartialEq>⟧.eq x.batch_count y.batch_count) (⟦<Vec<RequestItem<A>, A> as PartialEq>⟧.eq x.items y.items)) };

    fn read<'b>(scope: &Scope<'b, A>, tag: u32, cursor: &mut Cursor<'b, A>) -> Step<Self, A> {
        read_structure::<RequestParts<A>, Self, A>(scope, tag, false, cursor)
    }

    #[tactic(auto, unfolding(kmip_ttlv_kinds::specs::Parts::within, kmip_ttlv_kinds::specs::Parts::IsWithinSound))]
    fn tell_parts<W: Walk<A>>(&self, state: &mut W::State) -> Result<(), AllocError> {
        self.tell_own::<W>(state)
    }
}

impl<A: Allocator + Copy> Serialize for Request<A> {
    ghost stated = { ⟦<Of<Request<A>, 0x420078> as Element<A>>⟧.rules.written };

    fn visit<V: Visitor>(&self, visitor: &mut V) -> Result<(), AllocError> {
        visit_structure(self, 0x420078, visitor)
    }
}

impl<A: Allocator + Copy> Decode<A> for Request<A> {
    ghost form = { ⟦<Of<Request<A>, 0x420078> as Element<A>>⟧.form };

    ghost is_value = { λ v x. v ≡ ⟦<Of<Request<A>, 0x420078> as Element<A>>⟧.value x };

    fn decode(alloc: A, bytes: &[u8]) -> Result<Self, Error<A>> {
        decode_structure::<RequestParts<A>, Self, A>(alloc, 0x420078, false, bytes)
    }
}

impl<A: Allocator + Copy> Sound for Request<A> {
    ghost IsSound = { ⟦<Of<Request<A>, 0x420078> as Element<A>>⟧.rules.IsSound };

    fn is_sound(&self) -> bool {
        is_structure_whole(self)
    }
}

impl<A: Allocator + Copy> Message<A> for Request<A> {
    fn comes_back() {
        structures_come_back::<Request<A>, 0x420078, A>();
    }
}

/// The bytes of a sound `Request` begin with the value that it is read from and with no other, whatever stands behind them.
pub fn requests_come_back<A: Allocator + Copy>()
    ensures { AreReadBack ⟦<Of<Request<A>, 0x420078> as Element<A>>⟧.rules }
{
    structures_are_read_back::<Request<A>, 0x420078, A>();
}

/// A response.
#[derive(Drop)]
#[derive_where(PartialEq)]
pub struct Response<A: Allocator = Global> {
    /// Major versions are not compatible.
    pub major: i32,
    /// Minor ones are.
    pub minor: i32,
    /// When it was made, in seconds since 1970.
    pub timestamp: i64,
    /// How many items follow.
    pub batch_count: i32,
    /// One or more.
    pub items: Vec<ResponseItem<A>, A>,
}

impl<A: Allocator> Response<A> {
    // Its fields that are a header.
    fn header(&self) -> ResponseHeader
        ensures { result ≡ response_header self.now }
    {
        ResponseHeader {
            version: ProtocolVersion {
                major: self.major,
                minor: self.minor,
            },
            time_stamp: DateTime(self.timestamp),
            batch_count: self.batch_count,
        }
    }
}

type ResponseParts<A> = (
    One<Of<ResponseHeader, 0x42007A>>,
    Several<Of<ResponseItem<A>, 0x42000F>, 0x42000F>,
);

impl<A: Allocator + Copy> FromParts<A, ResponseParts<A>> for Response<A> {
    ghost parts = { λ x. (response_header x, x.items) };

    fn from_parts((header, items): Holds<ResponseParts<A>, A>) -> Self {
        Response {
            major: header.version.major,
            minor: header.version.minor,
            timestamp: header.time_stamp.0,
            batch_count: header.batch_count,
            items,
        }
    }
}

impl<A: Allocator + Copy> Response<A> {
    // Tells a walk of its own.
    fn tell_own<W: Walk<A>>(&self, state: &mut W::State) -> Result<(), AllocError>
        ensures told { OnOk result (W.steps.Takes state.old (told_parts (within ⟦<ResponseParts<A> as PartList<A>>⟧.rules.written (response_header self.now, self.now.items)) (IsWithinSound ⟦<ResponseParts<A> as PartList<A>>⟧.rules.IsSound (response_header self.now, self.now.items))) state.new) }
        ensures stopped { OnErr result (W.Stopped state.new) }
    {
        tell_two::<
            One<Of<ResponseHeader, 0x42007A>>,
            Several<Of<ResponseItem<A>, 0x42000F>, 0x42000F>,
            W,
            A,
        >(&self.header(), &self.items, state)
    }
}

impl<A: Allocator + Copy> Structure<A> for Response<A> {
    ghost rules = { structure false ⟦<ResponseParts<A> as PartList<A>>⟧.rules ⟦<Response<A> as FromParts<A, ResponseParts<A>>>⟧.parts refl ⟦<Response<A> as PartialEq>⟧.eq
        (λ x y. of_response (⟦<i32 as PartialEq>⟧.eq x.major y.major) (⟦<i32 as PartialEq>⟧.eq x.minor y.minor) (⟦<i64 as PartialEq>⟧.eq x.timestamp y.timestamp) (⟦<i32 as PartialEq>⟧.eq x.batch_count y.batch_count) (⟦<Vec<ResponseItem<A>, A> as PartialEq>⟧.eq x.items y.items)) };

    fn read<'b>(scope: &Scope<'b, A>, tag: u32, cursor: &mut Cursor<'b, A>) -> Step<Self, A> {
        read_structure::<ResponseParts<A>, Self, A>(scope, tag, false, cursor)
    }

    #[tactic(auto, unfolding(kmip_ttlv_kinds::specs::Parts::within, kmip_ttlv_kinds::specs::Parts::IsWithinSound))]
    fn tell_parts<W: Walk<A>>(&self, state: &mut W::State) -> Result<(), AllocError> {
        self.tell_own::<W>(state)
    }
}

impl<A: Allocator + Copy> Serialize for Response<A> {
    ghost stated = { ⟦<Of<Response<A>, 0x42007B> as Element<A>>⟧.rules.written };

    fn visit<V: Visitor>(&self, visitor: &mut V) -> Result<(), AllocError> {
        visit_structure(self, 0x42007B, visitor)
    }
}

impl<A: Allocator + Copy> Decode<A> for Response<A> {
    ghost form = { ⟦<Of<Response<A>, 0x42007B> as Element<A>>⟧.form };

    ghost is_value = { λ v x. v ≡ ⟦<Of<Response<A>, 0x42007B> as Element<A>>⟧.value x };

    fn decode(alloc: A, bytes: &[u8]) -> Result<Self, Error<A>> {
        decode_structure::<ResponseParts<A>, Self, A>(alloc, 0x42007B, false, bytes)
    }
}

impl<A: Allocator + Copy> Sound for Response<A> {
    ghost IsSound = { ⟦<Of<Response<A>, 0x42007B> as Element<A>>⟧.rules.IsSound };

    fn is_sound(&self) -> bool {
        is_structure_whole(self)
    }
}

impl<A: Allocator + Copy> Message<A> for Response<A> {
    fn comes_back() {
        structures_come_back::<Response<A>, 0x42007B, A>();
    }
}

/// The bytes of a sound `Response` begin with the value that it is read from and with no other, whatever stands behind them.
pub fn responses_come_back<A: Allocator + Copy>()
    ensures { AreReadBack ⟦<Of<Response<A>, 0x42007B> as Element<A>>⟧.rules }
{
    structures_are_read_back::<Response<A>, 0x42007B, A>();
}
