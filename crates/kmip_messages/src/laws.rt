//! What was written is read back: the laws of every structure, at KMIP's messages.

ghost use Rattle.kmip_ttlv_kinds.specs.Laws.{AreEqualByValue, AreReadBack};

use crate::request::Request;
use crate::response::Response;
use kmip_ttlv_kinds::{Element, Of, equal_structures, structures_are_read_back};
use std::alloc::Allocator;

/// The bytes of a sound `Request` begin with the value that it is read from and with no other, whatever stands behind them.
pub fn requests_come_back<A: Allocator + Copy>()
    ensures { AreReadBack ⟦<Of<Request<A>, 0x420078> as Element<A>>⟧.rules }
{
    structures_are_read_back::<Request<A>, 0x420078, A>();
}

/// The same of a `Response`.
pub fn responses_come_back<A: Allocator + Copy>()
    ensures { AreReadBack ⟦<Of<Response<A>, 0x42007B> as Element<A>>⟧.rules }
{
    structures_are_read_back::<Response<A>, 0x42007B, A>();
}

/// Messages that stand for the same are equal: no type loses a part of what it is decoded from. (`kmip_ttlv_kinds::equal_choices` says it
/// of each choice, as a payload or an attribute's value, by itself.)
pub fn equal_values<A: Allocator + Copy>()
    ensures request { AreEqualByValue ⟦<Of<Request<A>, 0x420078> as Element<A>>⟧.rules }
    ensures response { AreEqualByValue ⟦<Of<Response<A>, 0x42007B> as Element<A>>⟧.rules }
{
    equal_structures::<Request<A>, 0x420078, A>();
    equal_structures::<Response<A>, 0x42007B, A>();
}
