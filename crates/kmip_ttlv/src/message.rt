//! Messages that come back: what is encoded is decoded as an equal message.

ghost use Rattle.std.specs.Prelude.{◌≡◌, true, IfOk, IfErr};
ghost use Rattle.kmip_ttlv_base.specs.Errors.{view_of_kind, kind_of};
ghost use Rattle.kmip_ttlv_parts.specs.Rereads.{FailsBySize, GivesBack};

use kmip_ttlv_base::error::Error;
use kmip_ttlv_base::shape::Serialize;
use kmip_ttlv_de::{Decode, from_slice};
use kmip_ttlv_parts::laws::Sound;
use kmip_ttlv_ser::to_vec;
use std::alloc::Allocator;

/// A type of messages of which the sound ones come back: what is encoded is decoded as an equal message.
pub trait Message<A: Allocator + Copy>: Serialize + Decode<A> + PartialEq + Sound {
    ghost use Rattle.kmip_ttlv_parts.specs.Rereads.{Rereads};

    /// A sound message comes back: the law of the type.
    fn comes_back()
        ensures { Rereads Self.stated Self.form Self.is_value Self.eq Self.IsSound };
}

/// Encodes a message and decodes it again. A sound message comes back as one that is equal to it.
///
/// The only errors of a sound message are `OutOfMemory`, and `LengthOverflow` if its items don't fit a length: one is above
/// 2^32 - 1, or they have more than 2^64 - 1 bytes. Of any other message it returns the error of `to_vec`, or what
/// `from_slice` returns of its bytes.
///
/// ```
/// let ping = Ping { count: 1, maximum_size: 4096 }; // the type of docs/LIBRARY.md
/// assert!(rt; reread(alloc, &ping)? == ping);
/// ```
pub fn reread<T: Message<A>, A: Allocator + Copy>(alloc: A, message: &T) -> Result<T, Error<A>>
    ensures equal { T.IsSound message.now → IfOk result (λ other. T.eq message.now other ≡ true) }
    ensures why { T.IsSound message.now → IfErr result (λ e. FailsBySize (T.stated message.now) (view_of_kind (kind_of e))) }
    ensures any { GivesBack T.form T.is_value (T.stated message.now) result }
{
    T::comes_back();
    let bytes = to_vec(alloc, message)?;
    from_slice(alloc, bytes.as_slice())
}
