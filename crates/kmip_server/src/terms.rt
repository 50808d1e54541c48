//! What the header of a request says of its batch, and why a request is refused as a whole.

ghost use Rattle.std.specs.Prelude.{◌≡◌, ◌↔◌, IsTrue, pos};
ghost use Rattle.kmip_server.specs.Messages.{HeaderIs, Terms, stops_by};

use crate::codec::Codec;
use crate::items::unreadable;
use crate::refusal::Refusal;
use kmip_messages::envelope::EnvelopeHeader;
use kmip_messages::header::{
    BatchErrorContinuationOption, RequestHeader, batch_error_continuation_option,
};
use kmip_messages::response::result_reason;
use std::alloc::Allocator;

/// Whether a batch stops at the first item that fails: by Stop, and where there is no option (KMIP 1.0, section 6.13). It goes on by
/// Continue. `None` for Undo, which this server can't do, and for a number that is no option.
pub fn stops(option: Option<BatchErrorContinuationOption>) -> Option<bool>
    ensures { result ≡ stops_by option }
{
    match option {
        None => Some(true),
        Some(option) => {
            if option == batch_error_continuation_option::STOP {
                Some(true)
            } else if option == batch_error_continuation_option::CONTINUE {
                Some(false)
            } else {
                None
            }
        }
    }
}

// Whether a Batch Count is the number of items.
fn is_count(count: i32, items: usize) -> bool
    ensures { IsTrue result ↔ (count ≡ pos items) }
{
    match usize::try_from(count) {
        Ok(count) => count == items,
        Err(_) => false,
    }
}

/// The header of a request, or why it can't be decoded.
pub fn read_header<D: Codec<A>, A: Allocator + Copy>(
    alloc: A,
    header: EnvelopeHeader<A>,
) -> Result<RequestHeader<A>, Refusal>
    ensures { HeaderIs (D.ReadsHeader header) result }
{
    let mut header = header;
    match D::read_header(alloc, &mut header) {
        Ok(header) => Ok(header),
        Err(error) => Err(unreadable(&error)),
    }
}

/// Whether a batch of so many items stops at the first that fails, or why the request is refused.
pub fn terms<A: Allocator>(header: &RequestHeader<A>, items: usize) -> Result<bool, Refusal>
    ensures { Terms header.now items result }
{
    if !is_count(header.batch_count, items) {
        return Err(Refusal::new(
            result_reason::INVALID_MESSAGE,
            "the Batch Count is not the number of items",
        ));
    }
    match stops(header.batch_error_continuation_option) {
        Some(stops) => Ok(stops),
        None => Err(Refusal::new(
            result_reason::FEATURE_NOT_SUPPORTED,
            "the server does not have this Batch Error Continuation Option",
        )),
    }
}
