//! The header of a request in few words.

ghost use Rattle.std.specs.Prelude.{◌≡◌, [], None};

use crate::header::{ProtocolVersion, RequestHeader};
use std::alloc::Allocator;

impl<A: Allocator> RequestHeader<A> {
    /// The header of a request of this version with so many items, without any field that may be absent (KMIP 1.0, section 7.2).
    /// It takes no memory.
    pub fn new(alloc: A, version: ProtocolVersion, items: i32) -> RequestHeader<A>
        ensures version { result.version ≡ version }
        ensures items { result.batch_count ≡ items }
        ensures size { result.maximum_response_size ≡ None }
        ensures client { result.client_correlation_value ≡ None }
        ensures server { result.server_correlation_value ≡ None }
        ensures asynchronous { result.asynchronous_indicator ≡ None }
        ensures capable { result.attestation_capable_indicator ≡ None }
        ensures attestation { result.attestation_types.items ≡ [] }
        ensures authentication { result.authentication ≡ None }
        ensures errors { result.batch_error_continuation_option ≡ None }
        ensures order { result.batch_order_option ≡ None }
        ensures time { result.time_stamp ≡ None }
    {
        RequestHeader {
            version,
            maximum_response_size: None,
            client_correlation_value: None,
            server_correlation_value: None,
            asynchronous_indicator: None,
            attestation_capable_indicator: None,
            attestation_types: Vec::new(alloc),
            authentication: None,
            batch_error_continuation_option: None,
            batch_order_option: None,
            time_stamp: None,
            batch_count: items,
        }
    }
}
