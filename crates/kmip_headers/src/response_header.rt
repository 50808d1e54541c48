//! The header of a response in few words.

ghost use Rattle.std.specs.Prelude.{◌≡◌, [], None};

use crate::header::{ProtocolVersion, ResponseHeader};
use kmip_ttlv_reader::reader::DateTime;
use std::alloc::Allocator;

impl<A: Allocator> ResponseHeader<A> {
    /// The header of a response of this version with so many items, made at this time, without any field that may be absent (KMIP
    /// 1.0, section 7.2). It takes no memory.
    pub fn new(
        alloc: A,
        version: ProtocolVersion,
        time_stamp: DateTime,
        items: i32,
    ) -> ResponseHeader<A>
        ensures version { result.version ≡ version }
        ensures time { result.time_stamp ≡ time_stamp }
        ensures items { result.batch_count ≡ items }
        ensures nonce { result.nonce ≡ None }
        ensures password { result.server_hashed_password ≡ None }
        ensures attestation { result.attestation_types.items ≡ [] }
        ensures client { result.client_correlation_value ≡ None }
        ensures server { result.server_correlation_value ≡ None }
    {
        ResponseHeader {
            version,
            time_stamp,
            nonce: None,
            server_hashed_password: None,
            attestation_types: Vec::new(alloc),
            client_correlation_value: None,
            server_correlation_value: None,
            batch_count: items,
        }
    }
}
