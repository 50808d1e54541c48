//! Which version client and server speak (KMIP 1.1, section 4.26).

ghost use Rattle.std.specs.Prelude.{◌≡◌, ◌↔◌, IfOk, IsTrue, MatchOption, OnErr};
ghost use Rattle.kmip_client.specs.Calling.{Calls};
ghost use Rattle.kmip_client.specs.Negotiation.{Chooses, FirstCommon, Has, IsOfFirst, Negotiated, NoneCommon};
ghost use Rattle.kmip_client.specs.Payloads.{IsDiscover};

use crate::answers::is_same_version;
use crate::client::Client;
use crate::exchange::Exchange;
use crate::failure::{Failure, Refusal};
use kmip_messages::header::ProtocolVersion;
use kmip_messages::request_payload::RequestPayload;
use kmip_messages::response::result_reason;
use kmip_messages::response_payload::{DiscoverVersionsResponse, ResponsePayload};
use std::alloc::Allocator;

/// The first version of the protocol.
pub const FIRST: ProtocolVersion = ProtocolVersion { major: 1, minor: 0 };

// Whether a version is among these.
fn is_among(version: ProtocolVersion, versions: &[ProtocolVersion]) -> bool
    ensures { IsTrue result ↔ Has version versions.now }
{
    let mut left = versions;
    while let Some((first, rest)) = left.split_first() {
        if is_same_version(*first, version) {
            return true;
        }
        left = rest;
    }
    false
}

/// The first of the client's versions that the server has, if there is one.
pub fn first_common(own: &[ProtocolVersion], theirs: &[ProtocolVersion]) -> Option<ProtocolVersion>
    ensures { MatchOption result (NoneCommon own.now theirs.now) (λ version. FirstCommon own.now theirs.now version) }
{
    let mut left = own;
    while let Some((first, rest)) = left.split_first() {
        if is_among(*first, theirs) {
            return Some(*first);
        }
        left = rest;
    }
    None
}

// Whether a server refused like one that has only the first version: for want of the operation, or since it can't read the request.
fn is_of_first<A: Allocator>(failure: &Failure<A>) -> bool
    ensures { IsTrue result ↔ IsOfFirst failure.now }
{
    match failure {
        Failure::Refused(
            Refusal {
                reason: Some(reason),
                ..
            },
        ) => {
            *reason == result_reason::INVALID_MESSAGE
                || *reason == result_reason::OPERATION_NOT_SUPPORTED
        }
        _ => false,
    }
}

// Which version is chosen by what Discover Versions gave.
fn chosen<A: Allocator>(
    own: &[ProtocolVersion],
    outcome: Result<DiscoverVersionsResponse<A>, Failure<A>>,
) -> Result<ProtocolVersion, Failure<A>>
    ensures { Chooses own.now outcome result }
{
    match outcome {
        Ok(found) => match first_common(own, found.versions.as_slice()) {
            Some(version) => Ok(version),
            None => Err(Failure::NoCommonVersion),
        },
        Err(failure) => {
            if is_of_first(&failure) && is_among(FIRST, own) {
                Ok(FIRST)
            } else {
                Err(failure)
            }
        }
    }
}

impl<C: Exchange<A>, A: Allocator + Copy> Client<C, A> {
    /// Asks which of these versions the server has, and speaks the first of them that it has from then on, which is returned (KMIP 1.1,
    /// section 4.26). List the best first.
    ///
    /// The operation came with version 1.1. A server that doesn't have it, or that can't read the request, with the reasons Operation Not
    /// Supported or Invalid Message, is taken for one of 1.0, if that is among these versions. The request is of the client's version so
    /// far: let that be the lowest from 1.1 on that the client speaks, as servers mostly have the versions below their best. After a
    /// failure the version is what it was.
    ///
    /// It has the failures of `discover_versions`, and `NoCommonVersion` if the server lists none of these versions.
    pub fn negotiate(&mut self, versions: &[ProtocolVersion]) -> Result<ProtocolVersion, Failure<A>>
        ensures negotiates { Negotiated (Calls (C.Exchanges self.old.connection self.new.connection) (self.new.connection ≡ self.old.connection)
            self.old.version 30 RequestPayload.DiscoverVersions (IsDiscover versions.now) ResponsePayload.DiscoverVersions) versions.now result }
        ensures speaks { IfOk result (λ version. self.new.version ≡ version) }
        ensures err { OnErr result (self.new.version ≡ self.old.version) }
    {
        let outcome = self.discover_versions(versions);
        match chosen(versions, outcome) {
            Ok(version) => {
                self.version = version;
                Ok(version)
            }
            Err(failure) => Err(failure),
        }
    }
}
