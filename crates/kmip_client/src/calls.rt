//! One call for each operation that most clients use, for the versions 1.0 to 2.0 of the protocol.
//!
//! Each asks for one thing in a request of its own, and returns the payload of its operation, or of `get_attributes` what is in it. Its
//! failures are those of `Client::ask`. Attributes go as the client's version has them: by their names, or from 2.0 on by their tags.
//! One whose name has no tag then (`kmip_attribute_set::names::attribute_tag`) is a failure, `Sending` with `InvalidTag`.

ghost use Rattle.std.specs.Prelude.{◌≡◌, map};
ghost use Rattle.kmip_client.specs.Calling.{Calls, CallsUnless};
ghost use Rattle.kmip_client.specs.Payloads.{AreTaken, CantKeep, CantLocate, CantRefer, CantTag, GetsAttributes, IsCreate, IsDiscover, IsGet};
ghost use Rattle.kmip_client.specs.Payloads.{IsGetAttributes, IsLocate, IsLocateBy, IsObject, IsQuery, IsRegisterBoxed, IsRevoke};

use crate::client::Client;
use crate::exchange::Exchange;
use crate::failure::Failure;
use crate::payloads;
use kmip_attribute_set::attributes::Attributes;
use kmip_attribute_set::tags::Tagged;
use kmip_messages::header::{ProtocolVersion, operation};
use kmip_messages::key::KeyBlock;
use kmip_messages::request_payload::{QueryFunction, RequestPayload};
use kmip_messages::response_payload::{
    CreateResponse, DiscoverVersionsResponse, GetAttributesResponse, GetResponse, LocateResponse,
    ObjectResponse, QueryResponse, RegisterResponse, ResponsePayload,
};
use kmip_messages::values::RevocationReasonCode;
use kmip_ttlv_base::error::Error;
use kmip_ttlv_parts::{Boxed, Kept};
use std::alloc::Allocator;

// These attributes, and behind them those of these items.
fn with_tagged<A: Allocator + Copy>(
    alloc: A,
    attributes: Attributes<A>,
    items: &Kept<A>,
) -> Result<Attributes<A>, Failure<A>>
    ensures { AreTaken ⟦<Attributes<A> as Tagged<A>>⟧.IsOfTags attributes.list.items (Some items.now) result }
{
    let mut list = attributes.list;
    let mut tagged = match Attributes::from_tags(alloc, items) {
        Ok(tagged) => tagged.list,
        Err(error) => return Err(Failure::BadAttributes(error)),
    };
    match list.append(&mut tagged) {
        Ok(()) => Ok(Attributes { list }),
        Err(error) => Err(Failure::BadAttributes(Error::from(error))),
    }
}

// The attributes of a response, whether it has them by names or by tags.
fn taken<A: Allocator + Copy>(
    alloc: A,
    response: GetAttributesResponse<A>,
) -> Result<Attributes<A>, Failure<A>>
    ensures { AreTaken ⟦<Attributes<A> as Tagged<A>>⟧.IsOfTags response.attributes.items response.attributes_by_tag result }
{
    let GetAttributesResponse {
        attributes: list,
        attributes_by_tag,
        unique_identifier: _,
    } = response;
    let attributes = Attributes { list };
    match attributes_by_tag {
        Some(items) => with_tagged(alloc, attributes, &items),
        None => Ok(attributes),
    }
}

impl<C: Exchange<A>, A: Allocator + Copy> Client<C, A> {
    /// Has a symmetric key made with these attributes, as those of `kmip_attribute_set::building::of_key` (KMIP 1.0, section 4.1).
    pub fn create(&mut self, attributes: Attributes<A>) -> Result<CreateResponse<A>, Failure<A>>
        ensures calls { CallsUnless (C.Exchanges self.old.connection self.new.connection) (self.new.connection ≡ self.old.connection) self.old.version 1
            RequestPayload.Create (IsCreate ⟦<Attributes<A> as Tagged<A>>⟧.IsTagged self.old.version attributes)
            (CantTag ⟦<Attributes<A> as Tagged<A>>⟧.IsTagged self.old.version attributes) ResponsePayload.Create result }
        ensures version { self.new.version ≡ self.old.version }
    {
        match payloads::create(self.alloc, self.version, attributes) {
            Ok(asked) => match self.ask(operation::CREATE, RequestPayload::Create(asked)) {
                Ok(payload) => match payload {
                    ResponsePayload::Create(done) => Ok(done),
                    other => Err(Failure::OtherPayload(Some(other))),
                },
                Err(failure) => Err(failure),
            },
            Err(error) => Err(Failure::Sending(error)),
        }
    }

    /// Has a symmetric key kept, which `keys::raw_key` makes, with these attributes (KMIP 1.0, section 4.3).
    pub fn register(
        &mut self,
        key: KeyBlock<A>,
        attributes: Attributes<A>,
    ) -> Result<RegisterResponse<A>, Failure<A>>
        ensures calls { CallsUnless (C.Exchanges self.old.connection self.new.connection) (self.new.connection ≡ self.old.connection) self.old.version 3
            RequestPayload.Register (IsRegisterBoxed ⟦<Attributes<A> as Tagged<A>>⟧.IsTagged self.old.version key attributes)
            (CantKeep ⟦<Attributes<A> as Tagged<A>>⟧.IsTagged self.old.version attributes) ResponsePayload.Register result }
        ensures version { self.new.version ≡ self.old.version }
    {
        match payloads::register(self.alloc, self.version, key, attributes) {
            Ok(asked) => match self.ask(operation::REGISTER, RequestPayload::Register(asked)) {
                Ok(payload) => match payload {
                    ResponsePayload::Register(done) => Ok(done),
                    other => Err(Failure::OtherPayload(Some(other))),
                },
                Err(failure) => Err(failure),
            },
            Err(error) => Err(Failure::Sending(error)),
        }
    }

    /// Finds the objects that have all these attributes, or every object if there are none (KMIP 1.0, section 4.8).
    pub fn locate_by(&mut self, attributes: Attributes<A>) -> Result<LocateResponse<A>, Failure<A>>
        ensures calls { CallsUnless (C.Exchanges self.old.connection self.new.connection) (self.new.connection ≡ self.old.connection) self.old.version 8
            RequestPayload.Locate (IsLocateBy ⟦<Attributes<A> as Tagged<A>>⟧.IsTagged self.old.version attributes)
            (CantTag ⟦<Attributes<A> as Tagged<A>>⟧.IsTagged self.old.version attributes) ResponsePayload.Locate result }
        ensures version { self.new.version ≡ self.old.version }
    {
        match payloads::locate_by(self.alloc, self.version, attributes) {
            Ok(asked) => match self.ask(operation::LOCATE, RequestPayload::Locate(asked)) {
                Ok(payload) => match payload {
                    ResponsePayload::Locate(done) => Ok(done),
                    other => Err(Failure::OtherPayload(Some(other))),
                },
                Err(failure) => Err(failure),
            },
            Err(error) => Err(Failure::Sending(error)),
        }
    }

    /// Finds the objects of this name.
    pub fn locate(&mut self, name: &str) -> Result<LocateResponse<A>, Failure<A>>
        ensures calls { CallsUnless (C.Exchanges self.old.connection self.new.connection) (self.new.connection ≡ self.old.connection) self.old.version 8
            RequestPayload.Locate (IsLocate ⟦<Attributes<A> as Tagged<A>>⟧.IsTagged self.old.version name.now)
            (CantLocate ⟦<Attributes<A> as Tagged<A>>⟧.IsTagged self.old.version name.now) ResponsePayload.Locate result }
        ensures version { self.new.version ≡ self.old.version }
    {
        let attributes = Attributes::new(self.alloc).with_name(name)?;
        self.locate_by(attributes)
    }

    /// Gets the object of this identifier as it is (KMIP 1.0, section 4.10).
    pub fn get(&mut self, identifier: &str) -> Result<Boxed<GetResponse<A>, A>, Failure<A>>
        ensures calls { Calls (C.Exchanges self.old.connection self.new.connection) (self.new.connection ≡ self.old.connection) self.old.version 10
            RequestPayload.Get (IsGet identifier.now) ResponsePayload.Get result }
        ensures version { self.new.version ≡ self.old.version }
    {
        let asked = payloads::get(self.alloc, identifier)?;
        match self.ask(operation::GET, RequestPayload::Get(asked)) {
            Ok(ResponsePayload::Get(done)) => Ok(done),
            Ok(other) => Err(Failure::OtherPayload(Some(other))),
            Err(failure) => Err(failure),
        }
    }

    // What Get Attributes gives, in the client's version.
    fn ask_attributes(
        &mut self,
        identifier: &str,
        names: &[&str],
    ) -> Result<GetAttributesResponse<A>, Failure<A>>
        ensures calls { CallsUnless (C.Exchanges self.old.connection self.new.connection) (self.new.connection ≡ self.old.connection) self.old.version 11
            RequestPayload.GetAttributes (IsGetAttributes ⟦<Attributes<A> as Tagged<A>>⟧.IsTagged self.old.version identifier.now (map (λ t. t.now) names.now))
            (CantRefer self.old.version) ResponsePayload.GetAttributes result }
        ensures version { self.new.version ≡ self.old.version }
    {
        match payloads::get_attributes(self.alloc, self.version, identifier, names) {
            Ok(asked) => match self.ask(
                operation::GET_ATTRIBUTES,
                RequestPayload::GetAttributes(asked),
            ) {
                Ok(payload) => match payload {
                    ResponsePayload::GetAttributes(done) => Ok(done),
                    other => Err(Failure::OtherPayload(Some(other))),
                },
                Err(failure) => Err(failure),
            },
            Err(error) => Err(Failure::Sending(error)),
        }
    }

    /// Gets attributes of the object of this identifier: those of these names, or all if there are none (KMIP 1.0, section 4.11). They are
    /// the same whether the server has them by names or by tags. It fails with `BadAttributes`, too, if those by tags aren't what their
    /// tags say, or memory runs out over them.
    pub fn get_attributes(
        &mut self,
        identifier: &str,
        names: &[&str],
    ) -> Result<Attributes<A>, Failure<A>>
        ensures gets { GetsAttributes ⟦<Attributes<A> as Tagged<A>>⟧.IsOfTags
            (CallsUnless (C.Exchanges self.old.connection self.new.connection) (self.new.connection ≡ self.old.connection) self.old.version 11
            RequestPayload.GetAttributes (IsGetAttributes ⟦<Attributes<A> as Tagged<A>>⟧.IsTagged self.old.version identifier.now (map (λ t. t.now) names.now))
            (CantRefer self.old.version) ResponsePayload.GetAttributes) result }
        ensures version { self.new.version ≡ self.old.version }
    {
        match self.ask_attributes(identifier, names) {
            Ok(done) => taken(self.alloc, done),
            Err(failure) => Err(failure),
        }
    }

    /// Has the object of this identifier in use (KMIP 1.0, section 4.18).
    pub fn activate(&mut self, identifier: &str) -> Result<ObjectResponse<A>, Failure<A>>
        ensures calls { Calls (C.Exchanges self.old.connection self.new.connection) (self.new.connection ≡ self.old.connection) self.old.version 18
            RequestPayload.Activate (IsObject identifier.now) ResponsePayload.Activate result }
        ensures version { self.new.version ≡ self.old.version }
    {
        let asked = payloads::object(self.alloc, identifier)?;
        match self.ask(operation::ACTIVATE, RequestPayload::Activate(asked)) {
            Ok(ResponsePayload::Activate(done)) => Ok(done),
            Ok(other) => Err(Failure::OtherPayload(Some(other))),
            Err(failure) => Err(failure),
        }
    }

    /// Has the object of this identifier no longer in use, for this reason (KMIP 1.0, section 4.19).
    pub fn revoke(
        &mut self,
        identifier: &str,
        reason: RevocationReasonCode,
    ) -> Result<ObjectResponse<A>, Failure<A>>
        ensures calls { Calls (C.Exchanges self.old.connection self.new.connection) (self.new.connection ≡ self.old.connection) self.old.version 19
            RequestPayload.Revoke (IsRevoke identifier.now reason.number) ResponsePayload.Revoke result }
        ensures version { self.new.version ≡ self.old.version }
    {
        let asked = payloads::revoke(self.alloc, identifier, reason)?;
        match self.ask(operation::REVOKE, RequestPayload::Revoke(asked)) {
            Ok(ResponsePayload::Revoke(done)) => Ok(done),
            Ok(other) => Err(Failure::OtherPayload(Some(other))),
            Err(failure) => Err(failure),
        }
    }

    /// Has the object of this identifier destroyed (KMIP 1.0, section 4.20).
    pub fn destroy(&mut self, identifier: &str) -> Result<ObjectResponse<A>, Failure<A>>
        ensures calls { Calls (C.Exchanges self.old.connection self.new.connection) (self.new.connection ≡ self.old.connection) self.old.version 20
            RequestPayload.Destroy (IsObject identifier.now) ResponsePayload.Destroy result }
        ensures version { self.new.version ≡ self.old.version }
    {
        let asked = payloads::object(self.alloc, identifier)?;
        match self.ask(operation::DESTROY, RequestPayload::Destroy(asked)) {
            Ok(ResponsePayload::Destroy(done)) => Ok(done),
            Ok(other) => Err(Failure::OtherPayload(Some(other))),
            Err(failure) => Err(failure),
        }
    }

    /// Asks what the server can do (KMIP 1.0, section 4.24).
    pub fn query(
        &mut self,
        functions: &[QueryFunction],
    ) -> Result<Boxed<QueryResponse<A>, A>, Failure<A>>
        ensures calls { Calls (C.Exchanges self.old.connection self.new.connection) (self.new.connection ≡ self.old.connection) self.old.version 24
            RequestPayload.Query (IsQuery functions.now) ResponsePayload.Query result }
        ensures version { self.new.version ≡ self.old.version }
    {
        let asked = payloads::query(self.alloc, functions)?;
        match self.ask(operation::QUERY, RequestPayload::Query(asked)) {
            Ok(ResponsePayload::Query(done)) => Ok(done),
            Ok(other) => Err(Failure::OtherPayload(Some(other))),
            Err(failure) => Err(failure),
        }
    }

    /// Asks which of these versions the server has, or which it has at all if there are none (KMIP 1.1, section 4.26).
    pub fn discover_versions(
        &mut self,
        versions: &[ProtocolVersion],
    ) -> Result<DiscoverVersionsResponse<A>, Failure<A>>
        ensures calls { Calls (C.Exchanges self.old.connection self.new.connection) (self.new.connection ≡ self.old.connection) self.old.version 30
            RequestPayload.DiscoverVersions (IsDiscover versions.now) ResponsePayload.DiscoverVersions result }
        ensures version { self.new.version ≡ self.old.version }
    {
        let asked = payloads::discover(self.alloc, versions)?;
        match self.ask(
            operation::DISCOVER_VERSIONS,
            RequestPayload::DiscoverVersions(asked),
        ) {
            Ok(ResponsePayload::DiscoverVersions(done)) => Ok(done),
            Ok(other) => Err(Failure::OtherPayload(Some(other))),
            Err(failure) => Err(failure),
        }
    }
}
