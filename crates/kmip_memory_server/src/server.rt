//! What the server has, and what it does of one item.

ghost use Rattle.std.specs.Prelude.{codes};

use kmip_attribute_set::attributes::Attributes;
use kmip_attribute_set::tags::Tagged;
use kmip_messages::header::{Operation, RequestHeader, operation};
use kmip_messages::request_payload::RequestPayload;
use kmip_messages::response::result_reason;
use kmip_messages::response_payload::ResponsePayload;
use kmip_messages::values::{ObjectType, object_type};
use kmip_operations::VERSIONS;
use kmip_operations::objects::Objects;
use kmip_operations::system::seconds;
use kmip_server::abilities::Abilities;
use kmip_server::handler::Handler;
use kmip_server::refusal::Refusal;
use kmip_ttlv::reader::DateTime;
use std::alloc::Allocator;

const OPERATIONS: [Operation; 11] = [
    operation::CREATE,
    operation::REGISTER,
    operation::LOCATE,
    operation::GET,
    operation::GET_ATTRIBUTES,
    operation::GET_ATTRIBUTE_LIST,
    operation::ACTIVATE,
    operation::REVOKE,
    operation::DESTROY,
    operation::QUERY,
    operation::DISCOVER_VERSIONS,
];

const OBJECT_TYPES: [ObjectType; 5] = [
    object_type::CERTIFICATE,
    object_type::SYMMETRIC_KEY,
    object_type::PUBLIC_KEY,
    object_type::PRIVATE_KEY,
    object_type::SECRET_DATA,
];

/// A server of keys in memory.
#[derive(Drop)]
pub struct Server<K: Allocator> {
    /// Where random bytes come from.
    pub rt: HostRuntime,
    // The time, if it doesn't go by the clock.
    time: Option<i64>,
    /// The objects.
    pub objects: Objects<K>,
}

impl<K: Allocator + Copy> Server<K> {
    /// One without objects.
    pub fn new(rt: HostRuntime, alloc: K, time: Option<i64>) -> Server<K> {
        Server {
            rt,
            time,
            objects: Objects::new(alloc),
        }
    }

    /// The time in seconds since 1970; 0 if the clock fails.
    pub fn seconds(&self) -> i64 {
        seconds(&self.rt, self.time)
    }
}

impl<K: Allocator + Copy, A: Allocator + Copy> Handler<A> for Server<K> {
    ghost use Rattle.kmip_memory_server.specs.declared.server.TheConstants.{OBJECT_TYPES, OPERATIONS};
    ghost use Rattle.kmip_operations.specs.declared.TheConstants.{VERSIONS};
    ghost use Rattle.kmip_memory_server.specs.Effects.{Handles};
    ghost use Rattle.kmip_operations.specs.Effects.{Begins};

    ghost declaration = { λ _. record { versions = VERSIONS; operations = OPERATIONS; object_types = OBJECT_TYPES; vendor = codes "Sieveebony" } };

    ghost Admits = { λ old header _ new. Begins header old.objects new.objects };

    ghost Does = { λ old _ asked result new. Handles ⟦<Attributes<A> as Tagged<A>>⟧.IsTagged ⟦<Attributes<A> as Tagged<A>>⟧.IsOfTags old.objects asked result new.objects };

    fn abilities(&self) -> Abilities {
        Abilities {
            versions: &VERSIONS,
            operations: &OPERATIONS,
            object_types: &OBJECT_TYPES,
            vendor: "Sieveebony",
        }
    }

    fn now(&self) -> DateTime {
        DateTime(self.seconds())
    }

    // It can't check who its credentials say that a client is: that is for TLS.
    fn admits(&mut self, header: &RequestHeader<A>) -> bool {
        self.objects.begin(header);
        header.authentication.is_none()
    }

    fn handle(
        &mut self,
        alloc: A,
        _operation: Operation,
        asked: &RequestPayload<A>,
    ) -> Result<ResponsePayload<A>, Refusal> {
        let now = self.seconds();
        match asked {
            RequestPayload::Create(asked) => self.create(alloc, asked),
            RequestPayload::Register(asked) => self.register(alloc, asked),
            RequestPayload::Locate(asked) => self.objects.locate(alloc, asked),
            RequestPayload::Get(asked) => self.objects.get(alloc, asked),
            RequestPayload::GetAttributes(asked) => self.objects.get_attributes(alloc, asked),
            RequestPayload::GetAttributeList(asked) => {
                self.objects.get_attribute_list(alloc, asked)
            }
            RequestPayload::Activate(asked) => self.objects.activate(alloc, asked, now),
            RequestPayload::Revoke(asked) => self.objects.revoke(alloc, asked, now),
            RequestPayload::Destroy(asked) => self.objects.destroy(alloc, asked, now),
            _ => Err(Refusal::new(
                result_reason::OPERATION_NOT_SUPPORTED,
                "the server does not have this operation",
            )),
        }
    }
}
