//! A server of KMIP that keeps symmetric keys in memory: an example to copy. It speaks on standard input and output, with its log on
//! standard error. A number as its argument is the time, for tests.
#![tactic(auto)]

ghost use Rattle.key_server.specs.declared.TheConstants.{OBJECT_TYPES, OPERATIONS};
ghost use Rattle.kmip_operations.specs.declared.TheConstants.{VERSIONS};
ghost use Rattle.std.specs.Prelude.{codes};

use kmip_messages::header::{Operation, RequestHeader, operation};
use kmip_messages::request_payload::{CreateRequest, RequestPayload};
use kmip_messages::response::result_reason;
use kmip_messages::response_payload::ResponsePayload;
use kmip_messages::values::{ObjectType, cryptographic_algorithm, object_type};
use kmip_operations::VERSIONS;
use kmip_operations::objects::Objects;
use kmip_operations::system::{random_bytes, seconds, serve_streams};
use kmip_server::abilities::Abilities;
use kmip_server::handler::Handler;
use kmip_server::refusal::Refusal;
use kmip_ttlv::memory::{BoundedAllocator, Wiping};
use kmip_ttlv::reader::DateTime;
use std::alloc::Allocator;
use std::env;
use std::process::ExitCode;

// An item of any other operation is refused without asking the handler. The last two are answered from what it declares.
const OPERATIONS: [Operation; 9] = [
    operation::CREATE,
    operation::GET,
    operation::GET_ATTRIBUTES,
    operation::LOCATE,
    operation::ACTIVATE,
    operation::REVOKE,
    operation::DESTROY,
    operation::QUERY,
    operation::DISCOVER_VERSIONS,
];

const OBJECT_TYPES: [ObjectType; 1] = [object_type::SYMMETRIC_KEY];

#[derive(Drop)]
struct Server<K: Allocator> {
    rt: HostRuntime,
    time: Option<i64>,
    objects: Objects<K>,
}

impl<K: Allocator + Copy> Server<K> {
    // Makes a key for AES of random bytes. Where memory runs out, `?` makes it a General Failure.
    fn create<A: Allocator + Copy>(
        &mut self,
        alloc: A,
        asked: &CreateRequest<A>,
        now: i64,
    ) -> Result<ResponsePayload<A>, Refusal> {
        let about = self.objects.wanted(alloc, asked)?;
        let size = match (about.algorithm, about.length) {
            (Some(cryptographic_algorithm::AES), Some(128)) => 16,
            (Some(cryptographic_algorithm::AES), Some(192)) => 24,
            (Some(cryptographic_algorithm::AES), Some(256)) => 32,
            _ => return Err(Refusal::new(result_reason::INVALID_FIELD, "no key of AES")),
        };
        let key = random_bytes(self.objects.alloc, &self.rt, size)?;
        self.objects.create(alloc, about, key, now)
    }
}

impl<K: Allocator + Copy, A: Allocator + Copy> Handler<A> for Server<K> {
    ghost declaration = { λ _. record { versions = VERSIONS; operations = OPERATIONS; object_types = OBJECT_TYPES; vendor = codes "Example" } };

    fn abilities(&self) -> Abilities {
        Abilities {
            versions: &VERSIONS,
            operations: &OPERATIONS,
            object_types: &OBJECT_TYPES,
            vendor: "Example",
        }
    }

    fn now(&self) -> DateTime {
        DateTime(seconds(&self.rt, self.time))
    }

    // It has no users, so it takes nobody's credentials. The ID Placeholder is of one request.
    fn admits(&mut self, header: &RequestHeader<A>) -> bool {
        self.objects.begin(header);
        header.authentication.is_none()
    }

    fn handle(
        &mut self,
        alloc: A,
        _operation: Operation,
        asked: &RequestPayload<A>,
    ) -> Result<ResponsePayload<A>, Refusal> {
        let now = seconds(&self.rt, self.time);
        match asked {
            RequestPayload::Create(asked) => self.create(alloc, asked, now),
            RequestPayload::Get(asked) => self.objects.get(alloc, asked),
            RequestPayload::GetAttributes(asked) => self.objects.get_attributes(alloc, asked),
            RequestPayload::Locate(asked) => self.objects.locate(alloc, asked),
            RequestPayload::Activate(asked) => self.objects.activate(alloc, asked, now),
            RequestPayload::Revoke(asked) => self.objects.revoke(alloc, asked, now),
            RequestPayload::Destroy(asked) => self.objects.destroy(alloc, asked, now),
            _ => Err(Refusal::new(result_reason::ILLEGAL_OPERATION, "no such operation")),
        }
    }
}

fn main(rt: HostRuntime) -> ExitCode {
    let argument = env::args(&rt).ok().and_then(|mut words| words.nth(1));
    let time = argument.and_then(|word| word.parse::<i64>().ok());
    // all keys have a budget, and each message with its response: memory is overwritten when it is given back
    let keys = BoundedAllocator::new(Wiping::new(rt.alloc()), 16_777_216);
    let messages = BoundedAllocator::new(Wiping::new(rt.alloc()), 1_048_576);
    let objects = Objects::new(&keys);
    let end = serve_streams(rt, &messages, &mut Server { rt, time, objects });
    ExitCode::from(if end.is_ok() { 0 } else { 1 })
}
