//! Asks a server for what a command is about.

ghost use Rattle.std.specs.Prelude.{◌≡◌, ◌≤◌, ◌*◌, [], ◌∷◌, IfOk, Some, length, map, pos};
ghost use Rattle.kmip_attribute_set.specs.Attributes.{AreOfKey};
ghost use Rattle.kmip_client.specs.Calling.{Calls, CallsUnless};
ghost use Rattle.kmip_client.specs.Payloads.{CantLocate, CantRefer, GetsAttributes, IsDiscover, IsGet, IsGetAttributes, IsLocate, IsObject, IsQuery};
ghost use Rattle.kmip_client.specs.Payloads.{IsRevoke};
ghost use Rattle.kmip.specs.Commands.{CantHave, CantLocateAll, Converses, Gives, IsKeptKey, IsLocateAll, IsNewKey, Negotiates, Performs};

use crate::done::Done;
use crate::request::{Asked, FIRST_ASKED, NewKey, Request};
use kmip_attribute_set::attributes::Attributes;
use kmip_attribute_set::building::of_key;
use kmip_attribute_set::tags::Tagged;
use kmip_client::client::Client;
use kmip_client::exchange::Exchange;
use kmip_client::failure::Failure;
use kmip_client::keys::raw_key;
use kmip_messages::header::ProtocolVersion;
use kmip_messages::request_payload::{RequestPayload, query_function};
use kmip_messages::response_payload::{
    CreateResponse, LocateResponse, RegisterResponse, ResponsePayload,
};
use kmip_messages::values::RevocationReasonCode;
use std::alloc::{AllocError, Allocator};

/// The versions that the program speaks, the best first.
const VERSIONS: [ProtocolVersion; 6] = [
    ProtocolVersion { major: 2, minor: 0 },
    ProtocolVersion { major: 1, minor: 4 },
    ProtocolVersion { major: 1, minor: 3 },
    ProtocolVersion { major: 1, minor: 2 },
    ProtocolVersion { major: 1, minor: 1 },
    ProtocolVersion { major: 1, minor: 0 },
];

fn query<C: Exchange<A>, A: Allocator + Copy>(
    client: &mut Client<C, A>,
) -> Result<Done<A>, Failure<A>>
    ensures { Gives (Calls (C.Exchanges client.old.connection client.new.connection) (client.new.connection ≡ client.old.connection) client.old.version 24
        RequestPayload.Query (IsQuery (record { number = 1 } ∷ record { number = 2 } ∷ record { number = 3 } ∷ [])) ResponsePayload.Query) Done.Query result }
{
    let functions = [
        query_function::QUERY_OPERATIONS,
        query_function::QUERY_OBJECTS,
        query_function::QUERY_SERVER_INFORMATION,
    ];
    match client.query(&functions) {
        Ok(found) => Ok(Done::Query(found)),
        Err(failure) => Err(failure),
    }
}

fn versions<C: Exchange<A>, A: Allocator + Copy>(
    client: &mut Client<C, A>,
) -> Result<Done<A>, Failure<A>>
    ensures { Gives (Calls (C.Exchanges client.old.connection client.new.connection) (client.new.connection ≡ client.old.connection) client.old.version 30
        RequestPayload.DiscoverVersions (IsDiscover []) ResponsePayload.DiscoverVersions) Done.Versions result }
{
    match client.discover_versions(&[]) {
        Ok(found) => Ok(Done::Versions(found)),
        Err(failure) => Err(failure),
    }
}

// The attributes of a new key of so many bits.
fn attributes_of<A: Allocator + Copy>(
    alloc: A,
    key: NewKey<'_>,
    length: i32,
) -> Result<Attributes<A>, AllocError>
    ensures { IfOk result (λ attributes. AreOfKey key.entry.algorithm length key.entry.usage key.entry.name.now attributes.list.items) }
{
    let attributes = of_key(alloc, key.algorithm, length, key.usage, key.name)?;
    Ok(attributes)
}

// Has a key made.
fn make<C: Exchange<A>, A: Allocator + Copy>(
    client: &mut Client<C, A>,
    key: &NewKey<'_>,
    length: i32,
) -> Result<CreateResponse<A>, Failure<A>>
    ensures { CallsUnless (C.Exchanges client.old.connection client.new.connection) (client.new.connection ≡ client.old.connection) client.old.version 1
        RequestPayload.Create (IsNewKey ⟦<Attributes<A> as Tagged<A>>⟧.IsTagged client.old.version key.now length)
        (CantHave ⟦<Attributes<A> as Tagged<A>>⟧.IsTagged client.old.version key.now length) ResponsePayload.Create result }
{
    let attributes = attributes_of(client.alloc, *key, length)?;
    client.create(attributes)
}

fn create<C: Exchange<A>, A: Allocator + Copy>(
    client: &mut Client<C, A>,
    key: &NewKey<'_>,
    length: i32,
) -> Result<Done<A>, Failure<A>>
    ensures { Gives (CallsUnless (C.Exchanges client.old.connection client.new.connection) (client.new.connection ≡ client.old.connection) client.old.version 1
        RequestPayload.Create (IsNewKey ⟦<Attributes<A> as Tagged<A>>⟧.IsTagged client.old.version key.now length)
        (CantHave ⟦<Attributes<A> as Tagged<A>>⟧.IsTagged client.old.version key.now length) ResponsePayload.Create) Done.Create result }
{
    match make(client, key, length) {
        Ok(made) => Ok(Done::Create(made)),
        Err(failure) => Err(failure),
    }
}

// How many bits these bytes are.
fn bits(bytes: &[u8]) -> i32
    requires { length bytes.now ≤ 65_536 }
    ensures { result ≡ pos (8 * length bytes.now) }
{
    (8 * bytes.len()) as i32
}

// Has a key kept.
fn keep<C: Exchange<A>, A: Allocator + Copy>(
    client: &mut Client<C, A>,
    key: &NewKey<'_>,
    bytes: &[u8],
) -> Result<RegisterResponse<A>, Failure<A>>
    requires { length bytes.now ≤ 65_536 }
    ensures { CallsUnless (C.Exchanges client.old.connection client.new.connection) (client.new.connection ≡ client.old.connection) client.old.version 3
        RequestPayload.Register (IsKeptKey ⟦<Attributes<A> as Tagged<A>>⟧.IsTagged client.old.version key.now bytes.now)
        (CantHave ⟦<Attributes<A> as Tagged<A>>⟧.IsTagged client.old.version key.now (pos (8 * length bytes.now))) ResponsePayload.Register result }
{
    let length = bits(bytes);
    let block = raw_key(client.alloc, key.algorithm, length, bytes)?;
    let attributes = attributes_of(client.alloc, *key, length)?;
    client.register(block, attributes)
}

fn register<C: Exchange<A>, A: Allocator + Copy>(
    client: &mut Client<C, A>,
    key: &NewKey<'_>,
    bytes: &[u8],
) -> Result<Done<A>, Failure<A>>
    requires { length bytes.now ≤ 65_536 }
    ensures { Gives (CallsUnless (C.Exchanges client.old.connection client.new.connection) (client.new.connection ≡ client.old.connection) client.old.version 3
        RequestPayload.Register (IsKeptKey ⟦<Attributes<A> as Tagged<A>>⟧.IsTagged client.old.version key.now bytes.now)
        (CantHave ⟦<Attributes<A> as Tagged<A>>⟧.IsTagged client.old.version key.now (pos (8 * length bytes.now))) ResponsePayload.Register) Done.Register result }
{
    match keep(client, key, bytes) {
        Ok(kept) => Ok(Done::Register(kept)),
        Err(failure) => Err(failure),
    }
}

// Every object that the server shows.
fn locate_all<C: Exchange<A>, A: Allocator + Copy>(
    client: &mut Client<C, A>,
) -> Result<LocateResponse<A>, Failure<A>>
    ensures { CallsUnless (C.Exchanges client.old.connection client.new.connection) (client.new.connection ≡ client.old.connection) client.old.version 8
        RequestPayload.Locate (IsLocateAll ⟦<Attributes<A> as Tagged<A>>⟧.IsTagged client.old.version)
        (CantLocateAll ⟦<Attributes<A> as Tagged<A>>⟧.IsTagged client.old.version) ResponsePayload.Locate result }
{
    let none = Attributes::new(client.alloc);
    client.locate_by(none)
}

fn locate<C: Exchange<A>, A: Allocator + Copy>(
    client: &mut Client<C, A>,
    name: &str,
) -> Result<Done<A>, Failure<A>>
    ensures { Gives (CallsUnless (C.Exchanges client.old.connection client.new.connection) (client.new.connection ≡ client.old.connection) client.old.version 8
        RequestPayload.Locate (IsLocate ⟦<Attributes<A> as Tagged<A>>⟧.IsTagged client.old.version name.now)
        (CantLocate ⟦<Attributes<A> as Tagged<A>>⟧.IsTagged client.old.version name.now) ResponsePayload.Locate) Done.Locate result }
{
    match client.locate(name) {
        Ok(found) => Ok(Done::Locate(found)),
        Err(failure) => Err(failure),
    }
}

fn locate_every<C: Exchange<A>, A: Allocator + Copy>(
    client: &mut Client<C, A>,
) -> Result<Done<A>, Failure<A>>
    ensures { Gives (CallsUnless (C.Exchanges client.old.connection client.new.connection) (client.new.connection ≡ client.old.connection) client.old.version 8
        RequestPayload.Locate (IsLocateAll ⟦<Attributes<A> as Tagged<A>>⟧.IsTagged client.old.version)
        (CantLocateAll ⟦<Attributes<A> as Tagged<A>>⟧.IsTagged client.old.version) ResponsePayload.Locate) Done.Locate result }
{
    match locate_all(client) {
        Ok(found) => Ok(Done::Locate(found)),
        Err(failure) => Err(failure),
    }
}

fn get<C: Exchange<A>, A: Allocator + Copy>(
    client: &mut Client<C, A>,
    identifier: &str,
) -> Result<Done<A>, Failure<A>>
    ensures { Gives (Calls (C.Exchanges client.old.connection client.new.connection) (client.new.connection ≡ client.old.connection) client.old.version 10
        RequestPayload.Get (IsGet identifier.now) ResponsePayload.Get) Done.Get result }
{
    match client.get(identifier) {
        Ok(found) => Ok(Done::Get(found)),
        Err(failure) => Err(failure),
    }
}

fn attributes<C: Exchange<A>, A: Allocator + Copy>(
    client: &mut Client<C, A>,
    identifier: &str,
    names: &[&str],
) -> Result<Done<A>, Failure<A>>
    ensures { Gives (GetsAttributes ⟦<Attributes<A> as Tagged<A>>⟧.IsOfTags (CallsUnless (C.Exchanges client.old.connection client.new.connection) (client.new.connection ≡ client.old.connection) client.old.version 11
        RequestPayload.GetAttributes (IsGetAttributes ⟦<Attributes<A> as Tagged<A>>⟧.IsTagged client.old.version identifier.now (map (λ t. t.now) names.now))
        (CantRefer client.old.version) ResponsePayload.GetAttributes)) Done.Attributes result }
{
    match client.get_attributes(identifier, names) {
        Ok(found) => Ok(Done::Attributes(found)),
        Err(failure) => Err(failure),
    }
}

fn activate<C: Exchange<A>, A: Allocator + Copy>(
    client: &mut Client<C, A>,
    identifier: &str,
) -> Result<Done<A>, Failure<A>>
    ensures { Gives (Calls (C.Exchanges client.old.connection client.new.connection) (client.new.connection ≡ client.old.connection) client.old.version 18
        RequestPayload.Activate (IsObject identifier.now) ResponsePayload.Activate) Done.Activate result }
{
    match client.activate(identifier) {
        Ok(done) => Ok(Done::Activate(done)),
        Err(failure) => Err(failure),
    }
}

fn revoke<C: Exchange<A>, A: Allocator + Copy>(
    client: &mut Client<C, A>,
    identifier: &str,
    reason: RevocationReasonCode,
) -> Result<Done<A>, Failure<A>>
    ensures { Gives (Calls (C.Exchanges client.old.connection client.new.connection) (client.new.connection ≡ client.old.connection) client.old.version 19
        RequestPayload.Revoke (IsRevoke identifier.now reason.number) ResponsePayload.Revoke) Done.Revoke result }
{
    match client.revoke(identifier, reason) {
        Ok(done) => Ok(Done::Revoke(done)),
        Err(failure) => Err(failure),
    }
}

fn destroy<C: Exchange<A>, A: Allocator + Copy>(
    client: &mut Client<C, A>,
    identifier: &str,
) -> Result<Done<A>, Failure<A>>
    ensures { Gives (Calls (C.Exchanges client.old.connection client.new.connection) (client.new.connection ≡ client.old.connection) client.old.version 20
        RequestPayload.Destroy (IsObject identifier.now) ResponsePayload.Destroy) Done.Destroy result }
{
    match client.destroy(identifier) {
        Ok(done) => Ok(Done::Destroy(done)),
        Err(failure) => Err(failure),
    }
}

/// Asks for one thing in the client's version: for what a command says, with these bytes, of at most 65,536, if they are to be kept
/// as a key.
pub fn ask<C: Exchange<A>, A: Allocator + Copy>(
    client: &mut Client<C, A>,
    asked: &Asked<'_>,
    key: &[u8],
) -> Result<Done<A>, Failure<A>>
    requires { length key.now ≤ 65_536 }
    ensures { Performs ⟦<Attributes<A> as Tagged<A>>⟧.IsTagged ⟦<Attributes<A> as Tagged<A>>⟧.IsOfTags (C.Exchanges client.old.connection client.new.connection) (client.new.connection ≡ client.old.connection) client.old.version asked.now key.now result }
{
    match asked {
        Asked::Query => query(client),
        Asked::Versions => versions(client),
        Asked::Create { key, length } => create(client, key, *length),
        Asked::Register { key: new, .. } => register(client, new, key),
        Asked::Locate(sought) => match sought {
            Some(name) => locate(client, name),
            None => locate_every(client),
        },
        Asked::Get(identifier) => get(client, identifier),
        Asked::Attributes { identifier, names } => {
            attributes(client, identifier, names.as_slice())
        }
        Asked::Activate(identifier) => activate(client, identifier),
        Asked::Revoke { identifier, reason } => revoke(client, identifier, *reason),
        Asked::Destroy(identifier) => destroy(client, identifier),
    }
}

// The same, in the best version that the client and the server have.
fn ask_in_best<C: Exchange<A>, A: Allocator + Copy>(
    client: &mut Client<C, A>,
    asked: &Asked<'_>,
    key: &[u8],
) -> Result<Done<A>, Failure<A>>
    requires { length key.now ≤ 65_536 }
    ensures { Negotiates ⟦<Attributes<A> as Tagged<A>>⟧.IsTagged ⟦<Attributes<A> as Tagged<A>>⟧.IsOfTags C.Exchanges client.old.connection client.new.connection client.old.version asked.now key.now result }
{
    match client.negotiate(&VERSIONS) {
        Ok(_) => ask(client, asked, key),
        Err(failure) => Err(failure),
    }
}

/// Asks for what a request says, in its version, or else in the best that the program and the server have (KMIP 1.1, section 4.26); with
/// these bytes, of at most 65,536, if they are to be kept as a key.
pub fn converse<C: Exchange<A>, A: Allocator + Copy>(
    client: &mut Client<C, A>,
    request: &Request<'_>,
    key: &[u8],
) -> Result<Done<A>, Failure<A>>
    requires { length key.now ≤ 65_536 }
    ensures { Converses ⟦<Attributes<A> as Tagged<A>>⟧.IsTagged ⟦<Attributes<A> as Tagged<A>>⟧.IsOfTags C.Exchanges client.old.connection client.new.connection request.now.version request.now.asked key.now result }
{
    match request.version {
        Some(version) => {
            client.version = version;
            ask(client, &request.asked, key)
        }
        None => {
            client.version = FIRST_ASKED;
            ask_in_best(client, &request.asked, key)
        }
    }
}
