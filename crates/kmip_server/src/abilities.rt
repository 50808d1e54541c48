//! What a server says of itself: the answers to Query and to Discover Versions.

ghost use Rattle.std.specs.Prelude.{◌≡◌, [], IfOk, Some, None, if◌then◌else◌, filter, option_map, string_bytes};
ghost use Rattle.kmip_server.specs.Abilities.{asks, common, declaration_of, is_among, speaks, AreListed};

use kmip_messages::header::{Operation, ProtocolVersion};
use kmip_messages::request_payload::{
    DiscoverVersionsRequest, QueryFunction, QueryRequest, query_function,
};
use kmip_messages::response_payload::{DiscoverVersionsResponse, QueryResponse};
use kmip_messages::values::ObjectType;
use kmip_ttlv::{Enumeration, Kept};
use std::alloc::{AllocError, Allocator};

/// What a server can do.
#[derive(Clone, Copy)]
pub struct Abilities {
    /// The versions of the protocol that it speaks, the best first.
    pub versions: &'static [ProtocolVersion],
    /// The operations that it has: its handler is asked for no other.
    pub operations: &'static [Operation],
    /// The kinds of objects that it keeps.
    pub object_types: &'static [ObjectType],
    /// Who made it: the Vendor Identification of an answer to Query.
    pub vendor: &'static str,
}

/// Whether a number of an Enumeration is among these.
pub fn is_among<const TAG: u32>(one: Enumeration<TAG>, all: &[Enumeration<TAG>]) -> bool
    ensures { result ≡ is_among one.entry all.now }
{
    all.contains(&one)
}

/// Whether a version of the protocol is among these.
pub fn speaks(versions: &[ProtocolVersion], version: ProtocolVersion) -> bool
    ensures { result ≡ speaks versions.now version }
{
    versions.contains(&version)
}

// Whether a Query asks for this.
fn asks<A: Allocator + Copy>(query: &QueryRequest<A>, function: QueryFunction) -> bool
    ensures { result ≡ asks query.now function }
{
    is_among(function, query.functions.as_slice())
}

// These numbers of an Enumeration, if they are wanted.
fn listed<A: Allocator + Copy, const TAG: u32>(
    alloc: A,
    wanted: bool,
    all: &[Enumeration<TAG>],
) -> Result<Vec<Enumeration<TAG>, A>, AllocError>
    ensures { IfOk result (λ found. found.items ≡ (if wanted then all.now else [])) }
{
    if wanted {
        all.to_vec(alloc)
    } else {
        Ok(Vec::new(alloc))
    }
}

// This text, if it is wanted.
fn told<A: Allocator + Copy>(
    alloc: A,
    wanted: bool,
    text: &str,
) -> Result<Option<String<A>>, AllocError>
    ensures { IfOk result (λ found. option_map string_bytes found ≡ (if wanted then Some text.now else None)) }
{
    if wanted {
        Ok(Some(text.to_string(alloc)?))
    } else {
        Ok(None)
    }
}

/// The answer to a Query (KMIP 1.0, section 4.24): of the server's operations, kinds of objects and vendor those that are asked for.
pub fn list_abilities<A: Allocator + Copy>(
    alloc: A,
    own: Abilities,
    query: &QueryRequest<A>,
) -> Result<QueryResponse<A>, AllocError>
    ensures { IfOk result (AreListed (declaration_of own) query.now) }
{
    let operations = asks(query, query_function::QUERY_OPERATIONS);
    let object_types = asks(query, query_function::QUERY_OBJECTS);
    let vendor = asks(query, query_function::QUERY_SERVER_INFORMATION);
    Ok(QueryResponse {
        operations: listed(alloc, operations, own.operations)?,
        object_types: listed(alloc, object_types, own.object_types)?,
        vendor_identification: told(alloc, vendor, own.vendor)?,
        server_information: None,
        application_namespaces: Vec::new(alloc),
        extensions: Vec::new(alloc),
        attestation_types: Vec::new(alloc),
        rng_parameters: Vec::new(alloc),
        profiles: Vec::new(alloc),
        validations: Vec::new(alloc),
        capabilities: Vec::new(alloc),
        client_registration_methods: Vec::new(alloc),
        other_items: Kept::none(alloc),
    })
}

// The versions among these that the client has too.
fn kept<A: Allocator + Copy>(
    alloc: A,
    versions: &[ProtocolVersion],
    known: &[ProtocolVersion],
) -> Result<Vec<ProtocolVersion, A>, AllocError>
    ensures { IfOk result (λ found. found.items ≡ filter (λ v. speaks known.now v) versions.now) }
{
    let mut found = Vec::new(alloc);
    for version in versions {
        if speaks(known, *version) {
            found.push(*version)?;
        }
    }
    Ok(found)
}

/// The answer to Discover Versions (KMIP 1.1, section 4.26): of the server's versions, in its order, those that the client has, or all
/// of them, if it names none.
pub fn common_versions<A: Allocator + Copy>(
    alloc: A,
    versions: &[ProtocolVersion],
    known: &DiscoverVersionsRequest<A>,
) -> Result<DiscoverVersionsResponse<A>, AllocError>
    ensures { IfOk result (λ found. found.versions.items ≡ common versions.now known.now.versions.items) }
{
    let known = known.versions.as_slice();
    let versions = if known.is_empty() {
        versions.to_vec(alloc)?
    } else {
        kept(alloc, versions, known)?
    };
    Ok(DiscoverVersionsResponse { versions })
}
