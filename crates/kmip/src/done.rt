//! What a server gave.

ghost use Rattle.std.specs.Prelude.{option_map};
ghost use Rattle.kmip.specs.Objects.{IsOfObject};

use kmip_attribute_set::attributes::Attributes;
use kmip_client::keys::raw_bytes;
use kmip_messages::object::ManagedObject;
use kmip_messages::response_payload::{
    CreateResponse, DiscoverVersionsResponse, GetResponse, LocateResponse, ObjectResponse,
    QueryResponse, RegisterResponse,
};
use kmip_ttlv_parts::Boxed;
use std::alloc::Allocator;

/// What a server gave, by what it was asked for.
#[derive(Drop)]
pub enum Done<A: Allocator> {
    /// What it can do.
    Query(Boxed<QueryResponse<A>, A>),
    /// The versions that it has.
    Versions(DiscoverVersionsResponse<A>),
    /// A key that it made.
    Create(CreateResponse<A>),
    /// A key that it keeps.
    Register(RegisterResponse<A>),
    /// Objects.
    Locate(LocateResponse<A>),
    /// An object.
    Get(Boxed<GetResponse<A>, A>),
    /// What is known of one.
    Attributes(Attributes<A>),
    /// An object that is in use now.
    Activate(ObjectResponse<A>),
    /// One that is in use no more.
    Revoke(ObjectResponse<A>),
    /// One that is destroyed.
    Destroy(ObjectResponse<A>),
}

/// The bytes of an object: of a key that isn't wrapped, of a secret, of a certificate, or such as the server doesn't interpret. None of one that
/// has no bytes of its own, as a template, a key in a transparent form, or one that is wrapped as a whole.
pub fn bytes_of<A: Allocator>(found: &GetResponse<A>) -> Option<&[u8]>
    ensures { IsOfObject found.now (option_map (λ bytes. bytes.now) result) }
{
    match found.object()? {
        ManagedObject::SymmetricKey(it) => raw_bytes(&it.key_block),
        ManagedObject::PublicKey(it) => raw_bytes(&it.key_block),
        ManagedObject::PrivateKey(it) => raw_bytes(&it.key_block),
        ManagedObject::SecretData(it) => raw_bytes(&it.key_block),
        ManagedObject::Certificate(it) => Some(it.certificate_value.as_slice()),
        ManagedObject::OpaqueObject(it) => Some(it.opaque_data_value.as_slice()),
        ManagedObject::SplitKey(_) | ManagedObject::Template(_) => None,
    }
}
