//! Register, and which keys Create makes (KMIP 1.0, sections 4.1 and 4.3).

ghost use Rattle.std.specs.Prelude.{◌≡◌, Some, IfOk, OnOk};
ghost use Rattle.kmip_memory_server.specs.Effects.{Adds, MakesOne, bytes_of_object};
ghost use Rattle.kmip_operations.specs.Answers.{bytes_of_block};
ghost use Rattle.kmip_operations.specs.Known.{Grows, Stays};

use crate::server::Server;
use kmip_attribute_set::attributes::Attributes;
use kmip_attribute_set::tags::Tagged;
use kmip_messages::key::{KeyBlock, KeyMaterial, KeyValue};
use kmip_messages::object::ManagedObject;
use kmip_messages::request_payload::{CreateRequest, RegisterRequest};
use kmip_messages::response::result_reason;
use kmip_messages::response_payload::{RegisterResponse, ResponsePayload};
use kmip_messages::values::{
    CryptographicAlgorithm, ObjectType, cryptographic_algorithm, object_type,
};
use kmip_operations::about::About;
use kmip_operations::making::check_storage;
use kmip_operations::system::random_bytes;
use kmip_server::refusal::Refusal;
use std::alloc::Allocator;

// A field that isn't good.
fn bad(message: &'static str) -> Refusal {
    Refusal::new(result_reason::INVALID_FIELD, message)
}

// What the server doesn't have.
fn lacking(message: &'static str) -> Refusal {
    Refusal::new(result_reason::FEATURE_NOT_SUPPORTED, message)
}

// Whether the server makes keys of so many bits for an algorithm.
fn is_length(algorithm: CryptographicAlgorithm, bits: i32) -> bool {
    match algorithm {
        cryptographic_algorithm::AES => matches!(bits, 128 | 192 | 256),
        cryptographic_algorithm::HMAC_SHA1
        | cryptographic_algorithm::HMAC_SHA224
        | cryptographic_algorithm::HMAC_SHA256
        | cryptographic_algorithm::HMAC_SHA384
        | cryptographic_algorithm::HMAC_SHA512 => (128..=1024).contains(&bits) && bits % 8 == 0,
        _ => false,
    }
}

// How many bytes a new key has.
fn size<K: Allocator>(about: &About<K>) -> Result<usize, Refusal> {
    match (about.algorithm, about.length) {
        (Some(algorithm), Some(bits)) if is_length(algorithm, bits) => {
            Ok(usize::try_from(bits / 8).unwrap_or(0))
        }
        _ => Err(bad("the server makes no keys of this algorithm and length")),
    }
}

// Keeps a value, unless there is one.
fn fill<T: Copy>(place: &mut Option<T>, value: Option<T>)
    ensures { Stays place.old place.new }
{
    if place.is_none() {
        *place = value;
    }
}

// Keeps the bytes of a key, and what its block says of it.
fn block<'k, K: Allocator, A: Allocator>(
    about: &mut About<K>,
    block: &'k KeyBlock<A>,
) -> Result<&'k [u8], Refusal>
    ensures bytes { IfOk result (λ bytes. bytes_of_block block.now ≡ Some bytes.now) }
    ensures grows { OnOk result (Grows about.old about.new) }
{
    if block.key_wrapping_data.is_some() {
        return Err(lacking("the server keeps no wrapped keys"));
    }
    if block.key_compression_type.is_some() {
        return Err(Refusal::new(
            result_reason::KEY_COMPRESSION_TYPE_NOT_SUPPORTED,
            "the server keeps no compressed keys",
        ));
    }
    fill(&mut about.algorithm, block.cryptographic_algorithm);
    fill(&mut about.length, block.cryptographic_length);
    if (block.cryptographic_algorithm.is_some() && about.algorithm != block.cryptographic_algorithm)
        || (block.cryptographic_length.is_some() && about.length != block.cryptographic_length)
    {
        return Err(bad("the attributes do not agree with the key"));
    }
    about.format = block.key_format_type;
    match &block.key_value {
        KeyValue::Plain(plain) if plain.attributes.is_empty() => match &plain.key_material {
            KeyMaterial::Bytes(bytes) => Ok(bytes.as_slice()),
            KeyMaterial::Structure(_) => Err(Refusal::new(
                result_reason::KEY_FORMAT_TYPE_NOT_SUPPORTED,
                "the server keeps no keys that are structures",
            )),
        },
        _ => Err(lacking("the server keeps no attributes within a key")),
    }
}

// Keeps what an object is, and returns its type and its bytes.
fn object<'k, K: Allocator, A: Allocator>(
    about: &mut About<K>,
    object: ManagedObject<'k, A>,
) -> Result<(ObjectType, &'k [u8]), Refusal>
    ensures bytes { IfOk result (λ found. bytes_of_object object.entry ≡ Some found.1.now) }
    ensures grows { OnOk result (Grows about.old about.new) }
{
    match object {
        ManagedObject::SymmetricKey(key) => {
            Ok((object_type::SYMMETRIC_KEY, block(about, &key.key_block)?))
        }
        ManagedObject::PublicKey(key) => {
            Ok((object_type::PUBLIC_KEY, block(about, &key.key_block)?))
        }
        ManagedObject::PrivateKey(key) => {
            Ok((object_type::PRIVATE_KEY, block(about, &key.key_block)?))
        }
        ManagedObject::SecretData(secret) => {
            about.subtype = secret.secret_data_type.number;
            Ok((object_type::SECRET_DATA, block(about, &secret.key_block)?))
        }
        ManagedObject::Certificate(certificate) => {
            about.subtype = certificate.certificate_type.number;
            Ok((
                object_type::CERTIFICATE,
                certificate.certificate_value.as_slice(),
            ))
        }
        _ => Err(lacking("the server keeps no objects of this type")),
    }
}

impl<K: Allocator + Copy> Server<K> {
    /// Makes a symmetric key of random bytes. Refused with Invalid Field if the server makes no such key, with Cryptographic Failure if
    /// there are no random bytes (KMIP 1.0, section 11.2).
    pub fn create<A: Allocator + Copy>(
        &mut self,
        alloc: A,
        asked: &CreateRequest<A>,
    ) -> Result<ResponsePayload<A>, Refusal>
        ensures { MakesOne ⟦<Attributes<A> as Tagged<A>>⟧.IsOfTags asked.now self.old.objects result self.new.objects }
    {
        self.objects.last = None;
        let about = self.objects.wanted(alloc, asked)?;
        let key = random_bytes(self.objects.alloc, &self.rt, size(&about)?)?;
        let now = self.seconds();
        let made = self.objects.create(alloc, about, key, now)?;
        Ok(made)
    }

    /// Keeps an object of a client. Refused with Invalid Field if it isn't of the type that is named, or its attributes aren't its own,
    /// and with Feature Not Supported if the server keeps no such objects (KMIP 1.0, section 11.4).
    pub fn register<A: Allocator + Copy>(
        &mut self,
        alloc: A,
        asked: &RegisterRequest<A>,
    ) -> Result<ResponsePayload<A>, Refusal>
        ensures { Adds ⟦<Attributes<A> as Tagged<A>>⟧.IsOfTags asked.now self.old.objects result self.new.objects }
    {
        self.objects.last = None;
        check_storage(&asked.protection_storage_masks)?;
        let (template, by_tags) = (&asked.template_attribute, &asked.attributes_by_tag);
        let mut about = self
            .objects
            .describe(alloc, asked.object_type, template, by_tags)?;
        let Some(given) = asked.object() else {
            return Err(bad("there is no object, or more than one"));
        };
        let (object_type, bytes) = object(&mut about, given)?;
        if object_type != asked.object_type {
            return Err(bad("the object is not of the type that is named"));
        }
        let material = bytes.to_vec(self.objects.alloc)?;
        let now = self.seconds();
        let unique_identifier = self.objects.keep(alloc, about, material, now)?;
        Ok(ResponsePayload::Register(RegisterResponse {
            unique_identifier,
            template_attribute: None,
        }))
    }
}
