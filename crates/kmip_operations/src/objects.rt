//! Objects in memory, under the identifiers that requests name them by.

ghost use Rattle.std.specs.Prelude.{◌≡◌, ◌+◌, ◌<◌, ◌^◌, Some, IfOk, MatchOption, MatchResult, string_bytes};
ghost use Rattle.std.specs.Fmt.{decimal};
ghost use Rattle.kmip_server.specs.Refusals.{reason_of};
ghost use Rattle.kmip_operations.specs.Effects.{item_not_found, Begins, IsMeant, IsNoName, Means, MeansNone, NoneIsMeant, OneComes, SameObjects};

use crate::about::About;
use itoa::Buffer;
use kmip_memory_store::object::Object;
use kmip_memory_store::store::Store;
use kmip_messages::header::RequestHeader;
use kmip_messages::response::result_reason;
use kmip_server::refusal::Refusal;
use std::alloc::{AllocError, Allocator, Global};

/// The objects of a server.
#[derive(Drop)]
pub struct Objects<K: Allocator = Global> {
    /// Where objects have their memory.
    pub alloc: K,
    /// The objects.
    pub store: Store<About<K>, K>,
    /// Whether the request at hand has attributes by tags, as KMIP 2.0 does, and not by names.
    pub by_tags: bool,
    /// The ID Placeholder: the object that an item of the request at hand made, registered or located last (KMIP 1.0, section 4).
    pub last: Option<usize>,
}

/// The Unique Identifier of an object: its number, from 1, as a text. Fails if memory runs out.
pub fn identifier<A: Allocator>(alloc: A, id: usize) -> Result<String<A>, AllocError>
    ensures { IfOk result (λ text. string_bytes text ≡ decimal (id + 1)) }
{
    let number = id as u128 + 1;
    Buffer::new().format(number).to_string(alloc)
}

// The object of a Unique Identifier, if that is one.
fn numbered(name: &str) -> Option<usize>
    ensures { MatchOption result (IsNoName name.now) (λ id. name.now ≡ decimal (id + 1)) }
{
    let Ok(number) = name.parse::<usize>() else {
        return None;
    };
    if number == 0 {
        return None;
    }
    if Buffer::new().format(number) != name {
        return None;
    }
    Some(number - 1)
}

// What is said of an object that isn't there.
fn missing() -> Refusal
    ensures { reason_of result ≡ item_not_found }
{
    Refusal::new(result_reason::ITEM_NOT_FOUND, "there is no such object")
}

impl<K: Allocator + Copy> Objects<K> {
    /// None yet, and where they will have their memory.
    pub fn new(alloc: K) -> Objects<K> {
        Objects {
            alloc,
            store: Store::new(alloc),
            by_tags: false,
            last: None,
        }
    }

    /// A request with this header is at hand: a handler calls it as it admits one. The ID Placeholder of the request before is cleared.
    pub fn begin<A: Allocator>(&mut self, header: &RequestHeader<A>)
        ensures { Begins header.now self.old self.new }
    {
        self.by_tags = 1 < header.version.major;
        self.last = None;
    }

    // The number of the object that an item is about.
    fn meant<A: Allocator>(&self, name: &Option<String<A>>) -> Option<usize>
        ensures { MatchOption result (MeansNone self.now name.now) (λ id. (id < 2 ^ 64) × Means self.now name.now id) }
    {
        match name {
            Some(name) => numbered(name.as_str()),
            None => {
                let id = self.last?;
                Some(id)
            }
        }
    }

    /// The object that an item is about: that of its Unique Identifier, or without one that of the ID Placeholder. Refused with Item Not
    /// Found if there is none.
    pub fn find<A: Allocator>(
        &self,
        name: &Option<String<A>>,
    ) -> Result<(usize, &Object<About<K>, K>), Refusal>
        ensures { MatchResult result (λ found. IsMeant self.now name.now found.0 found.1.now) (λ refusal. (reason_of refusal ≡ item_not_found) × NoneIsMeant self.now name.now) }
    {
        match self.meant(name) {
            Some(id) => match self.store.get(id) {
                Some(object) => Ok((id, object)),
                None => Err(missing()),
            },
            None => Err(missing()),
        }
    }

    /// Keeps an object, and returns its Unique Identifier. Refused with Invalid Field if another has one of its names (KMIP 1.0,
    /// section 3.2).
    pub fn keep<A: Allocator>(
        &mut self,
        alloc: A,
        about: About<K>,
        material: Vec<u8, K>,
        now: i64,
    ) -> Result<String<A>, Refusal>
        ensures { MatchResult result (λ name. OneComes about (string_bytes name) (Some material.items) self.old self.new) (λ _. SameObjects self.old self.new) }
    {
        for id in 0..self.store.count() {
            if let Some(object) = self.store.get(id)
                && about.names.iter().any(|name| object.about.is_named(name))
            {
                return Err(Refusal::new(result_reason::INVALID_FIELD, "an object has this name"));
            }
        }
        let unique_identifier = identifier(alloc, self.store.count())?;
        let id = self.store.add(about, material, now)?;
        self.last = Some(id);
        Ok(unique_identifier)
    }
}
