//! Locate (KMIP 1.0, section 4.8).

ghost use Rattle.std.specs.Prelude.{◌≡◌, ◌+◌, [], ◌∷◌, ◌++◌, IfOk, OnOk, if◌then◌else◌, map, string_bytes};
ghost use Rattle.std.specs.Fmt.{decimal};
ghost use Rattle.kmip_memory_store.specs.Objects.{at, objects_of};
ghost use Rattle.kmip_operations.specs.Finding.{IsFound, Locates, at_most, behind, found_from, has_all, is_on_line, natural, sole};
ghost use Rattle.kmip_operations.specs.Listing.{saying_of};

use crate::attributes::all_attributes;
use crate::matching::is_sought;
use crate::objects::{Objects, identifier};
use kmip_attribute_set::attributes::Attributes;
use kmip_attribute_set::tags::Tagged;
use kmip_messages::attribute::Attribute;
use kmip_messages::request_payload::LocateRequest;
use kmip_messages::response::result_reason;
use kmip_messages::response_payload::{LocateResponse, ResponsePayload};
use kmip_server::refusal::Refusal;
use kmip_ttlv::Kept;
use std::alloc::{AllocError, Allocator};

/// The bit of a Storage Status Mask that asks for what is kept on-line (KMIP 1.0, section 9.1.3.3.2).
const ON_LINE: i32 = 1;

// Whether what is kept on-line is sought.
fn is_on_line(mask: Option<i32>) -> bool
    ensures { result ≡ is_on_line mask }
{
    match mask {
        Some(mask) => mask & ON_LINE != 0,
        None => true,
    }
}

// So many; none, if it is negative.
fn natural(number: i32) -> usize
    ensures { result ≡ natural number }
{
    usize::try_from(number).unwrap_or(0)
}

// The first so many of these; all, if it isn't said.
fn at_most(ids: &[usize], number: Option<i32>) -> &[usize]
    ensures { result.now ≡ at_most number ids.now }
{
    match number {
        Some(number) => {
            let (first, _) = ids.split_at(natural(number).min(ids.len()));
            first
        }
        None => ids,
    }
}

// These, without the first so many.
fn behind(ids: &[usize], number: Option<i32>) -> &[usize]
    ensures { result.now ≡ behind number ids.now }
{
    match number {
        Some(number) => {
            let (_, rest) = ids.split_at(natural(number).min(ids.len()));
            rest
        }
        None => ids,
    }
}

// The only one of these, if there is one alone.
fn sole(ids: &[usize]) -> Option<usize>
    ensures { result ≡ sole ids.now }
{
    match ids {
        [id] => Some(*id),
        _ => None,
    }
}

// The Unique Identifiers of these.
fn identifiers<A: Allocator + Copy>(
    alloc: A,
    ids: &[usize],
) -> Result<Vec<String<A>, A>, AllocError>
    ensures { IfOk result (λ names. map string_bytes names.items ≡ map (λ id. decimal (id + 1)) ids.now) }
{
    let mut names = Vec::new(alloc);
    for id in ids {
        names.push(identifier(alloc, *id)?)?;
    }
    Ok(names)
}

// Refuses attributes by names.
fn check_unnamed<A: Allocator>(asked: &LocateRequest<A>) -> Result<(), Refusal>
    ensures { OnOk result (asked.now.attributes.items ≡ []) }
{
    if !asked.attributes.is_empty() {
        return Err(Refusal::new(
            result_reason::INVALID_FIELD,
            "attributes go by tags in KMIP 2.0",
        ));
    }
    Ok(())
}

// Adds an object that is found.
fn push_found<A: Allocator + Copy>(
    ids: &mut Vec<usize, A>,
    id: usize,
    is_found: bool,
) -> Result<(), AllocError>
    ensures { OnOk result (ids.new.items ≡ ids.old.items ++ (if is_found then id ∷ [] else [])) }
{
    if !is_found {
        return Ok(());
    }
    ids.push(id)?;
    Ok(())
}

// Of these none, unless what is kept on-line is sought.
fn stored<A: Allocator>(mut ids: Vec<usize, A>, mask: Option<i32>) -> Vec<usize, A>
    ensures { result.items ≡ (if is_on_line mask then ids.items else []) }
{
    if is_on_line(mask) {
        return ids;
    }
    ids.clear();
    ids
}

impl<K: Allocator + Copy> Objects<K> {
    // Whether there is such an object, and it has all of these attributes.
    fn finds<A: Allocator + Copy>(
        &self,
        alloc: A,
        sought: &[Attribute<A>],
        id: usize,
    ) -> Result<bool, AllocError>
        ensures { IfOk result (λ it. it ≡ has_all (map saying_of sought.now) id (at self.now.store id)) }
    {
        match self.store.get(id) {
            Some(object) => {
                let owned = all_attributes(alloc, id, object)?;
                Ok(is_sought(sought, owned.as_slice()))
            }
            None => Ok(false),
        }
    }

    // The objects that have all of these attributes, in the order in which they came.
    fn found<A: Allocator + Copy>(
        &self,
        alloc: A,
        sought: &[Attribute<A>],
    ) -> Result<Vec<usize, A>, AllocError>
        ensures { IfOk result (λ ids. ids.items ≡ found_from (map saying_of sought.now) 0 (objects_of self.now.store)) }
    {
        let mut found = Vec::new(alloc);
        for id in 0..self.store.count() {
            let is_found = self.finds(alloc, sought, id)?;
            push_found(&mut found, id, is_found)?;
        }
        Ok(found)
    }

    // The objects that a request seeks, wherever they are kept.
    fn sought<A: Allocator + Copy>(
        &self,
        alloc: A,
        asked: &LocateRequest<A>,
    ) -> Result<Vec<usize, A>, Refusal>
        ensures { IfOk result (λ ids. IsFound ⟦<Attributes<A> as Tagged<A>>⟧.IsOfTags self.now.by_tags (objects_of self.now.store) asked.now ids.items) }
    {
        let given = self.given(alloc, &asked.attributes_by_tag)?;
        if !self.by_tags {
            let found = self.found(alloc, asked.attributes.as_slice())?;
            return Ok(found);
        }
        check_unnamed(asked)?;
        let found = self.found(alloc, given.list.as_slice())?;
        Ok(found)
    }

    /// The objects that have all attributes that are sought, the first that came first. Two dates of one name are the ends of a range,
    /// and an object may have more bits than a mask that is sought. If there is one alone, it is the ID Placeholder. Refused with Feature
    /// Not Supported if a group is asked for, with Invalid Field if KMIP 2.0 has attributes by names, and otherwise as `given`.
    pub fn locate<A: Allocator + Copy>(
        &mut self,
        alloc: A,
        asked: &LocateRequest<A>,
    ) -> Result<ResponsePayload<A>, Refusal>
        ensures { Locates ⟦<Attributes<A> as Tagged<A>>⟧.IsOfTags asked.now self.old result self.new }
    {
        self.last = None;
        if asked.object_group_member.is_some() {
            return Err(Refusal::new(
                result_reason::FEATURE_NOT_SUPPORTED,
                "the server has no groups",
            ));
        }
        let all = self.sought(alloc, asked)?;
        let found = stored(all, asked.storage_status_mask);
        let rest = behind(found.as_slice(), asked.offset_items);
        let page = at_most(rest, asked.maximum_items);
        let unique_identifiers = identifiers(alloc, page)?;
        self.last = sole(found.as_slice());
        Ok(ResponsePayload::Locate(LocateResponse {
            located_items: None,
            unique_identifiers,
            other_items: Kept::none(alloc),
        }))
    }
}
