//! Attributes and their names by tags, as requests and responses of KMIP 2.0 have them.

ghost use Rattle.std.specs.Prelude.{◌≡◌, [], Ok, IfOk, OnOk, map, string_bytes};
ghost use Rattle.kmip_attribute_set.specs.Tags.{Refers};
ghost use Rattle.kmip_operations.specs.Tagging.{AreGiven};

use crate::objects::Objects;
use kmip_attribute_set::attributes::Attributes;
use kmip_attribute_set::references::{names_of, references};
use kmip_attribute_set::tags::Tagged;
use kmip_messages::request_payload::GetAttributesRequest;
use kmip_messages::response::result_reason;
use kmip_server::refusal::Refusal;
use kmip_ttlv::Kept;
use kmip_ttlv::error::{Error, ErrorKind};
use std::alloc::{AllocError, Allocator};

// Why attributes couldn't be taken by their tags, or written by tags: a name has no tag, or an attribute is not as its tag says.
pub(crate) fn refusal_of<A: Allocator>(error: &Error<A>) -> Refusal {
    if matches!(error.kind(), ErrorKind::OutOfMemory) {
        return Refusal::from(AllocError);
    }
    Refusal::new(
        result_reason::INVALID_FIELD,
        "an attribute is not as its tag says",
    )
}

impl<K: Allocator + Copy> Objects<K> {
    /// The attributes that a request has by tags; none, if it has no such structure. Refused with Feature Not Supported before KMIP 2.0,
    /// and with Invalid Field if one is not as its tag says.
    pub fn given<A: Allocator + Copy>(
        &self,
        alloc: A,
        items: &Option<Kept<A>>,
    ) -> Result<Attributes<A>, Refusal>
        ensures { IfOk result (λ given. AreGiven ⟦<Attributes<A> as Tagged<A>>⟧.IsOfTags self.now.by_tags items.now given) }
    {
        match items {
            None => Ok(Attributes::new(alloc)),
            Some(_) if !self.by_tags => Err(Refusal::new(
                result_reason::FEATURE_NOT_SUPPORTED,
                "attributes go by tags from KMIP 2.0 on",
            )),
            Some(items) => match Attributes::from_tags(alloc, items) {
                Ok(given) => Ok(given),
                Err(error) => Err(refusal_of(&error)),
            },
        }
    }
}

/// The names of the attributes that a Get Attributes of KMIP 2.0 asks for, by references to their tags. Refused with Invalid Field if it
/// has names as texts, or a reference isn't as its tag says.
pub fn referred<A: Allocator + Copy>(
    alloc: A,
    asked: &GetAttributesRequest<A>,
) -> Result<Vec<String<A>, A>, Refusal>
    ensures { OnOk result (asked.now.attribute_names.items ≡ []) }
{
    if !asked.attribute_names.is_empty() {
        return Err(Refusal::new(
            result_reason::INVALID_FIELD,
            "attributes are named by references in KMIP 2.0",
        ));
    }
    match names_of(alloc, &asked.other_items) {
        Ok(names) => Ok(names),
        Err(error) => Err(refusal_of(&error)),
    }
}

/// These attributes by tags. Refused with Invalid Field if a name has no tag.
pub fn tagged<A: Allocator + Copy>(alloc: A, attributes: &Attributes<A>) -> Result<Kept<A>, Refusal>
    ensures { IfOk result (λ items. ⟦<Attributes<A> as Tagged<A>>⟧.IsTagged attributes.now (Ok items)) }
{
    match attributes.to_tags(alloc) {
        Ok(items) => Ok(items),
        Err(error) => Err(refusal_of(&error)),
    }
}

/// References to the attributes of these names, as KMIP 2.0 names them. Refused with Invalid Field if a name has no tag.
pub fn referring<A: Allocator + Copy>(alloc: A, names: &[String<A>]) -> Result<Kept<A>, Refusal>
    ensures { IfOk result (λ items. Refers ⟦<Attributes<A> as Tagged<A>>⟧.IsTagged (map string_bytes names.now) items) }
{
    let mut texts = Vec::new(alloc);
    for name in names {
        texts.push(name.as_str())?;
    }
    match references(alloc, texts.as_slice()) {
        Ok(items) => Ok(items),
        Err(error) => Err(refusal_of(&error)),
    }
}
