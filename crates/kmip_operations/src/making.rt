//! Create (KMIP 1.0, section 4.1).

ghost use Rattle.kmip_operations.specs.Effects.{Makes};
ghost use Rattle.kmip_operations.specs.Known.{IsDescribed, IsTemplated, IsWanted};
ghost use Rattle.std.specs.Prelude.{◌≡◌, IfOk, None, OnOk};

use crate::about::About;
use crate::objects::Objects;
use kmip_attribute_set::attributes::Attributes;
use kmip_attribute_set::tags::Tagged;
use kmip_messages::request_payload::CreateRequest;
use kmip_messages::response::result_reason;
use kmip_messages::response_payload::{CreateResponse, ResponsePayload};
use kmip_messages::template::TemplateAttribute;
use kmip_messages::values::{ObjectType, object_type};
use kmip_server::refusal::Refusal;
use kmip_ttlv::Kept;
use std::alloc::Allocator;

/// Refuses a choice of where an object may be stored, with Feature Not Supported (KMIP 2.0, Protection Storage Mask).
pub fn check_storage<A: Allocator>(masks: &Option<Kept<A>>) -> Result<(), Refusal>
    ensures { OnOk result (masks.now ≡ None) }
{
    match masks {
        Some(_) => Err(Refusal::new(
            result_reason::FEATURE_NOT_SUPPORTED,
            "the server has one kind of storage",
        )),
        None => Ok(()),
    }
}

impl<K: Allocator + Copy> Objects<K> {
    // What a template says of an object that comes.
    fn templated<A: Allocator>(
        &self,
        object_type: ObjectType,
        template: &Option<TemplateAttribute<A>>,
    ) -> Result<About<K>, Refusal>
        ensures { IfOk result (λ about. IsTemplated self.now.by_tags object_type template.now about) }
    {
        let mut about = About::new(self.alloc, object_type);
        if let Some(template) = template {
            if self.by_tags {
                return Err(Refusal::new(
                    result_reason::INVALID_FIELD,
                    "there are no templates in KMIP 2.0",
                ));
            }
            about.template(self.alloc, template)?;
        }
        Ok(about)
    }

    /// What a client says of an object that comes: in a template, up to KMIP 1.4, and by tags from KMIP 2.0 on. Refused with Invalid Field
    /// if KMIP 2.0 has a template, and otherwise as `About::template` and `given`.
    pub fn describe<A: Allocator + Copy>(
        &self,
        alloc: A,
        object_type: ObjectType,
        template: &Option<TemplateAttribute<A>>,
        by_tags: &Option<Kept<A>>,
    ) -> Result<About<K>, Refusal>
        ensures { IfOk result (λ about. IsDescribed ⟦<Attributes<A> as Tagged<A>>⟧.IsOfTags self.now.by_tags object_type template.now by_tags.now about) }
    {
        let mut about = self.templated(object_type, template)?;
        let given = self.given(alloc, by_tags)?;
        about.attributes(self.alloc, given.list.as_slice())?;
        Ok(about)
    }

    /// What the key is to be that a Create asks for. Refused with Invalid Field if that is no symmetric key, or nothing says what it may
    /// be used for, and otherwise as `check_storage` and `describe` (KMIP 1.0, section 11.2).
    pub fn wanted<A: Allocator + Copy>(
        &self,
        alloc: A,
        asked: &CreateRequest<A>,
    ) -> Result<About<K>, Refusal>
        ensures { IfOk result (λ about. IsWanted ⟦<Attributes<A> as Tagged<A>>⟧.IsOfTags self.now.by_tags asked.now about) }
    {
        check_storage(&asked.protection_storage_masks)?;
        let (template, by_tags) = (&asked.template_attribute, &asked.attributes_by_tag);
        let about = self.describe(alloc, asked.object_type, template, by_tags)?;
        if asked.object_type != object_type::SYMMETRIC_KEY {
            return Err(Refusal::new(result_reason::INVALID_FIELD, "only symmetric keys are made"));
        }
        if about.usage_mask.is_none() {
            return Err(Refusal::new(
                result_reason::INVALID_FIELD,
                "there is no Cryptographic Usage Mask",
            ));
        }
        Ok(about)
    }

    /// Answers a Create with a key of these bytes. Refused as `keep`.
    pub fn create<A: Allocator>(
        &mut self,
        alloc: A,
        about: About<K>,
        key: Vec<u8, K>,
        now: i64,
    ) -> Result<ResponsePayload<A>, Refusal>
        ensures { Makes about key.items self.old result self.new }
    {
        let object_type = about.object_type;
        let unique_identifier = self.keep(alloc, about, key, now)?;
        Ok(ResponsePayload::Create(CreateResponse {
            object_type,
            unique_identifier,
            template_attribute: None,
        }))
    }
}
