//! The tags of a struct's fields, as numbers in order: each name is read once, however many items
//! are compared with them.

ghost use Rattle.std.specs.Prelude.{◌≡◌, IfOk};
ghost use Rattle.kmip_ttlv_base.specs.Forms.{Fields, fields_of};
ghost use Rattle.kmip_ttlv_reader.specs.Reads.{names_tag};
ghost use Rattle.kmip_ttlv_de.specs.FieldTags.{HasTagsOf};

use kmip_ttlv_base::shape::FieldShape;
use kmip_ttlv_base::types::TtlvTag;
use std::alloc::{AllocError, Allocator};
use std::collections::BTreeSet;

/// The tags of the fields' names. A name that is no tag gives none.
pub fn tags_of<A: Allocator + Copy, B: Allocator>(
    alloc: A,
    fields: &[FieldShape<B>],
) -> Result<BTreeSet<u32, A>, AllocError>
    ensures { IfOk result (λ tags. HasTagsOf (fields_of fields.now) tags) }
{
    let mut tags = BTreeSet::new(alloc);
    for field in fields {
        if let Some(tag) = TtlvTag::from_name(field.name) {
            tags.insert(*tag)?;
        }
    }
    Ok(tags)
}

/// Whether the tag is that of some field's name.
pub fn is_field<A: Allocator>(tags: &BTreeSet<u32, A>, tag: TtlvTag) -> bool
    ensures { (fs : Fields) → HasTagsOf fs tags.now → result ≡ names_tag fs tag }
{
    tags.contains(&*tag)
}
