//! The tags whose items alone are shown, by their names or their digits.

ghost use Rattle.std.specs.Prelude.{◌≡◌, IfOk, IfErr};
ghost use Rattle.ttlv_run.specs.Tags.{tag_asked, AreTags, IsWhyNot};

use crate::spelling::tag_written;
use kmip_ttlv_names::tag_named;
use kmip_ttlv_types::TtlvTag;
use std::alloc::Allocator;

/// Why some words are not all tags.
#[derive(Clone, Copy, Debug, PartialEq, Eq)]
pub enum TagError<'w> {
    /// This word, the first of those, is no tag.
    NoTag(&'w str),
    /// An allocation failed.
    OutOfMemory,
}

// The tag that a word asks for: that of a name in a table, or of its digits, or of a name in another spelling; none where it is no
// tag.
fn tag_asked(table: &str, word: &str) -> Option<TtlvTag>
    ensures { result ≡ tag_asked table.now word.now }
{
    tag_named(table, word)
        .or(TtlvTag::from_name(word))
        .or(tag_written(table, word))
}

/// The tags that words ask for, each as a number.
pub fn tags_asked<'w, A: Allocator>(
    alloc: A,
    table: &str,
    words: &[&'w str],
) -> Result<Vec<u32, A>, TagError<'w>>
    ensures ok { IfOk result (λ tags. AreTags table.now words.now tags.items) }
    ensures err { IfErr result (IsWhyNot table.now words.now) }
{
    let mut tags = Vec::new(alloc);
    'words: for word in words {
        let Some(tag) = tag_asked(table, word) else {
            return Err(TagError::NoTag(word));
        };
        match tags.push(*tag) {
            Ok(()) => {}
            Err(_) => return Err(TagError::OutOfMemory),
        }
    }
    Ok(tags)
}
