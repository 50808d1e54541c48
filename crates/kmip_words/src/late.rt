//! The words for a reader that may not need them: their maps are made when the first word is looked up.

ghost use Rattle.std.specs.Prelude.{◌≡◌, ◌<◌, IfOk};
ghost use Rattle.kmip_words.specs.Words.{number_of, tag_of_word, mask_of};

use crate::words::{Words, standard_words};
use kmip_ttlv_types::TtlvTag;
use std::alloc::{AllocError, Allocator, Global};

/// The standard's words, if one was looked up.
///
/// ```
/// let mut words = LateWords::new();
/// let tag = words.tag_of(alloc, "ProtocolVersion")?;
/// assert!(rt; tag == Some(TtlvTag::from([0x42, 0x00, 0x69])));
/// ```
#[derive(Drop)]
pub struct LateWords<A: Allocator = Global> {
    words: Option<Words<A>>,
}

impl<A: Allocator + Copy> LateWords<A> {
    /// No words yet.
    pub fn new() -> Self {
        LateWords { words: None }
    }

    // Takes the words, which are made if need be.
    fn take(&mut self, alloc: A) -> Result<Words<A>, AllocError> {
        match self.words.take() {
            Some(words) => Ok(words),
            None => standard_words(alloc),
        }
    }

    /// The tag of a word, as [`Words::tag_of`].
    ///
    /// The only error, here and below, is out of memory.
    pub fn tag_of(&mut self, alloc: A, word: &str) -> Result<Option<TtlvTag>, AllocError>
        ensures { IfOk result (λ tag. tag ≡ tag_of_word word.now) }
    {
        let words = self.take(alloc)?;
        let tag = words.tag_of(word);
        self.words = Some(words);
        Ok(tag)
    }

    /// The value of a word, as [`Words::value_of`].
    pub fn value_of(
        &mut self,
        alloc: A,
        tag: TtlvTag,
        word: &str,
    ) -> Result<Option<u32>, AllocError>
        ensures { IfOk result (λ value. value ≡ number_of tag word.now) }
    {
        let words = self.take(alloc)?;
        let value = words.value_of(tag, word);
        self.words = Some(words);
        Ok(value)
    }

    /// The mask of some words, as [`Words::mask_of`].
    pub fn mask_of(
        &mut self,
        alloc: A,
        tag: TtlvTag,
        separator: char,
        text: &str,
    ) -> Result<Option<u32>, AllocError>
        requires { separator < 128 }
        ensures { IfOk result (λ mask. mask ≡ mask_of tag separator text.now) }
    {
        let words = self.take(alloc)?;
        let mask = words.mask_of(tag, separator, text);
        self.words = Some(words);
        Ok(mask)
    }
}
