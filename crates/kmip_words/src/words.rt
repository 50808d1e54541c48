//! Words of tags, of values and of masks, looked up.

ghost use Rattle.std.specs.Prelude.{◌≡◌, ◌==◌, ◌&&◌, ◌<◌, ℕ, List, true, Some, IfSome, option_map, slice_index};
ghost use Rattle.std.specs.List.{list_all};
ghost use Rattle.kmip_words.specs.declared.table.TheConstants.{WORDS as the_table};
ghost use Rattle.kmip_words.specs.Rows.{number_in, word_in, number_named, word_named};
ghost use Rattle.kmip_words.specs.Words.{number_of, is_letter, is_word_byte, is_word, is_number, word_of, tag_of_word, tag_word, mask_of};

use crate::maps::{Numbers, WordMap, numbers_of, words_of};
use crate::table::WORDS;
use kmip_ttlv_types::TtlvTag;
use std::alloc::{AllocError, Allocator, Global};

// The list of the tags.
const TAGS: u32 = 0;

/// The words of the standard's tags, of its enumerations' values and of its masks' bits, by two maps, which [`standard_words`] makes.
/// Looking one up takes no memory.
#[derive(Drop)]
pub struct Words<A: Allocator = Global> {
    numbers: Numbers<'static, A>,
    words: WordMap<'static, A>,
    ghost has_numbers: { (list : ℕ) (word : List ℕ) → number_in numbers list word ≡ number_named the_table.now list word },
    ghost has_words: { (list number : ℕ) → word_in words list number ≡ word_named the_table.now list number },
}

// Whether a byte is a letter or an underscore.
fn is_letter(c: u8) -> bool
    ensures { result ≡ is_letter c }
{
    (65 <= c && c <= 90) || (97 <= c && c <= 122) || c == 95
}

// The same, or a digit.
fn is_word_byte(c: u8) -> bool
    ensures { result ≡ is_word_byte c }
{
    is_letter(c) || (48 <= c && c <= 57)
}

// Whether a text's first byte is a letter or an underscore.
fn begins_word(bytes: &[u8]) -> bool
    ensures { result ≡ is_letter (slice_index bytes.now 0) }
{
    !bytes.is_empty() && is_letter(bytes[0])
}

// Whether a text has letters, digits and underscores alone.
fn has_word_bytes(bytes: &[u8]) -> bool
    ensures { result ≡ list_all is_word_byte bytes.now }
{
    bytes.iter().all(|c| is_word_byte(*c))
}

// Whether a text is a word.
fn is_word(text: &str) -> bool
    ensures { result ≡ is_word text.now }
{
    let bytes = text.as_bytes();
    begins_word(bytes) && has_word_bytes(bytes)
}

impl<A: Allocator> Words<A> {
    // The number of a word in a list.
    fn number_of(&self, list: u32, word: &str) -> Option<u32>
        ensures { result ≡ number_of list word.now }
    {
        self.numbers.get(&(list, word)).copied()
    }

    // Whether a text is a word that stands for a number of a list.
    fn stands_for(&self, list: u32, number: u32, word: &str) -> bool
        ensures { result ≡ (is_word word.now && is_number number (number_of list word.now)) }
    {
        if !is_word(word) {
            return false;
        }
        match self.number_of(list, word) {
            Some(n) => n == number,
            None => false,
        }
    }

    // The word of a number of a list.
    fn word_of(&self, list: u32, number: u32) -> Option<&'static str>
        ensures { option_map (λ s. s.now) result ≡ word_of list number }
    {
        let word = match self.words.get(&(list, number)) {
            Some(word) => *word,
            None => return None,
        };
        if self.stands_for(list, number, word) {
            Some(word)
        } else {
            None
        }
    }

    /// The tag of a word.
    pub fn tag_of(&self, word: &str) -> Option<TtlvTag>
        ensures { result ≡ tag_of_word word.now }
    {
        let number = self.number_of(TAGS, word)?;
        TtlvTag::from_number(number)
    }

    /// The word of a tag: the standard's name, normalized.
    pub fn tag_word(&self, tag: TtlvTag) -> Option<&'static str>
        ensures word { option_map (λ s. s.now) result ≡ tag_word tag }
        ensures plain { IfSome result (λ word. is_word word.now ≡ true) }
        ensures back { IfSome result (λ word. tag_of_word word.now ≡ Some tag) }
    {
        self.word_of(TAGS, *tag)
    }

    /// The value of a word of an enumeration, or the bit of a word of a mask, by the tag of the item.
    pub fn value_of(&self, tag: TtlvTag, word: &str) -> Option<u32>
        ensures { result ≡ number_of tag word.now }
    {
        self.number_of(*tag, word)
    }

    /// The word of a value of an enumeration, or of a bit of a mask: the standard's name, normalized.
    pub fn value_word(&self, tag: TtlvTag, value: u32) -> Option<&'static str>
        ensures word { option_map (λ s. s.now) result ≡ word_of tag value }
        ensures plain { IfSome result (λ word. is_word word.now ≡ true) }
        ensures back { IfSome result (λ word. number_of tag word.now ≡ Some value) }
    {
        self.word_of(*tag, value)
    }

    /// The mask of the words in a text with this byte between them, which is no part of a word: JSON has `|`, XML a space.
    pub fn mask_of(&self, tag: TtlvTag, separator: char, text: &str) -> Option<u32>
        requires { separator < 128 }
        ensures { result ≡ mask_of tag separator text.now }
    {
        let mut mask = 0;
        let mut rest = text;
        'words: while let Some((word, more)) = rest.split_once(separator) {
            mask |= self.value_of(tag, word)?;
            rest = more;
        }
        Some(mask | self.value_of(tag, rest)?)
    }
}

/// Makes the maps of the standard's words.
///
/// The only error is out of memory.
///
/// ```
/// let words = standard_words(alloc)?;
/// let tag = TtlvTag::from([0x42, 0x00, 0x6A]);
/// assert!(rt; words.tag_word(tag) == Some("ProtocolVersionMajor"));
/// ```
pub fn standard_words<A: Allocator + Copy>(alloc: A) -> Result<Words<A>, AllocError> {
    Ok(Words {
        numbers: numbers_of(alloc, WORDS)?,
        words: words_of(alloc, WORDS)?,
    })
}
