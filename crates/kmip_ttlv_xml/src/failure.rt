//! Why a text is not read as messages, and why a message is not written.

ghost use Rattle.std.specs.Prelude.{◌≡◌};
ghost use Rattle.kmip_ttlv_xml.specs.declared.failure.XmlError.TheVariants.{OutOfMemory};
ghost use Rattle.kmip_ttlv_xml.specs.XmlReadings.{flaw_words, error_words, error_offset};
ghost use Rattle.kmip_ttlv_xml.specs.declared.failure.WriteError.TheVariants.{OutOfMemory as NoMemoryToWrite};

use kmip_ttlv_items::Fault;
use plain_xml::Flaw;
use std::alloc::{AllocError, AllocFailed};

/// What is wrong with the element of an item.
#[derive(Clone, Copy, Debug, PartialEq, Eq)]
pub enum BadElement {
    /// It has an attribute that no item has, a leaf has no `value`, or a Structure has one.
    Attributes,
    /// Its name is no tag's; or it is a `TTLV` without a `tag`, or with one that is neither `0x` and six digits nor a tag's name; or another
    /// element has a `tag`.
    Tag,
    /// Its type is none of the ten names.
    Typ,
    /// Its value is none of its type.
    Value,
    /// Its value has 2^32 bytes or more.
    Long,
}

/// Why a text is not read as messages. Offsets are in bytes from the text's first.
#[derive(Clone, Copy, Debug, PartialEq, Eq)]
pub enum XmlError {
    /// It is not XML as `plain_xml` reads it: the first flaw, and where it begins.
    NotXml { flaw: Flaw, offset: usize },
    /// What is wrong with the first element that is no item, and where this begins.
    NotItem { bad: BadElement, offset: usize },
    /// Each element is an item, but this is the first that stands in one which is no Structure.
    InLeaf { offset: usize },
    /// With the item that begins there, a Structure has 2^32 bytes or more, so it has no encoding.
    TooLong { offset: usize },
    /// An allocation failed, so nothing is said of the text.
    OutOfMemory,
}

// What is wrong with a text that is no XML, in words.
fn flaw_words(flaw: Flaw) -> &'static str
    ensures { result.now ≡ flaw_words flaw }
{
    match flaw {
        Flaw::Character => "not XML: a character that XML can't hold",
        Flaw::Unfinished => "not XML: the text ends too early",
        Flaw::Text => "not XML here: text in an element",
        Flaw::Declaration => "not XML here: a DOCTYPE or a CDATA section",
        Flaw::Comment => "not XML: two hyphens in a comment",
        Flaw::Tag => "not XML: a character that can't stand here in a tag",
        Flaw::Value => "not XML: a character that can't stand in a value",
        Flaw::Reference =>
            "not XML here: & without one of the five entities or a character's number",
        Flaw::Repeated => "not XML: an attribute is given twice",
        Flaw::TooMany => "more attributes than an item can have",
        Flaw::EndTag => "not XML: another element is open",
        Flaw::SecondRoot => "not XML: a second root",
    }
}

impl XmlError {
    /// What is wrong, in words, without the place.
    pub fn words(self) -> &'static str
        ensures { result.now ≡ error_words self }
    {
        match self {
            XmlError::NotXml { flaw, .. } => flaw_words(flaw),
            XmlError::NotItem { bad, .. } => match bad {
                BadElement::Attributes => "the attributes are not those of an item",
                BadElement::Tag => "the name is no tag's",
                BadElement::Typ => "the name of a type is unknown",
                BadElement::Value => "a value is none of its type",
                BadElement::Long => "a length has more than four bytes",
            },
            XmlError::InLeaf { .. } => "an element in one that is no Structure",
            XmlError::TooLong { .. } => "a length has more than four bytes",
            XmlError::OutOfMemory => "out of memory",
        }
    }

    /// Where it is, in bytes from the text's first: 0 if memory ran out.
    pub fn offset(self) -> usize
        ensures { result ≡ error_offset self }
    {
        match self {
            XmlError::NotXml { offset, .. }
            | XmlError::NotItem { offset, .. }
            | XmlError::InLeaf { offset }
            | XmlError::TooLong { offset } => offset,
            XmlError::OutOfMemory => 0,
        }
    }
}

impl From<AllocError> for XmlError {
    ghost from_gives = { λ _ e. e ≡ OutOfMemory };

    fn from(_: AllocError) -> XmlError {
        XmlError::OutOfMemory
    }
}

/// Why a message is not written.
#[derive(Clone, Copy, Debug, PartialEq, Eq)]
pub enum WriteError {
    /// The bytes are no whole message: the first fault.
    Malformed(Fault),
    /// A text has a character that XML can't hold (XML 1.0, 2.2): a control character but tab, line feed and carriage return, U+FFFE or
    /// U+FFFF. It is the first, and begins at this byte of the message.
    NotHeld { offset: usize },
    /// What would have been written is not read back as the message. No message is known of which this is said.
    NotReadBack,
    /// An allocation failed.
    OutOfMemory,
}

impl From<AllocError> for WriteError {
    ghost from_gives = { λ _ e. e ≡ NoMemoryToWrite };

    fn from(_: AllocError) -> WriteError {
        WriteError::OutOfMemory
    }
}

impl<T: Drop> From<AllocFailed<T>> for WriteError {
    ghost from_gives = { λ _ e. e ≡ NoMemoryToWrite };

    fn from(_: AllocFailed<T>) -> WriteError {
        WriteError::OutOfMemory
    }
}
