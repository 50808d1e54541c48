//! Messages read from XML.

ghost use Rattle.std.specs.Prelude.{◌≡◌, ◌+◌, ◌<◌, ◌≤◌, ◌^◌, ℕ, List, map, length, IfOk, IfErr, MatchResult};
ghost use Rattle.std.specs.List.{AllByRecursion};
ghost use Rattle.std.specs.Str.{chars};
ghost use Rattle.plain_xml.specs.Elements.{element_view};
ghost use Rattle.kmip_ttlv_write.specs.GivenItems.{IsWritten};
ghost use Rattle.kmip_ttlv_xml.specs.XmlItems.{items_in};
ghost use Rattle.kmip_ttlv_xml.specs.XmlReadings.{AreXmlOf, IsReadAs, FailsToRead, IsNoMemory, around};
ghost use Rattle.kmip_ttlv_xml.specs.GivenElements.{IsGood, AreUnwritten, IsRefused, IsOut, Places, refused, refused_at};

use crate::failure::XmlError;
use crate::given::{Given, Refusal, given_of};
use kmip_ttlv_write::laws::items_have_one_text;
use kmip_ttlv_write::{BadItem, BadKind, WriteError, write_items};
use kmip_words::LateWords;
use plain_xml::{Element, XmlError as PlainError, element_offset, read};
use std::alloc::{AllocError, Allocator};

// How many elements are in front of the first item: the root, if it is called KMIP.
fn around<A: Allocator>(elements: &[Element<A>]) -> usize
    ensures is { result ≡ around (map element_view elements.now) }
    ensures within { result ≤ length elements.now }
{
    match elements {
        [root, ..] if root.name.as_str() == "KMIP" => 1,
        _ => 0,
    }
}

// Why items are not written, whose values are right.
fn refused(bad: BadItem) -> Refusal
    ensures { result ≡ refused bad }
{
    let index = bad.index;
    match bad.kind {
        BadKind::TooLong => Refusal::TooLong { index },
        _ => Refusal::InLeaf { index },
    }
}

// The canonical bytes of items.
fn written<A: Allocator>(alloc: A, given: &Given<A>) -> Result<Vec<u8, A>, Refusal>
    requires { AllByRecursion (IsGood given.now.lent.items) given.now.items.items }
    ensures found { IfOk result (λ v. IsWritten given.now.items.items given.now.lent.items v.items) }
    ensures only { (out : List ℕ) → IsWritten given.now.items.items given.now.lent.items out → MatchResult result (λ v. v.items ≡ out) IsOut }
    ensures exact { IfErr result (AreUnwritten given.now.items.items given.now.lent.items) }
{
    items_have_one_text();
    match write_items(alloc, given.items.as_slice(), given.lent.as_slice()) {
        Ok(bytes) => Ok(bytes),
        Err(WriteError::OutOfMemory) => Err(Refusal::NoMemory),
        Err(WriteError::Bad(bad)) => Err(refused(bad)),
    }
}

// The canonical bytes of the items among elements, of which so many are in front of the first.
fn bytes_of<A: Allocator + Copy>(
    alloc: A,
    words: &mut LateWords<A>,
    elements: &[Element<A>],
    count: usize,
) -> Result<Vec<u8, A>, Refusal>
    requires count { count ≡ around (map element_view elements.now) }
    requires within { count ≤ length elements.now }
    ensures found { IfOk result (λ v. AreXmlOf (map element_view elements.now) v.items) }
    ensures only { (out : List ℕ) → AreXmlOf (map element_view elements.now) out → MatchResult result (λ v. v.items ≡ out) IsOut }
    ensures exact { IfErr result (IsRefused (items_in (map element_view elements.now))) }
{
    let given = given_of(alloc, words, &elements[count..], count)?;
    written(alloc, &given)
}

// The error for what was refused, with its place.
fn placed<A: Allocator + Copy>(
    alloc: A,
    text: &str,
    count: usize,
    refusal: Refusal,
) -> Result<XmlError, AllocError>
    requires { refused_at refusal + count < 2 ^ 64 }
    ensures { IfOk result (Places (chars text.now) count refusal) }
{
    Ok(match refusal {
        Refusal::NoMemory => XmlError::OutOfMemory,
        Refusal::Wrong { bad, index } => XmlError::NotItem {
            bad,
            offset: element_offset(alloc, text, index + count)?,
        },
        Refusal::InLeaf { index } => XmlError::InLeaf {
            offset: element_offset(alloc, text, index + count)?,
        },
        Refusal::TooLong { index } => XmlError::TooLong {
            offset: element_offset(alloc, text, index + count)?,
        },
    })
}

/// Reads messages from their XML, and returns their canonical bytes, one after the other.
///
/// The root is an item or an element `KMIP`, whose elements are items. An item is an element in the form of OASIS "KMIP Additional Message
/// Encodings":
///
/// - its name is the normalized name of its tag, or it is called `TTLV` and has an attribute `tag`, which is that or `0x` and six digits;
/// - its type is an attribute `type`, and may be left out for a Structure, which has the elements in it as its items;
/// - the value of a leaf is an attribute `value`: of a Text String the text, of a Byte String digits. Each other may be `0x` and the digits of
///   its bytes; an Integer, a Long Integer and an Interval may be a decimal number, an Integer the normalized names of a mask's bits, with
///   single spaces between them, an Enumeration its value's normalized name, a Boolean `true` or `false`, a Date-Time ISO 8601's text, with an
///   offset, and a Big Integer the digits of its bytes without `0x`. All digits are of either case;
/// - attributes `name` and `xmlns` are passed, and no others.
///
/// The words are those of `kmip_words`: of the standard's names.
///
/// It takes memory for the text's elements, five times the text's length beside, and where there is a word the memory of
/// [`standard_words`](kmip_words::standard_words).
///
/// # Errors
///
/// Each with its offset in the text: [`NotXml`](XmlError::NotXml) with the first flaw; [`NotItem`](XmlError::NotItem) with what is wrong with the
/// first element that is no item; [`InLeaf`](XmlError::InLeaf) if an element stands in a leaf; [`TooLong`](XmlError::TooLong) if a Structure has
/// 2^32 bytes of content or more. And [`OutOfMemory`](XmlError::OutOfMemory).
pub fn from_xml<A: Allocator + Copy>(alloc: A, text: &str) -> Result<Vec<u8, A>, XmlError>
    // What is returned are the canonical bytes of items whose XML the text is.
    ensures found { IfOk result (λ v. IsReadAs text.now v.items) }
    // Of each XML of items their bytes are returned, unless memory runs out.
    ensures only { (out : List ℕ) → IsReadAs text.now out → MatchResult result (λ v. v.items ≡ out) IsNoMemory }
    // Which error it is, and where.
    ensures exact { IfErr result (FailsToRead text.now) }
{
    from_xml_by(alloc, &mut LateWords::new(), text)
}

/// The same by words that are lent, for a reader of many texts: their maps are made once.
pub fn from_xml_by<A: Allocator + Copy>(
    alloc: A,
    words: &mut LateWords<A>,
    text: &str,
) -> Result<Vec<u8, A>, XmlError>
    ensures found { IfOk result (λ v. IsReadAs text.now v.items) }
    ensures only { (out : List ℕ) → IsReadAs text.now out → MatchResult result (λ v. v.items ≡ out) IsNoMemory }
    ensures exact { IfErr result (FailsToRead text.now) }
{
    let elements = match read(alloc, text) {
        Ok(elements) => elements,
        Err(PlainError::Malformed { flaw, offset }) => {
            return Err(XmlError::NotXml { flaw, offset });
        }
        Err(PlainError::OutOfMemory) => return Err(XmlError::OutOfMemory),
    };
    let found = elements.as_slice();
    let count = around(found);
    match bytes_of(alloc, words, found, count) {
        Ok(bytes) => Ok(bytes),
        Err(refusal) => Err(placed(alloc, text, count, refusal)?),
    }
}
