//! A message written as XML, and read back.

ghost use Rattle.std.specs.Prelude.{◌≡◌, None, IfOk, IfErr, OnOk, OnErr, string_bytes};
ghost use Rattle.std.specs.List.{AllByRecursion};
ghost use Rattle.kmip_ttlv_items.specs.ItemWalks.{Ended};
ghost use Rattle.kmip_ttlv_json.specs.Printings.{IsThere};
ghost use Rattle.kmip_ttlv_xml.specs.XmlWritings.{AreFound, HasUnheld, IsWrittenTo, AreCanonical, ReadsBack, WhyNot, WhyNotAdded};

use crate::failure::{WriteError, XmlError};
use crate::held::first_unheld;
use crate::read::from_xml_by;
use crate::text::text_of;
use kmip_ttlv_items::{Fault, FoundItem, ItemWalk, Step};
use kmip_ttlv_write::laws::{a_message_is_written_back, items_have_one_text};
use kmip_ttlv_write::write_items;
use kmip_words::{LateWords, Words, standard_words};
use std::alloc::{AllocError, Allocator};

// The items that a walk met up to its end, if that is the message's.
fn finished<A: Allocator>(
    _message: &[u8],
    items: Vec<FoundItem, A>,
    fault: Option<Fault>,
) -> Result<Vec<FoundItem, A>, WriteError>
    requires ended { Ended _message.now items.items fault }
    requires there { AllByRecursion (IsThere _message.now) items.items }
    ensures ok { IfOk result (λ v. AreFound _message.now v.items) }
    ensures err { IfErr result (WhyNotAdded _message.now) }
{
    match fault {
        None => Ok(items),
        Some(fault) => Err(WriteError::Malformed(fault)),
    }
}

// The items of a message, or its first fault.
fn items_of<A: Allocator + Copy>(alloc: A, message: &[u8]) -> Result<Vec<FoundItem, A>, WriteError>
    ensures ok { IfOk result (λ v. AreFound message.now v.items) }
    ensures err { IfErr result (WhyNotAdded message.now) }
{
    let mut walk = ItemWalk::new(alloc, message);
    let mut found = Vec::new(alloc);
    'items: loop {
        match walk.next()? {
            Step::Item(item) => found.push(item)?,
            Step::End(fault) => return finished(message, found, fault),
        }
    }
}

// The canonical bytes of the message with these items.
fn canonical_of<A: Allocator>(
    alloc: A,
    items: &[FoundItem],
    message: &[u8],
) -> Result<Vec<u8, A>, AllocError>
    requires { AreFound message.now items.now }
    ensures { IfOk result (λ v. AreCanonical message.now v.items) }
{
    a_message_is_written_back();
    items_have_one_text();
    match write_items(alloc, items, message) {
        Ok(bytes) => Ok(bytes),
        Err(_other) => Err(AllocError),
    }
}

/// A message's text, which isn't read back yet, and its canonical bytes.
#[derive(Drop)]
pub struct Draft<A: Allocator> {
    pub text: String<A>,
    pub bytes: Vec<u8, A>,
}

/// The text and the canonical bytes of a message.
pub fn draft_of<A: Allocator + Copy>(
    alloc: A,
    words: &Words<A>,
    message: &[u8],
) -> Result<Draft<A>, WriteError>
    ensures ok { IfOk result (λ d. AreCanonical message.now d.bytes.items) }
    ensures held { IfOk result (λ _. HasUnheld message.now None) }
    ensures err { IfErr result (WhyNotAdded message.now) }
{
    let items = items_of(alloc, message)?;
    let found = items.as_slice();
    if let Some(offset) = first_unheld(alloc, found, message)? {
        return Err(WriteError::NotHeld { offset });
    }
    let bytes = canonical_of(alloc, found, message)?;
    let text = text_of(alloc, words, found, message)?;
    Ok(Draft { text, bytes })
}

/// Whether a text is read as these bytes.
pub fn reads_back<A: Allocator + Copy>(
    alloc: A,
    words: &mut LateWords<A>,
    text: &str,
    bytes: &[u8],
) -> Result<bool, AllocError>
    ensures { IfOk result (ReadsBack text.now bytes.now) }
{
    match from_xml_by(alloc, words, text) {
        Ok(found) => Ok(found.as_slice() == bytes),
        Err(XmlError::OutOfMemory) => Err(AllocError),
        Err(_other) => Ok(false),
    }
}

/// Adds the XML of a message, in one line, in the form of OASIS "KMIP Additional Message Encodings", which [`from_xml`](crate::from_xml) reads.
///
/// Tags, the values of Enumerations and the bits of masks have their normalized names, as far as all of a mask's bits have one; a Date-Time
/// is ISO 8601's text. What has none is `0x` and digits, and an Integer, a Long Integer and an Interval a decimal number.
///
/// What it writes was read back before it is added: so it costs as much time as [`from_xml`](crate::from_xml) beside, and the memory of a text,
/// the message, and what reading takes.
///
/// # Errors
///
/// With each, nothing is added. [`Malformed`](WriteError::Malformed) with the first fault; [`NotHeld`](WriteError::NotHeld) if XML can't hold a
/// character of a text; [`NotReadBack`](WriteError::NotReadBack) if the text is not read as the message, of which no case is known;
/// [`OutOfMemory`](WriteError::OutOfMemory).
pub fn push_xml<A: Allocator + Copy>(
    alloc: A,
    out: &mut String<A>,
    message: &[u8],
) -> Result<(), WriteError>
    // A text was added that is read as the message's canonical bytes.
    ensures ok { OnOk result (IsWrittenTo message.now (string_bytes out.old) (string_bytes out.new)) }
    ensures unchanged { OnErr result (string_bytes out.new ≡ string_bytes out.old) }
    ensures err { IfErr result (WhyNot message.now) }
{
    let words = standard_words(alloc)?;
    push_xml_by(alloc, &words, &mut LateWords::new(), out, message)
}

/// The same by words that are lent, to write and to read, for a writer of many messages: their maps are made once.
pub fn push_xml_by<A: Allocator + Copy>(
    alloc: A,
    words: &Words<A>,
    late: &mut LateWords<A>,
    out: &mut String<A>,
    message: &[u8],
) -> Result<(), WriteError>
    ensures ok { OnOk result (IsWrittenTo message.now (string_bytes out.old) (string_bytes out.new)) }
    ensures unchanged { OnErr result (string_bytes out.new ≡ string_bytes out.old) }
    ensures err { IfErr result (WhyNot message.now) }
{
    let draft = draft_of(alloc, words, message)?;
    let is_same = reads_back(alloc, late, draft.text.as_str(), draft.bytes.as_slice())?;
    if !is_same {
        return Err(WriteError::NotReadBack);
    }
    out.push_str(draft.text.as_str())?;
    Ok(())
}
