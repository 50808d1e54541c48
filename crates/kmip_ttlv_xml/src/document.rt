//! Messages written as one document, which is read back as a whole.

ghost use Rattle.std.specs.Prelude.{◌≡◌, ◌++◌, [], IfOk, IfErr, OnOk, OnErr, string_bytes};
ghost use Rattle.kmip_ttlv_xml.specs.XmlReadings.{IsReadAs};
ghost use Rattle.kmip_ttlv_xml.specs.XmlWritings.{IsAdded, WhyNotAdded, WhyNotGiven};

use crate::failure::WriteError;
use crate::write::{draft_of, reads_back};
use kmip_words::{LateWords, Words};
use std::alloc::{AllocError, Allocator, Global};
use std::marker::Model;

/// A document of messages in the form of OASIS's test cases: a root `KMIP`, and in it each message in a line of its own.
///
/// Contracts see the canonical bytes of its messages, one after the other.
///
/// ```
/// let words = standard_words(alloc)?;
/// let mut document = Document::new(alloc)?;
/// document.push(&words, b"\x42\x00\x0F\x01\0\0\0\0")?;
/// let text = document.finish(&mut LateWords::new())?;
/// assert!(rt; text.as_str() == "<KMIP>\n<BatchItem/>\n</KMIP>\n");
/// ```
#[derive(Drop)]
pub struct Document<A: Allocator = Global> {
    alloc: A,
    text: String<A>,
    bytes: Vec<u8, A>,
}

impl<A: Allocator> Model for Document<A> {
    ghost use Rattle.std.specs.Prelude.{List, ℕ};

    ghost Value = { List ℕ };

    ghost view = { λ d. d.bytes.items };
}

impl<A: Allocator + Copy> Document<A> {
    /// A document without messages.
    ///
    /// The only error is out of memory.
    pub fn new(alloc: A) -> Result<Document<A>, AllocError>
        ensures { IfOk result (λ document. document ≡ []) }
    {
        Ok(Document {
            alloc,
            text: String::from_str(alloc, "<KMIP>\n")?,
            bytes: Vec::new(alloc),
        })
    }

    // Adds a line, and the canonical bytes of the message in it, or neither.
    fn add(&mut self, line: &str, bytes: &[u8]) -> Result<(), AllocError>
        ensures ok { OnOk result (self.new ≡ self.old ++ bytes.now) }
        ensures unchanged { OnErr result (self.new ≡ self.old) }
    {
        let len = self.bytes.len();
        self.bytes.extend_from_slice(bytes)?;
        match self.text.push_str(line) {
            Ok(()) => Ok(()),
            Err(error) => {
                self.bytes.truncate(len);
                Err(error)
            }
        }
    }

    /// Adds a message, by words that are lent.
    ///
    /// # Errors
    ///
    /// With each, the document stays as it was. [`Malformed`](WriteError::Malformed) with the first fault;
    /// [`NotHeld`](WriteError::NotHeld) if XML can't hold a character of a text; [`OutOfMemory`](WriteError::OutOfMemory).
    pub fn push(&mut self, words: &Words<A>, message: &[u8]) -> Result<(), WriteError>
        ensures ok { OnOk result (IsAdded message.now self.old self.new) }
        ensures unchanged { OnErr result (self.new ≡ self.old) }
        ensures err { IfErr result (WhyNotAdded message.now) }
    {
        let mut draft = draft_of(self.alloc, words, message)?;
        draft.text.push_str("\n")?;
        self.add(draft.text.as_str(), draft.bytes.as_slice())?;
        Ok(())
    }

    /// Ends the document, and gives its text, which [`from_xml`](crate::from_xml) reads as the canonical bytes of all messages. It is read
    /// back once, by words that are lent; without messages it is read as no bytes.
    ///
    /// # Errors
    ///
    /// [`NotReadBack`](WriteError::NotReadBack) if the text is not read as the messages, of which no case is known;
    /// [`OutOfMemory`](WriteError::OutOfMemory).
    pub fn finish(self, words: &mut LateWords<A>) -> Result<String<A>, WriteError>
        ensures ok { IfOk result (λ text. IsReadAs (string_bytes text) self) }
        ensures err { IfErr result WhyNotGiven }
    {
        let Document {
            alloc,
            mut text,
            bytes,
        } = self;
        text.push_str("</KMIP>\n")?;
        let is_same = reads_back(alloc, words, text.as_str(), bytes.as_slice())?;
        if is_same {
            Ok(text)
        } else {
            Err(WriteError::NotReadBack)
        }
    }
}
