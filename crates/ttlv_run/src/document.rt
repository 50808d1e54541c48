//! Messages in hexadecimal, each in a line of its own, made into one document of XML.

ghost use Rattle.std.specs.Prelude.{◌≡◌, [], IfOk, IfErr};
ghost use Rattle.ttlv_run.specs.declared.job.Product.TheVariants.{Document as OfXml};
ghost use Rattle.ttlv_run.specs.declared.run_error.RunError.TheVariants.{NoMemory as MemoryEnded};
ghost use Rattle.ttlv_run.specs.Documents.{AddsLine, CollectsAll};
ghost use Rattle.ttlv_run.specs.Products.{IsMade};

use crate::back::line_at;
use crate::gather::Made;
use crate::run_error::RunError;
use hex::FromHexError;
use kmip_ttlv_xml::{Document, WriteError};
use kmip_words::{LateWords, Words, standard_words};
use std::alloc::Allocator;

/// Why an input is malformed whose texts XML can't hold.
const UNHELD: &str = "a text has a character that XML can't hold";

/// Why it would be, whose document isn't read back. No message is known of which this is said.
const UNREAD: &str = "its XML is not read back as its messages";

/// What became of a line.
#[derive(Clone, Copy, Debug, PartialEq, Eq)]
pub enum Added {
    /// Its message stands in the document.
    Message,
    /// It is no message, or a malformed one: the document ends in front of it.
    Nothing,
    /// Its message has a text with a character that XML can't hold.
    Unheld,
}

// Adds the message of a line.
fn add_line<A: Allocator + Copy>(
    alloc: A,
    words: &Words<A>,
    document: &mut Document<A>,
    line: &[u8],
) -> Result<Added, RunError>
    ensures ok { IfOk result (AddsLine line.now document.old document.new) }
    ensures err { IfErr result (λ why. why ≡ MemoryEnded) }
{
    let message = match hex::decode(alloc, line) {
        Ok(message) => message,
        Err(FromHexError::OutOfMemory) => return Err(RunError::NoMemory),
        Err(_) => return Ok(Added::Nothing),
    };
    match document.push(words, message.as_slice()) {
        Ok(()) => Ok(Added::Message),
        Err(WriteError::Malformed(_)) => Ok(Added::Nothing),
        Err(WriteError::NotHeld { .. }) => Ok(Added::Unheld),
        Err(WriteError::NotReadBack | WriteError::OutOfMemory) => Err(RunError::NoMemory),
    }
}

// Adds the messages of lines, up to the first that is none, and returns whether XML can hold their texts.
fn collect<A: Allocator + Copy>(
    alloc: A,
    words: &Words<A>,
    document: &mut Document<A>,
    text: &[u8],
) -> Result<bool, RunError>
    requires { document.old ≡ [] }
    ensures ok { IfOk result (CollectsAll text.now document.new) }
    ensures err { IfErr result (λ why. why ≡ MemoryEnded) }
{
    let mut at = 0;
    'lines: while let Some(line) = line_at(text, at) {
        match add_line(alloc, words, document, line)? {
            Added::Message => at += line.len() + 1,
            Added::Nothing => return Ok(true),
            Added::Unheld => return Ok(false),
        }
    }
    Ok(true)
}

/// The document of the messages that lines are, up to the first that is malformed, as bytes; or in words why there is none.
pub fn document_of<A: Allocator + Copy>(alloc: A, text: &[u8]) -> Result<Made<A>, RunError>
    ensures ok { IfOk result (IsMade OfXml text.now) }
    ensures err { IfErr result (λ why. why ≡ MemoryEnded) }
{
    let words = standard_words(alloc)?;
    let mut document = Document::new(alloc)?;
    if !collect(alloc, &words, &mut document, text)? {
        return Ok(Made::Lacks(UNHELD));
    }
    match document.finish(&mut LateWords::new()) {
        Ok(made) => Ok(Made::Whole(made.into_bytes())),
        Err(WriteError::OutOfMemory) => Err(RunError::NoMemory),
        Err(_other) => Ok(Made::Lacks(UNREAD)),
    }
}
