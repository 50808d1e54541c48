//! A text of XML, printed as the messages that it is.

ghost use Rattle.std.specs.Prelude.{false, IfOk, IfErr};
ghost use Rattle.kmip_ttlv_types.specs.Held.{held, Says};
ghost use Rattle.ttlv_run.specs.Runs.{streams};
ghost use Rattle.ttlv_run.specs.Texts.{names_of};
ghost use Rattle.ttlv_run.specs.XmlTexts.{PrintsItems, SpoilsItems, PrintsText, SpoilsText, RespondsXml, xml_line};

use crate::coding::read_all;
use crate::from_json::send;
use crate::guess::unmarked;
use crate::job::{Names, Strict, Task};
use crate::memory::Memory;
use crate::messages::Reached;
use crate::run::{print_messages, report, report_place, report_words};
use crate::run_error::RunError;
use kmip_ttlv_types::stream::{Sink, Source};
use kmip_ttlv_xml::{XmlError, from_xml};
use std::alloc::Allocator;
use std::str;

/// What is printed of its messages.
const WHOLE: Task<'static> = Task::Whole {
    strict: Strict::Hexadecimal,
};

/// Why a text is not printed as messages.
#[derive(Clone, Copy, Debug, PartialEq, Eq)]
pub enum XmlFault {
    /// It is not the XML of items: where it is wrong, in bytes from the input's first, and why.
    NoXml { offset: usize, error: XmlError },
    /// One of its items is no Structure, and so no message.
    NoMessage,
}

// Prints items, each in hexadecimal in a line of its own, and returns whether each is a message.
fn print_lines<A: Allocator + Copy, W: Sink>(
    alloc: A,
    names: &Names<'_, A>,
    bytes: &[u8],
    output: &mut W,
) -> Result<bool, RunError>
    ensures ok { IfOk result (PrintsItems (names_of names.now) false bytes.now (held W.emitted W.room output.old) (held W.emitted W.room output.new)) }
    ensures err { IfErr result (SpoilsItems (names_of names.now) false bytes.now (held W.emitted W.room output.old) (held W.emitted W.room output.new)) }
{
    match print_messages(alloc, names, WHOLE, 0, bytes, true, output)? {
        Reached::Behind(_) => Ok(true),
        Reached::Fault(_) => Ok(false),
    }
}

// Prints items, and returns whether each is a message, or their bytes are asked for.
fn print_items<A: Allocator + Copy, W: Sink>(
    alloc: A,
    raw: bool,
    names: &Names<'_, A>,
    bytes: &[u8],
    output: &mut W,
) -> Result<bool, RunError>
    ensures ok { IfOk result (PrintsItems (names_of names.now) raw bytes.now (held W.emitted W.room output.old) (held W.emitted W.room output.new)) }
    ensures err { IfErr result (SpoilsItems (names_of names.now) raw bytes.now (held W.emitted W.room output.old) (held W.emitted W.room output.new)) }
{
    if raw {
        send(output, bytes)?;
        return Ok(true);
    }
    print_lines(alloc, names, bytes, output)
}

// Prints the messages that a text is, behind its mark, and gives why it is none.
fn print_text<A: Allocator + Copy, B: Allocator + Copy, W: Sink>(
    memory: Memory<A, B>,
    raw: bool,
    names: &Names<'_, B>,
    text: &str,
    output: &mut W,
) -> Result<Option<XmlFault>, RunError>
    ensures ok { IfOk result (PrintsText (names_of names.now) raw text.now (held W.emitted W.room output.old) (held W.emitted W.room output.new)) }
    ensures err { IfErr result (SpoilsText (names_of names.now) raw text.now (held W.emitted W.room output.old) (held W.emitted W.room output.new)) }
{
    let rest = unmarked(text);
    match from_xml(memory.input, rest) {
        Ok(bytes) => {
            if print_items(memory.rest, raw, names, bytes.as_slice(), output)? {
                return Ok(None);
            }
            Ok(Some(XmlFault::NoMessage))
        }
        Err(XmlError::OutOfMemory) => Err(RunError::NoMemory),
        Err(error) => Ok(Some(XmlFault::NoXml {
            offset: error.offset() + (text.len() - rest.len()),
            error,
        })),
    }
}

/// Prints the messages that an input is the XML of, which is read to its end first, and gives why it is none.
pub(crate) fn read_xml<A: Allocator + Copy, B: Allocator + Copy, R: Source, W: Sink>(
    memory: Memory<A, B>,
    raw: bool,
    names: &Names<'_, B>,
    input: &mut R,
    output: &mut W,
) -> Result<Option<XmlFault>, RunError>
    ensures { RespondsXml (names_of names.now) raw
        (streams R.can_fail (R.left input.old) (R.left input.new) (held W.emitted W.room output.old) (held W.emitted W.room output.new)) result }
{
    let bytes = read_all(memory.input, input)?;
    let Ok(text) = str::from_utf8(bytes.as_slice()) else {
        return Err(RunError::NotUtf8);
    };
    print_text(memory, raw, names, text, output)
}

/// Writes the line that says where a text is no messages' XML and why, as far as it can be written. It takes no memory.
pub(crate) fn report_xml_fault<E: Sink>(errors: &mut E, name: &str, fault: XmlFault)
    ensures { Says (held E.emitted E.room errors.old) (held E.emitted E.room errors.new) (xml_line name.now fault) }
{
    let XmlFault::NoXml { offset, error } = fault else {
        return report_words(
            errors,
            name,
            "an item is no message: the root is no Structure",
        );
    };
    let writable = report_place(errors, name, Some(offset));
    let writable = report(errors, writable, ": ");
    let writable = report(errors, writable, error.words());
    report(errors, writable, "\n");
}
