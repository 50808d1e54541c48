//! The log: a line for each message, which shows no value but those of Enumerations.

ghost use Rattle.std.specs.Prelude.{◌≡◌, ◌++◌, IfOk, OnOk, string_bytes, codes, true};
ghost use Rattle.kmip_ttlv_util.specs.Printers.{closes_empty, prefix_of};
ghost use Rattle.kmip_server.specs.Logs.{IsLine, IsOutline, fault_text, fault_words};

use itoa::Buffer;
use kmip_ttlv_items::{Fault, FaultKind};
use kmip_ttlv_util::{CheckedError, PrettyPrinter};
use std::alloc::{AllocError, Allocator};

// What is wrong, in words.
fn fault_words(kind: FaultKind) -> &'static str
    ensures { result.now ≡ fault_words kind }
{
    match kind {
        FaultKind::Cut => "cut",
        FaultKind::NoStructure => "no structure",
        FaultKind::UnknownType => "unknown type",
        FaultKind::PartialHeader => "partial header",
        FaultKind::WrongLength => "wrong length",
        FaultKind::Overlong => "overlong",
        FaultKind::InvalidValue => "invalid value",
        FaultKind::Surplus => "surplus",
    }
}

// What is said of so many bytes that aren't one whole message.
fn fault_text<A: Allocator + Copy>(
    alloc: A,
    fault: Fault,
    size: usize,
) -> Result<String<A>, AllocError>
    ensures { IfOk result (λ text. string_bytes text ≡ fault_text fault.kind fault.offset size) }
{
    let mut text = fault_words(fault.kind).to_string(alloc)?;
    text.push_str(" at byte ")?;
    text.push_str(Buffer::new().format(fault.offset))?;
    text.push_str(" of ")?;
    text.push_str(Buffer::new().format(size))?;
    Ok(text)
}

// The printer of outlines: without the front that all tags of KMIP have, and with empty structures closed.
fn printer<A: Allocator + Copy>(alloc: A) -> Result<PrettyPrinter<A>, AllocError>
    ensures prefix { IfOk result (λ p. prefix_of p ≡ codes "4200") }
    ensures closed { IfOk result (λ p. closes_empty p ≡ true) }
{
    let prefix = "4200".to_string(alloc)?;
    let mut printer = PrettyPrinter::new(alloc);
    let _ = printer.with_tag_prefix(prefix);
    let _ = printer.with_closed_empty(true);
    Ok(printer)
}

// What is said of bytes.
fn outline<A: Allocator + Copy>(alloc: A, bytes: &[u8]) -> Result<String<A>, AllocError>
    ensures { IfOk result (λ text. IsOutline bytes.now (string_bytes text)) }
{
    let printer = printer(alloc)?;
    match printer.to_diag_checked(bytes) {
        Ok(text) => Ok(text),
        Err(CheckedError::Malformed(fault)) => fault_text(alloc, fault, bytes.len()),
        Err(CheckedError::OutOfMemory) => Err(AllocError),
    }
}

/// A line of the log: who sent these bytes, and what they are. Of one whole message it has the tags, the types, the nesting and the
/// numbers of Enumerations; of any other bytes the first fault, its offset, and how many they are. The only error is out of memory.
pub fn line<A: Allocator + Copy>(alloc: A, who: &str, bytes: &[u8]) -> Result<String<A>, AllocError>
    ensures { IfOk result (λ line. IsLine who.now bytes.now (string_bytes line)) }
{
    let outline = outline(alloc, bytes)?;
    let mut line = who.to_string(alloc)?;
    line.push_str(outline.as_str())?;
    line.push_str("\n")?;
    Ok(line)
}
