//! Values of JSON, one after the other, printed as the messages that they are.

ghost use Rattle.std.specs.Prelude.{◌≡◌, ◌↔◌, ◌+◌, ◌<◌, ◌^◌, false, IsTrue, IfSome, None, IfOk, IfErr, OnOk};
ghost use Rattle.kmip_ttlv_types.specs.Held.{held, Gets, Says};
ghost use Rattle.kmip_ttlv_json.specs.Readings.{error_offset};
ghost use Rattle.ttlv_run.specs.Reasons.{IsOfPrinting, PrintsFront};
ghost use Rattle.ttlv_run.specs.JsonValues.{message_output, IsBlank, Prints, Spoils, PrintsBytes, FailsAt, value_fault, fault_at, bad_line, RespondsJson};
ghost use Rattle.ttlv_run.specs.Runs.{streams};

use crate::back::behind;
use crate::guess::unmarked;
use crate::json_ends::{First, Part, first_value};
use crate::run::{report, report_place, run_error_of};
use crate::run_error::RunError;
use crate::texts::push_hexadecimal;
use crate::window::Window;
use kmip_ttlv_json::{JsonError, from_json};
use kmip_ttlv_types::stream::{Sink, Source};
use kmip_ttlv_util::Pieces;
use std::alloc::Allocator;
use std::str;

/// The first value that is not the JSON of a message.
#[derive(Clone, Copy, Debug, PartialEq, Eq)]
pub struct ValueFault {
    /// Where the value begins, in bytes from the input's first: behind the one before, and a line feed that ends that.
    pub value: usize,
    /// Where it is wrong, likewise.
    pub offset: usize,
    /// What is wrong with it.
    pub error: JsonError,
}

/// Writes bytes to the output.
pub(crate) fn send<W: Sink>(output: &mut W, bytes: &[u8]) -> Result<(), RunError>
    ensures ok { OnOk result (Gets (held W.emitted W.room output.old) (held W.emitted W.room output.new) bytes.now) }
    ensures why { IfErr result IsOfPrinting }
    ensures err { IfErr result (λ why. PrintsFront why (held W.emitted W.room output.old) (held W.emitted W.room output.new) bytes.now) }
{
    match output.send(bytes) {
        Ok(()) => Ok(()),
        Err(e) => Err(run_error_of(&e)),
    }
}

// Writes a message in hexadecimal and a line feed, in pieces.
fn print_hexadecimal<W: Sink>(message: &[u8], output: &mut W) -> Result<(), RunError>
    ensures ok { OnOk result (Gets (held W.emitted W.room output.old) (held W.emitted W.room output.new) (message_output false message.now)) }
    ensures why { IfErr result IsOfPrinting }
    ensures err { IfErr result (λ why. PrintsFront why (held W.emitted W.room output.old) (held W.emitted W.room output.new) (message_output false message.now)) }
{
    let mut pieces = Pieces::new(output);
    let printed = push_hexadecimal(&mut pieces, message);
    match pieces.close(printed) {
        Ok(()) => Ok(()),
        Err(e) => Err(run_error_of(&e)),
    }
}

// Writes what is printed of a message.
fn print_message<W: Sink>(raw: bool, message: &[u8], output: &mut W) -> Result<(), RunError>
    ensures ok { OnOk result (Gets (held W.emitted W.room output.old) (held W.emitted W.room output.new) (message_output raw message.now)) }
    ensures why { IfErr result IsOfPrinting }
    ensures err { IfErr result (λ why. PrintsFront why (held W.emitted W.room output.old) (held W.emitted W.room output.new) (message_output raw message.now)) }
{
    if raw {
        return send(output, message);
    }
    print_hexadecimal(message, output)
}

// Whether a text is white space of JSON alone.
fn is_blank(text: &[u8]) -> bool
    ensures { IsTrue result ↔ IsBlank text.now }
{
    text.iter().all(|b| *b == b' ' || *b == b'\t' || *b == b'\n' || *b == b'\r')
}

// Prints the message that a value is, behind its mark, and gives why it is none, with the offset in the value.
fn print_text<A: Allocator + Copy, W: Sink>(
    heap: A,
    raw: bool,
    value: &str,
    output: &mut W,
) -> Result<Option<JsonError>, RunError>
    ensures ok { IfOk result (Prints raw value.now (held W.emitted W.room output.old) (held W.emitted W.room output.new)) }
    ensures why { IfErr result IsOfPrinting }
    ensures err { IfErr result (λ why. Spoils raw why value.now (held W.emitted W.room output.old) (held W.emitted W.room output.new)) }
{
    let text = unmarked(value);
    if is_blank(text.as_bytes()) {
        return Ok(None);
    }
    match from_json(heap, text) {
        Ok(message) => {
            print_message(raw, message.as_slice(), output)?;
            Ok(None)
        }
        Err(JsonError::OutOfMemory) => Err(RunError::NoMemory),
        Err(error) => Ok(Some(error.moved(value.len() - text.len()))),
    }
}

// Prints the message that the bytes of a value are, and gives why they are none.
fn print_bytes<A: Allocator + Copy, W: Sink>(
    heap: A,
    raw: bool,
    value: &[u8],
    output: &mut W,
) -> Result<Option<JsonError>, RunError>
    ensures ok { IfOk result (PrintsBytes raw value.now (held W.emitted W.room output.old) (held W.emitted W.room output.new)) }
    ensures err { IfErr result (FailsAt raw value.now (held W.emitted W.room output.old) (held W.emitted W.room output.new)) }
{
    let Ok(text) = str::from_utf8(value) else {
        return Err(RunError::NotUtf8);
    };
    print_text(heap, raw, text, output)
}

// The fault of a value that begins at an offset, for this reason.
fn value_fault(value: usize, error: JsonError) -> ValueFault
    requires { value + error_offset error < 2 ^ 64 }
    ensures { result ≡ value_fault value error }
{
    ValueFault {
        value,
        offset: value + error.offset(),
        error,
    }
}

// The fault of such a value, if it has one.
fn fault_at(value: usize, error: Option<JsonError>) -> Option<ValueFault>
    requires { IfSome error (λ e. value + error_offset e < 2 ^ 64) }
    ensures { result ≡ fault_at value error }
{
    match error {
        Some(error) => Some(value_fault(value, error)),
        None => None,
    }
}

/// Prints the messages that the values of an input are, each when it is there, and gives the first value that is none.
pub(crate) fn read_json<A: Allocator + Copy, R: Source, W: Sink>(
    heap: A,
    raw: bool,
    input: &mut R,
    output: &mut W,
) -> Result<Option<ValueFault>, RunError>
    ensures { RespondsJson raw
        (streams R.can_fail (R.left input.old) (R.left input.new) (held W.emitted W.room output.old) (held W.emitted W.room output.new)) result }
{
    let mut window = Window::new(heap);
    let mut base = 0;
    let mut at = 0;
    let mut seen = 0;
    let mut part = Part::Front;
    let mut ended = false;
    'values: loop {
        let buffered = window.buffered();
        if usize::MAX - base < buffered.len() {
            return Err(RunError::NoMemory);
        }
        let rest = behind(buffered, at);
        match first_value(rest, seen, part) {
            First::Whole { value, size } => {
                if let Some(error) = print_bytes(heap, raw, value, output)? {
                    return Ok(Some(value_fault(base + at, error)));
                }
                at += size;
                seen = 0;
                part = Part::Front;
            }
            First::Open { part: reached } => {
                if ended {
                    let error = print_bytes(heap, raw, rest, output)?;
                    return Ok(fault_at(base + at, error));
                }
                seen = rest.len();
                part = reached;
                window.discard(at);
                base += at;
                at = 0;
                ended = window.read_piece(input)? == 0;
            }
        }
    }
}

/// Writes the line that says where a value is no message and why, as far as it can be written. It takes no memory.
pub(crate) fn report_value_fault<E: Sink>(errors: &mut E, name: &str, fault: ValueFault)
    ensures { Says (held E.emitted E.room errors.old) (held E.emitted E.room errors.new) (bad_line name.now fault) }
{
    let writable = report_place(errors, name, Some(fault.offset));
    let writable = report(errors, writable, ": ");
    let writable = report(errors, writable, fault.error.words());
    report(errors, writable, "\n");
}
