//! The calls that print a message as JSON, and read one from JSON.

ghost use Rattle.std.specs.Prelude.{◌≡◌, IfOk, IfErr, string_bytes};
ghost use Rattle.kmip_ttlv_util.specs.CheckedDiagnostics.{ShowsNothing};
ghost use Rattle.kmip_ttlv_c.specs.Buffers.{AnswersText};
ghost use Rattle.kmip_ttlv_c.specs.JsonTexts.{hiding_of, ShowsJson, IsMessageJson, JsonFails, c_member_kind, c_json_kind, c_json_fault, json_status, IsJsonMessage, ReadingJsonFails};

use crate::buffer::offer;
use crate::items::{KmipTtlvFault, fault_of};
use crate::status::{BAD_ARGUMENT, MALFORMED, NOT_UTF8, OUT_OF_MEMORY};
use kmip_ttlv_json::{BadMember, Hiding, JsonError, from_json, push_json};
use kmip_ttlv_names::standard_secrets;
use kmip_ttlv_util::CheckedError;
use std::alloc::Global;
use std::str;

/// No value is hidden.
pub const SHOW_ALL: u32 = 0;

/// The values of secret tags are hidden, and what is in an item with such a tag.
pub const REDACT_SECRETS: u32 = 1;

/// All values are hidden but those of Enumerations.
pub const REDACT_VALUES: u32 = 2;

/// What is hidden, by its number.
fn hiding_of(redact: u32) -> Option<Hiding>
    ensures { result ≡ hiding_of redact }
{
    if redact == SHOW_ALL {
        Some(Hiding::Nothing)
    } else if redact == REDACT_SECRETS {
        Some(Hiding::Secrets)
    } else if redact == REDACT_VALUES {
        Some(Hiding::Values)
    } else {
        None
    }
}

/// The JSON of one whole message, with its line feed.
fn json_line(alloc: Global, hiding: Hiding, bytes: &[u8]) -> Result<String, CheckedError>
    ensures ok { IfOk result (λ r. ShowsJson hiding bytes.now (string_bytes r)) }
    ensures err { IfErr result (λ e. ShowsNothing bytes.now e) }
{
    let Ok(secrets) = standard_secrets(alloc) else {
        return Err(CheckedError::OutOfMemory);
    };
    let mut line = String::new(alloc);
    match push_json(alloc, &mut line, hiding, &secrets, bytes)? {
        None => Ok(line),
        Some(fault) => Err(CheckedError::Malformed(fault)),
    }
}

/// Writes the JSON of one whole message, in one line without a line feed; of other bytes it writes nothing, and sets the
/// first fault.
#[unsafe(no_mangle)]
pub extern "C" fn kmip_ttlv_to_json(
    alloc: Global,
    bytes: &[u8],
    redact: u32,
    out: &mut [u8],
    length: &mut usize,
    fault: &mut KmipTtlvFault,
) -> u32
    ensures { AnswersText (IsMessageJson redact bytes.now fault.new) (JsonFails redact bytes.now fault.new) result length.new out.old out.new }
{
    *length = 0;
    *fault = fault_of(None);
    let Some(hiding) = hiding_of(redact) else {
        return BAD_ARGUMENT;
    };
    let line = match json_line(alloc, hiding, bytes) {
        Ok(line) => line,
        Err(CheckedError::OutOfMemory) => return OUT_OF_MEMORY,
        Err(CheckedError::Malformed(found)) => {
            *fault = fault_of(Some(found));
            return MALFORMED;
        }
    };
    let json = &line.as_bytes()[..line.len() - 1];
    offer(json, out, length)
}

/// The number in C of what is wrong with the JSON of an item; what faults share has the same number, the others follow on.
fn kind_of_member(bad: BadMember) -> u32
    ensures { result ≡ c_member_kind bad }
{
    match bad {
        BadMember::Members => 15,
        BadMember::Tag => 16,
        BadMember::Typ => 3,
        BadMember::Value => 7,
    }
}

/// The same of why a text is not read as a message.
fn kind_of(error: JsonError) -> u32
    ensures { result ≡ c_json_kind error }
{
    match error {
        JsonError::NotJson { .. } => 13,
        JsonError::TooDeep { .. } => 14,
        JsonError::NotItem { bad, .. } => kind_of_member(bad),
        JsonError::NotStructure { .. } => 2,
        JsonError::TooLong { .. } => 12,
        JsonError::OutOfMemory => 0,
    }
}

/// Why a text is not read as a message, in the form for C: no fault if memory ran out.
fn json_fault_of(error: JsonError) -> KmipTtlvFault
    ensures { result ≡ c_json_fault error }
{
    KmipTtlvFault {
        offset: error.offset(),
        kind: kind_of(error),
    }
}

/// The status of that.
fn status_of(error: JsonError) -> u32
    ensures { result ≡ json_status error }
{
    match error {
        JsonError::OutOfMemory => OUT_OF_MEMORY,
        _ => MALFORMED,
    }
}

/// Writes the canonical bytes of the message whose JSON a text is; if it is none, it sets where and why.
#[unsafe(no_mangle)]
pub extern "C" fn kmip_ttlv_from_json(
    alloc: Global,
    text: &[u8],
    out: &mut [u8],
    length: &mut usize,
    fault: &mut KmipTtlvFault,
) -> u32
    ensures { AnswersText (IsJsonMessage text.now fault.new) (ReadingJsonFails text.now fault.new) result length.new out.old out.new }
{
    *length = 0;
    *fault = fault_of(None);
    let Ok(text) = str::from_utf8(text) else {
        return NOT_UTF8;
    };
    match from_json(alloc, text) {
        Ok(message) => offer(message.as_slice(), out, length),
        Err(error) => {
            *fault = json_fault_of(error);
            status_of(error)
        }
    }
}
