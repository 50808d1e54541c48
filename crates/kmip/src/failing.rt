//! What went wrong, in words that show no key, and the status that says so.

ghost use Rattle.std.specs.Prelude.{◌≡◌, ◌++◌, OnOk, codes, string_bytes};
ghost use Rattle.kmip.specs.Failing.{IsOneOf, Tells, version_words};

use crate::escape::push_escaped;
use crate::values::push_named;
use kmip_client::failure::{Failure, Refusal};
use kmip_ttlv_base::error::{Error, ErrorKind, SerdeError};
use std::alloc::{AllocError, Allocator};

/// The status of what a server refuses, and of a response or a file that is no good.
pub const FAILED: u8 = 1;

/// The status of words that the program doesn't have.
pub const USAGE: u8 = 2;

/// The status of what can't go on: memory ran out, or a stream broke.
pub const BROKEN: u8 = 3;

// Tags whose values have names.
const RESULT_REASON: u32 = 0x42_007E;

const RESULT_STATUS: u32 = 0x42_007F;

/// Adds a version of the protocol.
#[tactic(auto, unfolding(crate::specs::Failing::version_words))]
pub fn push_version<A: Allocator>(
    out: &mut String<A>,
    major: i32,
    minor: i32,
) -> Result<(), AllocError>
    ensures { OnOk result (string_bytes out.new ≡ string_bytes out.old ++ version_words major minor) }
{
    write!(out, "{major}.{minor}")
}

// What is said of a response of more than `MOST` bytes.
const TOO_LARGE: &str = "the response has more than 1048576 bytes";

// What is said of a name that is no attribute's from KMIP 2.0 on.
const NO_TAG: &str = "no attribute of KMIP 2.0 has such a name";

// What is said of attributes by tags that don't decode.
const BAD_ATTRIBUTE: &str = "an attribute is not what its tag says";

/// Adds a line that says what went wrong, with what, if it isn't empty.
pub fn push_line<A: Allocator>(
    out: &mut String<A>,
    subject: &str,
    words: &str,
) -> Result<(), AllocError> {
    out.push_str("kmip: ")?;
    if !subject.is_empty() {
        push_escaped(out, subject)?;
        out.push_str(": ")?;
    }
    out.push_str(words)?;
    out.push_str("\n")
}

// Whether a stream broke, or memory ran out.
fn is_broken<A: Allocator>(error: &Error<A>) -> bool {
    matches!(error.kind(), ErrorKind::IoError(_) | ErrorKind::OutOfMemory)
}

// Whether a request names an attribute that has no tag.
fn is_untagged<A: Allocator>(error: &Error<A>) -> bool {
    matches!(
        error.kind(),
        ErrorKind::SerdeError(SerdeError::InvalidTag(_))
    )
}

/// The status that says why there is no answer.
pub fn status_of<A: Allocator>(failure: &Failure<A>) -> u8 {
    match failure {
        Failure::Sending(error) if is_untagged(error) => USAGE,
        Failure::Sending(_) => BROKEN,
        Failure::Receiving(error) if is_broken(error) => BROKEN,
        Failure::BadAttributes(error) if is_broken(error) => BROKEN,
        _ => FAILED,
    }
}

// Adds why a message didn't go or come.
fn push_error<A: Allocator>(
    out: &mut String<A>,
    broken: &str,
    bad: &str,
    error: &Error<A>,
) -> Result<(), AllocError>
    ensures { OnOk result (IsOneOf broken.now bad.now (string_bytes out.old) (string_bytes out.new)) }
{
    match error.kind() {
        ErrorKind::OutOfMemory => out.push_str("out of memory"),
        ErrorKind::IoError(_) => out.push_str(broken),
        ErrorKind::ResponseSizeExceedsLimit(_) => out.push_str(TOO_LARGE),
        _ => out.push_str(bad),
    }
}

// Adds what a server says of what it doesn't do.
fn push_refusal<A: Allocator>(out: &mut String<A>, refusal: &Refusal<A>) -> Result<(), AllocError> {
    push_named(out, RESULT_STATUS, refusal.status.number)?;
    if let Some(reason) = refusal.reason {
        out.push_str(", ")?;
        push_named(out, RESULT_REASON, reason.number)?;
    }
    if let Some(message) = &refusal.message {
        out.push_str(": ")?;
        push_escaped(out, message.as_str())?;
    }
    Ok(())
}

// Adds that a response is of another version.
fn push_other_version<A: Allocator>(
    out: &mut String<A>,
    major: i32,
    minor: i32,
) -> Result<(), AllocError>
    ensures { OnOk result (string_bytes out.new ≡ (string_bytes out.old ++ codes "the response is of KMIP ") ++ version_words major minor) }
{
    out.push_str("the response is of KMIP ")?;
    push_version(out, major, minor)
}

/// Adds why there is no answer. Of a response nothing is shown but the server's own words on why it refuses.
pub fn push_failure<A: Allocator>(
    out: &mut String<A>,
    failure: &Failure<A>,
) -> Result<(), AllocError>
    ensures { OnOk result (Tells failure.now (string_bytes out.old) (string_bytes out.new)) }
{
    match failure {
        Failure::Sending(error) if is_untagged(error) => out.push_str(NO_TAG),
        Failure::Sending(error) => push_error(
            out,
            "the request can't be written",
            "the request can't be encoded",
            error,
        ),
        Failure::Receiving(error) => push_error(
            out,
            "no whole response came",
            "what came is no response",
            error,
        ),
        Failure::Refused(refusal) => push_refusal(out, refusal),
        Failure::Miscounted(_) => out.push_str("the response miscounts its items"),
        Failure::OtherVersion(response) => {
            let version = response.header.version;
            push_other_version(out, version.major, version.minor)
        }
        Failure::Unasked(_) => out.push_str("the response answers something else"),
        Failure::OtherPayload(_) => out.push_str("the response lacks what was asked for"),
        Failure::BadAttributes(error) => push_error(out, BAD_ATTRIBUTE, BAD_ATTRIBUTE, error),
        Failure::NoCommonVersion => out.push_str("the server has none of the versions 1.0 to 2.0"),
    }
}
