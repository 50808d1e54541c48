//! The program's input: all bytes of a reader, and their decoding.

ghost use Rattle.std.specs.Prelude.{◌≡◌, ◌≤◌, ◌<◌, ◌+◌, length, take, drop, Ok, IfSome, IfNone, IfOk, IfErr, OnOk};
ghost use Rattle.std.specs.Prelude.{OnErr, filter, vec_len};
ghost use Rattle.std.specs.Io.{ReadsAtMost};
ghost use Rattle.std.specs.Io.KnownBytes.{Consumes, IsAtEnd, Keeps};
ghost use Rattle.hex_to_txt_run.specs.Inputs.{TakesAll, is_kept, decoded, IsUnread, IsUndecoded, is_break, CutAtEnd};
ghost use Rattle.hex_to_txt_run.specs.Inputs.{CutText, CutNoText};
ghost use Rattle.hex_to_txt_run.specs.Reasons.{reason_of};

use crate::failure::Failure;
use hex::FromHexError;
use kmip_ttlv::types::Error;
use kmip_ttlv::types::stream::{Source, take_all};
use std::alloc::{AllocError, Allocator};

/// Reads all bytes of a reader, or of memory. Interrupted reads are retried.
pub fn read_all<A: Allocator, S: Source>(alloc: A, input: &mut S) -> Result<Vec<u8, A>, Failure<A>>
    ensures ok { IfOk result (λ all. TakesAll (S.left input.old) (S.left input.new) all.items) }
    ensures err { IfErr result (λ e. IsUnread S.can_fail (reason_of e)) }
{
    match take_all(alloc, input) {
        Ok(bytes) => Ok(bytes),
        Err(Error::OutOfMemory) => Err(Failure::OutOfMemory),
        Err(_) => Err(Failure::UnreadableInput),
    }
}

fn is_kept(b: u8) -> bool
    ensures { result ≡ is_kept b }
{
    !(b == 10 || b == 13 || b == 32 || b == 34 || b == 44)
}

fn same_bytes<A: Allocator>(alloc: A, input: &[u8]) -> Result<Vec<u8, A>, AllocError>
    ensures { IfOk result (λ v. v.items ≡ filter is_kept input.now) }
{
    input.iter().copied().filter(|b| is_kept(*b)).collect(alloc)
}

/// Decodes hexadecimal input, with digits of either case; line feeds, carriage returns, spaces,
/// double quotes and commas are ignored.
pub fn decode<A: Allocator + Copy>(alloc: A, input: &[u8]) -> Result<Vec<u8, A>, Failure<A>>
    ensures ok { IfOk result (λ bytes. decoded input.now ≡ Ok bytes.items) }
    ensures err { IfErr result (λ e. IsUndecoded input.now (reason_of e)) }
{
    let digits = same_bytes(alloc, input)?;
    match hex::decode(alloc, digits.as_slice()) {
        Ok(bytes) => Ok(bytes),
        Err(FromHexError::OutOfMemory) => Err(Failure::OutOfMemory),
        Err(_) => Err(Failure::NotHexadecimal),
    }
}

fn is_break(b: u8) -> bool
    ensures { result ≡ is_break b }
{
    b == 10 || b == 13
}

// The bytes without trailing line feeds and carriage returns.
fn cut_at_end(bytes: &[u8]) -> &[u8]
    ensures { CutAtEnd bytes.now result.now }
{
    let mut end = bytes.len();
    while end > 0 && is_break(bytes[end - 1]) {
        end -= 1;
    }
    &bytes[..end]
}

/// The input as a text, without trailing line feeds and carriage returns; none if that is not
/// UTF-8.
pub fn text_in(input: &[u8]) -> Option<&str>
    ensures some { IfSome result (λ text. CutText input.now text.now) }
    ensures none { IfNone result (CutNoText input.now) }
{
    str::from_utf8(cut_at_end(input)).ok()
}
