//! Whether a text begins with a message.

ghost use Rattle.std.specs.Prelude.{◌≡◌, ◌≤◌, IfOk};
ghost use Rattle.ttlv_captures.specs.Captures.{size_stated};
ghost use Rattle.ttlv_captures.specs.Attempts.{Attempted, AttemptedIn, AttemptedHere};

use crate::notation::Notation;
use crate::reading::{is_start, read};
use kmip_ttlv_items::find_fault;
use kmip_ttlv_types::places::length_at;
use std::alloc::{AllocError, Allocator};

/// A message that a text begins with.
#[derive(Drop)]
pub struct Written<A: Allocator> {
    /// How it is written.
    pub notation: Notation,
    /// How many characters it takes, with those that may stand between its last byte and a further one.
    pub taken: usize,
    /// Its bytes.
    pub message: Vec<u8, A>,
}

/// What became of a text that was tried.
#[derive(Drop)]
enum Tried<A: Allocator> {
    /// The message.
    Stands(Written<A>),
    /// There is none; so many characters were read.
    Fails(usize),
}

// How many bytes a message takes by its header, as far as that is there.
fn size_stated(header: &[u8]) -> usize
    ensures is { result ≡ size_stated header.now }
    ensures least { 8 ≤ result }
{
    if header.len() < 8 {
        return 8;
    }
    8 + length_at(header, 0) as usize
}

// Tries whether a text begins with a message in a notation.
fn attempt<A: Allocator + Copy>(
    alloc: A,
    notation: Notation,
    text: &[u8],
) -> Result<Tried<A>, AllocError>
    ensures { IfOk result (λ tried. Attempted notation text.now tried) }
{
    if !is_start(notation, text) {
        return Ok(Tried::Fails(0));
    }
    let header = read(alloc, notation, text, 8)?;
    let size = size_stated(header.bytes.as_slice());
    let all = read(alloc, notation, text, size)?;
    if all.bytes.len() < size {
        return Ok(Tried::Fails(all.taken));
    }
    if let Some(_) = find_fault(alloc, all.bytes.as_slice())? {
        return Ok(Tried::Fails(all.taken));
    }
    Ok(Tried::Stands(Written {
        notation,
        taken: all.taken,
        message: all.bytes,
    }))
}

// The same; what is read in vain is taken off the rest of what may be.
fn attempt_in<A: Allocator + Copy>(
    alloc: A,
    notation: Notation,
    text: &[u8],
    rest: &mut usize,
) -> Result<Option<Written<A>>, AllocError>
    ensures { IfOk result (λ written. AttemptedIn notation text.now rest.old rest.new written) }
{
    match attempt(alloc, notation, text)? {
        Tried::Stands(written) => Ok(Some(written)),
        Tried::Fails(read) => {
            *rest = rest.saturating_sub(read);
            Ok(None)
        }
    }
}

/// Tries whether a text begins with a message in any notation. What is read in vain is taken off the rest of what may be.
pub fn attempt_here<A: Allocator + Copy>(
    alloc: A,
    text: &[u8],
    rest: &mut usize,
) -> Result<Option<Written<A>>, AllocError>
    ensures { IfOk result (λ written. AttemptedHere text.now rest.old rest.new written) }
{
    if let Some(written) = attempt_in(alloc, Notation::Raw, text, rest)? {
        return Ok(Some(written));
    }
    if let Some(written) = attempt_in(alloc, Notation::Hexadecimal, text, rest)? {
        return Ok(Some(written));
    }
    if let Some(written) = attempt_in(alloc, Notation::Numbers, text, rest)? {
        return Ok(Some(written));
    }
    if let Some(written) = attempt_in(alloc, Notation::Escaped, text, rest)? {
        return Ok(Some(written));
    }
    Ok(None)
}
