//! Where in a text an element begins.

ghost use Rattle.std.specs.Prelude.{◌≡◌, ◌≤◌, length, encode_utf8_all, IfOk, option_map};
ghost use Rattle.std.specs.Str.{chars};
ghost use Rattle.plain_xml.specs.Faults.{Gives};
ghost use Rattle.plain_xml.specs.Marks.{mark_view};
ghost use Rattle.plain_xml.specs.Places.{counted, next_mark, from_element, element_offset};

use crate::failure::Stop;
use crate::mark::{Mark, mark_at};
use crate::reading::{byte_len, characters_of};
use std::alloc::{AllocError, Allocator};

// How many elements are left in front of the one that is looked for, behind a piece, unless this is its start tag.
fn counted<A: Allocator>(left: usize, mark: &Mark<A>) -> Option<usize>
    ensures { result ≡ counted left (mark_view mark.now) }
{
    match mark {
        Mark::Opens(_) => left.checked_sub(1),
        Mark::Passed | Mark::Ends(_) => Some(left),
    }
}

// How many elements are left behind the piece that a text begins with, and what follows it, unless it is the start tag.
#[tactic(auto, unfolding(crate::specs::Places::next_mark))]
fn next_mark<A: Allocator + Copy>(
    alloc: A,
    left: usize,
    text: &[char],
) -> Result<Option<(usize, &[char])>, Stop>
    ensures { Gives (option_map (λ x. (x.0, x.1.now))) result (next_mark left text.now) }
{
    let (mark, rest) = mark_at(alloc, text)?;
    match counted(left, &mark) {
        Some(fewer) => Ok(Some((fewer, rest))),
        None => Ok(None),
    }
}

// What is left of a text from the start tag on that has so many others in front of it.
fn from_element<A: Allocator + Copy>(alloc: A, text: &[char], index: usize) -> Result<&[char], Stop>
    ensures { Gives (λ s. s.now) result (from_element index text.now) }
{
    let mut rest = text;
    let mut left = index;
    'marks: while let [_, ..] = rest {
        let Some((fewer, after)) = next_mark(alloc, left, rest)? else {
            return Ok(rest);
        };
        left = fewer;
        rest = after;
    }
    Ok(rest)
}

// The offset of the element, in bytes, in a text of so many at most.
#[tactic(auto, unfolding(crate::specs::Places::element_offset), using(crate::proofs::Offsets::length_encodes_take))]
fn offset_in<A: Allocator + Copy>(
    alloc: A,
    size: usize,
    text: &[char],
    index: usize,
) -> Result<usize, AllocError>
    requires small { length (encode_utf8_all text.now) ≤ size }
    ensures { IfOk result (λ offset. offset ≡ element_offset index text.now) }
{
    let left = match from_element(alloc, text, index) {
        Ok(rest) => rest.len(),
        Err(Stop::At(_)) => 0,
        Err(Stop::NoMemory) => return Err(AllocError),
    };
    let before = text.len().saturating_sub(left);
    Ok(byte_len(&text[..before]))
}

/// Returns where the start tag begins that has so many others in front of it, in bytes from the text's first: that of the element at this
/// index of those that [`read`](crate::read) returns. If there is none, it returns the text's length.
///
/// The only error is out of memory. It takes memory for four bytes a character, and time in proportion to the text's length.
pub fn element_offset<A: Allocator + Copy>(
    alloc: A,
    text: &str,
    index: usize,
) -> Result<usize, AllocError>
    ensures { IfOk result (λ offset. offset ≡ element_offset index (chars text.now)) }
{
    let characters = characters_of(alloc, text)?;
    offset_in(alloc, text.len(), characters.as_slice(), index)
}
