//! The search: from message to message.

ghost use Rattle.std.specs.Prelude.{◌≡◌, ◌≤◌, ◌+◌, length, IfOk};
ghost use Rattle.ttlv_captures.specs.Captures.{costs, limit};

use crate::attempt::Written;
use crate::reach::next_offset;
use std::alloc::{AllocError, Allocator};

/// How many characters may be read in vain for each of a text, and so often [`MORE`] of them.
const TIMES: usize = 16;

/// How many characters may be read in vain however short the text is, divided by [`TIMES`].
const MORE: usize = 1_048_576;

/// A message that was found.
#[derive(Drop)]
pub struct Capture<A: Allocator> {
    /// Where it begins, in characters from the text's first.
    pub offset: usize,
    /// How it is written, and its bytes.
    pub written: Written<A>,
}

/// What a step of a search returns.
#[derive(Drop)]
pub enum Sought<A: Allocator> {
    /// The next message.
    Found(Capture<A>),
    /// That there is none behind those that were found.
    Nothing,
    /// That the search ended at an offset, before which there is no other: too much was read in vain.
    GaveUp(usize),
}

/// A search for the messages in a text, one after the other.
///
/// A message is tried at each offset where the tag and the type of one are written, and read no further than its header states. So that
/// no text costs more than its length allows, all of them together read at most 16 characters in vain for each of the text, and 16 MiB
/// more, and what the last of them reads.
#[derive(Drop)]
pub struct Search<'t> {
    text: &'t [u8],
    offset: usize,
    rest: usize,
    ghost within: { offset ≤ length text.now },
    ghost spent: { limit (length text.now) ≤ rest + costs text.now offset },
}

impl<'t> Search<'t> {
    ghost use Rattle.std.specs.Prelude.{◌≡◌, length, IfOk, OnErr};
    ghost use Rattle.ttlv_captures.specs.Searches.{Seeks};

    /// Creates a search at the first character.
    pub fn new(text: &'t [u8]) -> Search<'t>
        ensures text { result.text.now ≡ text.now }
        ensures offset { result.offset ≡ 0 }
        ensures rest { result.rest ≡ limit (length text.now) }
    {
        Search {
            text,
            offset: 0,
            rest: text.len().saturating_add(MORE).saturating_mul(TIMES),
        }
    }

    /// Returns the next message, behind those that were found before.
    ///
    /// The only error is out of memory; the search then stays where it is.
    pub fn next<A: Allocator + Copy>(&mut self, alloc: A) -> Result<Sought<A>, AllocError>
        ensures text { self.new.text.now ≡ self.old.text.now }
        ensures ok { IfOk result (λ sought. Seeks self.old self.new sought) }
        ensures err { OnErr result (self.new ≡ self.old) }
    {
        let reached = next_offset(alloc, self.text, self.offset, self.rest)?;
        let offset = reached.offset;
        *self = Search {
            text: self.text,
            offset: reached.behind,
            rest: reached.rest,
        };
        match reached.found {
            Some(written) => Ok(Sought::Found(Capture { offset, written })),
            None if offset < self.text.len() => Ok(Sought::GaveUp(offset)),
            None => Ok(Sought::Nothing),
        }
    }
}
