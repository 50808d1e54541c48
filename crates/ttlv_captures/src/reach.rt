//! The next offset at which a message is written.

ghost use Rattle.std.specs.Prelude.{◌≤◌, length, IfOk};
ghost use Rattle.ttlv_captures.specs.Attempts.{Reaches};

use crate::attempt::{Written, attempt_here};
use crate::token::behind;
use std::alloc::{AllocError, Allocator};

/// Where a search got to.
#[derive(Drop)]
pub struct Reached<A: Allocator> {
    /// The offset.
    pub offset: usize,
    /// The offset behind the message there, or the same.
    pub behind: usize,
    /// How many characters may still be read in vain.
    pub rest: usize,
    /// The message there; none at the text's end, or where no more may be read.
    pub found: Option<Written<A>>,
}

/// Goes from an offset to the next one at which a message is written, as far as may be read in vain.
pub fn next_offset<A: Allocator + Copy>(
    alloc: A,
    text: &[u8],
    from: usize,
    rest: usize,
) -> Result<Reached<A>, AllocError>
    requires { from ≤ length text.now }
    ensures { IfOk result (λ reached. Reaches text.now from rest reached) }
{
    let mut offset = from;
    let mut left = rest;
    'offsets: while offset < text.len() && 0 < left {
        let found = attempt_here(alloc, behind(text, offset), &mut left)?;
        if let Some(written) = found {
            return Ok(Reached {
                offset,
                behind: offset + written.taken,
                rest: left,
                found: Some(written),
            });
        }
        offset += 1;
    }
    Ok(Reached {
        offset,
        behind: offset,
        rest: left,
        found: None,
    })
}
