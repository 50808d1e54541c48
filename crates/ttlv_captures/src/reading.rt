//! The bytes that a text begins with in a notation.

ghost use Rattle.std.specs.Prelude.{◌≡◌, ◌≤◌, length, IfOk, vec_len};
ghost use Rattle.ttlv_captures.specs.Notations.{tokens, bytes_of, widths, begins};
ghost use Rattle.ttlv_captures.specs.Captures.{is_start};

use crate::notation::Notation;
use crate::token::{behind, first_token};
use std::alloc::{AllocError, Allocator};

/// The tag and the type of a Request Message.
const REQUEST: [u8; 4] = [0x42, 0x00, 0x78, 0x01];

/// The tag and the type of a Response Message.
const RESPONSE: [u8; 4] = [0x42, 0x00, 0x7B, 0x01];

// Whether a text begins with these bytes.
fn begins(notation: Notation, text: &[u8], bytes: &[u8]) -> bool
    ensures { result ≡ begins notation text.now bytes.now }
{
    let mut at = 0;
    for byte in bytes {
        let Some(token) = first_token(notation, behind(text, at)) else {
            return false;
        };
        if token.byte != *byte {
            return false;
        }
        at += token.width;
    }
    true
}

/// Whether a text begins with the tag and the type of a message.
pub fn is_start(notation: Notation, text: &[u8]) -> bool
    ensures { result ≡ is_start notation text.now }
{
    begins(notation, text, &REQUEST) || begins(notation, text, &RESPONSE)
}

/// Bytes that were read from the front of a text.
#[derive(Drop)]
pub struct Reading<A: Allocator> {
    /// The bytes.
    pub bytes: Vec<u8, A>,
    /// How many characters they take.
    pub taken: usize,
}

/// Reads at most so many bytes from the front of a text, up to where it has no token.
pub fn read<A: Allocator>(
    alloc: A,
    notation: Notation,
    text: &[u8],
    count: usize,
) -> Result<Reading<A>, AllocError>
    ensures bytes { IfOk result (λ r. r.bytes.items ≡ bytes_of (tokens notation count text.now)) }
    ensures taken { IfOk result (λ r. r.taken ≡ widths (tokens notation count text.now)) }
    ensures within { IfOk result (λ r. r.taken ≤ length text.now) }
    ensures onward { IfOk result (λ r. vec_len r.bytes ≤ r.taken) }
{
    let mut bytes = Vec::new(alloc);
    let mut taken = 0;
    let mut left = count;
    'tokens: while 0 < left {
        let Some(token) = first_token(notation, behind(text, taken)) else {
            return Ok(Reading { bytes, taken });
        };
        bytes.push(token.byte)?;
        taken += token.width;
        left -= 1;
    }
    Ok(Reading { bytes, taken })
}
