//! The bytes of a stream: those of its segments by their places, each taken once, up to the first gap.

ghost use Rattle.std.specs.Prelude.{◌≡◌, ◌<◌, ◌≤◌, ◌+◌, ◌++◌, ℕ, IfOk, length, slice_get};
ghost use Rattle.ttlv_packets.specs.Streams.{end_of, sent_to, new_bytes, stream_bytes, reach, giver, lacking, first_run};

use crate::numbers::{behind, part};
use crate::place::Placed;
use std::alloc::{AllocError, Allocator};

/// The place behind a segment's bytes.
fn end_of(placed: Placed) -> u64
    ensures { result ≡ end_of placed }
{
    placed.at.saturating_add(placed.segment.count as u64)
}

// The place behind those that were sent.
fn sent_to(placed: Placed) -> u64
    ensures { result ≡ sent_to placed }
{
    placed.at.saturating_add(placed.segment.sent as u64)
}

// The bytes of a segment from a place on.
fn new_bytes(capture: &[u8], next: u64, placed: Placed) -> &[u8]
    ensures { result.now ≡ new_bytes capture.now next placed }
{
    let bytes = part(capture, placed.segment.start, placed.segment.count);
    behind(bytes, next.saturating_sub(placed.at) as usize)
}

/// Adds the bytes of a stream's segments, which stand by their places, from a place on; gives the place behind them.
pub fn assemble<A: Allocator>(
    bytes: &mut Vec<u8, A>,
    capture: &[u8],
    first: u64,
    run: &[Placed],
) -> Result<u64, AllocError>
    ensures bytes { IfOk result (λ _. bytes.new.items ≡ bytes.old.items ++ stream_bytes capture.now first run.now) }
    ensures end { IfOk result (λ end. end ≡ reach first run.now) }
{
    let mut next = first;
    for placed in run {
        if next < placed.at {
            return Ok(next);
        }
        bytes.extend_from_slice(new_bytes(capture, next, *placed))?;
        next = next.max(end_of(*placed));
    }
    Ok(next)
}

/// The first segment that was sent with a byte at a place or behind it.
pub fn lacking(end: u64, run: &[Placed]) -> Option<Placed>
    ensures { result ≡ lacking end run.now }
{
    for placed in run {
        if end < sent_to(*placed) {
            return Some(*placed);
        }
    }
    None
}

/// The segments from that on which has the byte at a place.
pub fn from_giver(run: &[Placed], place: u64) -> &[Placed]
    requires { 0 < length run.now }
    ensures some { 0 < length result.now }
    ensures first { slice_get result.now 0 ≡ giver place run.now }
    ensures later { (q : ℕ) → place ≤ q → giver q run.now ≡ giver q result.now }
{
    let mut rest = run;
    'segments: while 1 < rest.len() && end_of(rest[0]) <= place {
        rest = &rest[1..];
    }
    rest
}

/// How many of the first segments are of a stream.
pub fn first_run(stream: usize, places: &[Placed]) -> usize
    ensures is { result ≡ first_run stream places.now }
    ensures within { result ≤ length places.now }
{
    let mut count = 0;
    for placed in places {
        if placed.stream != stream {
            return count;
        }
        count += 1;
    }
    count
}
