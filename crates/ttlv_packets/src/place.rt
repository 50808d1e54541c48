//! The stream of each segment, and its place there, by the sequence numbers of TCP.

ghost use Rattle.std.specs.Prelude.{◌≡◌, ◌<◌, ◌≤◌, ◌+◌, ◌^◌, IfOk, None};
ghost use Rattle.ttlv_packets.specs.Streams.{same_address, same_end, same_flow, continues, moved, advanced, placed_at, places};

use crate::flow::{Address, Endpoint, Flow};
use crate::segment::Segment;
use std::alloc::{AllocError, Allocator};

/// The place of the first byte of a stream: there is as much room in front of it as sequence numbers tell apart.
pub const FIRST: u64 = 4_294_967_296;

/// A segment with its place.
#[derive(Clone, Copy, PartialEq, Eq, PartialOrd, Ord)]
pub struct Placed {
    /// The stream: the offset of its first packet in the capture.
    pub stream: usize,
    /// The place of its first byte.
    pub at: u64,
    /// What it is.
    pub segment: Segment,
}

/// Where the last segment of a stream was placed.
#[derive(Clone, Copy)]
pub struct Cursor {
    pub flow: Flow,
    pub stream: usize,
    /// The sequence number that the stream began with.
    pub first: usize,
    /// That of the last segment, and its place.
    pub sequence: usize,
    pub at: u64,
}

fn same_address(a: Address, b: Address) -> bool
    ensures { result ≡ same_address a b }
{
    a.high == b.high && a.low == b.low
}

fn same_end(a: Endpoint, b: Endpoint) -> bool
    ensures { result ≡ same_end a b }
{
    same_address(a.address, b.address) && a.port == b.port
}

fn same_flow(a: Flow, b: Flow) -> bool
    ensures { result ≡ same_flow a b }
{
    same_end(a.source, b.source) && same_end(a.target, b.target)
}

// Whether a segment is of the same stream: of its flow, and not the beginning of another connection.
fn continues(cursor: Cursor, segment: Segment) -> bool
    ensures { result ≡ continues cursor segment }
{
    same_flow(cursor.flow, segment.flow) && (!segment.opens || segment.sequence == cursor.first)
}

// The place of a sequence number next to that of another: the nearer of the two ways round.
fn moved(at: u64, from: usize, to: usize) -> u64
    ensures { result ≡ moved at from to }
{
    let ahead = (to % 4_294_967_296 + (4_294_967_296 - from % 4_294_967_296)) % 4_294_967_296;
    if ahead < 2_147_483_648 {
        at.saturating_add(ahead as u64)
    } else {
        at.saturating_sub(4_294_967_296 - ahead as u64)
    }
}

// Where a segment is placed behind another.
fn advanced(cursor: Option<Cursor>, segment: Segment) -> Cursor
    ensures { result ≡ advanced cursor segment }
{
    match cursor {
        Some(last) if continues(last, segment) => Cursor {
            flow: last.flow,
            stream: last.stream,
            first: last.first,
            sequence: segment.sequence,
            at: moved(last.at, last.sequence, segment.sequence),
        },
        _ => Cursor {
            flow: segment.flow,
            stream: segment.packet,
            first: segment.sequence,
            sequence: segment.sequence,
            at: FIRST,
        },
    }
}

fn placed_at(cursor: Cursor, segment: Segment) -> Placed
    ensures { result ≡ placed_at cursor segment }
{
    Placed {
        stream: cursor.stream,
        at: cursor.at,
        segment,
    }
}

/// The places of segments, which stand flow by flow, each in the order of the capture.
pub fn places<A: Allocator>(alloc: A, segments: &[Segment]) -> Result<Vec<Placed, A>, AllocError>
    ensures { IfOk result (λ all. all.items ≡ places None segments.now) }
{
    let mut all = Vec::new(alloc);
    let mut cursor = None;
    for segment in segments {
        let here = advanced(cursor, *segment);
        all.push(placed_at(here, *segment))?;
        cursor = Some(here);
    }
    Ok(all)
}
