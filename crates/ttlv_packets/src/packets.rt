//! The streams on a port of a capture, and the messages in them.

ghost use Rattle.std.specs.Prelude.{◌≡◌, ◌<◌, ◌≤◌, ◌+◌, ◌++◌, IfOk, OnOk, length, []};
ghost use Rattle.ttlv_packets.specs.Files.{is_capture};
ghost use Rattle.ttlv_packets.specs.Captures.{run_at, Carries, Carried, IsPut, IsRead};

use crate::listing::read_listing;
use crate::message::{Message, note_gap, split};
use crate::place::{FIRST, Placed, places};
use crate::stream::{assemble, first_run};
use crate::walk::{Found, is_capture, segments_in};
use std::alloc::{AllocError, Allocator};

/// What TCP carries on a port of a capture.
#[derive(Drop)]
pub struct Packets<A: Allocator> {
    /// The bytes of all streams, one stream behind the other.
    pub bytes: Vec<u8, A>,
    /// The messages in them and the gaps, in the order of the packets that they end with.
    pub messages: Vec<Message, A>,
    /// Up to which offset the capture was read: its length, unless a part of it isn't there as a whole.
    pub end: usize,
}

// The segments of the first stream from an index on.
fn run_at(places: &[Placed], at: usize) -> &[Placed]
    requires { at < length places.now }
    ensures is { result.now ≡ run_at places.now at }
    ensures some { 0 < length result.now }
    ensures within { at + length result.now ≤ length places.now }
{
    let rest = &places[at..];
    &rest[..first_run(rest[0].stream, rest)]
}

// Adds the bytes and the messages of a stream.
fn carry<A: Allocator>(
    packets: &mut Packets<A>,
    capture: &[u8],
    run: &[Placed],
) -> Result<(), AllocError>
    requires { 0 < length run.now }
    ensures carried { OnOk result (Carried capture.now run.now packets.old.bytes.items packets.new.bytes.items packets.old.messages.items packets.new.messages.items) }
    ensures end { packets.new.end ≡ packets.old.end }
{
    let start = packets.bytes.len();
    let end = assemble(&mut packets.bytes, capture, FIRST, run)?;
    let bytes = &packets.bytes.as_slice()[start..];
    split(&mut packets.messages, bytes, start, run)?;
    note_gap(&mut packets.messages, end, start, bytes.len(), run)
}

// Adds the bytes and the messages of all streams, whose segments stand stream by stream, each by their places.
fn carry_all<A: Allocator>(
    packets: &mut Packets<A>,
    capture: &[u8],
    places: &[Placed],
) -> Result<(), AllocError>
    requires bytes { packets.old.bytes.items ≡ [] }
    requires messages { packets.old.messages.items ≡ [] }
    ensures carries { OnOk result (Carries capture.now places.now (length places.now) packets.new.bytes.items packets.new.messages.items) }
    ensures end { packets.new.end ≡ packets.old.end }
{
    let mut at = 0;
    'streams: while at < places.len() {
        let run = run_at(places, at);
        carry(packets, capture, run)?;
        at += run.len();
    }
    Ok(())
}

// Puts the segments together that stand in bytes of a capture, which was read up to an offset.
fn put_together<A: Allocator + Copy>(
    alloc: A,
    source: &[u8],
    mut found: Found<A>,
) -> Result<Packets<A>, AllocError>
    ensures put { IfOk result (λ packets. IsPut source.now found.segments.items packets.bytes.items packets.messages.items) }
    ensures end { IfOk result (λ packets. packets.end ≡ found.end) }
{
    found.segments.sort()?;
    let mut placed = places(alloc, found.segments.as_slice())?;
    placed.sort()?;
    let mut packets = Packets {
        bytes: Vec::new(alloc),
        messages: Vec::new(alloc),
        end: found.end,
    };
    carry_all(&mut packets, source, placed.as_slice())?;
    packets.messages.sort()?;
    Ok(packets)
}

/// What TCP carries on a port of a capture: of pcap or pcapng, or else of the packets that tcpdump lists in a text (`-x`, `-X`, `-xx`, `-XX`).
///
/// It fails only if memory runs out. For a capture of n bytes it takes time in the order of n log n, and memory in the order of n, which
/// is up to some fifty times n where all its messages are empty.
pub fn read_packets<A: Allocator + Copy>(
    alloc: A,
    capture: &[u8],
    port: usize,
) -> Result<Packets<A>, AllocError>
    ensures { IfOk result (λ packets. IsRead capture.now port packets.bytes.items packets.messages.items packets.end) }
{
    if is_capture(capture) {
        let found = segments_in(alloc, capture, port)?;
        return put_together(alloc, capture, found);
    }
    let (bytes, found) = read_listing(alloc, capture, port)?;
    put_together(alloc, bytes.as_slice(), found)
}
