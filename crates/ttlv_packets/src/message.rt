//! The messages of a stream, by the length that the header of each states, and the place where its bytes end too early.

ghost use Rattle.std.specs.Prelude.{◌≡◌, ◌<◌, ◌≤◌, ◌+◌, ◌++◌, ◌^◌, IfSome, IfNone, OnOk, length};
ghost use Rattle.ttlv_packets.specs.Messages.{size_in, message_by, gap_of, gaps, Splits};

use crate::flow::{Flow, Time};
use crate::numbers::{be32, behind, byte_at};
use crate::place::{FIRST, Placed};
use crate::stream::{from_giver, lacking};
use std::alloc::{AllocError, Allocator};

/// A message of a stream, or the place from which on bytes of it are missing.
#[derive(Clone, Copy, Debug, PartialEq, Eq, PartialOrd, Ord)]
pub struct Message {
    /// The offset of the packet with its last byte, or of the first packet behind the gap: in the capture, or among the bytes of the packets
    /// that a text lists.
    pub packet: usize,
    /// Where it begins in the bytes of all streams.
    pub start: usize,
    /// How many bytes it has; none where bytes are missing.
    pub size: usize,
    /// How many bytes of the stream stand in front of it.
    pub offset: usize,
    /// Who sends it to whom.
    pub flow: Flow,
    /// When that packet was captured, if that is known.
    pub time: Option<Time>,
    /// Whether bytes of the stream are missing here.
    pub gap: bool,
}

// How many bytes the first message takes: as many as its header states, if they are there and it begins with a Structure; else all.
fn size_in(bytes: &[u8]) -> usize
    ensures is { result ≡ size_in bytes.now }
    ensures within { result ≤ length bytes.now }
    ensures some { 0 < length bytes.now → 0 < result }
{
    if bytes.len() < 8 || byte_at(bytes, 3) != 1 {
        return bytes.len();
    }
    let stated = be32(bytes, 4) + 8;
    if bytes.len() < stated {
        return bytes.len();
    }
    stated
}

// A message whose last byte came with a segment.
fn message_by(giver: Placed, start: usize, offset: usize, size: usize) -> Message
    requires { start + offset < 2 ^ 64 }
    ensures { result ≡ message_by giver start offset size }
{
    Message {
        packet: giver.segment.packet,
        start: start + offset,
        size,
        offset,
        flow: giver.segment.flow,
        time: giver.segment.time,
        gap: false,
    }
}

// The gap in front of a segment.
fn gap_of(behind: Placed, start: usize, offset: usize) -> Message
    requires { start + offset < 2 ^ 64 }
    ensures { result ≡ gap_of behind start offset }
{
    Message {
        packet: behind.segment.packet,
        start: start + offset,
        size: 0,
        offset,
        flow: behind.segment.flow,
        time: behind.segment.time,
        gap: true,
    }
}

/// Adds the messages of a stream's bytes, which begin so far behind those of the streams before.
pub fn split<A: Allocator>(
    messages: &mut Vec<Message, A>,
    bytes: &[u8],
    start: usize,
    run: &[Placed],
) -> Result<(), AllocError>
    requires room { start + length bytes.now < 2 ^ 63 }
    requires some { 0 < length run.now }
    ensures { OnOk result (Splits bytes.now start run.now messages.old.items (length bytes.now) messages.new.items) }
{
    let mut at = 0;
    let mut rest = run;
    'messages: while at < bytes.len() {
        let size = size_in(behind(bytes, at));
        rest = from_giver(rest, FIRST + (at + size - 1) as u64);
        messages.push(message_by(rest[0], start, at, size))?;
        at += size;
    }
    Ok(())
}

/// Adds the gap of a stream, whose bytes end at a place, if there is one.
pub fn note_gap<A: Allocator>(
    messages: &mut Vec<Message, A>,
    end: u64,
    start: usize,
    size: usize,
    run: &[Placed],
) -> Result<(), AllocError>
    requires { start + size < 2 ^ 63 }
    ensures { OnOk result (messages.new.items ≡ messages.old.items ++ gaps end start size run.now) }
{
    if let Some(behind) = lacking(end, run) {
        messages.push(gap_of(behind, start, size))?;
    }
    Ok(())
}
