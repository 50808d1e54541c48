//! The segments on a port of all packets of a capture.

ghost use Rattle.std.specs.Prelude.{◌≡◌, ◌≤◌, ◌+◌, ◌++◌, IfOk, OnOk, length, drop};
ghost use Rattle.ttlv_packets.specs.Files.{carried, order_behind, interfaces_behind, IsKindWithin, classic_order, classic_digits, classic_interface, HasClassic, HasBlocks, HasSegments, is_capture};

use crate::file::{BlockKind, Interface, block_in, record_in};
use crate::numbers::{be32, behind, number32};
use crate::segment::{Segment, segment_of};
use std::alloc::{AllocError, Allocator};

/// The segments of a capture.
#[derive(Drop)]
pub struct Found<A: Allocator> {
    /// What they are, in the order of the capture.
    pub segments: Vec<Segment, A>,
    /// The offset of the first part that isn't there as a whole; the capture's length if all are.
    pub end: usize,
}

/// What is known at a place of a pcapng.
#[derive(Drop)]
struct Known<A: Allocator> {
    /// Whether numbers have their greatest byte first.
    big: bool,
    /// The interfaces of the section.
    interfaces: Vec<Interface, A>,
}

/// Adds what a part carries.
pub fn carry<A: Allocator>(
    segments: &mut Vec<Segment, A>,
    capture: &[u8],
    kind: BlockKind,
    port: usize,
) -> Result<(), AllocError>
    requires { IsKindWithin 0 (length capture.now) kind }
    ensures { OnOk result (segments.new.items ≡ segments.old.items ++ carried capture.now port kind) }
{
    if let BlockKind::Packet(frame) = kind {
        if let Some(segment) = segment_of(capture, frame, port) {
            segments.push(segment)?;
        }
    }
    Ok(())
}

// Whether bytes begin a pcap, and its numbers have their greatest byte first.
fn classic_order(capture: &[u8]) -> Option<bool>
    ensures { result ≡ classic_order capture.now }
{
    if capture.len() < 24 {
        return None;
    }
    match be32(capture, 0) {
        0xA1B2_C3D4 | 0xA1B2_3C4D => Some(true),
        0xD4C3_B2A1 | 0x4D3C_B2A1 => Some(false),
        _ => None,
    }
}

fn classic_digits(capture: &[u8]) -> usize
    ensures { result ≡ classic_digits capture.now }
{
    match be32(capture, 0) {
        0xA1B2_3C4D | 0x4D3C_B2A1 => 9,
        _ => 6,
    }
}

// Where the packets of a pcap were captured.
fn classic_interface(big: bool, capture: &[u8]) -> Interface
    ensures { result ≡ classic_interface big capture.now }
{
    Interface {
        link: number32(big, capture, 20) % 65536,
        digits: classic_digits(capture),
        snap: 0,
    }
}

// The segments of a pcap.
fn classic<A: Allocator>(
    alloc: A,
    capture: &[u8],
    port: usize,
    big: bool,
) -> Result<Found<A>, AllocError>
    requires { 24 ≤ length capture.now }
    ensures { IfOk result (λ found. HasClassic capture.now port big found.end found.segments.items) }
{
    let interface = classic_interface(big, capture);
    let mut segments = Vec::new(alloc);
    let mut at = 24;
    'records: loop {
        let Some(block) = record_in(big, interface, behind(capture, at), at) else {
            return Ok(Found { segments, end: at });
        };
        carry(&mut segments, capture, block.kind, port)?;
        at += block.size;
    }
}

// What is known behind a block.
fn enter<A: Allocator>(known: &mut Known<A>, kind: BlockKind) -> Result<(), AllocError>
    ensures order { OnOk result (known.new.big ≡ order_behind known.old.big kind) }
    ensures interfaces { OnOk result (known.new.interfaces.items ≡ interfaces_behind known.old.interfaces.items kind) }
{
    match kind {
        BlockKind::Section(big) => {
            known.big = big;
            known.interfaces.clear();
            Ok(())
        }
        BlockKind::Interface(interface) => {
            known.interfaces.push(interface)?;
            Ok(())
        }
        _ => Ok(()),
    }
}

// The segments of a pcapng.
fn blocks<A: Allocator + Copy>(
    alloc: A,
    capture: &[u8],
    port: usize,
) -> Result<Found<A>, AllocError>
    ensures { IfOk result (λ found. HasBlocks capture.now port found.end found.segments.items) }
{
    let mut known = Known {
        big: true,
        interfaces: Vec::new(alloc),
    };
    let mut segments = Vec::new(alloc);
    let mut at = 0;
    'parts: loop {
        let interfaces = known.interfaces.as_slice();
        let Some(block) = block_in(known.big, interfaces, behind(capture, at), at) else {
            return Ok(Found { segments, end: at });
        };
        carry(&mut segments, capture, block.kind, port)?;
        enter(&mut known, block.kind)?;
        at += block.size;
    }
}

/// Whether bytes begin a capture.
pub fn is_capture(bytes: &[u8]) -> bool
    ensures { result ≡ is_capture bytes.now }
{
    classic_order(bytes).is_some() || be32(bytes, 0) == 0x0A0D_0D0A
}

/// The segments on a port of all packets of a capture.
pub fn segments_in<A: Allocator + Copy>(
    alloc: A,
    capture: &[u8],
    port: usize,
) -> Result<Found<A>, AllocError>
    ensures { IfOk result (λ found. HasSegments capture.now port (classic_order capture.now) found.end found.segments.items) }
{
    match classic_order(capture) {
        Some(big) => classic(alloc, capture, port, big),
        None => blocks(alloc, capture, port),
    }
}
