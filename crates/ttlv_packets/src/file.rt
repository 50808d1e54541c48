//! The packets of a capture: pcap of either order of bytes and either resolution, and pcapng.

ghost use Rattle.std.specs.Prelude.{◌≡◌, ◌<◌, ◌≤◌, ◌+◌, ◌^◌, ◌++◌, [], IfOk, IfSome, OnOk, length, drop};
ghost use Rattle.ttlv_packets.specs.Files.{per_second, time_of, packet_of, record_in, decided, resolution, interface_in, enhanced_in, snapped, simple_of, kind_in, order_in, section_of, block_in, IsWithin, IsKindWithin};

use crate::flow::Time;
use crate::numbers::{be32, behind, byte_at, number16, number32, part};
use crate::segment::{Frame, Segment, segment_of};
use std::alloc::{AllocError, Allocator};

/// The units of a second, by how many decimal digits they have behind it.
pub const UNITS: [u64; 10] = [
    1,
    10,
    100,
    1_000,
    10_000,
    100_000,
    1_000_000,
    10_000_000,
    100_000_000,
    1_000_000_000,
];

/// Where packets were captured.
#[derive(Clone, Copy)]
pub struct Interface {
    /// The link type.
    pub link: usize,
    /// How many digits times have behind the second.
    pub digits: usize,
    /// How many bytes of a packet are kept; all if 0.
    pub snap: usize,
}

/// A part of a capture.
#[derive(Clone, Copy)]
pub struct Block {
    /// How many bytes it takes.
    pub size: usize,
    /// What it is.
    pub kind: BlockKind,
}

/// What a part of a capture is.
#[derive(Clone, Copy)]
pub enum BlockKind {
    /// The beginning of a section, whose numbers have their greatest byte first, or not.
    Section(bool),
    /// An interface.
    Interface(Interface),
    /// A packet.
    Packet(Frame),
    /// Anything else.
    Other,
}

// How many units of time a second has; 0 where that isn't known.
fn per_second(digits: usize) -> u64
    ensures is { result ≡ per_second digits }
    ensures small { result ≤ 1000000000 }
{
    if digits < 10 { UNITS[digits] } else { 0 }
}

// The time of so many units since the beginning of 1970.
fn time_of(digits: usize, units: u64) -> Option<Time>
    ensures { result ≡ time_of digits units }
{
    let per = per_second(digits);
    if per == 0 {
        return None;
    }
    Some(Time {
        seconds: units / per,
        micros: units % per * 1_000_000 / per,
    })
}

// A packet of an interface, if there is such an interface.
fn packet_of(interface: Option<Interface>, start: usize, size: usize, units: u64) -> BlockKind
    ensures { result ≡ packet_of interface start size units }
{
    match interface {
        Some(interface) => BlockKind::Packet(Frame {
            link: interface.link,
            start,
            size,
            time: time_of(interface.digits, units),
        }),
        None => BlockKind::Other,
    }
}

// The packet in front of bytes of pcap, which stand at an offset, if all of it is there.
pub fn record_in(big: bool, interface: Interface, rest: &[u8], at: usize) -> Option<Block>
    requires { at + length rest.now < 2 ^ 63 }
    ensures is { result ≡ record_in big interface rest.now at }
    ensures within { IfSome result (IsWithin at (length rest.now)) }
{
    if rest.len() < 16 {
        return None;
    }
    let stated = number32(big, rest, 8);
    if rest.len() < 16 + stated {
        return None;
    }
    let seconds = number32(big, rest, 0) as u64 * per_second(interface.digits);
    Some(Block {
        size: 16 + stated,
        kind: packet_of(
            Some(interface),
            at + 16,
            stated,
            seconds + number32(big, rest, 4) as u64,
        ),
    })
}

// How many digits times have, if the first option says it, or there is none.
fn decided(big: bool, options: &[u8]) -> Option<usize>
    ensures { result ≡ decided big options.now }
{
    let code = number16(big, options, 0);
    if options.len() < 5 || code == 0 {
        return Some(6);
    }
    if code == 9 {
        return Some(byte_at(options, 4).min(10));
    }
    None
}

// How many digits times have by an interface's options, of which 32 are looked at.
fn resolution(big: bool, options: &[u8]) -> usize
    ensures { result ≡ resolution big 32 options.now }
{
    let mut rest = options;
    let mut left = 32usize;
    'options: while 0 < left {
        if let Some(digits) = decided(big, rest) {
            return digits;
        }
        rest = behind(rest, 4 + (number16(big, rest, 2) + 3) / 4 * 4);
        left -= 1;
    }
    6
}

// The interface of a block.
fn interface_in(big: bool, block: &[u8]) -> Interface
    ensures { result ≡ interface_in big block.now }
{
    Interface {
        link: number16(big, block, 8),
        digits: resolution(big, behind(block, 16)),
        snap: number32(big, block, 12),
    }
}

// The packet of a block with its interface and time, at an offset.
fn enhanced_in(big: bool, interfaces: &[Interface], block: &[u8], at: usize) -> BlockKind
    requires { at + length block.now < 2 ^ 63 }
    ensures is { result ≡ enhanced_in big interfaces.now block.now at }
    ensures within { IsKindWithin at (length block.now) result }
{
    let size = number32(big, block, 20);
    if block.len() < size + 32 {
        return BlockKind::Other;
    }
    let units = number32(big, block, 12) as u64 * 4_294_967_296 + number32(big, block, 16) as u64;
    let interface = interfaces.get(number32(big, block, 8)).copied();
    packet_of(interface, at + 28, size, units)
}

// How many bytes of a packet are kept.
fn snapped(interface: Interface, size: usize) -> usize
    ensures is { result ≡ snapped interface size }
    ensures fewer { result ≤ size }
{
    if interface.snap == 0 {
        size
    } else {
        size.min(interface.snap)
    }
}

// The packet of a block without, of the first interface.
fn simple_in(first: Option<Interface>, block: &[u8], at: usize, size: usize) -> BlockKind
    requires at_end { at + length block.now < 2 ^ 63 }
    requires room { 16 ≤ length block.now }
    ensures is { result ≡ simple_of first block.now at size }
    ensures within { IsKindWithin at (length block.now) result }
{
    match first {
        Some(interface) => BlockKind::Packet(Frame {
            link: interface.link,
            start: at + 12,
            size: snapped(interface, size.min(block.len() - 16)),
            time: None,
        }),
        None => BlockKind::Other,
    }
}

// What a block is.
fn kind_in(big: bool, interfaces: &[Interface], block: &[u8], at: usize) -> BlockKind
    requires { at + length block.now < 2 ^ 63 }
    ensures is { result ≡ kind_in big interfaces.now block.now at }
    ensures within { IsKindWithin at (length block.now) result }
{
    let kind = number32(big, block, 0);
    if kind == 1 && 20 <= block.len() {
        return BlockKind::Interface(interface_in(big, block));
    }
    if kind == 6 && 32 <= block.len() {
        return enhanced_in(big, interfaces, block, at);
    }
    if kind == 3 && 16 <= block.len() {
        let first = interfaces.get(0).copied();
        return simple_in(first, block, at, number32(big, block, 8));
    }
    BlockKind::Other
}

// The order of the numbers of a section, by its magic number.
fn order_in(rest: &[u8]) -> Option<bool>
    ensures { result ≡ order_in rest.now }
{
    match be32(rest, 8) {
        0x1A2B_3C4D => Some(true),
        0x4D3C_2B1A => Some(false),
        _ => None,
    }
}

// The beginning of a section, if all of it is there.
fn section_in(rest: &[u8], at: usize) -> Option<Block>
    requires { at + length rest.now < 2 ^ 63 }
    ensures is { result ≡ section_of rest.now (order_in rest.now) }
    ensures within { IfSome result (IsWithin at (length rest.now)) }
{
    let big = order_in(rest)?;
    let size = number32(big, rest, 4);
    if size < 28 || rest.len() < size {
        return None;
    }
    Some(Block {
        size,
        kind: BlockKind::Section(big),
    })
}

// The block in front of bytes of pcapng, which stand at an offset, if all of it is there.
pub fn block_in(big: bool, interfaces: &[Interface], rest: &[u8], at: usize) -> Option<Block>
    requires { at + length rest.now < 2 ^ 63 }
    ensures is { result ≡ block_in big interfaces.now rest.now at }
    ensures within { IfSome result (IsWithin at (length rest.now)) }
{
    if be32(rest, 0) == 0x0A0D_0D0A {
        return section_in(rest, at);
    }
    let size = number32(big, rest, 4);
    if size < 12 || rest.len() < size {
        return None;
    }
    let block = part(rest, 0, size);
    Some(Block {
        size,
        kind: kind_in(big, interfaces, block, at),
    })
}
