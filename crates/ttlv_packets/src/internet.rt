//! What a network packet of IP says of the TCP segment in it.

ghost use Rattle.std.specs.Prelude.{◌≡◌, ◌<◌, ◌≤◌, ◌+◌, ◌^◌, IfSome, drop};
ghost use Rattle.ttlv_packets.specs.Frames.{four_address, six_address, four_size, six_size, four, next_header, settled, six, transport_in};

use crate::flow::Address;
use crate::numbers::{be16, be32, be64, behind, byte_at};

/// The TCP segment in a network packet.
#[derive(Clone, Copy)]
pub struct Transport {
    pub source: Address,
    pub target: Address,
    /// How many bytes of the packet stand in front of it.
    pub header: usize,
    /// How many bytes it has, with TCP's own header, as the packet states it.
    pub size: usize,
    /// Whether more bytes of it are in further fragments.
    pub more: bool,
}

/// A place among the headers of IPv6.
#[derive(Clone, Copy)]
pub struct Header {
    /// What stands there.
    pub kind: usize,
    /// How many bytes stand in front of it.
    pub at: usize,
    /// Whether more bytes are in further fragments.
    pub more: bool,
}

fn four_address(packet: &[u8], at: usize) -> Address
    requires { at < 900 }
    ensures { result ≡ four_address packet.now at }
{
    Address {
        high: 0,
        low: 0xFFFF_0000_0000 + be32(packet, at) as u64,
    }
}

fn six_address(packet: &[u8], at: usize) -> Address
    requires { at < 800 }
    ensures { result ≡ six_address packet.now at }
{
    Address {
        high: be64(packet, at),
        low: be64(packet, at + 8),
    }
}

// How many bytes a packet of IPv4 states; all that are there where the network card was to fill that in.
fn four_size(packet: &[u8]) -> usize
    ensures { result ≡ four_size packet.now }
{
    let stated = be16(packet, 2);
    if stated == 0 { packet.len() } else { stated }
}

// The TCP segment, or the first part of it, in a packet of IPv4.
fn four(packet: &[u8]) -> Option<Transport>
    ensures is { result ≡ four packet.now }
    ensures near { IfSome result (λ t. t.header < 131072) }
{
    let words = byte_at(packet, 0) % 16;
    let fragment = be16(packet, 6);
    if words < 5 || byte_at(packet, 9) != 6 || fragment % 8192 != 0 {
        return None;
    }
    Some(Transport {
        source: four_address(packet, 12),
        target: four_address(packet, 16),
        header: 4 * words,
        size: four_size(packet).saturating_sub(4 * words),
        more: fragment / 8192 % 2 == 1,
    })
}

// The header behind one that stands between IPv6 and TCP.
#[tactic(auto, unfolding(crate::specs::Frames::next_header))]
fn next_header(packet: &[u8], header: Header) -> Header
    requires { header.at < 100000 }
    ensures is { result ≡ next_header packet.now header }
    ensures near { result.at ≤ header.at + 2048 }
{
    let rest = behind(packet, header.at);
    let length = byte_at(rest, 1);
    match header.kind {
        0 | 43 | 60 => Header {
            kind: byte_at(rest, 0),
            at: header.at + 8 * length + 8,
            more: header.more,
        },
        51 => Header {
            kind: byte_at(rest, 0),
            at: header.at + 4 * length + 8,
            more: header.more,
        },
        44 if be16(rest, 2) / 8 == 0 => Header {
            kind: byte_at(rest, 0),
            at: header.at + 8,
            more: header.more || be16(rest, 2) % 2 == 1,
        },
        _ => header,
    }
}

// The header behind six that may stand there.
#[tactic(auto, unfolding(crate::specs::Frames::settled))]
fn settled(packet: &[u8]) -> Header
    ensures is { result ≡ settled packet.now }
    ensures near { result.at < 131072 }
{
    let first = Header {
        kind: byte_at(packet, 6),
        at: 40,
        more: false,
    };
    let second = next_header(packet, next_header(packet, first));
    let fourth = next_header(packet, next_header(packet, second));
    next_header(packet, next_header(packet, fourth))
}

// How many bytes a packet of IPv6 states behind its first header; all that are there where the network card was to fill that in.
fn six_size(packet: &[u8]) -> usize
    ensures { result ≡ six_size packet.now }
{
    let stated = be16(packet, 4);
    if stated == 0 {
        return packet.len();
    }
    stated + 40
}

// The TCP segment, or the first part of it, in a packet of IPv6.
fn six(packet: &[u8]) -> Option<Transport>
    ensures is { result ≡ six packet.now }
    ensures near { IfSome result (λ t. t.header < 131072) }
{
    let header = settled(packet);
    if header.kind != 6 {
        return None;
    }
    Some(Transport {
        source: six_address(packet, 8),
        target: six_address(packet, 24),
        header: header.at,
        size: six_size(packet).saturating_sub(header.at),
        more: header.more,
    })
}

/// The TCP segment in a network packet, or the first part of it where the packet is a fragment.
pub fn transport_in(packet: &[u8]) -> Option<Transport>
    ensures is { result ≡ transport_in packet.now }
    ensures near { IfSome result (λ t. t.header < 131072) }
{
    match byte_at(packet, 0) / 16 {
        4 => four(packet),
        6 => six(packet),
        _ => None,
    }
}
