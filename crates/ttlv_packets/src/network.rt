//! The network packet of a frame, by the link type of the capture.

ghost use Rattle.std.specs.Prelude.{◌≡◌};
ghost use Rattle.ttlv_packets.specs.Frames.{is_tag, is_internet, behind_tag, network_behind, network};

use crate::numbers::{be16, behind};

// Whether an EtherType is that of a VLAN tag.
fn is_tag(kind: usize) -> bool
    ensures { result ≡ is_tag kind }
{
    kind == 0x8100 || kind == 0x88A8 || kind == 0x9100
}

// Whether it is that of IPv4 or of IPv6.
fn is_internet(kind: usize) -> bool
    ensures { result ≡ is_internet kind }
{
    kind == 0x0800 || kind == 0x86DD
}

// A frame from its EtherType on, without a VLAN tag.
fn behind_tag(typed: &[u8]) -> &[u8]
    ensures { result.now ≡ behind_tag typed.now }
{
    if is_tag(be16(typed, 0)) {
        return behind(typed, 4);
    }
    typed
}

// What stands so far behind the EtherType of IP; nothing behind that of anything else.
fn network_behind(typed: &[u8], count: usize) -> &[u8]
    ensures { result.now ≡ network_behind typed.now count }
{
    if is_internet(be16(typed, 0)) {
        return behind(typed, count);
    }
    &[]
}

/// The network packet of a frame, from its first byte on; nothing where the link type is none that is known, or the packet is none of IP.
pub fn network(link: usize, frame: &[u8]) -> &[u8]
    ensures { result.now ≡ network link frame.now }
{
    match link {
        1 => network_behind(behind_tag(behind_tag(behind(frame, 12))), 2),
        113 => network_behind(behind_tag(behind_tag(behind(frame, 14))), 2),
        276 => network_behind(frame, 20),
        0 | 108 => behind(frame, 4),
        101 | 228 | 229 => frame,
        _ => &[],
    }
}
