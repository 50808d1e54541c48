//! What TCP carries in a frame.

ghost use Rattle.std.specs.Prelude.{◌≡◌, ◌<◌, ◌≤◌, ◌+◌, ◌^◌, IfSome, length};
ghost use Rattle.ttlv_packets.specs.Frames.{is_ours, is_kept, segment_in, segment_of};

use crate::flow::{Endpoint, Flow, Time};
use crate::internet::{Transport, transport_in};
use crate::network::network;
use crate::numbers::{be16, be32, behind, byte_at, part};

/// A frame of a capture.
#[derive(Clone, Copy)]
pub struct Frame {
    /// The link type.
    pub link: usize,
    /// Where it begins in the capture, in bytes.
    pub start: usize,
    /// How many bytes of it are there.
    pub size: usize,
    /// When it was captured, if that is known.
    pub time: Option<Time>,
}

/// The bytes that a frame carries for a stream.
#[derive(Clone, Copy, PartialEq, Eq, PartialOrd, Ord)]
pub struct Segment {
    /// Whose they are.
    pub flow: Flow,
    /// Where the frame begins in the capture.
    pub packet: usize,
    /// The sequence number of the first byte.
    pub sequence: usize,
    /// Whether a connection begins here.
    pub opens: bool,
    /// Where they stand in the capture.
    pub start: usize,
    /// How many are there.
    pub count: usize,
    /// How many were sent.
    pub sent: usize,
    /// When the frame was captured, if that is known.
    pub time: Option<Time>,
}

// Whether a TCP segment is all there up to its bytes, and has the port.
fn is_ours(tcp: &[u8], port: usize) -> bool
    ensures { result ≡ is_ours tcp.now port }
{
    20 <= tcp.len() && 5 <= byte_at(tcp, 12) / 16 && (be16(tcp, 0) == port || be16(tcp, 2) == port)
}

// Whether it carries something: the beginning of a connection, or bytes, and no word on its end.
fn is_kept(flags: usize, sent: usize) -> bool
    ensures { result ≡ is_kept flags sent }
{
    flags / 4 % 2 == 0 && (flags / 2 % 2 == 1 || 0 < sent)
}

// The bytes of a TCP segment that ends with the frame.
fn segment_in(frame: Frame, transport: Transport, tcp: &[u8], port: usize) -> Option<Segment>
    requires { frame.start + frame.size < 2 ^ 64 }
    ensures { result ≡ segment_in frame transport tcp.now port }
{
    if !is_ours(tcp, port) {
        return None;
    }
    let header = 4 * (byte_at(tcp, 12) / 16);
    let flags = byte_at(tcp, 13);
    let bytes = behind(tcp, header);
    let stated = transport.size.saturating_sub(header);
    let sent = if transport.more {
        stated.saturating_add(1)
    } else {
        stated
    };
    if !is_kept(flags, sent) {
        return None;
    }
    Some(Segment {
        flow: Flow {
            source: Endpoint {
                address: transport.source,
                port: be16(tcp, 0),
            },
            target: Endpoint {
                address: transport.target,
                port: be16(tcp, 2),
            },
        },
        packet: frame.start,
        sequence: (be32(tcp, 4) + flags / 2 % 2) % 4_294_967_296,
        opens: flags / 2 % 2 == 1,
        start: (frame.start + frame.size).saturating_sub(bytes.len()),
        count: stated.min(bytes.len()),
        sent,
        time: frame.time,
    })
}

/// What a frame carries on a port, if it is a TCP segment, or the first part of one, with bytes or the beginning of a connection.
pub fn segment_of(capture: &[u8], frame: Frame, port: usize) -> Option<Segment>
    requires { frame.start + frame.size ≤ length capture.now }
    ensures { result ≡ segment_of capture.now frame port }
{
    let packet = network(frame.link, part(capture, frame.start, frame.size));
    let transport = transport_in(packet)?;
    segment_in(frame, transport, behind(packet, transport.header), port)
}
