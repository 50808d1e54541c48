//! Captures, written by the descriptions of pcap, pcapng, Ethernet, 802.1Q, IPv4, IPv6 and TCP, and as tcpdump prints them, and what is in
//! them.

use crate::flow::{Address, Endpoint, Flow, Time};
use crate::message::Message;
use crate::packets::read_packets;

// A capture of pcap of one packet, whose frames are packets of IP (101).
const ALONE: [u8; 88] = [
    0xD4, 0xC3, 0xB2, 0xA1, 2, 0, 4, 0, 0, 0, 0, 0, 0, 0, 0, 0, 0xFF, 0xFF, 0, 0, 101, 0, 0, 0,
    // captured at second 1 of 1970, 48 bytes, all of those that were sent
    1, 0, 0, 0, 0, 0, 0, 0, 48, 0, 0, 0, 48, 0, 0, 0,
    // from 192.0.2.1 to 192.0.2.2
    0x45, 0, 0, 48, 0, 0, 0, 0, 64, 6, 0, 0, 192, 0, 2, 1, 192, 0, 2, 2,
    // from port 40000 to port 5696
    0x9C, 0x40, 0x16, 0x40, 0, 0, 0, 1, 0, 0, 0, 0, 0x50, 0x10, 0, 0, 0, 0, 0, 0,
    // a Response Message without content
    0x42, 0, 0x7B, 1, 0, 0, 0, 0,
];

// A capture of pcapng of one packet.
const TAGGED: [u8; 160] = [
    // a section, whose numbers have their least byte first
    0x0A, 0x0D, 0x0D, 0x0A, 0x1C, 0, 0, 0, 0x4D, 0x3C, 0x2B, 0x1A, 1, 0, 0, 0, 0xFF, 0xFF, 0xFF,
    0xFF, 0xFF, 0xFF, 0xFF, 0xFF, 0x1C, 0, 0, 0,
    // an interface: Ethernet, whose times are nanoseconds
    1, 0, 0, 0, 0x20, 0, 0, 0, 1, 0, 0, 0, 0, 0, 0, 0, 9, 0, 1, 0, 9, 0, 0, 0, 0, 0, 0, 0, 0x20, 0,
    0, 0,
    // a packet of it at second 1,258,022,850 and 123,456,789 nanoseconds, 66 bytes
    6, 0, 0, 0, 0x64, 0, 0, 0, 0, 0, 0, 0, 0x1D, 0x65, 0x75, 0x11, 0x15, 0xE1, 0xEE, 0xEC, 0x42, 0,
    0, 0, 0x42, 0, 0, 0,
    // Ethernet, VLAN 5
    0, 0, 0, 0, 0, 0, 0, 0, 0, 0, 0, 0, 0x81, 0, 0, 5, 8, 0,
    // from 192.0.2.1 to 192.0.2.2
    0x45, 0, 0, 0x30, 0, 0, 0, 0, 0x40, 6, 0, 0, 0xC0, 0, 2, 1, 0xC0, 0, 2, 2,
    // from port 40000 to port 5696
    0x9C, 0x40, 0x16, 0x40, 0, 0, 0, 1, 0, 0, 0, 0, 0x50, 0x10, 0, 0, 0, 0, 0, 0,
    // a Request Message without content, and padding
    0x42, 0, 0x78, 1, 0, 0, 0, 0, 0, 0, 0x64, 0, 0, 0,
];

// A capture of pcap with a gap, whose numbers have their greatest byte first.
const LACKING: [u8; 152] = [
    0xA1, 0xB2, 0xC3, 0xD4, 0, 2, 0, 4, 0, 0, 0, 0, 0, 0, 0, 0, 0, 0, 0xFF, 0xFF, 0, 0, 0, 0x65, 0,
    0, 0, 1, 0, 0, 0, 0x0A, 0, 0, 0, 0x30, 0, 0, 0, 0x30, 0x45, 0, 0, 0x30, 0, 0, 0, 0, 0x40, 6, 0,
    0, 0xC0, 0, 2, 1, 0xC0, 0, 2, 2, 0x9C, 0x40, 0x16, 0x40, 0, 0, 0, 1, 0, 0, 0, 0, 0x50, 0x10, 0,
    0, 0, 0, 0, 0, 0x42, 0, 0x78, 1, 0, 0, 0, 0, 0, 0, 0, 2, 0, 0, 0, 0x14, 0, 0, 0, 0x30, 0, 0, 0,
    0x30, 0x45, 0, 0, 0x30, 0, 0, 0, 0, 0x40, 6, 0, 0, 0xC0, 0, 2, 1, 0xC0, 0, 2, 2, 0x9C, 0x40,
    0x16, 0x40, 0, 0, 0, 0x11, 0, 0, 0, 0, 0x50, 0x10, 0, 0, 0, 0, 0, 0, 0x42, 0, 0x78, 1, 0, 0, 0,
    0,
];

// A capture of pcap with times in nanoseconds: a message in two parts, whose sequence numbers pass through zero.
const MIXED: [u8; 342] = [
    0x4D, 0x3C, 0xB2, 0xA1, 2, 0, 4, 0, 0, 0, 0, 0, 0, 0, 0, 0, 0xFF, 0xFF, 0, 0, 0x65, 0, 0, 0,
    // the beginning of a connection
    7, 0, 0, 0, 0, 0, 0, 0, 0x3C, 0, 0, 0, 0x3C, 0, 0, 0, 0x60, 0, 0, 0, 0, 0x14, 6, 0x40, 0x20, 1,
    0x0D, 0xB8, 0, 0, 0, 0, 0, 0, 0, 0, 0, 0, 0, 2, 0x20, 1, 0x0D, 0xB8, 0, 0, 0, 0, 0, 0, 0, 0, 0,
    0, 0, 1, 0x16, 0x40, 0x9C, 0x40, 0xFF, 0xFF, 0xFF, 0xFB, 0, 0, 0, 0, 0x50, 2, 0, 0, 0, 0, 0, 0,
    // the message's other half comes first, at 1 microsecond
    7, 0, 0, 0, 0xE8, 3, 0, 0, 0x40, 0, 0, 0, 0x40, 0, 0, 0, 0x60, 0, 0, 0, 0, 0x18, 6, 0x40, 0x20,
    1, 0x0D, 0xB8, 0, 0, 0, 0, 0, 0, 0, 0, 0, 0, 0, 2, 0x20, 1, 0x0D, 0xB8, 0, 0, 0, 0, 0, 0, 0, 0,
    0, 0, 0, 1, 0x16, 0x40, 0x9C, 0x40, 0, 0, 0, 0, 0, 0, 0, 0, 0x50, 0x10, 0, 0, 0, 0, 0, 0, 0, 0,
    0, 0,
    // its first half, with two bytes more, at 2 microseconds
    7, 0, 0, 0, 0xB7, 0x0B, 0, 0, 0x42, 0, 0, 0, 0x42, 0, 0, 0, 0x60, 0, 0, 0, 0, 0x1A, 6, 0x40,
    0x20, 1, 0x0D, 0xB8, 0, 0, 0, 0, 0, 0, 0, 0, 0, 0, 0, 2, 0x20, 1, 0x0D, 0xB8, 0, 0, 0, 0, 0, 0,
    0, 0, 0, 0, 0, 1, 0x16, 0x40, 0x9C, 0x40, 0xFF, 0xFF, 0xFF, 0xFC, 0, 0, 0, 0, 0x50, 0x10, 0, 0,
    0, 0, 0, 0, 0x42, 0, 0x7B, 1, 0, 0,
    // the other half again
    7, 0, 0, 0, 0xB8, 0x0B, 0, 0, 0x40, 0, 0, 0, 0x40, 0, 0, 0, 0x60, 0, 0, 0, 0, 0x18, 6, 0x40,
    0x20, 1, 0x0D, 0xB8, 0, 0, 0, 0, 0, 0, 0, 0, 0, 0, 0, 2, 0x20, 1, 0x0D, 0xB8, 0, 0, 0, 0, 0, 0,
    0, 0, 0, 0, 0, 1, 0x16, 0x40, 0x9C, 0x40, 0, 0, 0, 0, 0, 0, 0, 0, 0x50, 0x10, 0, 0, 0, 0, 0, 0,
    0, 0, 0, 0,
];

// What `tcpdump -X` prints of the packet of ALONE, behind one of ARP, and `tcpdump -xx` on Ethernet.
const LISTED: &[u8] =
    b"reading from file, link-type RAW\n10:47:29.000000 ARP, Request who-has 192.0.2.2, length 28\n\t0x0000:  0001 0800 0604 0001 5255 0000 0001 c000  ........RU......\n\t0x0010:  0201 0000 0000 0000 c000 0202            ............\n10:47:30.000000 IP 192.0.2.1.40000 > 192.0.2.2.5696: Flags [.], seq 1:9, ack 0, win 0, length 8\n\t0x0000:  4500 0030 0000 0000 4006 0000 c000 0201  E..0....@.......\n\t0x0010:  c000 0202 9c40 1640 0000 0001 0000 0000  .....@.@........\n\t0x0020:  5010 0000 0000 0000 4200 7b01 0000 0000  P.......B.{.....\n";

const LISTED_FRAME: &[u8] =
    b"10:47:30.000000 IP (tos 0x0, ttl 64, id 0, offset 0, flags [none], proto TCP (6), length 48)\n    192.0.2.1.40000 > 192.0.2.2.5696: Flags [.], cksum 0x0000, seq 1:9, ack 0, win 0, length 8\n\t0x0000:  0000 0000 0000 0000 0000 0000 0800 4500\n\t0x0010:  0030 0000 0000 4006 0000 c000 0201 c000\n\t0x0020:  0202 9c40 1640 0000 0001 0000 0000 5010\n\t0x0030:  0000 0000 0000 4200 7b01 0000 0000\n";

// Messages without content.
const REQUEST: [u8; 8] = [0x42, 0, 0x78, 1, 0, 0, 0, 0];

const RESPONSE: [u8; 8] = [0x42, 0, 0x7B, 1, 0, 0, 0, 0];

// From 192.0.2.1 to 192.0.2.2.
const ASKS: Flow = Flow {
    source: Endpoint {
        address: Address {
            high: 0,
            low: 0xFFFF_C000_0201,
        },
        port: 40000,
    },
    target: Endpoint {
        address: Address {
            high: 0,
            low: 0xFFFF_C000_0202,
        },
        port: 5696,
    },
};

// From 2001:db8::2 to 2001:db8::1.
const ANSWERS: Flow = Flow {
    source: Endpoint {
        address: Address {
            high: 0x2001_0DB8_0000_0000,
            low: 2,
        },
        port: 5696,
    },
    target: Endpoint {
        address: Address {
            high: 0x2001_0DB8_0000_0000,
            low: 1,
        },
        port: 40000,
    },
};

// A capture, a port, the bytes and the messages that it has there.
#[derive(Clone, Copy)]
struct Row {
    capture: &'static [u8],
    port: usize,
    bytes: &'static [u8],
    messages: &'static [Message],
}

const ROWS: [Row; 7] = [
    Row {
        capture: &ALONE,
        port: 5696,
        bytes: &RESPONSE,
        messages: &[Message {
            packet: 40,
            start: 0,
            size: 8,
            offset: 0,
            flow: ASKS,
            time: Some(Time {
                seconds: 1,
                micros: 0,
            }),
            gap: false,
        }],
    },
    // Times aren't read.
    Row {
        capture: LISTED,
        port: 5696,
        bytes: &RESPONSE,
        messages: &[Message {
            packet: 28,
            start: 0,
            size: 8,
            offset: 0,
            flow: ASKS,
            time: None,
            gap: false,
        }],
    },
    Row {
        capture: LISTED_FRAME,
        port: 5696,
        bytes: &RESPONSE,
        messages: &[Message {
            packet: 0,
            start: 0,
            size: 8,
            offset: 0,
            flow: ASKS,
            time: None,
            gap: false,
        }],
    },
    // Another port.
    Row {
        capture: &ALONE,
        port: 443,
        bytes: &[],
        messages: &[],
    },
    // Nanoseconds are cut off.
    Row {
        capture: &TAGGED,
        port: 5696,
        bytes: &REQUEST,
        messages: &[Message {
            packet: 88,
            start: 0,
            size: 8,
            offset: 0,
            flow: ASKS,
            time: Some(Time {
                seconds: 1_258_022_850,
                micros: 123_456,
            }),
            gap: false,
        }],
    },
    // What comes behind the gap is not read.
    Row {
        capture: &LACKING,
        port: 5696,
        bytes: &REQUEST,
        messages: &[
            Message {
                packet: 40,
                start: 0,
                size: 8,
                offset: 0,
                flow: ASKS,
                time: Some(Time {
                    seconds: 1,
                    micros: 10,
                }),
                gap: false,
            },
            Message {
                packet: 104,
                start: 8,
                size: 0,
                offset: 8,
                flow: ASKS,
                time: Some(Time {
                    seconds: 2,
                    micros: 20,
                }),
                gap: true,
            },
        ],
    },
    // The last byte first came with the second packet.
    Row {
        capture: &MIXED,
        port: 5696,
        bytes: &RESPONSE,
        messages: &[Message {
            packet: 116,
            start: 0,
            size: 8,
            offset: 0,
            flow: ANSWERS,
            time: Some(Time {
                seconds: 7,
                micros: 1,
            }),
            gap: false,
        }],
    },
];

#[test]
fn captures_are_read(rt: HostRuntime) -> Result<(), std::test::Fail> {
    for row in ROWS {
        let packets = read_packets(rt.alloc(), row.capture, row.port)?;
        assert!(rt; packets.bytes.as_slice() == row.bytes);
        assert!(rt; packets.messages.as_slice() == row.messages);
        assert!(rt; packets.end == row.capture.len());
    }
    Ok(())
}
