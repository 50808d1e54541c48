//! Packet captures, written by the descriptions of pcap, pcapng, Ethernet, 802.1Q, IPv4, IPv6 and TCP, and the lines of what is in them.

/// A capture of pcap on Ethernet: both directions of a connection, one of which lacks bytes.
pub const TALK: [u8; 301] = [
    0xD4, 0xC3, 0xB2, 0xA1, 2, 0, 4, 0, 0, 0, 0, 0, 0, 0, 0, 0, 0xFF, 0xFF, 0, 0, 1, 0, 0, 0,
    // a request, 250,000 microseconds behind second 1,258,022,850
    0xC2, 0xE7, 0xFB, 0x4A, 0x90, 0xD0, 3, 0, 0x4E, 0, 0, 0, 0x4E, 0, 0, 0, 0, 0, 0, 0, 0, 0, 0, 0,
    0, 0, 0, 0, 8, 0, 0x45, 0, 0, 0x40, 0, 0, 0, 0, 0x40, 6, 0, 0, 0xC0, 0, 2, 1, 0xC0, 0, 2, 2,
    0x9C, 0x40, 0x16, 0x40, 0, 0, 0, 1, 0, 0, 0, 0, 0x50, 0x10, 0, 0, 0, 0, 0, 0, 0x42, 0, 0x78, 1,
    0, 0, 0, 0x10, 0x42, 0, 0x6A, 2, 0, 0, 0, 4, 0, 0, 0, 1, 0, 0, 0, 0,
    // its response
    0xC2, 0xE7, 0xFB, 0x4A, 0x20, 0xA1, 7, 0, 0x4E, 0, 0, 0, 0x4E, 0, 0, 0, 0, 0, 0, 0, 0, 0, 0, 0,
    0, 0, 0, 0, 8, 0, 0x45, 0, 0, 0x40, 0, 0, 0, 0, 0x40, 6, 0, 0, 0xC0, 0, 2, 2, 0xC0, 0, 2, 1,
    0x16, 0x40, 0x9C, 0x40, 0, 0, 0, 1, 0, 0, 0, 0, 0x50, 0x10, 0, 0, 0, 0, 0, 0, 0x42, 0, 0x7B, 1,
    0, 0, 0, 0x10, 0x42, 0, 0x7F, 5, 0, 0, 0, 4, 0, 0, 0, 0, 0, 0, 0, 0,
    // another request, five bytes of which were not captured
    0xC2, 0xE7, 0xFB, 0x4A, 0xB0, 0x71, 0x0B, 0, 0x49, 0, 0, 0, 0x49, 0, 0, 0, 0, 0, 0, 0, 0, 0, 0,
    0, 0, 0, 0, 0, 8, 0, 0x45, 0, 0, 0x3B, 0, 0, 0, 0, 0x40, 6, 0, 0, 0xC0, 0, 2, 1, 0xC0, 0, 2, 2,
    0x9C, 0x40, 0x16, 0x40, 0, 0, 0, 0x1E, 0, 0, 0, 0, 0x50, 0x10, 0, 0, 0, 0, 0, 0, 0, 0, 0x10,
    0x42, 0, 0x6A, 2, 0, 0, 0, 4, 0, 0, 0, 1, 0, 0, 0, 0,
];

/// A capture of pcapng of one packet.
pub const TAGGED: [u8; 196] = [
    // a section, whose numbers have their greatest byte first
    0x0A, 0x0D, 0x0D, 0x0A, 0, 0, 0, 0x1C, 0x1A, 0x2B, 0x3C, 0x4D, 0, 1, 0, 0, 0xFF, 0xFF, 0xFF,
    0xFF, 0xFF, 0xFF, 0xFF, 0xFF, 0, 0, 0, 0x1C,
    // an interface of Ethernet, whose times are milliseconds
    0, 0, 0, 1, 0, 0, 0, 0x20, 0, 1, 0, 0, 0, 0, 0, 0, 0, 9, 0, 1, 3, 0, 0, 0, 0, 0, 0, 0, 0, 0, 0,
    0x20,
    // a request in VLAN 5 over IPv6, seven milliseconds behind that second
    0, 0, 0, 6, 0, 0, 0, 0x88, 0, 0, 0, 0, 0, 0, 1, 0x24, 0xE8, 1, 0x4D, 0xD7, 0, 0, 0, 0x66, 0, 0,
    0, 0x66, 0, 0, 0, 0, 0, 0, 0, 0, 0, 0, 0, 0, 0x81, 0, 0, 5, 0x86, 0xDD, 0x60, 0, 0, 0, 0, 0x2C,
    6, 0x40, 0x20, 1, 0x0D, 0xB8, 0, 0, 0, 0, 0, 0, 0, 0, 0, 0, 0, 1, 0x20, 1, 0x0D, 0xB8, 0, 0, 0,
    0, 0, 0, 0, 0, 0, 0, 0, 2, 0x9C, 0x40, 0x16, 0x40, 0, 0, 0, 1, 0, 0, 0, 0, 0x50, 0x10, 0, 0, 0,
    0, 0, 0, 0x42, 0, 0x78, 1, 0, 0, 0, 0x10, 0x42, 0, 0x6A, 2, 0, 0, 0, 4, 0, 0, 0, 1, 0, 0, 0, 0,
    0, 0, 0, 0, 0, 0x88,
];

/// What `tcpdump -x` prints of the first capture.
pub const LISTED: &[u8] =
    b"10:47:30.250000 IP 192.0.2.1.40000 > 192.0.2.2.5696: Flags [.], seq 1:25, ack 0, win 0, length 24\n\t0x0000:  4500 0040 0000 0000 4006 0000 c000 0201\n\t0x0010:  c000 0202 9c40 1640 0000 0001 0000 0000\n\t0x0020:  5010 0000 0000 0000 4200 7801 0000 0010\n\t0x0030:  4200 6a02 0000 0004 0000 0001 0000 0000\n10:47:30.500000 IP 192.0.2.2.5696 > 192.0.2.1.40000: Flags [.], seq 1:25, ack 0, win 0, length 24\n\t0x0000:  4500 0040 0000 0000 4006 0000 c000 0202\n\t0x0010:  c000 0201 1640 9c40 0000 0001 0000 0000\n\t0x0020:  5010 0000 0000 0000 4200 7b01 0000 0010\n\t0x0030:  4200 7f05 0000 0004 0000 0000 0000 0000\n10:47:30.750000 IP 192.0.2.1.40000 > 192.0.2.2.5696: Flags [.], seq 30:49, ack 0, win 0, length 19\n\t0x0000:  4500 003b 0000 0000 4006 0000 c000 0201\n\t0x0010:  c000 0202 9c40 1640 0000 001e 0000 0000\n\t0x0020:  5010 0000 0000 0000 0000 1042 006a 0200\n\t0x0030:  0000 0400 0000 0100 0000 00\n";

/// The lines of a request, and of a response.
pub const TALK_LINES: &str =
    "At 2009-11-12T10:47:30Z +250000us 192.0.2.1:40000 > 192.0.2.2:5696\nTag: Request Message (0x420078), Type: Structure (0x01), Data:\n  Tag: Protocol Version Major (0x42006A), Type: Integer (0x02), Data: 0x000001 (1)\nAt 2009-11-12T10:47:30Z +500000us 192.0.2.2:5696 > 192.0.2.1:40000\nTag: Response Message (0x42007B), Type: Structure (0x01), Data:\n  Tag: Result Status (0x42007F), Type: Enumeration (0x05), Data: 0x000000 (0) Success\n";

/// Both in hexadecimal.
pub const TALK_DIGITS: &str =
    "420078010000001042006A02000000040000000100000000\n42007B010000001042007F05000000040000000000000000\n";

/// What is said of the gap.
pub const GAP: &str =
    "capture: 192.0.2.1:40000 > 192.0.2.2:5696: byte 24: bytes are missing from the capture here, and the rest of this direction isn't read\n";

/// The lines of a request whose values are hidden.
pub const TAGGED_LINES: &str =
    "At 2009-11-12T10:47:30Z +7000us [2001:db8:0:0:0:0:0:1]:40000 > [2001:db8:0:0:0:0:0:2]:5696\nTag: Request Message (0x420078), Type: Structure (0x01), Data:\n  Tag: Protocol Version Major (0x42006A), Type: Integer (0x02), Data: <redacted>\n";
