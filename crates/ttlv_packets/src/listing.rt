//! The packets that tcpdump lists (`-x`, `-X`, `-xx`, `-XX`): rows of digits, indented, each behind the offset of its first byte in its packet.

ghost use Rattle.std.specs.Prelude.{◌≡◌, ◌<◌, ◌≤◌, ◌+◌, ◌++◌, ◌^◌, true, None, IfOk, OnOk, length};
ghost use Rattle.ttlv_packets.specs.Listings.{until, line_of, is_blank, blanks, behind_mark, is_digit, digit, offset_from, offset_of, until_spaces, behind_offset, column_of, pairs};
ghost use Rattle.ttlv_packets.specs.Listings.{carries_tcp, link_of, frame_of, closed, goes_on, with_row, with_line, listed_of, HasLines, AreWithin, settled_end, segments_of, HasListing};

use crate::file::BlockKind;
use crate::internet::transport_in;
use crate::network::network;
use crate::numbers::{behind, byte_at};
use crate::segment::{Frame, Segment};
use crate::walk::{Found, carry};
use std::alloc::{AllocError, Allocator};

/// The packets of a listing.
#[derive(Drop)]
pub struct Listing<A: Allocator> {
    /// The bytes of all packets, one packet behind the other.
    pub bytes: Vec<u8, A>,
    /// The packets in front of the last one.
    pub frames: Vec<Frame, A>,
    /// Where the last one begins among the bytes.
    pub start: usize,
    /// Up to which offset the text was read.
    pub end: usize,
}

// How many bytes of a text stand in front of the first of a value.
fn until(stop: u8, text: &[u8]) -> usize
    ensures is { result ≡ until stop text.now }
    ensures within { result ≤ length text.now }
{
    let mut count = 0;
    for b in text {
        if *b == stop {
            return count;
        }
        count += 1;
    }
    count
}

// A text up to its first line feed.
fn line_of(text: &[u8]) -> &[u8]
    ensures is { result.now ≡ line_of text.now }
    ensures within { length result.now ≤ length text.now }
{
    &text[..until(10, text)]
}

fn is_blank(b: u8) -> bool
    ensures { result ≡ is_blank b }
{
    b == 32 || b == 9
}

// How many blanks a text begins with.
fn blanks(text: &[u8]) -> usize
    ensures is { result ≡ blanks text.now }
    ensures within { result ≤ length text.now }
{
    let mut count = 0;
    for b in text {
        if !is_blank(*b) {
            return count;
        }
        count += 1;
    }
    count
}

// What stands behind the blanks and `0x` that a row begins with; nothing of another line.
fn behind_mark(line: &[u8]) -> &[u8]
    ensures { result.now ≡ behind_mark line.now }
{
    let count = blanks(line);
    if 0 < count && byte_at(line, count) == 48 && byte_at(line, count + 1) == 120 {
        return behind(line, count + 2);
    }
    &[]
}

// Whether a byte is a hexadecimal digit.
fn is_digit(b: u8) -> bool
    ensures { result ≡ is_digit b }
{
    (48 <= b && b <= 57) || (65 <= b && b <= 70) || (97 <= b && b <= 102)
}

// What a digit counts.
fn digit(b: u8) -> u8
    requires { is_digit b ≡ true }
    ensures is { result ≡ digit b }
    ensures small { result < 16 }
{
    if b <= 57 {
        b - 48
    } else if b <= 70 {
        b - 55
    } else {
        b - 87
    }
}

// The number that a text begins with, if a colon is behind it.
fn number_in(text: &[u8]) -> Option<usize>
    ensures { result ≡ offset_from 0 text.now }
{
    let mut number = 0;
    for b in text {
        if *b == 58 {
            return Some(number);
        }
        if !is_digit(*b) || 268_435_456 <= number {
            return None;
        }
        number = 16 * number + digit(*b) as usize;
    }
    None
}

// The offset that a row begins with; none of another line.
fn offset_of(line: &[u8]) -> Option<usize>
    ensures { result ≡ offset_of line.now }
{
    number_in(behind_mark(line))
}

// How many bytes of a text stand in front of two spaces, behind which tcpdump prints characters.
fn until_spaces(text: &[u8]) -> usize
    ensures is { result ≡ until_spaces text.now }
    ensures within { result ≤ length text.now }
{
    let mut count = 0;
    for b in text {
        if *b == 32 && byte_at(text, count + 1) == 32 {
            return count;
        }
        count += 1;
    }
    count
}

// What stands behind the offset of a row.
fn behind_offset(line: &[u8]) -> &[u8]
    ensures { result.now ≡ behind_offset line.now }
{
    let text = behind_mark(line);
    behind(text, until(58, text) + 1)
}

// The digits of a row's bytes.
fn column_of(line: &[u8]) -> &[u8]
    ensures { result.now ≡ column_of line.now }
{
    let text = behind_offset(line);
    let column = &text[blanks(text)..];
    &column[..until_spaces(column)]
}

// Adds the bytes that digits are, two each.
fn push_pairs<A: Allocator>(bytes: &mut Vec<u8, A>, text: &[u8]) -> Result<(), AllocError>
    ensures { OnOk result (bytes.new.items ≡ bytes.old.items ++ pairs None text.now) }
{
    let mut first = None;
    for b in text {
        if !is_digit(*b) {
            continue;
        }
        match first {
            None => first = Some(digit(*b)),
            Some(high) => {
                bytes.push(16 * high + digit(*b))?;
                first = None;
            }
        }
    }
    Ok(())
}

// Whether TCP is found in a packet by a link type.
fn carries_tcp(link: usize, packet: &[u8]) -> bool
    ensures { result ≡ carries_tcp link packet.now }
{
    transport_in(network(link, packet)).is_some()
}

// The link type of a packet: that by which TCP is found, or else raw IP.
#[tactic(auto, unfolding(crate::specs::Listings::link_of))]
fn link_of(packet: &[u8]) -> usize
    ensures { result ≡ link_of packet.now }
{
    if carries_tcp(1, packet) {
        1
    } else if carries_tcp(113, packet) {
        113
    } else if carries_tcp(276, packet) {
        276
    } else {
        101
    }
}

// The packet that bytes from a place on are.
fn frame_of(bytes: &[u8], start: usize) -> Frame
    ensures { result ≡ frame_of bytes.now start }
{
    Frame {
        link: link_of(behind(bytes, start)),
        start,
        size: bytes.len().saturating_sub(start),
        time: None,
    }
}

// Ends the last packet.
fn close<A: Allocator>(listing: &mut Listing<A>) -> Result<(), AllocError>
    ensures frames { OnOk result (listing.new.frames.items ≡ closed (listed_of listing.old)) }
    ensures bytes { listing.new.bytes.items ≡ listing.old.bytes.items }
    ensures start { listing.new.start ≡ listing.old.start }
    ensures end { listing.new.end ≡ listing.old.end }
{
    if listing.start < listing.bytes.len() {
        let frame = frame_of(listing.bytes.as_slice(), listing.start);
        listing.frames.push(frame)?;
    }
    Ok(())
}

// Whether a line is no row, or one that begins a packet, or goes on where the last one ends.
fn goes_on<A: Allocator>(listing: &Listing<A>, line: &[u8]) -> bool
    ensures { result ≡ goes_on (listed_of listing.now) line.now }
{
    match offset_of(line) {
        Some(offset) => {
            offset == 0 || offset == listing.bytes.len().saturating_sub(listing.start)
        }
        None => true,
    }
}

// Adds a row.
fn push_row<A: Allocator>(
    listing: &mut Listing<A>,
    offset: usize,
    column: &[u8],
) -> Result<(), AllocError>
    ensures ok { OnOk result (listed_of listing.new ≡ with_row (listed_of listing.old) offset (pairs None column.now)) }
    ensures end { listing.new.end ≡ listing.old.end }
{
    if offset == 0 {
        close(listing)?;
        listing.start = listing.bytes.len();
    }
    push_pairs(&mut listing.bytes, column)
}

// Adds a line, if it is a row.
fn push_line<A: Allocator>(listing: &mut Listing<A>, line: &[u8]) -> Result<(), AllocError>
    ensures ok { OnOk result (listed_of listing.new ≡ with_line (listed_of listing.old) line.now) }
    ensures end { listing.new.end ≡ listing.old.end }
{
    match offset_of(line) {
        Some(offset) => push_row(listing, offset, column_of(line)),
        None => Ok(()),
    }
}

// The packets of the lines of a text, up to a row that doesn't go on.
fn read_lines<A: Allocator + Copy>(alloc: A, text: &[u8]) -> Result<Listing<A>, AllocError>
    ensures { IfOk result (λ listing. HasLines text.now listing.end (listed_of listing)) }
{
    let mut listing = Listing {
        bytes: Vec::new(alloc),
        frames: Vec::new(alloc),
        start: 0,
        end: 0,
    };
    'lines: while listing.end < text.len() {
        let line = line_of(behind(text, listing.end));
        if !goes_on(&listing, line) {
            return Ok(listing);
        }
        push_line(&mut listing, line)?;
        listing.end = text.len().min(listing.end + line.len() + 1);
    }
    Ok(listing)
}

// The segments of packets on a port.
fn segments_of<A: Allocator>(
    alloc: A,
    bytes: &[u8],
    port: usize,
    frames: &[Frame],
) -> Result<Vec<Segment, A>, AllocError>
    requires { AreWithin (length bytes.now) frames.now }
    ensures { IfOk result (λ segments. segments.items ≡ segments_of bytes.now port frames.now) }
{
    let mut segments = Vec::new(alloc);
    for frame in frames {
        carry(&mut segments, bytes, BlockKind::Packet(*frame), port)?;
    }
    Ok(segments)
}

fn settled_end(frames: &[Frame], end: usize) -> usize
    ensures { result ≡ settled_end frames.now end }
{
    if frames.len() == 0 { 0 } else { end }
}

/// What TCP carries on a port of packets that tcpdump listed as a text: the bytes of the packets, and the segments among them.
pub fn read_listing<A: Allocator + Copy>(
    alloc: A,
    text: &[u8],
    port: usize,
) -> Result<(Vec<u8, A>, Found<A>), AllocError>
    ensures { IfOk result (λ r. HasListing text.now port r.0.items r.1.end r.1.segments.items) }
{
    let mut listing = read_lines(alloc, text)?;
    close(&mut listing)?;
    let Listing {
        bytes,
        frames,
        end,
        ..
    } = listing;
    let segments = segments_of(alloc, bytes.as_slice(), port, frames.as_slice())?;
    let end = settled_end(frames.as_slice(), end);
    Ok((bytes, Found { segments, end }))
}
