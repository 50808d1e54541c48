//! Diagnostics that come in pieces: each line is read back once it is whole, in memory of the longest line's size.

use crate::pieces::{asked_slow, times};
use crate::runs::{Outcome, names_in, repeated};
use kmip_ttlv_memory::BoundedAllocator;
use std::alloc::{AllocError, Allocator, Global};
use std::cell::Cell;
use std::io;
use std::io::{ErrorKind, Read, Write};
use ttlv_run::run::run;
use ttlv_run::{Asked, Memory};

// A diagnostic with the prefix 4200, and its line.
const DIAGNOSTIC: &str = "69[6Ai]\n";

const LINES: &str =
    "Tag: Protocol Version (0x420069), Type: Structure (0x01), Data: \n  Tag: Protocol Version Major (0x42006A), Type: Integer (0x02), Data: <redacted>\n";

// A run over pieces of so many bytes, and how much was written by the second read.
fn back_slow<A: Allocator + Copy>(
    heap: A,
    alloc: Global,
    bytes: &[u8],
    most: usize,
    fails: bool,
) -> Result<(Outcome, usize), AllocError> {
    let names = names_in(alloc)?;
    let asked = Asked::ReadBack { prefix: "4200" };
    Ok(asked_slow(heap, alloc, &names, asked, bytes, most, fails))
}

// Whether the first of two lines, which comes in the first read, is printed before the second read.
fn prints_at_once(alloc: Global) -> Result<bool, AllocError> {
    let all = repeated(alloc, DIAGNOSTIC, 2)?;
    let (outcome, by_second) = back_slow(alloc, alloc, all.as_bytes(), 11, false)?;
    let text = repeated(alloc, LINES, 2)?;
    Ok(outcome.is(0, text.as_str(), "") && by_second == LINES.len())
}

#[test]
fn a_line_is_printed_before_the_next_read(rt: HostRuntime) {
    assert_eq!(rt; prints_at_once(rt.alloc()), Ok(true));
}

// The second of three lines isn't whole: no digits precede `é`, whose bytes come in two pieces or in one.
const MIXED: &str = "69[]\né\n6A[]";

const MIXED_LINES: &str =
    "Tag: Protocol Version (0x420069), Type: Structure (0x01), Data:\nTag: 0x004200\nTag: Protocol Version Major (0x42006A), Type: Structure (0x01), Data:\n";

// Whether lines are read back alike, however they are cut.
fn prints_alike(alloc: Global, most: usize) -> Result<bool, AllocError> {
    let all = repeated(alloc, DIAGNOSTIC, 15)?;
    let (whole, _) = back_slow(alloc, alloc, all.as_bytes(), most, false)?;
    let text = repeated(alloc, LINES, 15)?;
    let (mixed, _) = back_slow(alloc, alloc, MIXED.as_bytes(), most, false)?;
    let line = "capture: byte 5: no whole part of a diagnostic\n";
    Ok(whole.is(0, text.as_str(), "") && mixed.is(1, MIXED_LINES, line))
}

#[test]
fn lines_in_pieces_of_any_length(rt: HostRuntime) {
    for most in 1..161usize {
        assert_eq!(rt; prints_alike(rt.alloc(), most), Ok(true), "{most}");
    }
}

// What comes in pieces of three bytes, whether reading fails behind it, and the status, the output and the line.
type Row = (&'static [u8], bool, u8, &'static str, &'static str);

const FIRST: &str = "Tag: Protocol Version (0x420069), Type: Structure (0x01), Data:\n";

const TWICE: &str =
    "Tag: Protocol Version (0x420069), Type: Structure (0x01), Data:\nTag: Protocol Version (0x420069), Type: Structure (0x01), Data: \n  Tag: Protocol Version Major (0x42006A), Type: Structure (0x01), Data:\n";

const UNREAD: &str = "capture: it can't be read\n";

const NO_TEXT: &str = "capture: it is not UTF-8\n";

const BROKEN: [Row; 10] = [
    // A byte order mark in front of a line isn't part of it.
    (b"\xEF\xBB\xBF69[]\n\xEF\xBB\xBF", false, 0, FIRST, ""),
    (
        b"\xEF\xBB\xBF69[]\n\xEF\xBB\xBF69[6A[]",
        false,
        1,
        TWICE,
        "capture: byte 18: a structure is not closed\n",
    ),
    // Reading fails within a line: those before were printed.
    (b"69[]\n6A[", true, 2, FIRST, UNREAD),
    (b"69[]\n", true, 2, FIRST, UNREAD),
    (b"69[]", true, 2, "", UNREAD),
    // A line is no text: those before were printed, and what comes behind it isn't read.
    (b"69[]\n6A\xC3[]\n6B[]\n", true, 2, FIRST, NO_TEXT),
    (b"69[]\n\xFF", false, 2, FIRST, NO_TEXT),
    // A character is cut by a line feed, or by the input's end.
    (b"69[]\n6A[]\xC3\n\xA9\n", false, 2, FIRST, NO_TEXT),
    (b"69[]\n6A[]\xC3", false, 2, FIRST, NO_TEXT),
    // A line that isn't whole precedes it.
    (b"69[]]\n\xC3(\n", false, 2, FIRST, NO_TEXT),
];

fn breaks_so(alloc: Global, row: Row) -> bool {
    let (bytes, fails, status, text, line) = row;
    match back_slow(alloc, alloc, bytes, 3, fails) {
        Ok((outcome, _)) => outcome.is(status, text, line),
        Err(AllocError) => false,
    }
}

#[test]
fn lines_that_end_early(rt: HostRuntime) {
    for row in BROKEN {
        assert!(rt; breaks_so(rt.alloc(), row), "{row:?}");
    }
}

// Whether so many lines are read back in blocks of at most so many bytes for the input.
fn prints_within(alloc: Global, count: u64, most: usize) -> Result<bool, AllocError> {
    let all = times(alloc, b"69[]\n", count)?;
    let text = times(alloc, FIRST.as_bytes(), count)?;
    let heap = BoundedAllocator::new(alloc, most);
    let (outcome, _) = back_slow(&heap, alloc, all.as_slice(), 70_000, false)?;
    Ok(most < all.len() && outcome.status == 0 && outcome.output.as_slice() == text.as_slice())
}

#[test]
fn lines_are_not_stored(rt: HostRuntime) {
    assert_eq!(rt; prints_within(rt.alloc(), 14_000, 65_536), Ok(true));
}

// The status of reading back three lines of so many bytes, none of them whole, in blocks of at most so many for the input.
fn long_status(alloc: Global, length: usize, most: usize) -> Result<u8, AllocError> {
    let mut line = Vec::new(alloc);
    line.resize(length, b'!')?;
    line.push(b'\n')?;
    let all = times(alloc, line.as_slice(), 3)?;
    let heap = BoundedAllocator::in_blocks(alloc, most);
    let (outcome, _) = back_slow(&heap, alloc, all.as_slice(), 70_000, false)?;
    Ok(outcome.status)
}

#[test]
fn memory_is_that_of_the_longest_line(rt: HostRuntime) {
    let alloc = rt.alloc();
    // 200,001 bytes, and room for a read.
    assert_eq!(rt; long_status(alloc, 200_000, 265_537), Ok(1));
    assert_eq!(rt; long_status(alloc, 200_000, 200_000), Ok(3));
}

// Gives a line a read without an end, and notes how many there were.
#[derive(Drop)]
struct Endless<'a> {
    reads: &'a Cell<u64>,
}

impl Read for Endless<'_> {
    fn read(&mut self, buf: &mut [u8]) -> io::Result<usize> {
        self.reads.set(self.reads.get().wrapping_add(1));
        let mut line: &[u8] = b"69[]\n";
        line.read(buf)
    }
}

// A pipe that no one reads any more.
#[derive(Drop)]
struct Closed;

impl Write for Closed {
    fn write(&mut self, _buf: &[u8]) -> io::Result<usize> {
        Err(io::Error::from(ErrorKind::BrokenPipe))
    }

    fn flush(&mut self) -> io::Result<()> {
        Ok(())
    }
}

// The status of reading back lines without an end into a closed pipe, and after how many reads it ended.
fn closed_status(alloc: Global) -> Result<(u8, u64), AllocError> {
    let names = names_in(alloc)?;
    let asked = Asked::ReadBack { prefix: "4200" };
    let memory = Memory {
        input: alloc,
        rest: alloc,
    };
    let reads = Cell::new(0);
    let mut input = Endless { reads: &reads };
    let mut errors = Vec::new(alloc);
    let status = run(
        memory,
        asked,
        "capture",
        &names,
        &mut input,
        &mut Closed,
        &mut errors,
    );
    Ok((status, reads.get()))
}

#[test]
fn a_closed_pipe_ends_reading(rt: HostRuntime) {
    assert_eq!(rt; closed_status(rt.alloc()), Ok((3, 1)));
}
