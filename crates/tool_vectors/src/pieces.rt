//! Input that comes in pieces, raw or in hexadecimal: each message is printed once it is whole, in memory of the longest message's
//! size.

use crate::runs::{Outcome, VERSION_LINES, names_in, repeated};
use kmip_ttlv_memory::BoundedAllocator;
use std::alloc::{AllocError, Allocator, Global};
use std::cell::Cell;
use std::io;
use std::io::{ErrorKind, Read, Write};
use ttlv_run::run::run;
use ttlv_run::{Asked, Encoding, Look, Memory, Names, Task};

const SHOW: Task<'static> = Task::Show { look: Look::PLAIN };

// A version of the protocol, 1.0: two numbers in a structure.
const VERSION: [u8; 40] = [
    0x42, 0x00, 0x69, 0x01, 0, 0, 0, 0x20, 0x42, 0x00, 0x6A, 0x02, 0, 0, 0, 4, 0, 0, 0, 1, 0, 0, 0,
    0, 0x42, 0x00, 0x6B, 0x02, 0, 0, 0, 4, 0, 0, 0, 0, 0, 0, 0, 0,
];

/// Gives so many bytes a read, notes how much was written by the second read, and may fail in place of the input's end.
#[derive(Drop)]
struct Slow<'a> {
    bytes: &'a [u8],
    most: usize,
    fails: bool,
    reads: usize,
    written: &'a Cell<usize>,
    by_second: &'a Cell<usize>,
}

impl Read for Slow<'_> {
    fn read(&mut self, buf: &mut [u8]) -> io::Result<usize> {
        self.reads = self.reads.saturating_add(1);
        if self.reads == 2 {
            self.by_second.set(self.written.get());
        }
        if self.bytes.is_empty() && self.fails {
            return Err(io::Error::from(ErrorKind::Other));
        }
        let most = buf.len().min(self.most);
        self.bytes.read(&mut buf[..most])
    }
}

/// Counts what is written.
#[derive(Drop)]
struct Counted<'a> {
    taken: &'a mut Vec<u8>,
    written: &'a Cell<usize>,
}

impl Write for Counted<'_> {
    fn write(&mut self, buf: &[u8]) -> io::Result<usize> {
        let written = self.taken.write(buf)?;
        self.written.set(self.taken.len());
        Ok(written)
    }

    fn flush(&mut self) -> io::Result<()> {
        Ok(())
    }
}

/// Bytes so many times, one behind the other.
pub fn times(alloc: Global, bytes: &[u8], times: u64) -> Result<Vec<u8>, AllocError> {
    let mut all = Vec::new(alloc);
    for _ in 0..times {
        all.extend_from_slice(bytes)?;
    }
    Ok(all)
}

/// A run over pieces of so many bytes, and how much was written by the second read. The input's memory comes from `heap`.
pub fn asked_slow<A: Allocator + Copy>(
    heap: A,
    alloc: Global,
    names: &Names<'_, Global>,
    asked: Asked<'_>,
    bytes: &[u8],
    most: usize,
    fails: bool,
) -> (Outcome, usize) {
    let memory = Memory {
        input: heap,
        rest: alloc,
    };
    let written = Cell::new(0);
    let by_second = Cell::new(0);
    let mut input = Slow {
        bytes,
        most,
        fails,
        reads: 0,
        written: &written,
        by_second: &by_second,
    };
    let mut output = Vec::new(alloc);
    let mut errors = Vec::new(alloc);
    let mut counted = Counted {
        taken: &mut output,
        written: &written,
    };
    let status = run(
        memory,
        asked,
        "capture",
        names,
        &mut input,
        &mut counted,
        &mut errors,
    );
    let outcome = Outcome {
        status,
        output,
        errors,
    };
    (outcome, by_second.get())
}

/// The same, of a run that prints, with the standard's names.
pub fn run_slow<A: Allocator + Copy>(
    heap: A,
    alloc: Global,
    task: Task<'_>,
    encoding: Encoding,
    bytes: &[u8],
    most: usize,
    fails: bool,
) -> Result<(Outcome, usize), AllocError> {
    let names = names_in(alloc)?;
    let asked = Asked::Print { task, encoding };
    Ok(asked_slow(heap, alloc, &names, asked, bytes, most, fails))
}

// Whether the first of two messages, which comes in the first read, is printed before the second read.
fn prints_at_once(alloc: Global) -> Result<bool, AllocError> {
    let all = times(alloc, &VERSION, 2)?;
    let (outcome, by_second) = run_slow(
        alloc,
        alloc,
        SHOW,
        Encoding::Detected,
        all.as_slice(),
        47,
        false,
    )?;
    let text = repeated(alloc, VERSION_LINES, 2)?;
    Ok(outcome.is(0, text.as_str(), "") && by_second == VERSION_LINES.len())
}

#[test]
fn a_message_is_printed_before_the_next_read(rt: HostRuntime) {
    assert_eq!(rt; prints_at_once(rt.alloc()), Ok(true));
}

// Whether messages are printed alike, however they are cut.
fn prints_alike(alloc: Global, most: usize) -> Result<bool, AllocError> {
    let all = times(alloc, &VERSION, 4)?;
    let (outcome, _) = run_slow(
        alloc,
        alloc,
        SHOW,
        Encoding::Detected,
        all.as_slice(),
        most,
        false,
    )?;
    let text = repeated(alloc, VERSION_LINES, 4)?;
    Ok(outcome.is(0, text.as_str(), ""))
}

#[test]
fn pieces_of_any_length(rt: HostRuntime) {
    for most in 1..161usize {
        assert_eq!(rt; prints_alike(rt.alloc(), most), Ok(true), "{most}");
    }
}

const VERSION_DIGITS: &str =
    "420069010000002042006A0200000004000000010000000042006B02000000040000000000000000\n";

// What comes in pieces of seven bytes, whether reading fails behind it, and the status, the output and the line.
type Row = (&'static [u8], bool, u8, &'static str, &'static str);

const BROKEN: [Row; 5] = [
    // A message is cut.
    (
        &[
            0x42, 0x00, 0x69, 0x01, 0, 0, 0, 0, 0x42, 0x00, 0x6A, 0x01, 0,
        ],
        false,
        1,
        "4200690100000000\n42006A0100\n",
        "capture: byte 8: Protocol Version Major (0x42006A): the input ends within the message\n",
    ),
    // Reading fails in its place: what is whole was printed.
    (
        &[
            0x42, 0x00, 0x69, 0x01, 0, 0, 0, 0, 0x42, 0x00, 0x6A, 0x01, 0,
        ],
        true,
        2,
        "4200690100000000\n",
        "capture: it can't be read\n",
    ),
    // Reading fails before four bytes came.
    (
        &[0x42, 0x00, 0x69],
        true,
        2,
        "",
        "capture: it can't be read\n",
    ),
    // A message is malformed: what comes behind it isn't read, so reading doesn't fail.
    (
        &[
            0x42, 0x00, 0x69, 0x01, 0, 0, 0, 0, 0x42, 0x00, 0x6A, 0x02, 0, 0, 0, 0, 0x42, 0, 0, 0,
            0,
        ],
        true,
        1,
        "4200690100000000\n42006A0200000000\n",
        "capture: byte 8: Protocol Version Major (0x42006A): a message begins with a Structure\n",
    ),
    // A message ends within a header: the bytes of the next message are no part of its tag.
    (
        &[
            0x42, 0x00, 0x69, 0x01, 0, 0, 0, 1, 0x42, 0x42, 0x00, 0x6A, 0x01, 0, 0, 0, 0,
        ],
        false,
        1,
        "420069010000000142\n",
        "capture: byte 8: no tag: the structure around has no room for a header\n",
    ),
];

fn breaks_so(alloc: Global, row: Row) -> bool {
    let (bytes, fails, status, text, line) = row;
    match run_slow(
        alloc,
        alloc,
        Task::Hexadecimal,
        Encoding::Detected,
        bytes,
        7,
        fails,
    ) {
        Ok((outcome, _)) => outcome.is(status, text, line),
        Err(AllocError) => false,
    }
}

#[test]
fn pieces_that_end_early(rt: HostRuntime) {
    for row in BROKEN {
        assert!(rt; breaks_so(rt.alloc(), row), "{row:?}");
    }
}

// Whether so many messages are printed in blocks of at most so many bytes for the input.
fn prints_within(alloc: Global, count: u64, most: usize) -> Result<bool, AllocError> {
    let all = times(alloc, &VERSION, count)?;
    let digits = times(alloc, VERSION_DIGITS.as_bytes(), count)?;
    let heap = BoundedAllocator::new(alloc, most);
    let (outcome, _) = run_slow(
        &heap,
        alloc,
        Task::Hexadecimal,
        Encoding::Detected,
        all.as_slice(),
        70_000,
        false,
    )?;
    Ok(most < all.len() && outcome.status == 0 && outcome.output.as_slice() == digits.as_slice())
}

#[test]
fn an_input_is_not_stored(rt: HostRuntime) {
    assert_eq!(rt; prints_within(rt.alloc(), 5000, 65_536), Ok(true));
}

// One message with a Byte String of this length, a multiple of eight; with so many bytes less at its end.
fn long_message(alloc: Global, length: u32, less: usize) -> Result<Vec<u8>, AllocError> {
    let mut all = Vec::new(alloc);
    all.extend_from_slice(&[0x42, 0x00, 0x69, 0x01])?;
    all.extend_from_slice(&length.wrapping_add(8).to_be_bytes())?;
    all.extend_from_slice(&[0x42, 0x00, 0x43, 0x08])?;
    all.extend_from_slice(&length.to_be_bytes())?;
    all.resize(16 + length as usize, 0)?;
    all.truncate(all.len().saturating_sub(less));
    Ok(all)
}

// The status of checking three of them in blocks of at most so many bytes for the input.
fn long_status(alloc: Global, length: u32, most: usize) -> Result<u8, AllocError> {
    let one = long_message(alloc, length, 0)?;
    let all = times(alloc, one.as_slice(), 3)?;
    let heap = BoundedAllocator::in_blocks(alloc, most);
    let task = Task::Check {
        kmip: false,
        empty: false,
    };
    let (outcome, _) = run_slow(
        &heap,
        alloc,
        task,
        Encoding::Detected,
        all.as_slice(),
        70_000,
        false,
    )?;
    Ok(outcome.status)
}

// The status of checking a short beginning of a message whose header states four gigabytes.
fn claimed_status(alloc: Global, most: usize) -> Result<u8, AllocError> {
    let bytes = [0x42, 0x00, 0x69, 0x01, 0xFF, 0xFF, 0xFF, 0xF0, 0x42];
    let heap = BoundedAllocator::in_blocks(alloc, most);
    let task = Task::Check {
        kmip: false,
        empty: false,
    };
    let (outcome, _) = run_slow(
        &heap,
        alloc,
        task,
        Encoding::Detected,
        bytes.as_slice(),
        70_000,
        false,
    )?;
    Ok(outcome.status)
}

#[test]
fn memory_is_that_of_the_longest_message(rt: HostRuntime) {
    let alloc = rt.alloc();
    // 300,016 bytes, and room for a read.
    assert_eq!(rt; long_status(alloc, 300_000, 365_552), Ok(0));
    assert_eq!(rt; long_status(alloc, 300_000, 300_000), Ok(3));
    assert_eq!(rt; claimed_status(alloc, 65_536), Ok(1));
}
