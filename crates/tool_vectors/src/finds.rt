//! Inputs that are read to their end before anything is printed, as messages are found in them, within anything else or in a packet
//! capture: whole inputs and pieces, readers that fail, and failing allocations. In which notations messages are found, and what
//! captures hold, are rows of `.ci/test-tool`.

use crate::captures::{GAP, LISTED, TALK, TALK_DIGITS};
use crate::pieces::asked_slow;
use crate::runs::{Outcome, no_names, run_asked};
use kmip_ttlv_memory::BoundedAllocator;
use std::alloc::{Allocator, Global};
use ttlv_run::{Asked, Encoding, Look, Task};

const FIND: Asked<'static> = Asked::Find { look: Look::PLAIN };

const DIGITS: Asked<'static> = Asked::Print {
    task: Task::Hexadecimal,
    encoding: Encoding::Detected,
};

/// A request in hexadecimal, and a response in a literal.
const TWO: &[u8] = b"recv 42007801 00000000, then b'B\\x00{\\x01\\x00\\x00\\x00\\x00'\n";

const LINES: &str =
    "byte 5 (hexadecimal):\nTag: 0x420078, Type: Structure (0x01), Data:\nbyte 31 (escaped):\nTag: 0x42007B, Type: Structure (0x01), Data:\n";

// What is asked of an input, the status, what is printed and the lines of errors.
type Row = (
    Asked<'static>,
    &'static [u8],
    u8,
    &'static str,
    &'static str,
);

const ROWS: [Row; 4] = [
    (FIND, TWO, 0, LINES, ""),
    (FIND, b"", 1, "", "capture: no message\n"),
    (DIGITS, &TALK, 1, TALK_DIGITS, GAP),
    (DIGITS, LISTED, 1, TALK_DIGITS, GAP),
];

// A run on an input in memory.
fn found<A: Allocator + Copy>(heap: A, alloc: Global, row: Row) -> Outcome {
    let (asked, input, ..) = row;
    run_asked(heap, alloc, &no_names(heap), asked, input)
}

#[test]
fn messages_are_found(rt: HostRuntime) {
    for row in ROWS {
        let (_, _, status, text, errors) = row;
        assert!(rt;
            found(rt.alloc(), rt.alloc(), row).is(status, text, errors),
            "{row:?}"
        );
    }
}

// Whether it comes to the same in pieces, and nothing is printed where reading fails.
fn found_in_pieces(alloc: Global, row: Row, most: usize) -> bool {
    let (asked, input, status, text, errors) = row;
    let names = no_names(alloc);
    let (outcome, by_second) = asked_slow(alloc, alloc, &names, asked, input, most, false);
    let (failed, _) = asked_slow(alloc, alloc, &names, asked, input, most, true);
    outcome.is(status, text, errors)
        && by_second == 0
        && failed.is(2, "", "capture: it can't be read\n")
}

#[test]
fn messages_in_pieces(rt: HostRuntime) {
    for row in ROWS {
        for most in [1, 7, 51] {
            assert!(rt; found_in_pieces(rt.alloc(), row, most), "{most} {row:?}");
        }
    }
}

// Whether a beginning of the text is printed if allocations fail, each in turn.
fn fails_in_turn(alloc: Global, row: Row) -> bool {
    let (_, _, status, text, errors) = row;
    for before in 0..100u64 {
        let heap = BoundedAllocator::failing_after(alloc, before);
        let outcome = found(&heap, alloc, row);
        if !heap.has_failed() {
            return (text.is_empty() || 4 < before) && outcome.is(status, text, errors);
        }
        if !outcome.begins(3, text, "capture: out of memory\n") {
            return false;
        }
    }
    false
}

#[test]
fn allocations_fail(rt: HostRuntime) {
    for row in ROWS {
        assert!(rt; fails_in_turn(rt.alloc(), row), "{row:?}");
    }
}
