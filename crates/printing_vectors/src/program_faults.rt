//! The program when an allocation fails, or when its input, its output or its errors do.

use crate::messages::{VERSION, VERSION_LINES};
use crate::program::{Outcome, PAIR, PAIR_TEXT, Row, run_with, words_of};
use hex_to_txt_run::run::run;
use kmip_ttlv_memory::BoundedAllocator;
use std::alloc::{AllocError, Global};
use std::io;
use std::io::{ErrorKind, Read, Write};

const GROWN: [Row; 5] = [
    ("flat", PAIR, PAIR_TEXT),
    ("text", VERSION, VERSION_LINES),
    ("diag 4200", VERSION, DIAGNOSTIC),
    ("closed 4200", VERSION, DIAGNOSTIC),
    (
        "undiag 4200",
        "69[",
        "Tag: 0x420069, Type: Structure (0x01)\n",
    ),
];

// What `diag 4200` prints of the message.
const DIAGNOSTIC: &str = "69[6Ai6Bi]\n";

// The outcome of a run, or of all runs of a row.
#[derive(Clone, Copy, Debug, PartialEq, Eq)]
enum Answer {
    // The text, and no allocation failed.
    Whole,
    // The text or out of memory, and an allocation failed.
    OutOfMemory,
    // A wrong result when this allocation failed.
    Wrong(u64),
}

// The outcome of a run in which one allocation fails.
fn one_answer(alloc: Global, row: Row, before: u64) -> Answer {
    let (line, input, text) = row;
    let heap = BoundedAllocator::failing_after(alloc, before);
    let Ok(outcome) = run_with(&heap, alloc, line, input.as_bytes()) else {
        return Answer::Wrong(before);
    };
    if heap.has_failed() && (outcome.prints(text) || outcome.returns_error("out of memory\n")) {
        Answer::OutOfMemory
    } else if !heap.has_failed() && outcome.prints(text) {
        Answer::Whole
    } else {
        Answer::Wrong(before)
    }
}

// The outcome of the runs in which each allocation fails in turn.
fn all_answers(alloc: Global, row: Row) -> Answer {
    for before in 0..1000u64 {
        let answer = one_answer(alloc, row, before);
        if answer != Answer::OutOfMemory {
            return answer;
        }
    }
    Answer::OutOfMemory
}

#[test]
fn each_growth_may_fail(rt: HostRuntime) {
    for row in GROWN {
        assert_eq!(rt; all_answers(rt.alloc(), row), Answer::Whole, "{row:?}");
    }
}

// Returns one byte per read, and fails once with this kind.
#[derive(Drop)]
struct Faltering<'a> {
    bytes: &'a [u8],
    before: u64,
    kind: ErrorKind,
}

impl Read for Faltering<'_> {
    fn read(&mut self, buf: &mut [u8]) -> io::Result<usize> {
        let left = self.before;
        self.before = left.wrapping_sub(1);
        if left == 0 {
            return Err(io::Error::from(self.kind));
        }
        let most = buf.len().min(1);
        self.bytes.read(&mut buf[..most])
    }
}

// Takes one byte per write, and fails when full: once with `Interrupted`, otherwise for good.
#[derive(Drop)]
struct Narrow<'a> {
    taken: &'a mut Vec<u8>,
    room: usize,
    kind: ErrorKind,
}

impl Write for Narrow<'_> {
    fn write(&mut self, buf: &[u8]) -> io::Result<usize> {
        if self.room == 0 {
            if self.kind == ErrorKind::Interrupted {
                self.room = usize::MAX;
            }
            return Err(io::Error::from(self.kind));
        }
        self.room -= 1;
        let most = buf.len().min(1);
        self.taken.write(&buf[..most])
    }

    fn flush(&mut self) -> io::Result<()> {
        Ok(())
    }
}

// A run on an input that fails once.
fn run_from(alloc: Global, words: &[String], before: u64, kind: ErrorKind) -> Outcome {
    let mut input = Faltering {
        bytes: VERSION.as_bytes(),
        before,
        kind,
    };
    let mut output = Vec::new(alloc);
    let mut errors = Vec::new(alloc);
    let status = run(alloc, words, &mut input, &mut output, &mut errors);
    Outcome {
        status,
        output,
        errors,
    }
}

// A run to an output that fails.
fn run_to(alloc: Global, words: &[String], room: usize, kind: ErrorKind) -> Outcome {
    let mut input = VERSION.as_bytes();
    let mut taken = Vec::new(alloc);
    let mut output = Narrow {
        taken: &mut taken,
        room,
        kind,
    };
    let mut errors = Vec::new(alloc);
    let status = run(alloc, words, &mut input, &mut output, &mut errors);
    Outcome {
        status,
        output: taken,
        errors,
    }
}

// Whether the diagnostic is printed if the output has room for all of it, and otherwise this many of its bytes.
fn is_beginning(outcome: Outcome, room: usize) -> bool {
    if room == DIAGNOSTIC.len() {
        return outcome.prints(DIAGNOSTIC);
    }
    outcome.status == 1
        && Some(outcome.output.as_slice()) == DIAGNOSTIC.as_bytes().get(..room)
        && outcome.errors.as_slice() == b"cannot write\n".as_slice()
}

#[test]
fn a_failing_input_cannot_be_read(rt: HostRuntime) -> Result<(), AllocError> {
    let words = words_of(rt.alloc(), "diag 4200")?;
    for before in 0..=80u64 {
        let failed = run_from(rt.alloc(), words.as_slice(), before, ErrorKind::BrokenPipe);
        assert!(rt; failed.returns_error("cannot read\n"), "at {before}");
        let again = run_from(rt.alloc(), words.as_slice(), before, ErrorKind::Interrupted);
        assert!(rt; again.prints(DIAGNOSTIC), "at {before}");
    }
    Ok(())
}

#[test]
fn a_failing_output_has_a_beginning(rt: HostRuntime) -> Result<(), AllocError> {
    let words = words_of(rt.alloc(), "diag 4200")?;
    for room in 0..=12 {
        let failed = run_to(rt.alloc(), words.as_slice(), room, ErrorKind::BrokenPipe);
        assert!(rt;
            is_beginning(failed, room.min(DIAGNOSTIC.len())),
            "at {room}"
        );
        let again = run_to(rt.alloc(), words.as_slice(), room, ErrorKind::Interrupted);
        assert!(rt; again.prints(DIAGNOSTIC), "at {room}");
    }
    Ok(())
}

// A run whose input is not hexadecimal, and whose errors have room for three bytes.
fn run_short(alloc: Global, words: &[String]) -> Outcome {
    let mut input: &[u8] = b"zz";
    let mut output = Vec::new(alloc);
    let mut taken = Vec::new(alloc);
    let mut errors = Narrow {
        taken: &mut taken,
        room: 3,
        kind: ErrorKind::BrokenPipe,
    };
    let status = run(alloc, words, &mut input, &mut output, &mut errors);
    Outcome {
        status,
        output,
        errors: taken,
    }
}

#[test]
fn failing_errors_change_no_status(rt: HostRuntime) -> Result<(), AllocError> {
    let words = words_of(rt.alloc(), "diag 4200")?;
    let outcome = run_short(rt.alloc(), words.as_slice());
    assert!(rt; outcome.errors.as_slice() == b"not".as_slice());
    assert!(rt; outcome.output.is_empty());
    assert_eq!(rt; outcome.status, 1);
    Ok(())
}
