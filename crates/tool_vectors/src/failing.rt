//! Runs in which an allocation, the input, the output or the errors fail.

use crate::jsons::VERSION_JSON;
use crate::runs::{
    HIDDEN_LINES, Outcome, VERSION, VERSION_LINES, back_with, names_in, of, run_with,
};
use kmip_ttlv_memory::BoundedAllocator;
use std::alloc::{AllocError, Global};
use std::io;
use std::io::{ErrorKind, Read, Write};
use ttlv_run::run::run;
use ttlv_run::{Asked, Encoding, Hiding, Look, Task, Values};

const SHOW: Task<'static> = Task::Show { look: Look::PLAIN };

// A task and what it prints of the version's message.
const GROWN: [(Task<'static>, &str); 6] = [
    (SHOW, VERSION_LINES),
    (
        Task::Show {
            look: Look {
                values: Values::Hidden,
                ..Look::PLAIN
            },
        },
        HIDDEN_LINES,
    ),
    (
        Task::Diagnose {
            closed: true,
            prefix: "4200",
        },
        "69[6Ai6Bi]\n",
    ),
    (
        Task::Hexadecimal,
        "420069010000002042006A0200000004000000010000000042006B02000000040000000000000000\n",
    ),
    (
        Task::Json {
            hiding: Hiding::Nothing,
            named: false,
        },
        VERSION_JSON,
    ),
    (
        Task::Check {
            kmip: false,
            empty: false,
        },
        "",
    ),
];

// The outcome of a run, or of all runs of a row.
#[derive(Clone, Copy, Debug, PartialEq, Eq)]
enum Answer {
    // The text, and no allocation failed.
    Whole,
    // The text, or a beginning of it and out of memory; and an allocation failed.
    OutOfMemory,
    // A wrong result when this allocation failed.
    Wrong(u64),
}

const NO_MEMORY: &str = "capture: out of memory\n";

fn answer_of(outcome: &Outcome, text: &str, refused: bool, before: u64) -> Answer {
    let whole = outcome.is(0, text, "");
    if refused && (whole || outcome.begins(3, text, NO_MEMORY)) {
        Answer::OutOfMemory
    } else if whole && !refused {
        Answer::Whole
    } else {
        Answer::Wrong(before)
    }
}

// The outcome of a run in which one allocation fails, possibly while the names are built.
fn one_answer(alloc: Global, task: Task<'_>, text: &str, before: u64) -> Answer {
    let heap = BoundedAllocator::failing_after(alloc, before);
    match run_with(&heap, alloc, task, Encoding::Detected, VERSION.as_bytes()) {
        Ok(outcome) => answer_of(&outcome, text, heap.has_failed(), before),
        Err(AllocError) if heap.has_failed() => Answer::OutOfMemory,
        Err(AllocError) => Answer::Wrong(before),
    }
}

fn one_back(alloc: Global, before: u64) -> Answer {
    let heap = BoundedAllocator::failing_after(alloc, before);
    let text = "Tag: Protocol Version (0x420069), Type: Structure (0x01), Data:\n";
    match back_with(&heap, alloc, "4200", b"69[]") {
        Ok(outcome) => answer_of(&outcome, text, heap.has_failed(), before),
        Err(AllocError) if heap.has_failed() => Answer::OutOfMemory,
        Err(AllocError) => Answer::Wrong(before),
    }
}

fn all_answers(alloc: Global, task: Task<'_>, text: &str) -> Answer {
    for before in 0..200u64 {
        let answer = one_answer(alloc, task, text, before);
        if answer != Answer::OutOfMemory {
            return answer;
        }
    }
    Answer::OutOfMemory
}

fn all_backs(alloc: Global) -> Answer {
    for before in 0..200u64 {
        let answer = one_back(alloc, before);
        if answer != Answer::OutOfMemory {
            return answer;
        }
    }
    Answer::OutOfMemory
}

#[test]
fn each_growth_may_fail(rt: HostRuntime) {
    for (task, text) in GROWN {
        assert_eq!(rt;
            all_answers(rt.alloc(), task, text),
            Answer::Whole,
            "{task:?}"
        );
    }
    assert_eq!(rt; all_backs(rt.alloc()), Answer::Whole);
}

// Returns one byte per read, and fails once with this kind.
#[derive(Drop)]
struct Faltering<'a> {
    bytes: &'a [u8],
    before: u64,
    kind: ErrorKind,
}

impl Read for Faltering<'_> {
    fn read(&mut self, buf: &mut [u8]) -> io::Result<usize> {
        let left = self.before;
        self.before = left.wrapping_sub(1);
        if left == 0 {
            return Err(io::Error::from(self.kind));
        }
        let most = buf.len().min(1);
        self.bytes.read(&mut buf[..most])
    }
}

// Takes one byte per write, and fails when full.
#[derive(Drop)]
struct Narrow<'a> {
    taken: &'a mut Vec<u8>,
    room: usize,
    kind: ErrorKind,
}

impl Write for Narrow<'_> {
    fn write(&mut self, buf: &[u8]) -> io::Result<usize> {
        if self.room == 0 {
            return Err(io::Error::from(self.kind));
        }
        self.room -= 1;
        let most = buf.len().min(1);
        self.taken.write(&buf[..most])
    }

    fn flush(&mut self) -> io::Result<()> {
        Ok(())
    }
}

// A run whose input fails after this many reads, and whose output after this many bytes.
fn run_between(
    alloc: Global,
    reads: (u64, ErrorKind),
    writes: (usize, ErrorKind),
) -> Result<Outcome, AllocError> {
    let names = names_in(alloc)?;
    let asked = Asked::Print {
        task: Task::Hexadecimal,
        encoding: Encoding::Detected,
    };
    let mut input = Faltering {
        bytes: VERSION.as_bytes(),
        before: reads.0,
        kind: reads.1,
    };
    let mut output = Vec::new(alloc);
    let mut errors = Vec::new(alloc);
    let mut narrow = Narrow {
        taken: &mut output,
        room: writes.0,
        kind: writes.1,
    };
    let status = run(
        of(alloc),
        asked,
        "capture",
        &names,
        &mut input,
        &mut narrow,
        &mut errors,
    );
    Ok(Outcome {
        status,
        output,
        errors,
    })
}

const TEXT: &str =
    "420069010000002042006A0200000004000000010000000042006B02000000040000000000000000\n";

fn input_fails(alloc: Global, before: u64) -> bool {
    match run_between(alloc, (before, ErrorKind::Other), (1000, ErrorKind::Other)) {
        Ok(outcome) => outcome.is(2, "", "capture: it can't be read\n"),
        Err(AllocError) => false,
    }
}

fn input_is_interrupted(alloc: Global, before: u64) -> bool {
    match run_between(
        alloc,
        (before, ErrorKind::Interrupted),
        (1000, ErrorKind::Other),
    ) {
        Ok(outcome) => outcome.is(0, TEXT, ""),
        Err(AllocError) => false,
    }
}

#[test]
fn inputs_that_fail(rt: HostRuntime) {
    for before in [0, 1, 40, 80] {
        assert!(rt; input_fails(rt.alloc(), before), "{before}");
        assert!(rt; input_is_interrupted(rt.alloc(), before), "{before}");
    }
}

fn output_fails(alloc: Global, room: usize, kind: ErrorKind, line: &str) -> bool {
    let Some(text) = TEXT.get(..room) else {
        return false;
    };
    match run_between(alloc, (1000, ErrorKind::Other), (room, kind)) {
        Ok(outcome) => outcome.is(3, text, line),
        Err(AllocError) => false,
    }
}

#[test]
fn outputs_that_fail(rt: HostRuntime) {
    let line = "capture: the output can't be written\n";
    for room in [0, 1, 40, 80] {
        assert!(rt;
            output_fails(rt.alloc(), room, ErrorKind::Other, line),
            "{room}"
        );
        // A closed pipe ends the run without an error line.
        assert!(rt;
            output_fails(rt.alloc(), room, ErrorKind::BrokenPipe, ""),
            "{room}"
        );
    }
}
