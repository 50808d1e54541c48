//! Long inputs, which are printed as they are read: if an allocation or the output fails, a beginning is printed.

use crate::printed::RESPONSE_LINES;
use crate::runs::{
    CREATE_RESPONSE, Outcome, VERSION, VERSION_LINES, back_with, names_in, of, repeated, run_with,
};
use kmip_ttlv_memory::BoundedAllocator;
use std::alloc::{AllocError, Global};
use std::io;
use std::io::{ErrorKind, Write};
use ttlv_run::run::run;
use ttlv_run::{Asked, Encoding, Look, Memory, Task};

const SHOW: Task<'static> = Task::Show { look: Look::PLAIN };

// A task, and what it prints of the version's message.
const PRINTED: [(Task<'static>, &str); 3] = [
    (SHOW, VERSION_LINES),
    (
        Task::Diagnose {
            closed: true,
            prefix: "4200",
        },
        "69[6Ai6Bi]\n",
    ),
    (
        Task::Hexadecimal,
        "420069010000002042006A0200000004000000010000000042006B02000000040000000000000000\n",
    ),
];

// Whether a task prints its text `times` times for as many messages.
fn prints(alloc: Global, task: Task<'_>, text: &str, times: u64) -> Result<bool, AllocError> {
    let input = repeated(alloc, VERSION, times)?;
    let whole = repeated(alloc, text, times)?;
    let outcome = run_with(alloc, alloc, task, Encoding::Detected, input.as_bytes())?;
    Ok(outcome.is(0, whole.as_str(), ""))
}

// Whether `times` lines of diagnostics are read back.
fn reads_back(alloc: Global, times: u64) -> Result<bool, AllocError> {
    let line = "Tag: Protocol Version (0x420069), Type: Structure (0x01), Data:\n";
    let input = repeated(alloc, "69[]\n", times)?;
    let whole = repeated(alloc, line, times)?;
    let outcome = back_with(alloc, alloc, "4200", input.as_bytes())?;
    Ok(outcome.is(0, whole.as_str(), ""))
}

#[test]
fn long_inputs(rt: HostRuntime) {
    for (task, text) in PRINTED {
        assert_eq!(rt; prints(rt.alloc(), task, text, 2000), Ok(true), "{task:?}");
    }
    assert_eq!(rt; reads_back(rt.alloc(), 2000), Ok(true));
}

// Whether a long text is printed without a block of its size.
fn prints_within(alloc: Global, times: u64, most: usize) -> Result<bool, AllocError> {
    let input = repeated(alloc, VERSION, times)?;
    let whole = repeated(alloc, VERSION_LINES, times)?;
    let heap = BoundedAllocator::in_blocks(alloc, most);
    let outcome = run_with(&heap, alloc, SHOW, Encoding::Detected, input.as_bytes())?;
    Ok(most < whole.len() && outcome.is(0, whole.as_str(), ""))
}

#[test]
fn a_text_is_not_stored(rt: HostRuntime) {
    assert_eq!(rt; prints_within(rt.alloc(), 2000, 300_000), Ok(true));
}

// Whether nested structures, in one line, are read back without a block of the text's size.
fn reads_nested_within(alloc: Global, times: u64, most: usize) -> Result<bool, AllocError> {
    let mut input = repeated(alloc, "420069[", times)?;
    let closes = repeated(alloc, "]", times)?;
    input.push_str(closes.as_str())?;
    let heap = BoundedAllocator::in_blocks(alloc, most);
    let outcome = back_with(&heap, alloc, "", input.as_bytes())?;
    Ok(most < outcome.output.len() && outcome.status == 0 && outcome.errors.is_empty())
}

#[test]
fn a_line_that_is_read_back_is_not_stored(rt: HostRuntime) {
    assert_eq!(rt; reads_nested_within(rt.alloc(), 4000, 150_000), Ok(true));
}

// A structure with one Integer, in base64.
const ONE_NUMBER: &str = "QgBpAQAAABBCAGoCAAAABAAAAAEAAAAA";

// How many allocations a run makes for its input.
fn growths(alloc: Global, encoding: Encoding, input: &str) -> Result<u64, AllocError> {
    let names = names_in(alloc)?;
    let asked = Asked::Print {
        task: Task::Check {
            kmip: false,
            empty: false,
        },
        encoding,
    };
    for before in 0..100u64 {
        let heap = BoundedAllocator::failing_after(alloc, before);
        let memory = Memory {
            input: &heap,
            rest: alloc,
        };
        let mut input = input.as_bytes();
        let mut output = Vec::new(alloc);
        let mut errors = Vec::new(alloc);
        run(
            memory,
            asked,
            "capture",
            &names,
            &mut input,
            &mut output,
            &mut errors,
        );
        if !heap.has_failed() {
            return Ok(before);
        }
    }
    Ok(100)
}

// How many allocations a run makes for the input, which is a text so many times.
fn buffers(alloc: Global, encoding: Encoding, text: &str, times: u64) -> Result<u64, AllocError> {
    let text = repeated(alloc, text, times)?;
    growths(alloc, encoding, text.as_str())
}

// A text takes a buffer for its characters and one for the bytes, however long it is.
#[test]
fn text_takes_two_buffers(rt: HostRuntime) {
    for (encoding, text) in [
        (Encoding::Hexadecimal, VERSION),
        (Encoding::Base64, ONE_NUMBER),
    ] {
        for times in [1, 2000] {
            let count = buffers(rt.alloc(), encoding, text, times);
            assert_eq!(rt; count, Ok(2), "{encoding:?} {times}");
        }
    }
}

// The headers of nested structures, each in the one before.
fn nested(alloc: Global, depth: u32) -> Result<String, AllocError> {
    let mut text = String::new(alloc);
    for level in 0..depth {
        let below = (depth - 1 - level).wrapping_mul(8);
        text.push_str(format!(in alloc; "42006901{below:08X}")?.as_str())?;
    }
    Ok(text)
}

// The status of checking structures of this depth, without larger blocks than `most` bytes except for the input.
fn nested_status(alloc: Global, depth: u32, most: usize) -> Result<u8, AllocError> {
    let text = nested(alloc, depth)?;
    let small = BoundedAllocator::in_blocks(alloc, most);
    let names = names_in(&small)?;
    let asked = Asked::Print {
        task: Task::Check {
            kmip: false,
            empty: false,
        },
        encoding: Encoding::Hexadecimal,
    };
    let memory = Memory {
        input: alloc,
        rest: &small,
    };
    let mut input = text.as_bytes();
    let mut output = Vec::new(alloc);
    let mut errors = Vec::new(alloc);
    Ok(run(
        memory,
        asked,
        "capture",
        &names,
        &mut input,
        &mut output,
        &mut errors,
    ))
}

#[test]
fn nesting_is_bounded_by_memory(rt: HostRuntime) {
    let most = 65_536;
    assert_eq!(rt; nested_status(rt.alloc(), 8000, most), Ok(0));
    assert_eq!(rt; nested_status(rt.alloc(), 9000, most), Ok(3));
}

// How much of the text is printed if this allocation fails; none if the text or the error line differs.
fn begun(alloc: Global, input: &str, text: &str, before: u64) -> Option<usize> {
    let heap = BoundedAllocator::failing_after(alloc, before);
    match run_with(&heap, alloc, SHOW, Encoding::Detected, input.as_bytes()) {
        Ok(outcome) if outcome.begins(3, text, "capture: out of memory\n") => {
            Some(outcome.output.len())
        }
        _ => None,
    }
}

// Whether some failing allocation leaves a beginning that is neither empty nor the whole text. Only messages with
// structures in their roots need memory while they are printed.
fn stops_within(alloc: Global, times: u64) -> Result<bool, AllocError> {
    let input = repeated(alloc, CREATE_RESPONSE, times)?;
    let text = repeated(alloc, RESPONSE_LINES, times)?;
    for before in 0..300u64 {
        let length = begun(alloc, input.as_str(), text.as_str(), before).unwrap_or(0);
        if 0 < length && length < text.len() {
            return Ok(true);
        }
    }
    Ok(false)
}

#[test]
fn memory_runs_out_while_printing(rt: HostRuntime) {
    assert_eq!(rt; stops_within(rt.alloc(), 50), Ok(true));
}

// Takes this many bytes, then fails.
#[derive(Drop)]
struct Full<'a> {
    taken: &'a mut Vec<u8>,
    room: usize,
}

impl Write for Full<'_> {
    fn write(&mut self, buf: &[u8]) -> io::Result<usize> {
        if self.room == 0 {
            return Err(io::Error::from(ErrorKind::StorageFull));
        }
        let most = buf.len().min(self.room);
        self.room -= most;
        self.taken.write(&buf[..most])
    }

    fn flush(&mut self) -> io::Result<()> {
        Ok(())
    }
}

// A run whose output is full after this many bytes.
fn run_into(alloc: Global, input: &str, room: usize) -> Result<Outcome, AllocError> {
    let names = names_in(alloc)?;
    let asked = Asked::Print {
        task: SHOW,
        encoding: Encoding::Detected,
    };
    let mut input = input.as_bytes();
    let mut output = Vec::new(alloc);
    let mut errors = Vec::new(alloc);
    let mut full = Full {
        taken: &mut output,
        room,
    };
    let status = run(
        of(alloc),
        asked,
        "capture",
        &names,
        &mut input,
        &mut full,
        &mut errors,
    );
    Ok(Outcome {
        status,
        output,
        errors,
    })
}

// Whether the output has exactly as many bytes of the text as there was room for.
fn is_filled(alloc: Global, times: u64, room: usize) -> Result<bool, AllocError> {
    let input = repeated(alloc, VERSION, times)?;
    let text = repeated(alloc, VERSION_LINES, times)?;
    let outcome = run_into(alloc, input.as_str(), room)?;
    let line = "capture: the output can't be written\n";
    Ok(outcome.output.len() == room && outcome.begins(3, text.as_str(), line))
}

#[test]
fn an_output_is_full(rt: HostRuntime) {
    for room in [1, 8191, 8192, 8193, 20_000] {
        assert_eq!(rt; is_filled(rt.alloc(), 200, room), Ok(true), "{room}");
    }
}
