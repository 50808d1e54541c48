//! The memory that lines of JSON take, and what comes of it when some is refused.

use crate::runs::{Outcome, no_names, repeated, run_asked};
use kmip_ttlv_memory::BoundedAllocator;
use std::alloc::{AllocError, Allocator, Global};
use ttlv_run::Asked;

// What a line begins with, what comes so often that it has 120,000 bytes, what it ends with, and the status.
type Row = (&'static str, &'static str, &'static str, u8);

const ROWS: [Row; 14] = [
    // Many small leaves.
    (
        "{\"tag\":\"0x420069\",\"type\":\"Structure\",\"value\":[",
        "{\"tag\":\"0x42006A\",\"type\":\"Integer\",\"value\":\"0x00000001\"},",
        "{\"tag\":\"0x42006A\",\"type\":\"Boolean\",\"value\":true}]}",
        0,
    ),
    // Empty structures.
    (
        "{\"tag\":\"0x420069\",\"type\":\"Structure\",\"value\":[",
        "{\"tag\":\"0x42006A\",\"type\":\"Structure\",\"value\":[]},",
        "{\"tag\":\"0x42006A\",\"type\":\"Boolean\",\"value\":true}]}",
        0,
    ),
    // Structures in one another, the value in front of the tag.
    (
        "{\"value\":[",
        "{\"value\":[{\"value\":[{\"value\":[],\"tag\":\"0x42006A\",\"type\":\"Structure\"}],\"type\":\"Structure\",\"tag\":\"0x42006A\"}],\"tag\":\"0x42006A\",\"type\":\"Structure\"},",
        "{\"tag\":\"0x42006A\",\"type\":\"Boolean\",\"value\":true}],\"tag\":\"0x420069\",\"type\":\"Structure\"}",
        0,
    ),
    // A long text, as it is and in escapes.
    (
        "{\"tag\":\"0x420069\",\"type\":\"Structure\",\"value\":[{\"tag\":\"0x42006A\",\"type\":\"TextString\",\"value\":\"",
        "Operation",
        "\"}]}",
        0,
    ),
    (
        "{\"tag\":\"0x420069\",\"type\":\"Structure\",\"value\":[{\"tag\":\"0x42006A\",\"type\":\"TextString\",\"value\":\"",
        "\\u00e9\\n",
        "\"}]}",
        0,
    ),
    // A long value, and one behind another that doesn't count.
    (
        "{\"tag\":\"0x420069\",\"type\":\"Structure\",\"value\":[{\"tag\":\"0x42006A\",\"type\":\"ByteString\",\"value\":\"",
        "00FF",
        "\"}]}",
        0,
    ),
    (
        "{\"tag\":\"0x420069\",\"type\":\"Structure\",",
        "\"value\":[{\"tag\":\"0x42006A\",\"type\":\"Structure\",\"value\":[]}],",
        "\"value\":[]}",
        0,
    ),
    // JSON that is no message.
    ("[", "[],", "[]]", 1),
    ("[", "1,", "1]", 1),
    (
        "{",
        "\"tag\":{\"tag\":[[],[]],\"value\":[]},",
        "\"type\":0}",
        1,
    ),
    ("[", "\"\",", "{}]", 1),
    // What is no JSON.
    ("[", "[[", "", 1),
    ("{\"value\":[", "[],{\"value\":[]},", "", 1),
    ("", "\"", "", 1),
];

// The line of a row.
fn line_of(alloc: Global, row: Row) -> Result<String, AllocError> {
    let (front, item, back, _) = row;
    let mut line = String::from_str(alloc, front)?;
    let often = 120_000u64.checked_div(item.len() as u64).unwrap_or(0);
    line.push_str(repeated(alloc, item, often)?.as_str())?;
    line.push_str(back)?;
    Ok(line)
}

// A run over a line; what it takes comes from `heap`.
fn outcome_of<A: Allocator + Copy>(alloc: Global, heap: A, line: &str) -> Outcome {
    let asked = Asked::FromJson { raw: false };
    run_asked(heap, alloc, &no_names(heap), asked, line.as_bytes())
}

// Whether a line is read within four times its length and a constant.
fn is_read_within(alloc: Global, row: Row) -> Result<bool, AllocError> {
    let line = line_of(alloc, row)?;
    let heap = BoundedAllocator::new(alloc, line.len().saturating_mul(4).saturating_add(70_000));
    let outcome = outcome_of(alloc, &heap, line.as_str());
    Ok(outcome.status == row.3 && !heap.has_failed())
}

#[test]
fn a_line_takes_four_times_its_length(rt: HostRuntime) {
    for row in ROWS {
        assert_eq!(rt; is_read_within(rt.alloc(), row), Ok(true), "{row:?}");
    }
}

// A line is moved a few times at most while it is read, however long it gets.
fn is_moved_little(alloc: Global) -> Result<bool, AllocError> {
    let item = "{\"tag\":\"0x42006A\",\"type\":\"Structure\",\"value\":[]},";
    let mut line = String::from_str(alloc, "[")?;
    line.push_str(repeated(alloc, item, 80_000)?.as_str())?;
    let heap = BoundedAllocator::in_blocks(alloc, 16_777_216);
    let outcome = outcome_of(alloc, &heap, line.as_str());
    Ok(outcome.status == 1 && heap.asked() / 12 < line.len())
}

#[test]
fn a_long_line_is_moved_a_few_times(rt: HostRuntime) {
    assert_eq!(rt; is_moved_little(rt.alloc()), Ok(true));
}

// A message with a leaf of each form that a value has.
const LEAVES: &str =
    "{\"tag\":\"0x420069\",\"type\":\"Structure\",\"value\":[{\"tag\":\"0x42006A\",\"type\":\"Integer\",\"value\":\"0x00000001\"},{\"tag\":\"0x42006A\",\"type\":\"TextString\",\"value\":\"Key\"},{\"tag\":\"0x42006A\",\"type\":\"ByteString\",\"value\":\"00FF\"},{\"tag\":\"0x42006A\",\"type\":\"Boolean\",\"value\":true}]}";

// Whether each allocation may fail: nothing is printed then, and the status is 3.
fn each_may_fail(alloc: Global, line: &str) -> bool {
    for before in 0..100u64 {
        let heap = BoundedAllocator::failing_after(alloc, before);
        let outcome = outcome_of(alloc, &heap, line);
        if !heap.has_failed() {
            return before > 0 && outcome.status == 0;
        }
        if !outcome.is(3, "", "capture: out of memory\n") {
            return false;
        }
    }
    false
}

#[test]
fn each_growth_for_json_may_fail(rt: HostRuntime) {
    assert!(rt; each_may_fail(rt.alloc(), LEAVES));
}
