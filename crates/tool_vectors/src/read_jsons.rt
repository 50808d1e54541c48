//! Values of JSON read back as messages, whole and in pieces. What JSON is read back as are tests that are data (crates/vectors).

use crate::jsons::VERSION_JSON;
use crate::pieces::asked_slow;
use crate::runs::{Outcome, no_names, run_asked, run_with};
use kmip_ttlv_json::from_json;
use std::alloc::{AllocError, Global};
use ttlv_run::{Asked, Encoding, Hiding, Task};

// Structures in one another, with a leaf in the last: 62 around it are read, and 63 nest too deep.
fn nested(alloc: Global, count: u32) -> bool {
    let mut json = String::new(alloc);
    for _ in 0..count {
        if json
            .push_str("{\"tag\":\"0x420069\",\"type\":\"Structure\",\"value\":[")
            .is_err()
        {
            return false;
        }
    }
    if json
        .push_str("{\"tag\":\"0x420006\",\"type\":\"Boolean\",\"value\":true}")
        .is_err()
    {
        return false;
    }
    for _ in 0..count {
        if json.push_str("]}").is_err() {
            return false;
        }
    }
    from_json(alloc, json.as_str()).is_ok()
}

#[test]
fn structures_nest(rt: HostRuntime) {
    assert!(rt; nested(rt.alloc(), 63));
    assert!(rt; !nested(rt.alloc(), 64));
}

// A run that reads JSON back.
fn lines_with(alloc: Global, raw: bool, input: &[u8]) -> Outcome {
    run_asked(
        alloc,
        alloc,
        &no_names(alloc),
        Asked::FromJson { raw },
        input,
    )
}

const EMPTY: &str = "{\"tag\":\"0x420069\",\"type\":\"Structure\",\"value\":[]}";

// An input, the status, what is printed, and what on standard error.
const LINES: [(&str, u8, &str, &str); 23] = [
    ("", 0, "", ""),
    ("\n \t\r\n\n", 0, "", ""),
    (EMPTY, 0, "4200690100000000\n", ""),
    (
        "{\"tag\":\"0x420069\",\"type\":\"Structure\",\"value\":[]}\r\n\n{\"tag\":\"0x42006A\",\"type\":\"Structure\",\"value\":[]} \n",
        0,
        "4200690100000000\n42006A0100000000\n",
        "",
    ),
    // The values before a bad one are printed, and those after it aren't.
    (
        "{\"tag\":\"0x420069\",\"type\":\"Structure\",\"value\":[]}\n\n{\"tag\":\"0x42006A\",\"type\":\"Integer\",\"value\":\"0x00000001\"}\n{\"tag\":\"0x420069\",\"type\":\"Structure\",\"value\":[]}\n",
        1,
        "4200690100000000\n",
        "capture: byte 50: the root is no Structure\n",
    ),
    ("\n[1,2\n", 1, "", "capture: byte 6: not JSON\n"),
    ("\n[1 2]\n", 1, "", "capture: byte 4: not JSON\n"),
    (
        "\n{}\n",
        1,
        "",
        "capture: byte 1: an item without exactly tag, type and value\n",
    ),
    // A byte order mark in front of a line, and one that is alone in it.
    (
        "\u{feff}{\"tag\":\"0x420069\",\"type\":\"Structure\",\"value\":[]}\n\u{feff}\n",
        0,
        "4200690100000000\n",
        "",
    ),
    (
        "\u{feff}\n\u{feff}[1,2\n",
        1,
        "",
        "capture: byte 12: not JSON\n",
    ),
    // An item in the second line is wrong.
    (
        "{\"tag\":\"0x420069\",\"type\":\"Structure\",\"value\":[]}\n{\"tag\":\"0x420069\",\"type\":\"Structure\",\"value\":[{\"tag\":\"0x42006A\",\"type\":\"Integer\",\"value\":\"0x01\"}]}\n",
        1,
        "4200690100000000\n",
        "capture: byte 95: a value is none of its type\n",
    ),
    // White space of Unicode is none of JSON.
    ("\u{a0}\n", 1, "", "capture: byte 0: not JSON\n"),
    (
        "{\"tag\":\"0x420069\",\"type\":\"Structure\",\"value\":[]}\u{2028}\n",
        1,
        "4200690100000000\n",
        "capture: byte 48: not JSON\n",
    ),
    // A value over several lines, two in one line, and the end of one beside the next.
    (
        "{\n  \"tag\": \"0x420069\",\n\n  \"type\": \"Structure\",\r\n  \"value\": [\n  ]\n}\n",
        0,
        "4200690100000000\n",
        "",
    ),
    (
        "{\"tag\":\"0x420069\",\"type\":\"Structure\",\"value\":[]} \t{\"tag\":\"0x42006A\",\"type\":\"Structure\",\"value\":[]}\n",
        0,
        "4200690100000000\n42006A0100000000\n",
        "",
    ),
    (
        "{\"tag\":\"0x420069\",\"type\":\"Structure\",\"value\":[\n]}{\"tag\":\"0x42006A\",\"type\":\"Structure\",\"value\":[]}",
        0,
        "4200690100000000\n42006A0100000000\n",
        "",
    ),
    // Brackets, quotes and backslashes in a string: the text is `}]\"{`.
    (
        "{\"tag\":\"0x420069\",\"type\":\"Structure\",\"value\":[{\"tag\":\"0x420094\",\"type\":\"TextString\",\"value\":\"}]\\\\\\\"{\"}\n]}\n",
        0,
        "420069010000001042009407000000057D5D5C227B000000\n",
        "",
    ),
    // An item in the second value of a line is wrong.
    (
        "{\"tag\":\"0x420069\",\"type\":\"Structure\",\"value\":[]}{\"tag\":\"0x42006A\",\"type\":\"Integer\",\"value\":\"0x00000001\"}\n",
        1,
        "4200690100000000\n",
        "capture: byte 48: the root is no Structure\n",
    ),
    // An input that ends within a value is wrong at its end, or where the string begins that it ends in.
    ("{\"tag\":\n\n", 1, "", "capture: byte 9: not JSON\n"),
    ("{\"tag\":\n\"0x42", 1, "", "capture: byte 8: not JSON\n"),
    // Brackets that don't belong together end a value, and so does one that belongs to none.
    ("{\"tag\":[1}]\n{}\n", 1, "", "capture: byte 9: not JSON\n"),
    ("]\n{}\n", 1, "", "capture: byte 0: not JSON\n"),
    // What begins with no bracket is a value up to the line's end.
    (
        "12\n{}\n",
        1,
        "",
        "capture: byte 0: an item without exactly tag, type and value\n",
    ),
];

#[test]
fn lines_of_json(rt: HostRuntime) {
    for (input, status, output, errors) in LINES {
        let outcome = lines_with(rt.alloc(), false, input.as_bytes());
        assert!(rt; outcome.is(status, output, errors), "{input}");
    }
}

// The JSON of a message, read back with `--raw`, printed as JSON again, is the same.
fn comes_back(alloc: Global, json: &str) -> Result<bool, AllocError> {
    let read = lines_with(alloc, true, json.as_bytes());
    let task = Task::Json {
        hiding: Hiding::Nothing,
        named: false,
    };
    let outcome = run_with(alloc, alloc, task, Encoding::Raw, read.output.as_slice())?;
    Ok(read.status == 0 && outcome.is(0, json, ""))
}

#[test]
fn json_comes_back(rt: HostRuntime) {
    assert!(rt; comes_back(rt.alloc(), VERSION_JSON) == Ok(true));
}

// A run over pieces of so many bytes, and how much was written by the second read.
fn lines_slow(alloc: Global, bytes: &[u8], most: usize, fails: bool) -> (Outcome, usize) {
    let asked = Asked::FromJson { raw: false };
    asked_slow(alloc, alloc, &no_names(alloc), asked, bytes, most, fails)
}

#[test]
fn lines_of_json_in_pieces(rt: HostRuntime) {
    for (input, status, output, errors) in LINES {
        for most in [1, 7, 51] {
            let (outcome, _) = lines_slow(rt.alloc(), input.as_bytes(), most, false);
            assert!(rt; outcome.is(status, output, errors), "{most} {input}");
        }
    }
}

const TWO: &str =
    "{\"tag\":\"0x420069\",\"type\":\"Structure\",\"value\":[]}\n{\"tag\":\"0x420069\",\"type\":\"Structure\",\"value\":[]}";

const BOTH: &str = "4200690100000000\n4200690100000000\n";

// The message of a value is printed before the next read, and stays if a later one fails.
#[test]
fn a_value_of_json_is_printed_at_once(rt: HostRuntime) {
    for most in [EMPTY.len(), EMPTY.len() + 1] {
        let (outcome, by_second) = lines_slow(rt.alloc(), TWO.as_bytes(), most, true);
        assert_eq!(rt; by_second, 17);
        assert!(rt; outcome.is(2, BOTH, "capture: it can't be read\n"));
    }
}

// What comes behind a bad value isn't read.
#[test]
fn a_bad_value_of_json_is_the_last(rt: HostRuntime) {
    let (outcome, _) = lines_slow(rt.alloc(), b"[1,,2]", 6, true);
    assert!(rt; outcome.is(1, "", "capture: byte 3: not JSON\n"));
}

#[test]
fn json_in_other_bytes(rt: HostRuntime) {
    let line = "capture: it is not UTF-8\n";
    assert!(rt; lines_with(rt.alloc(), false, b"\xFF").is(2, "", line));
    let input = b"{\"tag\":\"0x420069\",\"type\":\"Structure\",\"value\":[]}\n\xFF\n{}\n";
    assert!(rt; lines_with(rt.alloc(), false, input).is(2, "4200690100000000\n", line));
}
