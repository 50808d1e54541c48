//! Malformed messages and input that can't be decoded: the status, what is printed before the error, and
//! the error line.

use crate::runs::{CREATE_RESPONSE, VERSION, VERSION_LINES, back_with, run_with};
use std::alloc::{AllocError, Global};
use ttlv_run::{Encoding, Look, Task, Values};

// An encoding, an input, what is printed of it, and the error line.
type Row = (Encoding, &'static str, &'static str, &'static str);

const SHOW: Task<'static> = Task::Show { look: Look::PLAIN };

// The lines of the version's first two items.
const BEFORE_MINOR: &str =
    "Tag: Protocol Version (0x420069), Type: Structure (0x01), Data:\n  Tag: Protocol Version Major (0x42006A), Type: Integer (0x02), Data: 0x000001 (1)\n";

const MALFORMED: [Row; 13] = [
    (
        Encoding::Hexadecimal,
        "00001202000000040000000100000000",
        "",
        "capture: byte 0: 0x000012: a message begins with a Structure\n",
    ),
    (
        Encoding::Detected,
        "42006901",
        "",
        "capture: byte 0: Protocol Version (0x420069): the input ends within the message\n",
    ),
    (
        Encoding::Detected,
        "4200",
        "",
        "capture: byte 0: no tag: the input ends within the message\n",
    ),
    // The second message is cut.
    (
        Encoding::Detected,
        "420069010000002042006A0200000004000000010000000042006B02000000040000000000000000420069010000",
        VERSION_LINES,
        "capture: byte 40: Protocol Version (0x420069): the input ends within the message\n",
    ),
    // A message that is cut within a value, within padding, within a header, and between two items.
    (
        Encoding::Detected,
        "420069010000002042006A0200000004000000010000000042006B02000000040000",
        BEFORE_MINOR,
        "capture: byte 24: Protocol Version Minor (0x42006B): the input ends within the message\n",
    ),
    (
        Encoding::Detected,
        "420069010000002042006A0200000004000000010000000042006B020000000400000000000000",
        BEFORE_MINOR,
        "capture: byte 24: Protocol Version Minor (0x42006B): the input ends within the message\n",
    ),
    (
        Encoding::Detected,
        "420069010000002042006A0200000004000000010000000042006B02",
        BEFORE_MINOR,
        "capture: byte 24: Protocol Version Minor (0x42006B): the input ends within the message\n",
    ),
    (
        Encoding::Detected,
        "420069010000002042006A02000000040000000100000000",
        BEFORE_MINOR,
        "capture: byte 24: no tag: the input ends within the message\n",
    ),
    (
        Encoding::Detected,
        "42006A02000000040000000100000000",
        "",
        "capture: byte 0: Protocol Version Major (0x42006A): a message begins with a Structure\n",
    ),
    (
        Encoding::Detected,
        "4200690B00000000",
        "",
        "capture: byte 0: Protocol Version (0x420069): unknown type\n",
    ),
    // The second item states more bytes than its structure has.
    (
        Encoding::Detected,
        "420069010000002042006A0200000004000000010000000042006B07000000090000000000000000",
        BEFORE_MINOR,
        "capture: byte 24: Protocol Version Minor (0x42006B): longer than the structure around\n",
    ),
    (
        Encoding::Detected,
        "420069010000001042006A02000000030000000100000000",
        "Tag: Protocol Version (0x420069), Type: Structure (0x01), Data:\n",
        "capture: byte 8: Protocol Version Major (0x42006A): wrong length for the type\n",
    ),
    (
        Encoding::Detected,
        "420069010000001042006A06000000080000000000000002",
        "Tag: Protocol Version (0x420069), Type: Structure (0x01), Data:\n",
        "capture: byte 8: Protocol Version Major (0x42006A): invalid value for the type\n",
    ),
];

// Input that can't be decoded.
const UNDECODED: [Row; 22] = [
    (
        Encoding::Detected,
        "42x9",
        "",
        "capture: taken as hexadecimal: byte 2, 'x', is no digit (--input)\n",
    ),
    (
        Encoding::Detected,
        "42 0g",
        "",
        "capture: taken as hexadecimal: byte 4, 'g', is no digit (--input)\n",
    ),
    (
        Encoding::Detected,
        "42 0",
        "",
        "capture: taken as hexadecimal: byte 4: digits are missing at the end, or too many are there (--input)\n",
    ),
    (
        Encoding::Detected,
        "42 00\u{7f}",
        "",
        "capture: taken as hexadecimal: byte 5, 0x7F, is no digit (--input)\n",
    ),
    (
        Encoding::Detected,
        "42 00é",
        "",
        "capture: taken as hexadecimal: byte 5, 0xC3, is no digit (--input)\n",
    ),
    (
        Encoding::Detected,
        "\u{feff}42 |",
        "",
        "capture: taken as hexadecimal: byte 6, '|', is no digit (--input)\n",
    ),
    (
        Encoding::Hexadecimal,
        "QgBp",
        "",
        "capture: taken as hexadecimal: byte 0, 'Q', is no digit\n",
    ),
    (
        Encoding::Base64,
        "Qg*p",
        "",
        "capture: taken as base64: byte 2, '*', is no digit\n",
    ),
    (
        Encoding::Base64,
        "Qg-p",
        "",
        "capture: taken as base64: byte 2, '-', is no digit\n",
    ),
    (
        Encoding::Base64Url,
        "Qg+p",
        "",
        "capture: taken as base64url: byte 2, '+', is no digit\n",
    ),
    (
        Encoding::Detected,
        "QgBpA",
        "",
        "capture: taken as base64: byte 5: digits are missing at the end, or too many are there (--input)\n",
    ),
    (
        Encoding::Detected,
        "Qg==QgBp",
        "",
        "capture: taken as base64: byte 8: digits are missing at the end, or too many are there (--input)\n",
    ),
    (
        Encoding::Base64,
        "QgBpQgA=QgBpQgBp",
        "",
        "capture: taken as base64: byte 16: digits are missing at the end, or too many are there\n",
    ),
    (
        Encoding::Base64,
        "QgBpQgB=",
        "",
        "capture: taken as base64: byte 8: digits are missing at the end, or too many are there\n",
    ),
    (
        Encoding::Base64,
        "QgBpQgA",
        "",
        "capture: taken as base64: byte 7: digits are missing at the end, or too many are there\n",
    ),
    (
        Encoding::Hexadecimal,
        "42 00 69 0",
        "",
        "capture: taken as hexadecimal: byte 10: digits are missing at the end, or too many are there\n",
    ),
    (
        Encoding::Detected,
        "-----BEGIN KMIP-----\nQg|B",
        "",
        "capture: taken as armoured base64: byte 23, '|', is no digit (--input)\n",
    ),
    // Lines that hexdump left out.
    (
        Encoding::Detected,
        "00000000  42 00 69 01 00 00 00 20  42 00 6a 02 00 00 00 04  |B.i.... B.j.....|\n*\n",
        "",
        "capture: taken as a hexadecimal dump: byte 79, '*', is no digit (--input)\n",
    ),
    // Two-byte numbers, whose byte order depends on the machine.
    (
        Encoding::Detected,
        "0000000 0042 0169 0000 2000\n",
        "",
        "capture: taken as a hexadecimal dump: byte 10, '4', is no digit (--input)\n",
    ),
    (
        Encoding::Detected,
        "00000000: 4200 690\n",
        "",
        "capture: taken as a hexadecimal dump: byte 19: digits are missing at the end, or too many are there (--input)\n",
    ),
    (
        Encoding::Detected,
        "00000000: 4200  69|\nno offset",
        "",
        "capture: taken as a hexadecimal dump: byte 20, 'n', is no digit (--input)\n",
    ),
    (
        Encoding::Packets,
        "\t0x0000: 42|0",
        "",
        "capture: taken as a dump of packets: byte 11, '|', is no digit\n",
    ),
];

fn ends(alloc: Global, row: Row, status: u8) -> bool {
    let (encoding, input, text, line) = row;
    match run_with(alloc, alloc, SHOW, encoding, input.as_bytes()) {
        Ok(outcome) => outcome.is(status, text, line),
        Err(AllocError) => false,
    }
}

#[test]
fn malformed_messages(rt: HostRuntime) {
    for row in MALFORMED {
        assert!(rt; ends(rt.alloc(), row, 1), "{row:?}");
    }
}

#[test]
fn undecoded_input(rt: HostRuntime) {
    for row in UNDECODED {
        assert!(rt; ends(rt.alloc(), row, 2), "{row:?}");
    }
}

// A cut message with each other task: what is printed of it.
const CUT: [(Task<'static>, &str); 4] = [
    (
        Task::Check {
            kmip: false,
            empty: false,
        },
        "",
    ),
    (Task::Hexadecimal, "42006901\n"),
    (
        Task::Diagnose {
            closed: true,
            prefix: "4200",
        },
        "ERR\n",
    ),
    (
        Task::Show {
            look: Look {
                values: Values::Hidden,
                ..Look::PLAIN
            },
        },
        "",
    ),
];

fn is_cut(alloc: Global, task: Task<'_>, text: &str) -> bool {
    let line = "capture: byte 0: Protocol Version (0x420069): the input ends within the message\n";
    match run_with(alloc, alloc, task, Encoding::Detected, b"42006901") {
        Ok(outcome) => outcome.is(1, text, line),
        Err(AllocError) => false,
    }
}

#[test]
fn each_task(rt: HostRuntime) {
    for (task, text) in CUT {
        assert!(rt; is_cut(rt.alloc(), task, text), "{task:?}");
    }
}

// Inputs without a message: nothing, white space, armour without digits, and packets that are no dump.
const EMPTY: [(Encoding, &str); 7] = [
    (Encoding::Detected, ""),
    (Encoding::Raw, ""),
    (Encoding::Detected, " \r\n\t\n"),
    (Encoding::Hexadecimal, "\u{feff}\n"),
    (Encoding::Base64, ""),
    (Encoding::Armoured, "-----BEGIN-----\n-----END-----\n"),
    (
        Encoding::Packets,
        "22:13:20.000005 IP 10.0.0.1 > 10.0.0.2\n",
    ),
];

fn lacks_messages(alloc: Global, row: (Encoding, &str)) -> bool {
    let (encoding, input) = row;
    let task = Task::Check {
        kmip: false,
        empty: false,
    };
    match run_with(alloc, alloc, task, encoding, input.as_bytes()) {
        Ok(outcome) => outcome.is(1, "", "capture: no message\n"),
        Err(AllocError) => false,
    }
}

#[test]
fn inputs_without_a_message(rt: HostRuntime) {
    for row in EMPTY {
        assert!(rt; lacks_messages(rt.alloc(), row), "{row:?}");
    }
}

// An input that is checked to be KMIP messages, the status, and the error line.
const KMIP: [(&str, u8, &str); 5] = [
    (CREATE_RESPONSE, 0, ""),
    ("4200780100000000", 0, ""),
    (
        VERSION,
        1,
        "capture: byte 0: Protocol Version (0x420069): neither a Request Message nor a Response Message\n",
    ),
    // The second of two messages.
    (
        "42007801000000004200690100000000",
        1,
        "capture: byte 8: Protocol Version (0x420069): neither a Request Message nor a Response Message\n",
    ),
    // A message that is malformed too.
    (
        "42006901000000084200",
        1,
        "capture: byte 8: no tag: the input ends within the message\n",
    ),
];

fn is_judged(alloc: Global, row: (&str, u8, &str)) -> bool {
    let (input, status, line) = row;
    let task = Task::Check {
        kmip: true,
        empty: false,
    };
    match run_with(alloc, alloc, task, Encoding::Detected, input.as_bytes()) {
        Ok(outcome) => outcome.is(status, "", line),
        Err(AllocError) => false,
    }
}

#[test]
fn messages_of_kmip(rt: HostRuntime) {
    for row in KMIP {
        assert!(rt; is_judged(rt.alloc(), row), "{row:?}");
    }
}

fn is_no_text(alloc: Global) -> bool {
    match back_with(alloc, alloc, "", &[0xC3, 0x28]) {
        Ok(outcome) => outcome.is(2, "", "capture: it is not UTF-8\n"),
        Err(AllocError) => false,
    }
}

#[test]
fn diagnostics_that_are_no_text(rt: HostRuntime) {
    assert!(rt; is_no_text(rt.alloc()));
}

// A prefix, diagnostics of which one is not whole, what they are read back as, and the error line.
const NOT_WHOLE: [(&str, &str, &str, &str); 8] = [
    // A structure stays open.
    (
        "4200",
        "69[",
        "Tag: Protocol Version (0x420069), Type: Structure (0x01)\n",
        "capture: byte 0: no whole part of a diagnostic\n",
    ),
    (
        "4200",
        "69[6A[]",
        "Tag: Protocol Version (0x420069), Type: Structure (0x01), Data: \n  Tag: Protocol Version Major (0x42006A), Type: Structure (0x01), Data:\n",
        "capture: byte 7: a structure is not closed\n",
    ),
    // The last item is cut off.
    (
        "4200",
        "69[6Ai6B",
        "Tag: Protocol Version (0x420069), Type: Structure (0x01), Data: \n  Tag: Protocol Version Major (0x42006A), Type: Integer (0x02), Data: <redacted>\n  Tag: Protocol Version Minor (0x42006B)\n",
        "capture: byte 6: no whole part of a diagnostic\n",
    ),
    // The diagnostic of an empty structure that stays open: `E` is a digit, and `R` is no type.
    (
        "4200",
        "69[ERR",
        "Tag: Protocol Version (0x420069), Type: Structure (0x01), Data: \n  Tag: 0x04200E\n",
        "capture: byte 3: no whole part of a diagnostic\n",
    ),
    // One bracket too many.
    (
        "4200",
        "69[]]\n",
        "Tag: Protocol Version (0x420069), Type: Structure (0x01), Data:\n",
        "capture: byte 4: no whole part of a diagnostic\n",
    ),
    // An enumeration without its colon.
    (
        "4200",
        "0F[5CeA]",
        "Tag: Batch Item (0x42000F), Type: Structure (0x01), Data: \n  Tag: Operation (0x42005C), Type: Enumeration (0x05)\n",
        "capture: byte 3: no whole part of a diagnostic\n",
    ),
    // The second and the third of three lines are not whole; both are read back. No digits precede `é`, so the
    // prefix alone is the tag.
    (
        "4200",
        "69[]\né\n6A[]]\n",
        "Tag: Protocol Version (0x420069), Type: Structure (0x01), Data:\nTag: 0x004200\nTag: Protocol Version Major (0x42006A), Type: Structure (0x01), Data:\n",
        "capture: byte 5: no whole part of a diagnostic\n",
    ),
    // After a prefix of six digits two more give no tag: a tag has three bytes.
    (
        "420000",
        "69[]",
        "\n",
        "capture: byte 0: no whole part of a diagnostic\n",
    ),
];

fn is_not_whole(alloc: Global, row: (&str, &str, &str, &str)) -> bool {
    let (prefix, input, text, line) = row;
    match back_with(alloc, alloc, prefix, input.as_bytes()) {
        Ok(outcome) => outcome.is(1, text, line),
        Err(AllocError) => false,
    }
}

#[test]
fn diagnostics_that_are_not_whole(rt: HostRuntime) {
    for row in NOT_WHOLE {
        assert!(rt; is_not_whole(rt.alloc(), row), "{row:?}");
    }
}
