//! Texts of digits that come in pieces: each message is printed when the character behind its last digit is there.

use crate::pieces::run_slow;
use crate::runs::repeated;
use kmip_ttlv_memory::BoundedAllocator;
use std::alloc::{AllocError, Global};
use ttlv_run::{Encoding, Task};

// A text of a structure in another, which has an Integer and an empty structure, and its encoding.
const MESSAGES: [(Encoding, &str); 12] = [
    (Encoding::Detected, DIGITS),
    (Encoding::Hexadecimal, DIGITS),
    (
        Encoding::Detected,
        "0x42,0x00,0x69,0x01,0x00,0x00,0x00,0x18,0x42,0x00,0x6A,0x02,0x00,0x00,0x00,0x04,0x00,0x00,0x00,0x01,0x00,0x00,0x00,0x00,0x42,0x00,0x6B,0x01,0x00,0x00,0x00,0x00\n",
    ),
    (
        Encoding::Detected,
        "\u{feff}42 00 69 01 00 00 00 18 42 00 6a 02 00 00 00 04 00 00 00 01 00 00 00 00 42 00 6b 01 00 00 00 00 ",
    ),
    (
        Encoding::Detected,
        "00000000: 4200 6901 0000 0018 4200 6a02 0000 0004  B.i.....B.j.....\n00000010: 0000 0001 0000 0000 4200 6b01 0000 0000  ........B.k.....\n",
    ),
    (
        Encoding::Detected,
        "00000000  42 00 69 01 00 00 00 18  42 00 6a 02 00 00 00 04  |B.i.....B.j.....|\n00000010  00 00 00 01 00 00 00 00  42 00 6b 01 00 00 00 00  |........B.k.....|\n00000020\n",
    ),
    (
        Encoding::Dump,
        "000040 42 00 69 01 00 00 00 18 42 00 6a 02 00 00 00 04\n000050 00 00 00 01 00 00 00 00 42 00 6b 01 00 00 00 00\n",
    ),
    (
        Encoding::Packets,
        "22:13:20.000005 UNSUPPORTED\n\t0x0000:  4200 6901 0000 0018 4200 6a02 0000 0004  B.i.....B.j.....\n\t0x0010:  0000 0001 0000 0000 4200 6b01 0000 0000  ........B.k.....\n",
    ),
    (
        Encoding::Detected,
        "22:13:20.000005 UNSUPPORTED\n\t0x0000:  4200 6901 0000 0018 4200 6a02 0000 0004\n\t0x0010:  0000 0001 0000 0000 4200 6b01 0000 0000\n",
    ),
    (
        Encoding::Base64,
        "QgBpAQAAABhCAGoCAAAABAAAAAEAAAAAQgBrAQAAAAA=\n",
    ),
    (
        Encoding::Base64Url,
        "\u{feff}QgBp AQAA\r\nABhC\tAGoCAAAABAAAAAEAAAAAQgBrAQAAA,AA=,",
    ),
    (
        Encoding::Armoured,
        "-----BEGIN MESSAGE-----\nQgBpAQAAABhCAGoCAAAABAAA\nAAEAAAAAQgBrAQAAAAA=\n-----END MESSAGE-----\n",
    ),
];

// The same where its last bytes are those of the text's end, or where a longer front tells the encoding.
const WHOLE: [(Encoding, &str); 5] = [
    (
        Encoding::Base64Url,
        "QgBpAQAAABhCAGoCAAAABAAAAAEAAAAAQgBrAQAAAAA",
    ),
    (
        Encoding::Base64,
        "QgBpAQAAABhCAGoCAAAABAAAAAEAAAAAQgBrAQAAAAA=",
    ),
    (
        Encoding::Detected,
        "QgBpAQAAABhCAGoCAAAABAAAAAEAAAAAQgBrAQAAAAA=",
    ),
    (
        Encoding::Detected,
        "\u{feff}\n\n\n\n\n\n\n\n\n\n\n\n\n\n\n\n\n\n\n\n\n\n\n\n\n\n\n\n\n\n\n\n\n\n\n\n\n\n\n\n\n\n\n\n\n\n\n\n\n\n\n\n\n\n\n\n\n\n\n\n\n\n\n\n\n\n\n\n\n\n\n\n-----BEGIN MESSAGE-----\nQgBpAQAAABhCAGoCAAAABAAA\nAAEAAAAAQgBrAQAAAAA=\n-----END MESSAGE-----",
    ),
    (
        Encoding::Detected,
        "22:13:20.000005 IP 10.0.0.1.5696 > 10.0.0.2.45678: Flags [P.], seq 1:33, ack 1, win 512, length 32\n\t0x0000:  4200 6901 0000 0018 4200 6a02 0000 0004\n\t0x0010:  0000 0001 0000 0000 4200 6b01 0000 0000\n",
    ),
];

// The message in hexadecimal, one line.
const DIGITS: &str = "420069010000001842006A02000000040000000100000000\
42006B0100000000\n";

// Whether a text in pieces of so many bytes is this message.
fn is_message(
    alloc: Global,
    encoding: Encoding,
    text: &str,
    most: usize,
) -> Result<bool, AllocError> {
    let (outcome, _) = run_slow(
        alloc,
        alloc,
        Task::Hexadecimal,
        encoding,
        text.as_bytes(),
        most,
        false,
    )?;
    Ok(outcome.is(0, DIGITS, ""))
}

#[test]
fn texts_in_pieces(rt: HostRuntime) {
    for most in [1, 2, 3, 5, 67, 1000] {
        for (encoding, text) in MESSAGES {
            let same = is_message(rt.alloc(), encoding, text, most);
            assert_eq!(rt; same, Ok(true), "{encoding:?} {most} {text}");
        }
        for (encoding, text) in WHOLE {
            let same = is_message(rt.alloc(), encoding, text, most);
            assert_eq!(rt; same, Ok(true), "{encoding:?} {most} {text}");
        }
    }
}

// How much is written of two messages before the second read, where the first read gives the text of the first.
fn written_at_once(alloc: Global, encoding: Encoding, text: &str) -> Result<usize, AllocError> {
    let twice = repeated(alloc, text, 2)?;
    let (_, by_second) = run_slow(
        alloc,
        alloc,
        Task::Hexadecimal,
        encoding,
        twice.as_bytes(),
        text.len(),
        false,
    )?;
    Ok(by_second)
}

#[test]
fn a_message_of_a_text_is_printed_before_the_next_read(rt: HostRuntime) {
    for (encoding, text) in MESSAGES {
        assert_eq!(rt;
            written_at_once(rt.alloc(), encoding, text),
            Ok(DIGITS.len()),
            "{encoding:?} {text}"
        );
    }
}

// What comes in pieces of seven bytes, whether reading fails behind it, and the status, the output and the line.
type Row = (Encoding, &'static str, bool, u8, &'static str, &'static str);

const BROKEN: [Row; 16] = [
    // No digit: the messages in front of it are printed.
    (
        Encoding::Hexadecimal,
        "4200690100000000\n42006A0100000000\n42006B01|",
        false,
        2,
        "4200690100000000\n42006A0100000000\n",
        "capture: taken as hexadecimal: byte 42, '|', is no digit\n",
    ),
    (
        Encoding::Hexadecimal,
        "4200690100000000 4200690",
        false,
        2,
        "4200690100000000\n",
        "capture: taken as hexadecimal: byte 24: digits are missing at the end, or too many are there\n",
    ),
    // A message is malformed: what comes behind it isn't read.
    (
        Encoding::Hexadecimal,
        "4200690100000000 42006A0200000000 |",
        true,
        1,
        "4200690100000000\n42006A0200000000\n",
        "capture: byte 8: Protocol Version Major (0x42006A): a message begins with a Structure\n",
    ),
    // Reading fails behind messages, of which the last one waits for the next character; and within the front.
    (
        Encoding::Hexadecimal,
        "4200690100000000 42006A0100000000",
        true,
        2,
        "4200690100000000\n",
        "capture: it can't be read\n",
    ),
    (
        Encoding::Detected,
        "4200690100000000 42006A0100000000",
        true,
        2,
        "",
        "capture: it can't be read\n",
    ),
    // The front tells what it is: what would be lines of tcpdump or base64 there is none behind it.
    (
        Encoding::Detected,
        "4200690100000000 4200690100000000 4200690100000000 4200690100000000 Q",
        false,
        2,
        "4200690100000000\n4200690100000000\n4200690100000000\n4200690100000000\n",
        "capture: taken as hexadecimal: byte 68, 'Q', is no digit (--input)\n",
    ),
    (
        Encoding::Detected,
        "4200690100000000 4200690100000000 4200690100000000 4200690100000000\n\t0x0000: 4200 6b01 0000 0000\n",
        false,
        1,
        "4200690100000000\n4200690100000000\n4200690100000000\n4200690100000000\n000042006B0100000000\n",
        "capture: byte 32: 0x000042: unknown type\n",
    ),
    // Within the front all of it tells.
    (
        Encoding::Detected,
        "4200690100000000\n\t0x0000: 4200 6b01 0000 0000\n",
        false,
        0,
        "42006B0100000000\n",
        "",
    ),
    // In base64 an error leaves the messages in front of it printed, and so do digits that are missing, that stand behind padding,
    // or that are no group.
    (
        Encoding::Base64,
        "QgBpAQAAAABCAGkBAAAAAEIAaQEAAAAA|",
        false,
        2,
        "4200690100000000\n4200690100000000\n4200690100000000\n",
        "capture: taken as base64: byte 32, '|', is no digit\n",
    ),
    (
        Encoding::Base64,
        "QgBpAQAAAABCAGkBAAAAAEIAaQEAAAAAQg",
        false,
        2,
        "4200690100000000\n4200690100000000\n4200690100000000\n",
        "capture: taken as base64: byte 34: digits are missing at the end, or too many are there\n",
    ),
    (
        Encoding::Base64Url,
        "QgBpAQAAAAA=QgBpAQAAAAA=\n",
        false,
        2,
        "4200690100000000\n",
        "capture: taken as base64url: byte 25: digits are missing at the end, or too many are there\n",
    ),
    (
        Encoding::Armoured,
        "QgBpAQAAAAB=====\nQgBpAQAAAAA=*",
        false,
        2,
        "",
        "capture: taken as armoured base64: byte 29, '*', is no digit\n",
    ),
    // A message is malformed: what comes behind it isn't read.
    (
        Encoding::Base64,
        "QgBpAQAAAABCAGkCAAAAAEIAaQEAAAAA|",
        true,
        1,
        "4200690100000000\n4200690200000000\n",
        "capture: byte 8: Protocol Version (0x420069): a message begins with a Structure\n",
    ),
    // Reading fails behind messages, of which the last one waits for the next character; and within the front.
    (
        Encoding::Base64,
        "QgBpAQAAAABCAGkBAAAAAEIAaQEAAAAA",
        true,
        2,
        "4200690100000000\n4200690100000000\n",
        "capture: it can't be read\n",
    ),
    (
        Encoding::Detected,
        "QgBpAQAAAABCAGkBAAAAAEIAaQEAAAAAQgBpAQAAAABCAGkBAAAAAEIAaQEAAAAA",
        true,
        2,
        "",
        "capture: it can't be read\n",
    ),
    // Each alphabet has two digits of its own.
    (
        Encoding::Detected,
        "QgBpAQAAABBCAEMIAAAACPvvvv____vv",
        false,
        0,
        "42006901000000104200430800000008FBEFBEFFFFFFFBEF\n",
        "",
    ),
];

fn breaks_so(alloc: Global, row: Row) -> bool {
    let (encoding, text, fails, status, printed, line) = row;
    match run_slow(
        alloc,
        alloc,
        Task::Hexadecimal,
        encoding,
        text.as_bytes(),
        7,
        fails,
    ) {
        Ok((outcome, _)) => outcome.is(status, printed, line),
        Err(AllocError) => false,
    }
}

#[test]
fn texts_that_end_early(rt: HostRuntime) {
    for row in BROKEN {
        assert!(rt; breaks_so(rt.alloc(), row), "{row:?}");
    }
}

// Three empty structures in base64: 32 digits of both alphabets.
const THREE: &str = "QgBpAQAAAABCAGkBAAAAAEIAaQEAAAAA";

// How they are printed.
const THREE_LINES: &str = "4200690100000000\n4200690100000000\n4200690100000000\n";

// What is made of them, so many times, and a digit of base64url: whether this is printed of all of them, and this line reported.
fn is_told(alloc: Global, times: u64, line: &str) -> Result<bool, AllocError> {
    let mut text = repeated(alloc, THREE, times)?;
    text.push_str("-")?;
    let lines = repeated(alloc, THREE_LINES, times)?;
    let (outcome, _) = run_slow(
        alloc,
        alloc,
        Task::Hexadecimal,
        Encoding::Detected,
        text.as_bytes(),
        1000,
        false,
    )?;
    Ok(outcome.is(2, lines.as_str(), line))
}

#[test]
fn a_longer_front_tells_the_digits(rt: HostRuntime) {
    let within =
        "capture: taken as base64url: byte 993: digits are missing at the end, or too many are there (--input)\n";
    let behind = "capture: taken as base64: byte 1024, '-', is no digit (--input)\n";
    assert_eq!(rt; is_told(rt.alloc(), 31, within), Ok(true));
    assert_eq!(rt; is_told(rt.alloc(), 32, behind), Ok(true));
}

// Whether so many messages are printed in blocks of at most so many bytes for the input.
fn prints_within(
    alloc: Global,
    encoding: Encoding,
    text: &str,
    lines: &str,
    count: u64,
) -> Result<bool, AllocError> {
    let text = repeated(alloc, text, count)?;
    let lines = repeated(alloc, lines, count)?;
    let heap = BoundedAllocator::in_blocks(alloc, 65_536);
    let (outcome, _) = run_slow(
        &heap,
        alloc,
        Task::Hexadecimal,
        encoding,
        text.as_bytes(),
        70_000,
        false,
    )?;
    Ok(outcome.is(0, lines.as_str(), ""))
}

#[test]
fn a_text_is_not_stored(rt: HostRuntime) {
    let alloc = rt.alloc();
    // 130,000 and 192,000 characters, in buffers of 65,536.
    assert_eq!(rt;
        prints_within(alloc, Encoding::Detected, DIGITS, DIGITS, 2000),
        Ok(true)
    );
    for encoding in [Encoding::Detected, Encoding::Base64Url, Encoding::Armoured] {
        let same = prints_within(alloc, encoding, THREE, THREE_LINES, 6000);
        assert_eq!(rt; same, Ok(true), "{encoding:?}");
    }
}
