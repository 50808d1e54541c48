//! Runs of the program: the text that it prints, or its error line.

use crate::messages::{VERSION, VERSION_LINES};
use hex_to_txt_run::run::run;
use std::alloc::{AllocError, Allocator, Global};

/// Arguments, an input, and the printed text; or the beginning of the error line.
pub type Row = (&'static str, &'static str, &'static str);

/// A pair of numbers, with padding that is not zero.
pub const PAIR: &str =
    "AAAAAA0100000020BBBBBB020000000400000003FFFFFFFFCCCCCC0200000004FFFFFFFB00000000";

/// The text of that pair.
pub const PAIR_TEXT: &str =
    "0xBBBBBB 3\n0xCCCCCC -5\nAAAAAA0100000020BBBBBB02000000040000000300000000CCCCCC0200000004FFFFFFFB00000000\n";

const USAGE: &str = "usage: hex_to_txt flat|text|diag|closed|undiag [prefix]\n";

const PRINTED: [Row; 15] = [
    ("flat", PAIR, PAIR_TEXT),
    (
        "flat",
        "\"AAAAAA01\", \"00000020\"\r\nBB BB BB 02,00000004\n00000003 ffffffff\n\"cccccc\" 0200000004 fffffffb 00000000\n",
        PAIR_TEXT,
    ),
    // What follows is ignored.
    (
        "flat",
        "AAAAAA0100000030BBBBBB02000000040000000300000000CCCCCC02000000040000000500000000DDDDDD07000000016100000000000000",
        "0xBBBBBB 3\n0xCCCCCC 5\nAAAAAA0100000020BBBBBB02000000040000000300000000CCCCCC02000000040000000500000000\n",
    ),
    ("diag 4200", VERSION, "69[6Ai6Bi]\n"),
    ("diag", VERSION, "420069[42006Ai42006Bi]\n"),
    ("diag", "", "ERR\n"),
    ("diag 4200", "4200690100000000", "69[ERR\n"),
    ("closed 4200", "4200690100000000", "69[]\n"),
    ("closed", "4200690100000000", "420069[]\n"),
    ("text", VERSION, VERSION_LINES),
    ("text 4200", VERSION, VERSION_LINES),
    (
        "undiag 4200",
        "69[",
        "Tag: 0x420069, Type: Structure (0x01)\n",
    ),
    (
        "undiag 4200",
        "69[\r\n\n",
        "Tag: 0x420069, Type: Structure (0x01)\n",
    ),
    (
        "undiag",
        "420069[",
        "Tag: 0x420069, Type: Structure (0x01)\n",
    ),
    ("undiag", "", "\n"),
];

const REFUSED: [Row; 13] = [
    (
        "flat",
        "AAAAAA0100000030BBBBBB02000000040000000300000000CCCCCC02000000040000000500000000DDDDDD0700000001FF00000000000000",
        "refused: Malformed TTLV: ",
    ),
    ("flat", "", "refused: IO error "),
    ("flat", "ABC", "not hexadecimal\n"),
    ("flat", "zz", "not hexadecimal\n"),
    ("diag", "ABC", "not hexadecimal\n"),
    ("closed", "zz", "not hexadecimal\n"),
    ("text", "ABC", "not hexadecimal\n"),
    ("", PAIR, USAGE),
    ("flat 4200", PAIR, USAGE),
    ("bogus", PAIR, USAGE),
    ("Flat", PAIR, USAGE),
    ("diag 4200 x", PAIR, USAGE),
    ("text a b", PAIR, USAGE),
];

/// What a run wrote, and its status.
#[derive(Drop)]
pub struct Outcome {
    pub status: u8,
    pub output: Vec<u8>,
    pub errors: Vec<u8>,
}

impl Outcome {
    /// Whether this text was printed, and no error.
    pub fn prints(&self, text: &str) -> bool {
        self.status == 0 && self.output.as_slice() == text.as_bytes() && self.errors.is_empty()
    }

    /// Whether nothing was printed but one error line with this beginning.
    pub fn returns_error(&self, beginning: &str) -> bool {
        let line = self.errors.as_slice();
        let feeds = line.iter().filter(|byte| **byte == b'\n').count();
        self.status == 1
            && self.output.is_empty()
            && line.starts_with(beginning.as_bytes())
            && line.ends_with(b"\n")
            && feeds == 1
    }
}

/// The arguments in a line.
pub fn words_of(alloc: Global, line: &str) -> Result<Vec<String>, AllocError> {
    let mut words = Vec::new(alloc);
    for word in line.split_whitespace() {
        words.push(String::from_str(alloc, word)?)?;
    }
    Ok(words)
}

/// A run on an input in memory, with an allocator of its own.
pub fn run_with<A: Allocator + Copy>(
    heap: A,
    alloc: Global,
    line: &str,
    input: &[u8],
) -> Result<Outcome, AllocError> {
    let words = words_of(alloc, line)?;
    let mut input = input;
    let mut output = Vec::new(alloc);
    let mut errors = Vec::new(alloc);
    let status = run(heap, words.as_slice(), &mut input, &mut output, &mut errors);
    Ok(Outcome {
        status,
        output,
        errors,
    })
}

// Whether the row's text is printed, and no error.
fn prints(alloc: Global, row: Row) -> bool {
    let (line, input, text) = row;
    match run_with(alloc, alloc, line, input.as_bytes()) {
        Ok(outcome) => outcome.prints(text),
        Err(AllocError) => false,
    }
}

// Whether nothing is printed but one error line with this beginning.
fn returns_error(alloc: Global, line: &str, input: &[u8], beginning: &str) -> bool {
    match run_with(alloc, alloc, line, input) {
        Ok(outcome) => outcome.returns_error(beginning),
        Err(AllocError) => false,
    }
}

fn fails_at_row(alloc: Global, row: Row) -> bool {
    let (line, input, beginning) = row;
    returns_error(alloc, line, input.as_bytes(), beginning)
}

#[test]
fn texts_are_printed(rt: HostRuntime) {
    for row in PRINTED {
        assert!(rt; prints(rt.alloc(), row), "{row:?}");
    }
}

#[test]
fn errors_are_lines(rt: HostRuntime) {
    for row in REFUSED {
        assert!(rt; fails_at_row(rt.alloc(), row), "{row:?}");
    }
    assert!(rt; returns_error(rt.alloc(), "undiag", b"69\xff[", "not UTF-8\n"));
}
