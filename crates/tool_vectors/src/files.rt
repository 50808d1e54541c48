//! Runs over several inputs: their order, the greatest status, one error line for each bad file, and the lines with their names.

use crate::runs::{Outcome, VERSION, of};
use kmip_ttlv_memory::BoundedAllocator;
use kmip_ttlv_names::{
    STANDARD_TAGS, TableError, own_names, standard_masks, standard_secrets, standard_values,
};
use std::alloc::{AllocError, Global};
use std::collections::HashMap;
use std::io;
use std::io::{ErrorKind, Read};
use ttlv_run::files::{Opener, run_files};
use ttlv_run::progress::Progress;
use ttlv_run::table::own_table;
use ttlv_run::{Asked, Encoding, Look, Memory, Names, Task, Values};

// An input in memory, which may fail in place of its end.
#[derive(Drop)]
struct Held {
    bytes: &'static [u8],
    fails: bool,
}

impl Read for Held {
    fn read(&mut self, buf: &mut [u8]) -> io::Result<usize> {
        if self.bytes.is_empty() && self.fails {
            return Err(io::Error::from(ErrorKind::Other));
        }
        self.bytes.read(buf)
    }
}

// Seventeen structures, one in the other.
const DEEP: &str =
    "42006901000000804200690100000078420069010000007042006901000000684200690100000060420069010000005842006901000000504200690100000048420069010000004042006901000000384200690100000030420069010000002842006901000000204200690100000018420069010000001042006901000000084200690100000000";

// Inputs by name; any other name can't be opened.
#[derive(Drop)]
struct Folder;

impl Opener for Folder {
    type Input = Held;

    ghost opens = { λ _ _ _ _. Unit {0} };

    fn open(&mut self, name: &str) -> Option<Held> {
        let (bytes, fails) = match name {
            "whole" => (VERSION.as_bytes(), false),
            "two" => (b"420069010000000042006A0100000000".as_slice(), false),
            "cut" => (b"420069010000000042006901".as_slice(), false),
            "empty" => (b"".as_slice(), false),
            "text" => (b"hello".as_slice(), false),
            "failing" => (b"42".as_slice(), true),
            "cut\n\u{1b}[31m\u{202e}" => (b"420069010000000042006901".as_slice(), false),
            "deep" => (DEEP.as_bytes(), false),
            "text\t\u{200b}" => (b"hello".as_slice(), false),
            _ => return None,
        };
        Some(Held { bytes, fails })
    }
}

// Files, a status, what is printed of them, and the error lines.
type Row = (&'static [&'static str], u8, &'static str, &'static str);

// The hexadecimal lines of the version, of the two messages, and of the one before the cut.
const ROWS: [Row; 13] = [
    (
        &["whole"],
        0,
        "420069010000002042006A0200000004000000010000000042006B02000000040000000000000000\n",
        "",
    ),
    (
        &["two", "whole"],
        0,
        "4200690100000000\n42006A0100000000\n420069010000002042006A0200000004000000010000000042006B02000000040000000000000000\n",
        "",
    ),
    (&["empty"], 0, "", ""),
    (
        &["two", "empty", "two"],
        0,
        "4200690100000000\n42006A0100000000\n4200690100000000\n42006A0100000000\n",
        "",
    ),
    // A malformed file between two good ones.
    (
        &["two", "cut", "two"],
        1,
        "4200690100000000\n42006A0100000000\n4200690100000000\n42006901\n4200690100000000\n42006A0100000000\n",
        "cut: byte 8: Protocol Version (0x420069): the input ends within the message\n",
    ),
    // A missing file, before and after others.
    (
        &["none", "two"],
        2,
        "4200690100000000\n42006A0100000000\n",
        "none: it can't be opened\n",
    ),
    (
        &["two", "none"],
        2,
        "4200690100000000\n42006A0100000000\n",
        "none: it can't be opened\n",
    ),
    // A file that fails while it is read, and one that can't be decoded.
    (
        &["failing", "text", "two"],
        2,
        "4200690100000000\n42006A0100000000\n",
        "failing: it can't be read\ntext: taken as base64: byte 5: digits are missing at the end, or too many are there (--input)\n",
    ),
    // The greatest status counts, wherever it is.
    (
        &["none", "cut"],
        2,
        "4200690100000000\n42006901\n",
        "none: it can't be opened\ncut: byte 8: Protocol Version (0x420069): the input ends within the message\n",
    ),
    (
        &["cut", "none", "empty"],
        2,
        "4200690100000000\n42006901\n",
        "cut: byte 8: Protocol Version (0x420069): the input ends within the message\nnone: it can't be opened\n",
    ),
    // A name stays in its line, and sends a terminal nothing.
    (
        &["a\nb\u{1b}[31m\\"],
        2,
        "",
        "a\\nb\\u{1b}[31m\\\\: it can't be opened\n",
    ),
    (
        &["cut\n\u{1b}[31m\u{202e}"],
        1,
        "4200690100000000\n42006901\n",
        "cut\\n\\u{1b}[31m\\u{202e}: byte 8: Protocol Version (0x420069): the input ends within the message\n",
    ),
    (
        &["text\t\u{200b}"],
        2,
        "",
        "text\\t\\u{200b}: taken as base64: byte 5: digits are missing at the end, or too many are there (--input)\n",
    ),
];

// The same where readable lines are asked for: of several files each that can be opened has a line with its name.
const SHOWN_ROWS: [Row; 4] = [
    (&["two"], 0, TWO, ""),
    (&[], 0, "", ""),
    (
        &["none", "two"],
        2,
        "==> two <==\nTag: Protocol Version (0x420069), Type: Structure (0x01), Data:\nTag: Protocol Version Major (0x42006A), Type: Structure (0x01), Data:\n",
        "none: it can't be opened\n",
    ),
    (
        &["two", "empty", "none", "cut\n\u{1b}[31m\u{202e}", "failing"],
        2,
        "==> two <==\nTag: Protocol Version (0x420069), Type: Structure (0x01), Data:\nTag: Protocol Version Major (0x42006A), Type: Structure (0x01), Data:\n==> empty <==\n==> cut\\n\\u{1b}[31m\\u{202e} <==\nTag: Protocol Version (0x420069), Type: Structure (0x01), Data:\n==> failing <==\n",
        "none: it can't be opened\ncut\\n\\u{1b}[31m\\u{202e}: byte 8: Protocol Version (0x420069): the input ends within the message\nfailing: it can't be read\n",
    ),
];

const TWO: &str =
    "Tag: Protocol Version (0x420069), Type: Structure (0x01), Data:\nTag: Protocol Version Major (0x42006A), Type: Structure (0x01), Data:\n";

const SHOWN: Asked<'static> = Asked::Print {
    task: Task::Show { look: Look::PLAIN },
    encoding: Encoding::Detected,
};

const HEXADECIMAL: Asked<'static> = Asked::Print {
    task: Task::Hexadecimal,
    encoding: Encoding::Detected,
};

const CHECK: Asked<'static> = Asked::Print {
    task: Task::Check {
        kmip: false,
        empty: false,
    },
    encoding: Encoding::Detected,
};

fn outcome_of(
    alloc: Global,
    asked: Asked<'_>,
    table: &str,
    files: &[&str],
) -> Result<Outcome, TableError> {
    let own = own_names(alloc, table)?;
    let values = standard_values(alloc)?;
    let masks = standard_masks(alloc)?;
    let secrets = standard_secrets(alloc)?;
    let names = Names {
        tags: own.tags,
        by_name: HashMap::new(alloc),
        values,
        masks,
        own: own.values,
        secrets,
        words: None,
    };
    let mut output = Vec::new(alloc);
    let mut errors = Vec::new(alloc);
    let status = run_files(
        of(alloc),
        asked,
        &names,
        files,
        &mut Folder,
        &mut output,
        &mut errors,
    );
    Ok(Outcome {
        status,
        output,
        errors,
    })
}

fn runs_so(alloc: Global, asked: Asked<'_>, row: Row) -> bool {
    let (files, status, text, lines) = row;
    match outcome_of(alloc, asked, STANDARD_TAGS, files) {
        Ok(outcome) => outcome.is(status, text, lines),
        Err(_) => false,
    }
}

#[test]
fn several_files(rt: HostRuntime) {
    for row in ROWS {
        assert!(rt; runs_so(rt.alloc(), HEXADECIMAL, row), "{row:?}");
    }
    for row in SHOWN_ROWS {
        assert!(rt; runs_so(rt.alloc(), SHOWN, row), "{row:?}");
    }
}

// An output that takes no byte.
#[derive(Drop)]
struct Full;

impl io::Write for Full {
    fn write(&mut self, _buf: &[u8]) -> io::Result<usize> {
        Err(io::Error::from(ErrorKind::Other))
    }

    fn flush(&mut self) -> io::Result<()> {
        Ok(())
    }
}

// Behind an output that fails no other file is read.
fn stops_at_three(alloc: Global, asked: Asked<'_>) -> Result<bool, TableError> {
    let own = own_names(alloc, STANDARD_TAGS)?;
    let values = standard_values(alloc)?;
    let masks = standard_masks(alloc)?;
    let secrets = standard_secrets(alloc)?;
    let names = Names {
        tags: own.tags,
        by_name: HashMap::new(alloc),
        values,
        masks,
        own: own.values,
        secrets,
        words: None,
    };
    let files = ["none", "two", "cut"];
    let mut errors = Vec::new(alloc);
    let status = run_files(
        of(alloc),
        asked,
        &names,
        &files,
        &mut Folder,
        &mut Full,
        &mut errors,
    );
    let lines = b"none: it can't be opened\ntwo: the output can't be written\n";
    Ok(status == 3 && errors.as_slice() == lines.as_slice())
}

#[test]
fn an_output_that_fails_ends_it(rt: HostRuntime) {
    for asked in [HEXADECIMAL, SHOWN] {
        assert!(rt;
            matches!(stops_at_three(rt.alloc(), asked), Ok(true)),
            "{asked:?}"
        );
    }
}

// A file that is nested too deep for the memory there is has its line, and those behind it are read.
fn goes_on_behind_no_memory(alloc: Global) -> Result<bool, TableError> {
    let wide = BoundedAllocator::in_blocks(alloc, 1_048_576);
    let narrow = BoundedAllocator::in_blocks(alloc, 64);
    let own = own_names(&wide, STANDARD_TAGS)?;
    let values = standard_values(&wide)?;
    let masks = standard_masks(&wide)?;
    let secrets = standard_secrets(&wide)?;
    let names = Names {
        tags: own.tags,
        by_name: HashMap::new(&wide),
        values,
        masks,
        own: own.values,
        secrets,
        words: None,
    };
    let memory = Memory {
        input: alloc,
        rest: &narrow,
    };
    let files = ["deep", "two", "deep", "none"];
    let mut output = Vec::new(alloc);
    let mut errors = Vec::new(alloc);
    let status = run_files(
        memory,
        CHECK,
        &names,
        &files,
        &mut Folder,
        &mut output,
        &mut errors,
    );
    let lines = b"deep: out of memory\ndeep: out of memory\nnone: it can't be opened\n";
    Ok(status == 3 && errors.as_slice() == lines.as_slice())
}

#[test]
fn a_file_without_memory_does_not_end_it(rt: HostRuntime) {
    assert!(rt; matches!(goes_on_behind_no_memory(rt.alloc()), Ok(true)));
}

// A table, the result of reading it, and the error line.
const TABLES: [(&[u8], Result<&str, u8>, &str); 17] = [
    (
        b"540001 Own Tag\n",
        Ok("420069 Standard\n540001 Own Tag\n"),
        "",
    ),
    (b"", Ok("420069 Standard\n"), ""),
    (
        b"540001:00000002 Own Value\n",
        Ok("420069 Standard\n540001:00000002 Own Value\n"),
        "",
    ),
    // No value, one of more than four bytes, no tag, a tag of more than three, and no name.
    (
        b"540001 Own Tag\n540001:2x Own Value\n",
        Err(2),
        "names: line 2 names no tag\n",
    ),
    (
        b"540001:100000000 Own Value\n",
        Err(2),
        "names: line 1 names no tag\n",
    ),
    (
        b"\n1540001:2 Own Value\n",
        Err(2),
        "names: line 2 names no tag\n",
    ),
    (b"540001:2\n", Err(2), "names: line 1 names no tag\n"),
    (
        b"540001 Own Tag\n# a comment\nnothing\n",
        Err(2),
        "names: line 3 names no tag\n",
    ),
    (&[0x35, 0xFF], Err(2), "names: it is not UTF-8\n"),
    // A comment and white space at a line's end may have what a name may not: controls, U+0085, bidirectional, zero-width.
    (
        b"# \x1B[31m\xE2\x80\xAE\n540001 Own Tag \t\xC2\x85\r\n",
        Ok("420069 Standard\n# \x1B[31m\u{202E}\n540001 Own Tag \t\u{85}\r\n"),
        "",
    ),
    (b"540001 Own\x1B[31mTag\n", Err(2), HIDES),
    (b"540001 Own\tTag\n", Err(2), HIDES),
    (b"540001 Own\rTag\n", Err(2), HIDES),
    (b"540001 Own\xC2\x85Tag", Err(2), HIDES),
    (b"540001:00000002 Own\xE2\x80\xAETag\n", Err(2), HIDES),
    (b"540001 Own\xE2\x80\xA8Tag\n", Err(2), HIDES),
    (
        b"540001 Own Tag\n\n540001:2 Own Value\xE2\x80\x8B\n",
        Err(2),
        "names: line 3 has a control character, or one that can't be seen\n",
    ),
];

const HIDES: &str = "names: line 1 has a control character, or one that can't be seen\n";

// The same, of a name with a line feed and a mark of direction.
fn table_name_is_escaped(alloc: Global) -> bool {
    let mut input = b"nothing\n".as_slice();
    let mut errors = Vec::new(alloc);
    let read = own_table(alloc, "", "a\n\u{2066}", &mut input, &mut errors);
    let line = b"a\\n\\u{2066}: line 1 names no tag\n";
    matches!(read, Err(2)) && errors.as_slice() == line.as_slice()
}

fn reads_table(alloc: Global, row: (&[u8], Result<&str, u8>, &str)) -> bool {
    let (bytes, answer, line) = row;
    let mut input = bytes;
    let mut errors = Vec::new(alloc);
    let read = own_table(alloc, "420069 Standard\n", "names", &mut input, &mut errors);
    let same = match (&read, answer) {
        (Ok(table), Ok(text)) => table.as_str() == text,
        (Err(status), Err(wanted)) => *status == wanted,
        _ => false,
    };
    same && errors.as_slice() == line.as_bytes()
}

#[test]
fn tables_of_names(rt: HostRuntime) {
    for row in TABLES {
        assert!(rt; reads_table(rt.alloc(), row), "{row:?}");
    }
    assert!(rt; table_name_is_escaped(rt.alloc()));
    let mut failing = Held {
        bytes: b"540001 Own",
        fails: true,
    };
    let mut errors = Vec::new(rt.alloc());
    let read = own_table(rt.alloc(), "", "names", &mut failing, &mut errors);
    assert!(rt; matches!(read, Err(2)));
    assert_eq!(rt; errors.as_slice(), b"names: it can't be read\n".as_slice());
}

// Returns this many bytes, at most 65,536 per read.
#[derive(Drop)]
struct Zeros {
    left: usize,
}

impl Read for Zeros {
    fn read(&mut self, buf: &mut [u8]) -> io::Result<usize> {
        let most = buf.len().min(self.left).min(65_536);
        self.left -= most;
        Ok(most)
    }
}

fn reported(
    alloc: Global,
    bytes: usize,
    total: Option<u64>,
    shown: bool,
) -> Result<Vec<u8>, AllocError> {
    let mut errors = Vec::new(alloc);
    let mut all: Vec<u8> = Vec::new(alloc);
    let mut input = Progress::new(Zeros { left: bytes }, &mut errors, total, shown);
    let read = input.read_to_end(&mut all);
    drop(input);
    match read {
        Ok(count) if count == bytes => Ok(errors),
        _ => Err(AllocError),
    }
}

fn tells(alloc: Global, row: (usize, Option<u64>, bool, &str)) -> bool {
    let (bytes, total, shown, text) = row;
    match reported(alloc, bytes, total, shown) {
        Ok(line) => line.as_slice() == text.as_bytes(),
        Err(AllocError) => false,
    }
}

// The length of an input, whether that is known, whether there is a terminal, and the progress that is shown.
const TOLD: [(usize, Option<u64>, bool, &str); 6] = [
    (1_048_575, None, true, ""),
    (1_048_576, None, true, "1 MiB read\r\x1b[K"),
    (2_200_000, None, true, "1 MiB read\r2 MiB read\r\x1b[K"),
    (
        2_200_000,
        Some(2_200_000),
        true,
        "1 of 2 MiB read\r2 of 2 MiB read\r\x1b[K",
    ),
    (2_200_000, None, false, ""),
    (0, Some(0), true, ""),
];

#[test]
fn long_inputs(rt: HostRuntime) {
    for row in TOLD {
        assert!(rt; tells(rt.alloc(), row), "{row:?}");
    }
}
