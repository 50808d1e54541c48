//! The tool from its words to what it prints: each option, on messages that hold keys.

use crate::captures::{GAP, TAGGED, TAGGED_LINES, TALK, TALK_DIGITS, TALK_LINES};
use crate::runs::Outcome;
use kmip_ttlv_memory::{BoundedAllocator, Wiping};
use std::alloc::{AllocError, Global};
use std::io;
use std::io::Read;
use ttlv_run::files::Opener;
use ttlv_run::{Request, Terminal, report_usage, request_of, run_request};

// A key block, with an enumeration in its key.
const KEY: &str =
    "420040010000005042004205000000040000000100000000420045010000002842004301000000204200\
3F08000000080909090909090909420075050000000400000004000000004200\
2A02000000040000008000000000";

// A message with an own secret, a mask and a byte string.
const OWN: &str =
    "540003010000003054000208000000030A0B0C000000000042002C02000000040000000400000000540004\
08000000080001020304050607";

// Key Material whose length is 0, with the bytes of the key behind it: no header.
const LEAK: &str = "420040010000001042004301000000003031323334353637";

// Requests of three runs: a time, an identifier and a count, which differs in the third.
const RUN_1: &str = "420078010000003042009209000000080000000000000001420094070000000\
36F6E65000000000042000D02000000040000000100000000";

const RUN_2: &str = "420078010000003042009209000000080000000000000002420094070000000\
374776F000000000042000D02000000040000000100000000";

const RUN_3: &str = "420078010000003042009209000000080000000000000003420094070000000\
3736978000000000042000D02000000040000000200000000";

// A file or a table in memory.
#[derive(Drop)]
struct Held {
    bytes: &'static [u8],
}

impl Read for Held {
    fn read(&mut self, buf: &mut [u8]) -> io::Result<usize> {
        self.bytes.read(buf)
    }
}

// Those by name; any other name can't be opened.
#[derive(Drop)]
struct Folder;

impl Opener for Folder {
    type Input = Held;

    ghost opens = { λ _ _ _ _. Unit {0} };

    fn open(&mut self, name: &str) -> Option<Held> {
        let bytes = match name {
            "key" => KEY.as_bytes(),
            "own" => OWN.as_bytes(),
            "leak" => LEAK.as_bytes(),
            "run1" => RUN_1.as_bytes(),
            "run2" => RUN_2.as_bytes(),
            "run3" => RUN_3.as_bytes(),
            "capture" => TALK.as_slice(),
            "tagged" => TAGGED.as_slice(),
            "own.txt" => b"# Ours.\n540002 Own Secret\n".as_slice(),
            "same.txt" => b"540009 own secret\n540002 Own Secret\n".as_slice(),
            "values.txt" => b"540002 Own Secret\n540002:00000001 A Value\n".as_slice(),
            _ => return None,
        };
        Some(Held { bytes })
    }
}

const PLAIN: Terminal<'static> = Terminal {
    is_one: false,
    no_color: None,
};

const COLORED: Terminal<'static> = Terminal {
    is_one: true,
    no_color: None,
};

// Words, where the output goes, the status, what is printed and the lines of errors.
type Row = (
    &'static str,
    Terminal<'static>,
    u8,
    &'static str,
    &'static str,
);

const SHOWN_KEY: &str =
    "Tag: Key Block (0x420040), Type: Structure (0x01), Data:\n  Tag: Key Format Type (0x420042), Type: Enumeration (0x05), Data: 0x000001 (1) Raw\n  Tag: Key Value (0x420045), Type: Structure (0x01), Data:\n    Tag: Key Material (0x420043), Type: Structure (0x01), Data:\n      Tag: Key (0x42003F), Type: ByteString (0x08), Data: <redacted>\n      Tag: Recommended Curve (0x420075), Type: Enumeration (0x05), Data: <redacted>\n  Tag: Cryptographic Length (0x42002A), Type: Integer (0x02), Data: 0x000080 (128)\n";

const REDACTED_KEY: &str =
    "Tag: Key Block (0x420040), Type: Structure (0x01), Data:\n  Tag: Key Format Type (0x420042), Type: Enumeration (0x05), Data: 0x000001 (1) Raw\n  Tag: Key Value (0x420045), Type: Structure (0x01), Data:\n    Tag: Key Material (0x420043), Type: Structure (0x01), Data:\n      Tag: Key (0x42003F), Type: ByteString (0x08), Data: <redacted>\n      Tag: Recommended Curve (0x420075), Type: Enumeration (0x05), Data: 0x000004 (4) P-224\n  Tag: Cryptographic Length (0x42002A), Type: Integer (0x02), Data: <redacted>\n";

const JSON_KEY: &str =
    "{\"tag\":\"0x420040\",\"type\":\"Structure\",\"value\":[{\"tag\":\"0x420042\",\"type\":\"Enumeration\",\"value\":\"0x00000001\"},{\"tag\":\"0x420045\",\"type\":\"Structure\",\"value\":[{\"tag\":\"0x420043\",\"type\":\"Structure\",\"value\":[{\"tag\":\"0x42003F\",\"type\":\"ByteString\",\"value\":null},{\"tag\":\"0x420075\",\"type\":\"Enumeration\",\"value\":null}]}]},{\"tag\":\"0x42002A\",\"type\":\"Integer\",\"value\":\"0x00000080\"}]}\n";

const SHOWN_OWN: &str =
    "Tag: 0x540003, Type: Structure (0x01), Data:\n  Tag: 0x540002, Type: ByteString (0x08), Data: <redacted>\n  Tag: Cryptographic Usage Mask (0x42002C), Type: Integer (0x02), Data: 0x000004 (4) Encrypt\n  Tag: 0x540004, Type: ByteString (0x08), Data: 0001020304050607\n";

const NARROW_OWN: &str =
    "0\tTag: 0x540003, Type: Structure (0x01), Data:\n8\t  Tag: Own Secret (0x540002), Type: ByteString (0x08), Data: 0A0B.. (3 bytes)\n24\t  Tag: Cryptographic Usage Mask (0x42002C), Type: Integer (0x02), Data: 0x000004 (4) Encrypt\n40\t  Tag: 0x540004, Type: ByteString (0x08), Data: 0001.. (8 bytes)\n";

const ONE: &str = "  Tag: 0x540002, Type: ByteString (0x08), Data: 0A0B0C\n";

const TWO: &str =
    "  Tag: 0x540002, Type: ByteString (0x08), Data: 0A0B0C\n  Tag: Cryptographic Usage Mask (0x42002C), Type: Integer (0x02), Data: 0x000004 (4) Encrypt\n";

const OWN_LINES: &str =
    "Tag: 0x540003, Type: Structure (0x01), Data:\n  Tag: 0x540002, Type: ByteString (0x08), Data: 0A0B0C\n  Tag: Cryptographic Usage Mask (0x42002C), Type: Integer (0x02), Data: 0x000004 (4) Encrypt\n  Tag: 0x540004, Type: ByteString (0x08), Data: 0001020304050607\n";

const LENGTHS: &str =
    "48\tTag: 0x540003, Type: Structure (0x01), Data:\n3\t  Tag: 0x540002, Type: ByteString (0x08), Data: 0A0B0C\n4\t  Tag: Cryptographic Usage Mask (0x42002C), Type: Integer (0x02), Data: 0x000004 (4) Encrypt\n8\t  Tag: 0x540004, Type: ByteString (0x08), Data: 0001020304050607\n";

const NAMED_ONE: &str = "  Tag: Own Secret (0x540002), Type: ByteString (0x08), Data: 0A0B0C\n";

const MATERIAL: &str =
    "    Tag: Key Material (0x420043), Type: Structure (0x01), Data:\n      Tag: Key (0x42003F), Type: ByteString (0x08), Data: 0909090909090909\n      Tag: Recommended Curve (0x420075), Type: Enumeration (0x05), Data: 0x000004 (4) P-224\n";

const COLORED_ONE: &str =
    "\u{1b}[36m  Tag: 0x540002\u{1b}[0m, Type: ByteString (0x08), Data: \u{1b}[32m0A0B0C\u{1b}[0m\n";

const LEAK_LINES: &str =
    "Tag: Key Block (0x420040), Type: Structure (0x01), Data:\n  Tag: Key Material (0x420043), Type: Structure (0x01), Data:\n";

const OTHER_COUNT: &str =
    "  Tag: Request Message (0x420078), Type: Structure (0x01), Data:\n    Tag: Time Stamp (0x420092), Type: DateTime (0x09), Data: <left out>\n    Tag: Unique Identifier (0x420094), Type: TextString (0x07), Data: <left out>\n-   Tag: Batch Count (0x42000D), Type: Integer (0x02), Data: 0x000001 (1)\n+   Tag: Batch Count (0x42000D), Type: Integer (0x02), Data: 0x000002 (2)\n";

const OTHER_MESSAGE: &str =
    "- Tag: Key Block (0x420040), Type: Structure (0x01), Data:\n-   Tag: Key Material (0x420043), Type: Structure (0x01), Data:\n+ Tag: Request Message (0x420078), Type: Structure (0x01), Data:\n+   Tag: Time Stamp (0x420092), Type: DateTime (0x09), Data: <left out>\n+   Tag: Unique Identifier (0x420094), Type: TextString (0x07), Data: <left out>\n+   Tag: Batch Count (0x42000D), Type: Integer (0x02), Data: 0x000001 (1)\n";

// Rows of the bytes of items and of two files: a table of its own, since one of all rows is too large to be proved.
const FURTHER: [Row; 7] = [
    (
        "show --bytes --tag 540002 own",
        PLAIN,
        0,
        "54000208000000030A0B0C\t  Tag: 0x540002, Type: ByteString (0x08), Data: 0A0B0C\n",
        "",
    ),
    // Two files compared: alike but for a time and an identifier, with another count, malformed, and not there.
    ("diff run1 run2", PLAIN, 0, "", ""),
    ("diff run2 run3", COLORED, 1, OTHER_COUNT, ""),
    (
        "diff leak run1",
        PLAIN,
        1,
        OTHER_MESSAGE,
        "leak: byte 16: 0x303132: unknown type\n",
    ),
    ("diff run1 none", PLAIN, 2, "", "none: it can't be opened\n"),
    (
        "diff none nothing",
        PLAIN,
        2,
        "",
        "none: it can't be opened\nnothing: it can't be opened\n",
    ),
    (
        "diff --names none.txt run1 run3",
        PLAIN,
        2,
        "",
        "none.txt: it can't be opened\n",
    ),
];

const ROWS: [Row; 65] = [
    ("show --redact=keys key", PLAIN, 0, SHOWN_KEY, ""),
    ("show --raw --redact=keys key", PLAIN, 0, SHOWN_KEY, ""),
    ("show --redact key", PLAIN, 0, REDACTED_KEY, ""),
    ("show --redact=all --raw key", PLAIN, 0, REDACTED_KEY, ""),
    ("json --redact=keys key", PLAIN, 0, JSON_KEY, ""),
    (
        "show --redact=keys --secrets own.txt own",
        PLAIN,
        0,
        SHOWN_OWN,
        "",
    ),
    // A table of secrets names tags alone, and is read as a whole.
    (
        "show --redact=keys --secrets values.txt own",
        PLAIN,
        2,
        "",
        "values.txt: a table of secrets names tags alone, as `540001 Own Secret`\n",
    ),
    (
        "show --redact=keys --secrets none.txt own",
        PLAIN,
        2,
        "",
        "none.txt: it can't be opened\n",
    ),
    (
        "show --names none.txt own",
        PLAIN,
        2,
        "",
        "none.txt: it can't be opened\n",
    ),
    (
        "show --names own.txt -o --width 2 own",
        PLAIN,
        0,
        NARROW_OWN,
        "",
    ),
    (
        "show --names own.txt --offsets --width=2 own",
        PLAIN,
        0,
        NARROW_OWN,
        "",
    ),
    ("show --tag 540002 own", PLAIN, 0, ONE, ""),
    ("show --tag 0x540002 --color auto own", PLAIN, 0, ONE, ""),
    (
        "show --tag nothing own",
        PLAIN,
        2,
        "",
        "nothing: no tag has this name\n",
    ),
    (
        "show --tag 540002 --color always own",
        PLAIN,
        0,
        COLORED_ONE,
        "",
    ),
    ("show --tag 540002 own", COLORED, 0, COLORED_ONE, ""),
    ("show --tag 540002 --color never own", COLORED, 0, ONE, ""),
    (
        "show --tag 540002 own",
        Terminal {
            is_one: true,
            no_color: Some(""),
        },
        0,
        COLORED_ONE,
        "",
    ),
    (
        "show --tag 540002 own",
        Terminal {
            is_one: true,
            no_color: Some("1"),
        },
        0,
        ONE,
        "",
    ),
    // Values alone, by the path of their tags, in any spelling.
    (
        "show --get Key-Block/key_format_type key",
        PLAIN,
        0,
        "Raw\n",
        "",
    ),
    (
        "show --get 420040/420045/420043/42003F key",
        PLAIN,
        0,
        "0909090909090909\n",
        "",
    ),
    (
        "show --redact=keys --get 420040/420045/420043/42003F key",
        PLAIN,
        0,
        "<redacted>\n",
        "",
    ),
    ("show --get 420040/42002A key", COLORED, 0, "128\n", ""),
    (
        "show --redact --get 420040/42002A key",
        PLAIN,
        0,
        "<redacted>\n",
        "",
    ),
    ("show --get key-block key", PLAIN, 0, "\n", ""),
    (
        "show --names own.txt --width 2 --get 540003/540004 own own",
        PLAIN,
        0,
        "0001.. (8 bytes)\n0001.. (8 bytes)\n",
        "",
    ),
    (
        "show --names own.txt --get 540003/own_secret own",
        PLAIN,
        0,
        "0A0B0C\n",
        "",
    ),
    (
        "show --get 420040/42003F key",
        PLAIN,
        1,
        "",
        "key: no item has this path\n",
    ),
    (
        "show --get 42003F key",
        PLAIN,
        1,
        "",
        "key: no item has this path\n",
    ),
    (
        "show --get key-block/nothing key",
        PLAIN,
        2,
        "",
        "nothing: no tag has this name\n",
    ),
    (
        "show --get 420040/420043 leak",
        PLAIN,
        1,
        "\n",
        "leak: byte 16: 0x303132: unknown type\n",
    ),
    (
        "show --strict --get 420040/420043 leak",
        PLAIN,
        1,
        "",
        "leak: byte 16: no tag: unknown type\n",
    ),
    // What is printed of bytes where an item is due: of a message that is to be redacted nothing, and no tag.
    (
        "show leak",
        PLAIN,
        1,
        LEAK_LINES,
        "leak: byte 16: 0x303132: unknown type\n",
    ),
    (
        "show --strict leak",
        PLAIN,
        1,
        "",
        "leak: byte 16: no tag: unknown type\n",
    ),
    (
        "show --redact leak",
        PLAIN,
        1,
        "",
        "leak: byte 16: no tag: unknown type\n",
    ),
    (
        "show --redact=keys leak",
        PLAIN,
        1,
        "",
        "leak: byte 16: no tag: unknown type\n",
    ),
    (
        "json leak",
        PLAIN,
        1,
        "",
        "leak: byte 16: 0x303132: unknown type\n",
    ),
    (
        "json --strict leak",
        PLAIN,
        1,
        "",
        "leak: byte 16: no tag: unknown type\n",
    ),
    (
        "json --redact leak",
        PLAIN,
        1,
        "",
        "leak: byte 16: no tag: unknown type\n",
    ),
    (
        "json --redact=keys leak",
        PLAIN,
        1,
        "",
        "leak: byte 16: no tag: unknown type\n",
    ),
    (
        "diag --strict leak",
        PLAIN,
        1,
        "",
        "leak: byte 16: no tag: unknown type\n",
    ),
    (
        "diag --strict key",
        PLAIN,
        0,
        "420040[420042e1:420045[420043[42003Fo420075e4:]]42002Ai]\n",
        "",
    ),
    ("show --strict --tag 540002 own", PLAIN, 0, ONE, ""),
    // Several tags: their order is that of the items. The first that is none is reported.
    ("show --tag 42002C --tag 540002 own", PLAIN, 0, TWO, ""),
    (
        "show --tag 540002 --tag 540003 own",
        PLAIN,
        0,
        OWN_LINES,
        "",
    ),
    (
        "show --tag 540002 --tag nothing --tag none own",
        PLAIN,
        2,
        "",
        "nothing: no tag has this name\n",
    ),
    ("show --tag 420069 --tag 42006A own", PLAIN, 0, "", ""),
    ("show --lengths own", PLAIN, 0, LENGTHS, ""),
    (
        "show --lengths --tag 540002 -o own",
        PLAIN,
        0,
        "8\t3\t  Tag: 0x540002, Type: ByteString (0x08), Data: 0A0B0C\n",
        "",
    ),
    // Names in other spellings.
    ("show --tag KeyMaterial key", PLAIN, 0, MATERIAL, ""),
    ("show --tag key-material key", PLAIN, 0, MATERIAL, ""),
    ("show --tag KEY_MATERIAL key", PLAIN, 0, MATERIAL, ""),
    ("show --tag=-keymaterial_ key", PLAIN, 0, MATERIAL, ""),
    (
        "show --names own.txt --tag OWN-secret own",
        PLAIN,
        0,
        NAMED_ONE,
        "",
    ),
    // Neither a beginning of a name nor one that goes on is the name. (There is a tag Key, but none Key Mat.)
    (
        "show --tag key-mat key",
        PLAIN,
        2,
        "",
        "key-mat: no tag has this name\n",
    ),
    (
        "show --tag key-materials key",
        PLAIN,
        2,
        "",
        "key-materials: no tag has this name\n",
    ),
    // Of two tags with such names it is that of the first line.
    (
        "show --names same.txt --tag own-secret own",
        PLAIN,
        0,
        "",
        "",
    ),
    // The name of each of several files, where lines are shown.
    (
        "show --tag 540002 own own",
        PLAIN,
        0,
        "==> own <==\n  Tag: 0x540002, Type: ByteString (0x08), Data: 0A0B0C\n==> own <==\n  Tag: 0x540002, Type: ByteString (0x08), Data: 0A0B0C\n",
        "",
    ),
    (
        "show --strict --tag 540002 leak own",
        PLAIN,
        1,
        "==> leak <==\n==> own <==\n  Tag: 0x540002, Type: ByteString (0x08), Data: 0A0B0C\n",
        "leak: byte 16: no tag: unknown type\n",
    ),
    (
        "diag own own",
        PLAIN,
        0,
        "540003[540002o42002Ci540004o]\n540003[540002o42002Ci540004o]\n",
        "",
    ),
    ("check own key", PLAIN, 0, "", ""),
    // Packet captures: with a gap, of a port with a message and of one without, and in the other format.
    ("show capture", PLAIN, 1, TALK_LINES, GAP),
    ("hex --port 40000 capture", PLAIN, 1, TALK_DIGITS, GAP),
    (
        "check --input pcap --port 443 capture",
        PLAIN,
        1,
        "",
        "capture: no message on TCP port 443 (--port)\n",
    ),
    ("show --redact tagged", PLAIN, 0, TAGGED_LINES, ""),
];

// A tag as it is named, the table of names, a file, and what is printed of it.
const SPELLED: [(&str, &str, &str, &str); 4] = [
    ("Key Material", "own.txt", "key", MATERIAL),
    (" key  material", "own.txt", "key", MATERIAL),
    // The exact name comes first, wherever its line is.
    ("Own Secret", "same.txt", "own", NAMED_ONE),
    ("own secret", "same.txt", "own", ""),
];

fn words_of(alloc: Global, line: &str) -> Result<Vec<String>, AllocError> {
    let mut words = Vec::new(alloc);
    words.push(String::from_str(alloc, "ttlv")?)?;
    for word in line.split_whitespace() {
        words.push(String::from_str(alloc, word)?)?;
    }
    Ok(words)
}

// What a request comes to, with this standard input.
fn ran(alloc: Global, request: &Request<'_>, terminal: Terminal<'_>, mut stdin: &[u8]) -> Outcome {
    let mut output = Vec::new(alloc);
    let mut errors = Vec::new(alloc);
    let memory = Wiping::new(alloc);
    let status = run_request(
        &memory,
        request,
        terminal,
        &mut Folder,
        &mut Folder,
        &mut stdin,
        &mut output,
        &mut errors,
    );
    Outcome {
        status,
        output,
        errors,
    }
}

fn prints(alloc: Global, row: Row) -> bool {
    let (line, terminal, status, output, errors) = row;
    let Ok(words) = words_of(alloc, line) else {
        return false;
    };
    match request_of(alloc, words.as_slice()) {
        Ok(request) => ran(alloc, &request, terminal, b"").is(status, output, errors),
        Err(_) => false,
    }
}

// Whether a tag that is named so is found.
fn finds(alloc: Global, row: (&str, &str, &str, &str)) -> bool {
    let (tag, names, file, output) = row;
    let mut words = Vec::new(alloc);
    for word in ["ttlv", "show", "--tag", tag, "--names", names, file] {
        let Ok(word) = String::from_str(alloc, word) else {
            return false;
        };
        if words.push(word).is_err() {
            return false;
        }
    }
    match request_of(alloc, words.as_slice()) {
        Ok(request) => ran(alloc, &request, PLAIN, b"").is(0, output, ""),
        Err(_) => false,
    }
}

#[test]
fn further_words_to_lines(rt: HostRuntime) {
    for row in FURTHER {
        let (line, _, _, _, _) = row;
        assert!(rt; prints(rt.alloc(), row), "{line}");
    }
}

#[test]
fn words_to_lines(rt: HostRuntime) {
    for row in ROWS {
        let (line, _, _, _, _) = row;
        assert!(rt; prints(rt.alloc(), row), "{line}");
    }
    for row in SPELLED {
        assert!(rt; finds(rt.alloc(), row), "{row:?}");
    }
}

// The status of a request where an allocation fails, and whether it did.
fn failing_after(alloc: Global, request: &Request<'_>, before: u64) -> (u8, bool) {
    let heap = BoundedAllocator::failing_after(alloc, before);
    let mut stdin = b"".as_slice();
    let mut output = Vec::new(alloc);
    let mut errors = Vec::new(alloc);
    let status = run_request(
        &heap,
        request,
        PLAIN,
        &mut Folder,
        &mut Folder,
        &mut stdin,
        &mut output,
        &mut errors,
    );
    (status, heap.has_failed())
}

// Whether each allocation that fails gives status 3, and the request is done where none does.
fn ends_without_memory(alloc: Global, request: &Request<'_>) -> bool {
    for before in 0..1_000u64 {
        let (status, failed) = failing_after(alloc, request, before);
        if !failed {
            return status == 0;
        }
        if status != 3 {
            return false;
        }
    }
    false
}

#[test]
fn each_growth_for_tags_may_fail(rt: HostRuntime) -> Result<(), AllocError> {
    let words = words_of(rt.alloc(), "show --tag 42002C --tag 540002 own")?;
    let Ok(request) = request_of(rt.alloc(), words.as_slice()) else {
        return Err(AllocError);
    };
    assert!(rt; ends_without_memory(rt.alloc(), &request));
    Ok(())
}

// What a comparison comes to where an allocation fails, and whether it did.
fn compared_after(alloc: Global, request: &Request<'_>, before: u64) -> (Outcome, bool) {
    let heap = BoundedAllocator::failing_after(alloc, before);
    let mut stdin = b"".as_slice();
    let mut output = Vec::new(alloc);
    let mut errors = Vec::new(alloc);
    let status = run_request(
        &heap,
        request,
        PLAIN,
        &mut Folder,
        &mut Folder,
        &mut stdin,
        &mut output,
        &mut errors,
    );
    let outcome = Outcome {
        status,
        output,
        errors,
    };
    (outcome, heap.has_failed())
}

// Whether each allocation that fails gives status 3, unless less memory did as well: lines are collected so.
fn compares_without_memory(alloc: Global, request: &Request<'_>) -> bool {
    for before in 0..1_000u64 {
        let (outcome, failed) = compared_after(alloc, request, before);
        let whole = outcome.is(1, OTHER_COUNT, "");
        if !failed {
            return whole;
        }
        if !whole && outcome.status != 3 {
            return false;
        }
    }
    false
}

#[test]
fn each_growth_for_two_files_may_fail(rt: HostRuntime) -> Result<(), AllocError> {
    let words = words_of(rt.alloc(), "diff run2 run3")?;
    let Ok(request) = request_of(rt.alloc(), words.as_slice()) else {
        return Err(AllocError);
    };
    assert!(rt; compares_without_memory(rt.alloc(), &request));
    Ok(())
}

// A message of so many structures, one in the other.
fn nested(alloc: Global, depth: u32) -> Result<Vec<u8>, AllocError> {
    let mut bytes = Vec::new(alloc);
    for above in 0..depth {
        let below = depth - above - 1;
        bytes.extend_from_slice(&[0x42, 0x00, 0x69, 0x01])?;
        bytes.extend_from_slice(&below.wrapping_mul(8).to_be_bytes())?;
    }
    Ok(bytes)
}

// A message of 131,072 open structures is valid.
#[test]
fn open_structures(rt: HostRuntime) -> Result<(), AllocError> {
    let input = nested(rt.alloc(), 131_072)?;
    let words = words_of(rt.alloc(), "check")?;
    let Ok(request) = request_of(rt.alloc(), words.as_slice()) else {
        return Err(AllocError);
    };
    let outcome = ran(rt.alloc(), &request, PLAIN, input.as_slice());
    assert!(rt; outcome.is(0, "", ""));
    Ok(())
}

// Words that ask for no run: the status, and what the line has.
const USAGES: [(&str, u8); 5] = [
    ("show --secrets own.txt own", 2),
    ("json --redact --secrets own.txt own", 2),
    ("json --redact=all --secrets own.txt own", 2),
    ("shout", 2),
    ("show --help", 0),
];

fn ends(rt: &HostRuntime, line: &str, status: u8) -> bool {
    let Ok(words) = words_of(rt.alloc(), line) else {
        return false;
    };
    match request_of(rt.alloc(), words.as_slice()) {
        Ok(_) => false,
        Err(error) => report_usage(rt, &mut rt.stderr(), &error) == status,
    }
}

#[test]
fn usages(rt: HostRuntime) {
    for (line, status) in USAGES {
        assert!(rt; ends(&rt, line, status), "{line}");
    }
}
