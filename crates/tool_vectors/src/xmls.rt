//! Messages printed as a document of XML, and documents read back as messages.

use crate::pieces::asked_slow;
use crate::runs::{CREATE_RESPONSE, Outcome, VERSION, no_names, run_asked};
use kmip_ttlv_memory::BoundedAllocator;
use std::alloc::Global;
use ttlv_run::{Asked, Encoding, Product, Strict, Task};

/// What is asked for a document.
const DOCUMENT: Asked<'static> = Asked::Gather {
    task: Task::Hexadecimal,
    encoding: Encoding::Detected,
    product: Product::Document,
};

/// The same, of whole messages alone.
const STRICT: Asked<'static> = Asked::Gather {
    task: Task::Whole {
        strict: Strict::Hexadecimal,
    },
    encoding: Encoding::Detected,
    product: Product::Document,
};

// The document of [`VERSION`].
const VERSION_XML: &str =
    "<KMIP>\n<ProtocolVersion><ProtocolVersionMajor type=\"Integer\" value=\"1\"/><ProtocolVersionMinor type=\"Integer\" value=\"0\"/></ProtocolVersion>\n</KMIP>\n";

// An input, the status, what is printed, and what on standard error.
type Row = (&'static str, u8, &'static str, &'static str);

const PRINTED: [Row; 7] = [
    ("", 0, "<KMIP>\n</KMIP>\n", ""),
    (VERSION, 0, VERSION_XML, ""),
    (
        "4200690100000000 4200080100000000",
        0,
        "<KMIP>\n<ProtocolVersion/>\n<Attribute/>\n</KMIP>\n",
        "",
    ),
    // The messages in front of a malformed one.
    (
        "4200690100000000 4200690100000008 42006A0200000003",
        1,
        "<KMIP>\n<ProtocolVersion/>\n</KMIP>\n",
        "capture: byte 16: Protocol Version Major (0x42006A): wrong length for the type\n",
    ),
    // The messages in front of digits that are missing.
    (
        "4200690100000000 4",
        2,
        "<KMIP>\n<ProtocolVersion/>\n</KMIP>\n",
        "capture: taken as hexadecimal: byte 18: digits are missing at the end, or too many are there (--input)\n",
    ),
    // A text with a character that XML can't hold: nothing is printed.
    (
        "4200690100000000 4200690100000010 4200940700000001 1B00000000000000",
        1,
        "",
        "capture: a text has a character that XML can't hold\n",
    ),
    // What XML escapes.
    (
        "4200690100000010 4200940700000003 3C26220000000000",
        0,
        "<KMIP>\n<ProtocolVersion><UniqueIdentifier type=\"TextString\" value=\"&lt;&amp;&quot;\"/></ProtocolVersion>\n</KMIP>\n",
        "",
    ),
];

fn printed(alloc: Global, asked: Asked<'static>, input: &str) -> Outcome {
    match crate::runs::names_in(alloc) {
        Ok(names) => run_asked(alloc, alloc, &names, asked, input.as_bytes()),
        Err(_) => run_asked(alloc, alloc, &no_names(alloc), asked, input.as_bytes()),
    }
}

#[test]
fn documents(rt: HostRuntime) {
    for (input, status, output, errors) in PRINTED {
        let outcome = printed(rt.alloc(), DOCUMENT, input);
        assert!(rt; outcome.is(status, output, errors), "{input}");
    }
}

// Of whole messages alone, an error line tells no tag.
#[test]
fn a_strict_document(rt: HostRuntime) {
    let outcome = printed(rt.alloc(), STRICT, PRINTED[3].0);
    assert!(rt;
        outcome.is(
            1,
            PRINTED[3].2,
            "capture: byte 16: no tag: wrong length for the type\n"
        )
    );
}

const READ: [Row; 12] = [
    ("<KMIP/>", 0, "", ""),
    (
        "<ProtocolVersion></ProtocolVersion>",
        0,
        "4200690100000000\n",
        "",
    ),
    (VERSION_XML, 0, VERSION_LINE, ""),
    // A declaration, a mark in front, comments, and the other form of an element.
    (
        "\u{feff}<?xml version=\"1.0\"?><!-- two --><KMIP>\n<ProtocolVersion/>\n <TTLV tag=\"0x420008\" type=\"Structure\"/></KMIP>",
        0,
        "4200690100000000\n4200080100000000\n",
        "",
    ),
    (
        "",
        1,
        "",
        "capture: byte 0: not XML: the text ends too early\n",
    ),
    (
        "\u{feff}<KMIP>",
        1,
        "",
        "capture: byte 9: not XML: the text ends too early\n",
    ),
    (
        "<KMIP><ProtocolVersion/><Nothing/></KMIP>",
        1,
        "",
        "capture: byte 24: the name is no tag's\n",
    ),
    (
        "\u{feff}<KMIP><ProtocolVersion/><BatchCount type=\"Integer\" value=\"one\"/></KMIP>",
        1,
        "",
        "capture: byte 27: a value is none of its type\n",
    ),
    (
        "<BatchCount type=\"Integer\" value=\"1\"><ProtocolVersion/></BatchCount>",
        1,
        "",
        "capture: byte 37: an element in one that is no Structure\n",
    ),
    (
        "<KMIP><BatchCount type=\"integer\" value=\"1\"/></KMIP>",
        1,
        "",
        "capture: byte 6: the name of a type is unknown\n",
    ),
    (
        "<KMIP><BatchCount type=\"Integer\"/></KMIP>",
        1,
        "",
        "capture: byte 6: the attributes are not those of an item\n",
    ),
    // An item that is no message, behind one that is.
    (
        "<KMIP><ProtocolVersion/><BatchCount type=\"Integer\" value=\"1\"/></KMIP>",
        1,
        "4200690100000000\n",
        "capture: an item is no message: the root is no Structure\n",
    ),
];

const VERSION_LINE: &str =
    "420069010000002042006A0200000004000000010000000042006B02000000040000000000000000\n";

fn read(alloc: Global, raw: bool, input: &[u8]) -> Outcome {
    run_asked(
        alloc,
        alloc,
        &no_names(alloc),
        Asked::FromXml { raw },
        input,
    )
}

#[test]
fn documents_that_are_read(rt: HostRuntime) {
    for (input, status, output, errors) in READ {
        let outcome = read(rt.alloc(), false, input.as_bytes());
        assert!(rt; outcome.is(status, output, errors), "{input}");
    }
}

// The bytes of an item that is no message, and an input that is no text.
#[test]
fn raw_items(rt: HostRuntime) {
    let outcome = read(
        rt.alloc(),
        true,
        b"<BatchCount type=\"Integer\" value=\"1\"/>",
    );
    assert!(rt;
        outcome.status == 0
            && outcome.output.as_slice()
                == b"\x42\x00\x0D\x02\0\0\0\x04\0\0\0\x01\0\0\0\0".as_slice()
    );
    let outcome = read(rt.alloc(), true, b"<KMIP>\xFF</KMIP>");
    assert!(rt; outcome.is(2, "", "capture: it is not UTF-8\n"));
}

// A message, printed as a document and read back, is the same bytes.
#[test]
fn a_message_comes_back(rt: HostRuntime) {
    let document = printed(rt.alloc(), DOCUMENT, CREATE_RESPONSE);
    let back = read(rt.alloc(), false, document.output.as_slice());
    assert!(rt; document.status == 0 && back.status == 0);
    assert!(rt;
        back.output.as_slice().strip_suffix(b"\n".as_slice()) == Some(CREATE_RESPONSE.as_bytes())
    );
}

// Whether what is asked is done in pieces of each size as at once.
fn is_same_in_pieces(alloc: Global, asked: Asked<'static>, row: Row) -> bool {
    let (input, status, output, errors) = row;
    for most in [1, 7, 51] {
        let (outcome, _) = asked_slow(
            alloc,
            alloc,
            &no_names(alloc),
            asked,
            input.as_bytes(),
            most,
            false,
        );
        if !outcome.is(status, output, errors) {
            return false;
        }
    }
    true
}

#[test]
fn documents_in_pieces(rt: HostRuntime) {
    assert!(rt; is_same_in_pieces(rt.alloc(), DOCUMENT, PRINTED[1]));
    for row in READ {
        assert!(rt;
            is_same_in_pieces(rt.alloc(), Asked::FromXml { raw: false }, row),
            "{row:?}"
        );
    }
}

// Whether a run in which one allocation fails prints all, or no message and why; and whether one failed.
fn is_right(alloc: Global, asked: Asked<'static>, row: Row, before: u64) -> (bool, bool) {
    let (input, _, output, _) = row;
    let heap = BoundedAllocator::failing_after(alloc, before);
    let outcome = run_asked(&heap, alloc, &no_names(&heap), asked, input.as_bytes());
    let failed = heap.has_failed();
    let whole = outcome.is(0, output, "");
    let line = "capture: out of memory\n";
    let none = outcome.is(3, "", line) || outcome.is(3, PRINTED[0].2, line);
    (whole || failed && none, failed)
}

// Whether each does, where one more than twice as many succeed as in the one before, up to the first in which none fails. (The words of the
// standard take thousands.)
fn each_is_right(alloc: Global, asked: Asked<'static>, row: Row) -> bool {
    let mut before = 0u64;
    for _ in 0..20u64 {
        let (right, failed) = is_right(alloc, asked, row, before);
        if !right || !failed {
            return right;
        }
        before = before.saturating_mul(2).saturating_add(1);
    }
    false
}

#[test]
fn a_growth_may_fail(rt: HostRuntime) {
    assert!(rt; each_is_right(rt.alloc(), DOCUMENT, PRINTED[1]));
    assert!(rt; each_is_right(rt.alloc(), Asked::FromXml { raw: false }, READ[2]));
}
