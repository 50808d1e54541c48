//! Messages, diagnostics, tables and inputs that are long or deep: they are printed, walked and read back.

use crate::messages::{is_made_of, made_of};
use crate::printers::printer;
use crate::program::run_with;
use kmip_ttlv::PrettyPrinter;
use kmip_ttlv::items::{FoundItem, ItemWalk, Step, find_fault, walk_items};
use kmip_ttlv::names::{own_names, tag_names};
use kmip_ttlv::types::TtlvTag;
use kmip_ttlv_json::{Hiding, from_json, push_json};
use sample_shapes::inputs::{NUMBER, long, nested, repeated};
use std::alloc::{AllocError, Global};
use std::collections::HashMap;
use std::{io, str};

// A long message.
#[derive(Clone, Copy, Debug)]
enum Message {
    // So many numbers in a structure.
    Numbers(u32),
    // One text of so many letters in a structure.
    Text(u32),
    // One byte string of so many bytes 61 in a structure.
    Bytes(u32),
    // So many empty structures, one behind the other.
    Empties(u32),
}

fn made(alloc: Global, message: Message) -> Result<Vec<u8>, AllocError> {
    match message {
        Message::Numbers(count) => repeated(alloc, count, &NUMBER),
        Message::Text(count) => long(alloc, 7, count),
        Message::Bytes(count) => long(alloc, 8, count),
        Message::Empties(count) => {
            let mut bytes = Vec::new(alloc);
            for _ in 0..count {
                bytes.extend_from_slice(&[0x42, 0, 0x69, 1, 0, 0, 0, 0])?;
            }
            Ok(bytes)
        }
    }
}

// What is made of a message: a text, the same as it is written, the diagnostic, with empty structures open too, and what
// that is read back as.
#[derive(Clone, Copy, Debug)]
enum Form {
    Lines,
    WrittenLines,
    Diagnostic,
    WrittenDiagnostic,
    Open,
    ReadBack,
}

// What was written, which is UTF-8.
fn words_of(alloc: Global, written: &[u8]) -> Result<String, AllocError> {
    String::from_str(alloc, str::from_utf8(written).unwrap_or("not UTF-8"))
}

fn written(
    alloc: Global,
    printer: &PrettyPrinter,
    lines: bool,
    bytes: &[u8],
) -> io::Result<String> {
    let mut out = Vec::new(alloc);
    if lines {
        printer.write_text(&mut out, bytes)?;
    } else {
        printer.write_diag(&mut out, bytes)?;
    }
    Ok(words_of(alloc, out.as_slice())?)
}

fn read_back(printer: &PrettyPrinter, bytes: &[u8]) -> Result<String, AllocError> {
    let diagnostic = printer.to_diag_string(bytes)?;
    printer.from_diag_string(diagnostic.as_str())
}

fn printed(alloc: Global, form: Form, bytes: &[u8]) -> io::Result<String> {
    let mut printer = PrettyPrinter::new(alloc);
    printer.with_closed_empty(!matches!(form, Form::Open));
    match form {
        Form::Lines => Ok(printer.to_string(bytes)?),
        Form::WrittenLines => written(alloc, &printer, true, bytes),
        Form::Diagnostic | Form::Open => Ok(printer.to_diag_string(bytes)?),
        Form::WrittenDiagnostic => written(alloc, &printer, false, bytes),
        Form::ReadBack => Ok(read_back(&printer, bytes)?),
    }
}

// A form, and what it begins with, its part, so many times, and its end.
type Row = (Form, &'static str, &'static str, usize, &'static str);

const ROOT: &str = "Tag: 0xAAAAAA, Type: Structure (0x01), Data:";

const NUMBER_LINE: &str = "\n  Tag: 0xBBBBBB, Type: Integer (0x02), Data: 0x000007 (7)";

const HIDDEN_ROOT: &str = "Tag: 0xAAAAAA, Type: Structure (0x01), Data: ";

const HIDDEN_LINE: &str = "\n  Tag: 0xBBBBBB, Type: Integer (0x02), Data: <redacted>";

const MANY: Message = Message::Numbers(8_192);

const NUMBERS: [Row; 5] = [
    (Form::Lines, ROOT, NUMBER_LINE, 8_192, "\n"),
    (Form::WrittenLines, ROOT, NUMBER_LINE, 8_192, "\n"),
    (Form::Diagnostic, "AAAAAA[", "BBBBBBi", 8_192, "]"),
    (Form::WrittenDiagnostic, "AAAAAA[", "BBBBBBi", 8_192, "]"),
    (Form::ReadBack, HIDDEN_ROOT, HIDDEN_LINE, 8_192, ""),
];

const TEXT_LINES: &str =
    "Tag: 0xAAAAAA, Type: Structure (0x01), Data:\n  Tag: 0xBBBBBB, Type: TextString (0x07), Data: ";

const HIDDEN_TEXT: &str =
    "Tag: 0xAAAAAA, Type: Structure (0x01), Data: \n  Tag: 0xBBBBBB, Type: TextString (0x07), Data: <redacted>";

// A hundred letters.
const LETTERS: &str =
    "aaaaaaaaaaaaaaaaaaaaaaaaaaaaaaaaaaaaaaaaaaaaaaaaaaaaaaaaaaaaaaaaaaaaaaaaaaaaaaaaaaaaaaaaaaaaaaaaaaaa";

const LONG: Message = Message::Text(3_100_000);

const TEXTS: [Row; 5] = [
    (Form::Lines, TEXT_LINES, LETTERS, 31_000, "\n"),
    (Form::WrittenLines, TEXT_LINES, LETTERS, 31_000, "\n"),
    (Form::Diagnostic, "AAAAAA[BBBBBBt]", "", 0, ""),
    (Form::WrittenDiagnostic, "AAAAAA[BBBBBBt]", "", 0, ""),
    (Form::ReadBack, HIDDEN_TEXT, "", 0, ""),
];

const BYTES_LINES: &str =
    "Tag: 0xAAAAAA, Type: Structure (0x01), Data:\n  Tag: 0xBBBBBB, Type: ByteString (0x08), Data: ";

const BYTES: [Row; 4] = [
    (Form::Lines, BYTES_LINES, "61", 100_000, "\n"),
    (Form::WrittenLines, BYTES_LINES, "61", 100_000, "\n"),
    (Form::Diagnostic, "AAAAAA[BBBBBBo]", "", 0, ""),
    (Form::WrittenDiagnostic, "AAAAAA[BBBBBBo]", "", 0, ""),
];

// Each stays open, in the one before; or the first one is the whole message.
const EMPTIES: [Row; 2] = [
    (Form::Open, "", "420069[", 10_000, "ERR"),
    (Form::Diagnostic, "420069[]", "", 0, ""),
];

const FEWER_EMPTIES: [Row; 2] = [
    (Form::Open, "", "420069[", 1_000, "ERR"),
    (Form::Diagnostic, "420069[]", "", 0, ""),
];

fn is_printed(alloc: Global, bytes: &[u8], row: Row) -> bool {
    let (form, first, part, times, end) = row;
    match printed(alloc, form, bytes) {
        Ok(text) => is_made_of(text.as_str(), first, part, times, end),
        Err(_) => false,
    }
}

fn all_are_printed(alloc: Global, message: Message, rows: &[Row]) -> bool {
    let Ok(bytes) = made(alloc, message) else {
        return false;
    };
    for row in rows {
        if !is_printed(alloc, bytes.as_slice(), *row) {
            return false;
        }
    }
    true
}

#[test]
fn long_messages_are_printed(rt: HostRuntime) {
    assert!(rt; all_are_printed(rt.alloc(), MANY, &NUMBERS));
    assert!(rt; all_are_printed(rt.alloc(), LONG, &TEXTS));
    assert!(rt; all_are_printed(rt.alloc(), Message::Bytes(100_000), &BYTES));
    assert!(rt; all_are_printed(rt.alloc(), Message::Empties(10_000), &EMPTIES));
    assert!(rt; all_are_printed(rt.alloc(), Message::Empties(1_000), &FEWER_EMPTIES));
}

// Whether so many items are counted in this message of empty structures, the last try among them.
fn is_counted(alloc: Global, closed: bool, count: u32, read: usize) -> bool {
    let Ok(bytes) = made(alloc, Message::Empties(count)) else {
        return false;
    };
    let mut printer = PrettyPrinter::new(alloc);
    printer.with_closed_empty(closed);
    matches!(printer.to_diag_counted(bytes.as_slice()), Ok((_, items)) if items == read)
}

#[test]
fn many_empty_structures(rt: HostRuntime) {
    for (closed, count, read) in [
        (false, 1_000, 1_001),
        (false, 10_000, 10_001),
        (true, 1_000, 1),
        (true, 10_000, 1),
    ] {
        assert!(rt; is_counted(rt.alloc(), closed, count, read), "{count}");
    }
}

// Whether so many lines are what this diagnostic is read back as.
fn has_lines(
    alloc: Global,
    first: &str,
    part: &str,
    times: usize,
    end: &str,
    lines: usize,
) -> bool {
    let Ok(text) = made_of(alloc, first, part, times, end) else {
        return false;
    };
    let Ok(printer) = printer(alloc, "4200", false) else {
        return false;
    };
    match printer.from_diag_string(text.as_str()) {
        Ok(read) => read.as_str().lines().count() == lines,
        Err(_) => false,
    }
}

#[test]
fn deep_and_long_diagnostics(rt: HostRuntime) {
    assert!(rt; has_lines(rt.alloc(), "", "69[", 1_000, "", 1_000));
    assert!(rt; has_lines(rt.alloc(), "78[", "69[6Ai]", 10_000, "]]", 20_001));
}

// Whether a walk meets so many items, step by step and as a whole, and no fault.
fn is_walked(alloc: Global, bytes: &[u8], count: usize) -> bool {
    let mut none: [FoundItem; 0] = [];
    let mut walk = ItemWalk::new(alloc, bytes);
    for _ in 0..count {
        if !matches!(walk.next(), Ok(Step::Item(_))) {
            return false;
        }
    }
    matches!(walk.next(), Ok(Step::End(None)))
        && matches!(walk_items(alloc, bytes, &mut none), Ok(end) if end.count == count && end.fault.is_none())
        && matches!(find_fault(alloc, bytes), Ok(None))
}

// A structure of a byte string that ends at the byte 7,000,008, and of a number there.
fn far(alloc: Global) -> Result<Vec<u8>, AllocError> {
    let mut message = Vec::from_slice(alloc, b"\x42\0\x69\x01\0\x6A\xCF\xD0")?;
    message.extend_from_slice(b"\x42\0\x6A\x08\0\x6A\xCF\xB8")?;
    message.resize(7_000_008, 0)?;
    message.extend_from_slice(&NUMBER)?;
    Ok(message)
}

fn far_is_walked(alloc: Global) -> bool {
    match far(alloc) {
        Ok(message) => is_walked(alloc, message.as_slice(), 3),
        Err(_) => false,
    }
}

fn deep_is_walked(alloc: Global, count: u32) -> bool {
    match nested(alloc, count) {
        Ok(message) => is_walked(alloc, message.as_slice(), count as usize),
        Err(_) => false,
    }
}

#[test]
fn long_and_deep_messages_are_walked(rt: HostRuntime) {
    assert!(rt; far_is_walked(rt.alloc()));
    assert!(rt; deep_is_walked(rt.alloc(), 210_000));
}

const NUMBERS_JSON: &str =
    "{\"tag\":\"0xAAAAAA\",\"type\":\"Structure\",\"value\":[{\"tag\":\"0xBBBBBB\",\"type\":\"Integer\",\"value\":\"0x00000007\"}";

const NUMBER_JSON: &str = ",{\"tag\":\"0xBBBBBB\",\"type\":\"Integer\",\"value\":\"0x00000007\"}";

const TEXT_JSON: &str =
    "{\"tag\":\"0xAAAAAA\",\"type\":\"Structure\",\"value\":[{\"tag\":\"0xBBBBBB\",\"type\":\"TextString\",\"value\":\"";

fn json_of(alloc: Global, bytes: &[u8]) -> Result<String, AllocError> {
    let mut text = String::new(alloc);
    let names = HashMap::new(alloc);
    push_json(alloc, &mut text, Hiding::Nothing, &names, bytes)?;
    Ok(text)
}

fn is_back(alloc: Global, json: &str, bytes: &[u8]) -> bool {
    match from_json(alloc, json) {
        Ok(again) => again.as_slice() == bytes,
        Err(_) => false,
    }
}

fn numbers_are_json(alloc: Global) -> bool {
    let Ok(bytes) = made(alloc, MANY) else {
        return false;
    };
    match json_of(alloc, bytes.as_slice()) {
        Ok(text) => {
            is_made_of(text.as_str(), NUMBERS_JSON, NUMBER_JSON, 8_191, "]}\n")
                && is_back(alloc, text.as_str(), bytes.as_slice())
        }
        Err(_) => false,
    }
}

fn a_text_is_json(alloc: Global) -> bool {
    let Ok(bytes) = made(alloc, LONG) else {
        return false;
    };
    match json_of(alloc, bytes.as_slice()) {
        Ok(text) => is_made_of(text.as_str(), TEXT_JSON, LETTERS, 31_000, "\"}]}\n"),
        Err(_) => false,
    }
}

#[test]
fn a_long_message_is_json_and_back(rt: HostRuntime) {
    assert!(rt; numbers_are_json(rt.alloc()));
    assert!(rt; a_text_is_json(rt.alloc()));
}

fn is_named(alloc: Global, table: &str, tag: TtlvTag) -> bool {
    match tag_names(alloc, table) {
        Ok(names) => names.get(&tag).copied() == Some("Major"),
        Err(_) => false,
    }
}

fn is_own_name(alloc: Global, table: &str, tag: TtlvTag) -> bool {
    match own_names(alloc, table) {
        Ok(own) => own.tags.get(&tag).copied() == Some("Major"),
        Err(_) => false,
    }
}

// Whether a table with a comment of so many bytes gives a tag its name.
fn is_read(alloc: Global, length: usize) -> bool {
    let tag = TtlvTag::from([0x42, 0, 0x6A]);
    match made_of(alloc, "", "#", length, "\n42006A Major\n") {
        Ok(table) => is_named(alloc, table.as_str(), tag)
            && is_own_name(alloc, table.as_str(), tag),
        Err(_) => false,
    }
}

// Whether the first of so many messages is printed.
fn is_closed(alloc: Global, count: usize) -> bool {
    let Ok(line) = made_of(alloc, "", "42006A0100000000", count, "\n") else {
        return false;
    };
    match run_with(alloc, alloc, "closed", line.as_bytes()) {
        Ok(outcome) => outcome.prints("42006A[]\n"),
        Err(_) => false,
    }
}

#[test]
fn long_tables_and_inputs_are_read(rt: HostRuntime) {
    assert!(rt; is_read(rt.alloc(), 1_100_000));
    assert!(rt; is_closed(rt.alloc(), 8_000));
}
