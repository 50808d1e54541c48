//! That calls succeed with memory at hand, however short or long a message, a prefix, a diagnostic or a table of names is.

use crate::messages::{VERSION, is_made_of};
use crate::printers::printer;
use kmip_ttlv::PrettyPrinter;
use kmip_ttlv::items::{FoundItem, find_fault, walk_items};
use kmip_ttlv::names::{own_names, tag_names};
use kmip_ttlv::types::TtlvTag;
use kmip_ttlv::util::{
    Indentation, LentTagMap, Pieces, TextSink, push_diag, push_read_back, read_back_counted,
    read_back_named, text_named,
};
use kmip_ttlv_json::{Hiding, push_json};
use std::alloc::{AllocError, Global};
use std::collections::HashMap;
use std::str;

// Of this each beginning is a prefix.
const DIGITS: &str = "420069014200";

// A text of forty characters, of which each beginning is a diagnostic, and a comment in a table.
const TEXT: &str = "#2006A[42006Bi42006Ce1:42006Dt42006E[]]]";

// The first characters of that text.
fn beginning(count: usize) -> &'static str {
    TEXT.get(..count).unwrap_or(TEXT)
}

// A printer of this prefix, with a name or none.
fn made(
    alloc: Global,
    prefix: &str,
    named: bool,
    closed: bool,
) -> Result<PrettyPrinter, AllocError> {
    let mut printer = printer(alloc, prefix, closed)?;
    if named {
        let mut names: HashMap<TtlvTag, &'static str> = HashMap::new(alloc);
        if names
            .insert(TtlvTag::from([0x42, 0, 0x6A]), "Major")
            .is_err()
        {
            return Err(AllocError);
        }
        printer.with_tag_map(names);
    }
    Ok(printer)
}

// Whether every call of the printer succeeds.
fn prints(alloc: Global, printer: &PrettyPrinter, bytes: &[u8], text: &str) -> bool {
    let mut out = Vec::new(alloc);
    printer.to_diag_string(bytes).is_ok()
        && printer.to_diag_counted(bytes).is_ok()
        && printer.to_string(bytes).is_ok()
        && printer.write_diag(&mut out, bytes).is_ok()
        && printer.write_text(&mut out, bytes).is_ok()
        && printer.from_diag_string(text).is_ok()
        && printer.clone().is_ok()
}

// With a name or without, with empty structures open or closed.
const WAYS: [(bool, bool); 4] = [(false, false), (false, true), (true, false), (true, true)];

// Whether every printer of this prefix succeeds with these bytes and this text.
fn all_print(alloc: Global, prefix: &str, bytes: &[u8], text: &str) -> bool {
    for (named, closed) in WAYS {
        match made(alloc, prefix, named, closed) {
            Ok(printer) if prints(alloc, &printer, bytes, text) => {}
            _ => return false,
        }
    }
    true
}

// Whether the calls with lent names succeed.
fn named_succeed(alloc: Global, prefix: &str, bytes: &[u8], text: &str) -> bool {
    let names: LentTagMap = HashMap::new(alloc);
    let mut out = String::new(alloc);
    let full = Indentation::Full;
    text_named(alloc, &names, true, bytes).is_ok()
        && push_diag(alloc, &mut out, prefix, true, bytes).is_ok()
        && read_back_named(alloc, prefix, &names, text).is_ok()
        && read_back_counted(alloc, prefix, &names, full, text).is_ok()
        && push_read_back(alloc, &mut out, prefix, &names, full, text).is_ok()
        && push_json(alloc, &mut out, Hiding::Nothing, &names, bytes).is_ok()
}

// Whether the walks and the tables succeed.
fn others_succeed(alloc: Global, bytes: &[u8], text: &str) -> bool {
    let mut none: [FoundItem; 0] = [];
    walk_items(alloc, bytes, &mut none).is_ok()
        && find_fault(alloc, bytes).is_ok()
        && (text.is_empty() || tag_names(alloc, text).is_ok() && own_names(alloc, text).is_ok())
}

// Whether all succeed with so many bytes and characters, under each prefix.
fn all_succeed(alloc: Global, message: &[u8], count: usize) -> bool {
    let bytes = message.get(..count).unwrap_or(&[]);
    let text = beginning(count);
    for digits in 0..=12 {
        let prefix = DIGITS.get(..digits).unwrap_or(DIGITS);
        if !all_print(alloc, prefix, bytes, text) || !named_succeed(alloc, prefix, bytes, text) {
            return false;
        }
    }
    others_succeed(alloc, bytes, text)
}

// Whether that holds for each size.
fn every_size(alloc: Global) -> bool {
    let Ok(bytes) = hex::decode(alloc, VERSION) else {
        return false;
    };
    for count in 0..=40 {
        if !all_succeed(alloc, bytes.as_slice(), count) {
            return false;
        }
    }
    true
}

#[test]
fn every_small_size(rt: HostRuntime) {
    assert!(rt; every_size(rt.alloc()));
}

// Sends a text in so many pieces of this size, behind some bytes, and returns whether all were taken.
fn is_sent(written: &mut Vec<u8>, ahead: usize, size: usize, count: usize) -> bool {
    let mut pieces = Pieces::new(written);
    let mut is_sent = pieces.push_str(beginning(ahead)).is_ok();
    for _ in 0..count {
        is_sent = is_sent && pieces.push_str(beginning(size)).is_ok();
    }
    pieces.finish().is_ok() && is_sent
}

// Whether a writer gets that text.
fn is_written(alloc: Global, ahead: usize, size: usize, count: usize) -> bool {
    let mut written = Vec::new(alloc);
    let is_sent = is_sent(&mut written, ahead, size, count);
    let text = str::from_utf8(written.as_slice()).unwrap_or("not UTF-8");
    is_sent && is_made_of(text, beginning(ahead), beginning(size), count, "")
}

#[test]
fn pieces_of_every_small_size(rt: HostRuntime) {
    for size in 0..=40usize {
        let count = 20_000 / (size + 1);
        for ahead in [0, 1, 2, 3, 5, 7] {
            assert!(rt;
                is_written(rt.alloc(), ahead, size, count),
                "{size} behind {ahead}"
            );
        }
    }
}
