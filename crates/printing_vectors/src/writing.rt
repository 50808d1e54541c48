//! Texts that are sent to a writer in pieces, with hardly any memory, also if the writer fails.

use crate::messages::{VERSION, is_made_of, made_of};
use kmip_ttlv::PrettyPrinter;
use kmip_ttlv::util::{
    Indentation, LentTagMap, Pieces, push_diag, push_read_back, read_back_counted,
};
use kmip_ttlv_memory::BoundedAllocator;
use sample_shapes::inputs::{NUMBER, long, repeated};
use std::alloc::{AllocError, Allocator, Global};
use std::collections::HashMap;
use std::io::{ErrorKind, Write};
use std::{io, str};

// Takes as many bytes as it has room for, then fails; it counts the writes after that.
#[derive(Drop)]
struct Limited {
    taken: Vec<u8>,
    room: usize,
    kind: ErrorKind,
    failures: usize,
}

impl Write for Limited {
    fn write(&mut self, buf: &[u8]) -> io::Result<usize> {
        if self.room == 0 {
            self.failures = self.failures.saturating_add(1);
            return Err(io::Error::from(self.kind));
        }
        let most = buf.len().min(self.room);
        self.room -= most;
        self.taken.write(&buf[..most])
    }

    fn flush(&mut self) -> io::Result<()> {
        Ok(())
    }
}

// Which text of a printer.
#[derive(Clone, Copy, Debug)]
enum Kind {
    Lines,
    Diagnostic,
}

// The text in one string.
fn text_of(alloc: Global, kind: Kind, bytes: &[u8]) -> Result<String, AllocError> {
    let printer = PrettyPrinter::new(alloc);
    match kind {
        Kind::Lines => printer.to_string(bytes),
        Kind::Diagnostic => printer.to_diag_string(bytes),
    }
}

// Writes the text to a writer.
fn write<A: Allocator + Copy, W: Write>(
    printer: &PrettyPrinter<A>,
    kind: Kind,
    writer: &mut W,
    bytes: &[u8],
) -> io::Result<()> {
    match kind {
        Kind::Lines => printer.write_text(writer, bytes),
        Kind::Diagnostic => printer.write_diag(writer, bytes),
    }
}

// Whether a writer with too little room has as much of the text as fits, was called exactly once
// after that, and its own error is returned.
fn is_cut(
    alloc: Global,
    kind: Kind,
    bytes: &[u8],
    text: &str,
    room: usize,
    failure: ErrorKind,
) -> bool {
    let printer = PrettyPrinter::new(alloc);
    let mut writer = Limited {
        taken: Vec::new(alloc),
        room,
        kind: failure,
        failures: 0,
    };
    match write(&printer, kind, &mut writer, bytes) {
        Ok(()) => text.len() <= room,
        Err(error) => {
            error.kind() == failure
                && writer.failures == 1
                && writer.taken.len() == room
                && text.as_bytes().starts_with(writer.taken.as_slice())
        }
    }
}

// How much room a writer has, and how it fails.
const ENDS: [(usize, ErrorKind); 12] = [
    (0, ErrorKind::BrokenPipe),
    (0, ErrorKind::PermissionDenied),
    (0, ErrorKind::Other),
    (1, ErrorKind::BrokenPipe),
    (1, ErrorKind::PermissionDenied),
    (1, ErrorKind::Other),
    (10, ErrorKind::BrokenPipe),
    (10, ErrorKind::PermissionDenied),
    (10, ErrorKind::Other),
    (8_192, ErrorKind::BrokenPipe),
    (8_192, ErrorKind::PermissionDenied),
    (8_192, ErrorKind::Other),
];

fn all_are_cut(alloc: Global, kind: Kind, bytes: &[u8], text: &str) -> bool {
    for (room, failure) in ENDS {
        if !is_cut(alloc, kind, bytes, text, room, failure) {
            return false;
        }
    }
    true
}

// Whether that holds for a long leaf of this type.
fn has_beginnings(alloc: Global, kind: Kind, code: u8) -> bool {
    let Ok(bytes) = long(alloc, code, 100_000) else {
        return false;
    };
    match text_of(alloc, kind, bytes.as_slice()) {
        Ok(text) => all_are_cut(alloc, kind, bytes.as_slice(), text.as_str()),
        Err(_) => false,
    }
}

#[test]
fn a_writer_that_fails_has_a_beginning(rt: HostRuntime) {
    for code in [7, 8] {
        for kind in [Kind::Lines, Kind::Diagnostic] {
            assert!(rt; has_beginnings(rt.alloc(), kind, code), "{kind:?} {code}");
        }
    }
}

// Whether the text of these bytes is written, and longer than the memory that there is, in which it can't be made.
fn needs_little(alloc: Global, bytes: &[u8]) -> bool {
    let memory = BoundedAllocator::in_blocks(alloc, 1_000);
    let printer = PrettyPrinter::new(&memory);
    let mut written = Vec::new(alloc);
    printer.to_string(bytes).is_err()
        && printer.write_text(&mut written, bytes).is_ok()
        && 200_000 < written.len()
}

fn long_needs_little(alloc: Global) -> bool {
    match long(alloc, 8, 100_000) {
        Ok(bytes) => needs_little(alloc, bytes.as_slice()),
        Err(_) => false,
    }
}

#[test]
fn a_text_needs_no_memory_of_its_size(rt: HostRuntime) {
    assert!(rt; long_needs_little(rt.alloc()));
}

// Whether the error is OutOfMemory if the first allocation fails, and nothing was written.
fn is_error(alloc: Global, kind: Kind, bytes: &[u8]) -> bool {
    let heap = BoundedAllocator::failing_after(alloc, 0);
    let printer = PrettyPrinter::new(&heap);
    let mut written = Vec::new(alloc);
    match write(&printer, kind, &mut written, bytes) {
        Ok(()) => false,
        Err(error) => {
            error.kind() == ErrorKind::OutOfMemory && written.is_empty() && heap.has_failed()
        }
    }
}

fn runs_out(alloc: Global, kind: Kind) -> bool {
    match hex::decode(alloc, VERSION) {
        Ok(bytes) => is_error(alloc, kind, bytes.as_slice()),
        Err(_) => false,
    }
}

#[test]
fn memory_for_open_structures_runs_out(rt: HostRuntime) {
    for kind in [Kind::Lines, Kind::Diagnostic] {
        assert!(rt; runs_out(rt.alloc(), kind), "{kind:?}");
    }
}

// Adds the diagnostic to what is written, with hardly any memory, and returns whether it could.
fn is_pushed(memory: &BoundedAllocator<Global>, written: &mut Vec<u8>, bytes: &[u8]) -> bool {
    let mut pieces = Pieces::new(written);
    let added = push_diag(memory, &mut pieces, "", true, bytes).is_ok();
    pieces.finish().is_ok() && added
}

// Whether that is the diagnostic of so many numbers.
fn is_diagnosed(alloc: Global, count: u32) -> bool {
    let Ok(bytes) = repeated(alloc, count, &NUMBER) else {
        return false;
    };
    let memory = BoundedAllocator::in_blocks(alloc, 64);
    let mut written = Vec::new(alloc);
    let is_pushed = is_pushed(&memory, &mut written, bytes.as_slice());
    let text = str::from_utf8(written.as_slice()).unwrap_or("not UTF-8");
    is_pushed && is_made_of(text, "AAAAAA[", "BBBBBBi", count as usize, "]")
}

#[test]
fn a_diagnostic_is_added_as_it_is_made(rt: HostRuntime) {
    assert!(rt; is_diagnosed(rt.alloc(), 10_000));
}

// Adds what a diagnostic is read back as, with hardly any memory; how far it was read, and how deep it was then.
fn read_back(
    memory: &BoundedAllocator<Global>,
    written: &mut Vec<u8>,
    text: &str,
) -> Option<(usize, usize)> {
    let names: LentTagMap<&BoundedAllocator<Global>> = HashMap::new(memory);
    let mut pieces = Pieces::new(written);
    let bounded = Indentation::Bounded;
    let end = push_read_back(memory, &mut pieces, "4200", &names, bounded, text).ok()?;
    pieces.finish().ok()?;
    Some((end.used, end.depth))
}

// Whether that is what it is read back as in one string.
fn is_added(alloc: Global, text: &str) -> bool {
    let memory = BoundedAllocator::in_blocks(alloc, 64);
    let mut written = Vec::new(alloc);
    let ends = read_back(&memory, &mut written, text);
    let none: LentTagMap = HashMap::new(alloc);
    match read_back_counted(alloc, "4200", &none, Indentation::Bounded, text) {
        Ok(whole) => {
            ends == Some((whole.used, whole.depth)) && written.as_slice() == whole.text.as_bytes()
        }
        Err(_) => false,
    }
}

// Diagnostics, whole and cut, and values that end with white space.
const READ: [&str; 9] = [
    "",
    "]",
    "69[6Ai6Bi]",
    "69[6Ai6B",
    "69[6Ai6Be12",
    "69[5Ce  1  :]",
    "69[5Ce1:5Ce \t :",
    "69[",
    "69[5Ce1:zz",
];

// Whether that holds for so many structures, each in the one before.
fn deep_is_added(alloc: Global, times: usize) -> bool {
    let Ok(closes) = made_of(alloc, "", "]", times, "") else {
        return false;
    };
    match made_of(alloc, "", "69[", times, closes.as_str()) {
        Ok(text) => is_added(alloc, text.as_str()),
        Err(_) => false,
    }
}

#[test]
fn a_text_is_added_as_it_is_read_back(rt: HostRuntime) {
    assert!(rt; deep_is_added(rt.alloc(), 2000));
    for text in READ {
        assert!(rt; is_added(rt.alloc(), text), "{text}");
    }
}
