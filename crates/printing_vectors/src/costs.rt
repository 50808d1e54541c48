//! How many bytes the calls that take any bytes ask of the allocator in all, for each kind of message that a sender may choose:
//! those that return a text at most four times as many as it has, since it doubles as it grows, and a first room; and each at
//! most 64 for each structure that is open at a time.

use crate::printers::printer;
use kmip_ttlv::PrettyPrinter;
use kmip_ttlv::items::{FoundItem, find_fault, walk_items};
use kmip_ttlv_json::{Hiding, push_json};
use kmip_ttlv_memory::BoundedAllocator;
use sample_shapes::inputs::{CHOICE, EMPTY, NUMBER, long, nested, repeated};
use std::alloc::{AllocError, Allocator, Global};
use std::collections::HashMap;
use std::test::Fail;

// A kind of message.
#[derive(Clone, Copy, Debug)]
enum Kind {
    Numbers,
    Choices,
    Empties,
    Text,
    Bytes,
    Cut,
    Nested,
}

// Each kind, and how many structures are open at a time.
const KINDS: [(Kind, usize); 7] = [
    (Kind::Numbers, 1),
    (Kind::Choices, 1),
    (Kind::Empties, 2),
    (Kind::Text, 1),
    (Kind::Bytes, 1),
    (Kind::Cut, 1),
    (Kind::Nested, 1_000),
];

fn made(alloc: Global, kind: Kind) -> Result<Vec<u8>, AllocError> {
    match kind {
        Kind::Numbers => repeated(alloc, 600, &NUMBER),
        Kind::Choices => repeated(alloc, 600, &CHOICE),
        Kind::Empties => repeated(alloc, 600, &EMPTY),
        Kind::Text => long(alloc, 7, 100_000),
        Kind::Bytes => long(alloc, 8, 100_000),
        Kind::Cut => {
            let mut message = repeated(alloc, 600, &NUMBER)?;
            message.pop();
            Ok(message)
        }
        Kind::Nested => nested(alloc, 1_000),
    }
}

// A call of any bytes.
#[derive(Clone, Copy, Debug)]
enum Call {
    Diagnostic,
    Lines,
    ReadBack,
    WriteDiagnostic,
    WriteLines,
    FindFault,
    Walk,
    Json,
}

const CALLS: [Call; 8] = [
    Call::Diagnostic,
    Call::Lines,
    Call::ReadBack,
    Call::WriteDiagnostic,
    Call::WriteLines,
    Call::FindFault,
    Call::Walk,
    Call::Json,
];

// How many bytes the text has that the call returns, or 0 if it returns none.
fn text_length<A: Allocator + Copy>(
    printer: &PrettyPrinter<A>,
    call: Call,
    bytes: &[u8],
    diagnostic: &str,
) -> Result<usize, AllocError> {
    match call {
        Call::Diagnostic => Ok(printer.to_diag_string(bytes)?.len()),
        Call::Lines => Ok(printer.to_string(bytes)?.len()),
        Call::ReadBack => Ok(printer.from_diag_string(diagnostic)?.len()),
        _ => Ok(0),
    }
}

// Whether a call that returns no text succeeds; the others are done above.
fn succeeds<A: Allocator + Copy>(
    alloc: Global,
    memory: A,
    printer: &PrettyPrinter<A>,
    call: Call,
    bytes: &[u8],
) -> bool {
    let mut none: [FoundItem; 0] = [];
    let mut out = Vec::new(alloc);
    let mut text = String::new(alloc);
    let names = HashMap::new(memory);
    match call {
        Call::WriteDiagnostic => printer.write_diag(&mut out, bytes).is_ok(),
        Call::WriteLines => printer.write_text(&mut out, bytes).is_ok(),
        Call::FindFault => find_fault(memory, bytes).is_ok(),
        Call::Walk => walk_items(memory, bytes, &mut none).is_ok(),
        Call::Json => push_json(memory, &mut text, Hiding::Nothing, &names, bytes).is_ok(),
        _ => true,
    }
}

// What the call asks for, and how many bytes its text has; none if it fails.
fn cost(alloc: Global, call: Call, bytes: &[u8], diagnostic: &str) -> Option<(usize, usize)> {
    let memory = BoundedAllocator::in_blocks(alloc, usize::MAX);
    let printer = printer(&memory, "", true).ok()?;
    let length = text_length(&printer, call, bytes, diagnostic).ok()?;
    if succeeds(alloc, &memory, &printer, call, bytes) {
        return Some((memory.asked(), length));
    }
    None
}

// Fails unless each call of the message succeeds at its cost, with so many structures open.
fn check_costs(alloc: Global, kind: Kind, open: usize) -> Result<(), Fail> {
    let bytes = made(alloc, kind)?;
    let diagnostic = printer(alloc, "", true)?.to_diag_string(&bytes)?;
    for call in CALLS {
        let found = cost(alloc, call, &bytes, diagnostic.as_str());
        let most = match found {
            Some((_, 0)) => 256,
            Some((_, length)) => length.saturating_mul(4).saturating_add(25_000),
            None => 0,
        };
        if !matches!(found, Some((asked, _)) if asked <= most.saturating_add(open.saturating_mul(64)))
        {
            return Err(Fail::new(format_args!("{kind:?} {call:?}: {found:?}")));
        }
    }
    Ok(())
}

#[test]
fn what_each_kind_of_message_costs(rt: HostRuntime) -> Result<(), Fail> {
    for (kind, open) in KINDS {
        check_costs(rt.alloc(), kind, open)?;
    }
    Ok(())
}
