//! Each allocation fails in turn: a call returns out of memory, or its result with ample memory, and
//! later calls succeed. And texts that are longer than the memory limit allows.

use crate::messages::{CREATE_REQUEST, REDACTED_LINES, VERSION, VERSION_LINES};
use crate::printers::{is_counted, is_diagnostic, is_read_back, is_readable, printer};
use hex::FromHexError;
use kmip_ttlv::PrettyPrinter;
use kmip_ttlv::items::FaultKind;
use kmip_ttlv::names::tag_names;
use kmip_ttlv::util::{CheckedError, read_back_named, text_named};
use kmip_ttlv_memory::BoundedAllocator;
use std::alloc::{AllocError, Allocator, Global};

// The diagnostic of the version, with the prefix 4200 omitted.
const DIAGNOSTIC: &str = "69[6Ai6Bi]";

// A call of a printer.
#[derive(Clone, Copy, Debug)]
enum Call {
    Diagnostic,
    Counted,
    ReadBack,
    Lines,
    Clone,
}

const CALLS: [Call; 5] = [
    Call::Diagnostic,
    Call::Counted,
    Call::ReadBack,
    Call::Lines,
    Call::Clone,
];

// Whether a clone makes the diagnostic.
fn is_cloned<A: Allocator + Copy>(
    printer: &PrettyPrinter<A>,
    bytes: &[u8],
) -> Result<bool, AllocError> {
    let clone = printer.clone()?;
    is_diagnostic(&clone, bytes, DIAGNOSTIC)
}

// Whether the call returns its expected result.
fn is_ample<A: Allocator + Copy>(
    printer: &PrettyPrinter<A>,
    call: Call,
    bytes: &[u8],
) -> Result<bool, AllocError> {
    match call {
        Call::Diagnostic => is_diagnostic(printer, bytes, DIAGNOSTIC),
        Call::Counted => is_counted(printer, bytes, DIAGNOSTIC, 3),
        Call::ReadBack => is_read_back(printer, DIAGNOSTIC, REDACTED_LINES),
        Call::Lines => is_readable(printer, bytes, VERSION_LINES),
        Call::Clone => is_cloned(printer, bytes),
    }
}

// Whether every call returns its expected result.
fn answers_all<A: Allocator + Copy>(printer: &PrettyPrinter<A>, bytes: &[u8]) -> bool {
    for call in CALLS {
        if is_ample(printer, call, bytes) != Ok(true) {
            return false;
        }
    }
    true
}

// The outcome of a call, or of all calls of a kind.
#[derive(Clone, Copy, Debug, PartialEq, Eq)]
enum Outcome {
    // The expected result, and no allocation failed; this many succeeded.
    Whole(u64),
    // Out of memory, and an allocation failed; after that, every call returned its expected result.
    OutOfMemory,
    // A wrong result when this allocation failed.
    Wrong(u64),
}

// This outcome if the result is right.
fn right_or_wrong(is_right: bool, outcome: Outcome, before: u64) -> Outcome {
    if is_right {
        outcome
    } else {
        Outcome::Wrong(before)
    }
}

fn one_outcome(alloc: Global, call: Call, bytes: &[u8], before: u64) -> Outcome {
    let heap = BoundedAllocator::failing_after(alloc, before);
    let Ok(printer) = printer(&heap, "4200", false) else {
        return right_or_wrong(heap.has_failed(), Outcome::OutOfMemory, before);
    };
    let answer = is_ample(&printer, call, bytes);
    if heap.has_failed() {
        let is_right = answer.is_err() && answers_all(&printer, bytes);
        right_or_wrong(is_right, Outcome::OutOfMemory, before)
    } else {
        right_or_wrong(answer == Ok(true), Outcome::Whole(before), before)
    }
}

fn outcomes(alloc: Global, call: Call, bytes: &[u8]) -> Outcome {
    for before in 0..100u64 {
        let outcome = one_outcome(alloc, call, bytes, before);
        if outcome != Outcome::OutOfMemory {
            return outcome;
        }
    }
    Outcome::OutOfMemory
}

#[test]
fn each_growth_may_fail(rt: HostRuntime) -> Result<(), FromHexError> {
    let bytes = hex::decode(rt.alloc(), VERSION)?;
    for call in CALLS {
        let outcome = outcomes(rt.alloc(), call, bytes.as_slice());
        assert!(rt;
            matches!(outcome, Outcome::Whole(2..)),
            "{call:?}: {outcome:?}"
        );
    }
    Ok(())
}

// Headers of nested structures, each in the one before: eight bytes a header.
fn headers(alloc: Global, count: u32) -> Result<Vec<u8>, AllocError> {
    let mut bytes = Vec::new(alloc);
    for below in (0..count).rev() {
        bytes.extend_from_slice(b"\x42\x00\x69\x01")?;
        bytes.extend_from_slice(&below.wrapping_mul(8).to_be_bytes())?;
    }
    Ok(bytes)
}

// Whether the bytes have a diagnostic, and both the readable text and reading the diagnostic back
// run out of memory.
fn has_diagnostic_alone<A: Allocator + Copy>(alloc: A, bytes: &[u8]) -> Result<bool, AllocError> {
    let printer = printer(alloc, "4200", false)?;
    let diagnostic = printer.to_diag_string(bytes)?;
    Ok(printer.to_string(bytes).is_err() && printer.from_diag_string(diagnostic.as_str()).is_err())
}

// Whether that holds for this many headers and blocks of at most a mebibyte: readable texts grow with the
// square of their number.
fn is_bounded(alloc: Global, count: u32) -> Result<bool, AllocError> {
    let bytes = headers(alloc, count)?;
    let heap = BoundedAllocator::in_blocks(alloc, 1 << 20);
    has_diagnostic_alone(&heap, bytes.as_slice())
}

#[test]
fn a_bound_on_memory_holds_for_deep_texts(rt: HostRuntime) {
    assert!(rt; is_bounded(rt.alloc(), 32_000) == Ok(true));
}

fn is_error(alloc: Global, before: u64, bytes: &[u8]) -> bool {
    let heap = BoundedAllocator::failing_after(alloc, before);
    let printer = PrettyPrinter::new(&heap);
    printer.to_diag_string(bytes).is_err()
}

// The first allocation whose failure makes the diagnostic of only one of two messages fail.
fn difference(alloc: Global, one: &[u8], other: &[u8]) -> Option<u64> {
    for before in 0..20u64 {
        if is_error(alloc, before, one) != is_error(alloc, before, other) {
            return Some(before);
        }
    }
    None
}

#[test]
fn diagnostics_grow_alike_whatever_the_values(rt: HostRuntime) -> Result<(), FromHexError> {
    let alloc = rt.alloc();
    let number = hex::decode(alloc, "AAAAAA0100000010BBBBBB02000000040000000300000000")?;
    for text in [
        "AAAAAA0100000010BBBBBB07000000016100000000000000",
        "AAAAAA0100000010BBBBBB07000000036162630000000000",
        "AAAAAA0100000018BBBBBB070000000961626364656667686900000000000000",
    ] {
        let other = hex::decode(alloc, text)?;
        let first = difference(alloc, number.as_slice(), other.as_slice());
        assert_eq!(rt; first, None, "{text}");
    }
    assert!(rt; is_error(alloc, 0, number.as_slice()));
    assert!(rt; !is_error(alloc, 20, number.as_slice()));
    Ok(())
}

// The diagnostic of a request to create a key, with whole tags.
const CREATE_DIAGNOSTIC: &str =
    "420078[420077[420069[42006Ai42006Bi]42000Di]42000F[42005Ce1:420079[420057e2:420091[420008[42000At42000Be3:]420008[42000At42000Bi]420008[42000At42000Bi]]]]]";

// Whether this is the checked diagnostic; or, if it is empty, whether there is none, as the item at byte 280 is cut.
fn is_checked<A: Allocator + Copy>(
    printer: &PrettyPrinter<A>,
    bytes: &[u8],
    text: &str,
) -> Result<bool, AllocError> {
    match printer.to_diag_checked(bytes) {
        Ok(shown) => Ok(shown.as_str() == text),
        Err(CheckedError::Malformed(fault)) => {
            Ok(text.is_empty() && fault.offset == 280 && fault.kind == FaultKind::Cut)
        }
        Err(CheckedError::OutOfMemory) => Err(AllocError),
    }
}

// How many allocations the call makes, each of which failed in turn; none if another thing was returned.
fn growths(alloc: Global, bytes: &[u8], text: &str) -> Option<u64> {
    for before in 0..100u64 {
        let heap = BoundedAllocator::failing_after(alloc, before);
        let answer = is_checked(&PrettyPrinter::new(&heap), bytes, text);
        if !heap.has_failed() {
            return (answer == Ok(true)).then_some(before);
        }
        if answer.is_ok() {
            return None;
        }
    }
    None
}

#[test]
fn each_growth_of_a_checked_diagnostic_may_fail(rt: HostRuntime) -> Result<(), FromHexError> {
    let bytes = hex::decode(rt.alloc(), CREATE_REQUEST)?;
    let whole = growths(rt.alloc(), bytes.as_slice(), CREATE_DIAGNOSTIC);
    assert!(rt; matches!(whole, Some(3..)), "{whole:?}");
    let cut = bytes.as_slice().get(..295).unwrap_or(&[]);
    let faulty = growths(rt.alloc(), cut, "");
    assert!(rt; matches!(faulty, Some(1..)), "{faulty:?}");
    Ok(())
}

// Whether the two texts with a borrowed name are as expected, or an allocation failed.
fn is_printed(alloc: Global, before: u64) -> bool {
    let heap = BoundedAllocator::failing_after(alloc, before);
    let table = "42006A Major";
    let message = [0x42, 0, 0x6A, 1, 0, 0, 0, 0];
    let Ok(names) = tag_names(&heap, table) else {
        return heap.has_failed();
    };
    let Ok(text) = text_named(&heap, &names, true, &message) else {
        return heap.has_failed();
    };
    let Ok(lines) = read_back_named(&heap, "4200", &names, "6A[]") else {
        return heap.has_failed();
    };
    text.as_str() == "Tag: Major (0x42006A), Type: Structure (0x01), Data:\n"
        && lines.as_str() == "Tag: Major (0x42006A), Type: Structure (0x01), Data:"
        && !heap.has_failed()
}

#[test]
fn lent_names(rt: HostRuntime) {
    for before in 0..40 {
        assert!(rt; is_printed(rt.alloc(), before), "{before}");
    }
}
