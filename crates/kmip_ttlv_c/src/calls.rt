//! The calls that return a text.

ghost use Rattle.std.specs.Prelude.{◌≡◌, true, not, IfOk, IfErr, OnOk, string_bytes};
ghost use Rattle.kmip_ttlv_util.specs.TagNames.{name_in};
ghost use Rattle.kmip_ttlv_names.specs.NameTables.{names_of};
ghost use Rattle.kmip_ttlv_c.specs.Buffers.{AnswersText};
ghost use Rattle.kmip_ttlv_c.specs.Calls.{IsDiagnostic, PrefixFails, IsTable, IsReadable, IsNamedText, NamesFail};
ghost use Rattle.kmip_ttlv_util.specs.CheckedDiagnostics.{ShowsMessage, ShowsNothing};
ghost use Rattle.kmip_ttlv_c.specs.Calls.{IsCheckedDiagnostic, CheckedFails};
ghost use Rattle.kmip_ttlv_c.specs.Calls.{ShowsRedacted, IsRedactedText, RedactingFails};
ghost use Rattle.kmip_ttlv_c.specs.Calls.{StandardFails, IsReadLines, ReadingFails, IsVersion, NeverFails};

use crate::buffer::offer;
use crate::items::{KmipTtlvFault, fault_of};
use crate::status::{BAD_NAMES, MALFORMED, NOT_UTF8, OUT_OF_MEMORY};
use kmip_ttlv_memory::BoundedAllocator;
use kmip_ttlv_names::{STANDARD_TAGS, TableError, standard_names, tag_names};
use kmip_ttlv_util::{CheckedError, LentTagMap, PrettyPrinter, read_back_named, text_named};
use std::alloc::{AllocError, Allocator, Global};
use std::str;

/// The version that `kmip_ttlv_version` writes and the header has as `KMIP_TTLV_VERSION`.
pub const VERSION: &str = "0.2.0";

/// The diagnostic under a prefix, and how many items it tried to read.
fn diagnostic(
    alloc: Global,
    prefix: &str,
    closed: bool,
    bytes: &[u8],
) -> Result<(String, usize), AllocError>
    ensures { IfOk result (λ r. IsDiagnostic prefix.now closed bytes.now r.1 (string_bytes r.0)) }
{
    let mut printer = PrettyPrinter::new(alloc);
    printer.with_tag_prefix(String::from_str(alloc, prefix)?);
    printer.with_closed_empty(closed);
    printer.to_diag_counted(bytes)
}

/// Writes the redacted diagnostic of any bytes under a tag prefix, and sets how many items it tried to read.
#[unsafe(no_mangle)]
pub extern "C" fn kmip_ttlv_to_diag(
    alloc: Global,
    bytes: &[u8],
    prefix: &[u8],
    open_empty: bool,
    out: &mut [u8],
    length: &mut usize,
    items: &mut usize,
) -> u32
    ensures { AnswersText (IsDiagnostic prefix.now (not open_empty) bytes.now items.new) (PrefixFails prefix.now items.new) result length.new out.old out.new }
{
    *length = 0;
    *items = 0;
    let Ok(prefix) = str::from_utf8(prefix) else {
        return NOT_UTF8;
    };
    let Ok((text, count)) = diagnostic(alloc, prefix, !open_empty, bytes) else {
        return OUT_OF_MEMORY;
    };
    *items = count;
    offer(text.as_bytes(), out, length)
}

/// The diagnostic under a prefix of one whole message, whose empty structures are closed.
fn checked_diagnostic<A: Allocator + Copy>(
    alloc: A,
    prefix: &str,
    bytes: &[u8],
) -> Result<String<A>, CheckedError>
    ensures ok { IfOk result (λ r. ShowsMessage prefix.now true bytes.now (string_bytes r)) }
    ensures err { IfErr result (λ e. ShowsNothing bytes.now e) }
{
    let mut printer = PrettyPrinter::new(alloc);
    printer.with_tag_prefix(String::from_str(alloc, prefix)?);
    printer.with_closed_empty(true);
    printer.to_diag_checked(bytes)
}

/// Writes the redacted diagnostic of one whole message under a tag prefix; of other bytes it writes nothing, and sets
/// the first fault.
#[unsafe(no_mangle)]
pub extern "C" fn kmip_ttlv_to_diag_checked(
    alloc: Global,
    bytes: &[u8],
    prefix: &[u8],
    out: &mut [u8],
    length: &mut usize,
    fault: &mut KmipTtlvFault,
) -> u32
    ensures { AnswersText (IsCheckedDiagnostic prefix.now bytes.now fault.new) (CheckedFails prefix.now bytes.now fault.new) result length.new out.old out.new }
{
    *length = 0;
    *fault = fault_of(None);
    let Ok(prefix) = str::from_utf8(prefix) else {
        return NOT_UTF8;
    };
    let text = match checked_diagnostic(alloc, prefix, bytes) {
        Ok(text) => text,
        Err(CheckedError::OutOfMemory) => return OUT_OF_MEMORY,
        Err(CheckedError::Malformed(found)) => {
            *fault = fault_of(Some(found));
            return MALFORMED;
        }
    };
    offer(text.as_bytes(), out, length)
}

/// The names in a table, or the status if there are none; sets the number of a line that can't be
/// parsed, or 0.
fn names_in<'t, A: Allocator + Copy>(
    alloc: A,
    table: &'t [u8],
    bad_line: &mut usize,
) -> Result<LentTagMap<'t, A>, u32>
    ensures names { IfOk result (λ names. name_in names ≡ names_of table.now) }
    ensures good { OnOk result (IsTable table.now) }
    ensures line { OnOk result (bad_line.new ≡ 0) }
    ensures refused { IfErr result (λ status. NamesFail table.now bad_line.new status) }
{
    *bad_line = 0;
    let Ok(table) = str::from_utf8(table) else {
        return Err(NOT_UTF8);
    };
    match tag_names(alloc, table) {
        Ok(names) => Ok(names),
        Err(TableError::OutOfMemory) => Err(OUT_OF_MEMORY),
        Err(TableError::BadLine(line)) => {
            *bad_line = line;
            Err(BAD_NAMES)
        }
    }
}

/// Writes the readable text of any bytes, with the names of the caller's table.
#[unsafe(no_mangle)]
pub extern "C" fn kmip_ttlv_to_text(
    alloc: Global,
    bytes: &[u8],
    names: &[u8],
    open_empty: bool,
    limit: usize,
    out: &mut [u8],
    length: &mut usize,
    bad_line: &mut usize,
) -> u32
    ensures { AnswersText (IsNamedText names.now (not open_empty) bytes.now bad_line.new) (NamesFail names.now bad_line.new) result length.new out.old out.new }
{
    *length = 0;
    let memory = BoundedAllocator::new(alloc, limit);
    let names = match names_in(&memory, names, bad_line) {
        Ok(names) => names,
        Err(status) => return status,
    };
    let Ok(text) = text_named(&memory, &names, !open_empty, bytes) else {
        return OUT_OF_MEMORY;
    };
    offer(text.as_bytes(), out, length)
}

/// Writes the readable text of any bytes, with the names of the KMIP specifications.
#[unsafe(no_mangle)]
pub extern "C" fn kmip_ttlv_to_standard_text(
    alloc: Global,
    bytes: &[u8],
    open_empty: bool,
    limit: usize,
    out: &mut [u8],
    length: &mut usize,
) -> u32
    ensures { AnswersText (IsReadable (names_of STANDARD_TAGS.now) (not open_empty) bytes.now) StandardFails result length.new out.old out.new }
{
    *length = 0;
    let memory = BoundedAllocator::new(alloc, limit);
    let Ok(names) = standard_names(&memory) else {
        return OUT_OF_MEMORY;
    };
    let Ok(text) = text_named(&memory, &names, !open_empty, bytes) else {
        return OUT_OF_MEMORY;
    };
    offer(text.as_bytes(), out, length)
}

/// Reads a diagnostic under a prefix back as lines, with the names of the caller's table.
#[unsafe(no_mangle)]
pub extern "C" fn kmip_ttlv_from_diag(
    alloc: Global,
    diagnostic: &[u8],
    prefix: &[u8],
    names: &[u8],
    limit: usize,
    out: &mut [u8],
    length: &mut usize,
    bad_line: &mut usize,
) -> u32
    ensures { AnswersText (IsReadLines names.now prefix.now diagnostic.now bad_line.new) (ReadingFails diagnostic.now prefix.now names.now bad_line.new) result length.new out.old out.new }
{
    *length = 0;
    *bad_line = 0;
    let Ok(diagnostic) = str::from_utf8(diagnostic) else {
        return NOT_UTF8;
    };
    let Ok(prefix) = str::from_utf8(prefix) else {
        return NOT_UTF8;
    };
    let memory = BoundedAllocator::new(alloc, limit);
    let names = match names_in(&memory, names, bad_line) {
        Ok(names) => names,
        Err(status) => return status,
    };
    let Ok(text) = read_back_named(&memory, prefix, &names, diagnostic) else {
        return OUT_OF_MEMORY;
    };
    offer(text.as_bytes(), out, length)
}

/// The redacted lines of one whole message, with the names of the KMIP specifications.
fn redacted_lines<A: Allocator + Copy>(alloc: A, bytes: &[u8]) -> Result<String<A>, CheckedError>
    ensures ok { IfOk result (λ r. ShowsRedacted bytes.now (string_bytes r)) }
    ensures err { IfErr result (λ e. ShowsNothing bytes.now e) }
{
    let diagnostic = checked_diagnostic(alloc, "", bytes)?;
    let Ok(names) = standard_names(alloc) else {
        return Err(CheckedError::OutOfMemory);
    };
    Ok(read_back_named(alloc, "", &names, diagnostic.as_str())?)
}

/// Writes the redacted lines of one whole message, with the names of the KMIP specifications; of other bytes it writes
/// nothing, and sets the first fault.
#[unsafe(no_mangle)]
pub extern "C" fn kmip_ttlv_to_redacted_text(
    alloc: Global,
    bytes: &[u8],
    limit: usize,
    out: &mut [u8],
    length: &mut usize,
    fault: &mut KmipTtlvFault,
) -> u32
    ensures { AnswersText (IsRedactedText bytes.now fault.new) (RedactingFails bytes.now fault.new) result length.new out.old out.new }
{
    *length = 0;
    *fault = fault_of(None);
    let memory = BoundedAllocator::new(alloc, limit);
    let text = match redacted_lines(&memory, bytes) {
        Ok(text) => text,
        Err(CheckedError::OutOfMemory) => return OUT_OF_MEMORY,
        Err(CheckedError::Malformed(found)) => {
            *fault = fault_of(Some(found));
            return MALFORMED;
        }
    };
    offer(text.as_bytes(), out, length)
}

/// Writes the library's version.
#[unsafe(no_mangle)]
pub extern "C" fn kmip_ttlv_version(out: &mut [u8], length: &mut usize) -> u32
    ensures { AnswersText (IsVersion VERSION.now) NeverFails result length.new out.old out.new }
{
    offer(VERSION.as_bytes(), out, length)
}
