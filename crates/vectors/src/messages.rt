//! Tries the bytes of messages: the first fault, the printed forms, and the bytes that JSON is read back as.

use crate::file::{FAULT, SHOWN, flag, has_members, list, number_if, text, text_if, value};
use crate::tally::Tally;
use kmip_ttlv_items::{Fault, FaultKind, FoundItem, find_fault, walk_items};
use kmip_ttlv_json::{Hiding, from_json, push_json};
use kmip_ttlv_util::{CheckedError, LentTagMap, PrettyPrinter};
use serde_json::Value;
use std::alloc::{AllocError, Global};
use std::collections::HashMap;
use std::{io, str};

// The name of a kind of fault.
fn kind_name(kind: FaultKind) -> &'static str {
    match kind {
        FaultKind::Cut => "cut",
        FaultKind::NoStructure => "no_structure",
        FaultKind::UnknownType => "unknown_type",
        FaultKind::PartialHeader => "partial_header",
        FaultKind::WrongLength => "wrong_length",
        FaultKind::Overlong => "overlong",
        FaultKind::InvalidValue => "invalid_value",
        FaultKind::Surplus => "surplus",
    }
}

// A fault in words.
fn fault_text(alloc: Global, fault: Option<Fault>) -> Result<String, AllocError> {
    match fault {
        Some(fault) => {
            let kind = kind_name(fault.kind);
            let offset = fault.offset;
            format!(in alloc; "{kind} at {offset}")
        }
        None => String::from_str(alloc, "none"),
    }
}

// The fault that is wanted, in words.
fn wanted_fault(alloc: Global, message: &Value) -> Result<String, AllocError> {
    let Some(fault) = value(message, "fault") else {
        return String::from_str(alloc, "none");
    };
    match number_if(fault, "offset") {
        Some(offset) if has_members(&FAULT, fault) => {
            let kind = text(fault, "kind");
            format!(in alloc; "{kind} at {offset}")
        }
        _ => String::from_str(alloc, "a kind and an offset"),
    }
}

// Compares a fault.
fn try_fault(
    tally: &mut Tally<'_>,
    test: &str,
    what: &str,
    fault: Option<Fault>,
    wanted: &str,
) -> io::Result<()> {
    let found = fault_text(tally.alloc(), fault)?;
    tally.compare(test, what, found.as_str(), wanted)
}

// Tries the first fault, by the check and by the walk over the items, and their number.
fn try_walks(tally: &mut Tally<'_>, message: &Value, bytes: &[u8]) -> io::Result<()> {
    let alloc = tally.alloc();
    let test = text(message, "name");
    let wanted = wanted_fault(alloc, message)?;
    let wanted = wanted.as_str();
    try_fault(tally, test, "fault", find_fault(alloc, bytes)?, wanted)?;
    let mut none: [FoundItem; 0] = [];
    let end = walk_items(alloc, bytes, &mut none)?;
    try_fault(tally, test, "fault of the walk", end.fault, wanted)?;
    match number_if(message, "items") {
        Some(items) => tally.compare_number(test, "items", end.count as u64, items),
        None => Ok(()),
    }
}

// Tries each beginning of the bytes, without the last: it is cut, and its diagnostic ends so.
fn try_cuts(tally: &mut Tally<'_>, test: &str, bytes: &[u8]) -> io::Result<()> {
    let printer = PrettyPrinter::new(tally.alloc());
    let mut cut = 0u64;
    for length in 0..bytes.len() {
        let beginning = bytes.get(..length).unwrap_or(bytes);
        let is_cut = is_cut(&printer, beginning)?;
        cut = cut.saturating_add(u64::from(is_cut));
    }
    tally.compare_number(test, "cuts", cut, bytes.len() as u64)
}

// Whether bytes are cut, and their diagnostic says so.
fn is_cut(printer: &PrettyPrinter, bytes: &[u8]) -> Result<bool, AllocError> {
    let text = printer.to_diag_string(bytes)?;
    let fault = printer.to_diag_checked(bytes).err();
    Ok(
        text.as_str().ends_with("ERR")
            && matches!(fault, Some(CheckedError::Malformed(it)) if it.kind == FaultKind::Cut),
    )
}

// A printer of the readable text, without names.
fn printer_of(alloc: Global, closed: bool) -> PrettyPrinter {
    let mut printer = PrettyPrinter::new(alloc);
    printer.with_closed_empty(closed);
    printer
}

// What was written, which is UTF-8.
fn words_of(alloc: Global, written: &[u8]) -> Result<String, AllocError> {
    String::from_str(alloc, str::from_utf8(written).unwrap_or("not UTF-8"))
}

// The readable text as it is written.
fn written_text(alloc: Global, printer: &PrettyPrinter, bytes: &[u8]) -> io::Result<String> {
    let mut out = Vec::new(alloc);
    printer.write_text(&mut out, bytes)?;
    Ok(words_of(alloc, out.as_slice())?)
}

// Tries the readable text, in one string, and as it is written.
fn try_text(
    tally: &mut Tally<'_>,
    test: &str,
    closed: bool,
    bytes: &[u8],
    wanted: Option<&str>,
) -> io::Result<()> {
    let what = if closed { "closed text" } else { "text" };
    let printer = printer_of(tally.alloc(), closed);
    let found = printer.to_string(bytes)?;
    tally.compare_if(test, what, found.as_str(), wanted)?;
    let written = written_text(tally.alloc(), &printer, bytes)?;
    tally.compare(test, "written text", written.as_str(), found.as_str())
}

// The diagnostic as it is written.
fn written_diagnostic(alloc: Global, printer: &PrettyPrinter, bytes: &[u8]) -> io::Result<String> {
    let mut out = Vec::new(alloc);
    printer.write_diag(&mut out, bytes)?;
    Ok(words_of(alloc, out.as_slice())?)
}

// The diagnostic of one whole message, or the fault of other bytes.
fn checked_text(
    alloc: Global,
    printer: &PrettyPrinter,
    bytes: &[u8],
) -> Result<String, AllocError> {
    match printer.to_diag_checked(bytes) {
        Ok(text) => Ok(text),
        Err(CheckedError::Malformed(fault)) => fault_text(alloc, Some(fault)),
        Err(CheckedError::OutOfMemory) => Err(AllocError),
    }
}

// Tries a diagnostic in one string, and how many items are read for it.
fn try_counted(
    tally: &mut Tally<'_>,
    test: &str,
    shown: &Value,
    printer: &PrettyPrinter,
    bytes: &[u8],
) -> io::Result<()> {
    let (found, count) = printer.to_diag_counted(bytes)?;
    let wanted = text(shown, "text");
    tally.compare(test, "diagnostic", found.as_str(), wanted)?;
    let read = number_if(shown, "read").unwrap_or(0);
    tally.compare_number(test, "items of the diagnostic", count as u64, read)
}

// Tries a diagnostic that was made otherwise.
fn try_made(
    tally: &mut Tally<'_>,
    test: &str,
    what: &str,
    found: String,
    shown: &Value,
) -> io::Result<()> {
    tally.compare(test, what, found.as_str(), text(shown, "text"))
}

// A printer of a test's diagnostic.
fn diagnostic_printer(alloc: Global, shown: &Value) -> Result<PrettyPrinter, AllocError> {
    let mut printer = printer_of(alloc, flag(shown, "closed"));
    printer.with_tag_prefix(String::from_str(alloc, text(shown, "prefix"))?);
    Ok(printer)
}

// Tries a diagnostic.
fn try_shown(
    tally: &mut Tally<'_>,
    message: &Value,
    shown: &Value,
    bytes: &[u8],
) -> io::Result<()> {
    let alloc = tally.alloc();
    let test = text(message, "name");
    let printer = &diagnostic_printer(alloc, shown)?;
    try_counted(tally, test, shown, printer, bytes)?;
    let written = written_diagnostic(alloc, printer, bytes)?;
    try_made(tally, test, "written diagnostic", written, shown)?;
    if value(message, "fault").is_some() {
        return Ok(());
    }
    let checked = checked_text(alloc, printer, bytes)?;
    try_made(tally, test, "checked diagnostic", checked, shown)
}

// Tries the fault that a checked diagnostic has, with empty structures closed and open.
fn try_checked_faults(tally: &mut Tally<'_>, message: &Value, bytes: &[u8]) -> io::Result<()> {
    if value(message, "fault").is_none() {
        return Ok(());
    }
    let alloc = tally.alloc();
    let wanted = wanted_fault(alloc, message)?;
    for closed in [false, true] {
        let found = checked_text(alloc, &printer_of(alloc, closed), bytes)?;
        let test = text(message, "name");
        tally.compare(test, "checked fault", found.as_str(), wanted.as_str())?;
    }
    Ok(())
}

// The JSON of one whole message, which is a line.
fn json_of(alloc: Global, hiding: Hiding, bytes: &[u8]) -> Result<String, AllocError> {
    let secrets: LentTagMap<'_, Global> = HashMap::new(alloc);
    let mut json = String::new(alloc);
    push_json(alloc, &mut json, hiding, &secrets, bytes)?;
    String::from_str(alloc, json.as_str().strip_suffix('\n').unwrap_or("no line"))
}

// The bytes in hexadecimal that JSON is read back as, or why there are none.
pub fn bytes_in(alloc: Global, json: &str) -> Result<String, AllocError> {
    match from_json(alloc, json) {
        Ok(bytes) => hex::encode_upper(alloc, bytes.as_slice()),
        Err(error) => format!(in alloc; "byte {}: {}", error.offset(), error.words()),
    }
}

// Tries the printed forms.
fn try_forms(tally: &mut Tally<'_>, message: &Value, bytes: &[u8]) -> io::Result<()> {
    let test = text(message, "name");
    try_text(tally, test, false, bytes, text_if(message, "text"))?;
    let closed = text_if(message, "closed_text");
    try_text(tally, test, true, bytes, closed)?;
    try_checked_faults(tally, message, bytes)?;
    if flag(message, "cuts") {
        try_cuts(tally, test, bytes)?;
    }
    for shown in list(message, "diagnostics") {
        if has_members(&SHOWN, shown) {
            try_shown(tally, message, shown, bytes)?;
        } else {
            tally.differs(test, "diagnostics")?;
        }
    }
    Ok(())
}

// Tries the JSON with hidden values.
fn try_hidden(tally: &mut Tally<'_>, message: &Value, bytes: &[u8]) -> io::Result<()> {
    let json = json_of(tally.alloc(), Hiding::Values, bytes)?;
    let wanted = text_if(message, "hidden_json");
    tally.compare_if(text(message, "name"), "hidden JSON", json.as_str(), wanted)
}

// Tries the bytes that JSON is read back as.
fn try_canonical(tally: &mut Tally<'_>, message: &Value, json: &str) -> io::Result<()> {
    let Some(wanted) = text_if(message, "canonical") else {
        return Ok(());
    };
    let found = bytes_in(tally.alloc(), json)?;
    tally.compare(
        text(message, "name"),
        "canonical bytes",
        found.as_str(),
        wanted,
    )
}

// Tries the JSON.
fn try_jsons(tally: &mut Tally<'_>, message: &Value, bytes: &[u8]) -> io::Result<()> {
    try_hidden(tally, message, bytes)?;
    let json = json_of(tally.alloc(), Hiding::Nothing, bytes)?;
    let wanted = text_if(message, "json");
    tally.compare_if(text(message, "name"), "JSON", json.as_str(), wanted)?;
    try_canonical(tally, message, json.as_str())
}

/// Walks over a test's message, prints it in each form, and compares what comes.
pub fn try_message(tally: &mut Tally<'_>, message: &Value) -> io::Result<()> {
    tally.begin();
    let Ok(bytes) = hex::decode(tally.alloc(), text(message, "bytes")) else {
        return tally.compare(text(message, "name"), "bytes", "no digits", "digits");
    };
    try_walks(tally, message, bytes.as_slice())?;
    try_forms(tally, message, bytes.as_slice())?;
    try_jsons(tally, message, bytes.as_slice())
}
