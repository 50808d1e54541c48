//! Tries what is read back: diagnostics as lines, and JSON as messages, whose JSON with names is tried, too.

use crate::file::{text, text_if};
use crate::messages::bytes_in;
use crate::tally::Tally;
use kmip_ttlv_json::{Hiding, push_named_json};
use kmip_ttlv_util::{LentTagMap, PrettyPrinter};
use kmip_words::{Words, standard_words};
use serde_json::Value;
use std::alloc::{AllocError, Global};
use std::collections::HashMap;
use std::io;

/// Reads a test's diagnostic back, and compares the lines.
pub fn try_diagnostic(tally: &mut Tally<'_>, test: &Value) -> io::Result<()> {
    tally.begin();
    let alloc = tally.alloc();
    let mut printer = PrettyPrinter::new(alloc);
    printer.with_tag_prefix(String::from_str(alloc, text(test, "prefix"))?);
    let found = printer.from_diag_string(text(test, "diagnostic"))?;
    let wanted = text(test, "lines");
    tally.compare(text(test, "name"), "lines", found.as_str(), wanted)
}

// The JSON with names of one whole message, without the end of its line.
fn named_json_of(
    alloc: Global,
    words: &Words,
    hiding: Hiding,
    bytes: &[u8],
) -> Result<String, AllocError> {
    let secrets: LentTagMap<'_, Global> = HashMap::new(alloc);
    let mut json = String::new(alloc);
    push_named_json(alloc, &mut json, words, hiding, &secrets, bytes)?;
    String::from_str(alloc, json.as_str().strip_suffix('\n').unwrap_or("no line"))
}

// Tries the JSON with names of a test's message, and that with hidden values; the first is read back as the same bytes.
fn try_named_json(tally: &mut Tally<'_>, test: &Value, bytes: &[u8]) -> io::Result<()> {
    let alloc = tally.alloc();
    let words = standard_words(alloc)?;
    let name = text(test, "name");
    let named = named_json_of(alloc, &words, Hiding::Nothing, bytes)?;
    tally.compare_if(name, "named JSON", named.as_str(), text_if(test, "named"))?;
    let again = bytes_in(alloc, named.as_str())?;
    let wanted = text_if(test, "bytes");
    tally.compare_if(name, "bytes of named JSON", again.as_str(), wanted)?;
    let hidden = named_json_of(alloc, &words, Hiding::Values, bytes)?;
    let wanted = text_if(test, "hidden_named");
    tally.compare_if(name, "hidden named JSON", hidden.as_str(), wanted)
}

/// Reads a test's JSON back, and compares the bytes or the error; of the bytes it tries the JSON with names, if the test has that.
pub fn try_json(tally: &mut Tally<'_>, test: &Value) -> io::Result<()> {
    tally.begin();
    let alloc = tally.alloc();
    let found = bytes_in(alloc, text(test, "json"))?;
    let name = text(test, "name");
    tally.compare_if(name, "bytes", found.as_str(), text_if(test, "bytes"))?;
    tally.compare_if(name, "error", found.as_str(), text_if(test, "error"))?;
    if text_if(test, "named").is_none() {
        return Ok(());
    }
    let Ok(bytes) = hex::decode(alloc, found.as_str()) else {
        return tally.compare(name, "bytes", "no digits", "digits");
    };
    try_named_json(tally, test, bytes.as_slice())
}
