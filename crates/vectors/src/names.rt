//! Tries tables of names: texts with their names, and the line of a table that can't be read.

use crate::file::{number_if, text, text_if};
use crate::tally::Tally;
use kmip_ttlv_names::{TableError, standard_names, tag_names};
use kmip_ttlv_util::{LentTagMap, read_back_named, text_named};
use serde_json::Value;
use std::alloc::{AllocError, Global};
use std::io;

// Tries the texts with these names.
fn try_texts(
    tally: &mut Tally<'_>,
    test: &Value,
    names: &LentTagMap<'_, Global>,
) -> io::Result<()> {
    let alloc = tally.alloc();
    let name = text(test, "name");
    let Ok(bytes) = hex::decode(alloc, text(test, "bytes")) else {
        return tally.compare(name, "bytes", "no digits", "digits");
    };
    let shown = text_named(alloc, names, true, bytes.as_slice())?;
    tally.compare_if(name, "text", shown.as_str(), text_if(test, "text"))?;
    let (prefix, diagnostic) = (text(test, "prefix"), text(test, "diagnostic"));
    let lines = read_back_named(alloc, prefix, names, diagnostic)?;
    tally.compare_if(name, "lines", lines.as_str(), text_if(test, "lines"))
}

// Tries the names of a table, of which a line may be bad.
fn try_table(
    tally: &mut Tally<'_>,
    test: &Value,
    names: Result<LentTagMap<'_, Global>, TableError>,
) -> io::Result<()> {
    let bad_line = match names {
        Ok(names) => {
            try_texts(tally, test, &names)?;
            0
        }
        Err(TableError::BadLine(line)) => line,
        Err(TableError::OutOfMemory) => return Err(AllocError.into()),
    };
    let wanted = number_if(test, "bad_line").unwrap_or(0);
    tally.compare_number(text(test, "name"), "bad line", bad_line as u64, wanted)
}

/// Tries a table, or the names of the standard.
pub fn try_named(tally: &mut Tally<'_>, test: &Value) -> io::Result<()> {
    tally.begin();
    let alloc = tally.alloc();
    match text_if(test, "table") {
        Some(table) => try_table(tally, test, tag_names(alloc, table)),
        None => try_table(tally, test, standard_names(alloc)),
    }
}
