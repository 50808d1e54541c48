//! Runs tests that are data: each file that an argument names holds messages, diagnostics, tables of names and JSON, with what the
//! library is to make of them (docs/VECTORS.md). Prints a line for each value that differs, and a count for each file; the status is 1 if one differs.
//!
//! `file` is what a file holds, `messages`, `names`, `readings`, `decoding` and `encoding` try its tests, and `tally` counts and prints.
//! `shapes`, `values` and `errors` are what those of decoding and encoding are made of.
#![tactic(auto)]

mod decoding;
mod encoding;
mod errors;
mod file;
mod messages;
mod names;
mod readings;
mod shapes;
mod tally;
mod values;

use crate::decoding::try_decodings;
use crate::encoding::try_encoding;
use crate::file::{
    DECODINGS, DIAGNOSTIC, ENCODING, FILE, JSON, MESSAGE, Member, NAMED, has_members, list, text,
};
use crate::messages::try_message;
use crate::names::try_named;
use crate::readings::{try_diagnostic, try_json};
use crate::tally::Tally;
use serde_json::Value;
use std::process::ExitCode;
use std::{env, fs, io};

// The lists of a file, with the members of their tests.
const LISTS: [(&str, &[Member]); 6] = [
    ("messages", &MESSAGE),
    ("diagnostics", &DIAGNOSTIC),
    ("names", &NAMED),
    ("jsons", &JSON),
    ("decodings", &DECODINGS),
    ("encodings", &ENCODING),
];

// Tries a test of a list.
fn try_test(tally: &mut Tally<'_>, name: &str, test: &Value) -> io::Result<()> {
    match name {
        "messages" => try_message(tally, test),
        "diagnostics" => try_diagnostic(tally, test),
        "names" => try_named(tally, test),
        "jsons" => try_json(tally, test),
        "decodings" => try_decodings(tally, test),
        _ => try_encoding(tally, test),
    }
}

// Tries the tests of a list.
fn try_list(
    tally: &mut Tally<'_>,
    name: &str,
    members: &[Member],
    tests: &[Value],
) -> io::Result<()> {
    for test in tests {
        if has_members(members, test) {
            try_test(tally, name, test)?;
        } else {
            tally.differs(text(test, "name"), name)?;
        }
    }
    Ok(())
}

// Tries the tests of a file.
fn try_all(tally: &mut Tally<'_>, file: &Value) -> io::Result<()> {
    if !has_members(&FILE, file) {
        return tally.differs("the file", "file");
    }
    for (name, members) in &LISTS {
        try_list(tally, name, members, list(file, name))?;
    }
    Ok(())
}

// Tries a file, and returns whether all is as it says.
fn try_file(rt: &HostRuntime, path: &str) -> io::Result<bool> {
    let text = fs::read_to_string(rt, path)?;
    let file = match Value::from_str(rt.alloc(), text.as_str()) {
        Ok(file) => file,
        Err(error) => {
            println!(rt; "{path}: {error}")?;
            return Ok(false);
        }
    };
    let mut tally = Tally::new(rt, path);
    try_all(&mut tally, &file)?;
    tally.end()
}

fn main(rt: HostRuntime) -> io::Result<ExitCode> {
    let mut is_same = true;
    for path in env::args(&rt)?.skip(1) {
        let path = path;
        is_same = try_file(&rt, path.as_str())? && is_same;
    }
    Ok(ExitCode::from(if is_same { 0 } else { 1 }))
}
