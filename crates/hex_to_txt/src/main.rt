//! Reads a TTLV message in hexadecimal, or a diagnostic, from standard input, and prints a text
//! of it.
//!
//! This crate passes the process's arguments and streams to `hex_to_txt_run`, which does the rest
//! over any reader and any writers.
#![tactic(auto)]

use hex_to_txt_run::run::run;
use std::alloc::Global;
use std::io::{ErrorKind, Write};
use std::process::ExitCode;
use std::rt::Env;
use std::{env, io};

// The arguments after the program's name.
fn words(rt: &(impl Env + Alloc<A = Global>)) -> io::Result<Vec<String>> {
    let mut words = Vec::new(rt.alloc());
    for word in env::args(rt)?.skip(1) {
        words.push(word)?;
    }
    Ok(words)
}

fn main(rt: HostRuntime) -> ExitCode {
    let alloc = rt.alloc();
    let mut input = rt.stdin();
    let mut output = rt.stdout();
    let mut errors = rt.stderr();
    let words = match words(&rt) {
        Ok(words) => words,
        Err(e) if e.kind() == ErrorKind::OutOfMemory => {
            let _ = errors.write_all(b"out of memory\n");
            return ExitCode::from(1);
        }
        // An argument that is not UTF-8 is unknown.
        Err(_) => Vec::new(alloc),
    };
    ExitCode::from(run(
        alloc,
        words.as_slice(),
        &mut input,
        &mut output,
        &mut errors,
    ))
}
