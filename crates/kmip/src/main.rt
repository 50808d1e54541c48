//! `kmip`, a client of KMIP 1.0 to 2.0 for the command line. It opens no connection itself: requests go to standard output, responses come
//! on standard input, and what it finds goes to standard error. `socat` or `stunnel` gives it TLS.
//!
//! Here are the words of the command line, the files and the streams of the process. `command` has the commands and their options,
//! `request` what the words ask for, with names that `spelling` finds; `asking` asks a server for it, and `done` is what the server gave.
//! `showing` prints that, `values` an item of it by `names`, `dates` a date, `escape` a text, and `failing` what went wrong.
#![tactic(auto)]

ghost use Rattle.std.specs.Prelude.{◌≤◌, IfOk, length};

mod asking;
mod command;
mod dates;
mod done;
mod escape;
mod failing;
mod names;
mod request;
mod showing;
mod spelling;
#[cfg(test)]
mod tests;
mod values;

use crate::asking::converse;
use crate::done::{Done, bytes_of};
use crate::failing::{BROKEN, FAILED, USAGE, push_failure, push_line, status_of};
use crate::request::{Asked, BadWords, FIRST_ASKED, Request, request_of};
use crate::showing::push_done;
use kmip_client::client::Client;
use kmip_client::connection::Connection;
use kmip_ttlv_memory::{BoundedAllocator, Wiping};
use std::alloc::{AllocError, Allocator, Global};
use std::fs::OpenOptions;
use std::io::{Read, Write};
use std::os::unix::fs::OpenOptionsExt;
use std::process::ExitCode;
use std::{env, fs, io};

/// The most bytes of a response, as `failing` says of a larger one.
const MOST: u32 = 1_048_576;

/// How much memory a command may take, in bytes: for its key, a response of `MOST` bytes, and what is printed of it.
const MEMORY: usize = 33_554_432;

/// The most bytes of a key that is registered.
const KEY: usize = 65_536;

/// The permissions of a new file: only its owner reads and writes it.
const PRIVATE: u32 = 0o600;

// The words of the command line.
fn words(rt: &HostRuntime) -> io::Result<Vec<String>> {
    Ok(env::args(rt)?.collect(rt.alloc())?)
}

// Writes a line on standard error that says what went wrong with something, as far as it can be written.
fn report(rt: &HostRuntime, subject: &str, words: &str, status: u8) -> u8 {
    let mut line = String::new(rt.alloc());
    let text = match push_line(&mut line, subject, words) {
        Ok(()) => line.as_str(),
        Err(_) => "kmip: out of memory\n",
    };
    let _ = rt.stderr().write_all(text.as_bytes());
    status
}

// Reports what is wrong with the words, or prints the help or the version that they ask for. The status.
fn report_words(rt: &HostRuntime, bad: &BadWords<'_>) -> u8 {
    match bad {
        BadWords::Memory => report(rt, "", "out of memory", BROKEN),
        BadWords::Command => report(rt, "", "no command is named", USAGE),
        BadWords::Algorithm(word) => report(rt, word, "no algorithm has this name", USAGE),
        BadWords::Usage(word) => report(rt, word, "no usage of a key has this name", USAGE),
        BadWords::Grammar(error) => {
            let printed = error.print(rt);
            if error.use_stderr() {
                return USAGE;
            }
            if printed.is_err() { BROKEN } else { 0 }
        }
    }
}

// The bytes of a file, if it has a key: one or more, and no more than `KEY`.
fn key_of<A: Allocator + Copy>(
    rt: &HostRuntime,
    alloc: A,
    path: &str,
) -> Result<Vec<u8, A>, &'static str>
    ensures { IfOk result (λ bytes. length bytes.items ≤ 65_536) }
{
    let Ok(file) = fs::open(rt, path) else {
        return Err("it can't be opened");
    };
    let mut bytes = Vec::new(alloc);
    if file.take(KEY as u64 + 1).read_to_end(&mut bytes).is_err() {
        return Err("it can't be read");
    }
    if bytes.is_empty() {
        return Err("it is empty");
    }
    if bytes.len() > KEY {
        return Err("it is too large for a key");
    }
    Ok(bytes)
}

// Writes bytes into a new file that only its owner may read. Of one that can't be written whole nothing is left.
fn save(rt: &HostRuntime, path: &str, bytes: &[u8]) -> Result<(), &'static str> {
    let opened = OpenOptions::new()
        .write(true)
        .create_new(true)
        .mode(PRIVATE)
        .open(rt, path);
    let Ok(mut file) = opened else {
        return Err("it can't be created, or is there already");
    };
    if file.write_all(bytes).is_ok() && file.flush().is_ok() {
        return Ok(());
    }
    let _ = fs::remove_file(rt, path);
    Err("it can't be written")
}

// Prints what the server gave. The status.
fn print<A: Allocator + Copy>(rt: &HostRuntime, alloc: A, done: Done<A>) -> u8 {
    let mut text = String::new(alloc);
    if push_done(alloc, &mut text, done).is_err() {
        return report(rt, "", "out of memory", BROKEN);
    }
    match rt.stderr().write_all(text.as_bytes()) {
        Ok(()) => 0,
        Err(_) => BROKEN,
    }
}

// Puts the bytes of an object into a file, if one is named. The status, unless it is still to be printed.
fn keep<A: Allocator>(rt: &HostRuntime, output: Option<&str>, done: &Done<A>) -> Option<u8> {
    let Done::Get(found) = done else {
        return None;
    };
    let Some(bytes) = bytes_of(found) else {
        return Some(report(rt, "", "the server gave an object without bytes", FAILED));
    };
    let path = output?;
    match save(rt, path, bytes) {
        Ok(()) => Some(0),
        Err(words) => Some(report(rt, path, words, FAILED)),
    }
}

// Does what a request asks for, with this key. The status.
fn run<A: Allocator + Copy>(rt: &HostRuntime, alloc: A, request: &Request<'_>, key: &[u8]) -> u8
    requires { length key.now ≤ 65_536 }
{
    let connection = Connection::new(alloc, MOST, rt.stdin(), rt.stdout());
    let mut client = Client::new(alloc, FIRST_ASKED, connection);
    let failure = match converse(&mut client, request, key) {
        Ok(done) => {
            return match keep(rt, request.output, &done) {
                Some(status) => status,
                None => print(rt, alloc, done),
            };
        }
        Err(failure) => failure,
    };
    let mut words = String::new(alloc);
    match push_failure(&mut words, &failure) {
        Ok(()) => report(rt, "", words.as_str(), status_of(&failure)),
        Err(_) => report(rt, "", "out of memory", BROKEN),
    }
}

// The same, with the key of the file that is registered. Memory that is given back is overwritten.
fn start(rt: &HostRuntime, request: &Request<'_>) -> u8 {
    let memory = BoundedAllocator::new(Wiping::new(rt.alloc()), MEMORY);
    let Asked::Register { file, .. } = &request.asked else {
        return run(rt, &memory, request, b"");
    };
    match key_of(rt, &memory, file) {
        Ok(key) => run(rt, &memory, request, key.as_slice()),
        Err(words) => report(rt, file, words, FAILED),
    }
}

fn main(rt: HostRuntime) -> ExitCode {
    let Ok(words) = words(&rt) else {
        return ExitCode::from(report(&rt, "", "the words can't be read", USAGE));
    };
    ExitCode::from(match request_of(rt.alloc(), words.as_slice()) {
        Ok(request) => start(&rt, &request),
        Err(bad) => report_words(&rt, &bad),
    })
}
