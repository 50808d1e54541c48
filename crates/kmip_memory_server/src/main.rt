//! A server of KMIP 1.0 to 2.0 that keeps keys in memory: requests come on standard input, responses go to standard output, and the log,
//! which shows no value, to standard error. `socat` or `stunnel` gives it TLS.
//!
//! `server` is what is done of one item, and `making` has Create and Register. `kmip_operations` has the other operations on objects, and
//! `kmip_server` does the rest.
#![tactic(auto)]

mod making;
mod server;

use crate::server::Server;
use clap::builder::ValueParser;
use clap::{Arg, Command, Error};
use kmip_operations::system::serve_streams;
use kmip_ttlv::memory::{BoundedAllocator, Wiping};
use std::alloc::Global;
use std::process::ExitCode;
use std::{env, io};

/// How much memory a message may take, with its response, in bytes.
const MESSAGE: usize = 4_194_304;

/// How much memory all objects may take, in bytes.
const OBJECTS: usize = 16_777_216;

/// The status of words that the program doesn't have.
const USAGE: u8 = 2;

/// The status of what can't go on: memory ran out, or a stream failed.
const FAILED: u8 = 3;

// The time that is given, in seconds since 1970.
fn time_of(alloc: Global, words: &[String]) -> Result<Option<i64>, Error> {
    let time = Arg::new(alloc, "time")
        .long("time")
        .value_name("SECONDS")
        .value_parser(ValueParser::unsigned(0, 4_294_967_295))
        .help("Takes it to be this many seconds after 1970 began, for tests");
    let command = Command::new(alloc, "kmip_memory_server")
        .about("Serves KMIP on standard input and output, and keeps keys in memory")
        .arg(time)?;
    let matches = command.try_get_matches_from(words)?;
    let given: Option<u32> = matches.get_one("time");
    Ok(given.map(i64::from))
}

// Prints the help, or what is wrong with the words. The status.
fn report(rt: &HostRuntime, error: &Error) -> u8 {
    if error.use_stderr() {
        let _ = eprint!(rt; "{error}");
        return USAGE;
    }
    let _ = print!(rt; "{error}");
    0
}

// The words of the command line.
fn words(rt: &HostRuntime) -> io::Result<Vec<String>> {
    Ok(env::args(rt)?.collect(rt.alloc())?)
}

// Serves until the input ends. What memory is given back is overwritten. The status.
fn run(rt: HostRuntime, time: Option<i64>) -> u8 {
    let objects = BoundedAllocator::new(Wiping::new(rt.alloc()), OBJECTS);
    let messages = BoundedAllocator::new(Wiping::new(rt.alloc()), MESSAGE);
    let mut server = Server::new(rt, &objects, time);
    match serve_streams(rt, &messages, &mut server) {
        Ok(_) => 0,
        Err(_) => FAILED,
    }
}

fn main(rt: HostRuntime) -> ExitCode {
    let Ok(words) = words(&rt) else {
        return ExitCode::from(FAILED);
    };
    match time_of(rt.alloc(), words.as_slice()) {
        Ok(time) => ExitCode::from(run(rt, time)),
        Err(error) => ExitCode::from(report(&rt, &error)),
    }
}
