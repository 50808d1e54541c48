//! Prints and checks messages in TTLV: `ttlv show|diag|undiag|check|hex|json|from-json|diff [FILE..]`.
//!
//! Here the words of the command line, the files and the streams of the process are handed to
//! `ttlv_run`, which does the rest over any reader and any writers.
#![tactic(auto)]

use either::Either;
use kmip_ttlv_memory::Wiping;
use std::alloc::Global;
use std::fs::File;
use std::io::{ErrorKind, IsTerminal, Stderr, Stdin};
use std::process::ExitCode;
use std::rt::Env;
use std::{env, fs, io};
use ttlv_run::files::Opener;
use ttlv_run::progress::Progress;
use ttlv_run::run::report_words;
use ttlv_run::{Asked, Request, Task, Terminal, report_usage, request_of, run_request};

/// The status of usage, and of input that can't be read.
const USAGE: u8 = 2;

/// The exit status if memory runs out, or the output can't be written.
const FAILED: u8 = 3;

/// The most bytes of a word, with its end: as many as Linux passes to a program.
const LONGEST_WORD: usize = 131_072;

/// What stands for bytes that are no UTF-8: a file whose name has it isn't opened.
const REPLACED: char = '\u{fffd}';

// The words of the command line, behind the program's name. What isn't UTF-8 in a word is replaced.
fn words(rt: &(impl Env + Alloc<A = Global>)) -> io::Result<Vec<String>> {
    let alloc = rt.alloc();
    let mut room = vec![in alloc; 0u8; LONGEST_WORD]?;
    let mut words = Vec::new(alloc);
    words.push(String::from_str(alloc, "ttlv")?)?;
    for at in 1..usize::MAX {
        match rt.arg(at, room.as_mut_slice()) {
            Ok(count) => {
                let word = &room[..count.min(room.len())];
                words.push(String::from_utf8_lossy(alloc, word)?)?;
            }
            Err(env::FillError::NotPresent) => break,
            Err(env::FillError::TooLong) => return Err(ErrorKind::InvalidInput.into()),
        }
    }
    Ok(words)
}

// Reports that memory ran out before an input was read, and returns the exit status.
fn no_memory(rt: &HostRuntime) -> u8 {
    report_words(&mut rt.stderr(), "ttlv", "out of memory");
    FAILED
}

// A file of the machine; none where its name was no UTF-8, since it can't be named so.
fn opened(rt: &HostRuntime, name: &str) -> Option<File> {
    if name.contains(REPLACED) {
        return None;
    }
    fs::open(rt, name).ok()
}

// Whether it is shown how far an input was read: on a terminal, if nothing is printed there meanwhile.
fn shows_progress(rt: &HostRuntime, asked: Asked<'_>) -> bool {
    let is_printing = match asked {
        Asked::Print {
            task: Task::Check { .. },
            ..
        } => false,
        Asked::Print { .. } | Asked::Gather { .. } | Asked::Find { .. } => true,
        Asked::ReadBack { .. } | Asked::FromJson { .. } | Asked::FromXml { .. } => false,
    };
    rt.stderr().is_terminal() && !(is_printing && rt.stdout().is_terminal())
}

// The files of the machine, and standard input by the name `-`; and whether it is shown how far each was read.
#[derive(Drop)]
struct Disk<'r> {
    rt: &'r HostRuntime,
    shown: bool,
}

impl Disk<'_> {
    // An input, of so many bytes if that is known.
    fn shown(
        &self,
        input: Either<File, Stdin>,
        total: Option<u64>,
    ) -> Progress<Either<File, Stdin>, Stderr> {
        Progress::new(input, self.rt.stderr(), total, self.shown)
    }
}

impl Opener for Disk<'_> {
    type Input = Progress<Either<File, Stdin>, Stderr>;

    // What a disk holds can't be said.
    ghost opens = { λ _ _ _ _. Unit {0} };

    fn open(&mut self, name: &str) -> Option<Progress<Either<File, Stdin>, Stderr>> {
        if name == "-" {
            return Some(self.shown(Either::Right(self.rt.stdin()), None));
        }
        let file = opened(self.rt, name)?;
        let total = match file.metadata() {
            Ok(metadata) => Some(metadata.len()),
            Err(_) => None,
        };
        Some(self.shown(Either::Left(file), total))
    }
}

// The tables of the machine: files.
#[derive(Drop)]
struct Tables<'r> {
    rt: &'r HostRuntime,
}

impl Opener for Tables<'_> {
    type Input = File;

    // What a disk holds can't be said.
    ghost opens = { λ _ _ _ _. Unit {0} };

    fn open(&mut self, name: &str) -> Option<File> {
        opened(self.rt, name)
    }
}

// Does what a request asks for.
fn run_all(rt: &HostRuntime, request: &Request<'_>) -> u8 {
    let shown = shows_progress(rt, request.asked);
    let variable = env::var(rt, "NO_COLOR");
    let terminal = Terminal {
        is_one: rt.stdout().is_terminal(),
        no_color: match &variable {
            Ok(value) => Some(value.as_str()),
            Err(_) => None,
        },
    };
    let memory = Wiping::new(rt.alloc());
    run_request(
        &memory,
        request,
        terminal,
        &mut Tables { rt },
        &mut Disk { rt, shown },
        &mut Progress::new(rt.stdin(), rt.stderr(), None, shown),
        &mut rt.stdout(),
        &mut rt.stderr(),
    )
}

// What comes of words that can't be read.
fn unread(rt: &HostRuntime, error: &io::Error) -> u8 {
    if error.kind() == ErrorKind::OutOfMemory {
        return no_memory(rt);
    }
    report_words(&mut rt.stderr(), "ttlv", "the words can't be read");
    USAGE
}

fn main(rt: HostRuntime) -> ExitCode {
    let words = match words(&rt) {
        Ok(words) => words,
        Err(error) => return ExitCode::from(unread(&rt, &error)),
    };
    match request_of(rt.alloc(), words.as_slice()) {
        Ok(request) => ExitCode::from(run_all(&rt, &request)),
        Err(error) => ExitCode::from(report_usage(&rt, &mut rt.stderr(), &error)),
    }
}
