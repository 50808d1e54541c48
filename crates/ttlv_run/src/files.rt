//! A run over several inputs, one after the other, and which of them is which.

ghost use Rattle.std.specs.Prelude.{◌≡◌, ℕ, List, Option};
ghost use Rattle.kmip_ttlv_types.specs.Held.{held};
ghost use Rattle.ttlv_run.specs.Files.{FileDone, greater, stops, FilesDone};
ghost use Rattle.ttlv_run.specs.Texts.{names_of};

use crate::headings::{is_headed, print_head};
use crate::job::{Asked, Names};
use crate::memory::Memory;
use crate::run::{report_error, run_to_end};
use crate::run_error::{RunError, status_in};
use kmip_ttlv_types::stream::{Sink, Source};
use std::alloc::Allocator;

/// What opens inputs by their names.
pub trait Opener {
    /// An input that was opened.
    type Input: Source + Drop;

    // Whether opening the input of a name comes to this: the input or none, and what opens the next.
    ghost opens: { Self → List ℕ → Option Self.Input → Self → Type 0 };

    /// The input of this name; none where it can't be opened.
    fn open(&mut self, name: &str) -> Option<Self::Input>
        ensures { opens self.old name.now result self.new };
}

/// Does with a file what is asked, behind the line of its name if one is due.
pub(crate) fn run_file<A: Allocator + Copy, B: Allocator + Copy, O: Opener, W: Sink, E: Sink>(
    memory: Memory<A, B>,
    asked: Asked<'_>,
    headed: bool,
    name: &str,
    names: &Names<'_, B>,
    opener: &mut O,
    output: &mut W,
    errors: &mut E,
) -> Result<bool, RunError>
    ensures { FileDone (record { opens = O.opens; left = O.Input.left; can_fail = O.Input.can_fail })
        (names_of names.now) asked.entry headed name.entry
        (record { opener = opener.old; output = held W.emitted W.room output.old; errors = held E.emitted E.room errors.old })
        (record { opener = opener.new; output = held W.emitted W.room output.new; errors = held E.emitted E.room errors.new }) result }
{
    match opener.open(name) {
        Some(mut input) => {
            if let Err(why) = print_head(output, headed, name) {
                report_error(errors, name, why);
                return Err(why);
            }
            run_to_end(memory, asked, name, names, &mut input, output, errors)
        }
        None => {
            report_error(errors, name, RunError::UnopenedInput);
            Err(RunError::UnopenedInput)
        }
    }
}

/// The greater of two statuses.
pub fn greater(a: u8, b: u8) -> u8
    ensures { result ≡ greater a b }
{
    if a < b { b } else { a }
}

// Whether no other file is read, since the output can't be written.
fn stops(outcome: Result<bool, RunError>) -> bool
    ensures { result ≡ stops outcome }
{
    match outcome {
        Ok(_) => false,
        Err(RunError::UnwritableOutput) | Err(RunError::ClosedPipe) => true,
        Err(_) => false,
    }
}

/// Does with each file what is asked, one after the other, and returns the greatest of their exit statuses:
/// those of [`run`](crate::run::run), and 2 for a file that can't be opened. If the output can't be
/// written, no other file is read; behind a file for which memory doesn't suffice the others are. Where readable lines of several
/// files are asked for, those of each that can be opened come behind a line `==> NAME <==`, in which the name is escaped.
pub fn run_files<A: Allocator + Copy, B: Allocator + Copy, O: Opener, W: Sink, E: Sink>(
    memory: Memory<A, B>,
    asked: Asked<'_>,
    names: &Names<'_, B>,
    files: &[&str],
    opener: &mut O,
    output: &mut W,
    errors: &mut E,
) -> u8
    ensures { FilesDone (record { opens = O.opens; left = O.Input.left; can_fail = O.Input.can_fail })
        (names_of names.now) asked.entry files.now
        (record { opener = opener.old; output = held W.emitted W.room output.old; errors = held E.emitted E.room errors.old })
        (record { opener = opener.new; output = held W.emitted W.room output.new; errors = held E.emitted E.room errors.new }) result }
{
    let headed = is_headed(asked, files.len());
    let mut status = 0;
    'files: for name in files {
        let outcome = run_file(memory, asked, headed, name, names, opener, output, errors);
        status = greater(status, status_in(outcome));
        if stops(outcome) {
            return status;
        }
    }
    status
}
