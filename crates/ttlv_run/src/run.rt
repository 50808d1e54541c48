//! The whole run over one input, for any reader and any writers.

ghost use Rattle.std.specs.Prelude.{◌≡◌, true, false, ◌<◌, ◌≤◌, ◌+◌, ◌^◌, ◌++◌, ℕ, length, List, Option, Some, None, IfOk, IfErr, OnErr, codes};
ghost use Rattle.std.specs.Io.KnownBytes.{Consumes, IsAtEnd};
ghost use Rattle.kmip_ttlv_types.specs.Held.{Held, held, Gets, Says};
ghost use Rattle.kmip_ttlv_util.specs.Pieces.{SomeText};
ghost use Rattle.ttlv_run.specs.Backs.{ReadsBack, ReadsFront, back_line};
ghost use Rattle.ttlv_run.specs.Ends.{Responds, IsEnded, IsDone};
ghost use Rattle.ttlv_run.specs.Prints.{RespondsAlone, RespondsPrint};
ghost use Rattle.ttlv_run.specs.Escapes.{escape};
ghost use Rattle.ttlv_run.specs.Reasons.{IsOfPrinting, PrintsFront, IsOfError, Reports, place_report, error_line};
ghost use Rattle.ttlv_run.specs.Fronts.{front_size, Begins, BeginFails};
ghost use Rattle.ttlv_run.specs.Inputs.{IsUnread, form_of, encoding_of};
ghost use Rattle.ttlv_run.specs.Streaming.{window_bytes, EndsAt, PrintsOn, ContinuesBehind};
ghost use Rattle.ttlv_run.specs.Messages.{place_told};
ghost use Rattle.ttlv_run.specs.Runs.{streams, behind_all, Places, RespondsBack};
ghost use Rattle.ttlv_run.specs.Texts.{names_of};

use crate::back::{BackFault, BackReached, print_back};
use crate::coding::{encoding_of, form_of, front_size, port_of};
use crate::digits::print_digits;
use crate::escape::{NameSink, push_text};
use crate::find::{find_messages, report_find_fault};
use crate::from_json::{read_json, report_value_fault};
use crate::from_xml::{read_xml, report_xml_fault};
use crate::gather::gather;
use crate::job::{Asked, Encoding, Job, Names, Task};
use crate::memory::Memory;
use crate::messages::{Place, Reached, fault_line, print_all, wants_message};
use crate::misread::report_misread;
use crate::run_error::{RunError, status_in};
use crate::traffic::respond_packets;
use crate::window::Window;
use itoa::Buffer;
use kmip_ttlv_types::stream::{Sink, Source};
use kmip_ttlv_util::Pieces;
use std::alloc::Allocator;
use std::io::{Error, ErrorKind};

/// Why printing failed: the output, or out of memory.
pub(crate) fn run_error_of(error: &Error) -> RunError
    ensures { IsOfError error.now result }
{
    match error.kind() {
        ErrorKind::BrokenPipe => RunError::ClosedPipe,
        ErrorKind::OutOfMemory => RunError::NoMemory,
        _ => RunError::UnwritableOutput,
    }
}

/// Prints what a task prints of messages to the output, in pieces. Their bytes stand at an offset among those of all
/// messages; where they aren't the last, it ends in front of a message that isn't there as a whole.
pub(crate) fn print_messages<A: Allocator + Copy, W: Sink>(
    alloc: A,
    names: &Names<'_, A>,
    task: Task<'_>,
    base: usize,
    bytes: &[u8],
    last: bool,
    output: &mut W,
) -> Result<Reached, RunError>
    requires { base + length bytes.now < 2 ^ 64 }
    ensures end { IfOk result (EndsAt bytes.now last) }
    ensures ok { IfOk result (λ reached. SomeText (PrintsOn (names_of names.now) task.entry base bytes.now last reached)
        (Gets (held W.emitted W.room output.old) (held W.emitted W.room output.new))) }
    ensures why { IfErr result IsOfPrinting }
    ensures err { IfErr result (λ why. SomeText (ContinuesBehind (names_of names.now) task.entry base bytes.now last)
        (PrintsFront why (held W.emitted W.room output.old) (held W.emitted W.room output.new))) }
{
    let mut pieces = Pieces::new(output);
    let printed = print_all(alloc, &mut pieces, names, task, base, bytes, last);
    match pieces.close(printed) {
        Ok(reached) => Ok(reached),
        Err(e) => Err(run_error_of(&e)),
    }
}

// What comes of an input whose messages are whole, and take so many bytes: a fault where the task wants one.
pub(crate) fn behind_all(task: Task<'_>, count: usize) -> Result<Option<Place>, RunError>
    ensures { result ≡ behind_all task.entry count }
{
    if wants_message(task) && count == 0 {
        return Err(RunError::NoMessage);
    }
    Ok(None)
}

// Prints what a job asks for of raw messages as they come, each when it is there as a whole, and gives the first fault.
fn print_raw<A: Allocator, B: Allocator + Copy, R: Source, W: Sink>(
    alloc: B,
    job: &Job<'_>,
    names: &Names<'_, B>,
    mut window: Window<A>,
    mut ended: bool,
    input: &mut R,
    output: &mut W,
) -> Result<Option<Place>, RunError>
    requires raw { form_of (encoding_of job.now.encoding (window_bytes window)) ≡ None }
    requires front { ended ≡ false → front_size job.now.encoding (window_bytes window) ≤ length (window_bytes window) }
    requires at_end { ended ≡ true → IsAtEnd (R.left input.old) }
    ensures { (known : Option (List ℕ)) → Consumes known (R.left input.old) (window_bytes window)
        → Places (names_of names.now) job.now
        (streams R.can_fail known (R.left input.new) (held W.emitted W.room output.old) (held W.emitted W.room output.new)) result }
{
    let mut base = 0;
    'pieces: loop {
        let buffered = window.buffered();
        if usize::MAX - base < buffered.len() {
            return Err(RunError::NoMemory);
        }
        match print_messages(alloc, names, job.task, base, buffered, ended, output)? {
            Reached::Behind(count) => {
                base += count;
                window.discard(count);
            }
            Reached::Fault(place) => return Ok(Some(place)),
        }
        if ended {
            return behind_all(job.task, base);
        }
        ended = window.read_more(input)? == 0;
    }
}

// Reads until the bytes that are there decide the encoding, or the input ended; returns whether it did.
fn read_front<A: Allocator, R: Source>(
    encoding: Encoding,
    window: &mut Window<A>,
    input: &mut R,
) -> Result<bool, RunError>
    ensures ok { IfOk result (Begins encoding (R.left input.old) (R.left input.new) (window_bytes window.old) (window_bytes window.new)) }
    ensures why { IfErr result (IsUnread R.can_fail) }
    ensures err { OnErr result (BeginFails encoding (R.left input.old) (R.left input.new) (window_bytes window.old) (window_bytes window.new)) }
{
    'pieces: while window.buffered().len() < front_size(encoding, window.buffered()) {
        if window.read_more(input)? == 0 {
            return Ok(true);
        }
    }
    Ok(false)
}

// Prints what a job asks for, message by message, of an input that begins with what was read, and gives the first fault.
fn print_input<A: Allocator + Copy, B: Allocator + Copy, R: Source, W: Sink>(
    memory: Memory<A, B>,
    job: &Job<'_>,
    names: &Names<'_, B>,
    window: Window<A>,
    ended: bool,
    input: &mut R,
    output: &mut W,
) -> Result<Option<Place>, RunError>
    requires front { ended ≡ false → front_size job.now.encoding (window_bytes window) ≤ length (window_bytes window) }
    requires at_end { ended ≡ true → IsAtEnd (R.left input.old) }
    ensures { (known : Option (List ℕ)) → Consumes known (R.left input.old) (window_bytes window)
        → Places (names_of names.now) job.now
        (streams R.can_fail known (R.left input.new) (held W.emitted W.room output.old) (held W.emitted W.room output.new)) result }
{
    match form_of(encoding_of(job.encoding, window.buffered())) {
        Some(form) => print_digits(memory, job, names, form, window, ended, input, output),
        None => print_raw(memory.rest, job, names, window, ended, input, output),
    }
}

/// What is told of a fault: of a task that prints whole messages alone no tag.
pub(crate) fn place_told(task: Task<'_>, place: Place) -> Place
    ensures { result ≡ place_told task.entry place }
{
    match task {
        Task::Whole { .. } => Place { tag: None, ..place },
        _ => place,
    }
}

// Prints what lines of diagnostics are read back as to the output, in pieces. Their bytes begin at an offset; if they
// aren't the last, what is behind the last line feed is left.
fn print_lines<A: Allocator + Copy, W: Sink>(
    alloc: A,
    names: &Names<'_, A>,
    prefix: &str,
    base: usize,
    bytes: &[u8],
    last: bool,
    output: &mut W,
) -> Result<BackReached, RunError>
    requires { base + length bytes.now < 2 ^ 64 }
    ensures ok { IfOk result (λ reached. SomeText (ReadsBack (names_of names.now).tags prefix.now base bytes.now last reached)
        (Gets (held W.emitted W.room output.old) (held W.emitted W.room output.new))) }
    ensures why { IfErr result IsOfPrinting }
    ensures err { IfErr result (λ why. SomeText (ReadsFront (names_of names.now).tags prefix.now bytes.now last)
        (PrintsFront why (held W.emitted W.room output.old) (held W.emitted W.room output.new))) }
{
    let mut pieces = Pieces::new(output);
    let printed = print_back(alloc, &mut pieces, &names.tags, prefix, base, bytes, last);
    match pieces.close(printed) {
        Ok(reached) => Ok(reached),
        Err(e) => Err(run_error_of(&e)),
    }
}

// Prints what diagnostics are read back as, each line when it is there as a whole, and gives where the first line that
// is not whole stops being one, if there is such a line.
fn read_back<A: Allocator + Copy, B: Allocator + Copy, R: Source, W: Sink>(
    memory: Memory<A, B>,
    prefix: &str,
    names: &Names<'_, B>,
    input: &mut R,
    output: &mut W,
) -> Result<Option<BackFault>, RunError>
    ensures { RespondsBack (names_of names.now) prefix.now
        (streams R.can_fail (R.left input.old) (R.left input.new) (held W.emitted W.room output.old) (held W.emitted W.room output.new)) result }
{
    let mut window = Window::new(memory.input);
    let mut base = 0;
    let mut first = None;
    let mut ended = false;
    'pieces: loop {
        let buffered = window.buffered();
        if usize::MAX - base < buffered.len() {
            return Err(RunError::NoMemory);
        }
        let reached = print_lines(memory.rest, names, prefix, base, buffered, ended, output)?;
        match reached {
            BackReached::Behind { count, found } => {
                base += count;
                first = first.or(found);
                window.discard(count);
            }
            BackReached::NoText => return Err(RunError::NotUtf8),
        }
        if ended {
            return Ok(first);
        }
        ended = window.read_lines(input)?;
    }
}

/// Writes a text after another, if that was written to its end; returns whether this was too.
pub(crate) fn report<E: Sink>(errors: &mut E, writable: bool, text: &str) -> bool
    ensures { (known : Held) (front : List ℕ) → Reports writable known (held E.emitted E.room errors.old) front
        → Reports result known (held E.emitted E.room errors.new) (front ++ text.now) }
{
    writable && errors.send(text.as_bytes()).is_ok()
}

// Writes what the input is called, escaped; returns whether it was written to its end.
fn report_name<E: Sink>(errors: &mut E, name: &str) -> bool
    ensures { Reports result (held E.emitted E.room errors.old) (held E.emitted E.room errors.new) (escape name.now) }
{
    let mut sink = NameSink(Pieces::new(errors));
    if push_text(&mut sink, name).is_err() {
        return false;
    }
    sink.0.finish().is_ok()
}

/// Writes what the input is called, and the offset in it, if one is given.
pub(crate) fn report_place<E: Sink>(errors: &mut E, name: &str, offset: Option<usize>) -> bool
    ensures { Reports result (held E.emitted E.room errors.old) (held E.emitted E.room errors.new) (place_report name.now offset) }
{
    let writable = report_name(errors, name);
    let Some(at) = offset else {
        return writable;
    };
    let writable = report(errors, writable, ": byte ");
    report(errors, writable, Buffer::new().format(at))
}

/// Writes the line that says something of an input, a table or a word, whose name is escaped, as far as it can be written. It takes
/// no memory.
pub fn report_words<E: Sink>(errors: &mut E, name: &str, words: &str)
    ensures { Says (held E.emitted E.room errors.old) (held E.emitted E.room errors.new)
        (escape name.now ++ codes ": " ++ words.now ++ codes "\n") }
{
    let writable = report_place(errors, name, None);
    let writable = report(errors, writable, ": ");
    let writable = report(errors, writable, words);
    report(errors, writable, "\n");
}

/// Writes the line of an error, as far as it can be written. It takes no memory.
pub(crate) fn report_error<E: Sink>(errors: &mut E, name: &str, run_error: RunError)
    ensures { Says (held E.emitted E.room errors.old) (held E.emitted E.room errors.new) (error_line name.now run_error) }
{
    match run_error {
        RunError::ClosedPipe => (),
        RunError::MisreadInput(misread) => report_misread(errors, name, misread),
        RunError::UnopenedInput
        | RunError::UnreadableInput
        | RunError::NotUtf8
        | RunError::NoMessage
        | RunError::UnwritableOutput
        | RunError::NoMemory => report_words(errors, name, run_error.words()),
    }
}

// Writes the line of a text that stops being a diagnostic, as far as it can be written. It takes no memory.
fn report_back_fault<E: Sink>(errors: &mut E, name: &str, fault: BackFault)
    ensures { Says (held E.emitted E.room errors.old) (held E.emitted E.room errors.new) (back_line name.now fault) }
{
    let writable = report_place(errors, name, Some(fault.offset));
    let writable = report(errors, writable, ": ");
    let writable = report(errors, writable, fault.kind.words());
    report(errors, writable, "\n");
}

// Prints what a job asks for of an input that is no packet capture, and begins with what was read; returns whether all of it is whole.
// What is malformed is reported.
fn print_alone<A: Allocator + Copy, B: Allocator + Copy, R: Source, W: Sink, E: Sink>(
    memory: Memory<A, B>,
    job: &Job<'_>,
    names: &Names<'_, B>,
    window: Window<A>,
    ended: bool,
    input: &mut R,
    output: &mut W,
    errors: &mut E,
) -> Result<bool, RunError>
    requires front { ended ≡ false → front_size job.now.encoding (window_bytes window) ≤ length (window_bytes window) }
    requires at_end { ended ≡ true → IsAtEnd (R.left input.old) }
    ensures { (known : Option (List ℕ)) → Consumes known (R.left input.old) (window_bytes window)
        → RespondsAlone (names_of names.now) job.now
        (streams R.can_fail known (R.left input.new) (held W.emitted W.room output.old) (held W.emitted W.room output.new))
        (held E.emitted E.room errors.old) (held E.emitted E.room errors.new) result }
{
    let Some(place) = print_input(memory, job, names, window, ended, input, output)? else {
        return Ok(true);
    };
    let line = fault_line(memory.rest, names, job.name, place_told(job.task, place))?;
    let _ = errors.send(line.as_bytes());
    Ok(false)
}

/// Prints what a job asks for of an input's messages, or of those of a packet capture, and returns whether all is whole. What isn't is
/// reported.
pub(crate) fn print_asked<A: Allocator + Copy, B: Allocator + Copy, R: Source, W: Sink, E: Sink>(
    memory: Memory<A, B>,
    job: &Job<'_>,
    names: &Names<'_, B>,
    input: &mut R,
    output: &mut W,
    errors: &mut E,
) -> Result<bool, RunError>
    ensures { RespondsPrint (names_of names.now) job.now
        (streams R.can_fail (R.left input.old) (R.left input.new) (held W.emitted W.room output.old) (held W.emitted W.room output.new))
        (held E.emitted E.room errors.old) (held E.emitted E.room errors.new) result }
{
    let mut window = Window::new(memory.input);
    let ended = read_front(job.encoding, &mut window, input)?;
    match port_of(encoding_of(job.encoding, window.buffered())) {
        Some(port) => {
            respond_packets(
                memory, job, port, names, window, ended, input, output, errors,
            )
        }
        None => print_alone(memory, job, names, window, ended, input, output, errors),
    }
}

// Does with an input what is asked, and returns whether all of it is whole. What is malformed is reported.
fn respond<A: Allocator + Copy, B: Allocator + Copy, R: Source, W: Sink, E: Sink>(
    memory: Memory<A, B>,
    asked: Asked<'_>,
    name: &str,
    names: &Names<'_, B>,
    input: &mut R,
    output: &mut W,
    errors: &mut E,
) -> Result<bool, RunError>
    ensures { Responds (names_of names.now) asked.entry name.entry
        (streams R.can_fail (R.left input.old) (R.left input.new) (held W.emitted W.room output.old) (held W.emitted W.room output.new))
        (held E.emitted E.room errors.old) (held E.emitted E.room errors.new) result }
{
    match asked {
        Asked::Print { task, encoding } => {
            let job = Job {
                name,
                task,
                encoding,
            };
            print_asked(memory, &job, names, input, output, errors)
        }
        Asked::Gather {
            task,
            encoding,
            product,
        } => {
            let job = Job {
                name,
                task,
                encoding,
            };
            gather(memory, &job, product, names, input, output, errors)
        }
        Asked::ReadBack { prefix } => {
            let Some(fault) = read_back(memory, prefix, names, input, output)? else {
                return Ok(true);
            };
            report_back_fault(errors, name, fault);
            Ok(false)
        }
        Asked::FromJson { raw } => {
            let Some(fault) = read_json(memory.input, raw, input, output)? else {
                return Ok(true);
            };
            report_value_fault(errors, name, fault);
            Ok(false)
        }
        Asked::FromXml { raw } => {
            let Some(fault) = read_xml(memory, raw, names, input, output)? else {
                return Ok(true);
            };
            report_xml_fault(errors, name, fault);
            Ok(false)
        }
        Asked::Find { look } => {
            let Some(fault) = find_messages(memory, names, look, input, output)? else {
                return Ok(true);
            };
            report_find_fault(errors, name, fault);
            Ok(false)
        }
    }
}

// Does what [`run`] does, and returns whether all of the input is whole, or why not all of it was printed.
pub(crate) fn run_to_end<A: Allocator + Copy, B: Allocator + Copy, R: Source, W: Sink, E: Sink>(
    memory: Memory<A, B>,
    asked: Asked<'_>,
    name: &str,
    names: &Names<'_, B>,
    input: &mut R,
    output: &mut W,
    errors: &mut E,
) -> Result<bool, RunError>
    ensures { IsEnded (names_of names.now) asked.entry name.entry
        (streams R.can_fail (R.left input.old) (R.left input.new) (held W.emitted W.room output.old) (held W.emitted W.room output.new))
        (held E.emitted E.room errors.old) (held E.emitted E.room errors.new) result }
{
    match respond(memory, asked, name, names, input, output, errors) {
        Ok(whole) => Ok(whole),
        Err(why) => {
            report_error(errors, name, why);
            Err(why)
        }
    }
}

/// Reads `input`, does with it what is asked, and returns the exit status: 0 if all of it is whole; 1 if something is malformed, or no
/// message is there and the task wants one; 2 if it can't be read or decoded, or is not UTF-8 where lines are read; 3 when out of memory
/// or if the output can't be written. With statuses 1 to 3 one line on `errors` says why, except for a closed pipe; if `errors` can't be
/// written, the status is the same. Output is sent in pieces of 8,192 bytes, and never in memory as a whole. With status 3 it has a
/// beginning of what is printed, or nothing. Interrupted reads and writes are tried again, as often as a 64-bit count allows.
///
/// *Messages* are printed as they come, each before the next read if all of it is there, of a text with one character more.
/// Where no encoding was named, that is from when the input's first bytes decide it: four that it is raw, 64 that it is
/// hexadecimal or a dump, 1,024 anything else. With status 1 the output has what is printed up to the fault, and nothing more is
/// read. If reading fails or the digits of a text are those of no bytes, it has what is printed of the messages that were whole.
///
/// *Packet captures* are read to their end, and the messages that TCP carries on a port are printed in the order of their packets, as
/// readable lines each behind a line with its time and its direction. With status 1 one line on `errors` says each thing that is wrong, a
/// hundred at most: a message is malformed, bytes of a direction are missing, the capture ends early, or none of it has a message.
///
/// *The values of a path* are printed when all of the input was read. With status 1 there is none, or the output has those up to the fault.
///
/// *A page of HTML and a document of XML* are printed when all of the input was read. With status 1 it has what is printed up to the fault; or
/// a text has a character that XML can't hold, and nothing is printed.
///
/// *Diagnostics* are read back, each in a line of its own, which is printed before the next read if all of it is there. With status 1 all
/// lines are read back, each as far as it goes, and the first that is not whole is reported. With status 2 the output has what the lines
/// before are read back as: those that came before reading failed, or that are in front of the one that is not UTF-8.
///
/// *JSON*: each value is a message, and is printed before the next read if all of it is there. With status 1 the messages before the
/// first value that is none are printed, and nothing more is read. With status 2 those of the values before are.
///
/// *XML*: what the input is the XML of is printed when all of it was read. With status 1 it is none, and nothing is printed; or an item of it is
/// no message, and those before it are. With status 2 nothing is.
///
/// *Messages within anything else* are looked for when all of the input was read, and printed one after the other. With status 1 there
/// is none, or the search ended early, since too much looked like messages; with status 2 nothing is printed.
pub fn run<A: Allocator + Copy, B: Allocator + Copy, R: Source, W: Sink, E: Sink>(
    memory: Memory<A, B>,
    asked: Asked<'_>,
    name: &str,
    names: &Names<'_, B>,
    input: &mut R,
    output: &mut W,
    errors: &mut E,
) -> u8
    ensures { IsDone (names_of names.now) asked.entry name.entry
        (streams R.can_fail (R.left input.old) (R.left input.new) (held W.emitted W.room output.old) (held W.emitted W.room output.new))
        (held E.emitted E.room errors.old) (held E.emitted E.room errors.new) result }
{
    status_in(run_to_end(memory, asked, name, names, input, output, errors))
}
