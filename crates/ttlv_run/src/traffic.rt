//! The messages of a packet capture, printed one after the other, and what is wrong with it.

ghost use Rattle.std.specs.Prelude.{◌≡◌, ◌≤◌, ◌++◌, true, false, length, ℕ, List, IfOk, IfErr, OnOk, Option, Some, string_bytes, option_map};
ghost use Rattle.std.specs.Io.KnownBytes.{Consumes, IsAtEnd};
ghost use Rattle.kmip_ttlv_items.specs.ItemWalks.{AreBytes};
ghost use Rattle.kmip_ttlv_types.specs.Held.{held, Gets, Says};
ghost use Rattle.kmip_ttlv_util.specs.Pieces.{SomeText};
ghost use Rattle.ttlv_run.specs.Traffic.{prints_lines, stream_name, moved, message_bytes, head, gap_line, hint, trouble, noted, notes_of, PrintsMessage, BreaksMessage, PrintsPackets, BreaksPackets, damage_line, damage, takes_none, absence_line, absence, all_notes, rest_line, IsFrontOf, RespondsPackets};
ghost use Rattle.ttlv_run.specs.Fronts.{front_size};
ghost use Rattle.ttlv_run.specs.Inputs.{encoding_of, port_of};
ghost use Rattle.ttlv_run.specs.Streaming.{window_bytes};
ghost use Rattle.ttlv_run.specs.Runs.{streams};
ghost use Rattle.ttlv_run.specs.Reasons.{IsOfPrinting, PrintsFront};
ghost use Rattle.ttlv_run.specs.Texts.{names_of};

use crate::escape::push_text;
use crate::from_json::send;
use crate::job::{Job, Names, Strict, Task};
use crate::kind::InputKind;
use crate::memory::Memory;
use crate::messages::{Place, Reached, fault_line, kind_at};
use crate::peers::{message_line, push_flow};
use crate::run::{place_told, print_messages, report};
use crate::run_error::RunError;
use crate::window::Window;
use itoa::Buffer;
use kmip_ttlv_types::stream::{Sink, Source};
use std::alloc::{AllocError, Allocator};
use ttlv_packets::{Flow, Message, read_packets};

/// How many lines say what is wrong with a capture, at most.
const MOST: usize = 100;

/// What is wrong with a capture.
#[derive(Drop)]
pub(crate) struct Notes<A: Allocator> {
    /// How many things.
    pub count: usize,
    /// The lines that say so, of the first hundred.
    pub lines: String<A>,
}

// Whether a task prints readable lines of items.
fn prints_lines(task: Task<'_>) -> bool
    ensures { result ≡ prints_lines task.entry }
{
    match task {
        Task::Show { look } => look.path.is_none(),
        Task::Whole {
            strict: Strict::Show { look },
        } => look.path.is_none(),
        _ => false,
    }
}

// What a stream of an input is called, in a line that says that something is wrong with it.
fn stream_name<A: Allocator>(alloc: A, name: &str, flow: Flow) -> Result<String<A>, AllocError>
    ensures { IfOk result (λ text. string_bytes text ≡ stream_name name.now flow) }
{
    let mut text = String::from_str(alloc, name)?;
    text.push_str(": ")?;
    push_flow(&mut text, flow)?;
    Ok(text)
}

// A place in a message, counted from the first byte of its stream.
fn moved(message: &Message, place: Place) -> Place
    ensures { result ≡ moved message.now place }
{
    Place {
        offset: message.offset.saturating_add(place.offset),
        ..place
    }
}

// The line of a gap.
fn gap_line<A: Allocator + Copy>(
    alloc: A,
    name: &str,
    message: &Message,
) -> Result<String<A>, AllocError>
    ensures { IfOk result (λ line. string_bytes line ≡ gap_line name.now message.now) }
{
    let stream = stream_name(alloc, name, message.flow)?;
    let mut line = String::new(alloc);
    push_text(&mut line, stream.as_str())?;
    line.push_str(": byte ")?;
    line.push_str(Buffer::new().format(message.offset))?;
    line.push_str(
        ": bytes are missing from the capture here, and the rest of this direction isn't read\n",
    )?;
    Ok(line)
}

// How to see what an encrypted connection carries.
fn hint(kind: Option<InputKind>) -> &'static str
    ensures { result.now ≡ hint kind }
{
    match kind {
        Some(InputKind::Tls) => "To see what TLS carries: tshark -o tls.keylog_file:FILE\n",
        _ => "",
    }
}

// The line of a fault of a message, or of a gap.
fn trouble<A: Allocator + Copy>(
    alloc: A,
    names: &Names<'_, A>,
    job: &Job<'_>,
    message: &Message,
    place: Option<Place>,
) -> Result<Option<String<A>>, AllocError>
    ensures { IfOk result (λ line. option_map (λ t. string_bytes t) line ≡ trouble (names_of names.now) job.now message.now place) }
{
    match place {
        Some(place) => {
            let stream = stream_name(alloc, job.name, message.flow)?;
            let place = moved(message, place);
            let told = place_told(job.task, place);
            let mut line = fault_line(alloc, names, stream.as_str(), told)?;
            line.push_str(hint(kind_at(place)))?;
            Ok(Some(line))
        }
        None if message.gap => Ok(Some(gap_line(alloc, job.name, message)?)),
        None => Ok(None),
    }
}

// Adds a line, if there is one.
fn note<A: Allocator>(notes: &mut Notes<A>, line: Option<String<A>>) -> Result<(), AllocError>
    ensures { OnOk result (notes_of notes.new ≡ noted (notes_of notes.old) (option_map (λ t. string_bytes t) line)) }
{
    let Some(line) = line else {
        return Ok(());
    };
    if notes.count < MOST {
        notes.lines.push_str(line.as_str())?;
    }
    notes.count = notes.count.saturating_add(1);
    Ok(())
}

// Adds the line of a fault of a message, or of a gap, if there is one.
fn note_trouble<A: Allocator + Copy>(
    alloc: A,
    names: &Names<'_, A>,
    job: &Job<'_>,
    message: &Message,
    place: Option<Place>,
    notes: &mut Notes<A>,
) -> Result<(), AllocError>
    ensures { OnOk result (notes_of notes.new ≡ noted (notes_of notes.old) (trouble (names_of names.now) job.now message.now place)) }
{
    let line = trouble(alloc, names, job, message, place)?;
    note(notes, line)
}

// The bytes of a message; none of a gap.
fn message_bytes<'b>(bytes: &'b [u8], message: &Message) -> &'b [u8]
    ensures are { result.now ≡ message_bytes bytes.now message.now }
    ensures bytes { AreBytes result.now }
{
    let rest = &bytes[message.start.min(bytes.len())..];
    &rest[..message.size.min(rest.len())]
}

// Prints the line in front of a message, in front of readable lines.
fn print_head<A: Allocator, W: Sink>(
    alloc: A,
    task: Task<'_>,
    message: &Message,
    output: &mut W,
) -> Result<(), RunError>
    ensures ok { OnOk result (Gets (held W.emitted W.room output.old) (held W.emitted W.room output.new) (head task.entry message.now)) }
    ensures why { IfErr result IsOfPrinting }
    ensures err { IfErr result (λ why. SomeText (IsFrontOf (head task.entry message.now))
        (PrintsFront why (held W.emitted W.room output.old) (held W.emitted W.room output.new))) }
{
    if prints_lines(task) && !message.gap {
        let line = message_line(alloc, message)?;
        return send(output, line.as_bytes());
    }
    Ok(())
}

// Prints a message, and gives its first fault.
fn print_message<A: Allocator + Copy, W: Sink>(
    alloc: A,
    names: &Names<'_, A>,
    job: &Job<'_>,
    bytes: &[u8],
    message: &Message,
    output: &mut W,
) -> Result<Option<Place>, RunError>
    ensures ok { IfOk result (λ place. SomeText (λ t. PrintsMessage (names_of names.now) job.now bytes.now message.now t place)
        (Gets (held W.emitted W.room output.old) (held W.emitted W.room output.new))) }
    ensures why { IfErr result IsOfPrinting }
    ensures err { IfErr result (λ why. SomeText (BreaksMessage (names_of names.now) job.now bytes.now message.now)
        (PrintsFront why (held W.emitted W.room output.old) (held W.emitted W.room output.new))) }
{
    print_head(alloc, job.task, message, output)?;
    let alone = message_bytes(bytes, message);
    match print_messages(alloc, names, job.task, 0, alone, true, output)? {
        Reached::Behind(_) => Ok(None),
        Reached::Fault(place) => Ok(Some(place)),
    }
}

// Prints messages one after the other, and gives what is wrong with them.
fn print_packets<A: Allocator + Copy, W: Sink>(
    alloc: A,
    names: &Names<'_, A>,
    job: &Job<'_>,
    bytes: &[u8],
    messages: &[Message],
    output: &mut W,
) -> Result<Notes<A>, RunError>
    ensures ok { IfOk result (λ notes. PrintsPackets (names_of names.now) job.now bytes.now messages.now
        (held W.emitted W.room output.old) (held W.emitted W.room output.new) (notes_of notes)) }
    ensures err { IfErr result (BreaksPackets (names_of names.now) job.now bytes.now messages.now
        (held W.emitted W.room output.old) (held W.emitted W.room output.new)) }
{
    let mut notes = Notes {
        count: 0,
        lines: String::new(alloc),
    };
    for message in messages {
        let place = print_message(alloc, names, job, bytes, message, output)?;
        note_trouble(alloc, names, job, message, place, &mut notes)?;
    }
    Ok(notes)
}

// The line of a capture that ends with a part that isn't there as a whole, or with none that is known.
fn damage_line<A: Allocator>(alloc: A, name: &str, end: usize) -> Result<String<A>, AllocError>
    ensures { IfOk result (λ line. string_bytes line ≡ damage_line name.now end) }
{
    let mut line = String::new(alloc);
    push_text(&mut line, name)?;
    line.push_str(": byte ")?;
    line.push_str(Buffer::new().format(end))?;
    line.push_str(
        ": the packet capture is cut off or damaged here, and the rest of it isn't read\n",
    )?;
    Ok(line)
}

// That line, if a capture ends so.
fn damage<A: Allocator>(
    alloc: A,
    job: &Job<'_>,
    capture: &[u8],
    end: usize,
) -> Result<Option<String<A>>, AllocError>
    ensures { IfOk result (λ line. option_map (λ t. string_bytes t) line ≡ damage job.now capture.now end) }
{
    if end == capture.len() {
        return Ok(None);
    }
    Ok(Some(damage_line(alloc, job.name, end)?))
}

// Whether a task takes an input without a message.
fn takes_none(task: Task<'_>) -> bool
    ensures { result ≡ takes_none task.entry }
{
    match task {
        Task::Check { empty, .. } => empty,
        _ => false,
    }
}

// The line of a capture without a message on the port.
fn absence_line<A: Allocator>(alloc: A, name: &str, port: usize) -> Result<String<A>, AllocError>
    ensures { IfOk result (λ line. string_bytes line ≡ absence_line name.now port) }
{
    let mut line = String::new(alloc);
    push_text(&mut line, name)?;
    line.push_str(": no message on TCP port ")?;
    line.push_str(Buffer::new().format(port))?;
    line.push_str(" (--port)\n")?;
    Ok(line)
}

// That line, where the task wants a message.
fn absence<A: Allocator>(
    alloc: A,
    job: &Job<'_>,
    port: usize,
    messages: &[Message],
) -> Result<Option<String<A>>, AllocError>
    ensures { IfOk result (λ line. option_map (λ t. string_bytes t) line ≡ absence job.now port messages.now) }
{
    if messages.len() != 0 || takes_none(job.task) {
        return Ok(None);
    }
    Ok(Some(absence_line(alloc, job.name, port)?))
}

// Adds what is wrong with a capture as a whole.
fn note_whole<A: Allocator + Copy>(
    alloc: A,
    job: &Job<'_>,
    capture: &[u8],
    port: usize,
    end: usize,
    messages: &[Message],
    notes: &mut Notes<A>,
) -> Result<(), AllocError>
    ensures { OnOk result (notes_of notes.new ≡ all_notes job.now capture.now port end messages.now (notes_of notes.old)) }
{
    let line = damage(alloc, job, capture, end)?;
    note(notes, line)?;
    let line = absence(alloc, job, port, messages)?;
    note(notes, line)
}

// The line that says how many more things are wrong.
#[tactic(auto, unfolding(crate::specs::Traffic::rest_line))]
fn rest_line<A: Allocator>(alloc: A, name: &str, count: usize) -> Result<String<A>, AllocError>
    ensures { IfOk result (λ line. string_bytes line ≡ rest_line name.now count) }
{
    let mut line = String::new(alloc);
    if MOST < count {
        push_text(&mut line, name)?;
        line.push_str(": ")?;
        line.push_str(Buffer::new().format(count - MOST))?;
        line.push_str(" more\n")?;
    }
    Ok(line)
}

// Writes the lines that say what is wrong, as far as they can be written.
fn report_notes<A: Allocator, E: Sink>(errors: &mut E, notes: &Notes<A>, rest: &str)
    ensures { Says (held E.emitted E.room errors.old) (held E.emitted E.room errors.new) ((notes_of notes.now).lines ++ rest.now) }
{
    let writable = report(errors, true, notes.lines.as_str());
    report(errors, writable, rest);
}

/// Does with a packet capture what a job asks for, which begins with what was read: prints the messages on a port, and says what is wrong
/// with it. Returns whether nothing is.
pub(crate) fn respond_packets<
    A: Allocator + Copy,
    B: Allocator + Copy,
    R: Source,
    W: Sink,
    E: Sink,
>(
    memory: Memory<A, B>,
    job: &Job<'_>,
    port: usize,
    names: &Names<'_, B>,
    mut window: Window<A>,
    ended: bool,
    input: &mut R,
    output: &mut W,
    errors: &mut E,
) -> Result<bool, RunError>
    requires port { port_of (encoding_of job.now.encoding (window_bytes window)) ≡ Some port }
    requires front { ended ≡ false → front_size job.now.encoding (window_bytes window) ≤ length (window_bytes window) }
    requires at_end { ended ≡ true → IsAtEnd (R.left input.old) }
    ensures { (known : Option (List ℕ)) → Consumes known (R.left input.old) (window_bytes window)
        → RespondsPackets (names_of names.now) job.now
        (streams R.can_fail known (R.left input.new) (held W.emitted W.room output.old) (held W.emitted W.room output.new))
        (held E.emitted E.room errors.old) (held E.emitted E.room errors.new) result }
{
    window.read_rest(ended, input)?;
    let capture = window.buffered();
    let packets = read_packets(memory.input, capture, port)?;
    let bytes = packets.bytes.as_slice();
    let messages = packets.messages.as_slice();
    let mut notes = print_packets(memory.rest, names, job, bytes, messages, output)?;
    note_whole(
        memory.rest,
        job,
        capture,
        port,
        packets.end,
        messages,
        &mut notes,
    )?;
    let rest = rest_line(memory.rest, job.name, notes.count)?;
    if notes.count == 0 {
        return Ok(true);
    }
    report_notes(errors, &notes, rest.as_str());
    Ok(false)
}
