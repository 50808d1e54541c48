//! Messages within anything else, printed as readable lines, each behind a line that says where it begins.

ghost use Rattle.std.specs.Prelude.{◌≡◌, List, IfOk, IfErr, OnOk, string_bytes};
ghost use Rattle.kmip_ttlv_items.specs.declared.found.FoundItem.{FoundItem as AnItem};
ghost use Rattle.kmip_ttlv_items.specs.FoundItems.{Lists};
ghost use Rattle.kmip_ttlv_types.specs.Held.{held, Gets, Says};
ghost use Rattle.kmip_ttlv_util.specs.Pieces.{SomeText};
ghost use Rattle.ttlv_run.specs.Finds.{notation_words, place_line, Shows, ShowsFront, IsPrinted, IsPrintedFront, Steps, FailsStep, fault_offset, fault_kind, fault_words, Searches, RespondsFind, find_line};
ghost use Rattle.ttlv_run.specs.Reasons.{IsOfPrinting, PrintsFront};
ghost use Rattle.ttlv_run.specs.Runs.{streams};
ghost use Rattle.ttlv_run.specs.Texts.{names_of};

use crate::coding::read_all;
use crate::from_json::send;
use crate::job::{Look, Names, Task};
use crate::kind::{InputKind, kind_of, kind_words};
use crate::memory::Memory;
use crate::messages::tag_there;
use crate::run::{print_messages, report, report_place};
use crate::run_error::RunError;
use itoa::Buffer;
use kmip_ttlv_types::stream::{Sink, Source};
use std::alloc::{AllocError, Allocator};
use ttlv_captures::{Capture, Notation, Search, Sought};

/// Why messages are not found.
#[derive(Clone, Copy, Debug, PartialEq, Eq)]
pub enum FindFault {
    /// No message stands in the input, which looks like this.
    NoneFound(Option<InputKind>),
    /// The search ended at this offset, since too much was read in vain.
    GaveUp(usize),
}

/// What the next step of a search found.
#[derive(Clone, Copy)]
enum Found {
    /// A message.
    Message,
    /// The end of the input.
    End,
    /// The offset at which the search ended.
    Limit(usize),
}

impl FindFault {
    // The offset that the line says, if it says one.
    fn offset(self) -> Option<usize>
        ensures { result ≡ fault_offset self }
    {
        match self {
            FindFault::NoneFound(_) => None,
            FindFault::GaveUp(offset) => Some(offset),
        }
    }

    // What the input looks like, if no message stands in it.
    fn kind(self) -> Option<InputKind>
        ensures { result ≡ fault_kind self }
    {
        match self {
            FindFault::NoneFound(kind) => kind,
            FindFault::GaveUp(_) => None,
        }
    }

    // What is wrong, in words.
    fn words(self) -> &'static str
        ensures { result.now ≡ fault_words self }
    {
        match self {
            FindFault::NoneFound(_) => "no message",
            FindFault::GaveUp(_) => "the search ended here, since too much looked like messages",
        }
    }
}

fn notation_words(notation: Notation) -> &'static str
    ensures { result.now ≡ notation_words notation }
{
    match notation {
        Notation::Raw => "raw",
        Notation::Hexadecimal => "hexadecimal",
        Notation::Numbers => "a list of numbers",
        Notation::Escaped => "escaped",
    }
}

// The line in front of a message.
fn place_line<A: Allocator>(
    alloc: A,
    offset: usize,
    notation: Notation,
) -> Result<String<A>, AllocError>
    ensures { IfOk result (λ line. string_bytes line ≡ place_line offset notation) }
{
    let mut line = String::new(alloc);
    line.push_str("byte ")?;
    line.push_str(Buffer::new().format(offset))?;
    line.push_str(" (")?;
    line.push_str(notation_words(notation))?;
    line.push_str("):\n")?;
    Ok(line)
}

// Prints the lines of a whole message.
fn print_items<A: Allocator + Copy, W: Sink>(
    alloc: A,
    names: &Names<'_, A>,
    look: Look<'_>,
    message: &[u8],
    output: &mut W,
) -> Result<(), RunError>
    requires whole { (xs : List AnItem) × Lists message.now xs }
    ensures ok { OnOk result (SomeText (Shows (names_of names.now) look.entry message.now)
        (Gets (held W.emitted W.room output.old) (held W.emitted W.room output.new))) }
    ensures why { IfErr result IsOfPrinting }
    ensures err { IfErr result (λ why. SomeText (ShowsFront (names_of names.now) look.entry message.now)
        (PrintsFront why (held W.emitted W.room output.old) (held W.emitted W.room output.new))) }
{
    let task = Task::Show { look };
    print_messages(alloc, names, task, 0, message, true, output)?;
    Ok(())
}

// Prints a message that was found, behind the line that says where it begins.
fn print_found<A: Allocator, B: Allocator + Copy, W: Sink>(
    alloc: B,
    names: &Names<'_, B>,
    look: Look<'_>,
    capture: &Capture<A>,
    output: &mut W,
) -> Result<(), RunError>
    requires whole { (xs : List AnItem) × Lists capture.now.written.message.items xs }
    ensures ok { OnOk result (SomeText (IsPrinted (names_of names.now) look.entry capture.now)
        (Gets (held W.emitted W.room output.old) (held W.emitted W.room output.new))) }
    ensures why { IfErr result IsOfPrinting }
    ensures err { IfErr result (λ why. SomeText (IsPrintedFront (names_of names.now) look.entry capture.now)
        (PrintsFront why (held W.emitted W.room output.old) (held W.emitted W.room output.new))) }
{
    let line = place_line(alloc, capture.offset, capture.written.notation)?;
    send(output, line.as_bytes())?;
    let message = capture.written.message.as_slice();
    print_items(alloc, names, look, message, output)?;
    Ok(())
}

// Prints the next message of a search.
fn print_next<A: Allocator + Copy, B: Allocator + Copy, W: Sink>(
    memory: Memory<A, B>,
    names: &Names<'_, B>,
    look: Look<'_>,
    search: &mut Search<'_>,
    output: &mut W,
) -> Result<Found, RunError>
    ensures text { search.new.text.now ≡ search.old.text.now }
    ensures ok { IfOk result (Steps (names_of names.now) look.entry search.old search.new
        (held W.emitted W.room output.old) (held W.emitted W.room output.new)) }
    ensures err { IfErr result (FailsStep (names_of names.now) look.entry search.old
        (held W.emitted W.room output.old) (held W.emitted W.room output.new)) }
{
    match search.next(memory.input)? {
        Sought::Found(capture) => {
            print_found(memory.rest, names, look, &capture, output)?;
            Ok(Found::Message)
        }
        Sought::Nothing => Ok(Found::End),
        Sought::GaveUp(offset) => Ok(Found::Limit(offset)),
    }
}

// Prints the messages that stand in bytes.
fn print_captures<A: Allocator + Copy, B: Allocator + Copy, W: Sink>(
    memory: Memory<A, B>,
    names: &Names<'_, B>,
    look: Look<'_>,
    input: &[u8],
    output: &mut W,
) -> Result<Option<FindFault>, RunError>
    ensures { Searches (names_of names.now) look.entry input.now
        (held W.emitted W.room output.old) (held W.emitted W.room output.new) result }
{
    let kind = kind_of(tag_there(input, 0));
    let mut search = Search::new(input);
    let mut is_found = false;
    'messages: loop {
        match print_next(memory, names, look, &mut search, output)? {
            Found::Message => is_found = true,
            Found::End if is_found => return Ok(None),
            Found::End => return Ok(Some(FindFault::NoneFound(kind))),
            Found::Limit(offset) => return Ok(Some(FindFault::GaveUp(offset))),
        }
    }
}

/// Prints the messages that stand in an input, which is read to its end first, and gives why none or not all are found.
pub(crate) fn find_messages<A: Allocator + Copy, B: Allocator + Copy, R: Source, W: Sink>(
    memory: Memory<A, B>,
    names: &Names<'_, B>,
    look: Look<'_>,
    input: &mut R,
    output: &mut W,
) -> Result<Option<FindFault>, RunError>
    ensures { RespondsFind (names_of names.now) look.entry
        (streams R.can_fail (R.left input.old) (R.left input.new) (held W.emitted W.room output.old) (held W.emitted W.room output.new)) result }
{
    let bytes = read_all(memory.input, input)?;
    print_captures(memory, names, look, bytes.as_slice(), output)
}

/// Writes the line that says that nothing was found in an input, or where the search ended, as far as it can be written. It takes no
/// memory.
pub(crate) fn report_find_fault<E: Sink>(errors: &mut E, name: &str, fault: FindFault)
    ensures { Says (held E.emitted E.room errors.old) (held E.emitted E.room errors.new) (find_line name.now fault) }
{
    let writable = report_place(errors, name, fault.offset());
    let writable = report(errors, writable, ": ");
    let writable = report(errors, writable, fault.words());
    let writable = report(errors, writable, kind_words(fault.kind()));
    report(errors, writable, "\n");
}
