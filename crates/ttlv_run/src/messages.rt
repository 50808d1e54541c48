//! The messages of an input, one after the other: what is printed of them, and the first fault.

ghost use Rattle.std.specs.Prelude.{◌≡◌, ◌<◌, ◌≤◌, ◌+◌, ◌^◌, length, ◌++◌, Option, IfOk, OnOk, OnErr, string_bytes};
ghost use Rattle.kmip_ttlv_types.specs.Places.{length_at};
ghost use Rattle.kmip_ttlv_util.specs.Pieces.{SomeText};
ghost use Rattle.ttlv_run.specs.Messages.{size_stated, is_there, first_size, message_at, tag_there, is_kmip, is_taken, wants_message, fault_words, wrong_words, kind_at, fault_line, tag_report};
ghost use Rattle.ttlv_run.specs.Streaming.{is_due, EndsAt, PrintsOn, ContinuesBehind};
ghost use Rattle.ttlv_run.specs.Texts.{names_of};

use crate::escape::push_text;
use crate::job::{Names, Task};
use crate::kind::{InputKind, kind_of, kind_words};
use crate::texts::push_message;
use itoa::Buffer;
use kmip_ttlv_items::FaultKind;
use kmip_ttlv_types::TtlvTag;
use kmip_ttlv_util::{TextSink, push_tag};
use std::alloc::{AllocError, Allocator};

/// The tag of a Request Message.
const REQUEST: u32 = 0x42_0078;

/// The tag of a Response Message.
const RESPONSE: u32 = 0x42_007B;

/// A fault among the bytes of an input's messages.
#[derive(Clone, Copy, Debug, PartialEq, Eq)]
pub struct Place {
    /// Where the item that is wrong begins, in bytes from the first message's first.
    pub offset: usize,
    /// Its tag, where the three bytes of a tag are there.
    pub tag: Option<TtlvTag>,
    /// Why the message is wrong there: its fault, or its root.
    pub wrong: Wrong,
}

/// What is wrong with a message.
#[derive(Clone, Copy, Debug, PartialEq, Eq)]
pub enum Wrong {
    /// It is not well-formed: its first fault is of this kind.
    Malformed(FaultKind),
    /// It is well-formed, but its root is neither a Request Message nor a Response Message.
    NotKmip,
}

/// Where printing messages one after the other ended.
#[derive(Clone, Copy, Debug, PartialEq, Eq)]
pub enum Reached {
    /// Behind so many bytes of whole messages.
    Behind(usize),
    /// At a message that is wrong, with where and why.
    Fault(Place),
}

// The length that a header in front states.
fn length_stated(bytes: &[u8]) -> u32
    requires { 8 ≤ length bytes.now }
    ensures { result ≡ length_at bytes.now 0 }
{
    u32::from_be_bytes([bytes[4], bytes[5], bytes[6], bytes[7]])
}

/// How many bytes the first message takes by its header, where that is there.
pub fn size_stated(bytes: &[u8]) -> Option<usize>
    ensures { result ≡ size_stated bytes.now }
{
    if bytes.len() < 8 {
        return None;
    }
    Some(8 + length_stated(bytes) as usize)
}

// Whether all bytes of the first message are there.
fn is_there(bytes: &[u8]) -> bool
    ensures { result ≡ is_there bytes.now }
{
    match size_stated(bytes) {
        Some(stated) => stated <= bytes.len(),
        None => false,
    }
}

// How many bytes the first message takes.
fn first_size(bytes: &[u8]) -> usize
    ensures size { result ≡ first_size bytes.now }
    ensures within { result ≤ length bytes.now }
    ensures some { 0 < length bytes.now → 0 < result }
{
    match size_stated(bytes) {
        Some(stated) if stated <= bytes.len() => stated,
        _ => bytes.len(),
    }
}

// The message that begins at a place.
fn message_at(bytes: &[u8], at: usize) -> &[u8]
    requires { at ≤ length bytes.now }
    ensures is { result.now ≡ message_at bytes.now at }
    ensures within { at + length result.now ≤ length bytes.now }
    ensures some { at < length bytes.now → 0 < length result.now }
{
    let rest = &bytes[at..];
    &rest[..first_size(rest)]
}

/// The tag at a place, where its three bytes are there.
pub fn tag_there(bytes: &[u8], at: usize) -> Option<TtlvTag>
    ensures { result ≡ tag_there bytes.now at }
{
    if bytes.len() < 3 || bytes.len() - 3 < at {
        return None;
    }
    Some(TtlvTag::from([bytes[at], bytes[at + 1], bytes[at + 2]]))
}

// Whether a tag is that of a Request Message or of a Response Message.
fn is_kmip(tag: Option<TtlvTag>) -> bool
    ensures { result ≡ is_kmip tag }
{
    match tag {
        Some(tag) => *tag == REQUEST || *tag == RESPONSE,
        None => false,
    }
}

// Whether a message's root is one that a task takes.
fn is_taken(task: Task<'_>, message: &[u8]) -> bool
    ensures { result ≡ is_taken task.entry message.now }
{
    match task {
        Task::Check { kmip, .. } => !kmip || is_kmip(tag_there(message, 0)),
        _ => true,
    }
}

/// Whether a task wants a message in its input.
pub fn wants_message(task: Task<'_>) -> bool
    ensures { result ≡ wants_message task.entry }
{
    match task {
        Task::Check { empty, .. } => !empty,
        _ => false,
    }
}

// Whether a message begins at a place that all of is there, or all of the input.
fn is_due(bytes: &[u8], at: usize, last: bool) -> bool
    requires { at ≤ length bytes.now }
    ensures { result ≡ is_due bytes.now at last }
{
    at < bytes.len() && (last || is_there(&bytes[at..]))
}

/// Adds what a task prints of messages, one after the other, up to the first fault. Their bytes stand at an offset among
/// those of all messages; where they aren't the last, what is printed ends in front of a message that isn't there as a whole.
///
/// It fails where the sink fails and when out of memory; a beginning of the text was added then.
pub fn print_all<S: TextSink, A: Allocator + Copy>(
    alloc: A,
    out: &mut S,
    names: &Names<'_, A>,
    task: Task<'_>,
    base: usize,
    bytes: &[u8],
    last: bool,
) -> Result<Reached, S::Error>
    requires { base + length bytes.now < 2 ^ 64 }
    ensures end { IfOk result (EndsAt bytes.now last) }
    ensures ok { IfOk result (λ reached. SomeText (PrintsOn (names_of names.now) task.entry base bytes.now last reached)
        (λ t. S.adds out.old t out.new)) }
    ensures err { OnErr result (SomeText (ContinuesBehind (names_of names.now) task.entry base bytes.now last)
        (λ t. S.breaks out.old t out.new)) }
{
    let mut at = 0;
    'messages: while is_due(bytes, at, last) {
        let message = message_at(bytes, at);
        let place = base + at;
        if let Some(fault) = push_message(alloc, out, names, task, place, message)? {
            return Ok(Reached::Fault(Place {
                offset: place + fault.offset,
                tag: tag_there(message, fault.offset),
                wrong: Wrong::Malformed(fault.kind),
            }));
        }
        if !is_taken(task, message) {
            return Ok(Reached::Fault(Place {
                offset: place,
                tag: tag_there(message, 0),
                wrong: Wrong::NotKmip,
            }));
        }
        at += message.len();
    }
    Ok(Reached::Behind(at))
}

// What is wrong, in words.
fn wrong_words(wrong: Wrong) -> &'static str
    ensures { result.now ≡ wrong_words wrong }
{
    match wrong {
        Wrong::Malformed(kind) => fault_words(kind),
        Wrong::NotKmip => "neither a Request Message nor a Response Message",
    }
}

/// What the input looks like, if the first message is wrong where it begins.
pub fn kind_at(place: Place) -> Option<InputKind>
    ensures { result ≡ kind_at place }
{
    if place.offset == 0 {
        return kind_of(place.tag);
    }
    None
}

// A fault in words.
fn fault_words(kind: FaultKind) -> &'static str
    ensures { result.now ≡ fault_words kind }
{
    match kind {
        FaultKind::Cut => "the input ends within the message",
        FaultKind::NoStructure => "a message begins with a Structure",
        FaultKind::UnknownType => "unknown type",
        FaultKind::PartialHeader => "the structure around has no room for a header",
        FaultKind::WrongLength => "wrong length for the type",
        FaultKind::Overlong => "longer than the structure around",
        FaultKind::InvalidValue => "invalid value for the type",
        FaultKind::Surplus => "bytes behind the message",
    }
}

// A tag with its name, or that there is none.
fn push_report<A: Allocator>(
    out: &mut String<A>,
    names: &Names<'_, A>,
    tag: Option<TtlvTag>,
) -> Result<(), AllocError>
    ensures { OnOk result (string_bytes out.new ≡ string_bytes out.old ++ tag_report (names_of names.now) tag) }
{
    match tag {
        Some(tag) => push_tag(out, &names.tags, tag),
        None => out.push_str("no tag"),
    }
}

/// The line on standard error that says where an input is malformed.
///
/// It fails only if memory runs out.
#[tactic(auto, unfolding(crate::specs::Messages::fault_line))]
pub fn fault_line<A: Allocator + Copy>(
    alloc: A,
    names: &Names<'_, A>,
    name: &str,
    place: Place,
) -> Result<String<A>, AllocError>
    ensures { IfOk result (λ line. string_bytes line ≡ fault_line (names_of names.now) name.now place) }
{
    let mut line = String::new(alloc);
    push_text(&mut line, name)?;
    line.push_str(": byte ")?;
    line.push_str(Buffer::new().format(place.offset))?;
    line.push_str(": ")?;
    push_report(&mut line, names, place.tag)?;
    line.push_str(": ")?;
    line.push_str(wrong_words(place.wrong))?;
    line.push_str(kind_words(kind_at(place)))?;
    line.push_str("\n")?;
    Ok(line)
}
