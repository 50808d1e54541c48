//! Diagnostics read back as readable lines: a line of the input for each.

ghost use Rattle.std.specs.Prelude.{◌≡◌, ◌≢◌, ◌<◌, ◌≤◌, ◌+◌, ◌++◌, ◌^◌, ℕ, false, length, drop, slice_index, IfOk, OnOk, OnErr, MatchOption};
ghost use Rattle.kmip_ttlv_util.specs.Pieces.{SomeText};
ghost use Rattle.kmip_ttlv_util.specs.TagNames.{name_in};
ghost use Rattle.ttlv_run.specs.Backs.{Stopped, Tries, IsOneLine, IsLineAt, ReadsBack, ReadsFront, back_words};
ghost use Rattle.ttlv_run.specs.Texts.{line_back};

use crate::guess::{mark_length, unmarked};
use kmip_ttlv_util::{Indentation, LentTagMap, TextSink, push_read_back};
use std::alloc::Allocator;
use std::str;

/// What is wrong with a line of diagnostics.
#[derive(Clone, Copy, Debug, PartialEq, Eq)]
pub enum BackFaultKind {
    /// No whole part of a diagnostic stands here.
    NoPart,
    /// The line ends here, and a structure is not closed.
    LeftOpen,
}

impl BackFaultKind {
    /// What is wrong, in words.
    pub fn words(self) -> &'static str
        ensures { result.now ≡ back_words self }
    {
        match self {
            BackFaultKind::NoPart => "no whole part of a diagnostic",
            BackFaultKind::LeftOpen => "a structure is not closed",
        }
    }
}

/// Where a text of diagnostics stops being one.
#[derive(Clone, Copy, Debug, PartialEq, Eq)]
pub struct BackFault {
    /// The first byte that is no part, in bytes from the input's first.
    pub offset: usize,
    /// Whether no part is there, or a structure is not closed.
    pub kind: BackFaultKind,
}

// What is wrong where reading a line ended, so deep and with so many bytes left.
fn stopped_at(offset: usize, depth: usize, left: usize) -> Option<BackFault>
    ensures { Stopped offset depth left result }
{
    let kind = if left > 0 {
        BackFaultKind::NoPart
    } else if depth > 0 {
        BackFaultKind::LeftOpen
    } else {
        return None;
    };
    Some(BackFault { offset, kind })
}

// Adds what a line, which begins at an offset, is read back as, but for a mark in front of it and white space at its end, and
// a line feed; nothing for an empty line. Gives where it stops being a diagnostic, if it does.
fn push_back<S: TextSink, A: Allocator + Copy>(
    alloc: A,
    out: &mut S,
    names: &LentTagMap<'_, A>,
    prefix: &str,
    at: usize,
    line: &str,
) -> Result<Option<BackFault>, S::Error>
    requires { at + length line.now < 2 ^ 64 }
    ensures text { OnOk result (S.adds out.old (line_back (name_in names.now) prefix.now line.now) out.new) }
    ensures broken { OnErr result (S.breaks out.old (line_back (name_in names.now) prefix.now line.now) out.new) }
    ensures fault { IfOk result (λ fault. Tries prefix.now at line.now fault) }
{
    let mark = mark_length(line.as_bytes());
    let text = unmarked(line).trim_end();
    if text.is_empty() {
        return Ok(None);
    }
    let end = push_read_back(alloc, out, prefix, names, Indentation::Bounded, text)?;
    out.push_str("\n")?;
    let left = text.len() - end.used;
    Ok(stopped_at(at + mark + end.used, end.depth, left))
}

/// How far lines of diagnostics were read back.
#[derive(Clone, Copy, Debug, PartialEq, Eq)]
pub enum BackReached {
    /// Behind so many bytes, and where the first line that is not whole stops being a diagnostic, if there is one.
    Behind {
        count: usize,
        found: Option<BackFault>,
    },
    /// In front of a line that is not UTF-8.
    NoText,
}

/// Where the first line feed stands; behind all bytes if there is none.
pub fn line_end(bytes: &[u8]) -> usize
    ensures within { result ≤ length bytes.now }
    ensures before { (k : ℕ) → k < result → slice_index bytes.now k ≢ 10 }
    ensures found { result < length bytes.now → slice_index bytes.now result ≡ 10 }
{
    for (at, b) in bytes.iter().enumerate() {
        if *b == b'\n' {
            return at;
        }
    }
    bytes.len()
}

/// The bytes from a place on.
pub fn behind(bytes: &[u8], at: usize) -> &[u8]
    requires { at ≤ length bytes.now }
    ensures { result.now ≡ drop at bytes.now }
{
    &bytes[at..]
}

/// The line that begins at a place, without its line feed; nothing if that isn't there.
pub fn line_at(bytes: &[u8], at: usize) -> Option<&[u8]>
    requires { at ≤ length bytes.now }
    ensures { MatchOption result (IsOneLine (drop at bytes.now)) (λ line. IsLineAt bytes.now at line.now) }
{
    let rest = behind(bytes, at);
    let end = line_end(rest);
    if end < rest.len() {
        Some(&rest[..end])
    } else {
        None
    }
}

// Adds what the lines that end with a line feed are read back as, up to the first that is not UTF-8.
fn push_lines<S: TextSink, A: Allocator + Copy>(
    alloc: A,
    out: &mut S,
    names: &LentTagMap<'_, A>,
    prefix: &str,
    base: usize,
    bytes: &[u8],
) -> Result<BackReached, S::Error>
    requires { base + length bytes.now < 2 ^ 64 }
    ensures ok { IfOk result (λ reached. SomeText (ReadsBack (name_in names.now) prefix.now base bytes.now false reached)
        (λ t. S.adds out.old t out.new)) }
    ensures err { OnErr result (SomeText (ReadsFront (name_in names.now) prefix.now bytes.now false)
        (λ t. S.breaks out.old t out.new)) }
{
    let mut at = 0;
    let mut found = None;
    'lines: while let Some(line) = line_at(bytes, at) {
        let Ok(text) = str::from_utf8(line) else {
            return Ok(BackReached::NoText);
        };
        let fault = push_back(alloc, out, names, prefix, base + at, text)?;
        found = found.or(fault);
        at += line.len() + 1;
    }
    Ok(BackReached::Behind { count: at, found })
}

/// Adds what lines of diagnostics under a prefix are read back as, and gives where the first of them that is not whole
/// stops being one. Their bytes begin at an offset; if they aren't the last, what is behind the last line feed is left.
///
/// It stops in front of a line that is not UTF-8. What a line is read back as is never in memory as a whole. It fails
/// where the sink fails and when out of memory; a beginning of the text was added then.
pub fn print_back<S: TextSink, A: Allocator + Copy>(
    alloc: A,
    out: &mut S,
    names: &LentTagMap<'_, A>,
    prefix: &str,
    base: usize,
    bytes: &[u8],
    last: bool,
) -> Result<BackReached, S::Error>
    requires { base + length bytes.now < 2 ^ 64 }
    ensures ok { IfOk result (λ reached. SomeText (ReadsBack (name_in names.now) prefix.now base bytes.now last reached)
        (λ t. S.adds out.old t out.new)) }
    ensures err { OnErr result (SomeText (ReadsFront (name_in names.now) prefix.now bytes.now last)
        (λ t. S.breaks out.old t out.new)) }
{
    let reached = push_lines(alloc, out, names, prefix, base, bytes)?;
    let BackReached::Behind { count, found } = reached else {
        return Ok(BackReached::NoText);
    };
    if !last {
        return Ok(reached);
    }
    let rest = behind(bytes, count);
    let Ok(text) = str::from_utf8(rest) else {
        return Ok(BackReached::NoText);
    };
    let fault = push_back(alloc, out, names, prefix, base + count, text)?;
    Ok(BackReached::Behind {
        count: bytes.len(),
        found: found.or(fault),
    })
}
