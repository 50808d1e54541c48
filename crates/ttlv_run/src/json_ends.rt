//! Where a value ends in a text of JSON that comes piece by piece: by brackets outside of strings, or by the line's end if it
//! begins with none.

ghost use Rattle.std.specs.Prelude.{◌≡◌, ◌<◌, ◌≤◌, ◌+◌, ◌^◌, true, length, take, slice_index, Some};
ghost use Rattle.ttlv_run.specs.declared.json_ends.Part.TheVariants.{Front as TheFront, Brackets as InBrackets, Text as InText};
ghost use Rattle.ttlv_run.specs.JsonEnds.{is_opening, is_closing, is_in_front, is_in_line, ends_line, closes, is_end, part_after, depth_of, goes_on, IsSeen, FindsValue};

use crate::back::behind;

/// The part of a value behind a byte.
#[derive(Clone, Copy, Debug, PartialEq, Eq)]
pub enum Part {
    /// In front of its first byte that is no white space.
    Front,
    /// In one that begins with no bracket.
    Line,
    /// In so many brackets, and in no string.
    Brackets(usize),
    /// In a string in so many brackets.
    Text(usize),
    /// There, behind a backslash.
    Backslash(usize),
}

/// What stands in front of a text.
#[derive(Clone, Copy)]
pub enum First<'t> {
    /// A whole value, and how many bytes it takes, with a line feed that ends it.
    Whole { value: &'t [u8], size: usize },
    /// A value that goes on, and its part behind the text.
    Open { part: Part },
}

fn is_opening(b: u8) -> bool
    ensures { result ≡ is_opening b }
{
    b == b'{' || b == b'['
}

fn is_closing(b: u8) -> bool
    ensures { result ≡ is_closing b }
{
    b == b'}' || b == b']'
}

// Whether a byte is white space, or one of the mark of UTF-8.
fn is_in_front(b: u8) -> bool
    ensures { result ≡ is_in_front b }
{
    b == b' ' || b == b'\t' || b == b'\r' || b == 239 || b == 187 || b == 191
}

// Whether a line feed would end the value.
fn is_in_line(part: Part) -> bool
    ensures { result ≡ is_in_line part }
{
    match part {
        Part::Front | Part::Line => true,
        Part::Brackets(_) | Part::Text(_) | Part::Backslash(_) => false,
    }
}

// Whether a byte is the line feed that ends the value.
fn ends_line(part: Part, b: u8) -> bool
    ensures { result ≡ ends_line part b }
{
    is_in_line(part) && b == b'\n'
}

// Whether a byte is the bracket that ends the value.
fn closes(part: Part, b: u8) -> bool
    ensures { result ≡ closes part b }
{
    match part {
        Part::Brackets(depth) => depth <= 1 && is_closing(b),
        Part::Front | Part::Line | Part::Text(_) | Part::Backslash(_) => false,
    }
}

// Whether a byte ends the value.
fn is_end(part: Part, b: u8) -> bool
    ensures { result ≡ is_end part b }
{
    ends_line(part, b) || closes(part, b)
}

// The part behind a byte in front of a value, which may be its first.
fn part_in_front(b: u8) -> Part
    ensures { result ≡ part_after TheFront b }
{
    if is_opening(b) {
        Part::Brackets(1)
    } else if is_in_front(b) {
        Part::Front
    } else {
        Part::Line
    }
}

// The part behind a byte in brackets and in no string.
fn part_in_brackets(depth: usize, b: u8) -> Part
    requires { depth + 1 < 2 ^ 64 }
    ensures { result ≡ part_after (InBrackets depth) b }
{
    if b == b'"' {
        Part::Text(depth)
    } else if is_opening(b) {
        Part::Brackets(depth + 1)
    } else if is_closing(b) {
        Part::Brackets(depth.saturating_sub(1))
    } else {
        Part::Brackets(depth)
    }
}

// The part behind a byte in a string.
fn part_in_text(depth: usize, b: u8) -> Part
    ensures { result ≡ part_after (InText depth) b }
{
    if b == b'"' {
        Part::Brackets(depth)
    } else if b == b'\\' {
        Part::Backslash(depth)
    } else {
        Part::Text(depth)
    }
}

// The part behind a byte that doesn't end the value.
fn part_after(part: Part, b: u8) -> Part
    requires { depth_of part + 1 < 2 ^ 64 }
    ensures { result ≡ part_after part b }
{
    match part {
        Part::Front => part_in_front(b),
        Part::Line => Part::Line,
        Part::Brackets(depth) => part_in_brackets(depth, b),
        Part::Text(depth) => part_in_text(depth, b),
        Part::Backslash(depth) => Part::Text(depth),
    }
}

// How many bytes don't end the value, and its part behind them.
fn scan(part: Part, bytes: &[u8]) -> (usize, Part)
    requires { depth_of part + length bytes.now < 2 ^ 64 }
    ensures within { result.0 ≤ length bytes.now }
    ensures goes { goes_on part (take result.0 bytes.now) ≡ Some result.1 }
    ensures ends { result.0 < length bytes.now → is_end result.1 (slice_index bytes.now result.0) ≡ true }
{
    let mut part = part;
    for (at, b) in bytes.iter().enumerate() {
        if is_end(part, *b) {
            return (at, part);
        }
        part = part_after(part, *b);
    }
    (bytes.len(), part)
}

// The value that a byte ends.
fn value_to(text: &[u8], at: usize, part: Part) -> First<'_>
    requires at { at < length text.now }
    requires seen { goes_on TheFront (take at text.now) ≡ Some part }
    requires ends { is_end part (slice_index text.now at) ≡ true }
    ensures { FindsValue text.now result }
{
    let size = at + 1;
    if closes(part, text[at]) {
        return First::Whole {
            value: &text[..size],
            size,
        };
    }
    First::Whole {
        value: &text[..at],
        size,
    }
}

/// The value in front of a text, of which so many bytes were seen that don't end it.
pub fn first_value(text: &[u8], seen: usize, part: Part) -> First<'_>
    requires { IsSeen text.now seen part }
    ensures { FindsValue text.now result }
{
    let (more, part) = scan(part, behind(text, seen));
    if seen + more < text.len() {
        return value_to(text, seen + more, part);
    }
    First::Open { part }
}
